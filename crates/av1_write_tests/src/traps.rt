// Units of inter blocks where a step is easily misread: what it clears and what it leaves. Those of status 0 were answered by rav1e's own
// calls; the rules of the refusals are those of the tables. All are rows as those of `ROWS`.

/// Steps that forget the candidates: a mode, a later candidate or a vector after them is refused.
pub const FORGOTTEN: &str =
    r#"{"seq":{"chroma_sampling":3,"still_picture":false,"reduced_still_picture_hdr":false},"frame":{"width":8,"height":8,"frame_type":1,"intra_only":false,"force_integer_mv":0,"refresh_frame_flags":0},"tiles":[[{"op":"Block","x":0,"y":0,"size":3},{"op":"IsInter","a":true},{"op":"RefFrames","a":[1,8]},{"op":"MvRefs","has_tr":false},{"op":"InterMode","a":14},{"op":"IsInter","a":true},{"op":"InterMode","a":14}]]}
6
refused tile 0 item 6 r79

{"seq":{"chroma_sampling":3,"still_picture":false,"reduced_still_picture_hdr":false},"frame":{"width":8,"height":8,"frame_type":1,"intra_only":false,"force_integer_mv":0,"refresh_frame_flags":0},"tiles":[[{"op":"Block","x":0,"y":0,"size":3},{"op":"IsInter","a":true},{"op":"RefFrames","a":[1,8]},{"op":"MvRefs","has_tr":false},{"op":"InterMode","a":14},{"op":"RefFrames","a":[1,8]},{"op":"InterMode","a":14}]]}
6
refused tile 0 item 6 r79

{"seq":{"chroma_sampling":3,"still_picture":false,"reduced_still_picture_hdr":false},"frame":{"width":8,"height":8,"frame_type":1,"intra_only":false,"force_integer_mv":0,"refresh_frame_flags":0,"reference_mode":2},"tiles":[[{"op":"Block","x":0,"y":0,"size":3},{"op":"IsInter","a":true},{"op":"RefFrames","a":[1,8]},{"op":"MvRefs","has_tr":false},{"op":"RefFrames","a":[2,8]},{"op":"CompoundMode","a":20}]]}
6
refused tile 0 item 5 r79

{"seq":{"chroma_sampling":3,"still_picture":false,"reduced_still_picture_hdr":false},"frame":{"width":8,"height":8,"frame_type":1,"intra_only":false,"force_integer_mv":0,"refresh_frame_flags":0},"tiles":[[{"op":"Block","x":0,"y":0,"size":3},{"op":"IsInter","a":true},{"op":"RefFrames","a":[1,8]},{"op":"MvRefs","has_tr":false},{"op":"Block","x":0,"y":0,"size":3},{"op":"IsInter","a":true},{"op":"InterMode","a":14}]]}
6
refused tile 0 item 6 r79

{"seq":{"chroma_sampling":3,"still_picture":false,"reduced_still_picture_hdr":false},"frame":{"width":16,"height":16,"frame_type":1,"intra_only":false,"force_integer_mv":0,"refresh_frame_flags":0},"tiles":[[{"op":"Block","x":0,"y":0,"size":3},{"op":"IsInter","a":true},{"op":"RefFrames","a":[1,8]},{"op":"MvRefs","has_tr":false},{"op":"InterMode","a":19},{"op":"Mv","list":0,"a":[8,-16]},{"op":"Block","x":2,"y":0,"size":3},{"op":"IsInter","a":true},{"op":"RefFrames","a":[1,8]},{"op":"MvRefs","has_tr":false},{"op":"InterMode","a":19},{"op":"Mv","list":0,"a":[24,0]},{"op":"Block","x":0,"y":2,"size":3},{"op":"IsInter","a":true},{"op":"RefFrames","a":[1,8]},{"op":"MvRefs","has_tr":false},{"op":"InterMode","a":19},{"op":"Mv","list":0,"a":[-40,6]},{"op":"Block","x":2,"y":2,"size":3},{"op":"IsInter","a":true},{"op":"RefFrames","a":[1,8]},{"op":"MvRefs","has_tr":false},{"op":"InterMode","a":19},{"op":"RefFrames","a":[1,8]},{"op":"Drl","idx":0,"a":false}]]}
6
refused tile 0 item 24 r80

{"seq":{"chroma_sampling":3,"still_picture":false,"reduced_still_picture_hdr":false},"frame":{"width":16,"height":16,"frame_type":1,"intra_only":false,"force_integer_mv":0,"refresh_frame_flags":0},"tiles":[[{"op":"Block","x":0,"y":0,"size":3},{"op":"IsInter","a":true},{"op":"RefFrames","a":[1,8]},{"op":"MvRefs","has_tr":false},{"op":"InterMode","a":19},{"op":"Mv","list":0,"a":[8,-16]},{"op":"Block","x":2,"y":0,"size":3},{"op":"IsInter","a":true},{"op":"RefFrames","a":[1,8]},{"op":"MvRefs","has_tr":false},{"op":"InterMode","a":19},{"op":"Mv","list":0,"a":[24,0]},{"op":"Block","x":0,"y":2,"size":3},{"op":"IsInter","a":true},{"op":"RefFrames","a":[1,8]},{"op":"MvRefs","has_tr":false},{"op":"InterMode","a":19},{"op":"Mv","list":0,"a":[-40,6]},{"op":"Block","x":2,"y":2,"size":3},{"op":"IsInter","a":true},{"op":"RefFrames","a":[1,8]},{"op":"MvRefs","has_tr":false},{"op":"InterMode","a":19},{"op":"IsInter","a":true},{"op":"Drl","idx":0,"a":false}]]}
6
refused tile 0 item 24 r80

{"seq":{"chroma_sampling":3,"still_picture":false,"reduced_still_picture_hdr":false},"frame":{"width":8,"height":8,"frame_type":1,"intra_only":false,"force_integer_mv":0,"refresh_frame_flags":0},"tiles":[[{"op":"Block","x":0,"y":0,"size":3},{"op":"IsInter","a":true},{"op":"RefFrames","a":[1,8]},{"op":"MvRefs","has_tr":false},{"op":"InterMode","a":19},{"op":"RefFrames","a":[1,8]},{"op":"Mv","list":0,"a":[0,2]}]]}
6
refused tile 0 item 6 r81

{"seq":{"chroma_sampling":3,"still_picture":false,"reduced_still_picture_hdr":false},"frame":{"width":8,"height":8,"frame_type":1,"intra_only":false,"force_integer_mv":0,"refresh_frame_flags":0},"tiles":[[{"op":"Block","x":0,"y":0,"size":3},{"op":"IsInter","a":true},{"op":"RefFrames","a":[1,8]},{"op":"MvRefs","has_tr":false},{"op":"InterMode","a":19},{"op":"IsInter","a":true},{"op":"Mv","list":0,"a":[0,2]}]]}
6
refused tile 0 item 6 r81

{"seq":{"chroma_sampling":3,"still_picture":false,"reduced_still_picture_hdr":false},"frame":{"width":8,"height":8,"frame_type":1,"intra_only":false,"force_integer_mv":0,"refresh_frame_flags":0},"tiles":[[{"op":"Block","x":0,"y":0,"size":3},{"op":"IsInter","a":true},{"op":"RefFrames","a":[1,8]},{"op":"MvRefs","has_tr":false},{"op":"InterMode","a":19},{"op":"IsInter","a":false},{"op":"IsInter","a":true},{"op":"MvRefs","has_tr":false},{"op":"Mv","list":0,"a":[0,2]}]]}
6
refused tile 0 item 8 r81"#;

/// The modes that IsInter and RefFrames enter: 14 or 20 of an inter block, and 0 of an intra block, which has no angle.
pub const FIRST_MODES: &str =
    r#"{"seq":{"chroma_sampling":3,"still_picture":false,"reduced_still_picture_hdr":false},"frame":{"width":8,"height":8,"frame_type":1,"intra_only":false,"force_integer_mv":0,"refresh_frame_flags":0},"tiles":[[{"op":"Block","x":0,"y":0,"size":3},{"op":"IsInter","a":true},{"op":"RefFrames","a":[1,8]},{"op":"MvRefs","has_tr":false},{"op":"InterMode","a":19},{"op":"Mv","list":0,"a":[4,2]},{"op":"RefFrames","a":[3,8]},{"op":"MvRefs","has_tr":true},{"op":"InterMode","a":19},{"op":"Mv","list":0,"a":[2,2]}]]}
0
1200321130e000000003640000000085fb382a9c20
tile 0 6 43

{"seq":{"chroma_sampling":3,"still_picture":false,"reduced_still_picture_hdr":false},"frame":{"width":8,"height":8,"frame_type":1,"intra_only":false,"force_integer_mv":0,"refresh_frame_flags":0},"tiles":[[{"op":"Block","x":0,"y":0,"size":3},{"op":"IsInter","a":true},{"op":"IsInter","a":false},{"op":"IntraMode","a":7},{"op":"AngleDelta","chroma":false,"a":2}]]}
0
1200320d30e0000000036400000000a3c0
tile 0 2 10

{"seq":{"chroma_sampling":3,"still_picture":false,"reduced_still_picture_hdr":false},"frame":{"width":8,"height":8,"frame_type":1,"intra_only":false,"force_integer_mv":0,"refresh_frame_flags":0},"tiles":[[{"op":"Block","x":0,"y":0,"size":3},{"op":"IsInter","a":false},{"op":"IntraMode","a":7},{"op":"IsInter","a":false},{"op":"AngleDelta","chroma":false,"a":0}]]}
6
refused tile 0 item 4 r72

{"seq":{"chroma_sampling":3,"still_picture":false,"reduced_still_picture_hdr":false},"frame":{"width":16,"height":16,"frame_type":1,"intra_only":false,"force_integer_mv":0,"refresh_frame_flags":0},"tiles":[[{"op":"Block","x":0,"y":0,"size":3},{"op":"IsInter","a":true},{"op":"RefFrames","a":[1,8]},{"op":"MvRefs","has_tr":false},{"op":"InterMode","a":19},{"op":"Mv","list":0,"a":[8,-16]},{"op":"Block","x":2,"y":0,"size":3},{"op":"IsInter","a":true},{"op":"RefFrames","a":[1,8]},{"op":"MvRefs","has_tr":false},{"op":"InterMode","a":19},{"op":"Mv","list":0,"a":[24,0]},{"op":"Block","x":0,"y":2,"size":3},{"op":"IsInter","a":true},{"op":"RefFrames","a":[1,8]},{"op":"MvRefs","has_tr":false},{"op":"InterMode","a":19},{"op":"Mv","list":0,"a":[-40,6]},{"op":"Block","x":2,"y":2,"size":3},{"op":"IsInter","a":true},{"op":"RefFrames","a":[1,8]},{"op":"MvRefs","has_tr":false},{"op":"Drl","idx":1,"a":true}]]}
6
refused tile 0 item 22 r80

{"seq":{"chroma_sampling":3,"still_picture":false,"reduced_still_picture_hdr":false},"frame":{"width":16,"height":16,"frame_type":1,"intra_only":false,"force_integer_mv":0,"refresh_frame_flags":0,"reference_mode":2},"tiles":[[{"op":"Block","x":0,"y":0,"size":3},{"op":"IsInter","a":true},{"op":"RefFrames","a":[1,5]},{"op":"MvRefs","has_tr":false},{"op":"CompoundMode","a":33},{"op":"Mv","list":0,"a":[8,-16]},{"op":"Mv","list":1,"a":[2,4]},{"op":"Block","x":2,"y":0,"size":3},{"op":"IsInter","a":true},{"op":"RefFrames","a":[1,5]},{"op":"MvRefs","has_tr":false},{"op":"CompoundMode","a":33},{"op":"Mv","list":0,"a":[24,0]},{"op":"Mv","list":1,"a":[-8,0]},{"op":"Block","x":0,"y":2,"size":3},{"op":"IsInter","a":true},{"op":"RefFrames","a":[1,5]},{"op":"MvRefs","has_tr":false},{"op":"CompoundMode","a":33},{"op":"Mv","list":0,"a":[-40,6]},{"op":"Mv","list":1,"a":[0,0]},{"op":"Block","x":2,"y":2,"size":3},{"op":"IsInter","a":true},{"op":"RefFrames","a":[1,5]},{"op":"MvRefs","has_tr":false},{"op":"Mv","list":0,"a":[0,0]}]]}
6
refused tile 0 item 25 r81"#;

/// The chroma mode stays until the next Block.
pub const CHROMA_MODES: &str =
    r#"{"seq":{"chroma_sampling":0,"still_picture":false,"reduced_still_picture_hdr":false},"frame":{"width":8,"height":8,"frame_type":1,"intra_only":false,"force_integer_mv":0,"refresh_frame_flags":0},"tiles":[[{"op":"Block","x":0,"y":0,"size":3},{"op":"UvMode","a":5},{"op":"IsInter","a":false},{"op":"AngleDelta","chroma":true,"a":-2}]]}
0
1200320e30e0000000036400000000005d80
tile 0 2 9

{"seq":{"chroma_sampling":0,"still_picture":false,"reduced_still_picture_hdr":false},"frame":{"width":8,"height":8,"frame_type":1,"intra_only":false,"force_integer_mv":0,"refresh_frame_flags":0},"tiles":[[{"op":"Block","x":0,"y":0,"size":3},{"op":"UvMode","a":5},{"op":"IsInter","a":true},{"op":"RefFrames","a":[2,8]},{"op":"IsInter","a":false},{"op":"IntraMode","a":2},{"op":"AngleDelta","chroma":true,"a":-2}]]}
0
1200320f30e00000000364000000000065bf80
tile 0 3 17

{"seq":{"chroma_sampling":0,"still_picture":false,"reduced_still_picture_hdr":false},"frame":{"width":8,"height":8,"frame_type":1,"intra_only":false,"force_integer_mv":0,"refresh_frame_flags":0,"allow_screen_content_tools":1},"tiles":[[{"op":"Block","x":0,"y":0,"size":3},{"op":"UvMode","a":0},{"op":"IsInter","a":true},{"op":"RefFrames","a":[2,8]},{"op":"MvRefs","has_tr":false},{"op":"InterMode","a":14},{"op":"IsInter","a":false},{"op":"Palette","a":false}]]}
0
1200320e327000000001b200000000000b12
tile 0 2 15

{"seq":{"chroma_sampling":0,"still_picture":false,"reduced_still_picture_hdr":false},"frame":{"width":8,"height":8,"frame_type":1,"intra_only":false,"force_integer_mv":0,"refresh_frame_flags":0},"tiles":[[{"op":"Block","x":0,"y":0,"size":3},{"op":"UvMode","a":5},{"op":"IsInter","a":true},{"op":"AngleDelta","chroma":true,"a":-2}]]}
6
refused tile 0 item 3 r66

{"seq":{"chroma_sampling":0,"still_picture":false,"reduced_still_picture_hdr":false},"frame":{"width":8,"height":8,"frame_type":1,"intra_only":false,"force_integer_mv":0,"refresh_frame_flags":0},"tiles":[[{"op":"Block","x":0,"y":0,"size":3},{"op":"UvMode","a":5},{"op":"Block","x":0,"y":0,"size":3},{"op":"AngleDelta","chroma":true,"a":-2}]]}
6
refused tile 0 item 3 r72

{"seq":{"chroma_sampling":0,"still_picture":false,"reduced_still_picture_hdr":false},"frame":{"width":8,"height":8,"frame_type":1,"intra_only":false,"force_integer_mv":0,"refresh_frame_flags":0},"tiles":[[{"op":"Block","x":0,"y":0,"size":3},{"op":"UvMode","a":5},{"op":"IsInter","a":true},{"op":"Block","x":0,"y":0,"size":3},{"op":"IsInter","a":false},{"op":"AngleDelta","chroma":true,"a":-2}]]}
6
refused tile 0 item 5 r72"#;

/// The vectors of a block stay until a mode, a later candidate, a vector or a Block: the block to its right has them as a candidate.
pub const VECTORS: &str =
    r#"{"seq":{"chroma_sampling":3,"still_picture":false,"reduced_still_picture_hdr":false},"frame":{"width":16,"height":8,"frame_type":1,"intra_only":false,"force_integer_mv":0,"refresh_frame_flags":0},"tiles":[[{"op":"Block","x":0,"y":0,"size":3},{"op":"IsInter","a":true},{"op":"RefFrames","a":[1,8]},{"op":"MvRefs","has_tr":false},{"op":"InterMode","a":19},{"op":"Mv","list":0,"a":[40,-24]},{"op":"Block","x":2,"y":0,"size":3},{"op":"IsInter","a":true},{"op":"RefFrames","a":[1,8]},{"op":"MvRefs","has_tr":false},{"op":"InterMode","a":19},{"op":"Mv","list":0,"a":[0,0]}]]}
0
1200321130e0000000036400000000862c4f64f554
tile 0 6 46

{"seq":{"chroma_sampling":3,"still_picture":false,"reduced_still_picture_hdr":false},"frame":{"width":16,"height":8,"frame_type":1,"intra_only":false,"force_integer_mv":0,"refresh_frame_flags":0},"tiles":[[{"op":"Block","x":0,"y":0,"size":3},{"op":"IsInter","a":true},{"op":"RefFrames","a":[1,8]},{"op":"MvRefs","has_tr":false},{"op":"InterMode","a":19},{"op":"Mv","list":0,"a":[40,-24]},{"op":"IsInter","a":true},{"op":"Block","x":2,"y":0,"size":3},{"op":"IsInter","a":true},{"op":"RefFrames","a":[1,8]},{"op":"MvRefs","has_tr":false},{"op":"InterMode","a":19},{"op":"Mv","list":0,"a":[0,0]}]]}
0
1200321130e0000000036400000000862c4fdc4132
tile 0 6 47

{"seq":{"chroma_sampling":3,"still_picture":false,"reduced_still_picture_hdr":false},"frame":{"width":16,"height":8,"frame_type":1,"intra_only":false,"force_integer_mv":0,"refresh_frame_flags":0},"tiles":[[{"op":"Block","x":0,"y":0,"size":3},{"op":"IsInter","a":true},{"op":"RefFrames","a":[1,8]},{"op":"MvRefs","has_tr":false},{"op":"InterMode","a":19},{"op":"Mv","list":0,"a":[40,-24]},{"op":"RefFrames","a":[1,8]},{"op":"Block","x":2,"y":0,"size":3},{"op":"IsInter","a":true},{"op":"RefFrames","a":[1,8]},{"op":"MvRefs","has_tr":false},{"op":"InterMode","a":19},{"op":"Mv","list":0,"a":[0,0]}]]}
0
1200321230e0000000036400000000862c4e801ab680
tile 0 7 49

{"seq":{"chroma_sampling":3,"still_picture":false,"reduced_still_picture_hdr":false},"frame":{"width":16,"height":8,"frame_type":1,"intra_only":false,"force_integer_mv":0,"refresh_frame_flags":0},"tiles":[[{"op":"Block","x":0,"y":0,"size":3},{"op":"IsInter","a":true},{"op":"RefFrames","a":[1,8]},{"op":"MvRefs","has_tr":false},{"op":"InterMode","a":19},{"op":"Mv","list":0,"a":[40,-24]},{"op":"MvRefs","has_tr":true},{"op":"Block","x":2,"y":0,"size":3},{"op":"IsInter","a":true},{"op":"RefFrames","a":[1,8]},{"op":"MvRefs","has_tr":false},{"op":"InterMode","a":19},{"op":"Mv","list":0,"a":[0,0]}]]}
0
1200321130e0000000036400000000862c4f64f554
tile 0 6 46

{"seq":{"chroma_sampling":3,"still_picture":false,"reduced_still_picture_hdr":false},"frame":{"width":16,"height":8,"frame_type":1,"intra_only":false,"force_integer_mv":0,"refresh_frame_flags":0},"tiles":[[{"op":"Block","x":0,"y":0,"size":3},{"op":"IsInter","a":true},{"op":"RefFrames","a":[1,8]},{"op":"MvRefs","has_tr":false},{"op":"InterMode","a":19},{"op":"Mv","list":0,"a":[40,-24]},{"op":"MvRefs","has_tr":false},{"op":"InterMode","a":14},{"op":"Block","x":2,"y":0,"size":3},{"op":"IsInter","a":true},{"op":"RefFrames","a":[1,8]},{"op":"MvRefs","has_tr":false},{"op":"InterMode","a":19},{"op":"Mv","list":0,"a":[0,0]}]]}
0
1200321030e0000000036400000000862c5012c0
tile 0 5 34

{"seq":{"chroma_sampling":3,"still_picture":false,"reduced_still_picture_hdr":false},"frame":{"width":16,"height":8,"frame_type":1,"intra_only":false,"force_integer_mv":0,"refresh_frame_flags":0},"tiles":[[{"op":"Block","x":0,"y":0,"size":3},{"op":"IsInter","a":true},{"op":"RefFrames","a":[1,8]},{"op":"MvRefs","has_tr":false},{"op":"InterMode","a":19},{"op":"Mv","list":0,"a":[40,-24]},{"op":"InterMode","a":19},{"op":"Block","x":2,"y":0,"size":3},{"op":"IsInter","a":true},{"op":"RefFrames","a":[1,8]},{"op":"MvRefs","has_tr":false},{"op":"InterMode","a":19},{"op":"Mv","list":0,"a":[0,0]}]]}
0
1200320f30e0000000036400000000862c4edf
tile 0 4 32

{"seq":{"chroma_sampling":3,"still_picture":false,"reduced_still_picture_hdr":false},"frame":{"width":16,"height":8,"frame_type":1,"intra_only":false,"force_integer_mv":0,"refresh_frame_flags":0},"tiles":[[{"op":"Block","x":0,"y":0,"size":3},{"op":"IsInter","a":true},{"op":"RefFrames","a":[1,8]},{"op":"MvRefs","has_tr":false},{"op":"InterMode","a":19},{"op":"Mv","list":0,"a":[40,-24]},{"op":"RefFrames","a":[1,8]},{"op":"MvRefs","has_tr":false},{"op":"InterMode","a":18},{"op":"Block","x":2,"y":0,"size":3},{"op":"IsInter","a":true},{"op":"RefFrames","a":[1,8]},{"op":"MvRefs","has_tr":false},{"op":"InterMode","a":19},{"op":"Mv","list":0,"a":[0,0]}]]}
0
1200321030e0000000036400000000862c4e8bd0
tile 0 5 36

{"seq":{"chroma_sampling":3,"still_picture":false,"reduced_still_picture_hdr":false},"frame":{"width":16,"height":8,"frame_type":1,"intra_only":false,"force_integer_mv":0,"refresh_frame_flags":0},"tiles":[[{"op":"Block","x":0,"y":0,"size":3},{"op":"IsInter","a":true},{"op":"RefFrames","a":[1,8]},{"op":"MvRefs","has_tr":false},{"op":"InterMode","a":19},{"op":"Mv","list":0,"a":[40,-24]},{"op":"Block","x":0,"y":0,"size":3},{"op":"IsInter","a":true},{"op":"RefFrames","a":[1,8]},{"op":"Block","x":2,"y":0,"size":3},{"op":"IsInter","a":true},{"op":"RefFrames","a":[1,8]},{"op":"MvRefs","has_tr":false},{"op":"InterMode","a":19},{"op":"Mv","list":0,"a":[0,0]}]]}
0
1200321030e0000000036400000000862c4f67e0
tile 0 5 35"#;

/// MvRefs leaves the number of the candidate, and so does Drl with false: the vector is coded against that place of the list.
pub const PICKS: &str =
    r#"{"seq":{"chroma_sampling":3,"still_picture":false,"reduced_still_picture_hdr":false},"frame":{"width":16,"height":16,"frame_type":1,"intra_only":false,"force_integer_mv":0,"refresh_frame_flags":0},"tiles":[[{"op":"Block","x":0,"y":0,"size":3},{"op":"IsInter","a":true},{"op":"RefFrames","a":[1,8]},{"op":"MvRefs","has_tr":false},{"op":"InterMode","a":19},{"op":"Mv","list":0,"a":[8,-16]},{"op":"Block","x":2,"y":0,"size":3},{"op":"IsInter","a":true},{"op":"RefFrames","a":[1,8]},{"op":"MvRefs","has_tr":false},{"op":"InterMode","a":19},{"op":"Mv","list":0,"a":[24,0]},{"op":"Block","x":0,"y":2,"size":3},{"op":"IsInter","a":true},{"op":"RefFrames","a":[1,8]},{"op":"MvRefs","has_tr":false},{"op":"InterMode","a":19},{"op":"Mv","list":0,"a":[-40,6]},{"op":"Block","x":2,"y":2,"size":3},{"op":"IsInter","a":true},{"op":"RefFrames","a":[1,8]},{"op":"MvRefs","has_tr":false},{"op":"InterMode","a":19},{"op":"Drl","idx":0,"a":true},{"op":"MvRefs","has_tr":true},{"op":"Mv","list":0,"a":[2,2]}]]}
0
1200321730e000000003640000000086029b333a55a09955a04e80
tile 0 12 89

{"seq":{"chroma_sampling":3,"still_picture":false,"reduced_still_picture_hdr":false},"frame":{"width":16,"height":16,"frame_type":1,"intra_only":false,"force_integer_mv":0,"refresh_frame_flags":0},"tiles":[[{"op":"Block","x":0,"y":0,"size":3},{"op":"IsInter","a":true},{"op":"RefFrames","a":[1,8]},{"op":"MvRefs","has_tr":false},{"op":"InterMode","a":19},{"op":"Mv","list":0,"a":[8,-16]},{"op":"Block","x":2,"y":0,"size":3},{"op":"IsInter","a":true},{"op":"RefFrames","a":[1,8]},{"op":"MvRefs","has_tr":false},{"op":"InterMode","a":19},{"op":"Mv","list":0,"a":[24,0]},{"op":"Block","x":0,"y":2,"size":3},{"op":"IsInter","a":true},{"op":"RefFrames","a":[1,8]},{"op":"MvRefs","has_tr":false},{"op":"InterMode","a":19},{"op":"Mv","list":0,"a":[-40,6]},{"op":"Block","x":2,"y":2,"size":3},{"op":"IsInter","a":true},{"op":"RefFrames","a":[1,8]},{"op":"MvRefs","has_tr":false},{"op":"InterMode","a":19},{"op":"Drl","idx":0,"a":true},{"op":"Drl","idx":0,"a":false},{"op":"Mv","list":0,"a":[2,2]}]]}
0
1200321730e000000003640000000086029b333a55a099547c3cc0
tile 0 12 90

{"seq":{"chroma_sampling":3,"still_picture":false,"reduced_still_picture_hdr":false},"frame":{"width":16,"height":16,"frame_type":1,"intra_only":false,"force_integer_mv":0,"refresh_frame_flags":0},"tiles":[[{"op":"Block","x":0,"y":0,"size":3},{"op":"IsInter","a":true},{"op":"RefFrames","a":[1,8]},{"op":"MvRefs","has_tr":false},{"op":"InterMode","a":19},{"op":"Mv","list":0,"a":[8,-16]},{"op":"Block","x":2,"y":0,"size":3},{"op":"IsInter","a":true},{"op":"RefFrames","a":[1,8]},{"op":"MvRefs","has_tr":false},{"op":"InterMode","a":19},{"op":"Mv","list":0,"a":[24,0]},{"op":"Block","x":0,"y":2,"size":3},{"op":"IsInter","a":true},{"op":"RefFrames","a":[1,8]},{"op":"MvRefs","has_tr":false},{"op":"InterMode","a":19},{"op":"Mv","list":0,"a":[-40,6]},{"op":"Block","x":2,"y":2,"size":3},{"op":"IsInter","a":true},{"op":"RefFrames","a":[1,8]},{"op":"MvRefs","has_tr":false},{"op":"InterMode","a":19},{"op":"Drl","idx":0,"a":true},{"op":"InterMode","a":19},{"op":"Mv","list":0,"a":[2,2]}]]}
0
1200321730e000000003640000000086029b333a55a09954d81c80
tile 0 12 89

{"seq":{"chroma_sampling":3,"still_picture":false,"reduced_still_picture_hdr":false},"frame":{"width":16,"height":16,"frame_type":1,"intra_only":false,"force_integer_mv":0,"refresh_frame_flags":0},"tiles":[[{"op":"Block","x":0,"y":0,"size":3},{"op":"IsInter","a":true},{"op":"RefFrames","a":[1,8]},{"op":"MvRefs","has_tr":false},{"op":"InterMode","a":19},{"op":"Mv","list":0,"a":[8,-16]},{"op":"Block","x":2,"y":0,"size":3},{"op":"IsInter","a":true},{"op":"RefFrames","a":[1,8]},{"op":"MvRefs","has_tr":false},{"op":"InterMode","a":19},{"op":"Mv","list":0,"a":[24,0]},{"op":"Block","x":0,"y":2,"size":3},{"op":"IsInter","a":true},{"op":"RefFrames","a":[1,8]},{"op":"MvRefs","has_tr":false},{"op":"InterMode","a":19},{"op":"Mv","list":0,"a":[-40,6]},{"op":"Block","x":2,"y":2,"size":3},{"op":"IsInter","a":true},{"op":"RefFrames","a":[1,8]},{"op":"MvRefs","has_tr":false},{"op":"InterMode","a":19},{"op":"Drl","idx":0,"a":true},{"op":"MvRefs","has_tr":false},{"op":"Mv","list":0,"a":[2,2]}]]}
0
1200321730e000000003640000000086029b333a55a09955a04e80
tile 0 12 89"#;

/// Drl with true enters the vectors anew, also over a vector that was coded; with false it enters nothing.
pub const LATER: &str =
    r#"{"seq":{"chroma_sampling":3,"still_picture":false,"reduced_still_picture_hdr":false},"frame":{"width":24,"height":16,"frame_type":1,"intra_only":false,"force_integer_mv":0,"refresh_frame_flags":0},"tiles":[[{"op":"Block","x":0,"y":0,"size":3},{"op":"IsInter","a":true},{"op":"RefFrames","a":[1,8]},{"op":"MvRefs","has_tr":false},{"op":"InterMode","a":19},{"op":"Mv","list":0,"a":[8,-16]},{"op":"Block","x":2,"y":0,"size":3},{"op":"IsInter","a":true},{"op":"RefFrames","a":[1,8]},{"op":"MvRefs","has_tr":false},{"op":"InterMode","a":19},{"op":"Mv","list":0,"a":[24,0]},{"op":"Block","x":0,"y":2,"size":3},{"op":"IsInter","a":true},{"op":"RefFrames","a":[1,8]},{"op":"MvRefs","has_tr":false},{"op":"InterMode","a":19},{"op":"Mv","list":0,"a":[-40,6]},{"op":"Block","x":2,"y":2,"size":3},{"op":"IsInter","a":true},{"op":"RefFrames","a":[1,8]},{"op":"MvRefs","has_tr":false},{"op":"InterMode","a":19},{"op":"Mv","list":0,"a":[100,-6]},{"op":"Drl","idx":0,"a":true},{"op":"Block","x":4,"y":2,"size":3},{"op":"IsInter","a":true},{"op":"RefFrames","a":[1,8]},{"op":"MvRefs","has_tr":false},{"op":"InterMode","a":19},{"op":"Mv","list":0,"a":[0,0]}]]}
0
1200321930e000000003640000000086029b333a55a09954eeed00decc
tile 0 14 110

{"seq":{"chroma_sampling":3,"still_picture":false,"reduced_still_picture_hdr":false},"frame":{"width":24,"height":16,"frame_type":1,"intra_only":false,"force_integer_mv":0,"refresh_frame_flags":0},"tiles":[[{"op":"Block","x":0,"y":0,"size":3},{"op":"IsInter","a":true},{"op":"RefFrames","a":[1,8]},{"op":"MvRefs","has_tr":false},{"op":"InterMode","a":19},{"op":"Mv","list":0,"a":[8,-16]},{"op":"Block","x":2,"y":0,"size":3},{"op":"IsInter","a":true},{"op":"RefFrames","a":[1,8]},{"op":"MvRefs","has_tr":false},{"op":"InterMode","a":19},{"op":"Mv","list":0,"a":[24,0]},{"op":"Block","x":0,"y":2,"size":3},{"op":"IsInter","a":true},{"op":"RefFrames","a":[1,8]},{"op":"MvRefs","has_tr":false},{"op":"InterMode","a":19},{"op":"Mv","list":0,"a":[-40,6]},{"op":"Block","x":2,"y":2,"size":3},{"op":"IsInter","a":true},{"op":"RefFrames","a":[1,8]},{"op":"MvRefs","has_tr":false},{"op":"InterMode","a":19},{"op":"Mv","list":0,"a":[100,-6]},{"op":"Drl","idx":0,"a":false},{"op":"Block","x":4,"y":2,"size":3},{"op":"IsInter","a":true},{"op":"RefFrames","a":[1,8]},{"op":"MvRefs","has_tr":false},{"op":"InterMode","a":19},{"op":"Mv","list":0,"a":[0,0]}]]}
0
1200321930e000000003640000000086029b333a55a09954eeec5bb569
tile 0 14 112

{"seq":{"chroma_sampling":3,"still_picture":false,"reduced_still_picture_hdr":false},"frame":{"width":24,"height":16,"frame_type":1,"intra_only":false,"force_integer_mv":0,"refresh_frame_flags":0},"tiles":[[{"op":"Block","x":0,"y":0,"size":3},{"op":"IsInter","a":true},{"op":"RefFrames","a":[1,8]},{"op":"MvRefs","has_tr":false},{"op":"InterMode","a":19},{"op":"Mv","list":0,"a":[8,-16]},{"op":"Block","x":2,"y":0,"size":3},{"op":"IsInter","a":true},{"op":"RefFrames","a":[1,8]},{"op":"MvRefs","has_tr":false},{"op":"InterMode","a":19},{"op":"Mv","list":0,"a":[24,0]},{"op":"Block","x":0,"y":2,"size":3},{"op":"IsInter","a":true},{"op":"RefFrames","a":[1,8]},{"op":"MvRefs","has_tr":false},{"op":"InterMode","a":19},{"op":"Mv","list":0,"a":[-40,6]},{"op":"Block","x":2,"y":2,"size":3},{"op":"IsInter","a":true},{"op":"RefFrames","a":[1,8]},{"op":"MvRefs","has_tr":false},{"op":"InterMode","a":19},{"op":"Drl","idx":0,"a":true},{"op":"Mv","list":0,"a":[100,-6]},{"op":"Block","x":4,"y":2,"size":3},{"op":"IsInter","a":true},{"op":"RefFrames","a":[1,8]},{"op":"MvRefs","has_tr":false},{"op":"InterMode","a":19},{"op":"Mv","list":0,"a":[0,0]}]]}
0
1200321a30e000000003640000000086029b333a55a09955b6c253063380
tile 0 15 113

{"seq":{"chroma_sampling":3,"still_picture":false,"reduced_still_picture_hdr":false},"frame":{"width":24,"height":16,"frame_type":1,"intra_only":false,"force_integer_mv":0,"refresh_frame_flags":0},"tiles":[[{"op":"Block","x":0,"y":0,"size":3},{"op":"IsInter","a":true},{"op":"RefFrames","a":[1,8]},{"op":"MvRefs","has_tr":false},{"op":"InterMode","a":19},{"op":"Mv","list":0,"a":[8,-16]},{"op":"Block","x":2,"y":0,"size":3},{"op":"IsInter","a":true},{"op":"RefFrames","a":[1,8]},{"op":"MvRefs","has_tr":false},{"op":"InterMode","a":19},{"op":"Mv","list":0,"a":[24,0]},{"op":"Block","x":0,"y":2,"size":3},{"op":"IsInter","a":true},{"op":"RefFrames","a":[1,8]},{"op":"MvRefs","has_tr":false},{"op":"InterMode","a":19},{"op":"Mv","list":0,"a":[-40,6]},{"op":"Block","x":2,"y":2,"size":3},{"op":"IsInter","a":true},{"op":"RefFrames","a":[1,8]},{"op":"MvRefs","has_tr":false},{"op":"InterMode","a":19},{"op":"Mv","list":0,"a":[100,-6]},{"op":"Drl","idx":0,"a":true},{"op":"Drl","idx":1,"a":false},{"op":"Block","x":4,"y":2,"size":3},{"op":"IsInter","a":true},{"op":"RefFrames","a":[1,8]},{"op":"MvRefs","has_tr":false},{"op":"InterMode","a":19},{"op":"Mv","list":0,"a":[0,0]}]]}
0
1200321930e000000003640000000086029b333a55a09954eeecd3b366
tile 0 14 111

{"seq":{"chroma_sampling":3,"still_picture":false,"reduced_still_picture_hdr":false},"frame":{"width":24,"height":16,"frame_type":1,"intra_only":false,"force_integer_mv":0,"refresh_frame_flags":0,"reference_mode":2},"tiles":[[{"op":"Block","x":0,"y":0,"size":3},{"op":"IsInter","a":true},{"op":"RefFrames","a":[1,5]},{"op":"MvRefs","has_tr":false},{"op":"CompoundMode","a":33},{"op":"Mv","list":0,"a":[8,-16]},{"op":"Mv","list":1,"a":[2,4]},{"op":"Block","x":2,"y":0,"size":3},{"op":"IsInter","a":true},{"op":"RefFrames","a":[1,5]},{"op":"MvRefs","has_tr":false},{"op":"CompoundMode","a":33},{"op":"Mv","list":0,"a":[24,0]},{"op":"Mv","list":1,"a":[-8,0]},{"op":"Block","x":0,"y":2,"size":3},{"op":"IsInter","a":true},{"op":"RefFrames","a":[1,5]},{"op":"MvRefs","has_tr":false},{"op":"CompoundMode","a":33},{"op":"Mv","list":0,"a":[-40,6]},{"op":"Mv","list":1,"a":[0,0]},{"op":"Block","x":2,"y":2,"size":3},{"op":"IsInter","a":true},{"op":"RefFrames","a":[1,5]},{"op":"MvRefs","has_tr":false},{"op":"CompoundMode","a":33},{"op":"Mv","list":0,"a":[6,6]},{"op":"Mv","list":1,"a":[-6,6]},{"op":"Block","x":4,"y":2,"size":3},{"op":"IsInter","a":true},{"op":"RefFrames","a":[1,5]},{"op":"MvRefs","has_tr":false},{"op":"CompoundMode","a":33},{"op":"Mv","list":0,"a":[0,0]},{"op":"Mv","list":1,"a":[0,0]}]]}
0
1200322430e0000000036400000400e1ee70e174c400b1ae6d908261d12ebf176c03889f092dbe68
tile 0 25 197

{"seq":{"chroma_sampling":3,"still_picture":false,"reduced_still_picture_hdr":false},"frame":{"width":24,"height":16,"frame_type":1,"intra_only":false,"force_integer_mv":0,"refresh_frame_flags":0,"reference_mode":2},"tiles":[[{"op":"Block","x":0,"y":0,"size":3},{"op":"IsInter","a":true},{"op":"RefFrames","a":[1,5]},{"op":"MvRefs","has_tr":false},{"op":"CompoundMode","a":33},{"op":"Mv","list":0,"a":[8,-16]},{"op":"Mv","list":1,"a":[2,4]},{"op":"Block","x":2,"y":0,"size":3},{"op":"IsInter","a":true},{"op":"RefFrames","a":[1,5]},{"op":"MvRefs","has_tr":false},{"op":"CompoundMode","a":33},{"op":"Mv","list":0,"a":[24,0]},{"op":"Mv","list":1,"a":[-8,0]},{"op":"Block","x":0,"y":2,"size":3},{"op":"IsInter","a":true},{"op":"RefFrames","a":[1,5]},{"op":"MvRefs","has_tr":false},{"op":"CompoundMode","a":33},{"op":"Mv","list":0,"a":[-40,6]},{"op":"Mv","list":1,"a":[0,0]},{"op":"Block","x":2,"y":2,"size":3},{"op":"IsInter","a":true},{"op":"RefFrames","a":[1,5]},{"op":"MvRefs","has_tr":false},{"op":"CompoundMode","a":33},{"op":"Mv","list":0,"a":[6,6]},{"op":"Mv","list":1,"a":[-6,6]},{"op":"Drl","idx":0,"a":true},{"op":"Block","x":4,"y":2,"size":3},{"op":"IsInter","a":true},{"op":"RefFrames","a":[1,5]},{"op":"MvRefs","has_tr":false},{"op":"CompoundMode","a":33},{"op":"Mv","list":0,"a":[0,0]},{"op":"Mv","list":1,"a":[0,0]}]]}
0
1200322330e0000000036400000400e1ee70e174c400b1ae6d908261d12ebf176c0388a3fb5196
tile 0 24 191

{"seq":{"chroma_sampling":3,"still_picture":false,"reduced_still_picture_hdr":false},"frame":{"width":24,"height":16,"frame_type":1,"intra_only":false,"force_integer_mv":0,"refresh_frame_flags":0,"reference_mode":2},"tiles":[[{"op":"Block","x":0,"y":0,"size":3},{"op":"IsInter","a":true},{"op":"RefFrames","a":[1,5]},{"op":"MvRefs","has_tr":false},{"op":"CompoundMode","a":33},{"op":"Mv","list":0,"a":[8,-16]},{"op":"Mv","list":1,"a":[2,4]},{"op":"Block","x":2,"y":0,"size":3},{"op":"IsInter","a":true},{"op":"RefFrames","a":[1,5]},{"op":"MvRefs","has_tr":false},{"op":"CompoundMode","a":33},{"op":"Mv","list":0,"a":[24,0]},{"op":"Mv","list":1,"a":[-8,0]},{"op":"Block","x":0,"y":2,"size":3},{"op":"IsInter","a":true},{"op":"RefFrames","a":[1,5]},{"op":"MvRefs","has_tr":false},{"op":"CompoundMode","a":33},{"op":"Mv","list":0,"a":[-40,6]},{"op":"Mv","list":1,"a":[0,0]},{"op":"Block","x":2,"y":2,"size":3},{"op":"IsInter","a":true},{"op":"RefFrames","a":[1,5]},{"op":"MvRefs","has_tr":false},{"op":"CompoundMode","a":33},{"op":"Mv","list":1,"a":[-6,6]},{"op":"Drl","idx":0,"a":false},{"op":"Mv","list":0,"a":[6,6]},{"op":"Block","x":4,"y":2,"size":3},{"op":"IsInter","a":true},{"op":"RefFrames","a":[1,5]},{"op":"MvRefs","has_tr":false},{"op":"CompoundMode","a":33},{"op":"Mv","list":0,"a":[0,0]},{"op":"Mv","list":1,"a":[0,0]}]]}
0
1200322430e0000000036400000400e1ee70e174c400b1ae6d908261d12ebf159e6aea0c43f2611e
tile 0 25 199

{"seq":{"chroma_sampling":3,"still_picture":false,"reduced_still_picture_hdr":false},"frame":{"width":24,"height":16,"frame_type":1,"intra_only":false,"force_integer_mv":0,"refresh_frame_flags":0,"reference_mode":2},"tiles":[[{"op":"Block","x":0,"y":0,"size":3},{"op":"IsInter","a":true},{"op":"RefFrames","a":[1,5]},{"op":"MvRefs","has_tr":false},{"op":"CompoundMode","a":33},{"op":"Mv","list":0,"a":[8,-16]},{"op":"Mv","list":1,"a":[2,4]},{"op":"Block","x":2,"y":0,"size":3},{"op":"IsInter","a":true},{"op":"RefFrames","a":[1,5]},{"op":"MvRefs","has_tr":false},{"op":"CompoundMode","a":33},{"op":"Mv","list":0,"a":[24,0]},{"op":"Mv","list":1,"a":[-8,0]},{"op":"Block","x":0,"y":2,"size":3},{"op":"IsInter","a":true},{"op":"RefFrames","a":[1,5]},{"op":"MvRefs","has_tr":false},{"op":"CompoundMode","a":33},{"op":"Mv","list":0,"a":[-40,6]},{"op":"Mv","list":1,"a":[0,0]},{"op":"Block","x":2,"y":2,"size":3},{"op":"IsInter","a":true},{"op":"RefFrames","a":[1,5]},{"op":"MvRefs","has_tr":false},{"op":"CompoundMode","a":29},{"op":"Drl","idx":1,"a":true},{"op":"Mv","list":0,"a":[6,6]},{"op":"Block","x":4,"y":2,"size":3},{"op":"IsInter","a":true},{"op":"RefFrames","a":[1,5]},{"op":"MvRefs","has_tr":false},{"op":"CompoundMode","a":33},{"op":"Mv","list":0,"a":[0,0]},{"op":"Mv","list":1,"a":[0,0]}]]}
0
1200322230e0000000036400000400e1ee70e174c400b1ae6d908261d12ebf07f993773aeedd
tile 0 23 184"#;

/// Blocks that no Block touched are told apart from intra blocks by the contexts of references: the first unit has the one, the
/// second the other.
pub const UNTOUCHED: &str =
    r#"{"seq":{"chroma_sampling":3,"still_picture":false,"reduced_still_picture_hdr":false},"frame":{"width":32,"height":32,"frame_type":1,"intra_only":false,"force_integer_mv":0,"refresh_frame_flags":0,"reference_mode":2},"tiles":[[{"op":"Block","x":2,"y":0,"size":3},{"op":"Block","x":0,"y":2,"size":3},{"op":"Block","x":2,"y":2,"size":3},{"op":"IsInter","a":true},{"op":"RefFrames","a":[1,7]},{"op":"RefFrames","a":[1,7]},{"op":"RefFrames","a":[1,7]},{"op":"RefFrames","a":[1,7]},{"op":"RefFrames","a":[1,7]},{"op":"Block","x":6,"y":6,"size":3},{"op":"IsInter","a":true},{"op":"RefFrames","a":[1,7]}]]}
0
1200320f30e0000000036400000400e7256f50
tile 0 4 28

{"seq":{"chroma_sampling":3,"still_picture":false,"reduced_still_picture_hdr":false},"frame":{"width":32,"height":32,"frame_type":1,"intra_only":false,"force_integer_mv":0,"refresh_frame_flags":0,"reference_mode":2},"tiles":[[{"op":"Block","x":2,"y":0,"size":3},{"op":"Block","x":0,"y":2,"size":3},{"op":"Block","x":2,"y":2,"size":3},{"op":"IsInter","a":true},{"op":"RefFrames","a":[1,7]},{"op":"RefFrames","a":[1,7]},{"op":"RefFrames","a":[1,7]},{"op":"RefFrames","a":[1,7]},{"op":"RefFrames","a":[1,7]},{"op":"Block","x":6,"y":4,"size":3},{"op":"Block","x":4,"y":6,"size":3},{"op":"Block","x":6,"y":6,"size":3},{"op":"IsInter","a":true},{"op":"RefFrames","a":[1,7]}]]}
0
1200320f30e0000000036400000400e7256f30
tile 0 4 28"#;

/// The bits of a difference that are not coded are ones, since what is coded is the size less 1.
pub const LOW_BITS: &str =
    r#"{"seq":{"chroma_sampling":3,"still_picture":false,"reduced_still_picture_hdr":false},"frame":{"width":8,"height":8,"frame_type":1,"intra_only":false,"force_integer_mv":0,"refresh_frame_flags":0},"tiles":[[{"op":"Block","x":0,"y":0,"size":3},{"op":"IsInter","a":true},{"op":"RefFrames","a":[1,8]},{"op":"MvRefs","has_tr":false},{"op":"InterMode","a":19},{"op":"Mv","list":0,"a":[0,2]}]]}
0
1200320d30e000000003640000000081f9
tile 0 2 16

{"seq":{"chroma_sampling":3,"still_picture":false,"reduced_still_picture_hdr":false},"frame":{"width":8,"height":8,"frame_type":1,"intra_only":false,"force_integer_mv":0,"refresh_frame_flags":0},"tiles":[[{"op":"Block","x":0,"y":0,"size":3},{"op":"IsInter","a":true},{"op":"RefFrames","a":[1,8]},{"op":"MvRefs","has_tr":false},{"op":"InterMode","a":19},{"op":"Mv","list":0,"a":[0,4]}]]}
0
1200320d30e000000003640000000081fb
tile 0 2 16

{"seq":{"chroma_sampling":3,"still_picture":false,"reduced_still_picture_hdr":false},"frame":{"width":8,"height":8,"frame_type":1,"intra_only":false,"force_integer_mv":0,"refresh_frame_flags":0},"tiles":[[{"op":"Block","x":0,"y":0,"size":3},{"op":"IsInter","a":true},{"op":"RefFrames","a":[1,8]},{"op":"MvRefs","has_tr":false},{"op":"InterMode","a":19},{"op":"Mv","list":0,"a":[-2,6]}]]}
0
1200320e30e000000003640000000086f87a
tile 0 3 23

{"seq":{"chroma_sampling":3,"still_picture":false,"reduced_still_picture_hdr":false},"frame":{"width":8,"height":8,"frame_type":1,"intra_only":false,"force_integer_mv":0,"refresh_frame_flags":0},"tiles":[[{"op":"Block","x":0,"y":0,"size":3},{"op":"IsInter","a":true},{"op":"RefFrames","a":[1,8]},{"op":"MvRefs","has_tr":false},{"op":"InterMode","a":19},{"op":"Mv","list":0,"a":[0,16]}]]}
0
1200320d30e0000000036400000000820d
tile 0 2 16

{"seq":{"chroma_sampling":3,"still_picture":false,"reduced_still_picture_hdr":false},"frame":{"width":8,"height":8,"frame_type":1,"intra_only":false,"force_integer_mv":0,"refresh_frame_flags":0},"tiles":[[{"op":"Block","x":0,"y":0,"size":3},{"op":"IsInter","a":true},{"op":"RefFrames","a":[1,8]},{"op":"MvRefs","has_tr":false},{"op":"InterMode","a":19},{"op":"Mv","list":0,"a":[0,18]}]]}
0
1200320d30e00000000364000000008211
tile 0 2 16

{"seq":{"chroma_sampling":3,"still_picture":false,"reduced_still_picture_hdr":false},"frame":{"width":8,"height":8,"frame_type":1,"intra_only":false,"force_integer_mv":1,"refresh_frame_flags":0,"allow_screen_content_tools":1},"tiles":[[{"op":"Block","x":0,"y":0,"size":3},{"op":"IsInter","a":true},{"op":"RefFrames","a":[1,8]},{"op":"MvRefs","has_tr":false},{"op":"InterMode","a":19},{"op":"Mv","list":0,"a":[0,8]}]]}
0
1200320d337000000003640000000081fc
tile 0 2 14

{"seq":{"chroma_sampling":3,"still_picture":false,"reduced_still_picture_hdr":false},"frame":{"width":8,"height":8,"frame_type":1,"intra_only":false,"force_integer_mv":1,"refresh_frame_flags":0,"allow_screen_content_tools":1},"tiles":[[{"op":"Block","x":0,"y":0,"size":3},{"op":"IsInter","a":true},{"op":"RefFrames","a":[1,8]},{"op":"MvRefs","has_tr":false},{"op":"InterMode","a":19},{"op":"Mv","list":0,"a":[0,-16]}]]}
0
1200320d33700000000364000000008304
tile 0 2 14

{"seq":{"chroma_sampling":3,"still_picture":false,"reduced_still_picture_hdr":false},"frame":{"width":8,"height":8,"frame_type":1,"intra_only":false,"force_integer_mv":1,"refresh_frame_flags":0,"allow_screen_content_tools":1},"tiles":[[{"op":"Block","x":0,"y":0,"size":3},{"op":"IsInter","a":true},{"op":"RefFrames","a":[1,8]},{"op":"MvRefs","has_tr":false},{"op":"InterMode","a":19},{"op":"Mv","list":0,"a":[24,0]}]]}
0
1200320d33700000000364000000008414
tile 0 2 14

{"seq":{"chroma_sampling":3,"still_picture":false,"reduced_still_picture_hdr":false},"frame":{"width":8,"height":8,"frame_type":1,"intra_only":false,"force_integer_mv":1,"refresh_frame_flags":0,"allow_screen_content_tools":1},"tiles":[[{"op":"Block","x":0,"y":0,"size":3},{"op":"IsInter","a":true},{"op":"RefFrames","a":[1,8]},{"op":"MvRefs","has_tr":false},{"op":"InterMode","a":19},{"op":"Mv","list":0,"a":[8,128]}]]}
0
1200320e337000000003640000000085fa58
tile 0 3 21

{"seq":{"chroma_sampling":3,"still_picture":false,"reduced_still_picture_hdr":false},"frame":{"width":8,"height":8,"frame_type":1,"intra_only":false,"force_integer_mv":1,"refresh_frame_flags":0,"allow_screen_content_tools":1},"tiles":[[{"op":"Block","x":0,"y":0,"size":3},{"op":"IsInter","a":true},{"op":"RefFrames","a":[1,8]},{"op":"MvRefs","has_tr":false},{"op":"InterMode","a":19},{"op":"Mv","list":0,"a":[0,7]}]]}
6
refused tile 0 item 5 r82

{"seq":{"chroma_sampling":3,"still_picture":false,"reduced_still_picture_hdr":false},"frame":{"width":8,"height":8,"frame_type":1,"intra_only":false,"force_integer_mv":1,"refresh_frame_flags":0,"allow_screen_content_tools":1},"tiles":[[{"op":"Block","x":0,"y":0,"size":3},{"op":"IsInter","a":true},{"op":"RefFrames","a":[1,8]},{"op":"MvRefs","has_tr":false},{"op":"InterMode","a":19},{"op":"Mv","list":0,"a":[0,9]}]]}
6
refused tile 0 item 5 r82

{"seq":{"chroma_sampling":3,"still_picture":false,"reduced_still_picture_hdr":false},"frame":{"width":8,"height":8,"frame_type":1,"intra_only":false,"force_integer_mv":0,"refresh_frame_flags":0},"tiles":[[{"op":"Block","x":0,"y":0,"size":3},{"op":"IsInter","a":true},{"op":"RefFrames","a":[1,8]},{"op":"MvRefs","has_tr":false},{"op":"InterMode","a":19},{"op":"Mv","list":0,"a":[0,1]}]]}
6
refused tile 0 item 5 r82"#;

/// Places and numbers as large as they can be: no sum of them is made before they are refused.
pub const LARGE: &str =
    r#"{"seq":{"chroma_sampling":3,"still_picture":false,"reduced_still_picture_hdr":false},"frame":{"width":8,"height":8,"frame_type":1,"intra_only":false,"force_integer_mv":0,"refresh_frame_flags":0},"tiles":[[{"op":"Block","x":9223372036854775807,"y":0,"size":3}]]}
6
refused tile 0 item 0 r60

{"seq":{"chroma_sampling":3,"still_picture":false,"reduced_still_picture_hdr":false},"frame":{"width":8,"height":8,"frame_type":1,"intra_only":false,"force_integer_mv":0,"refresh_frame_flags":0},"tiles":[[{"op":"Block","x":0,"y":9223372036854775807,"size":3}]]}
6
refused tile 0 item 0 r60

{"seq":{"chroma_sampling":3,"still_picture":false,"reduced_still_picture_hdr":false},"frame":{"width":8,"height":8,"frame_type":1,"intra_only":false,"force_integer_mv":0,"refresh_frame_flags":0},"tiles":[[{"op":"Partition","x":9223372036854775807,"y":9223372036854775807,"size":3,"a":0}]]}
6
refused tile 0 item 0 r60

{"seq":{"chroma_sampling":3,"still_picture":false,"reduced_still_picture_hdr":false},"frame":{"width":8,"height":8,"frame_type":1,"intra_only":false,"force_integer_mv":0,"refresh_frame_flags":0},"tiles":[[{"op":"Begin","x":9223372036854775807,"y":9223372036854775807}]]}
6
refused tile 0 item 0 r60

{"seq":{"chroma_sampling":3,"still_picture":false,"reduced_still_picture_hdr":false},"frame":{"width":8,"height":8,"frame_type":1,"intra_only":false,"force_integer_mv":0,"refresh_frame_flags":0},"tiles":[[{"op":"Block","x":0,"y":0,"size":3},{"op":"IsInter","a":true},{"op":"RefFrames","a":[1,8]},{"op":"Coeffs","plane":9223372036854775807,"x":0,"y":0,"tx_type":0,"a":[1]}]]}
6
refused tile 0 item 3 r83

{"seq":{"chroma_sampling":3,"still_picture":false,"reduced_still_picture_hdr":false},"frame":{"width":8,"height":8,"frame_type":1,"intra_only":false,"force_integer_mv":0,"refresh_frame_flags":0},"tiles":[[{"op":"Block","x":0,"y":0,"size":3},{"op":"IsInter","a":true},{"op":"RefFrames","a":[1,8]},{"op":"Coeffs","plane":0,"x":9223372036854775807,"y":0,"tx_type":0,"a":[1]}]]}
6
refused tile 0 item 3 r60

{"seq":{"chroma_sampling":3,"still_picture":false,"reduced_still_picture_hdr":false},"frame":{"width":8,"height":8,"frame_type":1,"intra_only":false,"force_integer_mv":0,"refresh_frame_flags":0},"tiles":[[{"op":"Block","x":0,"y":0,"size":3},{"op":"IsInter","a":true},{"op":"RefFrames","a":[1,8]},{"op":"Coeffs","plane":0,"x":0,"y":9223372036854775807,"tx_type":0,"a":[1]}]]}
6
refused tile 0 item 3 r60

{"seq":{"chroma_sampling":3,"still_picture":false,"reduced_still_picture_hdr":false},"frame":{"width":8,"height":8,"frame_type":1,"intra_only":false,"force_integer_mv":0,"refresh_frame_flags":0},"tiles":[[{"op":"Block","x":0,"y":0,"size":3},{"op":"IsInter","a":true},{"op":"RefFrames","a":[1,8]},{"op":"Coeffs","plane":9223372036854775807,"x":9223372036854775807,"y":9223372036854775807,"tx_type":0,"a":[1]}]]}
6
refused tile 0 item 3 r60

{"seq":{"chroma_sampling":3,"still_picture":false,"reduced_still_picture_hdr":false},"frame":{"width":16,"height":16,"frame_type":1,"intra_only":false,"force_integer_mv":0,"refresh_frame_flags":0},"tiles":[[{"op":"Block","x":0,"y":0,"size":3},{"op":"IsInter","a":true},{"op":"RefFrames","a":[1,8]},{"op":"MvRefs","has_tr":false},{"op":"InterMode","a":19},{"op":"Mv","list":0,"a":[8,-16]},{"op":"Block","x":2,"y":0,"size":3},{"op":"IsInter","a":true},{"op":"RefFrames","a":[1,8]},{"op":"MvRefs","has_tr":false},{"op":"InterMode","a":19},{"op":"Mv","list":0,"a":[24,0]},{"op":"Block","x":0,"y":2,"size":3},{"op":"IsInter","a":true},{"op":"RefFrames","a":[1,8]},{"op":"MvRefs","has_tr":false},{"op":"InterMode","a":19},{"op":"Mv","list":0,"a":[-40,6]},{"op":"Block","x":2,"y":2,"size":3},{"op":"IsInter","a":true},{"op":"RefFrames","a":[1,8]},{"op":"MvRefs","has_tr":false},{"op":"InterMode","a":19},{"op":"Drl","idx":9223372036854775807,"a":true}]]}
6
refused tile 0 item 23 r80

{"seq":{"chroma_sampling":3,"still_picture":false,"reduced_still_picture_hdr":false},"frame":{"width":16,"height":16,"frame_type":1,"intra_only":false,"force_integer_mv":0,"refresh_frame_flags":0},"tiles":[[{"op":"Block","x":0,"y":0,"size":3},{"op":"IsInter","a":true},{"op":"RefFrames","a":[1,8]},{"op":"MvRefs","has_tr":false},{"op":"InterMode","a":19},{"op":"Mv","list":0,"a":[8,-16]},{"op":"Block","x":2,"y":0,"size":3},{"op":"IsInter","a":true},{"op":"RefFrames","a":[1,8]},{"op":"MvRefs","has_tr":false},{"op":"InterMode","a":19},{"op":"Mv","list":0,"a":[24,0]},{"op":"Block","x":0,"y":2,"size":3},{"op":"IsInter","a":true},{"op":"RefFrames","a":[1,8]},{"op":"MvRefs","has_tr":false},{"op":"InterMode","a":19},{"op":"Mv","list":0,"a":[-40,6]},{"op":"Block","x":2,"y":2,"size":3},{"op":"IsInter","a":true},{"op":"RefFrames","a":[1,8]},{"op":"MvRefs","has_tr":false},{"op":"InterMode","a":15},{"op":"Drl","idx":9223372036854775806,"a":true}]]}
6
refused tile 0 item 23 r80

{"seq":{"chroma_sampling":3,"still_picture":false,"reduced_still_picture_hdr":false},"frame":{"width":8,"height":8,"frame_type":1,"intra_only":false,"force_integer_mv":0,"refresh_frame_flags":0},"tiles":[[{"op":"Block","x":0,"y":0,"size":3},{"op":"IsInter","a":true},{"op":"RefFrames","a":[1,8]},{"op":"MvRefs","has_tr":false},{"op":"InterMode","a":19},{"op":"Mv","list":9223372036854775807,"a":[0,2]}]]}
6
refused tile 0 item 5 r81

{"seq":{"chroma_sampling":3,"still_picture":false,"reduced_still_picture_hdr":false},"frame":{"width":8,"height":8,"frame_type":1,"intra_only":false,"force_integer_mv":0,"refresh_frame_flags":0,"allow_high_precision_mv":true},"tiles":[[{"op":"Block","x":0,"y":0,"size":3},{"op":"IsInter","a":true},{"op":"RefFrames","a":[1,8]},{"op":"MvRefs","has_tr":false},{"op":"InterMode","a":19},{"op":"Mv","list":0,"a":[32767,-32768]}]]}
6
refused tile 0 item 5 r81"#;

/// In 4:2:2 blocks of 8x32 and 16x64 have no chroma size.
pub const NO_CHROMA_SIZE: &str =
    r#"{"seq":{"chroma_sampling":1,"still_picture":false,"reduced_still_picture_hdr":false,"profile":2},"frame":{"width":32,"height":32,"frame_type":1,"intra_only":false,"force_integer_mv":0,"refresh_frame_flags":0},"tiles":[[{"op":"Block","x":0,"y":0,"size":18}]]}
6
refused tile 0 item 0 r61

{"seq":{"chroma_sampling":3,"still_picture":false,"reduced_still_picture_hdr":false},"frame":{"width":32,"height":32,"frame_type":1,"intra_only":false,"force_integer_mv":0,"refresh_frame_flags":0},"tiles":[[{"op":"Block","x":0,"y":0,"size":18},{"op":"IsInter","a":true},{"op":"RefFrames","a":[1,8]},{"op":"Skip","a":true}]]}
0
1200320c30e00000000364000000008c
tile 0 1 6

{"seq":{"chroma_sampling":1,"still_picture":false,"reduced_still_picture_hdr":false,"profile":2},"frame":{"width":64,"height":64,"frame_type":1,"intra_only":false,"force_integer_mv":0,"refresh_frame_flags":0},"tiles":[[{"op":"Block","x":0,"y":0,"size":20}]]}
6
refused tile 0 item 0 r61

{"seq":{"chroma_sampling":3,"still_picture":false,"reduced_still_picture_hdr":false},"frame":{"width":64,"height":64,"frame_type":1,"intra_only":false,"force_integer_mv":0,"refresh_frame_flags":0},"tiles":[[{"op":"Block","x":0,"y":0,"size":20},{"op":"IsInter","a":true},{"op":"RefFrames","a":[1,8]},{"op":"Skip","a":true}]]}
0
1200320c30e00000000364000000008c
tile 0 1 6"#;
