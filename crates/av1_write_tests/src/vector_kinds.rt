// Units of the kinds of step of the vectors of an inter block, Drl and Mv, with the status and the text that they give. Those of status 0
// were answered by rav1e's own calls; the rules of the refusals are those of the tables.

/// Rows as those of `ROWS`.
pub const VECTOR_KINDS: &str =
    r#"{"seq":{"chroma_sampling":3,"still_picture":false,"reduced_still_picture_hdr":false},"frame":{"width":24,"height":24,"frame_type":1,"intra_only":false,"force_integer_mv":0,"refresh_frame_flags":0},"tiles":[[{"op":"Block","x":0,"y":0,"size":3},{"op":"IsInter","a":true},{"op":"RefFrames","a":[1,8]},{"op":"MvRefs","has_tr":false},{"op":"InterMode","a":19},{"op":"Mv","list":0,"a":[8,-16]},{"op":"Block","x":2,"y":0,"size":3},{"op":"IsInter","a":true},{"op":"RefFrames","a":[1,8]},{"op":"MvRefs","has_tr":false},{"op":"InterMode","a":19},{"op":"Mv","list":0,"a":[24,0]},{"op":"Block","x":4,"y":0,"size":3},{"op":"IsInter","a":true},{"op":"RefFrames","a":[1,8]},{"op":"MvRefs","has_tr":false},{"op":"InterMode","a":19},{"op":"Mv","list":0,"a":[-40,6]},{"op":"Block","x":0,"y":2,"size":3},{"op":"IsInter","a":true},{"op":"RefFrames","a":[1,8]},{"op":"MvRefs","has_tr":false},{"op":"InterMode","a":19},{"op":"Mv","list":0,"a":[2,2]},{"op":"Block","x":2,"y":2,"size":3},{"op":"IsInter","a":true},{"op":"RefFrames","a":[1,8]},{"op":"MvRefs","has_tr":true},{"op":"InterMode","a":19},{"op":"Drl","idx":0,"a":false}]]}
0
1200321730e000000003640000000086029b333a55a1e1b039ef20
tile 0 12 91

{"seq":{"chroma_sampling":3,"still_picture":false,"reduced_still_picture_hdr":false},"frame":{"width":24,"height":24,"frame_type":1,"intra_only":false,"force_integer_mv":0,"refresh_frame_flags":0},"tiles":[[{"op":"Block","x":0,"y":0,"size":3},{"op":"IsInter","a":true},{"op":"RefFrames","a":[1,8]},{"op":"MvRefs","has_tr":false},{"op":"InterMode","a":19},{"op":"Mv","list":0,"a":[8,-16]},{"op":"Block","x":2,"y":0,"size":3},{"op":"IsInter","a":true},{"op":"RefFrames","a":[1,8]},{"op":"MvRefs","has_tr":false},{"op":"InterMode","a":19},{"op":"Mv","list":0,"a":[24,0]},{"op":"Block","x":4,"y":0,"size":3},{"op":"IsInter","a":true},{"op":"RefFrames","a":[1,8]},{"op":"MvRefs","has_tr":false},{"op":"InterMode","a":19},{"op":"Mv","list":0,"a":[-40,6]},{"op":"Block","x":0,"y":2,"size":3},{"op":"IsInter","a":true},{"op":"RefFrames","a":[1,8]},{"op":"MvRefs","has_tr":false},{"op":"InterMode","a":19},{"op":"Mv","list":0,"a":[2,2]},{"op":"Block","x":2,"y":2,"size":3},{"op":"IsInter","a":true},{"op":"RefFrames","a":[1,8]},{"op":"MvRefs","has_tr":true},{"op":"InterMode","a":19},{"op":"Drl","idx":0,"a":true},{"op":"Drl","idx":1,"a":false},{"op":"Mv","list":0,"a":[26,0]}]]}
0
1200321930e000000003640000000086029b333a55a1e1b039ef5b6f30
tile 0 14 108

{"seq":{"chroma_sampling":3,"still_picture":false,"reduced_still_picture_hdr":false},"frame":{"width":24,"height":24,"frame_type":1,"intra_only":false,"force_integer_mv":0,"refresh_frame_flags":0},"tiles":[[{"op":"Block","x":0,"y":0,"size":3},{"op":"IsInter","a":true},{"op":"RefFrames","a":[1,8]},{"op":"MvRefs","has_tr":false},{"op":"InterMode","a":19},{"op":"Mv","list":0,"a":[8,-16]},{"op":"Block","x":2,"y":0,"size":3},{"op":"IsInter","a":true},{"op":"RefFrames","a":[1,8]},{"op":"MvRefs","has_tr":false},{"op":"InterMode","a":19},{"op":"Mv","list":0,"a":[24,0]},{"op":"Block","x":4,"y":0,"size":3},{"op":"IsInter","a":true},{"op":"RefFrames","a":[1,8]},{"op":"MvRefs","has_tr":false},{"op":"InterMode","a":19},{"op":"Mv","list":0,"a":[-40,6]},{"op":"Block","x":0,"y":2,"size":3},{"op":"IsInter","a":true},{"op":"RefFrames","a":[1,8]},{"op":"MvRefs","has_tr":false},{"op":"InterMode","a":19},{"op":"Mv","list":0,"a":[2,2]},{"op":"Block","x":2,"y":2,"size":3},{"op":"IsInter","a":true},{"op":"RefFrames","a":[1,8]},{"op":"MvRefs","has_tr":true},{"op":"InterMode","a":19},{"op":"Drl","idx":0,"a":true},{"op":"Drl","idx":1,"a":true},{"op":"Mv","list":0,"a":[-38,10]}]]}
0
1200321930e000000003640000000086029b333a55a1e1b039ef83aaa0
tile 0 14 107

{"seq":{"chroma_sampling":3,"still_picture":false,"reduced_still_picture_hdr":false},"frame":{"width":24,"height":24,"frame_type":1,"intra_only":false,"force_integer_mv":0,"refresh_frame_flags":0},"tiles":[[{"op":"Block","x":0,"y":0,"size":3},{"op":"IsInter","a":true},{"op":"RefFrames","a":[1,8]},{"op":"MvRefs","has_tr":false},{"op":"InterMode","a":19},{"op":"Mv","list":0,"a":[8,-16]},{"op":"Block","x":2,"y":0,"size":3},{"op":"IsInter","a":true},{"op":"RefFrames","a":[1,8]},{"op":"MvRefs","has_tr":false},{"op":"InterMode","a":19},{"op":"Mv","list":0,"a":[24,0]},{"op":"Block","x":4,"y":0,"size":3},{"op":"IsInter","a":true},{"op":"RefFrames","a":[1,8]},{"op":"MvRefs","has_tr":false},{"op":"InterMode","a":19},{"op":"Mv","list":0,"a":[-40,6]},{"op":"Block","x":0,"y":2,"size":3},{"op":"IsInter","a":true},{"op":"RefFrames","a":[1,8]},{"op":"MvRefs","has_tr":false},{"op":"InterMode","a":19},{"op":"Mv","list":0,"a":[2,2]},{"op":"Block","x":2,"y":2,"size":3},{"op":"IsInter","a":true},{"op":"RefFrames","a":[1,8]},{"op":"MvRefs","has_tr":true},{"op":"InterMode","a":15},{"op":"Drl","idx":1,"a":false}]]}
0
1200321730e000000003640000000086029b333a55a1e1b039f018
tile 0 12 93

{"seq":{"chroma_sampling":3,"still_picture":false,"reduced_still_picture_hdr":false},"frame":{"width":24,"height":24,"frame_type":1,"intra_only":false,"force_integer_mv":0,"refresh_frame_flags":0},"tiles":[[{"op":"Block","x":0,"y":0,"size":3},{"op":"IsInter","a":true},{"op":"RefFrames","a":[1,8]},{"op":"MvRefs","has_tr":false},{"op":"InterMode","a":19},{"op":"Mv","list":0,"a":[8,-16]},{"op":"Block","x":2,"y":0,"size":3},{"op":"IsInter","a":true},{"op":"RefFrames","a":[1,8]},{"op":"MvRefs","has_tr":false},{"op":"InterMode","a":19},{"op":"Mv","list":0,"a":[24,0]},{"op":"Block","x":4,"y":0,"size":3},{"op":"IsInter","a":true},{"op":"RefFrames","a":[1,8]},{"op":"MvRefs","has_tr":false},{"op":"InterMode","a":19},{"op":"Mv","list":0,"a":[-40,6]},{"op":"Block","x":0,"y":2,"size":3},{"op":"IsInter","a":true},{"op":"RefFrames","a":[1,8]},{"op":"MvRefs","has_tr":false},{"op":"InterMode","a":19},{"op":"Mv","list":0,"a":[2,2]},{"op":"Block","x":2,"y":2,"size":3},{"op":"IsInter","a":true},{"op":"RefFrames","a":[1,8]},{"op":"MvRefs","has_tr":true},{"op":"InterMode","a":15},{"op":"Drl","idx":1,"a":true},{"op":"Drl","idx":2,"a":true}]]}
0
1200321730e000000003640000000086029b333a55a1e1b039f02c
tile 0 12 94

{"seq":{"chroma_sampling":3,"still_picture":false,"reduced_still_picture_hdr":false},"frame":{"width":24,"height":24,"frame_type":1,"intra_only":false,"force_integer_mv":0,"refresh_frame_flags":0},"tiles":[[{"op":"Block","x":0,"y":0,"size":3},{"op":"IsInter","a":true},{"op":"RefFrames","a":[1,8]},{"op":"MvRefs","has_tr":false},{"op":"InterMode","a":19},{"op":"Mv","list":0,"a":[8,-16]},{"op":"Block","x":2,"y":0,"size":3},{"op":"IsInter","a":true},{"op":"RefFrames","a":[1,8]},{"op":"MvRefs","has_tr":false},{"op":"InterMode","a":19},{"op":"Mv","list":0,"a":[24,0]},{"op":"Block","x":4,"y":0,"size":3},{"op":"IsInter","a":true},{"op":"RefFrames","a":[1,8]},{"op":"MvRefs","has_tr":false},{"op":"InterMode","a":19},{"op":"Mv","list":0,"a":[-40,6]},{"op":"Block","x":0,"y":2,"size":3},{"op":"IsInter","a":true},{"op":"RefFrames","a":[1,8]},{"op":"MvRefs","has_tr":false},{"op":"InterMode","a":19},{"op":"Mv","list":0,"a":[2,2]},{"op":"Block","x":2,"y":2,"size":3},{"op":"IsInter","a":true},{"op":"RefFrames","a":[1,8]},{"op":"MvRefs","has_tr":true},{"op":"InterMode","a":15},{"op":"Drl","idx":1,"a":true},{"op":"Drl","idx":1,"a":false},{"op":"Drl","idx":1,"a":true},{"op":"Drl","idx":2,"a":true}]]}
0
1200321730e000000003640000000086029b333a55a1e1b039f029
tile 0 12 96

{"seq":{"chroma_sampling":3,"still_picture":false,"reduced_still_picture_hdr":false},"frame":{"width":24,"height":24,"frame_type":1,"intra_only":false,"force_integer_mv":0,"refresh_frame_flags":0,"reference_mode":2},"tiles":[[{"op":"Block","x":0,"y":0,"size":3},{"op":"IsInter","a":true},{"op":"RefFrames","a":[1,5]},{"op":"MvRefs","has_tr":false},{"op":"CompoundMode","a":33},{"op":"Mv","list":0,"a":[8,-16]},{"op":"Mv","list":1,"a":[2,4]},{"op":"Block","x":2,"y":0,"size":3},{"op":"IsInter","a":true},{"op":"RefFrames","a":[1,5]},{"op":"MvRefs","has_tr":false},{"op":"CompoundMode","a":33},{"op":"Mv","list":0,"a":[24,0]},{"op":"Mv","list":1,"a":[-8,0]},{"op":"Block","x":4,"y":0,"size":3},{"op":"IsInter","a":true},{"op":"RefFrames","a":[1,5]},{"op":"MvRefs","has_tr":false},{"op":"CompoundMode","a":33},{"op":"Mv","list":0,"a":[-40,6]},{"op":"Mv","list":1,"a":[0,0]},{"op":"Block","x":0,"y":2,"size":3},{"op":"IsInter","a":true},{"op":"RefFrames","a":[1,5]},{"op":"MvRefs","has_tr":false},{"op":"CompoundMode","a":33},{"op":"Mv","list":0,"a":[2,2]},{"op":"Mv","list":1,"a":[6,-6]},{"op":"Block","x":2,"y":2,"size":3},{"op":"IsInter","a":true},{"op":"RefFrames","a":[1,5]},{"op":"MvRefs","has_tr":true},{"op":"CompoundMode","a":21},{"op":"Drl","idx":1,"a":true},{"op":"Drl","idx":2,"a":true},{"op":"Block","x":4,"y":2,"size":3},{"op":"IsInter","a":true},{"op":"RefFrames","a":[1,5]},{"op":"MvRefs","has_tr":false},{"op":"CompoundMode","a":20}]]}
0
1200322130e0000000036400000400e1ee70e174c400b1ae6d90826d63e89cd061711fe122
tile 0 22 175

{"seq":{"chroma_sampling":3,"still_picture":false,"reduced_still_picture_hdr":false},"frame":{"width":24,"height":24,"frame_type":1,"intra_only":false,"force_integer_mv":0,"refresh_frame_flags":0,"reference_mode":2},"tiles":[[{"op":"Block","x":0,"y":0,"size":3},{"op":"IsInter","a":true},{"op":"RefFrames","a":[1,5]},{"op":"MvRefs","has_tr":false},{"op":"CompoundMode","a":33},{"op":"Mv","list":0,"a":[8,-16]},{"op":"Mv","list":1,"a":[2,4]},{"op":"Block","x":2,"y":0,"size":3},{"op":"IsInter","a":true},{"op":"RefFrames","a":[1,5]},{"op":"MvRefs","has_tr":false},{"op":"CompoundMode","a":33},{"op":"Mv","list":0,"a":[24,0]},{"op":"Mv","list":1,"a":[-8,0]},{"op":"Block","x":4,"y":0,"size":3},{"op":"IsInter","a":true},{"op":"RefFrames","a":[1,5]},{"op":"MvRefs","has_tr":false},{"op":"CompoundMode","a":33},{"op":"Mv","list":0,"a":[-40,6]},{"op":"Mv","list":1,"a":[0,0]},{"op":"Block","x":0,"y":2,"size":3},{"op":"IsInter","a":true},{"op":"RefFrames","a":[1,5]},{"op":"MvRefs","has_tr":false},{"op":"CompoundMode","a":33},{"op":"Mv","list":0,"a":[2,2]},{"op":"Mv","list":1,"a":[6,-6]},{"op":"Block","x":2,"y":2,"size":3},{"op":"IsInter","a":true},{"op":"RefFrames","a":[1,5]},{"op":"MvRefs","has_tr":true},{"op":"CompoundMode","a":26},{"op":"Drl","idx":1,"a":false},{"op":"Mv","list":1,"a":[0,2]},{"op":"Block","x":4,"y":2,"size":3},{"op":"IsInter","a":true},{"op":"RefFrames","a":[1,5]},{"op":"MvRefs","has_tr":false},{"op":"CompoundMode","a":20}]]}
0
1200322330e0000000036400000400e1ee70e174c400b1ae6d90826d63e89cd0617120138130d0
tile 0 24 188

{"seq":{"chroma_sampling":3,"still_picture":false,"reduced_still_picture_hdr":false},"frame":{"width":24,"height":24,"frame_type":1,"intra_only":false,"force_integer_mv":0,"refresh_frame_flags":0,"reference_mode":2},"tiles":[[{"op":"Block","x":0,"y":0,"size":3},{"op":"IsInter","a":true},{"op":"RefFrames","a":[1,5]},{"op":"MvRefs","has_tr":false},{"op":"CompoundMode","a":33},{"op":"Mv","list":0,"a":[8,-16]},{"op":"Mv","list":1,"a":[2,4]},{"op":"Block","x":2,"y":0,"size":3},{"op":"IsInter","a":true},{"op":"RefFrames","a":[1,5]},{"op":"MvRefs","has_tr":false},{"op":"CompoundMode","a":33},{"op":"Mv","list":0,"a":[24,0]},{"op":"Mv","list":1,"a":[-8,0]},{"op":"Block","x":4,"y":0,"size":3},{"op":"IsInter","a":true},{"op":"RefFrames","a":[1,5]},{"op":"MvRefs","has_tr":false},{"op":"CompoundMode","a":33},{"op":"Mv","list":0,"a":[-40,6]},{"op":"Mv","list":1,"a":[0,0]},{"op":"Block","x":0,"y":2,"size":3},{"op":"IsInter","a":true},{"op":"RefFrames","a":[1,5]},{"op":"MvRefs","has_tr":false},{"op":"CompoundMode","a":33},{"op":"Mv","list":0,"a":[2,2]},{"op":"Mv","list":1,"a":[6,-6]},{"op":"Block","x":2,"y":2,"size":3},{"op":"IsInter","a":true},{"op":"RefFrames","a":[1,5]},{"op":"MvRefs","has_tr":true},{"op":"CompoundMode","a":26},{"op":"Drl","idx":1,"a":true},{"op":"Drl","idx":2,"a":true},{"op":"Mv","list":1,"a":[0,2]},{"op":"Block","x":4,"y":2,"size":3},{"op":"IsInter","a":true},{"op":"RefFrames","a":[1,5]},{"op":"MvRefs","has_tr":false},{"op":"CompoundMode","a":20}]]}
0
1200322330e0000000036400000400e1ee70e174c400b1ae6d90826d63e89cd06171201e787cb8
tile 0 24 189

{"seq":{"chroma_sampling":3,"still_picture":false,"reduced_still_picture_hdr":false},"frame":{"width":24,"height":24,"frame_type":1,"intra_only":false,"force_integer_mv":0,"refresh_frame_flags":0,"reference_mode":2},"tiles":[[{"op":"Block","x":0,"y":0,"size":3},{"op":"IsInter","a":true},{"op":"RefFrames","a":[1,5]},{"op":"MvRefs","has_tr":false},{"op":"CompoundMode","a":33},{"op":"Mv","list":0,"a":[8,-16]},{"op":"Mv","list":1,"a":[2,4]},{"op":"Block","x":2,"y":0,"size":3},{"op":"IsInter","a":true},{"op":"RefFrames","a":[1,5]},{"op":"MvRefs","has_tr":false},{"op":"CompoundMode","a":33},{"op":"Mv","list":0,"a":[24,0]},{"op":"Mv","list":1,"a":[-8,0]},{"op":"Block","x":4,"y":0,"size":3},{"op":"IsInter","a":true},{"op":"RefFrames","a":[1,5]},{"op":"MvRefs","has_tr":false},{"op":"CompoundMode","a":33},{"op":"Mv","list":0,"a":[-40,6]},{"op":"Mv","list":1,"a":[0,0]},{"op":"Block","x":0,"y":2,"size":3},{"op":"IsInter","a":true},{"op":"RefFrames","a":[1,5]},{"op":"MvRefs","has_tr":false},{"op":"CompoundMode","a":33},{"op":"Mv","list":0,"a":[2,2]},{"op":"Mv","list":1,"a":[6,-6]},{"op":"Block","x":2,"y":2,"size":3},{"op":"IsInter","a":true},{"op":"RefFrames","a":[1,5]},{"op":"MvRefs","has_tr":true},{"op":"CompoundMode","a":29},{"op":"Drl","idx":1,"a":true},{"op":"Drl","idx":2,"a":false},{"op":"Mv","list":0,"a":[0,2]},{"op":"Block","x":4,"y":2,"size":3},{"op":"IsInter","a":true},{"op":"RefFrames","a":[1,5]},{"op":"MvRefs","has_tr":false},{"op":"CompoundMode","a":20}]]}
0
1200322330e0000000036400000400e1ee70e174c400b1ae6d90826d63e89cd06171202d0dc22e
tile 0 24 191

{"seq":{"chroma_sampling":3,"still_picture":false,"reduced_still_picture_hdr":false},"frame":{"width":24,"height":24,"frame_type":1,"intra_only":false,"force_integer_mv":0,"refresh_frame_flags":0,"reference_mode":2},"tiles":[[{"op":"Block","x":0,"y":0,"size":3},{"op":"IsInter","a":true},{"op":"RefFrames","a":[1,5]},{"op":"MvRefs","has_tr":false},{"op":"CompoundMode","a":33},{"op":"Mv","list":0,"a":[8,-16]},{"op":"Mv","list":1,"a":[2,4]},{"op":"Block","x":2,"y":0,"size":3},{"op":"IsInter","a":true},{"op":"RefFrames","a":[1,5]},{"op":"MvRefs","has_tr":false},{"op":"CompoundMode","a":33},{"op":"Mv","list":0,"a":[24,0]},{"op":"Mv","list":1,"a":[-8,0]},{"op":"Block","x":4,"y":0,"size":3},{"op":"IsInter","a":true},{"op":"RefFrames","a":[1,5]},{"op":"MvRefs","has_tr":false},{"op":"CompoundMode","a":33},{"op":"Mv","list":0,"a":[-40,6]},{"op":"Mv","list":1,"a":[0,0]},{"op":"Block","x":0,"y":2,"size":3},{"op":"IsInter","a":true},{"op":"RefFrames","a":[1,5]},{"op":"MvRefs","has_tr":false},{"op":"CompoundMode","a":33},{"op":"Mv","list":0,"a":[2,2]},{"op":"Mv","list":1,"a":[6,-6]},{"op":"Block","x":2,"y":2,"size":3},{"op":"IsInter","a":true},{"op":"RefFrames","a":[1,5]},{"op":"MvRefs","has_tr":true},{"op":"CompoundMode","a":33},{"op":"Drl","idx":0,"a":true},{"op":"Drl","idx":1,"a":true},{"op":"Mv","list":0,"a":[4,4]},{"op":"Mv","list":1,"a":[4,-4]},{"op":"Block","x":4,"y":2,"size":3},{"op":"IsInter","a":true},{"op":"RefFrames","a":[1,5]},{"op":"MvRefs","has_tr":false},{"op":"CompoundMode","a":20}]]}
0
1200322530e0000000036400000400e1ee70e174c400b1ae6d90826d63e89cd06171205adf94683b50
tile 0 26 204

{"seq":{"chroma_sampling":3,"still_picture":false,"reduced_still_picture_hdr":false},"frame":{"width":24,"height":24,"frame_type":1,"intra_only":false,"force_integer_mv":0,"refresh_frame_flags":0},"tiles":[[{"op":"Block","x":2,"y":0,"size":3},{"op":"IsInter","a":true},{"op":"RefFrames","a":[1,8]},{"op":"MvRefs","has_tr":false},{"op":"InterMode","a":19},{"op":"Mv","list":0,"a":[2,0]},{"op":"Block","x":0,"y":2,"size":3},{"op":"IsInter","a":true},{"op":"RefFrames","a":[1,8]},{"op":"MvRefs","has_tr":false},{"op":"InterMode","a":19},{"op":"Mv","list":0,"a":[4,0]},{"op":"Block","x":4,"y":4,"size":3},{"op":"IsInter","a":true},{"op":"RefFrames","a":[1,8]},{"op":"MvRefs","has_tr":false},{"op":"InterMode","a":19},{"op":"Block","x":2,"y":2,"size":3},{"op":"IsInter","a":true},{"op":"RefFrames","a":[1,8]},{"op":"MvRefs","has_tr":false},{"op":"InterMode","a":19},{"op":"Drl","idx":0,"a":false}]]}
0
1200321030e000000003640000000083f974cd23
tile 0 5 40

{"seq":{"chroma_sampling":3,"still_picture":false,"reduced_still_picture_hdr":false},"frame":{"width":8,"height":8,"frame_type":1,"intra_only":false,"force_integer_mv":0,"refresh_frame_flags":0},"tiles":[[{"op":"Drl","idx":0,"a":true}]]}
6
refused tile 0 item 0 r64

{"seq":{"chroma_sampling":3},"frame":{"width":8,"height":8},"tiles":[[{"op":"Block","x":0,"y":0,"size":3},{"op":"Drl","idx":0,"a":true}]]}
6
refused tile 0 item 1 r65

{"seq":{"chroma_sampling":3,"still_picture":false,"reduced_still_picture_hdr":false},"frame":{"width":8,"height":8,"frame_type":1,"intra_only":false,"force_integer_mv":0,"refresh_frame_flags":0},"tiles":[[{"op":"Block","x":0,"y":0,"size":3},{"op":"Drl","idx":0,"a":true}]]}
6
refused tile 0 item 1 r66

{"seq":{"chroma_sampling":3,"still_picture":false,"reduced_still_picture_hdr":false},"frame":{"width":8,"height":8,"frame_type":1,"intra_only":false,"force_integer_mv":0,"refresh_frame_flags":0},"tiles":[[{"op":"Block","x":0,"y":0,"size":3},{"op":"IsInter","a":true},{"op":"RefFrames","a":[1,8]},{"op":"Drl","idx":0,"a":true}]]}
6
refused tile 0 item 3 r80

{"seq":{"chroma_sampling":3,"still_picture":false,"reduced_still_picture_hdr":false},"frame":{"width":8,"height":8,"frame_type":1,"intra_only":false,"force_integer_mv":0,"refresh_frame_flags":0},"tiles":[[{"op":"Block","x":0,"y":0,"size":3},{"op":"IsInter","a":true},{"op":"RefFrames","a":[1,8]},{"op":"MvRefs","has_tr":false},{"op":"InterMode","a":19},{"op":"Drl","idx":0,"a":true}]]}
6
refused tile 0 item 5 r80

{"seq":{"chroma_sampling":3,"still_picture":false,"reduced_still_picture_hdr":false},"frame":{"width":16,"height":8,"frame_type":1,"intra_only":false,"force_integer_mv":0,"refresh_frame_flags":0},"tiles":[[{"op":"Block","x":0,"y":0,"size":3},{"op":"IsInter","a":true},{"op":"RefFrames","a":[1,8]},{"op":"MvRefs","has_tr":false},{"op":"InterMode","a":19},{"op":"Mv","list":0,"a":[8,-16]},{"op":"Block","x":2,"y":0,"size":3},{"op":"IsInter","a":true},{"op":"RefFrames","a":[1,8]},{"op":"MvRefs","has_tr":false},{"op":"InterMode","a":19},{"op":"Drl","idx":0,"a":false}]]}
6
refused tile 0 item 11 r80

{"seq":{"chroma_sampling":3,"still_picture":false,"reduced_still_picture_hdr":false},"frame":{"width":24,"height":24,"frame_type":1,"intra_only":false,"force_integer_mv":0,"refresh_frame_flags":0},"tiles":[[{"op":"Block","x":0,"y":0,"size":3},{"op":"IsInter","a":true},{"op":"RefFrames","a":[1,8]},{"op":"MvRefs","has_tr":false},{"op":"InterMode","a":19},{"op":"Mv","list":0,"a":[8,-16]},{"op":"Block","x":2,"y":0,"size":3},{"op":"IsInter","a":true},{"op":"RefFrames","a":[1,8]},{"op":"MvRefs","has_tr":false},{"op":"InterMode","a":19},{"op":"Mv","list":0,"a":[24,0]},{"op":"Block","x":4,"y":0,"size":3},{"op":"IsInter","a":true},{"op":"RefFrames","a":[1,8]},{"op":"MvRefs","has_tr":false},{"op":"InterMode","a":19},{"op":"Mv","list":0,"a":[-40,6]},{"op":"Block","x":0,"y":2,"size":3},{"op":"IsInter","a":true},{"op":"RefFrames","a":[1,8]},{"op":"MvRefs","has_tr":false},{"op":"InterMode","a":19},{"op":"Mv","list":0,"a":[2,2]},{"op":"Block","x":2,"y":2,"size":3},{"op":"IsInter","a":true},{"op":"RefFrames","a":[1,8]},{"op":"MvRefs","has_tr":true},{"op":"InterMode","a":19},{"op":"Drl","idx":2,"a":false}]]}
6
refused tile 0 item 29 r80

{"seq":{"chroma_sampling":3,"still_picture":false,"reduced_still_picture_hdr":false},"frame":{"width":24,"height":24,"frame_type":1,"intra_only":false,"force_integer_mv":0,"refresh_frame_flags":0},"tiles":[[{"op":"Block","x":0,"y":0,"size":3},{"op":"IsInter","a":true},{"op":"RefFrames","a":[1,8]},{"op":"MvRefs","has_tr":false},{"op":"InterMode","a":19},{"op":"Mv","list":0,"a":[8,-16]},{"op":"Block","x":2,"y":0,"size":3},{"op":"IsInter","a":true},{"op":"RefFrames","a":[1,8]},{"op":"MvRefs","has_tr":false},{"op":"InterMode","a":19},{"op":"Mv","list":0,"a":[24,0]},{"op":"Block","x":4,"y":0,"size":3},{"op":"IsInter","a":true},{"op":"RefFrames","a":[1,8]},{"op":"MvRefs","has_tr":false},{"op":"InterMode","a":19},{"op":"Mv","list":0,"a":[-40,6]},{"op":"Block","x":0,"y":2,"size":3},{"op":"IsInter","a":true},{"op":"RefFrames","a":[1,8]},{"op":"MvRefs","has_tr":false},{"op":"InterMode","a":19},{"op":"Mv","list":0,"a":[2,2]},{"op":"Block","x":2,"y":2,"size":3},{"op":"IsInter","a":true},{"op":"RefFrames","a":[1,8]},{"op":"MvRefs","has_tr":true},{"op":"InterMode","a":19},{"op":"Drl","idx":9223372036854775807,"a":false}]]}
6
refused tile 0 item 29 r80

{"seq":{"chroma_sampling":3,"still_picture":false,"reduced_still_picture_hdr":false},"frame":{"width":24,"height":24,"frame_type":1,"intra_only":false,"force_integer_mv":0,"refresh_frame_flags":0},"tiles":[[{"op":"Block","x":0,"y":0,"size":3},{"op":"IsInter","a":true},{"op":"RefFrames","a":[1,8]},{"op":"MvRefs","has_tr":false},{"op":"InterMode","a":19},{"op":"Mv","list":0,"a":[8,-16]},{"op":"Block","x":2,"y":0,"size":3},{"op":"IsInter","a":true},{"op":"RefFrames","a":[1,8]},{"op":"MvRefs","has_tr":false},{"op":"InterMode","a":19},{"op":"Mv","list":0,"a":[24,0]},{"op":"Block","x":4,"y":0,"size":3},{"op":"IsInter","a":true},{"op":"RefFrames","a":[1,8]},{"op":"MvRefs","has_tr":false},{"op":"InterMode","a":19},{"op":"Mv","list":0,"a":[-40,6]},{"op":"Block","x":0,"y":2,"size":3},{"op":"IsInter","a":true},{"op":"RefFrames","a":[1,8]},{"op":"MvRefs","has_tr":false},{"op":"InterMode","a":19},{"op":"Mv","list":0,"a":[2,2]},{"op":"Block","x":2,"y":2,"size":3},{"op":"IsInter","a":true},{"op":"RefFrames","a":[1,8]},{"op":"MvRefs","has_tr":true},{"op":"InterMode","a":15},{"op":"Drl","idx":0,"a":false}]]}
6
refused tile 0 item 29 r80

{"seq":{"chroma_sampling":3,"still_picture":false,"reduced_still_picture_hdr":false},"frame":{"width":24,"height":24,"frame_type":1,"intra_only":false,"force_integer_mv":0,"refresh_frame_flags":0},"tiles":[[{"op":"Block","x":0,"y":0,"size":3},{"op":"IsInter","a":true},{"op":"RefFrames","a":[1,8]},{"op":"MvRefs","has_tr":false},{"op":"InterMode","a":19},{"op":"Mv","list":0,"a":[8,-16]},{"op":"Block","x":2,"y":0,"size":3},{"op":"IsInter","a":true},{"op":"RefFrames","a":[1,8]},{"op":"MvRefs","has_tr":false},{"op":"InterMode","a":19},{"op":"Mv","list":0,"a":[24,0]},{"op":"Block","x":4,"y":0,"size":3},{"op":"IsInter","a":true},{"op":"RefFrames","a":[1,8]},{"op":"MvRefs","has_tr":false},{"op":"InterMode","a":19},{"op":"Mv","list":0,"a":[-40,6]},{"op":"Block","x":0,"y":2,"size":3},{"op":"IsInter","a":true},{"op":"RefFrames","a":[1,8]},{"op":"MvRefs","has_tr":false},{"op":"InterMode","a":19},{"op":"Mv","list":0,"a":[2,2]},{"op":"Block","x":2,"y":2,"size":3},{"op":"IsInter","a":true},{"op":"RefFrames","a":[1,8]},{"op":"MvRefs","has_tr":true},{"op":"InterMode","a":15},{"op":"Drl","idx":3,"a":false}]]}
6
refused tile 0 item 29 r80

{"seq":{"chroma_sampling":3,"still_picture":false,"reduced_still_picture_hdr":false},"frame":{"width":24,"height":24,"frame_type":1,"intra_only":false,"force_integer_mv":0,"refresh_frame_flags":0},"tiles":[[{"op":"Block","x":0,"y":0,"size":3},{"op":"IsInter","a":true},{"op":"RefFrames","a":[1,8]},{"op":"MvRefs","has_tr":false},{"op":"InterMode","a":19},{"op":"Mv","list":0,"a":[8,-16]},{"op":"Block","x":2,"y":0,"size":3},{"op":"IsInter","a":true},{"op":"RefFrames","a":[1,8]},{"op":"MvRefs","has_tr":false},{"op":"InterMode","a":19},{"op":"Mv","list":0,"a":[24,0]},{"op":"Block","x":4,"y":0,"size":3},{"op":"IsInter","a":true},{"op":"RefFrames","a":[1,8]},{"op":"MvRefs","has_tr":false},{"op":"InterMode","a":19},{"op":"Mv","list":0,"a":[-40,6]},{"op":"Block","x":0,"y":2,"size":3},{"op":"IsInter","a":true},{"op":"RefFrames","a":[1,8]},{"op":"MvRefs","has_tr":false},{"op":"InterMode","a":19},{"op":"Mv","list":0,"a":[2,2]},{"op":"Block","x":2,"y":2,"size":3},{"op":"IsInter","a":true},{"op":"RefFrames","a":[1,8]},{"op":"MvRefs","has_tr":true},{"op":"InterMode","a":14},{"op":"Drl","idx":0,"a":false}]]}
6
refused tile 0 item 29 r80

{"seq":{"chroma_sampling":3,"still_picture":false,"reduced_still_picture_hdr":false},"frame":{"width":24,"height":24,"frame_type":1,"intra_only":false,"force_integer_mv":0,"refresh_frame_flags":0},"tiles":[[{"op":"Block","x":0,"y":0,"size":3},{"op":"IsInter","a":true},{"op":"RefFrames","a":[1,8]},{"op":"MvRefs","has_tr":false},{"op":"InterMode","a":19},{"op":"Mv","list":0,"a":[8,-16]},{"op":"Block","x":2,"y":0,"size":3},{"op":"IsInter","a":true},{"op":"RefFrames","a":[1,8]},{"op":"MvRefs","has_tr":false},{"op":"InterMode","a":19},{"op":"Mv","list":0,"a":[24,0]},{"op":"Block","x":4,"y":0,"size":3},{"op":"IsInter","a":true},{"op":"RefFrames","a":[1,8]},{"op":"MvRefs","has_tr":false},{"op":"InterMode","a":19},{"op":"Mv","list":0,"a":[-40,6]},{"op":"Block","x":0,"y":2,"size":3},{"op":"IsInter","a":true},{"op":"RefFrames","a":[1,8]},{"op":"MvRefs","has_tr":false},{"op":"InterMode","a":19},{"op":"Mv","list":0,"a":[2,2]},{"op":"Block","x":2,"y":2,"size":3},{"op":"IsInter","a":true},{"op":"RefFrames","a":[1,8]},{"op":"MvRefs","has_tr":true},{"op":"InterMode","a":14},{"op":"Drl","idx":1,"a":true}]]}
6
refused tile 0 item 29 r80

{"seq":{"chroma_sampling":3,"still_picture":false,"reduced_still_picture_hdr":false},"frame":{"width":24,"height":24,"frame_type":1,"intra_only":false,"force_integer_mv":0,"refresh_frame_flags":0},"tiles":[[{"op":"Block","x":0,"y":0,"size":3},{"op":"IsInter","a":true},{"op":"RefFrames","a":[1,8]},{"op":"MvRefs","has_tr":false},{"op":"InterMode","a":19},{"op":"Mv","list":0,"a":[8,-16]},{"op":"Block","x":2,"y":0,"size":3},{"op":"IsInter","a":true},{"op":"RefFrames","a":[1,8]},{"op":"MvRefs","has_tr":false},{"op":"InterMode","a":19},{"op":"Mv","list":0,"a":[24,0]},{"op":"Block","x":4,"y":0,"size":3},{"op":"IsInter","a":true},{"op":"RefFrames","a":[1,8]},{"op":"MvRefs","has_tr":false},{"op":"InterMode","a":19},{"op":"Mv","list":0,"a":[-40,6]},{"op":"Block","x":0,"y":2,"size":3},{"op":"IsInter","a":true},{"op":"RefFrames","a":[1,8]},{"op":"MvRefs","has_tr":false},{"op":"InterMode","a":19},{"op":"Mv","list":0,"a":[2,2]},{"op":"Block","x":2,"y":2,"size":3},{"op":"IsInter","a":true},{"op":"RefFrames","a":[1,8]},{"op":"MvRefs","has_tr":true},{"op":"InterMode","a":18},{"op":"Drl","idx":0,"a":true}]]}
6
refused tile 0 item 29 r80

{"seq":{"chroma_sampling":3,"still_picture":false,"reduced_still_picture_hdr":false},"frame":{"width":24,"height":24,"frame_type":1,"intra_only":false,"force_integer_mv":0,"refresh_frame_flags":0},"tiles":[[{"op":"Block","x":0,"y":0,"size":3},{"op":"IsInter","a":true},{"op":"RefFrames","a":[1,8]},{"op":"MvRefs","has_tr":false},{"op":"InterMode","a":19},{"op":"Mv","list":0,"a":[8,-16]},{"op":"Block","x":2,"y":0,"size":3},{"op":"IsInter","a":true},{"op":"RefFrames","a":[1,8]},{"op":"MvRefs","has_tr":false},{"op":"InterMode","a":19},{"op":"Mv","list":0,"a":[24,0]},{"op":"Block","x":4,"y":0,"size":3},{"op":"IsInter","a":true},{"op":"RefFrames","a":[1,8]},{"op":"MvRefs","has_tr":false},{"op":"InterMode","a":19},{"op":"Mv","list":0,"a":[-40,6]},{"op":"Block","x":0,"y":2,"size":3},{"op":"IsInter","a":true},{"op":"RefFrames","a":[1,8]},{"op":"MvRefs","has_tr":false},{"op":"InterMode","a":19},{"op":"Mv","list":0,"a":[2,2]},{"op":"Block","x":2,"y":2,"size":3},{"op":"IsInter","a":true},{"op":"RefFrames","a":[1,8]},{"op":"MvRefs","has_tr":true},{"op":"InterMode","a":18},{"op":"Drl","idx":1,"a":true}]]}
6
refused tile 0 item 29 r80

{"seq":{"chroma_sampling":3,"still_picture":false,"reduced_still_picture_hdr":false},"frame":{"width":24,"height":24,"frame_type":1,"intra_only":false,"force_integer_mv":0,"refresh_frame_flags":0,"reference_mode":2},"tiles":[[{"op":"Block","x":0,"y":0,"size":3},{"op":"IsInter","a":true},{"op":"RefFrames","a":[1,5]},{"op":"MvRefs","has_tr":false},{"op":"CompoundMode","a":33},{"op":"Mv","list":0,"a":[8,-16]},{"op":"Mv","list":1,"a":[2,4]},{"op":"Block","x":2,"y":0,"size":3},{"op":"IsInter","a":true},{"op":"RefFrames","a":[1,5]},{"op":"MvRefs","has_tr":false},{"op":"CompoundMode","a":33},{"op":"Mv","list":0,"a":[24,0]},{"op":"Mv","list":1,"a":[-8,0]},{"op":"Block","x":4,"y":0,"size":3},{"op":"IsInter","a":true},{"op":"RefFrames","a":[1,5]},{"op":"MvRefs","has_tr":false},{"op":"CompoundMode","a":33},{"op":"Mv","list":0,"a":[-40,6]},{"op":"Mv","list":1,"a":[0,0]},{"op":"Block","x":0,"y":2,"size":3},{"op":"IsInter","a":true},{"op":"RefFrames","a":[1,5]},{"op":"MvRefs","has_tr":false},{"op":"CompoundMode","a":33},{"op":"Mv","list":0,"a":[2,2]},{"op":"Mv","list":1,"a":[6,-6]},{"op":"Block","x":2,"y":2,"size":3},{"op":"IsInter","a":true},{"op":"RefFrames","a":[1,5]},{"op":"MvRefs","has_tr":true},{"op":"CompoundMode","a":20},{"op":"Drl","idx":0,"a":true}]]}
6
refused tile 0 item 33 r80

{"seq":{"chroma_sampling":3,"still_picture":false,"reduced_still_picture_hdr":false},"frame":{"width":24,"height":24,"frame_type":1,"intra_only":false,"force_integer_mv":0,"refresh_frame_flags":0,"reference_mode":2},"tiles":[[{"op":"Block","x":0,"y":0,"size":3},{"op":"IsInter","a":true},{"op":"RefFrames","a":[1,5]},{"op":"MvRefs","has_tr":false},{"op":"CompoundMode","a":33},{"op":"Mv","list":0,"a":[8,-16]},{"op":"Mv","list":1,"a":[2,4]},{"op":"Block","x":2,"y":0,"size":3},{"op":"IsInter","a":true},{"op":"RefFrames","a":[1,5]},{"op":"MvRefs","has_tr":false},{"op":"CompoundMode","a":33},{"op":"Mv","list":0,"a":[24,0]},{"op":"Mv","list":1,"a":[-8,0]},{"op":"Block","x":4,"y":0,"size":3},{"op":"IsInter","a":true},{"op":"RefFrames","a":[1,5]},{"op":"MvRefs","has_tr":false},{"op":"CompoundMode","a":33},{"op":"Mv","list":0,"a":[-40,6]},{"op":"Mv","list":1,"a":[0,0]},{"op":"Block","x":0,"y":2,"size":3},{"op":"IsInter","a":true},{"op":"RefFrames","a":[1,5]},{"op":"MvRefs","has_tr":false},{"op":"CompoundMode","a":33},{"op":"Mv","list":0,"a":[2,2]},{"op":"Mv","list":1,"a":[6,-6]},{"op":"Block","x":2,"y":2,"size":3},{"op":"IsInter","a":true},{"op":"RefFrames","a":[1,5]},{"op":"MvRefs","has_tr":true},{"op":"CompoundMode","a":24},{"op":"Drl","idx":0,"a":true}]]}
6
refused tile 0 item 33 r80

{"seq":{"chroma_sampling":3,"still_picture":false,"reduced_still_picture_hdr":false},"frame":{"width":24,"height":24,"frame_type":1,"intra_only":false,"force_integer_mv":0,"refresh_frame_flags":0,"reference_mode":2},"tiles":[[{"op":"Block","x":0,"y":0,"size":3},{"op":"IsInter","a":true},{"op":"RefFrames","a":[1,5]},{"op":"MvRefs","has_tr":false},{"op":"CompoundMode","a":33},{"op":"Mv","list":0,"a":[8,-16]},{"op":"Mv","list":1,"a":[2,4]},{"op":"Block","x":2,"y":0,"size":3},{"op":"IsInter","a":true},{"op":"RefFrames","a":[1,5]},{"op":"MvRefs","has_tr":false},{"op":"CompoundMode","a":33},{"op":"Mv","list":0,"a":[24,0]},{"op":"Mv","list":1,"a":[-8,0]},{"op":"Block","x":4,"y":0,"size":3},{"op":"IsInter","a":true},{"op":"RefFrames","a":[1,5]},{"op":"MvRefs","has_tr":false},{"op":"CompoundMode","a":33},{"op":"Mv","list":0,"a":[-40,6]},{"op":"Mv","list":1,"a":[0,0]},{"op":"Block","x":0,"y":2,"size":3},{"op":"IsInter","a":true},{"op":"RefFrames","a":[1,5]},{"op":"MvRefs","has_tr":false},{"op":"CompoundMode","a":33},{"op":"Mv","list":0,"a":[2,2]},{"op":"Mv","list":1,"a":[6,-6]},{"op":"Block","x":2,"y":2,"size":3},{"op":"IsInter","a":true},{"op":"RefFrames","a":[1,5]},{"op":"MvRefs","has_tr":true},{"op":"CompoundMode","a":24},{"op":"Drl","idx":1,"a":true}]]}
6
refused tile 0 item 33 r80

{"seq":{"chroma_sampling":3,"still_picture":false,"reduced_still_picture_hdr":false},"frame":{"width":24,"height":24,"frame_type":1,"intra_only":false,"force_integer_mv":0,"refresh_frame_flags":0,"reference_mode":2},"tiles":[[{"op":"Block","x":0,"y":0,"size":3},{"op":"IsInter","a":true},{"op":"RefFrames","a":[1,5]},{"op":"MvRefs","has_tr":false},{"op":"CompoundMode","a":33},{"op":"Mv","list":0,"a":[8,-16]},{"op":"Mv","list":1,"a":[2,4]},{"op":"Block","x":2,"y":0,"size":3},{"op":"IsInter","a":true},{"op":"RefFrames","a":[1,5]},{"op":"MvRefs","has_tr":false},{"op":"CompoundMode","a":33},{"op":"Mv","list":0,"a":[24,0]},{"op":"Mv","list":1,"a":[-8,0]},{"op":"Block","x":4,"y":0,"size":3},{"op":"IsInter","a":true},{"op":"RefFrames","a":[1,5]},{"op":"MvRefs","has_tr":false},{"op":"CompoundMode","a":33},{"op":"Mv","list":0,"a":[-40,6]},{"op":"Mv","list":1,"a":[0,0]},{"op":"Block","x":0,"y":2,"size":3},{"op":"IsInter","a":true},{"op":"RefFrames","a":[1,5]},{"op":"MvRefs","has_tr":false},{"op":"CompoundMode","a":33},{"op":"Mv","list":0,"a":[2,2]},{"op":"Mv","list":1,"a":[6,-6]},{"op":"Block","x":2,"y":2,"size":3},{"op":"IsInter","a":true},{"op":"RefFrames","a":[1,5]},{"op":"MvRefs","has_tr":true},{"op":"CompoundMode","a":25},{"op":"Drl","idx":0,"a":true}]]}
6
refused tile 0 item 33 r80

{"seq":{"chroma_sampling":3,"still_picture":false,"reduced_still_picture_hdr":false},"frame":{"width":24,"height":24,"frame_type":1,"intra_only":false,"force_integer_mv":0,"refresh_frame_flags":0,"reference_mode":2},"tiles":[[{"op":"Block","x":0,"y":0,"size":3},{"op":"IsInter","a":true},{"op":"RefFrames","a":[1,5]},{"op":"MvRefs","has_tr":false},{"op":"CompoundMode","a":33},{"op":"Mv","list":0,"a":[8,-16]},{"op":"Mv","list":1,"a":[2,4]},{"op":"Block","x":2,"y":0,"size":3},{"op":"IsInter","a":true},{"op":"RefFrames","a":[1,5]},{"op":"MvRefs","has_tr":false},{"op":"CompoundMode","a":33},{"op":"Mv","list":0,"a":[24,0]},{"op":"Mv","list":1,"a":[-8,0]},{"op":"Block","x":4,"y":0,"size":3},{"op":"IsInter","a":true},{"op":"RefFrames","a":[1,5]},{"op":"MvRefs","has_tr":false},{"op":"CompoundMode","a":33},{"op":"Mv","list":0,"a":[-40,6]},{"op":"Mv","list":1,"a":[0,0]},{"op":"Block","x":0,"y":2,"size":3},{"op":"IsInter","a":true},{"op":"RefFrames","a":[1,5]},{"op":"MvRefs","has_tr":false},{"op":"CompoundMode","a":33},{"op":"Mv","list":0,"a":[2,2]},{"op":"Mv","list":1,"a":[6,-6]},{"op":"Block","x":2,"y":2,"size":3},{"op":"IsInter","a":true},{"op":"RefFrames","a":[1,5]},{"op":"MvRefs","has_tr":true},{"op":"CompoundMode","a":25},{"op":"Drl","idx":1,"a":true}]]}
6
refused tile 0 item 33 r80

{"seq":{"chroma_sampling":3,"still_picture":false,"reduced_still_picture_hdr":false},"frame":{"width":24,"height":24,"frame_type":1,"intra_only":false,"force_integer_mv":0,"refresh_frame_flags":0,"reference_mode":2},"tiles":[[{"op":"Block","x":0,"y":0,"size":3},{"op":"IsInter","a":true},{"op":"RefFrames","a":[1,5]},{"op":"MvRefs","has_tr":false},{"op":"CompoundMode","a":33},{"op":"Mv","list":0,"a":[8,-16]},{"op":"Mv","list":1,"a":[2,4]},{"op":"Block","x":2,"y":0,"size":3},{"op":"IsInter","a":true},{"op":"RefFrames","a":[1,5]},{"op":"MvRefs","has_tr":false},{"op":"CompoundMode","a":33},{"op":"Mv","list":0,"a":[24,0]},{"op":"Mv","list":1,"a":[-8,0]},{"op":"Block","x":4,"y":0,"size":3},{"op":"IsInter","a":true},{"op":"RefFrames","a":[1,5]},{"op":"MvRefs","has_tr":false},{"op":"CompoundMode","a":33},{"op":"Mv","list":0,"a":[-40,6]},{"op":"Mv","list":1,"a":[0,0]},{"op":"Block","x":0,"y":2,"size":3},{"op":"IsInter","a":true},{"op":"RefFrames","a":[1,5]},{"op":"MvRefs","has_tr":false},{"op":"CompoundMode","a":33},{"op":"Mv","list":0,"a":[2,2]},{"op":"Mv","list":1,"a":[6,-6]},{"op":"Block","x":2,"y":2,"size":3},{"op":"IsInter","a":true},{"op":"RefFrames","a":[1,5]},{"op":"MvRefs","has_tr":true},{"op":"CompoundMode","a":26},{"op":"Drl","idx":0,"a":true}]]}
6
refused tile 0 item 33 r80

{"seq":{"chroma_sampling":3,"still_picture":false,"reduced_still_picture_hdr":false},"frame":{"width":24,"height":24,"frame_type":1,"intra_only":false,"force_integer_mv":0,"refresh_frame_flags":0,"reference_mode":2},"tiles":[[{"op":"Block","x":0,"y":0,"size":3},{"op":"IsInter","a":true},{"op":"RefFrames","a":[1,5]},{"op":"MvRefs","has_tr":false},{"op":"CompoundMode","a":33},{"op":"Mv","list":0,"a":[8,-16]},{"op":"Mv","list":1,"a":[2,4]},{"op":"Block","x":2,"y":0,"size":3},{"op":"IsInter","a":true},{"op":"RefFrames","a":[1,5]},{"op":"MvRefs","has_tr":false},{"op":"CompoundMode","a":33},{"op":"Mv","list":0,"a":[24,0]},{"op":"Mv","list":1,"a":[-8,0]},{"op":"Block","x":4,"y":0,"size":3},{"op":"IsInter","a":true},{"op":"RefFrames","a":[1,5]},{"op":"MvRefs","has_tr":false},{"op":"CompoundMode","a":33},{"op":"Mv","list":0,"a":[-40,6]},{"op":"Mv","list":1,"a":[0,0]},{"op":"Block","x":0,"y":2,"size":3},{"op":"IsInter","a":true},{"op":"RefFrames","a":[1,5]},{"op":"MvRefs","has_tr":false},{"op":"CompoundMode","a":33},{"op":"Mv","list":0,"a":[2,2]},{"op":"Mv","list":1,"a":[6,-6]},{"op":"Block","x":2,"y":2,"size":3},{"op":"IsInter","a":true},{"op":"RefFrames","a":[1,5]},{"op":"MvRefs","has_tr":true},{"op":"CompoundMode","a":21},{"op":"Drl","idx":0,"a":true}]]}
6
refused tile 0 item 33 r80

{"seq":{"chroma_sampling":3,"still_picture":false,"reduced_still_picture_hdr":false},"frame":{"width":24,"height":24,"frame_type":1,"intra_only":false,"force_integer_mv":0,"refresh_frame_flags":0,"reference_mode":2},"tiles":[[{"op":"Block","x":0,"y":0,"size":3},{"op":"IsInter","a":true},{"op":"RefFrames","a":[1,5]},{"op":"MvRefs","has_tr":false},{"op":"CompoundMode","a":33},{"op":"Mv","list":0,"a":[8,-16]},{"op":"Mv","list":1,"a":[2,4]},{"op":"Block","x":2,"y":0,"size":3},{"op":"IsInter","a":true},{"op":"RefFrames","a":[1,5]},{"op":"MvRefs","has_tr":false},{"op":"CompoundMode","a":33},{"op":"Mv","list":0,"a":[24,0]},{"op":"Mv","list":1,"a":[-8,0]},{"op":"Block","x":4,"y":0,"size":3},{"op":"IsInter","a":true},{"op":"RefFrames","a":[1,5]},{"op":"MvRefs","has_tr":false},{"op":"CompoundMode","a":33},{"op":"Mv","list":0,"a":[-40,6]},{"op":"Mv","list":1,"a":[0,0]},{"op":"Block","x":0,"y":2,"size":3},{"op":"IsInter","a":true},{"op":"RefFrames","a":[1,5]},{"op":"MvRefs","has_tr":false},{"op":"CompoundMode","a":33},{"op":"Mv","list":0,"a":[2,2]},{"op":"Mv","list":1,"a":[6,-6]},{"op":"Block","x":2,"y":2,"size":3},{"op":"IsInter","a":true},{"op":"RefFrames","a":[1,5]},{"op":"MvRefs","has_tr":true},{"op":"CompoundMode","a":29},{"op":"Drl","idx":0,"a":true}]]}
6
refused tile 0 item 33 r80

{"seq":{"chroma_sampling":3,"still_picture":false,"reduced_still_picture_hdr":false},"frame":{"width":24,"height":24,"frame_type":1,"intra_only":false,"force_integer_mv":0,"refresh_frame_flags":0,"reference_mode":2},"tiles":[[{"op":"Block","x":0,"y":0,"size":3},{"op":"IsInter","a":true},{"op":"RefFrames","a":[1,5]},{"op":"MvRefs","has_tr":false},{"op":"CompoundMode","a":33},{"op":"Mv","list":0,"a":[8,-16]},{"op":"Mv","list":1,"a":[2,4]},{"op":"Block","x":2,"y":0,"size":3},{"op":"IsInter","a":true},{"op":"RefFrames","a":[1,5]},{"op":"MvRefs","has_tr":false},{"op":"CompoundMode","a":33},{"op":"Mv","list":0,"a":[24,0]},{"op":"Mv","list":1,"a":[-8,0]},{"op":"Block","x":4,"y":0,"size":3},{"op":"IsInter","a":true},{"op":"RefFrames","a":[1,5]},{"op":"MvRefs","has_tr":false},{"op":"CompoundMode","a":33},{"op":"Mv","list":0,"a":[-40,6]},{"op":"Mv","list":1,"a":[0,0]},{"op":"Block","x":0,"y":2,"size":3},{"op":"IsInter","a":true},{"op":"RefFrames","a":[1,5]},{"op":"MvRefs","has_tr":false},{"op":"CompoundMode","a":33},{"op":"Mv","list":0,"a":[2,2]},{"op":"Mv","list":1,"a":[6,-6]},{"op":"Block","x":2,"y":2,"size":3},{"op":"IsInter","a":true},{"op":"RefFrames","a":[1,5]},{"op":"MvRefs","has_tr":true},{"op":"CompoundMode","a":32},{"op":"Drl","idx":0,"a":true}]]}
6
refused tile 0 item 33 r80

{"seq":{"chroma_sampling":3,"still_picture":false,"reduced_still_picture_hdr":false},"frame":{"width":24,"height":24,"frame_type":1,"intra_only":false,"force_integer_mv":0,"refresh_frame_flags":0,"reference_mode":2},"tiles":[[{"op":"Block","x":0,"y":0,"size":3},{"op":"IsInter","a":true},{"op":"RefFrames","a":[1,5]},{"op":"MvRefs","has_tr":false},{"op":"CompoundMode","a":33},{"op":"Mv","list":0,"a":[8,-16]},{"op":"Mv","list":1,"a":[2,4]},{"op":"Block","x":2,"y":0,"size":3},{"op":"IsInter","a":true},{"op":"RefFrames","a":[1,5]},{"op":"MvRefs","has_tr":false},{"op":"CompoundMode","a":33},{"op":"Mv","list":0,"a":[24,0]},{"op":"Mv","list":1,"a":[-8,0]},{"op":"Block","x":4,"y":0,"size":3},{"op":"IsInter","a":true},{"op":"RefFrames","a":[1,5]},{"op":"MvRefs","has_tr":false},{"op":"CompoundMode","a":33},{"op":"Mv","list":0,"a":[-40,6]},{"op":"Mv","list":1,"a":[0,0]},{"op":"Block","x":0,"y":2,"size":3},{"op":"IsInter","a":true},{"op":"RefFrames","a":[1,5]},{"op":"MvRefs","has_tr":false},{"op":"CompoundMode","a":33},{"op":"Mv","list":0,"a":[2,2]},{"op":"Mv","list":1,"a":[6,-6]},{"op":"Block","x":2,"y":2,"size":3},{"op":"IsInter","a":true},{"op":"RefFrames","a":[1,5]},{"op":"MvRefs","has_tr":true},{"op":"CompoundMode","a":32},{"op":"Drl","idx":1,"a":true}]]}
6
refused tile 0 item 33 r80

{"seq":{"chroma_sampling":3,"still_picture":false,"reduced_still_picture_hdr":false},"frame":{"width":24,"height":24,"frame_type":1,"intra_only":false,"force_integer_mv":0,"refresh_frame_flags":0,"reference_mode":2},"tiles":[[{"op":"Block","x":0,"y":0,"size":3},{"op":"IsInter","a":true},{"op":"RefFrames","a":[1,5]},{"op":"MvRefs","has_tr":false},{"op":"CompoundMode","a":33},{"op":"Mv","list":0,"a":[8,-16]},{"op":"Mv","list":1,"a":[2,4]},{"op":"Block","x":2,"y":0,"size":3},{"op":"IsInter","a":true},{"op":"RefFrames","a":[1,5]},{"op":"MvRefs","has_tr":false},{"op":"CompoundMode","a":33},{"op":"Mv","list":0,"a":[24,0]},{"op":"Mv","list":1,"a":[-8,0]},{"op":"Block","x":4,"y":0,"size":3},{"op":"IsInter","a":true},{"op":"RefFrames","a":[1,5]},{"op":"MvRefs","has_tr":false},{"op":"CompoundMode","a":33},{"op":"Mv","list":0,"a":[-40,6]},{"op":"Mv","list":1,"a":[0,0]},{"op":"Block","x":0,"y":2,"size":3},{"op":"IsInter","a":true},{"op":"RefFrames","a":[1,5]},{"op":"MvRefs","has_tr":false},{"op":"CompoundMode","a":33},{"op":"Mv","list":0,"a":[2,2]},{"op":"Mv","list":1,"a":[6,-6]},{"op":"Block","x":2,"y":2,"size":3},{"op":"IsInter","a":true},{"op":"RefFrames","a":[1,5]},{"op":"MvRefs","has_tr":true},{"op":"CompoundMode","a":33},{"op":"Drl","idx":2,"a":true}]]}
6
refused tile 0 item 33 r80

{"seq":{"chroma_sampling":3,"still_picture":false,"reduced_still_picture_hdr":false},"frame":{"width":24,"height":24,"frame_type":1,"intra_only":false,"force_integer_mv":0,"refresh_frame_flags":0},"tiles":[[{"op":"Block","x":0,"y":0,"size":3},{"op":"IsInter","a":true},{"op":"RefFrames","a":[1,8]},{"op":"MvRefs","has_tr":false},{"op":"InterMode","a":19},{"op":"Mv","list":0,"a":[8,-16]},{"op":"Block","x":2,"y":0,"size":3},{"op":"IsInter","a":true},{"op":"RefFrames","a":[1,8]},{"op":"MvRefs","has_tr":false},{"op":"InterMode","a":19},{"op":"Mv","list":0,"a":[24,0]},{"op":"Block","x":4,"y":0,"size":3},{"op":"IsInter","a":true},{"op":"RefFrames","a":[1,8]},{"op":"MvRefs","has_tr":false},{"op":"InterMode","a":19},{"op":"Mv","list":0,"a":[-40,6]},{"op":"Block","x":0,"y":2,"size":3},{"op":"IsInter","a":true},{"op":"RefFrames","a":[1,8]},{"op":"MvRefs","has_tr":false},{"op":"InterMode","a":19},{"op":"Mv","list":0,"a":[2,2]},{"op":"Block","x":2,"y":2,"size":3},{"op":"IsInter","a":true},{"op":"RefFrames","a":[1,8]},{"op":"MvRefs","has_tr":true},{"op":"Drl","idx":0,"a":true}]]}
6
refused tile 0 item 28 r80

{"seq":{"chroma_sampling":3,"still_picture":false,"reduced_still_picture_hdr":false},"frame":{"width":8,"height":8,"frame_type":1,"intra_only":false,"force_integer_mv":0,"refresh_frame_flags":0},"tiles":[[{"op":"Block","x":0,"y":0,"size":3},{"op":"IsInter","a":true},{"op":"RefFrames","a":[1,8]},{"op":"MvRefs","has_tr":false},{"op":"InterMode","a":19},{"op":"Mv","list":0,"a":[0,2]}]]}
0
1200320d30e000000003640000000081f9
tile 0 2 16

{"seq":{"chroma_sampling":3,"still_picture":false,"reduced_still_picture_hdr":false},"frame":{"width":8,"height":8,"frame_type":1,"intra_only":false,"force_integer_mv":0,"refresh_frame_flags":0},"tiles":[[{"op":"Block","x":0,"y":0,"size":3},{"op":"IsInter","a":true},{"op":"RefFrames","a":[1,8]},{"op":"MvRefs","has_tr":false},{"op":"InterMode","a":19},{"op":"Mv","list":0,"a":[0,3]}]]}
6
refused tile 0 item 5 r82

{"seq":{"chroma_sampling":3,"still_picture":false,"reduced_still_picture_hdr":false},"frame":{"width":8,"height":8,"frame_type":1,"intra_only":false,"force_integer_mv":0,"refresh_frame_flags":0},"tiles":[[{"op":"Block","x":0,"y":0,"size":3},{"op":"IsInter","a":true},{"op":"RefFrames","a":[1,8]},{"op":"MvRefs","has_tr":false},{"op":"InterMode","a":19},{"op":"Mv","list":0,"a":[0,0]}]]}
0
1200320d30e00000000364000000008080
tile 0 2 9

{"seq":{"chroma_sampling":3,"still_picture":false,"reduced_still_picture_hdr":false},"frame":{"width":8,"height":8,"frame_type":1,"intra_only":false,"force_integer_mv":0,"refresh_frame_flags":0},"tiles":[[{"op":"Block","x":0,"y":0,"size":3},{"op":"IsInter","a":true},{"op":"RefFrames","a":[1,8]},{"op":"MvRefs","has_tr":false},{"op":"InterMode","a":19},{"op":"Mv","list":0,"a":[2,0]}]]}
0
1200320d30e000000003640000000083f9
tile 0 2 16

{"seq":{"chroma_sampling":3,"still_picture":false,"reduced_still_picture_hdr":false},"frame":{"width":8,"height":8,"frame_type":1,"intra_only":false,"force_integer_mv":0,"refresh_frame_flags":0},"tiles":[[{"op":"Block","x":0,"y":0,"size":3},{"op":"IsInter","a":true},{"op":"RefFrames","a":[1,8]},{"op":"MvRefs","has_tr":false},{"op":"InterMode","a":19},{"op":"Mv","list":0,"a":[0,-2]}]]}
0
1200320d30e000000003640000000082f9
tile 0 2 16

{"seq":{"chroma_sampling":3,"still_picture":false,"reduced_still_picture_hdr":false},"frame":{"width":8,"height":8,"frame_type":1,"intra_only":false,"force_integer_mv":0,"refresh_frame_flags":0},"tiles":[[{"op":"Block","x":0,"y":0,"size":3},{"op":"IsInter","a":true},{"op":"RefFrames","a":[1,8]},{"op":"MvRefs","has_tr":false},{"op":"InterMode","a":19},{"op":"Mv","list":0,"a":[2,2]}]]}
0
1200320e30e000000003640000000085f842
tile 0 3 23

{"seq":{"chroma_sampling":3,"still_picture":false,"reduced_still_picture_hdr":false},"frame":{"width":8,"height":8,"frame_type":1,"intra_only":false,"force_integer_mv":0,"refresh_frame_flags":0},"tiles":[[{"op":"Block","x":0,"y":0,"size":3},{"op":"IsInter","a":true},{"op":"RefFrames","a":[1,8]},{"op":"MvRefs","has_tr":false},{"op":"InterMode","a":19},{"op":"Mv","list":0,"a":[-16,14]}]]}
0
1200320e30e0000000036400000000870ce2
tile 0 3 23

{"seq":{"chroma_sampling":3,"still_picture":false,"reduced_still_picture_hdr":false},"frame":{"width":8,"height":8,"frame_type":1,"intra_only":false,"force_integer_mv":0,"refresh_frame_flags":0},"tiles":[[{"op":"Block","x":0,"y":0,"size":3},{"op":"IsInter","a":true},{"op":"RefFrames","a":[1,8]},{"op":"MvRefs","has_tr":false},{"op":"InterMode","a":19},{"op":"Mv","list":0,"a":[16,-30]}]]}
0
1200320e30e0000000036400000000860e66
tile 0 3 23

{"seq":{"chroma_sampling":3,"still_picture":false,"reduced_still_picture_hdr":false},"frame":{"width":8,"height":8,"frame_type":1,"intra_only":false,"force_integer_mv":0,"refresh_frame_flags":0},"tiles":[[{"op":"Block","x":0,"y":0,"size":3},{"op":"IsInter","a":true},{"op":"RefFrames","a":[1,8]},{"op":"MvRefs","has_tr":false},{"op":"InterMode","a":19},{"op":"Mv","list":0,"a":[254,-256]}]]}
0
1200320f30e0000000036400000000866c4ad8
tile 0 4 29

{"seq":{"chroma_sampling":3,"still_picture":false,"reduced_still_picture_hdr":false},"frame":{"width":8,"height":8,"frame_type":1,"intra_only":false,"force_integer_mv":0,"refresh_frame_flags":0},"tiles":[[{"op":"Block","x":0,"y":0,"size":3},{"op":"IsInter","a":true},{"op":"RefFrames","a":[1,8]},{"op":"MvRefs","has_tr":false},{"op":"InterMode","a":19},{"op":"Mv","list":0,"a":[-4094,4096]}]]}
0
1200321030e000000003640000000087c9e6d988
tile 0 5 37

{"seq":{"chroma_sampling":3,"still_picture":false,"reduced_still_picture_hdr":false},"frame":{"width":8,"height":8,"frame_type":1,"intra_only":false,"force_integer_mv":0,"refresh_frame_flags":0},"tiles":[[{"op":"Block","x":0,"y":0,"size":3},{"op":"IsInter","a":true},{"op":"RefFrames","a":[1,8]},{"op":"MvRefs","has_tr":false},{"op":"InterMode","a":19},{"op":"Mv","list":0,"a":[16382,-16382]}]]}
0
1200321130e000000003640000000086f86e8fde80
tile 0 6 41

{"seq":{"chroma_sampling":3,"still_picture":false,"reduced_still_picture_hdr":false},"frame":{"width":8,"height":8,"frame_type":1,"intra_only":false,"force_integer_mv":0,"refresh_frame_flags":0,"allow_high_precision_mv":true},"tiles":[[{"op":"Block","x":0,"y":0,"size":3},{"op":"IsInter","a":true},{"op":"RefFrames","a":[1,8]},{"op":"MvRefs","has_tr":false},{"op":"InterMode","a":19},{"op":"Mv","list":0,"a":[1,0]}]]}
0
1200320e30e000000043640000000083f880
tile 0 3 17

{"seq":{"chroma_sampling":3,"still_picture":false,"reduced_still_picture_hdr":false},"frame":{"width":8,"height":8,"frame_type":1,"intra_only":false,"force_integer_mv":0,"refresh_frame_flags":0,"allow_high_precision_mv":true},"tiles":[[{"op":"Block","x":0,"y":0,"size":3},{"op":"IsInter","a":true},{"op":"RefFrames","a":[1,8]},{"op":"MvRefs","has_tr":false},{"op":"InterMode","a":19},{"op":"Mv","list":0,"a":[0,-3]}]]}
0
1200320e30e000000043640000000082fb80
tile 0 3 17

{"seq":{"chroma_sampling":3,"still_picture":false,"reduced_still_picture_hdr":false},"frame":{"width":8,"height":8,"frame_type":1,"intra_only":false,"force_integer_mv":0,"refresh_frame_flags":0,"allow_high_precision_mv":true},"tiles":[[{"op":"Block","x":0,"y":0,"size":3},{"op":"IsInter","a":true},{"op":"RefFrames","a":[1,8]},{"op":"MvRefs","has_tr":false},{"op":"InterMode","a":19},{"op":"Mv","list":0,"a":[7,16]}]]}
0
1200320f30e000000043640000000086011780
tile 0 4 25

{"seq":{"chroma_sampling":3,"still_picture":false,"reduced_still_picture_hdr":false},"frame":{"width":8,"height":8,"frame_type":1,"intra_only":false,"force_integer_mv":0,"refresh_frame_flags":0,"allow_high_precision_mv":true},"tiles":[[{"op":"Block","x":0,"y":0,"size":3},{"op":"IsInter","a":true},{"op":"RefFrames","a":[1,8]},{"op":"MvRefs","has_tr":false},{"op":"InterMode","a":19},{"op":"Mv","list":0,"a":[-129,8191]}]]}
0
1200321030e00000004364000000008755dd94f0
tile 0 5 36

{"seq":{"chroma_sampling":3,"still_picture":false,"reduced_still_picture_hdr":false},"frame":{"width":8,"height":8,"frame_type":1,"intra_only":false,"force_integer_mv":0,"refresh_frame_flags":0,"allow_high_precision_mv":true},"tiles":[[{"op":"Block","x":0,"y":0,"size":3},{"op":"IsInter","a":true},{"op":"RefFrames","a":[1,8]},{"op":"MvRefs","has_tr":false},{"op":"InterMode","a":19},{"op":"Mv","list":0,"a":[16383,-16383]}]]}
0
1200321130e000000043640000000086f86f47f7a0
tile 0 6 43

{"seq":{"chroma_sampling":3,"still_picture":false,"reduced_still_picture_hdr":false},"frame":{"width":8,"height":8,"frame_type":1,"intra_only":false,"force_integer_mv":1,"refresh_frame_flags":0,"allow_screen_content_tools":1},"tiles":[[{"op":"Block","x":0,"y":0,"size":3},{"op":"IsInter","a":true},{"op":"RefFrames","a":[1,8]},{"op":"MvRefs","has_tr":false},{"op":"InterMode","a":19},{"op":"Mv","list":0,"a":[0,8]}]]}
0
1200320d337000000003640000000081fc
tile 0 2 14

{"seq":{"chroma_sampling":3,"still_picture":false,"reduced_still_picture_hdr":false},"frame":{"width":8,"height":8,"frame_type":1,"intra_only":false,"force_integer_mv":1,"refresh_frame_flags":0,"allow_screen_content_tools":1},"tiles":[[{"op":"Block","x":0,"y":0,"size":3},{"op":"IsInter","a":true},{"op":"RefFrames","a":[1,8]},{"op":"MvRefs","has_tr":false},{"op":"InterMode","a":19},{"op":"Mv","list":0,"a":[-8,0]}]]}
0
1200320d337000000003640000000084fc
tile 0 2 14

{"seq":{"chroma_sampling":3,"still_picture":false,"reduced_still_picture_hdr":false},"frame":{"width":8,"height":8,"frame_type":1,"intra_only":false,"force_integer_mv":1,"refresh_frame_flags":0,"allow_screen_content_tools":1},"tiles":[[{"op":"Block","x":0,"y":0,"size":3},{"op":"IsInter","a":true},{"op":"RefFrames","a":[1,8]},{"op":"MvRefs","has_tr":false},{"op":"InterMode","a":19},{"op":"Mv","list":0,"a":[16,-24]}]]}
0
1200320e3370000000036400000000860a60
tile 0 3 19

{"seq":{"chroma_sampling":3,"still_picture":false,"reduced_still_picture_hdr":false},"frame":{"width":8,"height":8,"frame_type":1,"intra_only":false,"force_integer_mv":1,"refresh_frame_flags":0,"allow_screen_content_tools":1},"tiles":[[{"op":"Block","x":0,"y":0,"size":3},{"op":"IsInter","a":true},{"op":"RefFrames","a":[1,8]},{"op":"MvRefs","has_tr":false},{"op":"InterMode","a":19},{"op":"Mv","list":0,"a":[128,-1024]}]]}
0
1200320f337000000003640000000086552f40
tile 0 4 26

{"seq":{"chroma_sampling":3,"still_picture":false,"reduced_still_picture_hdr":false},"frame":{"width":8,"height":8,"frame_type":1,"intra_only":false,"force_integer_mv":1,"refresh_frame_flags":0,"allow_screen_content_tools":1},"tiles":[[{"op":"Block","x":0,"y":0,"size":3},{"op":"IsInter","a":true},{"op":"RefFrames","a":[1,8]},{"op":"MvRefs","has_tr":false},{"op":"InterMode","a":19},{"op":"Mv","list":0,"a":[8192,-16376]}]]}
0
12003210337000000003640000000086e167bc70
tile 0 5 36

{"seq":{"chroma_sampling":3,"still_picture":false,"reduced_still_picture_hdr":false},"frame":{"width":8,"height":8,"frame_type":1,"intra_only":false,"force_integer_mv":0,"refresh_frame_flags":0,"allow_high_precision_mv":true},"tiles":[[{"op":"Block","x":0,"y":0,"size":3},{"op":"IsInter","a":true},{"op":"RefFrames","a":[1,8]},{"op":"MvRefs","has_tr":false},{"op":"InterMode","a":19},{"op":"Mv","list":0,"a":[3,-5]},{"op":"Mv","list":0,"a":[3,-5]},{"op":"Mv","list":0,"a":[-200,17]},{"op":"Mv","list":0,"a":[3,-5]}]]}
0
1200321630e000000043640000000085fbf5f09e786689bad680
tile 0 11 81

{"seq":{"chroma_sampling":3,"still_picture":false,"reduced_still_picture_hdr":false},"frame":{"width":16,"height":8,"frame_type":1,"intra_only":false,"force_integer_mv":0,"refresh_frame_flags":0},"tiles":[[{"op":"Block","x":0,"y":0,"size":3},{"op":"IsInter","a":true},{"op":"RefFrames","a":[1,8]},{"op":"MvRefs","has_tr":false},{"op":"InterMode","a":19},{"op":"Mv","list":0,"a":[8,-16]},{"op":"Block","x":2,"y":0,"size":3},{"op":"IsInter","a":true},{"op":"RefFrames","a":[1,8]},{"op":"MvRefs","has_tr":false},{"op":"InterMode","a":19},{"op":"Mv","list":0,"a":[8,-16]}]]}
0
1200320f30e000000003640000000086029b1c
tile 0 4 30

{"seq":{"chroma_sampling":3,"still_picture":false,"reduced_still_picture_hdr":false},"frame":{"width":16,"height":8,"frame_type":1,"intra_only":false,"force_integer_mv":0,"refresh_frame_flags":0},"tiles":[[{"op":"Block","x":0,"y":0,"size":3},{"op":"IsInter","a":true},{"op":"RefFrames","a":[1,8]},{"op":"MvRefs","has_tr":false},{"op":"InterMode","a":19},{"op":"Mv","list":0,"a":[8,-16]},{"op":"Block","x":2,"y":0,"size":3},{"op":"IsInter","a":true},{"op":"RefFrames","a":[1,8]},{"op":"MvRefs","has_tr":false},{"op":"InterMode","a":19},{"op":"Mv","list":0,"a":[10,-18]}]]}
0
1200321130e000000003640000000086029b32b050
tile 0 6 44

{"seq":{"chroma_sampling":3,"still_picture":false,"reduced_still_picture_hdr":false},"frame":{"width":16,"height":8,"frame_type":1,"intra_only":false,"force_integer_mv":0,"refresh_frame_flags":0,"allow_high_precision_mv":true},"tiles":[[{"op":"Block","x":0,"y":0,"size":3},{"op":"IsInter","a":true},{"op":"RefFrames","a":[1,8]},{"op":"MvRefs","has_tr":false},{"op":"InterMode","a":19},{"op":"Mv","list":0,"a":[-8192,8191]},{"op":"Block","x":2,"y":0,"size":3},{"op":"IsInter","a":true},{"op":"RefFrames","a":[1,8]},{"op":"MvRefs","has_tr":false},{"op":"InterMode","a":19},{"op":"Mv","list":0,"a":[8192,-8193]}]]}
0
1200321630e000000043640000000087e177330e612f37018c10
tile 0 11 84

{"seq":{"chroma_sampling":3,"still_picture":false,"reduced_still_picture_hdr":false},"frame":{"width":8,"height":8,"frame_type":1,"intra_only":false,"force_integer_mv":0,"refresh_frame_flags":0,"reference_mode":2,"allow_high_precision_mv":true},"tiles":[[{"op":"Block","x":0,"y":0,"size":3},{"op":"IsInter","a":true},{"op":"RefFrames","a":[2,6]},{"op":"MvRefs","has_tr":false},{"op":"CompoundMode","a":24},{"op":"Mv","list":1,"a":[3,6]}]]}
0
1200320f30e0000000436400000400eaae85e4
tile 0 4 30

{"seq":{"chroma_sampling":3,"still_picture":false,"reduced_still_picture_hdr":false},"frame":{"width":8,"height":8,"frame_type":1,"intra_only":false,"force_integer_mv":0,"refresh_frame_flags":0,"reference_mode":2,"allow_high_precision_mv":true},"tiles":[[{"op":"Block","x":0,"y":0,"size":3},{"op":"IsInter","a":true},{"op":"RefFrames","a":[2,6]},{"op":"MvRefs","has_tr":false},{"op":"CompoundMode","a":25},{"op":"Mv","list":0,"a":[4,0]}]]}
0
1200320e30e0000000436400000400eadea4
tile 0 3 22

{"seq":{"chroma_sampling":3,"still_picture":false,"reduced_still_picture_hdr":false},"frame":{"width":8,"height":8,"frame_type":1,"intra_only":false,"force_integer_mv":0,"refresh_frame_flags":0,"reference_mode":2,"allow_high_precision_mv":true},"tiles":[[{"op":"Block","x":0,"y":0,"size":3},{"op":"IsInter","a":true},{"op":"RefFrames","a":[2,6]},{"op":"MvRefs","has_tr":false},{"op":"CompoundMode","a":26},{"op":"Mv","list":1,"a":[3,6]}]]}
0
1200320f30e0000000436400000400eb2ea5e4
tile 0 4 30

{"seq":{"chroma_sampling":3,"still_picture":false,"reduced_still_picture_hdr":false},"frame":{"width":8,"height":8,"frame_type":1,"intra_only":false,"force_integer_mv":0,"refresh_frame_flags":0,"reference_mode":2,"allow_high_precision_mv":true},"tiles":[[{"op":"Block","x":0,"y":0,"size":3},{"op":"IsInter","a":true},{"op":"RefFrames","a":[2,6]},{"op":"MvRefs","has_tr":false},{"op":"CompoundMode","a":29},{"op":"Mv","list":0,"a":[4,0]}]]}
0
1200320e30e0000000436400000400eb5ec4
tile 0 3 22

{"seq":{"chroma_sampling":3,"still_picture":false,"reduced_still_picture_hdr":false},"frame":{"width":8,"height":8,"frame_type":1,"intra_only":false,"force_integer_mv":0,"refresh_frame_flags":0,"reference_mode":2,"allow_high_precision_mv":true},"tiles":[[{"op":"Block","x":0,"y":0,"size":3},{"op":"IsInter","a":true},{"op":"RefFrames","a":[2,6]},{"op":"MvRefs","has_tr":false},{"op":"CompoundMode","a":33},{"op":"Mv","list":0,"a":[4,0]},{"op":"Mv","list":1,"a":[3,6]}]]}
0
1200321030e0000000436400000400ebdee82d3d
tile 0 5 40

{"seq":{"chroma_sampling":3,"still_picture":false,"reduced_still_picture_hdr":false},"frame":{"width":8,"height":8,"frame_type":1,"intra_only":false,"force_integer_mv":0,"refresh_frame_flags":0,"reference_mode":2,"allow_high_precision_mv":true},"tiles":[[{"op":"Block","x":0,"y":0,"size":3},{"op":"IsInter","a":true},{"op":"RefFrames","a":[2,6]},{"op":"MvRefs","has_tr":false},{"op":"CompoundMode","a":33},{"op":"Mv","list":1,"a":[3,6]},{"op":"Mv","list":0,"a":[4,0]},{"op":"Mv","list":1,"a":[3,6]}]]}
0
1200321330e0000000436400000400ebeed5e510696780
tile 0 8 57

{"seq":{"chroma_sampling":3,"still_picture":false,"reduced_still_picture_hdr":false},"frame":{"width":8,"height":8,"frame_type":1,"intra_only":false,"force_integer_mv":0,"refresh_frame_flags":0},"tiles":[[{"op":"Mv","list":0,"a":[0,2]}]]}
6
refused tile 0 item 0 r64

{"seq":{"chroma_sampling":3},"frame":{"width":8,"height":8},"tiles":[[{"op":"Block","x":0,"y":0,"size":3},{"op":"Mv","list":0,"a":[0,2]}]]}
6
refused tile 0 item 1 r65

{"seq":{"chroma_sampling":3,"still_picture":false,"reduced_still_picture_hdr":false},"frame":{"width":8,"height":8,"frame_type":1,"intra_only":false,"force_integer_mv":0,"refresh_frame_flags":0},"tiles":[[{"op":"Block","x":0,"y":0,"size":3},{"op":"Mv","list":0,"a":[0,2]}]]}
6
refused tile 0 item 1 r66

{"seq":{"chroma_sampling":3,"still_picture":false,"reduced_still_picture_hdr":false},"frame":{"width":8,"height":8,"frame_type":1,"intra_only":false,"force_integer_mv":0,"refresh_frame_flags":0},"tiles":[[{"op":"Block","x":0,"y":0,"size":3},{"op":"IsInter","a":true},{"op":"RefFrames","a":[1,8]},{"op":"Mv","list":0,"a":[0,2]}]]}
6
refused tile 0 item 3 r81

{"seq":{"chroma_sampling":3,"still_picture":false,"reduced_still_picture_hdr":false},"frame":{"width":8,"height":8,"frame_type":1,"intra_only":false,"force_integer_mv":0,"refresh_frame_flags":0},"tiles":[[{"op":"Block","x":0,"y":0,"size":3},{"op":"IsInter","a":true},{"op":"RefFrames","a":[1,8]},{"op":"MvRefs","has_tr":false},{"op":"InterMode","a":14},{"op":"Mv","list":0,"a":[0,2]}]]}
6
refused tile 0 item 5 r81

{"seq":{"chroma_sampling":3,"still_picture":false,"reduced_still_picture_hdr":false},"frame":{"width":8,"height":8,"frame_type":1,"intra_only":false,"force_integer_mv":0,"refresh_frame_flags":0},"tiles":[[{"op":"Block","x":0,"y":0,"size":3},{"op":"IsInter","a":true},{"op":"RefFrames","a":[1,8]},{"op":"MvRefs","has_tr":false},{"op":"InterMode","a":15},{"op":"Mv","list":0,"a":[0,2]}]]}
6
refused tile 0 item 5 r81

{"seq":{"chroma_sampling":3,"still_picture":false,"reduced_still_picture_hdr":false},"frame":{"width":8,"height":8,"frame_type":1,"intra_only":false,"force_integer_mv":0,"refresh_frame_flags":0},"tiles":[[{"op":"Block","x":0,"y":0,"size":3},{"op":"IsInter","a":true},{"op":"RefFrames","a":[1,8]},{"op":"MvRefs","has_tr":false},{"op":"InterMode","a":18},{"op":"Mv","list":0,"a":[0,2]}]]}
6
refused tile 0 item 5 r81

{"seq":{"chroma_sampling":3,"still_picture":false,"reduced_still_picture_hdr":false},"frame":{"width":8,"height":8,"frame_type":1,"intra_only":false,"force_integer_mv":0,"refresh_frame_flags":0},"tiles":[[{"op":"Block","x":0,"y":0,"size":3},{"op":"IsInter","a":true},{"op":"RefFrames","a":[1,8]},{"op":"MvRefs","has_tr":false},{"op":"InterMode","a":19},{"op":"Mv","list":1,"a":[0,2]}]]}
6
refused tile 0 item 5 r81

{"seq":{"chroma_sampling":3,"still_picture":false,"reduced_still_picture_hdr":false},"frame":{"width":8,"height":8,"frame_type":1,"intra_only":false,"force_integer_mv":0,"refresh_frame_flags":0},"tiles":[[{"op":"Block","x":0,"y":0,"size":3},{"op":"IsInter","a":true},{"op":"RefFrames","a":[1,8]},{"op":"MvRefs","has_tr":false},{"op":"InterMode","a":19},{"op":"Mv","list":2,"a":[0,2]}]]}
6
refused tile 0 item 5 r81

{"seq":{"chroma_sampling":3,"still_picture":false,"reduced_still_picture_hdr":false},"frame":{"width":8,"height":8,"frame_type":1,"intra_only":false,"force_integer_mv":0,"refresh_frame_flags":0},"tiles":[[{"op":"Block","x":0,"y":0,"size":3},{"op":"IsInter","a":true},{"op":"RefFrames","a":[1,8]},{"op":"MvRefs","has_tr":false},{"op":"InterMode","a":19},{"op":"Mv","list":9223372036854775807,"a":[0,2]}]]}
6
refused tile 0 item 5 r81

{"seq":{"chroma_sampling":3,"still_picture":false,"reduced_still_picture_hdr":false},"frame":{"width":8,"height":8,"frame_type":1,"intra_only":false,"force_integer_mv":0,"refresh_frame_flags":0,"reference_mode":2},"tiles":[[{"op":"Block","x":0,"y":0,"size":3},{"op":"IsInter","a":true},{"op":"RefFrames","a":[1,5]},{"op":"MvRefs","has_tr":false},{"op":"CompoundMode","a":24},{"op":"Mv","list":0,"a":[0,2]}]]}
6
refused tile 0 item 5 r81

{"seq":{"chroma_sampling":3,"still_picture":false,"reduced_still_picture_hdr":false},"frame":{"width":8,"height":8,"frame_type":1,"intra_only":false,"force_integer_mv":0,"refresh_frame_flags":0,"reference_mode":2},"tiles":[[{"op":"Block","x":0,"y":0,"size":3},{"op":"IsInter","a":true},{"op":"RefFrames","a":[1,5]},{"op":"MvRefs","has_tr":false},{"op":"CompoundMode","a":25},{"op":"Mv","list":1,"a":[0,2]}]]}
6
refused tile 0 item 5 r81

{"seq":{"chroma_sampling":3,"still_picture":false,"reduced_still_picture_hdr":false},"frame":{"width":8,"height":8,"frame_type":1,"intra_only":false,"force_integer_mv":0,"refresh_frame_flags":0,"reference_mode":2},"tiles":[[{"op":"Block","x":0,"y":0,"size":3},{"op":"IsInter","a":true},{"op":"RefFrames","a":[1,5]},{"op":"MvRefs","has_tr":false},{"op":"CompoundMode","a":26},{"op":"Mv","list":0,"a":[0,2]}]]}
6
refused tile 0 item 5 r81

{"seq":{"chroma_sampling":3,"still_picture":false,"reduced_still_picture_hdr":false},"frame":{"width":8,"height":8,"frame_type":1,"intra_only":false,"force_integer_mv":0,"refresh_frame_flags":0,"reference_mode":2},"tiles":[[{"op":"Block","x":0,"y":0,"size":3},{"op":"IsInter","a":true},{"op":"RefFrames","a":[1,5]},{"op":"MvRefs","has_tr":false},{"op":"CompoundMode","a":29},{"op":"Mv","list":1,"a":[0,2]}]]}
6
refused tile 0 item 5 r81

{"seq":{"chroma_sampling":3,"still_picture":false,"reduced_still_picture_hdr":false},"frame":{"width":8,"height":8,"frame_type":1,"intra_only":false,"force_integer_mv":0,"refresh_frame_flags":0,"reference_mode":2},"tiles":[[{"op":"Block","x":0,"y":0,"size":3},{"op":"IsInter","a":true},{"op":"RefFrames","a":[1,5]},{"op":"MvRefs","has_tr":false},{"op":"CompoundMode","a":20},{"op":"Mv","list":0,"a":[0,2]}]]}
6
refused tile 0 item 5 r81

{"seq":{"chroma_sampling":3,"still_picture":false,"reduced_still_picture_hdr":false},"frame":{"width":8,"height":8,"frame_type":1,"intra_only":false,"force_integer_mv":0,"refresh_frame_flags":0,"reference_mode":2},"tiles":[[{"op":"Block","x":0,"y":0,"size":3},{"op":"IsInter","a":true},{"op":"RefFrames","a":[1,5]},{"op":"MvRefs","has_tr":false},{"op":"CompoundMode","a":20},{"op":"Mv","list":1,"a":[0,2]}]]}
6
refused tile 0 item 5 r81

{"seq":{"chroma_sampling":3,"still_picture":false,"reduced_still_picture_hdr":false},"frame":{"width":8,"height":8,"frame_type":1,"intra_only":false,"force_integer_mv":0,"refresh_frame_flags":0,"reference_mode":2},"tiles":[[{"op":"Block","x":0,"y":0,"size":3},{"op":"IsInter","a":true},{"op":"RefFrames","a":[1,5]},{"op":"MvRefs","has_tr":false},{"op":"CompoundMode","a":21},{"op":"Mv","list":0,"a":[0,2]}]]}
6
refused tile 0 item 5 r81

{"seq":{"chroma_sampling":3,"still_picture":false,"reduced_still_picture_hdr":false},"frame":{"width":8,"height":8,"frame_type":1,"intra_only":false,"force_integer_mv":0,"refresh_frame_flags":0,"reference_mode":2},"tiles":[[{"op":"Block","x":0,"y":0,"size":3},{"op":"IsInter","a":true},{"op":"RefFrames","a":[1,5]},{"op":"MvRefs","has_tr":false},{"op":"CompoundMode","a":32},{"op":"Mv","list":1,"a":[0,2]}]]}
6
refused tile 0 item 5 r81

{"seq":{"chroma_sampling":3,"still_picture":false,"reduced_still_picture_hdr":false},"frame":{"width":8,"height":8,"frame_type":1,"intra_only":false,"force_integer_mv":0,"refresh_frame_flags":0,"reference_mode":2},"tiles":[[{"op":"Block","x":0,"y":0,"size":3},{"op":"IsInter","a":true},{"op":"RefFrames","a":[1,5]},{"op":"MvRefs","has_tr":false},{"op":"CompoundMode","a":33},{"op":"Mv","list":2,"a":[0,2]}]]}
6
refused tile 0 item 5 r81

{"seq":{"chroma_sampling":3,"still_picture":false,"reduced_still_picture_hdr":false},"frame":{"width":8,"height":8,"frame_type":1,"intra_only":false,"force_integer_mv":0,"refresh_frame_flags":0,"allow_high_precision_mv":true},"tiles":[[{"op":"Block","x":0,"y":0,"size":3},{"op":"IsInter","a":true},{"op":"RefFrames","a":[1,8]},{"op":"MvRefs","has_tr":false},{"op":"InterMode","a":19},{"op":"Mv","list":0,"a":[16384,0]}]]}
6
refused tile 0 item 5 r81

{"seq":{"chroma_sampling":3,"still_picture":false,"reduced_still_picture_hdr":false},"frame":{"width":8,"height":8,"frame_type":1,"intra_only":false,"force_integer_mv":0,"refresh_frame_flags":0,"allow_high_precision_mv":true},"tiles":[[{"op":"Block","x":0,"y":0,"size":3},{"op":"IsInter","a":true},{"op":"RefFrames","a":[1,8]},{"op":"MvRefs","has_tr":false},{"op":"InterMode","a":19},{"op":"Mv","list":0,"a":[0,16384]}]]}
6
refused tile 0 item 5 r81

{"seq":{"chroma_sampling":3,"still_picture":false,"reduced_still_picture_hdr":false},"frame":{"width":8,"height":8,"frame_type":1,"intra_only":false,"force_integer_mv":0,"refresh_frame_flags":0,"allow_high_precision_mv":true},"tiles":[[{"op":"Block","x":0,"y":0,"size":3},{"op":"IsInter","a":true},{"op":"RefFrames","a":[1,8]},{"op":"MvRefs","has_tr":false},{"op":"InterMode","a":19},{"op":"Mv","list":0,"a":[-16384,0]}]]}
6
refused tile 0 item 5 r81

{"seq":{"chroma_sampling":3,"still_picture":false,"reduced_still_picture_hdr":false},"frame":{"width":8,"height":8,"frame_type":1,"intra_only":false,"force_integer_mv":0,"refresh_frame_flags":0,"allow_high_precision_mv":true},"tiles":[[{"op":"Block","x":0,"y":0,"size":3},{"op":"IsInter","a":true},{"op":"RefFrames","a":[1,8]},{"op":"MvRefs","has_tr":false},{"op":"InterMode","a":19},{"op":"Mv","list":0,"a":[0,-16384]}]]}
6
refused tile 0 item 5 r81

{"seq":{"chroma_sampling":3,"still_picture":false,"reduced_still_picture_hdr":false},"frame":{"width":8,"height":8,"frame_type":1,"intra_only":false,"force_integer_mv":0,"refresh_frame_flags":0,"allow_high_precision_mv":true},"tiles":[[{"op":"Block","x":0,"y":0,"size":3},{"op":"IsInter","a":true},{"op":"RefFrames","a":[1,8]},{"op":"MvRefs","has_tr":false},{"op":"InterMode","a":19},{"op":"Mv","list":0,"a":[32767,-32768]}]]}
6
refused tile 0 item 5 r81

{"seq":{"chroma_sampling":3,"still_picture":false,"reduced_still_picture_hdr":false},"frame":{"width":16,"height":8,"frame_type":1,"intra_only":false,"force_integer_mv":0,"refresh_frame_flags":0,"allow_high_precision_mv":true},"tiles":[[{"op":"Block","x":0,"y":0,"size":3},{"op":"IsInter","a":true},{"op":"RefFrames","a":[1,8]},{"op":"MvRefs","has_tr":false},{"op":"InterMode","a":19},{"op":"Mv","list":0,"a":[-2,2]},{"op":"Block","x":2,"y":0,"size":3},{"op":"IsInter","a":true},{"op":"RefFrames","a":[1,8]},{"op":"MvRefs","has_tr":false},{"op":"InterMode","a":19},{"op":"Mv","list":0,"a":[16382,-16382]}]]}
0
1200321430e000000043640000000086f9ec4b046fffffe0
tile 0 9 67

{"seq":{"chroma_sampling":3,"still_picture":false,"reduced_still_picture_hdr":false},"frame":{"width":16,"height":8,"frame_type":1,"intra_only":false,"force_integer_mv":0,"refresh_frame_flags":0,"allow_high_precision_mv":true},"tiles":[[{"op":"Block","x":0,"y":0,"size":3},{"op":"IsInter","a":true},{"op":"RefFrames","a":[1,8]},{"op":"MvRefs","has_tr":false},{"op":"InterMode","a":19},{"op":"Mv","list":0,"a":[-2,2]},{"op":"Block","x":2,"y":0,"size":3},{"op":"IsInter","a":true},{"op":"RefFrames","a":[1,8]},{"op":"MvRefs","has_tr":false},{"op":"InterMode","a":19},{"op":"Mv","list":0,"a":[16383,0]}]]}
6
refused tile 0 item 11 r81

{"seq":{"chroma_sampling":3,"still_picture":false,"reduced_still_picture_hdr":false},"frame":{"width":16,"height":8,"frame_type":1,"intra_only":false,"force_integer_mv":0,"refresh_frame_flags":0,"allow_high_precision_mv":true},"tiles":[[{"op":"Block","x":0,"y":0,"size":3},{"op":"IsInter","a":true},{"op":"RefFrames","a":[1,8]},{"op":"MvRefs","has_tr":false},{"op":"InterMode","a":19},{"op":"Mv","list":0,"a":[-2,2]},{"op":"Block","x":2,"y":0,"size":3},{"op":"IsInter","a":true},{"op":"RefFrames","a":[1,8]},{"op":"MvRefs","has_tr":false},{"op":"InterMode","a":19},{"op":"Mv","list":0,"a":[0,-16383]}]]}
6
refused tile 0 item 11 r81

{"seq":{"chroma_sampling":3,"still_picture":false,"reduced_still_picture_hdr":false},"frame":{"width":16,"height":8,"frame_type":1,"intra_only":false,"force_integer_mv":0,"refresh_frame_flags":0},"tiles":[[{"op":"Block","x":0,"y":0,"size":3},{"op":"IsInter","a":true},{"op":"RefFrames","a":[1,8]},{"op":"MvRefs","has_tr":false},{"op":"InterMode","a":19},{"op":"Mv","list":0,"a":[-2,2]},{"op":"Block","x":2,"y":0,"size":3},{"op":"IsInter","a":true},{"op":"RefFrames","a":[1,8]},{"op":"MvRefs","has_tr":false},{"op":"InterMode","a":19},{"op":"Mv","list":0,"a":[0,-16383]}]]}
6
refused tile 0 item 11 r81

{"seq":{"chroma_sampling":3,"still_picture":false,"reduced_still_picture_hdr":false},"frame":{"width":8,"height":8,"frame_type":1,"intra_only":false,"force_integer_mv":0,"refresh_frame_flags":0},"tiles":[[{"op":"Block","x":0,"y":0,"size":3},{"op":"IsInter","a":true},{"op":"RefFrames","a":[1,8]},{"op":"MvRefs","has_tr":false},{"op":"InterMode","a":19},{"op":"Mv","list":0,"a":[16384,3]}]]}
6
refused tile 0 item 5 r81

{"seq":{"chroma_sampling":3,"still_picture":false,"reduced_still_picture_hdr":false},"frame":{"width":8,"height":8,"frame_type":1,"intra_only":false,"force_integer_mv":0,"refresh_frame_flags":0},"tiles":[[{"op":"Block","x":0,"y":0,"size":3},{"op":"IsInter","a":true},{"op":"RefFrames","a":[1,8]},{"op":"MvRefs","has_tr":false},{"op":"InterMode","a":19},{"op":"Mv","list":0,"a":[1,0]}]]}
6
refused tile 0 item 5 r82

{"seq":{"chroma_sampling":3,"still_picture":false,"reduced_still_picture_hdr":false},"frame":{"width":8,"height":8,"frame_type":1,"intra_only":false,"force_integer_mv":0,"refresh_frame_flags":0},"tiles":[[{"op":"Block","x":0,"y":0,"size":3},{"op":"IsInter","a":true},{"op":"RefFrames","a":[1,8]},{"op":"MvRefs","has_tr":false},{"op":"InterMode","a":19},{"op":"Mv","list":0,"a":[0,-1]}]]}
6
refused tile 0 item 5 r82

{"seq":{"chroma_sampling":3,"still_picture":false,"reduced_still_picture_hdr":false},"frame":{"width":8,"height":8,"frame_type":1,"intra_only":false,"force_integer_mv":0,"refresh_frame_flags":0},"tiles":[[{"op":"Block","x":0,"y":0,"size":3},{"op":"IsInter","a":true},{"op":"RefFrames","a":[1,8]},{"op":"MvRefs","has_tr":false},{"op":"InterMode","a":19},{"op":"Mv","list":0,"a":[3,3]}]]}
6
refused tile 0 item 5 r82

{"seq":{"chroma_sampling":3,"still_picture":false,"reduced_still_picture_hdr":false},"frame":{"width":8,"height":8,"frame_type":1,"intra_only":false,"force_integer_mv":0,"refresh_frame_flags":0},"tiles":[[{"op":"Block","x":0,"y":0,"size":3},{"op":"IsInter","a":true},{"op":"RefFrames","a":[1,8]},{"op":"MvRefs","has_tr":false},{"op":"InterMode","a":19},{"op":"Mv","list":0,"a":[16381,2]}]]}
6
refused tile 0 item 5 r82

{"seq":{"chroma_sampling":3,"still_picture":false,"reduced_still_picture_hdr":false},"frame":{"width":8,"height":8,"frame_type":1,"intra_only":false,"force_integer_mv":1,"refresh_frame_flags":0,"allow_screen_content_tools":1},"tiles":[[{"op":"Block","x":0,"y":0,"size":3},{"op":"IsInter","a":true},{"op":"RefFrames","a":[1,8]},{"op":"MvRefs","has_tr":false},{"op":"InterMode","a":19},{"op":"Mv","list":0,"a":[0,4]}]]}
6
refused tile 0 item 5 r82

{"seq":{"chroma_sampling":3,"still_picture":false,"reduced_still_picture_hdr":false},"frame":{"width":8,"height":8,"frame_type":1,"intra_only":false,"force_integer_mv":1,"refresh_frame_flags":0,"allow_screen_content_tools":1},"tiles":[[{"op":"Block","x":0,"y":0,"size":3},{"op":"IsInter","a":true},{"op":"RefFrames","a":[1,8]},{"op":"MvRefs","has_tr":false},{"op":"InterMode","a":19},{"op":"Mv","list":0,"a":[2,0]}]]}
6
refused tile 0 item 5 r82

{"seq":{"chroma_sampling":3,"still_picture":false,"reduced_still_picture_hdr":false},"frame":{"width":8,"height":8,"frame_type":1,"intra_only":false,"force_integer_mv":1,"refresh_frame_flags":0,"allow_screen_content_tools":1},"tiles":[[{"op":"Block","x":0,"y":0,"size":3},{"op":"IsInter","a":true},{"op":"RefFrames","a":[1,8]},{"op":"MvRefs","has_tr":false},{"op":"InterMode","a":19},{"op":"Mv","list":0,"a":[-8,12]}]]}
6
refused tile 0 item 5 r82

{"seq":{"chroma_sampling":3,"still_picture":false,"reduced_still_picture_hdr":false},"frame":{"width":8,"height":8,"frame_type":1,"intra_only":false,"force_integer_mv":1,"refresh_frame_flags":0,"allow_screen_content_tools":1},"tiles":[[{"op":"Block","x":0,"y":0,"size":3},{"op":"IsInter","a":true},{"op":"RefFrames","a":[1,8]},{"op":"MvRefs","has_tr":false},{"op":"InterMode","a":19},{"op":"Mv","list":0,"a":[8,-7]}]]}
6
refused tile 0 item 5 r82

{"seq":{"chroma_sampling":3,"still_picture":false,"reduced_still_picture_hdr":false},"frame":{"width":8,"height":8,"frame_type":1,"intra_only":false,"force_integer_mv":1,"refresh_frame_flags":0,"allow_screen_content_tools":1,"allow_high_precision_mv":true},"tiles":[[{"op":"Block","x":0,"y":0,"size":3},{"op":"IsInter","a":true},{"op":"RefFrames","a":[1,8]},{"op":"MvRefs","has_tr":false},{"op":"InterMode","a":19},{"op":"Mv","list":0,"a":[0,3]}]]}
6
refused tile 0 item 5 r82"#;
