// Units of the kinds of step that say how an inter block is predicted, with the status and the text that they give: IsInter, RefFrames,
// MvRefs, InterMode and CompoundMode, in this order. Those of status 0 were answered by rav1e's own calls; the rules of the refusals are
// those of the tables.

/// Rows as those of `ROWS`.
pub const INTER_KINDS: &str =
    r#"{"seq":{"chroma_sampling":3,"still_picture":false,"reduced_still_picture_hdr":false},"frame":{"width":8,"height":8,"frame_type":1,"intra_only":false,"force_integer_mv":0,"refresh_frame_flags":0},"tiles":[[{"op":"Block","x":0,"y":0,"size":3},{"op":"IsInter","a":true}]]}
0
1200320c30e0000000036400000000c0
tile 0 1 2

{"seq":{"chroma_sampling":3,"still_picture":false,"reduced_still_picture_hdr":false},"frame":{"width":8,"height":8,"frame_type":1,"intra_only":false,"force_integer_mv":0,"refresh_frame_flags":0},"tiles":[[{"op":"Block","x":0,"y":0,"size":3},{"op":"IsInter","a":false}]]}
0
1200320c30e000000003640000000020
tile 0 1 3

{"seq":{"chroma_sampling":3,"still_picture":false,"reduced_still_picture_hdr":false},"frame":{"width":24,"height":24,"frame_type":1,"intra_only":false,"force_integer_mv":0,"refresh_frame_flags":0},"tiles":[[{"op":"Block","x":0,"y":0,"size":3},{"op":"IsInter","a":false},{"op":"Block","x":2,"y":0,"size":3},{"op":"IsInter","a":true},{"op":"Block","x":0,"y":2,"size":3},{"op":"IsInter","a":true},{"op":"Block","x":2,"y":2,"size":3},{"op":"IsInter","a":true},{"op":"Block","x":4,"y":0,"size":3},{"op":"IsInter","a":false},{"op":"Block","x":4,"y":2,"size":3},{"op":"IsInter","a":false},{"op":"Block","x":0,"y":4,"size":3},{"op":"IsInter","a":true},{"op":"Block","x":2,"y":4,"size":3},{"op":"IsInter","a":false},{"op":"Block","x":4,"y":4,"size":3},{"op":"IsInter","a":false}]]}
0
1200320d30e00000000364000000007260
tile 0 2 11

{"seq":{"chroma_sampling":3,"still_picture":false,"reduced_still_picture_hdr":false},"frame":{"width":8,"height":8,"frame_type":1,"intra_only":false,"force_integer_mv":0,"refresh_frame_flags":0},"tiles":[[{"op":"Block","x":0,"y":0,"size":3},{"op":"IsInter","a":true},{"op":"IsInter","a":false},{"op":"IsInter","a":true},{"op":"IsInter","a":true},{"op":"IsInter","a":false},{"op":"IntraMode","a":3},{"op":"IsInter","a":true}]]}
0
1200320d30e0000000036400000000ae20
tile 0 2 11

{"seq":{"chroma_sampling":3,"still_picture":false,"reduced_still_picture_hdr":false},"frame":{"width":8,"height":8,"frame_type":1,"intra_only":false,"force_integer_mv":0,"refresh_frame_flags":0},"tiles":[[{"op":"IsInter","a":true}]]}
6
refused tile 0 item 0 r64

{"seq":{"chroma_sampling":3},"frame":{"width":8,"height":8},"tiles":[[{"op":"Block","x":0,"y":0,"size":3},{"op":"IsInter","a":true}]]}
6
refused tile 0 item 1 r65

{"seq":{"chroma_sampling":3,"still_picture":false,"reduced_still_picture_hdr":false},"frame":{"width":8,"height":8,"frame_type":2,"refresh_frame_flags":1},"tiles":[[{"op":"Block","x":0,"y":0,"size":3},{"op":"IsInter","a":false}]]}
6
refused tile 0 item 1 r65

{"seq":{"chroma_sampling":3,"still_picture":false,"reduced_still_picture_hdr":false},"frame":{"width":8,"height":8,"frame_type":1,"intra_only":false,"force_integer_mv":0,"refresh_frame_flags":0},"tiles":[[{"op":"Block","x":0,"y":0,"size":3},{"op":"IsInter","a":true},{"op":"RefFrames","a":[1,8]}]]}
0
1200320c30e000000003640000000088
tile 0 1 5

{"seq":{"chroma_sampling":3,"still_picture":false,"reduced_still_picture_hdr":false},"frame":{"width":8,"height":8,"frame_type":1,"intra_only":false,"force_integer_mv":0,"refresh_frame_flags":0},"tiles":[[{"op":"Block","x":0,"y":0,"size":3},{"op":"IsInter","a":true},{"op":"RefFrames","a":[2,8]}]]}
0
1200320c30e000000003640000000098
tile 0 1 5

{"seq":{"chroma_sampling":3,"still_picture":false,"reduced_still_picture_hdr":false},"frame":{"width":8,"height":8,"frame_type":1,"intra_only":false,"force_integer_mv":0,"refresh_frame_flags":0},"tiles":[[{"op":"Block","x":0,"y":0,"size":3},{"op":"IsInter","a":true},{"op":"RefFrames","a":[3,8]}]]}
0
1200320c30e0000000036400000000a8
tile 0 1 5

{"seq":{"chroma_sampling":3,"still_picture":false,"reduced_still_picture_hdr":false},"frame":{"width":8,"height":8,"frame_type":1,"intra_only":false,"force_integer_mv":0,"refresh_frame_flags":0},"tiles":[[{"op":"Block","x":0,"y":0,"size":3},{"op":"IsInter","a":true},{"op":"RefFrames","a":[4,8]}]]}
0
1200320c30e0000000036400000000b8
tile 0 1 5

{"seq":{"chroma_sampling":3,"still_picture":false,"reduced_still_picture_hdr":false},"frame":{"width":8,"height":8,"frame_type":1,"intra_only":false,"force_integer_mv":0,"refresh_frame_flags":0},"tiles":[[{"op":"Block","x":0,"y":0,"size":3},{"op":"IsInter","a":true},{"op":"RefFrames","a":[5,8]}]]}
0
1200320c30e0000000036400000000c8
tile 0 1 5

{"seq":{"chroma_sampling":3,"still_picture":false,"reduced_still_picture_hdr":false},"frame":{"width":8,"height":8,"frame_type":1,"intra_only":false,"force_integer_mv":0,"refresh_frame_flags":0},"tiles":[[{"op":"Block","x":0,"y":0,"size":3},{"op":"IsInter","a":true},{"op":"RefFrames","a":[6,8]}]]}
0
1200320c30e0000000036400000000d8
tile 0 1 5

{"seq":{"chroma_sampling":3,"still_picture":false,"reduced_still_picture_hdr":false},"frame":{"width":8,"height":8,"frame_type":1,"intra_only":false,"force_integer_mv":0,"refresh_frame_flags":0},"tiles":[[{"op":"Block","x":0,"y":0,"size":3},{"op":"IsInter","a":true},{"op":"RefFrames","a":[7,8]}]]}
0
1200320c30e0000000036400000000f0
tile 0 1 4

{"seq":{"chroma_sampling":3,"still_picture":false,"reduced_still_picture_hdr":false},"frame":{"width":32,"height":32,"frame_type":1,"intra_only":false,"force_integer_mv":0,"refresh_frame_flags":0},"tiles":[[{"op":"Block","x":0,"y":0,"size":3},{"op":"IsInter","a":true},{"op":"RefFrames","a":[1,8]},{"op":"Block","x":2,"y":0,"size":3},{"op":"IsInter","a":true},{"op":"RefFrames","a":[2,8]},{"op":"Block","x":4,"y":0,"size":3},{"op":"IsInter","a":true},{"op":"RefFrames","a":[3,8]},{"op":"Block","x":6,"y":0,"size":3},{"op":"IsInter","a":true},{"op":"RefFrames","a":[4,8]},{"op":"Block","x":0,"y":2,"size":3},{"op":"IsInter","a":true},{"op":"RefFrames","a":[5,8]},{"op":"Block","x":2,"y":2,"size":3},{"op":"IsInter","a":true},{"op":"RefFrames","a":[6,8]},{"op":"Block","x":4,"y":2,"size":3},{"op":"IsInter","a":true},{"op":"RefFrames","a":[7,8]},{"op":"Block","x":6,"y":2,"size":3},{"op":"IsInter","a":true},{"op":"RefFrames","a":[1,8]},{"op":"Block","x":0,"y":4,"size":3},{"op":"IsInter","a":true},{"op":"RefFrames","a":[7,8]},{"op":"Block","x":2,"y":4,"size":3},{"op":"IsInter","a":true},{"op":"RefFrames","a":[6,8]},{"op":"Block","x":4,"y":4,"size":3},{"op":"IsInter","a":true},{"op":"RefFrames","a":[5,8]},{"op":"Block","x":6,"y":4,"size":3},{"op":"IsInter","a":true},{"op":"RefFrames","a":[4,8]},{"op":"Block","x":0,"y":6,"size":3},{"op":"IsInter","a":true},{"op":"RefFrames","a":[3,8]},{"op":"Block","x":2,"y":6,"size":3},{"op":"IsInter","a":true},{"op":"RefFrames","a":[2,8]},{"op":"Block","x":4,"y":6,"size":3},{"op":"IsInter","a":true},{"op":"RefFrames","a":[1,8]},{"op":"Block","x":6,"y":6,"size":3},{"op":"IsInter","a":true},{"op":"RefFrames","a":[7,8]}]]}
0
1200321330e0000000036400000000893947bbd2f30e80
tile 0 8 57

{"seq":{"chroma_sampling":3,"still_picture":false,"reduced_still_picture_hdr":false},"frame":{"width":8,"height":8,"frame_type":1,"intra_only":false,"force_integer_mv":0,"refresh_frame_flags":0,"reference_mode":2},"tiles":[[{"op":"Block","x":0,"y":0,"size":3},{"op":"IsInter","a":true},{"op":"RefFrames","a":[1,5]}]]}
0
1200320c30e0000000036400000400e1
tile 0 1 8

{"seq":{"chroma_sampling":3,"still_picture":false,"reduced_still_picture_hdr":false},"frame":{"width":8,"height":8,"frame_type":1,"intra_only":false,"force_integer_mv":0,"refresh_frame_flags":0,"reference_mode":2},"tiles":[[{"op":"Block","x":0,"y":0,"size":3},{"op":"IsInter","a":true},{"op":"RefFrames","a":[1,6]}]]}
0
1200320c30e0000000036400000400e3
tile 0 1 8

{"seq":{"chroma_sampling":3,"still_picture":false,"reduced_still_picture_hdr":false},"frame":{"width":8,"height":8,"frame_type":1,"intra_only":false,"force_integer_mv":0,"refresh_frame_flags":0,"reference_mode":2},"tiles":[[{"op":"Block","x":0,"y":0,"size":3},{"op":"IsInter","a":true},{"op":"RefFrames","a":[1,7]}]]}
0
1200320c30e0000000036400000400e6
tile 0 1 7

{"seq":{"chroma_sampling":3,"still_picture":false,"reduced_still_picture_hdr":false},"frame":{"width":8,"height":8,"frame_type":1,"intra_only":false,"force_integer_mv":0,"refresh_frame_flags":0,"reference_mode":2},"tiles":[[{"op":"Block","x":0,"y":0,"size":3},{"op":"IsInter","a":true},{"op":"RefFrames","a":[2,5]}]]}
0
1200320c30e0000000036400000400e9
tile 0 1 8

{"seq":{"chroma_sampling":3,"still_picture":false,"reduced_still_picture_hdr":false},"frame":{"width":8,"height":8,"frame_type":1,"intra_only":false,"force_integer_mv":0,"refresh_frame_flags":0,"reference_mode":2},"tiles":[[{"op":"Block","x":0,"y":0,"size":3},{"op":"IsInter","a":true},{"op":"RefFrames","a":[2,6]}]]}
0
1200320c30e0000000036400000400eb
tile 0 1 8

{"seq":{"chroma_sampling":3,"still_picture":false,"reduced_still_picture_hdr":false},"frame":{"width":8,"height":8,"frame_type":1,"intra_only":false,"force_integer_mv":0,"refresh_frame_flags":0,"reference_mode":2},"tiles":[[{"op":"Block","x":0,"y":0,"size":3},{"op":"IsInter","a":true},{"op":"RefFrames","a":[2,7]}]]}
0
1200320c30e0000000036400000400ee
tile 0 1 7

{"seq":{"chroma_sampling":3,"still_picture":false,"reduced_still_picture_hdr":false},"frame":{"width":8,"height":8,"frame_type":1,"intra_only":false,"force_integer_mv":0,"refresh_frame_flags":0,"reference_mode":2},"tiles":[[{"op":"Block","x":0,"y":0,"size":3},{"op":"IsInter","a":true},{"op":"RefFrames","a":[3,5]}]]}
0
1200320c30e0000000036400000400f1
tile 0 1 8

{"seq":{"chroma_sampling":3,"still_picture":false,"reduced_still_picture_hdr":false},"frame":{"width":8,"height":8,"frame_type":1,"intra_only":false,"force_integer_mv":0,"refresh_frame_flags":0,"reference_mode":2},"tiles":[[{"op":"Block","x":0,"y":0,"size":3},{"op":"IsInter","a":true},{"op":"RefFrames","a":[3,6]}]]}
0
1200320c30e0000000036400000400f3
tile 0 1 8

{"seq":{"chroma_sampling":3,"still_picture":false,"reduced_still_picture_hdr":false},"frame":{"width":8,"height":8,"frame_type":1,"intra_only":false,"force_integer_mv":0,"refresh_frame_flags":0,"reference_mode":2},"tiles":[[{"op":"Block","x":0,"y":0,"size":3},{"op":"IsInter","a":true},{"op":"RefFrames","a":[3,7]}]]}
0
1200320c30e0000000036400000400f6
tile 0 1 7

{"seq":{"chroma_sampling":3,"still_picture":false,"reduced_still_picture_hdr":false},"frame":{"width":8,"height":8,"frame_type":1,"intra_only":false,"force_integer_mv":0,"refresh_frame_flags":0,"reference_mode":2},"tiles":[[{"op":"Block","x":0,"y":0,"size":3},{"op":"IsInter","a":true},{"op":"RefFrames","a":[4,5]}]]}
0
1200320c30e0000000036400000400f9
tile 0 1 8

{"seq":{"chroma_sampling":3,"still_picture":false,"reduced_still_picture_hdr":false},"frame":{"width":8,"height":8,"frame_type":1,"intra_only":false,"force_integer_mv":0,"refresh_frame_flags":0,"reference_mode":2},"tiles":[[{"op":"Block","x":0,"y":0,"size":3},{"op":"IsInter","a":true},{"op":"RefFrames","a":[4,6]}]]}
0
1200320c30e0000000036400000400fb
tile 0 1 8

{"seq":{"chroma_sampling":3,"still_picture":false,"reduced_still_picture_hdr":false},"frame":{"width":8,"height":8,"frame_type":1,"intra_only":false,"force_integer_mv":0,"refresh_frame_flags":0,"reference_mode":2},"tiles":[[{"op":"Block","x":0,"y":0,"size":3},{"op":"IsInter","a":true},{"op":"RefFrames","a":[4,7]}]]}
0
1200320c30e0000000036400000400fe
tile 0 1 7

{"seq":{"chroma_sampling":3,"still_picture":false,"reduced_still_picture_hdr":false},"frame":{"width":32,"height":32,"frame_type":1,"intra_only":false,"force_integer_mv":0,"refresh_frame_flags":0,"reference_mode":2},"tiles":[[{"op":"Block","x":0,"y":0,"size":3},{"op":"IsInter","a":true},{"op":"RefFrames","a":[1,5]},{"op":"Block","x":2,"y":0,"size":3},{"op":"IsInter","a":true},{"op":"RefFrames","a":[1,6]},{"op":"Block","x":4,"y":0,"size":3},{"op":"IsInter","a":true},{"op":"RefFrames","a":[1,7]},{"op":"Block","x":6,"y":0,"size":3},{"op":"IsInter","a":true},{"op":"RefFrames","a":[2,5]},{"op":"Block","x":0,"y":2,"size":3},{"op":"IsInter","a":true},{"op":"RefFrames","a":[2,6]},{"op":"Block","x":2,"y":2,"size":3},{"op":"IsInter","a":true},{"op":"RefFrames","a":[2,7]},{"op":"Block","x":4,"y":2,"size":3},{"op":"IsInter","a":true},{"op":"RefFrames","a":[3,5]},{"op":"Block","x":6,"y":2,"size":3},{"op":"IsInter","a":true},{"op":"RefFrames","a":[3,6]},{"op":"Block","x":0,"y":4,"size":3},{"op":"IsInter","a":true},{"op":"RefFrames","a":[3,7]},{"op":"Block","x":2,"y":4,"size":3},{"op":"IsInter","a":true},{"op":"RefFrames","a":[4,5]},{"op":"Block","x":4,"y":4,"size":3},{"op":"IsInter","a":true},{"op":"RefFrames","a":[4,6]},{"op":"Block","x":6,"y":4,"size":3},{"op":"IsInter","a":true},{"op":"RefFrames","a":[4,7]},{"op":"Block","x":0,"y":6,"size":3},{"op":"IsInter","a":true},{"op":"RefFrames","a":[1,8]},{"op":"Block","x":2,"y":6,"size":3},{"op":"IsInter","a":true},{"op":"RefFrames","a":[5,8]},{"op":"Block","x":4,"y":6,"size":3},{"op":"IsInter","a":true},{"op":"RefFrames","a":[4,7]},{"op":"Block","x":6,"y":6,"size":3},{"op":"IsInter","a":true},{"op":"RefFrames","a":[2,5]}]]}
0
1200321730e0000000036400000400e1c21f4ec62353b05e4ee060
tile 0 12 91

{"seq":{"chroma_sampling":3,"still_picture":false,"reduced_still_picture_hdr":false},"frame":{"width":32,"height":32,"frame_type":1,"intra_only":false,"force_integer_mv":0,"refresh_frame_flags":0,"reference_mode":2},"tiles":[[{"op":"Block","x":0,"y":0,"size":3},{"op":"IsInter","a":true},{"op":"RefFrames","a":[1,8]},{"op":"Block","x":2,"y":0,"size":3},{"op":"IsInter","a":true},{"op":"RefFrames","a":[1,5]},{"op":"Block","x":4,"y":0,"size":3},{"op":"IsInter","a":true},{"op":"RefFrames","a":[7,8]},{"op":"Block","x":6,"y":0,"size":3},{"op":"IsInter","a":true},{"op":"RefFrames","a":[2,7]},{"op":"Block","x":0,"y":2,"size":3},{"op":"IsInter","a":true},{"op":"RefFrames","a":[3,6]},{"op":"Block","x":2,"y":2,"size":3},{"op":"IsInter","a":true},{"op":"RefFrames","a":[1,5]},{"op":"Block","x":4,"y":2,"size":3},{"op":"IsInter","a":true},{"op":"RefFrames","a":[1,5]},{"op":"Block","x":6,"y":2,"size":3},{"op":"IsInter","a":true},{"op":"RefFrames","a":[4,8]},{"op":"Block","x":0,"y":4,"size":3},{"op":"IsInter","a":true},{"op":"RefFrames","a":[5,8]},{"op":"Block","x":2,"y":4,"size":3},{"op":"IsInter","a":true},{"op":"RefFrames","a":[4,7]},{"op":"Block","x":4,"y":4,"size":3},{"op":"IsInter","a":true},{"op":"RefFrames","a":[1,8]},{"op":"Block","x":6,"y":4,"size":3},{"op":"IsInter","a":true},{"op":"RefFrames","a":[4,7]},{"op":"Block","x":0,"y":6,"size":3},{"op":"IsInter","a":true},{"op":"RefFrames","a":[6,8]},{"op":"Block","x":2,"y":6,"size":3},{"op":"IsInter","a":true},{"op":"RefFrames","a":[7,8]},{"op":"Block","x":4,"y":6,"size":3},{"op":"IsInter","a":true},{"op":"RefFrames","a":[3,5]},{"op":"Block","x":6,"y":6,"size":3},{"op":"IsInter","a":true},{"op":"RefFrames","a":[1,7]}]]}
0
1200321630e000000003640000040086f49beaa72a81ef555116
tile 0 11 87

{"seq":{"chroma_sampling":3,"still_picture":false,"reduced_still_picture_hdr":false},"frame":{"width":8,"height":8,"frame_type":1,"intra_only":false,"force_integer_mv":0,"refresh_frame_flags":0,"reference_mode":2},"tiles":[[{"op":"Block","x":0,"y":0,"size":0},{"op":"IsInter","a":true},{"op":"RefFrames","a":[1,8]},{"op":"Block","x":1,"y":0,"size":0},{"op":"IsInter","a":true},{"op":"RefFrames","a":[5,8]},{"op":"Block","x":0,"y":1,"size":2},{"op":"IsInter","a":true},{"op":"RefFrames","a":[7,8]}]]}
0
1200320d30e00000000364000004008cb0
tile 0 2 12

{"seq":{"chroma_sampling":3,"still_picture":false,"reduced_still_picture_hdr":false},"frame":{"width":16,"height":16,"frame_type":1,"intra_only":false,"force_integer_mv":0,"refresh_frame_flags":0,"reference_mode":2},"tiles":[[{"op":"Block","x":0,"y":0,"size":3},{"op":"IsInter","a":false},{"op":"Block","x":2,"y":0,"size":3},{"op":"Block","x":2,"y":2,"size":3},{"op":"IsInter","a":true},{"op":"RefFrames","a":[2,8]},{"op":"Block","x":0,"y":2,"size":3},{"op":"IsInter","a":true},{"op":"RefFrames","a":[6,8]}]]}
0
1200320d30e000000003640000040046d8
tile 0 2 13

{"seq":{"chroma_sampling":3,"still_picture":false,"reduced_still_picture_hdr":false},"frame":{"width":24,"height":24,"frame_type":1,"intra_only":false,"force_integer_mv":0,"refresh_frame_flags":0,"reference_mode":2},"tiles":[[{"op":"Block","x":2,"y":2,"size":3},{"op":"IsInter","a":true},{"op":"RefFrames","a":[2,8]},{"op":"Block","x":2,"y":4,"size":3},{"op":"IsInter","a":true},{"op":"RefFrames","a":[1,7]}]]}
0
1200320d30e00000000364000004008f30
tile 0 2 12

{"seq":{"chroma_sampling":3,"still_picture":false,"reduced_still_picture_hdr":false},"frame":{"width":8,"height":8,"frame_type":1,"intra_only":false,"force_integer_mv":0,"refresh_frame_flags":0},"tiles":[[{"op":"RefFrames","a":[1,8]}]]}
6
refused tile 0 item 0 r64

{"seq":{"chroma_sampling":3},"frame":{"width":8,"height":8},"tiles":[[{"op":"Block","x":0,"y":0,"size":3},{"op":"RefFrames","a":[1,8]}]]}
6
refused tile 0 item 1 r65

{"seq":{"chroma_sampling":3,"still_picture":false,"reduced_still_picture_hdr":false},"frame":{"width":8,"height":8,"frame_type":1,"intra_only":false,"force_integer_mv":0,"refresh_frame_flags":0},"tiles":[[{"op":"Block","x":0,"y":0,"size":3},{"op":"RefFrames","a":[1,8]}]]}
6
refused tile 0 item 1 r66

{"seq":{"chroma_sampling":3,"still_picture":false,"reduced_still_picture_hdr":false},"frame":{"width":8,"height":8,"frame_type":1,"intra_only":false,"force_integer_mv":0,"refresh_frame_flags":0},"tiles":[[{"op":"Block","x":0,"y":0,"size":3},{"op":"RefFrames","a":[0,0]}]]}
6
refused tile 0 item 1 r66

{"seq":{"chroma_sampling":3,"still_picture":false,"reduced_still_picture_hdr":false},"frame":{"width":8,"height":8,"frame_type":1,"intra_only":false,"force_integer_mv":0,"refresh_frame_flags":0},"tiles":[[{"op":"Block","x":0,"y":0,"size":3},{"op":"IsInter","a":false},{"op":"RefFrames","a":[1,8]}]]}
6
refused tile 0 item 2 r66

{"seq":{"chroma_sampling":3,"still_picture":false,"reduced_still_picture_hdr":false},"frame":{"width":8,"height":8,"frame_type":1,"intra_only":false,"force_integer_mv":0,"refresh_frame_flags":0},"tiles":[[{"op":"Block","x":0,"y":0,"size":3},{"op":"IsInter","a":true},{"op":"RefFrames","a":[0,8]}]]}
6
refused tile 0 item 2 r77

{"seq":{"chroma_sampling":3,"still_picture":false,"reduced_still_picture_hdr":false},"frame":{"width":8,"height":8,"frame_type":1,"intra_only":false,"force_integer_mv":0,"refresh_frame_flags":0},"tiles":[[{"op":"Block","x":0,"y":0,"size":3},{"op":"IsInter","a":true},{"op":"RefFrames","a":[8,8]}]]}
6
refused tile 0 item 2 r77

{"seq":{"chroma_sampling":3,"still_picture":false,"reduced_still_picture_hdr":false},"frame":{"width":8,"height":8,"frame_type":1,"intra_only":false,"force_integer_mv":0,"refresh_frame_flags":0},"tiles":[[{"op":"Block","x":0,"y":0,"size":3},{"op":"IsInter","a":true},{"op":"RefFrames","a":[1,0]}]]}
6
refused tile 0 item 2 r77

{"seq":{"chroma_sampling":3,"still_picture":false,"reduced_still_picture_hdr":false},"frame":{"width":8,"height":8,"frame_type":1,"intra_only":false,"force_integer_mv":0,"refresh_frame_flags":0},"tiles":[[{"op":"Block","x":0,"y":0,"size":3},{"op":"IsInter","a":true},{"op":"RefFrames","a":[1,1]}]]}
6
refused tile 0 item 2 r77

{"seq":{"chroma_sampling":3,"still_picture":false,"reduced_still_picture_hdr":false},"frame":{"width":8,"height":8,"frame_type":1,"intra_only":false,"force_integer_mv":0,"refresh_frame_flags":0},"tiles":[[{"op":"Block","x":0,"y":0,"size":3},{"op":"IsInter","a":true},{"op":"RefFrames","a":[8,1]}]]}
6
refused tile 0 item 2 r77

{"seq":{"chroma_sampling":3,"still_picture":false,"reduced_still_picture_hdr":false},"frame":{"width":8,"height":8,"frame_type":1,"intra_only":false,"force_integer_mv":0,"refresh_frame_flags":0},"tiles":[[{"op":"Block","x":0,"y":0,"size":3},{"op":"IsInter","a":true},{"op":"RefFrames","a":[5,6]}]]}
6
refused tile 0 item 2 r77

{"seq":{"chroma_sampling":3,"still_picture":false,"reduced_still_picture_hdr":false},"frame":{"width":8,"height":8,"frame_type":1,"intra_only":false,"force_integer_mv":0,"refresh_frame_flags":0},"tiles":[[{"op":"Block","x":0,"y":0,"size":3},{"op":"IsInter","a":true},{"op":"RefFrames","a":[1,5]}]]}
6
refused tile 0 item 2 r77

{"seq":{"chroma_sampling":3,"still_picture":false,"reduced_still_picture_hdr":false},"frame":{"width":8,"height":8,"frame_type":1,"intra_only":false,"force_integer_mv":0,"refresh_frame_flags":0,"reference_mode":2},"tiles":[[{"op":"Block","x":0,"y":0,"size":3},{"op":"IsInter","a":true},{"op":"RefFrames","a":[0,5]}]]}
6
refused tile 0 item 2 r77

{"seq":{"chroma_sampling":3,"still_picture":false,"reduced_still_picture_hdr":false},"frame":{"width":8,"height":8,"frame_type":1,"intra_only":false,"force_integer_mv":0,"refresh_frame_flags":0,"reference_mode":2},"tiles":[[{"op":"Block","x":0,"y":0,"size":3},{"op":"IsInter","a":true},{"op":"RefFrames","a":[1,2]}]]}
6
refused tile 0 item 2 r77

{"seq":{"chroma_sampling":3,"still_picture":false,"reduced_still_picture_hdr":false},"frame":{"width":8,"height":8,"frame_type":1,"intra_only":false,"force_integer_mv":0,"refresh_frame_flags":0,"reference_mode":2},"tiles":[[{"op":"Block","x":0,"y":0,"size":3},{"op":"IsInter","a":true},{"op":"RefFrames","a":[5,6]}]]}
6
refused tile 0 item 2 r77

{"seq":{"chroma_sampling":3,"still_picture":false,"reduced_still_picture_hdr":false},"frame":{"width":8,"height":8,"frame_type":1,"intra_only":false,"force_integer_mv":0,"refresh_frame_flags":0,"reference_mode":2},"tiles":[[{"op":"Block","x":0,"y":0,"size":3},{"op":"IsInter","a":true},{"op":"RefFrames","a":[5,1]}]]}
6
refused tile 0 item 2 r77

{"seq":{"chroma_sampling":3,"still_picture":false,"reduced_still_picture_hdr":false},"frame":{"width":8,"height":8,"frame_type":1,"intra_only":false,"force_integer_mv":0,"refresh_frame_flags":0,"reference_mode":2},"tiles":[[{"op":"Block","x":0,"y":0,"size":3},{"op":"IsInter","a":true},{"op":"RefFrames","a":[8,5]}]]}
6
refused tile 0 item 2 r77

{"seq":{"chroma_sampling":3,"still_picture":false,"reduced_still_picture_hdr":false},"frame":{"width":8,"height":8,"frame_type":1,"intra_only":false,"force_integer_mv":0,"refresh_frame_flags":0,"reference_mode":2},"tiles":[[{"op":"Block","x":0,"y":0,"size":3},{"op":"IsInter","a":true},{"op":"RefFrames","a":[1,0]}]]}
6
refused tile 0 item 2 r77

{"seq":{"chroma_sampling":3,"still_picture":false,"reduced_still_picture_hdr":false},"frame":{"width":8,"height":8,"frame_type":1,"intra_only":false,"force_integer_mv":0,"refresh_frame_flags":0,"reference_mode":2},"tiles":[[{"op":"Block","x":0,"y":0,"size":3},{"op":"IsInter","a":true},{"op":"RefFrames","a":[7,7]}]]}
6
refused tile 0 item 2 r77

{"seq":{"chroma_sampling":3,"still_picture":false,"reduced_still_picture_hdr":false},"frame":{"width":8,"height":8,"frame_type":1,"intra_only":false,"force_integer_mv":0,"refresh_frame_flags":0,"reference_mode":2},"tiles":[[{"op":"Block","x":0,"y":0,"size":0},{"op":"IsInter","a":true},{"op":"RefFrames","a":[1,5]}]]}
6
refused tile 0 item 2 r77

{"seq":{"chroma_sampling":3,"still_picture":false,"reduced_still_picture_hdr":false},"frame":{"width":8,"height":8,"frame_type":1,"intra_only":false,"force_integer_mv":0,"refresh_frame_flags":0,"reference_mode":2},"tiles":[[{"op":"Block","x":0,"y":0,"size":1},{"op":"IsInter","a":true},{"op":"RefFrames","a":[1,5]}]]}
6
refused tile 0 item 2 r77

{"seq":{"chroma_sampling":3,"still_picture":false,"reduced_still_picture_hdr":false},"frame":{"width":8,"height":8,"frame_type":1,"intra_only":false,"force_integer_mv":0,"refresh_frame_flags":0,"reference_mode":2},"tiles":[[{"op":"Block","x":0,"y":0,"size":2},{"op":"IsInter","a":true},{"op":"RefFrames","a":[1,5]}]]}
6
refused tile 0 item 2 r77

{"seq":{"chroma_sampling":3,"still_picture":false,"reduced_still_picture_hdr":false},"frame":{"width":16,"height":16,"frame_type":1,"intra_only":false,"force_integer_mv":0,"refresh_frame_flags":0,"reference_mode":2},"tiles":[[{"op":"Block","x":0,"y":0,"size":16},{"op":"IsInter","a":true},{"op":"RefFrames","a":[4,7]}]]}
6
refused tile 0 item 2 r77

{"seq":{"chroma_sampling":3,"still_picture":false,"reduced_still_picture_hdr":false},"frame":{"width":16,"height":16,"frame_type":1,"intra_only":false,"force_integer_mv":0,"refresh_frame_flags":0,"reference_mode":2},"tiles":[[{"op":"Block","x":0,"y":0,"size":17},{"op":"IsInter","a":true},{"op":"RefFrames","a":[4,7]}]]}
6
refused tile 0 item 2 r77

{"seq":{"chroma_sampling":3,"still_picture":false,"reduced_still_picture_hdr":false},"frame":{"width":8,"height":8,"frame_type":1,"intra_only":false,"force_integer_mv":0,"refresh_frame_flags":0},"tiles":[[{"op":"Block","x":0,"y":0,"size":3},{"op":"IsInter","a":true},{"op":"RefFrames","a":[1,8]},{"op":"MvRefs","has_tr":false}]]}
0
1200320c30e000000003640000000088
tile 0 1 5

{"seq":{"chroma_sampling":3,"still_picture":false,"reduced_still_picture_hdr":false},"frame":{"width":24,"height":24,"frame_type":1,"intra_only":false,"force_integer_mv":0,"refresh_frame_flags":0},"tiles":[[{"op":"Block","x":0,"y":0,"size":3},{"op":"IsInter","a":true},{"op":"RefFrames","a":[1,8]},{"op":"MvRefs","has_tr":false},{"op":"InterMode","a":19},{"op":"Mv","list":0,"a":[8,-16]},{"op":"Block","x":2,"y":0,"size":3},{"op":"IsInter","a":true},{"op":"RefFrames","a":[1,8]},{"op":"MvRefs","has_tr":false},{"op":"InterMode","a":19},{"op":"Mv","list":0,"a":[24,0]},{"op":"Block","x":4,"y":0,"size":3},{"op":"IsInter","a":true},{"op":"RefFrames","a":[1,8]},{"op":"MvRefs","has_tr":false},{"op":"InterMode","a":19},{"op":"Mv","list":0,"a":[-40,6]},{"op":"Block","x":0,"y":2,"size":3},{"op":"IsInter","a":true},{"op":"RefFrames","a":[1,8]},{"op":"MvRefs","has_tr":false},{"op":"InterMode","a":19},{"op":"Mv","list":0,"a":[2,2]},{"op":"Block","x":2,"y":2,"size":3},{"op":"IsInter","a":true},{"op":"RefFrames","a":[1,8]},{"op":"MvRefs","has_tr":true},{"op":"InterMode","a":15},{"op":"Drl","idx":1,"a":true},{"op":"Drl","idx":2,"a":false}]]}
0
1200321730e000000003640000000086029b333a55a1e1b039f024
tile 0 12 94

{"seq":{"chroma_sampling":3,"still_picture":false,"reduced_still_picture_hdr":false},"frame":{"width":24,"height":24,"frame_type":1,"intra_only":false,"force_integer_mv":0,"refresh_frame_flags":0},"tiles":[[{"op":"Block","x":0,"y":0,"size":3},{"op":"IsInter","a":true},{"op":"RefFrames","a":[1,8]},{"op":"MvRefs","has_tr":false},{"op":"InterMode","a":19},{"op":"Mv","list":0,"a":[8,-16]},{"op":"Block","x":2,"y":0,"size":3},{"op":"IsInter","a":true},{"op":"RefFrames","a":[1,8]},{"op":"MvRefs","has_tr":false},{"op":"InterMode","a":19},{"op":"Mv","list":0,"a":[24,0]},{"op":"Block","x":4,"y":0,"size":3},{"op":"IsInter","a":true},{"op":"RefFrames","a":[1,8]},{"op":"MvRefs","has_tr":false},{"op":"InterMode","a":19},{"op":"Mv","list":0,"a":[-40,6]},{"op":"Block","x":0,"y":2,"size":3},{"op":"IsInter","a":true},{"op":"RefFrames","a":[1,8]},{"op":"MvRefs","has_tr":false},{"op":"InterMode","a":19},{"op":"Mv","list":0,"a":[2,2]},{"op":"Block","x":2,"y":2,"size":3},{"op":"IsInter","a":true},{"op":"RefFrames","a":[1,8]},{"op":"MvRefs","has_tr":false},{"op":"InterMode","a":15},{"op":"Drl","idx":1,"a":false}]]}
0
1200321730e000000003640000000086029b333a55a1e1b039f018
tile 0 12 93

{"seq":{"chroma_sampling":3,"still_picture":false,"reduced_still_picture_hdr":false},"frame":{"width":8,"height":8,"frame_type":1,"intra_only":false,"force_integer_mv":0,"refresh_frame_flags":0},"tiles":[[{"op":"MvRefs","has_tr":false}]]}
6
refused tile 0 item 0 r64

{"seq":{"chroma_sampling":3},"frame":{"width":8,"height":8},"tiles":[[{"op":"Block","x":0,"y":0,"size":3},{"op":"MvRefs","has_tr":true}]]}
6
refused tile 0 item 1 r65

{"seq":{"chroma_sampling":3,"still_picture":false,"reduced_still_picture_hdr":false},"frame":{"width":8,"height":8,"frame_type":1,"intra_only":false,"force_integer_mv":0,"refresh_frame_flags":0},"tiles":[[{"op":"Block","x":0,"y":0,"size":3},{"op":"MvRefs","has_tr":true}]]}
6
refused tile 0 item 1 r66

{"seq":{"chroma_sampling":3,"still_picture":false,"reduced_still_picture_hdr":false},"frame":{"width":8,"height":8,"frame_type":1,"intra_only":false,"force_integer_mv":0,"refresh_frame_flags":0},"tiles":[[{"op":"Block","x":0,"y":0,"size":3},{"op":"IsInter","a":true},{"op":"IsInter","a":false},{"op":"MvRefs","has_tr":true}]]}
6
refused tile 0 item 3 r66

{"seq":{"chroma_sampling":3,"still_picture":false,"reduced_still_picture_hdr":false},"frame":{"width":8,"height":8,"frame_type":1,"intra_only":false,"force_integer_mv":0,"refresh_frame_flags":0},"tiles":[[{"op":"Block","x":0,"y":0,"size":3},{"op":"IsInter","a":true},{"op":"MvRefs","has_tr":true},{"op":"InterMode","a":14}]]}
0
1200320c30e0000000036400000000e8
tile 0 1 5

{"seq":{"chroma_sampling":3,"still_picture":false,"reduced_still_picture_hdr":false},"frame":{"width":8,"height":8,"frame_type":1,"intra_only":false,"force_integer_mv":0,"refresh_frame_flags":0},"tiles":[[{"op":"Block","x":0,"y":0,"size":3},{"op":"IsInter","a":true},{"op":"RefFrames","a":[1,8]},{"op":"MvRefs","has_tr":false},{"op":"InterMode","a":14}]]}
0
1200320c30e00000000364000000008d
tile 0 1 8

{"seq":{"chroma_sampling":3,"still_picture":false,"reduced_still_picture_hdr":false},"frame":{"width":8,"height":8,"frame_type":1,"intra_only":false,"force_integer_mv":0,"refresh_frame_flags":0},"tiles":[[{"op":"Block","x":0,"y":0,"size":3},{"op":"IsInter","a":true},{"op":"RefFrames","a":[1,8]},{"op":"MvRefs","has_tr":false},{"op":"InterMode","a":15}]]}
0
1200320c30e00000000364000000008f
tile 0 1 8

{"seq":{"chroma_sampling":3,"still_picture":false,"reduced_still_picture_hdr":false},"frame":{"width":8,"height":8,"frame_type":1,"intra_only":false,"force_integer_mv":0,"refresh_frame_flags":0},"tiles":[[{"op":"Block","x":0,"y":0,"size":3},{"op":"IsInter","a":true},{"op":"RefFrames","a":[1,8]},{"op":"MvRefs","has_tr":false},{"op":"InterMode","a":18}]]}
0
1200320c30e00000000364000000008a
tile 0 1 7

{"seq":{"chroma_sampling":3,"still_picture":false,"reduced_still_picture_hdr":false},"frame":{"width":8,"height":8,"frame_type":1,"intra_only":false,"force_integer_mv":0,"refresh_frame_flags":0},"tiles":[[{"op":"Block","x":0,"y":0,"size":3},{"op":"IsInter","a":true},{"op":"RefFrames","a":[1,8]},{"op":"MvRefs","has_tr":false},{"op":"InterMode","a":19}]]}
0
1200320c30e000000003640000000084
tile 0 1 6

{"seq":{"chroma_sampling":3,"still_picture":false,"reduced_still_picture_hdr":false},"frame":{"width":32,"height":32,"frame_type":1,"intra_only":false,"force_integer_mv":0,"refresh_frame_flags":0},"tiles":[[{"op":"Block","x":0,"y":0,"size":3},{"op":"IsInter","a":true},{"op":"RefFrames","a":[1,8]},{"op":"MvRefs","has_tr":true},{"op":"InterMode","a":19},{"op":"Mv","list":0,"a":[-14,6]},{"op":"Block","x":2,"y":0,"size":3},{"op":"IsInter","a":true},{"op":"RefFrames","a":[1,8]},{"op":"MvRefs","has_tr":false},{"op":"InterMode","a":14},{"op":"Block","x":4,"y":0,"size":3},{"op":"IsInter","a":true},{"op":"RefFrames","a":[1,8]},{"op":"MvRefs","has_tr":true},{"op":"InterMode","a":15},{"op":"Block","x":6,"y":0,"size":3},{"op":"IsInter","a":true},{"op":"RefFrames","a":[1,8]},{"op":"MvRefs","has_tr":false},{"op":"InterMode","a":18},{"op":"Block","x":0,"y":2,"size":3},{"op":"IsInter","a":true},{"op":"RefFrames","a":[2,8]},{"op":"MvRefs","has_tr":true},{"op":"InterMode","a":14},{"op":"Block","x":2,"y":2,"size":3},{"op":"IsInter","a":true},{"op":"RefFrames","a":[2,8]},{"op":"MvRefs","has_tr":false},{"op":"InterMode","a":19},{"op":"Mv","list":0,"a":[-4,-14]},{"op":"Block","x":4,"y":2,"size":3},{"op":"IsInter","a":true},{"op":"RefFrames","a":[2,8]},{"op":"MvRefs","has_tr":true},{"op":"InterMode","a":18},{"op":"Block","x":6,"y":2,"size":3},{"op":"IsInter","a":true},{"op":"RefFrames","a":[2,8]},{"op":"MvRefs","has_tr":false},{"op":"InterMode","a":15},{"op":"Block","x":0,"y":4,"size":3},{"op":"IsInter","a":true},{"op":"RefFrames","a":[1,8]},{"op":"MvRefs","has_tr":true},{"op":"InterMode","a":15},{"op":"Block","x":2,"y":4,"size":3},{"op":"IsInter","a":true},{"op":"RefFrames","a":[1,8]},{"op":"MvRefs","has_tr":false},{"op":"InterMode","a":18},{"op":"Block","x":4,"y":4,"size":3},{"op":"IsInter","a":true},{"op":"RefFrames","a":[1,8]},{"op":"MvRefs","has_tr":true},{"op":"InterMode","a":19},{"op":"Mv","list":0,"a":[6,-34]},{"op":"Block","x":6,"y":4,"size":3},{"op":"IsInter","a":true},{"op":"RefFrames","a":[1,8]},{"op":"MvRefs","has_tr":false},{"op":"InterMode","a":14},{"op":"Block","x":0,"y":6,"size":3},{"op":"IsInter","a":true},{"op":"RefFrames","a":[5,8]},{"op":"MvRefs","has_tr":true},{"op":"InterMode","a":18},{"op":"Block","x":2,"y":6,"size":3},{"op":"IsInter","a":true},{"op":"RefFrames","a":[5,8]},{"op":"MvRefs","has_tr":false},{"op":"InterMode","a":15},{"op":"Block","x":4,"y":6,"size":3},{"op":"IsInter","a":true},{"op":"RefFrames","a":[5,8]},{"op":"MvRefs","has_tr":true},{"op":"InterMode","a":14},{"op":"Block","x":6,"y":6,"size":3},{"op":"IsInter","a":true},{"op":"RefFrames","a":[5,8]},{"op":"MvRefs","has_tr":false},{"op":"InterMode","a":19},{"op":"Mv","list":0,"a":[16,-54]}]]}
0
1200321f30e00000000364000000008709ea3d761f75157b2e7b1b8cb3797bb0190d20
tile 0 20 155

{"seq":{"chroma_sampling":3,"still_picture":false,"reduced_still_picture_hdr":false},"frame":{"width":32,"height":32,"frame_type":1,"intra_only":false,"force_integer_mv":0,"refresh_frame_flags":0,"ref_frame_sign_bias":[false,true,false,false,true,true,true]},"tiles":[[{"op":"Block","x":0,"y":0,"size":3},{"op":"IsInter","a":true},{"op":"RefFrames","a":[1,8]},{"op":"MvRefs","has_tr":true},{"op":"InterMode","a":19},{"op":"Mv","list":0,"a":[-14,6]},{"op":"Block","x":2,"y":0,"size":3},{"op":"IsInter","a":true},{"op":"RefFrames","a":[1,8]},{"op":"MvRefs","has_tr":false},{"op":"InterMode","a":14},{"op":"Block","x":4,"y":0,"size":3},{"op":"IsInter","a":true},{"op":"RefFrames","a":[1,8]},{"op":"MvRefs","has_tr":true},{"op":"InterMode","a":15},{"op":"Block","x":6,"y":0,"size":3},{"op":"IsInter","a":true},{"op":"RefFrames","a":[1,8]},{"op":"MvRefs","has_tr":false},{"op":"InterMode","a":18},{"op":"Block","x":0,"y":2,"size":3},{"op":"IsInter","a":true},{"op":"RefFrames","a":[2,8]},{"op":"MvRefs","has_tr":true},{"op":"InterMode","a":14},{"op":"Block","x":2,"y":2,"size":3},{"op":"IsInter","a":true},{"op":"RefFrames","a":[2,8]},{"op":"MvRefs","has_tr":false},{"op":"InterMode","a":19},{"op":"Mv","list":0,"a":[-4,-14]},{"op":"Block","x":4,"y":2,"size":3},{"op":"IsInter","a":true},{"op":"RefFrames","a":[2,8]},{"op":"MvRefs","has_tr":true},{"op":"InterMode","a":18},{"op":"Block","x":6,"y":2,"size":3},{"op":"IsInter","a":true},{"op":"RefFrames","a":[2,8]},{"op":"MvRefs","has_tr":false},{"op":"InterMode","a":15},{"op":"Block","x":0,"y":4,"size":3},{"op":"IsInter","a":true},{"op":"RefFrames","a":[1,8]},{"op":"MvRefs","has_tr":true},{"op":"InterMode","a":15},{"op":"Block","x":2,"y":4,"size":3},{"op":"IsInter","a":true},{"op":"RefFrames","a":[1,8]},{"op":"MvRefs","has_tr":false},{"op":"InterMode","a":18},{"op":"Block","x":4,"y":4,"size":3},{"op":"IsInter","a":true},{"op":"RefFrames","a":[1,8]},{"op":"MvRefs","has_tr":true},{"op":"InterMode","a":19},{"op":"Mv","list":0,"a":[6,-34]},{"op":"Block","x":6,"y":4,"size":3},{"op":"IsInter","a":true},{"op":"RefFrames","a":[1,8]},{"op":"MvRefs","has_tr":false},{"op":"InterMode","a":14},{"op":"Block","x":0,"y":6,"size":3},{"op":"IsInter","a":true},{"op":"RefFrames","a":[5,8]},{"op":"MvRefs","has_tr":true},{"op":"InterMode","a":18},{"op":"Block","x":2,"y":6,"size":3},{"op":"IsInter","a":true},{"op":"RefFrames","a":[5,8]},{"op":"MvRefs","has_tr":false},{"op":"InterMode","a":15},{"op":"Block","x":4,"y":6,"size":3},{"op":"IsInter","a":true},{"op":"RefFrames","a":[5,8]},{"op":"MvRefs","has_tr":true},{"op":"InterMode","a":14},{"op":"Block","x":6,"y":6,"size":3},{"op":"IsInter","a":true},{"op":"RefFrames","a":[5,8]},{"op":"MvRefs","has_tr":false},{"op":"InterMode","a":19},{"op":"Mv","list":0,"a":[16,-54]}]]}
0
1200321f30e00000000364000000008709ea3d761f77f02f5089bf88374c99a932c070
tile 0 20 156

{"seq":{"chroma_sampling":3,"still_picture":false,"reduced_still_picture_hdr":false},"frame":{"width":8,"height":8,"frame_type":1,"intra_only":false,"force_integer_mv":0,"refresh_frame_flags":0},"tiles":[[{"op":"InterMode","a":14}]]}
6
refused tile 0 item 0 r64

{"seq":{"chroma_sampling":3},"frame":{"width":8,"height":8},"tiles":[[{"op":"Block","x":0,"y":0,"size":3},{"op":"InterMode","a":14}]]}
6
refused tile 0 item 1 r65

{"seq":{"chroma_sampling":3,"still_picture":false,"reduced_still_picture_hdr":false},"frame":{"width":8,"height":8,"frame_type":1,"intra_only":false,"force_integer_mv":0,"refresh_frame_flags":0},"tiles":[[{"op":"Block","x":0,"y":0,"size":3},{"op":"InterMode","a":14}]]}
6
refused tile 0 item 1 r66

{"seq":{"chroma_sampling":3,"still_picture":false,"reduced_still_picture_hdr":false},"frame":{"width":8,"height":8,"frame_type":1,"intra_only":false,"force_integer_mv":0,"refresh_frame_flags":0},"tiles":[[{"op":"Block","x":0,"y":0,"size":3},{"op":"IsInter","a":true},{"op":"InterMode","a":14}]]}
6
refused tile 0 item 2 r79

{"seq":{"chroma_sampling":3,"still_picture":false,"reduced_still_picture_hdr":false},"frame":{"width":8,"height":8,"frame_type":1,"intra_only":false,"force_integer_mv":0,"refresh_frame_flags":0},"tiles":[[{"op":"Block","x":0,"y":0,"size":3},{"op":"IsInter","a":true},{"op":"RefFrames","a":[1,8]},{"op":"InterMode","a":14}]]}
6
refused tile 0 item 3 r79

{"seq":{"chroma_sampling":3,"still_picture":false,"reduced_still_picture_hdr":false},"frame":{"width":8,"height":8,"frame_type":1,"intra_only":false,"force_integer_mv":0,"refresh_frame_flags":0,"reference_mode":2},"tiles":[[{"op":"Block","x":0,"y":0,"size":3},{"op":"IsInter","a":true},{"op":"RefFrames","a":[1,5]},{"op":"MvRefs","has_tr":false},{"op":"InterMode","a":14}]]}
6
refused tile 0 item 4 r79

{"seq":{"chroma_sampling":3,"still_picture":false,"reduced_still_picture_hdr":false},"frame":{"width":8,"height":8,"frame_type":1,"intra_only":false,"force_integer_mv":0,"refresh_frame_flags":0},"tiles":[[{"op":"Block","x":0,"y":0,"size":3},{"op":"IsInter","a":true},{"op":"RefFrames","a":[1,8]},{"op":"MvRefs","has_tr":false},{"op":"InterMode","a":0}]]}
6
refused tile 0 item 4 r79

{"seq":{"chroma_sampling":3,"still_picture":false,"reduced_still_picture_hdr":false},"frame":{"width":8,"height":8,"frame_type":1,"intra_only":false,"force_integer_mv":0,"refresh_frame_flags":0},"tiles":[[{"op":"Block","x":0,"y":0,"size":3},{"op":"IsInter","a":true},{"op":"RefFrames","a":[1,8]},{"op":"MvRefs","has_tr":false},{"op":"InterMode","a":12}]]}
6
refused tile 0 item 4 r79

{"seq":{"chroma_sampling":3,"still_picture":false,"reduced_still_picture_hdr":false},"frame":{"width":8,"height":8,"frame_type":1,"intra_only":false,"force_integer_mv":0,"refresh_frame_flags":0},"tiles":[[{"op":"Block","x":0,"y":0,"size":3},{"op":"IsInter","a":true},{"op":"RefFrames","a":[1,8]},{"op":"MvRefs","has_tr":false},{"op":"InterMode","a":13}]]}
6
refused tile 0 item 4 r79

{"seq":{"chroma_sampling":3,"still_picture":false,"reduced_still_picture_hdr":false},"frame":{"width":8,"height":8,"frame_type":1,"intra_only":false,"force_integer_mv":0,"refresh_frame_flags":0},"tiles":[[{"op":"Block","x":0,"y":0,"size":3},{"op":"IsInter","a":true},{"op":"RefFrames","a":[1,8]},{"op":"MvRefs","has_tr":false},{"op":"InterMode","a":16}]]}
6
refused tile 0 item 4 r79

{"seq":{"chroma_sampling":3,"still_picture":false,"reduced_still_picture_hdr":false},"frame":{"width":8,"height":8,"frame_type":1,"intra_only":false,"force_integer_mv":0,"refresh_frame_flags":0},"tiles":[[{"op":"Block","x":0,"y":0,"size":3},{"op":"IsInter","a":true},{"op":"RefFrames","a":[1,8]},{"op":"MvRefs","has_tr":false},{"op":"InterMode","a":17}]]}
6
refused tile 0 item 4 r79

{"seq":{"chroma_sampling":3,"still_picture":false,"reduced_still_picture_hdr":false},"frame":{"width":8,"height":8,"frame_type":1,"intra_only":false,"force_integer_mv":0,"refresh_frame_flags":0},"tiles":[[{"op":"Block","x":0,"y":0,"size":3},{"op":"IsInter","a":true},{"op":"RefFrames","a":[1,8]},{"op":"MvRefs","has_tr":false},{"op":"InterMode","a":20}]]}
6
refused tile 0 item 4 r79

{"seq":{"chroma_sampling":3,"still_picture":false,"reduced_still_picture_hdr":false},"frame":{"width":8,"height":8,"frame_type":1,"intra_only":false,"force_integer_mv":0,"refresh_frame_flags":0},"tiles":[[{"op":"Block","x":0,"y":0,"size":3},{"op":"IsInter","a":true},{"op":"RefFrames","a":[1,8]},{"op":"MvRefs","has_tr":false},{"op":"InterMode","a":32}]]}
6
refused tile 0 item 4 r79

{"seq":{"chroma_sampling":3,"still_picture":false,"reduced_still_picture_hdr":false},"frame":{"width":8,"height":8,"frame_type":1,"intra_only":false,"force_integer_mv":0,"refresh_frame_flags":0},"tiles":[[{"op":"Block","x":0,"y":0,"size":3},{"op":"IsInter","a":true},{"op":"RefFrames","a":[1,8]},{"op":"MvRefs","has_tr":false},{"op":"InterMode","a":33}]]}
6
refused tile 0 item 4 r79

{"seq":{"chroma_sampling":3,"still_picture":false,"reduced_still_picture_hdr":false},"frame":{"width":8,"height":8,"frame_type":1,"intra_only":false,"force_integer_mv":0,"refresh_frame_flags":0,"reference_mode":2},"tiles":[[{"op":"Block","x":0,"y":0,"size":3},{"op":"IsInter","a":true},{"op":"RefFrames","a":[1,7]},{"op":"MvRefs","has_tr":false},{"op":"CompoundMode","a":20}]]}
0
1200320d30e0000000036400000400e420
tile 0 2 11

{"seq":{"chroma_sampling":3,"still_picture":false,"reduced_still_picture_hdr":false},"frame":{"width":8,"height":8,"frame_type":1,"intra_only":false,"force_integer_mv":0,"refresh_frame_flags":0,"reference_mode":2},"tiles":[[{"op":"Block","x":0,"y":0,"size":3},{"op":"IsInter","a":true},{"op":"RefFrames","a":[1,7]},{"op":"MvRefs","has_tr":false},{"op":"CompoundMode","a":21}]]}
0
1200320d30e0000000036400000400e4c0
tile 0 2 10

{"seq":{"chroma_sampling":3,"still_picture":false,"reduced_still_picture_hdr":false},"frame":{"width":8,"height":8,"frame_type":1,"intra_only":false,"force_integer_mv":0,"refresh_frame_flags":0,"reference_mode":2},"tiles":[[{"op":"Block","x":0,"y":0,"size":3},{"op":"IsInter","a":true},{"op":"RefFrames","a":[1,7]},{"op":"MvRefs","has_tr":false},{"op":"CompoundMode","a":24}]]}
0
1200320d30e0000000036400000400e540
tile 0 2 10

{"seq":{"chroma_sampling":3,"still_picture":false,"reduced_still_picture_hdr":false},"frame":{"width":8,"height":8,"frame_type":1,"intra_only":false,"force_integer_mv":0,"refresh_frame_flags":0,"reference_mode":2},"tiles":[[{"op":"Block","x":0,"y":0,"size":3},{"op":"IsInter","a":true},{"op":"RefFrames","a":[1,7]},{"op":"MvRefs","has_tr":false},{"op":"CompoundMode","a":25}]]}
0
1200320d30e0000000036400000400e5c0
tile 0 2 10

{"seq":{"chroma_sampling":3,"still_picture":false,"reduced_still_picture_hdr":false},"frame":{"width":8,"height":8,"frame_type":1,"intra_only":false,"force_integer_mv":0,"refresh_frame_flags":0,"reference_mode":2},"tiles":[[{"op":"Block","x":0,"y":0,"size":3},{"op":"IsInter","a":true},{"op":"RefFrames","a":[1,7]},{"op":"MvRefs","has_tr":false},{"op":"CompoundMode","a":26}]]}
0
1200320d30e0000000036400000400e640
tile 0 2 10

{"seq":{"chroma_sampling":3,"still_picture":false,"reduced_still_picture_hdr":false},"frame":{"width":8,"height":8,"frame_type":1,"intra_only":false,"force_integer_mv":0,"refresh_frame_flags":0,"reference_mode":2},"tiles":[[{"op":"Block","x":0,"y":0,"size":3},{"op":"IsInter","a":true},{"op":"RefFrames","a":[1,7]},{"op":"MvRefs","has_tr":false},{"op":"CompoundMode","a":29}]]}
0
1200320d30e0000000036400000400e6c0
tile 0 2 10

{"seq":{"chroma_sampling":3,"still_picture":false,"reduced_still_picture_hdr":false},"frame":{"width":8,"height":8,"frame_type":1,"intra_only":false,"force_integer_mv":0,"refresh_frame_flags":0,"reference_mode":2},"tiles":[[{"op":"Block","x":0,"y":0,"size":3},{"op":"IsInter","a":true},{"op":"RefFrames","a":[1,7]},{"op":"MvRefs","has_tr":false},{"op":"CompoundMode","a":32}]]}
0
1200320d30e0000000036400000400e740
tile 0 2 10

{"seq":{"chroma_sampling":3,"still_picture":false,"reduced_still_picture_hdr":false},"frame":{"width":8,"height":8,"frame_type":1,"intra_only":false,"force_integer_mv":0,"refresh_frame_flags":0,"reference_mode":2},"tiles":[[{"op":"Block","x":0,"y":0,"size":3},{"op":"IsInter","a":true},{"op":"RefFrames","a":[1,7]},{"op":"MvRefs","has_tr":false},{"op":"CompoundMode","a":33}]]}
0
1200320d30e0000000036400000400e7c0
tile 0 2 10

{"seq":{"chroma_sampling":3,"still_picture":false,"reduced_still_picture_hdr":false},"frame":{"width":32,"height":32,"frame_type":1,"intra_only":false,"force_integer_mv":0,"refresh_frame_flags":0,"reference_mode":2},"tiles":[[{"op":"Block","x":0,"y":0,"size":3},{"op":"IsInter","a":true},{"op":"RefFrames","a":[1,5]},{"op":"MvRefs","has_tr":true},{"op":"CompoundMode","a":33},{"op":"Mv","list":0,"a":[-14,6]},{"op":"Mv","list":1,"a":[40,0]},{"op":"Block","x":2,"y":0,"size":3},{"op":"IsInter","a":true},{"op":"RefFrames","a":[1,5]},{"op":"MvRefs","has_tr":false},{"op":"CompoundMode","a":20},{"op":"Block","x":4,"y":0,"size":3},{"op":"IsInter","a":true},{"op":"RefFrames","a":[1,5]},{"op":"MvRefs","has_tr":true},{"op":"CompoundMode","a":21},{"op":"Block","x":6,"y":0,"size":3},{"op":"IsInter","a":true},{"op":"RefFrames","a":[1,5]},{"op":"MvRefs","has_tr":false},{"op":"CompoundMode","a":32},{"op":"Block","x":0,"y":2,"size":3},{"op":"IsInter","a":true},{"op":"RefFrames","a":[2,7]},{"op":"MvRefs","has_tr":true},{"op":"CompoundMode","a":24},{"op":"Mv","list":1,"a":[32,8]},{"op":"Block","x":2,"y":2,"size":3},{"op":"IsInter","a":true},{"op":"RefFrames","a":[2,7]},{"op":"MvRefs","has_tr":false},{"op":"CompoundMode","a":33},{"op":"Mv","list":0,"a":[-4,-14]},{"op":"Mv","list":1,"a":[30,10]},{"op":"Block","x":4,"y":2,"size":3},{"op":"IsInter","a":true},{"op":"RefFrames","a":[2,7]},{"op":"MvRefs","has_tr":true},{"op":"CompoundMode","a":25},{"op":"Mv","list":0,"a":[-2,-18]},{"op":"Block","x":6,"y":2,"size":3},{"op":"IsInter","a":true},{"op":"RefFrames","a":[2,7]},{"op":"MvRefs","has_tr":false},{"op":"CompoundMode","a":26},{"op":"Mv","list":1,"a":[26,14]},{"op":"Block","x":0,"y":4,"size":3},{"op":"IsInter","a":true},{"op":"RefFrames","a":[1,5]},{"op":"MvRefs","has_tr":true},{"op":"CompoundMode","a":29},{"op":"Mv","list":0,"a":[2,-26]},{"op":"Block","x":2,"y":4,"size":3},{"op":"IsInter","a":true},{"op":"RefFrames","a":[1,5]},{"op":"MvRefs","has_tr":false},{"op":"CompoundMode","a":32},{"op":"Block","x":4,"y":4,"size":3},{"op":"IsInter","a":true},{"op":"RefFrames","a":[1,5]},{"op":"MvRefs","has_tr":true},{"op":"CompoundMode","a":33},{"op":"Mv","list":0,"a":[6,-34]},{"op":"Mv","list":1,"a":[20,20]},{"op":"Block","x":6,"y":4,"size":3},{"op":"IsInter","a":true},{"op":"RefFrames","a":[1,5]},{"op":"MvRefs","has_tr":false},{"op":"CompoundMode","a":20},{"op":"Block","x":0,"y":6,"size":3},{"op":"IsInter","a":true},{"op":"RefFrames","a":[4,6]},{"op":"MvRefs","has_tr":true},{"op":"CompoundMode","a":21},{"op":"Block","x":2,"y":6,"size":3},{"op":"IsInter","a":true},{"op":"RefFrames","a":[4,6]},{"op":"MvRefs","has_tr":false},{"op":"CompoundMode","a":25},{"op":"Mv","list":0,"a":[12,-46]},{"op":"Block","x":4,"y":6,"size":3},{"op":"IsInter","a":true},{"op":"RefFrames","a":[4,6]},{"op":"MvRefs","has_tr":true},{"op":"CompoundMode","a":24},{"op":"Mv","list":1,"a":[12,28]},{"op":"Block","x":6,"y":6,"size":3},{"op":"IsInter","a":true},{"op":"RefFrames","a":[4,6]},{"op":"MvRefs","has_tr":false},{"op":"CompoundMode","a":33},{"op":"Mv","list":0,"a":[16,-54]},{"op":"Mv","list":1,"a":[10,30]}]]}
0
1200323730e0000000036400000400e1f6ab5181452fea668e0d0c16dec1d8f7ab6c1d32cba294518a4a99dcb350a0fd2204e005b06c152ec332f0
tile 0 44 348

{"seq":{"chroma_sampling":3,"still_picture":false,"reduced_still_picture_hdr":false},"frame":{"width":32,"height":32,"frame_type":1,"intra_only":false,"force_integer_mv":0,"refresh_frame_flags":0,"ref_frame_sign_bias":[false,false,true,false,true,true,false],"reference_mode":2},"tiles":[[{"op":"Block","x":0,"y":0,"size":3},{"op":"IsInter","a":true},{"op":"RefFrames","a":[1,5]},{"op":"MvRefs","has_tr":true},{"op":"CompoundMode","a":33},{"op":"Mv","list":0,"a":[-14,6]},{"op":"Mv","list":1,"a":[40,0]},{"op":"Block","x":2,"y":0,"size":3},{"op":"IsInter","a":true},{"op":"RefFrames","a":[1,5]},{"op":"MvRefs","has_tr":false},{"op":"CompoundMode","a":20},{"op":"Block","x":4,"y":0,"size":3},{"op":"IsInter","a":true},{"op":"RefFrames","a":[1,5]},{"op":"MvRefs","has_tr":true},{"op":"CompoundMode","a":21},{"op":"Block","x":6,"y":0,"size":3},{"op":"IsInter","a":true},{"op":"RefFrames","a":[1,5]},{"op":"MvRefs","has_tr":false},{"op":"CompoundMode","a":32},{"op":"Block","x":0,"y":2,"size":3},{"op":"IsInter","a":true},{"op":"RefFrames","a":[2,7]},{"op":"MvRefs","has_tr":true},{"op":"CompoundMode","a":24},{"op":"Mv","list":1,"a":[32,8]},{"op":"Block","x":2,"y":2,"size":3},{"op":"IsInter","a":true},{"op":"RefFrames","a":[2,7]},{"op":"MvRefs","has_tr":false},{"op":"CompoundMode","a":33},{"op":"Mv","list":0,"a":[-4,-14]},{"op":"Mv","list":1,"a":[30,10]},{"op":"Block","x":4,"y":2,"size":3},{"op":"IsInter","a":true},{"op":"RefFrames","a":[2,7]},{"op":"MvRefs","has_tr":true},{"op":"CompoundMode","a":25},{"op":"Mv","list":0,"a":[-2,-18]},{"op":"Block","x":6,"y":2,"size":3},{"op":"IsInter","a":true},{"op":"RefFrames","a":[2,7]},{"op":"MvRefs","has_tr":false},{"op":"CompoundMode","a":26},{"op":"Mv","list":1,"a":[26,14]},{"op":"Block","x":0,"y":4,"size":3},{"op":"IsInter","a":true},{"op":"RefFrames","a":[1,5]},{"op":"MvRefs","has_tr":true},{"op":"CompoundMode","a":29},{"op":"Mv","list":0,"a":[2,-26]},{"op":"Block","x":2,"y":4,"size":3},{"op":"IsInter","a":true},{"op":"RefFrames","a":[1,5]},{"op":"MvRefs","has_tr":false},{"op":"CompoundMode","a":32},{"op":"Block","x":4,"y":4,"size":3},{"op":"IsInter","a":true},{"op":"RefFrames","a":[1,5]},{"op":"MvRefs","has_tr":true},{"op":"CompoundMode","a":33},{"op":"Mv","list":0,"a":[6,-34]},{"op":"Mv","list":1,"a":[20,20]},{"op":"Block","x":6,"y":4,"size":3},{"op":"IsInter","a":true},{"op":"RefFrames","a":[1,5]},{"op":"MvRefs","has_tr":false},{"op":"CompoundMode","a":20},{"op":"Block","x":0,"y":6,"size":3},{"op":"IsInter","a":true},{"op":"RefFrames","a":[4,6]},{"op":"MvRefs","has_tr":true},{"op":"CompoundMode","a":21},{"op":"Block","x":2,"y":6,"size":3},{"op":"IsInter","a":true},{"op":"RefFrames","a":[4,6]},{"op":"MvRefs","has_tr":false},{"op":"CompoundMode","a":25},{"op":"Mv","list":0,"a":[12,-46]},{"op":"Block","x":4,"y":6,"size":3},{"op":"IsInter","a":true},{"op":"RefFrames","a":[4,6]},{"op":"MvRefs","has_tr":true},{"op":"CompoundMode","a":24},{"op":"Mv","list":1,"a":[12,28]},{"op":"Block","x":6,"y":6,"size":3},{"op":"IsInter","a":true},{"op":"RefFrames","a":[4,6]},{"op":"MvRefs","has_tr":false},{"op":"CompoundMode","a":33},{"op":"Mv","list":0,"a":[16,-54]},{"op":"Mv","list":1,"a":[10,30]}]]}
0
1200323730e0000000036400000400e1f6ab5181452fea668e0d0c16dec1d8f7ab6c1d32cba294518a4a99dcb350a0fd2204e005b89b6eab6daeb0
tile 0 44 348

{"seq":{"chroma_sampling":3,"still_picture":false,"reduced_still_picture_hdr":false},"frame":{"width":8,"height":8,"frame_type":1,"intra_only":false,"force_integer_mv":0,"refresh_frame_flags":0},"tiles":[[{"op":"CompoundMode","a":20}]]}
6
refused tile 0 item 0 r64

{"seq":{"chroma_sampling":3},"frame":{"width":8,"height":8},"tiles":[[{"op":"Block","x":0,"y":0,"size":3},{"op":"CompoundMode","a":20}]]}
6
refused tile 0 item 1 r65

{"seq":{"chroma_sampling":3,"still_picture":false,"reduced_still_picture_hdr":false},"frame":{"width":8,"height":8,"frame_type":1,"intra_only":false,"force_integer_mv":0,"refresh_frame_flags":0},"tiles":[[{"op":"Block","x":0,"y":0,"size":3},{"op":"CompoundMode","a":20}]]}
6
refused tile 0 item 1 r66

{"seq":{"chroma_sampling":3,"still_picture":false,"reduced_still_picture_hdr":false},"frame":{"width":8,"height":8,"frame_type":1,"intra_only":false,"force_integer_mv":0,"refresh_frame_flags":0,"reference_mode":2},"tiles":[[{"op":"Block","x":0,"y":0,"size":3},{"op":"IsInter","a":true},{"op":"RefFrames","a":[1,5]},{"op":"CompoundMode","a":20}]]}
6
refused tile 0 item 3 r79

{"seq":{"chroma_sampling":3,"still_picture":false,"reduced_still_picture_hdr":false},"frame":{"width":8,"height":8,"frame_type":1,"intra_only":false,"force_integer_mv":0,"refresh_frame_flags":0,"reference_mode":2},"tiles":[[{"op":"Block","x":0,"y":0,"size":3},{"op":"IsInter","a":true},{"op":"RefFrames","a":[1,8]},{"op":"MvRefs","has_tr":false},{"op":"CompoundMode","a":20}]]}
6
refused tile 0 item 4 r79

{"seq":{"chroma_sampling":3,"still_picture":false,"reduced_still_picture_hdr":false},"frame":{"width":8,"height":8,"frame_type":1,"intra_only":false,"force_integer_mv":0,"refresh_frame_flags":0,"reference_mode":2},"tiles":[[{"op":"Block","x":0,"y":0,"size":3},{"op":"IsInter","a":true},{"op":"RefFrames","a":[1,5]},{"op":"MvRefs","has_tr":false},{"op":"CompoundMode","a":0}]]}
6
refused tile 0 item 4 r79

{"seq":{"chroma_sampling":3,"still_picture":false,"reduced_still_picture_hdr":false},"frame":{"width":8,"height":8,"frame_type":1,"intra_only":false,"force_integer_mv":0,"refresh_frame_flags":0,"reference_mode":2},"tiles":[[{"op":"Block","x":0,"y":0,"size":3},{"op":"IsInter","a":true},{"op":"RefFrames","a":[1,5]},{"op":"MvRefs","has_tr":false},{"op":"CompoundMode","a":14}]]}
6
refused tile 0 item 4 r79

{"seq":{"chroma_sampling":3,"still_picture":false,"reduced_still_picture_hdr":false},"frame":{"width":8,"height":8,"frame_type":1,"intra_only":false,"force_integer_mv":0,"refresh_frame_flags":0,"reference_mode":2},"tiles":[[{"op":"Block","x":0,"y":0,"size":3},{"op":"IsInter","a":true},{"op":"RefFrames","a":[1,5]},{"op":"MvRefs","has_tr":false},{"op":"CompoundMode","a":19}]]}
6
refused tile 0 item 4 r79

{"seq":{"chroma_sampling":3,"still_picture":false,"reduced_still_picture_hdr":false},"frame":{"width":8,"height":8,"frame_type":1,"intra_only":false,"force_integer_mv":0,"refresh_frame_flags":0,"reference_mode":2},"tiles":[[{"op":"Block","x":0,"y":0,"size":3},{"op":"IsInter","a":true},{"op":"RefFrames","a":[1,5]},{"op":"MvRefs","has_tr":false},{"op":"CompoundMode","a":22}]]}
6
refused tile 0 item 4 r79

{"seq":{"chroma_sampling":3,"still_picture":false,"reduced_still_picture_hdr":false},"frame":{"width":8,"height":8,"frame_type":1,"intra_only":false,"force_integer_mv":0,"refresh_frame_flags":0,"reference_mode":2},"tiles":[[{"op":"Block","x":0,"y":0,"size":3},{"op":"IsInter","a":true},{"op":"RefFrames","a":[1,5]},{"op":"MvRefs","has_tr":false},{"op":"CompoundMode","a":23}]]}
6
refused tile 0 item 4 r79

{"seq":{"chroma_sampling":3,"still_picture":false,"reduced_still_picture_hdr":false},"frame":{"width":8,"height":8,"frame_type":1,"intra_only":false,"force_integer_mv":0,"refresh_frame_flags":0,"reference_mode":2},"tiles":[[{"op":"Block","x":0,"y":0,"size":3},{"op":"IsInter","a":true},{"op":"RefFrames","a":[1,5]},{"op":"MvRefs","has_tr":false},{"op":"CompoundMode","a":27}]]}
6
refused tile 0 item 4 r79

{"seq":{"chroma_sampling":3,"still_picture":false,"reduced_still_picture_hdr":false},"frame":{"width":8,"height":8,"frame_type":1,"intra_only":false,"force_integer_mv":0,"refresh_frame_flags":0,"reference_mode":2},"tiles":[[{"op":"Block","x":0,"y":0,"size":3},{"op":"IsInter","a":true},{"op":"RefFrames","a":[1,5]},{"op":"MvRefs","has_tr":false},{"op":"CompoundMode","a":28}]]}
6
refused tile 0 item 4 r79

{"seq":{"chroma_sampling":3,"still_picture":false,"reduced_still_picture_hdr":false},"frame":{"width":8,"height":8,"frame_type":1,"intra_only":false,"force_integer_mv":0,"refresh_frame_flags":0,"reference_mode":2},"tiles":[[{"op":"Block","x":0,"y":0,"size":3},{"op":"IsInter","a":true},{"op":"RefFrames","a":[1,5]},{"op":"MvRefs","has_tr":false},{"op":"CompoundMode","a":30}]]}
6
refused tile 0 item 4 r79

{"seq":{"chroma_sampling":3,"still_picture":false,"reduced_still_picture_hdr":false},"frame":{"width":8,"height":8,"frame_type":1,"intra_only":false,"force_integer_mv":0,"refresh_frame_flags":0,"reference_mode":2},"tiles":[[{"op":"Block","x":0,"y":0,"size":3},{"op":"IsInter","a":true},{"op":"RefFrames","a":[1,5]},{"op":"MvRefs","has_tr":false},{"op":"CompoundMode","a":31}]]}
6
refused tile 0 item 4 r79"#;
