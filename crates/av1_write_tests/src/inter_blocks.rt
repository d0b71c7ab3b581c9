// Units of inter blocks, with the status and the text that they give: candidates of other references, sizes and tiles, their trials,
// the sizes and types of their transforms, and their coefficients. Those of status 0 were answered by rav1e's own calls; the rules of the
// refusals are those of the tables.

/// Rows as those of `ROWS`.
pub const INTER_BLOCKS: &str =
    r#"{"seq":{"chroma_sampling":3,"still_picture":false,"reduced_still_picture_hdr":false},"frame":{"width":24,"height":16,"frame_type":1,"intra_only":false,"force_integer_mv":0,"refresh_frame_flags":0},"tiles":[[{"op":"Block","x":0,"y":0,"size":3},{"op":"IsInter","a":true},{"op":"RefFrames","a":[1,8]},{"op":"MvRefs","has_tr":false},{"op":"InterMode","a":19},{"op":"Mv","list":0,"a":[8,-16]},{"op":"Block","x":2,"y":0,"size":3},{"op":"IsInter","a":true},{"op":"RefFrames","a":[1,8]},{"op":"MvRefs","has_tr":false},{"op":"InterMode","a":19},{"op":"Mv","list":0,"a":[24,0]},{"op":"Block","x":0,"y":2,"size":3},{"op":"IsInter","a":true},{"op":"RefFrames","a":[1,8]},{"op":"MvRefs","has_tr":false},{"op":"InterMode","a":19},{"op":"Mv","list":0,"a":[-40,6]},{"op":"Block","x":2,"y":2,"size":3},{"op":"IsInter","a":true},{"op":"RefFrames","a":[1,8]},{"op":"MvRefs","has_tr":false},{"op":"InterMode","a":18},{"op":"Block","x":4,"y":2,"size":3},{"op":"IsInter","a":true},{"op":"RefFrames","a":[1,8]},{"op":"MvRefs","has_tr":false},{"op":"InterMode","a":19},{"op":"Mv","list":0,"a":[0,0]}]]}
0
1200321530e000000003640000000086029b333a55a09957e4
tile 0 10 78

{"seq":{"chroma_sampling":3,"still_picture":false,"reduced_still_picture_hdr":false},"frame":{"width":24,"height":16,"frame_type":1,"intra_only":false,"force_integer_mv":0,"refresh_frame_flags":0,"reference_mode":2},"tiles":[[{"op":"Block","x":0,"y":0,"size":3},{"op":"IsInter","a":true},{"op":"RefFrames","a":[1,5]},{"op":"MvRefs","has_tr":false},{"op":"CompoundMode","a":33},{"op":"Mv","list":0,"a":[8,-16]},{"op":"Mv","list":1,"a":[2,4]},{"op":"Block","x":2,"y":0,"size":3},{"op":"IsInter","a":true},{"op":"RefFrames","a":[1,5]},{"op":"MvRefs","has_tr":false},{"op":"CompoundMode","a":33},{"op":"Mv","list":0,"a":[24,0]},{"op":"Mv","list":1,"a":[-8,0]},{"op":"Block","x":0,"y":2,"size":3},{"op":"IsInter","a":true},{"op":"RefFrames","a":[1,5]},{"op":"MvRefs","has_tr":false},{"op":"CompoundMode","a":33},{"op":"Mv","list":0,"a":[-40,6]},{"op":"Mv","list":1,"a":[0,0]},{"op":"Block","x":2,"y":2,"size":3},{"op":"IsInter","a":true},{"op":"RefFrames","a":[1,5]},{"op":"MvRefs","has_tr":false},{"op":"CompoundMode","a":32},{"op":"Block","x":4,"y":2,"size":3},{"op":"IsInter","a":true},{"op":"RefFrames","a":[1,5]},{"op":"MvRefs","has_tr":false},{"op":"CompoundMode","a":33},{"op":"Mv","list":0,"a":[0,0]},{"op":"Mv","list":1,"a":[0,0]}]]}
0
1200321e30e0000000036400000400e1ee70e174c400b1ae6d908261d12ebf0fbf90
tile 0 19 148

{"seq":{"chroma_sampling":3,"still_picture":false,"reduced_still_picture_hdr":false},"frame":{"width":16,"height":8,"frame_type":1,"intra_only":false,"force_integer_mv":0,"refresh_frame_flags":0,"ref_frame_sign_bias":[false,false,false,false,true,true,true]},"tiles":[[{"op":"Block","x":0,"y":0,"size":3},{"op":"IsInter","a":true},{"op":"RefFrames","a":[5,8]},{"op":"MvRefs","has_tr":false},{"op":"InterMode","a":19},{"op":"Mv","list":0,"a":[8,-16]},{"op":"Block","x":2,"y":0,"size":3},{"op":"IsInter","a":true},{"op":"RefFrames","a":[2,8]},{"op":"MvRefs","has_tr":false},{"op":"InterMode","a":19},{"op":"Mv","list":0,"a":[2,2]}]]}
0
1200321130e0000000036400000000c6069b7d1650
tile 0 6 44

{"seq":{"chroma_sampling":3,"still_picture":false,"reduced_still_picture_hdr":false},"frame":{"width":24,"height":16,"frame_type":1,"intra_only":false,"force_integer_mv":0,"refresh_frame_flags":0,"ref_frame_sign_bias":[false,true,false,false,true,false,true],"reference_mode":2},"tiles":[[{"op":"Block","x":0,"y":0,"size":3},{"op":"IsInter","a":true},{"op":"RefFrames","a":[1,5]},{"op":"MvRefs","has_tr":false},{"op":"CompoundMode","a":33},{"op":"Mv","list":0,"a":[8,-16]},{"op":"Mv","list":1,"a":[2,4]},{"op":"Block","x":2,"y":0,"size":3},{"op":"IsInter","a":true},{"op":"RefFrames","a":[1,5]},{"op":"MvRefs","has_tr":false},{"op":"CompoundMode","a":33},{"op":"Mv","list":0,"a":[24,0]},{"op":"Mv","list":1,"a":[-8,0]},{"op":"Block","x":0,"y":2,"size":3},{"op":"IsInter","a":true},{"op":"RefFrames","a":[1,5]},{"op":"MvRefs","has_tr":false},{"op":"CompoundMode","a":33},{"op":"Mv","list":0,"a":[-40,6]},{"op":"Mv","list":1,"a":[0,0]},{"op":"Block","x":2,"y":2,"size":3},{"op":"IsInter","a":true},{"op":"RefFrames","a":[2,6]},{"op":"MvRefs","has_tr":false},{"op":"CompoundMode","a":33},{"op":"Mv","list":0,"a":[2,2]},{"op":"Mv","list":1,"a":[2,2]},{"op":"Block","x":4,"y":2,"size":3},{"op":"IsInter","a":true},{"op":"RefFrames","a":[6,8]},{"op":"MvRefs","has_tr":false},{"op":"InterMode","a":19},{"op":"Mv","list":0,"a":[4,4]}]]}
0
1200322230e0000000036400000400e1ee70e174c400b1ae6d908261d12ebff7f44579cf65e3
tile 0 23 184

{"seq":{"chroma_sampling":3,"still_picture":false,"reduced_still_picture_hdr":false},"frame":{"width":120,"height":100,"frame_type":1,"intra_only":false,"force_integer_mv":0,"refresh_frame_flags":0},"tiles":[[{"op":"Block","x":0,"y":0,"size":12},{"op":"IsInter","a":true},{"op":"RefFrames","a":[1,8]},{"op":"MvRefs","has_tr":false},{"op":"InterMode","a":19},{"op":"Mv","list":0,"a":[8,8]},{"op":"Block","x":16,"y":0,"size":12},{"op":"IsInter","a":true},{"op":"RefFrames","a":[1,8]},{"op":"MvRefs","has_tr":true},{"op":"InterMode","a":14},{"op":"Block","x":0,"y":16,"size":9},{"op":"IsInter","a":true},{"op":"RefFrames","a":[1,8]},{"op":"MvRefs","has_tr":true},{"op":"InterMode","a":19},{"op":"Mv","list":0,"a":[-8,0]},{"op":"Block","x":8,"y":16,"size":7},{"op":"IsInter","a":true},{"op":"RefFrames","a":[1,8]},{"op":"MvRefs","has_tr":true},{"op":"InterMode","a":14},{"op":"Block","x":12,"y":16,"size":16},{"op":"IsInter","a":true},{"op":"RefFrames","a":[1,8]},{"op":"MvRefs","has_tr":false},{"op":"InterMode","a":15},{"op":"Block","x":13,"y":16,"size":16},{"op":"IsInter","a":true},{"op":"RefFrames","a":[1,8]},{"op":"MvRefs","has_tr":true},{"op":"InterMode","a":14},{"op":"Block","x":16,"y":16,"size":8},{"op":"IsInter","a":true},{"op":"RefFrames","a":[1,8]},{"op":"MvRefs","has_tr":true},{"op":"InterMode","a":19},{"op":"Mv","list":0,"a":[0,40]},{"op":"Block","x":16,"y":20,"size":17},{"op":"IsInter","a":true},{"op":"RefFrames","a":[1,8]},{"op":"MvRefs","has_tr":false},{"op":"InterMode","a":14}]]}
0
1200321730e00000000319000000008601163d9068c86f4f1ad5f4
tile 0 12 94

{"seq":{"chroma_sampling":3,"still_picture":false,"reduced_still_picture_hdr":false},"frame":{"width":64,"height":120,"frame_type":1,"intra_only":false,"force_integer_mv":0,"refresh_frame_flags":0},"tiles":[[{"op":"RowStart"},{"op":"Block","x":0,"y":0,"size":10},{"op":"IsInter","a":true},{"op":"RefFrames","a":[1,8]},{"op":"MvRefs","has_tr":false},{"op":"InterMode","a":19},{"op":"Mv","list":0,"a":[8,8]},{"op":"Block","x":8,"y":0,"size":10},{"op":"IsInter","a":true},{"op":"RefFrames","a":[1,8]},{"op":"MvRefs","has_tr":false},{"op":"InterMode","a":19},{"op":"Mv","list":0,"a":[8,8]},{"op":"RowStart"},{"op":"Block","x":0,"y":16,"size":11},{"op":"IsInter","a":true},{"op":"RefFrames","a":[1,8]},{"op":"MvRefs","has_tr":true},{"op":"InterMode","a":14},{"op":"Block","x":0,"y":24,"size":21},{"op":"IsInter","a":true},{"op":"RefFrames","a":[1,8]},{"op":"MvRefs","has_tr":true},{"op":"InterMode","a":14}]]}
0
1200321130e0000000033200000000860116075be0
tile 0 6 43

{"seq":{"chroma_sampling":3,"still_picture":false,"reduced_still_picture_hdr":false},"frame":{"width":128,"height":64,"frame_type":1,"intra_only":false,"force_integer_mv":0,"refresh_frame_flags":0,"tile_width_sb":1},"tiles":[[{"op":"Block","x":0,"y":0,"size":12},{"op":"IsInter","a":true},{"op":"RefFrames","a":[1,8]},{"op":"MvRefs","has_tr":true},{"op":"InterMode","a":19},{"op":"Mv","list":0,"a":[8,8]}],[{"op":"Block","x":0,"y":0,"size":12},{"op":"IsInter","a":true},{"op":"RefFrames","a":[1,8]},{"op":"MvRefs","has_tr":true},{"op":"InterMode","a":19},{"op":"Mv","list":0,"a":[8,8]}]]}
0
1200321430e0000000038640000000000002860116860116
tile 0 3 23
tile 1 3 23

{"seq":{"chroma_sampling":3,"still_picture":false,"reduced_still_picture_hdr":false},"frame":{"width":149,"height":64,"frame_type":1,"intra_only":false,"force_integer_mv":0,"refresh_frame_flags":0,"tile_width_sb":1},"tiles":[[],[{"op":"Block","x":0,"y":0,"size":7},{"op":"IsInter","a":true},{"op":"RefFrames","a":[1,8]},{"op":"MvRefs","has_tr":false},{"op":"InterMode","a":19},{"op":"Mv","list":0,"a":[0,-13214]},{"op":"Block","x":4,"y":0,"size":6},{"op":"IsInter","a":true},{"op":"RefFrames","a":[1,8]},{"op":"MvRefs","has_tr":false},{"op":"InterMode","a":19},{"op":"Mv","list":0,"a":[-2,-896]}],[]]}
0
1200321630e000000003c190000000000000800483f38b22aa80
tile 0 1 1
tile 1 5 39
tile 2 1 1

{"seq":{"chroma_sampling":3,"still_picture":false,"reduced_still_picture_hdr":false},"frame":{"width":149,"height":64,"frame_type":1,"intra_only":false,"force_integer_mv":0,"refresh_frame_flags":0,"tile_width_sb":1},"tiles":[[{"op":"Block","x":0,"y":0,"size":7},{"op":"IsInter","a":true},{"op":"RefFrames","a":[1,8]},{"op":"MvRefs","has_tr":false},{"op":"InterMode","a":19},{"op":"Mv","list":0,"a":[0,13214]},{"op":"Block","x":4,"y":0,"size":6},{"op":"IsInter","a":true},{"op":"RefFrames","a":[1,8]},{"op":"MvRefs","has_tr":false},{"op":"InterMode","a":19},{"op":"Mv","list":0,"a":[-2,896]}],[],[]]}
0
1200321830e000000003c19000000000000682f37b25a1d5e0008080
tile 0 7 51
tile 1 1 1
tile 2 1 1

{"seq":{"chroma_sampling":3,"still_picture":false,"reduced_still_picture_hdr":false},"frame":{"width":64,"height":149,"frame_type":1,"intra_only":false,"force_integer_mv":0,"refresh_frame_flags":0,"tile_height_sb":1},"tiles":[[],[{"op":"Block","x":0,"y":0,"size":8},{"op":"IsInter","a":true},{"op":"RefFrames","a":[1,8]},{"op":"MvRefs","has_tr":false},{"op":"InterMode","a":19},{"op":"Mv","list":0,"a":[-13214,0]},{"op":"Block","x":0,"y":4,"size":6},{"op":"IsInter","a":true},{"op":"RefFrames","a":[1,8]},{"op":"MvRefs","has_tr":false},{"op":"InterMode","a":19},{"op":"Mv","list":0,"a":[-896,2]}],[]]}
0
1200321630e000000003c190000000000000800485f3cb1dd280
tile 0 1 1
tile 1 5 39
tile 2 1 1

{"seq":{"chroma_sampling":3,"still_picture":false,"reduced_still_picture_hdr":false},"frame":{"width":16,"height":16,"frame_type":1,"intra_only":false,"force_integer_mv":0,"refresh_frame_flags":0},"tiles":[[{"op":"Block","x":0,"y":0,"size":3},{"op":"IsInter","a":true},{"op":"RefFrames","a":[1,8]},{"op":"MvRefs","has_tr":false},{"op":"InterMode","a":19},{"op":"Mv","list":0,"a":[8,-16]},{"op":"Block","x":2,"y":0,"size":3},{"op":"IsInter","a":true},{"op":"RefFrames","a":[1,8]},{"op":"MvRefs","has_tr":false},{"op":"InterMode","a":19},{"op":"Mv","list":0,"a":[24,0]},{"op":"Block","x":0,"y":2,"size":3},{"op":"IsInter","a":true},{"op":"RefFrames","a":[1,8]},{"op":"MvRefs","has_tr":false},{"op":"InterMode","a":19},{"op":"Mv","list":0,"a":[-40,6]},{"op":"Block","x":2,"y":2,"size":3},{"op":"IsInter","a":true},{"op":"RefFrames","a":[1,8]},{"op":"MvRefs","has_tr":false},{"op":"InterMode","a":19},{"op":"Begin","x":2,"y":2},{"op":"Drl","idx":0,"a":true},{"op":"Mv","list":0,"a":[100,-6]},{"op":"Abandon"},{"op":"Mv","list":0,"a":[2,2]}]]}
0
1200321630e000000003640000000086029b333a55a09955ad9e
tile 0 11 87
trial 0 23 159 abandoned

{"seq":{"chroma_sampling":3,"still_picture":false,"reduced_still_picture_hdr":false},"frame":{"width":16,"height":16,"frame_type":1,"intra_only":false,"force_integer_mv":0,"refresh_frame_flags":0},"tiles":[[{"op":"Block","x":0,"y":0,"size":3},{"op":"IsInter","a":true},{"op":"RefFrames","a":[1,8]},{"op":"MvRefs","has_tr":false},{"op":"InterMode","a":19},{"op":"Mv","list":0,"a":[8,-16]},{"op":"Block","x":2,"y":0,"size":3},{"op":"IsInter","a":true},{"op":"RefFrames","a":[1,8]},{"op":"MvRefs","has_tr":false},{"op":"InterMode","a":19},{"op":"Mv","list":0,"a":[24,0]},{"op":"Block","x":0,"y":2,"size":3},{"op":"IsInter","a":true},{"op":"RefFrames","a":[1,8]},{"op":"MvRefs","has_tr":false},{"op":"InterMode","a":19},{"op":"Mv","list":0,"a":[-40,6]},{"op":"Block","x":2,"y":2,"size":3},{"op":"IsInter","a":true},{"op":"RefFrames","a":[1,8]},{"op":"MvRefs","has_tr":false},{"op":"InterMode","a":19},{"op":"Begin","x":2,"y":2},{"op":"RefFrames","a":[3,8]},{"op":"MvRefs","has_tr":true},{"op":"InterMode","a":15},{"op":"Abandon"},{"op":"Drl","idx":0,"a":true},{"op":"Mv","list":0,"a":[2,2]}]]}
0
1200321730e000000003640000000086029b333a55a09955a04e80
tile 0 12 89
trial 0 23 49 abandoned

{"seq":{"chroma_sampling":3,"still_picture":false,"reduced_still_picture_hdr":false},"frame":{"width":16,"height":16,"frame_type":1,"intra_only":false,"force_integer_mv":0,"refresh_frame_flags":0},"tiles":[[{"op":"Block","x":0,"y":0,"size":3},{"op":"IsInter","a":true},{"op":"RefFrames","a":[1,8]},{"op":"MvRefs","has_tr":false},{"op":"InterMode","a":19},{"op":"Mv","list":0,"a":[8,-16]},{"op":"Block","x":2,"y":0,"size":3},{"op":"IsInter","a":true},{"op":"RefFrames","a":[1,8]},{"op":"MvRefs","has_tr":false},{"op":"InterMode","a":19},{"op":"Mv","list":0,"a":[24,0]},{"op":"Block","x":0,"y":2,"size":3},{"op":"IsInter","a":true},{"op":"RefFrames","a":[1,8]},{"op":"MvRefs","has_tr":false},{"op":"InterMode","a":19},{"op":"Mv","list":0,"a":[-40,6]},{"op":"Block","x":2,"y":2,"size":3},{"op":"IsInter","a":true},{"op":"RefFrames","a":[1,8]},{"op":"MvRefs","has_tr":false},{"op":"InterMode","a":19},{"op":"Begin","x":2,"y":2},{"op":"IsInter","a":false},{"op":"IntraMode","a":4},{"op":"Abandon"},{"op":"Mv","list":0,"a":[2,2]}]]}
0
1200321630e000000003640000000086029b333a55a09955ad9e
tile 0 11 87
trial 0 23 41 abandoned

{"seq":{"chroma_sampling":3,"still_picture":false,"reduced_still_picture_hdr":false},"frame":{"width":24,"height":16,"frame_type":1,"intra_only":false,"force_integer_mv":0,"refresh_frame_flags":0},"tiles":[[{"op":"Block","x":0,"y":0,"size":3},{"op":"IsInter","a":true},{"op":"RefFrames","a":[1,8]},{"op":"MvRefs","has_tr":false},{"op":"InterMode","a":19},{"op":"Mv","list":0,"a":[8,-16]},{"op":"Block","x":2,"y":0,"size":3},{"op":"IsInter","a":true},{"op":"RefFrames","a":[1,8]},{"op":"MvRefs","has_tr":false},{"op":"InterMode","a":19},{"op":"Mv","list":0,"a":[24,0]},{"op":"Block","x":0,"y":2,"size":3},{"op":"IsInter","a":true},{"op":"RefFrames","a":[1,8]},{"op":"MvRefs","has_tr":false},{"op":"InterMode","a":19},{"op":"Mv","list":0,"a":[-40,6]},{"op":"Block","x":2,"y":2,"size":3},{"op":"IsInter","a":true},{"op":"RefFrames","a":[1,8]},{"op":"MvRefs","has_tr":false},{"op":"InterMode","a":19},{"op":"Begin","x":2,"y":2},{"op":"Drl","idx":0,"a":true},{"op":"Begin","x":2,"y":2},{"op":"MvRefs","has_tr":true},{"op":"Mv","list":0,"a":[6,0]},{"op":"Keep"},{"op":"Abandon"},{"op":"Drl","idx":0,"a":false},{"op":"Mv","list":0,"a":[2,2]},{"op":"Block","x":4,"y":2,"size":3},{"op":"IsInter","a":true},{"op":"RefFrames","a":[1,8]},{"op":"MvRefs","has_tr":false},{"op":"InterMode","a":19},{"op":"Mv","list":0,"a":[0,0]}]]}
0
1200321930e000000003640000000086029b333a55a099531bde89f260
tile 0 14 107
trial 0 23 142 abandoned
trial 0 25 134 kept

{"seq":{"chroma_sampling":3,"still_picture":false,"reduced_still_picture_hdr":false},"frame":{"width":24,"height":16,"frame_type":1,"intra_only":false,"force_integer_mv":0,"refresh_frame_flags":0},"tiles":[[{"op":"Block","x":0,"y":0,"size":3},{"op":"IsInter","a":true},{"op":"RefFrames","a":[1,8]},{"op":"MvRefs","has_tr":false},{"op":"InterMode","a":19},{"op":"Mv","list":0,"a":[8,-16]},{"op":"Block","x":2,"y":0,"size":3},{"op":"IsInter","a":true},{"op":"RefFrames","a":[1,8]},{"op":"MvRefs","has_tr":false},{"op":"InterMode","a":19},{"op":"Mv","list":0,"a":[24,0]},{"op":"Block","x":0,"y":2,"size":3},{"op":"IsInter","a":true},{"op":"RefFrames","a":[1,8]},{"op":"MvRefs","has_tr":false},{"op":"InterMode","a":19},{"op":"Mv","list":0,"a":[-40,6]},{"op":"Block","x":2,"y":2,"size":3},{"op":"IsInter","a":true},{"op":"RefFrames","a":[1,8]},{"op":"MvRefs","has_tr":false},{"op":"InterMode","a":19},{"op":"Begin","x":2,"y":2},{"op":"Block","x":2,"y":2,"size":3},{"op":"IsInter","a":true},{"op":"RefFrames","a":[4,8]},{"op":"Abandon"},{"op":"Mv","list":0,"a":[2,2]},{"op":"Block","x":4,"y":2,"size":3},{"op":"IsInter","a":true},{"op":"RefFrames","a":[1,8]},{"op":"MvRefs","has_tr":false},{"op":"InterMode","a":19},{"op":"Mv","list":0,"a":[0,0]}]]}
0
1200321930e000000003640000000086029b333a55a09955ad9d13e4c0
tile 0 14 106
trial 0 23 30 abandoned

{"seq":{"chroma_sampling":3,"still_picture":false,"reduced_still_picture_hdr":false},"frame":{"width":16,"height":16,"frame_type":1,"intra_only":false,"force_integer_mv":0,"refresh_frame_flags":0},"tiles":[[{"op":"Block","x":0,"y":0,"size":3},{"op":"IsInter","a":true},{"op":"RefFrames","a":[1,8]},{"op":"MvRefs","has_tr":false},{"op":"InterMode","a":19},{"op":"Mv","list":0,"a":[8,-16]},{"op":"Block","x":2,"y":0,"size":3},{"op":"IsInter","a":true},{"op":"RefFrames","a":[1,8]},{"op":"MvRefs","has_tr":false},{"op":"InterMode","a":19},{"op":"Mv","list":0,"a":[24,0]},{"op":"Block","x":0,"y":2,"size":3},{"op":"IsInter","a":true},{"op":"RefFrames","a":[1,8]},{"op":"MvRefs","has_tr":false},{"op":"InterMode","a":19},{"op":"Mv","list":0,"a":[-40,6]},{"op":"Block","x":2,"y":2,"size":3},{"op":"IsInter","a":true},{"op":"RefFrames","a":[1,8]},{"op":"Begin","x":2,"y":2},{"op":"MvRefs","has_tr":false},{"op":"Abandon"}]]}
0
1200321430e000000003640000000086029b333a55a09954
tile 0 9 70
trial 0 21 0 abandoned

{"seq":{"chroma_sampling":3,"still_picture":false,"reduced_still_picture_hdr":false},"frame":{"width":8,"height":8,"frame_type":1,"intra_only":false,"force_integer_mv":0,"refresh_frame_flags":0},"tiles":[[{"op":"Block","x":0,"y":0,"size":3},{"op":"IsInter","a":true},{"op":"RefFrames","a":[1,8]},{"op":"Begin","x":0,"y":0},{"op":"MvRefs","has_tr":false},{"op":"InterMode","a":14},{"op":"Abandon"},{"op":"InterMode","a":14}]]}
6
refused tile 0 item 7 r79

{"seq":{"chroma_sampling":3,"still_picture":false,"reduced_still_picture_hdr":false},"frame":{"width":8,"height":8,"frame_type":1,"intra_only":false,"force_integer_mv":0,"refresh_frame_flags":0},"tiles":[[{"op":"Block","x":0,"y":0,"size":3},{"op":"IsInter","a":true},{"op":"RefFrames","a":[1,8]},{"op":"MvRefs","has_tr":false},{"op":"InterMode","a":19},{"op":"Begin","x":0,"y":0},{"op":"RefFrames","a":[2,8]},{"op":"Keep"},{"op":"InterMode","a":14}]]}
6
refused tile 0 item 8 r79

{"seq":{"chroma_sampling":3,"still_picture":false,"reduced_still_picture_hdr":false},"frame":{"width":24,"height":16,"frame_type":1,"intra_only":false,"force_integer_mv":0,"refresh_frame_flags":0,"reference_mode":2},"tiles":[[{"op":"Block","x":0,"y":0,"size":3},{"op":"IsInter","a":true},{"op":"RefFrames","a":[1,5]},{"op":"MvRefs","has_tr":false},{"op":"CompoundMode","a":33},{"op":"Mv","list":0,"a":[8,-16]},{"op":"Mv","list":1,"a":[2,4]},{"op":"Block","x":2,"y":0,"size":3},{"op":"IsInter","a":true},{"op":"RefFrames","a":[1,5]},{"op":"MvRefs","has_tr":false},{"op":"CompoundMode","a":33},{"op":"Mv","list":0,"a":[24,0]},{"op":"Mv","list":1,"a":[-8,0]},{"op":"Block","x":0,"y":2,"size":3},{"op":"IsInter","a":true},{"op":"RefFrames","a":[1,5]},{"op":"MvRefs","has_tr":false},{"op":"CompoundMode","a":33},{"op":"Mv","list":0,"a":[-40,6]},{"op":"Mv","list":1,"a":[0,0]},{"op":"Begin","x":2,"y":2},{"op":"Block","x":2,"y":2,"size":3},{"op":"IsInter","a":true},{"op":"RefFrames","a":[3,6]},{"op":"MvRefs","has_tr":false},{"op":"CompoundMode","a":33},{"op":"Mv","list":0,"a":[2,2]},{"op":"Mv","list":1,"a":[2,0]},{"op":"Abandon"},{"op":"Begin","x":2,"y":2},{"op":"Block","x":2,"y":2,"size":3},{"op":"IsInter","a":true},{"op":"RefFrames","a":[1,5]},{"op":"MvRefs","has_tr":false},{"op":"CompoundMode","a":21},{"op":"Keep"},{"op":"Block","x":4,"y":2,"size":3},{"op":"IsInter","a":true},{"op":"RefFrames","a":[1,5]},{"op":"MvRefs","has_tr":false},{"op":"CompoundMode","a":33},{"op":"Mv","list":0,"a":[0,0]},{"op":"Mv","list":1,"a":[0,0]}]]}
0
1200322030e0000000036400000400e1ee70e174c400b1ae6d908261d12ebee80d362cc0
tile 0 21 162
trial 0 21 275 abandoned
trial 0 30 72 kept

{"seq":{"chroma_sampling":3,"still_picture":false,"reduced_still_picture_hdr":false},"frame":{"width":24,"height":16,"frame_type":1,"intra_only":false,"force_integer_mv":0,"refresh_frame_flags":0},"tiles":[[{"op":"Block","x":0,"y":0,"size":3},{"op":"IsInter","a":true},{"op":"RefFrames","a":[1,8]},{"op":"MvRefs","has_tr":false},{"op":"InterMode","a":19},{"op":"Mv","list":0,"a":[8,-16]},{"op":"Block","x":2,"y":0,"size":3},{"op":"IsInter","a":true},{"op":"RefFrames","a":[1,8]},{"op":"MvRefs","has_tr":false},{"op":"InterMode","a":19},{"op":"Mv","list":0,"a":[24,0]},{"op":"Block","x":0,"y":2,"size":3},{"op":"IsInter","a":true},{"op":"RefFrames","a":[1,8]},{"op":"MvRefs","has_tr":false},{"op":"InterMode","a":19},{"op":"Mv","list":0,"a":[-40,6]},{"op":"Block","x":2,"y":2,"size":3},{"op":"IsInter","a":true},{"op":"RefFrames","a":[1,8]},{"op":"MvRefs","has_tr":false},{"op":"InterMode","a":15},{"op":"Drl","idx":1,"a":true},{"op":"Block","x":4,"y":2,"size":3},{"op":"IsInter","a":true},{"op":"RefFrames","a":[1,8]},{"op":"MvRefs","has_tr":false},{"op":"InterMode","a":19},{"op":"Mv","list":0,"a":[0,0]}]],"via":"recorded"}
0
1200321730e000000003640000000086029b333a55a0995bed6358
tile 0 12 93

{"seq":{"chroma_sampling":3,"still_picture":false,"reduced_still_picture_hdr":false},"frame":{"width":8,"height":8,"frame_type":1,"intra_only":false,"force_integer_mv":0,"refresh_frame_flags":0,"tx_mode_select":true},"tiles":[[{"op":"Block","x":0,"y":0,"size":3},{"op":"IsInter","a":true},{"op":"RefFrames","a":[1,8]},{"op":"TxInter","a":true}]]}
0
1200320c30e00000000364000008008c
tile 0 1 6

{"seq":{"chroma_sampling":3,"still_picture":false,"reduced_still_picture_hdr":false},"frame":{"width":16,"height":16,"frame_type":1,"intra_only":false,"force_integer_mv":0,"refresh_frame_flags":0,"tx_mode_select":true},"tiles":[[{"op":"Block","x":0,"y":0,"size":6},{"op":"IsInter","a":true},{"op":"RefFrames","a":[1,8]},{"op":"TxInter","a":true}]]}
0
1200320d30e00000000364000008008840
tile 0 2 10

{"seq":{"chroma_sampling":3,"still_picture":false,"reduced_still_picture_hdr":false},"frame":{"width":32,"height":32,"frame_type":1,"intra_only":false,"force_integer_mv":0,"refresh_frame_flags":0,"tx_mode_select":true},"tiles":[[{"op":"Block","x":0,"y":0,"size":9},{"op":"IsInter","a":true},{"op":"RefFrames","a":[1,8]},{"op":"TxInter","a":true}]]}
0
1200320d30e00000000364000008008840
tile 0 2 10

{"seq":{"chroma_sampling":3,"still_picture":false,"reduced_still_picture_hdr":false},"frame":{"width":64,"height":64,"frame_type":1,"intra_only":false,"force_integer_mv":0,"refresh_frame_flags":0,"tx_mode_select":true},"tiles":[[{"op":"Block","x":0,"y":0,"size":12},{"op":"IsInter","a":true},{"op":"RefFrames","a":[1,8]},{"op":"TxInter","a":true}]]}
0
1200320d30e00000000364000008008840
tile 0 2 10

{"seq":{"chroma_sampling":3,"still_picture":false,"reduced_still_picture_hdr":false},"frame":{"width":64,"height":64,"frame_type":1,"intra_only":false,"force_integer_mv":0,"refresh_frame_flags":0,"tx_mode_select":true},"tiles":[[{"op":"Block","x":0,"y":0,"size":20},{"op":"IsInter","a":true},{"op":"RefFrames","a":[1,8]},{"op":"TxInter","a":true}]]}
0
1200320c30e000000003640000080089
tile 0 1 8

{"seq":{"chroma_sampling":3,"still_picture":false,"reduced_still_picture_hdr":false},"frame":{"width":64,"height":64,"frame_type":1,"intra_only":false,"force_integer_mv":0,"refresh_frame_flags":0,"tx_mode_select":true},"tiles":[[{"op":"Block","x":0,"y":0,"size":21},{"op":"IsInter","a":true},{"op":"RefFrames","a":[1,8]},{"op":"TxInter","a":true}]]}
0
1200320c30e000000003640000080089
tile 0 1 8

{"seq":{"chroma_sampling":3,"still_picture":false,"reduced_still_picture_hdr":false},"frame":{"width":64,"height":64,"frame_type":1,"intra_only":false,"force_integer_mv":0,"refresh_frame_flags":0,"tx_mode_select":true},"tiles":[[{"op":"Block","x":0,"y":0,"size":10},{"op":"IsInter","a":true},{"op":"RefFrames","a":[1,8]},{"op":"TxInter","a":true}]]}
0
1200320c30e000000003640000080089
tile 0 1 8

{"seq":{"chroma_sampling":3,"still_picture":false,"reduced_still_picture_hdr":false},"frame":{"width":64,"height":64,"frame_type":1,"intra_only":false,"force_integer_mv":0,"refresh_frame_flags":0,"tx_mode_select":true},"tiles":[[{"op":"Block","x":0,"y":0,"size":11},{"op":"IsInter","a":true},{"op":"RefFrames","a":[1,8]},{"op":"TxInter","a":true}]]}
0
1200320c30e000000003640000080089
tile 0 1 8

{"seq":{"chroma_sampling":3,"still_picture":false,"reduced_still_picture_hdr":false},"frame":{"width":8,"height":8,"frame_type":1,"intra_only":false,"force_integer_mv":0,"refresh_frame_flags":0,"tx_mode_select":true},"tiles":[[{"op":"Block","x":0,"y":0,"size":1},{"op":"IsInter","a":true},{"op":"RefFrames","a":[1,8]},{"op":"TxInter","a":true}]]}
0
1200320c30e00000000364000008008c
tile 0 1 6

{"seq":{"chroma_sampling":3,"still_picture":false,"reduced_still_picture_hdr":false},"frame":{"width":8,"height":8,"frame_type":1,"intra_only":false,"force_integer_mv":0,"refresh_frame_flags":0,"tx_mode_select":true},"tiles":[[{"op":"Block","x":0,"y":0,"size":2},{"op":"IsInter","a":true},{"op":"RefFrames","a":[1,8]},{"op":"TxInter","a":true}]]}
0
1200320c30e00000000364000008008c
tile 0 1 6

{"seq":{"chroma_sampling":3,"still_picture":false,"reduced_still_picture_hdr":false},"frame":{"width":16,"height":16,"frame_type":1,"intra_only":false,"force_integer_mv":0,"refresh_frame_flags":0,"tx_mode_select":true},"tiles":[[{"op":"Block","x":0,"y":0,"size":4},{"op":"IsInter","a":true},{"op":"RefFrames","a":[1,8]},{"op":"TxInter","a":true}]]}
0
1200320c30e000000003640000080089
tile 0 1 8

{"seq":{"chroma_sampling":3,"still_picture":false,"reduced_still_picture_hdr":false},"frame":{"width":16,"height":16,"frame_type":1,"intra_only":false,"force_integer_mv":0,"refresh_frame_flags":0,"tx_mode_select":true},"tiles":[[{"op":"Block","x":0,"y":0,"size":5},{"op":"IsInter","a":true},{"op":"RefFrames","a":[1,8]},{"op":"TxInter","a":true}]]}
0
1200320c30e000000003640000080089
tile 0 1 8

{"seq":{"chroma_sampling":3,"still_picture":false,"reduced_still_picture_hdr":false},"frame":{"width":16,"height":16,"frame_type":1,"intra_only":false,"force_integer_mv":0,"refresh_frame_flags":0,"tx_mode_select":true},"tiles":[[{"op":"Block","x":0,"y":0,"size":16},{"op":"IsInter","a":true},{"op":"RefFrames","a":[1,8]},{"op":"TxInter","a":true}]]}
0
1200320c30e000000003640000080089
tile 0 1 8

{"seq":{"chroma_sampling":3,"still_picture":false,"reduced_still_picture_hdr":false},"frame":{"width":16,"height":16,"frame_type":1,"intra_only":false,"force_integer_mv":0,"refresh_frame_flags":0,"tx_mode_select":true},"tiles":[[{"op":"Block","x":0,"y":0,"size":17},{"op":"IsInter","a":true},{"op":"RefFrames","a":[1,8]},{"op":"TxInter","a":true}]]}
0
1200320c30e000000003640000080089
tile 0 1 8

{"seq":{"chroma_sampling":3,"still_picture":false,"reduced_still_picture_hdr":false},"frame":{"width":32,"height":32,"frame_type":1,"intra_only":false,"force_integer_mv":0,"refresh_frame_flags":0,"tx_mode_select":true},"tiles":[[{"op":"Block","x":0,"y":0,"size":18},{"op":"IsInter","a":true},{"op":"RefFrames","a":[1,8]},{"op":"TxInter","a":true}]]}
0
1200320c30e000000003640000080089
tile 0 1 8

{"seq":{"chroma_sampling":3,"still_picture":false,"reduced_still_picture_hdr":false},"frame":{"width":32,"height":32,"frame_type":1,"intra_only":false,"force_integer_mv":0,"refresh_frame_flags":0,"tx_mode_select":true},"tiles":[[{"op":"Block","x":0,"y":0,"size":19},{"op":"IsInter","a":true},{"op":"RefFrames","a":[1,8]},{"op":"TxInter","a":true}]]}
0
1200320c30e000000003640000080089
tile 0 1 8

{"seq":{"chroma_sampling":3,"still_picture":false,"reduced_still_picture_hdr":false},"frame":{"width":64,"height":64,"frame_type":1,"intra_only":false,"force_integer_mv":0,"refresh_frame_flags":0,"tx_mode_select":true},"tiles":[[{"op":"Block","x":0,"y":0,"size":12},{"op":"IsInter","a":true},{"op":"RefFrames","a":[1,8]},{"op":"TxInter","a":false}]]}
0
1200320c30e000000003640000080084
tile 0 1 6

{"seq":{"chroma_sampling":3,"still_picture":false,"reduced_still_picture_hdr":false},"frame":{"width":40,"height":24,"frame_type":1,"intra_only":false,"force_integer_mv":0,"refresh_frame_flags":0,"tx_mode_select":true},"tiles":[[{"op":"Block","x":0,"y":0,"size":12},{"op":"IsInter","a":true},{"op":"RefFrames","a":[1,8]},{"op":"TxInter","a":true}]]}
0
1200320c30e000000003640000080089
tile 0 1 8

{"seq":{"chroma_sampling":3,"still_picture":false,"reduced_still_picture_hdr":false},"frame":{"width":16,"height":24,"frame_type":1,"intra_only":false,"force_integer_mv":0,"refresh_frame_flags":0,"tx_mode_select":true},"tiles":[[{"op":"Block","x":0,"y":0,"size":9},{"op":"IsInter","a":true},{"op":"RefFrames","a":[1,8]},{"op":"TxInter","a":true}]]}
0
1200320c30e000000003640000080089
tile 0 1 8

{"seq":{"chroma_sampling":3,"still_picture":false,"reduced_still_picture_hdr":false},"frame":{"width":8,"height":8,"frame_type":1,"intra_only":false,"force_integer_mv":0,"refresh_frame_flags":0,"tx_mode_select":true},"tiles":[[{"op":"Block","x":0,"y":0,"size":3},{"op":"IsInter","a":true},{"op":"RefFrames","a":[1,8]},{"op":"TxInter","a":true},{"op":"TxInter","a":false},{"op":"TxInter","a":true}]]}
0
1200320d30e00000000364000008008a80
tile 0 2 9

{"seq":{"chroma_sampling":3,"still_picture":false,"reduced_still_picture_hdr":false},"frame":{"width":48,"height":48,"frame_type":1,"intra_only":false,"force_integer_mv":0,"refresh_frame_flags":0,"tx_mode_select":true},"tiles":[[{"op":"Block","x":0,"y":0,"size":6},{"op":"IsInter","a":true},{"op":"RefFrames","a":[1,8]},{"op":"Skip","a":false},{"op":"TxInter","a":false},{"op":"Block","x":4,"y":0,"size":6},{"op":"IsInter","a":true},{"op":"RefFrames","a":[1,8]},{"op":"Skip","a":false},{"op":"TxInter","a":true},{"op":"Block","x":8,"y":0,"size":6},{"op":"IsInter","a":true},{"op":"RefFrames","a":[1,8]},{"op":"Skip","a":true},{"op":"TxNote"},{"op":"Block","x":0,"y":4,"size":6},{"op":"IsInter","a":true},{"op":"RefFrames","a":[1,8]},{"op":"Skip","a":false},{"op":"TxInter","a":true},{"op":"Block","x":4,"y":4,"size":6},{"op":"IsInter","a":true},{"op":"RefFrames","a":[1,8]},{"op":"Skip","a":false},{"op":"TxInter","a":true},{"op":"Block","x":8,"y":4,"size":6},{"op":"IsInter","a":true},{"op":"RefFrames","a":[1,8]},{"op":"Skip","a":false},{"op":"TxInter","a":false},{"op":"Block","x":0,"y":8,"size":6},{"op":"IsInter","a":true},{"op":"RefFrames","a":[1,8]},{"op":"Skip","a":true},{"op":"TxNote"},{"op":"Block","x":4,"y":8,"size":6},{"op":"IsInter","a":true},{"op":"RefFrames","a":[1,8]},{"op":"Skip","a":false},{"op":"TxInter","a":false},{"op":"Block","x":8,"y":8,"size":6},{"op":"IsInter","a":true},{"op":"RefFrames","a":[1,8]},{"op":"Skip","a":false},{"op":"TxInter","a":true}]]}
0
1200321230e000000003640000080081ec20e33fcafc
tile 0 7 54

{"seq":{"chroma_sampling":3,"still_picture":false,"reduced_still_picture_hdr":false},"frame":{"width":24,"height":24,"frame_type":1,"intra_only":false,"force_integer_mv":0,"refresh_frame_flags":0,"tx_mode_select":true},"tiles":[[{"op":"Block","x":0,"y":0,"size":3},{"op":"IsInter","a":false},{"op":"TxIntra","a":0},{"op":"Block","x":0,"y":2,"size":3},{"op":"IsInter","a":false},{"op":"TxIntra","a":1},{"op":"Block","x":2,"y":0,"size":3},{"op":"IsInter","a":true},{"op":"RefFrames","a":[1,8]},{"op":"TxInter","a":false},{"op":"Block","x":2,"y":2,"size":3},{"op":"IsInter","a":true},{"op":"RefFrames","a":[1,8]},{"op":"TxInter","a":true},{"op":"Block","x":4,"y":0,"size":3},{"op":"IsInter","a":true},{"op":"RefFrames","a":[1,8]},{"op":"Skip","a":true},{"op":"TxNote"},{"op":"Block","x":4,"y":2,"size":3},{"op":"IsInter","a":true},{"op":"RefFrames","a":[1,8]},{"op":"TxInter","a":true},{"op":"Block","x":0,"y":4,"size":3},{"op":"IsInter","a":false},{"op":"TxIntra","a":0},{"op":"Block","x":2,"y":4,"size":3},{"op":"IsInter","a":true},{"op":"RefFrames","a":[1,8]},{"op":"TxInter","a":true}]]}
0
1200320f30e0000000036400000800486495ea
tile 0 4 31

{"seq":{"chroma_sampling":3,"still_picture":false,"reduced_still_picture_hdr":false},"frame":{"width":16,"height":16,"frame_type":1,"intra_only":false,"force_integer_mv":0,"refresh_frame_flags":0,"tx_mode_select":true},"tiles":[[{"op":"Block","x":0,"y":0,"size":3},{"op":"IsInter","a":true},{"op":"RefFrames","a":[1,8]},{"op":"Skip","a":true},{"op":"TxNote"},{"op":"Block","x":2,"y":0,"size":3},{"op":"IsInter","a":false},{"op":"TxIntra","a":1},{"op":"Block","x":0,"y":2,"size":3},{"op":"IsInter","a":false},{"op":"TxIntra","a":0}]]}
0
1200320d30e000000003640000080088a0
tile 0 2 11

{"seq":{"chroma_sampling":3,"still_picture":false,"reduced_still_picture_hdr":false},"frame":{"width":16,"height":8,"frame_type":1,"intra_only":false,"force_integer_mv":0,"refresh_frame_flags":0,"tx_mode_select":true},"tiles":[[{"op":"Block","x":0,"y":0,"size":3},{"op":"IsInter","a":false},{"op":"Skip","a":true},{"op":"TxNote"},{"op":"Block","x":2,"y":0,"size":3},{"op":"IsInter","a":true},{"op":"RefFrames","a":[1,8]},{"op":"TxInter","a":true}]]}
0
1200320d30e00000000364000008006280
tile 0 2 9

{"seq":{"chroma_sampling":3,"still_picture":false,"reduced_still_picture_hdr":false},"frame":{"width":16,"height":16,"frame_type":1,"intra_only":false,"force_integer_mv":0,"refresh_frame_flags":0,"tx_mode_select":true},"tiles":[[{"op":"Block","x":0,"y":0,"size":3},{"op":"IsInter","a":true},{"op":"RefFrames","a":[1,8]},{"op":"Skip","a":false},{"op":"TxNote"},{"op":"Block","x":2,"y":0,"size":3},{"op":"IsInter","a":false},{"op":"TxIntra","a":1},{"op":"Block","x":0,"y":2,"size":3},{"op":"IsInter","a":false},{"op":"TxIntra","a":0}]]}
0
1200320d30e000000003640000080080a0
tile 0 2 11

{"seq":{"chroma_sampling":3,"still_picture":false,"reduced_still_picture_hdr":false},"frame":{"width":16,"height":8,"frame_type":1,"intra_only":false,"force_integer_mv":0,"refresh_frame_flags":0,"tx_mode_select":true},"tiles":[[{"op":"Block","x":0,"y":0,"size":3},{"op":"IsInter","a":false},{"op":"Skip","a":false},{"op":"TxNote"},{"op":"Block","x":2,"y":0,"size":3},{"op":"IsInter","a":true},{"op":"RefFrames","a":[1,8]},{"op":"TxInter","a":true}]]}
0
1200320c30e000000003640000080023
tile 0 1 8

{"seq":{"chroma_sampling":3,"still_picture":false,"reduced_still_picture_hdr":false},"frame":{"width":32,"height":16,"frame_type":1,"intra_only":false,"force_integer_mv":0,"refresh_frame_flags":0,"tx_mode_select":true},"tiles":[[{"op":"Block","x":0,"y":0,"size":6},{"op":"IsInter","a":true},{"op":"RefFrames","a":[1,8]},{"op":"TxInter","a":true},{"op":"TxNote"},{"op":"Block","x":4,"y":0,"size":6},{"op":"IsInter","a":false},{"op":"TxIntra","a":2}]]}
0
1200320d30e00000000364000008008808
tile 0 2 13

{"seq":{"chroma_sampling":3,"still_picture":false,"reduced_still_picture_hdr":false},"frame":{"width":8,"height":8,"frame_type":1,"intra_only":false,"force_integer_mv":0,"refresh_frame_flags":0},"tiles":[[{"op":"Block","x":0,"y":0,"size":3},{"op":"IsInter","a":true},{"op":"RefFrames","a":[1,8]},{"op":"TxInter","a":true}]]}
6
refused tile 0 item 3 r76

{"seq":{"chroma_sampling":3,"still_picture":false,"reduced_still_picture_hdr":false},"frame":{"width":8,"height":8,"frame_type":1,"intra_only":false,"force_integer_mv":0,"refresh_frame_flags":0,"tx_mode_select":true},"tiles":[[{"op":"Block","x":0,"y":0,"size":0},{"op":"IsInter","a":true},{"op":"RefFrames","a":[1,8]},{"op":"TxInter","a":true}]]}
6
refused tile 0 item 3 r76

{"seq":{"chroma_sampling":3,"still_picture":false,"reduced_still_picture_hdr":false},"frame":{"width":8,"height":8,"frame_type":1,"intra_only":false,"force_integer_mv":0,"refresh_frame_flags":0,"tx_mode_select":true},"tiles":[[{"op":"Block","x":0,"y":0,"size":3},{"op":"IsInter","a":true},{"op":"RefFrames","a":[1,8]},{"op":"Skip","a":true},{"op":"TxInter","a":false}]]}
6
refused tile 0 item 4 r76

{"seq":{"chroma_sampling":3,"still_picture":false,"reduced_still_picture_hdr":false},"frame":{"width":8,"height":8,"frame_type":1,"intra_only":false,"force_integer_mv":0,"refresh_frame_flags":0,"tx_mode_select":true},"tiles":[[{"op":"Block","x":0,"y":0,"size":3},{"op":"IsInter","a":true},{"op":"RefFrames","a":[1,8]},{"op":"TxIntra","a":1}]]}
6
refused tile 0 item 3 r66

{"seq":{"chroma_sampling":3,"still_picture":false,"reduced_still_picture_hdr":false},"frame":{"width":8,"height":8,"frame_type":1,"intra_only":false,"force_integer_mv":0,"refresh_frame_flags":0},"tiles":[[{"op":"Block","x":0,"y":0,"size":3},{"op":"IsInter","a":true},{"op":"RefFrames","a":[1,8]},{"op":"Coeffs","plane":0,"x":0,"y":0,"tx_type":0,"a":[3,-1,0,2,0,1]},{"op":"Coeffs","plane":0,"x":0,"y":0,"tx_type":1,"a":[3,-1,0,2,0,1]},{"op":"Coeffs","plane":0,"x":0,"y":0,"tx_type":2,"a":[3,-1,0,2,0,1]},{"op":"Coeffs","plane":0,"x":0,"y":0,"tx_type":3,"a":[3,-1,0,2,0,1]},{"op":"Coeffs","plane":0,"x":0,"y":0,"tx_type":4,"a":[3,-1,0,2,0,1]},{"op":"Coeffs","plane":0,"x":0,"y":0,"tx_type":5,"a":[3,-1,0,2,0,1]},{"op":"Coeffs","plane":0,"x":0,"y":0,"tx_type":6,"a":[3,-1,0,2,0,1]},{"op":"Coeffs","plane":0,"x":0,"y":0,"tx_type":7,"a":[3,-1,0,2,0,1]},{"op":"Coeffs","plane":0,"x":0,"y":0,"tx_type":8,"a":[3,-1,0,2,0,1]},{"op":"Coeffs","plane":0,"x":0,"y":0,"tx_type":9,"a":[3,-1,0,2,0,1]},{"op":"Coeffs","plane":0,"x":0,"y":0,"tx_type":10,"a":[3,-1,0,2,0,1]},{"op":"Coeffs","plane":0,"x":0,"y":0,"tx_type":11,"a":[3,-1,0,2,0,1]},{"op":"Coeffs","plane":0,"x":0,"y":0,"tx_type":12,"a":[3,-1,0,2,0,1]},{"op":"Coeffs","plane":0,"x":0,"y":0,"tx_type":13,"a":[3,-1,0,2,0,1]},{"op":"Coeffs","plane":0,"x":0,"y":0,"tx_type":14,"a":[3,-1,0,2,0,1]},{"op":"Coeffs","plane":0,"x":0,"y":0,"tx_type":15,"a":[3,-1,0,2,0,1]}]]}
0
1200323b30e000000003640000000083b23844cc4b15501120654f5484b44564e99e077cd9621e2c6cf6b50990fe2a04d73f80e72d68638eb251a8fe658cc8
tile 0 48 381

{"seq":{"chroma_sampling":3,"still_picture":false,"reduced_still_picture_hdr":false},"frame":{"width":8,"height":8,"frame_type":1,"intra_only":false,"force_integer_mv":0,"refresh_frame_flags":0},"tiles":[[{"op":"Block","x":0,"y":0,"size":0},{"op":"IsInter","a":true},{"op":"RefFrames","a":[1,8]},{"op":"Coeffs","plane":0,"x":0,"y":0,"tx_type":0,"a":[3,-1,0,2,0,1]},{"op":"Coeffs","plane":0,"x":0,"y":0,"tx_type":1,"a":[3,-1,0,2,0,1]},{"op":"Coeffs","plane":0,"x":0,"y":0,"tx_type":2,"a":[3,-1,0,2,0,1]},{"op":"Coeffs","plane":0,"x":0,"y":0,"tx_type":3,"a":[3,-1,0,2,0,1]},{"op":"Coeffs","plane":0,"x":0,"y":0,"tx_type":4,"a":[3,-1,0,2,0,1]},{"op":"Coeffs","plane":0,"x":0,"y":0,"tx_type":5,"a":[3,-1,0,2,0,1]},{"op":"Coeffs","plane":0,"x":0,"y":0,"tx_type":6,"a":[3,-1,0,2,0,1]},{"op":"Coeffs","plane":0,"x":0,"y":0,"tx_type":7,"a":[3,-1,0,2,0,1]},{"op":"Coeffs","plane":0,"x":0,"y":0,"tx_type":8,"a":[3,-1,0,2,0,1]},{"op":"Coeffs","plane":0,"x":0,"y":0,"tx_type":9,"a":[3,-1,0,2,0,1]},{"op":"Coeffs","plane":0,"x":0,"y":0,"tx_type":10,"a":[3,-1,0,2,0,1]},{"op":"Coeffs","plane":0,"x":0,"y":0,"tx_type":11,"a":[3,-1,0,2,0,1]},{"op":"Coeffs","plane":0,"x":0,"y":0,"tx_type":12,"a":[3,-1,0,2,0,1]},{"op":"Coeffs","plane":0,"x":0,"y":0,"tx_type":13,"a":[3,-1,0,2,0,1]},{"op":"Coeffs","plane":0,"x":0,"y":0,"tx_type":14,"a":[3,-1,0,2,0,1]},{"op":"Coeffs","plane":0,"x":0,"y":0,"tx_type":15,"a":[3,-1,0,2,0,1]}]]}
0
1200323a30e000000003640000000083ca26119a706a4300ba30ea5ba39ab495602f0af1db16d8d40e6fd1f648fbf99925f39944384a1d0b5610b5e59da7
tile 0 47 376

{"seq":{"chroma_sampling":3,"still_picture":false,"reduced_still_picture_hdr":false},"frame":{"width":16,"height":16,"frame_type":1,"intra_only":false,"force_integer_mv":0,"refresh_frame_flags":0},"tiles":[[{"op":"Block","x":0,"y":0,"size":6},{"op":"IsInter","a":true},{"op":"RefFrames","a":[1,8]},{"op":"Coeffs","plane":0,"x":0,"y":0,"tx_type":0,"a":[3,-1,0,2,0,1]},{"op":"Coeffs","plane":0,"x":0,"y":0,"tx_type":1,"a":[3,-1,0,2,0,1]},{"op":"Coeffs","plane":0,"x":0,"y":0,"tx_type":2,"a":[3,-1,0,2,0,1]},{"op":"Coeffs","plane":0,"x":0,"y":0,"tx_type":3,"a":[3,-1,0,2,0,1]},{"op":"Coeffs","plane":0,"x":0,"y":0,"tx_type":4,"a":[3,-1,0,2,0,1]},{"op":"Coeffs","plane":0,"x":0,"y":0,"tx_type":5,"a":[3,-1,0,2,0,1]},{"op":"Coeffs","plane":0,"x":0,"y":0,"tx_type":6,"a":[3,-1,0,2,0,1]},{"op":"Coeffs","plane":0,"x":0,"y":0,"tx_type":7,"a":[3,-1,0,2,0,1]},{"op":"Coeffs","plane":0,"x":0,"y":0,"tx_type":8,"a":[3,-1,0,2,0,1]},{"op":"Coeffs","plane":0,"x":0,"y":0,"tx_type":9,"a":[3,-1,0,2,0,1]},{"op":"Coeffs","plane":0,"x":0,"y":0,"tx_type":10,"a":[3,-1,0,2,0,1]},{"op":"Coeffs","plane":0,"x":0,"y":0,"tx_type":11,"a":[3,-1,0,2,0,1]}]]}
0
1200322f30e00000000364000000008234e3301016732ab823acb07a257d10c43d1b263cea08cce9a92e4f7dd356d9162ecbfa
tile 0 36 287

{"seq":{"chroma_sampling":3,"still_picture":false,"reduced_still_picture_hdr":false},"frame":{"width":32,"height":32,"frame_type":1,"intra_only":false,"force_integer_mv":0,"refresh_frame_flags":0},"tiles":[[{"op":"Block","x":0,"y":0,"size":9},{"op":"IsInter","a":true},{"op":"RefFrames","a":[1,8]},{"op":"Coeffs","plane":0,"x":0,"y":0,"tx_type":0,"a":[3,-1,0,2,0,1]},{"op":"Coeffs","plane":0,"x":0,"y":0,"tx_type":9,"a":[3,-1,0,2,0,1]}]]}
0
1200321230e000000003640000000085282eae5268ac
tile 0 7 54

{"seq":{"chroma_sampling":3,"still_picture":false,"reduced_still_picture_hdr":false},"frame":{"width":64,"height":64,"frame_type":1,"intra_only":false,"force_integer_mv":0,"refresh_frame_flags":0},"tiles":[[{"op":"Block","x":0,"y":0,"size":12},{"op":"IsInter","a":true},{"op":"RefFrames","a":[1,8]},{"op":"Coeffs","plane":0,"x":0,"y":0,"tx_type":0,"a":[3,-1,0,2,0,1]}]]}
0
1200320f30e00000000364000000008257dd5c
tile 0 4 30

{"seq":{"chroma_sampling":3,"still_picture":false,"reduced_still_picture_hdr":false},"frame":{"width":16,"height":16,"frame_type":1,"intra_only":false,"force_integer_mv":0,"refresh_frame_flags":0},"tiles":[[{"op":"Block","x":0,"y":0,"size":4},{"op":"IsInter","a":true},{"op":"RefFrames","a":[1,8]},{"op":"Coeffs","plane":0,"x":0,"y":0,"tx_type":0,"a":[3,-1,0,2,0,1]},{"op":"Coeffs","plane":0,"x":0,"y":0,"tx_type":1,"a":[3,-1,0,2,0,1]},{"op":"Coeffs","plane":0,"x":0,"y":0,"tx_type":2,"a":[3,-1,0,2,0,1]},{"op":"Coeffs","plane":0,"x":0,"y":0,"tx_type":3,"a":[3,-1,0,2,0,1]},{"op":"Coeffs","plane":0,"x":0,"y":0,"tx_type":4,"a":[3,-1,0,2,0,1]},{"op":"Coeffs","plane":0,"x":0,"y":0,"tx_type":5,"a":[3,-1,0,2,0,1]},{"op":"Coeffs","plane":0,"x":0,"y":0,"tx_type":6,"a":[3,-1,0,2,0,1]},{"op":"Coeffs","plane":0,"x":0,"y":0,"tx_type":7,"a":[3,-1,0,2,0,1]},{"op":"Coeffs","plane":0,"x":0,"y":0,"tx_type":8,"a":[3,-1,0,2,0,1]},{"op":"Coeffs","plane":0,"x":0,"y":0,"tx_type":9,"a":[3,-1,0,2,0,1]},{"op":"Coeffs","plane":0,"x":0,"y":0,"tx_type":10,"a":[3,-1,0,2,0,1]},{"op":"Coeffs","plane":0,"x":0,"y":0,"tx_type":11,"a":[3,-1,0,2,0,1]},{"op":"Coeffs","plane":0,"x":0,"y":0,"tx_type":12,"a":[3,-1,0,2,0,1]},{"op":"Coeffs","plane":0,"x":0,"y":0,"tx_type":13,"a":[3,-1,0,2,0,1]},{"op":"Coeffs","plane":0,"x":0,"y":0,"tx_type":14,"a":[3,-1,0,2,0,1]},{"op":"Coeffs","plane":0,"x":0,"y":0,"tx_type":15,"a":[3,-1,0,2,0,1]}]]}
0
1200323b30e000000003640000000083aa9c94f76f8e7259ee5315129387a15bb733ec515796c98c0a6f248a78f7707a88454c0dd5b6e0975540a598225d60
tile 0 48 379

{"seq":{"chroma_sampling":3,"still_picture":false,"reduced_still_picture_hdr":false},"frame":{"width":32,"height":32,"frame_type":1,"intra_only":false,"force_integer_mv":0,"refresh_frame_flags":0},"tiles":[[{"op":"Block","x":0,"y":0,"size":7},{"op":"IsInter","a":true},{"op":"RefFrames","a":[1,8]},{"op":"Coeffs","plane":0,"x":0,"y":0,"tx_type":0,"a":[3,-1,0,2,0,1]},{"op":"Coeffs","plane":0,"x":0,"y":0,"tx_type":9,"a":[3,-1,0,2,0,1]}]]}
0
1200321230e000000003640000000085465fff36a3bc
tile 0 7 54

{"seq":{"chroma_sampling":3,"still_picture":false,"reduced_still_picture_hdr":false},"frame":{"width":8,"height":8,"frame_type":1,"intra_only":false,"force_integer_mv":0,"refresh_frame_flags":0,"use_reduced_tx_set":true},"tiles":[[{"op":"Block","x":0,"y":0,"size":3},{"op":"IsInter","a":true},{"op":"RefFrames","a":[1,8]},{"op":"Coeffs","plane":0,"x":0,"y":0,"tx_type":0,"a":[3,-1,0,2,0,1]},{"op":"Coeffs","plane":0,"x":0,"y":0,"tx_type":9,"a":[3,-1,0,2,0,1]}]]}
0
1200321230e000000003640000020085d6422462a898
tile 0 7 53

{"seq":{"chroma_sampling":3,"still_picture":false,"reduced_still_picture_hdr":false},"frame":{"width":16,"height":16,"frame_type":1,"intra_only":false,"force_integer_mv":0,"refresh_frame_flags":0,"use_reduced_tx_set":true},"tiles":[[{"op":"Block","x":0,"y":0,"size":6},{"op":"IsInter","a":true},{"op":"RefFrames","a":[1,8]},{"op":"Coeffs","plane":0,"x":0,"y":0,"tx_type":0,"a":[3,-1,0,2,0,1]},{"op":"Coeffs","plane":0,"x":0,"y":0,"tx_type":9,"a":[3,-1,0,2,0,1]}]]}
0
1200321230e0000000036400000200856ba9a65b568c
tile 0 7 54

{"seq":{"chroma_sampling":3,"still_picture":false,"reduced_still_picture_hdr":false},"frame":{"width":16,"height":16,"frame_type":1,"intra_only":false,"force_integer_mv":0,"refresh_frame_flags":0},"tiles":[[{"op":"Block","x":0,"y":0,"size":6},{"op":"IsInter","a":true},{"op":"RefFrames","a":[1,8]},{"op":"Coeffs","plane":0,"x":0,"y":0,"tx_type":12,"a":[3,-1,0,2,0,1]}]]}
6
refused tile 0 item 3 r85

{"seq":{"chroma_sampling":3,"still_picture":false,"reduced_still_picture_hdr":false},"frame":{"width":16,"height":16,"frame_type":1,"intra_only":false,"force_integer_mv":0,"refresh_frame_flags":0},"tiles":[[{"op":"Block","x":0,"y":0,"size":6},{"op":"IsInter","a":true},{"op":"RefFrames","a":[1,8]},{"op":"Coeffs","plane":0,"x":0,"y":0,"tx_type":15,"a":[3,-1,0,2,0,1]}]]}
6
refused tile 0 item 3 r85

{"seq":{"chroma_sampling":3,"still_picture":false,"reduced_still_picture_hdr":false},"frame":{"width":32,"height":32,"frame_type":1,"intra_only":false,"force_integer_mv":0,"refresh_frame_flags":0},"tiles":[[{"op":"Block","x":0,"y":0,"size":9},{"op":"IsInter","a":true},{"op":"RefFrames","a":[1,8]},{"op":"Coeffs","plane":0,"x":0,"y":0,"tx_type":1,"a":[3,-1,0,2,0,1]}]]}
6
refused tile 0 item 3 r85

{"seq":{"chroma_sampling":3,"still_picture":false,"reduced_still_picture_hdr":false},"frame":{"width":64,"height":64,"frame_type":1,"intra_only":false,"force_integer_mv":0,"refresh_frame_flags":0},"tiles":[[{"op":"Block","x":0,"y":0,"size":12},{"op":"IsInter","a":true},{"op":"RefFrames","a":[1,8]},{"op":"Coeffs","plane":0,"x":0,"y":0,"tx_type":9,"a":[3,-1,0,2,0,1]}]]}
6
refused tile 0 item 3 r85

{"seq":{"chroma_sampling":3,"still_picture":false,"reduced_still_picture_hdr":false},"frame":{"width":64,"height":64,"frame_type":1,"intra_only":false,"force_integer_mv":0,"refresh_frame_flags":0},"tiles":[[{"op":"Block","x":0,"y":0,"size":10},{"op":"IsInter","a":true},{"op":"RefFrames","a":[1,8]},{"op":"Coeffs","plane":0,"x":0,"y":0,"tx_type":9,"a":[3,-1,0,2,0,1]}]]}
6
refused tile 0 item 3 r85

{"seq":{"chroma_sampling":3,"still_picture":false,"reduced_still_picture_hdr":false},"frame":{"width":8,"height":8,"frame_type":1,"intra_only":false,"force_integer_mv":0,"refresh_frame_flags":0,"use_reduced_tx_set":true},"tiles":[[{"op":"Block","x":0,"y":0,"size":3},{"op":"IsInter","a":true},{"op":"RefFrames","a":[1,8]},{"op":"Coeffs","plane":0,"x":0,"y":0,"tx_type":1,"a":[3,-1,0,2,0,1]}]]}
6
refused tile 0 item 3 r85

{"seq":{"chroma_sampling":3,"still_picture":false,"reduced_still_picture_hdr":false},"frame":{"width":32,"height":32,"frame_type":1,"intra_only":false,"force_integer_mv":0,"refresh_frame_flags":0,"use_reduced_tx_set":true},"tiles":[[{"op":"Block","x":0,"y":0,"size":9},{"op":"IsInter","a":true},{"op":"RefFrames","a":[1,8]},{"op":"Coeffs","plane":0,"x":0,"y":0,"tx_type":10,"a":[3,-1,0,2,0,1]}]]}
6
refused tile 0 item 3 r85

{"seq":{"chroma_sampling":3,"still_picture":false,"reduced_still_picture_hdr":false},"frame":{"width":8,"height":8,"frame_type":1,"intra_only":false,"force_integer_mv":0,"refresh_frame_flags":0},"tiles":[[{"op":"Block","x":0,"y":0,"size":3},{"op":"IsInter","a":true},{"op":"RefFrames","a":[1,8]},{"op":"Coeffs","plane":0,"x":0,"y":0,"tx_type":9,"a":[]}]]}
6
refused tile 0 item 3 r85

{"seq":{"chroma_sampling":3,"still_picture":false,"reduced_still_picture_hdr":false},"frame":{"width":8,"height":8,"frame_type":1,"intra_only":false,"force_integer_mv":0,"refresh_frame_flags":0},"tiles":[[{"op":"Block","x":0,"y":0,"size":3},{"op":"IsInter","a":true},{"op":"RefFrames","a":[1,8]},{"op":"Skip","a":true},{"op":"Coeffs","plane":0,"x":0,"y":0,"tx_type":0,"a":[1]}]]}
6
refused tile 0 item 4 r83

{"seq":{"chroma_sampling":3,"still_picture":false,"reduced_still_picture_hdr":false},"frame":{"width":8,"height":8,"frame_type":1,"intra_only":false,"force_integer_mv":0,"refresh_frame_flags":0},"tiles":[[{"op":"Block","x":0,"y":0,"size":3},{"op":"IsInter","a":true},{"op":"RefFrames","a":[1,8]},{"op":"Coeffs","plane":9223372036854775807,"x":0,"y":0,"tx_type":0,"a":[1]}]]}
6
refused tile 0 item 3 r83

{"seq":{"chroma_sampling":3,"still_picture":false,"reduced_still_picture_hdr":false},"frame":{"width":8,"height":8,"frame_type":1,"intra_only":false,"force_integer_mv":0,"refresh_frame_flags":0},"tiles":[[{"op":"Block","x":0,"y":0,"size":3},{"op":"IsInter","a":true},{"op":"RefFrames","a":[1,8]},{"op":"Coeffs","plane":0,"x":9223372036854775807,"y":0,"tx_type":0,"a":[1]}]]}
6
refused tile 0 item 3 r60

{"seq":{"chroma_sampling":3,"still_picture":false,"reduced_still_picture_hdr":false},"frame":{"width":8,"height":8,"frame_type":1,"intra_only":false,"force_integer_mv":0,"refresh_frame_flags":0},"tiles":[[{"op":"Block","x":0,"y":0,"size":3},{"op":"IsInter","a":true},{"op":"RefFrames","a":[1,8]},{"op":"Coeffs","plane":0,"x":0,"y":9223372036854775807,"tx_type":0,"a":[1]}]]}
6
refused tile 0 item 3 r60

{"seq":{"chroma_sampling":3,"still_picture":false,"reduced_still_picture_hdr":false},"frame":{"width":8,"height":8,"frame_type":1,"intra_only":false,"force_integer_mv":0,"refresh_frame_flags":0,"tx_mode_select":true},"tiles":[[{"op":"Block","x":0,"y":0,"size":3},{"op":"IsInter","a":true},{"op":"RefFrames","a":[1,8]},{"op":"TxInter","a":true},{"op":"Coeffs","plane":0,"x":0,"y":0,"tx_type":3,"a":[1]},{"op":"Coeffs","plane":0,"x":1,"y":0,"tx_type":12,"a":[-1,2]},{"op":"Coeffs","plane":0,"x":0,"y":1,"tx_type":15,"a":[0,0,7]},{"op":"Coeffs","plane":0,"x":1,"y":1,"tx_type":0,"a":[]}]]}
0
1200321230e00000000364000008008af8789ec9d880
tile 0 7 49

{"seq":{"chroma_sampling":3,"still_picture":false,"reduced_still_picture_hdr":false},"frame":{"width":64,"height":64,"frame_type":1,"intra_only":false,"force_integer_mv":0,"refresh_frame_flags":0},"tiles":[[{"op":"Block","x":0,"y":0,"size":20},{"op":"IsInter","a":true},{"op":"RefFrames","a":[1,8]},{"op":"Coeffs","plane":0,"x":0,"y":0,"tx_type":0,"a":[2,-1,0,0,0,0,0,0,0,0,0,0,0,0,0,0,0,0,0,0,0,0,0,0,0,0,0,0,0,0,0,0,0,0,0,0,0,0,0,0,0,0,0,0,0,0,0,0,0,0,0,0,0,0,0,0,0,0,0,0,0,0,0,0,0,0,0,0,0,0,0,0,0,0,0,0,0,0,0,0,0,0,0,0,0,0,0,0,0,0,0,0,0,0,0,0,0,0,0,0,0,0,0,0,0,0,0,0,0,0,0,0,0,0,0,0,0,0,0,0,0,0,0,0,0,0,0,0,0,0,0,0,0,0,0,0,0,0,0,0,0,0,0,0,0,0,0,0,0,0,0,0,0,0,0,0,0,0,0,0,0,0,0,0,0,0,0,0,0,0,0,0,0,0,0,0,0,0,0,0,0,0,0,0,0,0,0,0,0,0,0,0,0,0,0,0,0,0,0,0,0,0,0,0,0,0,0,0,0,0,0,0,0,0,0,0,0,0,0,0,0,0,0,0,0,0,0,0,0,0,0,0,0,0,0,0,0,0,0,0,0,0,0,0,0,0,0,0,0,0,0,0,0,0,0,0,0,0,0,0,0,0,0,0,0,0,0,0,0,0,0,0,0,0,0,0,0,0,0,0,0,0,0,0,0,0,0,0,0,0,0,0,0,0,0,0,0,0,0,0,0,0,0,0,0,0,0,0,0,0,0,0,0,0,0,0,0,0,0,0,0,0,0,0,0,0,0,0,0,0,0,0,0,0,0,0,0,0,0,0,0,0,0,0,0,0,0,0,0,0,0,0,0,0,0,0,0,0,0,0,0,0,0,0,0,0,0,0,0,0,0,0,0,0,0,0,0,0,0,0,0,0,0,0,0,0,0,0,0,0,0,0,0,0,0,0,0,0,0,0,0,0,0,0,0,0,0,0,0,0,0,0,0,0,0,0,0,0,0,0,0,0,0,0,0,0,0,0,0,0,0,0,0,0,0,0,0,0,0,0,0,0,0,0,0,0,0,0,0,0,0,0,0,0,0,0,0,0,0,0,0,0,0,0,0,0,0,0,0,0,0,0,0,0,0,0,0,0,0,0,0,0,0,0,0,0,0,0,0,0,0,0,0,0,0,0,0,0,0,0,0,0,3,0,0,0,0,0,0,0,0,-1]}]]}
0
1200322430e0000000036400000000873f83f8942600000000000000000000000000000000009560
tile 0 25 195

{"seq":{"chroma_sampling":3,"still_picture":false,"reduced_still_picture_hdr":false},"frame":{"width":64,"height":64,"frame_type":1,"intra_only":false,"force_integer_mv":0,"refresh_frame_flags":0,"tx_mode_select":true},"tiles":[[{"op":"Block","x":0,"y":0,"size":21},{"op":"IsInter","a":true},{"op":"RefFrames","a":[1,8]},{"op":"TxInter","a":true},{"op":"Coeffs","plane":0,"x":0,"y":0,"tx_type":0,"a":[5,-3,1]},{"op":"Coeffs","plane":0,"x":8,"y":0,"tx_type":9,"a":[1]}]]}
0
1200321030e0000000036400000800889da315e0
tile 0 5 35

{"seq":{"chroma_sampling":0,"still_picture":false,"reduced_still_picture_hdr":false},"frame":{"width":16,"height":16,"frame_type":1,"intra_only":false,"force_integer_mv":0,"refresh_frame_flags":0},"tiles":[[{"op":"Block","x":0,"y":0,"size":6},{"op":"IsInter","a":true},{"op":"RefFrames","a":[1,8]},{"op":"MvRefs","has_tr":false},{"op":"InterMode","a":14},{"op":"Skip","a":false},{"op":"Coeffs","plane":0,"x":0,"y":0,"tx_type":10,"a":[4,-4]},{"op":"Coeffs","plane":1,"x":0,"y":0,"tx_type":10,"a":[1,1]},{"op":"Coeffs","plane":2,"x":0,"y":0,"tx_type":11,"a":[0,-2]}]]}
0
1200321230e0000000036400000000008c058be72770
tile 0 6 44

{"seq":{"chroma_sampling":2,"still_picture":false,"reduced_still_picture_hdr":false,"profile":1},"frame":{"width":64,"height":64,"frame_type":1,"intra_only":false,"force_integer_mv":0,"refresh_frame_flags":0},"tiles":[[{"op":"Block","x":0,"y":0,"size":12},{"op":"IsInter","a":true},{"op":"RefFrames","a":[1,8]},{"op":"MvRefs","has_tr":false},{"op":"InterMode","a":14},{"op":"Coeffs","plane":0,"x":0,"y":0,"tx_type":0,"a":[4,-4]},{"op":"Coeffs","plane":1,"x":0,"y":0,"tx_type":9,"a":[1,1]},{"op":"Coeffs","plane":2,"x":0,"y":0,"tx_type":0,"a":[]}]]}
0
1200321130e0000000036400000000008c234e8740
tile 0 5 34

{"seq":{"chroma_sampling":0,"still_picture":false,"reduced_still_picture_hdr":false},"frame":{"width":16,"height":8,"frame_type":1,"intra_only":false,"force_integer_mv":0,"refresh_frame_flags":0},"tiles":[[{"op":"Block","x":0,"y":0,"size":3},{"op":"IsInter","a":false},{"op":"IntraMode","a":1},{"op":"Coeffs","plane":0,"x":0,"y":0,"tx_type":2,"a":[1,-1]},{"op":"Coeffs","plane":1,"x":0,"y":0,"tx_type":1,"a":[1]},{"op":"Block","x":2,"y":0,"size":3},{"op":"IsInter","a":true},{"op":"RefFrames","a":[1,8]},{"op":"MvRefs","has_tr":false},{"op":"InterMode","a":14},{"op":"Coeffs","plane":0,"x":2,"y":0,"tx_type":14,"a":[1,-1]},{"op":"Coeffs","plane":1,"x":2,"y":0,"tx_type":5,"a":[-1]}]]}
0
1200321330e0000000036400000000000ea0934967f340
tile 0 7 50

{"seq":{"chroma_sampling":0,"still_picture":false,"reduced_still_picture_hdr":false,"enable_filter_intra":true},"frame":{"width":8,"height":8,"frame_type":1,"intra_only":false,"force_integer_mv":0,"refresh_frame_flags":0,"allow_screen_content_tools":1},"tiles":[[{"op":"Block","x":0,"y":0,"size":3},{"op":"IsInter","a":true},{"op":"RefFrames","a":[1,8]},{"op":"IntraMode","a":0}]]}
6
refused tile 0 item 3 r66

{"seq":{"chroma_sampling":0,"still_picture":false,"reduced_still_picture_hdr":false,"enable_filter_intra":true},"frame":{"width":8,"height":8,"frame_type":1,"intra_only":false,"force_integer_mv":0,"refresh_frame_flags":0,"allow_screen_content_tools":1},"tiles":[[{"op":"Block","x":0,"y":0,"size":3},{"op":"IsInter","a":true},{"op":"RefFrames","a":[1,8]},{"op":"UvMode","a":0}]]}
6
refused tile 0 item 3 r66

{"seq":{"chroma_sampling":0,"still_picture":false,"reduced_still_picture_hdr":false,"enable_filter_intra":true},"frame":{"width":8,"height":8,"frame_type":1,"intra_only":false,"force_integer_mv":0,"refresh_frame_flags":0,"allow_screen_content_tools":1},"tiles":[[{"op":"Block","x":0,"y":0,"size":3},{"op":"IsInter","a":true},{"op":"RefFrames","a":[1,8]},{"op":"AngleDelta","chroma":false,"a":0}]]}
6
refused tile 0 item 3 r66

{"seq":{"chroma_sampling":0,"still_picture":false,"reduced_still_picture_hdr":false,"enable_filter_intra":true},"frame":{"width":8,"height":8,"frame_type":1,"intra_only":false,"force_integer_mv":0,"refresh_frame_flags":0,"allow_screen_content_tools":1},"tiles":[[{"op":"Block","x":0,"y":0,"size":3},{"op":"IsInter","a":true},{"op":"RefFrames","a":[1,8]},{"op":"CflAlphas","a":[1,0]}]]}
6
refused tile 0 item 3 r66

{"seq":{"chroma_sampling":0,"still_picture":false,"reduced_still_picture_hdr":false,"enable_filter_intra":true},"frame":{"width":8,"height":8,"frame_type":1,"intra_only":false,"force_integer_mv":0,"refresh_frame_flags":0,"allow_screen_content_tools":1},"tiles":[[{"op":"Block","x":0,"y":0,"size":3},{"op":"IsInter","a":true},{"op":"RefFrames","a":[1,8]},{"op":"FilterIntra","a":false}]]}
6
refused tile 0 item 3 r66

{"seq":{"chroma_sampling":0,"still_picture":false,"reduced_still_picture_hdr":false,"enable_filter_intra":true},"frame":{"width":8,"height":8,"frame_type":1,"intra_only":false,"force_integer_mv":0,"refresh_frame_flags":0,"allow_screen_content_tools":1},"tiles":[[{"op":"Block","x":0,"y":0,"size":3},{"op":"IsInter","a":true},{"op":"RefFrames","a":[1,8]},{"op":"Palette","a":false}]]}
6
refused tile 0 item 3 r66

{"seq":{"chroma_sampling":3,"still_picture":false,"reduced_still_picture_hdr":false},"frame":{"width":8,"height":8,"frame_type":1,"intra_only":false,"force_integer_mv":0,"refresh_frame_flags":0},"tiles":[[{"op":"Block","x":0,"y":0,"size":3},{"op":"IsInter","a":true},{"op":"RefFrames","a":[1,8]},{"op":"IntraModeKf","a":0}]]}
6
refused tile 0 item 3 r65

{"seq":{"chroma_sampling":0,"still_picture":false,"reduced_still_picture_hdr":false},"frame":{"width":16,"height":16,"frame_type":1,"intra_only":false,"force_integer_mv":0,"refresh_frame_flags":0,"tx_mode_select":true,"reference_mode":2,"allow_high_precision_mv":true},"tiles":[[{"op":"RowStart"},{"op":"Partition","x":0,"y":0,"size":6,"a":3},{"op":"Partition","x":0,"y":0,"size":3,"a":0},{"op":"Block","x":0,"y":0,"size":3},{"op":"Skip","a":false},{"op":"IsInter","a":true},{"op":"RefFrames","a":[1,8]},{"op":"MvRefs","has_tr":true},{"op":"InterMode","a":19},{"op":"Mv","list":0,"a":[-7,9]},{"op":"TxInter","a":false},{"op":"Coeffs","plane":0,"x":0,"y":0,"tx_type":9,"a":[2,-2]},{"op":"Coeffs","plane":1,"x":0,"y":0,"tx_type":9,"a":[1]},{"op":"Coeffs","plane":2,"x":0,"y":0,"tx_type":9,"a":[-1]},{"op":"Partition","x":2,"y":0,"size":3,"a":0},{"op":"Block","x":2,"y":0,"size":3},{"op":"Skip","a":false},{"op":"IsInter","a":false},{"op":"IntraMode","a":5},{"op":"AngleDelta","chroma":false,"a":1},{"op":"UvMode","a":13},{"op":"CflAlphas","a":[3,-7]},{"op":"TxIntra","a":0},{"op":"Coeffs","plane":0,"x":2,"y":0,"tx_type":0,"a":[1]},{"op":"Coeffs","plane":0,"x":3,"y":0,"tx_type":0,"a":[1]},{"op":"Coeffs","plane":0,"x":2,"y":1,"tx_type":0,"a":[-1]},{"op":"Coeffs","plane":0,"x":3,"y":1,"tx_type":0,"a":[1]},{"op":"Coeffs","plane":1,"x":2,"y":0,"tx_type":0,"a":[1]},{"op":"Coeffs","plane":2,"x":2,"y":0,"tx_type":0,"a":[]},{"op":"Partition","x":0,"y":2,"size":3,"a":0},{"op":"Block","x":0,"y":2,"size":3},{"op":"Skip","a":true},{"op":"IsInter","a":true},{"op":"RefFrames","a":[2,7]},{"op":"MvRefs","has_tr":false},{"op":"CompoundMode","a":24},{"op":"Mv","list":1,"a":[5,-3]},{"op":"TxNote"},{"op":"Partition","x":2,"y":2,"size":3,"a":0},{"op":"Block","x":2,"y":2,"size":3},{"op":"Skip","a":false},{"op":"IsInter","a":true},{"op":"RefFrames","a":[1,8]},{"op":"MvRefs","has_tr":false},{"op":"InterMode","a":19},{"op":"Mv","list":0,"a":[-7,12]},{"op":"TxInter","a":false},{"op":"Coeffs","plane":0,"x":2,"y":2,"tx_type":9,"a":[2,-2]},{"op":"Coeffs","plane":1,"x":2,"y":2,"tx_type":9,"a":[1]},{"op":"Coeffs","plane":2,"x":2,"y":2,"tx_type":9,"a":[-1]}]]}
0
1200322530e0000000436400000180004e6f94904b0a48d4035631ebf704570fe3cd4078152706f9c0
tile 0 25 194

{"seq":{"chroma_sampling":0,"still_picture":false,"reduced_still_picture_hdr":false},"frame":{"width":16,"height":16,"frame_type":3,"intra_only":false,"force_integer_mv":0,"refresh_frame_flags":255,"tx_mode_select":true,"reference_mode":2,"allow_high_precision_mv":true,"error_resilient":true,"frame_size_override_flag":true},"tiles":[[{"op":"RowStart"},{"op":"Partition","x":0,"y":0,"size":6,"a":3},{"op":"Partition","x":0,"y":0,"size":3,"a":0},{"op":"Block","x":0,"y":0,"size":3},{"op":"Skip","a":false},{"op":"IsInter","a":true},{"op":"RefFrames","a":[1,8]},{"op":"MvRefs","has_tr":true},{"op":"InterMode","a":19},{"op":"Mv","list":0,"a":[-7,9]},{"op":"TxInter","a":false},{"op":"Coeffs","plane":0,"x":0,"y":0,"tx_type":9,"a":[2,-2]},{"op":"Coeffs","plane":1,"x":0,"y":0,"tx_type":9,"a":[1]},{"op":"Coeffs","plane":2,"x":0,"y":0,"tx_type":9,"a":[-1]},{"op":"Partition","x":2,"y":0,"size":3,"a":0},{"op":"Block","x":2,"y":0,"size":3},{"op":"Skip","a":false},{"op":"IsInter","a":false},{"op":"IntraMode","a":5},{"op":"AngleDelta","chroma":false,"a":1},{"op":"UvMode","a":13},{"op":"CflAlphas","a":[3,-7]},{"op":"TxIntra","a":0},{"op":"Coeffs","plane":0,"x":2,"y":0,"tx_type":0,"a":[1]},{"op":"Coeffs","plane":0,"x":3,"y":0,"tx_type":0,"a":[1]},{"op":"Coeffs","plane":0,"x":2,"y":1,"tx_type":0,"a":[-1]},{"op":"Coeffs","plane":0,"x":3,"y":1,"tx_type":0,"a":[1]},{"op":"Coeffs","plane":1,"x":2,"y":0,"tx_type":0,"a":[1]},{"op":"Coeffs","plane":2,"x":2,"y":0,"tx_type":0,"a":[]},{"op":"Partition","x":0,"y":2,"size":3,"a":0},{"op":"Block","x":0,"y":2,"size":3},{"op":"Skip","a":true},{"op":"IsInter","a":true},{"op":"RefFrames","a":[2,7]},{"op":"MvRefs","has_tr":false},{"op":"CompoundMode","a":24},{"op":"Mv","list":1,"a":[5,-3]},{"op":"TxNote"},{"op":"Partition","x":2,"y":2,"size":3,"a":0},{"op":"Block","x":2,"y":2,"size":3},{"op":"Skip","a":false},{"op":"IsInter","a":true},{"op":"RefFrames","a":[1,8]},{"op":"MvRefs","has_tr":false},{"op":"InterMode","a":19},{"op":"Mv","list":0,"a":[-7,12]},{"op":"TxInter","a":false},{"op":"Coeffs","plane":0,"x":2,"y":2,"tx_type":9,"a":[2,-2]},{"op":"Coeffs","plane":1,"x":2,"y":2,"tx_type":9,"a":[1]},{"op":"Coeffs","plane":2,"x":2,"y":2,"tx_type":9,"a":[-1]}]]}
0
120032247000001fe86c80000030004e6f94904b0a48d4035631ebf704570fe3cd4078152706f9c0
tile 0 25 194"#;
