// A unit for each of the 26 kinds of step, with what it gives. The answers are those of rav1e's own calls.

/// A row is a kind's name, and then what a row of `ROWS` has, of a unit with a step of that kind.
pub const EVERY_KIND: &str = r#"RowStart
{"seq":{"chroma_sampling":3},"frame":{"width":8,"height":16},"tiles":[[{"op":"RowStart"},{"op":"Block","x":0,"y":0,"size":3},{"op":"Skip","a":true},{"op":"RowStart"},{"op":"Block","x":0,"y":2,"size":3},{"op":"Skip","a":true}]]}
0
12000a051808ff808832061640000000e0
tile 0 1 3

Block
{"seq":{"chroma_sampling":3},"frame":{"width":8,"height":8},"tiles":[[{"op":"Block","x":0,"y":0,"size":0},{"op":"Skip","a":true},{"op":"Block","x":1,"y":0,"size":0},{"op":"Skip","a":false}]]}
0
12000a051808bf011032061640000000a0
tile 0 1 3

TxNote
{"seq":{"chroma_sampling":3,"still_picture":false,"reduced_still_picture_hdr":false},"frame":{"width":16,"height":8,"frame_type":1,"intra_only":false,"force_integer_mv":0,"refresh_frame_flags":0,"tx_mode_select":true},"tiles":[[{"op":"Block","x":0,"y":0,"size":3},{"op":"IsInter","a":true},{"op":"RefFrames","a":[1,8]},{"op":"Skip","a":true},{"op":"TxNote"},{"op":"Block","x":2,"y":0,"size":3},{"op":"TxIntra","a":0}]]}
0
1200320c30e00000000364000008008e
tile 0 1 7

MvRefs
{"seq":{"chroma_sampling":3,"still_picture":false,"reduced_still_picture_hdr":false},"frame":{"width":16,"height":16,"frame_type":1,"intra_only":false,"force_integer_mv":0,"refresh_frame_flags":0},"tiles":[[{"op":"Block","x":0,"y":0,"size":3},{"op":"IsInter","a":true},{"op":"RefFrames","a":[1,8]},{"op":"MvRefs","has_tr":false},{"op":"InterMode","a":19},{"op":"Mv","list":0,"a":[8,-16]},{"op":"Block","x":2,"y":0,"size":3},{"op":"IsInter","a":true},{"op":"RefFrames","a":[1,8]},{"op":"MvRefs","has_tr":false},{"op":"InterMode","a":19},{"op":"Mv","list":0,"a":[24,0]},{"op":"Block","x":0,"y":2,"size":3},{"op":"IsInter","a":true},{"op":"RefFrames","a":[1,8]},{"op":"MvRefs","has_tr":false},{"op":"InterMode","a":19},{"op":"Mv","list":0,"a":[-40,6]},{"op":"Block","x":2,"y":2,"size":3},{"op":"IsInter","a":true},{"op":"RefFrames","a":[1,8]},{"op":"MvRefs","has_tr":true},{"op":"InterMode","a":14}]]}
0
1200321530e000000003640000000086029b333a55a0995980
tile 0 10 73

Partition
{"seq":{"chroma_sampling":3},"frame":{"width":16,"height":16},"tiles":[[{"op":"Partition","x":0,"y":0,"size":6,"a":3},{"op":"Partition","x":0,"y":0,"size":3,"a":1}]]}
0
12000a05180cffc0443206164000000056
tile 0 1 7

Skip
{"seq":{"chroma_sampling":3},"frame":{"width":8,"height":8},"tiles":[[{"op":"Block","x":0,"y":0,"size":3},{"op":"Skip","a":true}]]}
0
12000a051808bf011032061640000000c0
tile 0 1 2

Segment
{"seq":{"chroma_sampling":3},"frame":{"width":8,"height":8,"segmentation":{"enabled":true,"update_map":true,"update_data":true,"features":[[false,false,false,false,false,false,false,false],[true,false,false,false,false,false,false,false],[false,false,false,false,false,false,false,false],[false,false,false,false,false,false,false,false],[false,false,false,false,false,false,false,false],[false,false,false,false,false,false,false,false],[false,false,false,false,false,false,false,false],[false,false,false,false,false,false,false,false]],"values":[[0,0,0,0,0,0,0,0],[5,0,0,0,0,0,0,0],[0,0,0,0,0,0,0,0],[0,0,0,0,0,0,0,0],[0,0,0,0,0,0,0,0],[0,0,0,0,0,0,0,0],[0,0,0,0,0,0,0,0],[0,0,0,0,0,0,0,0]],"last_active_segid":1}},"tiles":[[{"op":"Block","x":0,"y":0,"size":3},{"op":"Segment","a":1}]]}
0
12000a051808bf0110320f164201028000000000000000000030
tile 0 1 4

Cdef
{"seq":{"chroma_sampling":3,"enable_cdef":true},"frame":{"width":8,"height":8,"cdef_bits":3},"tiles":[[{"op":"Block","x":0,"y":0,"size":3},{"op":"Cdef","a":5}]]}
0
12000a051808bf0910320c1640000030000000000000b0
tile 0 1 4

DeltaLf
{"seq":{"chroma_sampling":0},"frame":{"width":8,"height":8,"deblock":{"block_deltas_enabled":true,"block_delta_multi":true}},"tiles":[[{"op":"Block","x":0,"y":0,"size":3},{"op":"DeltaLf","a":[-9,3,0,63]}]]}
0
12000a051808bf000a32091640000000d0dd465c
tile 0 4 30

IsInter
{"seq":{"chroma_sampling":3,"still_picture":false,"reduced_still_picture_hdr":false},"frame":{"width":16,"height":8,"frame_type":1,"intra_only":false,"force_integer_mv":0,"refresh_frame_flags":0},"tiles":[[{"op":"Block","x":0,"y":0,"size":3},{"op":"IsInter","a":true},{"op":"Block","x":2,"y":0,"size":3},{"op":"IsInter","a":false}]]}
0
1200320c30e000000003640000000090
tile 0 1 4

IntraModeKf
{"seq":{"chroma_sampling":3},"frame":{"width":8,"height":8},"tiles":[[{"op":"Block","x":0,"y":0,"size":3},{"op":"IntraModeKf","a":9}]]}
0
12000a051808bf011032061640000000b8
tile 0 1 5

IntraMode
{"seq":{"chroma_sampling":3,"still_picture":false,"reduced_still_picture_hdr":false},"frame":{"width":8,"height":8,"frame_type":1,"intra_only":false,"force_integer_mv":0,"refresh_frame_flags":0},"tiles":[[{"op":"Block","x":0,"y":0,"size":3},{"op":"IntraMode","a":9}]]}
0
1200320c30e0000000036400000000b8
tile 0 1 5

UvMode
{"seq":{"chroma_sampling":0},"frame":{"width":8,"height":8},"tiles":[[{"op":"Block","x":0,"y":0,"size":3},{"op":"UvMode","a":13}]]}
0
12000a051808bf000a32061640000000f8
tile 0 1 5

AngleDelta
{"seq":{"chroma_sampling":3},"frame":{"width":8,"height":8},"tiles":[[{"op":"Block","x":0,"y":0,"size":3},{"op":"IntraModeKf","a":8},{"op":"AngleDelta","chroma":false,"a":-3}]]}
0
12000a051808bf0110320616400000009f
tile 0 1 8

CflAlphas
{"seq":{"chroma_sampling":0},"frame":{"width":8,"height":8},"tiles":[[{"op":"Block","x":0,"y":0,"size":3},{"op":"UvMode","a":13},{"op":"CflAlphas","a":[-16,5]}]]}
0
12000a051808bf000a32071640000000f925
tile 0 2 16

FilterIntra
{"seq":{"chroma_sampling":3,"enable_filter_intra":true},"frame":{"width":8,"height":8},"tiles":[[{"op":"Block","x":0,"y":0,"size":3},{"op":"FilterIntra","a":false}]]}
0
12000a051808bf41103206164000000020
tile 0 1 3

Palette
{"seq":{"chroma_sampling":0},"frame":{"width":8,"height":8,"allow_screen_content_tools":1},"tiles":[[{"op":"Block","x":0,"y":0,"size":3},{"op":"UvMode","a":0},{"op":"Palette","a":false}]]}
0
12000a051808bf000a3206659000000002
tile 0 1 7

TxIntra
{"seq":{"chroma_sampling":3},"frame":{"width":16,"height":16,"tx_mode_select":true},"tiles":[[{"op":"Block","x":0,"y":0,"size":6},{"op":"TxIntra","a":0}]]}
0
12000a05180cffc04432061640000080e0
tile 0 1 3

TxInter
{"seq":{"chroma_sampling":3,"still_picture":false,"reduced_still_picture_hdr":false},"frame":{"width":16,"height":16,"frame_type":1,"intra_only":false,"force_integer_mv":0,"refresh_frame_flags":0,"tx_mode_select":true},"tiles":[[{"op":"Block","x":0,"y":0,"size":6},{"op":"IsInter","a":true},{"op":"RefFrames","a":[1,8]},{"op":"TxInter","a":true}]]}
0
1200320d30e00000000364000008008840
tile 0 2 10

RefFrames
{"seq":{"chroma_sampling":3,"still_picture":false,"reduced_still_picture_hdr":false},"frame":{"width":8,"height":8,"frame_type":1,"intra_only":false,"force_integer_mv":0,"refresh_frame_flags":0,"reference_mode":2},"tiles":[[{"op":"Block","x":0,"y":0,"size":3},{"op":"IsInter","a":true},{"op":"RefFrames","a":[4,6]}]]}
0
1200320c30e0000000036400000400fb
tile 0 1 8

InterMode
{"seq":{"chroma_sampling":3,"still_picture":false,"reduced_still_picture_hdr":false},"frame":{"width":8,"height":8,"frame_type":1,"intra_only":false,"force_integer_mv":0,"refresh_frame_flags":0},"tiles":[[{"op":"Block","x":0,"y":0,"size":3},{"op":"IsInter","a":true},{"op":"RefFrames","a":[1,8]},{"op":"MvRefs","has_tr":false},{"op":"InterMode","a":15}]]}
0
1200320c30e00000000364000000008f
tile 0 1 8

CompoundMode
{"seq":{"chroma_sampling":3,"still_picture":false,"reduced_still_picture_hdr":false},"frame":{"width":8,"height":8,"frame_type":1,"intra_only":false,"force_integer_mv":0,"refresh_frame_flags":0,"reference_mode":2},"tiles":[[{"op":"Block","x":0,"y":0,"size":3},{"op":"IsInter","a":true},{"op":"RefFrames","a":[1,7]},{"op":"MvRefs","has_tr":false},{"op":"CompoundMode","a":29}]]}
0
1200320d30e0000000036400000400e6c0
tile 0 2 10

Drl
{"seq":{"chroma_sampling":3,"still_picture":false,"reduced_still_picture_hdr":false},"frame":{"width":16,"height":16,"frame_type":1,"intra_only":false,"force_integer_mv":0,"refresh_frame_flags":0},"tiles":[[{"op":"Block","x":0,"y":0,"size":3},{"op":"IsInter","a":true},{"op":"RefFrames","a":[1,8]},{"op":"MvRefs","has_tr":false},{"op":"InterMode","a":19},{"op":"Mv","list":0,"a":[8,-16]},{"op":"Block","x":2,"y":0,"size":3},{"op":"IsInter","a":true},{"op":"RefFrames","a":[1,8]},{"op":"MvRefs","has_tr":false},{"op":"InterMode","a":19},{"op":"Mv","list":0,"a":[24,0]},{"op":"Block","x":0,"y":2,"size":3},{"op":"IsInter","a":true},{"op":"RefFrames","a":[1,8]},{"op":"MvRefs","has_tr":false},{"op":"InterMode","a":19},{"op":"Mv","list":0,"a":[-40,6]},{"op":"Block","x":2,"y":2,"size":3},{"op":"IsInter","a":true},{"op":"RefFrames","a":[1,8]},{"op":"MvRefs","has_tr":false},{"op":"InterMode","a":19},{"op":"Drl","idx":0,"a":true},{"op":"Drl","idx":1,"a":false}]]}
0
1200321530e000000003640000000086029b333a55a0995380
tile 0 10 73

Mv
{"seq":{"chroma_sampling":3,"still_picture":false,"reduced_still_picture_hdr":false},"frame":{"width":8,"height":8,"frame_type":1,"intra_only":false,"force_integer_mv":0,"refresh_frame_flags":0},"tiles":[[{"op":"Block","x":0,"y":0,"size":3},{"op":"IsInter","a":true},{"op":"RefFrames","a":[1,8]},{"op":"MvRefs","has_tr":false},{"op":"InterMode","a":19},{"op":"Mv","list":0,"a":[-6,300]}]]}
0
1200320f30e000000003640000000086ff0520
tile 0 4 27

Coeffs
{"seq":{"chroma_sampling":3},"frame":{"width":8,"height":8},"tiles":[[{"op":"Block","x":0,"y":0,"size":3},{"op":"Coeffs","plane":0,"x":0,"y":0,"tx_type":3,"a":[7,0,-2,1]}]]}
0
12000a051808bf0110320816400000005033f9
tile 0 3 24

Lrf
{"seq":{"chroma_sampling":3,"enable_restoration":true},"frame":{"width":8,"height":8,"restoration":[{"lrf_type":1},{},{}]},"tiles":[[{"op":"Lrf","plane":0,"a":{"wiener":[[3,-7,15],[5,-8,20]]}}]]}
0
12000a051808bf05103209164000004055908580
tile 0 4 25"#;
