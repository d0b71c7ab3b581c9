// Units of each kind of step of a key frame's blocks, with the status and the text that they give. Those of status 0 were answered by
// rav1e's own calls; the rules of the refusals are those of the tables.

/// Rows as those of `ROWS`.
pub const KINDS: &str =
    r#"{"seq":{"chroma_sampling":3},"frame":{"width":8,"height":8,"segmentation":{"enabled":true,"update_map":true,"update_data":true}},"tiles":[[{"op":"Block","x":0,"y":0,"size":3},{"op":"Segment","a":0}]]}
0
12000a051808bf0110320e1642000000000000000000000008
tile 0 1 5

{"seq":{"chroma_sampling":3},"frame":{"width":8,"height":8,"segmentation":{"enabled":true,"update_map":true,"update_data":true,"features":[[false,false,false,false,false,false,false,false],[false,false,false,false,false,false,false,false],[false,false,false,false,false,false,false,false],[false,false,false,false,false,false,false,false],[false,false,false,false,false,false,false,false],[false,false,false,false,false,false,false,false],[false,false,false,false,false,false,false,false],[true,false,false,false,false,false,false,false]],"values":[[0,0,0,0,0,0,0,0],[0,0,0,0,0,0,0,0],[0,0,0,0,0,0,0,0],[0,0,0,0,0,0,0,0],[0,0,0,0,0,0,0,0],[0,0,0,0,0,0,0,0],[0,0,0,0,0,0,0,0],[10,0,0,0,0,0,0,0]],"last_active_segid":7}},"tiles":[[{"op":"Block","x":0,"y":0,"size":3},{"op":"Segment","a":7}]]}
0
12000a051808bf0110320f1642000000000000010500000000f0
tile 0 1 4

{"seq":{"chroma_sampling":3},"frame":{"width":8,"height":8,"segmentation":{"enabled":true,"update_map":true,"update_data":true,"features":[[false,false,false,false,false,false,false,false],[false,false,false,false,false,false,false,false],[false,false,false,false,false,false,false,false],[true,false,false,false,false,false,false,false],[false,false,false,false,false,false,false,false],[false,false,false,false,false,false,false,false],[false,false,false,false,false,false,false,false],[false,false,false,false,false,false,false,false]],"values":[[0,0,0,0,0,0,0,0],[0,0,0,0,0,0,0,0],[0,0,0,0,0,0,0,0],[10,0,0,0,0,0,0,0],[0,0,0,0,0,0,0,0],[0,0,0,0,0,0,0,0],[0,0,0,0,0,0,0,0],[0,0,0,0,0,0,0,0]],"last_active_segid":3}},"tiles":[[{"op":"Block","x":0,"y":0,"size":3},{"op":"Segment","a":3}]]}
0
12000a051808bf0110320f164200000105000000000000000070
tile 0 1 4

{"seq":{"chroma_sampling":3},"frame":{"width":8,"height":8,"segmentation":{"enabled":true,"update_map":true,"update_data":true,"features":[[false,false,false,false,false,false,false,false],[false,false,false,false,false,false,false,false],[false,false,false,false,false,false,false,false],[false,false,false,false,false,false,false,false],[false,false,false,false,false,false,false,false],[true,false,false,false,false,false,false,false],[false,false,false,false,false,false,false,false],[false,false,false,false,false,false,false,false]],"values":[[0,0,0,0,0,0,0,0],[0,0,0,0,0,0,0,0],[0,0,0,0,0,0,0,0],[0,0,0,0,0,0,0,0],[0,0,0,0,0,0,0,0],[10,0,0,0,0,0,0,0],[0,0,0,0,0,0,0,0],[0,0,0,0,0,0,0,0]],"last_active_segid":5}},"tiles":[[{"op":"Block","x":0,"y":0,"size":0},{"op":"Segment","a":4},{"op":"Block","x":1,"y":0,"size":0},{"op":"Segment","a":5},{"op":"Block","x":0,"y":1,"size":0},{"op":"Segment","a":4},{"op":"Block","x":1,"y":1,"size":0},{"op":"Segment","a":1}]]}
0
12000a051808bf0110321016420000000001050000000000008404
tile 0 2 14

{"seq":{"chroma_sampling":3},"frame":{"width":8,"height":8,"segmentation":{"enabled":true,"update_map":true,"update_data":true,"features":[[false,false,false,false,false,false,false,false],[false,false,false,false,false,false,false,false],[false,false,false,false,false,false,false,false],[false,false,false,false,false,false,false,false],[false,false,false,false,false,false,false,false],[false,false,false,false,false,false,false,false],[false,false,false,false,false,false,false,false],[true,false,false,false,false,false,false,false]],"values":[[0,0,0,0,0,0,0,0],[0,0,0,0,0,0,0,0],[0,0,0,0,0,0,0,0],[0,0,0,0,0,0,0,0],[0,0,0,0,0,0,0,0],[0,0,0,0,0,0,0,0],[0,0,0,0,0,0,0,0],[10,0,0,0,0,0,0,0]],"last_active_segid":7}},"tiles":[[{"op":"Block","x":0,"y":0,"size":0},{"op":"Segment","a":2},{"op":"Block","x":1,"y":0,"size":0},{"op":"Segment","a":2},{"op":"Block","x":0,"y":1,"size":0},{"op":"Segment","a":2},{"op":"Block","x":1,"y":1,"size":0},{"op":"Segment","a":6}]]}
0
12000a051808bf0110321016420000000000000105000000004048
tile 0 2 13

{"seq":{"chroma_sampling":3},"frame":{"width":8,"height":8,"segmentation":{"enabled":true,"update_map":true,"update_data":true,"features":[[false,false,false,false,false,false,false,false],[false,false,false,false,false,false,false,false],[false,false,false,false,false,false,false,false],[false,false,false,false,false,false,false,false],[false,false,false,false,false,false,false,false],[false,false,false,false,false,false,false,false],[false,false,false,false,false,false,false,false],[true,false,false,false,false,false,false,false]],"values":[[0,0,0,0,0,0,0,0],[0,0,0,0,0,0,0,0],[0,0,0,0,0,0,0,0],[0,0,0,0,0,0,0,0],[0,0,0,0,0,0,0,0],[0,0,0,0,0,0,0,0],[0,0,0,0,0,0,0,0],[10,0,0,0,0,0,0,0]],"last_active_segid":7}},"tiles":[[{"op":"Block","x":0,"y":0,"size":0},{"op":"Segment","a":1},{"op":"Block","x":1,"y":0,"size":0},{"op":"Segment","a":6},{"op":"Block","x":0,"y":1,"size":0},{"op":"Segment","a":3},{"op":"Block","x":1,"y":1,"size":0},{"op":"Segment","a":0}]]}
0
12000a051808bf01103210164200000000000001050000000039e8
tile 0 2 13

{"seq":{"chroma_sampling":3},"frame":{"width":8,"height":8,"segmentation":{"enabled":true,"update_map":true,"update_data":true,"features":[[false,false,false,false,false,false,false,false],[false,false,false,false,false,false,false,false],[false,false,false,false,false,false,false,false],[false,false,false,false,false,false,false,false],[false,false,false,false,false,false,false,false],[false,false,false,false,false,false,false,false],[false,false,false,false,false,false,false,false],[true,false,false,false,false,false,false,false]],"values":[[0,0,0,0,0,0,0,0],[0,0,0,0,0,0,0,0],[0,0,0,0,0,0,0,0],[0,0,0,0,0,0,0,0],[0,0,0,0,0,0,0,0],[0,0,0,0,0,0,0,0],[0,0,0,0,0,0,0,0],[10,0,0,0,0,0,0,0]],"last_active_segid":7}},"tiles":[[{"op":"Block","x":0,"y":0,"size":0},{"op":"Skip","a":true},{"op":"Segment","a":0},{"op":"Block","x":1,"y":0,"size":0},{"op":"Skip","a":false},{"op":"Segment","a":6},{"op":"Block","x":0,"y":1,"size":0},{"op":"Skip","a":true},{"op":"Segment","a":0},{"op":"Block","x":1,"y":1,"size":0},{"op":"Skip","a":true},{"op":"Segment","a":0}]]}
0
12000a051808bf011032101642000000000000010500000000b680
tile 0 2 9

{"seq":{"chroma_sampling":3},"frame":{"width":24,"height":16,"segmentation":{"enabled":true,"update_map":true,"update_data":true,"features":[[false,false,false,false,false,false,false,false],[false,false,false,false,false,false,false,false],[false,false,false,false,false,false,false,false],[false,false,false,false,false,false,false,false],[false,false,false,false,false,false,false,false],[false,false,false,false,false,false,false,false],[true,false,false,false,false,false,false,false],[false,false,false,false,false,false,false,false]],"values":[[0,0,0,0,0,0,0,0],[0,0,0,0,0,0,0,0],[0,0,0,0,0,0,0,0],[0,0,0,0,0,0,0,0],[0,0,0,0,0,0,0,0],[0,0,0,0,0,0,0,0],[10,0,0,0,0,0,0,0],[0,0,0,0,0,0,0,0]],"last_active_segid":6}},"tiles":[[{"op":"Block","x":0,"y":0,"size":9},{"op":"Segment","a":5},{"op":"Block","x":4,"y":2,"size":3},{"op":"Segment","a":4}]]}
0
12000a051810efe022320f1642000000000001050000000000aa
tile 0 1 7

{"seq":{"chroma_sampling":3},"frame":{"width":8,"height":8,"segmentation":{"enabled":true,"update_map":true,"update_data":true,"features":[[false,false,false,false,false,false,false,false],[false,false,false,false,false,false,false,false],[false,false,false,false,false,false,false,false],[false,false,false,false,false,false,false,false],[false,false,false,false,false,false,false,false],[false,false,false,false,false,false,false,false],[false,false,false,false,false,false,false,false],[true,false,false,false,false,false,false,false]],"values":[[0,0,0,0,0,0,0,0],[0,0,0,0,0,0,0,0],[0,0,0,0,0,0,0,0],[0,0,0,0,0,0,0,0],[0,0,0,0,0,0,0,0],[0,0,0,0,0,0,0,0],[0,0,0,0,0,0,0,0],[10,0,0,0,0,0,0,0]],"last_active_segid":7}},"tiles":[[{"op":"Block","x":0,"y":0,"size":0},{"op":"Segment","a":1},{"op":"Begin","x":0,"y":0},{"op":"Block","x":1,"y":0,"size":0},{"op":"Segment","a":6},{"op":"Abandon"},{"op":"Block","x":1,"y":0,"size":0},{"op":"Segment","a":6},{"op":"Block","x":0,"y":1,"size":0},{"op":"Segment","a":6}]]}
0
12000a051808bf0110321016420000000000000105000000003b40
tile 0 2 10
trial 0 2 25 abandoned

{"seq":{"chroma_sampling":3},"frame":{"width":8,"height":8,"segmentation":{"enabled":true,"update_map":true,"update_data":true,"features":[[false,false,false,false,false,false,false,false],[false,false,false,false,false,false,false,false],[false,false,false,false,false,false,false,false],[false,false,false,false,false,false,false,false],[false,false,false,false,false,false,false,false],[false,false,false,false,false,false,false,false],[false,false,false,false,false,false,false,false],[true,false,false,false,false,false,false,false]],"values":[[0,0,0,0,0,0,0,0],[0,0,0,0,0,0,0,0],[0,0,0,0,0,0,0,0],[0,0,0,0,0,0,0,0],[0,0,0,0,0,0,0,0],[0,0,0,0,0,0,0,0],[0,0,0,0,0,0,0,0],[10,0,0,0,0,0,0,0]],"last_active_segid":7}},"tiles":[[{"op":"Segment","a":0}]]}
6
refused tile 0 item 0 r64

{"seq":{"chroma_sampling":3},"frame":{"width":8,"height":8},"tiles":[[{"op":"Block","x":0,"y":0,"size":3},{"op":"Segment","a":0}]]}
6
refused tile 0 item 1 r67

{"seq":{"chroma_sampling":3},"frame":{"width":8,"height":8,"segmentation":{"enabled":true,"update_map":true,"update_data":true,"features":[[false,false,false,false,false,false,false,false],[false,false,false,false,false,false,false,false],[false,false,false,false,false,false,false,false],[false,false,false,false,false,false,false,false],[false,false,false,false,false,false,false,false],[true,false,false,false,false,false,false,false],[false,false,false,false,false,false,false,false],[false,false,false,false,false,false,false,false]],"values":[[0,0,0,0,0,0,0,0],[0,0,0,0,0,0,0,0],[0,0,0,0,0,0,0,0],[0,0,0,0,0,0,0,0],[0,0,0,0,0,0,0,0],[10,0,0,0,0,0,0,0],[0,0,0,0,0,0,0,0],[0,0,0,0,0,0,0,0]],"last_active_segid":5}},"tiles":[[{"op":"Block","x":0,"y":0,"size":3},{"op":"Segment","a":6}]]}
6
refused tile 0 item 1 r67

{"seq":{"chroma_sampling":3},"frame":{"width":8,"height":8,"segmentation":{"enabled":true,"update_map":true,"update_data":true,"features":[[false,false,false,false,false,false,false,false],[false,false,false,false,false,false,false,false],[false,false,false,false,false,false,false,false],[false,false,false,false,false,false,false,false],[false,false,false,false,false,false,false,false],[false,false,false,false,false,false,false,false],[false,false,false,false,false,false,false,false],[true,false,false,false,false,false,false,false]],"values":[[0,0,0,0,0,0,0,0],[0,0,0,0,0,0,0,0],[0,0,0,0,0,0,0,0],[0,0,0,0,0,0,0,0],[0,0,0,0,0,0,0,0],[0,0,0,0,0,0,0,0],[0,0,0,0,0,0,0,0],[10,0,0,0,0,0,0,0]],"last_active_segid":7}},"tiles":[[{"op":"Block","x":0,"y":0,"size":3},{"op":"Segment","a":255}]]}
6
refused tile 0 item 1 r67

{"seq":{"chroma_sampling":3},"frame":{"width":8,"height":8,"segmentation":{"enabled":true,"update_map":true,"update_data":true,"features":[[false,false,false,false,false,false,false,false],[false,false,false,false,false,false,false,false],[false,false,false,false,false,false,false,false],[false,false,false,false,false,false,false,false],[false,false,false,false,false,false,false,false],[false,false,false,false,false,false,false,false],[false,false,false,false,false,false,false,false],[true,false,false,false,false,false,false,false]],"values":[[0,0,0,0,0,0,0,0],[0,0,0,0,0,0,0,0],[0,0,0,0,0,0,0,0],[0,0,0,0,0,0,0,0],[0,0,0,0,0,0,0,0],[0,0,0,0,0,0,0,0],[0,0,0,0,0,0,0,0],[10,0,0,0,0,0,0,0]],"last_active_segid":7}},"tiles":[[{"op":"Block","x":0,"y":0,"size":3},{"op":"Skip","a":true},{"op":"Segment","a":1}]]}
6
refused tile 0 item 2 r67

{"seq":{"chroma_sampling":3},"frame":{"width":8,"height":8,"segmentation":{"enabled":true,"update_map":true,"update_data":true,"features":[[false,false,false,false,false,false,false,false],[false,false,false,false,false,false,false,false],[false,false,false,false,false,false,false,false],[false,false,false,false,false,false,false,false],[false,false,false,false,false,false,false,false],[false,false,false,false,false,false,false,false],[false,false,false,false,false,false,false,false],[true,false,false,false,false,false,false,false]],"values":[[0,0,0,0,0,0,0,0],[0,0,0,0,0,0,0,0],[0,0,0,0,0,0,0,0],[0,0,0,0,0,0,0,0],[0,0,0,0,0,0,0,0],[0,0,0,0,0,0,0,0],[0,0,0,0,0,0,0,0],[10,0,0,0,0,0,0,0]],"last_active_segid":7}},"tiles":[[{"op":"Block","x":0,"y":0,"size":0},{"op":"Segment","a":3},{"op":"Block","x":1,"y":0,"size":0},{"op":"Skip","a":true},{"op":"Segment","a":0}]]}
6
refused tile 0 item 4 r67

{"seq":{"chroma_sampling":3,"still_picture":false,"reduced_still_picture_hdr":false},"frame":{"width":8,"height":8,"frame_type":1,"intra_only":false,"force_integer_mv":0,"refresh_frame_flags":0,"primary_ref_frame":0,"segmentation":{"enabled":true,"update_map":false}},"refs":[{"width":8,"height":8,"render_width":8,"render_height":8},null,null,null,null,null,null,null],"tiles":[[{"op":"Block","x":0,"y":0,"size":3},{"op":"Segment","a":0}]]}
6
refused tile 0 item 1 r67

{"seq":{"chroma_sampling":3},"frame":{"width":8,"height":8,"deblock":{"block_deltas_enabled":true}},"tiles":[[{"op":"Block","x":0,"y":0,"size":3},{"op":"DeltaLf","a":[0,0,0,0]}]]}
0
12000a051808bf01103206164000000010
tile 0 1 4

{"seq":{"chroma_sampling":3},"frame":{"width":8,"height":8,"deblock":{"block_deltas_enabled":true}},"tiles":[[{"op":"Block","x":0,"y":0,"size":3},{"op":"DeltaLf","a":[2,0,0,0]},{"op":"DeltaLf","a":[-2,0,0,0]}]]}
0
12000a051808bf01103206164000000096
tile 0 1 7

{"seq":{"chroma_sampling":3},"frame":{"width":8,"height":8,"deblock":{"block_deltas_enabled":true}},"tiles":[[{"op":"Block","x":0,"y":0,"size":3},{"op":"DeltaLf","a":[3,0,0,0]},{"op":"DeltaLf","a":[4,0,0,0]},{"op":"DeltaLf","a":[-5,0,0,0]}]]}
0
12000a051808bf011032081640000000c17b2a
tile 0 3 23

{"seq":{"chroma_sampling":3},"frame":{"width":8,"height":8,"deblock":{"block_deltas_enabled":true}},"tiles":[[{"op":"Block","x":0,"y":0,"size":3},{"op":"DeltaLf","a":[63,0,0,0]},{"op":"DeltaLf","a":[-63,0,0,0]}]]}
0
12000a051808bf011032081640000000e79b26
tile 0 3 23

{"seq":{"chroma_sampling":3},"frame":{"width":8,"height":8,"deblock":{"block_deltas_enabled":true,"block_delta_multi":true}},"tiles":[[{"op":"Block","x":0,"y":0,"size":3},{"op":"DeltaLf","a":[-33,17,0,0]}]]}
0
12000a051808bf011032081640000000e03904
tile 0 3 22

{"seq":{"chroma_sampling":0},"frame":{"width":8,"height":8,"deblock":{"block_deltas_enabled":true,"block_delta_multi":true}},"tiles":[[{"op":"Block","x":0,"y":0,"size":3},{"op":"DeltaLf","a":[1,-2,16,-63]}]]}
0
12000a051808bf000a32091640000000574ac520
tile 0 4 27

{"seq":{"chroma_sampling":0},"frame":{"width":8,"height":8,"deblock":{"block_deltas_enabled":true}},"tiles":[[{"op":"Block","x":0,"y":0,"size":3},{"op":"DeltaLf","a":[9,0,0,0]}]]}
0
12000a051808bf000a32071640000000d040
tile 0 2 10

{"seq":{"profile":1,"chroma_sampling":2},"frame":{"width":8,"height":8,"deblock":{"block_deltas_enabled":true,"block_delta_multi":true}},"tiles":[[{"op":"Block","x":0,"y":0,"size":3},{"op":"DeltaLf","a":[32,0,8,-1]}]]}
0
12000a053808bf005032091640000000df8adf80
tile 0 4 25

{"seq":{"chroma_sampling":3},"frame":{"width":8,"height":8,"deblock":{"block_deltas_enabled":true}},"tiles":[[{"op":"DeltaLf","a":[0,0,0,0]}]]}
6
refused tile 0 item 0 r64

{"seq":{"chroma_sampling":3},"frame":{"width":8,"height":8},"tiles":[[{"op":"Block","x":0,"y":0,"size":3},{"op":"DeltaLf","a":[0,0,0,0]}]]}
6
refused tile 0 item 1 r69

{"seq":{"chroma_sampling":3},"frame":{"width":8,"height":8,"deblock":{"block_deltas_enabled":true}},"tiles":[[{"op":"Block","x":0,"y":0,"size":3},{"op":"DeltaLf","a":[64,0,0,0]}]]}
6
refused tile 0 item 1 r69

{"seq":{"chroma_sampling":3},"frame":{"width":8,"height":8,"deblock":{"block_deltas_enabled":true}},"tiles":[[{"op":"Block","x":0,"y":0,"size":3},{"op":"DeltaLf","a":[-64,0,0,0]}]]}
6
refused tile 0 item 1 r69

{"seq":{"chroma_sampling":3},"frame":{"width":8,"height":8,"deblock":{"block_deltas_enabled":true}},"tiles":[[{"op":"Block","x":0,"y":0,"size":3},{"op":"DeltaLf","a":[-128,0,0,0]}]]}
6
refused tile 0 item 1 r69

{"seq":{"chroma_sampling":0},"frame":{"width":8,"height":8,"deblock":{"block_deltas_enabled":true}},"tiles":[[{"op":"Block","x":0,"y":0,"size":3},{"op":"DeltaLf","a":[0,1,0,0]}]]}
6
refused tile 0 item 1 r69

{"seq":{"chroma_sampling":3},"frame":{"width":8,"height":8,"deblock":{"block_deltas_enabled":true,"block_delta_multi":true}},"tiles":[[{"op":"Block","x":0,"y":0,"size":3},{"op":"DeltaLf","a":[0,0,1,0]}]]}
6
refused tile 0 item 1 r69

{"seq":{"chroma_sampling":0},"frame":{"width":8,"height":8,"deblock":{"block_deltas_enabled":true,"block_delta_multi":true}},"tiles":[[{"op":"Block","x":0,"y":0,"size":3},{"op":"DeltaLf","a":[0,0,0,-64]}]]}
6
refused tile 0 item 1 r69

{"seq":{"chroma_sampling":3},"frame":{"width":8,"height":8,"deblock":{"block_deltas_enabled":true}},"tiles":[[{"op":"Block","x":0,"y":0,"size":3},{"op":"DeltaLf","a":[128,0,0,0]}]]}
5
bad shape at /tiles/0/1/a/0

{"seq":{"chroma_sampling":3},"frame":{"width":8,"height":8,"deblock":{"block_deltas_enabled":true}},"tiles":[[{"op":"Block","x":0,"y":0,"size":3},{"op":"DeltaLf","a":[0,0,0]}]]}
5
bad shape at /tiles/0/1/a

{"seq":{"chroma_sampling":3},"frame":{"width":8,"height":8},"tiles":[[{"op":"Block","x":0,"y":0,"size":3},{"op":"IntraModeKf","a":1},{"op":"AngleDelta","chroma":false,"a":-3}]]}
0
12000a051808bf01103206164000000015
tile 0 1 8

{"seq":{"chroma_sampling":3},"frame":{"width":8,"height":8},"tiles":[[{"op":"Block","x":0,"y":0,"size":3},{"op":"IntraModeKf","a":8},{"op":"AngleDelta","chroma":false,"a":3}]]}
0
12000a051808bf011032061640000000af
tile 0 1 8

{"seq":{"chroma_sampling":3},"frame":{"width":8,"height":8},"tiles":[[{"op":"Block","x":0,"y":0,"size":3},{"op":"IntraModeKf","a":4},{"op":"AngleDelta","chroma":false,"a":0},{"op":"AngleDelta","chroma":false,"a":0},{"op":"AngleDelta","chroma":false,"a":1}]]}
0
12000a051808bf0110320716400000005898
tile 0 2 13

{"seq":{"chroma_sampling":3},"frame":{"width":8,"height":16},"tiles":[[{"op":"Block","x":0,"y":0,"size":16},{"op":"IntraModeKf","a":2},{"op":"AngleDelta","chroma":false,"a":2}]]}
0
12000a051808ff80883206164000000037
tile 0 1 8

{"seq":{"chroma_sampling":0},"frame":{"width":8,"height":8},"tiles":[[{"op":"Block","x":0,"y":0,"size":3},{"op":"IntraModeKf","a":3},{"op":"AngleDelta","chroma":false,"a":-1},{"op":"UvMode","a":7},{"op":"AngleDelta","chroma":true,"a":-2}]]}
0
12000a051808bf000a32071640000000423a
tile 0 2 15

{"seq":{"chroma_sampling":0},"frame":{"width":8,"height":8},"tiles":[[{"op":"Block","x":0,"y":0,"size":3},{"op":"IntraModeKf","a":0},{"op":"UvMode","a":1},{"op":"AngleDelta","chroma":true,"a":3}]]}
0
12000a051808bf000a3207164000000002b0
tile 0 2 12

{"seq":{"chroma_sampling":0},"frame":{"width":64,"height":64},"tiles":[[{"op":"Block","x":0,"y":0,"size":12},{"op":"IntraModeKf","a":5},{"op":"UvMode","a":6},{"op":"AngleDelta","chroma":true,"a":1},{"op":"AngleDelta","chroma":false,"a":-2}]]}
0
12000a0618157ffc0028320716400000006c72
tile 0 2 15

{"seq":{"chroma_sampling":3},"frame":{"width":8,"height":8},"tiles":[[{"op":"Block","x":0,"y":0,"size":3},{"op":"Begin","x":0,"y":0},{"op":"IntraModeKf","a":2},{"op":"AngleDelta","chroma":false,"a":3},{"op":"Abandon"},{"op":"IntraModeKf","a":2},{"op":"AngleDelta","chroma":false,"a":3}]]}
0
12000a051808bf01103206164000000039
tile 0 1 8
trial 0 1 52 abandoned

{"seq":{"chroma_sampling":3},"frame":{"width":8,"height":8},"tiles":[[{"op":"AngleDelta","chroma":false,"a":0}]]}
6
refused tile 0 item 0 r64

{"seq":{"chroma_sampling":3},"frame":{"width":8,"height":8},"tiles":[[{"op":"Block","x":0,"y":0,"size":2},{"op":"IntraModeKf","a":1},{"op":"AngleDelta","chroma":false,"a":0}]]}
6
refused tile 0 item 2 r72

{"seq":{"chroma_sampling":3},"frame":{"width":8,"height":8},"tiles":[[{"op":"Block","x":0,"y":0,"size":3},{"op":"AngleDelta","chroma":false,"a":0}]]}
6
refused tile 0 item 1 r72

{"seq":{"chroma_sampling":3},"frame":{"width":8,"height":8},"tiles":[[{"op":"Block","x":0,"y":0,"size":3},{"op":"IntraModeKf","a":9},{"op":"AngleDelta","chroma":false,"a":0}]]}
6
refused tile 0 item 2 r72

{"seq":{"chroma_sampling":3},"frame":{"width":8,"height":8},"tiles":[[{"op":"Block","x":0,"y":0,"size":3},{"op":"IntraModeKf","a":1},{"op":"AngleDelta","chroma":false,"a":4}]]}
6
refused tile 0 item 2 r72

{"seq":{"chroma_sampling":3},"frame":{"width":8,"height":8},"tiles":[[{"op":"Block","x":0,"y":0,"size":3},{"op":"IntraModeKf","a":1},{"op":"AngleDelta","chroma":false,"a":-4}]]}
6
refused tile 0 item 2 r72

{"seq":{"chroma_sampling":3},"frame":{"width":8,"height":8},"tiles":[[{"op":"Block","x":0,"y":0,"size":3},{"op":"IntraModeKf","a":1},{"op":"AngleDelta","chroma":false,"a":-128}]]}
6
refused tile 0 item 2 r72

{"seq":{"chroma_sampling":0},"frame":{"width":8,"height":8},"tiles":[[{"op":"Block","x":0,"y":0,"size":3},{"op":"IntraModeKf","a":1},{"op":"AngleDelta","chroma":true,"a":0}]]}
6
refused tile 0 item 2 r72

{"seq":{"chroma_sampling":0},"frame":{"width":8,"height":8},"tiles":[[{"op":"Block","x":0,"y":0,"size":3},{"op":"IntraModeKf","a":1},{"op":"UvMode","a":0},{"op":"AngleDelta","chroma":true,"a":0}]]}
6
refused tile 0 item 3 r72

{"seq":{"chroma_sampling":0},"frame":{"width":8,"height":8},"tiles":[[{"op":"Block","x":0,"y":0,"size":3},{"op":"IntraModeKf","a":1},{"op":"UvMode","a":13},{"op":"AngleDelta","chroma":true,"a":0}]]}
6
refused tile 0 item 3 r72

{"seq":{"chroma_sampling":0},"frame":{"width":8,"height":8},"tiles":[[{"op":"Block","x":0,"y":0,"size":3},{"op":"IntraModeKf","a":1},{"op":"UvMode","a":1},{"op":"Block","x":0,"y":0,"size":3},{"op":"IntraModeKf","a":1},{"op":"AngleDelta","chroma":true,"a":0}]]}
6
refused tile 0 item 5 r72

{"seq":{"chroma_sampling":0},"frame":{"width":8,"height":8},"tiles":[[{"op":"Block","x":0,"y":0,"size":3},{"op":"IntraModeKf","a":0},{"op":"UvMode","a":13},{"op":"CflAlphas","a":[1,0]}]]}
0
12000a051808bf000a32071640000000131d
tile 0 2 16

{"seq":{"chroma_sampling":0},"frame":{"width":8,"height":8},"tiles":[[{"op":"Block","x":0,"y":0,"size":3},{"op":"IntraModeKf","a":0},{"op":"UvMode","a":13},{"op":"CflAlphas","a":[0,-1]}]]}
0
12000a051808bf000a32071640000000123f
tile 0 2 16

{"seq":{"chroma_sampling":0},"frame":{"width":8,"height":8},"tiles":[[{"op":"Block","x":0,"y":0,"size":3},{"op":"IntraModeKf","a":0},{"op":"UvMode","a":13},{"op":"CflAlphas","a":[-16,16]}]]}
0
12000a051808bf000a32081640000000131bd0
tile 0 3 20

{"seq":{"chroma_sampling":0},"frame":{"width":8,"height":8},"tiles":[[{"op":"Block","x":0,"y":0,"size":3},{"op":"IntraModeKf","a":0},{"op":"UvMode","a":13},{"op":"CflAlphas","a":[16,-16]},{"op":"CflAlphas","a":[-16,-16]},{"op":"CflAlphas","a":[7,9]},{"op":"CflAlphas","a":[7,9]}]]}
0
12000a051808bf000a320c16400000001373e14b768ae0
tile 0 7 51

{"seq":{"chroma_sampling":0},"frame":{"width":8,"height":8},"tiles":[[{"op":"Block","x":1,"y":1,"size":0},{"op":"IntraModeKf","a":0},{"op":"UvMode","a":13},{"op":"CflAlphas","a":[-1,2]}]]}
0
12000a051808bf000a3208164000000012f010
tile 0 3 20

{"seq":{"profile":1,"chroma_sampling":2},"frame":{"width":8,"height":8},"tiles":[[{"op":"Block","x":0,"y":0,"size":0},{"op":"IntraModeKf","a":0},{"op":"UvMode","a":13},{"op":"CflAlphas","a":[0,12]}]]}
0
12000a053808bf005032071640000000128b
tile 0 2 16

{"seq":{"chroma_sampling":0},"frame":{"width":32,"height":32},"tiles":[[{"op":"Block","x":0,"y":0,"size":9},{"op":"IntraModeKf","a":12},{"op":"UvMode","a":13},{"op":"Begin","x":0,"y":0},{"op":"CflAlphas","a":[3,3]},{"op":"Abandon"},{"op":"CflAlphas","a":[-3,3]}]]}
0
12000a0618113ff000a032081640000000ff56b0
tile 0 3 20
trial 0 3 83 abandoned

{"seq":{"chroma_sampling":0},"frame":{"width":8,"height":8},"tiles":[[{"op":"CflAlphas","a":[1,0]}]]}
6
refused tile 0 item 0 r64

{"seq":{"chroma_sampling":0},"frame":{"width":8,"height":8},"tiles":[[{"op":"Block","x":0,"y":0,"size":3},{"op":"IntraModeKf","a":0},{"op":"CflAlphas","a":[1,0]}]]}
6
refused tile 0 item 2 r73

{"seq":{"chroma_sampling":0},"frame":{"width":8,"height":8},"tiles":[[{"op":"Block","x":0,"y":0,"size":3},{"op":"IntraModeKf","a":0},{"op":"UvMode","a":12},{"op":"CflAlphas","a":[1,0]}]]}
6
refused tile 0 item 3 r73

{"seq":{"chroma_sampling":3},"frame":{"width":8,"height":8},"tiles":[[{"op":"Block","x":0,"y":0,"size":3},{"op":"IntraModeKf","a":0},{"op":"CflAlphas","a":[1,0]}]]}
6
refused tile 0 item 2 r73

{"seq":{"chroma_sampling":0},"frame":{"width":8,"height":8},"tiles":[[{"op":"Block","x":0,"y":0,"size":3},{"op":"IntraModeKf","a":0},{"op":"UvMode","a":13},{"op":"CflAlphas","a":[0,0]}]]}
6
refused tile 0 item 3 r73

{"seq":{"chroma_sampling":0},"frame":{"width":8,"height":8},"tiles":[[{"op":"Block","x":0,"y":0,"size":3},{"op":"IntraModeKf","a":0},{"op":"UvMode","a":13},{"op":"CflAlphas","a":[17,1]}]]}
6
refused tile 0 item 3 r73

{"seq":{"chroma_sampling":0},"frame":{"width":8,"height":8},"tiles":[[{"op":"Block","x":0,"y":0,"size":3},{"op":"IntraModeKf","a":0},{"op":"UvMode","a":13},{"op":"CflAlphas","a":[1,-17]}]]}
6
refused tile 0 item 3 r73

{"seq":{"chroma_sampling":0},"frame":{"width":8,"height":8},"tiles":[[{"op":"Block","x":0,"y":0,"size":3},{"op":"IntraModeKf","a":0},{"op":"UvMode","a":13},{"op":"CflAlphas","a":[-32768,32767]}]]}
6
refused tile 0 item 3 r73

{"seq":{"chroma_sampling":0},"frame":{"width":8,"height":8},"tiles":[[{"op":"Block","x":0,"y":0,"size":3},{"op":"IntraModeKf","a":0},{"op":"UvMode","a":13},{"op":"CflAlphas","a":[32768,0]}]]}
5
bad shape at /tiles/0/3/a/0

{"seq":{"chroma_sampling":3},"frame":{"width":8,"height":8,"tx_mode_select":true},"tiles":[[{"op":"Block","x":0,"y":0,"size":3},{"op":"TxIntra","a":1}]]}
0
12000a051808bf01103206164000008020
tile 0 1 3

{"seq":{"chroma_sampling":3},"frame":{"width":8,"height":8,"tx_mode_select":true},"tiles":[[{"op":"Block","x":0,"y":0,"size":3},{"op":"TxIntra","a":0}]]}
0
12000a051808bf011032061640000080c0
tile 0 1 2

{"seq":{"chroma_sampling":3},"frame":{"width":64,"height":64,"tx_mode_select":true},"tiles":[[{"op":"Block","x":0,"y":0,"size":12},{"op":"TxIntra","a":4}]]}
0
12000a0618157ffc04403206164000008020
tile 0 1 3

{"seq":{"chroma_sampling":3},"frame":{"width":64,"height":64,"tx_mode_select":true},"tiles":[[{"op":"Block","x":0,"y":0,"size":12},{"op":"TxIntra","a":3}]]}
0
12000a0618157ffc04403206164000008060
tile 0 1 3

{"seq":{"chroma_sampling":3},"frame":{"width":64,"height":64,"tx_mode_select":true},"tiles":[[{"op":"Block","x":0,"y":0,"size":12},{"op":"TxIntra","a":2}]]}
0
12000a0618157ffc044032061640000080e0
tile 0 1 3

{"seq":{"chroma_sampling":3},"frame":{"width":64,"height":64,"tx_mode_select":true},"tiles":[[{"op":"Block","x":0,"y":0,"size":21},{"op":"TxIntra","a":18},{"op":"Block","x":0,"y":4,"size":21},{"op":"TxIntra","a":10},{"op":"Block","x":0,"y":8,"size":21},{"op":"TxIntra","a":2}]]}
0
12000a0618157ffc04403206164000008034
tile 0 1 6

{"seq":{"chroma_sampling":3},"frame":{"width":16,"height":16,"tx_mode_select":true},"tiles":[[{"op":"Block","x":0,"y":0,"size":16},{"op":"TxIntra","a":13},{"op":"Block","x":1,"y":0,"size":16},{"op":"TxIntra","a":5},{"op":"Block","x":2,"y":0,"size":16},{"op":"TxIntra","a":0},{"op":"Block","x":3,"y":0,"size":16},{"op":"TxIntra","a":13}]]}
0
12000a05180cffc0443206164000008031
tile 0 1 8

{"seq":{"chroma_sampling":3},"frame":{"width":8,"height":8,"tx_mode_select":true},"tiles":[[{"op":"Block","x":0,"y":0,"size":1},{"op":"TxIntra","a":5},{"op":"Block","x":1,"y":0,"size":1},{"op":"TxIntra","a":0},{"op":"Block","x":0,"y":0,"size":2},{"op":"TxIntra","a":6},{"op":"Block","x":0,"y":1,"size":2},{"op":"TxIntra","a":0}]]}
0
12000a051808bf01103206164000008058
tile 0 1 5

{"seq":{"chroma_sampling":3},"frame":{"width":16,"height":16,"tx_mode_select":true},"tiles":[[{"op":"Block","x":0,"y":0,"size":3},{"op":"TxIntra","a":0},{"op":"Block","x":2,"y":0,"size":3},{"op":"TxIntra","a":1},{"op":"Block","x":0,"y":2,"size":3},{"op":"TxIntra","a":1},{"op":"Block","x":2,"y":2,"size":3},{"op":"TxIntra","a":0},{"op":"Block","x":0,"y":0,"size":6},{"op":"TxIntra","a":1}]]}
0
12000a05180cffc0443206164000008096
tile 0 1 7

{"seq":{"chroma_sampling":3},"frame":{"width":24,"height":24,"tx_mode_select":true},"tiles":[[{"op":"Block","x":0,"y":0,"size":3},{"op":"Skip","a":true},{"op":"TxNote"},{"op":"Block","x":2,"y":0,"size":3},{"op":"TxIntra","a":1},{"op":"Block","x":0,"y":4,"size":6},{"op":"TxNote"}]]}
0
12000a0518112f701132061640000080a0
tile 0 1 3

{"seq":{"chroma_sampling":3},"frame":{"width":16,"height":16,"tx_mode_select":true},"tiles":[[{"op":"Block","x":0,"y":0,"size":0},{"op":"TxNote"},{"op":"Block","x":1,"y":0,"size":0},{"op":"TxNote"},{"op":"Block","x":2,"y":0,"size":4},{"op":"TxIntra","a":7}]]}
0
12000a05180cffc0443206164000008020
tile 0 1 3

{"seq":{"chroma_sampling":3},"frame":{"width":40,"height":24,"tx_mode_select":true},"tiles":[[{"op":"Block","x":0,"y":0,"size":12},{"op":"TxIntra","a":2},{"op":"Block","x":8,"y":4,"size":3},{"op":"TxIntra","a":0}]]}
0
12000a06181527b8088032061640000080f0
tile 0 1 4

{"seq":{"chroma_sampling":3},"frame":{"width":16,"height":16,"tx_mode_select":true},"tiles":[[{"op":"Block","x":0,"y":0,"size":6},{"op":"Begin","x":0,"y":0},{"op":"TxIntra","a":0},{"op":"Abandon"},{"op":"TxIntra","a":1}]]}
0
12000a05180cffc0443206164000008060
tile 0 1 3
trial 0 1 13 abandoned

{"seq":{"chroma_sampling":3},"frame":{"width":8,"height":8},"tiles":[[{"op":"Block","x":0,"y":0,"size":3},{"op":"TxNote"}]]}
0
12000a051808bf01103206164000000080
tile 0 1 1

{"seq":{"chroma_sampling":0},"frame":{"width":16,"height":16,"tx_mode_select":true},"tiles":[[{"op":"RowStart"},{"op":"Block","x":0,"y":0,"size":3},{"op":"TxIntra","a":0},{"op":"RowStart"},{"op":"Block","x":0,"y":2,"size":3},{"op":"TxIntra","a":1}]]}
0
12000a06180cffc002803206164000001090
tile 0 1 4

{"seq":{"chroma_sampling":3},"frame":{"width":8,"height":8},"tiles":[[{"op":"TxNote"}]]}
6
refused tile 0 item 0 r64

{"seq":{"chroma_sampling":3},"frame":{"width":8,"height":8,"tx_mode_select":true},"tiles":[[{"op":"TxIntra","a":1}]]}
6
refused tile 0 item 0 r64

{"seq":{"chroma_sampling":3},"frame":{"width":8,"height":8},"tiles":[[{"op":"Block","x":0,"y":0,"size":3},{"op":"TxIntra","a":1}]]}
6
refused tile 0 item 1 r76

{"seq":{"chroma_sampling":3},"frame":{"width":8,"height":8,"tx_mode_select":true},"tiles":[[{"op":"Block","x":0,"y":0,"size":0},{"op":"TxIntra","a":0}]]}
6
refused tile 0 item 1 r76

{"seq":{"chroma_sampling":3},"frame":{"width":64,"height":64,"tx_mode_select":true},"tiles":[[{"op":"Block","x":0,"y":0,"size":12},{"op":"TxIntra","a":1}]]}
6
refused tile 0 item 1 r76

{"seq":{"chroma_sampling":3},"frame":{"width":8,"height":8,"tx_mode_select":true},"tiles":[[{"op":"Block","x":0,"y":0,"size":3},{"op":"TxIntra","a":2}]]}
6
refused tile 0 item 1 r76

{"seq":{"chroma_sampling":3},"frame":{"width":16,"height":16,"tx_mode_select":true},"tiles":[[{"op":"Block","x":0,"y":0,"size":6},{"op":"TxIntra","a":5}]]}
6
refused tile 0 item 1 r76

{"seq":{"chroma_sampling":3},"frame":{"width":64,"height":64,"tx_mode_select":true},"tiles":[[{"op":"Block","x":0,"y":0,"size":21},{"op":"TxIntra","a":8}]]}
6
refused tile 0 item 1 r76

{"seq":{"chroma_sampling":3},"frame":{"width":8,"height":8,"tx_mode_select":true},"tiles":[[{"op":"Block","x":0,"y":0,"size":3},{"op":"TxIntra","a":19}]]}
5
bad shape at /tiles/0/1/a

{"seq":{"chroma_sampling":3},"frame":{"width":8,"height":8,"tx_mode_select":true},"tiles":[[{"op":"TxInter","a":true}]]}
6
refused tile 0 item 0 r64

{"seq":{"chroma_sampling":3},"frame":{"width":8,"height":8,"tx_mode_select":true},"tiles":[[{"op":"Block","x":0,"y":0,"size":3},{"op":"TxInter","a":false}]]}
6
refused tile 0 item 1 r65

{"seq":{"chroma_sampling":3,"still_picture":false,"reduced_still_picture_hdr":false},"frame":{"width":8,"height":8,"frame_type":1,"intra_only":false,"force_integer_mv":0,"refresh_frame_flags":0,"tx_mode_select":true},"tiles":[[{"op":"Block","x":0,"y":0,"size":3},{"op":"TxInter","a":false}]]}
6
refused tile 0 item 1 r66

{"seq":{"chroma_sampling":3,"enable_restoration":true},"frame":{"width":8,"height":8,"restoration":[{"lrf_type":3},{},{}]},"tiles":[[{"op":"Lrf","plane":0,"a":null}]]}
0
12000a051808bf0510320616400000c020
tile 0 1 3

{"seq":{"chroma_sampling":3,"enable_restoration":true},"frame":{"width":8,"height":8,"restoration":[{"lrf_type":3},{},{}]},"tiles":[[{"op":"Lrf","plane":0,"a":{"set":14,"xqd":[-32,95]}}]]}
0
12000a051808bf0510320716400000c0f020
tile 0 2 11

{"seq":{"chroma_sampling":3,"enable_restoration":true},"frame":{"width":8,"height":8,"restoration":[{"lrf_type":0},{},{}]},"tiles":[[{"op":"Lrf","plane":0,"a":null}]]}
0
12000a051808bf05103206164000000080
tile 0 1 1

{"seq":{"chroma_sampling":3,"enable_restoration":true},"frame":{"width":8,"height":8,"restoration":[{"lrf_type":1},{},{}]},"tiles":[[{"op":"Lrf","plane":0,"a":null}]]}
0
12000a051808bf05103206164000004020
tile 0 1 3

{"seq":{"chroma_sampling":3,"enable_restoration":true},"frame":{"width":8,"height":8,"restoration":[{"lrf_type":1},{},{}]},"tiles":[[{"op":"Lrf","plane":0,"a":{"wiener":[[3,-7,15],[3,-7,15]]}}]]}
0
12000a051808bf051032081640000040557008
tile 0 3 21

{"seq":{"chroma_sampling":3,"enable_restoration":true},"frame":{"width":8,"height":8,"restoration":[{"lrf_type":2},{},{}]},"tiles":[[{"op":"Lrf","plane":0,"a":{"wiener":[[-5,-23,-17],[10,8,46]]}},{"op":"Lrf","plane":0,"a":{"wiener":[[10,8,46],[-5,-23,-17]]}}]]}
0
12000a051808bf051032101640000080ffffffefdeddfdfffffffe
tile 0 11 87

{"seq":{"chroma_sampling":3,"enable_restoration":true},"frame":{"width":8,"height":8,"restoration":[{"lrf_type":1},{},{}]},"tiles":[[{"op":"Lrf","plane":0,"a":{"set":0,"xqd":[-96,95]}},{"op":"Lrf","plane":0,"a":{"set":9,"xqd":[31,-32]}},{"op":"Lrf","plane":0,"a":{"set":15,"xqd":[-96,95]}},{"op":"Lrf","plane":0,"a":{"set":10,"xqd":[0,-32]}},{"op":"Lrf","plane":0,"a":null},{"op":"Lrf","plane":0,"a":{"set":0,"xqd":[0,0]}}]]}
0
12000a051808bf051032121640000040b04c3fd02e7fffff13a1b7eb80
tile 0 13 97

{"seq":{"chroma_sampling":3,"enable_restoration":true},"frame":{"width":8,"height":8,"restoration":[{"lrf_type":3},{},{}]},"tiles":[[{"op":"Lrf","plane":0,"a":{"set":0,"xqd":[-32,31]}},{"op":"Lrf","plane":0,"a":{"set":1,"xqd":[-32,31]}},{"op":"Lrf","plane":0,"a":{"set":2,"xqd":[-32,31]}},{"op":"Lrf","plane":0,"a":{"set":3,"xqd":[-32,31]}},{"op":"Lrf","plane":0,"a":{"set":4,"xqd":[-32,31]}},{"op":"Lrf","plane":0,"a":{"set":5,"xqd":[-32,31]}},{"op":"Lrf","plane":0,"a":{"set":6,"xqd":[-32,31]}},{"op":"Lrf","plane":0,"a":{"set":7,"xqd":[-32,31]}},{"op":"Lrf","plane":0,"a":{"set":8,"xqd":[-32,31]}},{"op":"Lrf","plane":0,"a":{"set":9,"xqd":[-32,31]}},{"op":"Lrf","plane":0,"a":{"set":10,"xqd":[0,31]}},{"op":"Lrf","plane":0,"a":{"set":11,"xqd":[0,31]}},{"op":"Lrf","plane":0,"a":{"set":12,"xqd":[0,31]}},{"op":"Lrf","plane":0,"a":{"set":13,"xqd":[0,31]}},{"op":"Lrf","plane":0,"a":{"set":14,"xqd":[-32,95]}},{"op":"Lrf","plane":0,"a":{"set":15,"xqd":[-32,95]}}]]}
0
12000a051808bf0510321f16400000c07ff901132ba901d838bf44f2e665ae1417a3fb2597e3a60aad05
tile 0 26 208

{"seq":{"chroma_sampling":0,"enable_restoration":true},"frame":{"width":8,"height":8,"restoration":[{"lrf_type":0},{"lrf_type":2},{"lrf_type":1}]},"tiles":[[{"op":"Lrf","plane":1,"a":{"wiener":[[0,-7,15],[0,8,46]]}},{"op":"Lrf","plane":2,"a":{"set":5,"xqd":[-1,1]}},{"op":"Lrf","plane":2,"a":{"wiener":[[0,-23,-17],[0,-23,-17]]}},{"op":"Lrf","plane":1,"a":null},{"op":"Lrf","plane":0,"a":null}]]}
0
12000a051808bf040a321016400000048080f60d743accf1bffff6
tile 0 10 79

{"seq":{"profile":1,"chroma_sampling":2,"enable_restoration":true},"frame":{"width":300,"height":200,"restoration":[{"lrf_type":3,"unit_size":256},{"lrf_type":0,"unit_size":256},{"lrf_type":2,"unit_size":256}]},"tiles":[[{"op":"Lrf","plane":2,"a":{"wiener":[[0,0,0],[0,0,0]]}},{"op":"Lrf","plane":0,"a":{"set":12,"xqd":[0,0]}}]]}
0
12000a063821e578e08a320c119000000658edb64933b980
tile 0 6 41

{"seq":{"chroma_sampling":3,"enable_restoration":true},"frame":{"width":8,"height":8,"restoration":[{"lrf_type":3},{},{}]},"tiles":[[{"op":"Lrf","plane":0,"a":{"set":14,"xqd":[-32,31]}}]]}
6
refused tile 0 item 0 r86

{"seq":{"chroma_sampling":3,"enable_restoration":true},"frame":{"width":8,"height":8,"restoration":[{"lrf_type":1},{},{}]},"tiles":[[{"op":"Lrf","plane":1,"a":null}]]}
6
refused tile 0 item 0 r86

{"seq":{"chroma_sampling":0,"enable_restoration":true},"frame":{"width":8,"height":8,"restoration":[{"lrf_type":1},{},{}]},"tiles":[[{"op":"Lrf","plane":3,"a":null}]]}
6
refused tile 0 item 0 r86

{"seq":{"chroma_sampling":0,"enable_restoration":true},"frame":{"width":8,"height":8,"restoration":[{"lrf_type":1},{},{}]},"tiles":[[{"op":"Lrf","plane":9223372036854775807,"a":null}]]}
6
refused tile 0 item 0 r86

{"seq":{"chroma_sampling":3},"frame":{"width":8,"height":8},"tiles":[[{"op":"Lrf","plane":0,"a":{"wiener":[[3,-7,15],[3,-7,15]]}}]]}
6
refused tile 0 item 0 r86

{"seq":{"chroma_sampling":3,"enable_restoration":true},"frame":{"width":8,"height":8,"restoration":[{"lrf_type":3},{},{}]},"tiles":[[{"op":"Lrf","plane":0,"a":{"wiener":[[3,-7,15],[3,-7,15]]}}]]}
6
refused tile 0 item 0 r86

{"seq":{"chroma_sampling":3,"enable_restoration":true},"frame":{"width":8,"height":8,"restoration":[{"lrf_type":2},{},{}]},"tiles":[[{"op":"Lrf","plane":0,"a":{"set":0,"xqd":[-32,31]}}]]}
6
refused tile 0 item 0 r86

{"seq":{"chroma_sampling":3,"enable_restoration":true},"frame":{"width":8,"height":8,"restoration":[{"lrf_type":3},{},{}]},"tiles":[[{"op":"Lrf","plane":0,"a":{"set":16,"xqd":[-32,31]}}]]}
6
refused tile 0 item 0 r86

{"seq":{"chroma_sampling":3,"enable_restoration":true},"frame":{"width":8,"height":8,"restoration":[{"lrf_type":3},{},{}]},"tiles":[[{"op":"Lrf","plane":0,"a":{"set":0,"xqd":[-97,31]}}]]}
6
refused tile 0 item 0 r86

{"seq":{"chroma_sampling":3,"enable_restoration":true},"frame":{"width":8,"height":8,"restoration":[{"lrf_type":3},{},{}]},"tiles":[[{"op":"Lrf","plane":0,"a":{"set":0,"xqd":[-32,96]}}]]}
6
refused tile 0 item 0 r86

{"seq":{"chroma_sampling":3,"enable_restoration":true},"frame":{"width":8,"height":8,"restoration":[{"lrf_type":3},{},{}]},"tiles":[[{"op":"Lrf","plane":0,"a":{"set":10,"xqd":[1,31]}}]]}
6
refused tile 0 item 0 r86

{"seq":{"chroma_sampling":3,"enable_restoration":true},"frame":{"width":8,"height":8,"restoration":[{"lrf_type":2},{},{}]},"tiles":[[{"op":"Lrf","plane":0,"a":{"wiener":[[3,-7,15],[3,-7,47]]}}]]}
6
refused tile 0 item 0 r86

{"seq":{"chroma_sampling":3,"enable_restoration":true},"frame":{"width":8,"height":8,"restoration":[{"lrf_type":2},{},{}]},"tiles":[[{"op":"Lrf","plane":0,"a":{"wiener":[[-6,-7,15],[3,-7,15]]}}]]}
6
refused tile 0 item 0 r86

{"seq":{"chroma_sampling":3,"enable_restoration":true},"frame":{"width":8,"height":8,"restoration":[{"lrf_type":2},{},{}]},"tiles":[[{"op":"Lrf","plane":0,"a":{"wiener":[[3,9,15],[3,-7,15]]}}]]}
6
refused tile 0 item 0 r86

{"seq":{"chroma_sampling":0,"enable_restoration":true},"frame":{"width":8,"height":8,"restoration":[{"lrf_type":0},{"lrf_type":2},{}]},"tiles":[[{"op":"Lrf","plane":1,"a":{"wiener":[[0,-7,15],[3,-7,15]]}}]]}
6
refused tile 0 item 0 r86

{"seq":{"chroma_sampling":3,"enable_restoration":true},"frame":{"width":8,"height":8,"restoration":[{"lrf_type":1},{},{}]},"tiles":[[{"op":"Begin","x":0,"y":0},{"op":"Lrf","plane":0,"a":null},{"op":"Keep"}]]}
7
bad script tile 0 item 1

{"seq":{"chroma_sampling":3,"enable_restoration":true},"frame":{"width":8,"height":8,"restoration":[{"lrf_type":3},{},{}]},"tiles":[[{"op":"Begin","x":0,"y":0},{"op":"Lrf","plane":0,"a":{"set":16,"xqd":[0,0]}},{"op":"Keep"}]]}
7
bad script tile 0 item 1

{"seq":{"chroma_sampling":3,"enable_restoration":true},"frame":{"width":8,"height":8,"restoration":[{"lrf_type":3},{},{}]},"tiles":[[{"op":"Lrf","plane":0,"a":{}}]]}
5
bad shape at /tiles/0/0/a/set

{"seq":{"chroma_sampling":3,"enable_restoration":true},"frame":{"width":8,"height":8,"restoration":[{"lrf_type":3},{},{}]},"tiles":[[{"op":"Lrf","plane":0,"a":{"wiener":[[0,0,0]]}}]]}
5
bad shape at /tiles/0/0/a/wiener"#;
