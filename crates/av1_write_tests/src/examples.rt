// The units of `examples/`, with what `NAME.out` beside each has. `scripts/example_rows.py` writes this file.

/// Rows as those of `ROWS`.
pub const EXAMPLES: &str =
    r#"{"seq":{"chroma_sampling":3},"frame":{"width":8,"height":8},"tiles":[[{"op":"Block","x":0,"y":0,"size":3},{"op":"Begin","x":0,"y":0},{"op":"Skip","a":false},{"op":"Abandon"},{"op":"Skip","a":true}]]}
0
12000a051808bf011032061640000000c0
tile 0 1 2
trial 0 1 9 abandoned

{"seq":{"chroma_sampling":0},"frame":{"width":16,"height":8},"tiles":[[{"op":"Block","x":0,"y":0,"size":3},{"op":"IntraModeKf","a":1},{"op":"AngleDelta","chroma":false,"a":-3},{"op":"UvMode","a":8},{"op":"AngleDelta","chroma":true,"a":1},{"op":"Block","x":2,"y":0,"size":3},{"op":"IntraModeKf","a":2},{"op":"AngleDelta","chroma":false,"a":0},{"op":"UvMode","a":13},{"op":"CflAlphas","a":[-4,16]}]]}
0
12000a05180cbf8005320a1640000000155ff4fc90
tile 0 5 36

{"frame":{"width":8.5,"height":8},"tiles":[[]]}
5
bad shape at /frame/width

{"seq":{"chroma_sampling":0},"frame":{"width":16,"height":8},"tiles":[[{"op":"Block","x":0,"y":0,"size":3},{"op":"Skip","a":false},{"op":"IntraModeKf","a":9},{"op":"UvMode","a":0},{"op":"Coeffs","plane":0,"x":0,"y":0,"tx_type":3,"a":[17,-2,0,0,1]},{"op":"Coeffs","plane":1,"x":0,"y":0,"tx_type":0,"a":[-1]},{"op":"Coeffs","plane":2,"x":0,"y":0,"tx_type":0,"a":[]},{"op":"Block","x":2,"y":0,"size":3},{"op":"Skip","a":false},{"op":"IntraModeKf","a":0},{"op":"UvMode","a":0},{"op":"Begin","x":2,"y":0},{"op":"Coeffs","plane":0,"x":2,"y":0,"tx_type":9,"a":[3,3,3,3]},{"op":"Abandon"},{"op":"Begin","x":2,"y":0},{"op":"Coeffs","plane":0,"x":2,"y":0,"tx_type":0,"a":[12]},{"op":"Keep"},{"op":"Coeffs","plane":1,"x":2,"y":0,"tx_type":0,"a":[]},{"op":"Coeffs","plane":2,"x":2,"y":0,"tx_type":0,"a":[0,1]}]]}
0
12000a05180cbf8005321016400000005911f7709666fec46d7f20
tile 0 11 83
trial 0 11 216 abandoned
trial 0 14 135 kept

{"seq":{"chroma_sampling":3,"still_picture":false,"reduced_still_picture_hdr":false},"frame":{"width":16,"height":8,"frame_type":1,"intra_only":false,"force_integer_mv":0,"refresh_frame_flags":0,"allow_high_precision_mv":true,"reference_mode":2,"ref_frame_sign_bias":[false,false,false,false,true,true,true]},"tiles":[[{"op":"Block","x":0,"y":0,"size":3},{"op":"Skip","a":true},{"op":"IsInter","a":true},{"op":"RefFrames","a":[1,7]},{"op":"MvRefs","has_tr":false},{"op":"CompoundMode","a":33},{"op":"Mv","list":0,"a":[3,-5]},{"op":"Mv","list":1,"a":[-3,5]},{"op":"Block","x":2,"y":0,"size":3},{"op":"Skip","a":true},{"op":"IsInter","a":true},{"op":"RefFrames","a":[1,7]},{"op":"MvRefs","has_tr":false},{"op":"CompoundMode","a":24},{"op":"Mv","list":1,"a":[-3,6]}]]}
0
1200321430e0000000436400000400f3ef5bb0c08dfeb960
tile 0 9 67

{"seq":{"chroma_sampling":3},"frame":{"width":8,"height":8},"tiles":[[]]}
0
12000a051808bf01103206164000000080
tile 0 1 1

{"seq":{"chroma_sampling":0,"film_grain_params_present":true},"frame":{"width":8,"height":8,"film_grain":{"scaling_points_y":[[0,20],[128,40],[255,30]],"scaling_points_cb":[[128,16]],"scaling_points_cr":[],"scaling_shift":10,"ar_coeff_lag":1,"ar_coeffs_y":[2,-3,4,5],"ar_coeffs_cb":[1,0,-1,0,6],"ar_coeffs_cr":[0,0,0,0,0],"ar_coeff_shift":7,"cb_mult":128,"cb_luma_mult":192,"cb_offset":256,"cr_mult":128,"cr_luma_mult":192,"cr_offset":256,"overlap_flag":true,"chroma_scaling_from_luma":false,"grain_scale_shift":0,"random_seed":1234}},"tiles":[[]]}
0
12000a051808bf000e321f16400000041348c005200a3fc78300201304fb090b0300ff010c9018100c80
tile 0 1 1

{"seq":{"chroma_sampling":0},"frame":{"width":8,"height":8,"deblock":{"block_deltas_enabled":true,"block_delta_multi":true}},"tiles":[[{"op":"Block","x":0,"y":0,"size":3},{"op":"DeltaLf","a":[0,2,-3,63]}]]}
0
12000a051808bf000a32091640000000261f0a80
tile 0 4 25

{"seq":{"chroma_sampling":0,"enable_cdef":true,"enable_restoration":true},"frame":{"width":64,"height":64,"base_q_idx":40,"cdef_damping":5,"cdef_bits":1,"cdef_y_strengths":[4,20,0,0,0,0,0,0],"cdef_uv_strengths":[0,5,0,0,0,0,0,0],"deblock":{"levels":[12,12,6,6],"sharpness":2},"segmentation":{"enabled":true,"update_map":true,"update_data":true,"features":[[true,false,false,false,false,false,false,false],[true,false,false,false,false,false,false,false],[false,false,false,false,false,false,false,false],[false,false,false,false,false,false,false,false],[false,false,false,false,false,false,false,false],[false,false,false,false,false,false,false,false],[false,false,false,false,false,false,false,false],[false,false,false,false,false,false,false,false]],"values":[[0,0,0,0,0,0,0,0],[-20,0,0,0,0,0,0,0],[0,0,0,0,0,0,0,0],[0,0,0,0,0,0,0,0],[0,0,0,0,0,0,0,0],[0,0,0,0,0,0,0,0],[0,0,0,0,0,0,0,0],[0,0,0,0,0,0,0,0]],"last_active_segid":1}},"tiles":[[{"op":"Block","x":0,"y":0,"size":9},{"op":"Skip","a":false},{"op":"Cdef","a":1}]]}
0
12000a0618157ffc30283216128060001f6000000000000001860c32488028280050
tile 0 1 4

{"seq":{"chroma_sampling":3,"still_picture":false,"reduced_still_picture_hdr":false},"frame":{"width":24,"height":8,"frame_type":1,"intra_only":false,"force_integer_mv":0,"refresh_frame_flags":0,"tx_mode_select":true},"tiles":[[{"op":"Block","x":0,"y":0,"size":3},{"op":"Skip","a":true},{"op":"IsInter","a":true},{"op":"RefFrames","a":[1,8]},{"op":"MvRefs","has_tr":false},{"op":"InterMode","a":19},{"op":"Mv","list":0,"a":[0,2]},{"op":"TxNote"},{"op":"Block","x":2,"y":0,"size":3},{"op":"Skip","a":true},{"op":"IsInter","a":true},{"op":"RefFrames","a":[1,8]},{"op":"MvRefs","has_tr":false},{"op":"InterMode","a":19},{"op":"Mv","list":0,"a":[-8,4]},{"op":"TxNote"},{"op":"Block","x":4,"y":0,"size":3},{"op":"Skip","a":false},{"op":"IsInter","a":true},{"op":"RefFrames","a":[1,8]},{"op":"MvRefs","has_tr":false},{"op":"Begin","x":4,"y":0},{"op":"InterMode","a":14},{"op":"Abandon"},{"op":"InterMode","a":19},{"op":"Drl","idx":0,"a":true},{"op":"Mv","list":0,"a":[0,4]},{"op":"TxInter","a":false},{"op":"Coeffs","plane":0,"x":4,"y":0,"tx_type":9,"a":[2,-1]}]]}
0
1200321430e0000000036400000800c0fcfc8efa6fcbca10
tile 0 9 68
trial 0 21 25 abandoned

{"seq":{"chroma_sampling":3,"still_picture":false,"reduced_still_picture_hdr":false,"enable_order_hint":true,"order_hint_bits_minus_1":6},"frame":{"width":8,"height":8,"frame_type":1,"intra_only":false,"force_integer_mv":0,"order_hint":1,"refresh_frame_flags":1,"error_resilient":true},"refs":[{"width":8,"height":8,"render_width":8,"render_height":8},null,null,null,null,null,null,null],"tiles":[[{"op":"Block","x":0,"y":0,"size":3},{"op":"Skip","a":true},{"op":"IntraMode","a":1}]]}
0
12003214380202000000000000000000001b20000000008c
tile 0 1 6

{"seq":{"chroma_sampling":0,"enable_filter_intra":true},"frame":{"width":8,"height":8,"allow_screen_content_tools":1},"tiles":[[{"op":"RowStart"},{"op":"Partition","x":0,"y":0,"size":3,"a":0},{"op":"Block","x":0,"y":0,"size":3},{"op":"Skip","a":true},{"op":"IntraModeKf","a":0},{"op":"UvMode","a":13},{"op":"Palette","a":false},{"op":"FilterIntra","a":false}]]}
0
12000a051808bf400a320765900000002254
tile 0 2 14

{"seq":{"chroma_sampling":3,"content_light":[1000,400],"mastering_display":{"primaries":[[45875,19661],[11796,52429],[8520,3277]],"white_point":[20493,21561],"max_luminance":256000,"min_luminance":164}},"frame":{"width":8,"height":8},"metadata":["cll","mdcv",{"country_code":181,"payload":[0,60,0,1]}],"delimiter":false,"tiles":[[]]}
0
0a051808bf01102a060103e80190802a1a02b3334ccd2e14cccd21480ccd500d54390003e800000000a4802a0704b5003c0001803206164000000080
tile 0 1 1

{"seq":{"chroma_sampling":3},"frame":{"width":8,"height":8},"tables":"uniform","via":"recorded","tiles":[[{"op":"Block","x":0,"y":0,"size":3},{"op":"Skip","a":false}]]}
0
12000a051808bf01103206164000000020
tile 0 1 3

{"seq":{"chroma_sampling":3},"frame":{"width":8,"height":8},"tiles":[[{"op":"Block","x":0,"y":0,"size":3},{"op":"Block","x":9,"y":0,"size":3}]]}
6
refused tile 0 item 1 r60

{"seq":{"chroma_sampling":3},"frame":{"width":8,"height":8},"tiles":[[{"op":"Block","x":0,"y":0,"size":0},{"op":"Coeffs","plane":0,"x":0,"y":0,"tx_type":0,"a":[5,0]}]]}
6
refused tile 0 item 1 r84

{"seq":{"chroma_sampling":0,"enable_restoration":true},"frame":{"width":8,"height":8,"restoration":[{"lrf_type":1},{"lrf_type":2},{"lrf_type":3}]},"tiles":[[{"op":"RowStart"},{"op":"Lrf","plane":0,"a":{"wiener":[[3,-7,15],[4,-8,20]]}},{"op":"Lrf","plane":1,"a":{"wiener":[[0,-7,15],[0,8,46]]}},{"op":"Lrf","plane":2,"a":{"set":14,"xqd":[-32,95]}},{"op":"Lrf","plane":0,"a":null}]]}
0
12000a051808bf040a320e164000000d8055869081f57413c0
tile 0 8 58

{"seq":{"chroma_sampling":3},"frame":{"width":8,"height":8,"segmentation":{"enabled":true,"update_map":true,"update_data":true,"features":[[false,false,false,false,false,false,false,false],[false,false,false,false,false,false,false,false],[true,false,false,false,false,false,false,false],[false,true,false,false,false,false,false,false],[false,false,false,false,false,false,false,false],[false,false,false,false,false,false,false,false],[false,false,false,false,false,false,false,false],[false,false,false,false,false,false,false,false]],"values":[[0,0,0,0,0,0,0,0],[0,0,0,0,0,0,0,0],[-40,0,0,0,0,0,0,0],[0,12,0,0,0,0,0,0],[0,0,0,0,0,0,0,0],[0,0,0,0,0,0,0,0],[0,0,0,0,0,0,0,0],[0,0,0,0,0,0,0,0]],"last_active_segid":3}},"tiles":[[{"op":"Block","x":0,"y":0,"size":0},{"op":"Skip","a":false},{"op":"Segment","a":2},{"op":"Block","x":1,"y":0,"size":0},{"op":"Skip","a":false},{"op":"Segment","a":3},{"op":"Block","x":0,"y":1,"size":0},{"op":"Skip","a":true},{"op":"Segment","a":2}]]}
0
12000a051808bf0110321116420001ec004600000000000000002220
tile 0 2 11

{"seq":{"profile":1,"chroma_sampling":2,"bit_depth":10,"pixel_range":1,"color_description":[9,16,9],"still_picture":false,"reduced_still_picture_hdr":false,"timing_info_present":true,"time_base":{"num":1,"den":25},"enable_order_hint":true,"order_hint_bits_minus_1":6},"frame":{"width":64,"height":48,"order_hint":5},"tiles":[[]]}
0
12000a1524000000040000006700000055fef009e1848804e832081015b20000000080
tile 0 1 1

{"seq":{"chroma_sampling":3},"frame":{"width":32,"height":16,"tx_mode_select":true},"tiles":[[{"op":"Block","x":0,"y":0,"size":6},{"op":"IntraModeKf","a":0},{"op":"TxIntra","a":1},{"op":"Block","x":4,"y":0,"size":4},{"op":"IntraModeKf","a":0},{"op":"TxNote"},{"op":"Block","x":6,"y":0,"size":4},{"op":"IntraModeKf","a":0},{"op":"TxIntra","a":0}]]}
0
12000a051810ffe0223207164000008006a4
tile 0 2 14

{"seq":{"chroma_sampling":3},"frame":{"width":8,"height":8},"tiles":[[{"op":"Block","x":0,"y":0,"size":0},{"op":"Skip","a":true},{"op":"Block","x":1,"y":0,"size":0},{"op":"Skip","a":false}]]}
0
12000a051808bf011032061640000000a0
tile 0 1 3

{"seq":{"chroma_sampling":3},"frame":{"width":128,"height":64,"tile_width_sb":1},"tiles":[[{"op":"Block","x":0,"y":0,"size":12},{"op":"Skip","a":true},{"op":"IntraModeKf","a":0}],[{"op":"Begin","x":0,"y":0},{"op":"Partition","x":0,"y":0,"size":12,"a":3},{"op":"Keep"},{"op":"Partition","x":0,"y":0,"size":9,"a":0}]]}
0
12000a0618197ffe0220320918640000000000844d
tile 0 1 6
tile 1 1 8
trial 1 0 27 kept

{"seq":{"chroma_sampling":3},"frame":{"width":8,"height":8},"tiles":[[{"op":"RowStart"},{"op":"Partition","x":0,"y":0,"size":12,"a":3},{"op":"Partition","x":0,"y":0,"size":9,"a":3},{"op":"Partition","x":0,"y":0,"size":6,"a":3},{"op":"Partition","x":0,"y":0,"size":3,"a":0},{"op":"Block","x":0,"y":0,"size":3},{"op":"Skip","a":true},{"op":"IntraModeKf","a":0},{"op":"TxNote"}]]}
0
12000a051808bf01103206164000000021
tile 0 1 8"#;
