// Texts and their answers. The answers were computed by a program of their own, from the description of the format.

/// A row is an answer and a text; an empty line ends it. An answer is `fits`, `bad text`, or `at` and the path of the first place that does
/// not fit.
pub const PATHS: &str = r#"bad text
{"tiles":[

bad text
nul

bad text
[1,]

at 
[]

at 
null

at 
3

at 
"frame"

at /frame
{}

at /frame/width
{"frame":{}}

at /frame
{"tiles":[]}

at /tiles
{"frame":{"width":8,"height":8}}

at /frame/width
{"frame":{"height":8},"tiles":[[]]}

fits
{"frame":{"width":8,"height":8},"tiles":[[]]}

fits
{"frame":{"width":8,"height":8},"tiles":[]}

at /tiles
{"frame":{"width":8,"height":8},"tiles":{}}

at /tiles/0
{"frame":{"width":8,"height":8},"tiles":[{}]}

at /tiles/1
{"frame":{"width":8,"height":8},"tiles":[[],3]}

at /frame/width
{"frame":{"width":8.5,"height":8},"tiles":[[]]}

at /frame/width
{"frame":{"width":8.0,"height":8},"tiles":[[]]}

at /frame/width
{"frame":{"width":8e0,"height":8},"tiles":[[]]}

at /frame/width
{"frame":{"width":-0,"height":8},"tiles":[[]]}

at /frame/width
{"frame":{"width":-1,"height":8},"tiles":[[]]}

at /frame/width
{"frame":{"width":9223372036854775808,"height":8},"tiles":[[]]}

fits
{"frame":{"width":9223372036854775807,"height":8},"tiles":[[]]}

at /frame/width
{"frame":{"width":"8","height":8},"tiles":[[]]}

at /frame/width
{"frame":{"width":null,"height":8},"tiles":[[]]}

at /frame/width
{"frame":{"width":18446744073709551616,"height":8},"tiles":[[]]}

at /frame/height
{"frame":{"width":8,"height":true,"width":9},"tiles":[[]]}

fits
{"frame":{"width":true,"height":8,"width":9},"tiles":[[]]}

at /frame/extra
{"frame":{"width":8,"height":8,"extra":0},"tiles":[[]]}

at /frame/Extra
{"frame":{"width":8,"height":8,"extra":0,"Extra":0,"zoo":1},"tiles":[[]]}

at /frame/zz
{"frame":{"width":8,"height":8,"é":0,"zz":1},"tiles":[[]]}

at /frame/a~1b~0c
{"frame":{"width":8,"height":8,"a/b~c":0},"tiles":[[]]}

at /frame/~01
{"frame":{"width":8,"height":8,"~1":0},"tiles":[[]]}

at /frame/
{"frame":{"width":8,"height":8,"":0},"tiles":[[]]}

at /frame/"x y
{"frame":{"width":8,"height":8,"\"x y":0},"tiles":[[]]}

at /frame/base_q_idx
{"frame":{"width":8,"height":8,"base_q_idx":256,"Extra":0},"tiles":[[]]}

at /frame/dc_delta_q/1
{"frame":{"width":8,"height":8,"ac_delta_q":[0,0,128],"dc_delta_q":[0,-129,0]},"tiles":[[]]}

at /via
{"frame":{"width":8,"height":8},"extra":0,"via":3,"tiles":[[]]}

at /extra
{"frame":{"width":8,"height":8},"extra":0,"zoo":0,"tiles":[[]]}

at /Tables
{"frame":{"width":8,"height":8},"Tables":0,"tiles":[[]]}

at /seq
{"frame":{"width":8,"height":8},"seq":[],"tiles":[[]]}

at /seq/profile
{"frame":{"width":8,"height":8},"seq":{"profile":256},"tiles":[[]]}

at /seq/chroma_sampling
{"frame":{"width":8,"height":8},"seq":{"chroma_sampling":4},"tiles":[[]]}

at /seq/chroma_sampling
{"frame":{"width":8,"height":8},"seq":{"chroma_sampling":-1},"tiles":[[]]}

at /seq/pixel_range
{"frame":{"width":8,"height":8},"seq":{"pixel_range":2},"tiles":[[]]}

at /seq/time_base/den
{"frame":{"width":8,"height":8},"seq":{"time_base":{"num":1,"den":-1}},"tiles":[[]]}

at /seq/time_base/dem
{"frame":{"width":8,"height":8},"seq":{"time_base":{"num":1,"dem":1}},"tiles":[[]]}

at /seq/color_description
{"frame":{"width":8,"height":8},"seq":{"color_description":[1,2]},"tiles":[[]]}

at /seq/color_description/2
{"frame":{"width":8,"height":8},"seq":{"color_description":[1,2,256]},"tiles":[[]]}

at /seq/content_light/1
{"frame":{"width":8,"height":8},"seq":{"content_light":[1,65536]},"tiles":[[]]}

fits
{"frame":{"width":8,"height":8},"seq":{"mastering_display":{}},"tiles":[[]]}

at /seq/mastering_display/primaries/2
{"frame":{"width":8,"height":8},"seq":{"mastering_display":{"primaries":[[1,2],[3,4],[5]]}},"tiles":[[]]}

at /seq/mastering_display/primaries/2/1
{"frame":{"width":8,"height":8},"seq":{"mastering_display":{"primaries":[[1,2],[3,4],[5,65536]]}},"tiles":[[]]}

at /seq/mastering_display/white_point
{"frame":{"width":8,"height":8},"seq":{"mastering_display":{"white_point":{}}},"tiles":[[]]}

at /seq/mastering_display/max_luminance
{"frame":{"width":8,"height":8},"seq":{"mastering_display":{"min_luminance":4294967296,"max_luminance":-1}},"tiles":[[]]}

fits
{"frame":{"width":8,"height":8},"seq":{"force_integer_mv":4294967295},"tiles":[[]]}

at /seq/still_picture
{"frame":{"width":8,"height":8},"seq":{"still_picture":1},"tiles":[[]]}

at /frame/frame_type
{"frame":{"width":8,"height":8,"frame_type":4},"tiles":[[]]}

at /frame/reference_mode
{"frame":{"width":8,"height":8,"reference_mode":3},"tiles":[[]]}

at /frame/globalmv_transformation_type/4
{"frame":{"width":8,"height":8,"globalmv_transformation_type":[0,1,2,3,4,0,0]},"tiles":[[]]}

at /frame/globalmv_transformation_type
{"frame":{"width":8,"height":8,"globalmv_transformation_type":[0,1,2,3]},"tiles":[[]]}

at /frame/ref_frames
{"frame":{"width":8,"height":8,"ref_frames":[0,0,0,0,0,0]},"tiles":[[]]}

at /frame/ref_frame_sign_bias/6
{"frame":{"width":8,"height":8,"ref_frame_sign_bias":[true,true,true,true,true,true,0]},"tiles":[[]]}

at /frame/tile_width_sb
{"frame":{"width":8,"height":8,"tile_width_sb":[]},"tiles":[[]]}

at /frame/render_height
{"frame":{"width":8,"height":8,"render_height":-7},"tiles":[[]]}

at /frame/film_grain
{"frame":{"width":8,"height":8,"film_grain":0},"tiles":[[]]}

fits
{"frame":{"width":8,"height":8,"film_grain":null},"tiles":[[]]}

at /frame/film_grain/scaling_points_y
{"frame":{"width":8,"height":8,"film_grain":{}},"tiles":[[]]}

fits
{"frame":{"width":8,"height":8,"film_grain":{"scaling_points_y":[],"scaling_points_cb":[],"scaling_points_cr":[],"scaling_shift":0,"ar_coeff_lag":0,"ar_coeffs_y":[],"ar_coeffs_cb":[],"ar_coeffs_cr":[],"ar_coeff_shift":0,"cb_mult":0,"cb_luma_mult":0,"cb_offset":0,"cr_mult":0,"cr_luma_mult":0,"cr_offset":0,"overlap_flag":false,"chroma_scaling_from_luma":false,"grain_scale_shift":0,"random_seed":0}},"tiles":[[]]}

at /frame/film_grain/scaling_points_y
{"frame":{"width":8,"height":8,"film_grain":{"scaling_points_y":[[0,0],[0,0],[0,0],[0,0],[0,0],[0,0],[0,0],[0,0],[0,0],[0,0],[0,0],[0,0],[0,0],[0,0],[0,0],[0,0],[0,0]],"scaling_points_cb":[],"scaling_points_cr":[],"scaling_shift":0,"ar_coeff_lag":0,"ar_coeffs_y":[],"ar_coeffs_cb":[],"ar_coeffs_cr":[],"ar_coeff_shift":0,"cb_mult":0,"cb_luma_mult":0,"cb_offset":0,"cr_mult":0,"cr_luma_mult":0,"cr_offset":0,"overlap_flag":false,"chroma_scaling_from_luma":false,"grain_scale_shift":0,"random_seed":0}},"tiles":[[]]}

at /frame/film_grain/scaling_points_y
{"frame":{"width":8,"height":8,"film_grain":{"scaling_points_y":[[0,0],[0,0],[0,0],[0,0],[0,0],[0,0],[0,0],[0,0],[0,0],[0,0],[0,0],[0,0],[0,0],[0,0],[0,0]],"scaling_points_cb":[],"scaling_points_cr":[],"scaling_shift":0,"ar_coeff_lag":0,"ar_coeffs_y":[],"ar_coeffs_cb":[],"ar_coeffs_cr":[],"ar_coeff_shift":0,"cb_mult":0,"cb_luma_mult":0,"cb_offset":0,"cr_mult":0,"cr_luma_mult":0,"cr_offset":0,"overlap_flag":false,"chroma_scaling_from_luma":false,"grain_scale_shift":0,"random_seed":0}},"tiles":[[]]}

fits
{"frame":{"width":8,"height":8,"film_grain":{"scaling_points_y":[[0,0],[0,0],[0,0],[0,0],[0,0],[0,0],[0,0],[0,0],[0,0],[0,0],[0,0],[0,0],[0,0],[0,0]],"scaling_points_cb":[],"scaling_points_cr":[],"scaling_shift":0,"ar_coeff_lag":0,"ar_coeffs_y":[],"ar_coeffs_cb":[],"ar_coeffs_cr":[],"ar_coeff_shift":0,"cb_mult":0,"cb_luma_mult":0,"cb_offset":0,"cr_mult":0,"cr_luma_mult":0,"cr_offset":0,"overlap_flag":false,"chroma_scaling_from_luma":false,"grain_scale_shift":0,"random_seed":0}},"tiles":[[]]}

at /frame/film_grain/scaling_points_cb
{"frame":{"width":8,"height":8,"film_grain":{"scaling_points_y":[],"scaling_points_cb":[[0,0],[0,0],[0,0],[0,0],[0,0],[0,0],[0,0],[0,0],[0,0],[0,0],[0,0]],"scaling_points_cr":[],"scaling_shift":0,"ar_coeff_lag":0,"ar_coeffs_y":[],"ar_coeffs_cb":[],"ar_coeffs_cr":[],"ar_coeff_shift":0,"cb_mult":0,"cb_luma_mult":0,"cb_offset":0,"cr_mult":0,"cr_luma_mult":0,"cr_offset":0,"overlap_flag":false,"chroma_scaling_from_luma":false,"grain_scale_shift":0,"random_seed":0}},"tiles":[[]]}

at /frame/film_grain/scaling_points_cr/9/1
{"frame":{"width":8,"height":8,"film_grain":{"scaling_points_y":[],"scaling_points_cb":[],"scaling_points_cr":[[0,0],[0,0],[0,0],[0,0],[0,0],[0,0],[0,0],[0,0],[0,0],[0,256]],"scaling_shift":0,"ar_coeff_lag":0,"ar_coeffs_y":[],"ar_coeffs_cb":[],"ar_coeffs_cr":[],"ar_coeff_shift":0,"cb_mult":0,"cb_luma_mult":0,"cb_offset":0,"cr_mult":0,"cr_luma_mult":0,"cr_offset":0,"overlap_flag":false,"chroma_scaling_from_luma":false,"grain_scale_shift":0,"random_seed":0}},"tiles":[[]]}

at /frame/film_grain/scaling_points_cr/9
{"frame":{"width":8,"height":8,"film_grain":{"scaling_points_y":[],"scaling_points_cb":[],"scaling_points_cr":[[0,0],[0,0],[0,0],[0,0],[0,0],[0,0],[0,0],[0,0],[0,0],[0]],"scaling_shift":0,"ar_coeff_lag":0,"ar_coeffs_y":[],"ar_coeffs_cb":[],"ar_coeffs_cr":[],"ar_coeff_shift":0,"cb_mult":0,"cb_luma_mult":0,"cb_offset":0,"cr_mult":0,"cr_luma_mult":0,"cr_offset":0,"overlap_flag":false,"chroma_scaling_from_luma":false,"grain_scale_shift":0,"random_seed":0}},"tiles":[[]]}

at /frame/film_grain/ar_coeffs_y
{"frame":{"width":8,"height":8,"film_grain":{"scaling_points_y":[],"scaling_points_cb":[],"scaling_points_cr":[],"scaling_shift":0,"ar_coeff_lag":0,"ar_coeffs_y":[0,0,0,0,0,0,0,0,0,0,0,0,0,0,0,0,0,0,0,0,0,0,0,0,0],"ar_coeffs_cb":[],"ar_coeffs_cr":[],"ar_coeff_shift":0,"cb_mult":0,"cb_luma_mult":0,"cb_offset":0,"cr_mult":0,"cr_luma_mult":0,"cr_offset":0,"overlap_flag":false,"chroma_scaling_from_luma":false,"grain_scale_shift":0,"random_seed":0}},"tiles":[[]]}

at /frame/film_grain/ar_coeffs_cr
{"frame":{"width":8,"height":8,"film_grain":{"scaling_points_y":[],"scaling_points_cb":[],"scaling_points_cr":[],"scaling_shift":0,"ar_coeff_lag":0,"ar_coeffs_y":[0,0,0,0,0,0,0,0,0,0,0,0,0,0,0,0,0,0,0,0,0,0,0,0],"ar_coeffs_cb":[0,0,0,0,0,0,0,0,0,0,0,0,0,0,0,0,0,0,0,0,0,0,0,0,0],"ar_coeffs_cr":[0,0,0,0,0,0,0,0,0,0,0,0,0,0,0,0,0,0,0,0,0,0,0,0,0,0],"ar_coeff_shift":0,"cb_mult":0,"cb_luma_mult":0,"cb_offset":0,"cr_mult":0,"cr_luma_mult":0,"cr_offset":0,"overlap_flag":false,"chroma_scaling_from_luma":false,"grain_scale_shift":0,"random_seed":0}},"tiles":[[]]}

at /frame/film_grain/ar_coeffs_cr/24
{"frame":{"width":8,"height":8,"film_grain":{"scaling_points_y":[],"scaling_points_cb":[],"scaling_points_cr":[],"scaling_shift":0,"ar_coeff_lag":0,"ar_coeffs_y":[],"ar_coeffs_cb":[],"ar_coeffs_cr":[0,0,0,0,0,0,0,0,0,0,0,0,0,0,0,0,0,0,0,0,0,0,0,0,-129],"ar_coeff_shift":0,"cb_mult":0,"cb_luma_mult":0,"cb_offset":0,"cr_mult":0,"cr_luma_mult":0,"cr_offset":0,"overlap_flag":false,"chroma_scaling_from_luma":false,"grain_scale_shift":0,"random_seed":0}},"tiles":[[]]}

at /frame/film_grain/overlap_flag
{"frame":{"width":8,"height":8,"film_grain":{"scaling_points_y":[],"scaling_points_cb":[],"scaling_points_cr":[],"scaling_shift":0,"ar_coeff_lag":0,"ar_coeffs_y":[],"ar_coeffs_cb":[],"ar_coeffs_cr":[],"ar_coeff_shift":0,"cb_mult":0,"cb_luma_mult":0,"cb_offset":0,"cr_mult":0,"cr_luma_mult":0,"cr_offset":0,"overlap_flag":0,"chroma_scaling_from_luma":false,"grain_scale_shift":0,"random_seed":0}},"tiles":[[]]}

at /frame/film_grain/random_seed
{"frame":{"width":8,"height":8,"film_grain":{"scaling_points_y":[],"scaling_points_cb":[],"scaling_points_cr":[],"scaling_shift":0,"ar_coeff_lag":0,"ar_coeffs_y":[],"ar_coeffs_cb":[],"ar_coeffs_cr":[],"ar_coeff_shift":0,"cb_mult":0,"cb_luma_mult":0,"cb_offset":0,"cr_mult":0,"cr_luma_mult":0,"cr_offset":0,"overlap_flag":false,"chroma_scaling_from_luma":false,"grain_scale_shift":0}},"tiles":[[]]}

at /frame/film_grain/ar_coeff_lag
{"frame":{"width":8,"height":8,"film_grain":{"scaling_points_y":[],"scaling_points_cb":[],"scaling_points_cr":[],"scaling_shift":0,"ar_coeffs_y":[],"ar_coeffs_cb":[],"ar_coeffs_cr":[],"ar_coeff_shift":0,"cb_mult":0,"cb_luma_mult":0,"cb_offset":0,"cr_mult":0,"cr_luma_mult":0,"cr_offset":0,"overlap_flag":false,"chroma_scaling_from_luma":false,"grain_scale_shift":0}},"tiles":[[]]}

at /frame/segmentation/features
{"frame":{"width":8,"height":8,"segmentation":{"features":[[false,false,false,false,false,false,false,false]]}},"tiles":[[]]}

at /frame/segmentation/values/3/3
{"frame":{"width":8,"height":8,"segmentation":{"values":[[0,0,0,0,0,0,0,0],[0,0,0,0,0,0,0,0],[0,0,0,0,0,0,0,0],[0,0,0,32768,0,0,0,0],[0,0,0,0,0,0,0,0],[0,0,0,0,0,0,0,0],[0,0,0,0,0,0,0,0],[0,0,0,0,0,0,0,0]]}},"tiles":[[]]}

at /frame/segmentation/values
{"frame":{"width":8,"height":8,"segmentation":{"values":[[0,0,0,0,0,0,0,0],[0,0,0,0,0,0,0]]}},"tiles":[[]]}

at /frame/enable_segmentation
{"frame":{"width":8,"height":8,"enable_segmentation":true},"tiles":[[]]}

at /frame/deblock/levels
{"frame":{"width":8,"height":8,"deblock":{"levels":[1,2,3]}},"tiles":[[]]}

at /frame/deblock/ref_deltas/7
{"frame":{"width":8,"height":8,"deblock":{"mode_deltas":[127,-128],"ref_deltas":[0,0,0,0,0,0,0,-129]}},"tiles":[[]]}

at /frame/deblock/level
{"frame":{"width":8,"height":8,"deblock":{"level":[1,2,3,4]}},"tiles":[[]]}

at /frame/restoration/2/unit_size
{"frame":{"width":8,"height":8,"restoration":[{},{},{"unit_size":-1}]},"tiles":[[]]}

at /frame/restoration
{"frame":{"width":8,"height":8,"restoration":[{},{}]},"tiles":[[]]}

at /frame/restoration/1/lrf_type
{"frame":{"width":8,"height":8,"restoration":[{},{"lrf_type":256},{}]},"tiles":[[]]}

at /frame/restoration
{"frame":{"width":8,"height":8,"restoration":{"planes":[]}},"tiles":[[]]}

at /frame/max_tile_size_bytes
{"frame":{"width":8,"height":8,"max_tile_size_bytes":1},"tiles":[[]]}

at /frame/sequence
{"frame":{"width":8,"height":8,"sequence":{}},"tiles":[[]]}

at /refs
{"frame":{"width":8,"height":8},"refs":[],"tiles":[[]]}

at /refs
{"frame":{"width":8,"height":8},"refs":[null,null,null,null,null,null,null],"tiles":[[]]}

at /refs/2/render_height
{"frame":{"width":8,"height":8},"refs":[null,null,{"width":1,"height":1,"render_width":1},null,null,null,null,null],"tiles":[[]]}

at /refs/7/mode_deltas/1
{"frame":{"width":8,"height":8},"refs":[null,null,null,null,null,null,null,{"width":1,"height":1,"render_width":1,"render_height":1,"mode_deltas":[0,128]}],"tiles":[[]]}

at /refs/1/hint
{"frame":{"width":8,"height":8},"refs":[null,{"width":1,"height":1,"render_width":1,"render_height":1,"hint":0},null,null,null,null,null,null],"tiles":[[]]}

fits
{"frame":{"width":8,"height":8},"metadata":[{}],"tiles":[[]]}

at /metadata/2
{"frame":{"width":8,"height":8},"metadata":["cll","mdcv","t35"],"tiles":[[]]}

at /metadata/0
{"frame":{"width":8,"height":8},"metadata":[null],"tiles":[[]]}

at /metadata/0/country_code
{"frame":{"width":8,"height":8},"metadata":[{"country_code":256}],"tiles":[[]]}

at /metadata/1/payload/2
{"frame":{"width":8,"height":8},"metadata":["mdcv",{"payload":[0,255,256]}],"tiles":[[]]}

at /metadata/0/payload
{"frame":{"width":8,"height":8},"metadata":[{"payload":{}}],"tiles":[[]]}

at /metadata/0/extra
{"frame":{"width":8,"height":8},"metadata":[{"payload":[],"extra":0}],"tiles":[[]]}

at /metadata
{"frame":{"width":8,"height":8},"metadata":{},"tiles":[[]]}

at /metadata
{"frame":{"width":8,"height":8},"metadata":null,"tiles":[[]]}

at /delimiter
{"frame":{"width":8,"height":8},"delimiter":null,"tiles":[[]]}

at /eob_by_coded
{"frame":{"width":8,"height":8},"eob_by_coded":null,"tiles":[[]]}

at /eob_by_coded
{"frame":{"width":8,"height":8},"eob_by_coded":1,"tiles":[[]]}

fits
{"frame":{"width":8,"height":8},"delimiter":true,"eob_by_coded":true,"via":"direct","tiles":[[]]}

at /via
{"frame":{"width":8,"height":8},"via":"Direct","tiles":[[]]}

at /via
{"frame":{"width":8,"height":8},"via":null,"tiles":[[]]}

at /tables
{"frame":{"width":8,"height":8},"tables":"Uniform","tiles":[[]]}

at /tables
{"frame":{"width":8,"height":8},"tables":null,"tiles":[[]]}

at /tables
{"frame":{"width":8,"height":8},"tables":[[],[],[]],"tiles":[[]]}

at /tables
{"frame":{"width":8,"height":8},"tables":[[],[],[],[],[]],"tiles":[[]]}

at /tables/2/1
{"frame":{"width":8,"height":8},"tables":[[],[65535],[0,65536],[]],"tiles":[[]]}

at /tables/1
{"frame":{"width":8,"height":8},"tables":[[],3,[],[]],"tiles":[[]]}

fits
{"frame":{"width":8,"height":8},"tables":[[],[1],[2,3],[]],"tiles":[[]]}

fits
{"frame":{"width":8,"height":8},"scans":"diagonal","tiles":[[]]}

at /scans
{"frame":{"width":8,"height":8},"scans":"Diagonal","tiles":[[]]}

at /scans
{"frame":{"width":8,"height":8},"scans":null,"tiles":[[]]}

at /scans
{"frame":{"width":8,"height":8},"scans":{},"tiles":[[]]}

at /scans
{"frame":{"width":8,"height":8},"scans":[],"tiles":[[]]}

at /scans
{"frame":{"width":8,"height":8},"scans":[[[],[],[]],[[],[],[]],[[],[],[]],[[],[],[]],[[],[],[]],[[],[],[]],[[],[],[]],[[],[],[]],[[],[],[]],[[],[],[]],[[],[],[]],[[],[],[]],[[],[],[]],[[],[],[]],[[],[],[]],[[],[],[]],[[],[],[]],[[],[],[]]],"tiles":[[]]}

at /scans
{"frame":{"width":8,"height":8},"scans":[[[],[],[]],[[],[],[]],[[],[],[]],[[],[],[]],[[],[],[]],[[],[],[]],[[],[],[]],[[],[],[]],[[],[],[]],[[],[],[]],[[],[],[]],[[],[],[]],[[],[],[]],[[],[],[]],[[],[],[]],[[],[],[]],[[],[],[]],[[],[],[]],[[],[],[]],[[],[],[]]],"tiles":[[]]}

fits
{"frame":{"width":8,"height":8},"scans":[[[],[],[]],[[],[],[]],[[],[],[]],[[],[],[]],[[],[],[]],[[],[],[]],[[],[],[]],[[],[],[]],[[],[],[]],[[],[],[]],[[],[],[]],[[],[],[]],[[],[],[]],[[],[],[]],[[],[],[]],[[],[],[]],[[],[],[]],[[],[],[]],[[],[],[]]],"tiles":[[]]}

at /scans/3
{"frame":{"width":8,"height":8},"scans":[[[],[],[]],[[],[],[]],[[],[],[]],[[],[]],[[],[],[]],[[],[],[]],[[],[],[]],[[],[],[]],[[],[],[]],[[],[],[]],[[],[],[]],[[],[],[]],[[],[],[]],[[],[],[]],[[],[],[]],[[],[],[]],[[],[],[]],[[],[],[]],[[],[],[]]],"tiles":[[]]}

at /scans/0
{"frame":{"width":8,"height":8},"scans":[[[],[],[],[]],[[],[],[]],[[],[],[]],[[],[],[]],[[],[],[]],[[],[],[]],[[],[],[]],[[],[],[]],[[],[],[]],[[],[],[]],[[],[],[]],[[],[],[]],[[],[],[]],[[],[],[]],[[],[],[]],[[],[],[]],[[],[],[]],[[],[],[]],[[],[],[]]],"tiles":[[]]}

at /scans/7/0
{"frame":{"width":8,"height":8},"scans":[[[],[],[]],[[],[],[]],[[],[],[]],[[],[],[]],[[],[],[]],[[],[],[]],[[],[],[]],[0,[],[]],[],[[],[],[]],[[],[],[]],[[],[],[]],[[],[],[]],[[],[],[]],[[],[],[]],[[],[],[]],[[],[],[]],[[],[],[]],[[],[],[]]],"tiles":[[]]}

at /scans/18/2/1
{"frame":{"width":8,"height":8},"scans":[[[],[],[]],[[],[],[]],[[],[],[]],[[],[],[]],[[],[],[]],[[],[],[]],[[],[],[]],[[],[],[]],[[],[],[]],[[],[],[]],[[],[],[]],[[],[],[]],[[],[],[]],[[],[],[]],[[],[],[]],[[],[],[]],[[],[],[]],[[],[],[]],[[],[],[0,65536]]],"tiles":[[]]}

fits
{"frame":{"width":8,"height":8},"scans":[[[],[],[]],[[],[],[]],[[],[],[]],[[],[],[]],[[],[],[]],[[],[],[]],[[],[],[]],[[],[],[]],[[],[],[]],[[],[],[]],[[],[],[]],[[],[],[]],[[],[],[]],[[],[],[]],[[],[],[]],[[],[],[]],[[],[],[]],[[],[],[]],[[65535],[],[0,1]]],"tiles":[[]]}

at /scans/1
{"frame":{"width":8,"height":8},"scans":[[[],[],[]],"diagonal",[[],[],[]],[[],[],[]],[[],[],[]],[[],[],[]],[[],[],[]],[[],[],[]],[[],[],[]],[[],[],[]],[[],[],[]],[[],[],[]],[[],[],[]],[[],[],[]],[[],[],[]],[[],[],[]],[[],[],[]],[[],[],[]],[[],[],[]]],"tiles":[[]]}

at /scans
{"frame":{"width":8,"height":8},"scans":0,"seq":0,"tiles":[[]]}

at /tables
{"frame":{"width":8,"height":8},"scans":0,"tables":0,"tiles":[[]]}

at /scans
{"frame":{"width":8,"height":8},"scans":[],"frame":0,"tiles":[[]]}

fits
{"frame":{"width":8,"height":8},"tiles":[[],[]]}

at /tiles/1/0/op
{"frame":{"width":8,"height":8},"tiles":[[],[{}]]}

at /tiles/1/0
{"frame":{"width":8,"height":8},"tiles":[[],[3]]}

at /tiles/1/0
{"frame":{"width":8,"height":8},"tiles":[[],[[]]]}

at /tiles/1/0/op
{"frame":{"width":8,"height":8},"tiles":[[],[{"op":3}]]}

at /tiles/1/0/op
{"frame":{"width":8,"height":8},"tiles":[[],[{"op":null,"x":3}]]}

at /tiles/1/0/op
{"frame":{"width":8,"height":8},"tiles":[[],[{"op":"block"}]]}

at /tiles/1/0/x
{"frame":{"width":8,"height":8},"tiles":[[],[{"op":"Block"}]]}

at /tiles/1/0/size
{"frame":{"width":8,"height":8},"tiles":[[],[{"op":"Block","x":0,"y":0,"size":22}]]}

at /tiles/1/0/a
{"frame":{"width":8,"height":8},"tiles":[[],[{"op":"Block","x":0,"y":0,"size":21,"a":0}]]}

at /tiles/1/0/y
{"frame":{"width":8,"height":8},"tiles":[[],[{"op":"Block","x":0,"size":21}]]}

at /tiles/1/0/x
{"frame":{"width":8,"height":8},"tiles":[[],[{"op":"Block","x":-1,"y":-1,"size":0}]]}

fits
{"frame":{"width":8,"height":8},"tiles":[[],[{"op":"Block","x":9223372036854775807,"y":0,"size":0}]]}

at /tiles/1/0/a
{"frame":{"width":8,"height":8},"tiles":[[],[{"op":"Skip"}]]}

at /tiles/1/0/a
{"frame":{"width":8,"height":8},"tiles":[[],[{"op":"Skip","a":0}]]}

at /tiles/1/0/A
{"frame":{"width":8,"height":8},"tiles":[[],[{"op":"Skip","a":true,"A":true}]]}

at /tiles/1/1/a
{"frame":{"width":8,"height":8},"tiles":[[],[{"op":"Skip","a":true},{"op":"Keep","a":true}]]}

at /tiles/1/1/x
{"frame":{"width":8,"height":8},"tiles":[[],[{"op":"Keep"},{"op":"Abandon","x":1}]]}

at /tiles/1/0/y
{"frame":{"width":8,"height":8},"tiles":[[],[{"op":"Begin","x":1}]]}

at /tiles/1/0/size
{"frame":{"width":8,"height":8},"tiles":[[],[{"op":"Begin","x":1,"y":1,"size":0}]]}

at /tiles/1/2/a
{"frame":{"width":8,"height":8},"tiles":[[],[{"op":"Begin","x":1,"y":1},{"op":"Keep"},{"op":"Palette","a":0}]]}

at /tiles/1/1/op
{"frame":{"width":8,"height":8},"tiles":[[],[{"op":"Skip","a":true},{"zoo":1,"x":2}]]}"#;
