// Texts and the values of all members. They were computed by a program of their own, from the description of the format.

/// A row is a text and the lines that say the values of all members; an empty line ends it.
pub const UNITS: &str = r#"{"frame":{"width":8,"height":130},"tiles":[[]]}
tables 5528 5528 5528 5528
scans 19 16 16 16 64 64 64 256 256 256 1024 1024 1024 1024 1024 1024 32 32 32 32 32 32 128 128 128 128 128 128 512 512 512 512 512 512 1024 1024 1024 1024 1024 1024 64 64 64 64 64 64 256 256 256 256 256 256 512 512 512 512 512 512
scan 0 1 4 2 5 8 3 6 9 12 7 10 13 11 14 15
scan 0 1 4 2 5 8 3 6 9 12 7 10 13 11 14 15
scan 0 1 4 2 5 8 3 6 9 12 7 10 13 11 14 15
seq flags true true false false false false false false false false
seq flags false false false false false false false false false
seq bytes 0 0 8 0
seq numbers 2 2 0
time base 0 0
seq enums 0 0
sides 8 130 1 3 8 130
frame enums 0 0 0 0 0 0 0 0 0
frame flags true false false false true false false false false false
frame flags false false false true false false false false false false false
frame numbers 0 0 1 0 7 255 0
frame bytes 100 3 0
ref frames 0 0 0 0 0 0 0
sign bias false false false false false false false
dc 0 0 0
ac 0 0 0
y strengths 0 0 0 0 0 0 0 0
uv strengths 0 0 0 0 0 0 0 0
tile 0
segment flags false false false
features false false false false false false false false
values 0 0 0 0 0 0 0 0
features false false false false false false false false
values 0 0 0 0 0 0 0 0
features false false false false false false false false
values 0 0 0 0 0 0 0 0
features false false false false false false false false
values 0 0 0 0 0 0 0 0
features false false false false false false false false
values 0 0 0 0 0 0 0 0
features false false false false false false false false
values 0 0 0 0 0 0 0 0
features false false false false false false false false
values 0 0 0 0 0 0 0 0
features false false false false false false false false
values 0 0 0 0 0 0 0 0
last 0
levels 0 0 0 0
deblock bytes 0 0
deblock flags false false false false
ref deltas 0 0 0 0 0 0 0 0
mode deltas 0 0
restoration 0 0 0
unit sizes 64 64 64
delimiter true
eob_by_coded false
via direct
script

{"tiles":[],"scans":[[[0],[65535,1],[]],[[],[],[]],[[0,1,2,3,4,5,6,7,8,9,10,11,12,13,14,15,16],[7],[3,3,3]],[[],[],[]],[[],[],[]],[[],[],[]],[[],[],[]],[[],[],[]],[[],[],[]],[[],[],[]],[[],[],[]],[[],[],[]],[[],[],[]],[[],[],[]],[[],[],[]],[[],[],[]],[[],[],[]],[[],[],[]],[[],[],[16,15,14,13,12,11,10,9,8,7,6,5,4,3,2,1]]],"frame":{"width":8,"height":8}}
tables 5528 5528 5528 5528
scans 19 1 2 0 0 0 0 17 1 3 0 0 0 0 0 0 0 0 0 0 0 0 0 0 0 0 0 0 0 0 0 0 0 0 0 0 0 0 0 0 0 0 0 0 0 0 0 0 0 0 0 0 0 0 0 0 0 16
scan 0
scan 65535 1
scan 7
scan 3 3 3
scan 16 15 14 13 12 11 10 9 8 7 6 5 4 3 2 1
seq flags true true false false false false false false false false
seq flags false false false false false false false false false
seq bytes 0 0 8 0
seq numbers 2 2 0
time base 0 0
seq enums 0 0
sides 8 8 1 1 8 8
frame enums 0 0 0 0 0 0 0 0 0
frame flags true false false false true false false false false false
frame flags false false false true false false false false false false false
frame numbers 0 0 1 0 7 255 0
frame bytes 100 3 0
ref frames 0 0 0 0 0 0 0
sign bias false false false false false false false
dc 0 0 0
ac 0 0 0
y strengths 0 0 0 0 0 0 0 0
uv strengths 0 0 0 0 0 0 0 0
tile 0
segment flags false false false
features false false false false false false false false
values 0 0 0 0 0 0 0 0
features false false false false false false false false
values 0 0 0 0 0 0 0 0
features false false false false false false false false
values 0 0 0 0 0 0 0 0
features false false false false false false false false
values 0 0 0 0 0 0 0 0
features false false false false false false false false
values 0 0 0 0 0 0 0 0
features false false false false false false false false
values 0 0 0 0 0 0 0 0
features false false false false false false false false
values 0 0 0 0 0 0 0 0
features false false false false false false false false
values 0 0 0 0 0 0 0 0
last 0
levels 0 0 0 0
deblock bytes 0 0
deblock flags false false false false
ref deltas 0 0 0 0 0 0 0 0
mode deltas 0 0
restoration 0 0 0
unit sizes 64 64 64
delimiter true
eob_by_coded false
via direct

{"tiles":[],"seq":{"mastering_display":{},"content_light":null},"metadata":[],"refs":[null,null,null,null,null,null,null,null],"frame":{"segmentation":{"enabled":true},"deblock":{},"restoration":[{},{"unit_size":7},{"lrf_type":3}],"width":65,"height":64,"render_height":9}}
tables 5528 5528 5528 5528
scans 19 16 16 16 64 64 64 256 256 256 1024 1024 1024 1024 1024 1024 32 32 32 32 32 32 128 128 128 128 128 128 512 512 512 512 512 512 1024 1024 1024 1024 1024 1024 64 64 64 64 64 64 256 256 256 256 256 256 512 512 512 512 512 512
scan 0 1 4 2 5 8 3 6 9 12 7 10 13 11 14 15
scan 0 1 4 2 5 8 3 6 9 12 7 10 13 11 14 15
scan 0 1 4 2 5 8 3 6 9 12 7 10 13 11 14 15
seq flags true true false false false false false false false false
seq flags false false false false false false false false false
seq bytes 0 0 8 0
seq numbers 2 2 0
time base 0 0
seq enums 0 0
primaries 0 0 0 0 0 0
white 0 0
luminance 0 0
sides 65 64 2 1 65 9
frame enums 0 0 0 0 0 0 0 0 0
frame flags true false false false true false false false false false
frame flags false false false true false false false false false false true
frame numbers 0 0 1 0 7 255 0
frame bytes 100 3 0
ref frames 0 0 0 0 0 0 0
sign bias false false false false false false false
dc 0 0 0
ac 0 0 0
y strengths 0 0 0 0 0 0 0 0
uv strengths 0 0 0 0 0 0 0 0
tile 0
segment flags true false false
features false false false false false false false false
values 0 0 0 0 0 0 0 0
features false false false false false false false false
values 0 0 0 0 0 0 0 0
features false false false false false false false false
values 0 0 0 0 0 0 0 0
features false false false false false false false false
values 0 0 0 0 0 0 0 0
features false false false false false false false false
values 0 0 0 0 0 0 0 0
features false false false false false false false false
values 0 0 0 0 0 0 0 0
features false false false false false false false false
values 0 0 0 0 0 0 0 0
features false false false false false false false false
values 0 0 0 0 0 0 0 0
last 0
levels 0 0 0 0
deblock bytes 0 0
deblock flags false false false false
ref deltas 0 0 0 0 0 0 0 0
mode deltas 0 0
restoration 0 0 3
unit sizes 64 7 64
delimiter true
eob_by_coded false
via direct

{"tiles":[[{"op":"Block","x":6460285106137717097,"y":6260181905291821627,"size":21},{"op":"Begin","x":9081316142022672788,"y":6964719757114589235},{"op":"Skip","a":true},{"op":"Keep"}],[],[{"op":"Skip","a":false},{"op":"Abandon"}]],"via":"recorded","seq":{"chroma_sampling":1,"reduced_still_picture_hdr":false,"still_picture":false,"enable_restoration":false,"timing_info_present":true,"enable_dual_filter":true,"color_description":[119,176,118],"pixel_range":1,"enable_warped_motion":false,"enable_ref_frame_mvs":true,"level_idx":32,"chroma_sample_position":224,"enable_masked_compound":true,"order_hint_bits_minus_1":131383004,"enable_filter_intra":true,"time_base":{"num":8711387064946514083,"den":7002664860023442459},"enable_interintra_compound":false,"enable_order_hint":true,"frame_id_numbers_present_flag":true,"bit_depth":14,"enable_jnt_comp":false,"content_light":[28676,60241],"force_screen_content_tools":4059906722,"mastering_display":{"primaries":[[37982,2816],[54549,13107],[24367,38848]],"white_point":[15845,43607],"max_luminance":4154136494,"min_luminance":815398389},"decoder_model_info_present_flag":true,"enable_superres":true,"enable_cdef":false,"enable_intra_edge_filter":true,"profile":68,"force_integer_mv":3871601465,"use_128x128_superblock":false,"film_grain_params_present":true},"tables":[[65535,1],[],[0,3,2],[7]],"refs":[{"order_hint":2699165765,"width":1544360262334767604,"height":1512785873770245236,"render_width":4445486215564586943,"render_height":7327784266959680267,"ref_deltas":[-44,38,96,-64,121,-20,-67,92],"mode_deltas":[81,-68]},null,null,{"order_hint":2836867589,"width":4578783864303225470,"height":73952076449916035,"render_width":3501905926832896308,"render_height":8093934569583202002,"ref_deltas":[-118,-113,-4,5,-23,-40,17,-53],"mode_deltas":[-26,11]},null,null,null,{"order_hint":3253092698,"width":9053833195130285634,"height":7069832501627292869,"render_width":5239750430009799315,"render_height":1994816251511240529,"ref_deltas":[-116,-68,-122,23,-59,-90,63,31],"mode_deltas":[95,54]}],"delimiter":false,"metadata":["mdcv",{"country_code":165,"country_code_extension_byte":0,"payload":[]},"cll",{"payload":[1,255,0]},{}],"frame":{"reference_mode":0,"tile_width_sb":7642744311825525949,"is_filter_switchable":true,"intra_only":false,"tile_height_sb":3191423315263398319,"show_existing_frame":false,"delta_q_present":false,"globalmv_transformation_type":[2,3,2,3,3,0,0],"allow_screen_content_tools":1689017785,"showable_frame":false,"allow_high_precision_mv":true,"cdef_bits":90,"render_width":7460875389816005895,"render_height":6342468101875337769,"use_ref_frame_mvs":true,"restoration":[{"lrf_type":201,"unit_size":7083119199720395007},{"lrf_type":84,"unit_size":750942720642198393},{"lrf_type":46,"unit_size":4707312502375278239}],"primary_ref_frame":2157098196,"disable_frame_end_update_cdf":false,"show_frame":false,"film_grain":{"scaling_points_y":[[197,175],[215,96],[132,55],[129,107],[221,10],[115,9],[203,74],[18,82],[228,218],[112,230],[114,15],[202,164],[218,30]],"scaling_points_cb":[[152,64],[108,24],[156,36]],"scaling_points_cr":[[158,152],[81,213],[129,66],[4,19],[111,235],[87,19],[193,102],[177,50],[105,221],[99,252]],"scaling_shift":53,"ar_coeff_lag":199,"ar_coeffs_y":[127,-120,38,77,16,-119,-48,-26,39,-59,45,91,-19,8,-79,66,48,120,-8,-95,-108,-85,-60],"ar_coeffs_cb":[-43,-19,9,42,2,60,45,46,-70,21,-8,122,-59,-75,36,-108,80,-91,66,-53,-64,46,-70,65,-89],"ar_coeffs_cr":[-14,-87,8],"ar_coeff_shift":186,"cb_mult":151,"cb_luma_mult":58,"cb_offset":60000,"cr_mult":141,"cr_luma_mult":55,"cr_offset":5996,"overlap_flag":false,"chroma_scaling_from_luma":true,"grain_scale_shift":7,"random_seed":12017},"dc_delta_q":[54,84,49],"frame_size_override_flag":true,"cdef_damping":117,"deblock":{"levels":[188,81,104,159],"sharpness":152,"deltas_enabled":false,"delta_updates_enabled":false,"ref_deltas":[62,-44,109,-85,-65,65,-38,-49],"mode_deltas":[0,90],"block_deltas_enabled":true,"block_delta_shift":26,"block_delta_multi":true},"cdef_y_strengths":[92,46,130,16,36,42,8,231],"allow_intrabc":false,"force_integer_mv":127023494,"segmentation":{"enabled":true,"update_map":false,"update_data":true,"features":[[false,false,false,false,false,false,true,true],[true,true,false,false,false,true,true,true],[true,true,false,true,true,false,false,false],[false,true,true,true,true,true,true,false],[true,false,true,false,true,true,false,true],[true,false,false,false,true,true,false,false],[true,true,false,true,true,false,false,true],[true,false,true,true,false,true,false,true]],"values":[[-10061,-9232,-13165,-14217,9146,7290,-18760,5700],[-16214,-5671,-14198,-28606,8659,-5842,-9417,6412],[23938,-12073,-26404,-355,339,-24326,25781,23615],[28,24824,26648,-31344,19098,11622,-10287,1044],[30904,-29569,21847,-30290,-24600,13755,-14643,-16368],[-14616,1194,3527,19372,19802,-10201,-21071,-2159],[30932,-31788,-9493,8813,24683,-3182,-1524,8255],[32122,29992,-3269,21265,11396,3306,-4002,-26451]],"last_active_segid":36},"cdef_uv_strengths":[7,143,127,137,56,94,176,148],"frame_to_show_map_idx":1609337231,"base_q_idx":248,"ref_frames":[180,235,137,2,196,66,105],"width":636889189181363272,"ref_frame_sign_bias":[false,false,true,false,false,true,true],"disable_cdf_update":false,"refresh_frame_flags":4217987067,"default_filter":3736665164,"error_resilient":true,"is_motion_mode_switchable":false,"height":4477762081137895356,"render_and_frame_size_different":false,"use_reduced_tx_set":false,"allow_warped_motion":false,"order_hint":731644238,"ac_delta_q":[-128,41,106],"frame_type":2,"large_scale_tile":true,"context_update_tile_id":4453418288970387275,"tx_mode_select":true,"skip_mode_allowed":true}}
tables 2 0 3 1
set 65535 1
set
set 0 3 2
set 7
scans 19 16 16 16 64 64 64 256 256 256 1024 1024 1024 1024 1024 1024 32 32 32 32 32 32 128 128 128 128 128 128 512 512 512 512 512 512 1024 1024 1024 1024 1024 1024 64 64 64 64 64 64 256 256 256 256 256 256 512 512 512 512 512 512
scan 0 1 4 2 5 8 3 6 9 12 7 10 13 11 14 15
scan 0 1 4 2 5 8 3 6 9 12 7 10 13 11 14 15
scan 0 1 4 2 5 8 3 6 9 12 7 10 13 11 14 15
seq flags false false true false true true false true false true
seq flags true false true true false false true true true
seq bytes 68 32 14 224
seq numbers 4059906722 3871601465 131383004
time base 8711387064946514083 7002664860023442459
seq enums 1 1
colours 119 176 118
light 28676 60241
primaries 37982 2816 54549 13107 24367 38848
white 15845 43607
luminance 4154136494 815398389
sides 636889189181363272 4477762081137895356 7642744311825525949 3191423315263398319 7460875389816005895 6342468101875337769
frame enums 2 0 2 3 2 3 3 0 0
frame flags false false false true false false true false false true
frame flags true false true false false true true false false true true
frame numbers 1609337231 1689017785 127023494 731644238 2157098196 4217987067 3736665164
frame bytes 248 117 90
ref frames 180 235 137 2 196 66 105
sign bias false false true false false true true
dc 54 84 49
ac -128 41 106
y strengths 92 46 130 16 36 42 8 231
uv strengths 7 143 127 137 56 94 176 148
scaling_points_y 197 175 215 96 132 55 129 107 221 10 115 9 203 74 18 82 228 218 112 230 114 15 202 164 218 30
scaling_points_cb 152 64 108 24 156 36
scaling_points_cr 158 152 81 213 129 66 4 19 111 235 87 19 193 102 177 50 105 221 99 252
ar_coeffs_y 127 -120 38 77 16 -119 -48 -26 39 -59 45 91 -19 8 -79 66 48 120 -8 -95 -108 -85 -60
ar_coeffs_cb -43 -19 9 42 2 60 45 46 -70 21 -8 122 -59 -75 36 -108 80 -91 66 -53 -64 46 -70 65 -89
ar_coeffs_cr -14 -87 8
grain bytes 53 199 186 151 58 141 55 7
grain numbers 60000 5996 12017
grain flags false true
tile 4453418288970387275
segment flags true false true
features false false false false false false true true
values -10061 -9232 -13165 -14217 9146 7290 -18760 5700
features true true false false false true true true
values -16214 -5671 -14198 -28606 8659 -5842 -9417 6412
features true true false true true false false false
values 23938 -12073 -26404 -355 339 -24326 25781 23615
features false true true true true true true false
values 28 24824 26648 -31344 19098 11622 -10287 1044
features true false true false true true false true
values 30904 -29569 21847 -30290 -24600 13755 -14643 -16368
features true false false false true true false false
values -14616 1194 3527 19372 19802 -10201 -21071 -2159
features true true false true true false false true
values 30932 -31788 -9493 8813 24683 -3182 -1524 8255
features true false true true false true false true
values 32122 29992 -3269 21265 11396 3306 -4002 -26451
last 36
levels 188 81 104 159
deblock bytes 152 26
deblock flags false false true true
ref deltas 62 -44 109 -85 -65 65 -38 -49
mode deltas 0 90
restoration 201 84 46
unit sizes 7083119199720395007 750942720642198393 4707312502375278239
ref 0 1544360262334767604 1512785873770245236 4445486215564586943 7327784266959680267
hint 2699165765
ref deltas -44 38 96 -64 121 -20 -67 92
mode deltas 81 -68
ref 3 4578783864303225470 73952076449916035 3501905926832896308 8093934569583202002
hint 2836867589
ref deltas -118 -113 -4 5 -23 -40 17 -53
mode deltas -26 11
ref 7 9053833195130285634 7069832501627292869 5239750430009799315 1994816251511240529
hint 3253092698
ref deltas -116 -68 -122 23 -59 -90 63 31
mode deltas 95 54
metadata mdcv
message 165 0
metadata cll
message 0 0 1 255 0
message 0 0
delimiter false
eob_by_coded false
via recorded
script
Block 6460285106137717097 6260181905291821627 21
Begin 9081316142022672788 6964719757114589235
Skip true
Keep
script
script
Skip false
Abandon

{"tiles":[[{"op":"Block","x":7927993322078260331,"y":2449606642499323563,"size":10},{"op":"Begin","x":2147474657969335816,"y":4201344209007068819},{"op":"Skip","a":true},{"op":"Keep"}],[],[{"op":"Skip","a":false},{"op":"Abandon"}]],"delimiter":false,"eob_by_coded":true,"via":"recorded","refs":[{"order_hint":2013868025,"width":6895177669279856637,"height":6568847202342540166,"render_width":4301265758746858646,"render_height":7383495932492711521,"ref_deltas":[47,15,36,76,21,-91,60,29],"mode_deltas":[74,119]},null,null,{"order_hint":750649586,"width":8130120866599008661,"height":1617732956305272792,"render_width":5808496845445083505,"render_height":6991575801253490600,"ref_deltas":[-63,-114,-75,51,-43,55,-89,95],"mode_deltas":[-124,36]},null,null,null,{"order_hint":1222576730,"width":6637535523236499857,"height":3728628047805176095,"render_width":9194805221209536647,"render_height":6111987828886863491,"ref_deltas":[0,-56,87,56,0,-83,47,-32],"mode_deltas":[-2,-6]}],"metadata":["mdcv",{"country_code":23,"country_code_extension_byte":172,"payload":[31,73]},"cll",{"payload":[1,255,0]},{}],"frame":{"reference_mode":0,"allow_screen_content_tools":3523591164,"restoration":[{"lrf_type":68,"unit_size":3982727694633543343},{"lrf_type":139,"unit_size":2932752504611641083},{"lrf_type":50,"unit_size":4387408271766548785}],"use_reduced_tx_set":true,"render_height":1047708897779438953,"force_integer_mv":3117928479,"default_filter":1602440615,"allow_warped_motion":false,"render_and_frame_size_different":false,"show_existing_frame":false,"cdef_uv_strengths":[78,242,115,47,161,52,12,229],"delta_q_present":true,"cdef_damping":57,"frame_to_show_map_idx":2525203318,"cdef_bits":146,"intra_only":true,"allow_high_precision_mv":true,"is_motion_mode_switchable":true,"is_filter_switchable":false,"large_scale_tile":false,"cdef_y_strengths":[172,250,15,157,229,23,135,205],"skip_mode_allowed":false,"tx_mode_select":false,"segmentation":{"enabled":true,"update_map":false,"update_data":true,"features":[[true,true,true,false,false,false,true,true],[true,false,false,true,false,true,false,false],[false,true,false,false,true,false,true,false],[true,false,false,false,true,true,true,false],[false,true,false,true,true,false,false,false],[true,false,true,false,false,false,false,true],[false,true,false,false,false,true,true,false],[false,false,false,true,false,false,false,false]],"values":[[-19601,18348,-6615,3199,-7669,31431,-14697,-31656],[24169,30416,483,-10019,28454,-5899,-23223,13138],[-32370,30857,-24191,30801,11126,27434,2221,27567],[-29160,-22308,12797,-10001,20249,693,-15091,-25680],[-11460,32700,17257,28135,5874,-12341,-31405,4280],[28494,-32530,15264,-28310,17344,25270,-5975,7658],[32542,-15286,30642,6908,-22713,1046,8267,7100],[10971,8149,18738,-20586,-5163,18497,-13168,-21085]],"last_active_segid":157},"film_grain":{"scaling_points_y":[[71,29],[129,17],[67,82]],"scaling_points_cb":[[49,232],[118,16],[126,119],[227,37],[128,41],[116,184],[131,216],[142,2],[77,18],[196,209]],"scaling_points_cr":[[56,44],[123,52],[51,10],[93,118],[53,111],[12,237],[232,158],[194,108],[107,222],[217,10]],"scaling_shift":26,"ar_coeff_lag":214,"ar_coeffs_y":[-36,-80,117],"ar_coeffs_cb":[-119,-68,59,20,62,29,-119,83,-77,-75,28,-27,-120,103,-98,82,120,109,-22,-91,-126,17,-116,62],"ar_coeffs_cr":[-89,-16,123,-30,-69,63,72,109,-57,48,74,-66,2,-66,-66,-87,43,72,-20,-75,-116,112,-106,126],"ar_coeff_shift":148,"cb_mult":183,"cb_luma_mult":234,"cb_offset":18542,"cr_mult":191,"cr_luma_mult":137,"cr_offset":63465,"overlap_flag":false,"chroma_scaling_from_luma":true,"grain_scale_shift":214,"random_seed":64503},"disable_frame_end_update_cdf":false,"context_update_tile_id":1312667784186953929,"refresh_frame_flags":2243530591,"frame_type":2,"ac_delta_q":[-51,-110,-126],"tile_width_sb":4946264067922254664,"order_hint":3198817447,"dc_delta_q":[69,-106,-2],"tile_height_sb":5710431799760516186,"deblock":{"levels":[20,119,234,118],"sharpness":142,"deltas_enabled":true,"delta_updates_enabled":true,"ref_deltas":[66,58,-19,35,54,-89,43,106],"mode_deltas":[57,-43],"block_deltas_enabled":true,"block_delta_shift":149,"block_delta_multi":true},"allow_intrabc":true,"show_frame":false,"use_ref_frame_mvs":false,"error_resilient":true,"height":3063444972885002830,"disable_cdf_update":false,"frame_size_override_flag":false,"ref_frames":[88,127,12,42,58,34,12],"globalmv_transformation_type":[2,1,2,2,2,3,0],"showable_frame":false,"primary_ref_frame":2804226800,"width":5989053446992097008,"ref_frame_sign_bias":[true,true,true,true,true,false,false],"base_q_idx":0,"render_width":1113903354002394738},"tables":[[65535,1],[],[0,3,2],[7]],"seq":{"enable_cdef":true,"mastering_display":{"primaries":[[60477,32755],[64227,36582],[65282,46389]],"white_point":[59596,60425],"max_luminance":1960872105,"min_luminance":2829890835},"frame_id_numbers_present_flag":true,"time_base":{"num":4640892725076559864,"den":3914746131789064238},"enable_interintra_compound":true,"enable_warped_motion":false,"timing_info_present":false,"bit_depth":93,"still_picture":true,"profile":28,"enable_filter_intra":false,"enable_intra_edge_filter":true,"enable_order_hint":false,"use_128x128_superblock":false,"enable_restoration":true,"enable_jnt_comp":false,"content_light":[21126,52410],"chroma_sample_position":212,"color_description":[181,185,228],"force_screen_content_tools":117874757,"order_hint_bits_minus_1":2258090960,"reduced_still_picture_hdr":true,"decoder_model_info_present_flag":true,"chroma_sampling":3,"force_integer_mv":1632151663,"enable_masked_compound":true,"enable_superres":false,"pixel_range":1,"enable_ref_frame_mvs":true,"film_grain_params_present":false,"enable_dual_filter":false,"level_idx":86}}
tables 2 0 3 1
set 65535 1
set
set 0 3 2
set 7
scans 19 16 16 16 64 64 64 256 256 256 1024 1024 1024 1024 1024 1024 32 32 32 32 32 32 128 128 128 128 128 128 512 512 512 512 512 512 1024 1024 1024 1024 1024 1024 64 64 64 64 64 64 256 256 256 256 256 256 512 512 512 512 512 512
scan 0 1 4 2 5 8 3 6 9 12 7 10 13 11 14 15
scan 0 1 4 2 5 8 3 6 9 12 7 10 13 11 14 15
scan 0 1 4 2 5 8 3 6 9 12 7 10 13 11 14 15
seq flags true true false false false true true true false false
seq flags false false true false true true true true false
seq bytes 28 86 93 212
seq numbers 117874757 1632151663 2258090960
time base 4640892725076559864 3914746131789064238
seq enums 3 1
colours 181 185 228
light 21126 52410
primaries 60477 32755 64227 36582 65282 46389
white 59596 60425
luminance 1960872105 2829890835
sides 5989053446992097008 3063444972885002830 4946264067922254664 5710431799760516186 1113903354002394738 1047708897779438953
frame enums 2 0 2 1 2 2 2 3 0
frame flags false false false true true false false false true true
frame flags false true false false true false false false true false true
frame numbers 2525203318 3523591164 3117928479 3198817447 2804226800 2243530591 1602440615
frame bytes 0 57 146
ref frames 88 127 12 42 58 34 12
sign bias true true true true true false false
dc 69 -106 -2
ac -51 -110 -126
y strengths 172 250 15 157 229 23 135 205
uv strengths 78 242 115 47 161 52 12 229
scaling_points_y 71 29 129 17 67 82
scaling_points_cb 49 232 118 16 126 119 227 37 128 41 116 184 131 216 142 2 77 18 196 209
scaling_points_cr 56 44 123 52 51 10 93 118 53 111 12 237 232 158 194 108 107 222 217 10
ar_coeffs_y -36 -80 117
ar_coeffs_cb -119 -68 59 20 62 29 -119 83 -77 -75 28 -27 -120 103 -98 82 120 109 -22 -91 -126 17 -116 62
ar_coeffs_cr -89 -16 123 -30 -69 63 72 109 -57 48 74 -66 2 -66 -66 -87 43 72 -20 -75 -116 112 -106 126
grain bytes 26 214 148 183 234 191 137 214
grain numbers 18542 63465 64503
grain flags false true
tile 1312667784186953929
segment flags true false true
features true true true false false false true true
values -19601 18348 -6615 3199 -7669 31431 -14697 -31656
features true false false true false true false false
values 24169 30416 483 -10019 28454 -5899 -23223 13138
features false true false false true false true false
values -32370 30857 -24191 30801 11126 27434 2221 27567
features true false false false true true true false
values -29160 -22308 12797 -10001 20249 693 -15091 -25680
features false true false true true false false false
values -11460 32700 17257 28135 5874 -12341 -31405 4280
features true false true false false false false true
values 28494 -32530 15264 -28310 17344 25270 -5975 7658
features false true false false false true true false
values 32542 -15286 30642 6908 -22713 1046 8267 7100
features false false false true false false false false
values 10971 8149 18738 -20586 -5163 18497 -13168 -21085
last 157
levels 20 119 234 118
deblock bytes 142 149
deblock flags true true true true
ref deltas 66 58 -19 35 54 -89 43 106
mode deltas 57 -43
restoration 68 139 50
unit sizes 3982727694633543343 2932752504611641083 4387408271766548785
ref 0 6895177669279856637 6568847202342540166 4301265758746858646 7383495932492711521
hint 2013868025
ref deltas 47 15 36 76 21 -91 60 29
mode deltas 74 119
ref 3 8130120866599008661 1617732956305272792 5808496845445083505 6991575801253490600
hint 750649586
ref deltas -63 -114 -75 51 -43 55 -89 95
mode deltas -124 36
ref 7 6637535523236499857 3728628047805176095 9194805221209536647 6111987828886863491
hint 1222576730
ref deltas 0 -56 87 56 0 -83 47 -32
mode deltas -2 -6
metadata mdcv
message 23 172 31 73
metadata cll
message 0 0 1 255 0
message 0 0
delimiter false
eob_by_coded true
via recorded
script
Block 7927993322078260331 2449606642499323563 10
Begin 2147474657969335816 4201344209007068819
Skip true
Keep
script
script
Skip false
Abandon"#;
