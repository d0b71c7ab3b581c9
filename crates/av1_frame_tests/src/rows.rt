// The rows: the number of the broken rule, or 0, and the words by which a sequence or a frame differs from the defaults.

/// Rows of sequences.
pub const SEQUENCES: &str = "0
0 reduced=0 still_picture=0
10 profile=3 depth=9
10 profile=255
10 level_idx=32 reduced=1 still_picture=0
0 profile=2 depth=12 level_idx=31
11 still_picture=0 timing=1
12 timing=1
12 interintra=1
12 masked=1
12 warped=1
12 dual_filter=1
12 enable_order_hint=1
12 jnt_comp=1
12 ref_frame_mvs=1
12 force_tools=1
12 force_integer=0
12 force_tools=4294967295 use_128x128=1
13 use_128x128=1
13 superres=1
13 frame_ids=1
13 decoder_model=1 num=18446744073709551615
14 num=4294967296
14 den=18446744073709551615 force_integer=2
0 reduced=0 still_picture=0 num=4294967295 den=4294967295 timing=1
15 reduced=0 still_picture=0 force_tools=3
15 reduced=0 still_picture=0 force_tools=4294967295
15 reduced=0 still_picture=0 force_integer=3
15 reduced=0 still_picture=0 force_integer=4294967295
15 reduced=0 still_picture=0 force_tools=0 force_integer=1
15 reduced=0 still_picture=0 hint_bits_minus_1=8
15 reduced=0 still_picture=0 hint_bits_minus_1=4294967295 profile=1
15 reduced=0 still_picture=0 jnt_comp=1
15 reduced=0 still_picture=0 ref_frame_mvs=1
0 reduced=0 still_picture=0 force_tools=0 force_integer=2 hint_bits_minus_1=7 enable_order_hint=1 jnt_comp=1 ref_frame_mvs=1
16 depth=9
16 depth=12
16 sampling=1
16 sampling=2
16 profile=1
16 profile=1 sampling=3
16 profile=1 sampling=2 depth=12
16 profile=2 sampling=0
16 profile=2 sampling=2 depth=10
16 profile=2 sampling=3 depth=255
16 depth=0 position=3
0 sampling=3 depth=10
0 profile=1 sampling=2
0 profile=2 sampling=1
0 profile=2 sampling=3 depth=10
0 profile=2 sampling=2 depth=12
0 profile=2 sampling=0 depth=12
17 colors=1,13,0
17 colors=1,13,0 profile=1 sampling=2
17 colors=1,13,0 full=1 position=255
17 colors=1,13,0 full=1 profile=2 sampling=1 depth=12
0 colors=1,13,0 sampling=3
0 colors=1,13,0 full=1 profile=1 sampling=2
0 colors=1,13,1
0 colors=255,255,255
18 position=3
18 position=255 sampling=3
0 position=2";

/// Rows of frames.
pub const FRAMES: &str = "0
0 reduced=0 still_picture=0 type=1 intra_only=0 integer=0 refresh=0
20 width=0
20 height=0
20 width=65537
20 height=18446744073709551615
20 width=18446744073709551615 height=18446744073709551615
20 width=65536 height=1032 tile_width=64
0 width=65536 height=1024 tile_width=64
0 width=1 height=1
21 show_existing=1
21 large_scale=1
21 intrabc=1 tools=1 disable_cdf_update=1
21 delta_q=1
0 disable_cdf_update=1
0 reduced=0 still_picture=0 disable_cdf_update=1
33 reduced=0 still_picture=0 disable_cdf_update=1 frame_end=0
23 disable_cdf_update=1 show=0
23 show=0
23 showable=1
23 type=1
23 type=2 integer=5
0 reduced=0 still_picture=0 showable=1
24 reduced=0 still_picture=0 intra_only=0
24 reduced=0 still_picture=0 type=1 integer=0
24 integer=0
24 integer=4294967295 primary=8
24 reduced=0 still_picture=0 type=1 intra_only=0 integer=1 refresh=0
24 reduced=0 still_picture=0 type=3 intra_only=0 integer=2 tools=1
25 primary=8
25 primary=4294967295 tools=2
25 primary=0 refs=1
25 reduced=0 still_picture=0 type=1 intra_only=0 integer=0 refresh=0 primary=0
25 reduced=0 still_picture=0 type=1 intra_only=0 integer=0 refresh=0 primary=6 ref_frames=0,0,0,0,0,0,1 refs=1
25 reduced=0 still_picture=0 type=1 intra_only=0 integer=0 refresh=0 primary=1 ref_frames=0,8 refs=1
25 reduced=0 still_picture=0 type=1 intra_only=0 integer=0 refresh=0 primary=0 refs=1 error_resilient=1
25 reduced=0 still_picture=0 type=3 intra_only=0 integer=0 override=1
25 reduced=0 still_picture=0 type=1 intra_only=0 integer=0 refresh=0 primary=2 ref_frames=0,0,255 refs=1,1
0 reduced=0 still_picture=0 type=1 intra_only=0 integer=0 refresh=0 primary=6 ref_frames=0,0,0,0,0,0,7 refs=-1,-1,-1,-1,-1,-1,-1,1
0 reduced=0 still_picture=0 type=3 intra_only=0 integer=0 override=1 error_resilient=1
26 tools=2
26 tools=4294967295
26 reduced=0 still_picture=0 force_tools=1
26 reduced=0 still_picture=0 force_tools=0 force_integer=2 tools=1
26 reduced=0 still_picture=0 tools=1 force_integer=0 enable_order_hint=1 order_hint=2
26 reduced=0 still_picture=0 type=1 intra_only=0 integer=1 refresh=0 tools=1 force_integer=0
0 reduced=0 still_picture=0 tools=1 force_integer=1
0 reduced=0 still_picture=0 type=1 intra_only=0 integer=1 refresh=0 tools=1
27 reduced=0 still_picture=0 enable_order_hint=1 order_hint=2
27 reduced=0 still_picture=0 enable_order_hint=1 hint_bits_minus_1=7 order_hint=256
27 reduced=0 still_picture=0 enable_order_hint=1 hint_bits_minus_1=7 refs=255,-1,-1,-1,-1,-1,-1,256
27 reduced=0 still_picture=0 enable_order_hint=1 refs=4294967295 refresh=256
0 reduced=0 still_picture=0 order_hint=4294967295 refs=4294967295
0 reduced=0 still_picture=0 enable_order_hint=1 hint_bits_minus_1=31 order_hint=4294967295 refs=4294967295
0 reduced=0 still_picture=0 enable_order_hint=1 hint_bits_minus_1=4294967295 order_hint=4294967295
27 reduced=0 still_picture=0 enable_order_hint=1 hint_bits_minus_1=30 order_hint=2147483648
0 reduced=0 still_picture=0 enable_order_hint=1 hint_bits_minus_1=7 order_hint=255 refs=255
28 refresh=256
28 refresh=4294967295 override=1
28 refresh=0
28 reduced=0 still_picture=0 type=2
28 reduced=0 still_picture=0 type=3 intra_only=0 integer=0 error_resilient=1 override=1 refresh=254
0 reduced=0 still_picture=0 type=2 refresh=254
28 reduced=0 still_picture=0 type=1 intra_only=0 integer=0 refresh=256
0 reduced=0 still_picture=0 type=1 intra_only=0 integer=0 refresh=255
29 override=1
29 reduced=0 still_picture=0 type=3 intra_only=0 integer=0 error_resilient=1 render_width=0
0 reduced=0 still_picture=0 override=1
30 render_width=0 differ=1
30 render_height=65537 differ=1
30 render_width=65
30 render_height=63 ref_frames=8
30 render_width=18446744073709551615 differ=1
0 render_width=65536 render_height=1 differ=1
31 ref_frames=0,0,0,0,0,0,8
31 default_filter=4 frame_end=0
31 default_filter=4294967295
31 ref_frames=255
0 ref_frames=7,7,7,7,7,7,7 default_filter=3
33 frame_end=0
33 frame_end=0 tile_width=0
0 reduced=0 still_picture=0 frame_end=0
34 tile_width=0
34 tile_height=0
34 tile_width=2
34 tile_height=18446744073709551615 tile=9
34 width=4160 tile_width=65
34 width=4160 tile_width=1
34 height=4160 tile_height=1
34 width=4096 height=4096
0 width=4096 height=2304
0 width=4096 height=4096 tile_height=32
34 width=4096 height=4096 tile_height=33 tile_width=33
0 width=4160 height=64 tile_width=64
0 width=4096 tile_width=1 height=4096 tile_height=1
0 width=192 tile_width=2 height=65536 tile_height=1024
34 width=192 tile_width=3 height=65536 tile_height=1024
35 tile=1
35 width=128 tile_width=1 height=128 tile_height=1 tile=4
35 tile=18446744073709551615 base_q_idx=0
0 width=128 tile_width=1 height=128 tile_height=1 tile=3
36 base_q_idx=0
36 dc_delta_q=0,0,64
36 dc_delta_q=-64
36 ac_delta_q=0,-128
36 ac_delta_q=1 segmentation=1
36 dc_delta_q=0,127
0 dc_delta_q=63,-63,63 ac_delta_q=0,63,-63 base_q_idx=255
37 segmentation=1
37 segments=1
37 segmentation=1 segments=1 update_map=1
37 segmentation=1 segments=1 update_data=1
37 feature=3,0,256 last=3
37 feature=3,0,-256 last=3
37 feature=0,1,64
37 feature=0,4,-64
37 feature=7,5,8 last=7
37 feature=7,5,-1 last=7
37 feature=1,6,1 last=1
37 feature=1,7,-1 last=1
37 feature=1,7,0
37 feature=1,7,0 last=2
37 last=8
37 last=255 sharpness=8
37 feature=0,0,0,4,5,7,2,1,1 last=2
37 feature=0,0,-32768
0 segmentation=1 segments=1 update_map=1 update_data=1
0 feature=3,0,255,7,4,-63,1,5,7 last=7
0 feature=0,0,-255
0 reduced=0 still_picture=0 type=1 intra_only=0 integer=0 refresh=0 primary=0 refs=1 segmentation=1 segments=1
0 feature=7,6,0 last=7
0 feature=0,5,0
38 levels=0,0,0,64
38 levels=255 damping=0 cdef=1
38 sharpness=8
38 ref_deltas=0,0,0,0,0,0,0,64
38 ref_deltas=-65
38 mode_deltas=0,127
38 mode_deltas=-128
38 shift=4
0 levels=63,63,63,63 sharpness=7 ref_deltas=63,-64 mode_deltas=-64,63 shift=3
39 cdef=1 damping=2
39 cdef=1 damping=7
39 cdef=1 cdef_bits=4
39 cdef=1 y_strengths=0,0,0,0,0,0,0,64
39 cdef=1 uv_strengths=64 types=4
39 cdef=1 cdef_bits=255
0 damping=0 cdef_bits=255 y_strengths=255
0 cdef=1 damping=6 cdef_bits=3 y_strengths=63 uv_strengths=63
40 types=4 mode=1
40 restoration=1 types=0,0,255
40 types=1
40 types=0,0,1
40 restoration=1 types=1 units=32,32,32
40 restoration=1 types=1 units=512,512,512
40 restoration=1 types=1 units=128,128,64
40 restoration=1 types=1 units=128,64,64
40 restoration=1 types=1,1 units=256,64,64
40 restoration=1 types=0,1 units=128,256,256
40 restoration=1 types=1,1 units=128,64,64 sampling=3
40 restoration=1 types=1,1 units=128,64,64 sampling=2 profile=1
40 restoration=1 types=3 units=18446744073709551615,64,64
40 restoration=1 types=0,0,1 units=64,9223372036854775840,9223372036854775840
0 restoration=1 types=0,0,0 units=0,18446744073709551615,7
0 units=0,1,2
0 restoration=1 types=0,2 units=128,64,64
0 restoration=1 types=3,3,3 units=256,256,256
0 restoration=1 types=0,0,1 units=64,32,32
41 mode=1
41 mode=2
41 reduced=0 still_picture=0 type=1 intra_only=0 integer=0 refresh=0 mode=1 motion=2
0 reduced=0 still_picture=0 type=1 intra_only=0 integer=0 refresh=0 mode=2
42 motion=0,0,0,0,0,0,2
42 motion=3 points=0,1
42 motion=0,0,3
0 motion=1,1,1,1,1,1,1
43 points=0,1,0
43 points=0,0,1
43 film_grain=1 points=0,1,0 coefficients=0,0,0
43 film_grain=1 from_luma=1 points=1,1,0 coefficients=0,1,1
43 film_grain=1 sampling=3 points=1,1,0 coefficients=0,1,1
43 points=0 scaling_shift=7
43 points=0 scaling_shift=12
43 points=0 lag=4
43 points=0 lag=255
43 points=0 ar_shift=5
43 points=0 ar_shift=10
43 points=0 grain_shift=4
43 points=0 cb_offset=512
43 points=0 cr_offset=65535
43 film_grain=1 points=1 lag=1
43 film_grain=1 points=1 lag=1 coefficients=3
43 film_grain=1 points=14,10,10 lag=3 coefficients=24,24,25
43 film_grain=1 points=14,10,10 lag=3 coefficients=24,25,24
43 film_grain=1 from_luma=1 points=0 lag=2 coefficients=12,0,12
43 film_grain=1 points=1 lag=1 coefficients=4,1,0
43 points=0 lag=1 coefficients=3
0 points=0
0 points=14
0 film_grain=1 points=14,10,10 lag=3 coefficients=24,25,25 scaling_shift=11 ar_shift=9 grain_shift=3 cb_offset=511 cr_offset=511
0 film_grain=1 points=1 lag=1 coefficients=4,0,0
0 film_grain=1 points=1 lag=1 coefficients=4,5,5
0 film_grain=1 from_luma=1 points=0 lag=2 coefficients=12,12,12
0 film_grain=1 from_luma=1 points=1 lag=0 coefficients=0,1,1
0 points=5 lag=2 coefficients=0,13,0
0 film_grain=1 profile=1 sampling=2 points=0,1,1 lag=1 coefficients=0,4,4";

/// Rows of tilings: the sides of the frame and of tiles in superblocks; columns, rows and their logarithms; the least and the
/// greatest logarithms in the order of `TilingInfo`; whether tiles are spaced evenly; and the height of the tallest tile.
pub const TILINGS: &str = "1 1 1 1 1 1 0 0 0 0 0 0 0 1 1
1024 1024 64 64 16 16 4 4 4 6 6 9 5 1 16
1024 16 64 16 16 1 4 0 4 6 4 4 0 1 8
64 64 64 32 1 2 0 1 0 6 6 1 1 1 16
64 36 64 36 1 1 0 0 0 6 6 0 0 1 36
65 1 64 1 2 1 1 0 1 6 0 1 0 0 1
3 1024 2 1024 2 1 1 0 0 2 6 1 0 1 384
1024 1024 1 1 1024 1024 10 10 4 6 6 9 0 1 1024
1024 1024 1024 1024 1 1 0 0 4 6 6 9 9 1 1
17 9 5 2 4 5 2 3 0 5 4 0 0 1 30
100 40 13 7 8 6 3 3 1 6 6 1 0 0 76
664 309 51 25 14 13 4 4 4 6 6 7 3 0 15
149 193 47 150 4 2 2 1 2 6 6 4 2 0 19
119 440 5 45 24 10 5 4 1 6 6 5 0 0 163
889 857 9 247 99 4 7 2 4 6 6 9 2 0 82
186 870 8 847 24 2 5 1 2 6 6 7 2 0 79
254 458 8 296 32 2 5 1 2 6 6 6 1 0 113
813 102 29 6 29 17 5 5 4 6 6 6 1 0 22
273 594 54 148 6 5 3 3 3 6 6 7 4 0 11
242 632 24 106 11 6 4 3 2 6 6 7 3 0 24
385 763 13 561 30 2 5 1 3 6 6 7 2 0 88
129 123 27 64 5 2 3 1 2 6 6 3 0 0 36
876 644 60 600 15 2 4 1 4 6 6 8 4 0 18
929 741 39 255 24 3 5 2 4 6 6 9 4 0 17
369 500 11 295 34 2 6 1 3 6 6 7 1 0 65
615 1014 44 747 14 2 4 1 4 6 6 9 5 0 13
920 590 10 121 92 5 7 3 4 6 6 8 1 0 106
857 338 44 78 20 5 5 3 4 6 6 7 2 0 25
1002 864 6 685 167 2 8 1 4 6 6 9 1 0 140
159 643 44 359 4 2 2 1 2 6 6 6 4 0 18
1018 935 9 861 114 2 7 1 4 6 6 9 2 0 103
192 553 61 67 4 9 2 4 2 6 6 6 4 0 13
125 635 58 292 3 3 2 2 1 6 6 6 4 0 10
791 711 3 473 264 2 9 1 4 6 6 8 0 0 366
728 345 15 253 49 2 6 1 4 6 6 7 1 0 65
121 447 37 67 4 7 2 3 1 6 6 5 3 0 22
508 815 51 509 10 2 4 1 3 6 6 8 4 0 15
166 341 58 206 3 2 2 1 2 6 6 5 3 0 15
570 281 56 143 11 2 4 1 4 6 6 7 3 0 11
851 735 49 237 18 4 5 2 4 6 6 9 4 0 12";
