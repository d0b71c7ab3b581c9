// Units with the status and the text that they give. They were computed apart from this program.

/// A row is an input, the status, and what is told: on `out` where the status is 0, and else on `err`. An empty line ends it.
pub const ROWS: &str = r#"{"seq":{"chroma_sampling":3},"frame":{"width":8,"height":8},"tiles":[[]]}
0
12000a051808bf01103206164000000080
tile 0 1 1

{"seq":{"chroma_sampling":3},"frame":{"width":8,"height":8},"tiles":[[]],"tables":"uniform"}
0
12000a051808bf01103206164000000080
tile 0 1 1

{"seq":{"chroma_sampling":3},"frame":{"width":8,"height":8},"tiles":[[]],"tables":[[],[],[],[]]}
6
refused tables r1

{"seq":{"chroma_sampling":3},"frame":{"width":8,"height":8},"tiles":[[]],"tables":[[],[],[]]}
5
bad shape at /tables

{"seq":{"chroma_sampling":3},"frame":{"width":8,"height":8},"tiles":[[{"op":"Block","x":0,"y":0,"size":3},{"op":"Begin","x":0,"y":0},{"op":"Skip","a":false},{"op":"Abandon"},{"op":"Skip","a":true}]],"via":"direct"}
0
12000a051808bf011032061640000000c0
tile 0 1 2
trial 0 1 9 abandoned

{"seq":{"chroma_sampling":3},"frame":{"width":8,"height":8},"tiles":[[{"op":"Block","x":0,"y":0,"size":3},{"op":"Begin","x":0,"y":0},{"op":"Skip","a":false},{"op":"Abandon"},{"op":"Skip","a":true}]],"via":"recorded"}
0
12000a051808bf011032061640000000c0
tile 0 1 2
trial 0 1 9 abandoned

{"seq":{"chroma_sampling":3},"frame":{"width":8,"height":8},"tiles":[[{"op":"Block","x":0,"y":0,"size":3},{"op":"Begin","x":0,"y":0},{"op":"Skip","a":false},{"op":"Abandon"},{"op":"Skip","a":true}]],"via":"other"}
5
bad shape at /via

{"seq":{"chroma_sampling":3},"frame":{"width":8,"height":8},"tiles":[[{"op":"Block","x":0,"y":0,"size":3},{"op":"Skip","a":true}]]}
0
12000a051808bf011032061640000000c0
tile 0 1 2

{"seq":{"chroma_sampling":3},"frame":{"width":8,"height":8},"tiles":[[{"op":"Block","x":0,"y":0,"size":3},{"op":"Skip","a":false}]]}
0
12000a051808bf01103206164000000020
tile 0 1 3

{"seq":{"chroma_sampling":3},"frame":{"width":8,"height":8},"tiles":[[{"op":"Block","x":0,"y":0,"size":0},{"op":"Skip","a":true},{"op":"Block","x":1,"y":0,"size":0},{"op":"Skip","a":false}]]}
0
12000a051808bf011032061640000000a0
tile 0 1 3

{"seq":{"chroma_sampling":3},"frame":{"width":8,"height":8},"tiles":[[{"op":"Block","x":0,"y":0,"size":3},{"op":"Begin","x":0,"y":0},{"op":"Skip","a":true},{"op":"Skip","a":true},{"op":"Skip","a":true},{"op":"Abandon"}]]}
0
12000a051808bf01103206164000000080
tile 0 1 1
trial 0 1 22 abandoned

{"seq":{"chroma_sampling":3},"frame":{"width":8,"height":8,"disable_cdf_update":true},"tiles":[[]]}
0
12000a051808bf01103206964000000080
tile 0 1 1

{"seq":{"chroma_sampling":3},"frame":{"width":8,"height":8,"disable_cdf_update":true},"tiles":[[{"op":"Block","x":0,"y":0,"size":3},{"op":"Begin","x":0,"y":0},{"op":"Skip","a":true},{"op":"Skip","a":true},{"op":"Skip","a":true},{"op":"Abandon"}]]}
0
12000a051808bf01103206964000000080
tile 0 1 1
trial 0 1 24 abandoned

{"seq":{"chroma_sampling":3},"frame":{"width":8,"height":8},"tiles":[[{"op":"Begin","x":0,"y":0},{"op":"Keep"}]]}
0
12000a051808bf01103206164000000080
tile 0 1 1
trial 0 0 0 kept

{"seq":{"chroma_sampling":3},"frame":{"width":8,"height":8},"tiles":[[{"op":"Block","x":0,"y":0,"size":3},{"op":"Begin","x":0,"y":0},{"op":"Block","x":9,"y":0,"size":3},{"op":"Abandon"}]]}
6
refused tile 0 item 2 r60

{"seq":{"chroma_sampling":3},"frame":{"width":8,"height":8},"tiles":[[{"op":"Begin","x":0,"y":0},{"op":"Keep"},{"op":"Keep"}]]}
7
bad script tile 0 item 2

{"seq":{"chroma_sampling":3},"frame":{"width":8,"height":8},"tiles":[[{"op":"Begin","x":0,"y":0}]]}
7
bad script tile 0 item 1

{"seq":{"chroma_sampling":3},"frame":{"width":128,"height":8},"tiles":[[{"op":"Begin","x":0,"y":0},{"op":"Block","x":16,"y":0,"size":3}]]}
7
bad script tile 0 item 1

{"tiles":[
4
bad text

{"seq":{"chroma_sampling":3},"frame":{"width":8.5,"height":8},"tiles":[[]]}
5
bad shape at /frame/width

{"seq":{"chroma_sampling":3},"frame":{"width":0,"height":8},"tiles":[[]]}
6
refused frame r20

{"seq":{"chroma_sampling":3},"frame":{"width":8,"height":8},"tiles":[[{"op":"Skip","a":true}]]}
6
refused tile 0 item 0 r64

{"seq":{"chroma_sampling":3},"frame":{"width":8,"height":8},"tiles":[[{"op":"Block","x":0,"y":0,"size":3},{"op":"Block","x":9,"y":0,"size":3}]]}
6
refused tile 0 item 1 r60

{"seq":{"chroma_sampling":3},"frame":{"width":8,"height":8},"tables":"uniform","via":"recorded","tiles":[[{"op":"Block","x":0,"y":0,"size":3},{"op":"Skip","a":false}]]}
0
12000a051808bf01103206164000000020
tile 0 1 3

{"seq":{"chroma_sampling":3},"frame":{"width":8,"height":8},"tiles":[[{"op":"Block","x":9223372036854775807,"y":0,"size":3}]]}
6
refused tile 0 item 0 r60

{"seq":{"chroma_sampling":3},"frame":{"width":8,"height":8},"tiles":[[{"op":"Block","x":9223372036854775808,"y":0,"size":3}]]}
5
bad shape at /tiles/0/0/x

{"seq":{"chroma_sampling":3},"frame":{"width":8,"height":8},"tiles":[[{"op":"Partition","x":0,"y":0,"size":12,"a":3},{"op":"Partition","x":0,"y":0,"size":9,"a":3},{"op":"Partition","x":0,"y":0,"size":6,"a":3},{"op":"Partition","x":0,"y":0,"size":3,"a":0}]]}
0
12000a051808bf01103206164000000010
tile 0 1 4

{"seq":{"chroma_sampling":3},"frame":{"width":8,"height":8},"tiles":[[{"op":"Partition","x":0,"y":0,"size":12,"a":3},{"op":"Partition","x":0,"y":0,"size":9,"a":3},{"op":"Partition","x":0,"y":0,"size":6,"a":3},{"op":"Partition","x":0,"y":0,"size":3,"a":3}]]}
0
12000a051808bf011032061640000000e0
tile 0 1 3

{"seq":{"chroma_sampling":3},"frame":{"width":64,"height":32},"tiles":[[{"op":"Partition","x":0,"y":0,"size":12,"a":3}]]}
0
12000a0618153ff8088032061640000000c0
tile 0 1 2

{"seq":{"chroma_sampling":3},"frame":{"width":32,"height":64},"tiles":[[{"op":"Partition","x":0,"y":0,"size":12,"a":3}]]}
0
12000a0618117ff8088032061640000000c0
tile 0 1 2

{"seq":{"chroma_sampling":3},"frame":{"width":64,"height":32},"tiles":[[{"op":"Partition","x":0,"y":0,"size":12,"a":1}]]}
0
12000a0618153ff808803206164000000020
tile 0 1 3

{"seq":{"chroma_sampling":3},"frame":{"width":64,"height":64},"tiles":[[{"op":"Partition","x":0,"y":0,"size":12,"a":0},{"op":"Partition","x":0,"y":0,"size":12,"a":1},{"op":"Partition","x":0,"y":0,"size":12,"a":2},{"op":"Partition","x":0,"y":0,"size":12,"a":3},{"op":"Partition","x":0,"y":0,"size":12,"a":4},{"op":"Partition","x":0,"y":0,"size":12,"a":5},{"op":"Partition","x":0,"y":0,"size":12,"a":6},{"op":"Partition","x":0,"y":0,"size":12,"a":7},{"op":"Partition","x":0,"y":0,"size":12,"a":8},{"op":"Partition","x":0,"y":0,"size":12,"a":9}]]}
0
12000a0618157ffc0440320a164000000003f8bcb620
tile 0 5 35

{"seq":{"chroma_sampling":3},"frame":{"width":8,"height":8},"tiles":[[{"op":"RowStart"},{"op":"Block","x":0,"y":0,"size":3},{"op":"Skip","a":true},{"op":"RowStart"},{"op":"Block","x":0,"y":0,"size":3},{"op":"Skip","a":true}]]}
0
12000a051808bf011032061640000000e0
tile 0 1 3

{"seq":{"chroma_sampling":3},"frame":{"width":8,"height":8},"tiles":[[{"op":"Block","x":0,"y":0,"size":3},{"op":"IntraModeKf","a":9}]]}
0
12000a051808bf011032061640000000b8
tile 0 1 5

{"seq":{"chroma_sampling":3},"frame":{"width":8,"height":8},"tiles":[[{"op":"Block","x":0,"y":0,"size":0},{"op":"IntraModeKf","a":12},{"op":"Block","x":1,"y":0,"size":0},{"op":"IntraModeKf","a":1},{"op":"Block","x":0,"y":1,"size":0},{"op":"IntraModeKf","a":2}]]}
0
12000a051808bf011032071640000000ee38
tile 0 2 13

{"seq":{"chroma_sampling":3,"still_picture":false,"reduced_still_picture_hdr":false},"frame":{"width":8,"height":8,"frame_type":1,"intra_only":false,"force_integer_mv":0,"refresh_frame_flags":0},"tiles":[[{"op":"Block","x":0,"y":0,"size":3},{"op":"IntraMode","a":9}]]}
0
1200320c30e0000000036400000000b8
tile 0 1 5

{"seq":{"chroma_sampling":0},"frame":{"width":8,"height":8},"tiles":[[{"op":"Block","x":0,"y":0,"size":3},{"op":"IntraModeKf","a":5},{"op":"UvMode","a":13}]]}
0
12000a051808bf000a320716400000007580
tile 0 2 9

{"seq":{"chroma_sampling":0},"frame":{"width":32,"height":32},"tiles":[[{"op":"Block","x":0,"y":0,"size":9},{"op":"IntraModeKf","a":3},{"op":"UvMode","a":13}]]}
0
12000a0618113ff000a0320716400000004d80
tile 0 2 9

{"seq":{"chroma_sampling":0},"frame":{"width":64,"height":64},"tiles":[[{"op":"Block","x":0,"y":0,"size":12},{"op":"IntraModeKf","a":3},{"op":"UvMode","a":12}]]}
0
12000a0618157ffc0028320716400000004d80
tile 0 2 9

{"seq":{"chroma_sampling":3,"enable_cdef":true},"frame":{"width":8,"height":8,"cdef_bits":3},"tiles":[[{"op":"Block","x":0,"y":0,"size":3},{"op":"Cdef","a":5}]]}
0
12000a051808bf0910320c1640000030000000000000b0
tile 0 1 4

{"seq":{"chroma_sampling":3,"enable_cdef":true},"frame":{"width":8,"height":8},"tiles":[[{"op":"Block","x":0,"y":0,"size":3},{"op":"Cdef","a":0}]]}
0
12000a051808bf0910320716400000000080
tile 0 1 1

{"seq":{"chroma_sampling":3,"enable_filter_intra":true},"frame":{"width":8,"height":8},"tiles":[[{"op":"Block","x":0,"y":0,"size":3},{"op":"FilterIntra","a":false}]]}
0
12000a051808bf41103206164000000020
tile 0 1 3

{"seq":{"chroma_sampling":3},"frame":{"width":8,"height":8,"allow_screen_content_tools":1},"tiles":[[{"op":"Block","x":0,"y":0,"size":3},{"op":"IntraModeKf","a":0},{"op":"Palette","a":false}]]}
0
12000a051808bf01103206659000000004
tile 0 1 6

{"seq":{"chroma_sampling":0},"frame":{"width":8,"height":8,"allow_screen_content_tools":1},"tiles":[[{"op":"Block","x":0,"y":0,"size":3},{"op":"IntraModeKf","a":0},{"op":"UvMode","a":0},{"op":"Palette","a":false}]]}
0
12000a051808bf000a320765900000000020
tile 0 2 11

{"seq":{"chroma_sampling":0},"frame":{"width":8,"height":8,"allow_screen_content_tools":1},"tiles":[[{"op":"Block","x":0,"y":0,"size":3},{"op":"IntraModeKf","a":1},{"op":"UvMode","a":0},{"op":"Palette","a":false}]]}
0
12000a051808bf000a3207659000000013c0
tile 0 2 10

{"seq":{"chroma_sampling":0},"frame":{"width":8,"height":8},"tiles":[[{"op":"Block","x":0,"y":0,"size":3},{"op":"Begin","x":0,"y":0},{"op":"IntraModeKf","a":4},{"op":"UvMode","a":3},{"op":"Abandon"},{"op":"IntraModeKf","a":0},{"op":"UvMode","a":0}]]}
0
12000a051808bf000a320716400000000080
tile 0 2 9
trial 0 1 61 abandoned

{"seq":{"chroma_sampling":3},"frame":{"width":8,"height":8},"tiles":[[{"op":"Partition","x":0,"y":0,"size":12,"a":0}]]}
6
refused tile 0 item 0 r63

{"seq":{"chroma_sampling":3},"frame":{"width":64,"height":32},"tiles":[[{"op":"Partition","x":0,"y":0,"size":12,"a":2}]]}
6
refused tile 0 item 0 r63

{"seq":{"chroma_sampling":3},"frame":{"width":32,"height":64},"tiles":[[{"op":"Partition","x":0,"y":0,"size":12,"a":1}]]}
6
refused tile 0 item 0 r63

{"seq":{"chroma_sampling":3},"frame":{"width":16,"height":16},"tiles":[[{"op":"Partition","x":0,"y":0,"size":3,"a":4}]]}
6
refused tile 0 item 0 r63

{"seq":{"chroma_sampling":3},"frame":{"width":16,"height":16},"tiles":[[{"op":"Partition","x":0,"y":0,"size":4,"a":0}]]}
6
refused tile 0 item 0 r62

{"seq":{"chroma_sampling":3},"frame":{"width":16,"height":16},"tiles":[[{"op":"Partition","x":1,"y":0,"size":3,"a":0}]]}
6
refused tile 0 item 0 r62

{"seq":{"chroma_sampling":3},"frame":{"width":16,"height":16},"tiles":[[{"op":"Partition","x":4,"y":0,"size":3,"a":0}]]}
6
refused tile 0 item 0 r60

{"seq":{"chroma_sampling":3},"frame":{"width":8,"height":8},"tiles":[[{"op":"IntraModeKf","a":0}]]}
6
refused tile 0 item 0 r64

{"seq":{"chroma_sampling":3},"frame":{"width":8,"height":8},"tiles":[[{"op":"Block","x":0,"y":0,"size":3},{"op":"IntraMode","a":0}]]}
6
refused tile 0 item 1 r65

{"seq":{"chroma_sampling":3,"still_picture":false,"reduced_still_picture_hdr":false},"frame":{"width":8,"height":8,"frame_type":1,"intra_only":false,"force_integer_mv":0,"refresh_frame_flags":0},"tiles":[[{"op":"Block","x":0,"y":0,"size":3},{"op":"IntraModeKf","a":0}]]}
6
refused tile 0 item 1 r65

{"seq":{"chroma_sampling":3},"frame":{"width":8,"height":8},"tiles":[[{"op":"Block","x":0,"y":0,"size":3},{"op":"IntraModeKf","a":13}]]}
6
refused tile 0 item 1 r70

{"seq":{"chroma_sampling":3},"frame":{"width":8,"height":8},"tiles":[[{"op":"Block","x":0,"y":0,"size":3},{"op":"UvMode","a":0}]]}
6
refused tile 0 item 1 r71

{"seq":{"chroma_sampling":0},"frame":{"width":8,"height":8},"tiles":[[{"op":"Block","x":0,"y":0,"size":0},{"op":"UvMode","a":0}]]}
6
refused tile 0 item 1 r71

{"seq":{"chroma_sampling":0},"frame":{"width":64,"height":64},"tiles":[[{"op":"Block","x":0,"y":0,"size":12},{"op":"UvMode","a":13}]]}
6
refused tile 0 item 1 r71

{"seq":{"chroma_sampling":0},"frame":{"width":8,"height":8},"tiles":[[{"op":"Block","x":0,"y":0,"size":3},{"op":"UvMode","a":14}]]}
6
refused tile 0 item 1 r71

{"seq":{"chroma_sampling":3},"frame":{"width":8,"height":8},"tiles":[[{"op":"Block","x":0,"y":0,"size":3},{"op":"Cdef","a":0}]]}
6
refused tile 0 item 1 r68

{"seq":{"chroma_sampling":3,"enable_cdef":true},"frame":{"width":8,"height":8,"cdef_bits":3},"tiles":[[{"op":"Block","x":0,"y":0,"size":3},{"op":"Cdef","a":8}]]}
6
refused tile 0 item 1 r68

{"seq":{"chroma_sampling":3},"frame":{"width":8,"height":8},"tiles":[[{"op":"Block","x":0,"y":0,"size":3},{"op":"FilterIntra","a":false}]]}
6
refused tile 0 item 1 r74

{"seq":{"chroma_sampling":3,"enable_filter_intra":true},"frame":{"width":8,"height":8},"tiles":[[{"op":"Block","x":0,"y":0,"size":3},{"op":"FilterIntra","a":true}]]}
6
refused tile 0 item 1 r74

{"seq":{"chroma_sampling":3,"enable_filter_intra":true},"frame":{"width":8,"height":8},"tiles":[[{"op":"Block","x":0,"y":0,"size":3},{"op":"IntraModeKf","a":1},{"op":"FilterIntra","a":false}]]}
6
refused tile 0 item 2 r74

{"seq":{"chroma_sampling":3},"frame":{"width":8,"height":8},"tiles":[[{"op":"Block","x":0,"y":0,"size":3},{"op":"Palette","a":false}]]}
6
refused tile 0 item 1 r75

{"seq":{"chroma_sampling":3},"frame":{"width":8,"height":8,"allow_screen_content_tools":1},"tiles":[[{"op":"Block","x":0,"y":0,"size":3},{"op":"Palette","a":true}]]}
6
refused tile 0 item 1 r75

{"seq":{"chroma_sampling":0},"frame":{"width":8,"height":8,"allow_screen_content_tools":1},"tiles":[[{"op":"Block","x":0,"y":0,"size":3},{"op":"Palette","a":false}]]}
6
refused tile 0 item 1 r75

{"seq":{"chroma_sampling":3},"frame":{"width":8,"height":8,"allow_screen_content_tools":1},"tiles":[[{"op":"Block","x":0,"y":0,"size":2},{"op":"Palette","a":false}]]}
6
refused tile 0 item 1 r75

{"seq":{"chroma_sampling":3},"frame":{"width":8,"height":8},"tiles":[[{"op":"Block","x":0,"y":0,"size":3},{"op":"Begin","x":0,"y":0},{"op":"RowStart"},{"op":"Abandon"}]]}
7
bad script tile 0 item 2"#;
