// Units with coefficients, and whole tiles in the order of AV1, with the status and the text that they give. Those of status 0 were
// answered by rav1e's own calls, but for the one that says `eob_by_coded`, which a program written apart answered; the rules of the
// refusals are those of the tables.

/// Rows as those of `ROWS`.
pub const COEFFICIENTS: &str =
    r#"{"seq":{"chroma_sampling":3},"frame":{"width":8,"height":8},"tiles":[[{"op":"Block","x":0,"y":0,"size":0},{"op":"Coeffs","plane":0,"x":0,"y":0,"tx_type":0,"a":[]}]]}
0
12000a051808bf011032061640000000c0
tile 0 1 2

{"seq":{"chroma_sampling":3},"frame":{"width":16,"height":64},"tiles":[[{"op":"Block","x":0,"y":0,"size":20},{"op":"Begin","x":0,"y":0},{"op":"Coeffs","plane":0,"x":0,"y":0,"tx_type":0,"a":[1]},{"op":"Abandon"}]]}
0
12000a05180d7ff0113206164000000080
tile 0 1 1
trial 0 1 56 abandoned

{"seq":{"chroma_sampling":3},"frame":{"width":16,"height":64},"eob_by_coded":false,"tiles":[[{"op":"Block","x":0,"y":0,"size":20},{"op":"Begin","x":0,"y":0},{"op":"Coeffs","plane":0,"x":0,"y":0,"tx_type":0,"a":[1]},{"op":"Abandon"}]]}
0
12000a05180d7ff0113206164000000080
tile 0 1 1
trial 0 1 56 abandoned

{"seq":{"chroma_sampling":3},"frame":{"width":16,"height":64},"eob_by_coded":true,"tiles":[[{"op":"Block","x":0,"y":0,"size":20},{"op":"Begin","x":0,"y":0},{"op":"Coeffs","plane":0,"x":0,"y":0,"tx_type":0,"a":[1]},{"op":"Abandon"}]]}
0
12000a05180d7ff0113206164000000080
tile 0 1 1
trial 0 1 55 abandoned

{"seq":{"chroma_sampling":3},"frame":{"width":8,"height":8},"tiles":[[{"op":"Block","x":0,"y":0,"size":0},{"op":"Coeffs","plane":0,"x":0,"y":0,"tx_type":1,"a":[]}]]}
6
refused tile 0 item 1 r85

{"seq":{"chroma_sampling":3},"frame":{"width":8,"height":8},"tiles":[[{"op":"Block","x":0,"y":0,"size":0},{"op":"Coeffs","plane":0,"x":0,"y":0,"tx_type":0,"a":[1]}]]}
0
12000a051808bf0110320716400000001340
tile 0 2 10

{"seq":{"chroma_sampling":3},"frame":{"width":8,"height":8},"tiles":[[{"op":"Block","x":0,"y":0,"size":0},{"op":"Coeffs","plane":0,"x":0,"y":0,"tx_type":0,"a":[0]}]]}
6
refused tile 0 item 1 r84

{"seq":{"chroma_sampling":3},"frame":{"width":8,"height":8},"tiles":[[{"op":"Block","x":0,"y":0,"size":0},{"op":"Coeffs","plane":0,"x":0,"y":0,"tx_type":0,"a":[-2,3,-14,15,-16]}]]}
0
12000a051808bf0110320c16400000001eb787ffe844d8
tile 0 7 53

{"seq":{"chroma_sampling":3},"frame":{"width":8,"height":8},"tiles":[[{"op":"Block","x":0,"y":0,"size":0},{"op":"Coeffs","plane":0,"x":0,"y":0,"tx_type":0,"a":[1048575,0,-1048575]}]]}
0
12000a051808bf0110321316400000001bfcf45a85819e0e88c1819e0e88
tile 0 14 109

{"seq":{"chroma_sampling":3},"frame":{"width":8,"height":8},"tiles":[[{"op":"Block","x":0,"y":0,"size":3},{"op":"Coeffs","plane":0,"x":0,"y":0,"tx_type":0,"a":[1,-1,2,0,4]},{"op":"Coeffs","plane":0,"x":0,"y":0,"tx_type":1,"a":[1,-1,2,0,4]},{"op":"Coeffs","plane":0,"x":0,"y":0,"tx_type":2,"a":[1,-1,2,0,4]},{"op":"Coeffs","plane":0,"x":0,"y":0,"tx_type":3,"a":[1,-1,2,0,4]},{"op":"Coeffs","plane":0,"x":0,"y":0,"tx_type":9,"a":[1,-1,2,0,4]},{"op":"Coeffs","plane":0,"x":0,"y":0,"tx_type":10,"a":[1,-1,2,0,4]},{"op":"Coeffs","plane":0,"x":0,"y":0,"tx_type":11,"a":[1,-1,2,0,4]}]]}
0
12000a051808bf0110321916400000001b300372bbd95fa9d51600eaa82faa3ab632fbc8
tile 0 20 157

{"seq":{"chroma_sampling":3},"frame":{"width":8,"height":8,"use_reduced_tx_set":true},"tiles":[[{"op":"Block","x":0,"y":0,"size":3},{"op":"Coeffs","plane":0,"x":0,"y":0,"tx_type":9,"a":[3,0,1]},{"op":"Coeffs","plane":0,"x":0,"y":0,"tx_type":0,"a":[3,0,1]},{"op":"Coeffs","plane":0,"x":0,"y":0,"tx_type":3,"a":[3,0,1]}]]}
0
12000a051808bf0110320c164000004007a96b3ba42c80
tile 0 7 49

{"seq":{"chroma_sampling":3},"frame":{"width":8,"height":8},"tiles":[[{"op":"Block","x":0,"y":0,"size":0},{"op":"Coeffs","plane":0,"x":0,"y":0,"tx_type":0,"a":[1]},{"op":"Coeffs","plane":0,"x":0,"y":0,"tx_type":0,"a":[0,1]},{"op":"Coeffs","plane":0,"x":0,"y":0,"tx_type":0,"a":[0,0,1]},{"op":"Coeffs","plane":0,"x":0,"y":0,"tx_type":0,"a":[0,0,0,1]},{"op":"Coeffs","plane":0,"x":0,"y":0,"tx_type":0,"a":[0,0,0,0,1]},{"op":"Coeffs","plane":0,"x":0,"y":0,"tx_type":0,"a":[0,0,0,0,0,0,0,1]},{"op":"Coeffs","plane":0,"x":0,"y":0,"tx_type":0,"a":[0,0,0,0,0,0,0,0,1]},{"op":"Coeffs","plane":0,"x":0,"y":0,"tx_type":0,"a":[0,0,0,0,0,0,0,0,0,0,0,0,0,0,0,1]}]]}
0
12000a051808bf01103217164000000012e89d205810abb65c3ee1f2380596bf0008
tile 0 18 141

{"seq":{"chroma_sampling":3},"frame":{"width":64,"height":64},"tiles":[[{"op":"Block","x":0,"y":0,"size":12},{"op":"Coeffs","plane":0,"x":0,"y":0,"tx_type":0,"a":[0,0,0,0,0,0,0,0,0,0,0,0,0,0,0,0,0,0,0,0,0,0,0,0,0,0,0,0,0,0,0,0,0,0,0,0,0,0,0,0,0,0,0,0,0,0,0,0,0,0,0,0,0,0,0,0,0,0,0,0,0,0,0,0,0,0,0,0,0,0,0,0,0,0,0,0,0,0,0,0,0,0,0,0,0,0,0,0,0,0,0,0,0,0,0,0,0,0,0,0,0,0,0,0,0,0,0,0,0,0,0,0,0,0,0,0,0,0,0,0,0,0,0,0,0,0,0,0,0,0,0,0,0,0,0,0,0,0,0,0,0,0,0,0,0,0,0,0,0,0,0,0,0,0,0,0,0,0,0,0,0,0,0,0,0,0,0,0,0,0,0,0,0,0,0,0,0,0,0,0,0,0,0,0,0,0,0,0,0,0,0,0,0,0,0,0,0,0,0,0,0,0,0,0,0,0,0,0,0,0,0,0,0,0,0,0,0,0,0,0,0,0,0,0,0,0,0,0,0,0,0,0,0,0,0,0,0,0,0,0,0,0,0,0,0,0,0,0,0,0,0,0,0,0,0,0,0,0,0,0,0,0,0,0,0,0,0,0,0,0,0,0,0,0,0,0,0,0,0,0,0,0,0,0,0,0,0,0,0,0,0,0,0,0,0,0,0,0,0,0,0,0,0,0,0,0,0,0,0,0,0,0,0,0,0,0,0,0,0,0,0,0,0,0,0,0,0,0,0,0,0,0,0,0,0,0,0,0,0,0,0,0,0,0,0,0,0,0,0,0,0,0,0,0,0,0,0,0,0,0,0,0,0,0,0,0,0,0,0,0,0,0,0,0,0,0,0,0,0,0,0,0,0,0,0,0,0,0,0,0,0,0,0,0,0,0,0,0,0,0,0,0,0,0,0,0,0,0,0,0,0,0,0,0,0,0,0,0,0,0,0,0,0,0,0,0,0,0,0,0,0,0,0,0,0,0,0,0,0,0,0,0,0,0,0,0,0,0,0,0,0,0,0,0,0,0,0,0,0,0,0,0,0,0,0,0,0,0,0,0,0,0,0,0,0,0,0,0,0,0,0,0,0,0,0,0,0,0,0,0,0,0,0,0,0,0,0,0,0,0,0,0,0,0,0,0,0,0,0,0,0,0,0,0,0,0,0,0,0,0,0,0,0,0,0,0,0,0,0,0,0,0,0,0,0,0,0,0,0,0,0,0,0,0,0,0,0,0,0,0,0,0,0,0,0,0,0,0,0,0,0,0,0,0,0,0,0,0,0,0,0,0,0,0,0,0,0,0,0,0,0,0,0,0,0,0,0,0,0,0,0,0,0,0,0,0,0,0,0,0,0,0,0,0,0,0,0,0,0,0,0,0,0,0,0,0,0,0,0,0,0,0,0,0,0,0,0,0,0,0,0,0,0,0,0,0,0,0,0,0,0,0,0,0,0,0,0,0,0,0,0,0,0,0,0,0,0,0,0,0,0,0,0,0,0,0,0,0,0,0,0,0,0,0,0,0,0,0,0,0,0,0,0,0,0,0,0,0,0,0,0,0,0,0,0,0,0,0,0,0,0,0,0,0,0,0,0,0,0,0,0,0,0,0,0,0,0,0,0,0,0,0,0,0,0,0,0,0,0,0,0,0,0,0,0,0,0,0,0,0,0,0,0,0,0,0,0,0,0,0,0,0,0,0,0,0,0,0,0,0,0,0,0,0,0,0,0,0,0,0,0,0,0,0,0,0,0,0,0,0,0,0,0,0,0,0,0,0,0,0,0,0,0,0,0,0,0,0,0,0,0,0,0,0,0,0,0,0,0,0,0,0,0,0,0,0,0,0,0,0,0,0,0,0,0,0,0,0,0,0,0,0,0,0,0,0,0,0,0,0,0,0,0,0,0,0,0,0,0,0,0,0,0,0,0,0,0,0,0,0,0,0,0,0,0,0,0,0,0,0,0,0,0,0,0,0,0,0,0,0,0,0,0,0,0,0,0,0,0,0,0,0,0,0,0,0,0,0,0,0,0,0,0,0,0,0,0,0,0,0,0,0,0,0,0,0,0,0,0,0,0,0,0,0,0,0,0,0,0,0,0,0,0,0,0,0,0,0,0,0,0,0,0,0,0,0,0,0,0,0,0,0,0,0,0,0,0,0,0,0,0,0,0,0,0,0,0,0,0,0,0,0,0,0,0,0,0,0,0,0,0,0,0,0,0,0,0,0,0,0,0,0,0,0,0,0,0,0,0,0,0,0,0,0,0,0,0,0,0,0,0,0,0,0,0,0,0,0,0,0,0,0,0,-5]}]]}
0
12000a0618157ffc0440321816400000007ff70cf0000000000000000000000000000003
tile 0 19 152

{"seq":{"chroma_sampling":3},"frame":{"width":64,"height":64},"tiles":[[{"op":"Block","x":0,"y":0,"size":12},{"op":"Coeffs","plane":0,"x":0,"y":0,"tx_type":0,"a":[7,-3,0,0,0,0,0,0,0,0,0,0,0,0,0,0,0,0,0,0,0,0,0,0,0,0,0,0,0,0,0,0,0,0,0,0,0,0,0,0,0,0,0,0,0,0,0,0,0,0,0,0,0,0,0,0,0,0,0,0,0,0,0,0,0,0,0,0,0,0,0,0,0,0,0,0,0,0,0,0,0,0,0,0,0,0,0,0,0,0,0,0,0,0,0,0,0,0,0,0,0,0,0,0,0,0,0,0,0,0,0,0,0,0,0,0,0,0,0,0,0,0,0,0,0,0,0,0,0,0,0,0,0,0,0,0,0,0,0,0,0,0,0,0,0,0,0,0,0,0,0,0,0,0,0,0,0,0,0,0,0,0,0,0,0,0,0,0,0,0,0,0,0,0,0,0,0,0,0,0,0,0,0,0,0,0,0,0,0,0,0,0,0,0,0,0,0,0,0,0,0,0,0,0,0,0,0,0,0,0,0,0,0,0,0,0,0,0,0,0,0,0,0,0,0,0,0,0,0,0,0,0,0,0,0,0,0,0,0,0,0,0,0,0,0,0,0,0,0,0,0,0,0,0,0,0,0,0,0,0,0,0,0,0,0,0,0,0,0,0,0,0,0,0,0,0,0,0,0,0,0,0,0,0,0,0,0,0,0,0,0,0,0,0,0,0,0,0,0,0,0,0,0,0,0,0,0,0,0,0,0,0,0,0,0,0,0,0,0,0,0,0,0,0,0,0,0,0,0,0,0,0,0,0,0,0,0,0,0,0,0,0,0,0,0,0,0,0,0,0,0,0,0,0,0,0,0,0,0,0,0,0,0,0,0,0,0,0,0,0,0,0,0,0,0,0,0,0,0,0,0,0,0,0,0,0,0,0,0,0,0,0,0,0,0,0,0,0,0,0,0,0,0,0,0,0,0,0,0,0,0,0,0,0,0,0,0,0,0,0,0,0,0,0,0,0,0,0,0,0,0,0,0,0,0,0,0,0,0,0,0,0,0,0,0,0,0,0,0,0,0,0,0,0,0,0,0,0,0,0,0,0,0,0,0,0,0,0,0,0,0,0,0,0,0,0,0,0,0,0,0,0,0,0,0,0,0,0,0,0,0,0,0,0,0,0,0,0,0,0,0,0,0,0,0,0,0,0,0,0,0,0,0,0,0,0,0,0,0,0,0,0,0,0,0,0,0,0,0,0,0,0,0,0,0,0,0,0,0,0,0,0,0,0,0,0,0,0,0,0,0,0,0,0,0,0,0,0,0,0,0,0,0,0,0,0,0,0,0,0,0,0,0,0,0,0,0,0,0,0,0,0,0,0,0,0,0,0,0,0,0,0,0,0,0,0,0,0,0,0,0,0,1]}]]}
0
12000a0618157ffc04403219164000000076891680000000000000000000000000000322e8
tile 0 20 157

{"seq":{"chroma_sampling":3},"frame":{"width":8,"height":8},"tiles":[[{"op":"Block","x":0,"y":0,"size":0},{"op":"Coeffs","plane":0,"x":0,"y":0,"tx_type":0,"a":[-1]},{"op":"Block","x":1,"y":0,"size":0},{"op":"Coeffs","plane":0,"x":1,"y":0,"tx_type":0,"a":[2,2]},{"op":"Block","x":0,"y":1,"size":0},{"op":"Coeffs","plane":0,"x":0,"y":1,"tx_type":0,"a":[]},{"op":"Block","x":1,"y":1,"size":0},{"op":"Coeffs","plane":0,"x":1,"y":1,"tx_type":0,"a":[63]}]]}
0
12000a051808bf0110320c16400000001389e2a2013e80
tile 0 7 49

{"seq":{"chroma_sampling":3},"frame":{"width":32,"height":24},"tiles":[[{"op":"Block","x":0,"y":0,"size":3},{"op":"Coeffs","plane":0,"x":0,"y":0,"tx_type":0,"a":[-40,9]},{"op":"Block","x":2,"y":0,"size":3},{"op":"Coeffs","plane":0,"x":2,"y":0,"tx_type":0,"a":[]},{"op":"Block","x":0,"y":4,"size":6},{"op":"Coeffs","plane":0,"x":0,"y":4,"tx_type":0,"a":[1]}]]}
0
12000a0518113f7011320b1640000000180fd6516b0c
tile 0 6 46

{"seq":{"chroma_sampling":3},"frame":{"width":16,"height":8},"tiles":[[{"op":"Block","x":0,"y":0,"size":3},{"op":"Coeffs","plane":0,"x":0,"y":0,"tx_type":0,"a":[-40,9]},{"op":"Block","x":0,"y":0,"size":3},{"op":"Skip","a":true},{"op":"Block","x":2,"y":0,"size":3},{"op":"Skip","a":false},{"op":"Coeffs","plane":0,"x":2,"y":0,"tx_type":0,"a":[1]}]]}
0
12000a05180cbf8088320b1640000000180fd6516846
tile 0 6 47

{"seq":{"chroma_sampling":0},"frame":{"width":8,"height":8},"tiles":[[{"op":"Block","x":0,"y":0,"size":3},{"op":"IntraModeKf","a":0},{"op":"UvMode","a":9},{"op":"Coeffs","plane":0,"x":0,"y":0,"tx_type":0,"a":[5]},{"op":"Coeffs","plane":1,"x":0,"y":0,"tx_type":3,"a":[1,-1]},{"op":"Coeffs","plane":2,"x":0,"y":0,"tx_type":0,"a":[-2]}]]}
0
12000a051808bf000a320a16400000000cc0e37b60
tile 0 5 35

{"seq":{"chroma_sampling":0},"frame":{"width":8,"height":8},"tiles":[[{"op":"Block","x":1,"y":1,"size":0},{"op":"IntraModeKf","a":0},{"op":"UvMode","a":0},{"op":"Coeffs","plane":0,"x":1,"y":1,"tx_type":0,"a":[]},{"op":"Coeffs","plane":1,"x":1,"y":1,"tx_type":0,"a":[1]},{"op":"Coeffs","plane":2,"x":1,"y":1,"tx_type":10,"a":[0,3]}]]}
0
12000a051808bf000a3209164000000000b32140
tile 0 4 26

{"seq":{"profile":1,"chroma_sampling":2},"frame":{"width":8,"height":8},"tiles":[[{"op":"Block","x":0,"y":0,"size":0},{"op":"Coeffs","plane":1,"x":0,"y":0,"tx_type":0,"a":[1]},{"op":"Coeffs","plane":2,"x":0,"y":0,"tx_type":15,"a":[1,2]}]]}
0
12000a053808bf00503207164000000000ad
tile 0 2 16

{"seq":{"profile":2,"chroma_sampling":1},"frame":{"width":8,"height":8},"tiles":[[{"op":"Block","x":0,"y":0,"size":3},{"op":"Coeffs","plane":1,"x":0,"y":0,"tx_type":0,"a":[1,1,1]},{"op":"Coeffs","plane":2,"x":0,"y":0,"tx_type":0,"a":[]}]]}
0
12000a055808bf0028320716400000002c29
tile 0 2 16

{"seq":{"profile":1,"chroma_sampling":2},"frame":{"width":64,"height":64},"tiles":[[{"op":"Block","x":0,"y":0,"size":12},{"op":"Coeffs","plane":1,"x":0,"y":0,"tx_type":0,"a":[1]},{"op":"Coeffs","plane":1,"x":8,"y":0,"tx_type":0,"a":[-3,1]},{"op":"Coeffs","plane":1,"x":0,"y":8,"tx_type":0,"a":[]},{"op":"Coeffs","plane":1,"x":8,"y":8,"tx_type":0,"a":[20]}]]}
0
12000a0638157ffc0140320b16400000000026b8667d80
tile 0 6 41

{"seq":{"chroma_sampling":0},"frame":{"width":64,"height":64},"tiles":[[{"op":"Block","x":0,"y":0,"size":12},{"op":"Coeffs","plane":1,"x":0,"y":0,"tx_type":0,"a":[1]},{"op":"Coeffs","plane":2,"x":0,"y":0,"tx_type":9,"a":[-1,0,0,1]}]]}
0
12000a0618157ffc0028320816400000000047a3
tile 0 3 24

{"seq":{"chroma_sampling":0},"frame":{"width":24,"height":40},"tiles":[[{"op":"Block","x":0,"y":0,"size":12},{"op":"Coeffs","plane":0,"x":0,"y":0,"tx_type":0,"a":[4]},{"op":"Coeffs","plane":1,"x":0,"y":0,"tx_type":0,"a":[1]},{"op":"Block","x":0,"y":0,"size":3},{"op":"Coeffs","plane":0,"x":0,"y":0,"tx_type":0,"a":[1]},{"op":"Block","x":4,"y":8,"size":3},{"op":"Coeffs","plane":0,"x":4,"y":8,"tx_type":0,"a":[-1]}]]}
0
12000a0618116f380050320a16400000000918322460
tile 0 5 35

{"seq":{"chroma_sampling":3},"frame":{"width":16,"height":64},"tiles":[[{"op":"Block","x":0,"y":0,"size":20},{"op":"Begin","x":0,"y":0},{"op":"Coeffs","plane":0,"x":0,"y":0,"tx_type":0,"a":[1]},{"op":"Abandon"}]]}
0
12000a05180d7ff0113206164000000080
tile 0 1 1
trial 0 1 56 abandoned

{"seq":{"chroma_sampling":3},"frame":{"width":16,"height":64},"tiles":[[{"op":"Block","x":0,"y":0,"size":20},{"op":"Coeffs","plane":0,"x":0,"y":0,"tx_type":0,"a":[1,1,1,0,0,0,0,0,0,0,0,0,0,0,0,0,0,0,0,0,0,0,0,0,0,0,0,0,0,0,0,0,0,0,0,0,0,0,0,0,0,0,0,0,0,0,0,0,0,0,0,0,0,0,0,0,0,0,0,0,0,0,0,0,0,0,0,0,0,0,0,0,0,0,0,0,0,0,0,0,0,0,0,0,0,0,0,0,0,0,0,0,0,0,0,0,0,0,0,0,0,0,0,0,0,0,0,0,0,0,0,0,0,0,0,0,0,0,0,0,0,0,0,0,0,0,0,0,0,0,0,0,0,0,0,0,0,0,0,0,0,0,0,0,0,0,0,0,0,0,0,0,0,0,0,0,0,0,0,0,0,0,0,0,0,0,0,0,0,0,0,0,0,0,0,0,0,0,0,0,0,0,0,0,0,0,0,0,0,0,0,0,0,0,0,0,0,0,0,0,0,0,0,0,0,0,0,0,0,0,0,0,0,0,0,0,0,0,0,0,0,0,0,0,0,0,0,0,0,0,0,0,0,0,0,0,0,0,0,0,0,0,0,0,0,0,0,0,0,0,0,0,0,0,0,0,0,0,0,0,0,0,0,0,0,0,0,0,0,0,0,0,0,0,0,0,0,0,0,0,0,0,0,0,0,0,0,0,0,0,0,0,0,0,0,0,0,0,0,0,0,0,0,0,0,0,0,0,0,0,0,0,0,0,0,0,0,0,0,0,0,0,0,0,0,0,0,0,0,0,0,0,0,0,0,0,0,0,0,0,0,0,0,0,0,0,0,0,0,0,0,0,0,0,0,0,0,0,0,0,0,0,0,0,0,0,0,0,0,0,0,0,0,0,0,0,0,0,0,0,0,0,0,0,0,0,0,0,0,0,0,0,0,0,0,0,0,0,0,0,0,0,0,0,0,0,0,0,0,0,0,0,0,0,0,0,0,0,0,0,0,0,0,0,0,0,0,0,0,0,0,0,0,0,0,0,0,0,0,0,0,0,0,0,0,0,0,0,0,0,0,0,0,0,0,0,0,0,0,0,0,0,0,0,0,0,0,0,0,0,0,0,0,0,0,0,0,0,0,0,0,0,0,0,0,0,0,0,0,0,0,0,0,0,0,0,0,0,0,0,0,0,0,0,0,0,0,0,0,0,0,1]}]]}
0
12000a05180d7ff011321b16400000007475cf80000000000000000000000000000000001857
tile 0 22 176

{"seq":{"chroma_sampling":3},"frame":{"width":8,"height":8},"tiles":[[{"op":"Block","x":0,"y":0,"size":3},{"op":"IntraModeKf","a":12},{"op":"Coeffs","plane":0,"x":0,"y":0,"tx_type":11,"a":[1]},{"op":"Coeffs","plane":0,"x":0,"y":0,"tx_type":10,"a":[-1]}]]}
0
12000a051808bf011032081640000000f0b052
tile 0 3 23

{"seq":{"chroma_sampling":3},"frame":{"width":8,"height":8,"base_q_idx":20},"tiles":[[{"op":"Block","x":0,"y":0,"size":0},{"op":"Begin","x":0,"y":0},{"op":"Coeffs","plane":0,"x":0,"y":0,"tx_type":3,"a":[9,-9]},{"op":"Abandon"},{"op":"Coeffs","plane":0,"x":0,"y":0,"tx_type":0,"a":[1]}]]}
0
12000a051808bf0110320711400000001340
tile 0 2 10
trial 0 1 189 abandoned

{"seq":{"chroma_sampling":3},"frame":{"width":8,"height":8},"scans":"diagonal","tiles":[[{"op":"Block","x":0,"y":0,"size":0},{"op":"Coeffs","plane":0,"x":0,"y":0,"tx_type":0,"a":[1]}]]}
0
12000a051808bf0110320716400000001340
tile 0 2 10

{"seq":{"chroma_sampling":3},"frame":{"width":8,"height":8},"tiles":[[{"op":"Coeffs","plane":0,"x":0,"y":0,"tx_type":0,"a":[1]}]]}
6
refused tile 0 item 0 r64

{"seq":{"chroma_sampling":3},"frame":{"width":8,"height":8},"tiles":[[{"op":"Coeffs","plane":0,"x":2,"y":0,"tx_type":0,"a":[1]}]]}
6
refused tile 0 item 0 r60

{"seq":{"chroma_sampling":3},"frame":{"width":8,"height":8},"tiles":[[{"op":"Block","x":0,"y":0,"size":0},{"op":"Coeffs","plane":0,"x":0,"y":9223372036854775807,"tx_type":0,"a":[1]}]]}
6
refused tile 0 item 1 r60

{"seq":{"chroma_sampling":3},"frame":{"width":8,"height":8},"tiles":[[{"op":"Block","x":0,"y":0,"size":0},{"op":"Skip","a":true},{"op":"Coeffs","plane":0,"x":0,"y":0,"tx_type":0,"a":[1]}]]}
6
refused tile 0 item 2 r83

{"seq":{"chroma_sampling":3},"frame":{"width":8,"height":8},"tiles":[[{"op":"Block","x":0,"y":0,"size":0},{"op":"Coeffs","plane":1,"x":0,"y":0,"tx_type":0,"a":[1]}]]}
6
refused tile 0 item 1 r83

{"seq":{"chroma_sampling":0},"frame":{"width":8,"height":8},"tiles":[[{"op":"Block","x":0,"y":0,"size":0},{"op":"Coeffs","plane":3,"x":0,"y":0,"tx_type":0,"a":[1]}]]}
6
refused tile 0 item 1 r83

{"seq":{"chroma_sampling":0},"frame":{"width":8,"height":8},"tiles":[[{"op":"Block","x":0,"y":0,"size":0},{"op":"Coeffs","plane":1,"x":0,"y":0,"tx_type":0,"a":[1]}]]}
6
refused tile 0 item 1 r83

{"seq":{"chroma_sampling":3},"frame":{"width":8,"height":8},"tiles":[[{"op":"Block","x":0,"y":0,"size":0},{"op":"Coeffs","plane":0,"x":1,"y":0,"tx_type":0,"a":[1]}]]}
6
refused tile 0 item 1 r83

{"seq":{"chroma_sampling":3},"frame":{"width":8,"height":8},"tiles":[[{"op":"Block","x":0,"y":0,"size":3},{"op":"Coeffs","plane":0,"x":1,"y":1,"tx_type":0,"a":[1]}]]}
6
refused tile 0 item 1 r83

{"seq":{"chroma_sampling":3},"frame":{"width":16,"height":8},"tiles":[[{"op":"Block","x":2,"y":0,"size":3},{"op":"Coeffs","plane":0,"x":0,"y":0,"tx_type":0,"a":[1]}]]}
6
refused tile 0 item 1 r83

{"seq":{"chroma_sampling":3},"frame":{"width":8,"height":8},"tiles":[[{"op":"Block","x":0,"y":0,"size":0},{"op":"Coeffs","plane":0,"x":0,"y":0,"tx_type":0,"a":[1,1,1,1,1,1,1,1,1,1,1,1,1,1,1,1,1]}]]}
6
refused tile 0 item 1 r84

{"seq":{"chroma_sampling":3},"frame":{"width":8,"height":8},"tiles":[[{"op":"Block","x":0,"y":0,"size":0},{"op":"Coeffs","plane":0,"x":0,"y":0,"tx_type":0,"a":[1048576]}]]}
6
refused tile 0 item 1 r84

{"seq":{"chroma_sampling":3},"frame":{"width":8,"height":8},"tiles":[[{"op":"Block","x":0,"y":0,"size":0},{"op":"Coeffs","plane":0,"x":0,"y":0,"tx_type":0,"a":[-1048576]}]]}
6
refused tile 0 item 1 r84

{"seq":{"chroma_sampling":3},"frame":{"width":8,"height":8},"tiles":[[{"op":"Block","x":0,"y":0,"size":0},{"op":"Coeffs","plane":0,"x":0,"y":0,"tx_type":0,"a":[-2147483648]}]]}
6
refused tile 0 item 1 r84

{"seq":{"chroma_sampling":3},"frame":{"width":8,"height":8},"tiles":[[{"op":"Block","x":0,"y":0,"size":0},{"op":"Coeffs","plane":0,"x":0,"y":0,"tx_type":0,"a":[1,0]}]]}
6
refused tile 0 item 1 r84

{"seq":{"chroma_sampling":3},"frame":{"width":8,"height":8},"tiles":[[{"op":"Block","x":0,"y":0,"size":0},{"op":"Coeffs","plane":0,"x":0,"y":0,"tx_type":4,"a":[1]}]]}
6
refused tile 0 item 1 r85

{"seq":{"chroma_sampling":3},"frame":{"width":16,"height":16},"tiles":[[{"op":"Block","x":0,"y":0,"size":6},{"op":"Coeffs","plane":0,"x":0,"y":0,"tx_type":10,"a":[1]}]]}
6
refused tile 0 item 1 r85

{"seq":{"chroma_sampling":3},"frame":{"width":32,"height":32},"tiles":[[{"op":"Block","x":0,"y":0,"size":9},{"op":"Coeffs","plane":0,"x":0,"y":0,"tx_type":9,"a":[1]}]]}
6
refused tile 0 item 1 r85

{"seq":{"chroma_sampling":3},"frame":{"width":8,"height":8,"use_reduced_tx_set":true},"tiles":[[{"op":"Block","x":0,"y":0,"size":3},{"op":"Coeffs","plane":0,"x":0,"y":0,"tx_type":10,"a":[1]}]]}
6
refused tile 0 item 1 r85

{"seq":{"chroma_sampling":3},"frame":{"width":128,"height":8},"tiles":[[{"op":"Block","x":0,"y":0,"size":0},{"op":"Begin","x":0,"y":0},{"op":"Coeffs","plane":0,"x":16,"y":0,"tx_type":0,"a":[1]},{"op":"Keep"}]]}
7
bad script tile 0 item 2

{"seq":{"chroma_sampling":3},"frame":{"width":8,"height":8},"tiles":[[{"op":"Block","x":0,"y":0,"size":0},{"op":"Coeffs","plane":0,"x":0,"y":0,"tx_type":16,"a":[1]}]]}
5
bad shape at /tiles/0/1/tx_type

{"seq":{"chroma_sampling":3},"frame":{"width":8,"height":8},"tiles":[[{"op":"Block","x":0,"y":0,"size":0},{"op":"Coeffs","plane":0,"x":0,"y":0,"tx_type":0,"a":[2147483648]}]]}
5
bad shape at /tiles/0/1/a/0

{"seq":{"chroma_sampling":3},"frame":{"width":8,"height":8},"tiles":[[{"op":"Block","x":0,"y":0,"size":0},{"op":"Coeffs","plane":0,"x":0,"y":0,"tx_type":0,"a":1}]]}
5
bad shape at /tiles/0/1/a

{"seq":{"chroma_sampling":3},"frame":{"width":8,"height":8},"scans":[[[],[],[]],[[],[],[]],[[],[],[]],[[],[],[]],[[],[],[]],[[],[],[]],[[],[],[]],[[],[],[]],[[],[],[]],[[],[],[]],[[],[],[]],[[],[],[]],[[],[],[]],[[],[],[]],[[],[],[]],[[],[],[]],[[],[],[]],[[],[],[]],[[],[],[]]],"tiles":[[]]}
6
refused scans r4

{"seq":{"chroma_sampling":3},"frame":{"width":8,"height":8},"scans":[[[],[],[]],[[],[],[]],[[],[],[]],[[],[],[]],[[],[],[]],[[],[],[]],[[],[],[]],[[],[],[]],[[],[],[]],[[],[],[]],[[],[],[]],[[],[],[]],[[],[],[]],[[],[],[]],[[],[],[]],[[],[],[]],[[],[],[]],[[],[],[]]],"tiles":[[]]}
5
bad shape at /scans

{"seq":{"chroma_sampling":3},"frame":{"width":8,"height":8},"scans":[[[],[]],[[],[]],[[],[]],[[],[]],[[],[]],[[],[]],[[],[]],[[],[]],[[],[]],[[],[]],[[],[]],[[],[]],[[],[]],[[],[]],[[],[]],[[],[]],[[],[]],[[],[]],[[],[]]],"tiles":[[]]}
5
bad shape at /scans/0

{"seq":{"chroma_sampling":3},"frame":{"width":8,"height":8},"scans":"other","tiles":[[]]}
5
bad shape at /scans

{"seq":{"chroma_sampling":3},"frame":{"width":8,"height":8},"tiles":[[{"op":"RowStart"},{"op":"Partition","x":0,"y":0,"size":12,"a":3},{"op":"Partition","x":0,"y":0,"size":9,"a":3},{"op":"Partition","x":0,"y":0,"size":6,"a":3},{"op":"Partition","x":0,"y":0,"size":3,"a":0},{"op":"Block","x":0,"y":0,"size":3},{"op":"Skip","a":true},{"op":"IntraModeKf","a":0},{"op":"TxNote"}]]}
0
12000a051808bf01103206164000000021
tile 0 1 8

{"seq":{"profile":2,"still_picture":false,"reduced_still_picture_hdr":false,"level_idx":12,"bit_depth":12,"chroma_sampling":0,"enable_filter_intra":false,"enable_intra_edge_filter":false,"enable_cdef":false,"enable_restoration":true,"pixel_range":0,"film_grain_params_present":false,"chroma_sample_position":1,"timing_info_present":true,"time_base":{"num":1401262592,"den":1325236350},"enable_interintra_compound":false,"enable_masked_compound":true,"enable_warped_motion":true,"enable_dual_filter":false,"force_screen_content_tools":1,"force_integer_mv":2},"frame":{"frame_size_override_flag":true,"disable_frame_end_update_cdf":false,"allow_screen_content_tools":1,"width":15,"height":16,"tile_width_sb":1,"tile_height_sb":1,"context_update_tile_id":0,"render_and_frame_size_different":true,"render_width":63096,"render_height":11854,"base_q_idx":121,"dc_delta_q":[-10,0,0],"ac_delta_q":[0,0,0],"tx_mode_select":false,"use_reduced_tx_set":false,"cdef_damping":3,"cdef_bits":0,"cdef_y_strengths":[5,19,0,32,60,26,40,16],"cdef_uv_strengths":[53,53,54,22,15,40,1,56],"deblock":{"levels":[59,3,0,17],"sharpness":7,"deltas_enabled":false,"delta_updates_enabled":false,"ref_deltas":[10,-9,4,15,1,39,2,-58],"mode_deltas":[-1,26]},"restoration":[{"lrf_type":3,"unit_size":64},{"lrf_type":2,"unit_size":64},{"lrf_type":2,"unit_size":64}]},"metadata":[{"country_code":255,"country_code_extension_byte":90,"payload":[78,167,220,3,125,110,81,118,179,248,53,94,13,79,70,3,143,23,236,181,20,69,109,179,80,217,80,26,7,190,241,80,23,88,136,181,137,147,139,220,100,210,9,151,33,184,163,235,113,158,76,178,87,177,190,64,192,12,52,199,78,98,89,89,208,21,73,102,179,212,163,105,68,151,59,169,184,147,55,172,113,29,162,146,131,132,254,137,149,102,192,236,207,224,107,237,173,57,226,39,229,188,88,144,151,27,253,68,11,56,96,13,94,187,176,135,45,65,229,90,204,214,141,142,154]}],"via":"direct","tiles":[[{"op":"RowStart"},{"op":"Lrf","plane":0,"a":null},{"op":"Lrf","plane":1,"a":{"wiener":[[0,0,-11],[0,-12,19]]}},{"op":"Lrf","plane":2,"a":null},{"op":"Partition","x":0,"y":0,"size":12,"a":3},{"op":"Partition","x":0,"y":0,"size":9,"a":3},{"op":"Partition","x":0,"y":0,"size":6,"a":6},{"op":"Block","x":0,"y":0,"size":3},{"op":"Skip","a":false},{"op":"IntraModeKf","a":1},{"op":"AngleDelta","chroma":false,"a":1},{"op":"UvMode","a":13},{"op":"CflAlphas","a":[9,11]},{"op":"Palette","a":false},{"op":"TxNote"},{"op":"Coeffs","plane":0,"x":0,"y":0,"tx_type":9,"a":[-9]},{"op":"Coeffs","plane":1,"x":0,"y":0,"tx_type":0,"a":[-1,13,6,2,0,0,0,0,0,0,0,0,1]},{"op":"Coeffs","plane":2,"x":0,"y":0,"tx_type":0,"a":[-17,0,-3,-2,0,0,0,1]},{"op":"Block","x":0,"y":2,"size":3},{"op":"Skip","a":true},{"op":"IntraModeKf","a":8},{"op":"AngleDelta","chroma":false,"a":3},{"op":"UvMode","a":13},{"op":"CflAlphas","a":[-6,9]},{"op":"Palette","a":false},{"op":"TxNote"},{"op":"Block","x":2,"y":0,"size":4},{"op":"Skip","a":false},{"op":"IntraModeKf","a":12},{"op":"UvMode","a":9},{"op":"Palette","a":false},{"op":"TxNote"},{"op":"Coeffs","plane":0,"x":2,"y":0,"tx_type":3,"a":[1,0,1,0,0,-20,1]},{"op":"Coeffs","plane":1,"x":2,"y":0,"tx_type":3,"a":[]},{"op":"Coeffs","plane":2,"x":2,"y":0,"tx_type":3,"a":[]}]]}
0
12000a12454e1648013bf601fb00000c19f78319c6d02a810104ff5a4ea7dc037d6e5176b3f8355e0d4f46038f17ecb514456db350d9501a07bef150175888b589938bdc64d2099721b8a3eb719e4cb257b1be40c00c34c74e625959d0154966b3d4a36944973ba9b89337ac711da2928384fe899566c0eccfe06bedad39e227e5bc5890971bfd440b38600d5ebbb0872d41e55accd68d8e9a80322b17dff6772e4d2f3ec0761808f74076f489e1462b4e3e0a9dbc0e3edf2dde70013bab5fb823059af6479340
tile 0 29 226

{"seq":{"profile":1,"still_picture":false,"reduced_still_picture_hdr":false,"level_idx":9,"bit_depth":8,"chroma_sampling":2,"enable_filter_intra":false,"enable_intra_edge_filter":true,"enable_cdef":true,"enable_restoration":true,"pixel_range":1,"film_grain_params_present":false,"color_description":[1,13,0],"content_light":[59270,29687],"enable_interintra_compound":false,"enable_masked_compound":false,"enable_warped_motion":true,"enable_dual_filter":false,"enable_order_hint":true,"enable_jnt_comp":true,"enable_ref_frame_mvs":false,"order_hint_bits_minus_1":5,"force_screen_content_tools":0,"force_integer_mv":2},"frame":{"order_hint":29,"frame_size_override_flag":true,"disable_frame_end_update_cdf":true,"allow_screen_content_tools":0,"width":8,"height":5,"tile_width_sb":1,"tile_height_sb":1,"context_update_tile_id":0,"base_q_idx":255,"dc_delta_q":[0,0,1],"ac_delta_q":[0,0,51],"tx_mode_select":true,"use_reduced_tx_set":true,"cdef_damping":4,"cdef_bits":0,"cdef_y_strengths":[30,62,23,58,6,9,42,19],"cdef_uv_strengths":[53,34,58,33,29,59,16,48],"deblock":{"levels":[0,0,0,51],"sharpness":6,"deltas_enabled":true,"delta_updates_enabled":true,"ref_deltas":[-44,33,-57,25,49,42,-5,21],"mode_deltas":[-1,-40]},"restoration":[{"lrf_type":0,"unit_size":64},{"lrf_type":3,"unit_size":64},{"lrf_type":1,"unit_size":64}]},"metadata":["cll"],"via":"direct","tiles":[[{"op":"RowStart"},{"op":"Lrf","plane":1,"a":null},{"op":"Lrf","plane":2,"a":null},{"op":"Partition","x":0,"y":0,"size":12,"a":3},{"op":"Partition","x":0,"y":0,"size":9,"a":3},{"op":"Partition","x":0,"y":0,"size":6,"a":3},{"op":"Partition","x":0,"y":0,"size":3,"a":1},{"op":"Block","x":0,"y":0,"size":2},{"op":"Skip","a":false},{"op":"Cdef","a":0},{"op":"IntraModeKf","a":7},{"op":"UvMode","a":0},{"op":"TxIntra","a":0},{"op":"Coeffs","plane":0,"x":0,"y":0,"tx_type":1,"a":[0,-7,0,0,0,0,0,0,0,0,1]},{"op":"Coeffs","plane":0,"x":1,"y":0,"tx_type":3,"a":[-1]},{"op":"Coeffs","plane":1,"x":0,"y":0,"tx_type":0,"a":[]},{"op":"Coeffs","plane":2,"x":0,"y":0,"tx_type":0,"a":[0,0,0,-1,-3,1,1,-1,0,0,0,0,0,0,0,0,0,0,0,1]},{"op":"Block","x":0,"y":1,"size":2},{"op":"Skip","a":true},{"op":"IntraModeKf","a":5},{"op":"UvMode","a":0},{"op":"TxIntra","a":0}]]}
0
12000a0c200000488bc12c56808680502a0601e78673f780322615df1ffa40d98000dea50e3ccd8d57dcaffec23da9ac0db1a6f141bbacaa4326005b9c9c51a0
tile 0 16 123

{"seq":{"profile":1,"still_picture":true,"reduced_still_picture_hdr":true,"level_idx":13,"bit_depth":10,"chroma_sampling":2,"enable_filter_intra":false,"enable_intra_edge_filter":true,"enable_cdef":true,"enable_restoration":true,"pixel_range":0,"film_grain_params_present":false},"frame":{"allow_screen_content_tools":0,"width":12,"height":24,"tile_width_sb":1,"tile_height_sb":1,"context_update_tile_id":0,"base_q_idx":120,"dc_delta_q":[-9,0,-19],"ac_delta_q":[0,0,0],"tx_mode_select":false,"use_reduced_tx_set":true,"cdef_damping":3,"cdef_bits":0,"cdef_y_strengths":[26,38,63,49,54,8,61,61],"cdef_uv_strengths":[34,12,7,41,8,52,5,2],"deblock":{"levels":[9,0,38,43],"sharpness":6,"deltas_enabled":false,"delta_updates_enabled":false,"ref_deltas":[33,-34,49,-40,12,-6,55,-41],"mode_deltas":[1,60]},"restoration":[{"lrf_type":3,"unit_size":128},{"lrf_type":2,"unit_size":128},{"lrf_type":1,"unit_size":128}]},"metadata":[{"country_code":181,"country_code_extension_byte":30,"payload":[65,60,224,81,203,110,173,69,90,113,7,82,52,161,29,82,235,133,36]}],"via":"recorded","tiles":[[{"op":"RowStart"},{"op":"Lrf","plane":0,"a":null},{"op":"Lrf","plane":1,"a":{"wiener":[[0,-19,-15],[0,8,46]]}},{"op":"Lrf","plane":2,"a":null},{"op":"Partition","x":0,"y":0,"size":12,"a":3},{"op":"Partition","x":0,"y":0,"size":9,"a":2},{"op":"Block","x":0,"y":0,"size":7},{"op":"Skip","a":false},{"op":"Cdef","a":0},{"op":"IntraModeKf","a":10},{"op":"UvMode","a":13},{"op":"CflAlphas","a":[14,0]},{"op":"TxNote"},{"op":"Coeffs","plane":0,"x":0,"y":0,"tx_type":0,"a":[0,0,0,0,3,0,0,-1,0,0,0,0,0,0,0,0,0,0,0,0,0,0,0,0,0,0,-6,3,0,-1,0,0,0,0,0,0,0,0,0,0,0,0,0,0,-2,0,3,0,0,-1,0,1,0,0,0,0,1,0,0,0,0,0,0,0,0,0,0,0,0,0,0,0,0,0,0,0,0,0,0,0,0,0,0,0,0,0,0,0,0,0,0,0,0,0,0,0,0,0,0,0,0,0,0,0,0,0,0,0,0,0,0,0,0,0,0,0,0,0,0,0,0,0,0,0,0,0,0,0,0,0,0,0,0,0,0,0,0,0,0,0,0,0,0,0,0,0,0,0,0,0,0,0,0,0,0,0,0,0,0,0,0,0,0,0,0,0,0,0,0,0,0,0,0,0,0,0,0,0,0,0,0,0,0,0,0,0,0,0,0,0,0,0,0,0,0,0,0,0,0,0,0,0,0,0,0,0,0,0,0,0,0,0,0,0,0,0,0,0,0,0,0,0,0,0,0,0,0,0,0,0,0,0,0,0,0,0,0,0,0,0,0,0,0,0,0,0,0,0,0,0,0,0,0,0,0,0,0,0,0,0,0,1]},{"op":"Coeffs","plane":1,"x":0,"y":0,"tx_type":0,"a":[0,0,0,0,0,0,0,2,1,0,0,0,0,0,0,0,0,0,0,0,0,0,0,0,1]},{"op":"Coeffs","plane":2,"x":0,"y":0,"tx_type":0,"a":[2,7,12,-1,0,0,0,0,0,0,0,0,0,0,0,0,0,0,0,0,0,0,0,0,0,0,0,0,0,0,0,0,0,0,0,0,0,0,0,0,0,0,0,0,0,0,0,0,0,0,0,0,0,0,0,0,0,0,0,0,0,0,0,0,0,0,0,0,0,0,0,0,0,0,0,0,0,0,0,0,0,0,0,0,0,0,0,0,0,0,0,0,0,0,0,0,0,0,0,0,0,0,0,0,0,0,0,0,0,0,0,0,0,0,0,0,0,0,0,0,0,0,0,0,0,0,0,0,0,0,0,0,0,0,0,0,0,0,0,0,0,0,0,0,0,0,0,0,0,0,0,0,0,0,0,0,0,0,0,0,0,0,0,0,0,0,0,0,0,0,0,0,0,0,0,0,0,0,0,0,0,0,0,0,0,0,0,0,0,0,0,0,0,0,0,0,0,0,0,0,0,0,0,0,0,0,0,0,0,0,0,0,0,0,0,0,0,0,0,0,0,0,1]}]]}
0
12000a053b4d2ee5ca2a1604b5413ce051cb6ead455a71075234a11d52eb8524803249178f79da048135780d45cc807bf9e0ef087d24869ca00000000000000000000000009201d8ac980546415018f997dcc44e00002cc581cc807800000000000000000000000007aa6b19
tile 0 61 488

{"seq":{"profile":2,"still_picture":true,"reduced_still_picture_hdr":true,"level_idx":16,"bit_depth":12,"chroma_sampling":2,"enable_filter_intra":false,"enable_intra_edge_filter":true,"enable_cdef":false,"enable_restoration":true,"pixel_range":1,"film_grain_params_present":true,"color_description":[1,13,0]},"frame":{"allow_screen_content_tools":0,"width":8,"height":10,"context_update_tile_id":0,"render_and_frame_size_different":true,"render_width":23040,"render_height":64781,"base_q_idx":42,"dc_delta_q":[0,34,43],"ac_delta_q":[0,0,33],"tx_mode_select":false,"use_reduced_tx_set":false,"cdef_damping":3,"cdef_bits":0,"cdef_y_strengths":[45,6,47,50,63,32,7,60],"cdef_uv_strengths":[45,46,59,47,16,14,9,2],"deblock":{"levels":[0,51,48,0],"sharpness":4,"deltas_enabled":false,"delta_updates_enabled":true,"ref_deltas":[1,0,0,0,0,-1,-1,-1],"mode_deltas":[-1,17]},"restoration":[{"lrf_type":3,"unit_size":64},{"lrf_type":1,"unit_size":64},{"lrf_type":1,"unit_size":64}],"film_grain":{"scaling_points_y":[[5,213],[10,85],[13,230],[15,80],[23,46],[102,111],[112,167],[133,100],[184,22],[206,6],[209,14],[241,177],[249,223],[254,2]],"scaling_points_cb":[[56,231],[64,38],[139,127],[159,173]],"scaling_points_cr":[[25,141],[114,2],[146,193],[184,209]],"scaling_shift":11,"ar_coeff_lag":1,"ar_coeffs_y":[-26,29,-30,-24],"ar_coeffs_cb":[15,1,-16,-3,-20],"ar_coeffs_cr":[18,26,15,16,2],"ar_coeff_shift":9,"cb_mult":136,"cb_luma_mult":98,"cb_offset":442,"cr_mult":246,"cr_luma_mult":251,"cr_offset":370,"overlap_flag":false,"chroma_scaling_from_luma":false,"grain_scale_shift":3,"random_seed":11176},"segmentation":{"enabled":true,"update_map":true,"update_data":true,"features":[[false,false,false,false,false,false,false,false],[false,false,false,false,false,false,false,false],[false,false,false,false,true,false,false,false],[true,false,false,true,true,false,false,false],[false,false,false,false,true,false,false,false],[true,false,false,false,false,false,false,false],[true,false,true,false,false,false,false,false],[false,false,false,false,false,false,false,false]],"values":[[0,0,0,0,0,0,0,0],[0,0,0,0,0,0,0,0],[0,0,0,0,40,0,0,0],[21,0,0,-25,-9,0,0,0],[0,0,0,0,-29,0,0,0],[-39,0,0,0,0,0,0,0],[-29,0,-45,0,0,0,0,0],[0,0,0,0,0,0,0,0]],"last_active_segid":6}},"metadata":[],"via":"recorded","tiles":[[{"op":"RowStart"},{"op":"Lrf","plane":0,"a":{"set":13,"xqd":[0,74]}},{"op":"Lrf","plane":1,"a":{"wiener":[[0,-2,-10],[0,8,42]]}},{"op":"Lrf","plane":2,"a":{"wiener":[[0,-19,29],[0,-10,13]]}},{"op":"Partition","x":0,"y":0,"size":12,"a":3},{"op":"Partition","x":0,"y":0,"size":9,"a":3},{"op":"Partition","x":0,"y":0,"size":6,"a":3},{"op":"Partition","x":0,"y":0,"size":3,"a":3},{"op":"Block","x":0,"y":0,"size":0},{"op":"Skip","a":false},{"op":"Segment","a":2},{"op":"IntraModeKf","a":3},{"op":"UvMode","a":2},{"op":"TxNote"},{"op":"Coeffs","plane":0,"x":0,"y":0,"tx_type":0,"a":[]},{"op":"Coeffs","plane":1,"x":0,"y":0,"tx_type":2,"a":[-2,-7,0,-1]},{"op":"Coeffs","plane":2,"x":0,"y":0,"tx_type":2,"a":[7,0,0,0,0,0,-2,0,-2,-35,0,0,0,0,1]},{"op":"Block","x":1,"y":0,"size":0},{"op":"Skip","a":false},{"op":"Segment","a":4},{"op":"IntraModeKf","a":7},{"op":"UvMode","a":10},{"op":"TxNote"},{"op":"Coeffs","plane":0,"x":1,"y":0,"tx_type":9,"a":[-3,1,46,-1,-5,-1,0,0,0,0,0,0,0,0,0,1]},{"op":"Coeffs","plane":1,"x":1,"y":0,"tx_type":1,"a":[0,1]},{"op":"Coeffs","plane":2,"x":1,"y":0,"tx_type":1,"a":[0,0,39,0,1]},{"op":"Block","x":0,"y":1,"size":0},{"op":"Skip","a":true},{"op":"Segment","a":2},{"op":"IntraModeKf","a":6},{"op":"UvMode","a":4},{"op":"TxNote"},{"op":"Block","x":1,"y":1,"size":0},{"op":"Skip","a":false},{"op":"Segment","a":4},{"op":"IntraModeKf","a":7},{"op":"UvMode","a":13},{"op":"CflAlphas","a":[16,-7]},{"op":"TxNote"},{"op":"Coeffs","plane":0,"x":1,"y":1,"tx_type":1,"a":[0,0,0,0,0,0,-12,0,0,0,-2]},{"op":"Coeffs","plane":1,"x":1,"y":1,"tx_type":0,"a":[-14,0,-1,-3,0,0,0,0,0,0,0,1]},{"op":"Coeffs","plane":2,"x":1,"y":1,"tx_type":0,"a":[-1]},{"op":"Partition","x":0,"y":2,"size":3,"a":0},{"op":"Block","x":0,"y":2,"size":3},{"op":"Skip","a":true},{"op":"Segment","a":2},{"op":"IntraModeKf","a":8},{"op":"AngleDelta","chroma":false,"a":3},{"op":"UvMode","a":13},{"op":"CflAlphas","a":[0,2]},{"op":"TxNote"}]]}
0
12000a085c08fc93a021a01c3298012b3fffa192a689574280000540854e7f701c63d901f1b4c000033c008d44aea381754295437983d405cb999bdc29e1592e05b381b443bc6c7e77ff808871ce804d16ff3f5a8331ae405258371a3acd3ac4d11f02e0fad925351f2105f10c5baf6fbb90ef595bd9e16bb3052a85b06dbcf6f3881b31f7f15584db89f0357267eede43ede55b16a1cc46a5877a0fc9070d929b3796df0a5c9f
tile 0 53 424

{"seq":{"profile":1,"still_picture":false,"reduced_still_picture_hdr":false,"level_idx":16,"bit_depth":8,"chroma_sampling":2,"enable_filter_intra":false,"enable_intra_edge_filter":true,"enable_cdef":false,"enable_restoration":false,"pixel_range":1,"film_grain_params_present":false,"content_light":[42425,31186],"mastering_display":{"primaries":[[52937,3058],[64793,59284],[38146,15879]],"white_point":[38526,5829],"max_luminance":1081127239,"min_luminance":817408677},"enable_interintra_compound":true,"enable_masked_compound":false,"enable_warped_motion":false,"enable_dual_filter":true,"force_screen_content_tools":0,"force_integer_mv":2},"frame":{"frame_size_override_flag":false,"disable_frame_end_update_cdf":false,"allow_screen_content_tools":0,"width":9,"height":8,"context_update_tile_id":0,"render_and_frame_size_different":true,"render_width":50292,"render_height":14430,"base_q_idx":1,"dc_delta_q":[0,-30,0],"ac_delta_q":[0,0,0],"tx_mode_select":true,"use_reduced_tx_set":false,"cdef_damping":6,"cdef_bits":0,"cdef_y_strengths":[7,30,32,14,18,51,34,18],"cdef_uv_strengths":[37,11,16,19,30,60,5,15],"deblock":{"levels":[48,43,46,0],"sharpness":6,"deltas_enabled":false,"delta_updates_enabled":false,"ref_deltas":[1,0,0,0,0,-1,-1,-1],"mode_deltas":[-1,45]}},"metadata":["cll","mdcv"],"via":"direct","tiles":[[{"op":"RowStart"},{"op":"Partition","x":0,"y":0,"size":12,"a":3},{"op":"Partition","x":0,"y":0,"size":9,"a":3},{"op":"Partition","x":0,"y":0,"size":6,"a":3},{"op":"Partition","x":0,"y":0,"size":3,"a":3},{"op":"Block","x":0,"y":0,"size":0},{"op":"Skip","a":false},{"op":"IntraModeKf","a":5},{"op":"UvMode","a":0},{"op":"TxNote"},{"op":"Coeffs","plane":0,"x":0,"y":0,"tx_type":10,"a":[-44]},{"op":"Coeffs","plane":1,"x":0,"y":0,"tx_type":0,"a":[]},{"op":"Coeffs","plane":2,"x":0,"y":0,"tx_type":0,"a":[0,0,-3,0,0,0,0,-1]},{"op":"Block","x":1,"y":0,"size":0},{"op":"Skip","a":true},{"op":"IntraModeKf","a":6},{"op":"UvMode","a":6},{"op":"TxNote"},{"op":"Block","x":0,"y":1,"size":0},{"op":"Skip","a":false},{"op":"IntraModeKf","a":8},{"op":"UvMode","a":13},{"op":"CflAlphas","a":[-4,7]},{"op":"TxNote"},{"op":"Coeffs","plane":0,"x":0,"y":1,"tx_type":0,"a":[]},{"op":"Coeffs","plane":1,"x":0,"y":1,"tx_type":0,"a":[-128,-2,-2,3]},{"op":"Coeffs","plane":2,"x":0,"y":1,"tx_type":0,"a":[-1,1,-6,-1]},{"op":"Block","x":1,"y":1,"size":0},{"op":"Skip","a":true},{"op":"IntraModeKf","a":4},{"op":"UvMode","a":7},{"op":"TxNote"},{"op":"Partition","x":2,"y":0,"size":3,"a":1},{"op":"Block","x":2,"y":0,"size":2},{"op":"Skip","a":false},{"op":"IntraModeKf","a":7},{"op":"UvMode","a":10},{"op":"TxIntra","a":0},{"op":"Coeffs","plane":0,"x":2,"y":0,"tx_type":0,"a":[]},{"op":"Coeffs","plane":0,"x":3,"y":0,"tx_type":3,"a":[-1,0,0,0,0,0,-2,0,0,0,0,0,-1,1]},{"op":"Coeffs","plane":1,"x":2,"y":0,"tx_type":1,"a":[0,0,0,0,0,0,0,0,0,0,0,0,0,0,0,0,-42,-1,0,21,2,0,0,0,0,3]},{"op":"Coeffs","plane":2,"x":2,"y":0,"tx_type":1,"a":[0,3,1]},{"op":"Block","x":2,"y":1,"size":2},{"op":"Skip","a":false},{"op":"IntraModeKf","a":5},{"op":"UvMode","a":13},{"op":"CflAlphas","a":[11,-15]},{"op":"TxIntra","a":0},{"op":"Coeffs","plane":0,"x":2,"y":1,"tx_type":0,"a":[]},{"op":"Coeffs","plane":0,"x":3,"y":1,"tx_type":1,"a":[1]},{"op":"Coeffs","plane":1,"x":2,"y":1,"tx_type":0,"a":[]},{"op":"Coeffs","plane":2,"x":2,"y":1,"tx_type":0,"a":[0,-6]}]]}
0
12000a0920000080ca38c806802a0601a5b979d2802a1a02cec90bf2fd19e79495023e07967e16c54070b14730b8aaa58032391388e670ba80bc40615dc064e11b5ae5161d12ddc5811d66d981083b4b3e2cd782bd4cacaea52cd13dc7a3f4830000253964f049f30e5ba8b7
tile 0 45 360

{"seq":{"profile":0,"still_picture":true,"reduced_still_picture_hdr":true,"level_idx":12,"bit_depth":8,"chroma_sampling":3,"enable_filter_intra":true,"enable_intra_edge_filter":true,"enable_cdef":true,"enable_restoration":true,"pixel_range":0,"film_grain_params_present":false},"frame":{"allow_screen_content_tools":0,"width":24,"height":11,"tile_width_sb":1,"tile_height_sb":1,"context_update_tile_id":0,"base_q_idx":1,"dc_delta_q":[29,0,0],"ac_delta_q":[0,0,0],"tx_mode_select":false,"use_reduced_tx_set":true,"cdef_damping":5,"cdef_bits":0,"cdef_y_strengths":[57,48,48,9,35,40,57,23],"cdef_uv_strengths":[16,9,29,17,54,0,52,56],"deblock":{"levels":[56,27,0,0],"sharpness":2,"deltas_enabled":false,"delta_updates_enabled":false,"ref_deltas":[1,0,0,0,0,-1,-1,-1],"mode_deltas":[0,8]},"restoration":[{"lrf_type":3,"unit_size":64},{"lrf_type":0,"unit_size":64},{"lrf_type":0,"unit_size":64}]},"metadata":[],"via":"direct","tiles":[[{"op":"RowStart"},{"op":"Lrf","plane":0,"a":{"set":13,"xqd":[0,88]}},{"op":"Partition","x":0,"y":0,"size":12,"a":3},{"op":"Partition","x":0,"y":0,"size":9,"a":3},{"op":"Partition","x":0,"y":0,"size":6,"a":3},{"op":"Partition","x":0,"y":0,"size":3,"a":1},{"op":"Block","x":0,"y":0,"size":2},{"op":"Skip","a":true},{"op":"IntraModeKf","a":8},{"op":"TxNote"},{"op":"Block","x":0,"y":1,"size":2},{"op":"Skip","a":true},{"op":"IntraModeKf","a":10},{"op":"TxNote"},{"op":"Partition","x":2,"y":0,"size":3,"a":1},{"op":"Block","x":2,"y":0,"size":2},{"op":"Skip","a":false},{"op":"Cdef","a":0},{"op":"IntraModeKf","a":9},{"op":"TxNote"},{"op":"Coeffs","plane":0,"x":2,"y":0,"tx_type":0,"a":[]},{"op":"Block","x":2,"y":1,"size":2},{"op":"Skip","a":true},{"op":"IntraModeKf","a":0},{"op":"FilterIntra","a":false},{"op":"TxNote"},{"op":"Partition","x":0,"y":2,"size":3,"a":2},{"op":"Block","x":0,"y":2,"size":1},{"op":"Skip","a":true},{"op":"IntraModeKf","a":2},{"op":"TxNote"},{"op":"Block","x":1,"y":2,"size":1},{"op":"Skip","a":false},{"op":"IntraModeKf","a":12},{"op":"TxNote"},{"op":"Coeffs","plane":0,"x":1,"y":2,"tx_type":2,"a":[6]},{"op":"Partition","x":2,"y":2,"size":3,"a":3},{"op":"Block","x":2,"y":2,"size":0},{"op":"Skip","a":true},{"op":"IntraModeKf","a":4},{"op":"TxNote"},{"op":"Block","x":3,"y":2,"size":0},{"op":"Skip","a":false},{"op":"IntraModeKf","a":12},{"op":"TxNote"},{"op":"Coeffs","plane":0,"x":3,"y":2,"tx_type":2,"a":[-1,0,0,0,0,0,0,-3]},{"op":"Block","x":2,"y":3,"size":0},{"op":"Skip","a":false},{"op":"IntraModeKf","a":2},{"op":"TxNote"},{"op":"Coeffs","plane":0,"x":2,"y":3,"tx_type":2,"a":[1,3,0,3]},{"op":"Block","x":3,"y":3,"size":0},{"op":"Skip","a":true},{"op":"IntraModeKf","a":11},{"op":"TxNote"},{"op":"Partition","x":4,"y":0,"size":6,"a":2},{"op":"Block","x":4,"y":0,"size":4},{"op":"Skip","a":false},{"op":"IntraModeKf","a":3},{"op":"AngleDelta","chroma":false,"a":3},{"op":"TxNote"},{"op":"Coeffs","plane":0,"x":4,"y":0,"tx_type":1,"a":[0,0,-27,-1,0,0,0,0,0,-2,-1,0,-1,0,-9,0,0,0,31]}]]}
0
12000a051b10ef4da232251019d1c3691ce4efc96c83d209d120e2ae2b8bf3cca0a0b185d59b82a400b1058a85060450
tile 0 30 236

{"seq":{"chroma_sampling":3},"frame":{"width":64,"height":64,"tx_mode_select":true},"tiles":[[{"op":"Block","x":15,"y":14,"size":1},{"op":"TxIntra","a":5},{"op":"Block","x":15,"y":0,"size":1},{"op":"TxIntra","a":0},{"op":"Block","x":14,"y":0,"size":2},{"op":"TxIntra","a":6},{"op":"Block","x":0,"y":15,"size":2},{"op":"TxIntra","a":0},{"op":"Block","x":0,"y":14,"size":3},{"op":"TxIntra","a":1},{"op":"Block","x":14,"y":0,"size":3},{"op":"TxIntra","a":0},{"op":"Block","x":14,"y":0,"size":4},{"op":"TxIntra","a":7},{"op":"Block","x":14,"y":12,"size":4},{"op":"TxIntra","a":1},{"op":"Block","x":0,"y":0,"size":4},{"op":"TxIntra","a":0},{"op":"Block","x":12,"y":14,"size":5},{"op":"TxIntra","a":8},{"op":"Block","x":0,"y":0,"size":5},{"op":"TxIntra","a":1},{"op":"Block","x":12,"y":14,"size":5},{"op":"TxIntra","a":0},{"op":"Block","x":0,"y":0,"size":6},{"op":"TxIntra","a":2},{"op":"Block","x":12,"y":12,"size":6},{"op":"TxIntra","a":1},{"op":"Block","x":12,"y":0,"size":6},{"op":"TxIntra","a":0},{"op":"Block","x":12,"y":8,"size":7},{"op":"TxIntra","a":9},{"op":"Block","x":12,"y":0,"size":7},{"op":"TxIntra","a":2},{"op":"Block","x":0,"y":8,"size":7},{"op":"TxIntra","a":1},{"op":"Block","x":8,"y":0,"size":8},{"op":"TxIntra","a":10},{"op":"Block","x":0,"y":12,"size":8},{"op":"TxIntra","a":2},{"op":"Block","x":8,"y":0,"size":8},{"op":"TxIntra","a":1},{"op":"Block","x":0,"y":8,"size":9},{"op":"TxIntra","a":3},{"op":"Block","x":8,"y":0,"size":9},{"op":"TxIntra","a":2},{"op":"Block","x":8,"y":8,"size":9},{"op":"TxIntra","a":1},{"op":"Block","x":8,"y":0,"size":10},{"op":"TxIntra","a":11},{"op":"Block","x":8,"y":0,"size":10},{"op":"TxIntra","a":3},{"op":"Block","x":0,"y":0,"size":10},{"op":"TxIntra","a":2},{"op":"Block","x":0,"y":8,"size":11},{"op":"TxIntra","a":12},{"op":"Block","x":0,"y":0,"size":11},{"op":"TxIntra","a":3},{"op":"Block","x":0,"y":8,"size":11},{"op":"TxIntra","a":2},{"op":"Block","x":0,"y":0,"size":12},{"op":"TxIntra","a":4},{"op":"Block","x":0,"y":0,"size":12},{"op":"TxIntra","a":3},{"op":"Block","x":0,"y":0,"size":12},{"op":"TxIntra","a":2},{"op":"Block","x":15,"y":12,"size":16},{"op":"TxIntra","a":13},{"op":"Block","x":15,"y":0,"size":16},{"op":"TxIntra","a":5},{"op":"Block","x":0,"y":12,"size":16},{"op":"TxIntra","a":0},{"op":"Block","x":12,"y":0,"size":17},{"op":"TxIntra","a":14},{"op":"Block","x":0,"y":15,"size":17},{"op":"TxIntra","a":6},{"op":"Block","x":12,"y":0,"size":17},{"op":"TxIntra","a":0},{"op":"Block","x":0,"y":8,"size":18},{"op":"TxIntra","a":15},{"op":"Block","x":14,"y":0,"size":18},{"op":"TxIntra","a":7},{"op":"Block","x":14,"y":8,"size":18},{"op":"TxIntra","a":1},{"op":"Block","x":8,"y":0,"size":19},{"op":"TxIntra","a":16},{"op":"Block","x":8,"y":14,"size":19},{"op":"TxIntra","a":8},{"op":"Block","x":0,"y":0,"size":19},{"op":"TxIntra","a":1},{"op":"Block","x":12,"y":0,"size":20},{"op":"TxIntra","a":17},{"op":"Block","x":0,"y":0,"size":20},{"op":"TxIntra","a":9},{"op":"Block","x":12,"y":0,"size":20},{"op":"TxIntra","a":2},{"op":"Block","x":0,"y":0,"size":21},{"op":"TxIntra","a":18},{"op":"Block","x":0,"y":12,"size":21},{"op":"TxIntra","a":10},{"op":"Block","x":0,"y":0,"size":21},{"op":"TxIntra","a":2}]]}
0
12000a0618157ffc0440321016400000805755dd455ffd171c45af80
tile 0 11 81

{"seq":{"chroma_sampling":3},"frame":{"width":40,"height":24,"tx_mode_select":true},"tiles":[[{"op":"Block","x":9,"y":4,"size":1},{"op":"TxIntra","a":5},{"op":"Block","x":9,"y":0,"size":1},{"op":"TxIntra","a":0},{"op":"Block","x":8,"y":0,"size":2},{"op":"TxIntra","a":6},{"op":"Block","x":0,"y":5,"size":2},{"op":"TxIntra","a":0},{"op":"Block","x":0,"y":4,"size":3},{"op":"TxIntra","a":1},{"op":"Block","x":8,"y":0,"size":3},{"op":"TxIntra","a":0},{"op":"Block","x":8,"y":0,"size":4},{"op":"TxIntra","a":7},{"op":"Block","x":8,"y":4,"size":4},{"op":"TxIntra","a":1},{"op":"Block","x":0,"y":0,"size":4},{"op":"TxIntra","a":0},{"op":"Block","x":8,"y":4,"size":5},{"op":"TxIntra","a":8},{"op":"Block","x":0,"y":0,"size":5},{"op":"TxIntra","a":1},{"op":"Block","x":8,"y":4,"size":5},{"op":"TxIntra","a":0},{"op":"Block","x":0,"y":0,"size":6},{"op":"TxIntra","a":2},{"op":"Block","x":8,"y":4,"size":6},{"op":"TxIntra","a":1},{"op":"Block","x":8,"y":0,"size":6},{"op":"TxIntra","a":0},{"op":"Block","x":8,"y":0,"size":7},{"op":"TxIntra","a":9},{"op":"Block","x":8,"y":0,"size":7},{"op":"TxIntra","a":2},{"op":"Block","x":0,"y":0,"size":7},{"op":"TxIntra","a":1},{"op":"Block","x":8,"y":0,"size":8},{"op":"TxIntra","a":10},{"op":"Block","x":0,"y":4,"size":8},{"op":"TxIntra","a":2},{"op":"Block","x":8,"y":0,"size":8},{"op":"TxIntra","a":1},{"op":"Block","x":0,"y":0,"size":9},{"op":"TxIntra","a":3},{"op":"Block","x":8,"y":0,"size":9},{"op":"TxIntra","a":2},{"op":"Block","x":8,"y":0,"size":9},{"op":"TxIntra","a":1},{"op":"Block","x":8,"y":0,"size":10},{"op":"TxIntra","a":11},{"op":"Block","x":8,"y":0,"size":10},{"op":"TxIntra","a":3},{"op":"Block","x":0,"y":0,"size":10},{"op":"TxIntra","a":2},{"op":"Block","x":0,"y":0,"size":11},{"op":"TxIntra","a":12},{"op":"Block","x":0,"y":0,"size":11},{"op":"TxIntra","a":3},{"op":"Block","x":0,"y":0,"size":11},{"op":"TxIntra","a":2},{"op":"Block","x":0,"y":0,"size":12},{"op":"TxIntra","a":4},{"op":"Block","x":0,"y":0,"size":12},{"op":"TxIntra","a":3},{"op":"Block","x":0,"y":0,"size":12},{"op":"TxIntra","a":2},{"op":"Block","x":9,"y":4,"size":16},{"op":"TxIntra","a":13},{"op":"Block","x":9,"y":0,"size":16},{"op":"TxIntra","a":5},{"op":"Block","x":0,"y":4,"size":16},{"op":"TxIntra","a":0},{"op":"Block","x":8,"y":0,"size":17},{"op":"TxIntra","a":14},{"op":"Block","x":0,"y":5,"size":17},{"op":"TxIntra","a":6},{"op":"Block","x":8,"y":0,"size":17},{"op":"TxIntra","a":0},{"op":"Block","x":0,"y":0,"size":18},{"op":"TxIntra","a":15},{"op":"Block","x":8,"y":0,"size":18},{"op":"TxIntra","a":7},{"op":"Block","x":8,"y":0,"size":18},{"op":"TxIntra","a":1},{"op":"Block","x":8,"y":0,"size":19},{"op":"TxIntra","a":16},{"op":"Block","x":8,"y":4,"size":19},{"op":"TxIntra","a":8},{"op":"Block","x":0,"y":0,"size":19},{"op":"TxIntra","a":1},{"op":"Block","x":8,"y":0,"size":20},{"op":"TxIntra","a":17},{"op":"Block","x":0,"y":0,"size":20},{"op":"TxIntra","a":9},{"op":"Block","x":8,"y":0,"size":20},{"op":"TxIntra","a":2},{"op":"Block","x":0,"y":0,"size":21},{"op":"TxIntra","a":18},{"op":"Block","x":0,"y":4,"size":21},{"op":"TxIntra","a":10},{"op":"Block","x":0,"y":0,"size":21},{"op":"TxIntra","a":2}]]}
0
12000a06181527b80880321016400000805755dd39e970fb201d6680
tile 0 11 81

{"seq":{"chroma_sampling":3},"frame":{"width":64,"height":64},"tiles":[[{"op":"Block","x":0,"y":0,"size":0},{"op":"Coeffs","plane":0,"x":0,"y":0,"tx_type":0,"a":[-3,1,5]},{"op":"Block","x":0,"y":0,"size":1},{"op":"Coeffs","plane":0,"x":0,"y":0,"tx_type":1,"a":[0,0,0,-3]},{"op":"Block","x":0,"y":0,"size":2},{"op":"Coeffs","plane":0,"x":0,"y":0,"tx_type":2,"a":[0,-1,0,0,5]},{"op":"Block","x":0,"y":0,"size":3},{"op":"Coeffs","plane":0,"x":0,"y":0,"tx_type":3,"a":[5,0,-1,0,5,-1]},{"op":"Block","x":0,"y":0,"size":4},{"op":"Coeffs","plane":0,"x":0,"y":0,"tx_type":9,"a":[0,-1,0,5,0,-1,-1]},{"op":"Block","x":0,"y":0,"size":5},{"op":"Coeffs","plane":0,"x":0,"y":0,"tx_type":10,"a":[1,2,5,1,0,2,1,-1]},{"op":"Block","x":0,"y":0,"size":6},{"op":"Coeffs","plane":0,"x":0,"y":0,"tx_type":1,"a":[-1,-3,0,0,0,-1,-17,5,-3]},{"op":"Block","x":0,"y":0,"size":7},{"op":"Coeffs","plane":0,"x":0,"y":0,"tx_type":0,"a":[-17,-17,-3,2,-1,1,-1,0,2,-17]},{"op":"Block","x":0,"y":0,"size":8},{"op":"Coeffs","plane":0,"x":0,"y":0,"tx_type":0,"a":[-3,-17,2,0,0,5,1,-3,1,-17,5]},{"op":"Block","x":0,"y":0,"size":9},{"op":"Coeffs","plane":0,"x":0,"y":0,"tx_type":0,"a":[0,0,-3,-3,-3,-17,-17,0,0,2,-17,-1]},{"op":"Block","x":0,"y":0,"size":10},{"op":"Coeffs","plane":0,"x":0,"y":0,"tx_type":0,"a":[0,2,-17,2,5,-3,0,-17,-3,1,0,-17,-1]},{"op":"Block","x":0,"y":0,"size":11},{"op":"Coeffs","plane":0,"x":0,"y":0,"tx_type":0,"a":[-1,2,1,-1,5,5,-17,0,1,-17,5,2,1,5]},{"op":"Block","x":0,"y":0,"size":12},{"op":"Coeffs","plane":0,"x":0,"y":0,"tx_type":0,"a":[2,5,-3,5,-1,1,0,1,1,-1,-1,0,-17,1,2]},{"op":"Block","x":0,"y":0,"size":16},{"op":"Coeffs","plane":0,"x":0,"y":0,"tx_type":2,"a":[2,0,1,5,-3,-3,1,0,-17,5,5,5,5,0,-17,5,0,-1,-1]},{"op":"Block","x":0,"y":0,"size":17},{"op":"Coeffs","plane":0,"x":0,"y":0,"tx_type":3,"a":[-1,-17,1,0,-3,0,0,0,1,0,-3,0,0,-1,5,1,2,-3,-3,-17]},{"op":"Block","x":0,"y":0,"size":18},{"op":"Coeffs","plane":0,"x":0,"y":0,"tx_type":0,"a":[0,0,-17,-17,-17,-17,2,0,1,0,-3,2,-17,1,0,-1,-3,1,0,2,-1]},{"op":"Block","x":0,"y":0,"size":19},{"op":"Coeffs","plane":0,"x":0,"y":0,"tx_type":0,"a":[2,-3,1,-3,-1,-3,-1,-1,-1,5,-1,-1,-17,-3,0,0,2,-17,2,-1,-3,-17]},{"op":"Block","x":0,"y":0,"size":20},{"op":"Coeffs","plane":0,"x":0,"y":0,"tx_type":0,"a":[-3,-3,0,-1,0,-1,-17,-1,-3,-1,-17,0,-17,-3,0,0,5,-1,-17,1,5,-3,-1]},{"op":"Block","x":0,"y":0,"size":21},{"op":"Coeffs","plane":0,"x":0,"y":0,"tx_type":0,"a":[5,-17,5,0,1,1,1,0,1,-17,1,-17,-3,1,1,0,0,0,1,5,-1,-1,0,2]}]]}
0
12000a0618157ffc044032a50116400000001bc1d667f8185534d64d93d52a43606e528f6189214432bde744da7a427d9ff0b76a19c4b0d23cf2358692db5f59fe1789a19256cb1318310b44495d97a724251b664e1244fbc7be57de3d4b3979aaae209fb3d31295774615f792d75905c0a5966da63b193a1bfaf10e8a3c9387fffff33f71ac4737dc5779537ea7cc2aec442024b420c8ad66dd0bacc18237a4c7ff38276fa726857d75472694bd33add3b0
tile 0 160 1276

{"seq":{"chroma_sampling":0},"frame":{"width":40,"height":24},"tiles":[[{"op":"Block","x":9,"y":5,"size":0},{"op":"Coeffs","plane":0,"x":9,"y":5,"tx_type":0,"a":[-1,2]},{"op":"Coeffs","plane":1,"x":9,"y":5,"tx_type":0,"a":[-1,-3,2,5]},{"op":"Coeffs","plane":2,"x":9,"y":5,"tx_type":0,"a":[1]},{"op":"Block","x":9,"y":4,"size":1},{"op":"Coeffs","plane":0,"x":9,"y":4,"tx_type":0,"a":[0,-3]},{"op":"Coeffs","plane":1,"x":9,"y":4,"tx_type":0,"a":[-17,5,1,1]},{"op":"Coeffs","plane":2,"x":9,"y":4,"tx_type":0,"a":[0,-17]},{"op":"Block","x":8,"y":5,"size":2},{"op":"Coeffs","plane":0,"x":8,"y":5,"tx_type":0,"a":[1,-1]},{"op":"Coeffs","plane":1,"x":8,"y":5,"tx_type":0,"a":[1,1,1,-17]},{"op":"Coeffs","plane":2,"x":8,"y":5,"tx_type":0,"a":[0,0,-3]},{"op":"Block","x":8,"y":4,"size":3},{"op":"Coeffs","plane":0,"x":8,"y":4,"tx_type":0,"a":[-17,-1]},{"op":"Coeffs","plane":1,"x":8,"y":4,"tx_type":0,"a":[0,-1,-1,2]},{"op":"Coeffs","plane":2,"x":8,"y":4,"tx_type":0,"a":[-1]},{"op":"Block","x":8,"y":4,"size":4},{"op":"Coeffs","plane":0,"x":8,"y":4,"tx_type":0,"a":[0,-17]},{"op":"Coeffs","plane":1,"x":8,"y":4,"tx_type":0,"a":[0,0,-17,-3]},{"op":"Coeffs","plane":2,"x":8,"y":4,"tx_type":0,"a":[-1,2]},{"op":"Block","x":8,"y":4,"size":5},{"op":"Coeffs","plane":0,"x":8,"y":4,"tx_type":0,"a":[-17,-17]},{"op":"Coeffs","plane":1,"x":8,"y":4,"tx_type":0,"a":[-1,2,-1,-17]},{"op":"Coeffs","plane":2,"x":8,"y":4,"tx_type":0,"a":[1,5,-1]},{"op":"Block","x":8,"y":4,"size":6},{"op":"Coeffs","plane":0,"x":8,"y":4,"tx_type":0,"a":[5,-17]},{"op":"Coeffs","plane":1,"x":8,"y":4,"tx_type":0,"a":[-3,0,-1,5]},{"op":"Coeffs","plane":2,"x":8,"y":4,"tx_type":0,"a":[-1]},{"op":"Block","x":8,"y":0,"size":7},{"op":"Coeffs","plane":0,"x":8,"y":0,"tx_type":0,"a":[-1,2]},{"op":"Coeffs","plane":1,"x":8,"y":0,"tx_type":0,"a":[0,1,-3,1]},{"op":"Coeffs","plane":2,"x":8,"y":0,"tx_type":0,"a":[2,1]},{"op":"Block","x":8,"y":4,"size":8},{"op":"Coeffs","plane":0,"x":8,"y":4,"tx_type":0,"a":[-17,-1]},{"op":"Coeffs","plane":1,"x":8,"y":4,"tx_type":0,"a":[0,5,-17,1]},{"op":"Coeffs","plane":2,"x":8,"y":4,"tx_type":0,"a":[-1,1,5]},{"op":"Block","x":8,"y":0,"size":9},{"op":"Coeffs","plane":0,"x":8,"y":0,"tx_type":0,"a":[5,-3]},{"op":"Coeffs","plane":1,"x":8,"y":0,"tx_type":0,"a":[5,-1,-3,-3]},{"op":"Coeffs","plane":2,"x":8,"y":0,"tx_type":0,"a":[-1]},{"op":"Block","x":8,"y":0,"size":10},{"op":"Coeffs","plane":0,"x":8,"y":0,"tx_type":0,"a":[-3,-1]},{"op":"Coeffs","plane":1,"x":8,"y":0,"tx_type":0,"a":[-3,-17,-17,-1]},{"op":"Coeffs","plane":2,"x":8,"y":0,"tx_type":0,"a":[5,-3]},{"op":"Block","x":0,"y":0,"size":11},{"op":"Coeffs","plane":1,"x":0,"y":0,"tx_type":0,"a":[2,0,0,-1]},{"op":"Coeffs","plane":2,"x":0,"y":0,"tx_type":0,"a":[0,0,2]},{"op":"Block","x":0,"y":0,"size":12},{"op":"Coeffs","plane":0,"x":0,"y":0,"tx_type":0,"a":[2,-1]},{"op":"Coeffs","plane":1,"x":0,"y":0,"tx_type":0,"a":[1,2,1,5]},{"op":"Coeffs","plane":2,"x":0,"y":0,"tx_type":0,"a":[2]},{"op":"Block","x":9,"y":4,"size":16},{"op":"Coeffs","plane":0,"x":9,"y":4,"tx_type":0,"a":[5,1]},{"op":"Coeffs","plane":1,"x":9,"y":4,"tx_type":0,"a":[-17,-3,0,2]},{"op":"Coeffs","plane":2,"x":9,"y":4,"tx_type":0,"a":[0,1]},{"op":"Block","x":8,"y":5,"size":17},{"op":"Coeffs","plane":0,"x":8,"y":5,"tx_type":0,"a":[5,-1]},{"op":"Coeffs","plane":1,"x":8,"y":5,"tx_type":0,"a":[2,0,0,2]},{"op":"Coeffs","plane":2,"x":8,"y":5,"tx_type":0,"a":[0,-1,-1]},{"op":"Block","x":8,"y":0,"size":18},{"op":"Coeffs","plane":0,"x":8,"y":0,"tx_type":0,"a":[2,-1]},{"op":"Coeffs","plane":1,"x":8,"y":0,"tx_type":0,"a":[-17,0,-3,5]},{"op":"Coeffs","plane":2,"x":8,"y":0,"tx_type":0,"a":[2]},{"op":"Block","x":8,"y":4,"size":19},{"op":"Coeffs","plane":0,"x":8,"y":4,"tx_type":0,"a":[1,-1]},{"op":"Coeffs","plane":1,"x":8,"y":4,"tx_type":0,"a":[-1,0,1,2]},{"op":"Coeffs","plane":2,"x":8,"y":4,"tx_type":0,"a":[0,1]},{"op":"Block","x":8,"y":0,"size":20},{"op":"Coeffs","plane":0,"x":8,"y":0,"tx_type":0,"a":[-1,2]},{"op":"Coeffs","plane":1,"x":8,"y":0,"tx_type":0,"a":[2,-1,2,-17]},{"op":"Coeffs","plane":2,"x":8,"y":0,"tx_type":0,"a":[1,2,-3]},{"op":"Block","x":0,"y":4,"size":21},{"op":"Coeffs","plane":0,"x":0,"y":4,"tx_type":0,"a":[0,2]},{"op":"Coeffs","plane":1,"x":0,"y":4,"tx_type":0,"a":[0,0,0,-1]},{"op":"Coeffs","plane":2,"x":0,"y":4,"tx_type":0,"a":[-17]}]]}
0
12000a06181527b8005032731640000000183c21794442415aa74e34cc5c1c2329a6dbd136295d55491c3ada821df4625a93fc7191c7e172378df53632348079d9f24e032afee1898814eca49719785a380c80bb2fd9364fc68b567d6d201d0708eb48049dede3813d22962b1af32db892394959f7d5be646739a9dc5f4239
tile 0 110 880

{"seq":{"profile":2,"chroma_sampling":1},"frame":{"width":40,"height":24},"tiles":[[{"op":"Block","x":9,"y":5,"size":0},{"op":"Coeffs","plane":0,"x":9,"y":5,"tx_type":0,"a":[-1,-17]},{"op":"Coeffs","plane":1,"x":9,"y":5,"tx_type":0,"a":[0,5,-17,5]},{"op":"Coeffs","plane":2,"x":9,"y":5,"tx_type":0,"a":[2]},{"op":"Block","x":9,"y":4,"size":1},{"op":"Coeffs","plane":0,"x":9,"y":4,"tx_type":0,"a":[-1,-1]},{"op":"Coeffs","plane":1,"x":9,"y":4,"tx_type":0,"a":[-3,-1,1,5]},{"op":"Coeffs","plane":2,"x":9,"y":4,"tx_type":0,"a":[-3,-1]},{"op":"Block","x":8,"y":5,"size":2},{"op":"Coeffs","plane":0,"x":8,"y":5,"tx_type":0,"a":[1,-1]},{"op":"Coeffs","plane":1,"x":8,"y":5,"tx_type":0,"a":[0,2,5,1]},{"op":"Coeffs","plane":2,"x":8,"y":5,"tx_type":0,"a":[0,0,5]},{"op":"Block","x":8,"y":4,"size":3},{"op":"Coeffs","plane":0,"x":8,"y":4,"tx_type":0,"a":[2,-1]},{"op":"Coeffs","plane":1,"x":8,"y":4,"tx_type":0,"a":[2,0,-17,1]},{"op":"Coeffs","plane":2,"x":8,"y":4,"tx_type":0,"a":[1]},{"op":"Block","x":8,"y":4,"size":4},{"op":"Coeffs","plane":0,"x":8,"y":4,"tx_type":0,"a":[2,-17]},{"op":"Coeffs","plane":1,"x":8,"y":4,"tx_type":0,"a":[0,2,-3,-3]},{"op":"Coeffs","plane":2,"x":8,"y":4,"tx_type":0,"a":[-3,-1]},{"op":"Block","x":8,"y":4,"size":5},{"op":"Coeffs","plane":0,"x":8,"y":4,"tx_type":0,"a":[0,2]},{"op":"Coeffs","plane":1,"x":8,"y":4,"tx_type":0,"a":[-1,-3,1,-1]},{"op":"Coeffs","plane":2,"x":8,"y":4,"tx_type":0,"a":[-3,5,-1]},{"op":"Block","x":8,"y":4,"size":6},{"op":"Coeffs","plane":0,"x":8,"y":4,"tx_type":0,"a":[-17,2]},{"op":"Coeffs","plane":1,"x":8,"y":4,"tx_type":0,"a":[-1,-1,0,-1]},{"op":"Coeffs","plane":2,"x":8,"y":4,"tx_type":0,"a":[2]},{"op":"Block","x":8,"y":0,"size":7},{"op":"Coeffs","plane":0,"x":8,"y":0,"tx_type":0,"a":[0,1]},{"op":"Coeffs","plane":1,"x":8,"y":0,"tx_type":0,"a":[5,0,5,-1]},{"op":"Coeffs","plane":2,"x":8,"y":0,"tx_type":0,"a":[2,2]},{"op":"Block","x":8,"y":4,"size":8},{"op":"Coeffs","plane":0,"x":8,"y":4,"tx_type":0,"a":[-1,-1]},{"op":"Coeffs","plane":1,"x":8,"y":4,"tx_type":0,"a":[1,5,-3,-17]},{"op":"Coeffs","plane":2,"x":8,"y":4,"tx_type":0,"a":[1,2,1]},{"op":"Block","x":8,"y":0,"size":9},{"op":"Coeffs","plane":0,"x":8,"y":0,"tx_type":0,"a":[0,5]},{"op":"Coeffs","plane":1,"x":8,"y":0,"tx_type":0,"a":[1,0,-1,-1]},{"op":"Coeffs","plane":2,"x":8,"y":0,"tx_type":0,"a":[-1]},{"op":"Block","x":8,"y":0,"size":10},{"op":"Coeffs","plane":0,"x":8,"y":0,"tx_type":0,"a":[0,1]},{"op":"Coeffs","plane":1,"x":8,"y":0,"tx_type":0,"a":[-3,0,5,-17]},{"op":"Coeffs","plane":2,"x":8,"y":0,"tx_type":0,"a":[0,-1]},{"op":"Block","x":0,"y":0,"size":11},{"op":"Coeffs","plane":1,"x":0,"y":0,"tx_type":0,"a":[-1,-17,2,-1]},{"op":"Coeffs","plane":2,"x":0,"y":0,"tx_type":0,"a":[-17,0,-1]},{"op":"Block","x":0,"y":0,"size":12},{"op":"Coeffs","plane":0,"x":0,"y":0,"tx_type":0,"a":[0,-17]},{"op":"Coeffs","plane":1,"x":0,"y":0,"tx_type":0,"a":[2,0,2,-1]},{"op":"Coeffs","plane":2,"x":0,"y":0,"tx_type":0,"a":[-1]},{"op":"Block","x":9,"y":4,"size":16},{"op":"Coeffs","plane":0,"x":9,"y":4,"tx_type":0,"a":[-1,-17]},{"op":"Coeffs","plane":1,"x":9,"y":4,"tx_type":0,"a":[-17,5,0,-17]},{"op":"Coeffs","plane":2,"x":9,"y":4,"tx_type":0,"a":[2,-1]},{"op":"Block","x":8,"y":5,"size":17},{"op":"Coeffs","plane":0,"x":8,"y":5,"tx_type":0,"a":[-1,-1]},{"op":"Coeffs","plane":1,"x":8,"y":5,"tx_type":0,"a":[1,-3,2,2]},{"op":"Coeffs","plane":2,"x":8,"y":5,"tx_type":0,"a":[1,0,-17]},{"op":"Block","x":8,"y":4,"size":19},{"op":"Coeffs","plane":0,"x":8,"y":4,"tx_type":0,"a":[0,-17]},{"op":"Coeffs","plane":1,"x":8,"y":4,"tx_type":0,"a":[2,0,-1,-17]},{"op":"Coeffs","plane":2,"x":8,"y":4,"tx_type":0,"a":[2,2]},{"op":"Block","x":0,"y":4,"size":21},{"op":"Coeffs","plane":0,"x":0,"y":4,"tx_type":0,"a":[-17,-17]},{"op":"Coeffs","plane":1,"x":0,"y":4,"tx_type":0,"a":[-17,0,-1,2]},{"op":"Coeffs","plane":2,"x":0,"y":4,"tx_type":0,"a":[-1]}]]}
0
12000a06581527b80140326b16400000001a28d4a2d34d070f73cea1110a9d3b4e9eaa858bb0748e7ed803ee2d27f91ed5a400135e2432776665d4c32a0ea1f92530e7d62933ad0fc6b6289a64e1a04fac577db6bda80324794dc0833dde0c4202a31ca640f1c80ceff4688431a2bb680afd7b02a419a8
tile 0 102 813

{"seq":{"profile":1,"chroma_sampling":2},"frame":{"width":40,"height":24},"tiles":[[{"op":"Block","x":9,"y":5,"size":0},{"op":"Coeffs","plane":0,"x":9,"y":5,"tx_type":0,"a":[-17,-1]},{"op":"Coeffs","plane":1,"x":9,"y":5,"tx_type":0,"a":[2,-17,0,-17]},{"op":"Coeffs","plane":2,"x":9,"y":5,"tx_type":0,"a":[2]},{"op":"Block","x":9,"y":4,"size":1},{"op":"Coeffs","plane":0,"x":9,"y":4,"tx_type":0,"a":[5,-1]},{"op":"Coeffs","plane":1,"x":9,"y":4,"tx_type":0,"a":[-1,0,0,1]},{"op":"Coeffs","plane":2,"x":9,"y":4,"tx_type":0,"a":[2,-3]},{"op":"Block","x":8,"y":5,"size":2},{"op":"Coeffs","plane":0,"x":8,"y":5,"tx_type":0,"a":[1,2]},{"op":"Coeffs","plane":1,"x":8,"y":5,"tx_type":0,"a":[0,-3,-1,-17]},{"op":"Coeffs","plane":2,"x":8,"y":5,"tx_type":0,"a":[-17,5,-1]},{"op":"Block","x":8,"y":4,"size":3},{"op":"Coeffs","plane":0,"x":8,"y":4,"tx_type":0,"a":[1,-1]},{"op":"Coeffs","plane":1,"x":8,"y":4,"tx_type":0,"a":[-17,-17,5,2]},{"op":"Coeffs","plane":2,"x":8,"y":4,"tx_type":0,"a":[1]},{"op":"Block","x":8,"y":4,"size":4},{"op":"Coeffs","plane":0,"x":8,"y":4,"tx_type":0,"a":[5,-3]},{"op":"Coeffs","plane":1,"x":8,"y":4,"tx_type":0,"a":[5,-3,0,-3]},{"op":"Coeffs","plane":2,"x":8,"y":4,"tx_type":0,"a":[0,-3]},{"op":"Block","x":8,"y":4,"size":5},{"op":"Coeffs","plane":0,"x":8,"y":4,"tx_type":0,"a":[-3,5]},{"op":"Coeffs","plane":1,"x":8,"y":4,"tx_type":0,"a":[0,-1,0,2]},{"op":"Coeffs","plane":2,"x":8,"y":4,"tx_type":0,"a":[2,-3,-1]},{"op":"Block","x":8,"y":4,"size":6},{"op":"Coeffs","plane":0,"x":8,"y":4,"tx_type":0,"a":[5,5]},{"op":"Coeffs","plane":1,"x":8,"y":4,"tx_type":0,"a":[0,-3,5,2]},{"op":"Coeffs","plane":2,"x":8,"y":4,"tx_type":0,"a":[-1]},{"op":"Block","x":8,"y":0,"size":7},{"op":"Coeffs","plane":0,"x":8,"y":0,"tx_type":0,"a":[2,-1]},{"op":"Coeffs","plane":1,"x":8,"y":0,"tx_type":0,"a":[0,2,1,-1]},{"op":"Coeffs","plane":2,"x":8,"y":0,"tx_type":0,"a":[2,5]},{"op":"Block","x":8,"y":4,"size":8},{"op":"Coeffs","plane":0,"x":8,"y":4,"tx_type":0,"a":[-3,-1]},{"op":"Coeffs","plane":1,"x":8,"y":4,"tx_type":0,"a":[-3,5,0,5]},{"op":"Coeffs","plane":2,"x":8,"y":4,"tx_type":0,"a":[-1,0,-1]},{"op":"Block","x":8,"y":0,"size":9},{"op":"Coeffs","plane":0,"x":8,"y":0,"tx_type":0,"a":[5,-17]},{"op":"Coeffs","plane":1,"x":8,"y":0,"tx_type":0,"a":[1,2,-17,-1]},{"op":"Coeffs","plane":2,"x":8,"y":0,"tx_type":0,"a":[1]},{"op":"Block","x":8,"y":0,"size":10},{"op":"Coeffs","plane":0,"x":8,"y":0,"tx_type":0,"a":[1,-17]},{"op":"Coeffs","plane":1,"x":8,"y":0,"tx_type":0,"a":[5,-3,2,2]},{"op":"Coeffs","plane":2,"x":8,"y":0,"tx_type":0,"a":[2,2]},{"op":"Block","x":0,"y":0,"size":11},{"op":"Coeffs","plane":1,"x":0,"y":0,"tx_type":0,"a":[5,-1,2,-17]},{"op":"Coeffs","plane":2,"x":0,"y":0,"tx_type":0,"a":[5,0,1]},{"op":"Block","x":0,"y":0,"size":12},{"op":"Coeffs","plane":0,"x":0,"y":0,"tx_type":0,"a":[1,-1]},{"op":"Coeffs","plane":1,"x":0,"y":0,"tx_type":0,"a":[-1,-17,-1,-17]},{"op":"Coeffs","plane":2,"x":0,"y":0,"tx_type":0,"a":[-3]},{"op":"Block","x":9,"y":4,"size":16},{"op":"Coeffs","plane":0,"x":9,"y":4,"tx_type":0,"a":[-17,5]},{"op":"Coeffs","plane":1,"x":9,"y":4,"tx_type":0,"a":[1,-1,-1,-1]},{"op":"Coeffs","plane":2,"x":9,"y":4,"tx_type":0,"a":[1,-3]},{"op":"Block","x":8,"y":5,"size":17},{"op":"Coeffs","plane":0,"x":8,"y":5,"tx_type":0,"a":[0,-3]},{"op":"Coeffs","plane":1,"x":8,"y":5,"tx_type":0,"a":[-1,-3,2,-1]},{"op":"Coeffs","plane":2,"x":8,"y":5,"tx_type":0,"a":[0,5,5]},{"op":"Block","x":8,"y":0,"size":18},{"op":"Coeffs","plane":0,"x":8,"y":0,"tx_type":0,"a":[5,-1]},{"op":"Coeffs","plane":1,"x":8,"y":0,"tx_type":0,"a":[5,2,-3,-1]},{"op":"Coeffs","plane":2,"x":8,"y":0,"tx_type":0,"a":[-17]},{"op":"Block","x":8,"y":4,"size":19},{"op":"Coeffs","plane":0,"x":8,"y":4,"tx_type":0,"a":[2,-3]},{"op":"Coeffs","plane":1,"x":8,"y":4,"tx_type":0,"a":[1,-1,0,2]},{"op":"Coeffs","plane":2,"x":8,"y":4,"tx_type":0,"a":[-1,5]},{"op":"Block","x":8,"y":0,"size":20},{"op":"Coeffs","plane":0,"x":8,"y":0,"tx_type":0,"a":[5,-17]},{"op":"Coeffs","plane":1,"x":8,"y":0,"tx_type":0,"a":[5,2,0,1]},{"op":"Coeffs","plane":2,"x":8,"y":0,"tx_type":0,"a":[0,5,-17]},{"op":"Block","x":0,"y":4,"size":21},{"op":"Coeffs","plane":0,"x":0,"y":4,"tx_type":0,"a":[-17,-1]},{"op":"Coeffs","plane":1,"x":0,"y":4,"tx_type":0,"a":[0,5,-17,-17]},{"op":"Coeffs","plane":2,"x":0,"y":4,"tx_type":0,"a":[-1]}]]}
0
12000a06381527b80280327b164000000017c23a0393bd61d8aa9373da8bd3f4a7c902b0ede2d778ba7eff78add830d04481b59c2096a261d4df27a46160b5b1ba2d385c8f17ec7fc8ff4cf57a28bc7e9119bc413366418958e27455633bef61265c9e53b75decf45a99f251bcf800417d8e481e5072f45bc6cdab3ae037acf72bb8e1baa9e4c0
tile 0 118 938"#;
