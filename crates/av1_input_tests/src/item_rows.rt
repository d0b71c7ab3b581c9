// Items and their answers, which a program of their own computed, from the description of the format.

/// A row is an answer and an item; an empty line ends it. An answer is `at` and the path of the first place that does not fit, in a unit
/// whose one tile has this item alone, or else the item's kind and the values of its members, in the order of the format.
pub const ITEMS: &str = r#"RowStart
{"op":"RowStart"}

at /tiles/0/0/a
{"op":"RowStart","a":null}

at /tiles/0/0/op
{"op":"rowstart"}

Block 0 9223372036854775807 21
{"op":"Block","size":21,"y":9223372036854775807,"x":0}

at /tiles/0/0/y
{"op":"Block","x":0,"y":-1,"size":-1}

Partition 1 2 3 9
{"op":"Partition","x":1,"y":2,"size":3,"a":9}

at /tiles/0/0/size
{"op":"Partition","x":1,"y":2,"size":22,"a":9}

at /tiles/0/0/a
{"op":"Partition","x":1,"y":2,"size":3,"a":10}

at /tiles/0/0/a
{"op":"Partition","x":1,"y":2,"size":3,"a":"NONE"}

at /tiles/0/0/a
{"op":"Partition","x":1,"y":2,"size":3}

at /tiles/0/0/x
{"op":"Partition","a":0,"size":0,"y":0}

Skip false
{"op":"Skip","a":false}

at /tiles/0/0/a
{"op":"Skip","a":null}

IntraModeKf 33
{"op":"IntraModeKf","a":33}

at /tiles/0/0/a
{"op":"IntraModeKf","a":34}

at /tiles/0/0/a
{"op":"IntraModeKf","mode":0}

IntraMode 13
{"op":"IntraMode","a":13}

at /tiles/0/0/a
{"op":"IntraMode","a":-1}

UvMode 12
{"op":"UvMode","a":12}

at /tiles/0/0/a
{"op":"UvMode","a":true}

FilterIntra true
{"op":"FilterIntra","a":true}

at /tiles/0/0/a
{"op":"FilterIntra","a":0}

Palette false
{"op":"Palette","a":false}

at /tiles/0/0/a
{"op":"Palette"}

Cdef 255
{"op":"Cdef","a":255}

at /tiles/0/0/a
{"op":"Cdef","a":256}

at /tiles/0/0/a
{"op":"Cdef","a":[0]}

Begin 9223372036854775807 7
{"op":"Begin","x":9223372036854775807,"y":7}

at /tiles/0/0/a
{"op":"Begin","x":0,"y":0,"a":0}

Keep
{"op":"Keep"}

Abandon
{"op":"Abandon"}

at /tiles/0/0/op2
{"op":"Abandon","op2":0}

Segment 0
{"op":"Segment","a":0}

Segment 255
{"op":"Segment","a":255}

at /tiles/0/0/a
{"op":"Segment","a":256}

at /tiles/0/0/a
{"op":"Segment","a":-1}

at /tiles/0/0/skip
{"op":"Segment","a":7,"skip":true}

at /tiles/0/0/a
{"op":"Segment"}

DeltaLf -128 127 0 63
{"op":"DeltaLf","a":[-128,127,0,63]}

at /tiles/0/0/a
{"op":"DeltaLf","a":[1,2,3]}

at /tiles/0/0/a
{"op":"DeltaLf","a":[1,2,3,4,5]}

at /tiles/0/0/a/3
{"op":"DeltaLf","a":[1,2,3,128]}

at /tiles/0/0/a/1
{"op":"DeltaLf","a":[1,-129,3,128]}

at /tiles/0/0/a
{"op":"DeltaLf","a":3}

at /tiles/0/0/a
{"op":"DeltaLf"}

at /tiles/0/0/count
{"op":"DeltaLf","a":[0,0,0,0],"count":1}

AngleDelta false -3
{"op":"AngleDelta","chroma":false,"a":-3}

AngleDelta true 127
{"op":"AngleDelta","a":127,"chroma":true}

AngleDelta true -128
{"op":"AngleDelta","chroma":true,"a":-128}

at /tiles/0/0/a
{"op":"AngleDelta","chroma":true,"a":128}

at /tiles/0/0/a
{"op":"AngleDelta","chroma":true,"a":-129}

at /tiles/0/0/chroma
{"op":"AngleDelta","chroma":1,"a":500}

at /tiles/0/0/chroma
{"op":"AngleDelta","a":500}

at /tiles/0/0/a
{"op":"AngleDelta","chroma":false}

at /tiles/0/0/mode
{"op":"AngleDelta","chroma":false,"a":0,"mode":1}

CflAlphas -16 16
{"op":"CflAlphas","a":[-16,16]}

CflAlphas -32768 32767
{"op":"CflAlphas","a":[-32768,32767]}

CflAlphas 32767 -32768
{"op":"CflAlphas","a":[32767,-32768]}

at /tiles/0/0/a/1
{"op":"CflAlphas","a":[1,32768]}

at /tiles/0/0/a/0
{"op":"CflAlphas","a":[-32769,32768]}

at /tiles/0/0/a
{"op":"CflAlphas","a":[1]}

at /tiles/0/0/a
{"op":"CflAlphas","a":[1,2,3]}

at /tiles/0/0/a
{"op":"CflAlphas","a":{"u":1,"v":2}}

at /tiles/0/0/a
{"op":"CflAlphas"}

at /tiles/0/0/A
{"op":"CflAlphas","a":[0,0],"A":[]}

Coeffs 0 0 0 0 1
{"op":"Coeffs","plane":0,"x":0,"y":0,"tx_type":0,"a":[1]}

Coeffs 1 2 3 15
{"op":"Coeffs","a":[],"tx_type":15,"y":3,"x":2,"plane":1}

Coeffs 9223372036854775807 9223372036854775807 9223372036854775807 9 -2147483648 0 2147483647 -1
{"op":"Coeffs","plane":9223372036854775807,"x":9223372036854775807,"y":9223372036854775807,"tx_type":9,"a":[-2147483648,0,2147483647,-1]}

at /tiles/0/0/tx_type
{"op":"Coeffs","plane":2,"x":4,"y":5,"tx_type":16,"a":[1]}

at /tiles/0/0/tx_type
{"op":"Coeffs","plane":2,"x":4,"y":5,"tx_type":-1,"a":[1]}

at /tiles/0/0/a/1
{"op":"Coeffs","plane":2,"x":4,"y":5,"tx_type":0,"a":[1,2147483648]}

at /tiles/0/0/a/0
{"op":"Coeffs","plane":2,"x":4,"y":5,"tx_type":0,"a":[-2147483649]}

at /tiles/0/0/a/10
{"op":"Coeffs","plane":2,"x":4,"y":5,"tx_type":0,"a":[0,0,0,0,0,0,0,0,0,0,0.5]}

at /tiles/0/0/a
{"op":"Coeffs","plane":2,"x":4,"y":5,"tx_type":0,"a":1}

at /tiles/0/0/a
{"op":"Coeffs","plane":2,"x":4,"y":5,"tx_type":0,"a":null}

at /tiles/0/0/a
{"op":"Coeffs","plane":2,"x":4,"y":5,"tx_type":0}

at /tiles/0/0/tx_type
{"op":"Coeffs","plane":2,"x":4,"y":5,"a":[1]}

at /tiles/0/0/y
{"op":"Coeffs","plane":2,"x":4,"tx_type":99,"a":[1]}

at /tiles/0/0/x
{"op":"Coeffs","plane":2,"tx_type":99,"a":[1]}

at /tiles/0/0/plane
{"op":"Coeffs","plane":-1,"x":-1,"y":-1,"tx_type":0,"a":[1]}

at /tiles/0/0/plane
{"op":"Coeffs","x":0,"y":0,"tx_type":0,"a":[1]}

at /tiles/0/0/eob
{"op":"Coeffs","plane":0,"x":0,"y":0,"tx_type":0,"a":[1],"eob":1}

at /tiles/0/0/a/1
{"op":"Coeffs","plane":0,"x":0,"y":0,"tx_size":0,"tx_type":0,"a":[1,"2"]}

TxNote
{"op":"TxNote"}

at /tiles/0/0/a
{"op":"TxNote","a":0}

TxIntra 0
{"op":"TxIntra","a":0}

TxIntra 18
{"op":"TxIntra","a":18}

at /tiles/0/0/a
{"op":"TxIntra","a":19}

at /tiles/0/0/a
{"op":"TxIntra","a":-1}

at /tiles/0/0/a
{"op":"TxIntra","a":false}

at /tiles/0/0/a
{"op":"TxIntra"}

at /tiles/0/0/x
{"op":"TxIntra","a":4,"x":0}

TxInter true
{"op":"TxInter","a":true}

TxInter false
{"op":"TxInter","a":false}

at /tiles/0/0/a
{"op":"TxInter","a":1}

at /tiles/0/0/a
{"op":"TxInter"}

at /tiles/0/0/depth
{"op":"TxInter","a":true,"depth":0}

Lrf 0 none
{"op":"Lrf","plane":0,"a":null}

Lrf 1 wiener -5 -23 -17 10 8 46
{"op":"Lrf","a":{"wiener":[[-5,-23,-17],[10,8,46]]},"plane":1}

Lrf 9223372036854775807 wiener -128 127 0 0 -128 127
{"op":"Lrf","plane":9223372036854775807,"a":{"wiener":[[-128,127,0],[0,-128,127]]}}

Lrf 2 set 14 xqd -32 31
{"op":"Lrf","plane":2,"a":{"set":14,"xqd":[-32,31]}}

Lrf 2 set 255 xqd 127 -128
{"op":"Lrf","plane":2,"a":{"xqd":[127,-128],"set":255}}

at /tiles/0/0/a/set
{"op":"Lrf","plane":2,"a":{}}

at /tiles/0/0/a/set
{"op":"Lrf","plane":2,"a":{"xqd":[0,0]}}

at /tiles/0/0/a/set
{"op":"Lrf","plane":2,"a":{"set":256,"xqd":[0,0]}}

at /tiles/0/0/a/set
{"op":"Lrf","plane":2,"a":{"set":-1}}

at /tiles/0/0/a/xqd
{"op":"Lrf","plane":2,"a":{"set":3}}

at /tiles/0/0/a/xqd
{"op":"Lrf","plane":2,"a":{"set":3,"xqd":[0]}}

at /tiles/0/0/a/xqd/1
{"op":"Lrf","plane":2,"a":{"set":3,"xqd":[0,128]}}

at /tiles/0/0/a/Wiener
{"op":"Lrf","plane":2,"a":{"set":3,"xqd":[0,0],"Wiener":[]}}

at /tiles/0/0/a/set
{"op":"Lrf","plane":2,"a":{"set":3,"xqd":[0,0],"wiener":[[0,0,0],[0,0,0]]}}

at /tiles/0/0/a/wiener
{"op":"Lrf","plane":2,"a":{"set":3,"xqd":[0,0],"wiener":null}}

at /tiles/0/0/a/wiener
{"op":"Lrf","plane":2,"a":{"wiener":[[0,0,0]]}}

at /tiles/0/0/a/wiener/1
{"op":"Lrf","plane":2,"a":{"wiener":[[0,0,0],[0,0]]}}

at /tiles/0/0/a/wiener/0
{"op":"Lrf","plane":2,"a":{"wiener":[[0,0,0,0],[0,0,0]]}}

at /tiles/0/0/a/wiener/1/2
{"op":"Lrf","plane":2,"a":{"wiener":[[0,0,0],[0,0,-129]]}}

at /tiles/0/0/a/taps
{"op":"Lrf","plane":2,"a":{"wiener":[[0,0,0],[0,0,0]],"taps":0}}

at /tiles/0/0/a
{"op":"Lrf","plane":2,"a":[]}

at /tiles/0/0/a
{"op":"Lrf","plane":2,"a":0}

at /tiles/0/0/a
{"op":"Lrf","plane":2,"a":"none"}

at /tiles/0/0/a
{"op":"Lrf","plane":2}

at /tiles/0/0/plane
{"op":"Lrf","plane":null,"a":{}}

at /tiles/0/0/plane
{"op":"Lrf","a":null}

at /tiles/0/0/x
{"op":"Lrf","plane":0,"a":null,"x":0}

IsInter true
{"op":"IsInter","a":true}

IsInter false
{"a":false,"op":"IsInter"}

at /tiles/0/0/a
{"op":"IsInter","a":1}

at /tiles/0/0/a
{"op":"IsInter","a":"true"}

at /tiles/0/0/a
{"op":"IsInter"}

at /tiles/0/0/mode
{"op":"IsInter","a":true,"mode":14}

at /tiles/0/0/op
{"op":"isInter","a":true}

RefFrames 1 8
{"op":"RefFrames","a":[1,8]}

RefFrames 0 0
{"op":"RefFrames","a":[0,0]}

RefFrames 8 7
{"op":"RefFrames","a":[8,7]}

RefFrames 4 5
{"op":"RefFrames","a":[4,5]}

at /tiles/0/0/a
{"op":"RefFrames","a":[1]}

at /tiles/0/0/a
{"op":"RefFrames","a":[1,2,3]}

at /tiles/0/0/a/1
{"op":"RefFrames","a":[1,9]}

at /tiles/0/0/a/0
{"op":"RefFrames","a":[9,9]}

at /tiles/0/0/a/1
{"op":"RefFrames","a":[1,-1]}

at /tiles/0/0/a/1
{"op":"RefFrames","a":[1,null]}

at /tiles/0/0/a/0
{"op":"RefFrames","a":["LAST_FRAME",8]}

at /tiles/0/0/a
{"op":"RefFrames","a":1}

at /tiles/0/0/a
{"op":"RefFrames","a":{"0":1,"1":8}}

at /tiles/0/0/a
{"op":"RefFrames"}

at /tiles/0/0/b
{"op":"RefFrames","a":[1,8],"b":[1,8]}

MvRefs false
{"op":"MvRefs","has_tr":false}

MvRefs true
{"op":"MvRefs","has_tr":true}

at /tiles/0/0/has_tr
{"op":"MvRefs"}

at /tiles/0/0/has_tr
{"op":"MvRefs","has_tr":0}

at /tiles/0/0/a
{"op":"MvRefs","has_tr":true,"a":null}

at /tiles/0/0/has_tr
{"op":"MvRefs","a":true}

at /tiles/0/0/is_compound
{"op":"MvRefs","is_compound":true,"has_tr":true}

InterMode 14
{"op":"InterMode","a":14}

InterMode 33
{"op":"InterMode","a":33}

InterMode 0
{"op":"InterMode","a":0}

at /tiles/0/0/a
{"op":"InterMode","a":34}

at /tiles/0/0/a
{"op":"InterMode","a":19.0}

at /tiles/0/0/a
{"op":"InterMode","a":"NEWMV"}

at /tiles/0/0/a
{"op":"InterMode"}

at /tiles/0/0/ctx
{"op":"InterMode","a":14,"ctx":0}

CompoundMode 20
{"op":"CompoundMode","a":20}

CompoundMode 31
{"op":"CompoundMode","a":31}

at /tiles/0/0/a
{"op":"CompoundMode","a":-1}

at /tiles/0/0/a
{"op":"CompoundMode","a":[20]}

at /tiles/0/0/a
{"op":"CompoundMode","idx":0}

Drl 0 true
{"op":"Drl","idx":0,"a":true}

Drl 2 false
{"a":false,"idx":2,"op":"Drl"}

Drl 9223372036854775807 false
{"op":"Drl","idx":9223372036854775807,"a":false}

at /tiles/0/0/idx
{"op":"Drl","idx":9223372036854775808,"a":false}

at /tiles/0/0/idx
{"op":"Drl","idx":-1,"a":2}

at /tiles/0/0/idx
{"op":"Drl","a":true}

at /tiles/0/0/a
{"op":"Drl","idx":1}

at /tiles/0/0/idx
{"op":"Drl","index":1,"a":true}

at /tiles/0/0/index
{"op":"Drl","idx":1,"index":1,"a":true}

at /tiles/0/0/idx
{"op":"Drl","idx":true,"a":true}

at /tiles/0/0/a
{"op":"Drl","idx":0,"a":0}

at /tiles/0/0/idx
{"op":"Drl","idx":-0,"a":true}

Mv 0 0 2
{"op":"Mv","list":0,"a":[0,2]}

Mv 1 -32768 32767
{"op":"Mv","a":[-32768,32767],"list":1}

Mv 9223372036854775807 32767 -32768
{"op":"Mv","list":9223372036854775807,"a":[32767,-32768]}

at /tiles/0/0/a/0
{"op":"Mv","list":0,"a":[32768,0]}

at /tiles/0/0/a/1
{"op":"Mv","list":0,"a":[0,-32769]}

at /tiles/0/0/a
{"op":"Mv","list":0,"a":[0]}

at /tiles/0/0/a
{"op":"Mv","list":0,"a":[0,0,0]}

at /tiles/0/0/a
{"op":"Mv","list":0,"a":{"row":0,"col":2}}

at /tiles/0/0/a/1
{"op":"Mv","list":0,"a":[0,2.0]}

at /tiles/0/0/a/0
{"op":"Mv","list":0,"a":[-0,2]}

at /tiles/0/0/list
{"op":"Mv","list":-1,"a":[0,2]}

at /tiles/0/0/list
{"op":"Mv","a":[0,2]}

at /tiles/0/0/a
{"op":"Mv","list":0}

at /tiles/0/0/col
{"op":"Mv","list":0,"row":0,"col":2,"a":[0,2]}

at /tiles/0/0/mv
{"op":"Mv","list":0,"a":[0,2],"mv":[0,2]}

at /tiles/0/0/list
{"op":"Mv","list":[0],"a":[0,2]}"#;
