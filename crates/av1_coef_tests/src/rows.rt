// Contexts of drawn levels and refused scans.
ghost use Rattle.std.specs.Prelude.{◌≡◌, ◌+◌, ◌*◌, ◌/◌, ◌^◌, ◌<◌, ◌≤◌, length};
ghost use Rattle.av1_geometry.specs.declared.tx_size.TxSize.TheVariants.{TX_8X8};
ghost use Rattle.av1_coef.specs.Contexts.{coded_width, coded_height};

use crate::plain::{Block, base_context, last_context, range_context};
use av1_coef::{
    Scan, Scans, check_scan, check_scans, diagonal, get_br_ctx, get_eob_pos_token, get_nz_mag,
    get_nz_map_contexts, get_txb_bhl, get_txsize_entropy_ctx, law_of_coded_sizes, law_of_scans,
    txb_init_levels,
};
use av1_geometry::TxClass::{TX_CLASS_2D, TX_CLASS_HORIZ, TX_CLASS_VERT};
use av1_geometry::{Rule, TxClass, TxSize, av1_get_coded_tx_size};
use std::alloc::Global;
use std::test::Fail;

// A size and a class by their numbers; then what rav1e's own calls give, folded: the base contexts of four ends, the range
// contexts with the sums near each place, and the levels.
const ROWS: &str = "0 0;4208111206 899450308 354495806\n\
0 1;2973513634 2703688131 3956999491\n\
0 2;1602252973 2280864766 3603848059\n\
1 0;1599220639 228879438 1678182271\n\
1 1;3047633578 3479158572 219072838\n\
1 2;3563135653 1314488229 2320540319\n\
2 0;1990732207 901010026 3109129918\n\
2 1;2574849521 1692332148 2065443691\n\
2 2;4025912977 3093239903 1852616719\n\
3 0;4200172699 3324185827 4238216570\n\
3 1;3935621267 4248547091 2851531563\n\
3 2;3256762658 3889781600 823341229\n\
4 0;1875818726 3717550070 1783698020\n\
4 1;4237485516 962827732 2059458544\n\
4 2;1880422837 923932053 3119102574\n\
5 0;3200825040 270485283 1178837820\n\
5 1;1197048808 193678801 1187002518\n\
5 2;2396262448 3447749140 1515626289\n\
6 0;989235585 865640000 3002447013\n\
6 1;1232676499 2395439875 1466193136\n\
6 2;3111651512 4011590966 3475299434\n\
7 0;2210989805 285502216 709641757\n\
7 1;874669506 2162167380 2574544613\n\
7 2;3480973441 3265789576 1864170407\n\
8 0;2827150558 1414852369 2673506418\n\
8 1;3774858841 176119855 4243365595\n\
8 2;967442290 1991529162 1221253006\n\
9 0;2285536248 894055519 3881832995\n\
9 1;2721216710 1129155041 1940096133\n\
9 2;3704812409 93033344 505517805\n\
10 0;2411616105 3318887998 21547072\n\
10 1;3430201997 2192614490 2473481438\n\
10 2;3597978073 170870664 777848895\n\
11 0;2360307829 3369804112 3525823109\n\
11 1;1035497169 3650835344 2797848021\n\
11 2;3587999158 631907698 2393922085\n\
12 0;701927352 762246533 3436541126\n\
12 1;2994041470 1409179117 2464730955\n\
12 2;2232578836 186693507 3992511180\n\
13 0;1847418078 1297359972 2044866617\n\
13 1;2075639177 1893439471 1738827516\n\
13 2;2681635806 3018085455 3521999691\n\
14 0;1622458366 1196583348 3309564352\n\
14 1;1857714834 537446734 3717749609\n\
14 2;401927909 2146913956 764007422\n\
15 0;4091845183 743382043 3420235450\n\
15 1;2812741747 2536681465 3901986630\n\
15 2;3315093667 4253115743 3321136302\n\
16 0;2687320942 1958304249 2816663095\n\
16 1;3228316655 3169894526 3028311528\n\
16 2;3415550767 1386947212 737172703\n\
17 0;135896975 1155805378 3223298150\n\
17 1;642834618 35750296 2874750680\n\
17 2;1966947308 1163216095 3989452180\n\
18 0;2717181414 1971858422 2615711183\n\
18 1;1190931325 1815679699 913007764\n\
18 2;1258644206 1243784175 2340197570";

const CLASSES: [TxClass; 3] = [TX_CLASS_2D, TX_CLASS_HORIZ, TX_CLASS_VERT];

// Levels of the largest coded size.
const PLACES: usize = 1296;

fn mix(hash: u32, x: u32) -> u32 {
    hash.wrapping_mul(31).wrapping_add(x)
}

fn draw(state: &mut u64) -> usize {
    *state = (*state % (1 << 31) * 1103515245 + 12345) % (1 << 31);
    (*state >> 16) as usize
}

// Coefficients of which each eighth is great.
fn coefficients(alloc: Global, state: &mut u64, n: usize) -> Result<Vec<i32>, Fail> {
    let mut coeffs = Vec::new(alloc);
    for _ in 0..n {
        let v = draw(state);
        coeffs.push(if v % 8 == 0 {
            (v / 8 % 801) as i32 - 400
        } else {
            (v / 8 % 17) as i32 - 8
        })?;
    }
    Ok(coeffs)
}

fn sizes(alloc: Global, coeffs: &[i32]) -> Result<Vec<u32>, Fail> {
    let mut sizes = Vec::new(alloc);
    for coeff in coeffs {
        sizes.push(coeff.unsigned_abs())?;
    }
    Ok(sizes)
}

fn positions(alloc: Global, w: usize, h: usize) -> Result<Vec<u16>, Fail> {
    let mut scan = Vec::new(alloc);
    for line in 0..w.saturating_add(h) {
        for c in 0..w {
            if c <= line && line - c < h {
                let place = c.wrapping_mul(h).wrapping_add(line - c);
                scan.push((place % 65536) as u16)?;
            }
        }
    }
    Ok(scan)
}

// The base contexts of the first `eob` positions, as the call and the plain program give them.
fn base(
    levels: &mut [u8],
    block: &Block,
    scan: &[u16],
    eob: u16,
    tx_size: TxSize,
    tx_class: TxClass,
    hash: u32,
) -> Result<u32, &'static str>
    requires { (coded_width tx_size + 4) * (coded_height tx_size + 4) ≤ length levels.old }
{
    let n = usize::from(eob);
    if n > scan.len() || n > 1024 || block.h == 0 {
        return Err("a great end");
    }
    match check_scan(scan, tx_size, tx_class) {
        Some(_) => return Err("no scan"),
        None => {}
    }
    law_of_scans();
    let mut contexts = [0i8; 1024];
    get_nz_map_contexts(levels, scan, eob, tx_size, tx_class, &mut contexts);
    let mut hash = hash;
    for i in 0..n {
        let context = u32::from(contexts[i].unsigned_abs());
        let p = usize::from(scan[i]);
        let plain = if i + 1 == n {
            last_context(tx_size, i)
        } else {
            base_context(tx_size, tx_class, block, p / block.h, p % block.h)
        };
        if context != plain {
            return Err("another base context");
        }
        hash = mix(hash, context);
    }
    Ok(hash)
}

// The number of rows whose coefficients are coded.
fn rows_of(tx_size: TxSize) -> usize
    ensures value { result ≡ coded_height tx_size }
    ensures some { 0 < result }
    ensures most { result ≤ 64 }
{
    av1_get_coded_tx_size(tx_size).height()
}

// The range context of a position, as the call and the plain program give it, and the sum near it.
fn range_at(
    levels: &[u8],
    block: &Block,
    p: usize,
    tx_size: TxSize,
    tx_class: TxClass,
) -> Result<(u32, u32), &'static str> {
    let h = rows_of(tx_size);
    let bhl = get_txb_bhl(tx_size);
    if p >= 32 * h || (p / h + 5) * (h + 4) > levels.len() {
        return Err("few levels");
    }
    let context = get_br_ctx(levels, p, bhl, tx_class) as u32;
    if context != range_context(tx_class, block, p / h, p % h) {
        return Err("another range context");
    }
    let at = p + p / h * 4;
    if at > levels.len() || levels.len() - at <= 4 * (h + 4) {
        return Err("few levels");
    }
    Ok((context, get_nz_mag(&levels[at..], bhl, tx_class) as u32))
}

// A row's answer.
fn answer(alloc: Global, number: usize, class: usize) -> Result<String, Fail> {
    let tx_size = TxSize::from_number(number).ok_or("no size")?;
    let tx_class = CLASSES.get(class).copied().ok_or("no class")?;
    let coded = av1_get_coded_tx_size(tx_size);
    let (w, h) = (coded.width(), coded.height());
    let mut state = (number.min(100) * 3 + class.min(100) + 1) as u64;
    let coeffs = coefficients(alloc, &mut state, w * h)?;
    let sizes = sizes(alloc, &coeffs)?;
    let scan = positions(alloc, w, h)?;
    let block = Block {
        sizes: &sizes,
        w,
        h,
    };
    let mut levels = [0u8; PLACES];
    txb_init_levels(&coeffs, h, &mut levels, h + 4);
    law_of_coded_sizes();
    let mut first = 0;
    let few = 1 + draw(&mut state) % (w * h);
    let fewer = 1 + draw(&mut state) % (w * h / 4);
    for eob in [w * h, few, fewer, 1] {
        let eob = u16::try_from(eob)?;
        first = base(&mut levels, &block, &scan, eob, tx_size, tx_class, first)?;
    }
    let mut second = 0;
    for p in 0..w * h {
        let (context, near) = range_at(&levels, &block, p, tx_size, tx_class)?;
        second = mix(mix(second, context), near);
    }
    let mut third = 0;
    for level in &levels {
        third = mix(third, u32::from(*level));
    }
    Ok(format!(in alloc; "{first} {second} {third}")?)
}

#[test]
fn drawn_levels_have_the_contexts_of_rav1e_and_of_the_plain_program(
    rt: HostRuntime,
) -> Result<(), Fail> {
    for row in ROWS.lines() {
        let (question, want) = row.split_once(';').ok_or("no answer")?;
        let (number, class) = question.split_once(' ').ok_or("no class")?;
        let got = answer(rt.alloc(), number.parse()?, class.parse()?)?;
        assert_eq!(rt; got.as_str(), want, "{row}");
    }
    Ok(())
}

// The base contexts of an 8x8 transform.
fn contexts_of(levels: &mut [u8], scan: &[u16], tx_class: TxClass) -> Result<[i8; 64], &'static str>
    requires { (coded_width TX_8X8 + 4) * (coded_height TX_8X8 + 4) ≤ length levels.old }
{
    if scan.len() != 64 {
        return Err("another size");
    }
    match check_scan(scan, TxSize::TX_8X8, tx_class) {
        Some(_) => return Err("no scan"),
        None => {}
    }
    law_of_scans();
    let mut contexts = [0i8; 64];
    get_nz_map_contexts(levels, scan, 64, TxSize::TX_8X8, tx_class, &mut contexts);
    Ok(contexts)
}

#[test]
fn levels_of_15_and_127_have_the_same_contexts(rt: HostRuntime) -> Result<(), Fail> {
    let scan = positions(rt.alloc(), 8, 8)?;
    let mut few = [15u8; PLACES];
    let mut many = [127u8; PLACES];
    law_of_coded_sizes();
    for tx_class in CLASSES {
        let a = contexts_of(&mut few, &scan, tx_class)?;
        let b = contexts_of(&mut many, &scan, tx_class)?;
        assert_eq!(rt; a, b);
        for p in 0..64 {
            let (a, b) = (
                get_br_ctx(&few, p, 3, tx_class),
                get_br_ctx(&many, p, 3, tx_class),
            );
            assert_eq!(rt; a, b, "at {p}");
        }
    }
    Ok(())
}

#[test]
fn ends_have_their_classes(rt: HostRuntime) {
    assert_eq!(rt; get_eob_pos_token(1), (1, 0));
    assert_eq!(rt; get_eob_pos_token(33), (7, 0));
    let mut hash = 0;
    for eob in 1..=1024 {
        let (class, extra) = get_eob_pos_token(eob);
        hash = mix(mix(hash, class), extra);
    }
    assert_eq!(rt; hash, 2057366858, "rav1e's own calls");
}

#[test]
fn sizes_have_their_contexts_and_heights(rt: HostRuntime) -> Result<(), Fail> {
    let mut hash = 0;
    for number in 0..TxSize::TX_SIZES_ALL {
        let tx_size = TxSize::from_number(number).ok_or("no size")?;
        let context = get_txsize_entropy_ctx(tx_size) as u32;
        hash = mix(mix(hash, context), get_txb_bhl(tx_size) as u32);
    }
    assert_eq!(rt; hash, 634349983, "rav1e's own calls");
    Ok(())
}

// A scan's positions as a text, and the number of the rule that it breaks, or 0.
const SCANS: &str = "0 1 2 3 4 5 6 7 8 9 10 11 12 13 14 15;0 0 0\n\
    0 4 8 12 1 5 9 13 2 6 10 14 3 7 11 15;0 0 0\n\
    0 1 4 2 5 8 3 6 9 12 7 10 13 11 14 15;0 0 0\n\
    1 0 4 2 5 8 3 6 9 12 7 10 13 11 14 15;5 5 5\n\
    0 1 4 2 5 8 3 6 9 12 7 10 13 11 15 14;5 5 5\n\
    0 1 4 2 5 8 3 6 9 12 7 10 13 11 14;4 4 4\n\
    0 1 4 2 5 8 3 6 9 12 7 10 13 11 14 14;4 4 4\n\
    0 1 4 2 5 8 3 6 9 12 7 10 13 11 14 16;4 4 4\n\
    0 0 1 4 2 5 8 3 6 9 12 7 10 13 11 14 15;4 4 4";

fn rule_number(rule: Option<Rule>) -> u16 {
    match rule {
        Some(rule) => rule.0,
        None => 0,
    }
}

#[test]
fn scans_are_refused_by_their_rules(rt: HostRuntime) -> Result<(), Fail> {
    for row in SCANS.lines() {
        let (places, want) = row.split_once(';').ok_or("no answer")?;
        let mut scan = Vec::new(rt.alloc());
        for place in places.split(' ') {
            scan.push(place.parse::<u16>()?)?;
        }
        let a = rule_number(check_scan(&scan, TxSize::TX_4X4, TX_CLASS_2D));
        let b = rule_number(check_scan(&scan, TxSize::TX_4X4, TX_CLASS_HORIZ));
        let c = rule_number(check_scan(&scan, TxSize::TX_4X4, TX_CLASS_VERT));
        let got = format!(in rt.alloc(); "{a} {b} {c}")?;
        assert_eq!(rt; got.as_str(), want, "{row}");
    }
    Ok(())
}

#[test]
fn diagonal_scans_break_no_rule_and_fewer_scans_break_one(rt: HostRuntime) -> Result<(), Fail> {
    let mut scans = diagonal(rt.alloc())?;
    assert_eq!(rt; check_scans(&scans), None);
    let _ = scans.scans.pop();
    assert_eq!(rt; check_scans(&scans), Some(Rule(4)));
    Ok(())
}
