// Two transform blocks beside one another, on a fresh encoder where all symbols are equally likely.
ghost use Rattle.std.specs.Prelude.{◌≡◌, ◌+◌, ◌^◌, ◌≤◌, None};
ghost use Rattle.av1_cdf.specs.Context.{AreCdfs};
ghost use Rattle.av1_coef.specs.Scans.{IsScan, scans_rules};
ghost use Rattle.av1_geometry.specs.Rules.{first_broken};
ghost use Rattle.av1_geometry.specs.BlockTables.{max_tx_size};
ghost use Rattle.av1_geometry.specs.TxTables.{class_of};

use crate::levels::{are_levels, has_type, put_levels};
use av1_coef::{Scan, Scans, diagonal, law_of_coded_sizes, law_of_scans};
use av1_ec::{Writer, WriterEncoder};
use av1_geometry::{
    BlockOffset, BlockSize, PredictionMode, TileBlockOffset, TxType, av1_get_coded_tx_size,
};
use av1_syntax::ContextWriter;
use av1_syntax_tests::fresh::fresh;
use std::alloc::Global;
use std::test::Fail;

// The number of a block's size, a plane, the types of both; the levels of both in the diagonal order; and the bits and bytes that
// rav1e's own call gives.
const ROWS: &str = "0 0 0 0;;;3 e0\n\
0 0 0 0;1;;11 1360\n\
0 0 11 0;3;7;25 39b68280\n\
0 0 3 3;1;5;20 499ad0\n\
0 2 7 4;0 9 -2 1 0 16 -2 -3 0 -7 1 0 -3 -2;-2 0 2 0 -3 -3 1048575 1 3 -10 15 7 1 3;188 7850ad90adcbf36cfad000877a8011468e441603581ce5d0\n\
1 0 11 9;3 0 3 0 -15 -2 -16 0 2;-16 1;79 438c392baa5bf47cf572\n\
1 0 0 3;;2 -12 7;30 a5e176c4\n\
1 1 3 1;-6 -13 -3 0 2;0 0 -2 0 -8 1 -2 3 0 2 0 -9 0 1 -11 -8 6 -3 -2 9 0 0 128 0 0 0 -1048575 2 8 10 9 2;240 425f61781d837cfeba831d66c19281e8f4a258cd2ed27f59574a04f03b5f\n\
2 0 0 0;1;;12 1330\n\
2 0 10 1;65535 -127 0 11 2 3 13 -3 -2 0 0 -5 1 0 1 -2 0 -3 -1 -2;3;157 34dee9bf3e6c7922adf9faef8517f6295ff81b98\n\
2 2 12 13;8 1 5 -14 -4 -5 0 0 13;1;64 58472b904d588657\n\
3 0 9 0;0 -1;;14 02fc\n\
3 0 10 9;3 1 12 0 5 0 3 0 6 -14 -2 1;3 0 3 1 0 -9 -8 -300 -128 0 2 -1 0 1;174 3084f697677f4e305f2dae5f9ffbf7b37ec36f28e36c\n\
3 1 8 9;0 0 3;-3 3;28 2b26a9f0\n\
4 0 1 3;-2 -1 -11 0 -1;16;50 627e2418144540\n\
4 0 3 3;0 2;0 -12;31 4c82fb8a\n\
4 2 13 15;0 0 0 0 1 3 0 0 2 -2 -6 4 0 0 -2 127 6 0 11 -3 1 0 12 0 15 7 2 -1 3 10;-15 0 14;183 5e1297fff6b4cc0a5469cb9e38c94e9f68e5f5f1f4a34a\n\
5 0 11 0;15;-6 -2;36 398898b550\n\
5 0 11 0;0 0 14 -1 3 -1 -13 1 2;3 0 -1 0 1;77 407bb94e0d11a4a46eb8\n\
5 1 13 11;-16;0 -14 2;39 1056d39d9a\n\
6 0 2 9;-15 -127 13 1 0 0 -127 0 -128 15 16 13 -2 -2;1 8 16 -3 -3 0 0 2 0 127 -6 -16 0 -4;250 73dc8e6c6fffc57291d5a67fd06899fd2cc96808d344f57f7e8d371040269240\n\
6 0 0 0;0 2 0 0 -3 0 -2 1 -5 0 -1 -3 0 2;2 3;67 2752e52f05b34f1360\n\
6 2 1 7;-15;-3;25 0e982380\n\
7 0 0 0;-16 15 0 -2 0 1 0 -2 1 -3 15 2 -1 -15;0 0 0 128 14 2 -2 2 -1;140 3d016650475327dfcbff16665e7256000570\n\
7 0 0 0;13 0 -4 -3 -300 9 -15 -16 3 -300 -2 -128 -2 -1;;155 3bd1a27ebcd9ff935cba1649810f9a7a844589a0\n\
7 1 13 14;-128 2;3 12 7;60 15d6f804c3c5f410\n\
8 0 0 0;0 0 -3 7 -1 0 3 -2 3 0 -1 -12 -1 -2 0 2 2 -3 -14 1 2 0 0 0 6 0 13 -5 2 2 0 3 4 2;-1 -11 10 0 2;180 4dc92e2c1aaa55f323a591cf260d2004c11114ee7811d0\n\
8 0 0 0;;-1;9 8180\n\
8 1 9 9;0 0 -2;1;20 1c42b0\n\
9 0 0 0;-14 15 0 -7 -2;-3;51 25326f8fd011a0\n\
9 0 0 0;-1;1;15 020e\n\
9 1 0 15;;;3 e0\n\
10 0 0 0;0 0 15 15 0 2 300 16 3 0 -2 2 -14 -13;-1;120 37948d7c6a59fef675f16d2ca601f7\n\
10 0 0 0;-4 3 0 2 2;3;34 24cc709e40\n\
11 0 0 0;3 3 -5 5 6;-3 0 2;50 2606ed517af040\n\
11 0 0 0;-3 -9 -2 10 -4;3 0 10 -2 127 -7 -4 -1 -2 0 -3 0 -10 6;129 25b9f7ceb1abdfc0fb6c21c2de037ff680\n\
12 0 0 0;-1 -1 -8 -16 4 3 -1 1 -1;-1 0 -1 0 0 0 0 0 1 0 0 -3 9 0 -10 13 0 12 -1;135 2f28b2ede5049d33b1fca048e4139b1486\n\
12 0 0 0;10 127;-5;47 17ce6b1c7dc6\n\
16 0 1 3;-16;3 -16 -14;56 5e439e1d930257\n\
16 0 9 0;-3;;14 0214\n\
16 1 4 1;-6;0 6 -10 -10 0 -1 0 16 0 -10 1 -2 -127 15;114 118c58f7e54a747ce3a1e829f4a0c0\n\
17 0 0 2;1;-12 -1 0 2 127 2 0 -2 -2 0 -1 -3 0 -1 127 -65535 15 3 0 0 3 -5 0 0 0 0 -7 0 0 0 1;206 1315a7b8539cc89c8fffeebaa625d85a196beb560ec864c7f9b4\n\
17 0 1 11;0 -3;-2;24 60078d\n\
17 1 6 6;-2 5 0 3 0 -1 -5 0 1;0 -1 -14 -14 -15 3 3 -1 0 -3 2 5 12 1;123 49962eb55aa5e52b3381607dc33f5c20\n\
18 0 0 0;-1;-1;14 0284\n\
18 0 0 0;-3 3;-3 1;27 1906f720\n\
18 1 7 5;-14 300 14 0 3 0 0 -11 0 0 -2 14 0 0 7 -65535 9 7 0 0 -12 0 14 -300 -1;;217 4ed010c9ad7ad6db59cbdd078d84f57bf93f8005d5c9c9f570aa8480\n\
19 0 0 0;0 2 0 0 -5;-11 128 -1 -1;64 2dfd101a7bf8f617\n\
19 0 0 0;2 0 9;2 0 -1 0 0 -2 0 0 -6 3 -1;60 23c17adb7c582230\n\
19 1 6 15;0 3 -13 0 -1 2 0 4 1 -8 -7 0 -2 3 1048575 0 0 -300 0 -2 0 -65535 1 1 -3;-300;241 4f2320648c1140223c5b3b6ed9dd863804003c5fd7ed1ec8000906b4320180\n\
20 0 0 0;2 6 5;6 3 0 16;54 1d0cbf156cb364\n\
20 0 0 0;3 -7;1 -15 2;40 1740a54411\n\
21 0 0 0;11;-13 9 2;42 0bf47b6c11c0\n\
21 0 0 0;0 1;0 12;27 0c266be0";

// Numbers between spaces.
fn numbers(alloc: Global, text: &str) -> Result<Vec<i32>, Fail> {
    let mut all = Vec::new(alloc);
    for word in text.split_whitespace() {
        all.push(word.parse::<i32>()?)?;
    }
    Ok(all)
}

// Codes a transform block at a column of the first row.
fn code_block<W: Writer>(
    cw: &mut ContextWriter,
    w: &mut W,
    scan: &Scan,
    x: usize,
    bsize: BlockSize,
    plane: usize,
    tx_type: TxType,
    levels: &[i32],
) -> Result<(), Fail>
    requires order { IsScan (max_tx_size bsize) (class_of tx_type) scan.now }
    requires cdfs { AreCdfs cw.old.fc }
    requires early { (W.position w.old).shift ≤ 2 ^ 28 }
    ensures cdfs { AreCdfs cw.new.fc }
    ensures near { (W.position w.new).shift ≤ (W.position w.old).shift + 2 ^ 20 }
{
    let tx_size = bsize.tx_size();
    if plane > 2 || x > 16 || !are_levels(levels, av1_get_coded_tx_size(tx_size).area()) {
        return Err(Fail::from("no such block"));
    }
    if !has_type(plane, tx_size, levels.len(), tx_type) {
        return Err(Fail::from("no such type"));
    }
    law_of_coded_sizes();
    let mut coeffs = [0i32; 1024];
    put_levels(
        levels,
        &scan.positions,
        tx_size,
        tx_type.class(),
        &mut coeffs,
    );
    cw.write_coeffs_lv_map(
        w,
        plane,
        TileBlockOffset(BlockOffset { x, y: 0 }),
        &coeffs,
        levels.len() as u16,
        PredictionMode::DC_PRED,
        tx_size,
        tx_type,
        scan,
        bsize,
        0,
        0,
        false,
        tx_size.width(),
        tx_size.height(),
    )?;
    Ok(())
}

// The scan of a block's transform.
fn scan_of(scans: &Scans, bsize: BlockSize, tx_type: TxType) -> &Scan
    requires { first_broken (scans_rules scans.now) ≡ None }
    ensures { IsScan (max_tx_size bsize) (class_of tx_type) result.now }
{
    law_of_scans();
    scans.scan(bsize.tx_size(), tx_type.class())
}

// Codes two blocks beside one another.
fn code_both<W: Writer>(
    cw: &mut ContextWriter,
    w: &mut W,
    scans: &Scans,
    row: [usize; 4],
    first: &[i32],
    second: &[i32],
) -> Result<(), Fail>
    requires scans { first_broken (scans_rules scans.now) ≡ None }
    requires cdfs { AreCdfs cw.old.fc }
    requires early { (W.position w.old).shift ≤ 2 ^ 20 }
{
    let bsize = BlockSize::from_number(row[0]).ok_or("no size")?;
    let tx_type = TxType::from_number(row[2]).ok_or("no type")?;
    let scan = scan_of(scans, bsize, tx_type);
    code_block(cw, w, scan, 0, bsize, row[1], tx_type, first)?;
    let tx_type = TxType::from_number(row[3]).ok_or("no type")?;
    let scan = scan_of(scans, bsize, tx_type);
    let x = bsize.width_mi();
    code_block(cw, w, scan, x, bsize, row[1], tx_type, second)
}

// The bits and bytes of a row's two blocks.
fn answer(alloc: Global, row: &[i32], first: &[i32], second: &[i32]) -> Result<String, Fail> {
    if row.len() != 4 {
        return Err(Fail::from("no row"));
    }
    let row = [
        row[0].unsigned_abs() as usize,
        row[1].unsigned_abs() as usize,
        row[2].unsigned_abs() as usize,
        row[3].unsigned_abs() as usize,
    ];
    let scans = diagonal(alloc)?;
    let mut cw = fresh(alloc, 32, 16)?;
    let mut w = WriterEncoder::new(alloc);
    code_both(&mut cw, &mut w, &scans, row, first, second)?;
    let bits = w.tell();
    let bytes = w.done()?;
    let text = hex::encode(alloc, &bytes)?;
    Ok(format!(in alloc; "{bits} {text}")?)
}

#[test]
fn blocks_have_the_bytes_of_rav1e(rt: HostRuntime) -> Result<(), Fail> {
    for row in ROWS.lines() {
        let (question, rest) = row.split_once(';').ok_or("no levels")?;
        let (first, rest) = rest.split_once(';').ok_or("no levels")?;
        let (second, want) = rest.split_once(';').ok_or("no answer")?;
        let row = numbers(rt.alloc(), question)?;
        let first = numbers(rt.alloc(), first)?;
        let second = numbers(rt.alloc(), second)?;
        let got = answer(rt.alloc(), &row, &first, &second)?;
        assert_eq!(rt; got.as_str(), want, "{question}");
    }
    Ok(())
}
