// Random calls in a tile of a frame, in all four samplings, with what rav1e's own calls answer.
ghost use Rattle.std.specs.Prelude.{◌≡◌};

use av1_blocks::{BlockContext, BlockContextCheckpoint, FrameBlocks, TileBlocksMut};
use av1_geometry::{
    BlockOffset, BlockSize, ChromaSampling, PredictionMode, TileBlockOffset, TxSize,
};
use std::alloc::Global;
use std::test::Fail;

// The edges that a script works on, with the sampling and the checkpoint to go back to.
#[derive(Drop)]
struct Play {
    bc: BlockContext,
    cs: ChromaSampling,
    checkpoint: BlockContextCheckpoint,
}

fn begin(alloc: Global, sampling: usize) -> Result<Play, Fail> {
    let frame = FrameBlocks::new(alloc, 24, 20)?;
    let bc = BlockContext::new(TileBlocksMut::new(frame, 4, 2, 20, 18));
    let cs = ChromaSampling::from_number(sampling).ok_or("sampling")?;
    let checkpoint = bc.checkpoint(&place(0, 0), cs);
    Ok(Play { bc, cs, checkpoint })
}

fn place(x: usize, y: usize) -> TileBlockOffset
    ensures { result ≡ record { 0 = record { x = x; y = y } } }
{
    TileBlockOffset(BlockOffset { x, y })
}

fn size(number: usize) -> Result<BlockSize, Fail> {
    Ok(BlockSize::from_number(number).ok_or("size")?)
}

fn tx(number: usize) -> Result<TxSize, Fail> {
    Ok(TxSize::from_number(number).ok_or("transform")?)
}

fn digest_of(digest: u64, edge: &[u8]) -> u64 {
    let mut digest = digest;
    for number in edge {
        digest = (digest % 1_000_003 * 31 + *number as u64) % 1_000_003;
    }
    digest
}

// All edges in one number.
fn digest(bc: &BlockContext) -> usize {
    let mut digest = u64::from(bc.cdef_coded);
    digest = digest_of(digest, &bc.above_partition_context[..16]);
    digest = digest_of(digest, &bc.left_partition_context);
    digest = digest_of(digest, &bc.above_tx_context[..32]);
    digest = digest_of(digest, &bc.left_tx_context);
    for plane in 0..3 {
        let above = &bc.above_coeff_context[plane];
        digest = digest_of(digest, &above[..32]);
        let left = &bc.left_coeff_context[plane];
        digest = digest_of(digest, left);
    }
    digest as usize
}

// Partitions.
fn partitions(play: &mut Play, n: &[usize; 9]) -> Result<usize, Fail> {
    let (x, y) = (n[1], n[2]);
    if n[0] == 0 {
        let bsize = size(n[4])?;
        if x >= 1024 || x + bsize.width_mi() > 1024 || y % 16 + bsize.height_mi() > 16 {
            return Err("place".into());
        }
        play.bc
            .update_partition_context(place(x, y), size(n[3])?, bsize);
        return Ok(0);
    }
    let bsize = size(n[3])?;
    if x >= 1024 || bsize.width_log2() != bsize.height_log2() || bsize.width_log2() < 3 {
        return Err("size".into());
    }
    Ok(play.bc.partition_plane_context(place(x, y), bsize))
}

// Transforms' sides, and blocks without coefficients.
fn sides(play: &mut Play, n: &[usize; 9]) -> Result<usize, Fail> {
    let (x, y) = (n[1], n[2]);
    let bsize = size(n[3])?;
    if x >= 1024 || x + bsize.width_mi() > 1024 || y % 16 + bsize.height_mi() > 16 {
        return Err("place".into());
    }
    if n[0] == 2 {
        play.bc
            .update_tx_size_context(place(x, y), bsize, tx(n[4])?, n[5] == 1);
    } else {
        let cs = play.cs;
        play.bc
            .reset_skip_context(place(x, y), bsize, cs.xdec(), cs.ydec(), cs);
    }
    Ok(0)
}

// Coefficients.
fn coefficients(play: &mut Play, n: &[usize; 9]) -> Result<usize, Fail> {
    let (plane, x, y) = (n[1], n[2], n[3]);
    let (xdec, ydec) = if plane == 0 {
        (0, 0)
    } else {
        (play.cs.xdec(), play.cs.ydec())
    };
    if plane >= 3 || x >= 512 || xdec > 1 || ydec > 1 {
        return Err("plane".into());
    }
    if n[0] == 4 {
        let tx_size = tx(n[4])?;
        if (y % 16 >> ydec) + tx_size.height_mi() > 16 || n[5] > 255 {
            return Err("rows".into());
        }
        play.bc
            .set_coeff_context(plane, place(x, y), tx_size, xdec, ydec, n[5] as u8);
        return Ok(0);
    }
    let (width, height) = (n[6], n[7]);
    if width > 64 || height > 64 || (y % 16 >> ydec) + height / 4 > 16 {
        return Err("samples".into());
    }
    let ctx = play.bc.get_txb_ctx(
        size(n[4])?,
        tx(n[5])?,
        plane,
        place(x, y),
        xdec,
        ydec,
        width,
        height,
    );
    Ok(ctx.txb_skip_ctx * 3 + ctx.dc_sign_ctx)
}

// The grid.
fn grid(play: &mut Play, n: &[usize; 9]) -> Result<usize, Fail> {
    let (x, y) = (n[1], n[2]);
    if x >= play.bc.blocks.cols() || y >= play.bc.blocks.rows() {
        return Err("place".into());
    }
    match n[0] {
        6 => play.bc.blocks.set_skip(place(x, y), size(n[3])?, n[4] == 1),
        7 => return Ok(play.bc.skip_context(place(x, y))),
        8 => {
            let mode = PredictionMode::from_number(n[4]).ok_or("mode")?;
            play.bc.blocks.set_mode(place(x, y), size(n[3])?, mode);
        }
        _ => return Ok(play.bc.intra_inter_context(place(x, y))),
    }
    Ok(0)
}

// Calls on all edges.
fn edges(play: &mut Play, n: &[usize; 9]) -> Result<usize, Fail> {
    match n[0] {
        10 if n[1] <= 3 => play.bc.reset_left_contexts(n[1]),
        11 => play.checkpoint = play.bc.checkpoint(&place(n[1], n[2]), play.cs),
        12 => play.bc.rollback(&play.checkpoint),
        _ => return Ok(digest(&play.bc)),
    }
    Ok(0)
}

fn answer(play: &mut Play, n: &[usize; 9]) -> Result<usize, Fail> {
    match n[0] {
        0 | 1 => partitions(play, n),
        2 | 3 => sides(play, n),
        4 | 5 => coefficients(play, n),
        6..=9 => grid(play, n),
        _ => edges(play, n),
    }
}

// The numbers of a row, and how many there are.
fn numbers(row: &str) -> Result<([usize; 9], usize), Fail> {
    let mut numbers = [0; 9];
    let mut count = 0;
    for word in row.split(' ') {
        if count < 9 {
            numbers[count] = word.parse::<usize>()?;
            count += 1;
        }
    }
    Ok((numbers, count))
}

#[test]
fn calls_answer_as_those_of_rav1e(rt: HostRuntime) -> Result<(), Fail> {
    let mut play = begin(rt.alloc(), 0)?;
    for row in ROWS.lines() {
        let (n, count) = numbers(row)?;
        if n[0] == 20 {
            play = begin(rt.alloc(), n[1])?;
        } else {
            let told = match n[0] {
                1 | 5 | 7 | 9 | 13 if 0 < count && count <= 9 => n[count - 1],
                _ => 0,
            };
            assert_eq!(rt; answer(&mut play, &n)?, told, "{row}");
        }
    }
    Ok(())
}

// A row is the number of a call with its arguments, and what it tells: 20 begins a tile in a sampling.
const ROWS: &str = "20 0
6 10 10 3 0
1 8 0 12 12
8 2 0 18 4
4 0 16 4 14 127
4 0 2 8 2 128
4 2 0 0 0 131
1 1 11 3 0
6 16 0 12 0
13 946220
5 0 8 8 2 6 8 4 2
3 0 4 8
5 0 10 0 18 15 8 28 0
6 18 16 2 0
1 0 2 12 12
3 8 10 17
4 0 0 11 8 132
7 10 8 0
9 10 8 3
6 8 12 8 1
8 0 4 21 21
0 0 0 8 12
1 4 12 12 15
13 604001
0 0 16 11 3
7 0 16 0
9 0 16 2
1 0 4 3 0
4 1 4 8 14 63
4 0 6 8 1 127
8 12 5 17 12
3 4 8 7
6 12 0 20 0
5 2 4 12 0 8 12 4 21
1 12 0 12 15
3 12 2 5
13 981836
20 1
5 0 19 8 1 1 4 8 3
1 10 14 12 12
11 16 0
5 1 16 4 19 16 8 8 21
1 10 4 6 4
11 17 10
5 2 18 11 2 13 4 16 21
6 0 0 4 0
1 8 16 9 8
0 18 0 4 3
8 16 8 11 19
4 2 8 0 14 1
6 16 11 0 1
11 0 16
12
13 742854
5 1 8 8 18 8 16 8 30
1 4 12 3 0
4 2 0 16 9 4
5 0 0 16 5 11 24 36 3
8 0 8 9 6
2 16 0 8 3 1
8 12 0 7 29
7 4 13 0
9 4 13 3
6 0 16 20 0
5 1 0 8 3 1 4 8 21
5 2 5 6 1 5 4 4 27
4 0 0 16 14 63
13 257246
6 9 4 16 0
11 18 12
7 16 0 0
9 16 0 0
13 257246
13 257246
5 2 12 16 5 0 4 4 36
7 8 10 0
9 8 10 3
13 257246
6 0 0 10 1
13 257246
20 2
4 1 1 0 1 4
5 2 16 0 11 12 48 16 21
3 10 8 1
2 16 16 19 6 0
7 7 2 0
9 7 2 3
13 620007
6 0 8 17 1
0 16 0 12 12
7 8 12 0
9 8 12 3
0 14 6 12 3
13 860120
13 860120
13 860120
3 8 0 10
11 0 4
4 1 4 4 9 4
6 16 8 6 1
5 0 18 0 20 17 4 36 0
8 0 14 5 18
10 3
1 2 5 3 0
3 0 8 16
5 2 12 1 4 7 8 12 21
6 16 8 7 0
5 0 12 12 6 5 4 4 3
13 727344
4 0 12 1 15 1
12
13 253572
4 0 8 16 16 131
8 6 8 18 16
6 0 0 12 1
2 17 2 1 4 1
7 0 12 1
9 0 12 2
6 9 4 16 0
3 0 10 17
5 2 0 4 8 10 12 12 21
0 0 16 5 9
7 0 2 1
9 0 2 2
5 0 8 8 19 6 4 4 8
5 0 0 0 11 4 32 24 8
5 0 0 11 17 18 60 16 8
13 164370
20 3
1 18 14 6 4
2 0 8 11 11 1
6 12 0 7 1
8 6 0 18 22
4 0 16 9 7 1
7 8 2 0
9 8 2 1
6 4 16 3 0
1 4 11 12 12
7 0 16 0
9 0 16 2
7 12 2 1
9 12 2 3
1 16 0 3 0
5 0 4 4 17 16 28 4 3
4 0 0 8 3 3
10 1
7 8 0 0
9 8 0 0
7 0 0 0
9 0 0 0
6 0 8 18 1
7 4 0 0
9 4 0 2
4 0 16 11 2 127
8 6 8 18 28
8 0 12 6 2
7 14 0 1
9 14 0 2
3 0 0 12
1 6 0 6 4
2 0 0 7 1 0
13 70149
4 0 4 0 3 68
5 0 0 8 9 2 12 16 3
1 8 8 12 12
2 0 8 9 13 0
7 16 10 0
9 16 10 3
7 4 1 0
9 4 1 3
7 6 15 0
9 6 15 1
3 8 12 8
10 1
6 0 4 17 1
1 8 0 12 12
5 0 8 12 1 5 4 4 0
2 0 0 10 7 1
5 0 0 0 10 12 32 4 10
13 659635";
