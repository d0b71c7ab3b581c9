// The steps of transform blocks: their coefficients.
ghost use Rattle.std.specs.Prelude.{◌≡◌, ℕ, ◌+◌, ◌-◌, ◌*◌, ◌/◌, min, ◌%◌, ◌^◌, ◌<◌, ◌≤◌, ◌&&◌, ◌==◌, nat_lt};
ghost use Rattle.std.specs.Prelude.{true, false, Some, None, IfSome, length, pos, slice_index_or, unsigned_abs};
ghost use Rattle.std.specs.List.{list_all};
ghost use Rattle.av1_coef.specs.Contexts.{coded_area};
ghost use Rattle.av1_coef.specs.Scans.{each_once, is_in};
ghost use Rattle.av1_geometry.specs.TxSize.{tx_width_log2, tx_height_log2};
ghost use Rattle.std.specs.Prelude.{take};
ghost use Rattle.av1_syntax.specs.Coefficients.{levels_at, value_at};
ghost use Rattle.av1_step.specs.CoeffSteps.{are_levels, ends_in_some, has_coeffs, has_type, is_transform, is_whole_steps, size_in, tx_in, xdec_in, ydec_in};
ghost use Rattle.av1_step.specs.CoeffSteps.{columns_inside, rows_inside, coeffs_asking, coeffs_answering, transform_of};
ghost use Rattle.av1_step.specs.Kept.{IsTransform};

use crate::Levels;
use crate::tile::TileState;
use av1_ec::Writer;
use av1_geometry::{
    BlockOffset, BlockSize, MAX_CODED_TX_SQUARE, OutOfMemory, PredictionMode, Rule,
    TileBlockOffset, TxSize, TxType, av1_get_coded_tx_size, get_tx_set,
};

// What a call that writes coefficients is given of a transform block.
#[derive(Clone, Copy)]
pub(crate) struct TransformBlock {
    pub tx_size: TxSize,

    // The size of its block in the plane.
    pub plane_bsize: BlockSize,

    // The luma mode of the block.
    pub mode: PredictionMode,

    // How often the sides of the plane are halved.
    pub xdec: usize,
    pub ydec: usize,

    // So many of its columns and rows of samples are inside the frame.
    pub width: usize,
    pub height: usize,
}

impl<'u> TileState<'u> {
    ghost use Rattle.av1_geometry.specs.declared.block_offset.BlockOffset.{BlockOffset};
    ghost use Rattle.std.specs.Prelude.{◌++◌};
    ghost use Rattle.av1_geometry.specs.Rules.{first_broken};
    ghost use Rattle.av1_step.specs.declared.step.TileStep.TheVariants.{Coeffs};
    ghost use Rattle.av1_step.specs.State.{tile_of};
    ghost use Rattle.av1_step.specs.Step.{rules};
    ghost use Rattle.av1_step.specs.Tile.{is_inside, sampling};
    ghost use Rattle.av1_step.specs.Writing.{Writes};

    // How often the sides of a plane are halved.
    fn xdec(&self, plane: usize) -> usize
        ensures value { result ≡ xdec_in (tile_of self.now) plane }
        ensures few { result ≤ 1 }
    {
        if plane == 0 {
            0
        } else {
            self.unit.fi.sequence.chroma_sampling.xdec()
        }
    }

    fn ydec(&self, plane: usize) -> usize
        ensures value { result ≡ ydec_in (tile_of self.now) plane }
        ensures few { result ≤ 1 }
    {
        if plane == 0 {
            0
        } else {
            self.unit.fi.sequence.chroma_sampling.ydec()
        }
    }

    // The size of a block in a plane.
    fn size_in(&self, plane: usize, size: BlockSize) -> BlockSize
        ensures { result ≡ size_in (tile_of self.now) plane size }
    {
        let sampling = self.unit.fi.sequence.chroma_sampling;
        if plane == 0 {
            size
        } else {
            size.subsampled_size(sampling.xdec(), sampling.ydec())
                .unwrap_or(size)
        }
    }

    // The size of a block's transforms in a plane.
    fn tx_in(&self, plane: usize, b: (TileBlockOffset, BlockSize)) -> TxSize
        requires { (tile_of self.now).current ≡ Some b }
        ensures { result ≡ tx_in (tile_of self.now) plane b }
    {
        let (bo, size) = b;
        if plane == 0 {
            self.cw.bc.blocks[bo].txsize
        } else {
            av1_get_coded_tx_size(self.size_in(plane, size).tx_size())
        }
    }

    // Whether a block has coefficients in a plane.
    fn has_coeffs(&self, plane: usize, b: (TileBlockOffset, BlockSize)) -> bool
        requires { (tile_of self.now).current ≡ Some b }
        ensures { result ≡ has_coeffs (tile_of self.now) b plane }
    {
        let planes = self.unit.fi.sequence.chroma_sampling.planes();
        plane < planes && (plane == 0 || self.has_chroma(b)) && !self.cw.bc.blocks[b.0].skip
    }

    // Whether a transform block of a block in a plane stands at a place.
    fn is_transform(
        &self,
        plane: usize,
        b: (TileBlockOffset, BlockSize),
        place: BlockOffset,
    ) -> bool
        requires { (tile_of self.now).current ≡ Some b }
        ensures { result ≡ is_transform (tile_of self.now) b plane place }
    {
        let (bo, size) = b;
        let size = self.size_in(plane, size);
        let tx = self.tx_in(plane, b);
        let (xdec, ydec) = (self.xdec(plane), self.ydec(plane));
        let width = in_luma(size.width_mi(), xdec);
        let height = in_luma(size.height_mi(), ydec);
        let across = in_luma(tx.width_mi(), xdec);
        let down = in_luma(tx.height_mi(), ydec);
        is_whole_steps(bo.0.x, width, across, place.x)
            && is_whole_steps(bo.0.y, height, down, place.y)
    }

    // The first rule that coefficients break.
    pub(crate) fn check_coeffs(
        &self,
        plane: usize,
        x: usize,
        y: usize,
        tx_type: TxType,
        levels: &Levels,
    ) -> Option<Rule>
        ensures { result ≡ first_broken (rules (Coeffs plane x y tx_type levels.now) (tile_of self.now)) }
    {
        self.broken_coeffs(plane, BlockOffset { x, y }, tx_type, &levels.levels)
    }

    fn broken_coeffs(
        &self,
        plane: usize,
        place: BlockOffset,
        tx_type: TxType,
        levels: &[i32],
    ) -> Option<Rule>
        ensures { let t = tile_of self.now in
            result ≡ first_broken (coeffs_asking t t.current plane place ++ coeffs_answering t t.current plane tx_type levels.now) }
    {
        if let Some(rule) = self.outside(place) {
            return Some(rule);
        }
        let Some(b) = self.current else {
            return Some(Rule(64));
        };
        if !(self.has_coeffs(plane, b) && self.is_transform(plane, b, place)) {
            return Some(Rule(83));
        }
        let tx = self.tx_in(plane, b);
        if !are_levels(av1_get_coded_tx_size(tx).area(), levels) {
            return Some(Rule(84));
        }
        let reduced = self.unit.fi.use_reduced_tx_set;
        if plane != 0 || has_type(tx, self.mode_at(b), reduced, tx_type, levels) {
            None
        } else {
            Some(Rule(85))
        }
    }

    // So many columns of samples of a transform block are inside the frame: no tile ends within a superblock but at the frame's end.
    fn columns_inside(&self, plane: usize, place: BlockOffset, tx: TxSize) -> usize
        requires inside { is_inside (tile_of self.now) place ≡ true }
        requires transform { IsTransform (sampling (tile_of self.now)) plane place tx }
        ensures { result ≡ columns_inside (tile_of self.now) plane place tx }
    {
        let cols = self.cw.bc.blocks.cols();
        samples_inside(tx.width(), cols, place.x, self.xdec(plane))
    }

    fn rows_inside(&self, plane: usize, place: BlockOffset, tx: TxSize) -> usize
        requires inside { is_inside (tile_of self.now) place ≡ true }
        requires transform { IsTransform (sampling (tile_of self.now)) plane place tx }
        ensures { result ≡ rows_inside (tile_of self.now) plane place tx }
    {
        let rows = self.cw.bc.blocks.rows();
        samples_inside(tx.height(), rows, place.y, self.ydec(plane))
    }

    // The transform block of a block in a plane that stands at a place.
    fn transform(
        &self,
        plane: usize,
        place: BlockOffset,
        b: (TileBlockOffset, BlockSize),
    ) -> TransformBlock
        requires current { (tile_of self.now).current ≡ Some b }
        requires inside { is_inside (tile_of self.now) place ≡ true }
        requires transform { IsTransform (sampling (tile_of self.now)) plane place (tx_in (tile_of self.now) plane b) }
        ensures { result ≡ transform_of (tile_of self.now) b plane place }
    {
        let tx_size = self.tx_in(plane, b);
        TransformBlock {
            tx_size,
            plane_bsize: self.size_in(plane, b.1),
            mode: self.mode_at(b),
            xdec: self.xdec(plane),
            ydec: self.ydec(plane),
            width: self.columns_inside(plane, place, tx_size),
            height: self.rows_inside(plane, place, tx_size),
        }
    }

    // Codes the coefficients of a transform block of the current block, laid out in the smallest of three arrays that has room for
    // them: most blocks are small, and an array has to be cleared.
    pub(crate) fn write_coeffs<W: Writer>(
        &mut self,
        w: &mut W,
        plane: usize,
        x: usize,
        y: usize,
        tx_type: TxType,
        levels: &Levels,
    ) -> Result<(), OutOfMemory>
        requires rules { first_broken (rules (Coeffs plane x y tx_type levels.now) (tile_of self.old)) ≡ None }
        requires early { (W.position w.old).shift ≤ 2 ^ 28 }
        ensures { Writes W.Known result (Coeffs plane x y tx_type levels.now) w.old w.new self.old self.new }
    {
        let b = self.current.unwrap();
        let area = av1_get_coded_tx_size(self.tx_in(plane, b)).area();
        if area <= 64 {
            self.write_laid_out(w, plane, x, y, tx_type, levels, &mut [0; 64])
        } else if area <= 256 {
            self.write_laid_out(w, plane, x, y, tx_type, levels, &mut [0; 256])
        } else {
            let coeffs = &mut [0; MAX_CODED_TX_SQUARE];
            self.write_laid_out(w, plane, x, y, tx_type, levels, coeffs)
        }
    }

    // Codes them, laid out by position in an array that holds nothing before.
    fn write_laid_out<W: Writer>(
        &mut self,
        w: &mut W,
        plane: usize,
        x: usize,
        y: usize,
        tx_type: TxType,
        levels: &Levels,
        coeffs: &mut [i32],
    ) -> Result<(), OutOfMemory>
        requires rules { first_broken (rules (Coeffs plane x y tx_type levels.now) (tile_of self.old)) ≡ None }
        requires early { (W.position w.old).shift ≤ 2 ^ 28 }
        requires room { IfSome (tile_of self.old).current (λ b. coded_area (tx_in (tile_of self.old) plane b) ≤ length coeffs.old) }
        requires zeros { (p : ℕ) → value_at coeffs.old p ≡ pos 0 }
        ensures { Writes W.Known result (Coeffs plane x y tx_type levels.now) w.old w.new self.old self.new }
    {
        let b = self.current.unwrap();
        let place = BlockOffset { x, y };
        let of = self.transform(plane, place, b);
        let unit = self.unit;
        let scan = unit.scans.scan(of.tx_size, tx_type.class());
        lay_out(&levels.levels, &scan.positions, coeffs);
        self.cw.write_coeffs_lv_map(
            w,
            plane,
            TileBlockOffset(place),
            coeffs,
            levels.levels.len() as u16,
            of.mode,
            of.tx_size,
            tx_type,
            scan,
            of.plane_bsize,
            of.xdec,
            of.ydec,
            unit.fi.use_reduced_tx_set,
            of.width,
            of.height,
        )?;
        Ok(())
    }
}

// So many blocks of luma are as long as these of a plane whose sides are halved so often.
fn in_luma(side: usize, halvings: usize) -> usize
    requires side { side ≤ 32 }
    requires halvings { halvings ≤ 1 }
    ensures value { result ≡ side * 2 ^ halvings }
    ensures some { side ≤ result }
{
    if halvings == 0 { side } else { 2 * side }
}

// So many of the samples along a side of a transform block are before the end of the tile, whose side has so many blocks of luma.
fn samples_inside(samples: usize, side: usize, at: usize, halvings: usize) -> usize
    requires side { side ≤ 16384 }
    requires at { at < side }
    ensures whole { halvings ≡ 0 → result ≡ min samples (4 * (side - at)) }
    ensures half { 1 ≤ halvings → result ≡ min samples (4 * (side / 2 - at / 2)) }
{
    let left = if halvings == 0 {
        side - at
    } else {
        side / 2 - at / 2
    };
    samples.min(4 * left)
}

// Whether a place along a side is whole steps behind the beginning of a block, and within the block.
fn is_whole_steps(begin: usize, side: usize, step: usize, at: usize) -> bool
    requires { 0 < step }
    ensures { result ≡ is_whole_steps begin side step at }
{
    begin <= at && at - begin < side && (at - begin) % step == 0
}

// Whether the last of levels is not 0.
fn ends_in_some(levels: &[i32]) -> bool
    ensures { result ≡ ends_in_some levels.now }
{
    levels.is_empty() || levels[levels.len() - 1].unsigned_abs() > 0
}

// Whether levels are of sizes below 2^20.
fn are_small(levels: &[i32]) -> bool
    ensures { result ≡ list_all (λ level. nat_lt (unsigned_abs level) (2 ^ 20)) levels.now }
{
    levels.iter().all(|level| level.unsigned_abs() < 1 << 20)
}

// Whether there are no more levels than are coded, of sizes below 2^20, the last of which is not 0.
fn are_levels(most: usize, levels: &[i32]) -> bool
    ensures { result ≡ are_levels most levels.now }
{
    levels.len() <= most && are_small(levels) && ends_in_some(levels)
}

// Whether a luma transform with levels may have a type.
fn has_type(
    size: TxSize,
    mode: PredictionMode,
    reduced: bool,
    tx_type: TxType,
    levels: &[i32],
) -> bool
    ensures { result ≡ has_type size mode reduced tx_type levels.now }
{
    if levels.is_empty() {
        tx_type.number() == 0
    } else {
        get_tx_set(size, mode.number() >= 14, reduced).uses(tx_type)
    }
}

// Puts the levels at the first positions of a scan: the coefficients by position, of which all others are 0.
fn lay_out(levels: &[i32], scan: &[u16], coeffs: &mut [i32])
    requires once { each_once (length coeffs.old) scan.now ≡ true }
    requires few { length levels.now ≤ length scan.now }
    requires small { (k : ℕ) → k < length levels.now → unsigned_abs (slice_index_or levels.now k (pos 0)) < 2 ^ 20 }
    requires zeros { (p : ℕ) → value_at coeffs.old p ≡ pos 0 }
    ensures long { length coeffs.new ≡ length coeffs.old }
    ensures levels_are { levels_at coeffs.new scan.now (length levels.now) ≡ levels.now }
    ensures none { (p : ℕ) → is_in (take (length levels.now) scan.now) p ≡ false → value_at coeffs.new p ≡ pos 0 }
{
    for i in 0..levels.len() {
        coeffs[usize::from(scan[i])] = levels[i];
    }
}
