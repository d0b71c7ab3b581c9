// The neighbours of a block that are visited for candidates, near ones and those further out.
ghost use Rattle.std.specs.Prelude.{◌≡◌, ◌+◌, ◌-◌, ◌/◌, ◌%◌, ◌^◌, ◌<◌, ◌≤◌, ◌||◌, length, [], ◌∷◌};
ghost use Rattle.av1_geometry.specs.BlockSize.{width_mi};
ghost use Rattle.av1_blocks.specs.Grid.{IsInside};
ghost use Rattle.av1_blocks.specs.Sound.{IsReady};
ghost use Rattle.av1_mvref.specs.declared.edge.Direction.TheVariants.{Upper, Left};
ghost use Rattle.av1_mvref.specs.Neighbours.{edge, second, near_done, second_done, done_after, line_after};
ghost use Rattle.av1_mvref.specs.Neighbours.{around, corner, top_right, top_left, near_neighbours, far_neighbours};
ghost use Rattle.av1_mvref.specs.Candidates.{matches_of, sides, either, mode_context};
ghost use Rattle.av1_mvref.specs.Noted.{took_all, heaviest};
ghost use Rattle.av1_mvref.specs.Conditions.{IsAligned};

use crate::candidate::{CandidateMV, Wanted};
use crate::edge::{BlockEdge, Direction};
use crate::scan::{is_new, scan_line_after};
use crate::stack::add_ref_mv_candidate;
use arrayvec::ArrayVec;
use av1_blocks::TileBlocks;
use av1_geometry::{BlockOffset, BlockSize, TileBlockOffset};

// On which sides neighbours give something, and whether one that does has a new vector.
#[derive(Clone, Copy)]
pub(crate) struct Matches {
    pub above: bool,
    pub left: bool,
    pub new: bool,
}

impl Matches {
    const NONE: Matches = Matches {
        above: false,
        left: false,
        new: false,
    };

    // What two groups of neighbours give.
    fn or(self, other: Matches) -> Matches
        ensures { result ≡ either self other }
    {
        Matches {
            above: self.above || other.above,
            left: self.left || other.left,
            new: self.new || other.new,
        }
    }

    fn sides(self) -> usize
        ensures value { result ≡ sides self }
        ensures bound { result ≤ 2 }
    {
        usize::from(self.above) + usize::from(self.left)
    }
}

// The context of a mode, by the near neighbours and those further out.
pub(crate) fn mode_context(near: Matches, far: Matches) -> usize
    ensures value { result ≡ mode_context near (either near far) }
    ensures low { result % 16 ≤ 5 }
    ensures high { result / 16 ≤ 5 }
{
    let all = near.or(far).sides();
    let new = usize::from(near.new);
    match near.sides() {
        0 => all.min(1) + 16 * all,
        1 => 3 - new + 16 * (2 + all),
        _ => 5 - new + 16 * 5,
    }
}

// Takes what a neighbour at a corner gives.
fn visit_corner(
    blocks: &TileBlocks<'_>,
    x: usize,
    y: usize,
    wanted: Wanted,
    stack: &mut ArrayVec<CandidateMV, 9>,
) -> Matches
    requires inside { IsInside blocks.now record { x = x; y = y } }
    requires few { length stack.old.items ≤ 8 }
    requires light { heaviest stack.old.items + 8 < 2 ^ 32 }
    ensures items { stack.new.items ≡ took_all wanted stack.old.items (corner blocks.now x y ∷ []) }
    ensures found { result ≡ matches_of wanted (corner blocks.now x y ∷ []) }
    ensures few { length stack.new.items ≤ 8 }
    ensures light { heaviest stack.new.items ≤ heaviest stack.old.items + 8 }
{
    let block = blocks.at(TileBlockOffset(BlockOffset { x, y }));
    let above = add_ref_mv_candidate(wanted, block, 4, stack);
    Matches {
        above,
        left: false,
        new: is_new(above, block),
    }
}

// Takes what the top right neighbour gives, where it is coded before the block.
fn scan_top_right(
    blocks: &TileBlocks<'_>,
    bo: TileBlockOffset,
    bsize: BlockSize,
    has_tr: bool,
    wanted: Wanted,
    stack: &mut ArrayVec<CandidateMV, 9>,
) -> Matches
    requires inside { IsInside blocks.now bo.0 }
    requires few { length stack.old.items ≤ 8 }
    requires light { heaviest stack.old.items + 8 < 2 ^ 32 }
    ensures items { stack.new.items ≡ took_all wanted stack.old.items (top_right blocks.now bo.0 bsize has_tr) }
    ensures found { result ≡ matches_of wanted (top_right blocks.now bo.0 bsize has_tr) }
    ensures few { length stack.new.items ≤ 8 }
    ensures light { heaviest stack.new.items ≤ heaviest stack.old.items + 8 }
{
    let width = bsize.width_mi();
    if has_tr && bo.0.y > 0 && width < blocks.cols() - bo.0.x {
        visit_corner(blocks, bo.0.x + width, bo.0.y - 1, wanted, stack)
    } else {
        Matches::NONE
    }
}

// Takes what the top left neighbour gives.
fn scan_top_left(
    blocks: &TileBlocks<'_>,
    bo: TileBlockOffset,
    wanted: Wanted,
    stack: &mut ArrayVec<CandidateMV, 9>,
) -> Matches
    requires inside { IsInside blocks.now bo.0 }
    requires few { length stack.old.items ≤ 8 }
    requires light { heaviest stack.old.items + 8 < 2 ^ 32 }
    ensures items { stack.new.items ≡ took_all wanted stack.old.items (top_left blocks.now bo.0) }
    ensures found { result ≡ matches_of wanted (top_left blocks.now bo.0) }
    ensures few { length stack.new.items ≤ 8 }
    ensures light { heaviest stack.new.items ≤ heaviest stack.old.items + 8 }
{
    if bo.0.x > 0 && bo.0.y > 0 {
        visit_corner(blocks, bo.0.x - 1, bo.0.y - 1, wanted, stack)
    } else {
        Matches::NONE
    }
}

// The lines that are done along both edges.
#[derive(Clone, Copy)]
pub(crate) struct Done {
    pub rows: usize,
    pub columns: usize,
}

// Takes what a row above and a column to the left give, each unless it is done.
fn scan_row_and_column(
    blocks: &TileBlocks<'_>,
    bo: TileBlockOffset,
    bsize: BlockSize,
    row: usize,
    column: usize,
    done: &mut Done,
    wanted: Wanted,
    stack: &mut ArrayVec<CandidateMV, 9>,
) -> Matches
    requires ready { IsReady blocks.now }
    requires inside { IsInside blocks.now bo.0 }
    requires aligned { IsAligned bo.0 bsize }
    requires row { 1 ≤ row }
    requires column { 1 ≤ column }
    requires few { length stack.old.items ≤ 8 }
    requires light { heaviest stack.old.items + 2 ^ 17 < 2 ^ 32 }
    ensures items { stack.new.items ≡
        took_all wanted stack.old.items (around blocks.now bo.0 bsize row column done.old.rows done.old.columns) }
    ensures found { result ≡ matches_of wanted (around blocks.now bo.0 bsize row column done.old.rows done.old.columns) }
    ensures rows { let u = edge Upper blocks.now bo.0 bsize in
        done.new.rows ≡ done_after u row done.old.rows (line_after u done.old.rows row) }
    ensures columns { let l = edge Left blocks.now bo.0 bsize in
        done.new.columns ≡ done_after l column done.old.columns (line_after l done.old.columns column) }
    ensures few { length stack.new.items ≤ 8 }
    ensures light { heaviest stack.new.items ≤ heaviest stack.old.items + 2 ^ 16 }
{
    let upper = BlockEdge {
        to: Direction::Upper,
        bo,
        bsize,
    };
    let left = BlockEdge {
        to: Direction::Left,
        bo,
        bsize,
    };
    let mut new = false;
    let mut rows = done.rows;
    let mut columns = done.columns;
    let above = scan_line_after(upper, blocks, row, &mut rows, &mut new, wanted, stack);
    let beside = scan_line_after(left, blocks, column, &mut columns, &mut new, wanted, stack);
    *done = Done { rows, columns };
    Matches {
        above,
        left: beside,
        new,
    }
}

// Takes what the nearest neighbours give.
pub(crate) fn scan_near(
    blocks: &TileBlocks<'_>,
    bo: TileBlockOffset,
    bsize: BlockSize,
    has_tr: bool,
    done: &mut Done,
    wanted: Wanted,
    stack: &mut ArrayVec<CandidateMV, 9>,
) -> Matches
    requires ready { IsReady blocks.now }
    requires inside { IsInside blocks.now bo.0 }
    requires aligned { IsAligned bo.0 bsize }
    requires rows { done.old.rows ≡ 0 }
    requires columns { done.old.columns ≡ 0 }
    requires few { length stack.old.items ≤ 8 }
    requires light { heaviest stack.old.items + 2 ^ 18 < 2 ^ 32 }
    ensures items { stack.new.items ≡ took_all wanted stack.old.items (near_neighbours blocks.now bo.0 bsize has_tr) }
    ensures found { result ≡ matches_of wanted (near_neighbours blocks.now bo.0 bsize has_tr) }
    ensures rows { done.new.rows ≡ near_done (edge Upper blocks.now bo.0 bsize) }
    ensures columns { done.new.columns ≡ near_done (edge Left blocks.now bo.0 bsize) }
    ensures few { length stack.new.items ≤ 8 }
    ensures light { heaviest stack.new.items ≤ heaviest stack.old.items + 2 ^ 17 }
{
    let lines = scan_row_and_column(blocks, bo, bsize, 1, 1, done, wanted, stack);
    let corner = scan_top_right(blocks, bo, bsize, has_tr, wanted, stack);
    lines.or(corner)
}

// Takes what the neighbours further out give.
pub(crate) fn scan_far(
    blocks: &TileBlocks<'_>,
    bo: TileBlockOffset,
    bsize: BlockSize,
    done: &mut Done,
    wanted: Wanted,
    stack: &mut ArrayVec<CandidateMV, 9>,
) -> Matches
    requires ready { IsReady blocks.now }
    requires inside { IsInside blocks.now bo.0 }
    requires aligned { IsAligned bo.0 bsize }
    requires rows { done.old.rows ≡ near_done (edge Upper blocks.now bo.0 bsize) }
    requires columns { done.old.columns ≡ near_done (edge Left blocks.now bo.0 bsize) }
    requires few { length stack.old.items ≤ 8 }
    requires light { heaviest stack.old.items + 2 ^ 19 < 2 ^ 32 }
    ensures items { stack.new.items ≡ took_all wanted stack.old.items (far_neighbours blocks.now bo.0 bsize) }
    ensures found { result ≡ matches_of wanted (far_neighbours blocks.now bo.0 bsize) }
    ensures few { length stack.new.items ≤ 8 }
    ensures light { heaviest stack.new.items ≤ heaviest stack.old.items + 2 ^ 18 }
{
    let row = BlockEdge {
        to: Direction::Upper,
        bo,
        bsize,
    }
    .second(blocks);
    let column = BlockEdge {
        to: Direction::Left,
        bo,
        bsize,
    }
    .second(blocks);
    let corner = scan_top_left(blocks, bo, wanted, stack);
    let second = scan_row_and_column(blocks, bo, bsize, row, column, done, wanted, stack);
    let third = scan_row_and_column(blocks, bo, bsize, row + 2, column + 2, done, wanted, stack);
    corner.or(second).or(third)
}
