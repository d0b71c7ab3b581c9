// The contexts of a choice between one reference and two, and between two on one side and on both, by the neighbours.
ghost use Rattle.std.specs.Prelude.{◌≡◌, ◌-◌, ◌≤◌, ◌||◌, nat_eq, true, false, if◌then◌else◌};
ghost use Rattle.av1_blocks.specs.Grid.{IsInside};
ghost use Rattle.av1_mvref.specs.References.{refs_of, is_single, is_backward, is_inter_there, is_compound, is_behind, same_direction};
ghost use Rattle.av1_mvref.specs.References.{is_one_sided, ref_type_of_two, comp_ref_type_context, refs_above, refs_left, comp_mode_context};

use av1_blocks::{Block, TileBlocks};
use av1_geometry::{RefType, TileBlockOffset};

// The references of a neighbour.
#[derive(Clone, Copy)]
pub(crate) struct Refs {
    is_there: bool,
    first: usize,
    second: usize,
}

impl Refs {
    fn of(block: &Block) -> Refs
        ensures { result ≡ refs_of true block.now }
    {
        Refs {
            is_there: true,
            first: block.ref_frames[0].number(),
            second: block.ref_frames[1].number(),
        }
    }

    fn none() -> Refs
        ensures { result ≡ record { is_there = false; first = 0; second = 8 } }
    {
        Refs {
            is_there: false,
            first: RefType::INTRA_FRAME.number(),
            second: RefType::NONE_FRAME.number(),
        }
    }

    fn above(blocks: &TileBlocks<'_>, bo: TileBlockOffset) -> Refs
        requires { IsInside blocks.now bo.0 }
        ensures { result ≡ refs_above blocks.now bo.0 }
    {
        if bo.0.y > 0 {
            Refs::of(blocks.above_of(bo))
        } else {
            Refs::none()
        }
    }

    fn left(blocks: &TileBlocks<'_>, bo: TileBlockOffset) -> Refs
        requires { IsInside blocks.now bo.0 }
        ensures { result ≡ refs_left blocks.now bo.0 }
    {
        if bo.0.x > 0 {
            Refs::of(blocks.left_of(bo))
        } else {
            Refs::none()
        }
    }

    fn is_single(self) -> bool
        ensures { result ≡ is_single self }
    {
        self.second == 8
    }

    fn is_backward(self) -> bool
        ensures { result ≡ is_backward self }
    {
        self.first >= 5
    }

    // The context where the other neighbour has two references.
    fn beside_two(self) -> usize
        ensures value { result ≡ (if is_backward self || nat_eq self.first 0 then 3 else 2) }
        ensures bound { result ≤ 3 }
    {
        if self.is_backward() || self.first == 0 {
            3
        } else {
            2
        }
    }

    // The context where there is no other neighbour.
    fn alone(self) -> usize
        ensures value { result ≡ (if is_single self then (if is_backward self then 1 else 0) else 3) }
        ensures bound { result ≤ 3 }
    {
        if !self.is_single() {
            3
        } else if self.is_backward() {
            1
        } else {
            0
        }
    }
}

/// The context of the choice between one reference and two, 0 to 4 (AV1 specification, 8.3.2, `comp_mode`).
pub fn get_comp_mode_ctx(blocks: &TileBlocks<'_>, bo: TileBlockOffset) -> usize
    requires { IsInside blocks.now bo.0 }
    ensures value { result ≡ comp_mode_context (refs_above blocks.now bo.0) (refs_left blocks.now bo.0) }
    ensures bound { result ≤ 4 }
{
    let above = Refs::above(blocks, bo);
    let left = Refs::left(blocks, bo);
    match (above.is_there, left.is_there) {
        (true, true) => comp_mode_of_two(above, left),
        (true, false) => above.alone(),
        (false, true) => left.alone(),
        (false, false) => 1,
    }
}

fn comp_mode_of_two(above: Refs, left: Refs) -> usize
    requires above { above.is_there ≡ true }
    requires left { left.is_there ≡ true }
    ensures value { result ≡ comp_mode_context above left }
    ensures bound { result ≤ 4 }
{
    match (above.is_single(), left.is_single()) {
        (true, true) => usize::from(above.is_backward() != left.is_backward()),
        (true, false) => above.beside_two(),
        (false, true) => left.beside_two(),
        (false, false) => 4,
    }
}

impl Refs {
    fn is_inter_there(self) -> bool
        ensures { result ≡ is_inter_there self }
    {
        self.is_there && self.first != 0
    }

    fn is_compound(self) -> bool
        ensures { result ≡ is_compound self }
    {
        self.is_inter_there() && !self.is_single()
    }

    fn is_one_sided(self) -> bool
        ensures { result ≡ is_one_sided self }
    {
        self.is_compound() && same_direction(self.first, self.second)
    }
}

fn is_behind(reference: usize) -> bool
    ensures { result ≡ is_behind reference }
{
    reference >= 5 && reference <= 7
}

// Whether two references lie on one side in time.
fn same_direction(first: usize, second: usize) -> bool
    ensures { result ≡ same_direction first second }
{
    is_behind(first) == is_behind(second)
}

/// The context of the choice between two references on one side in time and one on each, 0 to 4 (AV1 specification,
/// 8.3.2, `comp_ref_type`).
pub fn get_comp_ref_type_ctx(blocks: &TileBlocks<'_>, bo: TileBlockOffset) -> usize
    requires { IsInside blocks.now bo.0 }
    ensures value { result ≡ comp_ref_type_context (refs_above blocks.now bo.0) (refs_left blocks.now bo.0) }
    ensures bound { result ≤ 4 }
{
    let above = Refs::above(blocks, bo);
    let left = Refs::left(blocks, bo);
    if above.is_inter_there() && left.is_inter_there() {
        return ref_type_of_two(above, left);
    }
    let (near, far) = if above.is_there && left.is_there {
        (1, 2)
    } else {
        (0, 4)
    };
    if above.is_compound() {
        near + far * usize::from(above.is_one_sided())
    } else if left.is_compound() {
        near + far * usize::from(left.is_one_sided())
    } else {
        2
    }
}

fn ref_type_of_two(above: Refs, left: Refs) -> usize
    ensures value { result ≡ ref_type_of_two above left }
    ensures bound { result ≤ 4 }
{
    let same = usize::from(same_direction(above.first, left.first));
    match (above.is_compound(), left.is_compound()) {
        (false, false) => 1 + 2 * same,
        (false, true) => if left.is_one_sided() { 3 + same } else { 1 },
        (true, false) => if above.is_one_sided() { 3 + same } else { 1 },
        (true, true) => match (above.is_one_sided(), left.is_one_sided()) {
            (false, false) => 0,
            (true, true) => 3 + usize::from((above.first == 5) == (left.first == 5)),
            _ => 2,
        },
    }
}
