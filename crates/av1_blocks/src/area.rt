// A rectangle of a grid that stands row by row.
ghost use Rattle.std.specs.Prelude.{◌≡◌, ◌+◌, ◌-◌, ◌*◌, ◌^◌, ◌<◌, ◌≤◌, length, if◌then◌else◌, slice_index_or};
ghost use Rattle.av1_blocks.specs.declared.block.TheConstants.Block.{DEFAULT};
ghost use Rattle.av1_blocks.specs.Entry.{entered};
ghost use Rattle.av1_blocks.specs.Places.{changed, within};

use crate::block::Block;
use crate::entry::Entry;

// The columns from `left` to before `right`, in the rows from `top` to before `bottom`.
#[derive(Clone, Copy)]
pub(crate) struct Area {
    pub(crate) left: usize,
    pub(crate) right: usize,
    pub(crate) top: usize,
    pub(crate) bottom: usize,
}

impl Area {
    ghost use Rattle.av1_blocks.specs.Area.{over_area, put_area};

    // Enters something in each block of the area, in a grid of so many columns.
    pub(crate) fn enter(self, blocks: &mut [Block], cols: usize, entry: Entry)
        requires left { self.left ≤ self.right }
        requires right { self.right ≤ cols }
        requires some { 0 < cols }
        requires top { self.top ≤ self.bottom }
        requires bottom { self.bottom * cols ≤ length blocks.old }
        requires few { length blocks.old ≤ 2 ^ 22 }
        ensures { blocks.new ≡ over_area self cols entry blocks.old }
    {
        for y in self.top..self.bottom {
            enter_between(blocks, y * cols + self.left, y * cols + self.right, entry);
        }
    }

    // Puts blocks that stand row by row in the area, in a grid of so many columns.
    pub(crate) fn put(self, blocks: &mut [Block], cols: usize, items: &[Block])
        requires left { self.left ≤ self.right }
        requires right { self.right ≤ cols }
        requires some { 0 < cols }
        requires top { self.top ≤ self.bottom }
        requires bottom { self.bottom * cols ≤ length blocks.old }
        requires few { length blocks.old ≤ 2 ^ 22 }
        requires items { length items.now ≡ (self.bottom - self.top) * (self.right - self.left) }
        ensures { blocks.new ≡ put_area self cols items.now blocks.old }
    {
        let width = self.right - self.left;
        for y in self.top..self.bottom {
            put_between(
                blocks,
                y * cols + self.left,
                y * cols + self.right,
                items,
                (y - self.top) * width,
            );
        }
    }
}

// Enters something from one place up to another.
fn enter_between(blocks: &mut [Block], from: usize, to: usize, entry: Entry)
    requires order { from ≤ to }
    requires end { to ≤ length blocks.old }
    ensures { blocks.new ≡ changed (λ k b. if within from to k then entered entry b else b) blocks.old }
{
    for k in from..to {
        entry.enter(&mut blocks[k]);
    }
}

// Puts the blocks from the first one on from one place up to another.
fn put_between(blocks: &mut [Block], from: usize, to: usize, items: &[Block], first: usize)
    requires order { from ≤ to }
    requires end { to ≤ length blocks.old }
    requires items { first + (to - from) ≤ length items.now }
    ensures { blocks.new ≡ changed (λ k b. if within from to k then slice_index_or items.now (first + (k - from)) DEFAULT else b) blocks.old }
{
    for k in from..to {
        blocks[k] = items[first + (k - from)];
    }
}
