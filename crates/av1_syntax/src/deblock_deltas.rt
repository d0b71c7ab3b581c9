// What a block adds to the levels of the loop filter, which rav1e codes in `block_unit.rs`.
ghost use Rattle.std.specs.Prelude.{◌≡◌, ℕ, ◌+◌, ◌^◌, ◌<◌, ◌≤◌, pos};
ghost use Rattle.av1_blocks.specs.Grid.{IsInside, block_at};
ghost use Rattle.av1_cdf.specs.Context.{AreCdfs};
ghost use Rattle.av1_cdf.specs.Distribution.Distribution.{Adaptive};
ghost use Rattle.av1_cdf.specs.Slots.{slot_of};
ghost use Rattle.av1_geometry.specs.Cfl.{magnitude};
ghost use Rattle.av1_syntax.specs.Deltas.{delta_slot, delta_count, sign_bit, AreDeltas};

use crate::context_writer::ContextWriter;
use av1_cdf::{CDFContext, CDFOffset};
use av1_ec::Writer;
use av1_geometry::{OutOfMemory, TileBlockOffset};

impl ContextWriter {
    ghost use Rattle.av1_syntax.specs.Calls.{Coded, Moved};
    ghost use Rattle.av1_syntax.specs.Deltas.{rest_element, size_element, delta_element, DeltasCoded};

    /// Codes what a block, as it stands at its place in the grid, adds to the levels of the loop filter: one number for all
    /// edges, or with `multi` one for each direction of luma and one for each plane of chroma.
    pub fn write_block_deblock_deltas<W: Writer>(
        &mut self,
        w: &mut W,
        bo: TileBlockOffset,
        multi: bool,
        planes: usize,
    ) -> Result<(), OutOfMemory>
        requires inside { IsInside self.old.bc.blocks bo.0 }
        requires planes_from { 1 ≤ planes }
        requires planes_to { planes ≤ 3 }
        requires deltas { AreDeltas 63 (delta_count multi planes) (block_at self.old.bc.blocks bo.0.x bo.0.y).deblock_deltas }
        requires cdfs { AreCdfs self.old.fc }
        requires early { (W.position w.old).shift ≤ 2 ^ 28 }
        ensures wrote { DeltasCoded W.Known result self.old.bc.blocks bo.0 multi planes w.old w.new self.old self.new }
        ensures moves { Moved W.Known 520 w.old w.new self.old self.new }
        ensures rest { self.new.bc ≡ self.old.bc }
    {
        let deltas = self.bc.blocks.at(bo).deblock_deltas;
        let count = delta_count(multi, planes);
        for k in 0..count {
            self.write_delta(w, deltas[k], delta_slot(multi, k))?;
        }
        Ok(())
    }

    // Codes a delta: its size, and its sign unless it is zero.
    fn write_delta<W: Writer>(
        &mut self,
        w: &mut W,
        delta: i8,
        cdf: CDFOffset,
    ) -> Result<(), OutOfMemory>
        requires four { cdf.len ≡ 4 }
        requires size { magnitude delta ≤ 63 }
        requires cdfs { AreCdfs self.old.fc }
        requires shift { (W.position w.old).shift + 130 ≤ 2 ^ 28 + 2 ^ 24 }
        ensures wrote { Coded W.Known result (delta_element (Adaptive (slot_of cdf))) delta w.old w.new self.old self.new }
        ensures moves { Moved W.Known 130 w.old w.new self.old self.new }
        ensures rest { self.new.bc ≡ self.old.bc }
    {
        let size = size_of(delta);
        self.write_size(w, size, cdf)?;
        if size == 0 {
            return Ok(());
        }
        self.fixed_symbol(w, sign_bit(delta), &[16384, 0])
    }

    // Codes the size of a delta.
    fn write_size<W: Writer>(
        &mut self,
        w: &mut W,
        size: u32,
        cdf: CDFOffset,
    ) -> Result<(), OutOfMemory>
        requires four { cdf.len ≡ 4 }
        requires size { size ≤ 63 }
        requires cdfs { AreCdfs self.old.fc }
        requires shift { (W.position w.old).shift + 117 ≤ 2 ^ 28 + 2 ^ 24 }
        ensures wrote { Coded W.Known result (size_element (Adaptive (slot_of cdf))) size w.old w.new self.old self.new }
        ensures moves { Moved W.Known 117 w.old w.new self.old self.new }
        ensures rest { self.new.bc ≡ self.old.bc }
    {
        self.symbol(w, size.min(3), cdf)?;
        if size < 3 {
            return Ok(());
        }
        self.write_rest(w, size)
    }

    // Codes a size from 3 on: how many powers of two it is above, and what it has above the last one.
    fn write_rest<W: Writer>(&self, w: &mut W, size: u32) -> Result<(), OutOfMemory>
        requires from { 3 ≤ size }
        requires to { size ≤ 63 }
        requires cdfs { AreCdfs self.now.fc }
        requires shift { (W.position w.old).shift + 104 ≤ 2 ^ 28 + 2 ^ 24 }
        ensures wrote { Coded W.Known result rest_element size w.old w.new self.now self.now }
        ensures moves { Moved W.Known 104 w.old w.new self.now self.now }
    {
        let (n, power) = rem_bits(size);
        self.literal(w, 3, u32::from(n))?;
        self.literal(w, n + 1, size - power - 1)
    }
}

// How many deltas a block has.
fn delta_count(multi: bool, planes: usize) -> usize
    requires { planes ≤ 3 }
    ensures value { result ≡ delta_count multi planes }
    ensures few { result ≤ 4 }
{
    if multi { planes + 1 } else { 1 }
}

// How many of the powers of two from 4 on a size is above, and the last power of two that it is above.
fn rem_bits(size: u32) -> (u8, u32)
    requires from { 3 ≤ size }
    requires to { size ≤ 63 }
    ensures power { result.1 ≡ 2 ^ (result.0 + 1) }
    ensures above { result.1 < size }
    ensures within { size ≤ result.1 + result.1 }
    ensures few { result.0 ≤ 4 }
{
    if size > 32 {
        (4, 32)
    } else if size > 16 {
        (3, 16)
    } else if size > 8 {
        (2, 8)
    } else if size > 4 {
        (1, 4)
    } else {
        (0, 2)
    }
}

// The size of a delta.
fn size_of(delta: i8) -> u32
    ensures { result ≡ magnitude delta }
{
    u32::from(delta.unsigned_abs())
}

// The symbol of its sign.
fn sign_bit(delta: i8) -> u32
    ensures value { result ≡ sign_bit delta }
    ensures few { result < 2 }
{
    if delta < 0 { 1 } else { 0 }
}

// The distribution of the size of a delta.
fn delta_slot(multi: bool, k: usize) -> CDFOffset
    requires { k < 4 }
    ensures is { Adaptive (slot_of result) ≡ delta_slot multi k }
    ensures len { result.len ≡ 4 }
{
    if multi {
        CDFContext::deblock_delta_multi_cdf(k)
    } else {
        CDFContext::deblock_delta_cdf()
    }
}
