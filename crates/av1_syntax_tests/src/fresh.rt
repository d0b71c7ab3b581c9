// A tile that nothing is written of, where all symbols are equally likely, and what an encoder ends with.
ghost use Rattle.std.specs.Prelude.{◌≡◌, ◌*◌, ◌^◌, ◌≤◌, IfOk};
ghost use Rattle.av1_cdf.specs.Context.{AreCdfs};

use av1_blocks::{BlockContext, FrameBlocks, TileBlocksMut};
use av1_cdf::{CDFContext, law_of_starting};
use av1_ec::{Writer, WriterBase, WriterEncoder};
use av1_geometry::{BlockOffset, OutOfMemory, TileBlockOffset};
use av1_syntax::ContextWriter;
use std::alloc::Global;
use std::test::Fail;

/// The first block.
pub const CORNER: TileBlockOffset = TileBlockOffset(BlockOffset { x: 0, y: 0 });

/// A tile of so many columns and rows.
pub fn fresh(alloc: Global, cols: usize, rows: usize) -> Result<ContextWriter, OutOfMemory>
    requires { cols * rows ≤ 2 ^ 22 }
    ensures cdfs { IfOk result (λ cw. AreCdfs cw.fc) }
    ensures cols { IfOk result (λ cw. cw.bc.blocks.cols ≡ cols) }
    ensures rows { IfOk result (λ cw. cw.bc.blocks.rows ≡ rows) }
{
    law_of_starting();
    let frame = FrameBlocks::new(alloc, cols, rows)?;
    let bc = BlockContext::new(TileBlocksMut::new(frame, 0, 0, cols, rows));
    Ok(ContextWriter::new(alloc, CDFContext::uniform(), bc))
}

/// Fails unless an encoder tells these bits and gives these bytes.
pub fn ends(w: WriterBase<WriterEncoder>, bits: u32, bytes: &[u8]) -> Result<(), Fail> {
    if w.tell() != bits {
        return Err("other bits".into());
    }
    if w.done()?.as_slice() != bytes {
        return Err("other bytes".into());
    }
    Ok(())
}
