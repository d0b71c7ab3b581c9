// A law of items. The function is a theorem: it takes nothing and does nothing.
ghost use Rattle.std.specs.Prelude.{◌≡◌, List, [], ◌∷◌, ◌++◌, true};
ghost use Rattle.av1_geometry.specs.declared.block_offset.TileBlockOffset.{TileBlockOffset};
ghost use Rattle.av1_step.specs.State.{tile_of};
ghost use Rattle.av1_step.specs.declared.unit.Item.{Item};
ghost use Rattle.av1_step.specs.declared.unit.Item.TheVariants.{Begin, Abandon};
ghost use Rattle.av1_tile.specs.Items.{Stage, TakesAll, ends_its_own};

use av1_ec::Writer;

/// A trial that is given up leaves no trace, whatever trials begin in it and are kept or given up: the tile, the writer's position and
/// the marks are those of its beginning. The items are taken as `write_item` takes them.
pub fn law_of_trials<W: Writer>()
    ensures { (place : TileBlockOffset) (items : List Item) (from to : Stage W) → ends_its_own 0 items ≡ true →
        TakesAll W.Known from to (Begin place ∷ (items ++ Abandon ∷ [])) →
        (tile_of to.tile ≡ tile_of from.tile) × (W.position to.writer ≡ W.position from.writer) × (to.marks ≡ from.marks) }
{}
