// Numbers that are drawn one after another, and the items that they decide.
use av1_geometry::OutOfMemory;
use av1_tile::{Item, TileStep};
use std::alloc::Global;

/// Items so far, and the state of the draws.
#[derive(Drop)]
pub struct Maker {
    pub items: Vec<Item>,
    pub state: u32,
}

impl Maker {
    ghost use Rattle.std.specs.Prelude.{◌≡◌, [], OnOk};
    ghost use Rattle.av1_make.specs.Draws.{Draws, Makes, one, step};

    /// Nothing is made, and draws begin from this number.
    pub fn new(alloc: Global, state: u32) -> Maker
        ensures items { result.items.items ≡ [] }
        ensures state { result.state ≡ state }
    {
        Maker {
            items: Vec::new(alloc),
            state,
        }
    }

    /// Draws a number.
    #[tactic(auto, unfolding(crate::specs::Draws::next))]
    pub fn draw(&mut self) -> u32
        ensures { Draws result self.old self.new }
    {
        let next = self.state as u64 * 1103515245 + 12345;
        self.state = (next % (1 << 31)) as u32;
        self.state >> 16
    }

    /// Adds an item.
    pub fn add(&mut self, item: Item) -> Result<(), OutOfMemory>
        ensures { OnOk result (Makes (one item) self.old self.new) }
    {
        self.items.push(item)?;
        Ok(())
    }

    /// Adds a step.
    pub fn add_step(&mut self, taken: TileStep) -> Result<(), OutOfMemory>
        ensures { OnOk result (Makes (step taken) self.old self.new) }
    {
        self.add(Item::Step(taken))
    }
}
