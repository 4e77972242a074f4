// What a watch lends for reading.
ghost use Rattle.std.specs.Prelude.{◌≡◌};

use crate::Watch;
use game::Game;
use solver::Cell;

impl<G: Game> Watch<G> {
    // The game that the watch is over.
    pub fn game(&self) -> &G
        ensures { result.now ≡ self.now.game }
    {
        &self.game
    }

    // Whether a plan stands.
    pub fn is_planned(&self) -> bool
        ensures { result ≡ self.now.memory.planned }
    {
        self.memory.planned
    }

    // The cells of the last plan. They say nothing where none stands.
    pub fn cells(&self) -> &[Cell]
        ensures { result.now ≡ self.now.memory.table.cells }
    {
        &self.memory.table.cells
    }
}
