// A game and the cells of a plan of it, and what the plan says of one state.
ghost use Rattle.std.specs.Prelude.{◌≡◌, ◌≤◌};
ghost use Rattle.listing.specs.Lines.{entry_with};
ghost use Rattle.listing.specs.Reach.{follow};
ghost use Rattle.solver.specs.Cells.{cell_at, ranking_in};

use crate::entry::Entry;
use game::Game;
use solver::{Cell, cell_at};

#[derive(Drop)]
pub(crate) struct Plan<'a, G: Game> {
    pub(crate) game: &'a G,
    pub(crate) cells: &'a [Cell],
    pub(crate) ghost few: { (G.meaning game.now).size ≤ 4096 },
}

impl<G: Game> Plan<'_, G> {
    // Where a label leads in plays by the choices.
    pub(crate) fn follow(&self, s: usize, label: u8) -> Option<usize>
        ensures { result ≡ follow (G.meaning self.now.game.now) (ranking_in self.now.cells.now) s label }
    {
        // What does not depend on the label comes first, so that it is asked once for all labels of a state.
        if self.game.is_end(s) {
            return None;
        }
        if self.game.is_public(s) || cell_at(self.cells, s).choice == Some(label) {
            self.game.next(s, label)
        } else {
            None
        }
    }

    // What the plan says of a state; nothing where it lacks a choice or a rank.
    pub(crate) fn entry(&self, s: usize) -> Option<Entry>
        ensures { result ≡ entry_with s (cell_at self.now.cells.now s).choice (cell_at self.now.cells.now s).rank }
    {
        let cell = cell_at(self.cells, s);
        cell.choice.zip(cell.rank).map(|(label, rank)| Entry {
            state: s,
            label,
            rank,
        })
    }
}
