// The lines of the states that plays by a plan's choices reach.
ghost use Rattle.std.specs.Prelude.{◌≡◌, ◌*◌, ◌<◌, ◌≤◌, length};
ghost use Rattle.listing.specs.Lines.{entry_of, has_line, lines_below};
ghost use Rattle.listing.specs.Walks.{Marked};
ghost use Rattle.solver.specs.Cells.{ranking_in};
ghost use Rattle.text.specs.Pages.{Adds, Room};

use crate::entry::{Entry, entry_width, put_entry};
use crate::plan::Plan;
use game::Game;
use law::MOST;
use text::Page;

// A mark at each state that is reached.
#[derive(Drop)]
pub(crate) struct Reached<'a, G: Game> {
    pub(crate) plan: Plan<'a, G>,
    pub(crate) seen: [bool; MOST],
    ghost marks: { length seen ≡ 4096 },
    ghost marked: { Marked (G.meaning plan.game.now) (ranking_in plan.cells.now) seen },
}

impl<G: Game> Reached<'_, G> {
    // Whether a state is reached, at the kiosk's turn, and not done. A kiosk state is done if it is a goal.
    fn has_line(&self, s: usize) -> bool
        requires { s < 4096 }
        ensures { result ≡ has_line (G.meaning self.now.plan.game.now) (ranking_in self.now.plan.cells.now) s }
    {
        let game = self.plan.game;
        self.seen[s] && !game.is_public(s) && !game.is_goal(s)
    }

    // The entry of a state that has a line.
    fn entry_of(&self, s: usize) -> Option<Entry>
        requires { s < 4096 }
        ensures { result ≡ entry_of (G.meaning self.now.plan.game.now) (ranking_in self.now.plan.cells.now) s }
    {
        if self.has_line(s) {
            self.plan.entry(s)
        } else {
            None
        }
    }

    // The length of all lines.
    pub(crate) fn width(&self) -> usize
        ensures value { result ≡ length (lines_below (G.meaning self.now.plan.game.now) (ranking_in self.now.plan.cells.now) (G.meaning self.now.plan.game.now).size) }
        ensures few { result ≤ 4096 * 63 }
    {
        // Kept: tried as a chain with `sum`, whose bound and value stayed open; the loop needs no answer.
        let mut width = 0;
        for s in 0..self.plan.game.size() {
            width += entry_width(self.entry_of(s));
        }
        width
    }

    // Puts all lines, for which there is room.
    pub(crate) fn put(&self, page: &mut Page)
        requires { Room page.old (length (lines_below (G.meaning self.now.plan.game.now) (ranking_in self.now.plan.cells.now) (G.meaning self.now.plan.game.now).size)) }
        ensures { Adds page.old (lines_below (G.meaning self.now.plan.game.now) (ranking_in self.now.plan.cells.now) (G.meaning self.now.plan.game.now).size) page.new }
    {
        for s in 0..self.plan.game.size() {
            put_entry(page, self.entry_of(s));
        }
    }
}
