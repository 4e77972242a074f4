// One layer of ranks after the other, from the done states on.
ghost use Rattle.std.specs.Prelude.{◌≡◌, ◌-◌, ◌*◌, ◌<◌, ◌≤◌, true, not, ◌&&◌, length, is_some};
ghost use Rattle.game.specs.Search.{some_below};
ghost use Rattle.game.specs.Ranks.{leads_to, none_or, lowest_label};
ghost use Rattle.labelset.specs.Bits.{has_bit};
ghost use Rattle.solver.specs.Known.{low, settled};
ghost use Rattle.solver.specs.Arcs.{Linked};
ghost use Rattle.solver.specs.Run.{passed, Points, Running, Reached, Moved, At, Followed};

use crate::board::Board;
use crate::preds::Predecessors;
use crate::work::Work;
use crate::{Cell, cell_at};
use game::Game;

// Whether the cell of `t` tells a rank below the bound.
fn is_low(cells: &[Cell], bound: u32, t: usize) -> bool
    ensures { result ≡ low cells.now bound t }
{
    cell_at(cells, t).rank.is_some_and(|rank| rank < bound)
}

// A round: which states have the rank, by what the cells tell of lower ones.
// Kept beside it as a parameter: the cells, which change within the round while the layer is lent for all of it.
#[derive(Drop)]
pub struct Layer<'a, G: Game> {
    pub(crate) board: &'a Board<'a, G>,
    pub(crate) preds: &'a Predecessors,
    pub(crate) rank: u32,
    ghost late: { 0 < rank },
    ghost linked: { let m = G.meaning board.now.game.now in Linked m (has_bit board.now.bars) (m.size * 64) preds.now.heads preds.now.links },
}

impl<'a, G: Game> Layer<'a, G> {
    // Whether the label leads to a state of a lower rank.
    fn leads_low(&self, cells: &[Cell], s: usize, l: u8) -> bool
        ensures { result ≡ leads_to ((G.meaning self.now.board.now.game.now).next s l) (low cells.now self.now.rank) }
    {
        let bound = self.rank;
        self.board
            .game
            .next(s, l)
            .is_some_and(|t| is_low(cells, bound, t))
    }

    // Whether the label leads nowhere, or to a state of a lower rank.
    // Kept beside `leads_low`: a label without a move fails that one and passes this one.
    fn only_low(&self, cells: &[Cell], s: usize, l: u8) -> bool
        ensures { result ≡ none_or ((G.meaning self.now.board.now.game.now).next s l) (low cells.now self.now.rank) }
    {
        let bound = self.rank;
        self.board
            .game
            .next(s, l)
            .is_none_or(|t| is_low(cells, bound, t))
    }

    // The lowest unbarred label that leads to a state of a lower rank.
    fn pick(&self, cells: &[Cell], s: usize) -> Option<u8>
        ensures { result ≡ lowest_label (G.meaning self.now.board.now.game.now) (has_bit self.now.board.now.bars) (low cells.now self.now.rank) s }
    {
        // The clause stands here, since none is inferred for a closure that holds a struct with a lifetime.
        (0..self.board.game.labels()).find(
            |l: &u8| -> bool
                ensures { result ≡ (not (has_bit self.entry.now.board.now.bars l.now) && leads_to ((G.meaning self.entry.now.board.now.game.now).next s l.now) (low cells.entry.now self.entry.now.rank)) }
            { !labelset::contains(self.board.bars, *l) && self.leads_low(cells, s, *l) },
        )
    }

    // Whether every label of `s` leads to a state of a lower rank. The pointer of `s` passes those that do.
    // Kept as a bool: it says something of the state, and the pointer only saves asking the same labels again.
    fn all_low(&self, cells: &[Cell], pointer: &mut u8, s: usize) -> bool
        requires { Points (G.meaning self.now.board.now.game.now) (low cells.now self.now.rank) s pointer.old }
        ensures pointer { Points (G.meaning self.now.board.now.game.now) (low cells.now self.now.rank) s pointer.new }
        ensures value { let m = G.meaning self.now.board.now.game.now in result ≡ passed m (low cells.now self.now.rank) s m.ceiling }
    {
        let labels = self.board.game.labels();
        // The clause stands here as in pick.
        *pointer = (*pointer..labels)
            .find(
                |l: &u8| -> bool
                    ensures { result ≡ not (none_or ((G.meaning self.entry.now.board.now.game.now).next s l.now) (low cells.entry.now self.entry.now.rank)) }
                { !self.only_low(cells, s, *l) },
            )
            .unwrap_or(labels);
        *pointer == labels
    }

    // What `s` gets as a state of the rank, from the lower ones. A move of its own leads to one of them.
    fn ripe(&self, cells: &[Cell], pointer: &mut u8, s: usize) -> Option<Cell>
        requires moves { let m = G.meaning self.now.board.now.game.now in some_below (λ l. is_some (m.next s l)) m.ceiling ≡ true }
        requires pointer { Points (G.meaning self.now.board.now.game.now) (low cells.now self.now.rank) s pointer.old }
        ensures pointer { Points (G.meaning self.now.board.now.game.now) (low cells.now self.now.rank) s pointer.new }
        ensures value { result ≡ settled (G.meaning self.now.board.now.game.now) (has_bit self.now.board.now.bars) (low cells.now self.now.rank) self.now.rank s }
    {
        if self.board.game.is_end(s) {
            return None;
        }
        let rank = self.rank;
        if self.board.game.is_public(s) {
            return self
                .all_low(cells, pointer, s)
                .then_some(Cell::ranked(rank, None));
        }
        self.pick(cells, s).map(|l| Cell::ranked(rank, Some(l)))
    }

    // Follows an arc from `s`, and enters `s` where it gets the rank.
    fn reach(&self, work: &mut Work, s: usize)
        requires state { s < (G.meaning self.now.board.now.game.now).size }
        requires moves { let m = G.meaning self.now.board.now.game.now in some_below (λ l. is_some (m.next s l)) m.ceiling ≡ true }
        requires run { Running (G.meaning self.now.board.now.game.now) (has_bit self.now.board.now.bars) self.now.rank work.old }
        ensures { Reached (G.meaning self.now.board.now.game.now) (has_bit self.now.board.now.bars) self.now.rank s work.old work.new }
    {
        if cell_at(work.cells(), s).rank.is_some() {
            return;
        }
        let mut pointer = work.pointers[s];
        let cell = self.ripe(work.cells(), &mut pointer, s);
        work.pointers[s] = pointer;
        if let Some(cell) = cell {
            work.enter(s, cell);
        }
    }

    // Follows every arc into `t`.
    fn walk(&self, work: &mut Work, t: usize)
        requires target { t < (G.meaning self.now.board.now.game.now).size }
        requires run { Running (G.meaning self.now.board.now.game.now) (has_bit self.now.board.now.bars) self.now.rank work.old }
        ensures run { Running (G.meaning self.now.board.now.game.now) (has_bit self.now.board.now.bars) self.now.rank work.new }
        ensures moved { Moved (G.meaning self.now.board.now.game.now) (has_bit self.now.board.now.bars) self.now.rank work.old work.new }
        ensures followed { Followed (G.meaning self.now.board.now.game.now) (has_bit self.now.board.now.bars) self.now.rank work.new.cells.now t 0 }
    {
        // Kept as a loop: an arc is followed by the next in its list while the work changes.
        let mut next = self.preds.first(t);
        while let Some(e) = next {
            self.reach(work, e / 64);
            next = self.preds.after(e);
        }
    }

    // The states of the rank below stand in the queue from `lo` on: gives the rank to all that have it, and puts them
    // behind. Answers where they begin.
    pub(crate) fn settle(&self, work: &mut Work, lo: usize) -> usize
        requires { At (G.meaning self.now.board.now.game.now) (has_bit self.now.board.now.bars) (self.now.rank - 1) lo work.old }
        ensures lent { work.new.cells.ghost_name ≡ work.old.cells.ghost_name }
        ensures from { result ≡ length work.old.queue.items }
        ensures at { At (G.meaning self.now.board.now.game.now) (has_bit self.now.board.now.bars) self.now.rank result work.new }
    {
        let hi = work.queue.len();
        // Kept as a loop over places: the queue grows while it is walked.
        for i in lo..hi {
            let t = work.queue[i];
            self.walk(work, usize::from(t));
        }
        hi
    }
}
