// A game under bars: its moves as arcs, and its done states.
ghost use Rattle.std.specs.Prelude.{◌≡◌, ◌+◌, ◌*◌, ◌/◌, ◌<◌, ◌≤◌, false, length};
ghost use Rattle.labelset.specs.Bits.{has_bit};
ghost use Rattle.solver.specs.Arcs.{arc, Linked};
ghost use Rattle.solver.specs.Run.{Begun};

use crate::Cell;
use crate::preds::Predecessors;
use crate::work::Work;
use game::{Game, is_done};

// A game of at most 4,096 states, and the labels that are barred in it.
#[derive(Drop)]
pub struct Board<'a, G: Game> {
    pub(crate) game: &'a G,
    pub(crate) bars: u64,
    ghost few: { (G.meaning game.now).size ≤ 4096 },
}

impl<'a, G: Game> Board<'a, G> {
    // Where the arc `e` leads: label `e % 64` of state `e / 64`, which is no end.
    fn follow(&self, e: usize) -> Option<usize>
        requires { (G.meaning self.now.game.now).end (e / 64) ≡ false }
        ensures { result ≡ arc (G.meaning self.now.game.now) (has_bit self.now.bars) e }
    {
        let s = e / 64;
        let l = (e % 64) as u8;
        if self.game.is_public(s) || !labelset::contains(self.bars, l) {
            self.game.next(s, l)
        } else {
            None
        }
    }

    // Puts the arcs of `s` into the lists of the states that they lead to.
    fn link_state(&self, preds: &mut Predecessors, s: usize)
        requires state { s < (G.meaning self.now.game.now).size }
        requires before { Linked (G.meaning self.now.game.now) (has_bit self.now.bars) (s * 64) preds.old.heads preds.old.links }
        ensures { Linked (G.meaning self.now.game.now) (has_bit self.now.bars) ((s + 1) * 64) preds.new.heads preds.new.links }
    {
        if self.game.is_end(s) {
            return;
        }
        for l in 0..self.game.labels() {
            let e = s * 64 + usize::from(l);
            if let Some(t) = self.follow(e) {
                preds.put(t, e);
            }
        }
    }

    // Puts every arc into the list of the state it leads to.
    pub(crate) fn link_all(&self, preds: &mut Predecessors)
        requires { Linked (G.meaning self.now.game.now) (has_bit self.now.bars) 0 preds.old.heads preds.old.links }
        ensures { let m = G.meaning self.now.game.now in Linked m (has_bit self.now.bars) (m.size * 64) preds.new.heads preds.new.links }
    {
        for s in 0..self.game.size() {
            self.link_state(preds, s);
        }
    }

    // Gives the rank 0 to all that have it, and puts them into the queue.
    pub(crate) fn begin(&self, work: &mut Work)
        requires { Begun (G.meaning self.now.game.now) 0 work.old }
        ensures begun { let m = G.meaning self.now.game.now in Begun m m.size work.new }
        ensures lent { work.new.cells.ghost_name ≡ work.old.cells.ghost_name }
    {
        for s in 0..self.game.size() {
            if is_done(self.game, s) {
                work.enter(s, Cell::ranked(0, None));
            }
        }
    }
}
