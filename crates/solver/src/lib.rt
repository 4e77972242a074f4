// Ranks and choices of every state of a game, by retrograde analysis: from the done states backwards along the moves,
// layer by layer. Each label of each state is asked for a small constant number of times, however deep the game is.
// Scratch memory: 1.1 MB on the stack, no heap.
#![tactic(auto)]

ghost use Rattle.std.specs.Prelude.{◌≡◌, ◌≤◌, length, Some};
ghost use Rattle.labelset.specs.Bits.{has_bit};
ghost use Rattle.solver.specs.Cells.{cell_at, Solving};
ghost use Rattle.solver.specs.Known.{cell, Filled};

use arrayvec::ArrayVec;
use board::Board;
use game::Game;
use law::MOST;
use layers::Layer;
use preds::{ARCS, Link, Predecessors};
use work::Work;

mod board;
mod layers;
pub mod outcome;
mod preds;
mod work;

// What a plan says of one state.
#[derive(Clone, Copy, Drop, PartialEq, Eq, Debug)]
pub struct Cell {
    pub rank: Option<u32>,
    pub choice: Option<u8>,
}

impl Cell {
    // The cell of a state of this rank.
    fn ranked(rank: u32, choice: Option<u8>) -> Cell
        ensures { result ≡ cell rank choice }
    {
        Cell {
            rank: Some(rank),
            choice,
        }
    }
}

// The cell of a state that has no rank.
pub const EMPTY: Cell = Cell {
    rank: None,
    choice: None,
};

// A game has more states than are worked out, or than there are cells.
#[derive(Clone, Copy, Drop, PartialEq, Eq, Debug)]
pub struct TooLarge;

// The cell of a state; one beyond the table is empty.
pub fn cell_at(cells: &[Cell], s: usize) -> Cell
    ensures { result ≡ cell_at cells.now s }
{
    cells.get(s).copied().unwrap_or(EMPTY)
}

// Works out every rank and choice, layer after layer.
fn fill<G: Game>(board: &Board<G>, cells: &mut [Cell])
    requires { (G.meaning board.now.game.now).size ≤ length cells.old }
    ensures { Filled (G.meaning board.now.game.now) (has_bit board.now.bars) cells.new }
{
    cells.fill(EMPTY);
    let mut preds = Predecessors {
        heads: [Link::NONE; MOST],
        links: [Link::NONE; ARCS],
    };
    board.link_all(&mut preds);
    let mut work = Work {
        cells,
        queue: ArrayVec::new(),
        pointers: [0; MOST],
    };
    board.begin(&mut work);
    let mut rank = 0;
    let mut from = 0;
    // Kept as a loop: the queue grows while it is walked, and the next layer begins where this one ended.
    while from < work.queue.len() {
        rank += 1;
        let layer = Layer {
            board: &*board,
            preds: &preds,
            rank,
        };
        from = layer.settle(&mut work, from);
    }
}

// Gives every cell the rank and the choice of its state under the bars; a game that is too large is refused, and leaves
// the cells as they are.
pub fn solve<G: Game>(game: &G, bars: u64, cells: &mut [Cell]) -> Result<(), TooLarge>
    ensures { Solving (G.meaning game.now) (has_bit bars) cells.old result cells.new }
{
    let size = game.size();
    if size <= MOST && size <= cells.len() {
        fill(&Board { game, bars }, cells);
        Ok(())
    } else {
        Err(TooLarge)
    }
}
