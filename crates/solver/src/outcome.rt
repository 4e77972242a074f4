// What a plan says as a whole.
ghost use Rattle.std.specs.Prelude.{◌≡◌};
ghost use Rattle.game.specs.Search.{first_below, highest};
ghost use Rattle.law.specs.Answers.{lost_start, start_rank, plan_verdict};
ghost use Rattle.solver.specs.Cells.{ranking_in};

use crate::{Cell, cell_at};
use game::Game;
use law::Verdict;

// Kept as two parameters, here and below: a closure over a struct of game and cells needs a clause of its own, as in layers.
fn is_lost<G: Game>(game: &G, cells: &[Cell], s: usize) -> bool
    ensures { result ≡ lost_start (G.meaning game.now) (ranking_in cells.now).rank s }
{
    game.is_start(s) && cell_at(cells, s).rank.is_none()
}

// The lowest start without rank.
fn first_lost<G: Game>(game: &G, cells: &[Cell]) -> Option<usize>
    ensures { result ≡ first_below (lost_start (G.meaning game.now) (ranking_in cells.now).rank) (G.meaning game.now).size }
{
    (0..game.size()).find(|s| is_lost(game, cells, *s))
}

// The rank of a start.
fn rank_of_start<G: Game>(game: &G, cells: &[Cell], s: usize) -> Option<u32>
    ensures { result ≡ start_rank (G.meaning game.now) (ranking_in cells.now).rank s }
{
    if game.is_start(s) {
        cell_at(cells, s).rank
    } else {
        None
    }
}

// The highest rank of a start.
// Kept as a number: 0 where no start has a rank, and what is said then is a number.
fn highest_rank<G: Game>(game: &G, cells: &[Cell]) -> u32
    ensures { result ≡ highest (start_rank (G.meaning game.now) (ranking_in cells.now).rank) (G.meaning game.now).size }
{
    (0..game.size()).fold(
        0,
        |top: u32, s| top.max(rank_of_start(game, cells, s).unwrap_or(0)),
    )
}

// Held with the highest rank of a start, or lost with the lowest start that has none, by what the cells hold.
pub fn verdict<G: Game>(game: &G, cells: &[Cell]) -> Verdict
    ensures { result ≡ plan_verdict (G.meaning game.now) (ranking_in cells.now).rank }
{
    match first_lost(game, cells) {
        Some(s) => Verdict::Lost(s),
        None => Verdict::Held(highest_rank(game, cells)),
    }
}
