// What plan checks of a game before it works out ranks.
#![tactic(auto)]

ghost use Rattle.std.specs.Prelude.{◌≡◌, not, ◌||◌, ◌==◌, nat_lt};
ghost use Rattle.game.specs.Meaning.{feasible};
ghost use Rattle.game.specs.Search.{some_below, first_below, first_of};
ghost use Rattle.law.specs.Checks.{keeps_turn, state_fault, first_fault};

use game::Game;
use law::{Fault, MOST};

// Whether the label is feasible in the state.
// Kept as two parameters, here and below: a game is asked of a state, as in the trait.
fn is_feasible<G: Game>(game: &G, s: usize, l: u8) -> bool
    ensures { result ≡ feasible (G.meaning game.now) s l }
{
    !game.is_end(s) && game.next(s, l).is_some()
}

fn has_feasible<G: Game>(game: &G, s: usize) -> bool
    ensures { result ≡ some_below (feasible (G.meaning game.now) s) (G.meaning game.now).ceiling }
{
    (0..game.labels()).any(|l| is_feasible(game, s, l))
}

// Whether the label is feasible in the state and leads to one at the same turn.
fn keeps_turn<G: Game>(game: &G, s: usize, l: u8) -> bool
    ensures { result ≡ keeps_turn (G.meaning game.now) s l }
{
    !game.is_end(s)
        && game
            .next(s, l)
            .is_some_and(|t| game.is_public(t) == game.is_public(s))
}

fn first_keeping<G: Game>(game: &G, s: usize) -> Option<u8>
    ensures { result ≡ first_below (keeps_turn (G.meaning game.now) s) (G.meaning game.now).ceiling }
{
    (0..game.labels()).find(|&l| keeps_turn(game, s, l))
}

// The first fault of one state.
// Kept as an Option: find_fault is public and answers one, and its parts answer alike.
fn state_fault<G: Game>(game: &G, s: usize) -> Option<Fault>
    ensures { result ≡ state_fault (G.meaning game.now) s }
{
    if game.is_start(s) && game.is_public(s) {
        return Some(Fault::PublicStart { state: s });
    }
    if !game.is_end(s) && !has_feasible(game, s) {
        return Some(Fault::Stuck { state: s });
    }
    first_keeping(game, s).map(|label| Fault::KeepsTurn { state: s, label })
}

fn has_start<G: Game>(game: &G) -> bool
    ensures { result ≡ some_below (G.meaning game.now).start (G.meaning game.now).size }
{
    (0..game.size()).any(|s| game.is_start(s))
}

fn states_fault<G: Game>(game: &G) -> Option<Fault>
    ensures { result ≡ first_of (state_fault (G.meaning game.now)) (G.meaning game.now).size }
{
    (0..game.size()).find_map(|s| state_fault(game, s))
}

// Whether the game has a state, and at most as many as a watch has cells.
fn has_size<G: Game>(game: &G) -> bool
    ensures { result ≡ not ((G.meaning game.now).size == 0 || nat_lt 4096 (G.meaning game.now).size) }
{
    let n = game.size();
    n != 0 && n <= MOST
}

// The fault that plan finds first: the size, no start, then state by state.
#[tactic(auto, unfolding(law::specs::Checks::first_fault))]
pub fn find_fault<G: Game>(game: &G) -> Option<Fault>
    ensures { result ≡ first_fault (G.meaning game.now) }
{
    if !has_size(game) {
        return Some(Fault::Size);
    }
    if !has_start(game) {
        return Some(Fault::NoStart);
    }
    states_fault(game)
}
