// The sheets that are timed, built as `bench/plain.rs` builds them.
use sample::{Dice, Tables, share, turn_and_start};
use sheet::{END, GOAL, Move};
use std::alloc::{AllocError, Global};

// The state drawn, or the one beside it that is at the other turn.
fn opposite(state: u16, drawn: u16) -> u16 {
    if drawn % 2 == state % 2 {
        drawn ^ 1
    } else {
        drawn
    }
}

// A sheet with as many states, one in eight an end and goal, and as many moves, in even shares and by chance.
pub fn random(heap: Global, size: u16, moves: u16) -> Result<Tables, AllocError> {
    let mut tables = Tables::new(heap);
    let mut dice = Dice::new(u64::from(moves));
    for state in 0..size {
        let end = if dice.roll(8) == 0 { END | GOAL } else { 0 };
        let mut own = Vec::new(heap);
        for label in 0..share(moves, size, state).min(64) as u8 {
            let target = opposite(state, dice.roll(size & 0xfffe));
            own.push(Move { label, target })?;
        }
        tables.add_state(turn_and_start(state) | end, own.as_slice())?;
    }
    Ok(tables)
}
