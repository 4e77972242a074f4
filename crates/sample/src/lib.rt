// Sheets that are made up, for tests and benchmarks: two tables filled state by state, a chain, and chance that is the
// same at every run.
#![tactic(auto)]

ghost use Rattle.std.specs.Prelude.{◌≡◌, ◌++◌, ◌∷◌, [], length, map, vec_len, IfOk, OnErr, OnOk};
ghost use Rattle.std.specs.List.{range_with_len};
ghost use Rattle.sample.specs.Sample.{row_of, turn_flags, chain_row, chain_move, share, next_seed, drawn};

use sheet::{END, GOAL, Move, NO_ROW, PUBLIC, Row, START, Sheet};
use std::alloc::{AllocError, Global};

// The two tables of a sheet without names.
#[derive(Drop)]
pub struct Tables {
    pub rows: Vec<Row>,
    pub moves: Vec<Move>,
}

impl Tables {
    pub fn new(heap: Global) -> Tables
        ensures rows { result.rows.items ≡ [] }
        ensures moves { result.moves.items ≡ [] }
    {
        Tables {
            rows: Vec::new(heap),
            moves: Vec::new(heap),
        }
    }

    // A state more, and its moves. The row comes last, so that no row without its moves is left where memory runs out.
    pub fn add_state(&mut self, flags: u8, moves: &[Move]) -> Result<(), AllocError>
        ensures rows { OnOk result (self.new.rows.items ≡ self.old.rows.items ++ row_of flags (vec_len self.old.moves) (length moves.now) ∷ []) }
        ensures moves { OnOk result (self.new.moves.items ≡ self.old.moves.items ++ moves.now) }
        ensures kept { OnErr result (self.new.rows.items ≡ self.old.rows.items) }
    {
        let first = self.moves.len();
        self.moves.extend_from_slice(moves)?;
        self.rows.push(row_of(flags, first, moves.len()))?;
        Ok(())
    }

    // The game over the tables.
    pub fn sheet(&self) -> Sheet<'_>
        ensures rows { result.rows.now ≡ self.now.rows.items }
        ensures moves { result.moves.now ≡ self.now.moves.items }
    {
        Sheet {
            rows: self.rows.as_slice(),
            moves: self.moves.as_slice(),
        }
    }
}

// A row without a name.
fn row_of(flags: u8, first: usize, count: usize) -> Row
    ensures { result ≡ row_of flags first count }
{
    Row {
        flags,
        first,
        count,
        ..NO_ROW
    }
}

// Kiosk and public take turns, the kiosk at even states; the first state is a start.
pub fn turn_and_start(state: u16) -> u8
    ensures { result ≡ turn_flags state }
{
    match state {
        0 => START,
        _ if state % 2 == 1 => PUBLIC,
        _ => 0,
    }
}

fn chain_row(size: u16, state: u16) -> Row
    ensures { result ≡ chain_row size state }
{
    let first = usize::from(state);
    let end = if first + 1 == usize::from(size) {
        END | GOAL
    } else {
        0
    };
    row_of(turn_and_start(state) | end, first, 1)
}

// A chain from the start to the goal with one move for each state, the deepest game of its size.
pub fn chain(heap: Global, size: u16) -> Result<Tables, AllocError>
    ensures rows { IfOk result (λ t. t.rows.items ≡ map (chain_row size) (range_with_len 0 size)) }
    ensures moves { IfOk result (λ t. t.moves.items ≡ map chain_move (range_with_len 0 size)) }
{
    let rows = (0..size).map(|state| chain_row(size, state)).collect(heap)?;
    let moves = (0..size)
        .map(|state| Move {
            label: 0,
            target: state + 1,
        })
        .collect(heap)?;
    Ok(Tables { rows, moves })
}

// How many of the moves a state gets, in shares as even as can be.
pub fn share(moves: u16, size: u16, state: u16) -> u32
    ensures { result ≡ share moves size state }
{
    if size == 0 {
        return 0;
    }
    u32::from(moves / size) + u32::from(state < moves % size)
}

// A linear congruential generator.
#[derive(Drop)]
pub struct Dice {
    pub seed: u64,
}

impl Dice {
    pub fn new(seed: u64) -> Dice
        ensures { result.seed ≡ seed }
    {
        Dice { seed }
    }

    // A number below `sides`; of no sides, 0.
    pub fn roll(&mut self, sides: u16) -> u16
        ensures seed { self.new.seed ≡ next_seed self.old.seed }
        ensures value { result ≡ drawn self.new.seed sides }
    {
        self.seed = self
            .seed
            .wrapping_mul(6364136223846793005)
            .wrapping_add(1442695040888963407);
        // The upper bits are those drawn by chance.
        let drawn = (self.seed >> 48) as u16;
        if sides == 0 { 0 } else { drawn % sides }
    }
}

#[cfg(test)]
mod tests {
    use super::*;
    use std::test::Fail;

    // A chain of two states, and a third, if there is memory.
    #[test]
    fn grows(rt: HostRuntime) -> Result<(), Fail> {
        let mut tables = chain(rt.alloc(), 2)?;
        let back = Move {
            label: 5,
            target: 0,
        };
        tables.add_state(PUBLIC, &[back])?;
        assert_eq!(rt; tables.rows.len(), 3);
        assert_eq!(rt; tables.sheet().moves.len(), 3);
        Ok(())
    }
}
