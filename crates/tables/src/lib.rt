// The game over those entries of two tables that a reading used, and the tables that programs lend.
#![tactic(auto)]

ghost use Rattle.std.specs.Prelude.{◌≡◌, take};

use format::Counts;
use sheet::{Move, Row, Sheet};

// What a program that reads whole sheets lends: tables of these lengths, for so many bytes at most.
pub const ROWS: usize = 4096;

pub const MOVES: usize = 8192;

pub const BYTES: usize = 65536;

// The game over the entries that a reading counted, or over all where there are fewer.
// Kept beside the reader's call, which says what the tables hold after it, refused or not: of a call that is lent them and
// answers the game over them, no clause can say so yet.
pub fn in_use<'a>(counts: Counts, rows: &'a [Row], moves: &'a [Move]) -> Sheet<'a>
    ensures rows { result.rows.now ≡ take counts.states rows.now }
    ensures moves { result.moves.now ≡ take counts.moves moves.now }
{
    Sheet {
        rows: &rows[..rows.len().min(usize::from(counts.states))],
        moves: &moves[..moves.len().min(counts.moves)],
    }
}
