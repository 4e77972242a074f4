// The bytes of a sheet in, the bytes that planlist prints out.
#![tactic(auto)]

ghost use Rattle.std.specs.Prelude.{◌≡◌, ◌+◌, ◌*◌, ◌≤◌, length, take};
ghost use Rattle.listing.specs.Lines.{longest};
ghost use Rattle.planner.specs.Printed.{bytes_text, game_text, printed, refusal_line, shown};
ghost use Rattle.planner.specs.Told.{Told};

use game::Game;
use listing::list;
use sheet::{Move, NO_MOVE, NO_ROW, Row};
use tables::{BYTES, MOVES, ROWS, in_use};
use text::{Line, Page};
use watch::Watch;

// An output of this length has room for whatever is printed.
pub const ROOM: usize = 53258;

// The same length, as a call with a contract.
pub fn room() -> usize
    ensures { result ≡ longest }
{
    ROOM
}

// Writes the line of a refusal at the front of the output, and answers its length.
// Kept beside Display, and the refusal as its number: the bytes go into memory that is lent, and their length is known
// before the first is written. `u64` has no `From<usize>`, as in Rust.
fn put_refusal(number: u8, first: usize, second: usize, out: &mut [u8]) -> Option<usize>
    ensures value { (result, out.new) ≡ shown (refusal_line number first second) out.old }
    ensures short { length (refusal_line number first second) ≤ 10 + 4096 * 13 }
{
    let line = Line {
        lead: b"REFUSED ",
        numbers: &[u64::from(number), first as u64, second as u64],
    };
    Page { out, at: 0 }.put(&line)
}

// The part of an input that is looked at.
fn first(input: &[u8]) -> &[u8]
    ensures { result.now ≡ take 65536 input.now }
{
    &input[..BYTES.min(input.len())]
}

// Plans over a game, and writes the listing or the line of plan's fault.
fn plan_game<G: Game + Drop>(game: G, out: &mut [u8]) -> Option<usize>
    ensures value { (result, out.new) ≡ shown (game_text (G.meaning game)) out.old }
    ensures short { length (game_text (G.meaning game)) ≤ 10 + 4096 * 13 }
{
    let mut watch = Watch::new(game);
    match watch.plan() {
        Ok(_) => list(&watch, out).ok(),
        Err(fault) => {
            let label = usize::from(fault.label());
            put_refusal(fault.number(), fault.state(), label, out)
        }
    }
}

// Reads a sheet into the tables, and writes what is printed of it.
fn respond_in(bytes: &[u8], rows: &mut [Row], moves: &mut [Move], out: &mut [u8]) -> Option<usize>
    ensures value { (result, out.new) ≡ shown (bytes_text (length rows.old) (length moves.old) bytes.now) out.old }
    ensures told { Told (length rows.old) (length moves.old) bytes.now (bytes_text (length rows.old) (length moves.old) bytes.now) }
    ensures short { length (bytes_text (length rows.old) (length moves.old) bytes.now) ≤ 10 + 4096 * 13 }
{
    match reader::read(bytes, rows, moves) {
        Ok(counts) => plan_game(in_use(counts, rows, moves), out),
        Err(fault) => put_refusal(fault.number(), fault.index(), fault.offset(), out),
    }
}

// Writes what planlist prints for an input at the front of the output, and answers its length; the bytes beyond are
// kept. Where the output is too short it is left as found; one of `ROOM` bytes never is. What is printed is true of the
// sheet that the input encodes: its word is final.
pub fn respond(input: &[u8], out: &mut [u8]) -> Option<usize>
    ensures value { (result, out.new) ≡ shown (printed input.now) out.old }
    ensures told { Told 4096 8192 (take 65536 input.now) (printed input.now) }
    ensures short { length (printed input.now) ≤ 10 + 4096 * 13 }
{
    let mut rows = [NO_ROW; ROWS];
    let mut moves = [NO_MOVE; MOVES];
    respond_in(first(input), &mut rows, &mut moves, out)
}
