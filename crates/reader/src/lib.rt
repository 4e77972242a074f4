// The reader of sheets: bytes into two tables that the caller lends.
#![tactic(auto)]

ghost use Rattle.std.specs.Prelude.{◌≡◌, ◌+◌, ◌^◌, ◌<◌, ◌≤◌, length, replicate, IfOk, OnOk, None, sum_by};
ghost use Rattle.format.specs.Format.{above_last};
ghost use Rattle.sheet.specs.Sheets.{zero_row, zero_move};
ghost use Rattle.format.specs.Reading.{head_size, state_row, states_from, tail_at, moves_from, read_result};
ghost use Rattle.format.specs.Games.{ReadsGame};
ghost use Rattle.format.specs.Laws.{ReadExactly, Unique, WritesBack};
ghost use Rattle.format.specs.Blame.{Blamed};
ghost use Rattle.reader.specs.Stored.{shown_filled, stored, shown_stored, source_below, count_of, numbered, tables_after, shown_all};

use format::{Arc, Counts};
use records::{Expect, Record, SheetFault};
use sheet::{Move, NO_MOVE, NO_ROW, Row};

// Makes every entry of both tables zero.
fn clear(rows: &mut [Row], moves: &mut [Move])
    ensures rows { rows.new ≡ replicate (length rows.old) zero_row }
    ensures moves { moves.new ≡ replicate (length moves.old) zero_move }
{
    rows.fill(NO_ROW);
    moves.fill(NO_MOVE);
}

// The size that the first record gives, and where the next record begins.
fn read_head(bytes: &[u8]) -> Result<(u16, usize), SheetFault>
    ensures { result ≡ head_size bytes.now }
{
    match records::take_record(bytes, 0, 0, Expect::Head)? {
        (Record::Head { size }, next) => Ok((size, next)),
        _ => unreachable(),
    }
}

// The state at `at`, as a row with no moves yet, and where the next record begins.
fn read_state(bytes: &[u8], at: usize, index: usize) -> Result<(Row, usize), SheetFault>
    ensures value { result ≡ state_row bytes.now at index }
    ensures uncounted { IfOk result (λ p. p.0.count ≡ 0) }
{
    match records::take_record(bytes, at, index, Expect::State)? {
        (Record::State { flags, place, name }, next) => Ok((
            Row {
                flags,
                place,
                len: name.len(),
                ..NO_ROW
            },
            next,
        )),
        _ => unreachable(),
    }
}

// Reads a state into each row, and answers where the next record begins.
// Kept as a loop, as is read_moves: each record begins where the last one ends, and `?` leaves at the first refusal.
#[tactic(auto, using(crate::proofs::Steps::states_steps))]
fn read_states(bytes: &[u8], start: usize, rows: &mut [Row]) -> Result<usize, SheetFault>
    ensures value { shown_filled result rows.new ≡ states_from (length rows.old) bytes.now start 1 }
    ensures uncounted { OnOk result (sum_by count_of rows.new ≡ 0) }
{
    let mut at = start;
    for (i, row) in rows.iter_mut().enumerate() {
        (*row, at) = read_state(bytes, at, i + 1)?;
    }
    Ok(at)
}

// Whether the pair of source and label lies above the last one.
fn above(last: Option<Arc>, arc: Arc) -> bool
    ensures { result ≡ above_last last arc }
{
    last.is_none_or(|l| (l.source, l.label) < (arc.source, arc.label))
}

// The move at `at`, above the last one, or the end with `k` moves and nothing after it.
// Kept: the record is taken apart into an arc, since the enum of records is a rule of the project and names its fields.
// Inlined: a call for each move, with its answer through memory, takes half as long again.
#[inline(always)]
fn read_tail(
    bytes: &[u8],
    at: usize,
    size: u16,
    k: usize,
    last: Option<Arc>,
) -> Result<Option<(Arc, usize)>, SheetFault>
    requires { size + k + 1 < 2 ^ 64 }
    ensures value { result ≡ tail_at size last bytes.now at k }
    ensures below { IfOk result (source_below size) }
{
    let index = usize::from(size) + 1 + k;
    let (record, next) = records::take_record(bytes, at, index, Expect::Tail { size })?;
    match record {
        Record::Move {
            source,
            label,
            target,
        } => {
            let arc = Arc {
                source,
                label,
                target,
            };
            if !above(last, arc) {
                return Err(SheetFault::Order { index, offset: at });
            }
            Ok(Some((arc, next)))
        }
        Record::End { count } if count as usize != k => Err(SheetFault::Count {
            index,
            offset: at,
        }),
        Record::End { .. } if next != bytes.len() => Err(SheetFault::Excess {
            index,
            offset: next,
        }),
        Record::End { .. } => Ok(None),
        _ => unreachable(),
    }
}

// Reads the moves into the table, counts them in the rows of their sources, and answers how many there are.
#[tactic(auto, using(crate::proofs::Tailing::moves_steps))]
fn read_moves(
    bytes: &[u8],
    start: usize,
    size: u16,
    rows: &mut [Row],
    moves: &mut [Move],
) -> Result<usize, SheetFault>
    requires sized { size ≤ length rows.old }
    requires uncounted { sum_by count_of rows.old ≡ 0 }
    ensures value { shown_stored result rows.new moves.new ≡ stored 0 rows.old moves.old (moves_from (length moves.old) size None bytes.now start 0) }
    ensures counted { IfOk result (λ k. sum_by count_of rows.new ≡ k) }
{
    let mut at = start;
    let mut last = None;
    for (k, slot) in moves.iter_mut().enumerate() {
        let Some((arc, next)) = read_tail(bytes, at, size, k, last)? else {
            return Ok(k);
        };
        *slot = Move {
            label: arc.label,
            target: arc.target,
        };
        rows[usize::from(arc.source)].count += 1;
        last = Some(arc);
        at = next;
    }
    let full = moves.len();
    match read_tail(bytes, at, size, full, last)? {
        None => Ok(full),
        Some(_) => Err(SheetFault::Room {
            index: usize::from(size) + 1 + full,
            offset: at,
        }),
    }
}

// Gives each row its first move: the moves of the rows before it come first.
// Kept as a loop: it changes the rows by the sum that it carries, which no chain says more plainly.
fn number_rows(rows: &mut [Row])
    requires { sum_by count_of rows.old < 2 ^ 64 }
    ensures { rows.new ≡ numbered 0 rows.old }
{
    let mut first = 0;
    for row in rows.iter_mut() {
        row.first = first;
        first += row.count;
    }
}

// Reads a sheet into tables. After a refusal they hold what was read so far.
// Kept as parameters, here and above: the call is given bytes and lends two tables, and with a struct of them each clause
// is longer.
fn read_all(bytes: &[u8], rows: &mut [Row], moves: &mut [Move]) -> Result<Counts, SheetFault>
    ensures { shown_all result rows.new moves.new ≡ tables_after rows.old moves.old bytes.now }
{
    let (size, start) = read_head(bytes)?;
    if rows.len() < usize::from(size) {
        return Err(SheetFault::Room {
            index: 0,
            offset: 0,
        });
    }
    let used = &mut rows[..usize::from(size)];
    let at = read_states(bytes, start, used)?;
    let count = read_moves(bytes, at, size, used, moves)?;
    number_rows(used);
    Ok(Counts {
        states: size,
        moves: count,
    })
}

// What `read` does. Kept apart from it: the laws follow from this one equality, in `read` from each of two branches.
#[tactic(auto, using(crate::proofs::Closed::closed))]
fn read_tables(bytes: &[u8], rows: &mut [Row], moves: &mut [Move]) -> Result<Counts, SheetFault>
    ensures { (result, rows.new, moves.new) ≡ read_result (length rows.old) (length moves.old) bytes.now }
{
    clear(rows, moves);
    let counts = read_all(bytes, rows, moves);
    if counts.is_err() {
        clear(rows, moves);
    }
    counts
}

// Reads a sheet into the two tables; unused entries, and on a refusal all entries, are zero. Bytes are read exactly if
// they are those of a sheet that fits the format and the tables, and the game over the tables is then that sheet's; no
// other sheet has the same bytes, and writing what was read restores them.
#[tactic(auto, using(crate::proofs::Closed::read_laws))]
pub fn read(bytes: &[u8], rows: &mut [Row], moves: &mut [Move]) -> Result<Counts, SheetFault>
    ensures value { (result, rows.new, moves.new) ≡ read_result (length rows.old) (length moves.old) bytes.now }
    ensures exactly { ReadExactly (length rows.old) (length moves.old) bytes.now (result, rows.new, moves.new) }
    ensures game { ReadsGame (length rows.old) (length moves.old) bytes.now (result, rows.new, moves.new) }
    ensures inside { IfOk result (λ c. (c.states ≤ length rows.old) × (c.moves ≤ length moves.old)) }
    ensures blamed { Blamed (length rows.old) (length moves.old) bytes.now result }
    ensures unique { Unique bytes.now }
    ensures restored { WritesBack bytes.now (result, rows.new, moves.new) }
{
    read_tables(bytes, rows, moves)
}
