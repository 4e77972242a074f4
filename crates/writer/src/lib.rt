// The writer of sheets: two tables and the bytes that hold the names into an output that the caller lends.
#![tactic(auto)]

ghost use Rattle.std.specs.Prelude.{◌≡◌, ◌^◌, ◌<◌, ◌≤◌, length, sum_by, IfOk, IfErr, None};
ghost use Rattle.std.specs.List.{flat_map};
ghost use Rattle.format.specs.Format.{head_bytes, state_bytes, move_bytes, end_bytes, encode};
ghost use Rattle.format.specs.Tables.{state_in, arc_of};
ghost use Rattle.format.specs.Writing.{moves_sound, name_sound, moves_next, row_sound, over, write_result};
ghost use Rattle.format.specs.Judgement.{WriteExactly};
ghost use Rattle.format.specs.Laws.{Restores};
ghost use Rattle.writer.specs.Parts.{moves_bytes, move_fits, Named, name_len};
ghost use Rattle.writer.specs.Judged.{first_fault, sheet_of, states_bytes, arcs_bytes, Refused};

use format::WriteFault;
use sheet::{Move, Row};

// The parts of a record one behind the other, at the front of `out`. Answers their length.
//
// Kept as loops, here and where records follow one another: by a rule of the project each is lent the rest of the
// output, from where the last one ended.
fn put_record(parts: &[&[u8]], out: &mut [u8]) -> usize
    requires { length (flat_map (λ p. p.now) parts.now) ≤ length out.old }
    ensures value { result ≡ length (flat_map (λ p. p.now) parts.now) }
    ensures after { out.new ≡ over (flat_map (λ p. p.now) parts.now) out.old }
{
    let mut at = 0;
    for part in parts {
        let end = at + part.len();
        out[at..end].copy_from_slice(part);
        at = end;
    }
    at
}

// The first record.
fn put_head(size: u16, out: &mut [u8]) -> usize
    requires { 5 ≤ length out.old }
    ensures value { result ≡ 5 }
    ensures after { out.new ≡ over (head_bytes size) out.old }
{
    put_record(&[records::HEAD_MARK, &[1], &size.to_le_bytes()], out)
}

// The record of one move.
fn put_move(source: u16, m: Move, out: &mut [u8]) -> usize
    requires { 7 ≤ length out.old }
    ensures value { result ≡ 7 }
    ensures after { out.new ≡ over (move_bytes (arc_of source m)) out.old }
{
    put_record(
        &[
            records::MOVE_MARK,
            &source.to_le_bytes(),
            &[m.label],
            &m.target.to_le_bytes(),
        ],
        out,
    )
}

// The last record.
fn put_end(count: u32, out: &mut [u8]) -> usize
    requires { 6 ≤ length out.old }
    ensures value { result ≡ 6 }
    ensures after { out.new ≡ over (end_bytes count) out.old }
{
    put_record(&[records::END_MARK, &count.to_le_bytes()], out)
}

// The records of one row's moves. Answers their length.
fn put_moves(source: u16, moves: &[Move], out: &mut [u8]) -> usize
    requires { length (moves_bytes source moves.now) ≤ length out.old }
    ensures value { result ≡ length (moves_bytes source moves.now) }
    ensures after { out.new ≡ over (moves_bytes source moves.now) out.old }
{
    let mut at = 0;
    for m in moves {
        at += put_move(source, *m, &mut out[at..]);
    }
    at
}

// Whether the label lies below 64, and the target below `size`.
fn move_fits(m: Move, size: usize) -> bool
    ensures { result ≡ move_fits size m }
{
    m.label < records::LABELS && usize::from(m.target) < size
}

// Whether labels rise strictly, and each move fits.
// Order first: no more than 256 labels rise, so a row is judged by as few moves, however many it claims.
fn moves_sound(moves: &[Move], size: usize) -> bool
    ensures { result ≡ moves_sound size 0 moves.now }
{
    moves.is_sorted_by(|a, b| a.label < b.label) && moves.iter().all(|m| move_fits(*m, size))
}

// The tables of a sheet, whatever they hold.
#[derive(Clone, Copy)]
struct Tables<'a> {
    rows: &'a [Row],
    moves: &'a [Move],
    names: &'a [u8],
}

impl<'a> Tables<'a> {
    // Whether a reading can give the row's flags and name.
    fn name_sound(&self, row: Row) -> bool
        ensures { result ≡ name_sound self.now.names.now row }
    {
        records::known_flags(row.flags)
            && row.len <= usize::from(records::NAME)
            && self
                .names
                .get(row.place..)
                .and_then(|rest| rest.get(..row.len))
                .is_some_and(records::printable)
    }

    // Whether the row's moves are the next ones of the table, from `first` on, and such as a reading gives.
    fn moves_next(&self, row: Row, first: usize) -> bool
        ensures { result ≡ moves_next (length self.now.rows.now) self.now.moves.now first row }
    {
        row.first == first
            && self
                .moves
                .get(first..)
                .and_then(|rest| rest.get(..row.count))
                .is_some_and(|moves| moves_sound(moves, self.rows.len()))
    }

    // Whether a reading can give the row behind rows that have the moves before `first`.
    fn row_sound(&self, row: Row, first: usize) -> bool
        ensures { result ≡ row_sound (length self.now.rows.now) self.now.names.now self.now.moves.now first row }
    {
        self.name_sound(row) && self.moves_next(row, first)
    }

    // The first row that no reading gives, or the number of rows if moves are left over.
    fn first_fault(&self) -> Option<usize>
        ensures { result ≡ first_fault self.now }
    {
        // Kept as a loop: a row is judged by the moves of all rows before it, and a fold over row and number reads worse.
        let mut first = 0;
        for (i, row) in self.rows.iter().enumerate() {
            if !self.row_sound(*row, first) {
                return Some(i);
            }
            first += row.count;
        }
        (first != self.moves.len()).then_some(self.rows.len())
    }

    // The tables, judged, or why no reading gives them.
    fn judged(&self) -> Result<Sound<'a>, WriteFault>
        ensures kept { IfOk result (λ s. s.tables ≡ self.now) }
        ensures refused { IfErr result (λ e. Refused e self.now) }
    {
        if !(1..=usize::from(records::STATES)).contains(&self.rows.len()) {
            return Err(WriteFault::Size);
        }
        match self.first_fault() {
            Some(row) => Err(WriteFault::Unsound { row }),
            None => Ok(Sound { tables: *self }),
        }
    }

    // The record of one state.
    fn put_state(&self, row: Row, out: &mut [u8]) -> usize
        requires named { Named self.now.names.now row }
        requires fits { length (state_bytes (state_in self.now.names.now row)) ≤ length out.old }
        ensures value { result ≡ length (state_bytes (state_in self.now.names.now row)) }
        ensures after { out.new ≡ over (state_bytes (state_in self.now.names.now row)) out.old }
    {
        let end = row.place + row.len;
        let name = &self.names[row.place..end];
        // Kept, as are those below: the cast is proved to lose nothing.
        put_record(
            &[records::STATE_MARK, &[row.flags, name.len() as u8], name],
            out,
        )
    }
}

// The length of all names.
fn names_len(rows: &[Row]) -> usize
    requires { sum_by name_len rows.now < 2 ^ 64 }
    ensures { result ≡ sum_by name_len rows.now }
{
    rows.iter().map(|row| row.len).sum()
}

// Tables that a reading gives.
#[derive(Clone, Copy)]
struct Sound<'a> {
    tables: Tables<'a>,
    ghost some: { 1 ≤ length tables.rows.now },
    ghost few: { length tables.rows.now ≤ 4096 },
    ghost good: { first_fault tables ≡ None },
}

impl Sound<'_> {
    // The length of their sheet.
    fn len(&self) -> usize
        ensures { result ≡ length (encode (sheet_of self.now.tables)) }
    {
        let Tables { rows, moves, .. } = self.tables;
        11 + 4 * rows.len() + names_len(rows) + 7 * moves.len()
    }

    // The records of the states. Answers their length.
    fn put_states(&self, out: &mut [u8]) -> usize
        requires { length (states_bytes self.now.tables) ≤ length out.old }
        ensures value { result ≡ length (states_bytes self.now.tables) }
        ensures after { out.new ≡ over (states_bytes self.now.tables) out.old }
    {
        let tables = self.tables;
        let mut at = 0;
        for row in tables.rows {
            at += tables.put_state(*row, &mut out[at..]);
        }
        at
    }

    // The records of the moves, row after row. Answers their length.
    fn put_all_moves(&self, out: &mut [u8]) -> usize
        requires { length (arcs_bytes self.now.tables) ≤ length out.old }
        ensures value { result ≡ length (arcs_bytes self.now.tables) }
        ensures after { out.new ≡ over (arcs_bytes self.now.tables) out.old }
    {
        let Tables { rows, moves, .. } = self.tables;
        let mut at = 0;
        for (i, row) in rows.iter().enumerate() {
            let end = row.first + row.count;
            at += put_moves(i as u16, &moves[row.first..end], &mut out[at..]);
        }
        at
    }

    // Their sheet, at the front of an output that has room for it.
    fn put(&self, out: &mut [u8])
        requires { length (encode (sheet_of self.now.tables)) ≤ length out.old }
        ensures { out.new ≡ over (encode (sheet_of self.now.tables)) out.old }
    {
        let Tables { rows, moves, .. } = self.tables;
        let mut at = put_head(rows.len() as u16, out);
        at += self.put_states(&mut out[at..]);
        at += self.put_all_moves(&mut out[at..]);
        put_end(moves.len() as u32, &mut out[at..]);
    }
}

impl Tables<'_> {
    // What `write` does: the one equality that its laws follow from.
    fn write(&self, out: &mut [u8]) -> Result<usize, WriteFault>
        ensures { (result, out.new) ≡ write_result self.now.rows.now self.now.moves.now self.now.names.now out.old }
    {
        let sound = self.judged()?;
        let len = sound.len();
        if out.len() < len {
            return Err(WriteFault::Room);
        }
        sound.put(out);
        Ok(len)
    }
}

// Writes the sheet and answers its length; a refusal leaves the output as it was. Tables are written exactly if the
// reading of some sheet gives them, a row that is named is the first that no reading gives, and reading what was written
// gives rows, moves and names back.
pub fn write(
    rows: &[Row],
    moves: &[Move],
    names: &[u8],
    out: &mut [u8],
) -> Result<usize, WriteFault>
    ensures value { (result, out.new) ≡ write_result rows.now moves.now names.now out.old }
    ensures exactly { WriteExactly rows.now moves.now names.now out.old (result, out.new) }
    ensures inside { IfOk result (λ len. len ≤ length out.old) }
    ensures restored { Restores rows.now moves.now names.now (result, out.new) }
{
    let tables = Tables { rows, moves, names };
    tables.write(out)
}
