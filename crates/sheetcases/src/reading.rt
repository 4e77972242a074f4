// Bytes for the reader. A line has a name, the lengths of the two tables that are lent, and the bytes.
ghost use Rattle.std.specs.Prelude.{◌≤◌};

use crate::text;
use anyhow::bail;
use records::SheetFault;
use sheet::{Move, NO_MOVE, NO_ROW, Row};
use std::alloc::{AllocError, Global};

// What the tables hold before a reading, so that entries left alone would show.
const USED_ROW: Row = Row {
    flags: 9,
    place: 9,
    len: 9,
    first: 9,
    count: 9,
};

const USED_MOVE: Move = Move {
    label: 9,
    target: 9,
};

// A sheet with every kind of record, which is cut at every byte.
const WHOLE: &[u8] =
    b"SH\x01\x02\x00ST\x02\x03onyST\x0c\x00MV\x00\x00\x07\x01\x00ZZ\x01\x00\x00\x00";

// Kept as two parameters, here and below: two tables are lent, as the reader and the writer take them.
fn all_zero(rows: &[Row], moves: &[Move]) -> bool {
    rows.iter().all(|row| *row == NO_ROW) && moves.iter().all(|entry| *entry == NO_MOVE)
}

// Where the last nine of `count` entries begin.
fn last_nine(count: usize) -> usize
    ensures { result ≤ count }
{
    count.saturating_sub(9)
}

// Prints the last nine rows and moves.
// Kept: the stored output is no Debug, and rows and faults are other crates' types.
fn show_tables(rt: &HostRuntime, rows: &[Row], moves: &[Move]) -> anyhow::Result<()> {
    for row in &rows[last_nine(rows.len())..] {
        let Row {
            flags,
            place,
            len,
            first,
            count,
        } = *row;
        print!(rt; " {flags}/{place}/{len}/{first}/{count}")?;
    }
    for m in &moves[last_nine(moves.len())..] {
        let Move { label, target } = *m;
        print!(rt; " {label}>{target}")?;
    }
    Ok(())
}

// Whether tables that were read from `bytes` are written as those bytes again.
fn written_back(
    heap: Global,
    rows: &[Row],
    moves: &[Move],
    bytes: &[u8],
) -> Result<bool, AllocError> {
    let mut out = vec![in heap; 0u8; bytes.len()]?;
    let written = writer::write(rows, moves, bytes, out.as_mut_slice());
    Ok(written.is_ok() && out.as_slice() == bytes)
}

// Kept beside Display: the stored output has the layer too.
fn show_fault(rt: &HostRuntime, fault: SheetFault) -> anyhow::Result<()> {
    let number = fault.number();
    let layer = fault.layer();
    let index = fault.index();
    let offset = fault.offset();
    print!(rt; "refused {number} {layer:?} {index} {offset}")?;
    Ok(())
}

// Reads bytes into tables of `n` rows and `m` moves, and prints what came of it.
pub fn read_case(rt: &HostRuntime, bytes: &[u8], n: usize, m: usize) -> anyhow::Result<()> {
    let mut row_table = vec![in rt.alloc(); USED_ROW; n]?;
    let mut move_table = vec![in rt.alloc(); USED_MOVE; m]?;
    let rows = row_table.as_mut_slice();
    let moves = move_table.as_mut_slice();
    match reader::read(bytes, rows, moves) {
        Ok(counts) => {
            let states = usize::from(counts.states);
            let used = counts.moves;
            print!(rt; "read {states} {used}:")?;
            show_tables(rt, &rows[0..states], &moves[0..used])?;
            let same = written_back(rt.alloc(), &rows[0..states], &moves[0..used], bytes)?;
            let zero = all_zero(&rows[states..], &moves[used..]);
            println!(rt; ", written back: {same}, rest zero: {zero}")?;
        }
        Err(fault) => {
            show_fault(rt, fault)?;
            let zero = all_zero(rows, moves);
            println!(rt; ", all zero: {zero}")?;
        }
    }
    Ok(())
}

pub fn read_line(rt: &HostRuntime, line: &str) -> anyhow::Result<()> {
    let (name, rest) = text::cut(line)?;
    let (lengths, hex) = text::cut(rest)?;
    print!(rt; "read,{name}: ")?;
    let lengths = text::decimals(rt.alloc(), lengths)?;
    let bytes = text::hex_bytes(rt.alloc(), hex)?;
    let [n, m] = *lengths.as_slice() else {
        bail!("not two lengths");
    };
    read_case(rt, bytes.as_slice(), n, m)
}

pub fn cut_everywhere(rt: &HostRuntime) -> anyhow::Result<()> {
    // Kept as a loop: each case is printed, with `?`.
    for len in 0..=WHOLE.len() {
        print!(rt; "cut to {len}: ")?;
        read_case(rt, &WHOLE[0..len], 2, 1)?;
    }
    Ok(())
}
