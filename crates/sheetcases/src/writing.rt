// Tables for the writer. A line has a name, the length of the output, the bytes that hold the names, rows and moves.
use crate::text;
use anyhow::bail;
use sheet::{Move, Row};
use std::alloc::{AllocError, Global};

// The rows whose flags, name places, name lengths, first moves and numbers of moves are given.
fn rows_from(heap: Global, numbers: &[usize]) -> Result<Vec<Row>, AllocError> {
    let (fives, _) = numbers.as_chunks::<5>();
    fives
        .iter()
        .map(|[flags, place, len, first, count]| Row {
            flags: (*flags & 0xff) as u8,
            place: *place,
            len: *len,
            first: *first,
            count: *count,
        })
        .collect(heap)
}

// The moves whose labels and targets are given.
fn moves_from(heap: Global, numbers: &[usize]) -> Result<Vec<Move>, AllocError> {
    let (pairs, _) = numbers.as_chunks::<2>();
    pairs
        .iter()
        .map(|[label, target]| Move {
            label: (*label & 0xff) as u8,
            target: (*target & 0xffff) as u16,
        })
        .collect(heap)
}

// Writes over an output of bytes 2E, and prints it whole, or whether a refusal kept it.
pub fn write_case(
    rt: &HostRuntime,
    rows: &[Row],
    moves: &[Move],
    names: &[u8],
    room: usize,
) -> anyhow::Result<()> {
    let mut out = vec![in rt.alloc(); 0x2eu8; room]?;
    match writer::write(rows, moves, names, out.as_mut_slice()) {
        Ok(len) => {
            print!(rt; "written {len}:")?;
            for b in out.as_slice() {
                print!(rt; " {b:02x}")?;
            }
            rt.println("")?;
        }
        Err(fault) => {
            let number = fault.number();
            let row = fault.row();
            let kept = out.iter().all(|byte| *byte == 0x2e);
            println!(rt; "refused {number} {row}, output kept: {kept}")?;
        }
    }
    Ok(())
}

pub fn write_line(rt: &HostRuntime, line: &str) -> anyhow::Result<()> {
    let (name, rest) = text::cut(line)?;
    let (room, rest) = text::cut(rest)?;
    let (names, rest) = text::cut(rest)?;
    let (rows, moves) = text::cut(rest)?;
    print!(rt; "write,{name}: ")?;
    let heap = rt.alloc();
    let room = text::decimals(heap, room)?;
    let names = text::hex_bytes(heap, names)?;
    let rows = rows_from(heap, text::decimals(heap, rows)?.as_slice())?;
    let moves = moves_from(heap, text::decimals(heap, moves)?.as_slice())?;
    let [room] = *room.as_slice() else {
        bail!("not one length");
    };
    write_case(
        rt,
        rows.as_slice(),
        moves.as_slice(),
        names.as_slice(),
        room,
    )
}
