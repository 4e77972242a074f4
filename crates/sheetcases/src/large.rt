// Sheets too large to spell out: unnamed states without flags, and the lowest pairs of source and label, to target 0.
use crate::{reading, writing};
use sheet::NO_ROW;
use std::alloc::{AllocError, Global};

// The bytes of a sheet of `states` states and `moves` moves.
fn sheet_bytes(heap: Global, states: u16, moves: u32) -> Result<Vec<u8>, AllocError> {
    let mut bytes = Vec::new(heap);
    bytes.extend_from_slice(b"SH\x01")?;
    bytes.extend_from_slice(&states.to_le_bytes())?;
    for _ in 0..states {
        bytes.extend_from_slice(b"ST\x00\x00")?;
    }
    for k in 0..moves {
        let source = (k / 64 & 0xffff) as u16;
        bytes.extend_from_slice(b"MV")?;
        bytes.extend_from_slice(&source.to_le_bytes())?;
        bytes.extend_from_slice(&[(k % 64) as u8, 0, 0])?;
    }
    bytes.extend_from_slice(b"ZZ")?;
    bytes.extend_from_slice(&moves.to_le_bytes())?;
    Ok(bytes)
}

fn large_case(rt: &HostRuntime, states: u16, moves: u32, n: usize, m: usize) -> anyhow::Result<()> {
    let bytes = sheet_bytes(rt.alloc(), states, moves)?;
    print!(rt; "{states} states and {moves} moves into {n} and {m}: ")?;
    reading::read_case(rt, bytes.as_slice(), n, m)
}

const CASES: [(u16, u32, usize, usize); 9] = [
    (4096, 0, 4096, 0),
    (4096, 0, 4095, 0),
    (4097, 0, 4097, 0),
    (131, 8192, 4096, 8192),
    (131, 8193, 4096, 8192),
    (4096, 262144, 4096, 262144),
    (4096, 262144, 4096, 262143),
    (4096, 262145, 4096, 262145),
    (2, 129, 4, 200),
];

pub fn run(rt: &HostRuntime) -> anyhow::Result<()> {
    for (states, moves, n, m) in CASES {
        large_case(rt, states, moves, n, m)?;
    }
    for n in [4096, 4097] {
        let rows = vec![in rt.alloc(); NO_ROW; n]?;
        print!(rt; "write {n} rows and no room: ")?;
        writing::write_case(rt, rows.as_slice(), &[], b"", 0)?;
    }
    Ok(())
}
