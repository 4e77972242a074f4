// Tables written as the bytes of a sheet, and read again.
use law::MOST;
use sample::Tables;
use sheet::{NO_MOVE, NO_ROW, Row};
use std::alloc::{AllocError, Global};
use tables::{BYTES, MOVES};

// The tables as they are read from what is written of them, if they can be written; empty tables stand for what could
// not be read.
pub fn read_back(heap: Global, tables: &Tables) -> Result<Option<Tables>, AllocError> {
    let mut bytes = vec![in heap; 0u8; BYTES]?;
    let mut rows = vec![in heap; NO_ROW; MOST]?;
    let mut moves = vec![in heap; NO_MOVE; MOVES]?;
    let written = writer::write(
        tables.rows.as_slice(),
        tables.moves.as_slice(),
        b"",
        bytes.as_mut_slice(),
    );
    let Ok(len) = written else {
        return Ok(None);
    };
    bytes.truncate(len);
    let Ok(counts) = reader::read(bytes.as_slice(), rows.as_mut_slice(), moves.as_mut_slice())
    else {
        return Ok(Some(Tables::new(heap)));
    };
    rows.truncate(usize::from(counts.states));
    moves.truncate(counts.moves);
    Ok(Some(Tables { rows, moves }))
}

// Whether the tables are the same but for where the names, of which there are none, lie.
// Kept: derived equality compares those places too.
pub fn same_tables(left: &Tables, right: &Tables) -> bool {
    let placeless = |row: &Row| Row { place: 0, ..*row };
    let same_rows = left
        .rows
        .iter()
        .map(placeless)
        .eq(right.rows.iter().map(placeless));
    same_rows && left.moves == right.moves
}
