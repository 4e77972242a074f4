// The house game, and tables made by hand.
use sample::Tables;
use sheet::Move;
use std::alloc::{AllocError, Global};

// The flags of each state, and the moves as source, label and target.
type Spelled = (&'static [u8], &'static [(usize, u8, u16)]);

const HOUSE: Spelled = (
    &[2, 1, 1, 12, 4, 0, 1],
    &[
        (0, 1, 1),
        (0, 2, 2),
        (1, 0, 3),
        (1, 1, 5),
        (2, 0, 3),
        (2, 1, 4),
        (5, 1, 1),
        (5, 3, 6),
        (6, 0, 3),
    ],
);

const SPELLED: [Spelled; 24] = [
    // One or two states, done or not, in every way that a goal is reached or missed.
    (&[], &[]),
    (&[2], &[]),
    (&[6], &[]),
    (&[10], &[]),
    (&[14], &[]),
    (&[10, 1], &[(0, 0, 1), (1, 0, 0)]),
    (&[2, 9], &[(0, 0, 1), (1, 0, 0)]),
    (&[2, 13], &[(0, 0, 1)]),
    // Labels twice, falling or too large, targets that are no states, and flags that mean nothing.
    (&[2, 5, 13], &[(0, 3, 1), (0, 3, 2)]),
    (&[2, 5, 13], &[(0, 3, 2), (0, 3, 1)]),
    (&[2, 13], &[(0, 0, 2), (0, 1, 1)]),
    (&[2, 13], &[(0, 0, 7), (0, 0, 1)]),
    (&[2, 13], &[(0, 64, 1), (0, 255, 1)]),
    (&[2, 13, 13], &[(0, 63, 1), (0, 5, 2)]),
    (&[0xf2, 0xfd], &[(0, 0, 1)]),
    (&[0xf0, 0xf1], &[(0, 0, 1), (1, 0, 0)]),
    // A fault in one place, or where there is none since an end has no feasible label.
    (&[0, 13], &[(0, 0, 1)]),
    (&[3, 12], &[(0, 0, 1)]),
    (&[2, 12], &[(0, 5, 1)]),
    (&[2, 1, 13], &[(0, 0, 1), (1, 9, 2), (1, 4, 2)]),
    (&[2], &[(0, 1, 0)]),
    (&[2, 1], &[(0, 0, 1)]),
    (&[2, 13], &[(0, 0, 1), (1, 0, 1)]),
    (&[6, 13], &[(0, 0, 1)]),
];

// A row that counts the moves of another as its own, or such as are not there: which, the first and how many.
const CLAIMS: [(usize, usize, usize); 8] = [
    (2, 0, 1),
    (0, 0, 2),
    (0, 0, 3),
    (0, 5, 1),
    (0, usize::MAX, 1),
    (0, 1, usize::MAX),
    (2, 2, 0),
    (1, 9, 9),
];

// The most states that a sheet may have, and one more.
const SIZES: [u16; 2] = [4096, 4097];

pub fn house(heap: Global) -> Result<Tables, AllocError> {
    tables(heap, HOUSE)
}

// Many tables, some of them such as no reading of a sheet gives.
pub fn handmade(heap: Global) -> Result<Vec<Tables>, AllocError> {
    let mut all = Vec::new(heap);
    for spelled in SPELLED {
        all.push(tables(heap, spelled)?)?;
    }
    for (state, first, count) in CLAIMS {
        let mut claimed = tables(heap, (&[2, 13, 2], &[(0, 0, 1), (2, 1, 1)]))?;
        if let Some(row) = claimed.rows.get_mut(state) {
            row.first = first;
            row.count = count;
        }
        all.push(claimed)?;
    }
    for size in SIZES {
        all.push(alike(heap, size)?)?;
    }
    Ok(all)
}

fn tables(heap: Global, (flags, moves): Spelled) -> Result<Tables, AllocError> {
    let mut tables = Tables::new(heap);
    for (state, flags) in flags.iter().enumerate() {
        let own: Vec<Move> = moves
            .iter()
            .filter(|(source, ..)| *source == state)
            .map(|(_, label, target)| Move {
                label: *label,
                target: *target,
            })
            .collect(heap)?;
        tables.add_state(*flags, own.as_slice())?;
    }
    Ok(tables)
}

// As many states, each a start that is done.
fn alike(heap: Global, size: u16) -> Result<Tables, AllocError> {
    let mut tables = Tables::new(heap);
    for _ in 0..size {
        tables.add_state(14, &[])?;
    }
    Ok(tables)
}
