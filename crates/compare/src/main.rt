// Compares the watch with the second solver over many games, and prints in how many they agree.
#![tactic(auto)]

mod agree;
mod generated;
mod house;
mod written;

use agree::{Tally, compare};
use generated::Draw;
use nim::Nim;
use sample::Dice;
use std::alloc::{AllocError, Global};

// The house game under every set of bars of its labels.
fn compare_house(heap: Global) -> Result<Tally, AllocError> {
    let tables = house::house(heap)?;
    let mut tally = Tally::default();
    for bars in 0..16u64 {
        tally.compare(heap, tables.sheet(), bars)?;
    }
    Ok(tally)
}

// Nim of every size, and of three that are none.
fn compare_nim(heap: Global) -> Result<Tally, AllocError> {
    let mut tally = Tally::default();
    for matches in 0..46usize {
        tally.compare(heap, Nim { matches }, 0)?;
    }
    Ok(tally)
}

fn compare_handmade(heap: Global) -> Result<Tally, AllocError> {
    let mut tally = Tally::default();
    for tables in house::handmade(heap)?.iter() {
        tally.compare(heap, tables.sheet(), 0)?;
    }
    Ok(tally)
}

fn compare_generated(heap: Global) -> Result<Tally, AllocError> {
    let mut dice = Dice::new(1);
    let mut tally = Tally::default();
    for _ in 0..8000 {
        let tables = generated::sheet(heap, &mut dice)?;
        tally.compare(heap, tables.sheet(), dice.bars())?;
    }
    Ok(tally)
}

// Generated sheets that were written and read: the tables are to be the same too.
fn compare_written(heap: Global) -> Result<Tally, AllocError> {
    let mut dice = Dice::new(2);
    let mut tally = Tally::default();
    for _ in 0..2000 {
        let tables = generated::sheet(heap, &mut dice)?;
        if let Some(read) = written::read_back(heap, &tables)? {
            let mut comparison = compare(heap, read.sheet(), dice.bars())?;
            comparison.agreed &= written::same_tables(&tables, &read);
            tally += Tally::from(comparison);
        }
    }
    Ok(tally)
}

// States, moves and reach of sheets as large as can be written in 65,536 bytes.
const LARGE: [(u16, u16, u16); 3] = [(4096, 7020, 4), (2045, 8192, 2045), (128, 8192, 128)];

fn compare_large(heap: Global) -> Result<Tally, AllocError> {
    let mut dice = Dice::new(3);
    let mut tally = Tally::default();
    tally.compare(heap, sample::chain(heap, 4096)?.sheet(), 0)?;
    for (size, moves, reach) in LARGE {
        let tables = generated::large(heap, &mut dice, size, moves, reach)?;
        tally.compare(heap, tables.sheet(), 0)?;
    }
    Ok(tally)
}

fn main(rt: HostRuntime) -> anyhow::Result<()> {
    let heap = rt.alloc();
    let groups = [
        ("house", compare_house(heap)?),
        ("Nim", compare_nim(heap)?),
        ("handmade", compare_handmade(heap)?),
        ("generated", compare_generated(heap)?),
        ("written", compare_written(heap)?),
        ("large", compare_large(heap)?),
    ];
    let mut all = Tally::default();
    for (name, tally) in groups {
        println!(rt; "{name}: {tally}")?;
        all += tally;
    }
    println!(rt; "all: {all}")?;
    Ok(())
}
