// Asks a new watch, over a sheet in a file or over Nim, the calls on standard input, and prints its answers.
#![tactic(auto)]

use console::{converse, parse_number};
use game::Game;
use nim::Nim;
use sheet::{NO_MOVE, NO_ROW};
use std::io::{Read, Write};
use std::{env, fs};
use tables::{BYTES, MOVES, ROWS, in_use};

fn play<G: Game + Drop>(rt: &HostRuntime, game: G) -> anyhow::Result<()> {
    let mut input = Vec::new(rt.alloc());
    let _ = rt.stdin().read_to_end(&mut input)?;
    let text = converse(rt.alloc(), game, input.as_slice())?;
    rt.stdout().write_all(text.as_bytes())?;
    Ok(())
}

fn play_sheet(rt: &HostRuntime, path: &str) -> anyhow::Result<()> {
    let mut bytes = Vec::new(rt.alloc());
    let _ = fs::open(rt, path)?
        .take(BYTES as u64)
        .read_to_end(&mut bytes)?;
    let mut rows = vec![in rt.alloc(); NO_ROW; ROWS]?;
    let mut moves = vec![in rt.alloc(); NO_MOVE; MOVES]?;
    match reader::read(bytes.as_slice(), rows.as_mut_slice(), moves.as_mut_slice()) {
        Ok(counts) => play(rt, in_use(counts, rows.as_slice(), moves.as_slice())),
        Err(fault) => {
            println!(rt; "{fault}")?;
            Ok(())
        }
    }
}

fn main(rt: HostRuntime) -> anyhow::Result<()> {
    let words: Vec<String> = env::args(&rt)?.skip(1).collect(rt.alloc())?;
    if let [kind, name] = words.as_slice() {
        match (kind.as_str(), parse_number(name.as_bytes())) {
            ("sheet", _) => return play_sheet(&rt, name.as_str()),
            ("nim", Some(matches)) => return play(&rt, Nim { matches }),
            _ => {}
        }
    }
    println!(rt; "usage: watchcalls sheet FILE | nim N")?;
    Ok(())
}
