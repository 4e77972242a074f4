// Plans the largest games. Without a word it plans each once, and prints the verdict and a sum of all ranks and
// choices; with a number it plans each so many times, and prints the nanoseconds that one solution and one plan took.
#![tactic(auto)]

mod cases;

use game::Game;
use law::MOST;
use nim::Nim;
use solver::{Cell, EMPTY};
use std::env;
use std::time::Instant;
use watch::Watch;

// The number in the program's first word; 0 where no word is given.
// Kept as a number: 0 rounds are no timing.
fn times(rt: &HostRuntime) -> anyhow::Result<u32> {
    let word = env::args(rt)?.nth(1);
    Ok(word.map_or(Ok(0), |word| word.as_str().parse::<u32>())?)
}

// All ranks and choices in one number.
fn sum(cells: &[Cell]) -> u32 {
    cells.iter().fold(0, |sum: u32, cell| {
        let rank = cell.rank.unwrap_or(9999);
        let choice = u32::from(cell.choice.unwrap_or(99));
        sum.wrapping_mul(31)
            .wrapping_add(rank)
            .wrapping_mul(31)
            .wrapping_add(choice)
    })
}

// The nanoseconds that one of so many calls took.
fn time<F: FnMut()>(rt: &HostRuntime, times: u32, mut call: F) -> anyhow::Result<u128>
    requires { F.IsAlwaysCallable call }
{
    let start = Instant::now(rt)?;
    for _ in 0..times {
        call();
    }
    let spent = start.elapsed(rt)?;
    Ok(spent.as_nanos() / u128::from(times.max(1)))
}

fn run<G: Game + Copy>(rt: &HostRuntime, name: &str, game: G, times: u32) -> anyhow::Result<()> {
    let mut watch = Watch::new(game);
    let verdict = watch.plan();
    let sum = sum(watch.cells());
    match verdict {
        Ok(verdict) => print!(rt; "{name} {verdict} {sum}")?,
        Err(_) => print!(rt; "{name} refused")?,
    }
    if times > 0 {
        let mut cells = vec![in rt.alloc(); EMPTY; MOST]?;
        let solve = time(rt, times, || {
            let _ = solver::solve(&game, 0, cells.as_mut_slice());
        })?;
        let plan = time(rt, times, || {
            let _ = watch.plan();
        })?;
        print!(rt; " {solve} {plan}")?;
    }
    println!(rt; "")?;
    Ok(())
}

// The sheets made by chance: states and moves.
const RANDOM: [(&str, u16, u16); 3] = [
    ("random-4096-7020", 4096, 7020),
    ("random-2045-8192", 2045, 8192),
    ("random-128-8192", 128, 8192),
];

fn main(rt: HostRuntime) -> anyhow::Result<()> {
    let heap = rt.alloc();
    let times = times(&rt)?;
    // Chosen while it runs, so that the compiler does not make a solver for 44 matches alone.
    let matches = if times == u32::MAX { 2 } else { 44 };
    run(&rt, "chain-4096", sample::chain(heap, 4096)?.sheet(), times)?;
    for (name, size, moves) in RANDOM {
        let tables = cases::random(heap, size, moves)?;
        run(&rt, name, tables.sheet(), times)?;
    }
    run(&rt, "nim-44", Nim { matches }, times)
}
