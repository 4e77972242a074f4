// Reads a sheet from standard input, plans, and prints the listing or one line of refusal.
#![tactic(auto)]

use std::io;
use std::io::{Read, Write};
use tables::BYTES;

fn main(rt: HostRuntime) -> io::Result<()> {
    let mut input = Vec::new(rt.alloc());
    rt.stdin().take(BYTES as u64).read_to_end(&mut input)?;
    let printed = brief::respond(rt.alloc(), input.as_slice())?;
    rt.stdout().write_all(printed.as_slice())
}
