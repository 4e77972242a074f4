// A table of cases for the reader and the writer of sheets, from the standard input: a line of output for each.
#![tactic(auto)]

mod large;
mod reading;
mod text;
mod writing;

use std::io::Read;

// A case for the reader or the writer, as the word says that the line begins with.
// Kept as two parameters, here and in the other files: what prints is given the handle.
fn run_line(rt: &HostRuntime, line: &str) -> anyhow::Result<()> {
    match text::cut(line)? {
        ("read", case) => reading::read_line(rt, case),
        (_, case) => writing::write_line(rt, case),
    }
}

fn main(rt: HostRuntime) -> anyhow::Result<()> {
    let mut cases = String::new(rt.alloc());
    let _n = rt.stdin().read_to_string(&mut cases)?;
    for line in cases.as_str().lines() {
        run_line(&rt, line)?;
    }
    reading::cut_everywhere(&rt)?;
    large::run(&rt)
}
