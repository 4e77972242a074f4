// Stored sheets, each answered as planlist answers it.
#![tactic(auto)]

use anyhow::anyhow;
use brief::{count_lines, first_line, plan_line, respond};
use nim::Nim;
use sheet::{NO_MOVE, NO_ROW};
use std::alloc::Global;
use std::fs;
use std::io::Write;
use tables::{BYTES, MOVES, ROWS, in_use};

// Answers over this length are told by their first line, their length and how many lines they have.
const LONG: usize = 200;

// The sheets that are answered, in this order.
const STORED: [&str; 20] = [
    "house",
    "one",
    "one-cut",
    "one-flags",
    "empty",
    "byte",
    "noise",
    "named",
    "long-name",
    "high-label",
    "large",
    "lost",
    "public-start",
    "no-start",
    "keeps-turn",
    "falling",
    "wrong-count",
    "left-over",
    "limit",
    "chain",
];

// The sheets that are read, written again and answered from what was written.
const WRITTEN_AGAIN: [&str; 6] = ["house", "one", "named", "lost", "limit", "chain"];

// Kept as two parameters, here and below: what prints is given the handle, and a case has a name.
fn tell(rt: &HostRuntime, name: &str, text: &[u8]) -> anyhow::Result<()> {
    print!(rt; "{name}: ")?;
    if text.len() <= LONG {
        rt.stdout().write_all(text)?;
        return Ok(());
    }
    rt.stdout().write_all(first_line(text))?;
    println!(rt; " .. {} bytes, {} lines", text.len(), count_lines(text))?;
    Ok(())
}

fn read_sheet(rt: &HostRuntime, name: &str) -> anyhow::Result<Vec<u8>> {
    let path = format!(in rt.alloc(); "{name}.sheet")?;
    Ok(fs::read(rt, path.as_str())?)
}

fn answer(rt: &HostRuntime, name: &str) -> anyhow::Result<()> {
    let input = read_sheet(rt, name)?;
    let text = respond(rt.alloc(), input.as_slice())?;
    tell(rt, name, text.as_slice())
}

fn is_refusal(text: &[u8]) -> bool {
    count_lines(text) == 1 && text.starts_with(b"REFUSED")
}

// A sheet that is cut anywhere is refused in one line.
fn cut_everywhere(rt: &HostRuntime, name: &str) -> anyhow::Result<()> {
    let input = read_sheet(rt, name)?;
    let whole = input.as_slice();
    let mut refused: usize = 0;
    // Kept: memory may run out at each cut, and a `?` here is plainer than a fold over results.
    for end in 0..whole.len() {
        let text = respond(rt.alloc(), &whole[..end])?;
        if is_refusal(text.as_slice()) {
            refused = refused.saturating_add(1);
        }
    }
    println!(rt;
        "cuts of {name}: {refused} of {} refused in one line",
        whole.len()
    )?;
    Ok(())
}

// Reads a sheet and writes it again.
fn rewritten(heap: Global, bytes: &[u8]) -> anyhow::Result<Vec<u8>> {
    let mut rows = vec![in heap; NO_ROW; ROWS]?;
    let mut moves = vec![in heap; NO_MOVE; MOVES]?;
    let mut out = vec![in heap; 0u8; BYTES]?;
    let counts = reader::read(bytes, rows.as_mut_slice(), moves.as_mut_slice()).map_err(|_| anyhow!(
        "not read"
    ))?;
    let sheet = in_use(counts, rows.as_slice(), moves.as_slice());
    let length = writer::write(sheet.rows, sheet.moves, bytes, out.as_mut_slice()).map_err(
        |_| anyhow!("not written"),
    )?;
    out.truncate(length);
    Ok(out)
}

// A stored sheet, read, written, and answered from what was written.
fn round_trip(rt: &HostRuntime, name: &str) -> anyhow::Result<()> {
    let input = read_sheet(rt, name)?;
    let length = input.len().min(BYTES);
    let bytes = &input.as_slice()[..length];
    let written = rewritten(rt.alloc(), bytes)?;
    let word = if written.as_slice() == bytes {
        "the same"
    } else {
        "other"
    };
    println!(rt; "{name} written again: {word} {length} bytes")?;
    let text = respond(rt.alloc(), written.as_slice())?;
    tell(rt, name, text.as_slice())
}

fn main(rt: HostRuntime) -> anyhow::Result<()> {
    for name in STORED {
        answer(&rt, name)?;
    }
    cut_everywhere(&rt, "house")?;
    for name in WRITTEN_AGAIN {
        round_trip(&rt, name)?;
    }
    // Fibonacci Nim: the verdict and how many kiosk states its plan meets, or the number of the refusal.
    for matches in [2, 4, 15, 45] {
        let line = plan_line(rt.alloc(), "nim", matches, Nim { matches })?;
        rt.stdout().write_all(line.as_slice())?;
    }
    Ok(())
}
