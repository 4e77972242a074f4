// What the programs tell of sheets and plans, whole or in brief.
#![tactic(auto)]

ghost use Rattle.std.specs.Prelude.{◌≡◌, ◌++◌, ◌≤◌, true, false, [], IfOk, ◌==◌};
ghost use Rattle.law.specs.Answers.{ranking};
ghost use Rattle.law.specs.Log.{Log, barred, stands};
ghost use Rattle.watch.specs.Lived.{Lived};
ghost use Rattle.listing.specs.Lines.{listing_text};
ghost use Rattle.planner.specs.Printed.{printed};
ghost use Rattle.brief.specs.Brief as spec;

use game::Game;
use listing::list;
use std::alloc::{AllocError, Global};
use watch::Watch;

// How many lines end in a text.
pub fn count_lines(text: &[u8]) -> usize
    ensures { result ≡ spec.line_count text.now }
{
    text.iter().filter(|c| **c == b'\n').count()
}

// A text up to its first line feed.
pub fn first_line(text: &[u8]) -> &[u8]
    ensures { result.now ≡ spec.first_line text.now }
{
    let end = text.iter().position(|c| *c == b'\n').unwrap_or(text.len());
    &text[..end]
}

// What planlist prints for an input.
// Kept: `listing` begins and ends alike, but a helper for both would need a contract over the closure that fills its buffer.
pub fn respond(heap: Global, input: &[u8]) -> Result<Vec<u8>, AllocError>
    ensures { IfOk result (λ v. v.items ≡ printed input.now) }
{
    let mut out = vec![in heap; 0u8; planner::room()]?;
    let end = planner::respond(input, out.as_mut_slice()).unwrap();
    out.truncate(end);
    Ok(out)
}

// The listing of a watch's plan, or nothing where no plan stands.
pub fn listing<G: Game>(heap: Global, watch: &Watch<G>) -> Result<Vec<u8>, AllocError>
    ensures listed { IfOk result (λ v. (L : Log) → Lived (G.meaning watch.now.game) L watch.now.memory → stands L ≡ true → (G.meaning watch.now.game).size ≤ 4096 → v.items ≡ listing_text (G.meaning watch.now.game) (ranking (G.meaning watch.now.game) (barred L))) }
    ensures none { IfOk result (λ v. watch.now.memory.planned ≡ false → v.items ≡ []) }
{
    let mut out = vec![in heap; 0u8; planner::room()]?;
    // Kept: a refusal leaves nothing to tell.
    let end = list(watch, out.as_mut_slice()).unwrap_or(0);
    out.truncate(end);
    Ok(out)
}

// The line of a game whose listing is given.
fn planned_line(
    heap: Global,
    name: &str,
    size: usize,
    listing: &[u8],
) -> Result<Vec<u8>, AllocError>
    ensures { IfOk result (λ v. v.items ≡ spec.lead name.now size ++ spec.listing_brief listing.now) }
{
    let lines = count_lines(listing).saturating_sub(1);
    let mut line = format!(in heap; "{name} {size}: ")?.into_bytes();
    line.extend_from_slice(first_line(listing))?;
    let rest = format!(in heap; ", {lines} lines\n")?;
    line.extend_from_slice(rest.as_bytes())?;
    Ok(line)
}

// Plans over a game of a make, and tells it in a line: the verdict and how many lines its listing has after it, or the
// number of the refusal.
pub fn plan_line<G: Game + Drop>(
    heap: Global,
    name: &str,
    size: usize,
    game: G,
) -> Result<Vec<u8>, AllocError>
    ensures { IfOk result (λ v. v.items ≡ spec.plan_line name.now size (G.meaning game)) }
{
    let mut watch = Watch::new(game);
    match watch.plan() {
        Ok(_) => {
            let text = listing(heap, &watch)?;
            planned_line(heap, name, size, text.as_slice())
        }
        Err(fault) => {
            let number = fault.number();
            let line = format!(in heap; "{name} {size}: refused {number}\n")?;
            Ok(line.into_bytes())
        }
    }
}

#[cfg(test)]
mod tests {
    use super::*;
    use sheet::{END, GOAL, Row, START, Sheet};

    // A game of one state, which is its start and its goal.
    const GOAL_AT_START: Row = Row {
        flags: START | END | GOAL,
        place: 0,
        len: 0,
        first: 0,
        count: 0,
    };

    #[test]
    fn memory_suffices(rt: HostRuntime) {
        let rows = [GOAL_AT_START];
        let game = Sheet {
            rows: &rows,
            moves: &[],
        };
        let line = plan_line(rt.alloc(), "sheet", 1, game);
        assert!(rt; line.is_ok_and(|l| l.as_slice() == b"sheet 1: HELD 0, 0 lines\n".as_slice()));
        let printed = respond(rt.alloc(), &[]);
        assert!(rt; printed.is_ok_and(|t| t.as_slice() == b"REFUSED 2 0 0\n".as_slice()));
        let mut watch = Watch::new(game);
        assert!(rt; watch.plan().is_ok());
        let text = listing(rt.alloc(), &watch);
        assert!(rt; text.is_ok_and(|t| t.as_slice() == b"HELD 0\n".as_slice()));
    }
}
