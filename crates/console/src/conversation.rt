// A conversation with a new watch: lines in, one line out for each.
ghost use Rattle.std.specs.Prelude.{◌≡◌, IfOk, string_bytes, ◌==◌, map};
ghost use Rattle.std.specs.List.{slice_split};
ghost use Rattle.console.specs.Calls.{EveryCallHasALine, call_of};
ghost use Rattle.console.specs.Conversation.{Answered, Conversation, calls_in, readable, transcript};

use crate::calls::parse_call;
use game::Game;
use law::{Answer, Call};
use std::alloc::{AllocError, Global};
use watch::watch_all;

// What each part of the input between line feeds is: a call, or none.
// Kept as two parameters, here and below: what allocates is given the heap.
fn read_parts(heap: Global, input: &[u8]) -> Result<Vec<Option<Call>>, AllocError>
    ensures { IfOk result (λ v. v.items ≡ map call_of (slice_split (λ c. c == 10) input.now)) }
{
    input.split(|c| *c == b'\n').map(parse_call).collect(heap)
}

// What each line of the input is: a call, or none. The last line may lack its line feed.
fn read_calls(heap: Global, input: &[u8]) -> Result<Vec<Option<Call>>, AllocError>
    ensures { IfOk result (λ v. v.items ≡ calls_in input.now) }
{
    // An input without a line takes no memory.
    if input.is_empty() {
        return Ok(Vec::new(heap));
    }
    let mut lines = read_parts(heap, input)?;
    // What follows the last line feed is a line only if something stands there.
    if input.last().is_none_or(|c| *c == b'\n') {
        lines.pop();
    }
    Ok(lines)
}

// The lines that are calls.
fn readable(heap: Global, lines: &[Option<Call>]) -> Result<Vec<Call>, AllocError>
    ensures { IfOk result (λ v. v.items ≡ readable lines.now) }
{
    lines.iter().filter_map(|line| *line).collect(heap)
}

// A line for each line of the input: the next answer for a call.
fn show_answers(
    heap: Global,
    lines: &[Option<Call>],
    answers: &[Answer],
) -> Result<String, AllocError>
    ensures { IfOk result (λ t. string_bytes t ≡ transcript lines.now answers.now) }
{
    let mut text = String::new(heap);
    let mut answers = answers.iter();
    for line in lines {
        if line.is_none() {
            text.push_str("unreadable\n")?;
        } else if let Some(answer) = answers.next() {
            writeln!(text, "{answer}")?;
        } else {
            break;
        }
    }
    Ok(text)
}

// The answers of a new watch over the game to the calls.
// Kept: watch_all, on which the law of a whole list stands, fills memory that it is lent.
fn answer_all<G: Game + Drop>(
    heap: Global,
    game: G,
    calls: &[Call],
) -> Result<Vec<Answer>, AllocError>
    ensures { IfOk result (λ v. Answered (G.meaning game) calls.now v.items) }
{
    let mut answers = vec![in heap; Answer::Barred(0); calls.len()]?;
    let _ = watch_all(game, calls, answers.as_mut_slice());
    Ok(answers)
}

// Asks a new watch over the game the calls in the input, and tells its answers: a line for each line of the input.
#[tactic(auto, using(crate::proofs::Back::read_back))]
pub fn converse<G: Game + Drop>(heap: Global, game: G, input: &[u8]) -> Result<String, AllocError>
    ensures told { IfOk result (λ t. Conversation (G.meaning game) input.now (string_bytes t)) }
    ensures complete { EveryCallHasALine }
{
    let lines = read_calls(heap, input)?;
    let calls = readable(heap, lines.as_slice())?;
    let answers = answer_all(heap, game, calls.as_slice())?;
    show_answers(heap, lines.as_slice(), answers.as_slice())
}
