// Calls read from text.
ghost use Rattle.std.specs.Prelude.{◌≡◌, ◌+◌, ◌-◌, ◌*◌, min, cond, Some, None};
ghost use Rattle.std.specs.Char.{is_ascii_digit};
ghost use Rattle.std.specs.Str.{bytes_eq};
ghost use Rattle.console.specs.Calls.{numeral, clamped, state_behind, label_behind, bare_call, state_call, label_call, call_of, most_state, ReadsBack};

use law::Call;

// A number with one digit more, if the byte is one; a number that gets too large is the highest one from then on.
fn with_digit(n: usize, c: &u8) -> Option<usize>
    ensures { result ≡ cond (is_ascii_digit c.now) (Some (min (n * 10 + (c.now - 48)) most_state)) None }
{
    if c.is_ascii_digit() {
        Some(n.saturating_mul(10).saturating_add(usize::from(*c - b'0')))
    } else {
        None
    }
}

// The number that decimal digits write, or the highest one if it is too large.
pub fn parse_number(digits: &[u8]) -> Option<usize>
    ensures { result ≡ clamped most_state (numeral digits.now) }
{
    if digits.is_empty() {
        return None;
    }
    digits.iter().try_fold(0, with_digit)
}

// The state behind the lead, in a line that begins with it.
fn state_behind(lead: &[u8], line: &[u8]) -> Option<usize>
    ensures { result ≡ state_behind lead.now line.now }
{
    line.strip_prefix(lead).and_then(parse_number)
}

// The label behind the lead; a number that is too large for one is the highest one.
fn label_behind(lead: &[u8], line: &[u8]) -> Option<u8>
    ensures { result ≡ label_behind lead.now line.now }
{
    state_behind(lead, line).map(|n| u8::try_from(n).unwrap_or(u8::MAX))
}

// A call of one word.
fn bare_call(line: &[u8]) -> Option<Call>
    ensures { result ≡ bare_call line.now }
{
    match line {
        b"plan" => Some(Call::Plan),
        b"reply" => Some(Call::Reply),
        b"look" => Some(Call::Look),
        b"leave" => Some(Call::Leave),
        _ => None,
    }
}

// A call with a state.
fn state_call(line: &[u8]) -> Option<Call>
    ensures { result ≡ state_call line.now }
{
    let open = state_behind(b"open ", line).map(Call::Open);
    open.or_else(|| state_behind(b"rate ", line).map(Call::Rate))
}

// A call with a label.
fn label_call(line: &[u8]) -> Option<Call>
    ensures { result ≡ label_call line.now }
{
    let report = label_behind(b"report ", line).map(Call::Report);
    report
        .or_else(|| label_behind(b"bar ", line).map(Call::Bar))
        .or_else(|| label_behind(b"lift ", line).map(Call::Lift))
}

// The call that a line is; a line that is no call is none.
pub fn parse_call(line: &[u8]) -> Option<Call>
    ensures value { result ≡ call_of line.now }
    ensures back { ReadsBack line.now result }
{
    bare_call(line)
        .or_else(|| state_call(line))
        .or_else(|| label_call(line))
}
