// A line of decimal numbers, as data.
ghost use Rattle.std.specs.Prelude.{◌≡◌, ◌+◌, ◌*◌, ◌^◌, ◌<◌, ◌≤◌, max, length};
ghost use Rattle.text.specs.Lines.{digits_of};

use itoa::Buffer;

// Numbers behind the bytes that lead them, as `HELD 4`: a blank between each two, a line feed at the end.
#[derive(Clone, Copy, Drop)]
pub struct Line<'a> {
    pub lead: &'a [u8],
    pub numbers: &'a [u64],
    pub ghost few: { length numbers.now < 2 ^ 32 },
}

impl Line<'_> {
    ghost use Rattle.text.specs.Texts.{text_of};

    // The length of the line.
    pub fn width(&self) -> usize
        ensures value { result ≡ length (text_of self.now) }
        ensures few { result
            ≤ length self.now.lead.now + max 1 (21 * length self.now.numbers.now) }
    {
        self.lead.len() + widths(self.numbers)
    }
}

// What numbers, their blanks and a line feed add to the bytes before them.
fn widths(numbers: &[u64]) -> usize
    requires { length numbers.now < 2 ^ 32 }
    ensures value { result ≡ digits_of numbers.now + max 1 (length numbers.now) }
    ensures few { result ≤ max 1 (21 * length numbers.now) }
{
    digits(numbers) + numbers.len().max(1)
}

// The number of digits of all numbers.
fn digits(numbers: &[u64]) -> usize
    requires { digits_of numbers.now < 2 ^ 64 }
    ensures { result ≡ digits_of numbers.now }
{
    numbers.iter().map(|&n| Buffer::new().format(n).len()).sum()
}
