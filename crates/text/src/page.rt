// An output, written from a place on.
ghost use Rattle.std.specs.Prelude.{◌≡◌, ◌+◌, length, decimal, nat_le};
ghost use Rattle.std.specs.Option.{unwrap_or};
ghost use Rattle.text.specs.Lines.{spaced};
ghost use Rattle.text.specs.Places.{placed};
ghost use Rattle.text.specs.Pages.{Adds, Room};
ghost use Rattle.text.specs.Texts.{text_of};

use crate::line::Line;
use itoa::Buffer;

// An output, and the place from which on it is written.
#[derive(Drop)]
pub struct Page<'a> {
    pub out: &'a mut [u8],
    pub at: usize,
}

impl Page<'_> {
    // Puts a line at the place, and answers where it ends, which is then the place. Where it does not fit, the page stays
    // as found.
    pub fn put(&mut self, line: &Line) -> Option<usize>
        ensures same { self.new.out.ghost_name ≡ self.old.out.ghost_name }
        ensures placed { (result, self.new.out.now) ≡ placed self.old.at (text_of line.now) self.old.out.now }
        ensures moved { self.new.at ≡ unwrap_or result self.old.at }
    {
        if !self.has_room(line.width()) {
            return None;
        }
        self.write_line(line);
        Some(self.at)
    }

    // Whether `k` bytes fit from the place on.
    fn has_room(&self, k: usize) -> bool
        ensures { result ≡ nat_le (self.now.at + k) (length self.now.out.now) }
    {
        self.at <= self.out.len() && k <= self.out.len() - self.at
    }

    // Writes a line that fits.
    fn write_line(&mut self, line: &Line)
        requires { Room self.old (length (text_of line.now)) }
        ensures { Adds self.old (text_of line.now) self.new }
    {
        self.write(line.lead);
        self.write_numbers(line.numbers);
        self.write(b"\n");
    }

    // Writes numbers that fit, with a blank between each two.
    fn write_numbers(&mut self, numbers: &[u64])
        requires { Room self.old (length (spaced numbers.now)) }
        ensures { Adds self.old (spaced numbers.now) self.new }
    {
        let [first, more @ ..] = numbers else {
            return;
        };
        self.write_number(*first);
        for n in more {
            self.write(b" ");
            self.write_number(*n);
        }
    }

    // Writes a number that fits.
    fn write_number(&mut self, n: u64)
        requires { Room self.old (length (decimal n)) }
        ensures { Adds self.old (decimal n) self.new }
    {
        self.write(Buffer::new().format(n).as_bytes());
    }

    // Writes a text that fits.
    fn write(&mut self, text: &[u8])
        requires { Room self.old (length text.now) }
        ensures { Adds self.old text.now self.new }
    {
        let end = self.at + text.len();
        self.out[self.at..end].copy_from_slice(text);
        self.at = end;
    }
}
