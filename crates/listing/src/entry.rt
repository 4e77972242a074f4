// What a line of the listing tells.
ghost use Rattle.std.specs.Prelude.{◌≡◌, ◌≤◌, [], ◌∷◌, length};
ghost use Rattle.listing.specs.Lines.{entry_text};
ghost use Rattle.text.specs.Lines.{line};
ghost use Rattle.text.specs.Pages.{Adds, Room};

use text::{Line, Page};

// A state, its choice and its rank.
#[derive(Clone, Copy, Drop)]
pub(crate) struct Entry {
    pub(crate) state: usize,
    pub(crate) label: u8,
    pub(crate) rank: u32,
}

impl Entry {
    // Kept: `u64` has no `From<usize>`, as in Rust.
    fn numbers(&self) -> [u64; 3]
        ensures { result ≡ self.now.state ∷ self.now.label ∷ self.now.rank ∷ [] }
    {
        [
            self.state as u64,
            u64::from(self.label),
            u64::from(self.rank),
        ]
    }

    // The length of the line.
    fn width(&self) -> usize
        ensures value { result ≡ length (line [] self.now.state self.now.label self.now.rank) }
        ensures few { result ≤ 63 }
    {
        Line {
            lead: b"",
            numbers: &self.numbers(),
        }
        .width()
    }

    // Puts the line, for which there is room.
    fn put(&self, page: &mut Page)
        requires { Room page.old (length (line [] self.now.state self.now.label self.now.rank)) }
        ensures { Adds page.old (line [] self.now.state self.now.label self.now.rank) page.new }
    {
        let line = Line {
            lead: b"",
            numbers: &self.numbers(),
        };
        page.put(&line).unwrap();
    }
}

pub(crate) fn entry_width(entry: Option<Entry>) -> usize
    ensures value { result ≡ length (entry_text entry) }
    ensures few { result ≤ 63 }
{
    entry.map_or(0, |e| e.width())
}

// Puts a line for which there is room.
pub(crate) fn put_entry(page: &mut Page, entry: Option<Entry>)
    requires { Room page.old (length (entry_text entry)) }
    ensures { Adds page.old (entry_text entry) page.new }
{
    if let Some(e) = entry {
        e.put(page);
    }
}
