// The format of a sheet: what its bytes and its tables stand for, and the laws that bind the two.
#![tactic(auto)]

ghost use Rattle.std.specs.Prelude.{◌≡◌};
ghost use Rattle.format.specs.Faults.{number_of, row_named};

// A move with its source, as a record gives it.
#[derive(Clone, Copy, PartialEq, Eq, Debug)]
pub struct Arc {
    pub source: u16,
    pub label: u8,
    pub target: u16,
}

// How many states and moves a reading found.
#[derive(Clone, Copy, PartialEq, Eq, Debug)]
pub struct Counts {
    pub states: u16,
    pub moves: usize,
}

// Why a sheet is not written: its size, the first row that no reading gives (or the number of rows, if moves are
// left over), or an output too short.
#[derive(Clone, Copy, PartialEq, Eq, Debug)]
pub enum WriteFault {
    Size,
    Unsound { row: usize },
    Room,
}

impl WriteFault {
    // The number that the fault is known by.
    pub fn number(&self) -> u8
        ensures { result ≡ number_of self.now }
    {
        match self {
            WriteFault::Size => 8,
            WriteFault::Unsound { .. } => 3,
            WriteFault::Room => 7,
        }
    }

    // The row at fault: 0 where no row is.
    // Kept as a number: 0 is what a refusal names that names no row.
    pub fn row(&self) -> usize
        ensures { result ≡ row_named self.now }
    {
        match *self {
            WriteFault::Unsound { row } => row,
            _ => 0,
        }
    }
}
