// The two tables of a sheet, a row for each state and the moves of all rows, and the game that they stand for.
#![tactic(auto)]

ghost use Rattle.std.specs.Prelude.{◌≡◌};
ghost use Rattle.sheet.specs.Sheets.{NextIs, sheet_next, sheet_meaning, target_of, has_flag};
ghost use Rattle.sheet.specs.SheetLaws.{sheet_lawful};

use game::Game;

// A state: flags, where its name lies in the bytes that hold the names, and which moves are its own.
#[derive(Clone, Copy, PartialEq, Eq, Debug)]
pub struct Row {
    pub flags: u8,
    pub place: usize,
    pub len: usize,
    pub first: usize,
    pub count: usize,
}

// A move of the row that counts it: a label and the state behind it.
#[derive(Clone, Copy, PartialEq, Eq, Debug)]
pub struct Move {
    pub label: u8,
    pub target: u16,
}

// An entry that is not in use.
pub const NO_ROW: Row = Row {
    flags: 0,
    place: 0,
    len: 0,
    first: 0,
    count: 0,
};

pub const NO_MOVE: Move = Move {
    label: 0,
    target: 0,
};

// The game over two tables, whatever they hold.
#[derive(Clone, Copy)]
pub struct Sheet<'a> {
    pub rows: &'a [Row],
    pub moves: &'a [Move],
}

// The flags of a row; its other bits mean nothing.
pub const PUBLIC: u8 = 1;

pub const START: u8 = 2;

pub const END: u8 = 4;

pub const GOAL: u8 = 8;

// The target of the first move with the label.
fn target_of(moves: &[Move], label: u8) -> Option<u16>
    ensures { result ≡ target_of label moves.now }
{
    let place = moves.iter().position(|entry| entry.label == label)?;
    Some(moves[place].target)
}

impl Sheet<'_> {
    fn has_flag(&self, flag: u8, state: usize) -> bool
        ensures { result ≡ has_flag self.now.rows.now flag state }
    {
        self.rows
            .get(state)
            .is_some_and(|row| row.flags & flag == flag)
    }

    // The state behind a label, looked for among the row's moves only.
    fn state_behind(&self, state: usize, label: u8) -> Option<usize>
        ensures { result ≡ sheet_next self.now.rows.now self.now.moves.now state label }
    {
        if label >= Self::CEILING {
            return None;
        }
        let row = self.rows.get(state)?;
        let rest = self.moves.get(row.first..)?;
        let own = rest.get(..row.count)?;
        let target = usize::from(target_of(own, label)?);
        (target < self.rows.len()).then_some(target)
    }
}

impl Game for Sheet<'_> {
    const CEILING: u8 = 64;

    ghost meaning = { λ s. sheet_meaning s.rows.now s.moves.now };

    ghost lawful = { λ s. sheet_lawful s.rows.now s.moves.now };

    fn labels(&self) -> u8 {
        Self::CEILING
    }

    fn size(&self) -> usize {
        self.rows.len()
    }

    fn is_public(&self, state: usize) -> bool {
        self.has_flag(PUBLIC, state)
    }

    fn is_start(&self, state: usize) -> bool {
        self.has_flag(START, state)
    }

    fn is_end(&self, state: usize) -> bool {
        self.has_flag(END, state)
    }

    fn is_goal(&self, state: usize) -> bool {
        self.has_flag(GOAL, state)
    }

    fn next(&self, state: usize, label: u8) -> Option<usize>
        ensures value { result ≡ sheet_next self.now.rows.now self.now.moves.now state label }
        ensures leads { NextIs self.now.rows.now self.now.moves.now state label result }
    {
        self.state_behind(state, label)
    }
}
