// What a watch is asked and answers, and the law of every list of calls.
#![tactic(auto)]

ghost use Rattle.std.specs.Prelude.{◌≡◌};
ghost use Rattle.law.specs.Faults.{number_of, named_state, named_label};

mod display;

// The most states of a game that a watch plans over.
pub const MOST: usize = 4096;

// Why a call on a watch is refused.
#[derive(Clone, Copy, Drop, PartialEq, Eq, Debug)]
pub enum Fault {
    // The game has no state, or more than 4,096.
    Size,
    // The game has no start.
    NoStart,
    // A state that is no end has no feasible label.
    Stuck { state: usize },
    // A feasible label leads to a state at the same turn.
    KeepsTurn { state: usize, label: u8 },
    // A start is at the public's turn.
    PublicStart { state: usize },
    // A run is to be opened at a state that is no start.
    NotStart,
    // A number that is no state is to be rated.
    NoState,
    // A label at or above the ceiling is to be barred or lifted.
    NoLabel,
    // A label that is not feasible is reported.
    NotFeasible,
    NoRun,
    RunOpen,
    RunOver,
    OtherTurn,
    NoPlan,
    NoRank,
}

impl Fault {
    // The number of the refusal.
    pub fn number(&self) -> u8
        ensures { result ≡ number_of self.now }
    {
        match self {
            Fault::Size => 8,
            Fault::NoStart => 9,
            Fault::Stuck { .. } => 10,
            Fault::KeepsTurn { .. } => 11,
            Fault::PublicStart { .. } => 12,
            Fault::NotStart => 13,
            Fault::NoState => 14,
            Fault::NoLabel => 15,
            Fault::NotFeasible => 16,
            Fault::NoRun => 17,
            Fault::RunOpen => 18,
            Fault::RunOver => 19,
            Fault::OtherTurn => 20,
            Fault::NoPlan => 21,
            Fault::NoRank => 22,
        }
    }

    // The state that the refusal names, or 0.
    // Kept as a number, as is the label: 0 is what is printed where a refusal names nothing.
    pub fn state(&self) -> usize
        ensures { result ≡ named_state self.now }
    {
        match *self {
            Fault::Stuck { state }
            | Fault::KeepsTurn { state, .. }
            | Fault::PublicStart { state } => state,
            _ => 0,
        }
    }

    // The label that the refusal names, or 0.
    pub fn label(&self) -> u8
        ensures { result ≡ named_label self.now }
    {
        match *self {
            Fault::KeepsTurn { label, .. } => label,
            _ => 0,
        }
    }
}

// What plan says: held, with the highest rank of a start, or lost, with the lowest start that has no rank.
// Kept, and no Result: lost is an answer and no error, and `?` would hand it on like a refusal of plan.
#[derive(Clone, Copy, Drop, PartialEq, Eq, Debug)]
pub enum Verdict {
    Held(u32),
    Lost(usize),
}

// What rate says of a state. A lost public state has the lowest label that leads to a state without rank.
#[derive(Clone, Copy, Drop, PartialEq, Eq, Debug)]
pub enum Rating {
    Done,
    Kiosk { rank: u32, choice: u8 },
    Public { rank: u32 },
    LostEnd,
    LostKiosk,
    LostPublic { label: u8 },
}

// What look shows. Without a run there is no position and no turn, and nothing is over.
// Kept as fields of their own and no Option of all three: callers read them by name, and what is printed shows each.
#[derive(Clone, Copy, Drop, PartialEq, Eq, Debug)]
pub struct View {
    pub position: Option<usize>,
    // Whether the position is at the public's turn.
    pub public: Option<bool>,
    pub over: bool,
    // Label l is barred if bit l is set.
    pub bars: u64,
    pub planned: bool,
    pub refusals: u32,
}

#[derive(Clone, Copy, Drop, PartialEq, Eq, Debug)]
pub enum Call {
    Plan,
    Open(usize),
    Reply,
    Report(u8),
    Rate(usize),
    Bar(u8),
    Lift(u8),
    Look,
    Leave,
}

#[derive(Clone, Copy, Drop, PartialEq, Eq, Debug)]
pub enum Answer {
    Planned(Verdict),
    // The rank of the start.
    Opened(u32),
    Replied { label: u8, rank: u32 },
    // The new position.
    Reported(usize),
    Rated(Rating),
    // How many labels are now barred.
    Barred(u32),
    Seen(View),
    // The last position.
    Left(usize),
    Refused(Fault),
}
