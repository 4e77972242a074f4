// One game in both solvers.
ghost use Rattle.std.specs.Prelude.{◌≡◌};
ghost use Rattle.compare.specs.Entries.{entry_of};

use game::Game;
use law::{Fault, Rating, Verdict};
use listing::{ListFault, list};
use oracle::Entry;
use solver::Cell;
use std::alloc::{AllocError, Global};
use std::fmt;
use std::ops::AddAssign;
use watch::Watch;

// How the watch answers plan, and whether both solvers agree.
#[derive(Clone, Copy)]
pub struct Comparison {
    pub plan: Result<Verdict, Fault>,
    pub agreed: bool,
}

// Games counted by how they came out, and in how many of them both solvers agreed.
#[derive(Clone, Copy, Default)]
pub struct Tally {
    pub compared: u32,
    pub agreed: u32,
    pub held: u32,
    pub lost: u32,
    pub refused: u32,
}

impl From<Comparison> for Tally {
    fn from(one: Comparison) -> Tally {
        Tally {
            compared: 1,
            agreed: u32::from(one.agreed),
            held: u32::from(matches!(one.plan, Ok(Verdict::Held(_)))),
            lost: u32::from(matches!(one.plan, Ok(Verdict::Lost(_)))),
            refused: u32::from(one.plan.is_err()),
        }
    }
}

impl fmt::Display for Tally {
    fn fmt<W: fmt::Write>(&self, f: &mut fmt::Formatter<W>) -> fmt::Result {
        let Tally {
            compared,
            agreed,
            held,
            lost,
            refused,
        } = *self;
        write!(
            f,
            "{compared} compared, {agreed} agreed; {held} held, {lost} lost, {refused} refused"
        )
    }
}

impl AddAssign for Tally {
    fn add_assign(&mut self, more: Tally) {
        self.compared = self.compared.wrapping_add(more.compared);
        self.agreed = self.agreed.wrapping_add(more.agreed);
        self.held = self.held.wrapping_add(more.held);
        self.lost = self.lost.wrapping_add(more.lost);
        self.refused = self.refused.wrapping_add(more.refused);
    }
}

impl Tally {
    // Compares one game more, under the bars.
    pub fn compare<G: Game + Copy>(
        &mut self,
        heap: Global,
        game: G,
        bars: u64,
    ) -> Result<(), AllocError> {
        *self += Tally::from(compare(heap, game, bars)?);
        Ok(())
    }
}

// Plans the game under the bars in both, and says whether they agree on the verdict, on every rank and choice and on
// the listing, or on the fault.
pub fn compare<G: Game + Copy>(heap: Global, game: G, bars: u64) -> Result<Comparison, AllocError> {
    let mut watch = Watch::new(game);
    set_bars(&mut watch, bars);
    let plan = watch.plan();
    let agreed = match (plan, oracle::check(&game)) {
        (Ok(verdict), Ok(())) => {
            let entries = oracle::solve(heap, &game, bars)?;
            let same = same_verdict(verdict, oracle::judge(&game, entries.as_slice()))
                && same_entries(&mut watch, entries.as_slice());
            let text = oracle::listing(heap, &game, entries.as_slice())?;
            same && same_listing(heap, &watch, text.as_bytes())?
        }
        (Err(fault), Err(other)) => same_fault(fault, other) && is_unlisted(&watch),
        _ => false,
    };
    Ok(Comparison { plan, agreed })
}

// Bars every label, and lifts all that are not in the set.
fn set_bars<G: Game>(watch: &mut Watch<G>, bars: u64) {
    for label in 0..64u8 {
        let _ = watch.bar(label);
        if bars >> label & 1 == 0 {
            let _ = watch.lift(label);
        }
    }
}

fn same_verdict(verdict: Verdict, other: oracle::Verdict) -> bool {
    let expected = match other {
        oracle::Verdict::Held(most) => Verdict::Held(most),
        oracle::Verdict::Lost(first) => Verdict::Lost(first),
    };
    verdict == expected
}

// Whether the faults are the same, and have the number, the state and the label of their kind.
// Kept: the numbers are spelled again, as a test of those in law.
fn same_fault(fault: Fault, other: oracle::Fault) -> bool {
    let (expected, named) = match other {
        oracle::Fault::Size => (Fault::Size, (8, 0, 0)),
        oracle::Fault::NoStart => (Fault::NoStart, (9, 0, 0)),
        oracle::Fault::NoLabel(state) => (Fault::Stuck { state }, (10, state, 0)),
        oracle::Fault::KeepsTurn(state, label) => (
            Fault::KeepsTurn { state, label },
            (11, state, label),
        ),
        oracle::Fault::PublicStart(state) => (Fault::PublicStart { state }, (12, state, 0)),
    };
    fault == expected && (fault.number(), fault.state(), fault.label()) == named
}

// Whether every state has the rank and the choice of its entry, in its cell and by its rating.
fn same_entries<G: Game>(watch: &mut Watch<G>, entries: &[Entry]) -> bool {
    entries.iter().enumerate().all(|(state, entry)| {
        // Kept, here and below: no From turns a cell or a rating into an entry, since none of the types is this crate's, and
        // neither solver's crate knows the other.
        let Cell { rank, choice } = solver::cell_at(watch.cells(), state);
        let rated = watch.rate(state).map(entry_of);
        Entry { rank, choice } == *entry && rated == Ok(*entry)
    })
}

// The rank and the choice that a rating shows.
fn entry_of(rating: Rating) -> Entry
    ensures { result ≡ entry_of rating }
{
    let (rank, choice) = match rating {
        Rating::Done => (Some(0), None),
        Rating::Kiosk { rank, choice } => (Some(rank), Some(choice)),
        Rating::Public { rank } => (Some(rank), None),
        _ => (None, None),
    };
    Entry { rank, choice }
}

fn same_listing<G: Game>(heap: Global, watch: &Watch<G>, text: &[u8]) -> Result<bool, AllocError> {
    Ok(brief::listing(heap, watch)?.as_slice() == text)
}

// Whether the watch refuses to list for want of a plan.
fn is_unlisted<G: Game>(watch: &Watch<G>) -> bool {
    list(watch, &mut [0; 64]) == Err(ListFault::NoPlan)
}
