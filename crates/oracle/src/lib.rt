// A second solver, for tests beside the first: every rule is worked out as it is worded, round after round over all
// states, with no queue and no list of predecessors. It shares no code with the first: both are asked over the interface
// of games, and this one's limits, verdict and faults are its own, so that a slip in the other's shows.
#![tactic(auto)]

use game::Game;
use std::alloc::{AllocError, Global};
use std::mem;

// No game has more labels.
const LABELS: u8 = 64;

// A larger game is refused.
const STATES: usize = 4096;

// The rank and the choice of a state.
// Kept: the shape of the first solver's cell, since by a rule of the project the second solver has types of its own.
#[derive(Clone, Copy, PartialEq, Eq, Debug, Default)]
pub struct Entry {
    pub rank: Option<u32>,
    pub choice: Option<u8>,
}

// What plan answers: the greatest rank of a start, or the lowest start without rank.
// Kept, as is Fault: a second opinion in the first's words would follow the first where those slip.
#[derive(Clone, Copy, PartialEq, Eq, Debug)]
pub enum Verdict {
    Held(u32),
    Lost(usize),
}

// Why a game has no plan, with the state and the label to blame.
#[derive(Clone, Copy, PartialEq, Eq, Debug)]
pub enum Fault {
    Size,
    NoStart,
    PublicStart(usize),
    NoLabel(usize),
    KeepsTurn(usize, u8),
}

// The state behind a label that is feasible.
// Kept as two parameters, here and below: a game is asked of a state, as in the trait.
fn step<G: Game>(game: &G, state: usize, label: u8) -> Option<usize> {
    if game.is_end(state) {
        None
    } else {
        game.next(state, label)
    }
}

// Kept beside game's: by a rule of the project the second solver works out every rule as it is worded.
fn is_done<G: Game>(game: &G, state: usize) -> bool {
    game.is_goal(state) && (!game.is_public(state) || game.is_end(state))
}

fn has_label<G: Game>(game: &G, state: usize) -> bool {
    (0..LABELS).any(|label| step(game, state, label).is_some())
}

// The faults in the order in which plan looks for them.
pub fn check<G: Game>(game: &G) -> Result<(), Fault> {
    let size = game.size();
    if size == 0 || size > STATES {
        return Err(Fault::Size);
    }
    if !(0..size).any(|state| game.is_start(state)) {
        return Err(Fault::NoStart);
    }
    for state in 0..size {
        check_state(game, state)?;
    }
    Ok(())
}

fn check_state<G: Game>(game: &G, state: usize) -> Result<(), Fault> {
    let public = game.is_public(state);
    if public && game.is_start(state) {
        return Err(Fault::PublicStart(state));
    }
    if !game.is_end(state) && !has_label(game, state) {
        return Err(Fault::NoLabel(state));
    }
    let keeps = |label: &u8| step(game, state, *label).is_some_and(|to| game.is_public(to)
        == public);
    match (0..LABELS).find(keeps) {
        Some(label) => Err(Fault::KeepsTurn(state, label)),
        None => Ok(()),
    }
}

// The rank and choice of every state of a game that plan accepts.
pub fn solve<G: Game>(heap: Global, game: &G, bars: u64) -> Result<Vec<Entry>, AllocError> {
    let mut entries = vec![in heap; Entry::default(); game.size().min(STATES)]?;
    // Kept as a loop: each round begins from the entries of the last, memory may run out, and it ends where nothing changes.
    for k in 0..STATES as u32 {
        let ranked = Ranked {
            game,
            entries: entries.as_slice(),
        };
        let after = ranked.round(heap, bars, k)?;
        if after == entries {
            break;
        }
        entries = after;
    }
    Ok(entries)
}

// What plan answers to a game with these ranks.
pub fn judge<G: Game>(game: &G, entries: &[Entry]) -> Verdict {
    Ranked { game, entries }.verdict()
}

// The verdict and, if it is held, a line for each kiosk state, not done, that plays by the choices reach.
pub fn listing<G: Game>(heap: Global, game: &G, entries: &[Entry]) -> Result<String, AllocError> {
    Ranked { game, entries }.listing(heap)
}

// A game, and the entries of its states.
#[derive(Drop)]
struct Ranked<'a, G> {
    game: &'a G,
    entries: &'a [Entry],
}

impl<'a, G: Game> Ranked<'a, G> {
    // The entries after round k, in which those states get rank k that have none yet and qualify by the states that
    // were ranked before.
    fn round(&self, heap: Global, bars: u64, k: u32) -> Result<Vec<Entry>, AllocError> {
        self.entries
            .iter()
            .enumerate()
            .map(|(state, entry)| match entry.rank {
                Some(_) => *entry,
                None => self.rank(bars, k, state),
            })
            .collect(heap)
    }

    // The entry that a state without rank gets in round k.
    fn rank(&self, bars: u64, k: u32, state: usize) -> Entry {
        let choice = self.choose(bars, state);
        let forced = self.game.is_public(state) && self.is_forced(state);
        if is_done(self.game, state) || forced || choice.is_some() {
            Entry {
                rank: Some(k),
                choice,
            }
        } else {
            Entry::default()
        }
    }

    // Whether the state was ranked in an earlier round.
    fn is_ranked(&self, state: usize) -> bool {
        self.entries
            .get(state)
            .is_some_and(|entry| entry.rank.is_some())
    }

    // Whether there are feasible labels, and all lead to states ranked before.
    fn is_forced(&self, state: usize) -> bool {
        has_label(self.game, state)
            && (0..LABELS)
                .filter_map(|label| step(self.game, state, label))
                .all(|to| self.is_ranked(to))
    }

    // The lowest unbarred label of a kiosk state, not done, to a state ranked before. An earlier round would have
    // ranked the state by a rank below k - 1, so the label leads to the least rank there is.
    fn choose(&self, bars: u64, state: usize) -> Option<u8> {
        if self.game.is_public(state) || is_done(self.game, state) {
            return None;
        }
        // The bars last: so the state is looked up once, and not for each label.
        (0..LABELS).find(|label| {
            step(self.game, state, *label).is_some_and(|to| self.is_ranked(to))
                && bars >> *label & 1 == 0
        })
    }

    // What plan answers: the greatest rank of a start, or the lowest start without rank.
    fn verdict(&self) -> Verdict {
        self.entries
            .iter()
            .enumerate()
            .filter(|(state, _)| self.game.is_start(*state))
            .try_fold(0, |greatest: u32, (state, entry)| {
                Ok(entry.rank.ok_or(state)?.max(greatest))
            })
            .map_or_else(Verdict::Lost, Verdict::Held)
    }

    // The verdict and, if it is held, a line for each kiosk state, not done, that plays by the choices reach.
    fn listing(&self, heap: Global) -> Result<String, AllocError> {
        let greatest = match self.verdict() {
            Verdict::Lost(state) => return format!(in heap; "LOST {state}\n"),
            Verdict::Held(rank) => rank,
        };
        let mut text = format!(in heap; "HELD {greatest}\n")?;
        let reached = self.reached(heap)?;
        for (state, (entry, there)) in self.entries.iter().zip(reached.iter()).enumerate() {
            if let (true, Some(label), Some(rank)) = (*there, entry.choice, entry.rank) {
                writeln!(text, "{state} {label} {rank}")?;
            }
        }
        Ok(text)
    }

    // Which states the plays by the choices reach from the starts.
    fn reached(&self, heap: Global) -> Result<Vec<bool>, AllocError> {
        let mut reached: Vec<bool> = (0..self.entries.len())
            .map(|state| self.game.is_start(state))
            .collect(heap)?;
        // Kept as a loop: it ends where nothing is added.
        for _ in 0..STATES {
            if !self.spread(reached.as_mut_slice()) {
                break;
            }
        }
        Ok(reached)
    }

    // Adds what one move reaches, and says whether a state was added.
    fn spread(&self, reached: &mut [bool]) -> bool {
        let mut changed = false;
        // Kept as a loop, and a flag for what it changed: a step writes anywhere into the slice that the loop walks, so no
        // iterator can lend the slice.
        for state in 0..reached.len() {
            if reached[state] {
                for to in (0..LABELS).filter_map(|label| self.played(state, label)) {
                    changed |= add(reached, to);
                }
            }
        }
        changed
    }

    // The state to which a play by the choices goes on with the label.
    fn played(&self, state: usize, label: u8) -> Option<usize> {
        let entry = self.entries.get(state)?;
        let chosen = entry.choice == Some(label);
        if is_done(self.game, state) || !self.game.is_public(state) && !chosen {
            return None;
        }
        step(self.game, state, label)
    }
}

// Whether the state was not there before.
fn add(reached: &mut [bool], state: usize) -> bool {
    reached
        .get_mut(state)
        .is_some_and(|there| !mem::replace(there, true))
}
