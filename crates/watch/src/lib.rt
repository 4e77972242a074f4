// The watch: it plans over a game, answers the public move by move, and may be asked nine calls in any order.
#![tactic(auto)]

ghost use Rattle.std.specs.Prelude.{◌≡◌, ◌<◌, true, false, not, [], is_some, IfOk, Some, None, Ok, OnOk};
ghost use Rattle.std.specs.Option.{option_map, unwrap_or};
ghost use Rattle.game.specs.Final.{Final, NoneEndless};
ghost use Rattle.game.specs.Search.{count_below};
ghost use Rattle.game.specs.Ranks.{leads_to, rank, set_label, witness_by};
ghost use Rattle.law.specs.declared.Fault.TheVariants.{NoPlan};
ghost use Rattle.law.specs.declared.Call.TheVariants.{Plan, Open, Reply, Report, Rate, Bar, Lift, Look, Leave};
ghost use Rattle.law.specs.declared.Answer.TheVariants.{Planned, Opened, Reported, Rated, Barred, Seen, Left};
ghost use Rattle.law.specs.Checks.{first_fault, Checked};
ghost use Rattle.law.specs.Verdicts.{VerdictIs};
ghost use Rattle.law.specs.Answers.{refuse_if, plan_answer, plan_verdict, open_answer, reply_answer, chosen_move, report_answer, rating, rate_answer, change_answer, look_answer, over_at, leave_answer};
ghost use Rattle.law.specs.Log.{behind};
ghost use Rattle.law.specs.Law.{answered, replied};
ghost use Rattle.watch.specs.Memory.{position_at, bars_of, ranking_of, new_memory, counted, moved_to, after, AfterPlan, replied_to, changed, change_call};
ghost use Rattle.watch.specs.Lived.{Lived, Extends};

use game::{Game, is_done};
use law::{Fault, MOST, Rating, Verdict, View};
use solver::{Cell, EMPTY, cell_at};

mod parts;
mod session;

pub use session::watch_all;

// A cell with rank and choice for each state.
#[derive(Drop)]
pub struct Table {
    cells: [Cell; MOST],
}

// What a watch holds beside its game.
#[derive(Drop)]
pub struct Memory {
    // Label l is barred if bit l is set.
    bars: u64,
    position: Option<usize>,
    // Kept beside the table and not as an Option of it: no heap here, so the table stays in its place, and the solver is lent
    // it there.
    planned: bool,
    refusals: u32,
    table: Table,
}

impl Memory {
    // No bars, no run, no plan, and nothing refused.
    // Inlined: the table is made where it stays, and not copied there.
    #[inline(always)]
    fn new() -> Memory
        ensures { result ≡ new_memory }
    {
        Memory {
            bars: 0,
            position: None,
            planned: false,
            refusals: 0,
            table: Table {
                cells: [EMPTY; MOST],
            },
        }
    }

    // One refusal more; the count stays at its highest value once there.
    fn count_refusal(&mut self)
        ensures { self.new ≡ counted self.old }
    {
        self.refusals = self.refusals.saturating_add(1);
    }

    // Counts a refusal, or takes the run to the position.
    fn finish<T: Copy>(
        &mut self,
        answer: Result<T, Fault>,
        position: Option<usize>,
    ) -> Result<T, Fault>
        ensures value { result ≡ answer }
        ensures after { self.new ≡ after result self.old (moved_to self.old position) }
    {
        match answer {
            Ok(_) => self.position = position,
            Err(_) => self.count_refusal(),
        }
        answer
    }

    // Puts a label into the set of bars or takes it out, and answers how many are then in it. The plan falls if the set
    // changes.
    fn set_bar(&mut self, label: u8, member: bool) -> u32
        requires { label < 64 }
        ensures value { result ≡ count_below (set_label (bars_of self.old) label member) 64 }
        ensures after { self.new ≡ changed self.old label member }
    {
        let stays = labelset::contains(self.bars, label) == member;
        self.bars = labelset::put(self.bars, label, member);
        self.planned &= stays;
        labelset::size(self.bars)
    }

    // Refuses what needs a plan where none stands.
    fn check_plan(&self) -> Result<(), Fault>
        ensures { result ≡ refuse_if (not self.now.planned) NoPlan (Ok tt) }
    {
        if self.planned {
            Ok(())
        } else {
            Err(Fault::NoPlan)
        }
    }

    fn rank(&self, s: usize) -> Option<u32>
        ensures { result ≡ (ranking_of self.now).rank s }
    {
        cell_at(&self.table.cells, s).rank
    }

    fn choice(&self, s: usize) -> Option<u8>
        ensures { result ≡ (ranking_of self.now).choice s }
    {
        cell_at(&self.table.cells, s).choice
    }
}

#[derive(Drop)]
pub struct Watch<G> {
    game: G,
    memory: Memory,
}

// Kept: each of the nine calls says `same`, `value`, `after` and `extends` itself, since those are its promises by name.
impl<G: Game> Watch<G> {
    // A new watch: no bars, no run, no plan, and nothing refused.
    pub fn new(game: G) -> Watch<G>
        ensures same { result.game ≡ game }
        ensures value { result.memory ≡ new_memory }
        ensures lived { Lived (G.meaning game) [] result.memory }
    {
        Watch {
            game,
            memory: Memory::new(),
        }
    }

    // Checks the game, works out ranks and choices under the bars, and makes the plan stand.
    pub fn plan(&mut self) -> Result<Verdict, Fault>
        ensures same { self.new.game ≡ self.old.game }
        ensures value { result ≡ plan_answer (first_fault (G.meaning self.old.game)) (plan_verdict (G.meaning self.old.game) (rank (G.meaning self.old.game) (bars_of self.old.memory))) }
        ensures after { AfterPlan (G.meaning self.old.game) self.old.memory result self.new.memory }
        ensures extends { Extends (G.meaning self.old.game) self.old.memory Plan (answered Planned result) self.new.memory }
        ensures checked { Checked (G.meaning self.old.game) result }
        ensures word { IfOk result (VerdictIs (G.meaning self.old.game) (bars_of self.old.memory)) }
        ensures finality { OnOk result (Final (G.meaning self.old.game) (bars_of self.old.memory)) }
        ensures endless { OnOk result (NoneEndless (G.meaning self.old.game) (bars_of self.old.memory)) }
    {
        if let Some(fault) = checks::find_fault(&self.game) {
            self.memory.count_refusal();
            return Err(fault);
        }
        let _ = solver::solve(&self.game, self.memory.bars, &mut self.memory.table.cells);
        self.memory.planned = true;
        Ok(solver::outcome::verdict(&self.game, &self.memory.table.cells))
    }

    // In this and the others the faults are looked for in the order in which they are named: the first one refuses the call.
    fn judge_open(&self, state: usize) -> Result<u32, Fault>
        ensures { result ≡ open_answer (G.meaning self.now.game) (ranking_of self.now.memory) self.now.memory.planned self.now.memory.position state }
    {
        if self.memory.position.is_some() {
            return Err(Fault::RunOpen);
        }
        if !self.game.is_start(state) {
            return Err(Fault::NotStart);
        }
        self.memory.check_plan()?;
        self.memory.rank(state).ok_or(Fault::NoRank)
    }

    // Begins a run at a start, and answers its rank.
    pub fn open(&mut self, state: usize) -> Result<u32, Fault>
        ensures same { self.new.game ≡ self.old.game }
        ensures value { result ≡ open_answer (G.meaning self.old.game) (ranking_of self.old.memory) self.old.memory.planned self.old.memory.position state }
        ensures after { self.new.memory ≡ after result self.old.memory (moved_to self.old.memory (Some state)) }
        ensures extends { Extends (G.meaning self.old.game) self.old.memory (Open state) (answered Opened result) self.new.memory }
    {
        let answer = self.judge_open(state);
        self.memory.finish(answer, Some(state))
    }

    // The position of a run that goes on, at the turn that is asked for.
    fn position_at(&self, public: bool) -> Result<usize, Fault>
        ensures { result ≡ position_at (G.meaning self.now.game) self.now.memory.position public }
    {
        let p = self.memory.position.ok_or(Fault::NoRun)?;
        if is_done(&self.game, p) {
            return Err(Fault::RunOver);
        }
        if self.game.is_public(p) != public {
            return Err(Fault::OtherTurn);
        }
        Ok(p)
    }

    fn judge_reply(&self) -> Result<(u8, u32), Fault>
        ensures { result ≡ reply_answer (G.meaning self.now.game) (ranking_of self.now.memory) self.now.memory.planned self.now.memory.position }
    {
        let p = self.position_at(false)?;
        self.memory.check_plan()?;
        self.memory.rank(p).ok_or(Fault::NoRank)?;
        self.chosen(p)
    }

    // The choice at a position, and the rank behind it.
    fn chosen(&self, p: usize) -> Result<(u8, u32), Fault>
        ensures { result ≡ chosen_move (G.meaning self.now.game) (ranking_of self.now.memory) p ((ranking_of self.now.memory).choice p) }
    {
        let label = self.memory.choice(p).ok_or(Fault::NoRank)?;
        let to = self.game.next(p, label).ok_or(Fault::NoRank)?;
        let rank = self.memory.rank(to).ok_or(Fault::NoRank)?;
        Ok((label, rank))
    }

    // The state behind a label, from the position if there is one.
    fn behind(&self, label: u8) -> Option<usize>
        ensures { result ≡ behind (G.meaning self.now.game) self.now.memory.position label }
    {
        self.memory.position.and_then(|p| self.game.next(p, label))
    }

    fn replied_to(&self, answer: Result<(u8, u32), Fault>) -> Option<usize>
        ensures { result ≡ replied_to (G.meaning self.now.game) self.now.memory answer }
    {
        answer.ok().and_then(|(label, _)| self.behind(label))
    }

    // Makes the chosen move, and answers the label and the rank of the new position.
    pub fn reply(&mut self) -> Result<(u8, u32), Fault>
        ensures same { self.new.game ≡ self.old.game }
        ensures value { result ≡ reply_answer (G.meaning self.old.game) (ranking_of self.old.memory) self.old.memory.planned self.old.memory.position }
        ensures after { self.new.memory ≡ after result self.old.memory (moved_to self.old.memory (replied_to (G.meaning self.old.game) self.old.memory result)) }
        ensures extends { Extends (G.meaning self.old.game) self.old.memory Reply (answered replied result) self.new.memory }
    {
        let answer = self.judge_reply();
        let to = self.replied_to(answer);
        self.memory.finish(answer, to)
    }

    fn judge_report(&self, label: u8) -> Result<usize, Fault>
        ensures { result ≡ report_answer (G.meaning self.now.game) self.now.memory.position label }
    {
        let p = self.position_at(true)?;
        if self.game.is_end(p) {
            return Err(Fault::NotFeasible);
        }
        self.game.next(p, label).ok_or(Fault::NotFeasible)
    }

    // Makes the public's move, plan or no plan, and answers the new position.
    pub fn report(&mut self, label: u8) -> Result<usize, Fault>
        ensures same { self.new.game ≡ self.old.game }
        ensures value { result ≡ report_answer (G.meaning self.old.game) self.old.memory.position label }
        ensures after { self.new.memory ≡ after result self.old.memory (moved_to self.old.memory (behind (G.meaning self.old.game) self.old.memory.position label)) }
        ensures extends { Extends (G.meaning self.old.game) self.old.memory (Report label) (answered Reported result) self.new.memory }
    {
        let answer = self.judge_report(label);
        let to = self.behind(label);
        self.memory.finish(answer, to)
    }

    fn judge_rate(&self, state: usize) -> Result<Rating, Fault>
        ensures { result ≡ rate_answer (G.meaning self.now.game) (ranking_of self.now.memory) self.now.memory.planned state }
    {
        if state >= self.game.size() {
            return Err(Fault::NoState);
        }
        self.memory.check_plan()?;
        Ok(self.rating(state))
    }

    // Says of a state whether it is done, held with its rank and choice, or lost and how.
    pub fn rate(&mut self, state: usize) -> Result<Rating, Fault>
        ensures same { self.new.game ≡ self.old.game }
        ensures value { result ≡ rate_answer (G.meaning self.old.game) (ranking_of self.old.memory) self.old.memory.planned state }
        ensures after { self.new.memory ≡ after result self.old.memory self.old.memory }
        ensures extends { Extends (G.meaning self.old.game) self.old.memory (Rate state) (answered Rated result) self.new.memory }
    {
        let answer = self.judge_rate(state);
        let stay = self.memory.position;
        self.memory.finish(answer, stay)
    }

    // Bars a label or lifts its bar.
    fn change_bar(&mut self, label: u8, member: bool) -> Result<u32, Fault>
        ensures same { self.new.game ≡ self.old.game }
        ensures value { result ≡ change_answer (G.meaning self.old.game) (bars_of self.old.memory) label member }
        ensures after { self.new.memory ≡ after result self.old.memory (changed self.old.memory label member) }
        ensures extends { Extends (G.meaning self.old.game) self.old.memory (change_call member label) (answered Barred result) self.new.memory }
    {
        if label >= self.game.labels() {
            self.memory.count_refusal();
            return Err(Fault::NoLabel);
        }
        Ok(self.memory.set_bar(label, member))
    }

    // Bars a label to the kiosk, and answers how many are barred.
    pub fn bar(&mut self, label: u8) -> Result<u32, Fault>
        ensures same { self.new.game ≡ self.old.game }
        ensures value { result ≡ change_answer (G.meaning self.old.game) (bars_of self.old.memory) label true }
        ensures after { self.new.memory ≡ after result self.old.memory (changed self.old.memory label true) }
        ensures extends { Extends (G.meaning self.old.game) self.old.memory (Bar label) (answered Barred result) self.new.memory }
    {
        self.change_bar(label, true)
    }

    // Lifts the bar of a label, and answers how many are still barred.
    pub fn lift(&mut self, label: u8) -> Result<u32, Fault>
        ensures same { self.new.game ≡ self.old.game }
        ensures value { result ≡ change_answer (G.meaning self.old.game) (bars_of self.old.memory) label false }
        ensures after { self.new.memory ≡ after result self.old.memory (changed self.old.memory label false) }
        ensures extends { Extends (G.meaning self.old.game) self.old.memory (Lift label) (answered Barred result) self.new.memory }
    {
        self.change_bar(label, false)
    }

    // Whether the position is at the public's turn.
    fn turn(&self) -> Option<bool>
        ensures { result ≡ option_map (G.meaning self.now.game).public self.now.memory.position }
    {
        self.memory.position.map(|p| self.game.is_public(p))
    }

    fn is_over(&self) -> bool
        ensures { result ≡ over_at (G.meaning self.now.game) self.now.memory.position }
    {
        self.memory.position.is_some_and(|p| is_done(&self.game, p))
    }

    // Shows the run, the bars, whether a plan stands, and how many calls were refused.
    pub fn look(&self) -> View
        ensures value { result ≡ look_answer (G.meaning self.now.game) self.now.memory.position self.now.memory.bars self.now.memory.planned self.now.memory.refusals }
        ensures extends { Extends (G.meaning self.now.game) self.now.memory Look (Seen result) self.now.memory }
    {
        View {
            position: self.memory.position,
            public: self.turn(),
            over: self.is_over(),
            bars: self.memory.bars,
            planned: self.memory.planned,
            refusals: self.memory.refusals,
        }
    }

    // Ends the run, and answers its last position.
    pub fn leave(&mut self) -> Result<usize, Fault>
        ensures same { self.new.game ≡ self.old.game }
        ensures value { result ≡ leave_answer self.old.memory.position }
        ensures after { self.new.memory ≡ after result self.old.memory (moved_to self.old.memory None) }
        ensures extends { Extends (G.meaning self.old.game) self.old.memory Leave (answered Left result) self.new.memory }
    {
        let answer = self.memory.position.ok_or(Fault::NoRun);
        self.memory.finish(answer, None)
    }

    // Whether the label leads to a state without rank.
    fn leads_to_unranked(&self, s: usize, l: u8) -> bool
        ensures { result ≡ leads_to ((G.meaning self.now.game).next s l) (λ t. not (is_some ((ranking_of self.now.memory).rank t))) }
    {
        self.game
            .next(s, l)
            .is_some_and(|t| self.memory.rank(t).is_none())
    }

    // The lowest label to a state without rank.
    fn witness(&self, s: usize) -> Option<u8>
        ensures { result ≡ witness_by (G.meaning self.now.game) (ranking_of self.now.memory).rank s }
    {
        (0..self.game.labels()).find(|&l| self.leads_to_unranked(s, l))
    }

    // One of the six ratings. A lost public state without witness has label 0.
    fn rating(&self, s: usize) -> Rating
        ensures { result ≡ rating (G.meaning self.now.game) (ranking_of self.now.memory) s }
    {
        let Cell { rank, choice } = cell_at(&self.memory.table.cells, s);
        match rank {
            Some(_) if is_done(&self.game, s) => Rating::Done,
            Some(rank) if self.game.is_public(s) => Rating::Public { rank },
            Some(rank) => choice.map_or(Rating::Done, |choice| Rating::Kiosk { rank, choice }),
            None if self.game.is_end(s) => Rating::LostEnd,
            // Kept: 0 where no label witnesses it, which no list of calls leads to.
            None if self.game.is_public(s) => Rating::LostPublic {
                label: self.witness(s).unwrap_or(0),
            },
            None => Rating::LostKiosk,
        }
    }
}
