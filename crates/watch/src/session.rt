// Lists of calls, carried out one after the other.
ghost use Rattle.std.specs.Prelude.{◌≡◌, [], drop};
ghost use Rattle.law.specs.Log.{Log};
ghost use Rattle.law.specs.Law.{WordIsFinal};
ghost use Rattle.watch.specs.Lived.{Lived, Extends, LawHolds, carried_out, log_of};

use crate::Watch;
use game::Game;
use law::{Answer, Call};

impl<G: Game> Watch<G> {
    // Carries out one call.
    pub fn ask(&mut self, call: Call) -> Answer
        ensures same { self.new.game ≡ self.old.game }
        ensures extends { Extends (G.meaning self.old.game) self.old.memory call result self.new.memory }
    {
        match call {
            Call::Plan => self.plan().map_or_else(Answer::Refused, Answer::Planned),
            Call::Open(state) => self
                .open(state)
                .map_or_else(Answer::Refused, Answer::Opened),
            Call::Reply => self.reply().map_or_else(
                Answer::Refused,
                |(label, rank)| Answer::Replied { label, rank },
            ),
            Call::Report(label) => self
                .report(label)
                .map_or_else(Answer::Refused, Answer::Reported),
            Call::Rate(state) => self.rate(state).map_or_else(Answer::Refused, Answer::Rated),
            Call::Bar(label) => self.bar(label).map_or_else(Answer::Refused, Answer::Barred),
            Call::Lift(label) => self
                .lift(label)
                .map_or_else(Answer::Refused, Answer::Barred),
            Call::Look => Answer::Seen(self.look()),
            Call::Leave => self.leave().map_or_else(Answer::Refused, Answer::Left),
        }
    }

    // Carries out the calls in order, as many as there is room for answers, and answers how many.
    pub fn carry_out(&mut self, calls: &[Call], answers: &mut [Answer]) -> usize
        ensures same { self.new.game ≡ self.old.game }
        ensures value { result ≡ carried_out calls.now answers.old }
        ensures rest { drop result answers.new ≡ drop result answers.old }
        ensures extends { (L : Log) → Lived (G.meaning self.old.game) L self.old.memory → Lived (G.meaning self.old.game) (log_of result calls.now answers.new L) self.new.memory }
    {
        let n = calls.len().min(answers.len());
        // Kept by an index of the answers: after a loop over `answers.iter_mut().zip(calls)`, which was tried, a proof knows
        // nothing of what it wrote, nor that the answers beyond were left.
        for (i, call) in calls[..n].iter().enumerate() {
            answers[i] = self.ask(*call);
        }
        n
    }
}

// A new watch over a game of any make, asked any list of calls: THE LAW stands on this call, whole.
pub fn watch_all<G: Game + Drop>(game: G, calls: &[Call], answers: &mut [Answer]) -> usize
    ensures value { result ≡ carried_out calls.now answers.old }
    ensures rest { drop result answers.new ≡ drop result answers.old }
    ensures law { LawHolds (G.meaning game) (log_of result calls.now answers.new []) }
    ensures word { WordIsFinal (G.meaning game) (log_of result calls.now answers.new []) }
{
    let mut watch = Watch::new(game);
    watch.carry_out(calls, answers)
}
