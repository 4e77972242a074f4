// What is asked and answered, as text.
ghost use Rattle.std.specs.Prelude.{◌≡◌, Some};
ghost use Rattle.law.specs.Texts.{answer_text, verdict_text, rating_text, refusal_text, view_text, place_text, turn_text, bars_text, yes_or_no};

use crate::{Answer, Fault, Rating, Verdict, View};
use labelset::contains;
use std::fmt;

impl fmt::Display for Verdict {
    ghost output = { λ v. Some (verdict_text v) };

    fn fmt<W: fmt::Write>(&self, f: &mut fmt::Formatter<W>) -> fmt::Result {
        match *self {
            Verdict::Held(rank) => write!(f, "held {rank}"),
            Verdict::Lost(state) => write!(f, "lost {state}"),
        }
    }
}

impl fmt::Display for Rating {
    ghost output = { λ r. Some (rating_text r) };

    fn fmt<W: fmt::Write>(&self, f: &mut fmt::Formatter<W>) -> fmt::Result {
        match *self {
            Rating::Done => write!(f, "done"),
            Rating::Kiosk { rank, choice } => write!(f, "kiosk {rank} {choice}"),
            Rating::Public { rank } => write!(f, "public {rank}"),
            Rating::LostEnd => write!(f, "lost end"),
            Rating::LostKiosk => write!(f, "lost kiosk"),
            Rating::LostPublic { label } => write!(f, "lost public {label}"),
        }
    }
}

// A refusal by its number, and the state and the label that it names.
impl fmt::Display for Fault {
    ghost output = { λ e. Some (refusal_text e) };

    fn fmt<W: fmt::Write>(&self, f: &mut fmt::Formatter<W>) -> fmt::Result {
        let number = self.number();
        let state = self.state();
        let label = self.label();
        write!(f, "refused {number} {state} {label}")
    }
}

// Where a run stands, if one is open.
#[derive(Clone, Copy, Drop)]
struct Place(Option<usize>);

impl fmt::Display for Place {
    ghost output = { λ p. Some (place_text p.0) };

    fn fmt<W: fmt::Write>(&self, f: &mut fmt::Formatter<W>) -> fmt::Result {
        match self.0 {
            Some(state) => write!(f, "{state}"),
            None => write!(f, "none"),
        }
    }
}

// Whose turn it is: true is the public's.
fn turn(public: Option<bool>) -> &'static str
    ensures { result.now ≡ turn_text public }
{
    match public {
        Some(true) => "public",
        Some(false) => "kiosk",
        None => "none",
    }
}

fn yes_or_no(b: bool) -> &'static str
    ensures { result.now ≡ yes_or_no b }
{
    if b { "yes" } else { "no" }
}

// The barred labels, rising, with commas between them.
#[derive(Clone, Copy, Drop)]
struct Bars(u64);

impl fmt::Display for Bars {
    ghost output = { λ b. Some (bars_text b.0) };

    fn fmt<W: fmt::Write>(&self, f: &mut fmt::Formatter<W>) -> fmt::Result {
        // Kept as a loop: each label is written behind the others, with `?`, and a comma from the second on.
        let mut comma = "";
        for label in 0..64u8 {
            if contains(self.0, label) {
                write!(f, "{comma}{label}")?;
                comma = ",";
            }
        }
        if comma.is_empty() {
            write!(f, "none")?;
        }
        Ok(())
    }
}

impl fmt::Display for View {
    ghost output = { λ v. Some (view_text v) };

    fn fmt<W: fmt::Write>(&self, f: &mut fmt::Formatter<W>) -> fmt::Result {
        let position = Place(self.position);
        let turn = turn(self.public);
        let over = yes_or_no(self.over);
        let bars = Bars(self.bars);
        let planned = yes_or_no(self.planned);
        let refusals = self.refusals;
        write!(
            f,
            "position {position} turn {turn} over {over} bars {bars} plan {planned} refused {refusals}"
        )
    }
}

// What an answer says, without a line feed.
impl fmt::Display for Answer {
    ghost output = { λ a. Some (answer_text a) };

    fn fmt<W: fmt::Write>(&self, f: &mut fmt::Formatter<W>) -> fmt::Result {
        match *self {
            Answer::Planned(verdict) => write!(f, "{verdict}"),
            Answer::Opened(rank) => write!(f, "opened {rank}"),
            Answer::Replied { label, rank } => write!(f, "replied {label} {rank}"),
            Answer::Reported(state) => write!(f, "reported {state}"),
            Answer::Rated(rating) => write!(f, "{rating}"),
            Answer::Barred(count) => write!(f, "barred {count}"),
            Answer::Seen(view) => write!(f, "{view}"),
            Answer::Left(state) => write!(f, "left {state}"),
            Answer::Refused(fault) => write!(f, "{fault}"),
        }
    }
}
