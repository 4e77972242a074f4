// The listing of a plan: its verdict, and the lines of the states that plays by its choices reach.
#![tactic(auto)]

ghost use Rattle.std.specs.Prelude.{◌≡◌, true, codes};
ghost use Rattle.game.specs.Ranks.{Bars};
ghost use Rattle.law.specs.Answers.{ranking};
ghost use Rattle.law.specs.Log.{Log, barred, stands};
ghost use Rattle.law.specs.declared.Verdict.TheVariants.{Held};
ghost use Rattle.listing.specs.Answers.{listed, number_of, put_whole};
ghost use Rattle.listing.specs.Lines.{listing_text, text_after};
ghost use Rattle.listing.specs.Plays.{Right};
ghost use Rattle.solver.specs.Cells.{Solved, ranking_in};
ghost use Rattle.text.specs.Lines.{count_line};
ghost use Rattle.watch.specs.Lived.{Lived};
ghost use Rattle.watch.specs.Memory.{ranking_of};

mod entry;
mod lines;
mod plan;
mod walk;

use game::Game;
use law::{MOST, Verdict};
use plan::Plan;
use solver::Cell;
use solver::outcome::verdict;
use text::{Line, Page};
use walk::reach;
use watch::Watch;

// Why a listing is refused.
#[derive(Clone, Copy, Drop, PartialEq, Eq, Debug)]
pub enum ListFault {
    // No plan stands.
    NoPlan,
    // The output is too short.
    Room,
}

impl ListFault {
    // The number of the refusal.
    pub fn number(&self) -> u8
        ensures { result ≡ number_of self.now }
    {
        match self {
            ListFault::NoPlan => 21,
            ListFault::Room => 7,
        }
    }
}

// Writes the listing of the watch's plan, and answers its length; bytes beyond it are kept. Refused without a standing
// plan, then where the output is too short; a refusal leaves the output as found. Nothing in the watch moves.
pub fn list<G: Game>(watch: &Watch<G>, out: &mut [u8]) -> Result<usize, ListFault>
    ensures value { (result, out.new) ≡ listed (G.meaning watch.now.game) (ranking_of watch.now.memory) watch.now.memory.planned out.old }
    ensures lived { (L : Log) → Lived (G.meaning watch.now.game) L watch.now.memory → (result, out.new) ≡ listed (G.meaning watch.now.game) (ranking (G.meaning watch.now.game) (barred L)) (stands L) out.old }
    ensures standing { (L : Log) → Lived (G.meaning watch.now.game) L watch.now.memory → stands L ≡ true → (result, out.new) ≡ put_whole (listing_text (G.meaning watch.now.game) (ranking (G.meaning watch.now.game) (barred L))) out.old }
    ensures right { (b : Bars) → Right (G.meaning watch.now.game) b }
{
    list_cells(watch.game(), watch.cells(), watch.is_planned(), out)
}

// Writes the listing of the plan in `cells`, if one stands, and answers its length. No plan stands of a game that is too
// large for one.
fn list_cells<G: Game>(
    game: &G,
    cells: &[Cell],
    planned: bool,
    out: &mut [u8],
) -> Result<usize, ListFault>
    ensures value { (result, out.new) ≡ listed (G.meaning game.now) (ranking_in cells.now) planned out.old }
    ensures solved { (b : Bars) → Solved (G.meaning game.now) b cells.now → (result, out.new) ≡ listed (G.meaning game.now) (ranking (G.meaning game.now) b) planned out.old }
    ensures right { (b : Bars) → Right (G.meaning game.now) b }
{
    if planned && game.size() <= MOST {
        list_plan(Plan { game, cells }, out)
    } else {
        Err(ListFault::NoPlan)
    }
}

fn list_plan<G: Game>(plan: Plan<G>, out: &mut [u8]) -> Result<usize, ListFault>
    ensures { (result, out.new) ≡ put_whole (listing_text (G.meaning plan.entry.game.now) (ranking_in plan.entry.cells.now)) out.old }
{
    match verdict(plan.game, plan.cells) {
        Verdict::Held(top) => list_held(plan, top, out),
        Verdict::Lost(s) => list_lost(s, out),
    }
}

// Kept: `u64` has no `From<usize>`, as in Rust.
fn list_lost(s: usize, out: &mut [u8]) -> Result<usize, ListFault>
    ensures { (result, out.new) ≡ put_whole (count_line (codes "LOST ") s) out.old }
{
    let line = Line {
        lead: b"LOST ",
        numbers: &[s as u64],
    };
    Page { out, at: 0 }.put(&line).ok_or(ListFault::Room)
}

// The length is known before the first byte is written, so that a refusal leaves the output as found.
fn list_held<G: Game>(plan: Plan<G>, top: u32, out: &mut [u8]) -> Result<usize, ListFault>
    ensures { (result, out.new) ≡ put_whole (text_after (G.meaning plan.entry.game.now) (ranking_in plan.entry.cells.now) (Held top)) out.old }
{
    let reached = reach(plan);
    let line = Line {
        lead: b"HELD ",
        numbers: &[u64::from(top)],
    };
    if out.len() < line.width() + reached.width() {
        return Err(ListFault::Room);
    }
    let mut page = Page { out, at: 0 };
    page.put(&line).unwrap();
    reached.put(&mut page);
    Ok(page.at)
}
