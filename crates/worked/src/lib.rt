// The house game, asked any list of calls; and worked cases, proved jointly on the definitions that the contracts use.
#![tactic(auto)]

ghost use Rattle.std.specs.Prelude.{◌≡◌, take, drop};
ghost use Rattle.watch.specs.Lived.{carried_out};
ghost use Rattle.worked.specs.House.{house, house_rows, house_moves};
ghost use Rattle.worked.specs.Cases.{WorkedCases, answers};

use law::{Answer, Call};
use sheet::{Move, NO_ROW, Row, Sheet};
use watch::watch_all;

// An unnamed state of the house game, whose record has its empty name at `place`.
fn state(flags: u8, place: usize, first: usize, count: usize) -> Row
    ensures { result ≡ record { flags = flags; place = place; len = 0; first = first; count = count } }
{
    Row {
        flags,
        place,
        first,
        count,
        ..NO_ROW
    }
}

fn house_rows() -> [Row; 7]
    ensures { result ≡ house_rows }
{
    [
        state(2, 9, 0, 2),
        state(1, 13, 2, 2),
        state(1, 17, 4, 2),
        state(12, 21, 6, 0),
        state(4, 25, 6, 0),
        state(0, 29, 6, 2),
        state(1, 33, 8, 1),
    ]
}

fn step(label: u8, target: u16) -> Move
    ensures { result ≡ record { label = label; target = target } }
{
    Move { label, target }
}

fn house_moves() -> [Move; 9]
    ensures { result ≡ house_moves }
{
    [
        step(1, 1),
        step(2, 2),
        step(0, 3),
        step(1, 5),
        step(0, 3),
        step(1, 4),
        step(1, 1),
        step(3, 6),
        step(0, 3),
    ]
}

// Asks a new watch over the house game the calls in order, as many as there is room for answers, and answers how many.
// The answers are the right ones, and those of the worked cases are known.
pub fn ask_house(calls: &[Call], out: &mut [Answer]) -> usize
    ensures value { result ≡ carried_out calls.now out.old }
    ensures right { take result out.new ≡ answers house (take result calls.now) }
    ensures rest { drop result out.new ≡ drop result out.old }
    ensures cases { WorkedCases }
{
    let rows = house_rows();
    let moves = house_moves();
    watch_all(
        Sheet {
            rows: &rows,
            moves: &moves,
        },
        calls,
        out,
    )
}

// Carries the worked cases as its promise, and answers how many there are.
pub fn worked_cases_hold() -> u8
    ensures value { result ≡ 8 }
    ensures cases { WorkedCases }
{
    8
}
