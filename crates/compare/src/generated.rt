// Sheets made by chance, the same at every run.
use sample::{Dice, Tables, share};
use sheet::{END, GOAL, Move, PUBLIC, START};
use std::alloc::{AllocError, Global};

// What dice give beside numbers.
pub trait Draw {
    fn is_one_in(&mut self, sides: u16) -> bool;

    // A label below `sides`.
    fn label(&mut self, sides: u16) -> u8;

    fn byte(&mut self) -> u8;

    // A flag in one of so many cases, else none.
    fn flag(&mut self, flag: u8, sides: u16) -> u8;

    // The flags of a state that is no start.
    fn flags(&mut self) -> u8;

    // No bars, or some among the lowest labels.
    fn bars(&mut self) -> u64;
}

impl Draw for Dice {
    fn is_one_in(&mut self, sides: u16) -> bool {
        self.roll(sides) == 0
    }

    fn label(&mut self, sides: u16) -> u8 {
        (self.roll(sides) & 0xff) as u8
    }

    fn byte(&mut self) -> u8 {
        self.label(256)
    }

    fn flag(&mut self, flag: u8, sides: u16) -> u8 {
        if self.is_one_in(sides) { flag } else { 0 }
    }

    fn flags(&mut self) -> u8 {
        let turn = self.flag(PUBLIC, 2);
        let end = self.flag(END, 6);
        turn | end | self.flag(GOAL, if end == 0 { 16 } else { 2 })
    }

    fn bars(&mut self) -> u64 {
        if self.is_one_in(2) {
            return 0;
        }
        u64::from(self.byte() & self.byte())
    }
}

// What the moves of a sheet are drawn from: the flags of its states, how far apart the labels of a state may be, and
// how far behind it a move may lead.
#[derive(Drop)]
struct Shape {
    flags: Vec<u8>,
    gap: u16,
    reach: u16,
}

impl Shape {
    // Kept as two parameters, here and below: what allocates is given the heap, and the dice change.
    // Flags of as many states, of which the first is a start, and here and there another at the kiosk's turn.
    fn new(
        heap: Global,
        dice: &mut Dice,
        size: u16,
        gap: u16,
        reach: u16,
    ) -> Result<Shape, AllocError> {
        let mut flags = Vec::new(heap);
        flags.push(dice.flags() & !PUBLIC | START)?;
        // Kept as a loop: each state is drawn after the last one, and memory may run out at each.
        for _ in 1..size {
            let drawn = dice.flags();
            let start = if drawn & PUBLIC == 0 {
                dice.flag(START, 30)
            } else {
                0
            };
            flags.push(drawn | start)?;
        }
        Ok(Shape { flags, gap, reach })
    }

    fn is_public(&self, state: usize) -> bool {
        self.flags
            .get(state)
            .is_some_and(|flags| *flags & PUBLIC != 0)
    }

    // The first state from `from` on, in a ring, that is at the other turn; if there is none, 0.
    // Kept as a number: such a sheet is to be made too, since plan has to refuse it.
    fn opposite(&self, state: usize, from: usize) -> u16 {
        let size = self.flags.len();
        (0..size)
            .map(|i| from.wrapping_add(i) % size)
            .find(|to| self.is_public(*to) != self.is_public(state))
            .map_or(0, |to| (to & 0xffff) as u16)
    }

    // As many moves of a state, with labels that rise.
    fn moves(
        &self,
        heap: Global,
        dice: &mut Dice,
        state: usize,
        labels: u32,
    ) -> Result<Vec<Move>, AllocError> {
        // Kept as a loop: each label and target is drawn after the last one, and memory may run out at each.
        let mut moves = Vec::new(heap);
        let mut label = dice.label(self.gap);
        for _ in 0..labels {
            let from = state.wrapping_add(usize::from(dice.roll(self.reach)));
            let target = self.opposite(state, from);
            moves.push(Move { label, target })?;
            label = label.wrapping_add(dice.label(self.gap)).wrapping_add(1);
        }
        Ok(moves)
    }

    // The tables, with as many labels of each state as the function says.
    fn tables<F: FnMut(&mut Dice, u16) -> u32>(
        &self,
        heap: Global,
        dice: &mut Dice,
        mut labels: F,
    ) -> Result<Tables, AllocError>
        requires { F.IsAlwaysCallable labels }
    {
        let mut tables = Tables::new(heap);
        for (state, flags) in (0..=u16::MAX).zip(self.flags.iter()) {
            let count = labels(dice, state);
            let moves = self.moves(heap, dice, usize::from(state), count)?;
            tables.add_state(*flags, moves.as_slice())?;
        }
        Ok(tables)
    }
}

// A sheet of at most 40 states with at most six labels each, in one of three cases spoiled in one place.
pub fn sheet(heap: Global, dice: &mut Dice) -> Result<Tables, AllocError> {
    let size = dice.roll(40).wrapping_add(1);
    let reach = if dice.is_one_in(2) { 4 } else { size };
    let shape = Shape::new(heap, dice, size, 4, reach)?;
    let mut tables = shape.tables(heap, dice, |dice, _| u32::from(dice.roll(6)) + 1)?;
    if dice.is_one_in(3) {
        spoil(&mut tables, dice);
    }
    Ok(tables)
}

// Changes the flags or the moves of one state, or the label or the target of one move.
fn spoil(tables: &mut Tables, dice: &mut Dice) {
    let state = usize::from(dice.roll(20));
    let number = usize::from(dice.roll(40));
    // Kept: which case it is comes from the dice.
    match dice.roll(4) {
        0 => {
            let flags = dice.byte();
            change(&mut tables.rows, state, |row| row.flags = flags);
        }
        1 => {
            let count = usize::from(dice.roll(6));
            change(&mut tables.rows, state, |row| {
                row.first = number;
                row.count = count;
            });
        }
        2 => {
            let label = dice.byte() % 80;
            change(&mut tables.moves, number, |entry| entry.label = label);
        }
        _ => {
            let target = dice.roll(42);
            change(&mut tables.moves, number, |entry| entry.target = target);
        }
    }
}

// Changes the entry of that number, if there is one.
fn change<T, F: FnOnce(&mut T)>(entries: &mut Vec<T>, number: usize, change: F)
    requires { F.IsAlwaysCallable change }
{
    if let Some(entry) = entries.get_mut(number) {
        change(entry);
    }
}

// A sheet with as many states and moves.
pub fn large(
    heap: Global,
    dice: &mut Dice,
    size: u16,
    moves: u16,
    reach: u16,
) -> Result<Tables, AllocError> {
    let shape = Shape::new(heap, dice, size, 1, reach)?;
    shape.tables(heap, dice, |_, state| share(moves, size, state))
}
