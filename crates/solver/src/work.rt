// What is worked on while ranks are worked out.
ghost use Rattle.std.specs.Prelude.{◌≡◌, ◌<◌, ◌++◌, ◌∷◌, [], length, slice_set};

use crate::Cell;
use arrayvec::ArrayVec;
use law::MOST;

// The cells, the ranked states in the order of their ranks, and for each state a label below which all lead to
// ranked ones.
// Kept: the pointers beside the cells, since those are the caller's, and hold what a plan says of a state and no more.
#[derive(Drop)]
pub struct Work<'a> {
    pub(crate) cells: &'a mut [Cell],
    pub(crate) queue: ArrayVec<u16, MOST>,
    pub(crate) pointers: [u8; MOST],
    ghost places: { length pointers ≡ 4096 },
}

impl<'a> Work<'a> {
    // The cells, to be read.
    pub(crate) fn cells(&self) -> &[Cell]
        ensures { result.now ≡ self.now.cells.now }
    {
        self.cells
    }

    // Gives the state its cell, and puts it behind the other ranked ones.
    pub(crate) fn enter(&mut self, s: usize, cell: Cell)
        requires state { s < 4096 }
        requires room { s < length self.old.cells.now }
        requires seat { length self.old.queue.items < 4096 }
        ensures cells { self.new.cells.now ≡ slice_set self.old.cells.now s cell }
        ensures queue { self.new.queue.items ≡ self.old.queue.items ++ s ∷ [] }
        ensures pointers { self.new.pointers ≡ self.old.pointers }
        ensures lent { self.new.cells.ghost_name ≡ self.old.cells.ghost_name }
    {
        // A rule of the project: one cell is lent to be changed.
        let cells = &mut *self.cells;
        let place = &mut cells[s];
        *place = cell;
        self.queue.push(s as u16);
    }
}
