// A corridor of rooms as a game: kiosk and public step on in turns, and the last room is the goal.
#![tactic(auto)]

ghost use Rattle.std.specs.Prelude.{◌≡◌};
ghost use Rattle.corridor.specs.Corridors.{corridor_meaning, is_last};
ghost use Rattle.corridor.specs.CorridorLaws.{corridor_lawful};

use game::Game;

// A number of rooms, which are the states. The public is at turn in each room with an odd number.
#[derive(Clone, Copy, Drop, PartialEq, Eq, Debug)]
pub struct Corridor {
    pub rooms: usize,
}

impl Corridor {
    fn is_last(&self, state: usize) -> bool
        ensures { result ≡ is_last self.now.rooms state }
    {
        state < self.rooms && state + 1 == self.rooms
    }
}

impl Game for Corridor {
    const CEILING: u8 = 1;

    ghost meaning = { λ g. corridor_meaning g.rooms };

    ghost lawful = { λ g. corridor_lawful g.rooms };

    fn labels(&self) -> u8 {
        Self::CEILING
    }

    fn size(&self) -> usize {
        self.rooms
    }

    fn is_public(&self, state: usize) -> bool {
        state < self.rooms && state % 2 == 1
    }

    fn is_start(&self, state: usize) -> bool {
        state < self.rooms && state == 0
    }

    fn is_end(&self, state: usize) -> bool {
        self.is_last(state)
    }

    fn is_goal(&self, state: usize) -> bool {
        self.is_end(state)
    }

    // The only label steps on.
    fn next(&self, state: usize, label: u8) -> Option<usize> {
        let rooms = self.rooms;
        if label >= Self::CEILING {
            return None;
        }
        state.checked_add(1).filter(|room| *room < rooms)
    }
}
