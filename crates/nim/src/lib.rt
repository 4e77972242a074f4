// Fibonacci Nim as a game between the kiosk and the public.
#![tactic(auto)]

ghost use Rattle.std.specs.Prelude.{◌≡◌, IfSome, true};
ghost use Rattle.nim.specs.Nims.{nim_meaning, playable, is_state, in_range, number_of, state_of, State};
ghost use Rattle.nim.specs.Turns.{IsTurn, turn_at};
ghost use Rattle.nim.specs.NimLaws.{nim_lawful};
ghost use Rattle.nim.specs.Positions.{Stands, EveryState};

use game::Game;

// A number of matches; from 2 to 44 make a game, any other number makes one without states.
//
// The player at turn, 0 for the kiosk and 1 for the public, takes at least one match, not all that there were, and at
// most twice what was taken last. Who takes the last match wins.
#[derive(Clone, Copy, PartialEq, Eq, Debug)]
pub struct Nim {
    pub matches: usize,
}

// A player at turn, the matches that remain, and those that were taken last.
#[derive(Clone, Copy)]
struct Turn {
    player: usize,
    remaining: usize,
    taken: usize,
}

impl Nim {
    // Whether the matches make a game.
    fn is_playable(&self) -> bool
        ensures { result ≡ playable self.now.matches }
    {
        (2..=44).contains(&self.matches)
    }

    // Whether the game has the turn.
    fn has(&self, turn: Turn) -> bool
        ensures value { result ≡ in_range self.now.matches turn.player turn.remaining turn.taken }
        ensures possible { result ≡ true → IsTurn self.now.matches turn }
    {
        let n = self.matches;
        self.is_playable()
            && turn.player <= 1
            && turn.remaining <= n
            && (1..=n).contains(&turn.taken)
    }

    // The number of a turn's state: what was taken last varies fastest, then what remains, then the player.
    fn number(&self, turn: Turn) -> usize
        requires { IsTurn self.now.matches turn }
        ensures { result ≡ number_of self.now.matches turn.player turn.remaining turn.taken }
    {
        let n = self.matches;
        (turn.player * (n + 1) + turn.remaining) * n + turn.taken - 1
    }

    // The number of the state of a player with matches remaining and taken last, at which the game keeps its rules.
    // Kept: the player is a number, since callers may ask for any, and one that is no player has no state.
    pub fn state(&self, player: usize, remaining: usize, taken: usize) -> Option<usize>
        ensures value { result ≡ state_of self.now.matches player remaining taken }
        ensures stands { Stands self.now.matches player remaining taken result }
        ensures all { EveryState self.now.matches }
    {
        let turn = Turn {
            player,
            remaining,
            taken,
        };
        self.has(turn).then(|| self.number(turn))
    }

    // The turn that a state is.
    fn turn(&self, state: usize) -> Option<Turn>
        ensures value { result ≡ turn_at self.now.matches state }
        ensures possible { IfSome result (IsTurn self.now.matches) }
    {
        let n = self.matches;
        self.is_state(state).then(|| Turn {
            player: state / n / (n + 1),
            remaining: state / n % (n + 1),
            taken: state % n + 1,
        })
    }

    fn is_state(&self, state: usize) -> bool
        ensures value { result ≡ is_state self.now.matches state }
        ensures inside { result ≡ true → State self.now.matches state }
    {
        state < self.size()
    }
}

impl Game for Nim {
    const CEILING: u8 = 44;

    ghost meaning = { λ g. nim_meaning g.matches };

    ghost lawful = { λ g. nim_lawful g.matches };

    fn labels(&self) -> u8 {
        Self::CEILING
    }

    fn size(&self) -> usize {
        let n = self.matches;
        if self.is_playable() {
            2 * (n + 1) * n
        } else {
            0
        }
    }

    fn is_public(&self, state: usize) -> bool {
        self.turn(state).is_some_and(|turn| turn.player == 1)
    }

    fn is_start(&self, state: usize) -> bool {
        let all = self.matches;
        self.is_state(state)
            && state
                == self.number(Turn {
                    player: 0,
                    remaining: all,
                    taken: all,
                })
    }

    fn is_end(&self, state: usize) -> bool {
        self.turn(state).is_some_and(|turn| turn.remaining == 0)
    }

    fn is_goal(&self, state: usize) -> bool {
        self.is_public(state) && self.is_end(state)
    }

    fn next(&self, state: usize, label: u8) -> Option<usize> {
        let turn = self.turn(state)?;
        let take = usize::from(label);
        let allowed = (1..self.matches).contains(&take)
            && take <= turn.remaining
            && take <= 2 * turn.taken;
        allowed.then(|| {
            self.number(Turn {
                player: 1 - turn.player,
                remaining: turn.remaining - take,
                taken: take,
            })
        })
    }
}
