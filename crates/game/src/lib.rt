// The interface of games, and the theory of their ranks and strategies.
#![tactic(auto)]

ghost use Rattle.std.specs.Prelude.{◌≡◌};
ghost use Rattle.game.specs.Meaning.{Meaning, Lawful, done};

// A game between the kiosk and the public. Every question is answered from one value, the game's meaning, which keeps
// the laws of every game: at most 64 labels, no move at or above the ceiling, next states below the size, and a number
// that is no state has no fact and no move.
pub trait Game {
    // Labels at or above this have no move.
    const CEILING: u8;

    ghost meaning: { Self → Meaning };

    ghost lawful: { (x : Self) → Lawful (meaning x) };

    // The ceiling of labels, as each game answers it with its constant.
    // Kept in each: tried as one body over a ghost of the constant, which an impl with a lifetime, as the sheet's, cannot
    // give its clause yet.
    fn labels(&self) -> u8
        ensures { result ≡ (meaning self.now).ceiling };

    // The number of states.
    fn size(&self) -> usize
        ensures { result ≡ (meaning self.now).size };

    // Whether the state is at the public's turn.
    fn is_public(&self, state: usize) -> bool
        ensures { result ≡ (meaning self.now).public state };

    fn is_start(&self, state: usize) -> bool
        ensures { result ≡ (meaning self.now).start state };

    fn is_end(&self, state: usize) -> bool
        ensures { result ≡ (meaning self.now).end state };

    fn is_goal(&self, state: usize) -> bool
        ensures { result ≡ (meaning self.now).goal state };

    // The state behind a label.
    fn next(&self, state: usize, label: u8) -> Option<usize>
        ensures { result ≡ (meaning self.now).next state label };
}

// Whether a run that stands at the state is over: a goal that is at the kiosk's turn or an end.
pub fn is_done<G: Game>(game: &G, state: usize) -> bool
    ensures { result ≡ done (G.meaning game.now) state }
{
    game.is_goal(state) && (!game.is_public(state) || game.is_end(state))
}
