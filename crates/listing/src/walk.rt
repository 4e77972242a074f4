// A walk from the starts along plays by the choices, which queues each state once.
ghost use Rattle.std.specs.Prelude.{◌≡◌, ℕ, true, length};
ghost use Rattle.listing.specs.Reach.{reached};
ghost use Rattle.listing.specs.Walks.{Followed, Later, Walking, marked};
ghost use Rattle.solver.specs.Cells.{ranking_in};

use crate::lines::Reached;
use crate::plan::Plan;
use arrayvec::ArrayVec;
use game::Game;
use law::MOST;

// The states that a walk has reached, in the order in which it found them, and a mark at each.
#[derive(Drop)]
struct Walk<'a, G: Game> {
    plan: Plan<'a, G>,
    queue: ArrayVec<u16, MOST>,
    seen: [bool; MOST],
    ghost marks: { length seen ≡ 4096 },
    ghost walking: { ∥ Walking (G.meaning plan.game.now) (ranking_in plan.cells.now) queue.items seen ∥₁ },
}

impl<G: Game> Walk<'_, G> {
    // Marks a state that is reached and puts it into the queue, unless it was seen before.
    fn visit(&mut self, t: usize)
        requires { reached (G.meaning self.old.plan.game.now) (ranking_in self.old.plan.cells.now) t ≡ true }
        ensures later { Later self.old.plan self.old.queue.items self.old.seen self.new.plan self.new.queue.items self.new.seen }
        ensures here { marked self.new.seen t ≡ true }
    {
        if self.seen[t] {
            return;
        }
        self.seen[t] = true;
        // Kept: the cast is proved to lose nothing; `try_from` would answer a refusal that cannot come.
        self.queue.push(t as u16);
    }

    // Visits the starts.
    fn begin(&mut self)
        ensures same { self.new.plan ≡ self.old.plan }
        ensures starts { (s : ℕ) → (G.meaning self.old.plan.game.now).start s ≡ true → marked self.new.seen s ≡ true }
    {
        for s in 0..self.plan.game.size() {
            if self.plan.game.is_start(s) {
                self.visit(s);
            }
        }
    }

    // Follows every label of a state that is reached.
    fn expand(&mut self, s: usize)
        requires { reached (G.meaning self.old.plan.game.now) (ranking_in self.old.plan.cells.now) s ≡ true }
        ensures later { Later self.old.plan self.old.queue.items self.old.seen self.new.plan self.new.queue.items self.new.seen }
        ensures followed { Followed (G.meaning self.old.plan.game.now) (ranking_in self.old.plan.cells.now) self.new.seen s }
    {
        // A plan of its own, since what lies beside the marks is read again after each one that is written.
        let plan = Plan {
            game: self.plan.game,
            cells: self.plan.cells,
        };
        for label in 0..plan.game.labels() {
            if let Some(t) = plan.follow(s, label) {
                self.visit(t);
            }
        }
    }
}

// Marks every state that plays by the choices reach, and no other.
// Inlined: the marks stay where they are, and are not copied.
#[inline(always)]
pub(crate) fn reach<'a, G: Game>(plan: Plan<'a, G>) -> Reached<'a, G>
    ensures { result.plan ≡ plan.entry }
{
    let mut walk = Walk {
        plan,
        queue: ArrayVec::new(),
        seen: [false; MOST],
    };
    walk.begin();
    let mut head = 0;
    // Kept: the queue grows while it is walked, so no iterator can go over it.
    while let Some(&s) = walk.queue.get(head) {
        walk.expand(usize::from(s));
        head += 1;
    }
    let Walk { plan, seen, .. } = walk;
    Reached { plan, seen }
}
