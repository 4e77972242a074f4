// For each state a list of the arcs into it.
ghost use Rattle.std.specs.Prelude.{◌≡◌, ◌<◌, length, Some, None, slice_index_or, slice_set};

use law::MOST;
use std::marker::Model;

// How many arcs there may be: 64 of each state.
pub(crate) const ARCS: usize = MOST * 64;

// An arc, or the end of a list, in four bytes: clauses and callers see an Option. 0 is the end, and one more than an
// arc's number stands for the arc. An Option<u32> takes eight, and 262,144 of them lie on the stack.
#[derive(Clone, Copy, Drop)]
pub struct Link {
    code: u32,
}

impl Model for Link {
    ghost use Rattle.std.specs.Prelude.{ℕ, Option};
    ghost use Rattle.solver.specs.Links.{arc_of, code_of, code_back};

    ghost Value = { Option ℕ };

    ghost view = { λ a. arc_of a.code };

    ghost inverse = { λ o. record { code = code_of o } };

    ghost inverse_ok = { λ a h i. record { code = code_back a.code i } };
}

impl Link {
    // The end of a list.
    pub(crate) const NONE: Link = Link { code: 0 };

    fn to(arc: usize) -> Link
        requires { arc < 262144 }
        ensures { result ≡ Some arc }
    {
        Link {
            code: arc as u32 + 1,
        }
    }

    // The arc, if this is no end.
    fn arc(self) -> Option<usize>
        ensures { result ≡ self }
    {
        (self.code as usize).checked_sub(1)
    }
}

// The first arc into each state, and for each arc the next one into the same state.
// Kept: no heap here, so the lists lie in an arena.
#[derive(Drop)]
pub struct Predecessors {
    pub(crate) heads: [Link; MOST],
    pub(crate) links: [Link; ARCS],
    ghost states: { length heads ≡ 4096 },
    ghost arcs: { length links ≡ 262144 },
}

impl Predecessors {
    // Puts the arc at the head of the state's list.
    pub(crate) fn put(&mut self, t: usize, e: usize)
        requires state { t < 4096 }
        requires arc { e < 262144 }
        ensures heads { self.new.heads ≡ slice_set self.old.heads t (Some e) }
        ensures links { self.new.links ≡ slice_set self.old.links e (slice_index_or self.old.heads t None) }
    {
        self.links[e] = self.heads[t];
        self.heads[t] = Link::to(e);
    }

    // The first arc into the state.
    pub(crate) fn first(&self, t: usize) -> Option<usize>
        requires { t < 4096 }
        ensures { result ≡ slice_index_or self.now.heads t None }
    {
        self.heads[t].arc()
    }

    // The next arc into the same state.
    pub(crate) fn after(&self, e: usize) -> Option<usize>
        requires { e < 262144 }
        ensures { result ≡ slice_index_or self.now.links e None }
    {
        self.links[e].arc()
    }
}
