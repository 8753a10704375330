// The walk over the lines of the lent state.
#![tactic(auto)]

ghost use Rattle.hierarchy.specs.Walks.{Reaches};
ghost use Rattle.state.specs.View.{view};

use hierarchy::Lines;
use numbers::Role;
use state::PLACES;
use state::reads::directly_below;

// The lines that the lent state holds, where they stand in it: none is copied.
#[derive(Drop)]
struct StateLines<'a>(&'a [u64; PLACES]);

impl<'a> Lines for StateLines<'a> {
    ghost table = { λ lines. (view lines.0.now).juniors };

    fn below(&self, s: Role) -> u64 {
        directly_below(self.0, s)
    }
}

// The roles of a set and all that they inherit, with a circle among the lines or without.
pub fn reach(state: &[u64; PLACES], from: u64) -> u64
    ensures { Reaches (view state.now).juniors from result }
{
    hierarchy::reach(&StateLines(state), from)
}
