// The separation rule, for a set of roles and a cardinality: what SSD and DSD share.
#![tactic(auto)]

ghost use Rattle.std.specs.Prelude.{◌≡◌};
ghost use Rattle.model.specs.Words.{breaks, breaks_some};
ghost use Rattle.model.specs.commands.Sets.{bad_cardinality, sets_of};
ghost use Rattle.state.specs.View.{view};

use model::{Kind, RoleSet};
use numbers::SetName;
use state::PLACES;
use state::reads::set_named;

// Are as many of the set's roles as its cardinality, or more, among the roles held?
#[tactic(auto, unfolding(model::specs::Words::breaks))]
pub fn breaks(set: RoleSet, held: u64) -> bool
    ensures { result ≡ breaks set held }
{
    set.there && roleset::at_least(roleset::common(set.roles, held), set.card)
}

// Is the cardinality below 2, or above the number of the roles?
pub fn bad_cardinality(n: u64, roles: u64) -> bool
    ensures { result ≡ bad_cardinality n roles }
{
    let few = n < 2;
    few || !roleset::at_least(roles, n)
}

// Do the roles held break some of the sets of this kind?
pub fn breaks_some(state: &[u64; PLACES], kind: Kind, held: u64) -> bool
    ensures { result ≡ breaks_some (sets_of kind (view state.now)) held }
{
    (0..16u16).any(|n| breaks(set_named(state, kind, SetName { number: n }), held))
}
