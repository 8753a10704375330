// Parts of the state: lent as they stand, or as tables of their own, to be changed before anything is stored.
#![tactic(auto, using(crate::proofs::Slots::lent), unfolding(crate::specs::View::view))]

ghost use Rattle.std.specs.Prelude.{◌≡◌, length};
ghost use Rattle.state.specs.Places.{sets_at};
ghost use Rattle.state.specs.Stores.{Table};
ghost use Rattle.state.specs.View.{view};

use crate::{ACTIVE, ASSIGNED, DSD_CARDS, HOLDERS, JUNIORS, PLACES, SSD_CARDS};
use model::Kind;

// Kept (2): a part is one slice of the array. A function over where it starts and ends would say no more than the slice, and each part promises another field of the view.
// For each role, the roles directly below it.
pub fn juniors(state: &[u64; PLACES]) -> &[u64]
    ensures { Table 64 (view state.now).juniors result.now }
{
    &state[JUNIORS..JUNIORS + 64]
}

// For each user, the roles assigned to it.
pub fn assigned(state: &[u64; PLACES]) -> &[u64]
    ensures { Table 256 (view state.now).assigned result.now }
{
    &state[ASSIGNED..ASSIGNED + 256]
}

// For each session, the roles active in it.
pub fn active(state: &[u64; PLACES]) -> &[u64]
    ensures { Table 64 (λ s. ((view state.now).sessions s).active) result.now }
{
    &state[ACTIVE..ACTIVE + 64]
}

// For each permission, the roles that hold it.
pub fn holders(state: &[u64; PLACES]) -> &[u64]
    ensures { Table 4096 (view state.now).holders result.now }
{
    &state[HOLDERS..HOLDERS + 4096]
}

// The numbers of a part, in a table of its own.
fn own<const N: usize>(part: &[u64]) -> [u64; N]
    requires { length part.now ≡ N }
    ensures { result ≡ part.now }
{
    let mut table = [0; N];
    table.copy_from_slice(part);
    table
}

// For each role, the roles directly below it, in a table of its own.
pub fn juniors_table(state: &[u64; PLACES]) -> [u64; 64]
    ensures { Table 64 (view state.now).juniors result }
{
    own(juniors(state))
}

// For each user, the roles assigned to it, in a table of its own.
pub fn assigned_table(state: &[u64; PLACES]) -> [u64; 256]
    ensures { Table 256 (view state.now).assigned result }
{
    own(assigned(state))
}

// Where the sets of this kind stand: 16 numbers for their cardinalities, and then 16 for their roles.
pub fn sets_from(kind: Kind) -> usize
    ensures { result ≡ sets_at kind }
{
    match kind {
        Kind::Static => SSD_CARDS,
        Kind::Dynamic => DSD_CARDS,
    }
}
