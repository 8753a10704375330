// One thing of the state, read. What is beyond its range does not exist.
#![tactic(auto, using(crate::proofs::Reading::reading))]

ghost use Rattle.std.specs.Prelude.{◌≡◌};
ghost use Rattle.roleset.specs.Roles.{has};
ghost use Rattle.model.specs.commands.Sets.{sets_of};
ghost use Rattle.state.specs.View.{view, set_of, session_of};

use crate::parts::{assigned, holders, juniors, sets_from};
use crate::{ACTIVE, ASSIGNMENT_COUNT, GRANT_COUNT, LINE_COUNT, OWNERS, PLACES, ROLES, USERS};
use model::{Kind, RoleSet, SessionRecord};
use numbers::{Numbered, Role, Session, SetName, User};

// Does the user exist?
pub fn has_user(state: &[u64; PLACES], u: User) -> bool
    ensures { result ≡ (view state.now).users u.number }
{
    let at = USERS + (u.number / 64) as usize;
    !u.is_beyond() && roleset::has(state[at], u.number % 64)
}

// The roles that exist.
pub fn roles(state: &[u64; PLACES]) -> u64
    ensures { result ≡ (view state.now).roles }
{
    state[ROLES]
}

// Does the role exist?
pub fn has_role(state: &[u64; PLACES], r: Role) -> bool
    ensures { result ≡ has (view state.now).roles r.number }
{
    roleset::has(state[ROLES], r.number)
}

// Kept (2): what these three share is the library's `get`; each is asked by a number of another type, and promises another field of the view.
// The roles directly below the role.
pub fn directly_below(state: &[u64; PLACES], r: Role) -> u64
    ensures { result ≡ (view state.now).juniors r.number }
{
    juniors(state).get(r.number as usize).copied().unwrap_or(0)
}

// The roles assigned to the user.
pub fn assigned_to(state: &[u64; PLACES], u: User) -> u64
    ensures { result ≡ (view state.now).assigned u.number }
{
    assigned(state).get(u.number as usize).copied().unwrap_or(0)
}

// The roles that hold the permission.
pub fn holders_of(state: &[u64; PLACES], p: usize) -> u64
    ensures { result ≡ (view state.now).holders p }
{
    holders(state).get(p).copied().unwrap_or(0)
}

// Kept (2): a set and a session are two records of the model (`RoleSet`, `SessionRecord`), which its definitions and theorems name field by field.
// The set with this cardinality, by the number that stands for it, and these roles.
fn set_of(card: u64, roles: u64) -> RoleSet
    ensures { result ≡ set_of card roles }
{
    RoleSet {
        there: card != 0,
        card: card.saturating_sub(1),
        roles,
    }
}

// The set of this kind by this name.
#[tactic(auto, using(crate::proofs::Reading::reading_set))]
pub fn set_named(state: &[u64; PLACES], kind: Kind, name: SetName) -> RoleSet
    ensures { result ≡ sets_of kind (view state.now) name.number }
{
    if name.is_beyond() {
        return set_of(0, 0);
    }
    let from = sets_from(kind);
    let at = name.number as usize;
    set_of(state[from + at], state[from + 16 + at])
}

// The session with this owner, by the number that stands for it, and these active roles.
fn session_of(owner: u64, active: u64) -> SessionRecord
    ensures { result ≡ session_of owner active }
{
    SessionRecord {
        live: owner != 0,
        owner: owner.saturating_sub(1),
        active,
    }
}

// The session as it stands.
pub fn session_at(state: &[u64; PLACES], x: Session) -> SessionRecord
    ensures { result ≡ (view state.now).sessions x.number }
{
    if x.is_beyond() {
        return session_of(0, 0);
    }
    let at = x.number as usize;
    session_of(state[OWNERS + at], state[ACTIVE + at])
}

// Kept (2): one number each, and what is promised of it; there is nothing to share.
// How many assignments stand.
pub fn assignment_count(state: &[u64; PLACES]) -> u64
    ensures { result ≡ (view state.now).assignment_count }
{
    state[ASSIGNMENT_COUNT]
}

// How many grants stand.
pub fn grant_count(state: &[u64; PLACES]) -> u64
    ensures { result ≡ (view state.now).grant_count }
{
    state[GRANT_COUNT]
}

// How many lines stand.
pub fn line_count(state: &[u64; PLACES]) -> u64
    ensures { result ≡ (view state.now).line_count }
{
    state[LINE_COUNT]
}
