// One thing of the state, stored. At a place beyond its range nothing is.
#![tactic(auto, using(crate::proofs::Stored::storing_one))]

ghost use Rattle.std.specs.Prelude.{◌≡◌};
ghost use Rattle.model.specs.Model.{empty, absent_set, closed_session, put, with_users, with_roles, with_lines, with_assignments, with_grants, with_sessions};
ghost use Rattle.model.specs.commands.Sessions.{open_for, session_set, active_set};
ghost use Rattle.model.specs.commands.Sets.{sets_of, a_set};
ghost use Rattle.state.specs.Stores.{in_range, pick_member, set_stored, with_members, with_active};
ghost use Rattle.state.specs.View.{part, view};

use crate::parts::sets_from;
use crate::{
    ACTIVE, ASSIGNED, ASSIGNMENT_COUNT, GRANT_COUNT, HOLDERS, JUNIORS, LINE_COUNT, OWNERS, PLACES,
    ROLES, USERS,
};
use model::Kind;
use numbers::{Numbered, Role, Session, SetName, User};

// The empty policy, with no sessions.
pub fn start(state: &mut [u64; PLACES])
    ensures { view state.new ≡ empty }
{
    state.fill(0);
}

// All that the other state holds.
pub fn put_all(state: &mut [u64; PLACES], other: &[u64; PLACES])
    ensures { view state.new ≡ view other.now }
{
    *state = *other;
}

// Kept (7): `there` is the bit to be stored, and no step that a caller chooses.
// The set with the member or without it.
fn member(set: u64, k: u16, there: bool) -> u64
    ensures { result ≡ pick_member there set k }
{
    if there {
        roleset::with(set, k)
    } else {
        roleset::without(set, k)
    }
}

// The user exists from now on, or does no longer.
pub fn put_user(state: &mut [u64; PLACES], u: User, there: bool)
    ensures { view state.new ≡ in_range 256 u.number (view state.old) (with_users (view state.old) (put (view state.old).users u.number there)) }
{
    if u.is_beyond() {
        return;
    }
    let at = USERS + (u.number / 64) as usize;
    state[at] = member(state[at], u.number % 64, there);
}

// The roles that exist are these.
pub fn put_roles(state: &mut [u64; PLACES], roles: u64)
    ensures { view state.new ≡ with_roles (view state.old) roles }
{
    state[ROLES] = roles;
}

// Kept (2): two stores each. One function for the three would take both places and the range beside what is stored, and each promises another change of the view.
// The roles directly below the role are these, and so many lines stand.
pub fn put_juniors(state: &mut [u64; PLACES], r: Role, roles: u64, standing: u64)
    ensures { view state.new ≡ in_range 64 r.number (view state.old) (with_lines (view state.old) (put (view state.old).juniors r.number roles) standing) }
{
    if r.is_beyond() {
        return;
    }
    let at = r.number as usize;
    state[JUNIORS + at] = roles;
    state[LINE_COUNT] = standing;
}

// The roles assigned to the user are these, and so many assignments stand.
pub fn put_assigned(state: &mut [u64; PLACES], u: User, roles: u64, standing: u64)
    ensures { view state.new ≡ in_range 256 u.number (view state.old) (with_assignments (view state.old) (put (view state.old).assigned u.number roles) standing) }
{
    if u.is_beyond() {
        return;
    }
    let at = u.number as usize;
    state[ASSIGNED + at] = roles;
    state[ASSIGNMENT_COUNT] = standing;
}

// The roles that hold the permission are these, and so many grants stand.
pub fn put_holders(state: &mut [u64; PLACES], p: usize, roles: u64, standing: u64)
    ensures { view state.new ≡ in_range 4096 p (view state.old) (with_grants (view state.old) (put (view state.old).holders p roles) standing) }
{
    if 4096 <= p {
        return;
    }
    state[HOLDERS + p] = roles;
    state[GRANT_COUNT] = standing;
}

// Kept (2): the copy is the library's; where it goes, and the change of the view that is promised, is all that differs and all there is.
// The lines are these, of which so many stand.
pub fn put_lines(state: &mut [u64; PLACES], juniors: &[u64; 64], standing: u64)
    ensures { view state.new ≡ with_lines (view state.old) (part juniors.now 0 64) standing }
{
    state[JUNIORS..JUNIORS + 64].copy_from_slice(juniors);
    state[LINE_COUNT] = standing;
}

// The assignments are these, of which so many stand.
pub fn put_assignments(state: &mut [u64; PLACES], assigned: &[u64; 256], standing: u64)
    ensures { view state.new ≡ with_assignments (view state.old) (part assigned.now 0 256) standing }
{
    state[ASSIGNED..ASSIGNED + 256].copy_from_slice(assigned);
    state[ASSIGNMENT_COUNT] = standing;
}

// Kept (5): a command of the model holds the kind and the name side by side (`MakeSet` and others); a struct of both would be made at each call, and be taken apart in it.
// The set of this kind is there, with this cardinality and these roles.
#[tactic(auto, using(crate::proofs::Stored::storing_set))]
pub fn put_set(state: &mut [u64; PLACES], kind: Kind, name: SetName, card: u16, roles: u64)
    ensures { view state.new ≡ in_range 16 name.number (view state.old) (set_stored kind (view state.old) name.number (a_set card roles)) }
{
    if name.is_beyond() {
        return;
    }
    let from = sets_from(kind);
    let at = name.number as usize;
    state[from + at] = card as u64 + 1;
    state[from + 16 + at] = roles;
}

// The set of this kind has these roles; whether it is there, and its cardinality, stay.
#[tactic(auto, using(crate::proofs::Stored::storing_set))]
pub fn put_members(state: &mut [u64; PLACES], kind: Kind, name: SetName, roles: u64)
    ensures { view state.new ≡ in_range 16 name.number (view state.old) (set_stored kind (view state.old) name.number (with_members (sets_of kind (view state.old) name.number) roles)) }
{
    if name.is_beyond() {
        return;
    }
    let from = sets_from(kind);
    let at = name.number as usize;
    state[from + 16 + at] = roles;
}

// Kept (2): two stores each, as of `put_juniors`; a session is closed at places of its own.
// The set of this kind is not there.
#[tactic(auto, using(crate::proofs::Stored::storing_set))]
pub fn clear_set(state: &mut [u64; PLACES], kind: Kind, name: SetName)
    ensures { view state.new ≡ in_range 16 name.number (view state.old) (set_stored kind (view state.old) name.number absent_set) }
{
    if name.is_beyond() {
        return;
    }
    let from = sets_from(kind);
    let at = name.number as usize;
    state[from + at] = 0;
    state[from + 16 + at] = 0;
}

// The session is open for the user, with these roles active.
pub fn open_session(state: &mut [u64; PLACES], x: Session, u: User, active: u64)
    ensures { view state.new ≡ in_range 64 x.number (view state.old) (session_set (view state.old) x.number (open_for u.number active)) }
{
    if x.is_beyond() {
        return;
    }
    let at = x.number as usize;
    state[OWNERS + at] = u.number as u64 + 1;
    state[ACTIVE + at] = active;
}

// The session's active roles are these.
#[tactic(auto, using(crate::proofs::Stored::storing_one), unfolding(model::specs::commands::Sessions::active_set))]
pub fn put_active(state: &mut [u64; PLACES], x: Session, active: u64)
    ensures { view state.new ≡ in_range 64 x.number (view state.old) (active_set (view state.old) x.number active) }
{
    if x.is_beyond() {
        return;
    }
    let at = x.number as usize;
    state[ACTIVE + at] = active;
}

// The session is closed.
pub fn close_session(state: &mut [u64; PLACES], x: Session)
    ensures { view state.new ≡ in_range 64 x.number (view state.old) (session_set (view state.old) x.number closed_session) }
{
    if x.is_beyond() {
        return;
    }
    let at = x.number as usize;
    state[OWNERS + at] = 0;
    state[ACTIVE + at] = 0;
}

// The active roles of the sessions are these.
pub fn put_all_active(state: &mut [u64; PLACES], kept: &[u64; 64])
    ensures { view state.new ≡ with_sessions (view state.old) (with_active (view state.old).sessions (part kept.now 0 64)) }
{
    state[ACTIVE..ACTIVE + 64].copy_from_slice(kept);
}
