// The reviews: the questions whose answer is a list. Each finds the set of roles that it is about, by one walk at most, and lists by one shared pass.
// It answers how many results there are, or is refused.
// The results stand at the front of the lent buffer. Its places past them are untouched, and so is all of it on a refusal; 1, 2, 15.
#![tactic(auto, using(crate::proofs::Settling::told_listed), unfolding(model::specs::Sheet::settle, model::specs::Sheet::verdict, model::specs::Questions::ask, model::specs::Questions::assigned_users, model::specs::Questions::assigned_roles, model::specs::Questions::auth_users, model::specs::Questions::auth_roles, model::specs::Questions::role_perms, model::specs::Questions::user_perms, model::specs::Questions::session_roles, model::specs::Questions::session_perms, model::specs::Questions::role_ops, model::specs::Questions::user_ops, model::specs::Questions::set_names, model::specs::Questions::set_roles, model::specs::Questions::set_count))]

ghost use Rattle.model.specs.declared.Question.TheVariants.{AssignedUsers, AssignedRoles, AuthUsers, AuthRoles, RolePerms, UserPerms, SessionRoles, SessionPerms, RoleOps, UserOps, Sets, SetRoles, SetCount};
ghost use Rattle.state.specs.View.{view};
ghost use Rattle.reviews.specs.Reviewing.{Asked};

use model::Kind;
use numbers::{Numbered, Refusal, Role, Session, SetName, User};
use state::PLACES;
use state::parts::{assigned, holders, juniors_table};
use state::reads::{assigned_to, has_role, has_user, session_at, set_named};
use walking::reach;

mod listing;

use listing::{list, list_ops, list_roles, named};

// The users that the role is assigned to.
pub fn assigned_users(state: &[u64; PLACES], r: Role, out: &mut [u16]) -> Result<usize, Refusal>
    ensures { Asked (view state.now) (AssignedUsers r) out.old out.new result }
{
    named(r.is_beyond(), has_role(state, r))?;
    list(assigned(state), roleset::with(0, r.number), out)
}

// The roles that are assigned to the user.
pub fn assigned_roles(state: &[u64; PLACES], u: User, out: &mut [u16]) -> Result<usize, Refusal>
    ensures { Asked (view state.now) (AssignedRoles u) out.old out.new result }
{
    named(u.is_beyond(), has_user(state, u))?;
    list_roles(assigned_to(state, u), out)
}

// The users that are authorised for the role: assigned to it or to one that inherits it.
pub fn auth_users(state: &[u64; PLACES], r: Role, out: &mut [u16]) -> Result<usize, Refusal>
    ensures { Asked (view state.now) (AuthUsers r) out.old out.new result }
{
    named(r.is_beyond(), has_role(state, r))?;
    let above = hierarchy::at_or_above(&juniors_table(state), r);
    list(assigned(state), above, out)
}

// The roles that the user is authorised for.
pub fn auth_roles(state: &[u64; PLACES], u: User, out: &mut [u16]) -> Result<usize, Refusal>
    ensures { Asked (view state.now) (AuthRoles u) out.old out.new result }
{
    named(u.is_beyond(), has_user(state, u))?;
    let held = assigned_to(state, u);
    let authorised = reach(state, held);
    list_roles(authorised, out)
}

// The permissions of the role, with inherited ones.
pub fn role_perms(state: &[u64; PLACES], r: Role, out: &mut [u16]) -> Result<usize, Refusal>
    ensures { Asked (view state.now) (RolePerms r) out.old out.new result }
{
    named(r.is_beyond(), has_role(state, r))?;
    let met = reach(state, roleset::with(0, r.number));
    list(holders(state), met, out)
}

// The permissions of the user, with inherited ones.
pub fn user_perms(state: &[u64; PLACES], u: User, out: &mut [u16]) -> Result<usize, Refusal>
    ensures { Asked (view state.now) (UserPerms u) out.old out.new result }
{
    named(u.is_beyond(), has_user(state, u))?;
    let met = reach(state, assigned_to(state, u));
    list(holders(state), met, out)
}

// The active roles of the session.
pub fn session_roles(state: &[u64; PLACES], x: Session, out: &mut [u16]) -> Result<usize, Refusal>
    ensures { Asked (view state.now) (SessionRoles x) out.old out.new result }
{
    let session = session_at(state, x);
    named(x.is_beyond(), session.live)?;
    list_roles(session.active, out)
}

// The permissions of the session's effective roles.
pub fn session_perms(state: &[u64; PLACES], x: Session, out: &mut [u16]) -> Result<usize, Refusal>
    ensures { Asked (view state.now) (SessionPerms x) out.old out.new result }
{
    let session = session_at(state, x);
    named(x.is_beyond(), session.live)?;
    let met = reach(state, session.active);
    list(holders(state), met, out)
}

// The operations that the role may do on the object, by itself or by what it inherits.
pub fn role_ops(state: &[u64; PLACES], r: Role, obj: u16, out: &mut [u16]) -> Result<usize, Refusal>
    ensures { Asked (view state.now) (RoleOps r obj) out.old out.new result }
{
    named(r.is_beyond() || 256 <= obj, has_role(state, r))?;
    let met = reach(state, roleset::with(0, r.number));
    list_ops(state, obj, met, out)
}

// The operations that the user may do on the object.
pub fn user_ops(state: &[u64; PLACES], u: User, obj: u16, out: &mut [u16]) -> Result<usize, Refusal>
    ensures { Asked (view state.now) (UserOps u obj) out.old out.new result }
{
    named(u.is_beyond() || 256 <= obj, has_user(state, u))?;
    let met = reach(state, assigned_to(state, u));
    list_ops(state, obj, met, out)
}

// The names of the sets of this kind that are there.
pub fn set_names(state: &[u64; PLACES], kind: Kind, out: &mut [u16]) -> Result<usize, Refusal>
    ensures { Asked (view state.now) (Sets kind) out.old out.new result }
{
    list(&listing::there(state, kind), 1, out)
}

// The roles of the set.
pub fn set_roles(
    state: &[u64; PLACES],
    kind: Kind,
    name: SetName,
    out: &mut [u16],
) -> Result<usize, Refusal>
    ensures { Asked (view state.now) (SetRoles kind name) out.old out.new result }
{
    let set = set_named(state, kind, name);
    named(name.is_beyond(), set.there)?;
    list_roles(set.roles, out)
}

// The cardinality of the set, in sixteen bits.
pub fn set_count(
    state: &[u64; PLACES],
    kind: Kind,
    name: SetName,
    out: &mut [u16],
) -> Result<usize, Refusal>
    ensures { Asked (view state.now) (SetCount kind name) out.old out.new result }
{
    let set = set_named(state, kind, name);
    named(name.is_beyond(), set.there)?;
    listing::list_one((set.card % 65536) as u16, out)
}
