// Asks a state whether it is of the form of the policy file, and which rule it breaks.
#![tactic(auto, using(crate::proofs::Passing::passing))]

ghost use Rattle.std.specs.Prelude.{true, not, ◌&&◌, ◌≡◌, ℕ};
ghost use Rattle.roleset.specs.Roles.{has, subset};
ghost use Rattle.hierarchy.specs.Lines.{table_of};
ghost use Rattle.numbers.specs.Answers.{number_of};
ghost use Rattle.model.specs.Sheet.{verdict};
ghost use Rattle.model.specs.Words.{authorised};
ghost use Rattle.model.specs.commands.Sets.{sets_of, bad_cardinality};
ghost use Rattle.state.specs.View.{view};
ghost use Rattle.policyform.specs.Rules.{bad_set, unauthorised, rules_broken};
ghost use Rattle.policycheck.specs.Tests.{Tells, Inside, Backed, SetFine, SessionFine, TablesFine, Few, Fits};

use model::{Kind, RoleSet, SessionRecord};
use numbers::{Answer, Refusal, Role, Session, SetName, User};
use state::PLACES;
use state::parts::{assigned, holders, juniors, juniors_table};
use state::reads::{
    assigned_to, assignment_count, directly_below, grant_count, has_role, has_user, line_count,
    roles, session_at, set_named,
};

// Does every role that the table names exist?
fn within(state: &[u64; PLACES], table: &[u64]) -> bool
    ensures { Tells result ((k : ℕ) → Inside (view state.now).roles (table_of table.now k)) }
{
    table.iter().all(|set| roleset::subset(*set, roles(state)))
}

// Is what has roles there?
fn backed(there: bool, set: u64) -> bool
    ensures { Tells result (Backed there set) }
{
    there || roleset::is_empty(set)
}

// Is every senior one of the roles?
fn seniors(state: &[u64; PLACES]) -> bool
    ensures { Tells result ((s : ℕ) → Backed (has (view state.now).roles s) ((view state.now).juniors s)) }
{
    (0..64).all(|k| {
        let s = Role { number: k };
        backed(has_role(state, s), directly_below(state, s))
    })
}

// Does every user with a role exist?
fn assignees(state: &[u64; PLACES]) -> bool
    ensures { Tells result ((u : ℕ) → Backed ((view state.now).users u) ((view state.now).assigned u)) }
{
    (0..256).all(|k| {
        let u = User { number: k };
        backed(has_user(state, u), assigned_to(state, u))
    })
}

// Does every user and role that a line, an assignment or a grant names exist?
fn tables_fine(state: &[u64; PLACES]) -> bool
    ensures { Tells result (TablesFine (view state.now)) }
{
    if !seniors(state) {
        return false;
    }
    if !within(state, juniors(state)) {
        return false;
    }
    if !assignees(state) {
        return false;
    }
    if !within(state, assigned(state)) {
        return false;
    }
    within(state, holders(state))
}

// Kept (2): of a set and of a session other things are asked; one function would take them as closures and share an `if`.
// Is the set all zero where it is not there, is its cardinality a number of the file, and are its roles among the roles?
fn set_fine(set: RoleSet, roles: u64) -> bool
    ensures { Tells result (SetFine roles set) }
{
    if set.there {
        set.card < 65536 && roleset::subset(set.roles, roles)
    } else {
        set.card == 0 && set.roles == 0
    }
}

// Has every set of one kind the form that a file may list?
fn sets_fine(state: &[u64; PLACES], kind: Kind) -> bool
    ensures { Tells result ((n : ℕ) → SetFine (view state.now).roles (sets_of kind (view state.now) n)) }
{
    (0..16).all(|k| set_fine(set_named(state, kind, SetName { number: k }), roles(state)))
}

// Kept (2): with `held_by` it shares one comparison; a third function for that would be as long as either.
// Does a user of this number, however large, exist?
fn is_user(state: &[u64; PLACES], u: u64) -> bool
    ensures { result ≡ (view state.now).users u }
{
    u < 256 && has_user(state, User { number: u as u16 })
}

// Is the session all zero where it is not live, and do its user and its roles exist?
fn session_fine(state: &[u64; PLACES], session: SessionRecord) -> bool
    ensures { Tells result (SessionFine (view state.now).users (view state.now).roles session) }
{
    if session.live {
        is_user(state, session.owner) && roleset::subset(session.active, roles(state))
    } else {
        session.owner == 0 && session.active == 0
    }
}

// Is every session so?
fn sessions_fine(state: &[u64; PLACES]) -> bool
    ensures { Tells result ((s : ℕ) → SessionFine (view state.now).users (view state.now).roles ((view state.now).sessions s)) }
{
    (0..64).all(|k| session_fine(state, session_at(state, Session { number: k })))
}

// Do no more lines, assignments and grants stand than may, by what is kept of them?
fn few(state: &[u64; PLACES]) -> bool
    ensures { Tells result (Few (view state.now)) }
{
    line_count(state) <= 512 && assignment_count(state) <= 2048 && grant_count(state) <= 2048
}

// Is the state one that a policy file may hold? How many lines, assignments and grants stand is not counted again.
pub fn formed(state: &[u64; PLACES]) -> bool
    ensures { Tells result (Fits (view state.now)) }
{
    few(state)
        && tables_fine(state)
        && sets_fine(state, Kind::Static)
        && sets_fine(state, Kind::Dynamic)
        && sessions_fine(state)
}

// Is the cardinality of a set that is there below 2, or above the number of its roles?
fn bad_cardinality(set: RoleSet) -> bool
    ensures { result ≡ (set.there && bad_cardinality set.card set.roles) }
{
    set.there && separation::bad_cardinality(set.card, set.roles)
}

// Is the cardinality of some set of the kind so?
fn bad_set(state: &[u64; PLACES], kind: Kind) -> bool
    ensures { result ≡ bad_set (sets_of kind (view state.now)) }
{
    (0..16).any(|k| bad_cardinality(set_named(state, kind, SetName { number: k })))
}

// The roles assigned to a user of this number, however large.
fn held_by(state: &[u64; PLACES], u: u64) -> u64
    ensures { result ≡ (view state.now).assigned u }
{
    if u < 256 {
        assigned_to(state, User { number: u as u16 })
    } else {
        0
    }
}

// Has the session a role active that its owner is not authorised for? With no role active it has not.
fn beyond(state: &[u64; PLACES], session: SessionRecord) -> bool
    ensures { result ≡ not (subset session.active (authorised (view state.now) session.owner)) }
{
    if roleset::is_empty(session.active) {
        return false;
    }
    let authorised = walking::reach(state, held_by(state, session.owner));
    !roleset::subset(session.active, authorised)
}

// Has some session such a role active?
fn unauthorised(state: &[u64; PLACES]) -> bool
    ensures { result ≡ unauthorised (view state.now) }
{
    (0..64).any(|k| beyond(state, session_at(state, Session { number: k })))
}

// The lowest rule that the state breaks, or that it breaks none.
#[tactic(auto, using(crate::proofs::Asking::asking), unfolding(policyform::specs::Rules::rules_broken, model::specs::Sheet::verdict))]
pub fn broken(state: &[u64; PLACES]) -> Answer
    ensures { number_of result ≡ verdict (rules_broken (view state.now)) }
{
    let lines = juniors_table(state);
    if hierarchy::circular(&lines) {
        return Err(Refusal::InheritsItself);
    }
    if bad_set(state, Kind::Static) || bad_set(state, Kind::Dynamic) {
        return Err(Refusal::BadCardinality);
    }
    if unauthorised(state) {
        return Err(Refusal::NotAuthorised);
    }
    if sweeps::ask_rule(state, Kind::Static, &lines) {
        return Err(Refusal::BreaksStatic);
    }
    if sweeps::ask_rule(state, Kind::Dynamic, &lines) {
        return Err(Refusal::BreaksDynamic);
    }
    Ok(())
}
