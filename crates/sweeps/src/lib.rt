// Sweeps over all users and over all sessions of the lent state, one walk each. Where lines or assignments are to change, a sweep goes over tables as they will be, and nothing is stored yet.
#![tactic(auto)]

ghost use Rattle.std.specs.Prelude.{◌≡◌, ◌<◌, MatchOption};
ghost use Rattle.hierarchy.specs.Lines.{table_of};
ghost use Rattle.model.specs.Model.{Session};
ghost use Rattle.model.specs.Words.{shedded};
ghost use Rattle.model.specs.commands.Sessions.{lowest_free};
ghost use Rattle.model.specs.commands.Sets.{asked_of, broken};
ghost use Rattle.model.specs.commands.Users.{open_of, all_ended, has_open};
ghost use Rattle.state.specs.Stores.{Table};
ghost use Rattle.state.specs.View.{part, view};
ghost use Rattle.sweeps.specs.Sweeps.{own_roles, asks_rule, ShedsAll, Strips};

use model::{Kind, RoleSet, SessionRecord};
use numbers::{Role, Session, User};
use separation::{breaks, breaks_some};
use state::PLACES;
use state::parts::{active, assigned};
use state::reads::session_at;
use state::stores::close_session;

// All 64 roles.
const ALL_ROLES: u64 = u64::MAX;

// The roles that those have themselves of whom a rule of the kind is asked: the users, or the sessions.
fn own_roles(state: &[u64; PLACES], kind: Kind) -> &[u64]
    ensures { Table (asked_of kind) (own_roles kind (view state.now)) result.now }
{
    match kind {
        Kind::Static => assigned(state),
        Kind::Dynamic => active(state),
    }
}

// Is a rule of the kind broken for some user, or in some session, with these lines? Where having no role breaks one, everybody does; where having all 64 breaks none, nobody does, so that with no set of the kind there is no sweep. Else the first ends it, and one with no role is not walked for: a closed session costs no walk.
pub fn ask_rule<'a>(state: &'a [u64; PLACES], kind: Kind, juniors: &'a [u64; 64]) -> bool
    ensures { result ≡ asks_rule kind (view state.now) (table_of juniors.now) }
{
    if breaks_some(state, kind, 0) {
        return true;
    }
    if !breaks_some(state, kind, ALL_ROLES) {
        return false;
    }
    own_roles(state, kind).iter().any(|roles| {
        *roles != 0 && breaks_some(state, kind, hierarchy::reach(juniors, *roles))
    })
}

// Is the rule of the set broken? A static one is asked of the roles that each user is authorised for, a dynamic one of those that are effective in each session.
pub fn ask_set(state: &[u64; PLACES], kind: Kind, set: RoleSet) -> bool
    ensures { result ≡ broken kind (view state.now) set }
{
    if breaks(set, 0) {
        return true;
    }
    own_roles(state, kind).iter().any(|roles| *roles != 0
        && breaks(set, walking::reach(state, *roles)))
}

// What one session keeps of its active roles; a closed one stays as it is.
fn left_to<'a>(juniors: &'a [u64; 64], assigned: &'a [u64; 256], session: SessionRecord) -> u64
    ensures { result ≡ (shedded (table_of juniors.now) (part assigned.now 0 256) session).active }
{
    if !session.live {
        return session.active;
    }
    let held = assigned.get(session.owner as usize).copied().unwrap_or(0);
    let authorised = hierarchy::reach(juniors, held);
    roleset::common(session.active, authorised)
}

// Every session keeps exactly those active roles for which its owner is still authorised, with these lines and these assignments: what each has active then.
pub fn shed<'a>(
    juniors: &'a [u64; 64],
    assigned: &'a [u64; 256],
    state: &'a [u64; PLACES],
) -> [u64; 64]
    ensures { ShedsAll (table_of juniors.now) (part assigned.now 0 256) (view state.now).sessions result }
{
    let mut active = [0; 64];
    for (k, kept) in active.iter_mut().enumerate() {
        let session = session_at(state, Session { number: k as u16 });
        *kept = left_to(juniors, assigned, session);
    }
    active
}

// Is the session open, and the user's? A closed one has the owner 0, so the owner alone does not tell.
fn open_of(session: SessionRecord, u: User) -> bool
    ensures { result ≡ open_of u.number session }
{
    session.live && session.owner == u64::from(u.number)
}

// The sessions of the user end; another's stay.
pub fn end_all(state: &mut [u64; PLACES], u: User)
    ensures { view state.new ≡ all_ended (view state.old) u.number }
{
    for k in 0..64 {
        let x = Session { number: k };
        if open_of(session_at(state, x), u) {
            close_session(state, x);
        }
    }
}

// Has the user an open session? The first one ends the sweep.
pub fn has_open(state: &[u64; PLACES], u: User) -> bool
    ensures { result ≡ has_open (view state.now) u.number }
{
    (0..64u16).any(|k| open_of(session_at(state, Session { number: k }), u))
}

// The session with the lowest number that no live one has; none where all 64 are live.
#[tactic(auto, using(crate::proofs::Free::look_on, crate::proofs::Free::look_found, crate::proofs::Free::look_end))]
pub fn lowest_free(state: &[u64; PLACES]) -> Option<Session>
    ensures { MatchOption result (lowest_free (view state.now) ≡ 64) (λ x. (x.number ≡ lowest_free (view state.now)) × (x.number < 64)) }
{
    for number in 0..64 {
        let x = Session { number };
        let session = session_at(state, x);
        if !session.live {
            return Some(x);
        }
    }
    None
}

// The role is taken out of every set of a table, and how many had it.
pub fn strip(table: &mut [u64], r: Role) -> u64
    ensures { Strips table.old table.new r.number result }
{
    let mut n = 0;
    for set in table.iter_mut() {
        if roleset::has(*set, r.number) {
            n += 1;
        }
        *set = roleset::without(*set, r.number);
    }
    n
}
