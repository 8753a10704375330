// The session commands `session`, `activate`, `drop` and `end`.
#![tactic(auto, using(crate::proofs::Rules::asking), unfolding(model::specs::Sheet::settle, model::specs::Sheet::verdict, state::specs::View::told, state::specs::Results::told_of, model::specs::commands::Sessions::session, model::specs::commands::Sessions::activate, model::specs::commands::Sessions::drop, model::specs::commands::Sessions::end))]

ghost use Rattle.std.specs.Prelude.{◌≡◌};
ghost use Rattle.numbers.specs.Answers.{number_of};
ghost use Rattle.model.specs.Sheet.{verdict};
ghost use Rattle.model.specs.Words.{reached, breaks_some};
ghost use Rattle.model.specs.commands.Sessions.{session, activate, drop, end};
ghost use Rattle.state.specs.View.{view, told};
ghost use Rattle.sessions.specs.Answering.{told_opened};
ghost use Rattle.sessions.specs.First.{first_refusals};

use model::Kind;
use numbers::{Answer, Numbered, Refusal, Role, Session, User};
use separation::breaks_some;
use state::PLACES;
use state::reads::{assigned_to, has_role, has_user, roles, session_at};
use state::stores::{close_session, open_session, put_active};
use walking::reach;

// Would a session with these roles active break the dynamic rule? All roles that would be effective in it are counted.
fn breaks_dynamic(state: &[u64; PLACES], active: u64) -> bool
    ensures { result ≡ breaks_some (view state.now).dsd (reached (view state.now) active) }
{
    let effective = reach(state, active);
    breaks_some(state, Kind::Dynamic, effective)
}

// Opens the lowest free session for the user, with the listed roles active; 14, 1, 2, 9, 11, 12.
pub fn session(state: &mut [u64; PLACES], u: User, list: &[u16]) -> Result<Session, Refusal>
    ensures { told_opened result state.new ≡ session (view state.old) u.number list.now }
{
    let asked = lists::read(list);
    if !asked.ascending {
        return Err(Refusal::NotOfForm);
    }
    if u.is_beyond() || asked.beyond {
        return Err(Refusal::BeyondRange);
    }
    if !has_user(state, u) || !roleset::subset(asked.roles, roles(state)) {
        return Err(Refusal::Missing);
    }
    let authorised = reach(state, assigned_to(state, u));
    if !roleset::subset(asked.roles, authorised) {
        return Err(Refusal::NotAuthorised);
    }
    if breaks_dynamic(state, asked.roles) {
        return Err(Refusal::BreaksDynamic);
    }
    let free = sweeps::lowest_free(state).ok_or(Refusal::TableFull)?;
    open_session(state, free, u, asked.roles);
    Ok(free)
}

// Kept (5): each of the three has a type of its own, so that none stands for another, and a command of the model holds them so (`Activate`); a struct would be made at each call.
// The first refusals of `activate` and `drop`; done where none of them holds; 1, 2, 3.
fn first_refusals(state: &[u64; PLACES], u: User, x: Session, r: Role) -> Answer
    ensures { number_of result ≡ verdict (first_refusals (view state.now) u.number x.number r.number) }
{
    if numbers::activation_beyond(u, x, r) {
        return Err(Refusal::BeyondRange);
    }
    let session = session_at(state, x);
    if !has_user(state, u) || !session.live || !has_role(state, r) {
        return Err(Refusal::Missing);
    }
    if session.owner != u.number as u64 {
        return Err(Refusal::OtherOwner);
    }
    Ok(())
}

// The role becomes active in the session; 1, 2, 3, 4, 9, 11.
pub fn activate(state: &mut [u64; PLACES], u: User, x: Session, r: Role) -> Answer
    ensures { told result state.new ≡ activate (view state.old) u.number x.number r.number }
{
    first_refusals(state, u, x, r)?;
    let old = session_at(state, x);
    if roleset::has(old.active, r.number) {
        return Err(Refusal::AlreadyThere);
    }
    let assigned = assigned_to(state, u);
    let authorised = reach(state, assigned);
    if !roleset::has(authorised, r.number) {
        return Err(Refusal::NotAuthorised);
    }
    let active = roleset::with(old.active, r.number);
    if breaks_dynamic(state, active) {
        return Err(Refusal::BreaksDynamic);
    }
    put_active(state, x, active);
    Ok(())
}

// The role is active in the session no longer; 1, 2, 3, 5.
pub fn drop(state: &mut [u64; PLACES], u: User, x: Session, r: Role) -> Answer
    ensures { told result state.new ≡ drop (view state.old) u.number x.number r.number }
{
    first_refusals(state, u, x, r)?;
    let old = session_at(state, x);
    if !roleset::has(old.active, r.number) {
        return Err(Refusal::NotThere);
    }
    put_active(state, x, roleset::without(old.active, r.number));
    Ok(())
}

// The session ends; 1, 2, 3.
pub fn end(state: &mut [u64; PLACES], u: User, x: Session) -> Answer
    ensures { told result state.new ≡ end (view state.old) u.number x.number }
{
    if u.is_beyond() || x.is_beyond() {
        return Err(Refusal::BeyondRange);
    }
    let old = session_at(state, x);
    if !has_user(state, u) || !old.live {
        return Err(Refusal::Missing);
    }
    if old.owner != u.number as u64 {
        return Err(Refusal::OtherOwner);
    }
    close_session(state, x);
    Ok(())
}
