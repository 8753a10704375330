// Every command through one function, and every question through another.
#![tactic(auto)]

ghost use Rattle.std.specs.Prelude.{◌≡◌};
ghost use Rattle.model.specs.Step.{step};
ghost use Rattle.model.specs.declared.Question.TheVariants.{Check};
ghost use Rattle.state.specs.View.{view};
ghost use Rattle.reviews.specs.Reviewing.{AskedAny};
ghost use Rattle.engine.specs.Plain.{no_session};
ghost use Rattle.engine.specs.Stepping.{told_stepped};

use model::{Command, Question};
use numbers::{Answer, Refusal, Session};
use state::PLACES;

// The answer of a command that opens no session.
fn plain(answer: Answer) -> Result<Option<Session>, Refusal>
    ensures { result ≡ no_session answer }
{
    answer?;
    Ok(None)
}

// The command on the state; `list` is the roles that `ssd`, `dsd` and `session` name. It gives the session that `session` opened, and no other command gives anything.
#[tactic(auto, using(crate::proofs::Telling::plain_tells), unfolding(model::specs::Step::step, state::specs::Results::told_of))]
pub fn step(state: &mut [u64; PLACES], c: Command, list: &[u16]) -> Result<Option<Session>, Refusal>
    ensures { told_stepped result state.new ≡ step (view state.old) c list.now }
{
    match c {
        Command::AddUser(u) => plain(users::user(state, u)),
        Command::AddRole(r) => plain(roles::role(state, r)),
        Command::NoUser(u) => plain(users::nouser(state, u)),
        Command::NoRole(r) => plain(roles::norole(state, r)),
        Command::Assign(u, r) => plain(assigning::assign(state, u, r)),
        Command::Deassign(u, r) => plain(assigning::deassign(state, u, r)),
        Command::Grant(op, obj, r) => plain(granting::grant(state, op, obj, r)),
        Command::Revoke(op, obj, r) => plain(granting::revoke(state, op, obj, r)),
        Command::Inherit(senior, junior) => plain(inheriting::inherit(state, senior, junior)),
        Command::Disinherit(senior, junior) => plain(inheriting::disinherit(state, senior, junior)),
        Command::MakeSet(kind, name, n) => plain(sets::make_set(state, kind, name, n, list)),
        Command::DropSet(kind, name) => plain(sets::drop_set(state, kind, name)),
        Command::AddMember(kind, name, r) => plain(sets::add_member(state, kind, name, r)),
        Command::DropMember(kind, name, r) => plain(sets::drop_member(state, kind, name, r)),
        Command::SetCardinality(kind, name, n) => plain(sets::set_cardinality(
            state, kind, name, n,
        )),
        Command::OpenSession(u) => Ok(Some(sessions::session(state, u, list)?)),
        Command::Activate(u, x, r) => plain(sessions::activate(state, u, x, r)),
        Command::DropActive(u, x, r) => plain(sessions::drop(state, u, x, r)),
        Command::EndSession(u, x) => plain(sessions::end(state, u, x)),
        Command::EndAll(u) => plain(users::end_all(state, u)),
    }
}

// `check` with its two results in the buffer: 1 for yes or 0 for no, and how many effective roles it looked at; 15 too, where the buffer has fewer than two places.
#[tactic(auto, using(crate::proofs::Asking::check_refused, crate::proofs::Asking::check_short, crate::proofs::Asking::check_done), unfolding(model::specs::Questions::ask))]
fn check(
    state: &[u64; PLACES],
    x: Session,
    op: u16,
    obj: u16,
    out: &mut [u16],
) -> Result<usize, Refusal>
    ensures { AskedAny (view state.now) (Check x op obj) out.old out.new result }
{
    let found = checking::check(state, x, op, obj)?;
    let short = out.len() < 2;
    if short {
        return Err(Refusal::BufferShort);
    }
    out[0] = found.yes as u16;
    out[1] = found.looked;
    Ok(2)
}

// Any question, with its results at the front of the buffer, and how many they are. The answer of `check` is 15 too where the buffer has fewer than two places.
#[tactic(auto, using(crate::proofs::Asking::asked_arm))]
pub fn ask(state: &[u64; PLACES], q: Question, out: &mut [u16]) -> Result<usize, Refusal>
    ensures { AskedAny (view state.now) q out.old out.new result }
{
    match q {
        Question::Check(x, op, obj) => check(state, x, op, obj, out),
        Question::AssignedUsers(r) => reviews::assigned_users(state, r, out),
        Question::AssignedRoles(u) => reviews::assigned_roles(state, u, out),
        Question::AuthUsers(r) => reviews::auth_users(state, r, out),
        Question::AuthRoles(u) => reviews::auth_roles(state, u, out),
        Question::RolePerms(r) => reviews::role_perms(state, r, out),
        Question::UserPerms(u) => reviews::user_perms(state, u, out),
        Question::SessionRoles(x) => reviews::session_roles(state, x, out),
        Question::SessionPerms(x) => reviews::session_perms(state, x, out),
        Question::RoleOps(r, obj) => reviews::role_ops(state, r, obj, out),
        Question::UserOps(u, obj) => reviews::user_ops(state, u, obj, out),
        Question::Sets(kind) => reviews::set_names(state, kind, out),
        Question::SetRoles(kind, name) => reviews::set_roles(state, kind, name, out),
        Question::SetCount(kind, name) => reviews::set_count(state, kind, name, out),
    }
}
