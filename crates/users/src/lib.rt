// The commands `user`, `end-all` and `nouser`.
#![tactic(auto, using(state::proofs::Stored::storing), unfolding(model::specs::Sheet::settle, model::specs::Sheet::verdict, state::specs::View::told, model::specs::commands::Users::user, model::specs::commands::Users::end_all, model::specs::commands::Users::nouser, model::specs::commands::Users::without_user))]

ghost use Rattle.std.specs.Prelude.{◌≡◌};
ghost use Rattle.model.specs.commands.Users.{user, end_all, nouser};
ghost use Rattle.state.specs.View.{view, told};

use numbers::{Answer, Numbered, Refusal, User};
use state::PLACES;
use state::reads::{assigned_to, assignment_count, has_user};
use state::stores::{put_assigned, put_user};

// The user exists from now on; 1, 4.
pub fn user(state: &mut [u64; PLACES], u: User) -> Answer
    ensures { told result state.new ≡ user (view state.old) u.number }
{
    if u.is_beyond() {
        return Err(Refusal::BeyondRange);
    }
    if has_user(state, u) {
        return Err(Refusal::AlreadyThere);
    }
    put_user(state, u, true);
    Ok(())
}

// The user's sessions end, and nothing else is changed; 1, 2.
pub fn end_all(state: &mut [u64; PLACES], u: User) -> Answer
    ensures { told result state.new ≡ end_all (view state.old) u.number }
{
    if u.is_beyond() {
        return Err(Refusal::BeyondRange);
    }
    if !has_user(state, u) {
        return Err(Refusal::Missing);
    }
    sweeps::end_all(state, u);
    Ok(())
}

// The user's assignments go, and it exists no longer; 1, 2, 16: only where it has no open session. No session is touched.
pub fn nouser(state: &mut [u64; PLACES], u: User) -> Answer
    ensures { told result state.new ≡ nouser (view state.old) u.number }
{
    if u.is_beyond() {
        return Err(Refusal::BeyondRange);
    }
    if !has_user(state, u) {
        return Err(Refusal::Missing);
    }
    if sweeps::has_open(state, u) {
        return Err(Refusal::HasOpenSessions);
    }
    let gone = roleset::size(assigned_to(state, u));
    let left = assignment_count(state).saturating_sub(gone);
    put_assigned(state, u, 0, left);
    put_user(state, u, false);
    Ok(())
}
