// The commands `assign` and `deassign`.
#![tactic(auto, using(crate::proofs::Laws::assigning), unfolding(model::specs::Sheet::settle, model::specs::Sheet::verdict, state::specs::View::told, model::specs::commands::Assigning::assign, model::specs::commands::Assigning::deassign))]

ghost use Rattle.std.specs.Prelude.{◌≡◌};
ghost use Rattle.model.specs.commands.Assigning.{assign, deassign};
ghost use Rattle.state.specs.View.{view, told};

use model::Kind;
use numbers::{Answer, Numbered, Refusal, Role, User};
use separation::breaks_some;
use state::PLACES;
use state::parts::{assigned_table, juniors_table};
use state::reads::{assigned_to, assignment_count, has_role, has_user};
use state::stores::{put_all_active, put_assigned};

// The role is assigned to the user; 1, 2, 4, 10, 12.
pub fn assign(state: &mut [u64; PLACES], u: User, r: Role) -> Answer
    ensures { told result state.new ≡ assign (view state.old) u.number r.number }
{
    if u.is_beyond() || r.is_beyond() {
        return Err(Refusal::BeyondRange);
    }
    if !has_user(state, u) || !has_role(state, r) {
        return Err(Refusal::Missing);
    }
    let old = assigned_to(state, u);
    if roleset::has(old, r.number) {
        return Err(Refusal::AlreadyThere);
    }
    let new = roleset::with(old, r.number);
    let authorised = walking::reach(state, new);
    if breaks_some(state, Kind::Static, authorised) {
        return Err(Refusal::BreaksStatic);
    }
    let assignments = assignment_count(state);
    if 2048 <= assignments {
        return Err(Refusal::TableFull);
    }
    put_assigned(state, u, new, assignments + 1);
    Ok(())
}

// The assignment goes; then the sessions shed; 1, 2, 5.
pub fn deassign(state: &mut [u64; PLACES], u: User, r: Role) -> Answer
    ensures { told result state.new ≡ deassign (view state.old) u.number r.number }
{
    if u.is_beyond() || r.is_beyond() {
        return Err(Refusal::BeyondRange);
    }
    if !has_user(state, u) || !has_role(state, r) {
        return Err(Refusal::Missing);
    }
    let old = assigned_to(state, u);
    if !roleset::has(old, r.number) {
        return Err(Refusal::NotThere);
    }
    let new = roleset::without(old, r.number);
    let juniors = juniors_table(state);
    let mut assigned = assigned_table(state);
    assigned[u.number as usize] = new;
    let kept = sweeps::shed(&juniors, &assigned, state);
    let left = assignment_count(state).saturating_sub(1);
    put_assigned(state, u, new, left);
    put_all_active(state, &kept);
    Ok(())
}
