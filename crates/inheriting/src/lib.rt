// The commands `inherit` and `disinherit`.
#![tactic(auto, using(crate::proofs::Laws::inheriting), unfolding(model::specs::Sheet::settle, model::specs::Sheet::verdict, state::specs::View::told, model::specs::commands::Inheriting::inherit, model::specs::commands::Inheriting::disinherit))]

ghost use Rattle.std.specs.Prelude.{◌≡◌};
ghost use Rattle.model.specs.commands.Inheriting.{inherit, disinherit};
ghost use Rattle.state.specs.View.{view, told};

use model::Kind;
use numbers::{Answer, Numbered, Refusal, Role};
use state::PLACES;
use state::parts::{assigned_table, juniors_table};
use state::reads::{directly_below, has_role, line_count};
use state::stores::{put_all_active, put_juniors};

// The line from senior to junior stands from now on; 1, 2, 4, 6, 10, 11, 12.
pub fn inherit(state: &mut [u64; PLACES], senior: Role, junior: Role) -> Answer
    ensures { told result state.new ≡ inherit (view state.old) senior.number junior.number }
{
    if senior.is_beyond() || junior.is_beyond() {
        return Err(Refusal::BeyondRange);
    }
    if !has_role(state, senior) || !has_role(state, junior) {
        return Err(Refusal::Missing);
    }
    let old = directly_below(state, senior);
    if roleset::has(old, junior.number) {
        return Err(Refusal::AlreadyThere);
    }
    let below = walking::reach(state, roleset::with(0, junior.number));
    if roleset::has(below, senior.number) {
        return Err(Refusal::InheritsItself);
    }
    let more = roleset::with(old, junior.number);
    let mut juniors = juniors_table(state);
    juniors[senior.number as usize] = more;
    if sweeps::ask_rule(state, Kind::Static, &juniors) {
        return Err(Refusal::BreaksStatic);
    }
    if sweeps::ask_rule(state, Kind::Dynamic, &juniors) {
        return Err(Refusal::BreaksDynamic);
    }
    let standing = line_count(state);
    if 512 <= standing {
        return Err(Refusal::TableFull);
    }
    put_juniors(state, senior, more, standing + 1);
    Ok(())
}

// The line from senior to junior goes; then the sessions shed; 1, 2, 5.
pub fn disinherit(state: &mut [u64; PLACES], senior: Role, junior: Role) -> Answer
    ensures { told result state.new ≡ disinherit (view state.old) senior.number junior.number }
{
    if senior.is_beyond() || junior.is_beyond() {
        return Err(Refusal::BeyondRange);
    }
    if !has_role(state, senior) || !has_role(state, junior) {
        return Err(Refusal::Missing);
    }
    let old = directly_below(state, senior);
    if !roleset::has(old, junior.number) {
        return Err(Refusal::NotThere);
    }
    let fewer = roleset::without(old, junior.number);
    let mut juniors = juniors_table(state);
    juniors[senior.number as usize] = fewer;
    let assigned = assigned_table(state);
    let kept = sweeps::shed(&juniors, &assigned, state);
    let standing = line_count(state).saturating_sub(1);
    put_juniors(state, senior, fewer, standing);
    put_all_active(state, &kept);
    Ok(())
}
