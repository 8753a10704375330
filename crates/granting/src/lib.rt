// The commands `grant` and `revoke`.
#![tactic(auto, using(state::proofs::Stored::storing), unfolding(model::specs::Sheet::settle, model::specs::Sheet::verdict, state::specs::View::told, model::specs::commands::Assigning::grant, model::specs::commands::Assigning::revoke, model::specs::commands::Assigning::granted, model::specs::commands::Assigning::revoked))]

ghost use Rattle.std.specs.Prelude.{◌≡◌};
ghost use Rattle.model.specs.commands.Assigning.{grant, revoke};
ghost use Rattle.state.specs.View.{view, told};

use numbers::{Answer, Numbered, Refusal, Role};
use state::PLACES;
use state::naming::permission_beyond;
use state::reads::{grant_count, has_role, holders_of};
use state::stores::put_holders;

// The role holds the permission from now on; 1, 2, 4, 12.
pub fn grant(state: &mut [u64; PLACES], op: u16, obj: u16, r: Role) -> Answer
    ensures { told result state.new ≡ grant (view state.old) op obj r.number }
{
    if permission_beyond(op, obj) || r.is_beyond() {
        return Err(Refusal::BeyondRange);
    }
    if !has_role(state, r) {
        return Err(Refusal::Missing);
    }
    let p = op as usize * 256 + obj as usize;
    let old = holders_of(state, p);
    if roleset::has(old, r.number) {
        return Err(Refusal::AlreadyThere);
    }
    let grants = grant_count(state);
    if 2048 <= grants {
        return Err(Refusal::TableFull);
    }
    put_holders(state, p, roleset::with(old, r.number), grants + 1);
    Ok(())
}

// The role holds the permission no longer; 1, 2, 5.
pub fn revoke(state: &mut [u64; PLACES], op: u16, obj: u16, r: Role) -> Answer
    ensures { told result state.new ≡ revoke (view state.old) op obj r.number }
{
    if permission_beyond(op, obj) || r.is_beyond() {
        return Err(Refusal::BeyondRange);
    }
    if !has_role(state, r) {
        return Err(Refusal::Missing);
    }
    let p = op as usize * 256 + obj as usize;
    let old = holders_of(state, p);
    if !roleset::has(old, r.number) {
        return Err(Refusal::NotThere);
    }
    let left = grant_count(state).saturating_sub(1);
    put_holders(state, p, roleset::without(old, r.number), left);
    Ok(())
}
