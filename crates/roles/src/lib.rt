// The commands `role` and `norole`.
#![tactic(auto, using(state::proofs::Stored::storing), unfolding(model::specs::Sheet::settle, model::specs::Sheet::verdict, state::specs::View::told, model::specs::commands::Users::role, model::specs::commands::Users::norole))]

ghost use Rattle.std.specs.Prelude.{◌≡◌};
ghost use Rattle.model.specs.commands.Sets.{sets_of};
ghost use Rattle.model.specs.commands.Users.{role, norole, in_set};
ghost use Rattle.state.specs.Stores.{in_range};
ghost use Rattle.state.specs.View.{part, view, told};
ghost use Rattle.roles.specs.Leaving.{ungranted, all_ungranted, leaving};

use model::Kind;
use numbers::{Answer, Numbered, Refusal, Role, SetName};
use state::PLACES;
use state::parts::{assigned_table, juniors_table};
use state::reads::{
    assignment_count, grant_count, has_role, holders_of, line_count, roles, set_named,
};
use state::stores::{put_all_active, put_assignments, put_holders, put_lines, put_roles};

// The role exists from now on; 1, 4.
pub fn role(state: &mut [u64; PLACES], r: Role) -> Answer
    ensures { told result state.new ≡ role (view state.old) r.number }
{
    if r.is_beyond() {
        return Err(Refusal::BeyondRange);
    }
    if has_role(state, r) {
        return Err(Refusal::AlreadyThere);
    }
    let new = roleset::with(roles(state), r.number);
    put_roles(state, new);
    Ok(())
}

// Does the role stand in some set of this kind?
fn in_set(state: &[u64; PLACES], kind: Kind, r: Role) -> bool
    ensures { result ≡ in_set (sets_of kind (view state.now)) r.number }
{
    (0..16).any(|n| {
        let set = set_named(state, kind, SetName { number: n });
        roleset::has(set.roles, r.number)
    })
}

// The role holds the permission no longer, and a grant that went is counted; past the last permission nothing is stored.
fn ungrant(state: &mut [u64; PLACES], p: usize, r: Role)
    ensures { view state.new ≡ in_range 4096 p (view state.old) (ungranted (view state.old) p r.number) }
{
    let old = holders_of(state, p);
    if roleset::has(old, r.number) {
        let left = grant_count(state).saturating_sub(1);
        put_holders(state, p, roleset::without(old, r.number), left);
    }
}

// The role holds no permission any longer, and the grants that went are counted.
fn ungrant_all(state: &mut [u64; PLACES], r: Role)
    ensures { view state.new ≡ all_ungranted (view state.old) r.number }
{
    for p in 0..4096 {
        ungrant(state, p, r);
    }
}

// A table of role sets without a role, and how many lines or assignments went with it.
#[derive(Drop)]
struct Left<const N: usize> {
    table: [u64; N],
    gone: u64,
}

// The role and its grants go; the lines and the assignments become these, of which so many less stand.
fn put_without(state: &mut [u64; PLACES], r: Role, lines: &Left<64>, assignments: &Left<256>)
    ensures { view state.new ≡ leaving (view state.old) r.number (part lines.now.table 0 64) lines.now.gone (part assignments.now.table 0 256) assignments.now.gone }
{
    let left = roleset::without(roles(state), r.number);
    put_roles(state, left);
    let lines_left = line_count(state).saturating_sub(lines.gone);
    put_lines(state, &lines.table, lines_left);
    let assignments_left = assignment_count(state).saturating_sub(assignments.gone);
    put_assignments(state, &assignments.table, assignments_left);
    ungrant_all(state, r);
}

// The role's assignments, grants and direct lines at either end go, and the role itself; then the sessions shed; 1, 2, 8.
pub fn norole(state: &mut [u64; PLACES], r: Role) -> Answer
    ensures { told result state.new ≡ norole (view state.old) r.number }
{
    if r.is_beyond() {
        return Err(Refusal::BeyondRange);
    }
    if !has_role(state, r) {
        return Err(Refusal::Missing);
    }
    if in_set(state, Kind::Static, r) || in_set(state, Kind::Dynamic, r) {
        return Err(Refusal::StandsInSet);
    }
    let at = r.number as usize;
    let mut lines = Left {
        table: juniors_table(state),
        gone: 0,
    };
    let above = sweeps::strip(&mut lines.table, r);
    let below = roleset::count(lines.table[at]) as u64;
    lines.table[at] = 0;
    lines.gone = above + below;
    let mut assignments = Left {
        table: assigned_table(state),
        gone: 0,
    };
    assignments.gone = sweeps::strip(&mut assignments.table, r);
    let kept = sweeps::shed(&lines.table, &assignments.table, state);
    put_without(state, r, &lines, &assignments);
    put_all_active(state, &kept);
    Ok(())
}
