// The five `ssd` commands and the five `dsd` commands over the lent state, one function for both kinds of set. Refusals return before any store.
#![tactic(auto, using(state::proofs::Stored::storing), unfolding(model::specs::Sheet::settle, model::specs::Sheet::verdict, state::specs::View::told, model::specs::commands::Sets::make_set, model::specs::commands::Sets::drop_set, model::specs::commands::Sets::add_member, model::specs::commands::Sets::drop_member, model::specs::commands::Sets::set_cardinality))]

ghost use Rattle.std.specs.Prelude.{◌≡◌};
ghost use Rattle.numbers.specs.Answers.{number_of, refusal_number};
ghost use Rattle.model.specs.Sheet.{verdict};
ghost use Rattle.model.specs.commands.Sets.{rule_number, make_set, drop_set, add_member, drop_member, set_cardinality};
ghost use Rattle.state.specs.View.{view, told};
ghost use Rattle.sets.specs.Asking.{rule_refusals};

use model::{Kind, RoleSet};
use numbers::{Answer, Numbered, Refusal, Role, SetName};
use state::PLACES;
use state::reads::{has_role, roles, set_named};
use state::stores::{clear_set, put_members, put_set};

// Kept (4): no From<Kind>: a kind is no refusal; this one is only of a rule that would be broken.
// Why a command is refused that would break the rule of a set of this kind.
fn breaks_rule(kind: Kind) -> Refusal
    ensures { refusal_number result ≡ rule_number kind }
{
    match kind {
        Kind::Static => Refusal::BreaksStatic,
        Kind::Dynamic => Refusal::BreaksDynamic,
    }
}

// The last refusal of a command that would store this set: its rule would be broken; 10 or 11.
fn rule_refusal(state: &[u64; PLACES], kind: Kind, set: RoleSet) -> Answer
    ensures { number_of result ≡ verdict (rule_refusals kind (view state.now) set) }
{
    if sweeps::ask_set(state, kind, set) {
        return Err(breaks_rule(kind));
    }
    Ok(())
}

// A new set of roles with a cardinality; 14, 1, 2, 4, 7, 10 or 11.
pub fn make_set(
    state: &mut [u64; PLACES],
    kind: Kind,
    name: SetName,
    n: u16,
    list: &[u16],
) -> Answer
    ensures { told result state.new ≡ make_set kind (view state.old) name.number n list.now }
{
    let read = lists::read(list);
    if !read.ascending {
        return Err(Refusal::NotOfForm);
    }
    if name.is_beyond() || read.beyond {
        return Err(Refusal::BeyondRange);
    }
    if !roleset::subset(read.roles, roles(state)) {
        return Err(Refusal::Missing);
    }
    let old = set_named(state, kind, name);
    if old.there {
        return Err(Refusal::AlreadyThere);
    }
    let card = n as u64;
    if separation::bad_cardinality(card, read.roles) {
        return Err(Refusal::BadCardinality);
    }
    let new = RoleSet {
        there: true,
        card,
        roles: read.roles,
    };
    rule_refusal(state, kind, new)?;
    put_set(state, kind, name, n, read.roles);
    Ok(())
}

// The set is there no longer; 1, 2.
pub fn drop_set(state: &mut [u64; PLACES], kind: Kind, name: SetName) -> Answer
    ensures { told result state.new ≡ drop_set kind (view state.old) name.number }
{
    if name.is_beyond() {
        return Err(Refusal::BeyondRange);
    }
    let old = set_named(state, kind, name);
    if !old.there {
        return Err(Refusal::Missing);
    }
    clear_set(state, kind, name);
    Ok(())
}

// The role becomes a member of the set; 1, 2, 4, 10 or 11.
pub fn add_member(state: &mut [u64; PLACES], kind: Kind, name: SetName, r: Role) -> Answer
    ensures { told result state.new ≡ add_member kind (view state.old) name.number r.number }
{
    if name.is_beyond() || r.is_beyond() {
        return Err(Refusal::BeyondRange);
    }
    let old = set_named(state, kind, name);
    if !old.there || !has_role(state, r) {
        return Err(Refusal::Missing);
    }
    if roleset::has(old.roles, r.number) {
        return Err(Refusal::AlreadyThere);
    }
    let more = roleset::with(old.roles, r.number);
    let new = RoleSet {
        there: true,
        card: old.card,
        roles: more,
    };
    rule_refusal(state, kind, new)?;
    put_members(state, kind, name, more);
    Ok(())
}

// The role is no member of the set any more; 1, 2, 5, 7.
pub fn drop_member(state: &mut [u64; PLACES], kind: Kind, name: SetName, r: Role) -> Answer
    ensures { told result state.new ≡ drop_member kind (view state.old) name.number r.number }
{
    if name.is_beyond() || r.is_beyond() {
        return Err(Refusal::BeyondRange);
    }
    let old = set_named(state, kind, name);
    if !old.there || !has_role(state, r) {
        return Err(Refusal::Missing);
    }
    if !roleset::has(old.roles, r.number) {
        return Err(Refusal::NotThere);
    }
    let rest = roleset::without(old.roles, r.number);
    if separation::bad_cardinality(old.card, rest) {
        return Err(Refusal::BadCardinality);
    }
    put_members(state, kind, name, rest);
    Ok(())
}

// The set takes another cardinality; 1, 2, 7, 10 or 11.
pub fn set_cardinality(state: &mut [u64; PLACES], kind: Kind, name: SetName, n: u16) -> Answer
    ensures { told result state.new ≡ set_cardinality kind (view state.old) name.number n }
{
    if name.is_beyond() {
        return Err(Refusal::BeyondRange);
    }
    let old = set_named(state, kind, name);
    if !old.there {
        return Err(Refusal::Missing);
    }
    let card = n as u64;
    if separation::bad_cardinality(card, old.roles) {
        return Err(Refusal::BadCardinality);
    }
    let new = RoleSet {
        there: true,
        card,
        roles: old.roles,
    };
    rule_refusal(state, kind, new)?;
    put_set(state, kind, name, n, old.roles);
    Ok(())
}
