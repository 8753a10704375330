// Listing: the places of a table whose set has one of some roles, in ascending order, written to a lent buffer that has room for all of them.
#![tactic(auto, unfolding(model::specs::Sheet::settle, model::specs::Sheet::verdict))]

ghost use Rattle.std.specs.Prelude.{false, not, [], ◌∷◌, ◌≡◌, ℕ, ◌≤◌, ◌<◌, length};
ghost use Rattle.roleset.specs.Bounded.{bit, members};
ghost use Rattle.roleset.specs.Roles.{has, none, with};
ghost use Rattle.hierarchy.specs.Lines.{table_of};
ghost use Rattle.numbers.specs.Answers.{number_of};
ghost use Rattle.model.specs.Sheet.{verdict, ◌when◌};
ghost use Rattle.model.specs.Words.{permission};
ghost use Rattle.model.specs.Questions.{holds};
ghost use Rattle.model.specs.commands.Sets.{sets_of};
ghost use Rattle.state.specs.View.{view};
ghost use Rattle.reviews.specs.Reviewing.{Lists, meets, meeting};

use model::Kind;
use numbers::{Answer, Refusal, SetName};
use state::PLACES;
use state::reads::{holders_of, set_named};
use std::array::from_fn;

// The refusals that need no list: a number is beyond its range, or what it names does not exist; 1, 2.
pub(crate) fn named(beyond: bool, there: bool) -> Answer
    ensures { number_of result ≡ verdict (1 when beyond ∷ 2 when not there ∷ []) }
{
    if beyond {
        return Err(Refusal::BeyondRange);
    }
    if there { Ok(()) } else { Err(Refusal::Missing) }
}

// Is some role in both sets?
fn meet(roles: u64, set: u64) -> bool
    ensures { result ≡ meets roles set }
{
    !roleset::is_empty(roleset::common(roles, set))
}

// How many places are to be listed.
fn count(table: &[u64], roles: u64) -> usize
    ensures { result ≡ length (meeting roles table.now) }
{
    let mut n = 0;
    for set in table {
        if meet(roles, *set) {
            n += 1;
        }
    }
    n
}

// Lists the places of the table that have one of the roles. It counts before it writes, since a refusal leaves the buffer as it was; 15.
pub(crate) fn list(table: &[u64], roles: u64, out: &mut [u16]) -> Result<usize, Refusal>
    requires { length table.now ≤ 4096 }
    ensures { Lists false false (meeting roles table.now) out.old out.new result }
{
    if out.len() < count(table, roles) {
        return Err(Refusal::BufferShort);
    }
    // Kept (3): zipped with the buffer it was tried, and the list that is written stayed open, which the loop would have to find again in what both iterators have left.
    let mut n = 0;
    for (k, set) in table.iter().enumerate() {
        if meet(roles, *set) {
            out[n] = k as u16;
            n += 1;
        }
    }
    Ok(n)
}

// Lists one number.
pub(crate) fn list_one(number: u16, out: &mut [u16]) -> Result<usize, Refusal>
    ensures { Lists false false (number ∷ []) out.old out.new result }
{
    let first = out.first_mut().ok_or(Refusal::BufferShort)?;
    *first = number;
    Ok(1)
}

// Each role alone, in the place of its number.
fn singles() -> [u64; 64]
    ensures { (r : ℕ) → r < 64 → table_of result r ≡ with none r }
{
    from_fn(|r| roleset::with(0, r as u16))
}

// Lists the roles of a set.
pub(crate) fn list_roles(roles: u64, out: &mut [u16]) -> Result<usize, Refusal>
    ensures { Lists false false (members 64 (has roles)) out.old out.new result }
{
    list(&singles(), roles, out)
}

// For each operation the roles that hold it on the object.
fn holders_on(state: &[u64; PLACES], obj: u16) -> [u64; 16]
    ensures { (op : ℕ) → op < 16 → table_of result op ≡ (view state.now).holders (permission op obj) }
{
    from_fn(|op| holders_of(state, op * 256 + obj as usize))
}

// Lists the operations that one of the roles holds on the object.
pub(crate) fn list_ops(
    state: &[u64; PLACES],
    obj: u16,
    roles: u64,
    out: &mut [u16],
) -> Result<usize, Refusal>
    ensures { Lists false false (members 16 (λ op. holds (view state.now) roles (permission op obj))) out.old out.new result }
{
    list(&holders_on(state, obj), roles, out)
}

// Role 0 in the place of each set of this kind that is there, and no role in the other places.
pub(crate) fn there(state: &[u64; PLACES], kind: Kind) -> [u64; 16]
    ensures { (n : ℕ) → n < 16 → table_of result n ≡ bit (sets_of kind (view state.now) n).there }
{
    from_fn(|n| set_named(state, kind, SetName { number: n as u16 }).there as u64)
}
