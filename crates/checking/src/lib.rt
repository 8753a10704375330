// The question `check`, and whose a session is.
#![tactic(auto, unfolding(model::specs::Sheet::settle, model::specs::Sheet::verdict, state::specs::Results::told_of, model::specs::commands::Sessions::owner, model::specs::commands::Sessions::check, model::specs::commands::Sessions::permitted, model::specs::commands::Sessions::looked))]

ghost use Rattle.std.specs.Prelude.{not, ◌≡◌, length};
ghost use Rattle.roleset.specs.Bounded.{members};
ghost use Rattle.roleset.specs.Roles.{has, common, is_empty};
ghost use Rattle.model.specs.Lists.{up_to_first};
ghost use Rattle.model.specs.commands.Sessions.{check, owner};
ghost use Rattle.state.specs.View.{view};
ghost use Rattle.checking.specs.Answering.{told_checked, told_owned};

use numbers::{Numbered, Refusal, Session};
use state::PLACES;
use state::naming::permission_beyond;
use state::reads::{holders_of, session_at};
use walking::reach;

// What `check` answers: yes or no, and how many effective roles it looked at.
#[derive(Clone, Copy, PartialEq, Eq)]
pub struct Checked {
    pub yes: bool,
    pub looked: u16,
}

// Whose the session is, as the state has it: in a state of the engine's own a user's number, in any other any number; 1, 2.
pub fn owner(state: &[u64; PLACES], x: Session) -> Result<u64, Refusal>
    ensures { told_owned (view state.now) result ≡ owner (view state.now) x.number }
{
    if x.is_beyond() {
        return Err(Refusal::BeyondRange);
    }
    let session = session_at(state, x);
    if !session.live {
        return Err(Refusal::Missing);
    }
    Ok(session.owner)
}

// Looks at the roles in ascending order, up to and including the first that is among the holders: is there one, and how many were looked at?
fn look(roles: u64, holders: u64) -> Checked
    ensures { result ≡ record { yes = not (is_empty (common roles holders)); looked = length (up_to_first (has holders) (members 64 (has roles))) } }
{
    let mut looked = 0;
    for r in roleset::members(roles) {
        looked += 1;
        if roleset::has(holders, r) {
            return Checked { yes: true, looked };
        }
    }
    Checked { yes: false, looked }
}

// May the session do the operation on the object? Yes exactly when some effective role holds the grant; and how many of them it looked at. 1, 2. Nothing is copied.
pub fn check(state: &[u64; PLACES], x: Session, op: u16, obj: u16) -> Result<Checked, Refusal>
    ensures { told_checked (view state.now) result ≡ check (view state.now) x.number op obj }
{
    if x.is_beyond() || permission_beyond(op, obj) {
        return Err(Refusal::BeyondRange);
    }
    let session = session_at(state, x);
    if !session.live {
        return Err(Refusal::Missing);
    }
    let effective = reach(state, session.active);
    let holders = holders_of(state, op as usize * 256 + obj as usize);
    Ok(look(effective, holders))
}
