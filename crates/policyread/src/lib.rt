// Gathers a state from the bytes of a file without asking whether they are one: bytes past the end are 0, what is out of range is dropped, and no count is taken as larger than its limit.
#![tactic(auto)]

ghost use Rattle.std.specs.Prelude.{◌≡◌, ◌≤◌, ℕ, List, length, drop};
ghost use Rattle.hierarchy.specs.Lines.{table_of};
ghost use Rattle.model.specs.Model.{standing};
ghost use Rattle.state.specs.View.{view};
ghost use Rattle.text.specs.Places.{word_at, at_most};
ghost use Rattle.policyread.specs.Gathered.{counted, gathered};
ghost use Rattle.policyread.specs.Steps.{Step, Read, entries, read_user, read_role, read_line, read_assignment, read_grant, read_set, read_session};

use model::Kind;
use numbers::{Role, Session, SetName, User};
use state::PLACES;
use state::parts::{assigned, holders, juniors};
use state::reads::{assigned_to, directly_below, holders_of};
use state::stores::{
    open_session, put_assigned, put_holders, put_juniors, put_roles, put_set, put_user, start,
};
use std::marker::Model;

// What is left of a file: to a contract, the bytes themselves. Past their end every number is 0.
#[derive(Drop)]
struct Cursor<'a> {
    rest: &'a [u8],
}

impl<'a> Model for Cursor<'a> {
    ghost Value = { List ℕ };

    ghost view = { λ c. c.rest.now };
}

impl Cursor<'_> {
    // The next number.
    fn word(&mut self) -> u16
        ensures value { result ≡ word_at self.old 0 }
        ensures left { self.new ≡ drop 2 self.old }
    {
        let number = text::word_at(self.rest, 0);
        self.rest = &self.rest[self.rest.len().min(2)..];
        number
    }

    // The next number, a count: the most where it is above that.
    fn count(&mut self, most: u16) -> u16
        ensures value { result ≡ at_most most (word_at self.old 0) }
        ensures left { self.new ≡ drop 2 self.old }
    {
        self.word().min(most)
    }

    // A list of roles: the section of roles, or the roles of a set or a session.
    fn roles(&mut self) -> u64
        ensures { Read (entries 64 read_role) self.old 0 self.new result }
    {
        let mut roles = 0;
        for _ in 0..self.count(64) {
            roles = roleset::with(roles, self.word());
        }
        roles
    }
}

// A section of the file: how an entry of it is read into the state.
trait Section {
    ghost step: { Self → Step };

    fn entry(&self, file: &mut Cursor, state: &mut [u64; PLACES])
        ensures { Read (step self.now) file.old (view state.old) file.new (view state.new) };
}

// The whole section: as many entries as its count says, and at most so many.
fn read_section<S: Section>(section: &S, most: u16, file: &mut Cursor, state: &mut [u64; PLACES])
    ensures { Read (entries most (S.step section.now)) file.old (view state.old) file.new (view state.new) }
{
    for _ in 0..file.count(most) {
        section.entry(file, state);
    }
}

// The users.
struct Users;

impl Section for Users {
    ghost step = { λ _. read_user };

    fn entry(&self, file: &mut Cursor, state: &mut [u64; PLACES]) {
        let number = file.word();
        put_user(state, User { number }, true);
    }
}

// The lines. How many stand is counted at the end, and so are the assignments and the grants.
struct Lines;

impl Section for Lines {
    ghost step = { λ _. read_line };

    fn entry(&self, file: &mut Cursor, state: &mut [u64; PLACES]) {
        let s = Role {
            number: file.word(),
        };
        let roles = roleset::with(directly_below(state, s), file.word());
        put_juniors(state, s, roles, 0);
    }
}

// The assignments.
struct Assignments;

impl Section for Assignments {
    ghost step = { λ _. read_assignment };

    fn entry(&self, file: &mut Cursor, state: &mut [u64; PLACES]) {
        let u = User {
            number: file.word(),
        };
        let roles = roleset::with(assigned_to(state, u), file.word());
        put_assigned(state, u, roles, 0);
    }
}

// The grants.
struct Grants;

impl Section for Grants {
    ghost step = { λ _. read_grant };

    fn entry(&self, file: &mut Cursor, state: &mut [u64; PLACES]) {
        let r = file.word();
        let op = file.word() as usize;
        let obj = file.word() as usize;
        let p = op * 256 + obj;
        let roles = roleset::with(holders_of(state, p), r);
        put_holders(state, p, roles, 0);
    }
}

// The sets of one kind, each with any cardinality.
struct Sets {
    kind: Kind,
}

impl Section for Sets {
    ghost step = { λ s. read_set s.kind };

    fn entry(&self, file: &mut Cursor, state: &mut [u64; PLACES]) {
        let name = SetName {
            number: file.word(),
        };
        let card = file.word();
        put_set(state, self.kind, name, card, file.roles());
    }
}

// The sessions, each with any owner.
struct Sessions;

impl Section for Sessions {
    ghost step = { λ _. read_session };

    fn entry(&self, file: &mut Cursor, state: &mut [u64; PLACES]) {
        let session = Session {
            number: file.word(),
        };
        let owner = User {
            number: file.word(),
        };
        open_session(state, session, owner, file.roles());
    }
}

// How many roles are in the sets of a table in all.
fn members(table: &[u64]) -> u64
    requires { length table.now ≤ 4096 }
    ensures { result ≡ standing (length table.now) (table_of table.now) }
{
    table.iter().map(|set| roleset::size(*set)).sum()
}

// How many lines, assignments and grants stand is what was read of them.
fn count_all(state: &mut [u64; PLACES])
    ensures { view state.new ≡ counted (view state.old) }
{
    let lines = members(juniors(state));
    let assignments = members(assigned(state));
    let grants = members(holders(state));
    let s = Role { number: 0 };
    let below = directly_below(state, s);
    put_juniors(state, s, below, lines);
    let u = User { number: 0 };
    let held = assigned_to(state, u);
    put_assigned(state, u, held, assignments);
    let holding = holders_of(state, 0);
    put_holders(state, 0, holding, grants);
}

// The state that any bytes tell. Of the file of a model it is this model (proofs/Whole).
pub fn gather(bytes: &[u8], state: &mut [u64; PLACES])
    ensures { view state.new ≡ gathered bytes.now }
{
    start(state);
    let mut file = Cursor { rest: bytes };
    read_section(&Users, 256, &mut file, state);
    put_roles(state, file.roles());
    read_section(&Lines, 512, &mut file, state);
    read_section(&Assignments, 2048, &mut file, state);
    read_section(&Grants, 2048, &mut file, state);
    read_section(&Sets { kind: Kind::Static }, 16, &mut file, state);
    read_section(
        &Sets {
            kind: Kind::Dynamic,
        },
        16,
        &mut file,
        state,
    );
    read_section(&Sessions, 64, &mut file, state);
    count_all(state);
}
