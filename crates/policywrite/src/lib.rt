// Writes the file of a state, section by section. What would stand past the buffer's end is dropped, so that a buffer too short tells the length all the same.
#![tactic(auto)]

ghost use Rattle.std.specs.Prelude.{◌||◌, ℕ, List, ◌<◌, ◌≤◌, ◌++◌, ◌≡◌, length};
ghost use Rattle.std.proofs.lemmas.List.Edits.{sets};
ghost use Rattle.roleset.specs.Bounded.{only_if};
ghost use Rattle.hierarchy.specs.Lines.{table_of};
ghost use Rattle.model.specs.commands.Sets.{sets_of};
ghost use Rattle.state.specs.View.{view};
ghost use Rattle.text.specs.Bytes.{two, flat, section};
ghost use Rattle.text.specs.Places.{Wrote};
ghost use Rattle.policyform.specs.Encode.{role_list, pair_entry, pair_in, grant_entry, grant_in, set_entry, session_entry, grants_part, encode};
ghost use Rattle.policywrite.specs.Parts.{Writes, granted, row, below};

use model::Kind;
use numbers::{Session, SetName, User};
use state::{PLACES, parts, reads};

// Kept (4): no `to_le_bytes`: x is any usize, and a cast loses nothing, so that its remainder by 65,536 would be taken first; the second byte is put only where the buffer reaches so far.
// Writes the number x at a place. What would stand past the buffer's end is dropped.
fn put_word(out: &mut [u8], at: usize, x: usize)
    ensures { out.new ≡ sets out.old at (two x) }
{
    if at < out.len() {
        out[at] = (x % 256) as u8;
        if at + 1 < out.len() {
            out[at + 1] = (x / 256 % 256) as u8;
        }
    }
}

// A lent buffer, and the place to write at, which goes on past the buffer's end. It stops at the last number of 64 bits, which no file reaches.
#[derive(Drop)]
struct Pen<'a> {
    out: &'a mut [u8],
    at: usize,
}

impl Pen<'_> {
    // A number.
    fn word(&mut self, x: usize)
        ensures { Writes self.old self.new (two x) }
    {
        put_word(self.out, self.at, x);
        self.at = self.at.saturating_add(2);
    }

    // Two numbers.
    fn pair(&mut self, first: usize, second: usize)
        ensures { Writes self.old self.new (two first ++ two second) }
    {
        self.word(first);
        self.word(second);
    }

    // The roles of a set, after their count.
    fn roles(&mut self, set: u64)
        ensures { Writes self.old self.new (role_list set) }
    {
        self.word(usize::from(roleset::count(set)));
        for r in roleset::members(set) {
            self.word(usize::from(r));
        }
    }

    // Two numbers and the roles of a set, as sets and sessions are written.
    fn entry(&mut self, first: usize, second: usize, roles: u64)
        ensures { Writes self.old self.new (two first ++ (two second ++ role_list roles)) }
    {
        self.pair(first, second);
        self.roles(roles);
    }
}

// A section of the file. Its entries are numbered in their order: `put` is what is written of the one with a number, and `numbers` are those that stand at k.
trait Section {
    ghost put: { Self → ℕ → List ℕ };

    ghost numbers: { Self → ℕ → List ℕ };

    // Writes the entries at k, and tells how many they are.
    fn put_at(&self, k: u16, pen: &mut Pen) -> usize
        ensures few { result ≤ 64 }
        ensures all { result ≡ length (numbers self.now k) }
        ensures written { Writes pen.old pen.new (flat (put self.now) (numbers self.now k)) };
}

// The whole section: the entries at each k below `most`, after their count, which is written last.
fn put_section<S: Section>(part: &S, most: u16, pen: &mut Pen)
    ensures { Writes pen.old pen.new (section (S.put part.now) (below (S.numbers part.now) most)) }
{
    let count_at = pen.at;
    pen.at = count_at.saturating_add(2);
    let mut n = 0;
    for k in 0..most {
        n += part.put_at(k, pen);
    }
    put_word(pen.out, count_at, n);
}

// The users that exist.
#[derive(Drop)]
struct Users<'a> {
    state: &'a [u64; PLACES],
}

impl<'a> Section for Users<'a> {
    ghost put = { λ _. two };

    ghost numbers = { λ s k. only_if ((view s.state.now).users k) k };

    fn put_at(&self, k: u16, pen: &mut Pen) -> usize {
        if reads::has_user(self.state, User { number: k }) {
            pen.word(usize::from(k));
            1
        } else {
            0
        }
    }
}

// The sets of one kind.
#[derive(Drop)]
struct Sets<'a> {
    state: &'a [u64; PLACES],
    kind: Kind,
}

impl<'a> Section for Sets<'a> {
    ghost put = { λ s. set_entry (sets_of s.kind (view s.state.now)) };

    ghost numbers = { λ s k. only_if (sets_of s.kind (view s.state.now) k).there k };

    fn put_at(&self, k: u16, pen: &mut Pen) -> usize {
        let set = reads::set_named(self.state, self.kind, SetName { number: k });
        if set.there {
            pen.entry(usize::from(k), set.card as usize, set.roles);
            1
        } else {
            0
        }
    }
}

// The sessions.
#[derive(Drop)]
struct Sessions<'a> {
    state: &'a [u64; PLACES],
}

impl<'a> Section for Sessions<'a> {
    ghost put = { λ s. session_entry (view s.state.now).sessions };

    ghost numbers = { λ s k. only_if ((view s.state.now).sessions k).live k };

    fn put_at(&self, k: u16, pen: &mut Pen) -> usize {
        let session = reads::session_at(self.state, Session { number: k });
        if session.live {
            pen.entry(usize::from(k), session.owner as usize, session.active);
            1
        } else {
            0
        }
    }
}

// What is written of a member of a set in a table, member r of set k being number 64 * k + r.
trait Entry {
    ghost bytes: { ℕ → List ℕ };

    fn put(&self, number: usize, pen: &mut Pen)
        ensures { Writes pen.old pen.new (bytes number) };
}

// A line, or an assignment: the place of the set, and the member.
#[derive(Drop)]
struct Pair;

impl Entry for Pair {
    ghost bytes = { pair_entry };

    fn put(&self, number: usize, pen: &mut Pen) {
        pen.pair(number / 64, number % 64);
    }
}

// A grant: the role, the operation and the object.
#[derive(Drop)]
struct Grant;

impl Entry for Grant {
    ghost bytes = { grant_entry };

    fn put(&self, number: usize, pen: &mut Pen) {
        pen.word(number / 4096);
        pen.pair(number % 4096 / 256, number % 256);
    }
}

// A table of sets: an entry for each member of each set.
#[derive(Drop)]
struct Table<'a, E> {
    sets: &'a [u64],
    entry: E,
}

impl<'a, E: Entry> Section for Table<'a, E> {
    ghost put = { λ _. E.bytes };

    ghost numbers = { λ t. row (table_of t.sets.now) };

    fn put_at(&self, k: u16, pen: &mut Pen) -> usize {
        let Some(set) = self.sets.get(usize::from(k)) else {
            return 0;
        };
        let mut n = 0;
        for r in roleset::members(*set) {
            self.entry.put(64 * usize::from(k) + usize::from(r), pen);
            n += 1;
        }
        n
    }
}

// Kept (2): like `mark` of hierarchy it goes over the members of a set, by the same iterator; the place and the bit that are marked, which is all the rest, are others.
// Adds the grant of the permission p to each role of the set: grant 4096 * r + p is bit p % 64 of row 64 * r + p / 64.
fn mark(rows: &mut [u64; 4096], set: u64, p: usize)
    requires { p < 4096 }
    ensures { (k : ℕ) → k < 262144 → pair_in (table_of rows.new) k ≡ (pair_in (table_of rows.old) k || granted set p k) }
{
    for r in roleset::members(set) {
        let row = 64 * usize::from(r) + p / 64;
        rows[row] = roleset::with(rows[row], (p % 64) as u16);
    }
}

// The grants, role by role: the table of holders is turned round first, from permission and role to role and permission.
fn put_grants(holders: &[u64], pen: &mut Pen)
    requires { length holders.now ≡ 4096 }
    ensures { Writes pen.old pen.new (grants_part (table_of holders.now)) }
{
    let mut rows = [0u64; 4096];
    for (p, set) in holders.iter().enumerate() {
        mark(&mut rows, *set, p);
    }
    put_section(
        &Table {
            sets: &rows,
            entry: Grant,
        },
        4096,
        pen,
    );
}

// The whole file, from the buffer's front on; its length.
pub fn write(state: &[u64; PLACES], out: &mut [u8]) -> usize
    ensures { Wrote out.old out.new 0 result (encode (view state.now)) }
{
    let mut pen = Pen { out, at: 0 };
    put_section(&Users { state }, 256, &mut pen);
    pen.roles(reads::roles(state));
    put_section(
        &Table {
            sets: parts::juniors(state),
            entry: Pair,
        },
        64,
        &mut pen,
    );
    put_section(
        &Table {
            sets: parts::assigned(state),
            entry: Pair,
        },
        256,
        &mut pen,
    );
    put_grants(parts::holders(state), &mut pen);
    put_section(
        &Sets {
            state,
            kind: Kind::Static,
        },
        16,
        &mut pen,
    );
    put_section(
        &Sets {
            state,
            kind: Kind::Dynamic,
        },
        16,
        &mut pen,
    );
    put_section(&Sessions { state }, 64, &mut pen);
    pen.at
}
