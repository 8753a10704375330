// What roles inherit through direct lines, wherever the lines stand.
#![tactic(auto)]

ghost use Rattle.std.specs.Prelude.{◌≡◌, ℕ, ◌<◌};
ghost use Rattle.roleset.specs.Roles.{union};
ghost use Rattle.hierarchy.specs.Lines.{table_of};
ghost use Rattle.hierarchy.specs.Walks.{juniors_of, walk, longer_chain, turned, Reaches, ReachesUp, TellsCircle};
ghost use Rattle.hierarchy.specs.Marks.{Marked};

use numbers::Role;

// What holds direct lines: it tells for each role the set of the roles directly below it. The walk is one, over a table that may be a changed one and over the lent state itself.
pub trait Lines {
    ghost table: { Self → ℕ → ℕ };

    // The roles directly below the role.
    fn below(&self, s: Role) -> u64
        ensures { result ≡ table self.now s.number };
}

// A table of junior sets: bit j of place s is the line (s, j).
impl Lines for [u64; 64] {
    ghost table = { table_of };

    fn below(&self, s: Role) -> u64 {
        self.get(usize::from(s.number)).copied().unwrap_or(0)
    }
}

// The roles directly below some role of the front.
fn juniors_of<L: Lines>(lines: &L, front: u64) -> u64
    ensures { result ≡ juniors_of (L.table lines.now) front }
{
    let mut met = 0;
    for s in roleset::members(front) {
        met = roleset::union(met, lines.below(Role { number: s }));
    }
    met
}

// The roles met so far, those of the front and all that these inherit, in chains of at most `allowed` roles. The call is the last step, so that the walk needs no stack.
fn walk_from<L: Lines>(lines: &L, front: u64, allowed: u16, met: u64) -> u64
    ensures { result ≡ union met (walk (L.table lines.now) allowed front) }
{
    if front == 0 || allowed == 0 {
        return met;
    }
    let next = juniors_of(lines, front);
    let more = roleset::union(met, front);
    walk_from(lines, next, allowed - 1, more)
}

// The roles of a set and all that they inherit, with a circle among the lines or without.
pub fn reach<L: Lines>(lines: &L, from: u64) -> u64
    ensures { Reaches (L.table lines.now) from result }
{
    walk_from(lines, from, 64, 0)
}

// Does a chain of more than `allowed` roles start in the front?
fn longer_chain(juniors: &[u64; 64], front: u64, allowed: u16) -> bool
    ensures { result ≡ longer_chain (table_of juniors.now) allowed front }
{
    if front == 0 || allowed == 0 {
        return front != 0;
    }
    let next = juniors_of(juniors, front);
    longer_chain(juniors, next, allowed - 1)
}

// Does some role inherit itself? One walk from all 64 roles tells, since only a circle has a chain of more than 64.
pub fn circular(juniors: &[u64; 64]) -> bool
    ensures { TellsCircle (table_of juniors.now) result }
{
    longer_chain(juniors, u64::MAX, 64)
}

// Adds the role s to t at each place that the set `places` names.
fn mark(t: &mut [u64; 64], places: u64, s: u16)
    ensures { Marked t.old t.new places s }
{
    for j in roleset::members(places) {
        let at = j as usize;
        t[at] = roleset::with(t[at], s);
    }
}

// The lines turned round, senior and junior exchanged: each senior is marked at its juniors.
pub fn turned(juniors: &[u64; 64]) -> [u64; 64]
    ensures { (k : ℕ) → k < 64 → table_of result k ≡ turned (table_of juniors.now) k }
{
    let mut t = [0; 64];
    for (s, below) in juniors.iter().enumerate() {
        mark(&mut t, *below, s as u16);
    }
    t
}

// The role r and all that inherit it, with a circle among the lines or without; no role where r is beyond 63.
pub fn at_or_above(juniors: &[u64; 64], r: Role) -> u64
    ensures { ReachesUp (table_of juniors.now) r.number result }
{
    reach(&turned(juniors), roleset::with(0, r.number))
}
