// A set of roles 0 to 63 in one `u64`: role r is a member where bit r is 1. A number beyond 63 is a member of no set, and adding or removing it changes nothing.
// Its members are bare numbers, and not `numbers::Role`: it is a set of bits, which the state uses for the users too (64 of them to a number) and the policy file for permissions. What kind of number a member is, the functions above say, by their structs and their promises.
#![tactic(auto)]

ghost use Rattle.std.specs.Prelude.{Bool, true, false, ◌&&◌, ◌||◌, not, ◌≡◌, ℕ, ◌<◌, ◌≤◌, ◌^◌, eqb, leb, ltb, MatchOption};
ghost use Rattle.std.specs.Iterator.{YieldsFirst, item_count};
ghost use Rattle.roleset.specs.Bounded.{members};
ghost use Rattle.roleset.specs.Roles.{has, with, without, union, common, minus, subset, is_empty, count};
ghost use Rattle.roleset.specs.Promises.{Made, Answers, Lowest};

// Is role r in s?
pub fn has(s: u64, r: u16) -> bool
    ensures { result ≡ has s r }
{
    if r < 64 { (s >> r) % 2 == 1 } else { false }
}

// s and the role r.
pub fn with(s: u64, r: u16) -> u64
    ensures { Made result (with s r) (λ k. has s k || (eqb k r && ltb k 64)) }
{
    if r < 64 { s | (1u64 << r) } else { s }
}

// s without the role r.
pub fn without(s: u64, r: u16) -> u64
    ensures { Made result (without s r) (λ k. has s k && not (eqb k r)) }
{
    if r < 64 { s ^ (s & (1u64 << r)) } else { s }
}

// The roles in a or in b.
pub fn union(a: u64, b: u64) -> u64
    ensures { Made result (union a b) (λ k. has a k || has b k) }
{
    a | b
}

// The roles in a and in b.
pub fn common(a: u64, b: u64) -> u64
    ensures { Made result (common a b) (λ k. has a k && has b k) }
{
    a & b
}

// The roles in a and not in b.
pub fn minus(a: u64, b: u64) -> u64
    ensures { Made result (minus a b) (λ k. has a k && not (has b k)) }
{
    a ^ (a & b)
}

// Is every role of a in b?
pub fn subset(a: u64, b: u64) -> bool
    ensures { Answers result (subset a b) ((k : ℕ) → has a k ≡ true → has b k ≡ true) }
{
    a & b == a
}

// Is no role in s?
pub fn is_empty(s: u64) -> bool
    ensures { Answers result (is_empty s) ((k : ℕ) → has s k ≡ false) }
{
    s == 0
}

// How many roles are in s: each role from 0 to 63 is looked at once, and one is added for each that is in s. Every count of a role set goes through this function, but for `check`, which counts as it looks.
pub fn count(s: u64) -> u16
    ensures { (result ≡ count s) × (result ≤ 64) }
{
    let mut n = 0;
    for r in 0..64 {
        if has(s, r) {
            n += 1;
        }
    }
    n
}

// The lowest role of s, if it has one.
pub fn lowest(s: u64) -> Option<u16>
    ensures { MatchOption result (is_empty s ≡ true) (λ r. (r < 64) × Lowest s r) }
{
    if s == 0 {
        return None;
    }
    Some(s.trailing_zeros() as u16)
}

// An iterator over the roles of a set in ascending order: those that are still to come. One less than a number has the number's lowest 1 as a 0, and the bits above it alike.
#[derive(Drop)]
pub struct Ascending {
    rest: u64,
    ghost fits: { rest < 2 ^ 64 },
}

impl Iterator for Ascending {
    type Item = u16;

    ghost next_gives = { YieldsFirst (λ m. members 64 (has m.rest)) };

    ghost remaining = { item_count (λ m. members 64 (has m.rest)) };

    fn next(&mut self) -> Option<u16> {
        let r = lowest(self.rest)?;
        self.rest &= self.rest - 1;
        Some(r)
    }
}

// The roles of s in ascending order. Each turn takes the lowest that is left away.
pub fn members(s: u64) -> Ascending
    ensures { result.rest ≡ s }
{
    Ascending { rest: s }
}

// How many roles are in s, for tables where most sets hold none or one: those are not counted.
pub fn size(s: u64) -> u64
    ensures { (result ≡ count s) × (result ≤ 64) }
{
    match lowest(s) {
        None => 0,
        Some(r) if without(s, r) == 0 => 1,
        Some(_) => u64::from(count(s)),
    }
}

// Has s one role at most?
fn few(s: u64) -> bool
    ensures { result ≡ true → count s ≤ 1 }
{
    match lowest(s) {
        None => true,
        Some(r) => without(s, r) == 0,
    }
}

// Are n roles or more in s? A rule asks for two or three, and most often there is one at most, which is seen at once. Else the lowest are passed over until n have come, or none is left: how many there are is not counted.
pub fn at_least(s: u64, n: u64) -> bool
    ensures { result ≡ leb n (count s) }
{
    if 1 < n && few(s) {
        return false;
    }
    n == 0 || members(s).nth(n as usize - 1).is_some()
}
