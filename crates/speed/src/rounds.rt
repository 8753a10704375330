// Moves and checks, round by round; each gives a checksum of the answers.
use crate::moves::moved;
use checking::Checked;
use numbers::{Answer, Session};
use state::PLACES;

// What a round does: one move or two, by number, and the depth of the policy that they are made in.
#[derive(Clone, Copy)]
pub(crate) struct Round {
    pub(crate) first: u64,
    pub(crate) second: Option<u64>,
    pub(crate) depth: u16,
}

// The checksum with one answer more, and its result.
pub(crate) fn mix(sum: u64, a: Answer, res: u64) -> u64 {
    sum.rotate_left(1)
        .wrapping_add(u64::from(numbers::number_of(a)))
        .wrapping_add(res)
}

// Both results of `check` as one number.
fn told(c: Checked) -> u64 {
    u64::from(c.yes) << 16 | u64::from(c.looked)
}

// Operation and object of round i: in the school some half of the objects are the session's own.
fn operation_of(i: u64) -> u16 {
    (i / 8 % 4) as u16
}

fn object_of(i: u64) -> u16 {
    (i % 8 * 32 + i / 32 % 32) as u16
}

// Kept (2): what the rounds of checks, loads and saves share is a `for` and a sum; over a fold each would need a function of a round beside it, as `turn` is of the moves.
// `check`.
pub(crate) fn check(state: &[u64; PLACES], rounds: u64) -> u64 {
    let mut sum: u64 = 1;
    for i in 0..rounds {
        let x = Session {
            number: (i % 8 * 2) as u16,
        };
        sum = match checking::check(state, x, operation_of(i), object_of(i)) {
            Ok(checked) => mix(sum, Ok(()), told(checked)),
            Err(refusal) => mix(sum, Err(refusal), 0),
        };
    }
    sum
}

// Round i.
fn turn(state: &mut [u64; PLACES], round: Round, i: u64, sum: u64) -> u64 {
    let one = moved(state, round.first, round.depth, i);
    let half = mix(sum, one, 0);
    let Some(second) = round.second else {
        return half;
    };
    let two = moved(state, second, round.depth, i);
    mix(half, two, 0)
}

// The moves.
pub(crate) fn moves(state: &mut [u64; PLACES], round: Round, rounds: u64) -> u64 {
    (0..rounds).fold(1, |sum, i| turn(state, round, i, sum))
}
