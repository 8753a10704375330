// Loads and saves, round by round; each gives a checksum of the answers.
// Kept (6): no heap: a file stands in an array of fixed size, of which the front that is used is lent as a slice.
use crate::rounds::mix;
use numbers::User;
use state::PLACES;

// The file is loaded, round by round.
fn load(state: &mut [u64; PLACES], file: &[u8], rounds: u64) -> u64 {
    let mut sum: u64 = 1;
    for i in 0..rounds {
        let answer = policyfile::load(state, file);
        let u = User {
            number: (i % 256) as u16,
        };
        sum = mix(sum, answer, state::reads::assigned_to(state, u));
    }
    sum
}

// The policy's own file is loaded.
pub(crate) fn load_own(state: &mut [u64; PLACES], rounds: u64) -> u64 {
    let mut file = [0u8; 65536];
    let length = policyfile::save(state, &mut file).unwrap_or(0);
    match file.get(..length) {
        Some(own) => load(state, own, rounds),
        None => 0,
    }
}

// The policy is saved, round by round.
pub(crate) fn save(state: &[u64; PLACES], rounds: u64) -> u64 {
    let mut file = [0u8; 65536];
    let mut sum: u64 = 1;
    for i in 0..rounds {
        let saved = policyfile::save(state, &mut file);
        let at = (i % 4096) as usize;
        let answer = saved.map(|_| ());
        let half = mix(sum, answer, saved.unwrap_or(0) as u64);
        sum = mix(half, answer, u64::from(file[at]));
    }
    sum
}
