// How fast the engine is: reads a request, builds a policy by the engine's own commands, makes one or two moves again and again, and writes a checksum of their answers. `speed/run` times it beside the same work in C.
// Kept (6): no heap: the request is read into an array of fixed size.
#![tactic(auto)]

ghost use Rattle.std.specs.Prelude.{◌<◌};

use rounds::Round;
use state::PLACES;
use std::io;
use std::process::ExitCode;
use std::slice::Iter;

mod files;
mod moves;
mod rounds;
mod school;

// Kept (4): no `parse`: any request is taken, and of a longer number the last twelve digits count.
// The next number of a request: its digits up to a byte that is none. The last twelve digits count.
fn number(request: &mut Iter<u8>) -> u64
    ensures { result < 1000000000000 }
{
    let mut value: u64 = 0;
    for byte in request {
        if !byte.is_ascii_digit() {
            break;
        }
        value = (value * 10 + u64::from(byte - b'0')) % 1_000_000_000_000;
    }
    value
}

// So many rounds. Three moves have rounds of their own: `check`, a load and a save.
// Compiled apart from `main`, so that what a round takes does not hang on what is read there.
#[inline(never)]
fn run(state: &mut [u64; PLACES], round: Round, rounds: u64) -> u64 {
    match round.first {
        90 => rounds::check(state, rounds),
        91 => files::load_own(state, rounds),
        92 => files::save(state, rounds),
        _ => rounds::moves(state, round, rounds),
    }
}

// Writes the checksum.
fn print(rt: &impl Print, sum: u64) -> io::Result<()> {
    println!(rt; "{sum}")
}

// The request: FIRST SECOND DEPTH USERS ROUNDS. A SECOND of 99 is none.
fn main(rt: HostRuntime) -> ExitCode {
    let mut text = [0u8; 64];
    let Ok(n) = streams::read_whole(&mut rt.stdin(), &mut text) else {
        return streams::say(&rt, "speed: the request could not be read");
    };
    let mut request = text[..n].iter();
    let first = number(&mut request);
    let second = Some(number(&mut request)).filter(|m| *m != 99);
    let depth = (number(&mut request) % 64) as u16;
    let users = (number(&mut request) % 257) as u16;
    let rounds = number(&mut request);
    let round = Round {
        first,
        second,
        depth,
    };
    let mut state = [0u64; PLACES];
    school::build(&mut state, depth, users);
    let sum = run(&mut state, round, rounds);
    match print(&rt, sum) {
        Ok(()) => ExitCode::SUCCESS,
        Err(_) => streams::say(&rt, "speed: the checksum could not be written"),
    }
}
