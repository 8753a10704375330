// The bench: reads a script from standard input and prints what the script prints. Where it cannot read all of it or print all of it, it says so on
// standard error. What is handed to the output is proved; that the system reads and writes what it is asked to is assumed.
// Kept (6): no heap: what is read and written stands in arrays of fixed size, of which the front that is used is lent as a slice.
#![tactic(auto)]

ghost use Rattle.std.specs.Prelude.{◌≡◌, ◌≤◌, length, IfOk, OnOk, OnErr};
ghost use Rattle.std.specs.Io.KnownBytes.{Appends};
ghost use Rattle.streams.specs.Writing.{Next, WritesFront};
ghost use Rattle.script.specs.Script.{run_script};

use program::LONGEST;
use state::PLACES;
use std::io;
use std::io::Write;
use std::process::ExitCode;
use streams::{Piece, Text};

// What the script prints, from the empty policy.
#[derive(Drop)]
struct Script<'a>(&'a [u8]);

impl Text for Script<'_> {
    ghost IsNext = { λ s count bytes. Next (run_script s.0.now) count bytes };
}

// Prints what the script prints, from its first byte to its last one, and says how many bytes that were. Where a write fails, only a front of it is
// printed.
fn print_all<W: Write>(out: &mut W, script: &[u8]) -> io::Result<usize>
    requires { length script.now ≤ 32769 }
    ensures all { IfOk result (λ count. count ≡ length (run_script script.now)) }
    ensures prints { OnOk result (Appends (W.contents out.old) (W.contents out.new) (run_script script.now)) }
    ensures front { OnErr result (WritesFront (run_script script.now) (W.contents out.old) (W.contents out.new)) }
{
    let mut state = [0u64; PLACES];
    let mut buf = [0u8; 32768];
    let mut run = program::begin(&mut state);
    let mut count: usize = 0;
    while !run.over {
        let piece = program::next(script, &mut state, run, &mut buf);
        let len = piece.len;
        let next = Piece {
            of: Script(script),
            from: count,
            bytes: &buf[..len],
        };
        count = streams::write_next(out, next)?;
        run = piece.run;
    }
    Ok(count)
}

// One byte more than the longest script is asked for, to tell a longer one.
fn main(rt: HostRuntime) -> ExitCode {
    let mut bytes = [0u8; LONGEST + 1];
    let Ok(len) = streams::read_whole(&mut rt.stdin(), &mut bytes) else {
        return streams::say(
            &rt,
            "bench: nothing is answered: the script could not be read whole",
        );
    };
    match print_all(&mut rt.stdout(), &bytes[..len]) {
        Ok(_) => ExitCode::SUCCESS,
        Err(_) => streams::say(&rt, "bench: not all was printed: a write failed"),
    }
}
