// Reads a policy file from standard input, loads it into the empty state, and prints the answer's number and, after a 0, the file as it is saved
// again. Where it cannot read all of it or print all of it, it says so on standard error.
// Kept (6): no heap: what is read and written stands in arrays of fixed size, of which the front that is used is lent as a slice.
#![tactic(auto)]

ghost use Rattle.std.specs.Prelude.{IfOk, OnOk, OnErr};
ghost use Rattle.numbers.specs.Answers.{number_of};
ghost use Rattle.text.specs.Putting.{Put};
ghost use Rattle.reload.specs.Reloading.{answer_line, NextFor, AllFor, PrintsFor, FrontFor};

use numbers::Answer;
use policyfile::LONGEST_FILE;
use state::PLACES;
use std::io;
use std::io::Write;
use std::process::ExitCode;
use streams::{Piece, Text};

// Puts the answer's number and LF.
fn put_answer(line: &mut [u8], answer: Answer) -> usize
    ensures { Put line.old 0 (answer_line (number_of answer)) line.new result }
{
    let last = decimal::put_number(line, 0, numbers::number_of(answer));
    text::put(line, last, 10)
}

// What is printed for a file.
#[derive(Drop)]
struct Reloaded<'a>(&'a [u8]);

impl Text for Reloaded<'_> {
    ghost IsNext = { λ r count bytes. NextFor r.0.now count bytes };
}

// Loads the file, and saves it again where it was loaded. The longest file has 36,048 bytes. Says how many bytes were printed. Where a write fails,
// only a front of what is to be printed is printed.
fn print_all<W: Write>(out: &mut W, file: &[u8]) -> io::Result<usize>
    ensures all { IfOk result (λ count. AllFor file.now count) }
    ensures prints { OnOk result (PrintsFor file.now (W.contents out.old) (W.contents out.new)) }
    ensures front { OnErr result (FrontFor file.now (W.contents out.old) (W.contents out.new)) }
{
    let mut state = [0u64; PLACES];
    state::stores::start(&mut state);
    let answer = policyfile::load(&mut state, file);
    let mut line = [0u8; 8];
    let len = put_answer(&mut line, answer);
    let first = Piece {
        of: Reloaded(file),
        from: 0,
        bytes: &line[..len],
    };
    let count = streams::write_next(out, first)?;
    if answer.is_err() {
        return Ok(count);
    }
    let mut saved_file = [0u8; LONGEST_FILE];
    let size = policyfile::save(&state, &mut saved_file).unwrap();
    let second = Piece {
        of: Reloaded(file),
        from: count,
        bytes: &saved_file[..size],
    };
    streams::write_next(out, second)
}

// One byte more than the longest file is asked for, to tell a longer one, which is not of the form.
fn main(rt: HostRuntime) -> ExitCode {
    let mut bytes = [0u8; LONGEST_FILE + 1];
    let Ok(len) = streams::read_whole(&mut rt.stdin(), &mut bytes) else {
        return streams::say(
            &rt,
            "reload: nothing is loaded: the file could not be read whole",
        );
    };
    match print_all(&mut rt.stdout(), &bytes[..len]) {
        Ok(_) => ExitCode::SUCCESS,
        Err(_) => streams::say(&rt, "reload: not all was printed: a write failed"),
    }
}
