// The desk: loads the policy file that its first argument names, runs the script from standard input on it, and prints the answer lines. Where a
// second argument is given, saves under that name what it ends with. What it prints and saves is proved; that the system reads and writes what it is
// asked to is assumed.
// Kept (6): fixed memory: what is read and written stands in arrays of fixed size, of which the front that is used is lent as a slice.
#![tactic(auto)]

mod fault;
mod saving;

ghost use Rattle.std.specs.Prelude.{◌≡◌, ◌≤◌, length, IfOk, OnOk, OnErr};
ghost use Rattle.model.specs.Model.{empty};
ghost use Rattle.model.specs.Sheet.{refused};
ghost use Rattle.numbers.specs.Answers.{refusal_number};
ghost use Rattle.state.specs.View.{view};
ghost use Rattle.policyform.specs.Promises.{Loads};
ghost use Rattle.streams.specs.Counts.{IsPrefixLen};
ghost use Rattle.desk.specs.Desk.{Gives, Next, Prints, PrintsTo, PrintsFront, Leaves, Refused};

use fault::Fault;
use numbers::Refusal;
use policyfile::LONGEST_FILE;
use program::LONGEST;
use state::PLACES;
use std::env::{Env, FillError};
use std::io::Write;
use std::process::ExitCode;
use std::random::RandomSource;
use std::rt::Files;
use std::{fs, io, str};
use streams::{Piece, Text};

// No name of a file is longer than this, in bytes.
const LONGEST_NAME: usize = 4096;

// What the two names are called.
const OLD: &str = "the policy file's name";

const NEW: &str = "the name to save under";

// A policy file, and the script that is run on the policy that it gives.
#[derive(Clone, Copy)]
struct Job<'a> {
    file: &'a [u8],
    script: &'a [u8],
}

impl Text for Job<'_> {
    ghost IsNext = { λ j count bytes. Next j.file.now j.script.now count bytes };
}

// A policy file that does not load, of which the answer's number is printed.
#[derive(Drop)]
struct BadFile<'a>(&'a [u8]);

impl Text for BadFile<'_> {
    ghost IsNext = { λ b count bytes. Refused b.0.now bytes };
}

// Runs the script on the state, which holds the policy of the file, and prints what the script prints, from its first byte to its last one. Says how
// many bytes that were. Where a write fails, only a front of it is printed.
// Kept (2): bench prints so from the empty policy; a public function for both would have to suppose what the state holds, and none supposes anything.
// Not inlined: its buffer would else stand on the stack beside those of the save that follows.
#[inline(never)]
fn print_all<W: Write>(out: &mut W, job: Job, state: &mut [u64; PLACES]) -> io::Result<usize>
    requires gives { Gives job.file.now (view state.old) }
    requires script_len_bound { length job.script.now ≤ 32769 }
    ensures prints { IfOk result (λ count. Prints job.entry.file.now job.entry.script.now count) }
    ensures writes { OnOk result (PrintsTo job.entry.file.now job.entry.script.now (W.contents out.old) (W.contents out.new)) }
    ensures front { OnErr result (PrintsFront job.entry.file.now job.entry.script.now (W.contents out.old) (W.contents out.new)) }
    ensures leaves { OnOk result (Leaves job.entry.file.now job.entry.script.now (view state.new)) }
{
    let mut buf = [0u8; 32768];
    let mut run = program::at_first();
    let mut count: usize = 0;
    while !run.over {
        let piece = program::next(job.script, state, run, &mut buf);
        let len = piece.len;
        let next = Piece {
            of: job,
            from: count,
            bytes: &buf[..len],
        };
        count = streams::write_next(out, next)?;
        run = piece.run;
    }
    Ok(count)
}

// Prints the refusal's number, and runs nothing.
fn refuse<W: Write>(out: &mut W, file: &[u8], refusal: Refusal) -> io::Result<usize>
    requires { Loads empty file.now (refused (refusal_number refusal) empty) }
{
    let mut line = [0u8; 8];
    let len = script::answer_text(&mut line, numbers::number_of(Err(refusal)), &[]);
    let number = Piece {
        of: BadFile(file),
        from: 0,
        bytes: &line[..len],
    };
    streams::write_next(out, number)
}

// Runs the script on the policy that the file gives, and saves what it ends with where a name is given for that.
fn run_script<'a, R: Input + Print + Alloc + Files + RandomSource>(
    rt: &R,
    file: &[u8],
    state: &mut [u64; PLACES],
    name: Option<&'a str>,
) -> Result<(), Fault<'a>>
    requires { Gives file.now (view state.old) }
{
    // One byte more than the longest script is asked for, to tell a longer one.
    let mut bytes = [0u8; LONGEST + 1];
    let len = streams::read_whole(&mut rt.reader(), &mut bytes).map_err(|_| Fault::Unread)?;
    let script = &bytes[..len];
    let job = Job { file, script };
    print_all(&mut io::writer(rt), job, state).map_err(|_| Fault::Unprinted)?;
    match name {
        Some(name) => saving::save_state(rt, job, state, name),
        None => Ok(()),
    }
}

// Loads the file, and runs the script where it was loaded.
fn work<'a, R: Input + Print + Alloc + Files + RandomSource>(
    rt: &R,
    file: &[u8],
    name: Option<&'a str>,
) -> Result<(), Fault<'a>> {
    let mut state = [0u64; PLACES];
    state::stores::start(&mut state);
    match policyfile::load(&mut state, file) {
        Ok(()) => run_script(rt, file, &mut state, name),
        Err(refusal) => {
            let _ = refuse(&mut io::writer(rt), file, refusal);
            Err(Fault::Unloaded)
        }
    }
}

// Reads the policy file of that name. No name, or `-`, stands for no policy yet: the empty policy's file, which is sixteen zero bytes.
fn read_policy(rt: &impl Files, path: &str, file: &mut [u8]) -> io::Result<usize>
    ensures count { IfOk result (λ n. IsPrefixLen n file.new) }
    ensures length { length file.new ≡ length file.old }
{
    if matches!(path, "" | "-") {
        return Ok(file.len().min(16));
    }
    let mut opened = fs::open(rt, path)?;
    streams::read_whole(&mut opened, file)
}

// The argument of that number, which is put at the front of the buffer, where there is one.
fn argument<'a>(
    rt: &impl Env,
    number: usize,
    which: &'static str,
    buf: &'a mut [u8],
) -> Result<Option<&'a [u8]>, Fault<'a>> {
    match rt.arg(number, buf) {
        Ok(len) => Ok(Some(&buf[..len])),
        Err(FillError::NotPresent) => Ok(None),
        Err(FillError::TooLong) => Err(Fault::Name(which, "File name too long")),
    }
}

// A name is text.
fn named<'a>(which: &'static str, bytes: &'a [u8]) -> Result<&'a str, Fault<'a>> {
    str::from_utf8(bytes).map_err(|_| Fault::Name(which, "it is no text"))
}

// Loads the file of the first name, runs the script on it, and saves what is left under the second name, where there is one.
fn start<'a, R: Env + Input + Print + Alloc + Files + RandomSource>(
    rt: &R,
    path: &'a mut [u8],
    name: &'a mut [u8],
) -> Result<(), Fault<'a>> {
    let path = argument(rt, 1, OLD, path)?.ok_or(Fault::Usage)?;
    let name = argument(rt, 2, NEW, name)?;
    if !matches!(rt.arg(3, &mut []), Err(FillError::NotPresent)) {
        return Err(Fault::Usage);
    }
    let path = named(OLD, path)?;
    let name = name.map(|bytes| named(NEW, bytes)).transpose()?;
    // One byte more than the longest file is asked for, to tell a longer one, which is not of the form.
    let mut file = [0u8; LONGEST_FILE + 1];
    let len = read_policy(rt, path, &mut file).map_err(|e| Fault::File(path, e))?;
    work(rt, &file[..len], name)
}

fn main(rt: HostRuntime) -> ExitCode {
    let mut path = [0u8; LONGEST_NAME];
    let mut name = [0u8; LONGEST_NAME];
    match start(&rt, &mut path, &mut name) {
        Ok(()) => ExitCode::SUCCESS,
        Err(fault) => streams::say(&rt, fault),
    }
}
