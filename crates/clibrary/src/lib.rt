// What a C program calls: crates/clibrary_c exports these functions, and include/marruskil.h declares them for C. The caller owns the state and every buffer, and no pointer is kept after a call.
#![tactic(auto)]

ghost use Rattle.std.specs.Prelude.{◌≡◌, min};
ghost use Rattle.std.specs.Option.{unwrap_or};
ghost use Rattle.model.specs.Model.{empty};
ghost use Rattle.model.specs.commands.Sessions.{check};
ghost use Rattle.policyform.specs.Promises.{Loads};
ghost use Rattle.script.specs.Script.{obey};
ghost use Rattle.state.specs.View.{view};
ghost use Rattle.clibrary.specs.Calls.{Tries, Obeys, ChecksAt, SavesAt, loaded};

use numbers::Session;
use state::PLACES;

// No answer line is longer than this, whatever the state holds.
pub const LONGEST_ANSWER: usize = 24582;

// No command's answer line is longer than this.
pub const LONGEST_COMMAND: usize = 12;

// The numbers become the empty policy with no session, whatever they were.
pub fn marruskil_start(state: &mut [u64; PLACES])
    ensures { view state.new ≡ empty }
{
    state::stores::start(state);
}

// Kept (6): no heap: an answer line is made in an array that is long enough for any.
// Obeys a line whatever the buffer, and puts its answer line where it fits. Gives the length of that, if it was put.
fn obey_aside(state: &mut [u64; PLACES], line: &[u8], out: &mut [u8]) -> Option<usize>
    ensures { Tries (obey (view state.old) line.now) out.old out.new result state.new }
{
    let mut answer = [0u8; LONGEST_ANSWER];
    let len = script::answer_line(state, line, &mut answer).len;
    if out.len() < len {
        return None;
    }
    out[..len].copy_from_slice(&answer[..len]);
    Some(len)
}

// A line in a buffer that may be too short even for a command's answer line: it is obeyed on a copy, which is stored where the answer line fits.
fn obey_on_copy(state: &mut [u64; PLACES], line: &[u8], out: &mut [u8]) -> Option<usize>
    ensures { Obeys (view state.old) (obey (view state.old) line.now) out.old out.new (unwrap_or result 0) state.new }
{
    let mut copy = *state;
    let len = obey_aside(&mut copy, line, out)?;
    *state = copy;
    Some(len)
}

// Obeys one line of a script, any bytes, and puts its answer line, LF included. Gives the length of that; where the buffer is shorter it gives 0, and nothing is obeyed or put: a line whose answer line is longer than every command's is a question, which changes nothing.
// Kept (1): the C interface has no option; 0 is the length of no answer line.
pub fn marruskil_obey(state: &mut [u64; PLACES], line: &[u8], out: &mut [u8]) -> usize
    ensures { Obeys (view state.old) (obey (view state.old) line.now) out.old out.new result state.new }
{
    if out.len() < LONGEST_COMMAND {
        return obey_on_copy(state, line, out).unwrap_or(0);
    }
    if out.len() < LONGEST_ANSWER {
        return obey_aside(state, line, out).unwrap_or(0);
    }
    script::answer_line(state, line, out).len
}

// The number, or the largest of sixteen bits where it has more: that one is beyond every range too.
fn sixteen(n: u64) -> u16
    ensures { result ≡ min n 65535 }
{
    u16::try_from(n).unwrap_or(u16::MAX)
}

// May the session do the operation on the object? Gives the answer's number; the results, 1 for yes and 0 for no, and how many effective roles were looked at, are stored where the caller says, and a refusal stores nothing.
// Kept (1): the C interface has no result of two kinds; a refusal goes by its number.
pub fn marruskil_check(
    state: &[u64; PLACES],
    session: u64,
    operation: u64,
    object: u64,
    res: &mut u8,
    looked: &mut u16,
) -> u16
    ensures { ChecksAt (check (view state.now) session operation object) res.old res.new looked.old looked.new result }
{
    let x = Session {
        number: sixteen(session),
    };
    match checking::check(state, x, sixteen(operation), sixteen(object)) {
        Ok(found) => {
            *res = u8::from(found.yes);
            *looked = found.looked;
            0
        }
        Err(refusal) => numbers::number_of(Err(refusal)),
    }
}

// Loads a policy file, any bytes. Gives the answer's number.
// Kept (1): the C interface, as of `marruskil_check`.
pub fn marruskil_load(state: &mut [u64; PLACES], file: &[u8]) -> u16
    ensures { Loads (view state.old) file.now (loaded result state.new) }
{
    numbers::number_of(policyfile::load(state, file))
}

// Saves the policy and sessions as a file. Gives the answer's number; the file's length is stored where the caller says, and a refusal stores nothing.
// Kept (1): the C interface, as of `marruskil_check`.
pub fn marruskil_save(state: &[u64; PLACES], out: &mut [u8], length: &mut usize) -> u16
    ensures { SavesAt (view state.now) out.old out.new length.old length.new result }
{
    match policyfile::save(state, out) {
        Ok(long) => {
            *length = long;
            0
        }
        Err(refusal) => numbers::number_of(Err(refusal)),
    }
}
