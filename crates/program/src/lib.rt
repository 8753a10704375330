// The program over a script, call by call: what each call hands to the output, from the first one to the total.
#![tactic(auto)]

ghost use Rattle.std.specs.Prelude.{◌≡◌};
ghost use Rattle.program.specs.Printing.{at_start, Begins, Refuses, Prints};

use numbers::Refusal;
use script::Progress;
use state::PLACES;
use textlines::Tally;

// The longest script, in bytes.
pub const LONGEST: usize = 32768;

// How far the program has run: the lines that were answered, and whether the total was handed out, after which nothing is.
// Kept (1): `stage_of` and `Prints` of program/specs/Printing read the lines answered both before the total and after it, so an enum would hold the same `Progress` in each variant.
#[derive(Clone, Copy)]
pub struct Run {
    pub progress: Progress,
    pub over: bool,
}

// Kept (2): `Turns` of script/specs/LineAnswers names the field `next` of `Turned`, and `Puts` of program/specs/Printing the field `run` of this.
// What a call hands out stands at the front of the buffer and ends at `len`; how far the program has run then.
// Kept (6): the promise of `next` in unique/specs/Buffers names the length in the lent buffer.
#[derive(Clone, Copy)]
pub struct Printed {
    pub len: usize,
    pub run: Run,
}

// No line is answered yet, whatever the policy that the script is run on.
pub fn at_first() -> Run
    ensures { result ≡ at_start }
{
    Run {
        progress: Progress {
            at: 0,
            tally: Tally { done: 0, others: 0 },
        },
        over: false,
    }
}

// Starts empty: no policy, no session, no line answered.
pub fn begin(state: &mut [u64; PLACES]) -> Run
    ensures { Begins state.new result }
{
    state::stores::start(state);
    at_first()
}

// A script over the longest is answered 14 as a whole, as if it were one line.
fn refuse(script: &[u8], p: Progress, buf: &mut [u8]) -> Printed
    ensures { Refuses script.now p buf.old buf.new result }
{
    let answer = numbers::number_of(Err(Refusal::NotOfForm));
    let mut tally = p.tally;
    tally.bump(false);
    let progress = Progress {
        at: script.len(),
        tally,
    };
    Printed {
        len: script::answer_text(buf, answer, &[]),
        run: Run {
            progress,
            over: false,
        },
    }
}

// Hands out what is printed next: a line's answer, the answer to a script that is too long, or the total; after the total nothing.
pub fn next(script: &[u8], state: &mut [u64; PLACES], run: Run, buf: &mut [u8]) -> Printed
    ensures { Prints script.now state.old run buf.old buf.new result state.new }
{
    let p = run.progress;
    if run.over {
        return Printed { len: 0, run };
    }
    if script.len() <= p.at {
        let len = script::total_text(buf, p.tally);
        return Printed {
            len,
            run: Run { over: true, ..run },
        };
    }
    if LONGEST < script.len() {
        return refuse(script, p, buf);
    }
    let t = script::turn(script, state, p, buf);
    Printed {
        len: t.len,
        run: Run {
            progress: t.next,
            ..run
        },
    }
}
