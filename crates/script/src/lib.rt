// A script: each line is read, obeyed and answered.
#![tactic(auto)]

ghost use Rattle.std.specs.Prelude.{◌≡◌, eqb, get_or};
ghost use Rattle.text.specs.Putting.{Put};
ghost use Rattle.numbers.specs.Answers.{number_of};
ghost use Rattle.model.specs.Questions.{ask};
ghost use Rattle.model.specs.Step.{step};
ghost use Rattle.state.specs.View.{view};
ghost use Rattle.script.specs.LineAnswers.{Puts, Answers, Turns};
ghost use Rattle.script.specs.Script.{answer_text, total_text, obey};

use meaning::Meant;
use model::{Command, Question};
use numbers::{Answer, Refusal};
use state::PLACES;
use textlines::{Reader, Tally};

// The text of an answer stands at the front of the buffer and ends at `len`; whether the answer was 0.
// Kept (1, 6): `len` holds whether `ok` or not, so `ok` is no flag of it; and the promise of `answer_line` in unique/specs/Buffers names the length in the lent buffer.
#[derive(Clone, Copy)]
pub struct Answered {
    pub len: usize,
    pub ok: bool,
}

// Puts an answer: its number, each result after one space, and LF.
// Kept (1): the promise holds of any number, and one that takes an `Answer` would ask more of the caller.
pub fn answer_text(buf: &mut [u8], answer: u16, results: &[u16]) -> usize
    ensures { Put buf.old 0 (answer_text answer results.now) buf.new result }
{
    let first = decimal::put_number(buf, 0, answer);
    let last = decimal::put_numbers(buf, first, results);
    text::put(buf, last, 10)
}

// Puts the total: the number of lines answered 0, and of the others.
pub fn total_text(buf: &mut [u8], t: Tally) -> usize
    ensures { Put buf.old 0 (total_text t.done t.others) buf.new result }
{
    let first = text::put_text(buf, 0, b"total");
    let last = decimal::put_numbers(buf, first, &[t.done, t.others]);
    text::put(buf, last, 10)
}

// Puts an answer with its results.
fn put_answer(buf: &mut [u8], answer: Answer, results: &[u16]) -> Answered
    ensures text { Put buf.old 0 (answer_text (number_of answer) results.now) buf.new result.len }
    ensures ok { result.ok ≡ eqb (number_of answer) 0 }
{
    Answered {
        len: answer_text(buf, numbers::number_of(answer), results),
        ok: answer.is_ok(),
    }
}

// Obeys a command, and puts its answer.
fn obey_command(state: &mut [u64; PLACES], c: Command, list: &[u16], buf: &mut [u8]) -> Answered
    ensures { Answers (step (view state.old) c list.now) buf.old buf.new result state.new }
{
    match engine::step(state, c, list) {
        Ok(Some(opened)) => put_answer(buf, Ok(()), &[opened.number]),
        Ok(None) => put_answer(buf, Ok(()), &[]),
        Err(refusal) => put_answer(buf, Err(refusal), &[]),
    }
}

// Kept (6): no heap: the results are listed in an array that is long enough for any.
// Asks a question, and puts its answer.
fn ask_question(state: &[u64; PLACES], q: Question, buf: &mut [u8]) -> Answered
    ensures { Puts (ask (view state.now) 4096 q) buf.old buf.new result }
{
    let mut results = [0u16; 4096];
    match engine::ask(state, q, &mut results) {
        Ok(count) => put_answer(buf, Ok(()), &results[..count]),
        Err(refusal) => put_answer(buf, Err(refusal), &[]),
    }
}

// The number at a place of a line, or 0 where there is none.
fn number_at(numbers: &[u16], place: usize) -> u16
    ensures { result ≡ get_or numbers.now place 0 }
{
    numbers.get(place).copied().unwrap_or(0)
}

// Answers a line of a script, any bytes: its text is put into the lent buffer.
pub fn answer_line(state: &mut [u64; PLACES], text: &[u8], buf: &mut [u8]) -> Answered
    ensures { Answers (obey (view state.old) text.now) buf.old buf.new result state.new }
{
    let Some(line) = reading::read_line(text) else {
        return put_answer(buf, Err(Refusal::NotOfForm), &[]);
    };
    let numbers = line.numbers.as_slice();
    let a = number_at(numbers, 0);
    let b = number_at(numbers, 1);
    let c = number_at(numbers, 2);
    let word = words::number(line.word);
    let from = words::before_list(word) as usize;
    match meaning::meaning(word, a, b, c) {
        Some(Meant::Do(c)) => obey_command(state, c, &numbers[from..], buf),
        Some(Meant::Ask(q)) => ask_question(state, q, buf),
        None => put_answer(buf, Err(Refusal::NotOfForm), &[]),
    }
}

// Kept (6): the place of a run goes on without the script, which is lent at each call; `Turns` of script/specs/LineAnswers names it.
// How far a script has run: the place past the lines that were answered, and their count.
#[derive(Clone, Copy)]
pub struct Progress {
    pub at: usize,
    pub tally: Tally,
}

// What a turn puts stands at the front of the buffer and ends at `len`; how far the script has run then.
// Kept (6): the promise of `turn` in unique/specs/Buffers names the length in the lent buffer.
#[derive(Clone, Copy)]
pub struct Turned {
    pub len: usize,
    pub next: Progress,
}

// One line of a script: the one at the place, which at the end of the script is empty.
pub fn turn(script: &[u8], state: &mut [u64; PLACES], p: Progress, buf: &mut [u8]) -> Turned
    ensures { Turns script.now state.old p buf.old buf.new result state.new }
{
    let mut reader = Reader {
        src: script,
        at: p.at,
    };
    let a = answer_line(state, reader.next(b'\n'), buf);
    let mut tally = p.tally;
    tally.bump(a.ok);
    Turned {
        len: a.len,
        next: Progress {
            at: reader.at,
            tally,
        },
    }
}
