// Reading a script's line: its word and numbers are gathered leniently, written again, and compared with the text.
#![tactic(auto)]

ghost use Rattle.std.specs.Prelude.{◌≡◌, ◌≤◌, ◌<◌, [], ◌∷◌, ◌++◌, length, MatchOption};
ghost use Rattle.words.specs.Bytes.{same};
ghost use Rattle.words.specs.Rows.{number};
ghost use Rattle.reading.specs.Form.{render, parse};
ghost use Rattle.reading.specs.Holding.{held, gathered};

use std::marker::Model;
use textlines::Reader;
use words::Word;

// The most numbers of a line.
const MOST: usize = 256;

// The numbers of a line, in the front of an array, zeros after them.
#[derive(Clone, Copy)]
pub struct Numbers {
    count: usize,
    numbers: [u16; MOST],
}

impl Model for Numbers {
    ghost use Rattle.std.specs.Prelude.{List, length, take, ℕ};
    ghost use Rattle.reading.specs.Padding.{padded, Holds};

    ghost Value = { List ℕ };

    ghost view = { λ n. take n.count n.numbers };

    ghost invariant = { λ n. Holds n.count n.numbers };

    ghost inverse = { λ l. record { count = length l; numbers = padded l } };

    ghost inverse_ok = { λ n h i. record { count = h.as_many i; numbers = h.is i } };
}

impl Numbers {
    // No number yet.
    #[tactic(auto, unfolding(crate::specs::Padding::padded))]
    fn new() -> Self
        ensures { result ≡ [] }
    {
        Numbers {
            count: 0,
            numbers: [0; MOST],
        }
    }

    // One number more, where there is room for it.
    fn push(&mut self, number: u16) -> Option<()>
        ensures { MatchOption result ((256 ≤ length self.old) × (self.new ≡ self.old)) (λ _. (length self.old < 256) × (self.new ≡ self.old ++ number ∷ [])) }
    {
        if self.count == MOST {
            return None;
        }
        self.numbers[self.count] = number;
        self.count += 1;
        Some(())
    }

    // The numbers.
    pub fn as_slice(&self) -> &[u16]
        ensures { result.now ≡ self.now }
    {
        &self.numbers[..self.count]
    }
}

// A line: its word, and the numbers that follow it.
#[derive(Clone, Copy)]
pub struct Line {
    pub word: Word,
    pub numbers: Numbers,
}

// What stands between spaces: the first part taken for a word, the others for numbers.
fn gather(text: &[u8]) -> Option<Line>
    ensures { result ≡ gathered text.now }
{
    let mut reader = Reader { src: text, at: 0 };
    let word = words::which(reader.next(b' '))?;
    let mut numbers = Numbers::new();
    while reader.at < text.len() {
        numbers.push(decimal::value(reader.next(b' ')))?;
    }
    Some(Line { word, numbers })
}

// Kept (6): no heap: the line is written into an array that is long enough for any.
// Does writing the line give the text?
fn gives(word: Word, numbers: &[u16], text: &[u8]) -> bool
    requires { length numbers.now ≤ 256 }
    ensures { result ≡ same (render (number word) numbers.now) text.now }
{
    let mut buf = [0u8; 2048];
    let next = words::put_word(&mut buf, 0, words::number(word));
    let end = decimal::put_numbers(&mut buf, next, numbers);
    &buf[..end] == text
}

// The line that a text is, if it is one.
pub fn read_line(text: &[u8]) -> Option<Line>
    ensures { result ≡ held (parse text.now) }
{
    let long = 512 < text.len();
    if long {
        return None;
    }
    let line = gather(text)?;
    let word = words::number(line.word);
    let numbers = line.numbers.as_slice();
    if words::takes(word, numbers.len() as u16) && gives(line.word, numbers, text) {
        Some(line)
    } else {
        None
    }
}
