// A text in parts, read one after another, and the count of a script's lines.
#![tactic(auto)]

ghost use Rattle.std.specs.Prelude.{◌≡◌, ◌+◌, ◌≤◌, length};
ghost use Rattle.textlines.specs.Parts.{part_at, place_past};
ghost use Rattle.textlines.specs.Tallies.{counted};

// The place where the part that starts at a place ends: the next stop byte, or the end of the text.
fn end_of(s: &[u8], at: usize, stop: u8) -> usize
    requires { at ≤ length s.now }
    ensures { result ≡ at + length (part_at stop s.now at) }
{
    match s[at..].iter().position(|b| *b == stop) {
        Some(length) => at + length,
        None => s.len(),
    }
}

// Kept (5): `Reader` holds a text and the place for whoever reads on. `part_at` and `past`, of which it is made, have promises of their own in unique/specs/Promises, and so has `text::word_at`.
// The part that starts at a place. At the end of the text, and past it, there is an empty one.
pub fn part_at(s: &[u8], at: usize, stop: u8) -> &[u8]
    ensures { result.now ≡ part_at stop s.now at }
{
    if at <= s.len() {
        let end = end_of(s, at, stop);
        &s[at..end]
    } else {
        &[]
    }
}

// The place past that part and its stop byte.
pub fn past(s: &[u8], at: usize, stop: u8) -> usize
    ensures { result ≡ place_past stop s.now at }
{
    let end = end_of(s, at.min(s.len()), stop);
    (end + 1).min(s.len())
}

// A reader: it holds the lent text and the place in it.
#[derive(Drop)]
pub struct Reader<'a> {
    pub src: &'a [u8],
    pub at: usize,
}

impl<'a> Reader<'a> {
    // The next part, a line or a number, and the reader moves past it.
    pub fn next(&mut self, stop: u8) -> &'a [u8]
        ensures part { result.now ≡ part_at stop self.old.src.now self.old.at }
        ensures src { self.new.src ≡ self.old.src }
        ensures at { self.new.at ≡ place_past stop self.old.src.now self.old.at }
    {
        let part = part_at(self.src, self.at, stop);
        self.at = past(self.src, self.at, stop);
        part
    }
}

// How many lines were answered 0, and how many otherwise. A counter stays at its most.
#[derive(Clone, Copy)]
pub struct Tally {
    pub done: u16,
    pub others: u16,
}

impl Tally {
    // The tally after one line more.
    pub fn counted(self, ok: bool) -> Self
        ensures { result ≡ counted self ok }
    {
        if ok {
            Tally {
                done: self.done.saturating_add(1),
                ..self
            }
        } else {
            Tally {
                others: self.others.saturating_add(1),
                ..self
            }
        }
    }

    // One line more, in a tally that is lent.
    pub fn bump(&mut self, ok: bool)
        ensures { self.new ≡ counted self.old ok }
    {
        *self = self.counted(ok);
    }
}
