// Bytes, and texts of them, put into a lent buffer; sixteen-bit numbers taken from one, low byte first. A script's line, an answer and a policy file share them.
#![tactic(auto)]

ghost use Rattle.std.specs.Prelude.{[], ◌∷◌, ◌≡◌};
ghost use Rattle.text.specs.Places.{word_at};
ghost use Rattle.text.specs.Putting.{Put};

// Kept (5): a buffer and a place stay two parameters: unique/specs/Buffers has a line for each function that puts something, which names the buffer lent and the places given and handed back.
// Puts a byte at a place, where the buffer reaches so far, and answers the place past what was put.
pub fn put(buf: &mut [u8], at: usize, b: u8) -> usize
    ensures { Put buf.old at (b ∷ []) buf.new result }
{
    if at < buf.len() {
        buf[at] = b;
        return at + 1;
    }
    at
}

// Puts a text.
pub fn put_text(buf: &mut [u8], at: usize, text: &[u8]) -> usize
    ensures { Put buf.old at text.now buf.new result }
{
    let mut next = at;
    for b in text {
        next = put(buf, next, *b);
    }
    next
}

// The number at a place. Bytes past the end are 0.
pub fn word_at(bytes: &[u8], at: usize) -> u16
    ensures { result ≡ word_at bytes.now at }
{
    match &bytes[at.min(bytes.len())..] {
        [low, high, ..] => u16::from_le_bytes([*low, *high]),
        [low] => u16::from(*low),
        [] => 0,
    }
}
