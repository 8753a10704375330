// Decimal numbers put into a lent buffer, and numbers taken from a text.
#![tactic(auto)]

ghost use Rattle.std.specs.Prelude.{◌≡◌, ◌<◌};
ghost use Rattle.text.specs.Putting.{Put};
ghost use Rattle.decimal.specs.Decimal.{decimal, lead, numbered, value};

use text::put;

// Kept (4): no Display: `write!` fails where the buffer is too short, and `Put` promises the front that fits and the place past it.
// Puts the digit of n at a place of the decimal system, where n reaches so far.
fn put_lead(buf: &mut [u8], at: usize, n: u16, place: u16) -> usize
    requires { 0 < place }
    ensures { Put buf.old at (lead place n) buf.new result }
{
    let reaches = place <= n;
    if reaches {
        let d = (n / place % 10) as u8;
        return put(buf, at, 48 + d);
    }
    at
}

// Puts a number.
pub fn put_number(buf: &mut [u8], at: usize, n: u16) -> usize
    ensures { Put buf.old at (decimal n) buf.new result }
{
    let b = put_lead(buf, at, n, 10000);
    let c = put_lead(buf, b, n, 1000);
    let d = put_lead(buf, c, n, 100);
    let e = put_lead(buf, d, n, 10);
    let last = (n % 10) as u8;
    put(buf, e, 48 + last)
}

// Puts each of some numbers after one space.
pub fn put_numbers(buf: &mut [u8], at: usize, numbers: &[u16]) -> usize
    ensures { Put buf.old at (numbered numbers.now) buf.new result }
{
    let mut next = at;
    for number in numbers {
        let digits = put(buf, next, b' ');
        next = put_number(buf, digits, *number);
    }
    next
}

// Kept (4): no `parse`, which refuses: the definition `value` gives a number for any bytes.
// The number that a text stands for, taken leniently.
pub fn value(text: &[u8]) -> u16
    ensures { result ≡ value text.now }
{
    let mut v: u16 = 0;
    for b in text {
        v = v.wrapping_mul(10).wrapping_add(u16::from(b % 16));
    }
    v
}
