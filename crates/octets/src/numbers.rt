// Numbers: in decimal, and little-endian fields.
ghost use Rattle.std.specs.Prelude.{◌≡◌, ◌+◌, ◌-◌, ◌*◌, ◌≤◌, ◌<◌, min, get_or};
ghost use Rattle.model.specs.Reading.{number_at, positive_at};
ghost use Rattle.octets.specs.Widths.{Weighs};
ghost use Rattle.octets.specs.Numerals.{number_read, Counts};

use super::Class;
use super::classes::octet_at;
use super::runs::run_end;

// The largest number of 32 bits.
const MOST: u64 = 4294967295;

// What a digit counts.
fn digit_value(b: u8) -> u64
    ensures { (result ≡ b - 48) × (result < 256) }
{
    u64::from(b.saturating_sub(b'0'))
}

// Digits, zeros in front too, of a number of at most 32 bits.
pub fn number_at(text: &[u8], at: usize) -> Option<(u64, usize)>
    ensures { Counts text.now at (number_read (number_at text.now at)) result }
{
    let end = run_end(text, at, Class::Digit);
    if end <= at {
        return None;
    }
    let mut v: u64 = 0;
    for &b in &text[at..end] {
        v = v * 10 + digit_value(b);
        if MOST < v {
            return None;
        }
    }
    Some((v, end))
}

// The same, but it begins with no zero.
pub fn positive_at(text: &[u8], at: usize) -> Option<(u64, usize)>
    ensures { Counts text.now at (number_read (positive_at text.now at)) result }
{
    if octet_at(text, at) == b'0' {
        return None;
    }
    number_at(text, at)
}

// The octet that stands so far behind a position, 0 past the end.
fn octet_from(b: &[u8], at: usize, i: usize) -> u8
    ensures { result ≡ get_or b.now (at + i) 0 }
{
    match at.checked_add(i) {
        Some(k) => octet_at(b, k),
        None => 0,
    }
}

// The octets from a position on as a number, the lowest first; no more than four of them.
pub fn little(b: &[u8], at: usize, width: usize) -> u64
    ensures { Weighs b.now at width result }
{
    let w = width.min(4);
    let mut v: u64 = 0;
    for i in (0..w).rev() {
        v = v * 256 + u64::from(octet_from(b, at, i));
    }
    v
}
