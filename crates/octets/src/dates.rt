// Dates as search keys have them: their shape, and no calendar.
ghost use Rattle.std.specs.Prelude.{◌+◌, ◌-◌, ◌<◌};
ghost use Rattle.model.specs.Reading.{digits_at, month_at, bare_date_at, date_at};
ghost use Rattle.octets.specs.Found.{next_of, Reads};

use super::Class;
use super::classes::octet_at;
use super::runs::run_end;
use super::words::is_one_of;

// Digits, as few and as many as a date has them.
fn digits_at(text: &[u8], at: usize, least: usize, most: usize) -> Option<usize>
    requires { 0 < least }
    ensures { Reads text.now at (next_of (digits_at least most text.now at)) result }
{
    let end = run_end(text, at, Class::Digit);
    if end - at < least {
        return None;
    }
    if most < end - at {
        return None;
    }
    Some(end)
}

// The name of a month.
fn month_at(text: &[u8], at: usize) -> Option<usize>
    ensures { Reads text.now at (next_of (month_at text.now at)) result }
{
    if text.len() <= at {
        return None;
    }
    if text.len() - at < 3 {
        return None;
    }
    let end = at + 3;
    if is_one_of(
        text,
        at,
        end,
        &[
            b"Jan", b"Feb", b"Mar", b"Apr", b"May", b"Jun", b"Jul", b"Aug", b"Sep", b"Oct", b"Nov",
            b"Dec",
        ],
    ) {
        return Some(end);
    }
    None
}

// A date without quotes.
fn bare_date_at(text: &[u8], at: usize) -> Option<usize>
    ensures { Reads text.now at (next_of (bare_date_at text.now at)) result }
{
    let q = digits_at(text, at, 1, 2)?;
    if octet_at(text, q) != b'-' {
        return None;
    }
    let r = month_at(text, q + 1)?;
    if octet_at(text, r) != b'-' {
        return None;
    }
    digits_at(text, r + 1, 4, 4)
}

// A date, with quotes or without.
pub fn date_at(text: &[u8], at: usize) -> Option<usize>
    ensures { Reads text.now at (next_of (date_at text.now at)) result }
{
    if octet_at(text, at) == b'"' {
        let q = bare_date_at(text, at + 1)?;
        if octet_at(text, q) != b'"' {
            return None;
        }
        return Some(q + 1);
    }
    bare_date_at(text, at)
}
