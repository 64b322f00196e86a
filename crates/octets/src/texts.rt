// Atoms and quoted strings, and what they stand for.
ghost use Rattle.std.specs.Prelude.{◌≡◌, ◌+◌, ◌-◌, ◌<◌, length, set};
ghost use Rattle.std.proofs.lemmas.List.Edits.{sets};
ghost use Rattle.model.specs.Reading.{piece, quoting, quoted_at, text_at};
ghost use Rattle.octets.specs.Classes.{in_class};
ghost use Rattle.octets.specs.Found.{next_of, Reads};
ghost use Rattle.octets.specs.Quotes.{step_of, kept, escaping};
ghost use Rattle.octets.specs.Values.{value_of, Filled};

use super::Class;
use super::classes::{in_class, octet_at};
use super::runs::{run_at, run_end};
use super::words::part;

// What an octet between quotes does.
#[derive(Clone, Copy)]
pub enum QuoteStep {
    // It closes the string.
    Closes,
    // It may not stand there.
    Wrong,
    // It belongs to the string.
    Kept,
    // It escapes the next.
    Escapes,
}

// What it does, behind a backslash that escapes it or not.
fn quote_step(escaped: bool, b: u8) -> QuoteStep
    ensures { result ≡ step_of (quoting escaped b) }
{
    match (escaped, b) {
        (true, b'"' | b'\\') => QuoteStep::Kept,
        (true, _) => QuoteStep::Wrong,
        (false, b'"') => QuoteStep::Closes,
        (false, b'\\') => QuoteStep::Escapes,
        (false, _) if in_class(b, Class::Quoted) => QuoteStep::Kept,
        (false, _) => QuoteStep::Wrong,
    }
}

// Whether a step escapes the next octet.
fn escapes(step: QuoteStep) -> bool
    ensures { result ≡ escaping step }
{
    matches!(step, QuoteStep::Escapes)
}

// A quoted string.
pub fn quoted_at(text: &[u8], at: usize) -> Option<usize>
    ensures { Reads text.now at (next_of (quoted_at text.now at)) result }
{
    if octet_at(text, at) != b'"' {
        return None;
    }
    let mut escaped = false;
    for p in at + 1..text.len() {
        let step = quote_step(escaped, text[p]);
        match step {
            QuoteStep::Closes => return Some(p + 1),
            QuoteStep::Wrong => return None,
            _ => escaped = escapes(step),
        }
    }
    None
}

// A quoted string, or else a run of a class.
pub fn text_at(text: &[u8], at: usize, c: Class) -> Option<usize>
    ensures { Reads text.now at (next_of (text_at (in_class c) text.now at)) result }
{
    if octet_at(text, at) == b'"' {
        return quoted_at(text, at);
    }
    run_at(text, at, c)
}

// Writes an octet, if its place is inside.
fn store(out: &mut [u8], n: usize, b: u8)
    ensures { out.new ≡ set out.old n b }
{
    // Kept: what the library promises of `get_mut` doesn't say what the slice holds after the write.
    if n < out.len() {
        out[n] = b;
    }
}

// Writes an octet that belongs to a string, and gives the next place.
fn keep(out: &mut [u8], n: usize, b: u8, step: QuoteStep) -> usize
    requires { n < 18446744073709551615 }
    ensures { (result ≡ n + length (kept step b)) × (out.new ≡ sets out.old n (kept step b)) }
{
    match step {
        QuoteStep::Kept => {
            store(out, n, b);
            n + 1
        }
        _ => n,
    }
}

// Writes the octets from one position up to another, as many of them as fit, and gives how many there are.
fn copy_piece(text: &[u8], from: usize, upto: usize, out: &mut [u8]) -> usize
    ensures { Filled text.now (piece text.now from upto) out.old out.new result }
{
    let piece = part(text, from, upto);
    let n = piece.len().min(out.len());
    out[..n].copy_from_slice(&piece[..n]);
    piece.len()
}

// Writes a quoted string without its quotes and backslashes.
fn copy_quoted(text: &[u8], at: usize, out: &mut [u8]) -> usize
    ensures { Filled text.now (value_of (quoted_at text.now at)) out.old out.new result }
{
    if quoted_at(text, at).is_none() {
        return 0;
    }
    let mut escaped = false;
    let mut n = 0;
    for p in at + 1..text.len() {
        let step = quote_step(escaped, text[p]);
        if let QuoteStep::Closes = step {
            return n;
        }
        n = keep(out, n, text[p], step);
        escaped = escapes(step);
    }
    n
}

// Writes the value of the string at a position, as much of it as fits, and gives its whole length; 0 where no string stands there.
pub fn value_of(text: &[u8], at: usize, c: Class, out: &mut [u8]) -> usize
    ensures { Filled text.now (value_of (text_at (in_class c) text.now at)) out.old out.new result }
{
    if octet_at(text, at) == b'"' {
        return copy_quoted(text, at, out);
    }
    let end = run_end(text, at, c);
    copy_piece(text, at, end, out)
}
