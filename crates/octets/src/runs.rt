// Runs of octets of one class.
ghost use Rattle.model.specs.Reading.{run_at};
ghost use Rattle.octets.specs.Classes.{in_class, Ends};
ghost use Rattle.octets.specs.Found.{next_of, space_at, Reads};

use super::Class;
use super::classes::{in_class, octet_at};

// Where the run of a class that begins at a position ends.
pub fn run_end(text: &[u8], at: usize, c: Class) -> usize
    ensures { Ends (in_class c) text.now at result }
{
    for p in at..text.len() {
        if !in_class(text[p], c) {
            return p;
        }
    }
    at.max(text.len())
}

// One octet or more of a class.
pub fn run_at(text: &[u8], at: usize, c: Class) -> Option<usize>
    ensures { Reads text.now at (next_of (run_at (in_class c) text.now at)) result }
{
    let end = run_end(text, at, c);
    if at < end { Some(end) } else { None }
}

// The position behind a space.
pub fn behind_space(text: &[u8], at: usize) -> Option<usize>
    ensures { Reads text.now at (space_at text.now at) result }
{
    if octet_at(text, at) == b' ' {
        Some(at + 1)
    } else {
        None
    }
}
