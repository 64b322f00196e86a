// The keys of ESEARCH: each is read into a flat table of numbers, the outer key before those in it, and counted.
// Keys hold lists of keys, so a key reader and a list reader call each other while the octets left fall.
#![tactic(auto)]

ghost use Rattle.std.specs.Prelude.{◌≡◌, ◌+◌, ◌-◌, ◌≤◌, ◌<◌, length};
ghost use Rattle.model.specs.Reading.{over_at};
ghost use Rattle.read_tests.specs.Begin.{Room};
ghost use Rattle.read_keys.specs.Keys.{Small, join, Closable, Closed, ending_of, Ends, WritesKey, WritesKeys, WritesProgram};

use octets::behind_space;
use read_tests::{Start, begin, kinds, store};

// Keys that were read: the position behind them and the cell behind their last, how many they are, how deep lists are nested in them, whether one of them
// is not supported, and the most parts that a set has.
#[derive(Clone, Copy)]
pub struct Keys {
    pub next: usize,
    pub used: usize,
    pub keys: u64,
    pub depth: u64,
    pub unsupported: bool,
    pub parts: u64,
}

// Keys end with a closing parenthesis, or with the line.
#[derive(Clone, Copy)]
pub enum Ending {
    Closing,
    LineEnd,
}

// What two readings come to together, the second behind the first.
fn joined(a: Keys, b: Keys) -> Keys
    requires { Small a × Small b }
    ensures { result ≡ join a b }
{
    Keys {
        keys: a.keys + b.keys,
        depth: a.depth.max(b.depth),
        unsupported: a.unsupported || b.unsupported,
        parts: a.parts.max(b.parts),
        ..b
    }
}

// A key that holds what was read: one key more, deeper by as much as is said, and two cells before those of what it holds.
fn closed(cells: &mut [u64], n: usize, kind: u64, deeper: u64, r: Keys) -> Keys
    requires { Closable n deeper r }
    ensures { Closed kind deeper n r cells.old cells.new result }
{
    store(cells, n, &[kind, (r.used - (n + 2)) as u64]);
    Keys {
        keys: 1 + r.keys,
        depth: deeper + r.depth,
        ..r
    }
}

// The position behind what ends the keys.
fn over_at(text: &[u8], at: usize, e: Ending) -> Option<usize>
    requires { at ≤ length text.now }
    ensures { Ends text.now at (over_at (ending_of e) text.now at) result }
{
    match e {
        Ending::Closing if octets::octet_at(text, at) == b')' => Some(at + 1),
        Ending::LineEnd if at == text.len() => Some(at),
        _ => None,
    }
}

// Reads a key into the cells from n on.
#[cycle(key_at_keys_at)]
fn key_at(text: &[u8], at: usize, cells: &mut [u64], n: usize) -> Option<Keys>
    requires { Room text.now at n }
    ensures { WritesKey text.now at cells.old cells.new n result }
{
    match begin(text, at, cells, n)? {
        Start::One {
            next,
            used,
            unsupported,
            parts,
        } => Some(Keys {
            next,
            used,
            keys: 1,
            depth: 0,
            unsupported,
            parts,
        }),
        Start::Negation(p) => {
            let key = key_at(text, p, cells, n + 2)?;
            Some(closed(cells, n, kinds::NOT, 0, key))
        }
        Start::Alternation(p) => {
            let first = key_at(text, p, cells, n + 2)?;
            let q = behind_space(text, first.next)?;
            let second = key_at(text, q, cells, first.used)?;
            Some(closed(cells, n, kinds::OR, 0, joined(first, second)))
        }
        Start::Opening(p) => {
            let keys = keys_at(text, p, cells, n + 2, Ending::Closing)?;
            Some(closed(cells, n, kinds::LIST, 1, keys))
        }
    }
}

// Reads one key or more, to the parenthesis or the line end that ends them.
#[cycle(key_at_keys_at)]
fn keys_at(text: &[u8], at: usize, cells: &mut [u64], n: usize, e: Ending) -> Option<Keys>
    requires { Room text.now at n }
    ensures { WritesKeys text.now at cells.old cells.new n e result }
{
    let first = key_at(text, at, cells, n)?;
    if octets::octet_at(text, first.next) == b' ' {
        let rest = keys_at(text, first.next + 1, cells, first.used, e)?;
        return Some(joined(first, rest));
    }
    let next = over_at(text, first.next, e)?;
    Some(Keys { next, ..first })
}

// The command's own keys, to the end of the line, into the cells from the first on.
pub fn program_at(text: &[u8], at: usize, cells: &mut [u64]) -> Option<Keys>
    requires { length text.now < 4294967296 }
    ensures { WritesProgram text.now at cells.old cells.new result }
{
    keys_at(text, at, cells, 0, Ending::LineEnd)
}
