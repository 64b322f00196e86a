// How a key begins: a key that holds no key, read into a flat table of numbers; or which container it opens.
#![tactic(auto)]

pub mod kinds;
mod sets;

ghost use Rattle.std.specs.Prelude.{◌≡◌, Some, ◌+◌, ◌-◌, ◌*◌, ◌≤◌, ◌<◌, length};
ghost use Rattle.std.proofs.lemmas.List.Edits.{sets};
ghost use Rattle.read_tests.specs.Begin.{Room, PutsSize, PutsSet, BeginsBy, Begins};

use octets::{Class, behind_space};
use read_words::{Word, argument_at, key_word, size_behind};
use sets::set_at;
pub use sets::store;

// A key that holds no key, read whole and written; or the position of what a key holds.
#[derive(Clone, Copy)]
pub enum Start {
    One {
        next: usize,
        used: usize,
        unsupported: bool,
        parts: u64,
    },
    Negation(usize),
    Alternation(usize),
    Opening(usize),
}

// A key that is no set, by its cells and the position behind it.
fn put(cells: &mut [u64], n: usize, code: &[u64], next: usize, unsupported: bool) -> Start
    requires { (n < 549755813888) × (length code.now ≤ 4) }
    ensures { (result ≡ Start.One next (n + length code.now) unsupported 0) × (cells.new ≡ sets cells.old n code.now) }
{
    store(cells, n, code);
    Start::One {
        next,
        used: n + code.len(),
        unsupported,
        parts: 0,
    }
}

// A kind and the number behind a space.
fn put_size(text: &[u8], at: usize, cells: &mut [u64], n: usize, kind: u64) -> Option<Start>
    requires { n < 549755813888 }
    ensures { PutsSize kind text.now at cells.old cells.new n result }
{
    let (size, next) = size_behind(text, at)?;
    Some(put(cells, n, &[kind, size], next, false))
}

// A set, behind two cells that say which kind it is and how many parts it has.
fn put_set(text: &[u8], at: usize, cells: &mut [u64], n: usize, kind: u64) -> Option<Start>
    requires { Room text.now at n }
    ensures { PutsSet kind text.now at cells.old cells.new n result }
{
    let (parts, next) = set_at(text, at, cells, n + 2)?;
    store(cells, n, &[kind, parts]);
    Some(Start::One {
        next,
        used: n + 2 + 2 * (parts as usize),
        unsupported: false,
        parts,
    })
}

// A key by its word; `at` is the position behind the word.
fn begin_by(text: &[u8], at: usize, word: Word, cells: &mut [u64], n: usize) -> Option<Start>
    requires { Room text.now at n × at ≤ length text.now }
    ensures { BeginsBy text.now at word cells.old cells.new n result }
{
    match word {
        Word::All => Some(put(cells, n, &[kinds::ALL], at, false)),
        Word::Flag { bit, on } => Some(put(
            cells,
            n,
            &[kinds::FLAG, bit, u64::from(on)],
            at,
            false,
        )),
        Word::Above => put_size(text, at, cells, n, kinds::LARGER),
        Word::Below => put_size(text, at, cells, n, kinds::SMALLER),
        Word::Uids => put_set(text, behind_space(text, at)?, cells, n, kinds::UIDS),
        Word::Unsupported(a) => Some(put(
            cells,
            n,
            &[kinds::UNSUPPORTED],
            argument_at(text, at, a)?,
            true,
        )),
        Word::Negated => Some(Start::Negation(behind_space(text, at)?)),
        Word::Alternatives => Some(Start::Alternation(behind_space(text, at)?)),
    }
}

// How the key at a position begins.
#[tactic(auto, unfolding(model::specs::SearchGrammar::start_at))]
pub fn begin(text: &[u8], at: usize, cells: &mut [u64], n: usize) -> Option<Start>
    requires { Room text.now at n }
    ensures { Begins text.now at cells.old cells.new n result }
{
    let b = octets::octet_at(text, at);
    if b == b'(' {
        return Some(Start::Opening(at + 1));
    }
    if b == b'*' || octets::in_class(b, Class::Digit) {
        return put_set(text, at, cells, n, kinds::NUMBERS);
    }
    let end = octets::run_at(text, at, Class::Atom)?;
    begin_by(text, end, key_word(text, at, end)?, cells, n)
}
