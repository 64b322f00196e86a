// The small pieces around a search: what it is to return, its charset, a command's tag and its verb, each by the definition of crate `model` that it meets.
#![tactic(auto)]

ghost use Rattle.std.specs.Prelude.{◌≡◌};
ghost use Rattle.model.specs.Octets.{atom_octet};
ghost use Rattle.model.specs.Reading.{piece, text_at};
ghost use Rattle.model.specs.SearchGrammar.{return_at, returns_at, charset_at};
ghost use Rattle.model.specs.Commands.{tagged, verb_at};
ghost use Rattle.octets.specs.Joined.{ReadsOne};
ghost use Rattle.octets.specs.Values.{value_of};
ghost use Rattle.read_options.specs.Charsets.{is_known, read_charset};
ghost use Rattle.read_options.specs.Heads.{TagEnds, verb_of, ReadsVerb};
ghost use Rattle.read_options.specs.Returning.{read_option, read_alone, join_rows, read_returns};

use octets::{Class, Joined};

// Where a tag would end.
pub fn tag_end(text: &[u8]) -> usize
    ensures { TagEnds text.now result }
{
    octets::run_end(text, 0, Class::Tag)
}

// Whether the line begins with a tag and a space.
pub fn is_tagged(text: &[u8]) -> bool
    ensures { result ≡ tagged text.now }
{
    let end = tag_end(text);
    1 <= end && end <= 32 && octets::octet_at(text, end) == b' '
}

// The commands that are known, and any other word.
#[derive(Clone, Copy, PartialEq, Eq)]
pub enum Verb {
    Notify,
    Esearch,
    Other,
}

fn verb_of(text: &[u8], from: usize, upto: usize) -> Verb
    ensures { result ≡ verb_of (verb_at (piece text.now from upto)) }
{
    match octets::word_place(text, from, upto, &[b"NOTIFY", b"ESEARCH"]) {
        Some(0) => Verb::Notify,
        Some(_) => Verb::Esearch,
        None => Verb::Other,
    }
}

// The verb at a position.
pub fn verb_at(text: &[u8], at: usize) -> Option<(Verb, usize)>
    ensures { ReadsVerb text.now at result }
{
    let end = octets::run_at(text, at, Class::Atom)?;
    Some((verb_of(text, at, end), end))
}

// What a search is to return.
#[derive(Clone, Copy, Default)]
pub struct Returns {
    pub min: bool,
    pub max: bool,
    pub all: bool,
    pub count: bool,
}

// One thing that a search may return.
fn option_at(text: &[u8], at: usize) -> Option<(Returns, usize)>
    ensures { ReadsOne text.now at (read_option (return_at text.now at)) result }
{
    let end = octets::run_at(text, at, Class::Atom)?;
    let none = Returns::default();
    match octets::word_place(text, at, end, &[b"MIN", b"MAX", b"ALL", b"COUNT"])? {
        0 => Some((Returns { min: true, ..none }, end)),
        1 => Some((Returns { max: true, ..none }, end)),
        2 => Some((Returns { all: true, ..none }, end)),
        _ => Some((
            Returns {
                count: true,
                ..none
            },
            end,
        )),
    }
}

// Which of them a row has, and whether none is written twice.
#[derive(Clone, Copy)]
pub struct Row {
    returns: Returns,
    once: bool,
}

impl Joined for Row {
    ghost one = { read_alone };

    ghost joins = { join_rows };

    fn one_at(text: &[u8], at: usize) -> Option<(Row, usize)> {
        let (returns, end) = option_at(text, at)?;
        Some((
            Row {
                returns,
                once: true,
            },
            end,
        ))
    }

    fn join(self, rest: Row) -> Row {
        let a = self.returns;
        let b = rest.returns;
        let twice = a.min & b.min | a.max & b.max | a.all & b.all | a.count & b.count;
        Row {
            returns: Returns {
                min: a.min | b.min,
                max: a.max | b.max,
                all: a.all | b.all,
                count: a.count | b.count,
            },
            once: !twice & self.once & rest.once,
        }
    }
}

// What is to be returned, in parentheses: each option at most once, ALL where there is none.
#[tactic(auto, unfolding(model::specs::SearchGrammar::returns_at))]
pub fn returns_at(text: &[u8], at: usize) -> Option<(Returns, usize)>
    ensures { ReadsOne text.now at (read_returns (returns_at text.now at)) result }
{
    if octets::octet_at(text, at) != b'(' {
        return None;
    }
    if octets::octet_at(text, at + 1) == b')' {
        return Some((
            Returns {
                all: true,
                ..Returns::default()
            },
            at + 2,
        ));
    }
    let (row, end) = octets::row_to_close::<Row>(text, at + 1)?;
    if row.once {
        Some((row.returns, end))
    } else {
        None
    }
}

// Whether the string at a position is the name of a charset that is known.
fn is_known(text: &[u8], at: usize) -> bool
    ensures { result ≡ is_known (value_of (text_at atom_octet text.now at)) }
{
    let mut name = [0u8; 8];
    let n = octets::value_of(text, at, Class::Atom, &mut name);
    n <= 8 && octets::is_one_of(&name, 0, n, &[b"US-ASCII", b"UTF-8"])
}

// A charset, and whether it is known: an atom or a quoted string.
pub fn charset_at(text: &[u8], at: usize) -> Option<(bool, usize)>
    ensures { ReadsOne text.now at (read_charset (charset_at text.now at)) result }
{
    let end = octets::text_at(text, at, Class::Atom)?;
    Some((is_known(text, at), end))
}
