// The words of search keys, and what stands behind each.
#![tactic(auto)]

ghost use Rattle.std.specs.Prelude.{◌≡◌, ◌≤◌, length};
ghost use Rattle.model.specs.Reading.{piece};
ghost use Rattle.model.specs.SearchGrammar.{keyword_of};
ghost use Rattle.octets.specs.Found.{Reads};
ghost use Rattle.octets.specs.Numerals.{Counts};
ghost use Rattle.read_words.specs.Words.{meaning, meant, size_at, argument_at, Argues};

use octets::{Class, behind_space};

// What stands behind the word of a key that is not supported.
#[derive(Clone, Copy)]
pub enum Argument {
    Nothing,
    Text,
    Keyword,
    Date,
    Header,
}

// What a key's word asks for.
#[derive(Clone, Copy)]
pub enum Word {
    All,
    Flag { bit: u64, on: bool },
    Above,
    Below,
    Uids,
    Unsupported(Argument),
    Negated,
    Alternatives,
}

// The words of keys, and what each means. Each flag has two, for set and for not set.
static KEYS: [(&[u8], Word); 35] = [
    (b"ALL", Word::All),
    (b"LARGER", Word::Above),
    (b"SMALLER", Word::Below),
    (b"UID", Word::Uids),
    (b"NOT", Word::Negated),
    (b"OR", Word::Alternatives),
    (b"ANSWERED", Word::Flag { bit: 0, on: true }),
    (b"UNANSWERED", Word::Flag { bit: 0, on: false }),
    (b"FLAGGED", Word::Flag { bit: 1, on: true }),
    (b"UNFLAGGED", Word::Flag { bit: 1, on: false }),
    (b"DELETED", Word::Flag { bit: 2, on: true }),
    (b"UNDELETED", Word::Flag { bit: 2, on: false }),
    (b"SEEN", Word::Flag { bit: 3, on: true }),
    (b"UNSEEN", Word::Flag { bit: 3, on: false }),
    (b"DRAFT", Word::Flag { bit: 4, on: true }),
    (b"UNDRAFT", Word::Flag { bit: 4, on: false }),
    (b"NEW", Word::Unsupported(Argument::Nothing)),
    (b"OLD", Word::Unsupported(Argument::Nothing)),
    (b"RECENT", Word::Unsupported(Argument::Nothing)),
    (b"BCC", Word::Unsupported(Argument::Text)),
    (b"BODY", Word::Unsupported(Argument::Text)),
    (b"CC", Word::Unsupported(Argument::Text)),
    (b"FROM", Word::Unsupported(Argument::Text)),
    (b"SUBJECT", Word::Unsupported(Argument::Text)),
    (b"TEXT", Word::Unsupported(Argument::Text)),
    (b"TO", Word::Unsupported(Argument::Text)),
    (b"KEYWORD", Word::Unsupported(Argument::Keyword)),
    (b"UNKEYWORD", Word::Unsupported(Argument::Keyword)),
    (b"BEFORE", Word::Unsupported(Argument::Date)),
    (b"ON", Word::Unsupported(Argument::Date)),
    (b"SINCE", Word::Unsupported(Argument::Date)),
    (b"SENTBEFORE", Word::Unsupported(Argument::Date)),
    (b"SENTON", Word::Unsupported(Argument::Date)),
    (b"SENTSINCE", Word::Unsupported(Argument::Date)),
    (b"HEADER", Word::Unsupported(Argument::Header)),
];

// What the first of these words that stands from one position up to another means.
fn meaning(text: &[u8], at: usize, end: usize, keys: &[(&[u8], Word)]) -> Option<Word>
    ensures { result ≡ meaning (piece text.now at end) keys.now }
{
    keys.iter()
        .find(|key| octets::is_word(text, at, end, key.0))
        .map(|key| key.1)
}

// Which key's word stands from one position up to another.
pub fn key_word(text: &[u8], at: usize, end: usize) -> Option<Word>
    ensures { meant result ≡ keyword_of (piece text.now at end) }
{
    meaning(text, at, end, &KEYS)
}

// A space and a number.
pub fn size_behind(text: &[u8], at: usize) -> Option<(u64, usize)>
    ensures { Counts text.now at (size_at text.now at) result }
{
    octets::number_at(text, behind_space(text, at)?)
}

// A space and a string.
fn text_behind(text: &[u8], at: usize) -> Option<usize>
    ensures { Reads text.now at (argument_at Argument.Text text.now at) result }
{
    octets::text_at(text, behind_space(text, at)?, Class::Astring)
}

// What stands behind the word of a key that is not supported.
pub fn argument_at(text: &[u8], at: usize, a: Argument) -> Option<usize>
    requires { at ≤ length text.now }
    ensures { Argues text.now at a result }
{
    match a {
        Argument::Nothing => Some(at),
        Argument::Text => text_behind(text, at),
        Argument::Keyword => octets::run_at(text, behind_space(text, at)?, Class::Atom),
        Argument::Date => octets::date_at(text, behind_space(text, at)?),
        Argument::Header => text_behind(text, text_behind(text, at)?),
    }
}
