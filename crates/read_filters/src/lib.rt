// Whom a group of NOTIFY or a source of ESEARCH is about: the filter's word, and the names behind it.
#![tactic(auto)]

mod mailboxes;

ghost use Rattle.std.specs.Prelude.{◌≡◌, ◌≤◌, length, set};
ghost use Rattle.model.specs.Reading.{piece};
ghost use Rattle.model.specs.NotifyGrammar.{scope_of, filter_at};
ghost use Rattle.read_filters.specs.Scopes.{Numbered, Grouped, word_for, read_filter, ReadsNamed, ReadsBy, ReadsFilter};
ghost use Rattle.read_filters.specs.Keeping.{nothing_kept, kept_filter, Keeps, KeepsNamed, KeepsBy};

use mailboxes::keep_names;
pub use mailboxes::names_at;
use model::LentName;
use octets::Class;

// Whom a filter is about.
#[derive(Clone, Copy, PartialEq, Eq)]
pub enum Scope {
    Selected,
    Delayed,
    Inboxes,
    Personal,
    Subscribed,
    Subtree,
    SubtreeOne,
    Mailboxes,
}

// The number by which a session holds whom a group is about.
pub fn selector_of(scope: Scope) -> u8
    ensures { Numbered scope result }
{
    match scope {
        Scope::Selected => 0,
        Scope::Delayed => 1,
        Scope::Inboxes => 2,
        Scope::Personal => 3,
        Scope::Subscribed => 4,
        Scope::Subtree | Scope::SubtreeOne => 5,
        Scope::Mailboxes => 6,
    }
}

// Whether a group may be about it: one level of a subtree is for ESEARCH alone.
pub fn is_groupable(scope: Scope) -> bool
    ensures { Grouped scope result }
{
    scope != Scope::SubtreeOne
}

// A filter's word: it stands alone, or has names behind it.
#[derive(Clone, Copy)]
pub enum Word {
    Alone(Scope),
    Named(Scope),
}

// The word that stands between two positions.
#[tactic(auto, unfolding(model::specs::NotifyGrammar::scope_of))]
fn word_of(text: &[u8], from: usize, upto: usize) -> Option<Word>
    ensures { result ≡ word_for (scope_of (piece text.now from upto)) }
{
    let place = octets::word_place(
        text,
        from,
        upto,
        &[
            b"selected",
            b"selected-delayed",
            b"inboxes",
            b"personal",
            b"subscribed",
            b"subtree",
            b"subtree-one",
            b"mailboxes",
        ],
    )?;
    Some(match place {
        0 => Word::Alone(Scope::Selected),
        1 => Word::Alone(Scope::Delayed),
        2 => Word::Alone(Scope::Inboxes),
        3 => Word::Alone(Scope::Personal),
        4 => Word::Alone(Scope::Subscribed),
        5 => Word::Named(Scope::Subtree),
        6 => Word::Named(Scope::SubtreeOne),
        _ => Word::Named(Scope::Mailboxes),
    })
}

// A filter that was read: whom it is about, and how many names it has.
#[derive(Clone, Copy)]
pub struct Filter {
    pub scope: Scope,
    pub names: u64,
}

// A filter with names, from the position behind its word on.
fn named_at(text: &[u8], at: usize, scope: Scope) -> Option<(Filter, usize)>
    ensures { ReadsNamed text.now at scope result }
{
    if octets::octet_at(text, at) != b' ' {
        return None;
    }
    let (names, next) = names_at(text, at + 1)?;
    Some((Filter { scope, names }, next))
}

// A filter by its word, from the position behind the word on.
fn filter_by(text: &[u8], at: usize, word: Word) -> Option<(Filter, usize)>
    requires { at ≤ length text.now }
    ensures { ReadsBy text.now at word result }
{
    match word {
        Word::Alone(scope) => Some((Filter { scope, names: 0 }, at)),
        Word::Named(scope) => named_at(text, at, scope),
    }
}

// Whom a group of NOTIFY or a source of ESEARCH is about, and the position behind it.
#[tactic(auto, unfolding(model::specs::NotifyGrammar::filter_at))]
pub fn filter_at(text: &[u8], at: usize) -> Option<(Filter, usize)>
    ensures { ReadsFilter text.now at (read_filter (filter_at text.now at)) result }
{
    let p = octets::run_at(text, at, Class::Atom)?;
    filter_by(text, p, word_of(text, at, p)?)
}

// Names that were kept: how many there were, and the first 16 of them as a session holds them.
#[derive(Clone, Copy)]
pub struct Kept {
    pub count: u64,
    pub names: [LentName; 16],
}

// No name is kept.
pub fn keep_nothing() -> Kept
    ensures { result ≡ nothing_kept }
{
    let none = LentName {
        len: 0,
        octets: [0; 64],
    };
    Kept {
        count: 0,
        names: [none; 16],
    }
}

// Sets one of some places, if there is such a place.
pub fn put_at<T: Copy>(places: &mut [T], at: u64, item: T)
    ensures { places.new ≡ set places.old at item }
{
    if at < places.len() as u64 {
        places[at as usize] = item;
    }
}

// Keeps the names of a filter, from the position behind its word on.
fn keep_named(text: &[u8], at: usize, kept: Kept) -> Option<(Kept, usize)>
    requires { kept.count ≤ at }
    ensures { KeepsNamed text.now at kept result }
{
    if octets::octet_at(text, at) != b' ' {
        return None;
    }
    keep_names(text, at + 1, kept)
}

// Keeps the names of a filter by its word, from the position behind the word on.
fn keep_by(text: &[u8], at: usize, word: Word, kept: Kept) -> Option<(Kept, usize)>
    requires { (at ≤ length text.now) × (kept.count ≤ at) }
    ensures { KeepsBy text.now at word kept result }
{
    match word {
        Word::Alone(_) => Some((kept, at)),
        Word::Named(_) => keep_named(text, at, kept),
    }
}

// Keeps the names of a filter behind those that are kept, and gives the position behind it.
#[tactic(auto, unfolding(model::specs::NotifyGrammar::filter_at))]
pub fn keep_filter(text: &[u8], at: usize, kept: Kept) -> Option<(Kept, usize)>
    requires { kept.count ≤ at }
    ensures { Keeps text.now at (kept_filter kept (filter_at text.now at)) result }
{
    let p = octets::run_at(text, at, Class::Atom)?;
    keep_by(text, p, word_of(text, at, p)?, kept)
}
