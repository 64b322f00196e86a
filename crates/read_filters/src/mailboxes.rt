// The mailboxes that a filter names, one or several in parentheses: how many they are, and their names as a session holds them.
ghost use Rattle.std.specs.Prelude.{◌≡◌, ◌≤◌, ◌<◌};
ghost use Rattle.model.specs.Reading.{astring_at};
ghost use Rattle.model.specs.NotifyGrammar.{names_at};
ghost use Rattle.model.specs.Listing.{lend_name};
ghost use Rattle.octets.specs.Values.{value_of};
ghost use Rattle.read_filters.specs.Counted.{read_names, ReadsNames, ReadsRow};
ghost use Rattle.read_filters.specs.Keeping.{with_one, kept_names, KeepsRow, Keeps};

use super::{Kept, put_at};
use model::LentName;
use octets::Class;

// Names with a space between them, up to the parenthesis that closes them.
fn names_row(text: &[u8], at: usize) -> Option<(u64, usize)>
    ensures { ReadsRow text.now at result }
{
    let p = octets::text_at(text, at, Class::Astring)?;
    match octets::octet_at(text, p) {
        b' ' => {
            let (others, next) = names_row(text, p + 1)?;
            Some((others + 1, next))
        }
        b')' => Some((1, p + 1)),
        _ => None,
    }
}

// One name, or several in parentheses: how many, and the position behind them.
pub fn names_at(text: &[u8], at: usize) -> Option<(u64, usize)>
    ensures { ReadsNames text.now at (read_names (names_at text.now at)) result }
{
    if octets::octet_at(text, at) == b'(' {
        return names_row(text, at + 1);
    }
    let p = octets::text_at(text, at, Class::Astring)?;
    Some((1, p))
}

// One name more is kept, if there is a place for it.
fn keep_one(kept: Kept, name: LentName) -> Kept
    requires { kept.count < 18446744073709551615 }
    ensures { result ≡ with_one kept name }
{
    let mut names = kept.names;
    put_at(&mut names, kept.count, name);
    Kept {
        count: kept.count + 1,
        names,
    }
}

// The name at a position, as a mailbox would have it.
fn name_at(text: &[u8], at: usize) -> LentName
    ensures { result ≡ lend_name (value_of (astring_at text.now at)) }
{
    let mut octets = [0u8; 64];
    let len = octets::value_of(text, at, Class::Astring, &mut octets);
    if 64 < len {
        return names::stored(b"");
    }
    names::stored(&octets[..len])
}

// Keeps names with a space between them, up to the parenthesis that closes them.
fn keep_row(text: &[u8], at: usize, kept: Kept) -> Option<(Kept, usize)>
    requires { kept.count ≤ at }
    ensures { KeepsRow text.now at kept result }
{
    let mut more = kept;
    let mut p = at;
    // Kept: how far a name reaches is known when it is read.
    loop {
        let q = octets::text_at(text, p, Class::Astring)?;
        more = keep_one(more, name_at(text, p));
        match octets::octet_at(text, q) {
            b' ' => p = q + 1,
            b')' => return Some((more, q + 1)),
            _ => return None,
        }
    }
}

// Keeps one name, or several in parentheses, behind those that are kept.
pub fn keep_names(text: &[u8], at: usize, kept: Kept) -> Option<(Kept, usize)>
    requires { kept.count ≤ at }
    ensures { Keeps text.now at (kept_names kept (names_at text.now at)) result }
{
    if octets::octet_at(text, at) == b'(' {
        return keep_row(text, at + 1, kept);
    }
    let p = octets::text_at(text, at, Class::Astring)?;
    Some((keep_one(kept, name_at(text, at)), p))
}
