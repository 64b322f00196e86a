// Mailbox names: what a name is, how an argument is kept, which names are the same, beneath one another, and in what order.
#![tactic(auto)]

ghost use Rattle.std.specs.Prelude.{◌≡◌, ◌&&◌, ◌≤◌, length, eqb};
ghost use Rattle.model.specs.Lists.{same};
ghost use Rattle.model.specs.Text.{same_word};
ghost use Rattle.model.specs.Names.{valid, fold, inbox, leads, beneath, subtree, subtree_one, before, parent_of};
ghost use Rattle.model.specs.Listing.{lend_name};
ghost use Rattle.model.specs.Lawful.{zeros};
ghost use Rattle.names.specs.Kept.{kept_name, name_by};
ghost use Rattle.names.specs.Once.{text_ok};

use model::LentName;

// Two names are the same, octet for octet.
pub fn same(a: &[u8], b: &[u8]) -> bool
    ensures { result ≡ same a.now b.now }
{
    a == b
}

// The name begins with top and `/`.
#[tactic(auto, using(crate::proofs::Laws::leads_behind, crate::proofs::Laws::leads_apart))]
fn leads(top: &[u8], name: &[u8]) -> bool
    ensures { result ≡ leads top.now name.now }
{
    match name.strip_prefix(top) {
        Some(rest) => rest.starts_with(b"/"),
        None => false,
    }
}

// The name lies beneath top. Beneath the empty name, which an argument gives that is not valid, lies nothing.
pub fn beneath(top: &[u8], name: &[u8]) -> bool
    ensures { result ≡ beneath top.now name.now }
{
    !top.is_empty() && leads(top, name)
}

// The name is top, or lies beneath it.
pub fn in_subtree(top: &[u8], name: &[u8]) -> bool
    ensures { result ≡ subtree top.now name.now }
{
    same(top, name) || beneath(top, name)
}

// The name is top, or lies directly beneath it.
#[tactic(auto, using(crate::proofs::Laws::beneath_longer))]
pub fn in_one_level(top: &[u8], name: &[u8]) -> bool
    ensures { result ≡ subtree_one top.now name.now }
{
    same(top, name) || (beneath(top, name) && !name[top.len() + 1..].contains(&b'/'))
}

// In octet order a comes before b, or is b.
pub fn before(a: &[u8], b: &[u8]) -> bool
    ensures { result ≡ before a.now b.now }
{
    a <= b
}

// Two words are the same, whatever the case of their letters.
pub fn same_word(a: &[u8], b: &[u8]) -> bool
    ensures { result ≡ same_word a.now b.now }
{
    a.eq_ignore_ascii_case(b)
}

// The name is INBOX, in any case.
pub fn is_inbox(name: &[u8]) -> bool
    ensures { result ≡ same_word name.now inbox }
{
    same_word(name, b"INBOX")
}

// Two slashes, one behind the other.
fn both_slashes(b: u8, last: u8) -> bool
    ensures { result ≡ (eqb b 47 && eqb last 47) }
{
    b == b'/' && last == b'/'
}

// Every octet may stand in a name, and no part is empty: one pass.
fn text_ok(name: &[u8]) -> bool
    ensures { result ≡ text_ok name.now }
{
    let mut last = b'/';
    for &b in name {
        if !(0x20..=0x7e).contains(&b) {
            return false;
        }
        if both_slashes(b, last) {
            return false;
        }
        last = b;
    }
    last != b'/'
}

// A valid name: 1 to 64 octets that may stand in a name, in parts of one or more.
pub fn is_valid(name: &[u8]) -> bool
    ensures { result ≡ valid name.now }
{
    1 <= name.len() && name.len() <= 64 && text_ok(name)
}

// INBOX is in capitals; any other name is as it is.
pub fn is_folded(name: &[u8]) -> bool
    ensures { result ≡ same (fold name.now) name.now }
{
    !is_inbox(name) || same(b"INBOX", name)
}

// Every octet is zero, as those behind a name are: their sum is.
pub fn all_zero(s: &[u8]) -> bool
    requires { length s.now ≤ 65536 }
    ensures { result ≡ zeros s.now }
{
    s.iter().map(|b| u64::from(*b)).sum::<u64>() == 0
}

// A name at the front of 64 octets, zeros behind it.
fn kept(name: &[u8]) -> LentName
    requires { length name.now ≤ 64 }
    ensures { result ≡ kept_name name.now }
{
    let mut octets = [0; 64];
    octets[..name.len()].copy_from_slice(name);
    LentName {
        len: name.len() as u8,
        octets,
    }
}

// A mailbox argument as it is kept: the name that it gives, INBOX in any case as INBOX, or the empty one where it is not valid.
pub fn stored(name: &[u8]) -> LentName
    ensures { result ≡ lend_name name.now }
{
    if !is_valid(name) {
        kept(b"")
    } else if is_inbox(name) {
        kept(b"INBOX")
    } else {
        kept(name)
    }
}

// The direct parent's name as it is kept, INBOX in any case as INBOX; the empty one where there is none.
pub fn parent_of(name: &[u8]) -> LentName
    ensures { result ≡ kept_name (parent_of name.now) }
{
    match name.iter().rposition(|b| *b == b'/') {
        Some(end) => stored(&name[..end]),
        None => stored(b""),
    }
}

// The first n octets are a valid name that is folded, and zeros stand behind it.
pub fn is_kept(octets: &[u8], n: usize) -> bool
    requires { (n ≤ length octets.now) × (length octets.now ≤ 65536) }
    ensures { result ≡ name_by n octets.now }
{
    let name = &octets[..n];
    is_valid(name) && is_folded(name) && all_zero(&octets[n..])
}
