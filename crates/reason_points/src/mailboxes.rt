// The points of records about mailboxes, `MB DL RN SB RT`.
ghost use Rattle.std.specs.Prelude.{◌≡◌, ◌≤◌, Some, eqb, not, true};
ghost use Rattle.model.specs.Names.{argument};
ghost use Rattle.model.specs.Memory.{with_name};
ghost use Rattle.model.specs.Events.{new_box};
ghost use Rattle.reason_points.specs.Showing.{lesser_of, either_of, named_of, subscribing_of, granting_of};

use crate::{Points, rows};
use model::{Mailbox, Session};
use table_mailboxes::row;

// The lesser of two groups' numbers.
fn lesser(a: Option<usize>, b: Option<usize>) -> Option<usize>
    ensures { result ≡ lesser_of a b }
{
    match (a, b) {
        (Some(m), Some(n)) => Some(m.min(n)),
        (None, other) | (other, None) => other,
    }
}

// MailboxName of row x; a group that is about the other row counts too.
fn either_of(s: &Session, quiet: bool, event: bool, x: &Mailbox, other: Option<Mailbox>) -> Points
    ensures { result ≡ either_of s.now quiet event x.now other }
{
    let met = match_groups::matched::is_matched_of(s, x);
    let asking = match_groups::asking_of(s, x, 3);
    let (met, asking) = match other {
        Some(y) => (
            met || match_groups::matched::is_matched_of(s, &y),
            lesser(asking, match_groups::asking_of(s, &y, 3)),
        ),
        None => (met, asking),
    };
    Points {
        quiet,
        event,
        rights: row::has_rights(x.attributes),
        met,
        asking,
        ..crate::none()
    }
}

// Row x appears or goes: its parent counts too.
pub fn named(s: &Session, rows: &[Mailbox], quiet: bool, event: bool, x: &Mailbox) -> Points
    ensures { result ≡ named_of s.now rows.now quiet event x.now }
{
    either_of(s, quiet, event, x, rows::parent(rows, x))
}

// A mailbox is new.
pub fn create(
    s: &Session,
    rows: &[Mailbox],
    id: u64,
    a: u64,
    quiet: bool,
    validity: u64,
    counter: u64,
    name: &[u8],
) -> Points
    requires { (id ≤ 65535) × (a ≤ 63) × (validity ≤ 4294967295) }
    ensures { result ≡ named_of s.now rows.now quiet true (new_box id a validity counter (argument name.now)) }
{
    let x = event_mailbox::creating::new_box(id as u16, a as u8, validity as u32, counter, name);
    named(s, rows, quiet, true, &x)
}

// Row x gets a name: a group that is about the old name or the new one.
pub fn rename(s: &Session, quiet: bool, x: &Mailbox, name: &[u8]) -> Points
    ensures { result ≡ either_of s.now quiet true x.now (Some (with_name x.now (argument name.now))) }
{
    let y = event_mailbox::renaming::with_name(x, name);
    either_of(s, quiet, true, x, Some(y))
}

// Row x becomes subscribed or unsubscribed, for groups as if it were subscribed.
pub fn subscribe(s: &Session, quiet: bool, x: &Mailbox, b: u64) -> Points
    requires { b ≤ 1 }
    ensures { result ≡ subscribing_of s.now quiet x.now b }
{
    let attributes = event_mailbox::subscriptions::with_subscribed(x.attributes, 1);
    let y = Mailbox { attributes, ..*x };
    Points {
        quiet,
        event: event_mailbox::subscriptions::does_differ(x.attributes, b as u8),
        rights: row::has_rights(x.attributes),
        met: match_groups::matched::is_matched_of(s, &y),
        asking: match_groups::asking_of(s, &y, 4),
        ..crate::none()
    }
}

// The rights of row x change: to lose l is to go, by the rights before, to gain it is to appear, by those after.
pub fn grant(s: &Session, rows: &[Mailbox], x: &Mailbox, rights: u64) -> Points
    requires { rights ≤ 48 }
    ensures { result ≡ granting_of s.now rows.now x.now rights }
{
    let y = event_mailbox::rights::with_rights(*x, rights as u8);
    let after = table_mailboxes::has(y.attributes, 4);
    if table_mailboxes::has(x.attributes, 4) {
        named(s, rows, false, !after, x)
    } else {
        named(s, rows, false, after, &y)
    }
}
