// `SB`: a mailbox becomes subscribed or unsubscribed. It is told if the state changed, to groups as if the mailbox were subscribed.
ghost use Rattle.std.specs.Prelude.{◌≡◌, ◌≤◌, length};
ghost use Rattle.model.specs.Events.{with_subscribed};
ghost use Rattle.line_mailbox.specs.Texts.{mark_of};
ghost use Rattle.line_put.specs.Heard.{Leaves};
ghost use Rattle.laws.specs.Room.{Room};
ghost use Rattle.event_mailbox.specs.Subscriptions.{differs, subscribe_told, subscribe_mark, subscribe_after};

use crate::Changed;
use line_mailbox::{ListLine, Mark};
use model::{Mailbox, Session};
use table_mailboxes::{has, row};

// Attributes with bit 3 as b says.
pub fn with_subscribed(a: u8, b: u8) -> u8
    requires { b ≤ 1 }
    ensures { result ≡ with_subscribed a b }
{
    a % 8 + (8 * b + 16 * (a / 16))
}

// Whether bit 3 of the attributes is not b.
pub fn does_differ(a: u8, b: u8) -> bool
    ensures { result ≡ differs a b }
{
    if has(a, 3) { b == 0 } else { b == 1 }
}

// Whether somebody is told.
fn subscribe_told(s: &Session, x: &Mailbox, b: u8, quiet: u8) -> bool
    ensures { result ≡ subscribe_told s.now x.now b quiet }
{
    let attributes = with_subscribed(x.attributes, 1);
    quiet == 0
        && does_differ(x.attributes, b)
        && row::has_rights(x.attributes)
        && match_groups::is_asked(s, row::name(x), attributes, 4)
}

// How the mailbox is listed.
fn subscribe_mark(b: u8) -> Mark
    ensures { mark_of result ≡ subscribe_mark b }
{
    if b == 1 {
        Mark::Subscribed
    } else {
        Mark::Plain
    }
}

// Row x becomes subscribed or unsubscribed.
pub fn subscribe(
    queue: &mut [u8],
    s: &Session,
    filled: usize,
    x: &Mailbox,
    b: u8,
    quiet: u8,
) -> Changed
    requires { Room (length queue.old) filled s.now × (b ≤ 1) }
    ensures { Leaves (subscribe_after queue.old s.now filled x.now b quiet) result.row queue.new result.session result.filled }
{
    let on = subscribe_told(s, x, b, quiet);
    let line = ListLine {
        mark: subscribe_mark(b),
        name: row::name(x),
    };
    let kept = line_put::tell(queue, s, filled, on, &line);
    Changed {
        row: crate::with_attributes(*x, with_subscribed(x.attributes, b)),
        session: kept.session,
        filled: kept.filled,
    }
}
