// The points of records about messages, `ME XP FL`. In the selected mailbox the selected group alone is asked.
ghost use Rattle.std.specs.Prelude.{◌≡◌, ◌≤◌, Option};
ghost use Rattle.reason_points.specs.Showing.{selected_of, elsewhere_of, arriving_of, expunging_of, reflagging_of};

use crate::Points;
use match_groups::matched;
use model::{Mailbox, Session};
use table_mailboxes::row;

// Event k of a message of row x, which is the selected mailbox; it may wait for a class of command ends.
fn in_selected(s: &Session, x: &Mailbox, k: u8, unannounced: bool, waiting: Option<u64>) -> Points
    ensures { result ≡ selected_of s.now x.now k unannounced waiting }
{
    Points {
        quiet: false,
        event: true,
        rights: row::has_rights(x.attributes),
        met: matched::has_selected(s),
        asking: match_groups::selected_number(s, k),
        unannounced,
        waiting,
    }
}

// Event k of a message of row x, which is not selected.
fn elsewhere(s: &Session, x: &Mailbox, k: u8) -> Points
    ensures { result ≡ elsewhere_of s.now x.now k }
{
    Points {
        event: true,
        rights: row::has_rights(x.attributes),
        met: matched::is_matched_of(s, x),
        asking: match_groups::asking_of(s, x, k),
        ..crate::none()
    }
}

// A new message of row x, which has the id, waits unless it is asked.
pub fn arrive(s: &Session, id: u64, x: &Mailbox) -> Points
    requires { id ≤ 65535 }
    ensures { result ≡ arriving_of s.now id x.now }
{
    if !matched::is_selected(s, id as u16) {
        return elsewhere(s, x, 0);
    }
    let waits = !match_groups::selected_asks(s, 0);
    in_selected(s, x, 0, false, if waits { Some(0) } else { None })
}

// A message of row x, which has the id, is expunged. If the client was told of it, the line waits unless it is asked at once.
pub fn expunge(s: &Session, id: u64, x: &Mailbox, uid: u64) -> Points
    requires { id ≤ 65535 }
    ensures { result ≡ expunging_of s.now id x.now uid }
{
    if !matched::is_selected(s, id as u16) {
        return elsewhere(s, x, 1);
    }
    let announced = uid < u64::from(s.told);
    let waits = announced && !match_groups::immediate_asks(s, 1);
    in_selected(s, x, 1, !announced, if waits { Some(1) } else { None })
}

// The flags of a message of row x, which has the id, change. If the client was told of it and did not ask, the line waits before the first NOTIFY.
pub fn reflag(s: &Session, id: u64, x: &Mailbox, uid: u64) -> Points
    requires { id ≤ 65535 }
    ensures { result ≡ reflagging_of s.now id x.now uid }
{
    if !matched::is_selected(s, id as u16) {
        return elsewhere(s, x, 2);
    }
    let announced = uid < u64::from(s.told);
    let waits = announced && !match_groups::selected_asks(s, 2) && s.notified == 0;
    in_selected(s, x, 2, !announced, if waits { Some(0) } else { None })
}
