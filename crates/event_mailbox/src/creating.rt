// `MB`: a mailbox is new. Its row is made from the record's fields.
ghost use Rattle.std.specs.Prelude.{◌≡◌, length};
ghost use Rattle.model.specs.Names.{argument};
ghost use Rattle.model.specs.Events.{new_box};
ghost use Rattle.line_put.specs.Heard.{Leaves};
ghost use Rattle.laws.specs.Room.{Room};
ghost use Rattle.event_mailbox.specs.Creating.{create_after};

use crate::Changed;
use model::{Mailbox, Session};

// The row of a new mailbox; INBOX in any case is INBOX.
pub fn new_box(id: u16, attributes: u8, uidvalidity: u32, counter: u64, name: &[u8]) -> Mailbox
    ensures { result ≡ new_box id attributes uidvalidity counter (argument name.now) }
{
    let kept = names::stored(name);
    let octets = kept.octets;
    Mailbox {
        id,
        attributes,
        namelen: kept.len,
        uidvalidity,
        uidnext: 1,
        counterlow: table_mailboxes::low_half(counter),
        counterhigh: table_mailboxes::high_half(counter),
        name: octets,
    }
}

// Row x is new, and y stands for its parent.
pub fn create(
    queue: &mut [u8],
    s: &Session,
    filled: usize,
    x: Mailbox,
    y: &Mailbox,
    quiet: u8,
) -> Changed
    requires { Room (length queue.old) filled s.now }
    ensures { Leaves (create_after queue.old s.now filled y.now x quiet) result.row queue.new result.session result.filled }
{
    let mark = crate::mark_of(&x);
    let kept = crate::tell_change(queue, s, filled, mark, &x, y, quiet);
    Changed {
        row: x,
        session: kept.session,
        filled: kept.filled,
    }
}
