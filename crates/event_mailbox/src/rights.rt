// `RT`: the rights of a mailbox change. Gain of l is told as a create, loss of it as a delete.
ghost use Rattle.std.specs.Prelude.{◌≡◌, ◌≤◌, length};
ghost use Rattle.model.specs.Events.{with_rights};
ghost use Rattle.line_mailbox.specs.Texts.{mark_of};
ghost use Rattle.line_put.specs.Heard.{Leaves};
ghost use Rattle.laws.specs.Room.{Room};
ghost use Rattle.event_mailbox.specs.Rights.{grant_row, grant_mark, grant_after};

use crate::Changed;
use line_mailbox::Mark;
use model::{Mailbox, Session};
use table_mailboxes::has;

// The row with these rights.
pub fn with_rights(x: Mailbox, rights: u8) -> Mailbox
    requires { rights ≤ 48 }
    ensures { result ≡ with_rights x rights }
{
    crate::with_attributes(x, x.attributes % 16 + rights)
}

// The row by whose rights somebody is told that x becomes z: x, if l is lost, z, if it is gained, else one without rights.
fn grant_row(x: Mailbox, z: Mailbox) -> Mailbox
    ensures { result ≡ grant_row x z }
{
    match (has(x.attributes, 4), has(z.attributes, 4)) {
        (true, false) => x,
        (false, true) => z,
        _ => crate::with_attributes(x, 0),
    }
}

// How the mailbox is listed then.
fn grant_mark(x: &Mailbox, z: &Mailbox) -> Mark
    ensures { mark_of result ≡ grant_mark x.now z.now }
{
    if has(x.attributes, 4) {
        Mark::NonExistent
    } else {
        crate::mark_of(z)
    }
}

// The rights of row x change, and y stands for its parent.
pub fn grant(
    queue: &mut [u8],
    s: &Session,
    filled: usize,
    x: Mailbox,
    y: &Mailbox,
    rights: u8,
) -> Changed
    requires { Room (length queue.old) filled s.now × (rights ≤ 48) }
    ensures { Leaves (grant_after queue.old s.now filled y.now x rights) result.row queue.new result.session result.filled }
{
    let z = with_rights(x, rights);
    let counting = grant_row(x, z);
    let mark = grant_mark(&x, &z);
    let kept = crate::tell_change(queue, s, filled, mark, &counting, y, 0);
    Changed {
        row: z,
        session: kept.session,
        filled: kept.filled,
    }
}
