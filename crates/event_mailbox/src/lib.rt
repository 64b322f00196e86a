// The records about mailboxes, `MB DL RN SB RT`: what is stored, who is told, and the line or the overflow line. This file has what they
// share: a row changes or is new, and a mailbox that appears or goes is told of with its parent.
#![tactic(auto)]

pub mod creating;
pub mod deleting;
pub mod renaming;
pub mod rights;
pub mod subscriptions;

ghost use Rattle.std.specs.Prelude.{◌≡◌, length};
ghost use Rattle.model.specs.Memory.{with_attributes};
ghost use Rattle.model.specs.Events.{list_mark, parent_mark};
ghost use Rattle.laws.specs.Room.{Room};
ghost use Rattle.line_mailbox.specs.Texts.{mark_of};
ghost use Rattle.line_put.specs.Heard.{Hears};
ghost use Rattle.event_mailbox.specs.Appearing.{may_hear, own_told, upper_told, both_heard};

use line_mailbox::{ListLine, Mark, Pair};
use line_put::Kept;
use model::{Mailbox, Session};
use table_mailboxes::row;

// A row that has changed or is new, and what else is left.
#[derive(Clone, Copy)]
pub struct Changed {
    pub row: Mailbox,
    pub session: Session,
    pub filled: u64,
}

// ---- a mailbox that appears or goes, and its parent
// Row x, listed with this mark, appears or goes, and y stands for its parent: the lines of both, each if somebody is told of it.
pub fn tell_change<'a>(
    queue: &mut [u8],
    s: &Session,
    filled: usize,
    mark: Mark,
    x: &'a Mailbox,
    y: &'a Mailbox,
    quiet: u8,
) -> Kept
    requires { Room (length queue.old) filled s.now }
    ensures { Hears (both_heard queue.old s.now filled y.now x.now quiet (mark_of mark)) queue.new result.session result.filled }
{
    let own = own_told(s, x, quiet);
    let upper = upper_told(s, y, x, quiet);
    let lines = Pair {
        own,
        line: ListLine {
            mark,
            name: row::name(x),
        },
        upper,
        parent: ListLine {
            mark: parent_mark(y),
            name: row::name(y),
        },
    };
    line_put::tell(queue, s, filled, own || upper, &lines)
}

// ---- who is told
// Whether anybody may hear that row x appears or goes: the record is not quiet, and both rights are held.
fn may_hear(x: &Mailbox, quiet: u8) -> bool
    ensures { result ≡ may_hear x.now quiet }
{
    quiet == 0 && row::has_rights(x.attributes)
}

// Whether somebody is told of row x.
fn own_told(s: &Session, x: &Mailbox, quiet: u8) -> bool
    ensures { result ≡ own_told s.now x.now quiet }
{
    may_hear(x, quiet) && match_groups::is_asked_of(s, x, 3)
}

// Whether somebody is told of its parent, for which y stands.
fn upper_told(s: &Session, y: &Mailbox, x: &Mailbox, quiet: u8) -> bool
    ensures { result ≡ upper_told s.now y.now x.now quiet }
{
    may_hear(x, quiet) && match_parent::is_asked(s, y)
}

// How a mailbox that stands is listed: one that cannot be selected is marked.
pub fn mark_of(x: &Mailbox) -> Mark
    ensures { mark_of result ≡ list_mark x.now }
{
    if table_mailboxes::has(x.attributes, 0) {
        Mark::Plain
    } else {
        Mark::Noselect
    }
}

// How a parent is listed: one that may not be is as one that does not exist.
fn parent_mark(y: &Mailbox) -> Mark
    ensures { mark_of result ≡ parent_mark y.now }
{
    if table_mailboxes::has(y.attributes, 4) {
        mark_of(y)
    } else {
        Mark::NonExistent
    }
}

// The row with other attributes.
pub fn with_attributes(x: Mailbox, attributes: u8) -> Mailbox
    ensures { result ≡ with_attributes x attributes }
{
    Mailbox { attributes, ..x }
}
