// `RN`: a mailbox gets another name. It is told to groups that its old name or its new one meets.
ghost use Rattle.std.specs.Prelude.{◌≡◌, true, ◌-◌, ◌≤◌, length};
ghost use Rattle.model.specs.Memory.{name_of, with_name};
ghost use Rattle.model.specs.Names.{argument};
ghost use Rattle.model.specs.Lines.{renamed, render};
ghost use Rattle.line_put.specs.Says.{Says};
ghost use Rattle.line_mailbox.specs.Texts.{mark_of};
ghost use Rattle.line_put.specs.Heard.{Hears, Leaves, heard};
ghost use Rattle.laws.specs.Room.{Room};
ghost use Rattle.event_mailbox.specs.Renaming.{rename_told, rename_after};

use crate::Changed;
use line_mailbox::Renamed;
use model::{Mailbox, Session};
use table_mailboxes::row;

// The row with a name; INBOX in any case is INBOX.
pub fn with_name(x: &Mailbox, name: &[u8]) -> Mailbox
    ensures { result ≡ with_name x.now (argument name.now) }
{
    let kept = names::stored(name);
    let octets = kept.octets;
    Mailbox {
        namelen: kept.len,
        name: octets,
        ..*x
    }
}

// Whether somebody is told that row x becomes y: asked by the old name or by the new one.
fn rename_told(s: &Session, x: &Mailbox, y: &Mailbox, quiet: u8) -> bool
    ensures { result ≡ rename_told s.now x.now y.now quiet }
{
    quiet == 0
        && row::has_rights(x.attributes)
        && (match_groups::is_asked_of(s, x, 3) || match_groups::is_asked_of(s, y, 3))
}

// Row x gets a name.
pub fn rename(
    queue: &mut [u8],
    s: &Session,
    filled: usize,
    x: &Mailbox,
    name: &[u8],
    quiet: u8,
) -> Changed
    requires { Room (length queue.old) filled s.now }
    ensures { Leaves (rename_after queue.old s.now filled x.now (argument name.now) quiet) result.row queue.new result.session result.filled }
{
    let y = with_name(x, name);
    let on = rename_told(s, x, &y, quiet);
    let line = Renamed {
        mark: crate::mark_of(x),
        new: row::name(&y),
        old: row::name(x),
    };
    let kept = line_put::tell(queue, s, filled, on, &line);
    Changed {
        row: y,
        session: kept.session,
        filled: kept.filled,
    }
}
