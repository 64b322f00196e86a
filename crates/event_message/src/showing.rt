// What a FETCH of a new message shows: the attributes that the selected group asks for.
ghost use Rattle.std.specs.Prelude.{◌≡◌};
ghost use Rattle.model.specs.Lists.{anyb};
ghost use Rattle.model.specs.Groups.{groups_of};
ghost use Rattle.event_message.specs.Shown.{part, part_of, shows_of};

use line_fetch::Shows;
use model::{Group, Selector, Session};

// Whether attributes hold part k: 0 is anything at all, then UID, FLAGS and RFC822.SIZE.
fn holds(attributes: u8, k: u8) -> bool
    ensures { result ≡ part k attributes }
{
    if k == 0 {
        attributes != 0
    } else {
        table_mailboxes::has(attributes, k - 1)
    }
}

// Whether a group is about the selected mailbox and asks for part k.
fn has_part(g: Group, k: u8) -> bool
    ensures { result ≡ part_of k g }
{
    matches!(g.selector, Selector::Selected | Selector::Delayed) && holds(g.attributes, k)
}

// Whether one of the session's does.
fn any_part(s: &Session, k: u8) -> bool
    ensures { result ≡ anyb (part_of k) (groups_of s.now) }
{
    match_groups::groups(s)
        .iter()
        .any(|g| has_part(lawful_session::group_of(*g), k))
}

// What is shown.
pub fn shows(s: &Session) -> Shows
    ensures { result ≡ shows_of s.now }
{
    Shows {
        any: any_part(s, 0),
        uid: any_part(s, 1),
        flags: any_part(s, 2),
        size: any_part(s, 3),
    }
}
