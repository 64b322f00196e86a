// Whom a group matches, whatever it asks: by name and attributes, and the selected mailbox by a selected group.
ghost use Rattle.std.specs.Prelude.{◌≡◌, not, ◌&&◌, eqb};
ghost use Rattle.model.specs.Lists.{anyb};
ghost use Rattle.model.specs.Memory.{name_of};
ghost use Rattle.model.specs.Groups.{groups_of, is_selecting};
ghost use Rattle.model.specs.declared.Group.{Group};
ghost use Rattle.match_groups.specs.Asking.{matched_by};

use model::{Group, Mailbox, Session};

// Whether a group matches a mailbox, the selected one if `here` says so.
fn matches(s: &Session, g: Group, name: &[u8], a: u8, here: bool) -> bool
    ensures { result ≡ matched_by s.now name.now a here g }
{
    (crate::selects(g.selector, true) && here) || crate::is_met(s, g.selector, name, a)
}

// Whether a group of the session does.
fn is_matched(s: &Session, name: &[u8], a: u8, here: bool) -> bool
    ensures { result ≡ anyb (matched_by s.now name.now a here) (groups_of s.now) }
{
    crate::groups(s).iter().any(|g| matches(s, lawful_session::group_of(*g), name, a, here))
}

// Whether an id is that of the selected mailbox; 0 is no id.
pub fn is_selected(s: &Session, id: u16) -> bool
    ensures { result ≡ (not (eqb id 0) && eqb id s.now.selected) }
{
    id != 0 && id == s.selected
}

// Whether a group matches a row.
pub fn is_matched_of(s: &Session, x: &Mailbox) -> bool
    ensures { result ≡ anyb (matched_by s.now (name_of x.now) x.now.attributes (not (eqb x.now.id 0) && eqb x.now.id s.now.selected)) (groups_of s.now) }
{
    is_matched(
        s,
        table_mailboxes::row::name(x),
        x.attributes,
        is_selected(s, x.id),
    )
}

// Whether a selected group stands.
pub fn has_selected(s: &Session) -> bool
    ensures { result ≡ anyb (λ (g : Group). is_selecting g.selector) (groups_of s.now) }
{
    crate::groups(s).iter().any(|g| crate::selects(lawful_session::group_of(*g).selector, true))
}
