// Who is told: the groups of a session against a mailbox's name and attributes.
#![tactic(auto)]

pub mod matched;

ghost use Rattle.std.specs.Prelude.{◌≡◌, ◌&&◌, ◌≤◌, length};
ghost use Rattle.model.specs.Lists.{anyb};
ghost use Rattle.model.specs.Names.{Name};
ghost use Rattle.model.specs.Memory.{name_of};
ghost use Rattle.model.specs.Groups.{number, groups_of, lent_name, names_in, meets, asked, asked_of, selected_asks, immediate_asks};
ghost use Rattle.model.specs.Lawful.{used_groups};
ghost use Rattle.model.specs.Selectors.{taken_by_inboxes, taken_by_personal, taken_by_subtree};
ghost use Rattle.model.specs.declared.Group.{Group};
ghost use Rattle.match_groups.specs.Asking.{hit, asks_bit, asks_in, selecting, standing, selected_in, numbered, lent_names_in};

use model::{Group, LentGroup, LentName, Mailbox, NameRange, Selector, Session};

// ---- what is in use of a session

// The groups in use.
pub fn groups(s: &Session) -> &[LentGroup]
    ensures { (result.now ≡ used_groups s.now) × (length result.now ≤ 8) }
{
    let all = &s.groups[..];
    &all[..usize::from(s.groupcount).min(all.len())]
}

// The names of a range, those of them that there are.
pub fn range_names(s: &Session, range: NameRange) -> &[LentName]
    ensures { result.now ≡ lent_names_in s.now range }
{
    let first = usize::from(range.first);
    let end = (first + usize::from(range.count)).min(16);
    &s.names[first.min(end)..end]
}

// Whether a kept name is the name, or has it in its subtree.
fn hits(x: &LentName, name: &[u8], deep: bool) -> bool
    ensures { result ≡ hit deep (lent_name x.now) name.now }
{
    let kept = table_mailboxes::row::kept_name(x);
    if deep {
        names::in_subtree(kept, name)
    } else {
        kept == name
    }
}

// Whether a name of the range is the name, or has it in its subtree.
fn any_name(s: &Session, range: NameRange, name: &[u8], deep: bool) -> bool
    ensures { result ≡ anyb (λ (t : Name). hit deep t name.now) (names_in s.now range) }
{
    range_names(s, range).iter().any(|x| hits(x, name, deep))
}

// ---- whom a selector takes

// Selectable, personal and for delivery.
pub fn takes_inboxes(a: u8) -> bool
    ensures { result ≡ taken_by_inboxes a }
{
    takes_personal(a) && table_mailboxes::has(a, 2)
}

// Selectable and personal.
pub fn takes_personal(a: u8) -> bool
    ensures { result ≡ taken_by_personal a }
{
    table_mailboxes::has(a, 0) && table_mailboxes::has(a, 1)
}

// Selectable, and in the subtree of a name of the range.
fn takes_subtree(s: &Session, range: NameRange, name: &[u8], a: u8) -> bool
    ensures { result ≡ taken_by_subtree (λ (t : Name). t) (names_in s.now range) name.now a }
{
    table_mailboxes::has(a, 0) && any_name(s, range, name, true)
}

// Whether a selector is about the mailbox with this name and these attributes.
fn is_met(s: &Session, selector: Selector, name: &[u8], a: u8) -> bool
    ensures { result ≡ meets s.now name.now a selector }
{
    match selector {
        Selector::Selected | Selector::Delayed => false,
        Selector::Inboxes => takes_inboxes(a),
        Selector::Personal => takes_personal(a),
        Selector::Subscribed => table_mailboxes::has(a, 3),
        Selector::Subtree(range) => takes_subtree(s, range, name, a),
        Selector::Mailboxes(range) => any_name(s, range, name, false),
    }
}

// Whether a group meets it and asks for event k.
fn asks(s: &Session, g: Group, name: &[u8], a: u8, k: u8) -> bool
    ensures { result ≡ (meets s.now name.now a g.selector && asks_bit k g) }
{
    is_met(s, g.selector, name, a) && table_mailboxes::has(g.events, k)
}

// The number of the first group, from 1, that meets the mailbox and asks for event k.
pub fn asking(s: &Session, name: &[u8], a: u8, k: u8) -> Option<usize>
    ensures { result ≡ numbered (number (asks_in s.now name.now a k) (groups_of s.now)) }
{
    let i = groups(s)
        .iter()
        .position(|g| asks(s, lawful_session::group_of(*g), name, a, k))?;
    Some(i + 1)
}

// The same of a row.
pub fn asking_of(s: &Session, x: &Mailbox, k: u8) -> Option<usize>
    ensures { result ≡ numbered (number (asks_in s.now (name_of x.now) x.now.attributes k) (groups_of s.now)) }
{
    asking(s, table_mailboxes::row::name(x), x.attributes, k)
}

// Whether a group asks for event k of the mailbox with this name and these attributes.
pub fn is_asked(s: &Session, name: &[u8], a: u8, k: u8) -> bool
    ensures { result ≡ asked s.now name.now a (asks_bit k) }
{
    groups(s)
        .iter()
        .any(|g| asks(s, lawful_session::group_of(*g), name, a, k))
}

// The same of a row.
pub fn is_asked_of(s: &Session, x: &Mailbox, k: u8) -> bool
    ensures { result ≡ asked_of s.now x.now (asks_bit k) }
{
    is_asked(s, table_mailboxes::row::name(x), x.attributes, k)
}

// ---- the selected group

// Whether a selector is about the selected mailbox; a delayed one if `delayed` says so.
fn selects(selector: Selector, delayed: bool) -> bool
    ensures { result ≡ selecting delayed selector }
{
    match selector {
        Selector::Selected => true,
        Selector::Delayed => delayed,
        _ => false,
    }
}

// Whether such a group asks for event k.
fn stands(g: Group, delayed: bool, k: u8) -> bool
    ensures { result ≡ standing delayed k g }
{
    selects(g.selector, delayed) && table_mailboxes::has(g.events, k)
}

// Whether one of the session's does.
fn any_stands(s: &Session, delayed: bool, k: u8) -> bool
    ensures { result ≡ anyb (standing delayed k) (groups_of s.now) }
{
    groups(s)
        .iter()
        .any(|g| stands(lawful_session::group_of(*g), delayed, k))
}

// The number of the selected group, from 1, that asks for event k, at once or delayed.
pub fn selected_number(s: &Session, k: u8) -> Option<usize>
    ensures { result ≡ numbered (number (selected_in k) (groups_of s.now)) }
{
    let at = groups(s)
        .iter()
        .position(|g| stands(lawful_session::group_of(*g), true, k))?;
    Some(at + 1)
}

// Whether there is one.
pub fn selected_asks(s: &Session, k: u8) -> bool
    ensures { result ≡ selected_asks s.now (asks_bit k) }
{
    any_stands(s, true, k)
}

// Whether there is one that asks at once.
pub fn immediate_asks(s: &Session, k: u8) -> bool
    ensures { result ≡ immediate_asks s.now (asks_bit k) }
{
    any_stands(s, false, k)
}
