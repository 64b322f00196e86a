// Which mailboxes an ESEARCH searches: whom a source admits, by its scope, its names and the mailbox's attributes, and whom one of several does.
#![tactic(auto)]

ghost use Rattle.std.specs.Prelude.{◌≡◌, ◌≤◌, length, take};
ghost use Rattle.model.specs.Lists.{anyb};
ghost use Rattle.model.specs.Groups.{lent_name};
ghost use Rattle.match_sources.specs.Admitting.{admits_by, meant, named_in, admits_in, searched_by};
ghost use Rattle.match_sources.specs.Picking.{selected_by, Noted};

use model::LentName;
use read_filters::{Kept, Scope};
use read_sources::{Listed, Source};
use table_mailboxes::Columns;

// A scope admits a mailbox with these attributes; `named` says whether one of its names fits, where it has names.
fn admits(scope: Scope, attributes: u8, selected: bool, named: bool) -> bool
    ensures { result ≡ admits_by scope attributes selected named }
{
    let selectable = table_mailboxes::has(attributes, 0);
    let personal = table_mailboxes::has(attributes, 1);
    let delivered = table_mailboxes::has(attributes, 2);
    let subscribed = table_mailboxes::has(attributes, 3);
    let list = table_mailboxes::has(attributes, 4);
    match scope {
        Scope::Selected => selected,
        Scope::Delayed => false,
        Scope::Inboxes => list && selectable && personal && delivered,
        Scope::Personal => list && selectable && personal,
        Scope::Subscribed => list && subscribed,
        Scope::Subtree | Scope::SubtreeOne => list && selectable && named,
        Scope::Mailboxes => named,
    }
}

// A name that is kept takes this one, as its scope has it.
fn is_meant(x: &LentName, scope: Scope, name: &[u8]) -> bool
    ensures { result ≡ meant scope (lent_name x.now) name.now }
{
    let kept = table_mailboxes::row::kept_name(x);
    match scope {
        Scope::Subtree => names::in_subtree(kept, name),
        Scope::SubtreeOne => names::in_one_level(kept, name),
        _ => names::same(kept, name),
    }
}

// One of a source's names takes this one.
fn is_named(kept: &Kept, one: Source, name: &[u8]) -> bool
    ensures { result ≡ named_in kept.now.names name.now one }
{
    kept.names
        .iter()
        .skip(one.first as usize)
        .take(one.count as usize)
        .any(|x| is_meant(x, one.scope, name))
}

// A source admits the mailbox with this name and these attributes; `selected` says whether it is the selected one.
fn is_admitted(kept: &Kept, one: Source, attributes: u8, name: &[u8], selected: bool) -> bool
    ensures { result ≡ admits_in kept.now.names attributes name.now selected one }
{
    admits(one.scope, attributes, selected, is_named(kept, one, name))
}

// A mailbox is searched: it may be read, and one of the sources admits it.
pub fn is_searched(listed: &Listed, attributes: u8, name: &[u8], selected: bool) -> bool
    ensures { result ≡ searched_by listed.now attributes name.now selected }
{
    table_mailboxes::has(attributes, 5)
        && listed.sources.iter().take(listed.count as usize).any(|one| is_admitted(
            &listed.kept,
            *one,
            attributes,
            name,
            selected,
        ))
}

// The mailbox with this id is the selected one.
pub fn is_selected(id: u64, selected: u64) -> bool
    ensures { result ≡ selected_by selected id }
{
    id != 0 && id == selected
}

// A note for each row, 1 or 0, whether it is searched.
pub fn pick(listed: &Listed, selected: u64, cols: &Columns, picked: &mut [u8])
    requires { cols.now.n ≤ length picked.old }
    ensures { Noted listed.now selected cols.now.ids cols.now.attributes cols.now.lens cols.now.names cols.now.n picked.new }
{
    for k in 0..cols.n {
        let here = is_selected(cols.ids[k], selected);
        picked[k] = u8::from(is_searched(listed, cols.attributes[k], cols.name(k), here));
    }
}
