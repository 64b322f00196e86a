// Rows of the table, by value: the one with an id, and the one that stands for a parent.
ghost use Rattle.std.specs.Prelude.{◌≡◌, cond, Some, None, get_or};
ghost use Rattle.model.specs.Lists.{filterb};
ghost use Rattle.model.specs.Names.{Name, has_parent};
ghost use Rattle.model.specs.Memory.{name_of, the_mailbox};
ghost use Rattle.model.specs.Events.{stand_in, is_listed, parent_row};
ghost use Rattle.names.specs.Kept.{kept_name};

use model::{LentName, Mailbox};
use table_mailboxes::row;

// The first row with the id, or a vacant one.
#[tactic(auto, unfolding(model::specs::Memory::place))]
pub fn row_of(rows: &[Mailbox], id: u64) -> Mailbox
    ensures { result ≡ the_mailbox id rows.now }
{
    for x in rows {
        if u64::from(x.id) == id {
            return *x;
        }
    }
    table_mailboxes::vacant()
}

// Whether a row may be listed and has the name.
fn is_listed(x: &Mailbox, name: &[u8]) -> bool
    ensures { result ≡ is_listed name.now x.now }
{
    table_mailboxes::has(x.attributes, 4) && row::name(x) == name
}

// The first row that may be listed and has the name, or another row.
fn listed_row(rows: &[Mailbox], name: &[u8], other: Mailbox) -> Mailbox
    ensures { result ≡ get_or (filterb (is_listed name.now) rows.now) 0 other }
{
    for x in rows {
        if is_listed(x, name) {
            return *x;
        }
    }
    other
}

// What stands for a parent that is not listed, by its name as it is kept.
fn stand_in(kept: &LentName) -> Mailbox
    ensures { (p : Name) → kept.now ≡ kept_name p → result ≡ stand_in p }
{
    Mailbox {
        attributes: 1,
        namelen: kept.len,
        uidnext: 1,
        name: kept.octets,
        ..table_mailboxes::vacant()
    }
}

// The row that stands for the parent of row x, if the name has one.
pub fn parent(rows: &[Mailbox], x: &Mailbox) -> Option<Mailbox>
    ensures { result ≡ cond (has_parent (name_of x.now)) (Some (parent_row rows.now x.now)) None }
{
    let kept = names::parent_of(row::name(x));
    if kept.len == 0 {
        return None;
    }
    Some(listed_row(rows, row::kept_name(&kept), stand_in(&kept)))
}
