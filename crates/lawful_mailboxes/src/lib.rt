// The mailboxes, each by itself: its numbers are in their ranges and its name is in order.
#![tactic(auto)]

mod naming;

ghost use Rattle.std.specs.Prelude.{◌≡◌, List, ◌<◌, slice_index};
ghost use Rattle.model.specs.Lists.{allb};
ghost use Rattle.model.specs.Lawful.{mailbox_ok};
ghost use Rattle.model.specs.declared.Mailbox.{Mailbox};
ghost use Rattle.table_mailboxes.specs.Whole.{LaidIn};
ghost use Rattle.lawful_mailboxes.specs.Fields.{numbers_by, row_in};

use naming::{name_ok, name_seen};
use table_mailboxes::Columns;

// The numbers of row k are in their ranges.
fn numbers_ok(cols: &Columns, k: usize) -> bool
    requires { k < 64 }
    ensures { let c = cols.now in result ≡ numbers_by (slice_index c.ids k) (slice_index c.attributes k) (slice_index c.lens k) (slice_index c.validities k) (slice_index c.nexts k) (slice_index c.counters k) }
{
    1 <= cols.ids[k]
        && cols.attributes[k] <= 63
        && 1 <= cols.validities[k]
        && 1 <= cols.nexts[k]
        && 1 <= cols.counters[k]
        && cols.counters[k] <= 9223372036854775807
        && cols.lens[k] <= 64
}

// Row k is in order: its name is seen to be, or tested.
fn row_ok(cols: &Columns, k: usize) -> bool
    requires { k < 64 }
    ensures { result ≡ mailbox_ok (row_in cols.now k) }
{
    let len = cols.lens[k];
    numbers_ok(cols, k) && (name_seen(&cols.names, k, len) || name_ok(&cols.names, k, len))
}

// Every mailbox is in order.
pub fn rows_ok(cols: &Columns) -> bool
    ensures { (l : List Mailbox) → LaidIn l cols.now → result ≡ allb mailbox_ok l }
{
    for k in 0..cols.n {
        if !row_ok(cols, k) {
            return false;
        }
    }
    true
}
