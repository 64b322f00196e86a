// A row is made of the columns, each number in its own type again.
ghost use Rattle.std.specs.Prelude.{◌≡◌, List, ◌<◌, get_or};
ghost use Rattle.model.specs.declared.Mailbox.{Mailbox};
ghost use Rattle.model.specs.Memory.{no_mailbox};
ghost use Rattle.table_mailboxes.specs.Columns.{block};
ghost use Rattle.lent_rows.specs.Standing.{Stands};

use model::Mailbox;
use table_mailboxes::Columns;

// An id of a column, in its own type.
fn narrow_id(x: u64) -> u16
    ensures { x < 65536 → result ≡ x }
{
    u16::try_from(x).unwrap_or(0)
}

// A UIDNEXT or UIDVALIDITY of a column, in its own type.
fn narrow_number(x: u64) -> u32
    ensures { x < 4294967296 → result ≡ x }
{
    u32::try_from(x).unwrap_or(0)
}

// The 64 octets of the name of row k.
fn octets_of(names: &[u8; 4096], k: usize) -> [u8; 64]
    requires { k < 64 }
    ensures { result ≡ block names.now k }
{
    let mut name = [0; 64];
    name.copy_from_slice(&names[64 * k..64 * k + 64]);
    name
}

// Row k of those in use, or none.
pub fn row_at(cols: &Columns, k: usize) -> Mailbox
    ensures { (l : List Mailbox) → Stands l cols.now → result ≡ get_or l k no_mailbox }
{
    if k >= cols.n {
        return table_mailboxes::vacant();
    }
    let name = octets_of(&cols.names, k);
    Mailbox {
        id: narrow_id(cols.ids[k]),
        attributes: cols.attributes[k],
        namelen: cols.lens[k],
        uidvalidity: narrow_number(cols.validities[k]),
        uidnext: narrow_number(cols.nexts[k]),
        counterlow: table_mailboxes::low_half(cols.counters[k]),
        counterhigh: table_mailboxes::high_half(cols.counters[k]),
        name,
    }
}
