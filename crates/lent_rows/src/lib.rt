// The mailbox table as the host lends it, a slice of rows: the rows in use are searched, or laid out by columns, and rows are put and taken out.
#![tactic(auto)]

pub mod columns;

ghost use Rattle.std.specs.Prelude.{◌≡◌, ◌<◌, ◌≤◌, length, take, set};
ghost use Rattle.model.specs.Memory.{place};
ghost use Rattle.model.specs.declared.Mailbox.{Mailbox};
ghost use Rattle.table_mailboxes.specs.Shift.{closed};
ghost use Rattle.lent_rows.specs.Rows.{place_named};
ghost use Rattle.table_mailboxes.specs.Whole.{Put};
ghost use Rattle.lent_rows.specs.Standing.{Narrow, Stands};

use model::Mailbox;
use table_mailboxes::{Columns, row};

// ---- what is read

// The rows in use, as many as there are, and 64 at the most.
pub fn in_use(rows: &[Mailbox], used: u64) -> &[Mailbox]
    ensures rows { result.now ≡ take used (take 64 rows.now) }
    ensures few { length result.now ≤ 64 }
{
    let most = used.min(64) as usize;
    &rows[..most.min(rows.len())]
}

// The numbers of a row, which comes by value, are those of their types. Nothing is done.
fn is_narrow(x: Mailbox)
    ensures { Narrow x }
{}

// Row k becomes x.
fn put_row(cols: &mut Columns, k: usize, x: &Mailbox)
    requires { k < 64 }
    ensures put { Put k x.now cols.old cols.new }
    ensures narrow { Narrow x.now }
{
    is_narrow(*x);
    cols.put(k, x);
}

// The rows in use, by columns. These are filled where they stand: as a result they would be copied twice, 6 KB each time.
pub fn lay(rows: &[Mailbox], used: u64, cols: &mut Columns)
    ensures { Stands (take used (take 64 rows.now)) cols.new }
{
    let taken = in_use(rows, used);
    cols.n = taken.len();
    cols.nexts.fill(0);
    for (k, x) in taken.iter().enumerate() {
        put_row(cols, k, x);
    }
}

// The place of the first row with the id, or how many there are.
pub fn find_id(rows: &[Mailbox], id: u16) -> usize
    ensures { result ≡ place id rows.now }
{
    rows.iter().position(|x| x.id == id).unwrap_or(rows.len())
}

// The place of the first row with the name, or how many there are.
pub fn find_name(rows: &[Mailbox], name: &[u8]) -> usize
    ensures { result ≡ place_named name.now rows.now }
{
    rows.iter()
        .position(|x| row::name(x) == name)
        .unwrap_or(rows.len())
}

// ---- what is written

// Row k becomes x; where there is none, nothing changes.
pub fn set_row(rows: &mut [Mailbox], k: usize, x: Mailbox)
    ensures { rows.new ≡ set rows.old k x }
{
    if k < rows.len() {
        rows[k] = x;
    }
}

// Row `at` of those in use is taken out: those behind it move up, and the last becomes zeros. Where more rows than there are would be
// left, all stay as they are: no row is in use, or more are than there are and `at` is behind these.
pub fn take_out(rows: &mut [Mailbox], at: usize, used: u64)
    ensures taken { length (closed at used rows.old) ≤ length rows.old → rows.new ≡ closed at used rows.old }
    ensures kept { length rows.old < length (closed at used rows.old) → rows.new ≡ rows.old }
{
    let n = used.min(rows.len() as u64) as usize;
    if n == 0 || (at >= rows.len() && used > rows.len() as u64) {
        return;
    }
    let last = n - 1;
    let at = at.min(last);
    rows.copy_within(at + 1..n, at);
    rows[last] = table_mailboxes::vacant();
}
