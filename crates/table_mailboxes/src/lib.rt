// The mailbox table: one load lays the rows out by columns, numbers side by side and one flat run of names, and whoever reads
// a row reads the columns; a row is put in its place or behind the last, or taken out, in the array itself.
#![tactic(auto)]

mod listed;
pub mod row;
mod table;

ghost use Rattle.std.specs.Prelude.{◌≡◌, List, ℕ, ◌+◌, ◌*◌, ◌/◌, ◌%◌, ◌≤◌, ◌<◌, length, take, set};
ghost use Rattle.model.specs.Text.{bit};
ghost use Rattle.model.specs.Memory.{no_mailbox, counter_of, with_counter};
ghost use Rattle.model.specs.declared.Mailbox.{Mailbox};
ghost use Rattle.table_mailboxes.specs.Shift.{closed};

use model::Mailbox;

// ---- numbers

// An octet as it is, in a wider type.
pub fn wide_octet(x: u8) -> u64
    ensures { (result ≡ x) × (result < 256) }
{
    u64::from(x)
}

// An id as it is, in a wider type.
pub fn wide_id(x: u16) -> u64
    ensures { result ≡ x }
{
    u64::from(x)
}

// A UIDNEXT, a UIDVALIDITY or half a counter as it is, in a wider type.
pub fn wide_number(x: u32) -> u64
    ensures { result ≡ x }
{
    u64::from(x)
}

// The two halves of a counter as one number.
pub fn joined(low: u32, high: u32) -> u64
    ensures { result ≡ low + 4294967296 * high }
{
    u64::from(low) + 4294967296 * u64::from(high)
}

// The lower half of a counter.
pub fn low_half(c: u64) -> u32
    ensures { result ≡ c % 4294967296 }
{
    (c % 4294967296) as u32
}

// The upper half of a counter.
pub fn high_half(c: u64) -> u32
    ensures { result ≡ c / 4294967296 }
{
    (c / 4294967296) as u32
}

// Bit k of an octet.
pub fn has(bits: u8, k: u8) -> bool
    ensures { result ≡ bit k bits }
{
    k < 8 && bits >> k & 1 == 1
}

// A length within the 64 octets of a name.
pub fn clip(long: u8) -> usize
    ensures { (result ≤ 64) × ((l : List ℕ) → length l ≡ 64 → take result l ≡ take long l) }
{
    usize::from(long.min(64))
}

// ---- the columns

// The rows in use by columns: numbers side by side, and the names in one run of 64 octets each.
#[derive(Drop)]
pub struct Columns {
    pub n: usize,
    pub ids: [u64; 64],
    pub attributes: [u8; 64],
    pub lens: [u8; 64],
    pub validities: [u64; 64],
    pub nexts: [u64; 64],
    pub counters: [u64; 64],
    pub names: [u8; 4096],
    ghost few: { n ≤ 64 },
}

// ---- one row

// The change counter of a row.
pub fn counter_of(x: Mailbox) -> u64
    ensures { result ≡ counter_of x }
{
    joined(x.counterlow, x.counterhigh)
}

// The row with another change counter.
pub fn with_counter(x: Mailbox, c: u64) -> Mailbox
    ensures { result ≡ with_counter x c }
{
    Mailbox {
        counterlow: low_half(c),
        counterhigh: high_half(c),
        ..x
    }
}

// Row k becomes x; with k the count of rows, x stands behind the last.
pub fn put_row(rows: [Mailbox; 64], k: usize, x: Mailbox) -> [Mailbox; 64]
    requires { k < 64 }
    ensures { result ≡ set rows k x }
{
    let mut t = rows;
    t[k] = x;
    t
}

// A row that holds nothing.
pub fn vacant() -> Mailbox
    ensures { result ≡ no_mailbox }
{
    Mailbox {
        id: 0,
        attributes: 0,
        namelen: 0,
        uidvalidity: 0,
        uidnext: 0,
        counterlow: 0,
        counterhigh: 0,
        name: [0; 64],
    }
}

// Row k of the first n is taken out: those behind it move up, and the last of the n becomes zeros.
pub fn close_up(rows: [Mailbox; 64], n: usize, k: usize) -> [Mailbox; 64]
    requires { (k < n) × (n ≤ 64) }
    ensures { result ≡ closed k n rows }
{
    let mut t = rows;
    t.copy_within(k + 1..n, k);
    t[n - 1] = vacant();
    t
}
