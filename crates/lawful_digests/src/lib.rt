// Numbers that all differ, ids or digests of names, seen while a table of guesses is filled with their rows. A no says nothing.
#![tactic(auto)]

ghost use Rattle.std.specs.Prelude.{◌≡◌, ℕ, ◌+◌, ◌*◌, ◌%◌, ◌<◌, ◌≤◌, true, length, slice_index};
ghost use Rattle.table_mailboxes.specs.Columns.{block};
ghost use Rattle.lawful_digests.specs.Distinct.{slot_of, Absent, Differ, Taken};
ghost use Rattle.lawful_digests.specs.Guessing.{Rows};
ghost use Rattle.lawful_digests.specs.Digest.{word, mixed, folded, digest};

// ---- tables of guesses

// The rows of numbers that differ: by the slot of each number the last row that took it, and by each row the one that had its slot before it.
#[derive(Drop)]
pub struct SlotTable {
    pub slots: [u8; 1024],
    pub chain: [u8; 64],
}

impl SlotTable {
    // No row yet.
    pub fn new() -> SlotTable
        ensures { (n : ℕ) → Rows result n }
    {
        SlotTable {
            slots: [0; 1024],
            chain: [0; 64],
        }
    }
}

// The slot of a number in a table of guesses. Numbers in equal steps are spread.
pub fn slot(x: u64) -> usize
    ensures { (result ≡ slot_of x) × (result < 1024) }
{
    let spread = (x % 4294967296) * 2654435769;
    (spread % 4294967296 / 4194304) as usize
}

// The rows of the first n numbers, each in the slot of its number: guesses, which whoever uses them tests.
pub fn guesses(d: &[u64; 64], n: usize) -> [u8; 1024]
    requires { n ≤ 64 }
{
    let mut slots = [0u8; 1024];
    for i in 0..n {
        slots[slot(d[i])] = i as u8;
    }
    slots
}

// The first row with the id, or the last row of all.
// Kept: a row to try, of which there always is one; its caller tests it.
pub fn seek(ids: &[u64; 64], id: u64) -> usize
    ensures { result < 64 }
{
    ids.iter().position(|x| *x == id).unwrap_or(63)
}

// A row that has the id, where there is one: the row of its slot, or else by a search. The caller tests it.
pub fn guess(slots: &[u8; 1024], ids: &[u64; 64], id: u64) -> usize
    ensures { result < 64 }
{
    let k = usize::from(slots[slot(id)] % 64);
    if ids[k] == id { k } else { seek(ids, id) }
}

// ---- names

// Eight octets as one number, the first the least: one load.
pub fn word(octets: &[u8], at: usize) -> u64
    requires { at + 8 ≤ length octets.now }
    ensures { result ≡ word octets.now at }
{
    u64::from_le_bytes(*octets[at..at + 8].first_chunk::<8>().unwrap())
}

// A digest with one word more.
fn mix(d: u64, w: u64) -> u64
    ensures { result ≡ mixed d w }
{
    d.wrapping_add(d).wrapping_add(d).wrapping_add(w)
}

// The two halves of a digest together: a slot is made of the lower one.
fn fold(d: u64) -> u64
    ensures { result ≡ folded d }
{
    d % 4294967296 + d / 4294967296
}

// The digest of the 64 octets of row k.
fn digest_of(names: &[u8], k: usize) -> u64
    requires { (k < 64) × (length names.now ≡ 4096) }
    ensures { result ≡ digest (block names.now k) }
{
    let mut d: u64 = 0;
    for i in 0..8 {
        d = mix(d, word(names, 64 * k + 8 * i));
    }
    fold(d)
}

// The digests of the names of the first n rows.
pub fn digests_of(names: &[u8], n: usize) -> [u64; 64]
    requires { (n ≤ 64) × (length names.now ≡ 4096) }
    ensures { (k : ℕ) → k < n → slice_index result k ≡ digest (block names.now k) }
{
    let mut digests = [0u64; 64];
    for i in 0..n {
        digests[i] = digest_of(names, i);
    }
    digests
}

// ---- numbers that all differ

// None of the numbers up to a place is x.
fn absent(d: &[u64; 64], upto: usize, x: u64) -> bool
    requires { upto ≤ 64 }
    ensures { result ≡ true → Absent d.now upto x }
{
    !d[..upto].contains(&x)
}

// Number i is none of those before it: its slot is not taken, or it is compared with each. A slot is 0 until a number other than the first takes it.
fn is_new(d: &[u64; 64], slots: &[u8; 1024], i: usize) -> bool
    requires { (i < 64) × Taken d.now slots.now i }
    ensures { result ≡ true → Absent d.now i (slice_index d.now i) }
{
    let x = d[i];
    if slots[slot(x)] == 0 {
        d[0] != x
    } else {
        absent(d, i, x)
    }
}

// No two of the first n are equal, seen while the table of guesses is filled with their rows. A row that takes a slot is chained to the row that had it.
// A no says nothing.
pub fn differ(d: &[u64; 64], n: usize, g: &mut SlotTable) -> bool
    requires { (n ≤ 64) × Rows g.old n }
    ensures { (result ≡ true → Differ d.now n) × Rows g.new n }
{
    for i in 1..n {
        if !is_new(d, &g.slots, i) {
            return false;
        }
        let at = slot(d[i]);
        g.chain[i] = g.slots[at];
        g.slots[at] = i as u8;
    }
    true
}
