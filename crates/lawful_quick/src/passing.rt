// What one entry of the messages is tested for, and the last UIDs of the rows.
ghost use Rattle.std.specs.Prelude.{◌≡◌, ◌+◌, ◌<◌, ◌≤◌, true, length};
ghost use Rattle.lawful_quick.specs.Passing.{Viewed, Fits, Below, entry_at};
ghost use Rattle.lawful_digests.specs.Guessing.{Rows};

use crate::View;
use lawful_digests::{SlotTable, seek, slot};
use model::Uid;
use table_mailboxes::Columns;

// The row that has the id, where there is one: that of its slot, the one chained to it, or else by a search. The caller tests it.
pub fn owner(g: &SlotTable, cols: &Columns, id: u64) -> usize
    requires { (1 ≤ cols.now.n) × Rows g.now cols.now.n }
    ensures { result < cols.now.n }
{
    let k = usize::from(g.slots[slot(id)]);
    if cols.ids[k] == id {
        return k;
    }
    let before = usize::from(g.chain[k]);
    if cols.ids[before] == id {
        return before;
    }
    let j = seek(&cols.ids, id);
    if j < cols.n { j } else { 0 }
}

// An entry that is expunged or marked lies in the view.
fn in_view(words: &[u64], b: usize, view: View) -> bool
    requires { b + 6 ≤ length words.now }
    ensures { result ≡ true → Viewed (entry_at words.now b) view.selected view.told.0 }
{
    if words[b + 4] == 0 {
        return true;
    }
    if 2 < words[b + 4] || words[b] != view.selected {
        return false;
    }
    words[b + 1] < view.told.0
}

// A counter is one of a mailbox with this highest one: at least 1, and not above it. 0 wraps to a number that is above all.
fn is_counted(counter: u64, highest: u64) -> bool
    ensures { result ≡ true → (1 ≤ counter) × (counter ≤ highest) }
{
    counter.wrapping_sub(1) < highest
}

// The entry whose words start at b is in order but for its flags and size, and above the last UID of its row. Each word is read where it is tested.
pub fn entry_fits(words: &[u64], b: usize, id: u64, low: Uid, highest: u64, view: View) -> bool
    requires { b + 6 ≤ length words.now }
    ensures { result ≡ true → Fits (entry_at words.now b) id low.0 highest view.selected view.told.0 }
{
    if words[b] != id || words[b + 1] <= low.0 || !is_counted(words[b + 5], highest) {
        return false;
    }
    in_view(words, b, view)
}

// The last UIDs of the rows are below their UIDNEXTs.
pub fn below(last: &[u64; 64], cols: &Columns) -> bool
    ensures { result ≡ true → Below last.now cols.now.nexts cols.now.n }
{
    for k in 0..cols.n {
        if cols.nexts[k] <= last[k] {
            return false;
        }
    }
    true
}
