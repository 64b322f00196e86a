// Refusal 1, quickly: one pass over the messages that says yes wherever each is seen to be in order. A no says nothing.
#![tactic(auto)]

mod passing;

ghost use Rattle.std.specs.Prelude.{◌≡◌, ◌%◌, ◌≤◌, true, List, length};
ghost use Rattle.model.specs.Lists.{apart, allb};
ghost use Rattle.model.specs.Memory.{counter_of};
ghost use Rattle.model.specs.Lawful.{clash, mailbox_ok};
ghost use Rattle.model.specs.declared.Mailbox.{Mailbox};
ghost use Rattle.table_messages.specs.Words.{messages};
ghost use Rattle.table_mailboxes.specs.Columns.{Column};
ghost use Rattle.lawful_quick.specs.Passing.{Owners, Good, Ran};
ghost use Rattle.lawful_digests.specs.Distinct.{Low};
ghost use Rattle.lawful_digests.specs.Guessing.{Rows};

use lawful_digests::{SlotTable, slot};
use model::Uid;
use passing::{below, entry_fits, owner};
use table_mailboxes::Columns;

// The selected mailbox, or 0, and the UIDs up to which it is in view.
#[derive(Clone, Copy)]
pub struct View {
    pub selected: u64,
    pub told: Uid,
}

// How far a pass is, and the flags and sizes that it met, joined bit by bit.
#[derive(Clone, Copy)]
struct Pass {
    at: usize,
    flags: u64,
    size: u64,
}

// On from a place, as long as the row of the entry's slot has its id and the entry is in order. Most entries are passed here, in a small loop without a search.
fn run(
    words: &[u64],
    end: usize,
    cols: &Columns,
    g: &SlotTable,
    last: &mut [u64; 64],
    view: View,
    from: Pass,
) -> Pass
    requires { (from.at ≤ end) × (from.at % 6 ≡ 0) × (end % 6 ≡ 0) × (end ≤ length words.now) × (length last.old ≡ 64) × Low g.now.slots 64 }
    ensures { Ran words.now end cols.now.ids cols.now.counters g.now.slots view.selected view.told.0 from last.old result last.new }
{
    let mut p = from;
    // Kept: the place where a run stops is part of its answer, which a `for` would count beside.
    while p.at < end {
        let b = p.at;
        let k = usize::from(g.slots[slot(words[b])]);
        if !entry_fits(words, b, cols.ids[k], Uid(last[k]), cols.counters[k], view) {
            return p;
        }
        last[k] = words[b + 1];
        p = Pass {
            at: b + 6,
            flags: p.flags | words[b + 2],
            size: p.size | words[b + 3],
        };
    }
    p
}

// One pass: every entry is in order and rises above those of its mailbox before it, so that the last of each is compared with the UIDNEXT.
// Where a run stops, the one entry is tested with the row that `owner` finds.
// A join of flags or sizes is tested at the end: it is at least each of its numbers, and the bounds are all ones.
// A no says nothing. The last UIDs of the rows are an array of words, as those of `found` are; a single UID is a `Uid`.
pub fn all_fit(words: &[u64], cols: &Columns, g: &SlotTable, view: View) -> bool
    requires { Rows g.now cols.now.n }
    ensures { (l : List Mailbox) → length l ≡ cols.now.n → Owners l cols.now.ids cols.now.nexts → Column counter_of l cols.now.counters → allb mailbox_ok l ≡ true → apart clash l ≡ true → result ≡ true → Good l view.selected view.told.0 (messages words.now) }
{
    if cols.n < 1 {
        return words.len() < 6;
    }
    let mut last = [0u64; 64];
    let end = words.len() / 6 * 6;
    let start = Pass {
        at: 0,
        flags: 0,
        size: 0,
    };
    let mut p = run(words, end, cols, g, &mut last, view, start);
    // Kept: it goes on from where a run stopped.
    while p.at < end {
        let at = p.at;
        let k = owner(g, cols, words[at]);
        if !entry_fits(words, at, cols.ids[k], Uid(last[k]), cols.counters[k], view) {
            return false;
        }
        last[k] = words[at + 1];
        let next = Pass {
            at: at + 6,
            flags: p.flags | words[at + 2],
            size: p.size | words[at + 3],
        };
        p = run(words, end, cols, g, &mut last, view, next);
    }
    if 31 < p.flags || 4294967295 < p.size {
        return false;
    }
    below(&last, cols)
}
