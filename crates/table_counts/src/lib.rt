// How many messages of each row exist, in one pass over the message table.
#![tactic(auto)]

ghost use Rattle.std.specs.Prelude.{◌≡◌, ℕ, ◌+◌, ◌*◌, ◌≤◌, ◌<◌, length, take, get_or, true, List, IfSome};
ghost use Rattle.model.specs.Lists.{apart};
ghost use Rattle.model.specs.Memory.{no_message, no_mailbox, existing};
ghost use Rattle.model.specs.Lawful.{clash};
ghost use Rattle.model.specs.declared.Mailbox.{Mailbox};
ghost use Rattle.table_mailboxes.specs.Columns.{Column};
ghost use Rattle.table_messages.specs.Words.{messages};
ghost use Rattle.table_counts.specs.Tally.{Finds, Tallied};

use table_mailboxes::Columns;

// A row with the id: a guess, or else by a search. Nothing is asked of what the slots hold.
fn row_of(slots: &[u8; 1024], cols: &Columns, id: u64) -> Option<usize>
    ensures finds { Finds cols.now.ids cols.now.n id result }
    ensures within { IfSome result (λ k. k < cols.now.n) }
{
    let k = lawful_digests::guess(slots, &cols.ids, id);
    if k < cols.n && cols.ids[k] == id {
        return Some(k);
    }
    cols.find(id)
}

// Entry i is counted for its row, if it exists.
fn tally(words: &[u64], i: usize, slots: &[u8; 1024], cols: &Columns, counts: &mut [u64; 64])
    requires { ((i + 1) * 6 ≤ length words.now) × (i ≤ 1048576) × ((k : ℕ) → get_or counts.old k 0 ≤ i) }
    ensures { Tallied cols.now.ids cols.now.n (get_or (messages words.now) i no_message) i counts.old counts.new }
{
    let e = table_messages::get(words, i);
    if e.states % 2 == 1 {
        return;
    }
    if let Some(k) = row_of(slots, cols, e.mailbox) {
        counts[k] += 1;
    }
}

// For each row in use, how many of its messages among the used entries exist.
pub fn count(words: &[u64], used: usize, cols: &Columns) -> [u64; 64]
    requires { (used * 6 ≤ length words.now) × (used ≤ 1048576) }
    ensures { (l : List Mailbox) → length l ≡ cols.now.n → Column (λ (x : Mailbox). x.id) l cols.now.ids → apart clash l ≡ true → (k : ℕ) → k < cols.now.n → get_or result k 0 ≡ length (existing (get_or l k no_mailbox).id (take used (messages words.now))) }
{
    let slots = lawful_digests::guesses(&cols.ids, cols.n);
    let mut counts = [0; 64];
    for i in 0..used {
        tally(words, i, &slots, cols, &mut counts);
    }
    counts
}
