// The exact tests of tables in any order: rows that clash, and the messages.
#![tactic(auto)]

ghost use Rattle.std.specs.Prelude.{◌≡◌, List, ◌≤◌, ◌<◌, length, drop, get_or};
ghost use Rattle.model.specs.Lists.{apart, anyb, allb};
ghost use Rattle.model.specs.Memory.{no_mailbox, counter_of};
ghost use Rattle.model.specs.Lawful.{clash, twin, owned, message_ok};
ghost use Rattle.model.specs.declared.Mailbox.{Mailbox};
ghost use Rattle.table_messages.specs.Words.{messages};
ghost use Rattle.table_mailboxes.specs.Columns.{Column};
ghost use Rattle.lawful_quick.specs.Passing.{Owners, state_at, entry_ok};
ghost use Rattle.lawful_messages.specs.Clashing.{Called, clash_at};

use lawful_quick::View;
use model::Message;
use table_mailboxes::Columns;

// ---- ids and names

// Rows j and k share an id or a name.
fn do_clash(cols: &Columns, j: usize, k: usize) -> bool
    requires { (j < 64) × (k < 64) }
    ensures { result ≡ clash_at cols.now.ids cols.now.lens cols.now.names j k }
{
    cols.ids[j] == cols.ids[k] || cols.has_name(j, cols.name(k))
}

// Row j clashes with one of the rows from a place on.
fn any_clash(cols: &Columns, from: usize, j: usize) -> bool
    requires { (from ≤ cols.now.n) × (j < cols.now.n) }
    ensures { (l : List Mailbox) → length l ≡ cols.now.n → Called l cols.now.ids cols.now.lens cols.now.names → result ≡ anyb (clash (get_or l j no_mailbox)) (drop from l) }
{
    for k in from..cols.n {
        if do_clash(cols, j, k) {
            return true;
        }
    }
    false
}

// No two rows clash.
pub fn rows_apart(cols: &Columns) -> bool
    ensures { (l : List Mailbox) → length l ≡ cols.now.n → Called l cols.now.ids cols.now.lens cols.now.names → result ≡ apart clash l }
{
    for j in 0..cols.n {
        if any_clash(cols, j + 1, j) {
            return false;
        }
    }
    true
}

// ---- messages

// Two entries are of one mailbox and have one UID.
fn are_twins(d: &Message, e: &Message) -> bool
    ensures { result ≡ twin d.now e.now }
{
    d.mailbox == e.mailbox && d.uid == e.uid
}

// The entry has a twin among those from a place on.
fn any_twin(words: &[u64], from: usize, d: &Message) -> bool
    requires { from ≤ length (messages words.now) }
    ensures { result ≡ anyb (twin d.now) (drop from (messages words.now)) }
{
    for i in from..words.len() / 6 {
        if are_twins(d, &table_messages::get(words, i)) {
            return true;
        }
    }
    false
}

// No two entries are twins.
pub fn mail_apart(words: &[u64]) -> bool
    ensures { result ≡ apart twin (messages words.now) }
{
    for i in 0..words.len() / 6 {
        if any_twin(words, i + 1, &table_messages::get(words, i)) {
            return false;
        }
    }
    true
}

// The entry's mailbox is known, its UID below the mailbox's UIDNEXT, and its counter not above the mailbox's.
fn is_owned(cols: &Columns, e: &Message) -> bool
    ensures { (l : List Mailbox) → length l ≡ cols.now.n → Owners l cols.now.ids cols.now.nexts → Column counter_of l cols.now.counters → result ≡ owned l e.now }
{
    let Some(k) = cols.find(e.mailbox) else {
        return false;
    };
    if cols.nexts[k] <= e.uid.0 {
        return false;
    }
    e.counter <= cols.counters[k]
}

// The entry's fields are in their ranges.
fn message_ok(e: &Message) -> bool
    ensures { result ≡ message_ok e.now }
{
    1 <= e.uid.0
        && e.flags <= 31
        && e.size <= 4294967295
        && e.states <= 2
        && 1 <= e.counter
        && e.counter <= 9223372036854775807
}

// An entry that is expunged or marked lies in the view.
fn state_ok(e: &Message, view: View) -> bool
    ensures { result ≡ state_at view.selected view.told.0 e.now }
{
    e.states == 0 || (e.mailbox == view.selected && e.uid < view.told)
}

// The entry is in order by itself.
fn entry_ok(cols: &Columns, e: &Message, view: View) -> bool
    ensures { (l : List Mailbox) → length l ≡ cols.now.n → Owners l cols.now.ids cols.now.nexts → Column counter_of l cols.now.counters → result ≡ entry_ok l view.selected view.told.0 e.now }
{
    message_ok(e) && (is_owned(cols, e) && state_ok(e, view))
}

// Every entry is in order by itself.
pub fn mail_ok(cols: &Columns, words: &[u64], view: View) -> bool
    ensures { (l : List Mailbox) → length l ≡ cols.now.n → Owners l cols.now.ids cols.now.nexts → Column counter_of l cols.now.counters → result ≡ allb (entry_ok l view.selected view.told.0) (messages words.now) }
{
    for i in 0..words.len() / 6 {
        if !entry_ok(cols, &table_messages::get(words, i), view) {
            return false;
        }
    }
    true
}
