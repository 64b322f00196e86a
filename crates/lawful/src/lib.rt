// Refusal 1: whether all that is lent is lawful. The rows come by columns; the quick tests decide where they can, the exact ones behind them.
#![tactic(auto)]

ghost use Rattle.std.specs.Prelude.{◌≡◌, true, ◌&&◌, List, ℕ, ◌≤◌, length, take};
ghost use Rattle.model.specs.Lists.{apart, allb, every};
ghost use Rattle.model.specs.Memory.{counter_of};
ghost use Rattle.model.specs.Lawful.{clash, twin, mailbox_ok, contents_ok, lawful};
ghost use Rattle.model.specs.declared.Mailbox.{Mailbox};
ghost use Rattle.table_messages.specs.Words.{messages};
ghost use Rattle.table_mailboxes.specs.Columns.{Column};
ghost use Rattle.table_mailboxes.specs.Whole.{LaidIn};
ghost use Rattle.lawful_quick.specs.Passing.{Owners, entry_ok, tables_ok};
ghost use Rattle.lawful_digests.specs.Guessing.{Rows};
ghost use Rattle.lawful_messages.specs.Clashing.{Called};
ghost use Rattle.lawful.specs.Lent.{Lent, memory, filled_by, sizes_by, view_by};

use lawful_digests::SlotTable;
use lawful_mailboxes::rows_ok;
use lawful_messages::{mail_apart, mail_ok, rows_apart};
use lawful_quick::View;
use model::{Counts, Session, Uid};
use table_mailboxes::Columns;

// ---- the tables: what a quick test says yes to, or else the exact one

// No two rows clash. The table of guesses is filled with them, and rows that share a slot are chained. Nobody reads what the digests fill.
fn rows_differ(cols: &Columns, g: &mut SlotTable) -> bool
    requires { Rows g.old cols.now.n }
    ensures { ((l : List Mailbox) → length l ≡ cols.now.n → Called l cols.now.ids cols.now.lens cols.now.names → allb mailbox_ok l ≡ true → result ≡ apart clash l) × Rows g.new cols.now.n }
{
    if !lawful_digests::differ(&cols.ids, cols.n, g) {
        return rows_apart(cols);
    }
    let digests = lawful_digests::digests_of(&cols.names, cols.n);
    let mut marks = SlotTable::new();
    lawful_digests::differ(&digests, cols.n, &mut marks) || rows_apart(cols)
}

// Every entry in use is in order, and no two are twins.
fn messages_ok(cols: &Columns, g: &SlotTable, words: &[u64], view: View) -> bool
    requires { Rows g.now cols.now.n }
    ensures { (l : List Mailbox) → length l ≡ cols.now.n → Owners l cols.now.ids cols.now.nexts → Column counter_of l cols.now.counters → allb mailbox_ok l ≡ true → apart clash l ≡ true → result ≡ (allb (entry_ok l view.selected view.told.0) (messages words.now) && apart twin (messages words.now)) }
{
    if lawful_quick::all_fit(words, cols, g, view) {
        return true;
    }
    mail_ok(cols, words, view) && mail_apart(words)
}

// Ids, names and messages are in order, where the mailboxes are by themselves.
fn tables_ok(cols: &Columns, words: &[u64], view: View) -> bool
    ensures { (l : List Mailbox) → length l ≡ cols.now.n → Owners l cols.now.ids cols.now.nexts → Column counter_of l cols.now.counters → Called l cols.now.ids cols.now.lens cols.now.names → allb mailbox_ok l ≡ true → result ≡ every (tables_ok l (messages words.now) view.selected view.told.0) }
{
    let mut g = SlotTable::new();
    rows_differ(cols, &mut g) && messages_ok(cols, &g, words, view)
}

// ---- all of it

// With a group standing, 64 octets of the queue are left.
fn filled_ok(room: u64, filled: u64, groups: u8) -> bool
    requires { 64 ≤ room }
    ensures { result ≡ filled_by room filled groups }
{
    filled <= room && (groups == 0 || filled <= room - 64)
}

// The lengths of the queue and the tables, and how much of each is used.
fn sizes_ok(room: u64, lent: u64, entries: u64, counts: Counts, groups: u8) -> bool
    ensures { result ≡ every (sizes_by room lent entries counts groups) }
{
    if room < 1024 {
        return false;
    }
    room <= 65536
        && filled_ok(room, counts.filled, groups)
        && lent <= 64
        && counts.mailboxes <= lent
        && entries <= 1024
        && counts.messages <= entries
}

// The view is that of a mailbox and lies below its UIDNEXT, or there is none.
fn view_ok(cols: &Columns, view: View) -> bool
    ensures { (l : List Mailbox) → length l ≡ cols.now.n → Owners l cols.now.ids cols.now.nexts → result ≡ view_by l view.selected view.told.0 }
{
    if view.selected == 0 {
        return view.told.0 == 0;
    }
    match cols.find(view.selected) {
        Some(k) => view.told.0 <= cols.nexts[k],
        None => false,
    }
}

// The session, the view, the mailboxes and the messages in use.
fn contents_ok(cols: &Columns, words: &[u64], s: &Session) -> bool
    ensures { (l : List Mailbox) → LaidIn l cols.now → result ≡ every (contents_ok l (messages words.now) s.now) }
{
    let view = View {
        selected: u64::from(s.selected),
        told: Uid(u64::from(s.told)),
    };
    lawful_session::session_ok(s)
        && (view_ok(cols, view) && (rows_ok(cols) && tables_ok(cols, words, view)))
}

// Whether the memory is lawful. `lent` rows are lent, of which those in use come by columns, unless they are too many to be read;
// the queue has `room` octets.
pub fn is_lawful(
    cols: &Columns,
    lent: usize,
    words: &[u64],
    counts: Counts,
    s: &Session,
    room: usize,
) -> bool
    ensures { (t rows : List Mailbox) (q : List ℕ) → Lent t rows lent → LaidIn (take counts.mailboxes rows) cols.now → length q ≡ room → result ≡ lawful (memory t (messages words.now) counts s.now q) }
{
    let entries = words.len() / 6;
    if !sizes_ok(
        room as u64,
        lent as u64,
        entries as u64,
        counts,
        s.groupcount,
    ) {
        return false;
    }
    contents_ok(cols, &words[..6 * (counts.messages as usize)], s)
}
