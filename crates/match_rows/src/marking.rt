// Of which mailboxes a group asks for events: marks beside the rows of the mailbox table. The session's groups and names come first and the
// rows last, so that the session is taken apart once and not for each row.
ghost use Rattle.std.specs.Prelude.{◌≡◌, ◌&&◌, ◌||◌, ℕ, ◌≤◌, ◌<◌, length, get_or};
ghost use Rattle.model.specs.Lists.{anyb};
ghost use Rattle.model.specs.Groups.{names_in, meets, asked};
ghost use Rattle.table_mailboxes.specs.Columns.{name_at};
ghost use Rattle.match_rows.specs.Marks.{taken_by, taken_by_name, asks_of, Marks};

use model::{Group, NameRange, Selector, Session};
use table_mailboxes::{Columns, has, row};

// ---- by attributes

// The selector takes whoever has these attributes.
fn takes(selector: Selector, a: u8) -> bool
    ensures { result ≡ taken_by selector a }
{
    match selector {
        Selector::Inboxes => match_groups::takes_inboxes(a),
        Selector::Personal => match_groups::takes_personal(a),
        Selector::Subscribed => has(a, 3),
        Selector::Selected | Selector::Delayed | Selector::Subtree(_) | Selector::Mailboxes(_) =>
            false,
    }
}

// Marks the rows that the selector takes by their attributes alone.
fn mark_taken(selector: Selector, cols: &Columns, marks: &mut [bool; 64])
    ensures { Marks cols.now.n (λ (k : ℕ). taken_by selector (get_or cols.now.attributes k 0)) marks.old marks.new }
{
    for k in 0..cols.n {
        marks[k] |= takes(selector, cols.attributes[k]);
    }
}

// ---- by names

// The name takes row k: the row has it; or, `deep`, is selectable and in its subtree.
fn lies(top: &[u8], deep: bool, cols: &Columns, k: usize) -> bool
    requires { k < 64 }
    ensures { result ≡ taken_by_name deep (name_at cols.now.lens cols.now.names k) (get_or cols.now.attributes k 0) top.now }
{
    if deep {
        has(cols.attributes[k], 0) && names::in_subtree(top, cols.name(k))
    } else {
        top == cols.name(k)
    }
}

// Marks the rows that a name takes.
fn mark_top(top: &[u8], deep: bool, cols: &Columns, marks: &mut [bool; 64])
    ensures { Marks cols.now.n (λ (k : ℕ). taken_by_name deep (name_at cols.now.lens cols.now.names k) (get_or cols.now.attributes k 0) top.now) marks.old marks.new }
{
    for k in 0..cols.n {
        marks[k] |= lies(top, deep, cols, k);
    }
}

// Marks the rows that the names of a range take.
fn mark_range(s: &Session, range: NameRange, deep: bool, cols: &Columns, marks: &mut [bool; 64])
    ensures { Marks cols.now.n (λ (k : ℕ). anyb (taken_by_name deep (name_at cols.now.lens cols.now.names k) (get_or cols.now.attributes k 0)) (names_in s.now range)) marks.old marks.new }
{
    for x in match_groups::range_names(s, range) {
        mark_top(row::kept_name(x), deep, cols, marks);
    }
}

// ---- by groups

// Marks the rows that a selector meets.
fn mark_met(s: &Session, selector: Selector, cols: &Columns, marks: &mut [bool; 64])
    ensures { Marks cols.now.n (λ (k : ℕ). meets s.now (name_at cols.now.lens cols.now.names k) (get_or cols.now.attributes k 0) selector) marks.old marks.new }
{
    match selector {
        Selector::Selected | Selector::Delayed => {}
        Selector::Inboxes | Selector::Personal | Selector::Subscribed => mark_taken(
            selector, cols, marks,
        ),
        Selector::Subtree(range) => mark_range(s, range, true, cols, marks),
        Selector::Mailboxes(range) => mark_range(s, range, false, cols, marks),
    }
}

// A group asks for a message event; or, not `messages`, for a mailbox event.
fn asks_of(g: Group, messages: bool) -> bool
    ensures { result ≡ asks_of messages g }
{
    if messages {
        has(g.events, 0) || has(g.events, 1) || has(g.events, 2)
    } else {
        has(g.events, 3) || has(g.events, 4)
    }
}

// Marks the rows of which a group asks for such events.
fn mark_group(s: &Session, g: Group, messages: bool, cols: &Columns, marks: &mut [bool; 64])
    ensures { Marks cols.now.n (λ (k : ℕ). meets s.now (name_at cols.now.lens cols.now.names k) (get_or cols.now.attributes k 0) g.selector && asks_of messages g) marks.old marks.new }
{
    if asks_of(g, messages) {
        mark_met(s, g.selector, cols, marks);
    }
}

// Marks the rows of which one of the session's groups does.
pub fn mark_asked(s: &Session, messages: bool, cols: &Columns, marks: &mut [bool; 64])
    ensures { Marks cols.now.n (λ (k : ℕ). asked s.now (name_at cols.now.lens cols.now.names k) (get_or cols.now.attributes k 0) (asks_of messages)) marks.old marks.new }
{
    for g in match_groups::groups(s) {
        mark_group(s, lawful_session::group_of(*g), messages, cols, marks);
    }
}
