// Which mailboxes NOTIFY SET tells of, and whose STATUS: notes beside the rows of the mailbox table.
#![tactic(auto)]

mod marking;

ghost use Rattle.std.specs.Prelude.{◌≡◌, List, ℕ, ◌≤◌, length};
ghost use Rattle.model.specs.Names.{Name};
ghost use Rattle.model.specs.Groups.{asked, selected_asks, asks_messages, asks_mailbox};
ghost use Rattle.model.specs.Listing.{asks_any};
ghost use Rattle.model.specs.declared.Mailbox.{Mailbox};
ghost use Rattle.model.specs.declared.Session.{Session};
ghost use Rattle.table_mailboxes.specs.Columns.{Column, Names};
ghost use Rattle.match_rows.specs.Picked.{selects, picked_by, status_by};
ghost use Rattle.match_rows.specs.Notes.{NotesAll};

use marking::mark_asked;
use model::Session;
use table_mailboxes::Columns;

// The selected group asks for an event.
pub fn selected_asks_any(s: &Session) -> bool
    ensures { result ≡ selected_asks s.now asks_any }
{
    match_groups::selected_asks(s, 0)
        || match_groups::selected_asks(s, 1)
        || match_groups::selected_asks(s, 2)
        || match_groups::selected_asks(s, 3)
        || match_groups::selected_asks(s, 4)
}

// The mailbox is told of; `selected`: it is the selected one, `any`: the selected group asks for an event, `messages` and `mailbox`: such events
// are asked for of it.
fn is_picked(a: u8, selected: bool, any: bool, messages: bool, mailbox: bool) -> bool
    ensures { (s : Session) (n : Name) → any ≡ selected_asks s asks_any → messages ≡ asked s n a asks_messages → mailbox ≡ asked s n a asks_mailbox → result ≡ picked_by s n a selected }
{
    table_mailboxes::has(a, 4) && (mailbox || if selected { any } else { messages })
}

// Its STATUS is told.
fn has_status(selected: bool, wanted: bool, messages: bool) -> bool
    ensures { (s : Session) (n : Name) (a : ℕ) → messages ≡ asked s n a asks_messages → result ≡ status_by s n a selected wanted }
{
    wanted && !selected && messages
}

// The id is the selected mailbox's.
fn is_selected(selected: u16, id: u64) -> bool
    ensures { (s : Session) → selected ≡ s.selected → result ≡ selects s id }
{
    id != 0 && id == u64::from(selected)
}

// What is noted of all rows, for a session that NOTIFY SET is to set: not 0 where a row is told of, and where its STATUS is; `wanted`: STATUS was
// asked.
pub fn note_rows(s: &Session, wanted: bool, cols: &Columns, picked: &mut [u8], asks: &mut [u8])
    requires { (cols.now.n ≤ length picked.old) × (cols.now.n ≤ length asks.old) }
    ensures { (l : List Mailbox) → length l ≡ cols.now.n → Column (λ (x : Mailbox). x.id) l cols.now.ids → Column (λ (x : Mailbox). x.attributes) l cols.now.attributes → Column (λ (x : Mailbox). x.namelen) l cols.now.lens → Names l cols.now.names → NotesAll s.now wanted l picked.new asks.new }
{
    let mut messages = [false; 64];
    let mut mailbox = [false; 64];
    mark_asked(s, true, cols, &mut messages);
    mark_asked(s, false, cols, &mut mailbox);
    let any = selected_asks_any(s);
    for k in 0..cols.n {
        let on = is_selected(s.selected, cols.ids[k]);
        picked[k] = u8::from(is_picked(cols.attributes[k], on, any, messages[k], mailbox[k]));
        asks[k] = u8::from(has_status(on, wanted, messages[k]));
    }
}
