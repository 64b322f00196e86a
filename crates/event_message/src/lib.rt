// `ME`, `XP` and `FL`: what a record about a message leaves of the message table, the queue and the session. Each kind has its module;
// here stand the STATUS lines of a mailbox that is not selected, and what all of them ask.
#![tactic(auto)]

pub mod showing;

ghost use Rattle.std.specs.Prelude.{◌≡◌, true, not, ◌&&◌, ◌*◌, ◌-◌, ◌≤◌, length, take};
ghost use Rattle.model.specs.Memory.{both_rights};
ghost use Rattle.model.specs.Groups.{asked_of, selected_asks};
ghost use Rattle.line_put.specs.Heard.{heard, Hears};
ghost use Rattle.match_groups.specs.Asking.{asks_bit};
ghost use Rattle.table_messages.specs.Words.{messages};
ghost use Rattle.event_message.specs.After.{status_text, change_text};
ghost use Rattle.event_message.specs.Deciding.{is_chosen, has_seen, place_in};

use line_mailbox::{FlagStatus, Status};
use line_put::Kept;
use model::{Mailbox, MessageNumber, Session, Uid};
use table_mailboxes::{counter_of, row};

// What a record leaves besides the words and the queue's octets.
#[derive(Clone, Copy)]
pub struct Left {
    pub used: usize,
    pub kept: Kept,
}

// The row with its new UIDNEXT, and what else is left.
#[derive(Clone, Copy)]
pub struct Arrived {
    pub row: Mailbox,
    pub left: Left,
}

// ---- the lines
// The STATUS line of row x with its messages among the entries, if somebody is told of it.
pub fn tell_status(
    words: &[u64],
    queue: &mut [u8],
    s: &Session,
    filled: usize,
    on: bool,
    x: &Mailbox,
) -> Kept
    requires { (64 ≤ length queue.old) × (length queue.old ≤ 65536) × (filled ≤ 65536) × (on ≡ true → filled ≤ length queue.old - 64) }
    ensures { Hears (heard queue.old s.now filled on (status_text x.now (messages words.now))) queue.new result.session result.filled }
{
    // Only a line that is told needs the messages counted.
    let messages = if on {
        table_messages::count(words, u64::from(x.id))
    } else {
        0
    };
    let line = Status {
        name: row::name(x),
        next: u64::from(x.uidnext),
        messages,
        highest: counter_of(*x),
    };
    line_put::tell(queue, s, filled, on, &line)
}

// That of a change of flags.
pub fn tell_change(queue: &mut [u8], s: &Session, filled: usize, on: bool, x: &Mailbox) -> Kept
    requires { (64 ≤ length queue.old) × (length queue.old ≤ 65536) × (filled ≤ 65536) × (on ≡ true → filled ≤ length queue.old - 64) }
    ensures { Hears (heard queue.old s.now filled on (change_text x.now)) queue.new result.session result.filled }
{
    let line = FlagStatus {
        name: row::name(x),
        validity: u64::from(x.uidvalidity),
        highest: counter_of(*x),
    };
    line_put::tell(queue, s, filled, on, &line)
}

// ---- who is told
// Whether a row is the selected mailbox's.
pub fn is_chosen(s: &Session, x: &Mailbox) -> bool
    ensures { result ≡ is_chosen s.now x.now }
{
    x.id != 0 && x.id == s.selected
}

// Whether the client has message uid of the mailbox of row x.
pub fn has_seen(s: &Session, x: &Mailbox, uid: Uid) -> bool
    ensures { result ≡ has_seen s.now x.now uid.0 }
{
    is_chosen(s, x) && uid < Uid(u64::from(s.told))
}

// Its place in the view, among the first used entries.
pub fn place_in(words: &[u64], used: usize, s: &Session, uid: Uid) -> MessageNumber
    requires { used * 6 ≤ length words.now }
    ensures { result.0 ≡ place_in s.now uid.0 (take used (messages words.now)) }
{
    let mails = &words[..6 * used];
    table_messages::place_of(mails, u64::from(s.selected), Uid(u64::from(s.told)), uid)
}

// Who is told of event k of a message in mailbox x: nobody where x is selected, or without both rights.
pub fn is_told(s: &Session, x: &Mailbox, selected: bool, k: u8) -> bool
    ensures { result ≡ (not selected && (both_rights x.now && asked_of s.now x.now (asks_bit k))) }
{
    !selected && row::has_rights(x.attributes) && match_groups::is_asked_of(s, x, k)
}

// Whether event k of a message of mailbox x is told at once, where the client sees it.
pub fn is_soon(s: &Session, x: &Mailbox, seen: bool, k: u8) -> bool
    ensures { result ≡ (seen && (both_rights x.now && selected_asks s.now (asks_bit k))) }
{
    seen && row::has_rights(x.attributes) && match_groups::selected_asks(s, k)
}
