// `CE`, `SE` and `DR`: the end of a command, a selection, octets that were sent.
#![tactic(auto)]

ghost use Rattle.std.specs.Prelude.{◌≡◌, cond, ◌*◌, ◌-◌, ◌≤◌, length, take};
ghost use Rattle.model.specs.Memory.{with_view};
ghost use Rattle.model.specs.Lists.{anyb};
ghost use Rattle.model.specs.Queue.{shifted};
ghost use Rattle.table_messages.specs.Words.{messages};
ghost use Rattle.table_messages.specs.Laid.{laid};
ghost use Rattle.event_session.specs.Ending.{end_after, end_rest, Leaves};
ghost use Rattle.event_session.specs.Quiet.{owes};
ghost use Rattle.event_session.specs.After.{rests, select_entries};

use model::{Message, Session, Uid};
use table_messages::{of_row, rows};
use table_sweep::Sweep;

// ---- `DR`
// The first n of the filled octets leave; the others move up.
pub fn drain(queue: &mut [u8], filled: usize, n: usize) -> usize
    requires { (n ≤ filled) × (filled ≤ length queue.old) }
    ensures { (queue.new ≡ shifted queue.old filled n) × (result ≡ filled - n) }
{
    queue.copy_within(n..filled, 0);
    filled - n
}

// ---- `SE`
pub fn viewed(s: &Session, id: u16, told: u32) -> Session
    ensures { result ≡ with_view s.now id told }
{
    Session {
        selected: id,
        told,
        ..*s
    }
}

// What a selection leaves besides the table.
#[derive(Clone, Copy)]
pub struct Chose {
    pub session: Session,
    pub used: usize,
}

pub fn select(words: &mut [u64], used: usize, s: &Session, id: u16, next: u32) -> Chose
    requires { used * 6 ≤ length words.old }
    ensures { (words.new ≡ laid words.old (select_entries (messages words.old) used)) × (result.used ≡ length (rests (take used (messages words.old)))) × (result.session ≡ with_view s.now id next) }
{
    let used = table_sweep::settle(words, used, Sweep::Rested);
    Chose {
        session: viewed(s, id, next),
        used,
    }
}

// ---- `CE`
// Whether the entry is of the mailbox, and new to the client, expunged or marked.
fn owes(e: &Message, id: u64, told: Uid) -> bool
    ensures { result ≡ owes id told.0 e.now }
{
    e.mailbox == id && (!(e.uid < told) || e.states != 0)
}

// Whether a line may be owed of the mailbox: no means that there is none.
pub fn is_owed(words: &[u64], id: u64, told: Uid) -> bool
    ensures { result ≡ anyb (owes id told.0) (messages words.now) }
{
    rows(words).iter().any(|row| owes(&of_row(row), id, told))
}

// The view, if EXISTS was written.
fn announced(s: &Session, news: bool, next: u32) -> Session
    ensures { result ≡ cond news (with_view s.now s.now.selected next) s.now }
{
    if news {
        viewed(s, s.selected, next)
    } else {
        *s
    }
}

// What the end of a command leaves besides the table and the queue's octets, and how many lines are still owed.
#[derive(Clone, Copy)]
pub struct Closed {
    pub session: Session,
    pub used: usize,
    pub filled: usize,
    pub rest: u64,
}

// `CE`, of either class. `order` is scratch.
pub fn end_command(
    words: &mut [u64],
    used: usize,
    queue: &mut [u8],
    order: &mut [usize],
    s: &Session,
    filled: usize,
    class: bool,
    rights: bool,
    next: u32,
) -> Closed
    requires { (used * 6 ≤ length words.old) × (used ≤ 1024) × (used ≤ length order.old) × (64 ≤ length queue.old) × (length queue.old ≤ 65536) × (filled ≤ 65536) }
    ensures { Leaves (end_after (messages words.old) used queue.old s.now filled class rights next) (end_rest (messages words.old) used queue.old s.now filled class rights) words.old words.new queue.new result }
{
    if !rights {
        return Closed {
            session: *s,
            used,
            filled,
            rest: 0,
        };
    }
    let id = u64::from(s.selected);
    let told = Uid(u64::from(s.told));
    let limit = queue.len() - 64;
    let mails = &words[..6 * used];
    let n = order_messages::by_uid(mails, id, order);
    let t = event_view::speak(mails, &order[..n], told, class, queue, limit, filled);
    let left = table_sweep::settle(words, used, Sweep::Told(id, t.gone, t.shown));
    Closed {
        session: announced(s, t.news, next),
        used: left,
        filled: t.end,
        rest: t.rest,
    }
}
