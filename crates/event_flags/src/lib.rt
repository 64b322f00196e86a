// `FL`: the flags of a message change. That is told at once, or kept as a mark, or neither; elsewhere a STATUS tells of it.
#![tactic(auto)]

ghost use Rattle.std.specs.Prelude.{◌≡◌, true, ◌+◌, ◌*◌, ◌-◌, ◌≤◌, ◌<◌, length};
ghost use Rattle.table_messages.specs.Words.{messages};
ghost use Rattle.event_message.specs.After.{Leaves};
ghost use Rattle.event_message.specs.Flagged.{told_after, kept_after};
ghost use Rattle.event_message.specs.Deciding.{reflag_after};

use event_message::Left;
use line_fetch::Fetch;
use model::{Mailbox, MessageNumber, Session};
use table_mailboxes::row;

// The change is told at once and ends a mark, or else the overflow line is written.
fn flag_now(
    words: &mut [u64],
    used: usize,
    queue: &mut [u8],
    s: &Session,
    filled: usize,
    k: usize,
    flags: u64,
    counter: u64,
    n: MessageNumber,
) -> Left
    requires { ((k + 1) * 6 ≤ length words.old) × (64 ≤ length queue.old) × (length queue.old ≤ 65536) × (filled ≤ length queue.old - 64) }
    ensures { Leaves (told_after (messages words.old) used queue.old s.now filled k flags counter n.0) words.old words.new result.used queue.new result.kept.session result.kept.filled }
{
    let e = table_messages::get(words, k);
    let line = Fetch {
        n,
        uid: e.uid,
        flags,
        counter,
    };
    let said = line_put::say(queue, filled, &line);
    let states = if said.fits { 0 } else { e.states };
    table_messages::put(words, k, table_messages::changed(e, flags, states, counter));
    Left {
        used,
        kept: line_put::hear(*s, said),
    }
}

// The change is kept, and its mailbox's STATUS is told or not.
fn flag_kept(
    words: &mut [u64],
    used: usize,
    queue: &mut [u8],
    s: &Session,
    filled: usize,
    x: &Mailbox,
    k: usize,
    flags: u64,
    counter: u64,
    states: u64,
    on: bool,
) -> Left
    requires { ((k + 1) * 6 ≤ length words.old) × (64 ≤ length queue.old) × (length queue.old ≤ 65536) × (filled ≤ 65536) × (on ≡ true → filled ≤ length queue.old - 64) }
    ensures { Leaves (kept_after (messages words.old) used queue.old s.now filled x.now k flags counter states on) words.old words.new result.used queue.new result.kept.session result.kept.filled }
{
    let e = table_messages::get(words, k);
    table_messages::put(words, k, table_messages::changed(e, flags, states, counter));
    Left {
        used,
        kept: event_message::tell_change(queue, s, filled, on, x),
    }
}

// `FL` of entry k, which is a message of mailbox x. The row has the record's counter already.
#[tactic(auto, unfolding(event_message::specs::Deciding::reflag_after, event_message::specs::Flagged::flag_after))]
pub fn flag(
    words: &mut [u64],
    used: usize,
    queue: &mut [u8],
    s: &Session,
    filled: usize,
    x: &Mailbox,
    k: usize,
    flags: u64,
    counter: u64,
) -> Left
    requires { (k < used) × (used * 6 ≤ length words.old) × (64 ≤ length queue.old) × (length queue.old ≤ 65536) × (filled ≤ 65536) × ((s.now.groupcount ≡ 0 → ⊥) → filled ≤ length queue.old - 64) }
    ensures { Leaves (reflag_after (messages words.old) used queue.old s.now filled k x.now flags counter) words.old words.new result.used queue.new result.kept.session result.kept.filled }
{
    let e = table_messages::get(words, k);
    let seen = event_message::has_seen(s, x, e.uid);
    if event_message::is_soon(s, x, seen, 2) {
        let n = event_message::place_in(words, used, s, e.uid);
        return flag_now(words, used, queue, s, filled, k, flags, counter, n);
    }
    let waits = seen && row::has_rights(x.attributes) && s.notified == 0;
    let states = if waits { 2 } else { e.states };
    let chosen = event_message::is_chosen(s, x);
    let on = event_message::is_told(s, x, chosen, 2);
    flag_kept(
        words, used, queue, s, filled, x, k, flags, counter, states, on,
    )
}
