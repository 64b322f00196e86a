// `XP`: a message is expunged. It waits, or is told at once and gone, or is gone.
#![tactic(auto)]

ghost use Rattle.std.specs.Prelude.{◌≡◌, true, false, cond, ◌*◌, ◌-◌, ◌≤◌, ◌<◌, length};
ghost use Rattle.table_messages.specs.Words.{messages};
ghost use Rattle.table_messages.specs.Laid.{laid};
ghost use Rattle.event_message.specs.After.{Leaves, rows_taken_out, drop_after, once_after};
ghost use Rattle.event_message.specs.Deciding.{expunge_after};

use event_message::Left;
use line_message::Expunge;
use line_put::Kept;
use model::{Mailbox, MessageNumber, Session};
use table_mailboxes::row;

// Entry k is gone where its line was written, and else it waits.
fn take_out(words: &mut [u64], used: usize, k: usize, gone: bool) -> usize
    requires { (k < used) × (used * 6 ≤ length words.old) }
    ensures { (words.new ≡ laid words.old (rows_taken_out (messages words.old) used k gone)) × (result ≡ cond gone (used - 1) used) }
{
    if gone {
        table_messages::remove(words, used, k);
        return used - 1;
    }
    let e = table_messages::get(words, k);
    table_messages::put(words, k, table_messages::changed(e, e.flags, 1, e.counter));
    used
}

// Entry k is gone, and its mailbox's STATUS is told or not.
fn drop_one(
    words: &mut [u64],
    used: usize,
    queue: &mut [u8],
    s: &Session,
    filled: usize,
    k: usize,
    x: &Mailbox,
    on: bool,
) -> Left
    requires { (k < used) × (used * 6 ≤ length words.old) × (64 ≤ length queue.old) × (length queue.old ≤ 65536) × (filled ≤ 65536) × (on ≡ true → filled ≤ length queue.old - 64) }
    ensures { Leaves (drop_after (messages words.old) used queue.old s.now filled k x.now on) words.old words.new result.used queue.new result.kept.session result.kept.filled }
{
    table_messages::remove(words, used, k);
    let rest = used - 1;
    Left {
        used: rest,
        kept: event_message::tell_status(&words[..6 * rest], queue, s, filled, on, x),
    }
}

// Entry k's line is written and it is gone, or else the overflow line, and it waits.
fn drop_now(
    words: &mut [u64],
    used: usize,
    queue: &mut [u8],
    s: &Session,
    filled: usize,
    k: usize,
    n: MessageNumber,
) -> Left
    requires { (k < used) × (used * 6 ≤ length words.old) × (64 ≤ length queue.old) × (length queue.old ≤ 65536) × (filled ≤ length queue.old - 64) }
    ensures { Leaves (once_after (messages words.old) used queue.old s.now filled k n.0) words.old words.new result.used queue.new result.kept.session result.kept.filled }
{
    let said = line_put::say(queue, filled, &Expunge { n });
    let rest = take_out(words, used, k, said.fits);
    Left {
        used: rest,
        kept: line_put::hear(*s, said),
    }
}

// `XP` of entry k, which is a message of mailbox x. The row has the record's counter already, and the entry keeps its own.
#[tactic(auto, unfolding(event_message::specs::Deciding::expunge_after, event_message::specs::After::remove_after))]
pub fn expunge(
    words: &mut [u64],
    used: usize,
    queue: &mut [u8],
    s: &Session,
    filled: usize,
    x: &Mailbox,
    k: usize,
) -> Left
    requires { (k < used) × (used * 6 ≤ length words.old) × (64 ≤ length queue.old) × (length queue.old ≤ 65536) × (filled ≤ 65536) × ((s.now.groupcount ≡ 0 → ⊥) → filled ≤ length queue.old - 64) }
    ensures { Leaves (expunge_after (messages words.old) used queue.old s.now filled k x.now) words.old words.new result.used queue.new result.kept.session result.kept.filled }
{
    let e = table_messages::get(words, k);
    if !event_message::has_seen(s, x, e.uid) {
        let chosen = event_message::is_chosen(s, x);
        let on = event_message::is_told(s, x, chosen, 1);
        return drop_one(words, used, queue, s, filled, k, x, on);
    }
    if row::has_rights(x.attributes) && match_groups::immediate_asks(s, 1) {
        let n = event_message::place_in(words, used, s, e.uid);
        return drop_now(words, used, queue, s, filled, k, n);
    }
    let rest = take_out(words, used, k, false);
    Left {
        used: rest,
        kept: Kept {
            session: *s,
            filled: filled as u64,
        },
    }
}
