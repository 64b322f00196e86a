// The records about messages, from their refusals to what they leave: `FL`, `XP` and `ME`.
#![tactic(auto)]

ghost use Rattle.std.specs.Prelude.{◌≡◌, ◌/◌, ◌≤◌, ◌||◌, leb, ltb, length};
ghost use Rattle.model.specs.Memory.{Memory, counter_of};
ghost use Rattle.model.specs.Records.{arrive, expunge, reflag};
ghost use Rattle.demands.specs.Lasting.Law.{Law};
ghost use Rattle.record_outcome.specs.Coming.{Lends, Ready, Found, Comes, ladder, putting};

use event_message::Left;
use model::{Counts, Mailbox, Refusal, Session, Uid};
use record_outcome::{Outcome, Place};

// Whether a counter is not above the row's.
fn is_stale(x: &Mailbox, counter: u64) -> bool
    ensures { result ≡ leb counter (counter_of x.now) }
{
    counter <= table_mailboxes::counter_of(*x)
}

// Whether a new message cannot have this UID and this counter.
fn is_spent(x: &Mailbox, uid: Uid, counter: u64) -> bool
    ensures { result ≡ (ltb uid.0 x.now.uidnext || leb counter (counter_of x.now)) }
{
    uid.0 < u64::from(x.uidnext) || is_stale(x, counter)
}

// What is left of the messages, and the row at a place as it became.
fn put_left(at: usize, row: Mailbox, counts: Counts, left: Left) -> Outcome
    ensures { result ≡ putting at row (record { mailboxes = counts.mailboxes; messages = left.used; filled = left.kept.filled }) left.kept.session }
{
    let after = Counts {
        messages: left.used as u64,
        filled: left.kept.filled,
        ..counts
    };
    Outcome::put(at, row, after, left.kept.session)
}

// `FL` of message uid of mailbox id, which was found so.
pub fn flag(
    words: &mut [u64],
    queue: &mut [u8],
    counts: Counts,
    s: &Session,
    found: Option<Place>,
    id: u64,
    uid: Uid,
    flags: u64,
    counter: u64,
) -> Result<Outcome, Refusal>
    requires { Ready words.old counts s.now queue.old }
    ensures { (m : Memory) → Lends m words.old counts s.now queue.old → Law m → Found m id found → Comes m (ladder m (reflag id uid.0 flags counter)) result words.old words.new queue.new }
{
    let place = found.ok_or(Refusal::WrongId)?;
    if is_stale(&place.row, counter) {
        return Err(Refusal::WrongUid);
    }
    let used = counts.messages as usize;
    let k = table_messages::find(&words[..6 * used], id, uid).ok_or(Refusal::WrongUid)?;
    let row = table_mailboxes::with_counter(place.row, counter);
    let filled = counts.filled as usize;
    let left = event_flags::flag(words, used, queue, s, filled, &row, k, flags, counter);
    Ok(put_left(place.at, row, counts, left))
}

// `XP` of message uid of mailbox id, which was found so.
pub fn expunge(
    words: &mut [u64],
    queue: &mut [u8],
    counts: Counts,
    s: &Session,
    found: Option<Place>,
    id: u64,
    uid: Uid,
    counter: u64,
) -> Result<Outcome, Refusal>
    requires { Ready words.old counts s.now queue.old }
    ensures { (m : Memory) → Lends m words.old counts s.now queue.old → Law m → Found m id found → Comes m (ladder m (expunge id uid.0 counter)) result words.old words.new queue.new }
{
    let place = found.ok_or(Refusal::WrongId)?;
    if is_stale(&place.row, counter) {
        return Err(Refusal::WrongUid);
    }
    let used = counts.messages as usize;
    let k = table_messages::find(&words[..6 * used], id, uid).ok_or(Refusal::WrongUid)?;
    let row = table_mailboxes::with_counter(place.row, counter);
    let left = event_expunges::expunge(words, used, queue, s, counts.filled as usize, &row, k);
    Ok(put_left(place.at, row, counts, left))
}

// `ME` of a new message of mailbox id, which was found so.
pub fn arrive(
    words: &mut [u64],
    queue: &mut [u8],
    counts: Counts,
    s: &Session,
    found: Option<Place>,
    id: u64,
    uid: Uid,
    flags: u64,
    size: u64,
    counter: u64,
) -> Result<Outcome, Refusal>
    requires { Ready words.old counts s.now queue.old × (length words.old / 6 ≤ 1024) × (uid.0 ≤ 4294967294) }
    ensures { (m : Memory) → Lends m words.old counts s.now queue.old → Law m → Found m id found → Comes m (ladder m (arrive id uid.0 flags size counter)) result words.old words.new queue.new }
{
    let place = found.ok_or(Refusal::WrongId)?;
    if is_spent(&place.row, uid, counter) {
        return Err(Refusal::WrongUid);
    }
    let used = counts.messages as usize;
    if words.len() / 6 <= used {
        return Err(Refusal::TableFull);
    }
    let x = table_mailboxes::with_counter(place.row, counter);
    let filled = counts.filled as usize;
    let came = event_arrivals::receive(
        words, used, queue, s, filled, &x, uid, flags, size, counter,
    );
    Ok(put_left(place.at, came.row, counts, came.left))
}
