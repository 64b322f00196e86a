// The records about the session, `SE CE DR`: which of them are refused and why, and what the others come to.
#![tactic(auto)]

ghost use Rattle.std.specs.Prelude.{◌≡◌, not, ◌&&◌, List, ℕ, ◌*◌, ◌≤◌, eqb, length};
ghost use Rattle.std.specs.Option.{is_none};
ghost use Rattle.model.specs.Memory.{Memory, selected_box};
ghost use Rattle.model.specs.Records.{select, ended, drained};
ghost use Rattle.model.specs.Refusals.{unfit};
ghost use Rattle.demands.specs.Lasting.Law.{Law};
ghost use Rattle.record_outcome.specs.Coming.{Lends, Ready, Found, Comes, ladder};

use model::{Counts, Mailbox, Refusal, Session, Uid};
use record_outcome::{Outcome, Place};
use table_mailboxes::row;

// ---- `SE`
// Whether a mailbox cannot be selected: it is unselectable, or may not be read.
fn is_unfit(x: &Mailbox) -> bool
    ensures { result ≡ unfit x.now }
{
    !table_mailboxes::has(x.attributes, 0) || !table_mailboxes::has(x.attributes, 5)
}

// Whether the row of mailbox `id` stands in the way. To select none is never refused.
fn is_barred(x: &Mailbox, id: u64) -> bool
    ensures { result ≡ (not (eqb id 0) && unfit x.now) }
{
    id != 0 && is_unfit(x)
}

// Whether an id other than none was not found.
fn is_unknown(found: Option<Place>, id: u64) -> bool
    ensures { result ≡ (not (eqb id 0) && is_none found) }
{
    id != 0 && found.is_none()
}

// Mailbox `id`, which was found so, is selected; or none is.
pub fn select(
    words: &mut [u64],
    counts: Counts,
    s: &Session,
    found: Option<Place>,
    id: u64,
) -> Result<Outcome, Refusal>
    requires { (counts.messages * 6 ≤ length words.old) × (id ≤ 65535) }
    ensures { (m : Memory) (q : List ℕ) → Lends m words.old counts s.now q → Law m → Found m id found → Comes m (ladder m (select id)) result words.old words.new q }
{
    let x = record_outcome::row_of(found);
    if is_unknown(found, id) {
        return Err(Refusal::WrongId);
    }
    if is_barred(&x, id) {
        return Err(Refusal::WrongState);
    }
    let chose = event_session::select(words, counts.messages as usize, s, id as u16, x.uidnext);
    let after = Counts {
        messages: chose.used as u64,
        ..counts
    };
    Ok(Outcome::unmoved(None, after, chose.session))
}

// ---- `CE`
// A command has ended; x is the row of the selected mailbox. The answer counts the lines that are still owed.
pub fn end_command(
    words: &mut [u64],
    queue: &mut [u8],
    counts: Counts,
    s: &Session,
    x: &Mailbox,
    class: u64,
) -> Result<Outcome, Refusal>
    requires { Ready words.old counts s.now queue.old }
    ensures { (m : Memory) → Lends m words.old counts s.now queue.old → Law m → x.now ≡ selected_box m → Comes m (ladder m (ended class)) result words.old words.new queue.new }
{
    let used = counts.messages as usize;
    if !event_session::is_owed(
        &words[..6 * used],
        u64::from(s.selected),
        Uid(u64::from(s.told)),
    ) {
        return Ok(Outcome::unmoved(Some(0), counts, *s));
    }
    let mut order = [0usize; 1024];
    let closed = event_session::end_command(
        words,
        used,
        queue,
        &mut order,
        s,
        counts.filled as usize,
        class == 1,
        row::has_rights(x.attributes),
        x.uidnext,
    );
    let after = Counts {
        messages: closed.used as u64,
        filled: closed.filled as u64,
        ..counts
    };
    Ok(Outcome::unmoved(Some(closed.rest), after, closed.session))
}

// ---- `DR`
// The first n octets of the queue were sent.
pub fn drain(queue: &mut [u8], counts: Counts, s: &Session, n: u64) -> Result<Outcome, Refusal>
    requires { counts.filled ≤ length queue.old }
    ensures { (m : Memory) (ws : List ℕ) → Lends m ws counts s.now queue.old → Comes m (ladder m (drained n)) result ws ws queue.new }
{
    if counts.filled < n {
        return Err(Refusal::WrongState);
    }
    let left = event_session::drain(queue, counts.filled as usize, n as usize);
    let after = Counts {
        filled: left as u64,
        ..counts
    };
    Ok(Outcome::unmoved(None, after, *s))
}
