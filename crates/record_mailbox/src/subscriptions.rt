// `SB`: a mailbox becomes subscribed or unsubscribed.
ghost use Rattle.std.specs.Prelude.{List, ℕ, ◌≤◌, length};
ghost use Rattle.model.specs.Memory.{Memory};
ghost use Rattle.model.specs.Records.{subscribe};
ghost use Rattle.demands.specs.Lasting.Law.{Law};
ghost use Rattle.laws.specs.Room.{Room};
ghost use Rattle.record_outcome.specs.Coming.{Lends, Found, Comes, ladder};

use event_mailbox::subscriptions;
use model::{Counts, Refusal, Session};
use record_outcome::{Outcome, Place};

// Mailbox `id`, which was found so, becomes subscribed, or unsubscribed where b is 0.
pub fn subscribe(
    queue: &mut [u8],
    counts: Counts,
    s: &Session,
    found: Option<Place>,
    id: u64,
    b: u64,
    quiet: u64,
) -> Result<Outcome, Refusal>
    requires { Room (length queue.old) counts.filled s.now × (b ≤ 1) × (quiet ≤ 1) }
    ensures { (m : Memory) (ws : List ℕ) → Lends m ws counts s.now queue.old → Law m → Found m id found → Comes m (ladder m (subscribe id b quiet)) result ws ws queue.new }
{
    let place = found.ok_or(Refusal::WrongId)?;
    let done = subscriptions::subscribe(
        queue,
        s,
        counts.filled as usize,
        &place.row,
        b as u8,
        quiet as u8,
    );
    Ok(crate::put(place.at, counts.mailboxes, counts, done))
}
