// `RT`: the rights of a mailbox change.
ghost use Rattle.std.specs.Prelude.{◌≡◌, List, ℕ, ◌≤◌, length};
ghost use Rattle.model.specs.Memory.{Memory, boxes};
ghost use Rattle.model.specs.Records.{grant};
ghost use Rattle.model.specs.declared.Mailbox.{Mailbox};
ghost use Rattle.demands.specs.Lasting.Law.{Law};
ghost use Rattle.table_mailboxes.specs.Columns.{Column, Names};
ghost use Rattle.laws.specs.Room.{Room};
ghost use Rattle.record_outcome.specs.Coming.{Lends, Found, Comes, ladder};

use event_mailbox::rights;
use model::{Counts, Refusal, Session};
use record_outcome::{Outcome, Place};
use table_mailboxes::Columns;

// The rights of mailbox `id`, which was found so, become these.
pub fn grant(
    queue: &mut [u8],
    counts: Counts,
    s: &Session,
    cols: &Columns,
    found: Option<Place>,
    id: u64,
    rights: u64,
) -> Result<Outcome, Refusal>
    requires { Room (length queue.old) counts.filled s.now × (rights ≤ 48) }
    ensures { (m : Memory) (ws : List ℕ) → Lends m ws counts s.now queue.old → Law m → Found m id found → length (boxes m) ≡ cols.now.n → Column (λ (y : Mailbox). y.attributes) (boxes m) cols.now.attributes → Column (λ (y : Mailbox). y.namelen) (boxes m) cols.now.lens → Names (boxes m) cols.now.names → Comes m (ladder m (grant id rights)) result ws ws queue.new }
{
    let place = found.ok_or(Refusal::WrongId)?;
    let y = match_parent::parent(s, cols, &place.row);
    let done = rights::grant(
        queue,
        s,
        counts.filled as usize,
        place.row,
        &y,
        rights as u8,
    );
    Ok(crate::put(place.at, counts.mailboxes, counts, done))
}
