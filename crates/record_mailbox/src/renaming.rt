// `RN`: a mailbox gets another name.
ghost use Rattle.std.specs.Prelude.{◌≡◌, true, List, ℕ, ◌≤◌, length};
ghost use Rattle.model.specs.Memory.{Memory, boxes};
ghost use Rattle.model.specs.Names.{valid, fold};
ghost use Rattle.model.specs.Records.{rename};
ghost use Rattle.model.specs.declared.Mailbox.{Mailbox};
ghost use Rattle.demands.specs.Lasting.Law.{Law};
ghost use Rattle.table_mailboxes.specs.Columns.{Column, Names};
ghost use Rattle.laws.specs.Room.{Room};
ghost use Rattle.record_outcome.specs.Coming.{Lends, Found, Comes, ladder};

use event_mailbox::renaming;
use model::{Counts, Refusal, Session};
use record_outcome::{Outcome, Place};
use table_mailboxes::Columns;

// Mailbox `id`, which was found so, gets a name that no other has.
pub fn rename(
    queue: &mut [u8],
    counts: Counts,
    s: &Session,
    cols: &Columns,
    found: Option<Place>,
    id: u64,
    quiet: u64,
    name: &[u8],
) -> Result<Outcome, Refusal>
    requires { Room (length queue.old) counts.filled s.now × (quiet ≤ 1) }
    ensures { (m : Memory) (ws : List ℕ) → Lends m ws counts s.now queue.old → Law m → Found m id found → length (boxes m) ≡ cols.now.n → Column (λ (y : Mailbox). y.id) (boxes m) cols.now.ids → Column (λ (y : Mailbox). y.namelen) (boxes m) cols.now.lens → Names (boxes m) cols.now.names → valid name.now ≡ true → Comes m (ladder m (rename id quiet (fold name.now))) result ws ws queue.new }
{
    let place = found.ok_or(Refusal::WrongId)?;
    if crate::is_taken(cols, id, name) {
        return Err(Refusal::NameHeld);
    }
    let done = renaming::rename(
        queue,
        s,
        counts.filled as usize,
        &place.row,
        name,
        quiet as u8,
    );
    Ok(crate::put(place.at, counts.mailboxes, counts, done))
}
