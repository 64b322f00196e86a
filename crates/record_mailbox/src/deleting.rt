// `DL`: a mailbox is taken out, and its messages with it.
ghost use Rattle.std.specs.Prelude.{◌≡◌, not, ◌&&◌, ◌*◌, ◌≤◌, eqb, length};
ghost use Rattle.model.specs.Memory.{Memory, boxes};
ghost use Rattle.model.specs.Records.{delete};
ghost use Rattle.model.specs.declared.Mailbox.{Mailbox};
ghost use Rattle.demands.specs.Lasting.Law.{Law};
ghost use Rattle.table_mailboxes.specs.Columns.{Column, Names};
ghost use Rattle.laws.specs.Room.{Room};
ghost use Rattle.record_outcome.specs.Coming.{Lends, Ready, Found, Comes, ladder};
ghost use Rattle.record_mailbox.specs.Deleting.{TakenOut};

use event_mailbox::deleting;
use model::{Counts, Mailbox, Refusal, Session};
use record_outcome::{Change, Outcome, Place};
use table_mailboxes::Columns;
use table_sweep::Sweep;

// Whether mailbox `id` is the selected one.
fn is_selected(s: &Session, id: u64) -> bool
    ensures { result ≡ (not (eqb id 0) && eqb id s.now.selected) }
{
    id != 0 && id == u64::from(s.selected)
}

// The mailbox is taken out, with the messages of mailbox `id`; y stands for its parent.
fn take_out(
    words: &mut [u64],
    queue: &mut [u8],
    counts: Counts,
    s: &Session,
    place: &Place,
    y: &Mailbox,
    id: u64,
    quiet: u64,
) -> Outcome
    requires { Room (length queue.old) counts.filled s.now × (counts.messages * 6 ≤ length words.old) × (quiet ≤ 1) }
    ensures { TakenOut words.old queue.old counts s.now place.now.at y.now place.now.row id quiet words.new queue.new result }
{
    let kept = deleting::delete(queue, s, counts.filled as usize, &place.row, y, quiet as u8);
    let used = table_sweep::settle(words, counts.messages as usize, Sweep::Deleted(id));
    Outcome {
        counted: None,
        change: Change::Taken { at: place.at },
        counts: Counts {
            mailboxes: counts.mailboxes.saturating_sub(1),
            messages: used as u64,
            filled: kept.filled,
        },
        session: kept.session,
    }
}

// Mailbox `id`, which was found so and is not selected, is no more.
pub fn delete(
    words: &mut [u64],
    queue: &mut [u8],
    counts: Counts,
    s: &Session,
    cols: &Columns,
    found: Option<Place>,
    id: u64,
    quiet: u64,
) -> Result<Outcome, Refusal>
    requires { Ready words.old counts s.now queue.old × (quiet ≤ 1) }
    ensures { (m : Memory) → Lends m words.old counts s.now queue.old → Law m → Found m id found → length (boxes m) ≡ cols.now.n → Column (λ (y : Mailbox). y.attributes) (boxes m) cols.now.attributes → Column (λ (y : Mailbox). y.namelen) (boxes m) cols.now.lens → Names (boxes m) cols.now.names → Comes m (ladder m (delete id quiet)) result words.old words.new queue.new }
{
    let place = found.ok_or(Refusal::WrongId)?;
    if is_selected(s, id) {
        return Err(Refusal::WrongState);
    }
    let y = match_parent::parent(s, cols, &place.row);
    Ok(take_out(words, queue, counts, s, &place, &y, id, quiet))
}
