// `MB`: a mailbox is new.
ghost use Rattle.std.specs.Prelude.{◌≡◌, true, List, ℕ, ◌≤◌, length};
ghost use Rattle.model.specs.Memory.{Memory, boxes};
ghost use Rattle.model.specs.Names.{valid, fold};
ghost use Rattle.model.specs.Records.{create};
ghost use Rattle.model.specs.declared.Mailbox.{Mailbox};
ghost use Rattle.demands.specs.Lasting.Law.{Law};
ghost use Rattle.table_mailboxes.specs.Columns.{Column, Names};
ghost use Rattle.laws.specs.Room.{Room};
ghost use Rattle.record_outcome.specs.Coming.{Lends, Found, Comes, ladder};
ghost use Rattle.record_mailbox.specs.Creating.{Added};

use event_mailbox::creating;
use model::{Counts, Mailbox, Refusal, Session};
use record_outcome::{Outcome, Place};
use table_mailboxes::Columns;

// The new mailbox is row x and stands behind the last; y stands for its parent.
fn add(
    queue: &mut [u8],
    counts: Counts,
    s: &Session,
    x: Mailbox,
    y: &Mailbox,
    quiet: u64,
) -> Outcome
    requires { Room (length queue.old) counts.filled s.now × (counts.mailboxes ≤ 64) × (quiet ≤ 1) }
    ensures { Added queue.old counts s.now y.now x quiet queue.new result }
{
    let done = creating::create(queue, s, counts.filled as usize, x, y, quiet as u8);
    let n = counts.mailboxes;
    crate::put(n as usize, n + 1, counts, done)
}

// A mailbox is new, with an id that was not found and a name that no other has, where one more row is lent.
pub fn create(
    queue: &mut [u8],
    counts: Counts,
    s: &Session,
    lent: usize,
    cols: &Columns,
    found: Option<Place>,
    id: u64,
    a: u64,
    quiet: u64,
    validity: u64,
    counter: u64,
    name: &[u8],
) -> Result<Outcome, Refusal>
    requires { Room (length queue.old) counts.filled s.now × (counts.mailboxes ≤ 64) × (id ≤ 65535) × (a ≤ 63) × (quiet ≤ 1) × (validity ≤ 4294967295) }
    ensures { (m : Memory) (ws : List ℕ) → Lends m ws counts s.now queue.old → length m.rows ≡ lent → Law m → Found m id found → length (boxes m) ≡ cols.now.n → Column (λ (y : Mailbox). y.id) (boxes m) cols.now.ids → Column (λ (y : Mailbox). y.attributes) (boxes m) cols.now.attributes → Column (λ (y : Mailbox). y.namelen) (boxes m) cols.now.lens → Names (boxes m) cols.now.names → valid name.now ≡ true → Comes m (ladder m (create id a quiet validity counter (fold name.now))) result ws ws queue.new }
{
    if found.is_some() {
        return Err(Refusal::WrongId);
    }
    if crate::is_taken(cols, id, name) {
        return Err(Refusal::NameHeld);
    }
    if lent as u64 <= counts.mailboxes {
        return Err(Refusal::TableFull);
    }
    let x = creating::new_box(id as u16, a as u8, validity as u32, counter, name);
    let y = match_parent::parent(s, cols, &x);
    Ok(add(queue, counts, s, x, &y, quiet))
}
