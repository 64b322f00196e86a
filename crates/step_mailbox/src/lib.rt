// A record about mailboxes is served by its kind: `MB DL RN SB RT`.
#![tactic(auto)]

ghost use Rattle.std.specs.Prelude.{◌≡◌, length};
ghost use Rattle.model.specs.Memory.{Memory, boxes};
ghost use Rattle.model.specs.declared.Mailbox.{Mailbox};
ghost use Rattle.table_mailboxes.specs.Columns.{Column, Names};
ghost use Rattle.record_kind.specs.Subjects.{mailbox_kind};
ghost use Rattle.record_kind.specs.Serving.{InRange, Follows, Serves};
ghost use Rattle.record_outcome.specs.Coming.{Ready};

use model::{Counts, Refusal, Session};
use record_kind::OfMailbox;
use record_mailbox::{creating, deleting, renaming, rights, subscriptions};
use record_outcome::{Outcome, Place};
use table_mailboxes::Columns;

// The mailbox that the record is about was found so; v has the record's numbers, and `name` stands behind them.
pub fn serve(
    kind: OfMailbox,
    v: [u64; 5],
    found: Option<Place>,
    lent: usize,
    cols: &Columns,
    words: &mut [u64],
    counts: Counts,
    s: &Session,
    queue: &mut [u8],
    name: &[u8],
) -> Result<Outcome, Refusal>
    requires { Ready words.old counts s.now queue.old × InRange (mailbox_kind kind) v × Follows (mailbox_kind kind) name.now }
    ensures { (m : Memory) → length m.rows ≡ lent → length (boxes m) ≡ cols.now.n → Column (λ (y : Mailbox). y.id) (boxes m) cols.now.ids → Column (λ (y : Mailbox). y.attributes) (boxes m) cols.now.attributes → Column (λ (y : Mailbox). y.namelen) (boxes m) cols.now.lens → Names (boxes m) cols.now.names → Serves m (mailbox_kind kind) v name.now found words.old counts s.now queue.old result words.new queue.new }
{
    let [a, b, c, d, e] = v;
    match kind {
        OfMailbox::Create => creating::create(
            queue, counts, s, lent, cols, found, a, b, c, d, e, name,
        ),
        OfMailbox::Delete => deleting::delete(words, queue, counts, s, cols, found, a, b),
        OfMailbox::Rename => renaming::rename(queue, counts, s, cols, found, a, b, name),
        OfMailbox::Subscribe => subscriptions::subscribe(queue, counts, s, found, a, b, c),
        OfMailbox::Grant => rights::grant(queue, counts, s, cols, found, a, b),
    }
}
