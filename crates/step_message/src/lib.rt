// A record about messages is served by its kind: `ME XP FL`.
#![tactic(auto)]

ghost use Rattle.std.specs.Prelude.{List, ℕ, ◌≤◌, ◌/◌, length};
ghost use Rattle.model.specs.Memory.{Memory};
ghost use Rattle.record_kind.specs.Subjects.{message_kind};
ghost use Rattle.record_kind.specs.Serving.{InRange, Serves};
ghost use Rattle.record_outcome.specs.Coming.{Ready};

use model::{Counts, Refusal, Session, Uid};
use record_kind::OfMessage;
use record_outcome::{Outcome, Place};

// The mailbox that the record is about was found so; v has the record's numbers.
pub fn serve(
    kind: OfMessage,
    v: [u64; 5],
    found: Option<Place>,
    words: &mut [u64],
    counts: Counts,
    s: &Session,
    queue: &mut [u8],
) -> Result<Outcome, Refusal>
    requires { Ready words.old counts s.now queue.old × (length words.old / 6 ≤ 1024) × InRange (message_kind kind) v }
    ensures { (m : Memory) (t : List ℕ) → Serves m (message_kind kind) v t found words.old counts s.now queue.old result words.new queue.new }
{
    let [id, uid, c, d, e] = v;
    let uid = Uid(uid);
    match kind {
        OfMessage::Arrive => record_message::arrive(
            words, queue, counts, s, found, id, uid, c, d, e,
        ),
        OfMessage::Expunge => record_message::expunge(words, queue, counts, s, found, id, uid, c),
        OfMessage::Reflag => record_message::flag(words, queue, counts, s, found, id, uid, c, d),
    }
}
