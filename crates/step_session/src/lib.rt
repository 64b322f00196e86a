// A record about the session is served by its kind: `SE CE DR`.
#![tactic(auto)]

ghost use Rattle.std.specs.Prelude.{List, ℕ};
ghost use Rattle.model.specs.Memory.{Memory};
ghost use Rattle.record_kind.specs.Subjects.{session_kind};
ghost use Rattle.record_kind.specs.Serving.{InRange, Serves};
ghost use Rattle.record_outcome.specs.Coming.{Ready};

use model::{Counts, Refusal, Session};
use record_kind::OfSession;
use record_outcome::{Outcome, Place};

// The mailbox that the record needs was found so; v has the record's numbers.
pub fn serve(
    kind: OfSession,
    v: [u64; 5],
    found: Option<Place>,
    words: &mut [u64],
    counts: Counts,
    s: &Session,
    queue: &mut [u8],
) -> Result<Outcome, Refusal>
    requires { Ready words.old counts s.now queue.old × InRange (session_kind kind) v }
    ensures { (m : Memory) (t : List ℕ) → Serves m (session_kind kind) v t found words.old counts s.now queue.old result words.new queue.new }
{
    let [a, ..] = v;
    match kind {
        OfSession::Select => record_session::select(words, counts, s, found, a),
        OfSession::Ended => {
            let x = record_outcome::row_of(found);
            record_session::end_command(words, queue, counts, s, &x, a)
        }
        OfSession::Drained => record_session::drain(queue, counts, s, a),
    }
}
