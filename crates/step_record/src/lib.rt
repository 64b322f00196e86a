// A record in lawful memory: the mailbox that it needs is found, and it is served by what it is about.
#![tactic(auto)]

ghost use Rattle.std.specs.Prelude.{◌≡◌, ◌≤◌, ◌/◌, length};
ghost use Rattle.model.specs.Records.{record_of};
ghost use Rattle.model.specs.Memory.{Memory, boxes};
ghost use Rattle.demands.specs.Lasting.Law.{Law};
ghost use Rattle.record_read.specs.Reading.{Taken};
ghost use Rattle.record_outcome.specs.Coming.{Lends, Ready, Found, Comes, ladder};
ghost use Rattle.lent_rows.specs.Standing.{Stands};
ghost use Rattle.step_record.specs.Kinds.{Serves};

use model::{Counts, Refusal, Session};
use record_kind::Subject;
use record_outcome::{Outcome, Place};
use record_read::Received;
use table_mailboxes::Columns;

// The mailbox with the id, if one has it.
fn found(cols: &Columns, id: u64) -> Option<Place>
    ensures { (m : Memory) → Stands (boxes m) cols.now → Found m id result }
{
    let at = cols.find(id)?;
    let row = lent_rows::columns::row_at(cols, at);
    Some(Place { at, row })
}

// By what it is about. `found` is the mailbox that the record needs.
fn dispatch(
    r: &Received,
    found: Option<Place>,
    lent: usize,
    cols: &Columns,
    words: &mut [u64],
    counts: Counts,
    s: &Session,
    queue: &mut [u8],
    octets: &[u8],
) -> Result<Outcome, Refusal>
    requires { Ready words.old counts s.now queue.old × (length words.old / 6 ≤ 1024) × Taken octets.now r.now }
    ensures { Serves r.now found lent cols.now words.old counts s.now queue.old octets.now result words.new queue.new }
{
    let v = r.values;
    match record_kind::subject_of(r.kind) {
        Subject::Mailbox(kind) => step_mailbox::serve(
            kind,
            v,
            found,
            lent,
            cols,
            words,
            counts,
            s,
            queue,
            &octets[r.tail..],
        ),
        Subject::Message(kind) => step_message::serve(kind, v, found, words, counts, s, queue),
        Subject::Session(kind) => step_session::serve(kind, v, found, words, counts, s, queue),
        Subject::Command => {
            let x = record_outcome::row_of(found);
            record_command::answer(words, queue, counts, s, cols, &x, &octets[r.tail..])
        }
        Subject::Nothing => Err(Refusal::BadRecord),
    }
}

// The mailbox is found, and the record is served.
pub fn serve(
    lent: usize,
    cols: &Columns,
    words: &mut [u64],
    counts: Counts,
    s: &Session,
    queue: &mut [u8],
    octets: &[u8],
    r: &Received,
) -> Result<Outcome, Refusal>
    requires { Ready words.old counts s.now queue.old × (length words.old / 6 ≤ 1024) × Taken octets.now r.now }
    ensures { (m : Memory) → Lends m words.old counts s.now queue.old → Law m → length m.rows ≡ lent → Stands (boxes m) cols.now → Comes m (ladder m (record_of octets.now)) result words.old words.new queue.new }
{
    let id = record_kind::sought_id(r.kind, r.values[0], s.selected);
    let place = found(cols, id);
    dispatch(r, place, lent, cols, words, counts, s, queue, octets)
}
