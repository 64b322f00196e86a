// An ESEARCH from its command line to its outcome: what it asks, which mailboxes it searches, what it finds there, its lines and its
// tagged line.
#![tactic(auto)]

ghost use Rattle.std.specs.Prelude.{◌≡◌, List, ℕ, ◌≤◌, length};
ghost use Rattle.model.specs.Requests.{Search, search};
ghost use Rattle.model.specs.Reading.{ok};
ghost use Rattle.model.specs.Commands.{command_of};
ghost use Rattle.model.specs.Memory.{Memory, boxes};
ghost use Rattle.model.specs.Records.{command};
ghost use Rattle.model.specs.Answering.{first_reply};
ghost use Rattle.model.specs.declared.Reply.TheVariants.{Accepted};
ghost use Rattle.demands.specs.Lasting.Law.{Law};
ghost use Rattle.table_mailboxes.specs.Columns.{Laid};
ghost use Rattle.table_messages.specs.Words.{messages};
ghost use Rattle.record_outcome.specs.Coming.{Lends, Ready, Comes, ladder};
ghost use Rattle.search_answer.specs.Coming.{Tells};

use line_put::Said;
use model::{Counts, Refusal, Session, Uid};
use record_outcome::Outcome;
use search_hits::find;
use search_lines::say;
use table_mailboxes::Columns;

// What a line finds, said. `words`: the entries in use.
fn tell(
    queue: &mut [u8],
    filled: usize,
    text: &[u8],
    words: &[u64],
    selected: u64,
    told: Uid,
    cols: &Columns,
) -> Said
    requires { ((64 ≤ length queue.old) × (length queue.old ≤ 65536) × (filled ≤ 65536)) × ((length text.now ≤ 1024) × (length (messages words.now) ≤ 1024)) }
    ensures { Tells text.now words.now selected told.0 cols.now queue.old filled queue.new result.fits result.end }
{
    let mut rows = [0usize; 64];
    let mut uids = [0u64; 2048];
    let mut starts = [0usize; 64];
    let mut counts = [0usize; 64];
    let hits = find(
        text,
        words,
        selected,
        told,
        cols,
        &mut rows,
        &mut uids,
        &mut starts,
        &mut counts,
    );
    say(
        queue, filled, text, cols, &rows, &uids, &starts, &counts, hits,
    )
}

// What a command line that is an accepted search comes to.
pub fn answer(
    words: &[u64],
    queue: &mut [u8],
    counts: Counts,
    s: &Session,
    cols: &Columns,
    text: &[u8],
) -> Result<Outcome, Refusal>
    requires { Ready words.now counts s.now queue.old × (length text.now ≤ 1024) }
    ensures { (m : Memory) (nexts counters : List ℕ) (p : ℕ) (a : Search) → Lends m words.now counts s.now queue.old → Law m → length (boxes m) ≡ cols.now.n → Laid (boxes m) cols.now.ids cols.now.attributes cols.now.lens cols.now.validities nexts counters cols.now.names → command_of text.now ≡ ok p (search a) → first_reply m text.now ≡ Accepted → Comes m (ladder m (command text.now)) result words.now words.now queue.new }
{
    let said = tell(
        queue,
        counts.filled as usize,
        text,
        &words[..6 * counts.messages as usize],
        table_mailboxes::wide_id(s.selected),
        Uid(table_mailboxes::wide_number(s.told)),
        cols,
    );
    record_reply::outcome(said, counts, s)
}
