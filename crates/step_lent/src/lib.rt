// The step on lent memory but for what it leaves of the table and its answer in numbers.
#![tactic(auto)]

ghost use Rattle.std.specs.Prelude.{length};
ghost use Rattle.lent_rows.specs.Rows.{loaded};
ghost use Rattle.step.specs.Served.{Stepped};

use model::{Counts, Mailbox, Refusal, Session};
use record_outcome::Outcome;
use table_mailboxes::Columns;

// One record, served: the used rows are laid out by columns, and what becomes of the table is in the outcome.
pub fn served(
    rows: &[Mailbox],
    words: &mut [u64],
    counts: Counts,
    s: Session,
    queue: &mut [u8],
    record: &[u8],
) -> Result<Outcome, Refusal>
    ensures { Stepped (loaded rows.now) (length rows.now) words.old counts s queue.old «record».now result words.new queue.new }
{
    let mut cols = Columns::empty();
    lent_rows::lay(rows, counts.mailboxes, &mut cols);
    step::decide(rows.len(), &cols, words, counts, s, queue, record)
}
