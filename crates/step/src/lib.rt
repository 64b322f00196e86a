// The step: one record on lent memory. Refusal 1 and 2 are judged here.
#![tactic(auto)]

ghost use Rattle.std.specs.Prelude.{List};
ghost use Rattle.model.specs.declared.Mailbox.{Mailbox};
ghost use Rattle.step.specs.Served.{Seen, Stepped};

use model::{Counts, Mailbox, Refusal, Session};
use record_outcome::Outcome;
use table_mailboxes::Columns;

// A record on memory whose used rows come by columns; `lent` rows are lent.
pub fn decide(
    lent: usize,
    cols: &Columns,
    words: &mut [u64],
    counts: Counts,
    s: Session,
    queue: &mut [u8],
    octets: &[u8],
) -> Result<Outcome, Refusal>
    requires { (rows : List Mailbox) × Seen rows lent counts cols.now }
    ensures { (rows : List Mailbox) → Seen rows lent counts cols.now → Stepped rows lent words.old counts s queue.old octets.now result words.new queue.new }
{
    if !lawful::is_lawful(cols, lent, words, counts, &s, queue.len()) {
        return Err(Refusal::UnlawfulMemory);
    }
    let r = record_read::read(octets).ok_or(Refusal::BadRecord)?;
    step_record::serve(lent, cols, words, counts, &s, queue, octets, &r)
}

// One record on lent memory. `lent` rows are lent, and `table` has the first 64 of them; what becomes of them is in the outcome.
pub fn step(
    table: &[Mailbox; 64],
    lent: usize,
    words: &mut [u64],
    counts: Counts,
    s: Session,
    queue: &mut [u8],
    octets: &[u8],
) -> Result<Outcome, Refusal>
    ensures { Stepped table.now lent words.old counts s queue.old octets.now result words.new queue.new }
{
    let mut cols = Columns::empty();
    lent_rows::lay(table, counts.mailboxes, &mut cols);
    decide(lent, &cols, words, counts, s, queue, octets)
}
