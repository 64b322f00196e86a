// What a host calls: the step on memory that it lends, and thin functions over its mailbox table. Each takes what the host keeps,
// asks nothing, and says of every octet what becomes of it.
#![tactic(auto)]

ghost use Rattle.std.specs.Prelude.{◌≡◌, take, set};
ghost use Rattle.model.specs.Memory.{place};
ghost use Rattle.lent_rows.specs.Rows.{place_named};
ghost use Rattle.step.specs.Served.{lent_as};
ghost use Rattle.exported.specs.Called.{Calls};
ghost use Rattle.exported.specs.Layout.{lent_layout};

use lent_answer::Answered;
use model::{Counts, Mailbox, Session};

// ---- what a host was built for

// The number of the layout of lent memory. A host compares it with the one that it was built for before it lends anything.
pub fn borjavid_layout() -> u32
    ensures { result ≡ lent_layout }
{
    2
}

// ---- the step

// One record on the memory that a host lends. The counts stand beside the session, each lent by `&mut`: a command that is not accepted
// changes the one and not the other. Rows, words, counts and session fill the six registers of a call; queue and record lie behind them,
// so that no slice is split, which Rust and Rattle do in different ways.
pub fn borjavid_step(
    rows: &mut [Mailbox],
    words: &mut [u64],
    counts: &mut Counts,
    session: &mut Session,
    queue: &mut [u8],
    record: &[u8],
) -> Answered
    ensures { Calls (lent_as rows.old words.old counts.old session.old queue.old) «record».now result (lent_as rows.new words.new counts.new session.new queue.new) }
{
    let before = *counts;
    let came = step_lent::served(rows, words, before, *session, queue, record);
    if let Ok(out) = &came {
        lent_answer::write_back(rows, before.mailboxes, &out.change);
        *counts = out.counts;
        *session = out.session;
    }
    lent_answer::numbers(&came)
}

// ---- the mailbox table

// The place of the first used row with the id, or how many are used. Of a table that is too long the first 64 rows are searched.
pub fn borjavid_find_id(rows: &[Mailbox], used: usize, id: u16) -> usize
    ensures { result ≡ place id (take used (take 64 rows.now)) }
{
    lent_rows::find_id(lent_rows::in_use(rows, used as u64), id)
}

// The place of the first used row with the name, octet for octet, or how many are used; searched likewise.
pub fn borjavid_find_name(rows: &[Mailbox], used: usize, name: &[u8]) -> usize
    ensures { result ≡ place_named name.now (take used (take 64 rows.now)) }
{
    lent_rows::find_name(lent_rows::in_use(rows, used as u64), name)
}

// Row k becomes x; where there is none, nothing changes.
pub fn borjavid_set_row(rows: &mut [Mailbox], k: usize, x: Mailbox)
    ensures { rows.new ≡ set rows.old k x }
{
    lent_rows::set_row(rows, k, x);
}
