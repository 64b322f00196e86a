// The C side of what a host calls: the same names, the same clauses, and each function calls the one of `exported`.
#![tactic(auto)]

ghost use Rattle.std.specs.Prelude.{◌≡◌, take, set};
ghost use Rattle.model.specs.Memory.{place};
ghost use Rattle.lent_rows.specs.Rows.{place_named};
ghost use Rattle.step.specs.Served.{lent_as};
ghost use Rattle.exported.specs.Called.{Calls};
ghost use Rattle.exported.specs.Layout.{lent_layout};

use lent_answer::Answered;
use model::{Counts, Mailbox, Session};

// ---- what a host was built for

// The number of the layout of lent memory. A host compares it with the one that it was built for before it lends anything.
#[unsafe(no_mangle)]
pub extern "C" fn borjavid_layout() -> u32
    ensures { result ≡ lent_layout }
{
    exported::borjavid_layout()
}

// ---- the step

// One record on the memory that a host lends. The counts stand beside the session, each lent by `&mut`: a command that is not accepted
// changes the one and not the other. Rows, words, counts and session fill the six registers of a call; queue and record lie behind them,
// so that no slice is split, which Rust and Rattle do in different ways.
#[unsafe(no_mangle)]
pub extern "C" fn borjavid_step(
    rows: &mut [Mailbox],
    words: &mut [u64],
    counts: &mut Counts,
    session: &mut Session,
    queue: &mut [u8],
    record: &[u8],
) -> Answered
    ensures { Calls (lent_as rows.old words.old counts.old session.old queue.old) «record».now result (lent_as rows.new words.new counts.new session.new queue.new) }
{
    exported::borjavid_step(rows, words, counts, session, queue, record)
}

// ---- the mailbox table

// The place of the first used row with the id, or how many are used. Of a table that is too long the first 64 rows are searched.
#[unsafe(no_mangle)]
pub extern "C" fn borjavid_find_id(rows: &[Mailbox], used: usize, id: u16) -> usize
    ensures { result ≡ place id (take used (take 64 rows.now)) }
{
    exported::borjavid_find_id(rows, used, id)
}

// The place of the first used row with the name, octet for octet, or how many are used; searched likewise.
#[unsafe(no_mangle)]
pub extern "C" fn borjavid_find_name(rows: &[Mailbox], used: usize, name: &[u8]) -> usize
    ensures { result ≡ place_named name.now (take used (take 64 rows.now)) }
{
    exported::borjavid_find_name(rows, used, name)
}

// Row k becomes x; where there is none, nothing changes.
#[unsafe(no_mangle)]
pub extern "C" fn borjavid_set_row(rows: &mut [Mailbox], k: usize, x: Mailbox)
    ensures { rows.new ≡ set rows.old k x }
{
    exported::borjavid_set_row(rows, k, x);
}
