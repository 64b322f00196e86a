// What a step leaves of the lent table, and its answer in numbers.
#![tactic(auto)]

ghost use Rattle.std.specs.Prelude.{◌≡◌, ◌≤◌, ◌<◌, length};
ghost use Rattle.record_outcome.specs.Coming.{answer_of, changed};
ghost use Rattle.lent_answer.specs.Numbers.{numbers_said};

use model::{Answer, Mailbox, Refusal};
use record_outcome::{Change, Outcome};

// What a call answers, in numbers: the refusal's number or 0, whether a count is given (0 or 1), and the count or 0.
#[repr(C)]
#[derive(Clone, Copy)]
pub struct Answered {
    pub refusal: u32,
    pub counted: u32,
    pub count: u64,
}

// The answer to a record, in numbers.
pub fn numbers(came: &Result<Outcome, Refusal>) -> Answered
    ensures { result ≡ numbers_said (answer_of came.now) }
{
    let answer = record_outcome::answer_of(came);
    let (counted, count) = match answer {
        Answer::Counted(n) => (1, n),
        Answer::Done | Answer::Refused(_) => (0, 0),
    };
    Answered {
        refusal: u32::from(record_outcome::number_of(&answer)),
        counted,
        count,
    }
}

// The table, of which `used` rows were in use, after a change that leaves no more rows than there are: a step's changes do. Any other
// changes nothing.
pub fn write_back(rows: &mut [Mailbox], used: u64, change: &Change)
    ensures after { length (changed change.now used rows.old) ≤ length rows.old → rows.new ≡ changed change.now used rows.old }
    ensures kept { length rows.old < length (changed change.now used rows.old) → rows.new ≡ rows.old }
{
    match change {
        Change::Nothing => {}
        Change::Put { at, row } => lent_rows::set_row(rows, *at, *row),
        Change::Taken { at } => lent_rows::take_out(rows, *at, used),
    }
}
