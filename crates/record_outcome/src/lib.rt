// What a record comes to: a refusal, or the change of the mailbox table, what is counted, and the counts and the session after it.
#![tactic(auto)]

ghost use Rattle.std.specs.Prelude.{◌≡◌, ◌<◌};
ghost use Rattle.model.specs.Answers.{number_of};
ghost use Rattle.record_outcome.specs.Coming.{row_of, calm, putting, answer_of};

use model::{Answer, Counts, Mailbox, Refusal, Session};

// What becomes of the mailbox table: nothing, a row is put at a place, or the row at a place is taken out.
#[derive(Clone, Copy)]
pub enum Change {
    Nothing,
    Put { at: usize, row: Mailbox },
    Taken { at: usize },
}

// A mailbox that is known: its place among the used rows, and its row. What is looked for is an `Option` of it.
#[derive(Clone, Copy)]
pub struct Place {
    pub at: usize,
    pub row: Mailbox,
}

// The row of what was found; where nothing was, that of no mailbox.
pub fn row_of(found: Option<Place>) -> Mailbox
    ensures { result ≡ row_of found }
{
    match found {
        Some(place) => place.row,
        None => table_mailboxes::vacant(),
    }
}

// What a record comes to that is not refused, besides the words of the message table and the octets of the queue. `counted` has the lines that
// are still owed, for a record that asks.
#[derive(Clone, Copy)]
pub struct Outcome {
    pub counted: Option<u64>,
    pub change: Change,
    pub counts: Counts,
    pub session: Session,
}

impl Outcome {
    // No row changes.
    pub fn unmoved(counted: Option<u64>, counts: Counts, session: Session) -> Outcome
        ensures { result ≡ calm counted counts session }
    {
        Outcome {
            counted,
            change: Change::Nothing,
            counts,
            session,
        }
    }

    // A row is put.
    pub fn put(at: usize, row: Mailbox, counts: Counts, session: Session) -> Outcome
        ensures { result ≡ putting at row counts session }
    {
        Outcome {
            counted: None,
            change: Change::Put { at, row },
            counts,
            session,
        }
    }
}

// The answer to a record.
pub fn answer_of(came: &Result<Outcome, Refusal>) -> Answer
    ensures { result ≡ answer_of came.now }
{
    match came {
        Ok(
            Outcome {
                counted: Some(n),
                ..
            },
        ) => Answer::Counted(*n),
        Ok(_) => Answer::Done,
        Err(why) => Answer::Refused(*why),
    }
}

// The number of an answer: 0 where nothing is refused.
pub fn number_of(answer: &Answer) -> u8
    ensures number { result ≡ number_of answer.now }
    ensures small { result < 10 }
{
    match answer {
        Answer::Done | Answer::Counted(_) => 0,
        Answer::Refused(Refusal::UnlawfulMemory) => 1,
        Answer::Refused(Refusal::BadRecord) => 2,
        Answer::Refused(Refusal::WrongId) => 3,
        Answer::Refused(Refusal::NameHeld) => 4,
        Answer::Refused(Refusal::WrongUid) => 5,
        Answer::Refused(Refusal::WrongState) => 6,
        Answer::Refused(Refusal::TableFull) => 7,
        Answer::Refused(Refusal::NoRoom) => 8,
    }
}
