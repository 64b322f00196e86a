// What differs between a call and what is expected of it, and how that is said.
use crate::reading::Expected;
use model::Answer;
use std::fmt;

// What differs: what is there, and what was wanted.
#[derive(Clone, Copy)]
pub enum Difference {
    Refusal(u32, u32),
    Count(Option<u64>, Option<u64>),
    Held(u64, u64),
    Octet(usize),
}

// Why no more calls are read: one is longer than can be run, or the input ends.
#[derive(Clone, Copy)]
pub enum Ending {
    TooLong(usize),
    Torn,
}

// The count that is answered, if one is.
fn count_of(answer: &Answer) -> Option<u64> {
    match answer {
        Answer::Counted(n) => Some(*n),
        Answer::Done | Answer::Refused(_) => None,
    }
}

// What differs in the answer.
fn in_answer(want: &Expected, answer: &Answer) -> Option<Difference> {
    let refusal = u32::from(record_outcome::number_of(answer));
    if refusal != want.refusal {
        return Some(Difference::Refusal(refusal, want.refusal));
    }
    let count = count_of(answer);
    if count != want.count {
        return Some(Difference::Count(count, want.count));
    }
    None
}

// What differs in the queue, of which so many octets are filled.
fn in_queue(filled: u64, queue: &[u8], wanted: &[u8]) -> Option<Difference> {
    let size = wanted.len() as u64;
    if filled != size {
        return Some(Difference::Held(filled, size));
    }
    let at = wanted.iter().zip(queue).position(|(a, b)| a != b)?;
    Some(Difference::Octet(at))
}

pub fn compared(
    want: &Expected,
    answer: &Answer,
    filled: u64,
    queue: &[u8],
    wanted: &[u8],
) -> Option<Difference> {
    in_answer(want, answer).or(in_queue(filled, queue, wanted))
}

// ---- what is printed

// A count, or that there is none.
#[derive(Clone, Copy)]
struct Count(Option<u64>);

impl fmt::Display for Count {
    fn fmt<W: fmt::Write>(&self, f: &mut fmt::Formatter<W>) -> fmt::Result {
        match self.0 {
            Some(n) => write!(f, "{n}"),
            None => write!(f, "none"),
        }
    }
}

impl fmt::Display for Difference {
    fn fmt<W: fmt::Write>(&self, f: &mut fmt::Formatter<W>) -> fmt::Result {
        match *self {
            Difference::Refusal(is, wanted) => write!(f, "refusal {is}, not {wanted}"),
            Difference::Count(is, wanted) => {
                let is = Count(is);
                let wanted = Count(wanted);
                write!(f, "count {is}, not {wanted}")
            }
            Difference::Held(is, wanted) => { write!(f, "octets in the queue: {is}, not {wanted}") }
            Difference::Octet(at) => write!(f, "another octet in the queue at {at}"),
        }
    }
}

impl fmt::Display for Ending {
    fn fmt<W: fmt::Write>(&self, f: &mut fmt::Formatter<W>) -> fmt::Result {
        match *self {
            Ending::TooLong(size) => write!(f, "longer than can be run: {size}"),
            Ending::Torn => write!(f, "the input ends"),
        }
    }
}
