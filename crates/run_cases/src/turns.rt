// One call: it is read, run and compared.
ghost use Rattle.std.specs.Prelude.{List, ℕ};
ghost use Rattle.std.specs.Io.KnownBytes.{Consumes};

use crate::differences::{Difference, Ending, compared};
use crate::reading::{Expected, next_expected};
use std::io::Read;
use step_stream::{Served, Standing};

// What a call leaves, and what is wrong with it.
#[derive(Clone, Copy)]
pub struct Turn {
    pub state: Standing,
    pub difference: Option<Difference>,
}

// One call, where so many rows are lent.
fn stepped(
    m: &Standing,
    lent: usize,
    words: &mut [u64],
    queue: &mut [u8],
    octets: &[u8],
) -> Served {
    let came = step::step(&m.table, lent, words, m.counts, m.session, queue, octets);
    let table = step_stream::applied(&m.table, m.counts.mailboxes, &came);
    let answer = record_outcome::answer_of(&came);
    match came {
        Ok(out) => Served {
            table,
            counts: out.counts,
            session: out.session,
            answer,
        },
        Err(_) => Served {
            table,
            counts: m.counts,
            session: m.session,
            answer,
        },
    }
}

// Reads a call and what the queue must hold, runs it, and compares.
fn run<R: Read>(
    reader: &mut R,
    m: &Standing,
    lent: usize,
    words: &mut [u64],
    queue: &mut [u8],
    octets: &mut [u8],
    wanted: &mut [u8],
    want: &Expected,
) -> Result<Turn, Ending>
    ensures { (t : List ℕ) × Consumes (R.remaining reader.old) (R.remaining reader.new) t }
{
    let got = run_input::read_full(reader, octets);
    let more = run_input::read_full(reader, wanted);
    if got.size != octets.len() || more.size != wanted.len() {
        return Err(Ending::Torn);
    }
    let d = stepped(m, lent, words, queue, octets);
    let difference = compared(want, &d.answer, d.counts.filled, queue, wanted);
    let table = d.table;
    let state = Standing {
        table,
        counts: d.counts,
        session: d.session,
        end: 0,
    };
    Ok(Turn { state, difference })
}

// Reads the numbers of the next call, and runs it if there is room for its octets and for what the queue must hold.
pub fn next_turn<R: Read>(
    reader: &mut R,
    m: &Standing,
    lent: usize,
    words: &mut [u64],
    queue: &mut [u8],
    octets: &mut [u8],
    wanted: &mut [u8],
) -> Result<Turn, Ending>
    ensures { (t : List ℕ) × Consumes (R.remaining reader.old) (R.remaining reader.new) t }
{
    let want = next_expected(reader).ok_or(Ending::Torn)?;
    if want.size > octets.len() {
        return Err(Ending::TooLong(want.size));
    }
    if want.held > wanted.len() {
        return Err(Ending::TooLong(want.held));
    }
    run(
        reader,
        m,
        lent,
        words,
        queue,
        &mut octets[..want.size],
        &mut wanted[..want.held],
        &want,
    )
}
