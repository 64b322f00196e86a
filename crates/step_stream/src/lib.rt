// A whole stream: cut by its length fields, each record served on tables of the run's own, and what it shows written out.
#![tactic(auto)]

ghost use Rattle.std.specs.Prelude.{◌≡◌, ◌+◌, ◌≤◌, ◌<◌, length, take, replicate};
ghost use Rattle.model.specs.Memory.{no_mailbox};
ghost use Rattle.model.specs.Hidden.{no_counts, no_session};
ghost use Rattle.model.specs.Answers.{number_of};
ghost use Rattle.model.specs.Pushrun.{records_of, refusal_text, printed, pushrun};
ghost use Rattle.line_put.specs.Put.{Put};
ghost use Rattle.record_outcome.specs.Coming.{rows_after};
ghost use Rattle.step_stream.specs.Cutting.{Cuts};
ghost use Rattle.step_stream.specs.Printing.{standing, Serves, Turns};

use model::{Answer, Counts, LentGroup, LentName, Mailbox, Refusal, Session};
use record_outcome::Outcome;

// ---- the table after an outcome

// The table, of which `used` rows were used, after what a record comes to, wherever that leaves no more than 64 rows: what the step comes to does.
pub fn applied(table: &[Mailbox; 64], used: u64, came: &Result<Outcome, Refusal>) -> [Mailbox; 64]
    ensures { length (rows_after came.now used table.now) ≤ 64 → result ≡ rows_after came.now used table.now }
{
    let mut rows = *table;
    if let Ok(out) = came {
        lent_answer::write_back(&mut rows, used, &out.change);
    }
    rows
}

// ---- writing

// A text from `at` on, where all of it has room. It ends where the answer says.
// Kept: a stream prints more than a `Writer` may count up to.
fn put(out: &mut [u8], at: usize, text: &[u8]) -> usize
    requires { (at ≤ 4611686018427387904) × (length text.now ≤ 1048576) }
    ensures { Put out.old at (length out.old) text.now out.new result }
{
    let end = at + text.len();
    if end <= out.len() {
        out[at..end].copy_from_slice(text);
    }
    end
}

// `! n` for a refusal.
fn put_refusal(out: &mut [u8], at: usize, answer: &Answer) -> usize
    requires { at ≤ 4611686018427387904 }
    ensures { (Put out.old at (length out.old) (refusal_text (number_of answer.now)) out.new result) × (result ≤ at + 5) }
{
    let n = record_outcome::number_of(answer);
    if n == 0 {
        return at;
    }
    put(out, at, &[b'!', b' ', b'0' + n, b'\r', b'\n'])
}

// What the queue holds.
fn put_held(out: &mut [u8], at: usize, queue: &[u8], filled: u64) -> usize
    requires { (at ≤ 4611686018427387904) × (length queue.now ≡ 8192) }
    ensures { (Put out.old at (length out.old) (take filled queue.now) out.new result) × (result ≤ at + 8192) }
{
    let n = filled.min(queue.len() as u64) as usize;
    put(out, at, &queue[..n])
}

// ---- the records of a stream

// How long the record from `at` on is. One that is torn is all that is left.
pub fn record_size(stream: &[u8], at: usize) -> usize
    requires { (at < length stream.now) × (length stream.now < 4294967296) }
    ensures { Cuts stream.now at result }
{
    let left = stream.len() - at;
    if left < 4 {
        return left;
    }
    let size = 4 + octets::little(stream, at + 2, 2);
    if (left as u64) < size {
        return left;
    }
    size as usize
}

// Where a run stands: the table, the counts, the session, and where the next octet goes.
#[derive(Clone, Copy)]
pub struct Standing {
    pub table: [Mailbox; 64],
    pub counts: Counts,
    pub session: Session,
    pub end: usize,
}

// A record was served: the table, counts and session behind it, and its answer.
#[derive(Clone, Copy)]
pub struct Served {
    pub table: [Mailbox; 64],
    pub counts: Counts,
    pub session: Session,
    pub answer: Answer,
}

// A record: the step alone. Nothing is drained.
pub fn serve(
    table: &[Mailbox; 64],
    counts: Counts,
    session: &Session,
    words: &mut [u64],
    queue: &mut [u8],
    octets: &[u8],
) -> Served
    ensures { Serves (standing table.now counts session.now words.old queue.old) octets.now result.answer (standing result.table result.counts result.session words.new queue.new) }
{
    let came = step::step(table, 64, words, counts, *session, queue, octets);
    let table = applied(table, counts.mailboxes, &came);
    let answer = record_outcome::answer_of(&came);
    match came {
        Ok(out) => Served {
            table,
            counts: out.counts,
            session: out.session,
            answer,
        },
        Err(_) => Served {
            table,
            counts,
            session: *session,
            answer,
        },
    }
}

// A record: the step, the refusal if it is one, and all that the queue holds, which is drained.
pub fn turn(
    s: &Standing,
    words: &mut [u64],
    queue: &mut [u8],
    octets: &[u8],
    out: &mut [u8],
) -> Standing
    requires { (s.now.end ≤ 2305843009213693952) × (length queue.old ≡ 8192) }
    ensures { Turns (standing s.now.table s.now.counts s.now.session words.old queue.old) octets.now out.old s.now.end (standing result.table result.counts result.session words.new queue.new) out.new result.end }
{
    let d = serve(&s.table, s.counts, &s.session, words, queue, octets);
    let at = put_refusal(out, s.end, &d.answer);
    let end = put_held(out, at, queue, d.counts.filled);
    let table = d.table;
    Standing {
        table,
        counts: Counts {
            filled: 0,
            ..d.counts
        },
        session: d.session,
        end,
    }
}

// ---- the start

// Nothing there yet.
pub fn start() -> Standing
    ensures { (result.table ≡ replicate 64 no_mailbox) × (result.counts ≡ no_counts) × (result.session ≡ no_session) × (result.end ≡ 0) }
{
    let group = LentGroup {
        selector: 0,
        first: 0,
        count: 0,
        events: 0,
        attributes: 0,
    };
    let name = LentName {
        len: 0,
        octets: [0; 64],
    };
    Standing {
        table: [table_mailboxes::vacant(); 64],
        counts: Counts {
            mailboxes: 0,
            messages: 0,
            filled: 0,
        },
        session: Session {
            selected: 0,
            notified: 0,
            groupcount: 0,
            told: 0,
            groups: [group; 8],
            names: [name; 16],
        },
        end: 0,
    }
}

// Every record of the stream, from a start with these words and this queue.
fn walk(stream: &[u8], words: &mut [u64], queue: &mut [u8], out: &mut [u8]) -> usize
    requires { (length stream.now < 4294967296) × (length queue.old ≡ 8192) }
    ensures { Put out.old 0 (length out.old) (printed (standing (replicate 64 no_mailbox) no_counts no_session words.old queue.old) (records_of stream.now)) out.new result }
{
    let mut s = start();
    let mut i = 0;
    // Kept: how far a record goes stands in its own octets, and no iterator of std cuts by them.
    while i < stream.len() {
        let e = i + record_size(stream, i);
        s = turn(&s, words, queue, &stream[i..e], out);
        i = e;
    }
    s.end
}

// What the program `pushrun` prints for a stream, on tables of the run's own; where it is too long for `out`, only its length is told.
// A stream of 2^32 octets or more is not read: 0, and nothing is written.
pub fn run(stream: &[u8], out: &mut [u8]) -> usize
    ensures { (length stream.now < 4294967296 → Put out.old 0 (length out.old) (pushrun stream.now) out.new result) × (4294967296 ≤ length stream.now → (result ≡ 0) × (out.new ≡ out.old)) }
{
    if 4294967296 <= stream.len() {
        return 0;
    }
    let mut words = [0u64; 6144];
    let mut queue = [0u8; 8192];
    walk(stream, &mut words, &mut queue, out)
}
