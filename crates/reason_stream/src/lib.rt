// Why a record was told or not: its points before the step, the step, and what that leaves; and the line for a place of a whole stream.
#![tactic(auto)]

ghost use Rattle.std.specs.Prelude.{◌≡◌, true, cond, ◌≤◌, ◌<◌, eqb, length, take, replicate};
ghost use Rattle.model.specs.Memory.{Memory, boxes, no_mailbox};
ghost use Rattle.model.specs.Records.{is_record, record_of};
ghost use Rattle.model.specs.Hidden.{no_counts, no_session};
ghost use Rattle.model.specs.Pushrun.{records_of};
ghost use Rattle.model.specs.Reasons.{points, reason_at, why_text};
ghost use Rattle.model.specs.declared.Answer.TheVariants.{Done};
ghost use Rattle.model.specs.declared.Reason.TheVariants.{Refused};
ghost use Rattle.line_put.specs.Put.{Put};
ghost use Rattle.reason_points.specs.Showing.{shown};
ghost use Rattle.step_stream.specs.Printing.{standing};
ghost use Rattle.reason_stream.specs.Judging.{waiting_of, groups_say, first_of, Judges};

use model::{Answer, Counts, Mailbox, Reason, Session};
use reason_points::Points;
use step_stream::Served;

// ---- the first reason that holds

// Of what waits for a command end of this class.
fn waiting(p: &Points, class: u64) -> Reason
    ensures { result ≡ waiting_of p.now class }
{
    if p.unannounced {
        Reason::Unannounced
    } else {
        Reason::Waiting(class)
    }
}

// By the groups; `hushed` says that none stands behind the record.
fn by_groups(p: &Points, hushed: bool) -> Reason
    ensures { result ≡ groups_say p.now hushed }
{
    if let Some(class) = p.waiting {
        return waiting(p, class);
    }
    if !p.met {
        return Reason::Unmet;
    }
    match p.asking {
        None => Reason::Unasked,
        Some(_) if p.unannounced => Reason::Unannounced,
        Some(_) if hushed => Reason::Overflow,
        Some(group) => Reason::Written(group as u64),
    }
}

// Of a record that was taken.
fn first_of(p: &Points, hushed: bool) -> Reason
    ensures { result ≡ first_of p.now hushed }
{
    if p.quiet {
        Reason::Quiet
    } else if !p.event {
        Reason::NoEvent
    } else if !p.rights {
        Reason::RightMissing
    } else {
        by_groups(p, hushed)
    }
}

// Of any record, n being the number of its answer.
fn reason_by(n: u8, p: &Points, hushed: bool) -> Reason
    ensures { result ≡ cond (eqb n 0) (first_of p.now hushed) (Refused n) }
{
    if n == 0 {
        first_of(p, hushed)
    } else {
        Reason::Refused(u64::from(n))
    }
}

// ---- of a record

// What it asks of the rules, if it is a record.
fn points_before(table: &[Mailbox; 64], used: u64, s: &Session, octets: &[u8]) -> Points
    ensures { (m : Memory) → m.session ≡ s.now → boxes m ≡ take used table.now → is_record octets.now ≡ true → result ≡ shown s.now (points m (record_of octets.now)) }
{
    match record_read::read(octets) {
        Some(r) => {
            let rows = lent_rows::in_use(table, used);
            reason_points::points_of(s, rows, r.kind, r.values, &octets[r.tail..])
        }
        None => reason_points::none(),
    }
}

// A record was served: the table, counts and session behind it, and the reason.
#[derive(Clone, Copy)]
pub struct Judged {
    pub table: [Mailbox; 64],
    pub counts: Counts,
    pub session: Session,
    pub reason: Reason,
}

// A record is served, and it is said why it was told or not. Nothing is drained.
pub fn why_at(
    table: &[Mailbox; 64],
    counts: Counts,
    session: &Session,
    words: &mut [u64],
    queue: &mut [u8],
    octets: &[u8],
) -> Judged
    ensures { Judges (standing table.now counts session.now words.old queue.old) octets.now result.reason (standing result.table result.counts result.session words.new queue.new) }
{
    let p = points_before(table, counts.mailboxes, session, octets);
    let d = step_stream::serve(table, counts, session, words, queue, octets);
    let n = record_outcome::number_of(&d.answer);
    let reason = reason_by(n, &p, d.session.groupcount == 0);
    let table = d.table;
    Judged {
        table,
        counts: d.counts,
        session: d.session,
        reason,
    }
}

// ---- of a place in a stream

// Before the first record.
pub fn begun() -> Served
    ensures { (result.table ≡ replicate 64 no_mailbox) × (result.counts ≡ no_counts) × (result.session ≡ no_session) × (result.answer ≡ Done) }
{
    let s = step_stream::start();
    let table = s.table;
    Served {
        table,
        counts: s.counts,
        session: s.session,
        answer: Answer::Done,
    }
}

// The reason at a place from 1 on; the records before it are served.
fn walk(stream: &[u8], place: u64, words: &mut [u64], queue: &mut [u8]) -> Reason
    requires { (length stream.now < 4294967296) × (1 ≤ place) }
    ensures { result ≡ reason_at (standing (replicate 64 no_mailbox) no_counts no_session words.old queue.old) (records_of stream.now) place }
{
    let mut s = begun();
    let mut left = place;
    let mut i = 0;
    // Kept: how far a record goes stands in its own octets, and no iterator of std cuts by them.
    while i < stream.len() {
        let e = i + step_stream::record_size(stream, i);
        if left == 1 {
            return why_at(&s.table, s.counts, &s.session, words, queue, &stream[i..e]).reason;
        }
        s = step_stream::serve(&s.table, s.counts, &s.session, words, queue, &stream[i..e]);
        left -= 1;
        i = e;
    }
    Reason::NoRecord
}

// What the program `why` prints for a stream and a place, on tables of the run's own; where it is too long for `out`, only its length is
// told. A stream of 2^32 octets or more is not read: 0, and nothing is written.
pub fn run(stream: &[u8], place: u64, out: &mut [u8]) -> usize
    ensures { (length stream.now < 4294967296 → Put out.old 0 (length out.old) (why_text stream.now place) out.new result) × (4294967296 ≤ length stream.now → (result ≡ 0) × (out.new ≡ out.old)) }
{
    if 4294967296 <= stream.len() {
        return 0;
    }
    if place == 0 {
        return reason_text::put_reason(out, Reason::NoRecord);
    }
    let mut words = [0u64; 6144];
    let mut queue = [0u8; 8192];
    let reason = walk(stream, place, &mut words, &mut queue);
    reason_text::put_reason(out, reason)
}
