// NOTIFY SET: what is owed, the listing and the tagged line are measured, and then written together or not at all.
#![tactic(auto)]

ghost use Rattle.std.specs.Prelude.{◌≡◌, Bool, true, Ok, List, ℕ, ◌+◌, ◌-◌, ◌*◌, ◌≤◌, ◌<◌, length, take, get_or};
ghost use Rattle.model.specs.Requests.{notify_set, Asked};
ghost use Rattle.model.specs.Reading.{ok};
ghost use Rattle.model.specs.Commands.{command_of};
ghost use Rattle.model.specs.Records.{command};
ghost use Rattle.model.specs.Lists.{apart};
ghost use Rattle.model.specs.Lawful.{clash};
ghost use Rattle.model.specs.Memory.{Memory, boxes, selected_box, both_rights, no_mailbox, existing as existing_of};
ghost use Rattle.model.specs.Lines.{render_all};
ghost use Rattle.model.specs.View.{owed};
ghost use Rattle.model.specs.Listing.{watching};
ghost use Rattle.model.specs.Answering.{first_reply};
ghost use Rattle.model.specs.declared.Mailbox.{Mailbox};
ghost use Rattle.model.specs.declared.Reply.TheVariants.{Accepted};
ghost use Rattle.demands.specs.Lasting.Law.{Law};
ghost use Rattle.line_put.specs.Put.{Put};
ghost use Rattle.table_mailboxes.specs.Whole.{LaidIn};
ghost use Rattle.table_messages.specs.Words.{messages};
ghost use Rattle.table_mailboxes.specs.Columns.{Column};
ghost use Rattle.line_answer.specs.Answered.{whole_text};
ghost use Rattle.record_outcome.specs.Coming.{Lends, Ready, Comes, ladder};
ghost use Rattle.record_set.specs.Listed.{Noted};
ghost use Rattle.record_set.specs.Setting.{work_text};

use line_put::Writer;
use model::{Counts, Mailbox, Refusal, Reply, Session, Uid};
use read_options::Verb;
use record_outcome::Outcome;
use table_mailboxes::{Columns, row};

// How many octets a command of class 1 would owe at its end. Nothing is written.
fn owed_size(words: &[u64], queue: &mut [u8], counts: Counts, s: &Session, rights: bool) -> usize
    requires { (counts.messages ≤ 1024) × (counts.messages * 6 ≤ length words.now) }
    ensures { ((m : Memory) → Lends m words.now counts s.now queue.old → Law m → rights ≡ both_rights (selected_box m) → result ≡ length (render_all (owed m 1))) × (result ≤ 474000) × (queue.new ≡ queue.old) }
{
    if !rights {
        return 0;
    }
    let entries = &words[..6 * counts.messages as usize];
    let mut order = [0usize; 1024];
    let n = order_messages::by_uid(entries, u64::from(s.selected), &mut order);
    let mut w = Writer {
        queue,
        at: 0,
        limit: 0,
    };
    line_message::put_owed(&mut w, entries, &order[..n], Uid(u64::from(s.told)));
    w.at
}

// What follows the owed lines: the listing, by the places of the rows that are told of and by the notes beside the rows, and the tagged line of a
// command.
#[derive(Clone, Copy)]
struct Work<'a> {
    cols: &'a Columns,
    listed: &'a [usize],
    tally: &'a [u64; 64],
    asks: &'a [u8; 64],
    text: &'a [u8],
}

fn put_work(queue: &mut [u8], at: usize, limit: usize, work: &Work<'_>) -> usize
    requires { (limit ≤ length queue.old) × (at ≤ 65536) × (length work.now.listed.now ≤ 64) }
    ensures { ((m : Memory) (s : Session) (wanted : Bool) → Noted m s wanted work.now.cols.now work.now.listed.now work.now.tally.now work.now.asks.now → Put queue.old at limit (work_text m s wanted work.now.text.now) queue.new result) × (result ≤ at + 19330) }
{
    let mut w = Writer { queue, at, limit };
    line_listing::put_listing(&mut w, work.cols, work.listed, work.tally, work.asks);
    line_answer::put_reply(&mut w, work.text, Verb::Notify, Reply::Accepted);
    w.at
}

// All of it is written, and the owed lines end what they end. The owed lines end at `at`.
fn write_set(
    words: &mut [u64],
    queue: &mut [u8],
    counts: Counts,
    s: &Session,
    x: &Mailbox,
    asked: &Session,
    work: &Work<'_>,
    at: usize,
) -> Outcome
    requires { (64 ≤ length queue.old) × (length queue.old ≤ 65536) × (counts.filled ≤ 65536) × (counts.messages ≤ 1024) × (counts.messages * 6 ≤ length words.old) × (at ≤ 65536) × (length work.now.listed.now ≤ 64) }
    ensures { (m : Memory) (p : ℕ) (wanted : Bool) (gs : List Asked) → Lends m words.old counts s.now queue.old → Law m → x.now ≡ selected_box m → command_of work.now.text.now ≡ ok p (notify_set wanted gs) → first_reply m work.now.text.now ≡ Accepted → asked.now ≡ watching s.now gs → Noted m (watching m.session gs) wanted work.now.cols.now work.now.listed.now work.now.tally.now work.now.asks.now → at ≡ counts.filled + length (render_all (owed m 1)) → counts.filled + length (whole_text m work.now.text.now) ≤ length queue.old - 64 → Comes m (ladder m (command work.now.text.now)) (Ok result) words.old words.new queue.new }
{
    let limit = queue.len() - 64;
    let mut order = [0usize; 1024];
    let left = event_session::end_command(
        words,
        counts.messages as usize,
        queue,
        &mut order,
        s,
        counts.filled as usize,
        true,
        row::has_rights(x.attributes),
        x.uidnext,
    );
    let end = put_work(queue, at, limit, work);
    let view = left.session;
    Outcome::unmoved(
        None,
        Counts {
            messages: left.used as u64,
            filled: end as u64,
            ..counts
        },
        Session {
            selected: view.selected,
            told: view.told,
            ..*asked
        },
    )
}

// By its size: too large, no room, or written.
fn set_noted(
    words: &mut [u64],
    queue: &mut [u8],
    counts: Counts,
    s: &Session,
    x: &Mailbox,
    asked: &Session,
    work: &Work<'_>,
) -> Result<Outcome, Refusal>
    requires { (64 ≤ length queue.old) × (length queue.old ≤ 65536) × (counts.filled ≤ 65536) × (counts.messages ≤ 1024) × (counts.messages * 6 ≤ length words.old) × (length work.now.listed.now ≤ 64) }
    ensures { (m : Memory) (p : ℕ) (wanted : Bool) (gs : List Asked) → Lends m words.old counts s.now queue.old → Law m → x.now ≡ selected_box m → command_of work.now.text.now ≡ ok p (notify_set wanted gs) → first_reply m work.now.text.now ≡ Accepted → asked.now ≡ watching s.now gs → Noted m (watching m.session gs) wanted work.now.cols.now work.now.listed.now work.now.tally.now work.now.asks.now → Comes m (ladder m (command work.now.text.now)) result words.old words.new queue.new }
{
    let filled = counts.filled as usize;
    let limit = queue.len() - 64;
    let a = owed_size(words, queue, counts, s, row::has_rights(x.attributes));
    let b = put_work(queue, 0, 0, work);
    if limit < a + b {
        return record_reply::refuse(queue, counts, s, work.text, Verb::Notify, Reply::TooLarge);
    }
    if limit < filled + (a + b) {
        return Err(Refusal::NoRoom);
    }
    Ok(write_set(words, queue, counts, s, x, asked, work, filled + a))
}

// How many messages of each row exist: counted only where a STATUS is to say so.
fn existing(words: &[u64], used: usize, cols: &Columns, status: bool) -> [u64; 64]
    requires { (used * 6 ≤ length words.now) × (used ≤ 1048576) }
    ensures { status ≡ true → (l : List Mailbox) → length l ≡ cols.now.n → Column (λ (x : Mailbox). x.id) l cols.now.ids → apart clash l ≡ true → (k : ℕ) → k < cols.now.n → get_or result k 0 ≡ length (existing_of (get_or l k no_mailbox).id (take used (messages words.now))) }
{
    if status {
        table_counts::count(words, used, cols)
    } else {
        [0; 64]
    }
}

// NOTIFY SET, with STATUS or without, and the session that it asks for; x is the selected mailbox's row. Who is told of and how many messages exist is noted before anything changes.
pub fn set(
    words: &mut [u64],
    queue: &mut [u8],
    counts: Counts,
    s: &Session,
    cols: &Columns,
    x: &Mailbox,
    status: bool,
    asked: &Session,
    text: &[u8],
) -> Result<Outcome, Refusal>
    requires { Ready words.old counts s.now queue.old }
    ensures { (m : Memory) (p : ℕ) (gs : List Asked) → Lends m words.old counts s.now queue.old → Law m → LaidIn (boxes m) cols.now → x.now ≡ selected_box m → command_of text.now ≡ ok p (notify_set status gs) → first_reply m text.now ≡ Accepted → asked.now ≡ watching s.now gs → Comes m (ladder m (command text.now)) result words.old words.new queue.new }
{
    let mut picked = [0u8; 64];
    let mut asks = [0u8; 64];
    match_rows::note_rows(asked, status, cols, &mut picked, &mut asks);
    let mut listed = [0usize; 64];
    let r = order_mailboxes::by_name(cols, &picked, &mut listed);
    let tally = existing(words, counts.messages as usize, cols, status);
    let work = Work {
        cols,
        listed: &listed[..r],
        tally: &tally,
        asks: &asks,
        text,
    };
    set_noted(words, queue, counts, s, x, asked, &work)
}
