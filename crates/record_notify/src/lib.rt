// NOTIFY: NONE, which writes its tagged line alone, or SET; then the session that it sets.
#![tactic(auto)]

ghost use Rattle.std.specs.Prelude.{◌≡◌, List, ℕ, length};
ghost use Rattle.model.specs.Requests.{notify as notify_word, notify_none};
ghost use Rattle.model.specs.Reading.{ok};
ghost use Rattle.model.specs.Commands.{command_of};
ghost use Rattle.model.specs.Records.{command};
ghost use Rattle.model.specs.Memory.{Memory, boxes, selected_box};
ghost use Rattle.demands.specs.Lasting.Law.{Law};
ghost use Rattle.table_mailboxes.specs.Whole.{LaidIn};
ghost use Rattle.laws.specs.Room.{Room};
ghost use Rattle.record_outcome.specs.Coming.{Lends, Ready, Comes, ladder};
ghost use Rattle.read_commands.specs.Judging.{whole_by};

use model::{Counts, Mailbox, Refusal, Reply, Session};
use read_notify::Notify;
use read_options::Verb;
use record_outcome::Outcome;
use table_mailboxes::Columns;

// ---- NOTIFY NONE

// Its tagged line, which is too large for no queue, and a session with no group.
pub fn none(queue: &mut [u8], counts: Counts, s: &Session, text: &[u8]) -> Result<Outcome, Refusal>
    requires { Room (length queue.old) counts.filled s.now }
    ensures { (m : Memory) (ws : List ℕ) → Lends m ws counts s.now queue.old → (p : ℕ) → command_of text.now ≡ ok p notify_none → Comes m (ladder m (command text.now)) result ws ws queue.new }
{
    let filled = counts.filled as usize;
    let said = line_answer::say_reply(queue, filled, text, Verb::Notify, Reply::Accepted);
    let watched = read_commands::watched(text, *s);
    record_reply::outcome(said, counts, &watched)
}

// ---- NONE or SET

// A NOTIFY, from the position behind its word on; x is the selected mailbox's row.
pub fn notify(
    words: &mut [u64],
    queue: &mut [u8],
    counts: Counts,
    s: &Session,
    cols: &Columns,
    x: &Mailbox,
    text: &[u8],
    at: usize,
) -> Result<Outcome, Refusal>
    requires { Ready words.old counts s.now queue.old }
    ensures { (m : Memory) → Lends m words.old counts s.now queue.old → Law m → LaidIn (boxes m) cols.now → x.now ≡ selected_box m → whole_by notify_word text.now at ≡ command_of text.now → Comes m (ladder m (command text.now)) result words.old words.new queue.new }
{
    let read = read_commands::keep_notify(text, at);
    let first = read_commands::notify_reply(&read, read_commands::limits());
    if !line_answer::is_accepted(first.reply) {
        return record_reply::refuse(queue, counts, s, text, first.verb, first.reply);
    }
    let Some((asked, _)) = read else {
        return Err(Refusal::NoRoom);
    };
    match asked {
        Notify::Nothing => none(queue, counts, s, text),
        Notify::Groups(g) => {
            let watching = read_notify::settled(*s, g.watch, g.kept);
            record_set::set(words, queue, counts, s, cols, x, g.status, &watching, text)
        }
    }
}
