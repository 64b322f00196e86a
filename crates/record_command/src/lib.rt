// A command, `CM`: answered from its text to the last octet of its answer, by its verb.
#![tactic(auto)]

ghost use Rattle.std.specs.Prelude.{◌≡◌, List, ℕ, ◌≤◌, length};
ghost use Rattle.model.specs.Memory.{Memory, boxes, selected_box};
ghost use Rattle.model.specs.Commands.{command_of};
ghost use Rattle.model.specs.Records.{command};
ghost use Rattle.demands.specs.Lasting.Law.{Law};
ghost use Rattle.table_mailboxes.specs.Whole.{LaidIn};
ghost use Rattle.model.specs.Requests.{esearch};
ghost use Rattle.read_commands.specs.Judging.{whole_by, judged_by};
ghost use Rattle.record_outcome.specs.Coming.{Lends, Ready, Comes, ladder};

use model::{Counts, Mailbox, Refusal, Reply, Session};
use read_options::Verb;
use record_outcome::Outcome;
use table_mailboxes::Columns;

// A search from the position behind its word on: whose answer it is and the reply before sizes, then what it finds. No key is kept in judging it: one
// cell is as good as many.
fn search(
    words: &[u64],
    queue: &mut [u8],
    counts: Counts,
    s: &Session,
    cols: &Columns,
    text: &[u8],
    at: usize,
) -> Result<Outcome, Refusal>
    requires { (Ready words.now counts s.now queue.old) × (length text.now ≤ 1024) }
    ensures { (m : Memory) → Lends m words.now counts s.now queue.old → Law m → LaidIn (boxes m) cols.now → whole_by esearch text.now at ≡ command_of text.now → Comes m (ladder m (command text.now)) result words.now words.now queue.new }
{
    let mut cells = [0u64; 1];
    let first = read_commands::judge_search(
        text,
        at,
        s.selected != 0,
        read_commands::limits(),
        &mut cells,
    );
    if !line_answer::is_accepted(first.reply) {
        return record_reply::refuse(queue, counts, s, text, first.verb, first.reply);
    }
    search_answer::answer(words, queue, counts, s, cols, text)
}

// The command of a verb, from the position behind its word on; x is the selected mailbox's row.
fn answer_by(
    words: &mut [u64],
    queue: &mut [u8],
    counts: Counts,
    s: &Session,
    cols: &Columns,
    x: &Mailbox,
    text: &[u8],
    verb: Verb,
    at: usize,
) -> Result<Outcome, Refusal>
    requires { (Ready words.old counts s.now queue.old) × (length text.now ≤ 1024) }
    ensures { (m : Memory) → Lends m words.old counts s.now queue.old → Law m → LaidIn (boxes m) cols.now → x.now ≡ selected_box m → judged_by verb text.now at ≡ command_of text.now → Comes m (ladder m (command text.now)) result words.old words.new queue.new }
{
    match verb {
        Verb::Notify => record_notify::notify(words, queue, counts, s, cols, x, text, at),
        Verb::Esearch => search(words, queue, counts, s, cols, text, at),
        Verb::Other => record_reply::refuse(queue, counts, s, text, Verb::Other, Reply::Bad),
    }
}

// A command from its text on; x is the selected mailbox's row. A line without a verb is BAD.
pub fn answer(
    words: &mut [u64],
    queue: &mut [u8],
    counts: Counts,
    s: &Session,
    cols: &Columns,
    x: &Mailbox,
    text: &[u8],
) -> Result<Outcome, Refusal>
    requires { (Ready words.old counts s.now queue.old) × (length text.now ≤ 1024) }
    ensures { (m : Memory) → Lends m words.old counts s.now queue.old → Law m → LaidIn (boxes m) cols.now → x.now ≡ selected_box m → Comes m (ladder m (command text.now)) result words.old words.new queue.new }
{
    match read_commands::head(text) {
        Some((verb, at)) => answer_by(words, queue, counts, s, cols, x, text, verb, at),
        None => record_reply::refuse(queue, counts, s, text, Verb::Other, Reply::Bad),
    }
}
