// What a command comes to by its answer: done, or refused where that found no room. And a command that is not accepted: its tagged line alone.
#![tactic(auto)]

ghost use Rattle.std.specs.Prelude.{◌≡◌, false, List, ℕ, ◌≤◌, length};
ghost use Rattle.model.specs.Memory.{Memory};
ghost use Rattle.model.specs.Commands.{command_of};
ghost use Rattle.model.specs.Records.{command};
ghost use Rattle.model.specs.Answering.{verb as verb_of, is_accepted, reply as reply_of};
ghost use Rattle.read_commands.specs.Judging.{word_of};
ghost use Rattle.record_outcome.specs.Coming.{Lends, Comes, ladder};
ghost use Rattle.record_reply.specs.Left.{came_by};

use line_put::Said;
use model::{Counts, Refusal, Reply, Session};
use read_options::Verb;
use record_outcome::Outcome;

// What an answer that was said, or found no room, comes to.
pub fn outcome(said: Said, counts: Counts, s: &Session) -> Result<Outcome, Refusal>
    ensures { result ≡ came_by said.fits said.end counts s.now }
{
    if !said.fits {
        return Err(Refusal::NoRoom);
    }
    let counts = Counts {
        filled: said.end as u64,
        ..counts
    };
    Ok(Outcome::unmoved(None, counts, *s))
}

// A command that is not accepted: its tagged line, where that finds room.
pub fn refuse(
    queue: &mut [u8],
    counts: Counts,
    s: &Session,
    text: &[u8],
    verb: Verb,
    reply: Reply,
) -> Result<Outcome, Refusal>
    requires { (64 ≤ length queue.old) × (counts.filled ≤ 65536) }
    ensures { (m : Memory) (ws : List ℕ) → Lends m ws counts s.now queue.old → word_of verb ≡ verb_of (command_of text.now) → reply ≡ reply_of m text.now → is_accepted reply ≡ false → Comes m (ladder m (command text.now)) result ws ws queue.new }
{
    let said = line_answer::say_reply(queue, counts.filled as usize, text, verb, reply);
    outcome(said, counts, s)
}
