// The answers to commands: the tagged line, which of the six it is once the size of the whole answer is known, and an answer of that line alone.
#![tactic(auto)]

ghost use Rattle.std.specs.Prelude.{◌≡◌, ◌+◌, ◌≤◌, length};
ghost use Rattle.model.specs.Commands.{tag_of};
ghost use Rattle.model.specs.Lines.{answer, render, reply_text};
ghost use Rattle.model.specs.Answering.{is_accepted};
ghost use Rattle.line_put.specs.Writes.{Writes};
ghost use Rattle.read_commands.specs.Judging.{word_of};
ghost use Rattle.line_answer.specs.Sizes.{reply_by, Whole};

use line_put::{Line, Said, Writer};
use model::Reply;
use read_options::Verb;

// ---- the tagged line
// The words of a reply.
fn words(verb: Verb, reply: Reply) -> &'static [u8]
    ensures text { result.now ≡ reply_text (word_of verb) reply }
    ensures upper_bound { length result.now ≤ 95 }
{
    match (reply, verb) {
        (Reply::Bad, _) => b"BAD refused",
        (Reply::BadEvent, _) =>
            b"NO [BADEVENT (MessageNew MessageExpunge FlagChange MailboxName SubscriptionChange)] unsupported",
        (Reply::Unsupported, _) => b"NO unsupported",
        (Reply::BadCharset, _) => b"NO [BADCHARSET (US-ASCII UTF-8)] charset",
        (Reply::TooLarge, Verb::Notify) => b"NO [NOTIFICATIONOVERFLOW] too large",
        (Reply::TooLarge, Verb::Esearch) => b"NO [LIMIT] too large",
        (Reply::TooLarge, Verb::Other) => b"",
        (Reply::Accepted, Verb::Notify) => b"OK NOTIFY done",
        (Reply::Accepted, Verb::Esearch) => b"OK ESEARCH done",
        (Reply::Accepted, Verb::Other) => b"",
    }
}

// The tagged line, or the line of `*`.
pub fn put_answer(w: &mut Writer<'_>, tag: &[u8], verb: Verb, reply: Reply)
    requires { (w.old.limit ≤ length w.old.queue.now) × (w.old.at ≤ 2097152) × (length tag.now ≤ 32) }
    ensures put { Writes w.old (render (answer tag.now (word_of verb) reply)) w.new }
    ensures upper_bound { w.new.at ≤ w.old.at + 130 }
{
    w.put(tag);
    w.put(b" ");
    w.put(words(verb, reply));
    w.put(b"\r\n");
}

// The tag of a command line, or `*` where it has none.
fn tag(text: &[u8]) -> &[u8]
    ensures tag { result.now ≡ tag_of text.now }
    ensures upper_bound { length result.now ≤ 32 }
{
    if read_options::is_tagged(text) {
        return &text[..read_options::tag_end(text)];
    }
    b"*"
}

// The same to a command line.
pub fn put_reply(w: &mut Writer<'_>, text: &[u8], verb: Verb, reply: Reply)
    requires { (w.old.limit ≤ length w.old.queue.now) × (w.old.at ≤ 2097152) }
    ensures put { Writes w.old (render (answer (tag_of text.now) (word_of verb) reply)) w.new }
    ensures upper_bound { w.new.at ≤ w.old.at + 130 }
{
    put_answer(w, tag(text), verb, reply);
}

// ---- which answer it is
// The command is accepted.
pub fn is_accepted(reply: Reply) -> bool
    ensures { result ≡ is_accepted reply }
{
    reply == Reply::Accepted
}

// The reply, where all that an accepted command would write has n octets, and at most `most` may be written.
pub fn reply_within(first: Reply, n: usize, most: usize) -> Reply
    ensures { result ≡ reply_by first n most }
{
    if is_accepted(first) && most < n {
        return Reply::TooLarge;
    }
    first
}

// ---- an answer of the tagged line alone
// The answer to a command line, as one that is told whole.
#[derive(Clone, Copy)]
struct Answer<'a> {
    text: &'a [u8],
    verb: Verb,
    reply: Reply,
}

impl Line for Answer<'_> {
    ghost text = { λ l. render (answer (tag_of l.text.now) (word_of l.verb) l.reply) };

    fn put(&self, w: &mut Writer<'_>) {
        put_reply(w, self.text, self.verb, self.reply);
    }
}

// It is written, if it leaves the last 64 octets free, or nothing is.
pub fn say_reply(queue: &mut [u8], filled: usize, text: &[u8], verb: Verb, reply: Reply) -> Said
    requires { (64 ≤ length queue.old) × (filled ≤ 65536) }
    ensures { Whole queue.old filled (render (answer (tag_of text.now) (word_of verb) reply)) queue.new result.fits result.end }
{
    let limit = queue.len() - 64;
    let line = Answer { text, verb, reply };
    let end = line_put::write(queue, filled, 0, &line);
    if end <= limit {
        let end = line_put::write(queue, filled, limit, &line);
        return Said { fits: true, end };
    }
    Said {
        fits: false,
        end: filled,
    }
}
