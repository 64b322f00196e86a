// A command line as a whole: its tag, the command that it gives, and how that is answered before anything is done.
#![tactic(auto)]

ghost use Rattle.std.specs.Prelude.{◌≡◌, Bool, cond, ◌<◌, length};
ghost use Rattle.model.specs.Requests.{notify as notify_word, esearch};
ghost use Rattle.model.specs.Commands.{tag_end, tagged, command_of};
ghost use Rattle.model.specs.Limits.{limits as most};
ghost use Rattle.read_notify.specs.Readings.{Keeps};
ghost use Rattle.read_notify.specs.Watched.{watched_by};
ghost use Rattle.read_commands.specs.Judging.{answer_of, unread as nothing, judged_of, whole_by, judged_by, asks, notified, searched, Heads, ReadsSearch, Judges};

use model::{Limits, Reply, Session};
use read_notify::Notify;
use read_options::Verb;
use read_search::Asked;

// The length of the tag that the answer bears; 0 where the line has none.
pub fn tag_length(text: &[u8]) -> usize
    ensures { result ≡ cond (tagged text.now) (tag_end text.now) 0 }
{
    if read_options::is_tagged(text) {
        read_options::tag_end(text)
    } else {
        0
    }
}

// The most that a command may have.
pub fn limits() -> Limits
    ensures { result ≡ most }
{
    Limits {
        groups: 8,
        names: 16,
        keys: 32,
        depth: 8,
        parts: 16,
    }
}

// Whose answer it is, and how the command is answered.
#[derive(Clone, Copy)]
pub struct Judged {
    pub verb: Verb,
    pub reply: Reply,
}

fn answer(verb: Verb, reply: Reply) -> Judged
    ensures { result ≡ answer_of verb reply }
{
    Judged { verb, reply }
}

// A line that fits no command.
fn unread() -> Judged
    ensures { result ≡ nothing }
{
    answer(Verb::Other, Reply::Bad)
}

// ---- NOTIFY

// NOTIFY, from the position behind its word up to the end of the line, and what is kept of it.
pub fn keep_notify(text: &[u8], at: usize) -> Option<(Notify, usize)>
    ensures { Keeps (whole_by notify_word text.now at) result }
{
    if octets::octet_at(text, at) != b' ' {
        return None;
    }
    let (notify, end) = read_notify::keep_at(text, at + 1)?;
    if end == text.len() {
        Some((notify, end))
    } else {
        None
    }
}

// How it is answered.
pub fn notify_reply(r: &Option<(Notify, usize)>, l: Limits) -> Judged
    ensures { result ≡ notified l (asks r.now) }
{
    match r {
        Some((Notify::Nothing, _)) => answer(Verb::Notify, Reply::Accepted),
        Some((Notify::Groups(g), _)) => answer(Verb::Notify, read_notify::reply_for(g.tally, l)),
        None => unread(),
    }
}

pub fn judge_notify(text: &[u8], at: usize, l: Limits) -> Judged
    ensures { (has_selected : Bool) → result ≡ judged_of l has_selected (whole_by notify_word text.now at) }
{
    notify_reply(&keep_notify(text, at), l)
}

// ---- ESEARCH

// ESEARCH, from the position behind its word up to the end of the line; its keys go into the cells from the first on.
pub fn search_at(text: &[u8], at: usize, cells: &mut [u64]) -> Option<(Asked, usize)>
    requires { length text.now < 4294967296 }
    ensures { ReadsSearch (whole_by esearch text.now at) cells.old cells.new result }
{
    if octets::octet_at(text, at) != b' ' {
        return None;
    }
    let (asked, end) = read_search::search_at(text, at + 1, cells)?;
    if end == text.len() {
        Some((asked, end))
    } else {
        None
    }
}

// How it is answered.
fn search_reply(r: Option<(Asked, usize)>, selected: bool, l: Limits) -> Judged
    ensures { result ≡ searched l selected r }
{
    match r {
        Some((asked, _)) => answer(Verb::Esearch, read_search::reply_for(asked, selected, l)),
        None => unread(),
    }
}

pub fn judge_search(text: &[u8], at: usize, selected: bool, l: Limits, cells: &mut [u64]) -> Judged
    requires { length text.now < 4294967296 }
    ensures { Judges l selected (whole_by esearch text.now at) cells.old cells.new result }
{
    search_reply(search_at(text, at, cells), selected, l)
}

// ---- the line

// The verb of a line that has a tag, and the position behind it.
pub fn head(text: &[u8]) -> Option<(Verb, usize)>
    ensures { Heads text.now result }
{
    if !read_options::is_tagged(text) {
        return None;
    }
    read_options::verb_at(text, read_options::tag_end(text) + 1)
}

// The command of a verb, from the position behind its word on.
fn judge_by(
    verb: Verb,
    text: &[u8],
    at: usize,
    selected: bool,
    l: Limits,
    cells: &mut [u64],
) -> Judged
    requires { length text.now < 4294967296 }
    ensures { Judges l selected (judged_by verb text.now at) cells.old cells.new result }
{
    match verb {
        Verb::Notify => judge_notify(text, at, l),
        Verb::Esearch => judge_search(text, at, selected, l, cells),
        Verb::Other => unread(),
    }
}

// A command line, with or without a selected mailbox; the keys of a search go into the cells from the first on.
pub fn judge(text: &[u8], selected: bool, l: Limits, cells: &mut [u64]) -> Judged
    requires { length text.now < 4294967296 }
    ensures { Judges l selected (command_of text.now) cells.old cells.new result }
{
    match head(text) {
        Some((verb, at)) => judge_by(verb, text, at, selected, l, cells),
        None => unread(),
    }
}

// ---- the session

// The session that a NOTIFY sets, from the position behind its word up to the end of the line.
pub fn watch_notify(text: &[u8], at: usize, session: Session) -> Session
    ensures { result ≡ watched_by (whole_by notify_word text.now at) session }
{
    match keep_notify(text, at) {
        Some((notify, _)) => read_notify::watch_by(notify, session),
        None => session,
    }
}

// The session that the command of a verb sets.
fn watch_by(verb: Verb, text: &[u8], at: usize, session: Session) -> Session
    ensures { result ≡ watched_by (judged_by verb text.now at) session }
{
    match verb {
        Verb::Notify => watch_notify(text, at, session),
        Verb::Esearch | Verb::Other => session,
    }
}

// The session that a command line sets: another one for a NOTIFY whose groups fit into it, however else it is answered.
pub fn watched(text: &[u8], session: Session) -> Session
    ensures { result ≡ watched_by (command_of text.now) session }
{
    match head(text) {
        Some((verb, at)) => watch_by(verb, text, at, session),
        None => session,
    }
}
