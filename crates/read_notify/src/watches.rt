// The session that an accepted NOTIFY sets: its groups gathered, its names kept.
ghost use Rattle.std.specs.Prelude.{◌≡◌, ◌≤◌, ◌<◌, ℕ};
ghost use Rattle.model.specs.Requests.{Command};
ghost use Rattle.model.specs.Reading.{Parsed, word_at};
ghost use Rattle.model.specs.NotifyGrammar.{groups_at, set_by, notify_at};
ghost use Rattle.model.specs.Memory.{silenced};
ghost use Rattle.read_notify.specs.Readings.{setting, Keeps, KeepsAt};
ghost use Rattle.read_notify.specs.Watched.{with_group, nothing_watched, settle, KeepsMore, watched_by};

use super::one_group::{lent_at, low};
use super::{Groups, Notify, Tally, Watch};
use model::{LentGroup, Session};
use octets::Class;
use read_filters::{Kept, put_at};

// One group more is kept, if there is a place for it.
fn keep_group(watch: Watch, group: LentGroup) -> Watch
    requires { watch.count < 18446744073709551615 }
    ensures { result ≡ with_group watch group }
{
    let mut groups = watch.groups;
    put_at(&mut groups, watch.count, group);
    Watch {
        count: watch.count + 1,
        groups,
    }
}

// No group is kept.
fn no_watch() -> Watch
    ensures { result ≡ nothing_watched }
{
    let none = LentGroup {
        selector: 0,
        first: 0,
        count: 0,
        events: 0,
        attributes: 0,
    };
    Watch {
        count: 0,
        groups: [none; 8],
    }
}

// The session with these groups and names.
pub fn settled(session: Session, watch: Watch, kept: Kept) -> Session
    ensures { result ≡ settle session watch kept }
{
    let groups = watch.groups;
    let names = kept.names;
    Session {
        notified: 1,
        groupcount: low(watch.count),
        groups,
        names,
        ..session
    }
}

// The names of the filter at a position are kept behind others: nothing is read where it has none.
fn keep_more(text: &[u8], at: usize, names: u64, kept: Kept) -> Kept
    requires { kept.count ≤ at }
    ensures { KeepsMore text.now at names kept result }
{
    if names == 0 {
        return kept;
    }
    match read_filters::keep_filter(text, at, kept) {
        Some((more, _)) => more,
        None => kept,
    }
}

// NOTIFY SET with the groups from a position up to the end of the line, each read once: what they come to, and what is kept of them.
fn gather(text: &[u8], at: usize, status: bool) -> Option<(Notify, usize)>
    ensures { KeepsAt text.now at (setting status (groups_at text.now at)) result }
{
    let mut tally = Tally::default();
    let mut watch = no_watch();
    let mut kept = read_filters::keep_nothing();
    let mut p = at;
    // Kept: how far a group reaches is known when it is read.
    loop {
        let (lent, next) = lent_at(text, p, kept.count)?;
        kept = keep_more(text, p + 1, lent.tally.names, kept);
        watch = keep_group(watch, lent.group);
        tally = tally + lent.tally;
        if octets::octet_at(text, next) == b' ' {
            p = next + 1;
        } else if next == text.len() {
            let groups = Groups {
                status,
                tally,
                watch,
                kept,
            };
            return Some((Notify::Groups(groups), next));
        } else {
            return None;
        }
    }
}

// ---- the command

// Behind SET and a space: STATUS, if it is asked, then the groups.
fn set_at(text: &[u8], at: usize) -> Option<(Notify, usize)>
    ensures { KeepsAt text.now at (set_by (word_at text.now at "STATUS") text.now at) result }
{
    let end = octets::run_end(text, at, Class::Atom);
    if !octets::is_word(text, at, end, b"STATUS") {
        return gather(text, at, false);
    }
    if octets::octet_at(text, end) != b' ' {
        return None;
    }
    gather(text, end + 1, true)
}

// NOTIFY behind its verb and a space, and the position behind it.
#[tactic(auto, unfolding(model::specs::NotifyGrammar::notify_at))]
pub fn keep_at(text: &[u8], at: usize) -> Option<(Notify, usize)>
    ensures { KeepsAt text.now at (notify_at text.now at) result }
{
    let end = octets::run_end(text, at, Class::Atom);
    if octets::is_word(text, at, end, b"NONE") {
        return Some((Notify::Nothing, end));
    }
    if !octets::is_word(text, at, end, b"SET") || octets::octet_at(text, end) != b' ' {
        return None;
    }
    set_at(text, end + 1)
}

// ---- the session

// The session without groups.
fn silence(session: Session) -> Session
    ensures { result ≡ silenced session }
{
    settled(session, no_watch(), read_filters::keep_nothing())
}

// The session that a NOTIFY sets which was read so: another one where its groups fit into it.
pub fn watch_by(notify: Notify, session: Session) -> Session
    ensures { (x : Parsed Command) (p : ℕ) → Keeps x (Some (notify, p)) → result ≡ watched_by x session }
{
    match notify {
        Notify::Nothing => silence(session),
        Notify::Groups(g) if g.tally.groups <= 8 && g.tally.names <= 16 => {
            settled(session, g.watch, g.kept)
        }
        Notify::Groups(_) => session,
    }
}
