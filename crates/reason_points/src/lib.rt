// What a record asks of the rules, from the memory before it: the points by which it is said why it was told or not (request 3).
// They come from its numbers, the rows and the session; no message is looked at.
#![tactic(auto)]

pub mod mailboxes;
pub mod messages;
pub mod rows;

ghost use Rattle.std.specs.Prelude.{◌≡◌, false, None};
ghost use Rattle.model.specs.Records.{layout, record_by};
ghost use Rattle.model.specs.Memory.{Memory, boxes};
ghost use Rattle.model.specs.Reasons as R;
ghost use Rattle.record_read.specs.Kinds.{kind_for};
ghost use Rattle.record_read.specs.Reading.{Bounded, Following};
ghost use Rattle.reason_points.specs.Showing.{plain, shown};

use model::{Mailbox, Session};
use record_read::Kind;

// The points: whether it is quiet, an event, and the rights are held; whether a group matches, and the number of the first that asks;
// whether it is about an unannounced message; the class that it waits for.
#[derive(Clone, Copy)]
pub struct Points {
    pub quiet: bool,
    pub event: bool,
    pub rights: bool,
    pub met: bool,
    pub asking: Option<usize>,
    pub unannounced: bool,
    pub waiting: Option<u64>,
}

// No event.
pub fn none() -> Points
    ensures { result ≡ plain false false false false None }
{
    Points {
        quiet: false,
        event: false,
        rights: false,
        met: false,
        asking: None,
        unannounced: false,
        waiting: None,
    }
}

// The points of a record of a kind, with its numbers and what follows them; the rows are those in use.
pub fn points_of(s: &Session, rows: &[Mailbox], kind: Kind, v: [u64; 5], name: &[u8]) -> Points
    requires { Bounded (layout (kind_for kind)).fields 0 v × Following (layout (kind_for kind)).tail name.now }
    ensures { (m : Memory) → m.session ≡ s.now → boxes m ≡ rows.now → result ≡ shown s.now (R.points m (record_by (kind_for kind) v name.now)) }
{
    let [a, b, c, d, e] = v;
    let x = &rows::row_of(rows, a);
    match kind {
        Kind::Create => mailboxes::create(s, rows, a, b, c != 0, d, e, name),
        Kind::Delete => mailboxes::named(s, rows, b != 0, true, x),
        Kind::Rename => mailboxes::rename(s, b != 0, x, name),
        Kind::Subscribe => mailboxes::subscribe(s, c != 0, x, b),
        Kind::Grant => mailboxes::grant(s, rows, x, b),
        Kind::Arrive => messages::arrive(s, a, x),
        Kind::Expunge => messages::expunge(s, a, x, b),
        Kind::Reflag => messages::reflag(s, a, x, b),
        Kind::Select | Kind::Ended | Kind::Command | Kind::Drained | Kind::Unknown => none(),
    }
}
