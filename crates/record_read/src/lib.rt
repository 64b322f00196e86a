// Records from the host: which octet strings are records, and what each says.
#![tactic(auto)]

mod bodies;
mod layouts;

ghost use Rattle.std.specs.Prelude.{◌≡◌};
ghost use Rattle.model.specs.Records.{kind_of, is_known, starts_with_id, layout, about};
ghost use Rattle.record_read.specs.Kinds.{kind_for};
ghost use Rattle.record_read.specs.Reading.{Reads};

use bodies::{Fields, fields_at, is_whole};
use layouts::layout_of;

// ---- marks

// The kinds of records, in the order of their marks: `MB`, `DL`, `RN`, `SB`, `RT`, `ME`, `XP`, `FL`, `SE`, `CE`, `CM`, `DR`, or none of these.
#[derive(Clone, Copy)]
pub enum Kind {
    Create,
    Delete,
    Rename,
    Subscribe,
    Grant,
    Arrive,
    Expunge,
    Reflag,
    Select,
    Ended,
    Command,
    Drained,
    // Kept: crates above say what octets of no kind do too, and match on it.
    Unknown,
}

// The kind that the mark says.
#[tactic(auto, unfolding(model::specs::Lists::same))]
pub fn kind_of(o: &[u8]) -> Kind
    ensures { kind_for result ≡ kind_of o.now }
{
    match o {
        [b'M', b'B', ..] => Kind::Create,
        [b'D', b'L', ..] => Kind::Delete,
        [b'R', b'N', ..] => Kind::Rename,
        [b'S', b'B', ..] => Kind::Subscribe,
        [b'R', b'T', ..] => Kind::Grant,
        [b'M', b'E', ..] => Kind::Arrive,
        [b'X', b'P', ..] => Kind::Expunge,
        [b'F', b'L', ..] => Kind::Reflag,
        [b'S', b'E', ..] => Kind::Select,
        [b'C', b'E', ..] => Kind::Ended,
        [b'C', b'M', ..] => Kind::Command,
        [b'D', b'R', ..] => Kind::Drained,
        _ => Kind::Unknown,
    }
}

// The mark is one of the twelve.
fn is_known(k: Kind) -> bool
    ensures { result ≡ is_known (kind_for k) }
{
    !matches!(k, Kind::Unknown)
}

// ---- records

// What a record says: its kind, the values of its fields, and where what follows them begins.
#[derive(Clone, Copy)]
pub struct Received {
    pub kind: Kind,
    pub values: [u64; 5],
    pub tail: usize,
}

// Any octets, read as a record; None where they are none.
pub fn read(o: &[u8]) -> Option<Received>
    ensures { Reads o.now result }
{
    let kind = kind_of(o);
    let l = layout_of(kind);
    if !is_known(kind) {
        return None;
    }
    let Fields { values, end } = fields_at(o, l.fields)?;
    if !is_whole(o, end, l.tail) {
        return None;
    }
    Some(Received {
        kind,
        values,
        tail: end,
    })
}

// The layout of a kind begins with an id.
fn starts_with_id(k: Kind) -> bool
    ensures { result ≡ starts_with_id (layout (kind_for k)).fields }
{
    !matches!(
        k,
        Kind::Ended | Kind::Command | Kind::Drained | Kind::Unknown
    )
}

// The id that the octets are about, 0 where they are about none.
pub fn about(o: &[u8]) -> u64
    ensures { result ≡ about o.now }
{
    let k = kind_of(o);
    if starts_with_id(k) && o.len() >= 6 {
        octets::little(o, 4, 2)
    } else {
        0
    }
}
