// Layouts: which fields the body of a record has, what each may hold, and what follows them.
ghost use Rattle.std.specs.Prelude.{◌≡◌, ◌≤◌, ◌<◌};
ghost use Rattle.model.specs.Records.{layout, width, in_range};
ghost use Rattle.record_read.specs.Kinds.{kind_for};
ghost use Rattle.record_read.specs.Layouts.{field_for, Fits};

use super::Kind;

// What follows the fields of a body.
#[derive(Clone, Copy)]
pub enum Tail {
    Nothing,
    Name,
    Command,
}

// The fields that layouts are made of.
#[derive(Clone, Copy)]
pub enum Field {
    Id,
    IdOrNone,
    Attributes,
    Quiet,
    Uidvalidity,
    Subscribed,
    Rights,
    Uid,
    Flags,
    Size,
    Class,
    Count,
    Counter,
}

// A layout: the fields, at most five, and what follows them.
#[derive(Clone, Copy)]
pub struct Layout {
    pub fields: &'static [Field],
    pub tail: Tail,
}

// The layouts.
pub fn layout_of(k: Kind) -> Layout
    ensures { Fits result (layout (kind_for k)) }
{
    let (fields, tail): (&'static [Field], Tail) = match k {
        Kind::Create => (
            &[
                Field::Id,
                Field::Attributes,
                Field::Quiet,
                Field::Uidvalidity,
                Field::Counter,
            ],
            Tail::Name,
        ),
        Kind::Delete => (&[Field::Id, Field::Quiet], Tail::Nothing),
        Kind::Rename => (&[Field::Id, Field::Quiet], Tail::Name),
        Kind::Subscribe => (&[Field::Id, Field::Subscribed, Field::Quiet], Tail::Nothing),
        Kind::Grant => (&[Field::Id, Field::Rights], Tail::Nothing),
        Kind::Arrive => (
            &[
                Field::Id,
                Field::Uid,
                Field::Flags,
                Field::Size,
                Field::Counter,
            ],
            Tail::Nothing,
        ),
        Kind::Expunge => (&[Field::Id, Field::Uid, Field::Counter], Tail::Nothing),
        Kind::Reflag => (
            &[Field::Id, Field::Uid, Field::Flags, Field::Counter],
            Tail::Nothing,
        ),
        Kind::Select => (&[Field::IdOrNone], Tail::Nothing),
        Kind::Ended => (&[Field::Class], Tail::Nothing),
        Kind::Command => (&[], Tail::Command),
        Kind::Drained => (&[Field::Count], Tail::Nothing),
        Kind::Unknown => (&[], Tail::Nothing),
    };
    Layout { fields, tail }
}

// How many octets a field has.
pub fn width_of(f: Field) -> usize
    ensures { (result ≡ width (field_for f)) × (result ≤ 8) × (4 < result → result ≡ 8) }
{
    match f {
        Field::Attributes
        | Field::Quiet
        | Field::Subscribed
        | Field::Rights
        | Field::Flags
        | Field::Class => 1,
        Field::Id | Field::IdOrNone => 2,
        Field::Uidvalidity | Field::Uid | Field::Size | Field::Count => 4,
        Field::Counter => 8,
    }
}

// A field may have this value.
pub fn in_range(f: Field, v: u64) -> bool
    ensures { result ≡ in_range (field_for f) v }
{
    match f {
        Field::Id => (1..=65535).contains(&v),
        Field::IdOrNone => v <= 65535,
        Field::Attributes => v <= 63,
        Field::Quiet | Field::Subscribed | Field::Class => v <= 1,
        Field::Uidvalidity => (1..=4294967295).contains(&v),
        // A right has no bit but 4 and 5.
        Field::Rights => v % 16 == 0 && v <= 48,
        Field::Uid => (1..=4294967294).contains(&v),
        Field::Flags => v <= 31,
        Field::Size | Field::Count => v <= 4294967295,
        Field::Counter => (1..=9223372036854775807).contains(&v),
    }
}
