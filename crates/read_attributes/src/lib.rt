// Fetch attributes behind MessageNew: the readers of one attribute and of a list of them, each by the definition of crate `model` that it meets.
#![tactic(auto)]

ghost use Rattle.std.specs.Prelude.{◌≡◌, []};
ghost use Rattle.model.specs.Reading.{piece, list_at};
ghost use Rattle.model.specs.Attributes.{label_of, attribute_at};
ghost use Rattle.octets.specs.Joined.{ReadsOne};
ghost use Rattle.read_attributes.specs.Asked.{labelled, read_attribute, read_alone, read_attributes, alone, both};

use octets::{Class, Joined};
use read_sections::section_at;

// An attribute: one of the three that are supported, or another.
#[derive(Clone, Copy, PartialEq, Eq)]
pub enum Kind {
    Uid,
    Flags,
    Size,
    Other,
}

// What an attribute's word is.
#[derive(Clone, Copy)]
pub enum Label {
    Plain(Kind),
    Body,
    Peek,
}

// The word from one position up to another, as an attribute's.
#[tactic(auto, unfolding(model::specs::Attributes::label_of))]
fn label_of(text: &[u8], from: usize, upto: usize) -> Option<Label>
    ensures { result ≡ labelled (label_of (piece text.now from upto)) }
{
    match octets::word_place(
        text,
        from,
        upto,
        &[
            b"UID",
            b"FLAGS",
            b"RFC822.SIZE",
            b"ENVELOPE",
            b"INTERNALDATE",
            b"RFC822",
            b"RFC822.HEADER",
            b"RFC822.TEXT",
            b"BODYSTRUCTURE",
            b"BODY",
            b"BODY.PEEK",
        ],
    )? {
        0 => Some(Label::Plain(Kind::Uid)),
        1 => Some(Label::Plain(Kind::Flags)),
        2 => Some(Label::Plain(Kind::Size)),
        3..=8 => Some(Label::Plain(Kind::Other)),
        9 => Some(Label::Body),
        _ => Some(Label::Peek),
    }
}

// One attribute.
#[tactic(auto, unfolding(model::specs::Attributes::attribute_at))]
pub fn attribute_at(text: &[u8], at: usize) -> Option<(Kind, usize)>
    ensures { ReadsOne text.now at (read_attribute (attribute_at text.now at)) result }
{
    let end = octets::run_at(text, at, Class::Label)?;
    match label_of(text, at, end)? {
        Label::Plain(k) => Some((k, end)),
        Label::Body if octets::octet_at(text, end) != b'[' => Some((Kind::Other, end)),
        Label::Body | Label::Peek => {
            let next = section_at(text, end)?;
            Some((Kind::Other, next))
        }
    }
}

// Which attributes are asked for.
#[derive(Clone, Copy, Default)]
pub struct Attributes {
    pub uid: bool,
    pub flags: bool,
    pub size: bool,
    pub other: bool,
}

// One attribute alone.
fn only(k: Kind) -> Attributes
    ensures { result ≡ alone k }
{
    Attributes {
        uid: k == Kind::Uid,
        flags: k == Kind::Flags,
        size: k == Kind::Size,
        other: k == Kind::Other,
    }
}

impl Joined for Attributes {
    ghost one = { read_alone };

    ghost joins = { both };

    fn one_at(text: &[u8], at: usize) -> Option<(Attributes, usize)> {
        let (k, next) = attribute_at(text, at)?;
        Some((only(k), next))
    }

    fn join(self, rest: Attributes) -> Attributes {
        Attributes {
            uid: self.uid | rest.uid,
            flags: self.flags | rest.flags,
            size: self.size | rest.size,
            other: self.other | rest.other,
        }
    }
}

// Attributes in parentheses.
#[tactic(auto, using(crate::proofs::Asking::list_gathers))]
pub fn attributes_at(text: &[u8], at: usize) -> Option<(Attributes, usize)>
    ensures { ReadsOne text.now at (read_attributes (list_at (attribute_at text.now) text.now at)) result }
{
    octets::list_at(text, at)
}
