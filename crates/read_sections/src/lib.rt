// Sections of attributes: the part and the text that a section names, the octets asked for, each by the definition of crate `model` that it meets.
#![tactic(auto)]

ghost use Rattle.std.specs.Prelude.{◌≡◌};
ghost use Rattle.model.specs.Reading.{piece};
ghost use Rattle.model.specs.Attributes.{section_word, section_text_at, section_part_at, section_spec_at, partial_at, section_at};
ghost use Rattle.octets.specs.Found.{Reads, next_of};
ghost use Rattle.read_sections.specs.Sections.{word_of, ReadsParts, read_field, ReadsOn, fields_at, count_at, close_at};

use octets::{Class, Joined};

// Numbers of parts with dots between them; a dot before a letter ends them.
fn parts_at(text: &[u8], at: usize) -> Option<usize>
    ensures { ReadsParts text.now at result }
{
    let (_, next) = octets::positive_at(text, at)?;
    if octets::octet_at(text, next) == b'.'
        && octets::in_class(octets::octet_at(text, next + 1), Class::Digit)
    {
        return parts_at(text, next + 1);
    }
    Some(next)
}

// The name of a header field; of names only where they end is kept.
#[derive(Clone, Copy)]
pub struct Field;

impl Joined for Field {
    ghost one = { read_field };

    ghost joins = { λ a b. b };

    fn one_at(text: &[u8], at: usize) -> Option<(Field, usize)> {
        octets::text_at(text, at, Class::Astring).map(|next| (Field, next))
    }

    fn join(self, rest: Field) -> Field {
        rest
    }
}

// A space, and names of header fields in parentheses.
fn fields_at(text: &[u8], at: usize) -> Option<usize>
    ensures { Reads text.now at (next_of (fields_at text.now at)) result }
{
    if octets::octet_at(text, at) != b' ' {
        return None;
    }
    let (_, end) = octets::list_at::<Field>(text, at + 1)?;
    Some(end)
}

// What a word in a section asks for.
#[derive(Clone, Copy)]
pub enum Wanted {
    Whole,
    Fields,
    Mime,
}

// The word from one position up to another, in a section.
#[tactic(auto, unfolding(model::specs::Attributes::section_word))]
fn section_word(text: &[u8], from: usize, upto: usize) -> Option<Wanted>
    ensures { result ≡ word_of (section_word (piece text.now from upto)) }
{
    match octets::word_place(
        text,
        from,
        upto,
        &[
            b"HEADER",
            b"TEXT",
            b"HEADER.FIELDS",
            b"HEADER.FIELDS.NOT",
            b"MIME",
        ],
    )? {
        0 | 1 => Some(Wanted::Whole),
        2 | 3 => Some(Wanted::Fields),
        _ => Some(Wanted::Mime),
    }
}

// The text that a section names; `part` says that the number of a part stands before it.
fn section_text_at(text: &[u8], at: usize, part: bool) -> Option<usize>
    ensures { Reads text.now at (next_of (section_text_at part text.now at)) result }
{
    let end = octets::run_at(text, at, Class::Label)?;
    match section_word(text, at, end)? {
        Wanted::Whole => Some(end),
        Wanted::Fields => fields_at(text, end),
        Wanted::Mime => { if part { Some(end) } else { None } }
    }
}

// A part, and what of it.
fn section_part_at(text: &[u8], at: usize) -> Option<usize>
    ensures { Reads text.now at (next_of (section_part_at text.now at)) result }
{
    let next = parts_at(text, at)?;
    if octets::octet_at(text, next) == b'.' {
        return section_text_at(text, next + 1, true);
    }
    Some(next)
}

// What stands between the brackets, if anything does.
fn section_spec_at(text: &[u8], at: usize) -> Option<usize>
    ensures { ReadsOn text.now at (next_of (section_spec_at text.now at)) result }
{
    let b = octets::octet_at(text, at);
    if b == b']' {
        return Some(at);
    }
    if octets::in_class(b, Class::Digit) {
        section_part_at(text, at)
    } else {
        section_text_at(text, at, false)
    }
}

// How many octets are asked for, behind the first of them.
fn count_at(text: &[u8], at: usize) -> Option<usize>
    ensures { Reads text.now at (next_of (count_at text.now at)) result }
{
    if octets::octet_at(text, at) != b'.' {
        return None;
    }
    let (_, next) = octets::positive_at(text, at + 1)?;
    if octets::octet_at(text, next) != b'>' {
        return None;
    }
    Some(next + 1)
}

// The octets asked for, the first and how many.
fn partial_at(text: &[u8], at: usize) -> Option<usize>
    ensures { Reads text.now at (next_of (partial_at text.now at)) result }
{
    if octets::octet_at(text, at) != b'<' {
        return None;
    }
    let (_, next) = octets::number_at(text, at + 1)?;
    count_at(text, next)
}

// The closing bracket, and the octets asked for, if any.
fn close_at(text: &[u8], at: usize) -> Option<usize>
    ensures { Reads text.now at (next_of (close_at text.now at)) result }
{
    if octets::octet_at(text, at) != b']' {
        return None;
    }
    if octets::octet_at(text, at + 1) == b'<' {
        return partial_at(text, at + 1);
    }
    Some(at + 1)
}

// A section in its brackets, and the octets asked for, if any.
#[tactic(auto, unfolding(model::specs::Attributes::section_at))]
pub fn section_at(text: &[u8], at: usize) -> Option<usize>
    ensures { Reads text.now at (next_of (section_at text.now at)) result }
{
    if octets::octet_at(text, at) != b'[' {
        return None;
    }
    let next = section_spec_at(text, at + 1)?;
    close_at(text, next)
}
