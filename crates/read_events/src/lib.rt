// Events of a group of NOTIFY: the reader of a list of them, by the definition of crate `model` that it meets.
#![tactic(auto)]

ghost use Rattle.model.specs.Requests.{message_new};
ghost use Rattle.model.specs.NotifyGrammar.{event_by, event_at, events_at};
ghost use Rattle.octets.specs.Joined.{ReadsOne};
ghost use Rattle.read_events.specs.Gathered.{merge, read_event, read_single, read_events, ReadsNew};
ghost use Rattle.std.specs.Prelude.{[]};

use octets::{Class, Joined};
use read_attributes::Attributes;

// Which events are asked for; `listed` says that attributes stand behind one of them, and `attributes` which.
#[derive(Clone, Copy, Default)]
pub struct Events {
    pub new: bool,
    pub expunge: bool,
    pub flag: bool,
    pub annotation: bool,
    pub name: bool,
    pub subscription: bool,
    pub other: bool,
    pub listed: bool,
    pub attributes: Attributes,
}

// MessageNew, whose word ends at a position, and the attributes behind it, if any.
fn new_at(text: &[u8], at: usize) -> Option<(Events, usize)>
    ensures { ReadsNew text.now at (read_event (event_by (message_new []) text.now at)) result }
{
    let new = Events {
        new: true,
        ..Events::default()
    };
    if octets::octet_at(text, at) == b' ' && octets::octet_at(text, at + 1) == b'(' {
        let (attributes, end) = read_attributes::attributes_at(text, at + 1)?;
        return Some((
            Events {
                listed: true,
                attributes,
                ..new
            },
            end,
        ));
    }
    Some((new, at))
}

// One event.
#[tactic(auto, unfolding(model::specs::NotifyGrammar::event_of))]
fn event_at(text: &[u8], at: usize) -> Option<(Events, usize)>
    ensures { ReadsOne text.now at (read_event (event_at text.now at)) result }
{
    let end = octets::run_at(text, at, Class::Atom)?;
    let none = Events::default();
    match octets::word_place(
        text,
        at,
        end,
        &[
            b"MessageNew",
            b"MessageExpunge",
            b"FlagChange",
            b"AnnotationChange",
            b"MailboxName",
            b"SubscriptionChange",
        ],
    ) {
        Some(0) => new_at(text, end),
        Some(1) => Some((
            Events {
                expunge: true,
                ..none
            },
            end,
        )),
        Some(2) => Some((Events { flag: true, ..none }, end)),
        Some(3) => Some((
            Events {
                annotation: true,
                ..none
            },
            end,
        )),
        Some(4) => Some((Events { name: true, ..none }, end)),
        Some(_) => Some((
            Events {
                subscription: true,
                ..none
            },
            end,
        )),
        None => Some((
            Events {
                other: true,
                ..none
            },
            end,
        )),
    }
}

impl Joined for Events {
    ghost one = { read_single };

    ghost joins = { merge };

    fn one_at(text: &[u8], at: usize) -> Option<(Events, usize)> {
        event_at(text, at)
    }

    fn join(self, rest: Events) -> Events {
        Events {
            new: self.new | rest.new,
            expunge: self.expunge | rest.expunge,
            flag: self.flag | rest.flag,
            annotation: self.annotation | rest.annotation,
            name: self.name | rest.name,
            subscription: self.subscription | rest.subscription,
            other: self.other | rest.other,
            listed: self.listed | rest.listed,
            attributes: self.attributes.join(rest.attributes),
        }
    }
}

// Events in parentheses, or the word NONE.
#[tactic(auto, using(crate::proofs::Gathering::list_gathers), unfolding(model::specs::NotifyGrammar::events_at))]
pub fn events_at(text: &[u8], at: usize) -> Option<(Events, usize)>
    ensures { ReadsOne text.now at (read_events (events_at text.now at)) result }
{
    if octets::octet_at(text, at) == b'(' {
        octets::list_at(text, at)
    } else if octets::word_at(text, at, b"NONE") {
        Some((Events::default(), octets::run_end(text, at, Class::Atom)))
    } else {
        None
    }
}
