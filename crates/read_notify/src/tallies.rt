// What the groups of a NOTIFY come to, and how it is answered.
ghost use Rattle.std.specs.Prelude.{◌≡◌};
ghost use Rattle.read_notify.specs.Tallies.{about_selected, asks_messages, asks_others, unpaired_by, misplaced_by, amiss_by, tally_by, add, Room, reply_by_tally};

use super::Tally;
use model::{Limits, Reply};
use read_events::Events;
use read_filters::Scope;
use std::ops::Add;

// Whether a filter speaks of the selected mailbox.
fn about_selected(scope: Scope) -> bool
    ensures { result ≡ about_selected scope }
{
    matches!(scope, Scope::Selected | Scope::Delayed)
}

// Whether an event about messages is asked.
fn asks_messages(e: Events) -> bool
    ensures { result ≡ asks_messages e }
{
    e.new || e.expunge || e.flag || e.annotation
}

// Whether an event about something else is asked.
fn asks_others(e: Events) -> bool
    ensures { result ≡ asks_others e }
{
    e.name || e.subscription || e.other
}

// Whether an event about messages is asked without MessageNew and MessageExpunge both.
fn unpaired(e: Events) -> bool
    ensures { result ≡ unpaired_by e }
{
    asks_messages(e) && !(e.new && e.expunge)
}

// Whether a group asks what is only for the other kind of group: of the selected mailbox, or of any.
fn misplaced(selected: bool, e: Events) -> bool
    ensures { result ≡ misplaced_by selected e }
{
    if selected { asks_others(e) } else { e.listed }
}

// Whether a group has a fault that makes the command BAD.
fn amiss(selected: bool, e: Events) -> bool
    ensures { result ≡ amiss_by selected e }
{
    misplaced(selected, e) || unpaired(e)
}

// What one group comes to.
pub fn tally_by(scope: Scope, names: u64, e: Events) -> Tally
    ensures { result ≡ tally_by scope names e }
{
    let selected = about_selected(scope);
    Tally {
        groups: 1,
        names,
        selected: u64::from(selected),
        amiss: amiss(selected, e),
        badevent: e.annotation || e.other,
        unsupported: e.attributes.other,
    }
}

// Two tallies together.
impl Add for Tally {
    type Output = Tally;

    ghost can_add = { Room };

    ghost add_gives = { λ a b r. r ≡ add a b };

    fn add(self, rhs: Tally) -> Tally {
        Tally {
            groups: self.groups + rhs.groups,
            names: self.names + rhs.names,
            selected: self.selected + rhs.selected,
            amiss: self.amiss || rhs.amiss,
            badevent: self.badevent || rhs.badevent,
            unsupported: self.unsupported || rhs.unsupported,
        }
    }
}

// How a NOTIFY SET with these groups is answered.
pub fn reply_for(t: Tally, l: Limits) -> Reply
    ensures { result ≡ reply_by_tally l t }
{
    if 1 < t.selected || t.amiss {
        Reply::Bad
    } else if t.badevent {
        Reply::BadEvent
    } else if t.unsupported {
        Reply::Unsupported
    } else if l.groups < t.groups || l.names < t.names {
        Reply::TooLarge
    } else {
        Reply::Accepted
    }
}
