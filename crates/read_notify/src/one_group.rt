// A group of NOTIFY as a session holds it: its filter, its events and their attributes as numbers.
ghost use Rattle.std.specs.Prelude.{◌≡◌};
ghost use Rattle.model.specs.NotifyGrammar.{group_at};
ghost use Rattle.read_notify.specs.Watched.{low_of, bits_of, fetch_bits, first_of, lent_by, read_lent, LendsBehind, Lends};

use super::Lent;
use super::tallies::tally_by;
use model::LentGroup;
use read_attributes::Attributes;
use read_events::Events;
use read_filters::Filter;

// A number as an octet, 0 where it is none.
pub fn low(x: u64) -> u8
    ensures { result ≡ low_of x }
{
    u8::try_from(x).unwrap_or(0)
}

// The events of a group, a bit each.
fn event_bits(e: Events) -> u8
    ensures { result ≡ bits_of e }
{
    u8::from(e.new)
        | u8::from(e.expunge) << 1
        | u8::from(e.flag) << 2
        | u8::from(e.name) << 3
        | u8::from(e.subscription) << 4
}

// The attributes asked with MessageNew, a bit each.
fn attribute_bits(a: Attributes) -> u8
    ensures { result ≡ fetch_bits a }
{
    u8::from(a.uid) | u8::from(a.flags) << 1 | u8::from(a.size) << 2
}

// Where the names of a group begin: at 0 if it has none.
fn first_of(names: u64, first: u64) -> u8
    ensures { result ≡ first_of names first }
{
    if names == 0 { 0 } else { low(first) }
}

// A group as a session holds it; its names begin at `first`.
fn lent(selector: u8, names: u64, first: u64, e: Events) -> LentGroup
    ensures { result ≡ lent_by selector names first e }
{
    LentGroup {
        selector,
        first: first_of(names, first),
        count: low(names),
        events: event_bits(e),
        attributes: attribute_bits(e.attributes),
    }
}

// A group as a session holds it, from the position behind its filter on; and the position behind it.
fn lent_behind(text: &[u8], at: usize, filter: Filter, first: u64) -> Option<(Lent, usize)>
    ensures { LendsBehind text.now at filter.scope filter.names first result }
{
    if octets::octet_at(text, at) != b' ' {
        return None;
    }
    let (e, next) = read_events::events_at(text, at + 1)?;
    if octets::octet_at(text, next) != b')' {
        return None;
    }
    let selector = read_filters::selector_of(filter.scope);
    let group = lent(selector, filter.names, first, e);
    let tally = tally_by(filter.scope, filter.names, e);
    Some((Lent { group, tally }, next + 1))
}

// The group at a position as a session holds it, and the position behind it; its names begin at `first`.
#[tactic(auto, unfolding(model::specs::NotifyGrammar::group_at))]
pub fn lent_at(text: &[u8], at: usize, first: u64) -> Option<(Lent, usize)>
    ensures { Lends text.now at (read_lent first (group_at text.now at)) result }
{
    if octets::octet_at(text, at) != b'(' {
        return None;
    }
    let (filter, next) = read_filters::filter_at(text, at + 1)?;
    if !read_filters::is_groupable(filter.scope) {
        return None;
    }
    lent_behind(text, next, filter, first)
}
