// The sources behind IN: how many there are, and what they speak of.
ghost use Rattle.read_search.specs.Sourced.{ahead, RoomFor, ReadsRow, ReadsSources};
ghost use Rattle.std.specs.Prelude.{◌≡◌};

use super::Sources;
use read_filters::{Filter, Scope};

// A source in front of others.
fn with_source(filter: Filter, more: Sources) -> Sources
    requires { RoomFor filter.names more }
    ensures { result ≡ ahead filter more }
{
    Sources {
        count: more.count + 1,
        names: filter.names + more.names,
        delayed: filter.scope == Scope::Delayed || more.delayed,
        selected: matches!(filter.scope, Scope::Selected | Scope::Delayed) || more.selected,
    }
}

// Sources with a space between them, up to the parenthesis that closes them.
// Kept: what is joined here has to fit its counts, by the octets that were read; `octets::row_to_close` joins without a bound.
fn sources_row(text: &[u8], at: usize) -> Option<(Sources, usize)>
    ensures { ReadsRow text.now at result }
{
    let (filter, p) = read_filters::filter_at(text, at)?;
    match octets::octet_at(text, p) {
        b' ' => {
            let (more, next) = sources_row(text, p + 1)?;
            Some((with_source(filter, more), next))
        }
        b')' => Some((with_source(filter, Sources::default()), p + 1)),
        _ => None,
    }
}

// Sources in parentheses.
pub fn sources_at(text: &[u8], at: usize) -> Option<(Sources, usize)>
    ensures { ReadsSources text.now at result }
{
    if octets::octet_at(text, at) != b'(' {
        return None;
    }
    sources_row(text, at + 1)
}
