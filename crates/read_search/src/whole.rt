// A search as a whole, and how it is answered before anything is searched.
ghost use Rattle.std.specs.Prelude.{◌≡◌, ◌||◌, ◌<◌, length};
ghost use Rattle.read_search.specs.Searched.{ReadsSearch};
ghost use Rattle.read_search.specs.Judged.{refused_by, too_many_sources, too_many_keys_by, reply_by_asked};

use super::parts::{charset_part_at, in_at, return_at};
use super::{Asked, Sources};
use model::{Limits, Reply};

// A search, behind its verb and a space; its keys go into the cells from the first on.
#[tactic(auto, unfolding(model::specs::SearchGrammar::search_at))]
pub fn search_at(text: &[u8], at: usize, cells: &mut [u64]) -> Option<(Asked, usize)>
    requires { length text.now < 4294967296 }
    ensures { ReadsSearch text.now at cells.old cells.new result }
{
    let (sources, q) = in_at(text, at)?;
    let (returns, r) = return_at(text, q)?;
    let (unknown, t) = charset_part_at(text, r)?;
    let read = read_keys::program_at(text, t, cells)?;
    let asked = Asked {
        sources,
        returns,
        unknown,
        keys: read.keys,
        depth: read.depth,
        unsupported: read.unsupported,
        parts: read.parts,
        used: read.used,
    };
    Some((asked, read.next))
}

// Whether sources do not fit though the grammar does: one is for NOTIFY alone, or they need a selected mailbox and none is selected.
fn is_refused(sources: Sources, selected: bool) -> bool
    ensures { result ≡ refused_by selected sources }
{
    sources.delayed || !selected && (sources.count == 0 || sources.selected)
}

fn too_many_sources(sources: Sources, l: Limits) -> bool
    ensures { result ≡ too_many_sources l sources }
{
    l.groups < sources.count || l.names < sources.names
}

fn too_many_keys(a: Asked, l: Limits) -> bool
    ensures { result ≡ too_many_keys_by l a }
{
    l.keys < a.keys || l.depth < a.depth || l.parts < a.parts
}

// How a search is answered, before anything is searched.
pub fn reply_for(a: Asked, selected: bool, l: Limits) -> Reply
    ensures { result ≡ reply_by_asked l selected a }
{
    if is_refused(a.sources, selected) {
        Reply::Bad
    } else if a.unsupported {
        Reply::Unsupported
    } else if a.unknown {
        Reply::BadCharset
    } else if too_many_sources(a.sources, l) || too_many_keys(a, l) {
        Reply::TooLarge
    } else {
        Reply::Accepted
    }
}
