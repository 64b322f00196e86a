// What a command line that is a search asks.
ghost use Rattle.std.specs.Prelude.{◌≡◌, ◌≤◌, length};
ghost use Rattle.search_hits.specs.Headed.{BehindWord, Tags};
ghost use Rattle.search_hits.specs.Finding.{Asks, AsksOf};

use super::Question;
use read_filters::Scope;
use read_options::Returns;
use read_sources::{Listed, Source};

// The position behind the word ESEARCH.
fn behind_word(text: &[u8]) -> Option<usize>
    ensures { BehindWord text.now result }
{
    let (_, at) = read_options::verb_at(text, read_options::tag_end(text) + 1)?;
    Some(at)
}

// The length of the tag; 0 where there is none.
pub fn tag_length(text: &[u8]) -> usize
    ensures { Tags text.now result }
{
    read_commands::tag_length(text)
}

// What the line asks, where it is a search; its keys go into the cells.
fn asked(text: &[u8], cells: &mut [u64]) -> Option<Question>
    requires { (length text.now ≤ 1024) × (4096 ≤ length cells.old) }
    ensures { AsksOf text.now cells.new result }
{
    let at = behind_word(text)? + 1;
    let (listed, _) = read_sources::keep_sources(text, at)?;
    let (asked, _) = read_search::search_at(text, at, cells)?;
    Some(Question {
        listed,
        wanted: asked.returns,
        filled: asked.used,
    })
}

// Nothing is asked.
fn nothing() -> Question
    ensures { result.filled ≡ 0 }
{
    let source = Source {
        scope: Scope::Selected,
        first: 0,
        count: 0,
    };
    Question {
        listed: Listed {
            count: 0,
            sources: [source; 8],
            kept: read_filters::keep_nothing(),
        },
        wanted: Returns::default(),
        filled: 0,
    }
}

// What the line asks; its keys go into the cells. A line that is no search asks nothing.
pub fn read(text: &[u8], cells: &mut [u64]) -> Question
    requires { (length text.now ≤ 1024) × (4096 ≤ length cells.old) }
    ensures { Asks text.now cells.new result }
{
    match asked(text, cells) {
        Some(question) => question,
        None => nothing(),
    }
}
