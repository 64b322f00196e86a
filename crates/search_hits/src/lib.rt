// What an ESEARCH asks, which rows it searches, and what it finds in them.
#![tactic(auto)]

pub mod reading;

ghost use Rattle.std.specs.Prelude.{◌*◌, ◌≤◌, length};
ghost use Rattle.table_messages.specs.Words.{messages};
ghost use Rattle.search_hits.specs.Finding.{Chooses, Gathers};

use model::Uid;
use read_options::Returns;
use read_sources::Listed;
use reading::read;
use search_find::{Scratch, Wanted, find_runs};
use table_mailboxes::Columns;

// What a search asks: its sources, what it is to return, and how many cells its keys fill.
#[derive(Clone, Copy)]
pub struct Question {
    pub listed: Listed,
    pub wanted: Returns,
    pub filled: usize,
}

// What was found: what is to be said of it, and in how many rows it was looked for.
#[derive(Clone, Copy)]
pub struct Hits {
    pub wanted: Returns,
    pub rows: usize,
}

// The rows that are searched, by name.
fn choose(listed: &Listed, selected: u64, cols: &Columns, rows: &mut [usize]) -> usize
    requires { 64 ≤ length rows.old }
    ensures { Chooses listed.now selected cols.now rows.new result }
{
    let mut picked = [0u8; 64];
    match_sources::pick(listed, selected, cols, &mut picked);
    order_mailboxes::by_name(cols, &picked, rows)
}

// What a line finds in the tables: the rows that it searches, by name, the first on top, and a run of UIDs for each.
pub fn find(
    text: &[u8],
    words: &[u64],
    selected: u64,
    told: Uid,
    cols: &Columns,
    rows: &mut [usize],
    uids: &mut [u64],
    starts: &mut [usize],
    counts: &mut [usize],
) -> Hits
    requires { (length text.now ≤ 1024) × (length (messages words.now) ≤ 1024) × (64 ≤ length rows.old) × (2048 ≤ length uids.old) × (64 ≤ length starts.old) × (64 ≤ length counts.old) }
    ensures { Gathers text.now words.now selected told.0 cols.now rows.new uids.new starts.new counts.new result }
{
    let mut cells = [0u64; 4096];
    let mut order = [0usize; 1024];
    let mut view = [0usize; 1024];
    let asked = read(text, &mut cells);
    let k = choose(&asked.listed, selected, cols, rows);
    let wanted = Wanted {
        cells: &cells[..asked.filled],
        selected,
        below: told,
    };
    find_runs(
        words,
        wanted,
        &cols.ids,
        &rows[..k],
        Scratch {
            order: &mut order,
            view: &mut view,
        },
        uids,
        starts,
        counts,
    );
    Hits {
        wanted: asked.wanted,
        rows: k,
    }
}
