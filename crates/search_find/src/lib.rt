// The messages that an ESEARCH finds: in one mailbox an order of entries, each tested once, and the UIDs of those that match; in several
// the UIDs of all in one array, a run for each. That array is one of words; a single UID is a `Uid`.
#![tactic(auto)]

ghost use Rattle.std.specs.Prelude.{◌≡◌, ◌≤◌, length};
ghost use Rattle.model.specs.Memory.{messages_of};
ghost use Rattle.table_messages.specs.Words.{messages};
ghost use Rattle.order_messages.specs.Links.{Linked};
ghost use Rattle.search_find.specs.Finds.{Hits, Finds, Keeps};
ghost use Rattle.search_find.specs.Searched.{Searched, told};
ghost use Rattle.search_find.specs.Runs.{RowSearched, Found};

use match_keys::Probe;
use model::{MessageNumber, Uid};
use order_messages::links::{by_uid, link};
use table_messages::{entry, is_expunged};

// What is searched for: the keys, in cells; and the selected mailbox, of which the client was told below a UID.
#[derive(Clone, Copy)]
pub struct Wanted<'a> {
    pub cells: &'a [u64],
    pub selected: u64,
    pub below: Uid,
}

// Room for an order of entries, and for those of them that are in the view.
#[derive(Drop)]
pub struct Scratch<'a> {
    pub order: &'a mut [usize],
    pub view: &'a mut [usize],
}

// A message that is not expunged, and of which all the keys hold.
fn is_hit(cells: &[u64], p: Probe) -> bool
    ensures { Hits cells.now p result }
{
    !is_expunged(&p.message) && match_keys::all_hold(cells, p)
}

// The UIDs of those that match in an order, rising.
pub fn find(words: &[u64], order: &[usize], cells: &[u64], uids: &mut [u64]) -> usize
    requires { length order.now ≤ length uids.old }
    ensures { Finds (messages words.now) order.now (length order.now) cells.now uids.old uids.new result }
{
    let n = order.len();
    if n == 0 {
        return 0;
    }
    let lastuid = entry(words, order[0]).uid;
    let mut r = 0;
    for k in (0..n).rev() {
        let message = entry(words, order[k]);
        let p = Probe {
            message,
            number: MessageNumber((n - k) as u64),
            lastnumber: MessageNumber(n as u64),
            lastuid,
        };
        if is_hit(cells, p) {
            uids[r] = message.uid.0;
            r += 1;
        }
    }
    r
}

// Of an order those that the client was told of: the view.
pub fn told_of(words: &[u64], order: &[usize], told: Uid, view: &mut [usize]) -> usize
    requires { length order.now ≤ length view.old }
    ensures { Keeps (messages words.now) order.now (length order.now) told.0 view.old view.new result }
{
    let mut r = 0;
    for place in order {
        if entry(words, *place).uid < told {
            view[r] = *place;
            r += 1;
        }
    }
    r
}

// A mailbox that is not selected: all its entries.
pub fn search_box(
    words: &[u64],
    id: u64,
    heads: &[usize; 256],
    next: &[usize],
    cells: &[u64],
    order: &mut [usize],
    uids: &mut [u64],
) -> usize
    requires { (length (messages words.now) ≤ length order.old) × (length (messages words.now) ≤ length uids.old) × (length (messages words.now) ≤ length next.now) × Linked (messages words.now) (length (messages words.now)) heads.now next.now }
    ensures { Searched (length (messages words.now)) (messages_of id (messages words.now)) cells.now uids.new result }
{
    let n = by_uid(words, id, heads, next, order);
    find(words, &order[..n], cells, uids)
}

// The selected mailbox: those entries that the client was told of.
pub fn search_view(
    words: &[u64],
    id: u64,
    heads: &[usize; 256],
    next: &[usize],
    below: Uid,
    cells: &[u64],
    scratch: Scratch<'_>,
    uids: &mut [u64],
) -> usize
    requires { (length (messages words.now) ≤ length scratch.order.now) × (length (messages words.now) ≤ length scratch.view.now) × (length (messages words.now) ≤ length uids.old) × (length (messages words.now) ≤ length next.now) × Linked (messages words.now) (length (messages words.now)) heads.now next.now }
    ensures { Searched (length (messages words.now)) (told below.0 (messages_of id (messages words.now))) cells.now uids.new result }
{
    let Scratch { order, view } = scratch;
    let n = by_uid(words, id, heads, next, order);
    let v = told_of(words, &order[..n], below, view);
    find(words, &view[..v], cells, uids)
}

// A mailbox by its id: the selected one by the client's view, any other by all its entries.
fn search_row(
    words: &[u64],
    id: u64,
    heads: &[usize; 256],
    next: &[usize],
    wanted: Wanted<'_>,
    order: &mut [usize],
    view: &mut [usize],
    uids: &mut [u64],
) -> usize
    requires { (length (messages words.now) ≤ length order.old) × (length (messages words.now) ≤ length view.old) × (length (messages words.now) ≤ length uids.old) × (length (messages words.now) ≤ length next.now) × Linked (messages words.now) (length (messages words.now)) heads.now next.now }
    ensures { (RowSearched (messages words.now) id wanted.entry.selected wanted.entry.below.0 wanted.entry.cells.now uids.new result) × (result ≤ length (messages words.now)) }
{
    if match_sources::is_selected(id, wanted.selected) {
        return search_view(
            words,
            id,
            heads,
            next,
            wanted.below,
            wanted.cells,
            Scratch { order, view },
            uids,
        );
    }
    search_box(words, id, heads, next, wanted.cells, order, uids)
}

// What is found in the mailboxes of an order of rows, the top one first: the UIDs one after the other, and for each place where its run
// begins and how many UIDs it has. A run begins where there is room for 1,024 behind it.
pub fn find_runs(
    words: &[u64],
    wanted: Wanted<'_>,
    ids: &[u64; 64],
    rows: &[usize],
    scratch: Scratch<'_>,
    uids: &mut [u64],
    starts: &mut [usize],
    counts: &mut [usize],
)
    requires { (length (messages words.now) ≤ 1024) × (length (messages words.now) ≤ length scratch.order.now) × (length (messages words.now) ≤ length scratch.view.now) × (2048 ≤ length uids.old) × (length rows.now ≤ length starts.old) × (length rows.now ≤ length counts.old) × (length rows.now ≤ 64) }
    ensures { Found (messages words.now) ids.now rows.now (length rows.now) wanted.entry.selected wanted.entry.below.0 wanted.entry.cells.now uids.new starts.new counts.new }
{
    let Scratch { order, view } = scratch;
    let mut heads = [0usize; 256];
    let mut next = [0usize; 1024];
    link(words, &mut heads, &mut next);
    let mut total = 0;
    for i in (0..rows.len()).rev() {
        let id = ids[rows[i] % 64];
        let from = total.min(1024);
        let r = search_row(
            words,
            id,
            &heads,
            &next,
            wanted,
            order,
            view,
            &mut uids[from..],
        );
        starts[i] = from;
        counts[i] = r;
        total = from + r;
    }
}
