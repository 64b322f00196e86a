// What NOTIFY SET tells: a line for each mailbox, by name.
#![tactic(auto, using(line_put::specs::Writes::writes_nothing))]

ghost use Rattle.std.specs.Prelude.{Bool, ◌&&◌, List, ◌+◌, ◌*◌, ◌≤◌, ◌<◌, length};
ghost use Rattle.model.specs.Lines.{Line, render_all};
ghost use Rattle.model.specs.Lists.{concat_map};
ghost use Rattle.model.specs.Memory.{Memory, boxes, may_list};
ghost use Rattle.model.specs.Listing.{concerns, listing_line, listing};
ghost use Rattle.model.specs.declared.Mailbox.{Mailbox};
ghost use Rattle.model.specs.declared.Session.{Session};
ghost use Rattle.line_put.specs.Writes.{Writes};
ghost use Rattle.order_mailboxes.specs.Named.{chosen, Ordered, Below};
ghost use Rattle.line_listing.specs.Telling.{line_by, line_at, texts, Shown, Tells};

use line_mailbox::Mark;
use line_put::Writer;
use table_mailboxes::Columns;

// The line of a row by its attributes, name, UIDNEXT, UIDVALIDITY and counter: no access; or the STATUS, where it is told; or none.
fn put_line(
    w: &mut Writer<'_>,
    attributes: u8,
    name: &[u8],
    next: u64,
    validity: u64,
    highest: u64,
    messages: u64,
    status: bool,
)
    requires { (w.old.limit ≤ length w.old.queue.now) × (w.old.at ≤ 262144) × (length name.now ≤ 64) }
    ensures put { Writes w.old (line_by attributes name.now next validity highest messages status) w.new }
    ensures upper_bound { w.new.at ≤ w.old.at + 300 }
{
    if !table_mailboxes::has(attributes, 5) {
        line_mailbox::put_list(w, Mark::NoAccess, name);
    } else if status {
        line_mailbox::put_status_at_set(w, name, messages, next, validity, highest);
    }
}

// The line of row k.
pub fn put_row(w: &mut Writer<'_>, cols: &Columns, k: usize, messages: u64, status: bool)
    requires { (w.old.limit ≤ length w.old.queue.now) × (w.old.at ≤ 262144) × (k < 64) }
    ensures put { Writes w.old (line_at cols.now k messages status) w.new }
    ensures upper_bound { w.new.at ≤ w.old.at + 300 }
{
    put_line(
        w,
        cols.attributes[k],
        cols.name(k),
        cols.nexts[k],
        cols.validities[k],
        cols.counters[k],
        messages,
        status,
    );
}

// The lines of the places of an order, from the top.
pub fn put_lines(
    w: &mut Writer<'_>,
    cols: &Columns,
    order: &[usize],
    counts: &[u64; 64],
    asks: &[u8; 64],
)
    requires { (w.old.limit ≤ length w.old.queue.now) × (w.old.at ≤ 65536) × (length order.now ≤ 64) }
    ensures text { Writes w.old (texts cols.now order.now counts.now asks.now (length order.now)) w.new }
    ensures put { (f : Mailbox → List Line) (l : List Mailbox) → length l ≤ 64 → Shown l cols.now → Below order.now (length order.now) (length l) → Tells f l counts.now asks.now → Writes w.old (render_all (concat_map f (chosen l order.now (length order.now)))) w.new }
    ensures upper_bound { w.new.at ≤ w.old.at + 300 * length order.now }
{
    for i in (0..order.len()).rev() {
        let k = order[i] % 64;
        put_row(w, cols, k, counts[k], asks[k] != 0);
    }
}

// The whole listing, from the places of the rows that are told of, by name: each with its count and with whether its STATUS is told.
pub fn put_listing(
    w: &mut Writer<'_>,
    cols: &Columns,
    order: &[usize],
    counts: &[u64; 64],
    asks: &[u8; 64],
)
    requires { (w.old.limit ≤ length w.old.queue.now) × (w.old.at ≤ 65536) × (length order.now ≤ 64) }
    ensures text { Writes w.old (texts cols.now order.now counts.now asks.now (length order.now)) w.new }
    ensures put { (m : Memory) (s : Session) (wanted : Bool) → length (boxes m) ≤ 64 → Shown (boxes m) cols.now → Ordered (λ (x : Mailbox). may_list x && concerns m s x) (boxes m) order.now (length order.now) → Tells (listing_line m s wanted) (boxes m) counts.now asks.now → Writes w.old (render_all (listing m s wanted)) w.new }
    ensures upper_bound { w.new.at ≤ w.old.at + 19200 }
{
    put_lines(w, cols, order, counts, asks);
}
