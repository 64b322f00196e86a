// The lines that a command's end tells along the view: EXPUNGE, EXISTS, FETCH.
#![tactic(auto)]

mod lines;

ghost use Rattle.std.specs.Prelude.{◌≡◌, ◌+◌, ◌≤◌, length, get_or};
ghost use Rattle.model.specs.Memory.{no_message};
ghost use Rattle.table_messages.specs.Words.{messages};
ghost use Rattle.order_messages.specs.Chosen.{chosen};
ghost use Rattle.event_view.specs.Saying.{step_e, run_e, step_m, run_m, first_part};
ghost use Rattle.event_view.specs.Coded.{state_of};
ghost use Rattle.event_view.specs.Speaking.{Speaks};

use line_fetch::Fetch;
use line_message::Expunge;
use lines::{offer, say_exists};
use model::{MessageNumber, Uid};
use table_messages::{entry, is_expunged, is_marked};

// Where the queue ends, whether all lines fitted so far, how many did not, the next place, one more than the UID of the last line written.
#[derive(Clone, Copy)]
pub struct Going {
    pub end: usize,
    pub whole: bool,
    pub rest: u64,
    pub next: MessageNumber,
    pub bound: Uid,
}

// What was written: where the queue ends, whether EXISTS stands there, and the bounds of the EXPUNGE and FETCH lines; and how many lines
// did not fit.
#[derive(Clone, Copy)]
pub struct Spoken {
    pub end: usize,
    pub rest: u64,
    pub gone: Uid,
    pub news: bool,
    pub shown: Uid,
}

// An entry's EXPUNGE line is offered, if the client has the message and it is expunged.
#[tactic(auto, unfolding(crate::specs::Saying::more))]
fn expunge_one(
    words: &[u64],
    p: usize,
    told: Uid,
    queue: &mut [u8],
    limit: usize,
    g: Going,
) -> Going
    requires { (limit ≤ length queue.old) × (limit ≤ 65536) × (g.end ≤ 65536) × (g.rest ≤ 1048576) × (g.next.0 ≤ 1048576) × (told.0 ≤ 1099511627776) }
    ensures { (state_of queue.new result ≡ step_e told.0 limit (get_or (messages words.now) p no_message) (state_of queue.old g)) × (result.end ≤ 65536) × (result.rest ≤ g.rest + 1) × (result.next.0 ≤ g.next.0 + 1) }
{
    let e = entry(words, p);
    if told <= e.uid {
        return g;
    }
    if is_expunged(&e) {
        return offer(queue, limit, g, &Expunge { n: g.next }, e.uid);
    }
    lines::advanced(g)
}

fn expunges(
    words: &[u64],
    order: &[usize],
    told: Uid,
    queue: &mut [u8],
    limit: usize,
    g: Going,
) -> Going
    requires { (length order.now ≤ 1024) × (limit ≤ length queue.old) × (limit ≤ 65536) × (g.end ≤ 65536) × (g.rest ≤ 4096) × (g.next.0 ≤ 4096) × (told.0 ≤ 1099511627776) }
    ensures { (state_of queue.new result ≡ run_e told.0 limit (chosen (messages words.now) order.now (length order.now)) (state_of queue.old g)) × (result.end ≤ 65536) × (result.rest ≤ g.rest + length order.now) }
{
    let mut s = g;
    for j in (0..order.len()).rev() {
        s = expunge_one(words, order[j], told, queue, limit, s);
    }
    s
}

// An entry's FETCH line is offered, if the client has the message and its flags wait.
#[tactic(auto, unfolding(crate::specs::Saying::more))]
fn mark_one(
    words: &[u64],
    p: usize,
    told: Uid,
    skip: bool,
    queue: &mut [u8],
    limit: usize,
    g: Going,
) -> Going
    requires { (limit ≤ length queue.old) × (limit ≤ 65536) × (g.end ≤ 65536) × (g.rest ≤ 1048576) × (g.next.0 ≤ 1048576) × (told.0 ≤ 1099511627776) }
    ensures { (state_of queue.new result ≡ step_m told.0 skip limit (get_or (messages words.now) p no_message) (state_of queue.old g)) × (result.end ≤ 65536) × (result.rest ≤ g.rest + 1) × (result.next.0 ≤ g.next.0 + 1) }
{
    let e = entry(words, p);
    if told <= e.uid || skip && is_expunged(&e) {
        return g;
    }
    if is_marked(&e) {
        let line = Fetch {
            n: g.next,
            uid: e.uid,
            flags: e.flags,
            counter: e.counter,
        };
        return lines::advanced(offer(queue, limit, g, &line, e.uid));
    }
    lines::advanced(g)
}

fn marks(
    words: &[u64],
    order: &[usize],
    told: Uid,
    skip: bool,
    queue: &mut [u8],
    limit: usize,
    g: Going,
) -> Going
    requires { (length order.now ≤ 1024) × (limit ≤ length queue.old) × (limit ≤ 65536) × (g.end ≤ 65536) × (g.rest ≤ 4096) × (g.next.0 ≤ 4096) × (told.0 ≤ 1099511627776) }
    ensures { (state_of queue.new result ≡ run_m told.0 skip limit (chosen (messages words.now) order.now (length order.now)) (state_of queue.old g)) × (result.end ≤ 65536) × (result.rest ≤ g.rest + length order.now) }
{
    let mut s = g;
    for j in (0..order.len()).rev() {
        s = mark_one(words, order[j], told, skip, queue, limit, s);
    }
    s
}

fn say_first(
    words: &[u64],
    order: &[usize],
    told: Uid,
    class: bool,
    queue: &mut [u8],
    limit: usize,
    g: Going,
) -> Going
    requires { (length order.now ≤ 1024) × (limit ≤ length queue.old) × (limit ≤ 65536) × (g.end ≤ 65536) × (g.rest ≤ 4096) × (g.next.0 ≤ 4096) × (told.0 ≤ 1099511627776) }
    ensures { (state_of queue.new result ≡ first_part told.0 class limit (chosen (messages words.now) order.now (length order.now)) (state_of queue.old g)) × (result.end ≤ 65536) × (result.rest ≤ g.rest + length order.now) × (length queue.new ≡ length queue.old) }
{
    if class {
        expunges(words, order, told, queue, limit, g)
    } else {
        g
    }
}

// EXPUNGE lines, EXISTS, FETCH lines: as many of them as fit.
pub fn speak(
    words: &[u64],
    order: &[usize],
    told: Uid,
    class: bool,
    queue: &mut [u8],
    limit: usize,
    filled: usize,
) -> Spoken
    requires { (length order.now ≤ 1024) × (limit ≤ length queue.old) × (limit ≤ 65536) × (filled ≤ 65536) × (told.0 ≤ 1099511627776) }
    ensures { Speaks told.0 class limit (chosen (messages words.now) order.now (length order.now)) queue.old filled queue.new result }
{
    let g = Going {
        end: filled,
        whole: true,
        rest: 0,
        next: MessageNumber(1),
        bound: Uid(0),
    };
    let a = say_first(words, order, told, class, queue, limit, g);
    let k = order_messages::staying(words, order, told, class);
    let f = order_messages::unseen(words, order, told);
    let b = say_exists(queue, limit, lines::begun(a), k, f);
    let c = marks(words, order, told, class, queue, limit, lines::begun(b));
    Spoken {
        end: c.end,
        rest: c.rest,
        gone: a.bound,
        news: b.bound.0 == 1,
        shown: c.bound,
    }
}
