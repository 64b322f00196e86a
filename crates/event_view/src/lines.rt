// One line at a command's end: written if it fits and all before it did, else counted.
ghost use Rattle.std.specs.Prelude.{◌≡◌, false, ◌+◌, ◌≤◌, length};
ghost use Rattle.line_message.specs.Counts.{count_text, exists_word};
ghost use Rattle.event_view.specs.Saying.{say, say_exists};
ghost use Rattle.event_view.specs.Coded.{state_of};

use super::Going;
use line_put::{Line, Writer};
use model::{MessageNumber, Uid};

fn refused(g: Going) -> Going
    requires { g.rest ≤ 1048576 }
    ensures { result ≡ record { end = g.end; whole = false; rest = g.rest + 1; next = g.next; bound = g.bound } }
{
    Going {
        whole: false,
        rest: g.rest + 1,
        ..g
    }
}

pub fn advanced(g: Going) -> Going
    requires { g.next.0 ≤ 1048576 }
    ensures { result ≡ record { end = g.end; whole = g.whole; rest = g.rest; next = record { 0 = g.next.0 + 1 }; bound = g.bound } }
{
    Going {
        next: MessageNumber(g.next.0 + 1),
        ..g
    }
}

pub fn begun(g: Going) -> Going
    ensures { result ≡ record { end = g.end; whole = g.whole; rest = g.rest; next = record { 0 = 1 }; bound = record { 0 = 0 } } }
{
    Going {
        next: MessageNumber(1),
        bound: Uid(0),
        ..g
    }
}

// A line is offered.
pub fn offer<L: Line>(queue: &mut [u8], limit: usize, g: Going, line: &L, uid: Uid) -> Going
    requires { (limit ≤ length queue.old) × (limit ≤ 65536) × (g.end ≤ 65536) × (g.rest ≤ 1048576) × (uid.0 ≤ 1099511627776) }
    ensures { (state_of queue.new result ≡ say limit (L.text line.now) uid.0 (state_of queue.old g)) × (result.end ≤ 65536) × (result.rest ≤ g.rest + 1) × (result.next.0 ≡ g.next.0) }
{
    if !g.whole {
        return refused(g);
    }
    let end = line_put::write(queue, g.end, 0, line);
    if limit < end {
        return refused(g);
    }
    let end = line_put::write(queue, g.end, limit, line);
    Going {
        end,
        bound: Uid(uid.0 + 1),
        ..g
    }
}

// `* n EXISTS`
#[derive(Clone, Copy)]
struct Exists {
    n: MessageNumber,
}

impl Line for Exists {
    ghost text = { λ l. count_text l.n.0 exists_word };

    fn put(&self, w: &mut Writer<'_>) {
        line_message::put_count(w, self.n, b" EXISTS\r\n");
    }
}

#[tactic(auto, unfolding(crate::specs::Saying::say_exists))]
pub fn say_exists(queue: &mut [u8], limit: usize, g: Going, k: u64, n: u64) -> Going
    requires { (limit ≤ length queue.old) × (limit ≤ 65536) × (g.end ≤ 65536) × (g.rest ≤ 1048576) × (k ≤ 1024) × (n ≤ 1024) }
    ensures { (state_of queue.new result ≡ say_exists limit k n (state_of queue.old g)) × (result.end ≤ 65536) × (result.rest ≤ g.rest + 1) × (length queue.new ≡ length queue.old) }
{
    if n == 0 {
        return g;
    }
    let line = Exists {
        n: MessageNumber(k + n),
    };
    offer(queue, limit, g, &line, Uid(0))
}
