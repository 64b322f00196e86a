// The lines of a part, entry by entry along an order.
ghost use Rattle.std.specs.Prelude.{◌≡◌, ◌+◌, ◌*◌, ◌≤◌, length};
ghost use Rattle.line_put.specs.Writes.{Writes};
ghost use Rattle.table_messages.specs.Words.{messages};
ghost use Rattle.order_messages.specs.Chosen.{chosen};
ghost use Rattle.line_message.specs.Parts.{text_of, next_of, part_text};

use super::{Part, put_expunge};
use line_fetch::{Shows, put_fetch, put_new};
use line_put::Writer;
use model::{Message, MessageNumber, Uid};

// Each of these answers the place of the next message.
// The line of an expunged message that the client has.
fn put_gone(w: &mut Writer<'_>, told: Uid, n: MessageNumber, e: Message) -> MessageNumber
    requires { (w.old.limit ≤ length w.old.queue.now) × (w.old.at ≤ 16777216) × (n.0 ≤ 1048576) }
    ensures put { Writes w.old (text_of Part.Expunged told.0 n.0 e) w.new }
    ensures upper_bound { w.new.at ≤ w.old.at + 231 }
    ensures next { result.0 ≡ next_of Part.Expunged told.0 n.0 e }
{
    if told <= e.uid {
        return n;
    }
    if e.states % 2 == 1 {
        put_expunge(w, n);
        return n;
    }
    MessageNumber(n.0 + 1)
}

// The line of a marked message that the client has and that exists.
fn put_marked(w: &mut Writer<'_>, told: Uid, n: MessageNumber, e: Message) -> MessageNumber
    requires { (w.old.limit ≤ length w.old.queue.now) × (w.old.at ≤ 16777216) × (n.0 ≤ 1048576) }
    ensures put { Writes w.old (text_of Part.Marked told.0 n.0 e) w.new }
    ensures upper_bound { w.new.at ≤ w.old.at + 231 }
    ensures next { result.0 ≡ next_of Part.Marked told.0 n.0 e }
{
    if told <= e.uid || e.states % 2 == 1 {
        return n;
    }
    if e.states / 2 % 2 == 1 {
        put_fetch(w, n, e.uid, e.flags, e.counter);
    }
    MessageNumber(n.0 + 1)
}

// The line of a message that the client does not have yet.
fn put_fresh(
    w: &mut Writer<'_>,
    told: Uid,
    n: MessageNumber,
    e: Message,
    shows: Shows,
) -> MessageNumber
    requires { (w.old.limit ≤ length w.old.queue.now) × (w.old.at ≤ 16777216) × (n.0 ≤ 1048576) }
    ensures put { Writes w.old (text_of (Part.New shows) told.0 n.0 e) w.new }
    ensures upper_bound { w.new.at ≤ w.old.at + 231 }
    ensures next { result.0 ≡ next_of (Part.New shows) told.0 n.0 e }
{
    if e.uid < told {
        return n;
    }
    put_new(w, shows, n, e);
    MessageNumber(n.0 + 1)
}

// The line that a part has for an entry, if it has one.
fn put_one(w: &mut Writer<'_>, part: Part, told: Uid, n: MessageNumber, e: Message) -> MessageNumber
    requires { (w.old.limit ≤ length w.old.queue.now) × (w.old.at ≤ 16777216) × (n.0 ≤ 1048576) }
    ensures put { Writes w.old (text_of part told.0 n.0 e) w.new }
    ensures upper_bound { w.new.at ≤ w.old.at + 231 }
    ensures next { result.0 ≡ next_of part told.0 n.0 e }
{
    match part {
        Part::Expunged => put_gone(w, told, n, e),
        Part::Marked => put_marked(w, told, n, e),
        Part::New(shows) => put_fresh(w, told, n, e, shows),
    }
}

// The lines of a part along an order; the first message's place is n.
pub fn put_part(
    w: &mut Writer<'_>,
    words: &[u64],
    order: &[usize],
    part: Part,
    told: Uid,
    n: MessageNumber,
)
    requires { (length order.now ≤ 1024) × (w.old.limit ≤ length w.old.queue.now) × (w.old.at ≤ 1048576) × (n.0 ≤ 4096) }
    ensures put { Writes w.old (part_text part told.0 n.0 (chosen (messages words.now) order.now (length order.now))) w.new }
    ensures upper_bound { w.new.at ≤ w.old.at + 231 * length order.now }
{
    let mut next = n;
    for j in (0..order.len()).rev() {
        let e = table_messages::entry(words, order[j]);
        next = put_one(w, part, told, next, e);
    }
}
