// FETCH lines: of a message's flags and counter, and of a new message with the items that are asked.
#![tactic(auto, using(line_put::specs::Writes::writes_nothing))]

ghost use Rattle.std.specs.Prelude.{true, ◌++◌, ◌+◌, ◌-◌, ◌≤◌, length};
ghost use Rattle.model.specs.Text.{decimal};
ghost use Rattle.model.specs.Lines.{modseq, item_text};
ghost use Rattle.line_put.specs.Writes.{Writes};
ghost use Rattle.line_fetch.specs.Fetch.{gap, piece, flags_text, flag_item, fetch_text};
ghost use Rattle.line_fetch.specs.Items.{items_text, new_text};

use line_put::{Line, Writer};
use model::{Message, MessageNumber, Uid};

// A space, where something stands before.
fn put_gap(w: &mut Writer<'_>, began: bool)
    requires { (w.old.limit ≤ length w.old.queue.now) × (w.old.at ≤ 134217728) }
    ensures put { Writes w.old (gap began) w.new }
    ensures upper_bound { w.new.at ≤ w.old.at + 1 }
{
    if began {
        w.put_byte(b' ');
    }
}

// ---- flags
// A flag's name, where it is set, with a space before it where one stands before.
fn put_flag(w: &mut Writer<'_>, on: bool, began: bool, name: &[u8])
    requires { (w.old.limit ≤ length w.old.queue.now) × (w.old.at ≤ 67108864) × (length name.now ≤ 16) }
    ensures put { Writes w.old (piece on began name.now) w.new }
    ensures upper_bound { w.new.at ≤ w.old.at + 17 }
{
    if on {
        put_gap(w, began);
        w.put(name);
    }
}

// The names of the flags that are set, with spaces between.
fn put_flags(w: &mut Writer<'_>, flags: u64)
    requires { (w.old.limit ≤ length w.old.queue.now) × (w.old.at ≤ 33554432) }
    ensures put { Writes w.old (flags_text flags) w.new }
    ensures upper_bound { w.new.at ≤ w.old.at + 85 }
{
    let a = flags % 2 == 1;
    let b = flags / 2 % 2 == 1;
    let c = flags / 4 % 2 == 1;
    let d = flags / 8 % 2 == 1;
    let e = flags / 16 % 2 == 1;
    let ab = a || b;
    let abc = ab || c;
    put_flag(w, a, false, b"\\Answered");
    put_flag(w, b, a, b"\\Flagged");
    put_flag(w, c, ab, b"\\Deleted");
    put_flag(w, d, abc, b"\\Seen");
    put_flag(w, e, abc || d, b"\\Draft");
}

// ---- items
// A word and a number, where they are asked.
fn put_counted(w: &mut Writer<'_>, on: bool, began: bool, word: &[u8], n: u64)
    requires { (w.old.limit ≤ length w.old.queue.now) × (w.old.at ≤ 33554432) × (length word.now ≤ 16) }
    ensures put { Writes w.old (piece on began (word.now ++ decimal n)) w.new }
    ensures upper_bound { w.new.at ≤ w.old.at + 37 }
{
    if on {
        put_gap(w, began);
        w.put(word);
        w.put_number(n);
    }
}

// The flags, where they are asked.
fn put_flag_item(w: &mut Writer<'_>, on: bool, began: bool, flags: u64)
    requires { (w.old.limit ≤ length w.old.queue.now) × (w.old.at ≤ 16777300) }
    ensures put { Writes w.old (piece on began (flag_item flags)) w.new }
    ensures upper_bound { w.new.at ≤ w.old.at + 94 }
{
    if on {
        put_gap(w, began);
        w.put(b"FLAGS (");
        put_flags(w, flags);
        w.put(b")");
    }
}

// The message's counter, with which all items end.
fn put_modseq(w: &mut Writer<'_>, began: bool, counter: u64)
    requires { (w.old.limit ≤ length w.old.queue.now) × (w.old.at ≤ 33554432) }
    ensures put { Writes w.old (piece true began (item_text (modseq counter))) w.new }
    ensures upper_bound { w.new.at ≤ w.old.at + 30 }
{
    put_gap(w, began);
    w.put(b"MODSEQ (");
    w.put_number(counter);
    w.put(b")");
}

// ---- the line of flags
// `* n FETCH (UID u FLAGS (..) MODSEQ (c))`
pub fn put_fetch(w: &mut Writer<'_>, n: MessageNumber, uid: Uid, flags: u64, counter: u64)
    requires { (w.old.limit ≤ length w.old.queue.now) × (w.old.at ≤ 16777216) }
    ensures put { Writes w.old (fetch_text n.0 uid.0 flags counter) w.new }
    ensures upper_bound { w.new.at ≤ w.old.at + 200 }
{
    w.put(b"* ");
    w.put_number(n.0);
    w.put(b" FETCH (UID ");
    w.put_number(uid.0);
    put_flag_item(w, true, true, flags);
    put_modseq(w, true, counter);
    w.put(b")\r\n");
}

// The same as a line that is told whole.
#[derive(Clone, Copy)]
pub struct Fetch {
    pub n: MessageNumber,
    pub uid: Uid,
    pub flags: u64,
    pub counter: u64,
}

impl Line for Fetch {
    ghost text = { λ l. fetch_text l.n.0 l.uid.0 l.flags l.counter };

    fn put(&self, w: &mut Writer<'_>) {
        put_fetch(w, self.n, self.uid, self.flags, self.counter);
    }
}

// ---- a new message
// What a FETCH of a new message shows: anything at all, its UID, its flags, its size.
#[derive(Clone, Copy)]
pub struct Shows {
    pub any: bool,
    pub uid: bool,
    pub flags: bool,
    pub size: bool,
}

// What is asked of a message, in the order UID, FLAGS, RFC822.SIZE, and its counter.
fn put_items(w: &mut Writer<'_>, shows: Shows, e: Message)
    requires { (w.old.limit ≤ length w.old.queue.now) × (w.old.at ≤ 16777250) }
    ensures put { Writes w.old (items_text shows e) w.new }
    ensures upper_bound { w.new.at ≤ w.old.at + 198 }
{
    let Shows {
        uid,
        flags,
        size,
        ..
    } = shows;
    put_counted(w, uid, false, b"UID ", e.uid.0);
    put_flag_item(w, flags, uid, e.flags);
    let began = uid || flags;
    put_counted(w, size, began, b"RFC822.SIZE ", e.size);
    put_modseq(w, began || size, e.counter);
}

// `* n FETCH (..)` of a new message.
pub fn put_new(w: &mut Writer<'_>, shows: Shows, n: MessageNumber, e: Message)
    requires { (w.old.limit ≤ length w.old.queue.now) × (w.old.at ≤ 16777216) }
    ensures put { Writes w.old (new_text shows n.0 e) w.new }
    ensures upper_bound { w.new.at ≤ w.old.at + 231 }
{
    w.put(b"* ");
    w.put_number(n.0);
    w.put(b" FETCH (");
    put_items(w, shows, e);
    w.put(b")\r\n");
}
