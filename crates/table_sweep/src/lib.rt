// One pass over the message table: which entries go, what those that stay become, and where they move to.
#![tactic(auto)]

ghost use Rattle.std.specs.Prelude.{◌≡◌, ◌&&◌, ◌++◌, ◌+◌, ◌*◌, ◌-◌, ◌≤◌, eqb, ltb, length, take, drop, replicate};
ghost use Rattle.model.specs.Memory.{no_message, refill};
ghost use Rattle.table_messages.specs.Words.{messages};
ghost use Rattle.table_messages.specs.Laid.{laid};
ghost use Rattle.table_sweep.specs.Swept.{goes, calm, idle, kept, Moves};

use model::{Message, Uid};
use table_messages::{get, is_expunged, is_marked, nothing, put};

// What a pass is for: a selection, where the expunged go and nothing waits; lines that were told of a mailbox, the expunged
// below one UID and the marked below another; a mailbox that is deleted, with all its messages.
#[derive(Clone, Copy)]
pub enum Sweep {
    Rested,
    Told(u64, Uid, Uid),
    Deleted(u64),
}

// Whether it is of the mailbox and below a UID.
fn is_below(e: Message, mailbox: u64, bound: Uid) -> bool
    ensures { result ≡ (eqb e.mailbox mailbox && ltb e.uid.0 bound.0) }
{
    e.mailbox == mailbox && e.uid < bound
}

// Whether an entry goes.
fn is_gone(e: Message, sweep: Sweep) -> bool
    ensures { result ≡ goes sweep e }
{
    match sweep {
        Sweep::Rested => is_expunged(&e),
        Sweep::Told(mailbox, gone, _) => is_expunged(&e) && is_below(e, mailbox, gone),
        Sweep::Deleted(mailbox) => e.mailbox == mailbox,
    }
}

// What an entry that stays becomes. One whose FETCH was written waits no more.
fn calmed(e: Message, sweep: Sweep) -> Message
    ensures { result ≡ calm sweep e }
{
    let rests = match sweep {
        Sweep::Rested => true,
        Sweep::Told(mailbox, _, shown) => is_marked(&e) && is_below(e, mailbox, shown),
        Sweep::Deleted(_) => false,
    };
    if rests { Message { states: 0, ..e } } else { e }
}

// Entry i goes, or moves up to o; one that stays as it is where it is is not written.
fn move_one(words: &mut [u64], i: usize, o: usize, sweep: Sweep) -> usize
    requires { (o ≤ i) × ((i + 1) * 6 ≤ length words.old) }
    ensures { Moves sweep words.old i o words.new result }
{
    let e = get(words, i);
    if is_gone(e, sweep) {
        return o;
    }
    let c = calmed(e, sweep);
    if o == i && c.states == e.states {
        return o + 1;
    }
    put(words, o, c);
    o + 1
}

// Those that stay move up.
fn compact(words: &mut [u64], used: usize, sweep: Sweep) -> usize
    requires { used * 6 ≤ length words.old }
    ensures { (words.new ≡ laid words.old (kept sweep (take used (messages words.old)) ++ drop result (messages words.old))) × (result ≡ length (kept sweep (take used (messages words.old)))) × (result ≤ used) }
{
    let mut o = 0;
    for i in 0..used {
        o = move_one(words, i, o, sweep);
    }
    o
}

// Whether no line was told: nothing goes, and nothing changes.
fn is_idle(sweep: Sweep) -> bool
    ensures { result ≡ idle sweep }
{
    matches!(sweep, Sweep::Told(_, Uid(0), Uid(0)))
}

// Entries become nothing.
fn wipe(words: &mut [u64], from: usize, upto: usize)
    requires { (from ≤ upto) × (upto * 6 ≤ length words.old) }
    ensures { words.new ≡ laid words.old (take from (messages words.old) ++ (replicate (upto - from) no_message ++ drop upto (messages words.old))) }
{
    for j in from..upto {
        put(words, j, nothing());
    }
}

// One pass: what goes is dropped, what stays moves up and is changed, what was freed is nothing. Answers how many stay.
// Inlined, so that each caller has a loop for what its own pass is for: a shared one tests that at every entry.
#[inline(always)]
pub fn settle(words: &mut [u64], used: usize, sweep: Sweep) -> usize
    requires { used * 6 ≤ length words.old }
    ensures { (words.new ≡ laid words.old (refill no_message (messages words.old) used (kept sweep (take used (messages words.old))))) × (result ≡ length (kept sweep (take used (messages words.old)))) × (result ≤ used) }
{
    if is_idle(sweep) {
        return used;
    }
    let o = compact(words, used, sweep);
    wipe(words, o, used);
    o
}
