// The message table: a lent slice of words, six to an entry. Entries are read, put, found, counted and taken out.
#![tactic(auto)]

ghost use Rattle.std.specs.Prelude.{◌≡◌, ◌+◌, ◌-◌, ◌*◌, ◌≤◌, ◌<◌, length, map, take, drop, get_or, position};
ghost use Rattle.model.specs.Memory.{no_message, expunged, marked, existing, with_flags, with_states};
ghost use Rattle.model.specs.Events.{message};
ghost use Rattle.laws.specs.Counting.{countb};
ghost use Rattle.laws.specs.Shift.{over};
ghost use Rattle.table_messages.specs.Words.{messages, of_row, stored};
ghost use Rattle.table_messages.specs.Laid.{laid};
ghost use Rattle.table_messages.specs.Taken.{shut};
ghost use Rattle.table_messages.specs.Found.{stands};
ghost use Rattle.table_messages.specs.Counted.{lives, before};

use model::{Message, MessageNumber, Uid};

// ---- one entry
// The entries, each of six words.
pub fn rows(words: &[u64]) -> &[[u64; 6]]
    ensures { map of_row result.now ≡ messages words.now }
{
    words.as_chunks::<6>().0
}

// The entry that six words hold.
pub fn of_row(row: &[u64; 6]) -> Message
    ensures { result ≡ of_row row.now }
{
    Message {
        mailbox: row[0],
        uid: Uid(row[1]),
        flags: row[2],
        size: row[3],
        states: row[4],
        counter: row[5],
    }
}

// Entry i.
pub fn get(words: &[u64], i: usize) -> Message
    requires { (i + 1) * 6 ≤ length words.now }
    ensures { result ≡ get_or (messages words.now) i no_message }
{
    let b = i * 6;
    Message {
        mailbox: words[b],
        uid: Uid(words[b + 1]),
        flags: words[b + 2],
        size: words[b + 3],
        states: words[b + 4],
        counter: words[b + 5],
    }
}

// Puts e at i: six words change, and no other.
pub fn put(words: &mut [u64], i: usize, e: Message)
    requires { (i + 1) * 6 ≤ length words.old }
    ensures { words.new ≡ stored words.old i e }
{
    let b = i * 6;
    words[b] = e.mailbox;
    words[b + 1] = e.uid.0;
    words[b + 2] = e.flags;
    words[b + 3] = e.size;
    words[b + 4] = e.states;
    words[b + 5] = e.counter;
}

// An entry that is free.
pub fn nothing() -> Message
    ensures { result ≡ no_message }
{
    Message {
        mailbox: 0,
        uid: Uid(0),
        flags: 0,
        size: 0,
        states: 0,
        counter: 0,
    }
}

// Entry i, or nothing where there is none.
pub fn entry(words: &[u64], i: usize) -> Message
    ensures { result ≡ get_or (messages words.now) i no_message }
{
    if words.len() / 6 <= i {
        nothing()
    } else {
        get(words, i)
    }
}

// A message that has just come.
pub fn fresh(mailbox: u64, uid: Uid, flags: u64, size: u64, counter: u64) -> Message
    ensures { result ≡ message mailbox uid.0 flags size counter }
{
    Message {
        mailbox,
        uid,
        flags,
        size,
        states: 0,
        counter,
    }
}

// The message with other flags, states and counter.
pub fn changed(e: Message, flags: u64, states: u64, counter: u64) -> Message
    ensures { result ≡ with_states (with_flags e flags counter) states }
{
    Message {
        flags,
        states,
        counter,
        ..e
    }
}

// Whether the message is expunged, and kept because the client's view holds it.
pub fn is_expunged(e: &Message) -> bool
    ensures { result ≡ expunged e.now }
{
    e.states % 2 == 1
}

// Whether the message is marked: its flags changed and wait.
pub fn is_marked(e: &Message) -> bool
    ensures { result ≡ marked e.now }
{
    e.states / 2 % 2 == 1
}

// ---- an entry found, and counts
// Whether it is message uid of the mailbox, and exists.
fn stands(e: &Message, mailbox: u64, uid: Uid) -> bool
    ensures { result ≡ stands mailbox uid.0 e.now }
{
    e.mailbox == mailbox && e.uid == uid && !is_expunged(e)
}

// The place of message uid of the mailbox, if it is there and not expunged.
pub fn find(words: &[u64], mailbox: u64, uid: Uid) -> Option<usize>
    ensures { result ≡ position (stands mailbox uid.0) (messages words.now) }
{
    rows(words)
        .iter()
        .position(|row| stands(&of_row(row), mailbox, uid))
}

// How many entries a mailbox has, and all entries' states, joined bit by bit.
#[derive(Clone, Copy)]
struct Tally {
    count: u64,
    states: u64,
}

// In one pass without a test of states.
fn tally_all(words: &[u64], mailbox: u64) -> Tally
    ensures { result.states ≡ 0 → result.count ≡ countb (lives mailbox) (messages words.now) }
{
    let all = rows(words);
    let mut count = 0;
    let mut states = 0;
    for row in all {
        let e = of_row(row);
        count += u64::from(e.mailbox == mailbox);
        states |= e.states;
    }
    Tally { count, states }
}

// Whether it is a message of the mailbox, and exists.
fn lives(e: &Message, mailbox: u64) -> bool
    ensures { result ≡ lives mailbox e.now }
{
    e.mailbox == mailbox && !is_expunged(e)
}

// How many messages of a mailbox exist, each tested.
fn count_each(words: &[u64], mailbox: u64) -> u64
    ensures { result ≡ countb (lives mailbox) (messages words.now) }
{
    let all = rows(words);
    let mut count = 0;
    for row in all {
        count += u64::from(lives(&of_row(row), mailbox));
    }
    count
}

// How many messages of a mailbox exist. Where no entry has a state none is expunged, and the first pass has the number.
pub fn count(words: &[u64], mailbox: u64) -> u64
    ensures { result ≡ length (existing mailbox (messages words.now)) }
{
    let t = tally_all(words, mailbox);
    if t.states == 0 {
        t.count
    } else {
        count_each(words, mailbox)
    }
}

// The place of message uid in the view, which is all below `told`.
pub fn place_of(words: &[u64], mailbox: u64, told: Uid, uid: Uid) -> MessageNumber
    ensures { result.0 ≡ 1 + countb (before mailbox told.0 uid.0) (messages words.now) }
{
    let n = rows(words)
        .iter()
        .map(of_row)
        .filter(|e| e.mailbox == mailbox && e.uid < told && e.uid < uid)
        .count();
    MessageNumber(1 + n as u64)
}

// ---- an entry taken out
// Entry k leaves: those behind it move up, and the last becomes nothing.
// They move within the slice that begins at the entry: there the compiler sees which way, and makes one block move of them.
// Kept: who writes needs the words behind those in use too, so that `used` stands beside them.
pub fn remove(words: &mut [u64], used: usize, k: usize)
    requires { (k < used) × (used * 6 ≤ length words.old) }
    ensures { words.new ≡ laid words.old (shut k used (messages words.old)) }
{
    words[k * 6..used * 6].copy_within(6.., 0);
    put(words, used - 1, nothing());
}
