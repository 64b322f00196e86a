// The types of the push side: what the host lends, what a command asks, what a call answers. No code stands here.
#![tactic(auto)]

// A message's number: its place in the client's view, or its rank by UID in a mailbox that is not selected.
#[derive(Clone, Copy, PartialEq, Eq, PartialOrd, Ord)]
pub struct MessageNumber(pub u64);

// A message's UID in its mailbox.
#[derive(Clone, Copy, PartialEq, Eq, PartialOrd, Ord)]
pub struct Uid(pub u64);

// A row of the mailbox table. It is lent as it lies here: no octet is padding, since the change counter stands in two halves.
#[repr(C)]
#[derive(Clone, Copy)]
pub struct Mailbox {
    pub id: u16,
    pub attributes: u8,
    pub namelen: u8,
    pub uidvalidity: u32,
    pub uidnext: u32,
    pub counterlow: u32,
    pub counterhigh: u32,
    pub name: [u8; 64],
}

// An entry of the message table, lent as six words. `states` has a bit for expunged and a bit for marked; `counter` is that of its last change.
#[derive(Clone, Copy)]
pub struct Message {
    pub mailbox: u64,
    pub uid: Uid,
    pub flags: u64,
    pub size: u64,
    pub states: u64,
    pub counter: u64,
}

// A run of the session's names.
#[derive(Clone, Copy)]
pub struct NameRange {
    pub first: u8,
    pub count: u8,
}

// Whom a group is about.
#[derive(Clone, Copy)]
pub enum Selector {
    Selected,
    Delayed,
    Inboxes,
    Personal,
    Subscribed,
    Subtree(NameRange),
    Mailboxes(NameRange),
}

// A group of NOTIFY SET: whom it is about, the events asked, and what a FETCH of a new message shows.
#[derive(Clone, Copy)]
pub struct Group {
    pub selector: Selector,
    pub events: u8,
    pub attributes: u8,
}

// A group as the host keeps it: plain numbers, since no enum may cross and a wrong selector must be refusable.
#[repr(C)]
#[derive(Clone, Copy)]
pub struct LentGroup {
    pub selector: u8,
    pub first: u8,
    pub count: u8,
    pub events: u8,
    pub attributes: u8,
}

// A name of a group as the host keeps it.
#[repr(C)]
#[derive(Clone, Copy)]
pub struct LentName {
    pub len: u8,
    pub octets: [u8; 64],
}

// The session as the host keeps it: 1,088 octets, none of them padding.
#[repr(C)]
#[derive(Clone, Copy)]
pub struct Session {
    pub selected: u16,
    pub notified: u8,
    pub groupcount: u8,
    pub told: u32,
    pub groups: [LentGroup; 8],
    pub names: [LentName; 16],
}

// How many rows, entries and octets of the queue are in use. They stand beside the session: a command that is not accepted
// leaves the session as it was, and yet fills the queue.
#[repr(C)]
#[derive(Clone, Copy)]
pub struct Counts {
    pub mailboxes: u64,
    pub messages: u64,
    pub filled: u64,
}

// Why a record is refused, in the order of 01's numbers.
#[derive(Clone, Copy, PartialEq, Eq)]
pub enum Refusal {
    UnlawfulMemory,
    BadRecord,
    WrongId,
    NameHeld,
    WrongUid,
    WrongState,
    TableFull,
    NoRoom,
}

// What a call answers.
#[derive(Clone, Copy, PartialEq, Eq)]
pub enum Answer {
    Done,
    Counted(u64),
    Refused(Refusal),
}

// Why a record was told or not: first a place where none stands, then in the order of request 3's list. The numbers are the refusal's, the class, the
// group's in its command.
#[derive(Clone, Copy, PartialEq, Eq)]
pub enum Reason {
    NoRecord,
    Refused(u64),
    Quiet,
    NoEvent,
    RightMissing,
    Unmet,
    Unasked,
    Unannounced,
    Waiting(u64),
    Overflow,
    Written(u64),
}

// How a command is answered, in the order of 01's six lines.
#[derive(Clone, Copy, PartialEq, Eq)]
pub enum Reply {
    Bad,
    BadEvent,
    Unsupported,
    BadCharset,
    TooLarge,
    Accepted,
}

// The most that a command may have: groups or sources, names in all of them, keys, lists one inside another, parts of one set.
#[derive(Clone, Copy)]
pub struct Limits {
    pub groups: u64,
    pub names: u64,
    pub keys: u64,
    pub depth: u64,
    pub parts: u64,
}
