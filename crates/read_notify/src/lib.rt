// NOTIFY behind its verb: what its groups come to, how it is answered, and the session that it sets.
#![tactic(auto)]

mod one_group;
pub mod tallies;
pub mod watches;

use model::LentGroup;
use read_filters::Kept;
pub use tallies::reply_for;
pub use watches::{keep_at, settled, watch_by};

// What the groups of a NOTIFY come to: how many groups, names and groups about the selected mailbox; and whether a group has a fault
// that makes it BAD, asks an event that is not supported, or an attribute that is not.
#[derive(Clone, Copy, Default)]
pub struct Tally {
    pub groups: u64,
    pub names: u64,
    pub selected: u64,
    pub amiss: bool,
    pub badevent: bool,
    pub unsupported: bool,
}

// A group as a session holds it, and what it comes to.
#[derive(Clone, Copy)]
pub struct Lent {
    pub group: LentGroup,
    pub tally: Tally,
}

// Groups that were kept: how many there were, and the first 8 of them as a session holds them.
#[derive(Clone, Copy)]
pub struct Watch {
    pub count: u64,
    pub groups: [LentGroup; 8],
}

// The groups of a NOTIFY: whether STATUS stands before them, what they come to, and what is kept of them and of their names.
#[derive(Clone, Copy)]
pub struct Groups {
    pub status: bool,
    pub tally: Tally,
    pub watch: Watch,
    pub kept: Kept,
}

// What a NOTIFY asks: no more notices, or groups.
#[derive(Clone, Copy)]
pub enum Notify {
    Nothing,
    Groups(Groups),
}
