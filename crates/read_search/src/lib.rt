// ESEARCH behind its verb: its sources, what it is to return, its charset and its keys, and how it is answered.
#![tactic(auto)]

pub mod counts;
pub mod parts;
pub mod whole;

pub use counts::sources_at;
pub use parts::{charset_part_at, in_at, return_at};
use read_options::Returns;
pub use whole::{reply_for, search_at};

// What is counted of sources: how many they are and how many names they have, and whether one is for NOTIFY alone and one about the selected mailbox.
#[derive(Clone, Copy, Default)]
pub struct Sources {
    pub count: u64,
    pub names: u64,
    pub delayed: bool,
    pub selected: bool,
}

// What a search asks: its sources, what it is to return, whether its charset is not known; of its keys how many they are, how deep lists are nested in
// them, whether one is not supported, the most parts that a set has, and how many cells they take.
#[derive(Clone, Copy)]
pub struct Asked {
    pub sources: Sources,
    pub returns: Returns,
    pub unknown: bool,
    pub keys: u64,
    pub depth: u64,
    pub unsupported: bool,
    pub parts: u64,
    pub used: usize,
}
