// Readers of octets: what stands at a position of a text, each by the definition of crate `model` that it meets.
#![tactic(auto)]

pub mod classes;
pub mod dates;
pub mod numbers;
pub mod rows;
pub mod runs;
pub mod texts;
pub mod words;

pub use classes::{in_class, octet_at};
pub use dates::date_at;
pub use numbers::{little, number_at, positive_at};
pub use rows::{Joined, list_at, row_to_close};
pub use runs::{behind_space, run_at, run_end};
pub use texts::{quoted_at, text_at, value_of};
pub use words::{is_one_of, is_word, word_at, word_place};

// The classes of octets.
#[derive(Clone, Copy)]
pub enum Class {
    Atom,
    Astring,
    Tag,
    Digit,
    Quoted,
    Label,
}
