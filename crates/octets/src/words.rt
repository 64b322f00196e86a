// Words, in letters of any case.
ghost use Rattle.std.specs.Prelude.{◌≡◌, ◌+◌, ◌-◌, ◌<◌};
ghost use Rattle.model.specs.Lists.{anyb};
ghost use Rattle.model.specs.Octets.{atom_octet};
ghost use Rattle.model.specs.Reading.{end_of, piece};
ghost use Rattle.model.specs.Text.{same_word};
ghost use Rattle.octets.specs.Vocabulary.{words_of, place_of};

use super::Class;
use super::runs::run_end;

// The octets from one position up to another.
pub(crate) fn part(text: &[u8], from: usize, upto: usize) -> &[u8]
    ensures { result.now ≡ piece text.now from upto }
{
    let end = upto.min(text.len());
    if from < end { &text[from..end] } else { &[] }
}

// Whether the octets from one position up to another are a word, whatever the case of its letters.
pub fn is_word(text: &[u8], from: usize, upto: usize, word: &[u8]) -> bool
    ensures { result ≡ same_word (piece text.now from upto) word.now }
{
    names::same_word(part(text, from, upto), word)
}

// Which of these words a word is.
fn place_of(word: &[u8], words: &[&[u8]]) -> Option<usize>
    ensures { result ≡ place_of word.now (words_of words.now) }
{
    words.iter().position(|w| names::same_word(word, w))
}

// Which of these words the octets from one position up to another are.
pub fn word_place(text: &[u8], from: usize, upto: usize, words: &[&[u8]]) -> Option<usize>
    ensures { result ≡ place_of (piece text.now from upto) (words_of words.now) }
{
    place_of(part(text, from, upto), words)
}

// Whether they are one of its words.
pub fn is_one_of(text: &[u8], from: usize, upto: usize, words: &[&[u8]]) -> bool
    ensures { result ≡ anyb (same_word (piece text.now from upto)) (words_of words.now) }
{
    word_place(text, from, upto, words).is_some()
}

// Whether the atom at a position is a word.
pub fn word_at(text: &[u8], at: usize, word: &[u8]) -> bool
    ensures { result ≡ same_word (piece text.now at (end_of atom_octet text.now at)) word.now }
{
    let end = run_end(text, at, Class::Atom);
    is_word(text, at, end, word)
}
