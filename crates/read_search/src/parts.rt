// The parts of an ESEARCH that may be left out: IN, RETURN and CHARSET, with the spaces around them.
ghost use Rattle.std.specs.Prelude.{◌≡◌};
ghost use Rattle.model.specs.Octets.{atom_octet};
ghost use Rattle.model.specs.Reading.{end_of};
ghost use Rattle.octets.specs.Found.{space_at};
ghost use Rattle.read_options.specs.Returning.{read_returns};
ghost use Rattle.read_search.specs.Sourced.{read_sources};
ghost use Rattle.read_search.specs.Parts.{in_at, return_at, charset_part_at, read_part};

use super::Sources;
use super::counts::sources_at;
use octets::{Class, behind_space};
use read_options::Returns;

// The position behind a word and a space.
pub fn behind_word(text: &[u8], at: usize) -> Option<usize>
    ensures { result ≡ space_at text.now (end_of atom_octet text.now at) }
{
    behind_space(text, octets::run_end(text, at, Class::Atom))
}

// IN and its sources; none where it is left out.
pub fn in_at(text: &[u8], at: usize) -> Option<(Sources, usize)>
    ensures { result ≡ read_sources (in_at text.now at) }
{
    if !octets::word_at(text, at, b"IN") {
        return Some((Sources::default(), at));
    }
    let (sources, p) = sources_at(text, behind_word(text, at)?)?;
    Some((sources, behind_space(text, p)?))
}

// RETURN and what is to be returned; ALL where it is left out.
pub fn return_at(text: &[u8], at: usize) -> Option<(Returns, usize)>
    ensures { result ≡ read_returns (return_at text.now at) }
{
    if !octets::word_at(text, at, b"RETURN") {
        return Some((
            Returns {
                all: true,
                ..Returns::default()
            },
            at,
        ));
    }
    let (returns, p) = read_options::returns_at(text, behind_word(text, at)?)?;
    Some((returns, behind_space(text, p)?))
}

// CHARSET, and whether its charset is not known.
#[tactic(auto, using(crate::proofs::Charsets::charset_known))]
pub fn charset_part_at(text: &[u8], at: usize) -> Option<(bool, usize)>
    ensures { result ≡ read_part (charset_part_at text.now at) }
{
    if !octets::word_at(text, at, b"CHARSET") {
        return Some((false, at));
    }
    let (known, p) = read_options::charset_at(text, behind_word(text, at)?)?;
    Some((!known, behind_space(text, p)?))
}
