// Sets of message numbers and UIDs, into cells.
ghost use Rattle.std.specs.Prelude.{◌≡◌, ◌+◌, ◌-◌, ◌*◌, ◌^◌, ◌<◌, length};
ghost use Rattle.std.proofs.lemmas.List.Edits.{sets};
ghost use Rattle.model.specs.Reading.{bound_at};
ghost use Rattle.octets.specs.Numerals.{Counts};
ghost use Rattle.read_tests.specs.Sets.{read_bound, ReadsPart, SetRoom, WritesSet};

// A part of a set, and the position behind it.
#[derive(Clone, Copy)]
pub struct PartRead {
    pub from: u64,
    pub upto: u64,
    pub next: usize,
}

// Writes cells that stand side by side, as many of them as there are.
pub fn store(cells: &mut [u64], n: usize, values: &[u64])
    requires { n + length values.now < 2 ^ 64 }
    ensures { cells.new ≡ sets cells.old n values.now }
{
    for (i, v) in values.iter().enumerate() {
        if n + i < cells.len() {
            cells[n + i] = *v;
        }
    }
}

// An end of a part of a set: a number, or 0 for the star.
fn bound_at(text: &[u8], at: usize) -> Option<(u64, usize)>
    ensures { Counts text.now at (read_bound (bound_at text.now at)) result }
{
    if octets::octet_at(text, at) == b'*' {
        return Some((0, at + 1));
    }
    octets::positive_at(text, at)
}

fn part_at(text: &[u8], at: usize) -> Option<PartRead>
    ensures { ReadsPart text.now at result }
{
    let (from, p) = bound_at(text, at)?;
    if octets::octet_at(text, p) != b':' {
        return Some(PartRead {
            from,
            upto: from,
            next: p,
        });
    }
    let (upto, next) = bound_at(text, p + 1)?;
    Some(PartRead { from, upto, next })
}

// Reads a set, its parts into the cells from n on, two numbers each. It answers how many parts the set has, and the position behind it.
pub fn set_at(text: &[u8], at: usize, cells: &mut [u64], n: usize) -> Option<(u64, usize)>
    requires { SetRoom text.now at n }
    ensures { WritesSet text.now at cells.old cells.new n result }
{
    let part = part_at(text, at)?;
    store(cells, n, &[part.from, part.upto]);
    if octets::octet_at(text, part.next) != b',' {
        return Some((1, part.next));
    }
    let (parts, next) = set_at(text, part.next + 1, cells, n + 2)?;
    Some((1 + parts, next))
}
