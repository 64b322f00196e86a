// The numbers of the input: four octets each, the lowest first.
ghost use Rattle.std.specs.Prelude.{List, ℕ};
ghost use Rattle.std.specs.Io.KnownBytes.{Consumes};

use std::io::Read;

// A number of four octets as a length.
pub fn length_of(o: [u8; 4]) -> usize {
    u32::from_le_bytes(o) as usize
}

// ---- what is expected of a call

#[derive(Clone, Copy)]
pub struct Expected {
    pub refusal: u32,
    pub count: Option<u64>,
    pub size: usize,
    pub held: usize,
}

// A count, of which the highest number stands for none.
fn count_of(n: u32) -> Option<u64> {
    if n == u32::MAX {
        None
    } else {
        Some(u64::from(n))
    }
}

// The four numbers of the next call, where they are there.
pub fn next_expected<R: Read>(reader: &mut R) -> Option<Expected>
    ensures { (t : List ℕ) × Consumes (R.remaining reader.old) (R.remaining reader.new) t }
{
    let mut o = [0u8; 16];
    let read = run_input::read_full(reader, &mut o);
    if read.size < 16 {
        return None;
    }
    Some(Expected {
        refusal: u32::from_le_bytes([o[0], o[1], o[2], o[3]]),
        count: count_of(u32::from_le_bytes([o[4], o[5], o[6], o[7]])),
        size: length_of([o[8], o[9], o[10], o[11]]),
        held: length_of([o[12], o[13], o[14], o[15]]),
    })
}
