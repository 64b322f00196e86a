// Classes of octets: one table of 256 numbers, a bit for each class.
ghost use Rattle.std.specs.Prelude.{◌≡◌, get_or};
ghost use Rattle.octets.specs.Classes.{in_class, mask_of};

use super::Class;

// The classes of each octet, a bit a class, sixteen octets a row.
static CLASSES: [u8; 256] = [
    0, 16, 16, 16, 16, 16, 16, 16, 16, 16, 0, 16, 16, 0, 16, 16, // 0
    16, 16, 16, 16, 16, 16, 16, 16, 16, 16, 16, 16, 16, 16, 16, 16, // 16
    16, 23, 16, 23, 23, 16, 23, 23, 16, 16, 16, 19, 23, 23, 55, 23, // 32
    63, 63, 63, 63, 63, 63, 63, 63, 63, 63, 23, 23, 23, 23, 23, 23, // 48
    23, 55, 55, 55, 55, 55, 55, 55, 55, 55, 55, 55, 55, 55, 55, 55, // 64
    55, 55, 55, 55, 55, 55, 55, 55, 55, 55, 55, 23, 16, 22, 23, 23, // 80
    23, 55, 55, 55, 55, 55, 55, 55, 55, 55, 55, 55, 55, 55, 55, 55, // 96
    55, 55, 55, 55, 55, 55, 55, 55, 55, 55, 55, 16, 23, 23, 23, 16, // 112
    0, 0, 0, 0, 0, 0, 0, 0, 0, 0, 0, 0, 0, 0, 0, 0, // 128
    0, 0, 0, 0, 0, 0, 0, 0, 0, 0, 0, 0, 0, 0, 0, 0, // 144
    0, 0, 0, 0, 0, 0, 0, 0, 0, 0, 0, 0, 0, 0, 0, 0, // 160
    0, 0, 0, 0, 0, 0, 0, 0, 0, 0, 0, 0, 0, 0, 0, 0, // 176
    0, 0, 0, 0, 0, 0, 0, 0, 0, 0, 0, 0, 0, 0, 0, 0, // 192
    0, 0, 0, 0, 0, 0, 0, 0, 0, 0, 0, 0, 0, 0, 0, 0, // 208
    0, 0, 0, 0, 0, 0, 0, 0, 0, 0, 0, 0, 0, 0, 0, 0, // 224
    0, 0, 0, 0, 0, 0, 0, 0, 0, 0, 0, 0, 0, 0, 0, 0, // 240
];

// The bit of a class in the table.
fn mask_of(c: Class) -> u8
    ensures { result ≡ mask_of c }
{
    match c {
        Class::Atom => 1,
        Class::Astring => 2,
        Class::Tag => 4,
        Class::Digit => 8,
        Class::Quoted => 16,
        Class::Label => 32,
    }
}

// Whether an octet is of a class.
pub fn in_class(b: u8, c: Class) -> bool
    ensures { result ≡ in_class c b }
{
    CLASSES[b as usize] & mask_of(c) != 0
}

// The octet at a position, 0 past the end.
pub fn octet_at(text: &[u8], at: usize) -> u8
    ensures { result ≡ get_or text.now at 0 }
{
    text.get(at).copied().unwrap_or(0)
}
