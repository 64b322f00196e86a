// Bodies of records: their length, the values of their fields, and what follows these.
ghost use Rattle.std.specs.Prelude.{◌≡◌, ◌&&◌, ◌≤◌, ◌<◌, leb, length, drop};
ghost use Rattle.model.specs.Text.{little};
ghost use Rattle.model.specs.Records.{framed, tail_ok};
ghost use Rattle.record_read.specs.Layouts.{tail_for};
ghost use Rattle.record_read.specs.Reading.{FieldsRead};

use super::layouts::{Field, Tail, in_range, width_of};

// The fields of a body, each in its range: their values, and the place behind them.
#[derive(Clone, Copy)]
pub struct Fields {
    pub values: [u64; 5],
    pub end: usize,
}

// A number of at most four octets, or of eight: two halves, the lower one first.
fn number_at(o: &[u8], at: usize, w: usize) -> u64
    requires { (at ≤ 65536) × (4 < w → w ≡ 8) }
    ensures { result ≡ little w (drop at o.now) }
{
    let low = octets::little(o, at, w);
    if w <= 4 {
        return low;
    }
    low + 4294967296 * octets::little(o, at + 4, 4)
}

// The fields of a layout, read from the fourth octet on, whether or not so many octets are there; None where one is out of its range.
pub fn fields_at(o: &[u8], fields: &[Field]) -> Option<Fields>
    requires { length fields.now ≤ 5 }
    ensures { FieldsRead o.now fields.now result }
{
    let mut values = [0; 5];
    let mut end: usize = 4;
    for (i, f) in fields.iter().enumerate() {
        let w = width_of(*f);
        let v = number_at(o, end, w);
        if !in_range(*f, v) {
            return None;
        }
        values[i] = v;
        end += w;
    }
    Some(Fields { values, end })
}

// The octets are as many as their length field says.
fn is_framed(o: &[u8]) -> bool
    ensures { result ≡ framed o.now }
{
    o.len() >= 4 && (o.len() - 4) as u64 == octets::little(o, 2, 2)
}

// What stands from a place on may follow the fields.
fn tail_ok(o: &[u8], at: usize, tail: Tail) -> bool
    requires { at ≤ length o.now }
    ensures { result ≡ tail_ok (tail_for tail) (drop at o.now) }
{
    let rest = &o[at..];
    match tail {
        Tail::Nothing => rest.is_empty(),
        Tail::Name => names::is_valid(rest),
        Tail::Command => rest.len() <= 1024,
    }
}

// The octets hold what their length field says, all fields, and then what may follow them.
pub fn is_whole(o: &[u8], end: usize, tail: Tail) -> bool
    ensures { result ≡ (framed o.now && (leb end (length o.now) && tail_ok (tail_for tail) (drop end o.now))) }
{
    is_framed(o) && end <= o.len() && tail_ok(o, end, tail)
}
