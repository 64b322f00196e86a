// The texts of the tool `why`: a place as it is typed, and the line that says a reason.
#![tactic(auto)]

ghost use Rattle.std.specs.Prelude.{◌≡◌, ◌+◌, ◌-◌, ◌*◌, ◌≤◌, ◌<◌, min, length};
ghost use Rattle.model.specs.Reasons.{words, reason_text, place_of};
ghost use Rattle.line_put.specs.Put.{Put};
ghost use Rattle.line_put.specs.Writes.{Writes};

use line_put::Writer;
use model::Reason;

// ---- a place

// One digit more. No place is above the top of u64, so a number above it stays there.
fn appended(v: u64, b: u8) -> u64
    ensures { result ≡ min (v * 10 + (b - 48)) 18446744073709551615 }
{
    v.saturating_mul(10)
        .saturating_add(u64::from(b.saturating_sub(b'0')))
}

// The number of a text of digits, 0 where it is none.
pub fn place_of(text: &[u8]) -> u64
    ensures { result ≡ min (place_of text.now) 18446744073709551615 }
{
    if !text.iter().all(|b| b.is_ascii_digit()) {
        return 0;
    }
    let mut v = 0;
    for b in text {
        v = appended(v, *b);
    }
    v
}

// ---- a reason

// Its words, and the number where it has one.
fn put_words(w: &mut Writer<'_>, y: &Reason)
    requires { (w.old.limit ≤ length w.old.queue.now) × (w.old.at ≤ 65536) }
    ensures put { Writes w.old (words y.now) w.new }
    ensures upper_bound { w.new.at ≤ w.old.at + 33 }
{
    match y {
        Reason::NoRecord => w.put(b"no record"),
        Reason::Refused(n) => {
            w.put(b"refused ");
            w.put_number(*n);
        }
        Reason::Quiet => w.put(b"quiet"),
        Reason::NoEvent => w.put(b"no event"),
        Reason::RightMissing => w.put(b"right missing"),
        Reason::Unmet => w.put(b"no group matches"),
        Reason::Unasked => w.put(b"group matches but event not asked"),
        Reason::Unannounced => w.put(b"unannounced message"),
        Reason::Waiting(class) => {
            w.put(b"waiting ");
            w.put_number(*class);
        }
        Reason::Overflow => w.put(b"overflow"),
        Reason::Written(group) => {
            w.put(b"written ");
            w.put_number(*group);
        }
    }
}

fn put_text(w: &mut Writer<'_>, y: &Reason)
    requires { (w.old.limit ≤ length w.old.queue.now) × (w.old.at ≤ 65536) }
    ensures put { Writes w.old (reason_text y.now) w.new }
    ensures upper_bound { w.new.at ≤ w.old.at + 35 }
{
    put_words(w, y);
    w.put(b"\r\n");
}

// To the front of a text, up to a limit; where it would end.
fn put_line(queue: &mut [u8], limit: usize, y: &Reason) -> usize
    requires { limit ≤ length queue.old }
    ensures put { Put queue.old 0 limit (reason_text y.now) queue.new result }
    ensures upper_bound { result ≤ 35 }
{
    let mut w = Writer {
        queue,
        at: 0,
        limit,
    };
    put_text(&mut w, y);
    w.at
}

// The line, where all of it has room; else nothing is written, and its length is told all the same.
pub fn put_reason(out: &mut [u8], y: Reason) -> usize
    ensures put { Put out.old 0 (length out.old) (reason_text y) out.new result }
    ensures out_unchanged { (length out.old < result → out.new ≡ out.old) × (result ≤ 35) }
{
    let n = put_line(out, 0, &y);
    let room = out.len();
    if room < n {
        return n;
    }
    put_line(out, room, &y)
}
