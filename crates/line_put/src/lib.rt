// Writers into a queue, up to a limit. Each moves the place on to where its text ends. It writes only where that is within the limit.
#![tactic(auto)]

ghost use Rattle.std.specs.Prelude.{◌≡◌, [], ◌∷◌, List, ℕ, cond, true, false, ◌+◌, ◌*◌, ◌-◌, ◌≤◌, ◌<◌, length};
ghost use Rattle.line_put.specs.Put.{Put};
ghost use Rattle.line_put.specs.Writes.{Writes};
ghost use Rattle.line_put.specs.Says.{Says};
ghost use Rattle.line_put.specs.Heard.{heard, Hears};
ghost use Rattle.model.specs.Memory.{silenced};
ghost use Rattle.model.specs.Lines.{overflow, render};
ghost use Rattle.model.specs.Text.{decimal, escape_octet, quoted};

use model::{LentGroup, LentName, Session};

// Writes into a queue, from a place on and up to a limit. Past the limit it only counts.
#[derive(Drop)]
pub struct Writer<'a> {
    pub queue: &'a mut [u8],
    pub at: usize,
    pub limit: usize,
}

impl Writer<'_> {
    pub fn put(&mut self, text: &[u8])
        requires { (self.old.limit ≤ length self.old.queue.now) × (self.old.at ≤ 1099511627776) × (length text.now ≤ 1048576) }
        ensures { Writes self.old text.now self.new }
    {
        let end = self.at + text.len();
        let fits = end <= self.limit;
        if fits {
            self.queue[self.at..end].copy_from_slice(text);
        }
        self.at = end;
    }

    pub fn put_byte(&mut self, b: u8)
        requires { (self.old.limit ≤ length self.old.queue.now) × (self.old.at ≤ 1099511627776) }
        ensures { Writes self.old (b ∷ []) self.new }
    {
        if self.at < self.limit {
            self.queue[self.at] = b;
        }
        self.at += 1;
    }

    pub fn put_number(&mut self, n: u64)
        requires { (self.old.limit ≤ length self.old.queue.now) × (self.old.at ≤ 549755813888) }
        ensures put { Writes self.old (decimal n) self.new }
        ensures upper_bound { self.new.at ≤ self.old.at + 20 }
    {
        if 10 <= n {
            self.put_number(n / 10);
        }
        self.put_byte(b'0' + (n % 10) as u8);
    }

    // A byte of a quoted string.
    fn put_escaped(&mut self, b: u8)
        requires { (self.old.limit ≤ length self.old.queue.now) × (self.old.at ≤ 549755813888) }
        ensures { (Writes self.old (escape_octet b) self.new) × (self.new.at ≤ self.old.at + 2) }
    {
        match b {
            b'"' | b'\\' => {
                self.put_byte(b'\\');
                self.put_byte(b);
            }
            _ => self.put_byte(b),
        }
    }

    pub fn put_quoted(&mut self, text: &[u8])
        requires { (self.old.limit ≤ length self.old.queue.now) × (self.old.at ≤ 274877906944) × (length text.now ≤ 1048576) }
        ensures put { Writes self.old (quoted text.now) self.new }
        ensures upper_bound { self.new.at ≤ self.old.at + 2 * length text.now + 2 }
    {
        self.put_byte(b'"');
        for b in text {
            self.put_escaped(*b);
        }
        self.put_byte(b'"');
    }
}

// ---- a line or the overflow line
// A line, or several, told whole or not at all.
pub trait Line {
    ghost text: { Self → List ℕ };

    fn put(&self, w: &mut Writer<'_>)
        requires { (w.old.limit ≤ length w.old.queue.now) × (w.old.at ≤ 65536) }
        ensures { Writes w.old (text self.now) w.new };
}

// Whether a line was written, and where the queue ends then.
// Kept: the queue's end is told in both cases, so that a Result would say it twice.
#[derive(Clone, Copy)]
pub struct Said {
    pub fits: bool,
    pub end: usize,
}

// The overflow line, where another does not fit: the last 64 octets are kept for it.
struct Stopped;

impl Line for Stopped {
    ghost text = { λ _. render overflow };

    fn put(&self, w: &mut Writer<'_>) {
        w.put(b"* OK [NOTIFICATIONOVERFLOW] stopped\r\n");
    }
}

// A line from a place on, up to a limit: where it ends.
pub fn write<L: Line>(queue: &mut [u8], at: usize, limit: usize, line: &L) -> usize
    requires { (limit ≤ length queue.old) × (at ≤ 65536) }
    ensures { Put queue.old at limit (L.text line.now) queue.new result }
{
    let mut w = Writer { queue, at, limit };
    line.put(&mut w);
    w.at
}

// The overflow line, in the octets that are kept for it.
pub fn overflow(queue: &mut [u8], at: usize) -> Said
    requires { (64 ≤ length queue.old) × (length queue.old ≤ 65536) × (at ≤ length queue.old - 64) }
    ensures { (result.fits ≡ false) × (Put queue.old at (length queue.old) (render overflow) queue.new result.end) }
{
    let full = queue.len();
    let end = write(queue, at, full, &Stopped);
    Said { fits: false, end }
}

// A line, if it leaves the last 64 octets free, else the overflow line.
pub fn say<L: Line>(queue: &mut [u8], at: usize, line: &L) -> Said
    requires { (64 ≤ length queue.old) × (length queue.old ≤ 65536) × (at ≤ length queue.old - 64) }
    ensures { Says queue.old at (L.text line.now) queue.new result.fits result.end }
{
    let limit = queue.len() - 64;
    let end = write(queue, at, 0, line);
    if end <= limit {
        let end = write(queue, at, limit, line);
        return Said { fits: true, end };
    }
    overflow(queue, at)
}

// As after NOTIFY NONE.
pub fn silence(s: Session) -> Session
    ensures { result ≡ silenced s }
{
    let group = LentGroup {
        selector: 0,
        first: 0,
        count: 0,
        events: 0,
        attributes: 0,
    };
    let name = LentName {
        len: 0,
        octets: [0; 64],
    };
    Session {
        notified: 1,
        groupcount: 0,
        groups: [group; 8],
        names: [name; 16],
        ..s
    }
}

// What a record leaves besides the tables and the queue's octets.
#[derive(Clone, Copy)]
pub struct Kept {
    pub session: Session,
    pub filled: u64,
}

// The session stays as it is after a line, and is as after NOTIFY NONE after the overflow line.
pub fn hear(s: Session, said: Said) -> Kept
    ensures { (result.session ≡ cond said.fits s (silenced s)) × (result.filled ≡ said.end) }
{
    Kept {
        session: if said.fits { s } else { silence(s) },
        filled: said.end as u64,
    }
}

// A line, if somebody is told of it.
pub fn tell<L: Line>(queue: &mut [u8], s: &Session, filled: usize, on: bool, line: &L) -> Kept
    requires { (64 ≤ length queue.old) × (length queue.old ≤ 65536) × (filled ≤ 65536) × (on ≡ true → filled ≤ length queue.old - 64) }
    ensures { Hears (heard queue.old s.now filled on (L.text line.now)) queue.new result.session result.filled }
{
    if on {
        hear(*s, say(queue, filled, line))
    } else {
        Kept {
            session: *s,
            filled: filled as u64,
        }
    }
}
