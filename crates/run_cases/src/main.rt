// Runs stored cases: each is a row of calls on memory that starts empty, with what each call must answer and what the queue must hold
// behind it. Writes a line for each case, its name, how many calls it has, and `ok` or the first difference; then how many there were.
// A number has four octets, the lowest first. A case is five numbers, the length of its name, Q, the length of the mailbox table, the
// entries of the message table and the number of its calls; the name; and the calls. A call is four numbers, the refusal or 0, the count
// or 2^32 - 1 for none, how many octets it has, how many the queue holds behind it; its octets; the octets in the queue.
#![tactic(auto)]

mod differences;
mod reading;
mod turns;

ghost use Rattle.std.specs.Prelude.{◌≤◌, List, ℕ, OnErr};
ghost use Rattle.std.specs.Io.KnownBytes.{Consumes};

use reading::length_of;
use std::io;
use std::io::{Read, Write};
use turns::next_turn;

// the longest name, call and queue, and the most words of a message table
const NAME: usize = 256;

const CALL: usize = 70000;

const QUEUE: usize = 65600;

const WORDS: usize = 6240;

// ---- a case

// What becomes of a case: all is as expected, something is not, or no more of the input can be read.
#[derive(Clone, Copy, PartialEq, Eq)]
enum Verdict {
    Right,
    Wrong,
    Ended,
}

// Runs the calls of a case on empty memory. Its first difference is written, and what ends the input.
fn run_calls<R: Read, W: Write>(
    reader: &mut R,
    writer: &mut W,
    lent: usize,
    calls: u64,
    words: &mut [u64],
    queue: &mut [u8],
    octets: &mut [u8],
    wanted: &mut [u8],
) -> io::Result<Verdict>
    ensures { (t : List ℕ) × Consumes (R.remaining reader.old) (R.remaining reader.new) t }
{
    let mut m = step_stream::start();
    let mut verdict = Verdict::Right;
    for i in 1..=calls {
        match next_turn(reader, &m, lent, words, queue, octets, wanted) {
            Ok(t) => {
                if let Some(d) = t.difference {
                    if verdict == Verdict::Right {
                        write!(writer, "call {i}: {d}\n")?;
                        verdict = Verdict::Wrong;
                    }
                }
                m = t.state;
            }
            Err(e) => {
                write!(writer, "call {i}: {e}\n")?;
                return Ok(Verdict::Ended);
            }
        }
    }
    Ok(verdict)
}

// What stands before the calls of a case, and how many octets of that there were.
#[derive(Clone, Copy)]
struct Case {
    read: usize,
    name: usize,
    queue: usize,
    mailboxes: usize,
    messages: usize,
    calls: u64,
}

fn next_case<R: Read>(reader: &mut R) -> Case {
    let mut o = [0u8; 20];
    let read = run_input::read_full(reader, &mut o);
    Case {
        read: read.size,
        name: length_of([o[0], o[1], o[2], o[3]]),
        queue: length_of([o[4], o[5], o[6], o[7]]),
        mailboxes: length_of([o[8], o[9], o[10], o[11]]),
        messages: length_of([o[12], o[13], o[14], o[15]]),
        calls: u64::from(u32::from_le_bytes([o[16], o[17], o[18], o[19]])),
    }
}

// Reads and writes the octets of a name.
fn copy_name<R: Read, W: Write>(reader: &mut R, writer: &mut W, name: &mut [u8]) -> io::Result<()>
    ensures { (t : List ℕ) × Consumes (R.remaining reader.old) (R.remaining reader.new) t }
{
    run_input::read_full(reader, name);
    writer.write_all(name)
}

fn print_name<R: Read, W: Write>(reader: &mut R, writer: &mut W, n: usize) -> io::Result<()>
    requires { n ≤ 256 }
    ensures { (t : List ℕ) × Consumes (R.remaining reader.old) (R.remaining reader.new) t }
{
    let mut name = [0u8; NAME];
    copy_name(reader, writer, &mut name[..n])
}

// Lends memory of a case's sizes, all of it zero.
fn run_case<R: Read, W: Write>(
    reader: &mut R,
    writer: &mut W,
    lent: usize,
    entries: usize,
    room: usize,
    calls: u64,
) -> io::Result<Verdict>
    requires { (entries ≤ 1040) × (room ≤ 65600) }
    ensures { (t : List ℕ) × Consumes (R.remaining reader.old) (R.remaining reader.new) t }
{
    let mut words = [0u64; WORDS];
    let mut queue = [0u8; QUEUE];
    let mut octets = [0u8; CALL];
    let mut wanted = [0u8; QUEUE];
    let n = entries * 6;
    run_calls(
        reader,
        writer,
        lent,
        calls,
        &mut words[..n],
        &mut queue[..room],
        &mut octets,
        &mut wanted,
    )
}

// Writes what stands at the head of a case's line.
fn print_head<R: Read, W: Write>(
    reader: &mut R,
    writer: &mut W,
    name: usize,
    calls: u64,
) -> io::Result<()>
    requires { name ≤ 256 }
    ensures { (t : List ℕ) × Consumes (R.remaining reader.old) (R.remaining reader.new) t }
{
    print_name(reader, writer, name)?;
    write!(writer, ": {calls} calls, ")
}

fn try_case<R: Read, W: Write>(reader: &mut R, writer: &mut W, c: Case) -> io::Result<Verdict>
    requires { c.name ≤ 256 }
    ensures { OnErr result ((t : List ℕ) × Consumes (R.remaining reader.old) (R.remaining reader.new) t) }
{
    print_head(reader, writer, c.name, c.calls)?;
    if c.messages > 1040 || c.queue > 65600 {
        write!(writer, "larger than can be run\n")?;
        return Ok(Verdict::Ended);
    }
    let verdict = run_case(reader, writer, c.mailboxes, c.messages, c.queue, c.calls)?;
    if verdict == Verdict::Right {
        write!(writer, "ok\n")?;
    }
    Ok(verdict)
}

// ---- all cases

#[derive(Clone, Copy)]
struct Tally {
    cases: u64,
    calls: u64,
    wrong: u64,
}

impl Tally {
    // One case more.
    fn count(&mut self, calls: u64, verdict: Verdict) {
        self.cases = self.cases.wrapping_add(1);
        self.calls = self.calls.wrapping_add(calls);
        if verdict != Verdict::Right {
            self.wrong = self.wrong.wrapping_add(1);
        }
    }
}

// The next case, if there is one. Whether another may follow it is the answer.
fn next_tally<R: Read, W: Write>(
    reader: &mut R,
    writer: &mut W,
    t: &mut Tally,
) -> io::Result<bool> {
    let c = next_case(reader);
    if c.read == 0 {
        return Ok(false);
    }
    if c.read != 20 || c.name > 256 {
        write!(writer, "no case stands here\n")?;
        t.wrong = t.wrong.wrapping_add(1);
        return Ok(false);
    }
    let verdict = try_case(reader, writer, c)?;
    t.count(c.calls, verdict);
    Ok(verdict != Verdict::Ended)
}

fn print_total<W: Write>(writer: &mut W, t: &Tally) -> io::Result<()> {
    write!(
        writer,
        "{} cases, {} calls, {} wrong\n",
        t.cases, t.calls, t.wrong
    )
}

// A loop that is proved has to end: it counts its turns up to a number that no input reaches.
fn main(rt: HostRuntime) -> io::Result<()> {
    let mut reader = rt.stdin();
    let mut writer = rt.stdout();
    let mut t = Tally {
        cases: 0,
        calls: 0,
        wrong: 0,
    };
    for _ in 0..u64::MAX {
        if !next_tally(&mut reader, &mut writer, &mut t)? {
            break;
        }
    }
    print_total(&mut writer, &t)
}
