// `why STREAM PLACE`: why the record at a place of a stream, counted from 1, was told or not. It prints one line: the reason; `no record` where
// the place has none; `! 2` where there are not two arguments, or the file cannot be read up to the place.
// It serves record by record, on tables as pushrun has them, and drains nothing: the stream's own `DR` does.
#![tactic(auto)]

ghost use Rattle.std.specs.Prelude.{◌≤◌, length};

use model::Reason;
use run_input::{ARGUMENT, RECORD, Read};
use std::io;
use std::io::Write;
use std::rt::Env;
use step_stream::Served;

const WORDS: usize = 6144;

const QUEUE: usize = 8192;

// more than the longest line has
const LINE: usize = 64;

// The place that the second argument says; one that is no number says 0, where no record stands.
fn place(env: &impl Env) -> u64 {
    let mut text = [0u8; ARGUMENT];
    let n = run_input::argument(env, 2, &mut text);
    reason_text::place_of(&text[..n])
}

// ---- the run to the place

// Where the run stands before a record, and what was read of that one.
#[derive(Clone, Copy)]
struct Reached {
    state: Served,
    read: Read,
}

// Serves the records before the place. The first is read whatever the place is: a file that cannot be read is told by that.
fn reach<R: io::Read>(
    reader: &mut R,
    place: u64,
    words: &mut [u64],
    queue: &mut [u8],
    octets: &mut [u8],
) -> Reached
    requires { 65539 ≤ length octets.old }
    ensures { result.read.size ≤ 65539 }
{
    let mut s = reason_stream::begun();
    let mut read = run_input::next_record(reader, octets);
    for _ in 1..place {
        if run_input::is_over(read) {
            break;
        }
        s = step_stream::serve(
            &s.table,
            s.counts,
            &s.session,
            words,
            queue,
            &octets[..read.size],
        );
        read = run_input::next_record(reader, octets);
    }
    Reached { state: s, read }
}

// ---- the line

fn print_reason<W: Write>(writer: &mut W, reason: Reason) -> io::Result<()> {
    let mut line = [0u8; LINE];
    let end = reason_text::put_reason(&mut line, reason);
    run_input::print(writer, &line[..end])
}

// Of the record that was reached. What its reason is, the rules say (`reason_stream::why_at`).
fn print_judged<W: Write>(
    writer: &mut W,
    s: &Served,
    words: &mut [u64],
    queue: &mut [u8],
    octets: &[u8],
) -> io::Result<()> {
    let j = reason_stream::why_at(&s.table, s.counts, &s.session, words, queue, octets);
    print_reason(writer, j.reason)
}

fn answer<R: io::Read, W: Write>(reader: &mut R, writer: &mut W, place: u64) -> io::Result<()> {
    let mut words = [0u64; WORDS];
    let mut queue = [0u8; QUEUE];
    let mut octets = [0u8; RECORD];
    let r = reach(reader, place, &mut words, &mut queue, &mut octets);
    if r.read.failed {
        return run_input::refuse(writer, 2);
    }
    let n = r.read.size;
    if place == 0 || n == 0 {
        return print_reason(writer, Reason::NoRecord);
    }
    print_judged(writer, &r.state, &mut words, &mut queue, &octets[..n])
}

fn main(rt: HostRuntime) -> io::Result<()> {
    let mut writer = rt.stdout();
    if run_input::arguments(&rt) != 2 {
        return run_input::refuse(&mut writer, 2);
    }
    match run_input::open_argument(&rt, 1) {
        Ok(mut file) => answer(&mut file, &mut writer, place(&rt)),
        Err(_) => run_input::refuse(&mut writer, 2),
    }
}
