// Serves the records on standard input as they come, on tables of its own: 64 mailboxes, 1,024 messages, a queue of 8,192 octets.
// A record is as long as its length field says; what is torn at the end is one record more. Behind each, before it waits for the next,
// it writes `! n` where the record is refused and all that the queue holds, and drains the queue.
#![tactic(auto)]

ghost use Rattle.std.specs.Prelude.{◌≡◌, ◌≤◌, List, ℕ, length, take, IfOk, OnOk, OnErr};
ghost use Rattle.std.specs.Io.KnownBytes.{Appends};

use run_input::RECORD;
use std::io;
use std::io::Write;
use step_stream::Standing;

const WORDS: usize = 6144;

const QUEUE: usize = 8192;

// the most that a record shows: a refusal in five octets, and a full queue
const SHOWN: usize = 8197;

// Writes what a record shows, which stands at the front of `out`; the next goes there again.
fn print_shown<W: Write>(writer: &mut W, s: &Standing, out: &[u8]) -> io::Result<Standing>
    requires { s.now.end ≤ length out.now }
    ensures ok { IfOk result (λ t. t.end ≡ 0) }
    ensures bytes { OnOk result (Appends (W.contents writer.old) (W.contents writer.new) (take s.now.end out.now)) }
    ensures err { OnErr result ((n : ℕ) × Appends (W.contents writer.old) (W.contents writer.new) (take n (take s.now.end out.now))) }
{
    run_input::print(writer, &out[..s.end])?;
    Ok(Standing { end: 0, ..*s })
}

// One record. What it shows, and what it leaves, the rules say (`step_stream::turn`).
fn serve_one<W: Write>(
    writer: &mut W,
    s: &Standing,
    words: &mut [u64],
    queue: &mut [u8],
    octets: &[u8],
    out: &mut [u8],
) -> io::Result<Standing>
    requires { (s.now.end ≡ 0) × (length queue.old ≡ 8192) × (8197 ≤ length out.old) }
    ensures ok { IfOk result (λ t. t.end ≡ 0) }
    ensures err { OnErr result ((t : List ℕ) × Appends (W.contents writer.old) (W.contents writer.new) t) }
{
    let t = step_stream::turn(s, words, queue, octets, out);
    print_shown(writer, &t, out)
}

// A loop that is proved has to end: it counts its turns up to a number that no stream reaches.
fn serve<R: io::Read, W: Write>(
    reader: &mut R,
    writer: &mut W,
    words: &mut [u64],
    queue: &mut [u8],
    octets: &mut [u8],
    out: &mut [u8],
) -> io::Result<()>
    requires { (length queue.old ≡ 8192) × (65539 ≤ length octets.old) × (8197 ≤ length out.old) }
{
    let mut s = step_stream::start();
    for _ in 0..u64::MAX {
        let n = run_input::next_record(reader, octets).size;
        if n == 0 {
            break;
        }
        s = serve_one(writer, &s, words, queue, &octets[..n], out)?;
    }
    Ok(())
}

fn main(rt: HostRuntime) -> io::Result<()> {
    let mut words = [0u64; WORDS];
    let mut queue = [0u8; QUEUE];
    let mut octets = [0u8; RECORD];
    let mut out = [0u8; SHOWN];
    serve(
        &mut rt.stdin(),
        &mut rt.stdout(),
        &mut words,
        &mut queue,
        &mut octets,
        &mut out,
    )
}
