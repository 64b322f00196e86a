// What programs read: records from a reader, arguments, the files that they name; and the refusal that a program prints alone.
// Which octets a file or a stream gives and takes no contract can say: those of a reader and a writer whose octets are known do.
#![tactic(auto, using(line_put::specs::Writes::writes_nothing))]

ghost use Rattle.std.specs.Prelude.{◌≡◌, ◌⊎◌, false, ◌||◌, ◌+◌, ◌*◌, ◌≤◌, ◌<◌, eqb, ℕ, length, take, drop, IfOk, OnOk, OnErr};
ghost use Rattle.std.specs.Io.KnownBytes.{Appends, Consumes, IsAtEnd, WriteAppends};
ghost use Rattle.model.specs.Text.{little};
ghost use Rattle.model.specs.Pushrun.{refusal_text};
ghost use Rattle.line_put.specs.Put.{Put};
ghost use Rattle.line_put.specs.Writes.{Writes};

use line_put::Writer;
use std::env::FillError;
use std::io::Write;
use std::rt::{Env, Files};
use std::{fs, io};

// the longest record: its four octets and 65,535 more
pub const RECORD: usize = 65539;

// the longest argument that Linux passes on, with the 0 behind it
pub const ARGUMENT: usize = 131072;

// the longest path, with the 0 behind it
const PATH: usize = 4096;

// ---- records

// What was read: how many octets, and whether a read failed, which is not the end of the input.
// Kept: a Result would not have both, and a read that fails behind others has read something.
#[derive(Clone, Copy)]
pub struct Read {
    pub size: usize,
    pub failed: bool,
}

// Reads until the slice is full, the input ends or a read fails.
// Kept: a read gives as much as it likes, so no `for` goes by its turns.
pub fn read_full<R: io::Read>(reader: &mut R, octets: &mut [u8]) -> Read
    ensures size { result.size ≤ length octets.old }
    ensures bytes { Consumes (R.remaining reader.old) (R.remaining reader.new) (take result.size octets.new) }
    ensures end { result.failed ≡ false → result.size < length octets.old → IsAtEnd (R.remaining reader.new) }
{
    let mut done = 0;
    while done < octets.len() {
        match reader.read(&mut octets[done..]) {
            Ok(0) => break,
            Ok(n) => done += n,
            Err(_) => {
                return Read {
                    size: done,
                    failed: true,
                };
            }
        }
    }
    Read {
        size: done,
        failed: false,
    }
}

// Reads so many octets to a place of the slice, or as many as there are.
fn read_at<R: io::Read>(reader: &mut R, octets: &mut [u8], at: usize, size: usize) -> Read
    requires { at + size ≤ length octets.old }
    ensures size { result.size ≤ size }
    ensures bytes { Consumes (R.remaining reader.old) (R.remaining reader.new) (take result.size (drop at octets.new)) }
    ensures front { take at octets.new ≡ take at octets.old }
    ensures end { result.failed ≡ false → result.size < size → IsAtEnd (R.remaining reader.new) }
{
    let end = at + size;
    read_full(reader, &mut octets[at..end])
}

// Reads the next record to the front of the slice: as many octets as its length field says, or as many as there are, 0 where there is none.
pub fn next_record<R: io::Read>(reader: &mut R, octets: &mut [u8]) -> Read
    requires { 65539 ≤ length octets.old }
    ensures size { result.size ≤ 65539 }
    ensures bytes { Consumes (R.remaining reader.old) (R.remaining reader.new) (take result.size octets.new) }
    ensures most { 4 ≤ result.size → result.size ≤ 4 + little 2 (drop 2 octets.new) }
    ensures end { result.failed ≡ false → (result.size < 4) ⊎ (result.size < 4 + little 2 (drop 2 octets.new)) → IsAtEnd (R.remaining reader.new) }
{
    let head = read_at(reader, octets, 0, 4);
    if head.size < 4 {
        return head;
    }
    let size = usize::from(u16::from_le_bytes([octets[2], octets[3]]));
    let body = read_at(reader, octets, 4, size);
    Read {
        size: 4 + body.size,
        failed: body.failed,
    }
}

// No record was there, or a read failed before its end.
pub fn is_over(read: Read) -> bool
    ensures { result ≡ (eqb read.size 0 || read.failed) }
{
    read.size == 0 || read.failed
}

// ---- arguments and files

// How many arguments there are, the program's own name not counted.
pub fn arguments(env: &impl Env) -> usize {
    for k in 1..usize::MAX {
        if matches!(env.arg(k, &mut []), Err(FillError::NotPresent)) {
            return k - 1;
        }
    }
    usize::MAX - 1
}

// Argument k, from 1, to the front of the slice: its length, 0 where it is missing or too long for the slice.
pub fn argument(env: &impl Env, k: usize, text: &mut [u8]) -> usize
    ensures { (result ≤ length text.new) × (result ≡ length (take result text.new)) }
{
    env.arg(k, text).unwrap_or(0)
}

// Opens the file that argument k names for reading. An argument that is too long for a path leaves the empty path, which no file has;
// one that is no UTF-8 names no file that std can open.
pub fn open_argument<R: Env + Files>(rt: &R, k: usize) -> io::Result<R::File> {
    let mut path = [0u8; PATH];
    let n = argument(rt, k, &mut path);
    match str::from_utf8(&path[..n]) {
        Ok(text) => fs::open(rt, text),
        Err(_) => Err(io::Error::from(io::ErrorKind::InvalidFilename)),
    }
}

// ---- output

// Writes at least one octet, or fails and has written none.
fn write_once<W: Write>(writer: &mut W, text: &[u8]) -> io::Result<usize>
    ensures size { IfOk result (λ n. (0 < n) × (n ≤ length text.now)) }
    ensures bytes { WriteAppends (W.contents writer.old) (W.contents writer.new) result text.now }
{
    let n = writer.write(text)?;
    if n == 0 {
        return Err(io::Error::from(io::ErrorKind::WriteZero));
    }
    Ok(n)
}

// Writes the text at once. Where a write fails, the first octets of it may have been written.
// Kept: of a write that fails std's `write_all` does not say what was written.
pub fn print<W: Write>(writer: &mut W, text: &[u8]) -> io::Result<()>
    ensures ok { OnOk result (Appends (W.contents writer.old) (W.contents writer.new) text.now) }
    ensures err { OnErr result ((n : ℕ) × Appends (W.contents writer.old) (W.contents writer.new) (take n text.now)) }
{
    let mut done = 0;
    while done < text.len() {
        done += write_once(writer, &text[done..])?;
    }
    writer.flush()
}

// `! n`, and nothing for 0.
fn put_refusal(w: &mut Writer<'_>, n: u64)
    requires { (w.old.limit ≤ length w.old.queue.now) × (w.old.at ≤ 65536) }
    ensures put { Writes w.old (refusal_text n) w.new }
    ensures upper_bound { w.new.at ≤ w.old.at + 24 }
{
    if n != 0 {
        w.put(b"! ");
        w.put_number(n);
        w.put(b"\r\n");
    }
}

// To the front of a text; where it ends.
fn refusal(queue: &mut [u8], n: u64) -> usize
    ensures put { Put queue.old 0 (length queue.old) (refusal_text n) queue.new result }
    ensures upper_bound { result ≤ 24 }
{
    let limit = queue.len();
    let mut w = Writer {
        queue,
        at: 0,
        limit,
    };
    put_refusal(&mut w, n);
    w.at
}

// Prints `! n` alone.
pub fn refuse<W: Write>(writer: &mut W, n: u64) -> io::Result<()>
    ensures ok { OnOk result (Appends (W.contents writer.old) (W.contents writer.new) (refusal_text n)) }
    ensures err { OnErr result ((k : ℕ) × Appends (W.contents writer.old) (W.contents writer.new) (take k (refusal_text n))) }
{
    let mut line = [0u8; 24];
    let end = refusal(&mut line, n);
    print(writer, &line[..end])
}
