// Reads lent memories from standard input and writes a line for each: its name, and whether it is lawful; then how many there were.
// A number has eight octets, the lowest first. A memory is the length of its name and the name, the lengths of the queue and of the
// mailbox table, the rows that are read of it (at most 64), the three counts, the message table's words with their number before
// them, and the session; rows, groups and names lie as the host keeps them. A name of no octets ends the input.
#![tactic(auto)]

ghost use Rattle.std.specs.Prelude.{◌≡◌, List, ℕ, ◌≤◌, ◌<◌, length, take, IfOk, OnOk, OnErr};
ghost use Rattle.std.specs.Io.KnownBytes.{Appends, WriteAppends};
ghost use Rattle.model.specs.Lawful.{lawful};
ghost use Rattle.model.specs.declared.Mailbox.{Mailbox};
ghost use Rattle.table_messages.specs.Words.{messages};
ghost use Rattle.lawful.specs.Lent.{Lent, memory};

use model::{Counts, LentGroup, LentName, Mailbox, Session};
use std::io;
use std::io::{Read, Write};
use table_mailboxes::Columns;

// Writes at least one octet, or fails and has written none.
fn write_once<W: Write>(writer: &mut W, text: &[u8]) -> io::Result<usize>
    ensures size { IfOk result (λ n. (0 < n) × (n ≤ length text.now)) }
    ensures bytes { WriteAppends (W.contents writer.old) (W.contents writer.new) result text.now }
{
    let n = writer.write(text)?;
    if n == 0 {
        return Err(io::Error::from(io::ErrorKind::WriteZero));
    }
    Ok(n)
}

// Writes the text. Where a write fails, the first octets of it may have been written, which `write_all` does not say.
fn print<W: Write>(writer: &mut W, text: &[u8]) -> io::Result<()>
    ensures ok { OnOk result (Appends (W.contents writer.old) (W.contents writer.new) text.now) }
    ensures err { OnErr result ((n : ℕ) × Appends (W.contents writer.old) (W.contents writer.new) (take n text.now)) }
{
    let mut done = 0;
    // Kept: a write takes as much as it likes.
    while done < text.len() {
        done += write_once(writer, &text[done..])?;
    }
    Ok(())
}

// ---- the input

// The next octets fill the slice, as far as there are any: what the input ends before keeps its zeros.
fn next_octets<R: Read>(reader: &mut R, octets: &mut [u8]) {
    let _ = reader.read_exact(octets);
}

// The next number.
fn next_number<R: Read>(reader: &mut R) -> u64 {
    let mut o = [0u8; 8];
    next_octets(reader, &mut o);
    u64::from_le_bytes(o)
}

// The next number as a length.
fn next_length<R: Read>(reader: &mut R) -> usize {
    let n = next_number(reader);
    (n % 4294967296) as usize
}

// The next row.
fn next_row<R: Read>(reader: &mut R) -> Mailbox {
    let mut o = [0u8; 20];
    let mut name = [0u8; 64];
    next_octets(reader, &mut o);
    next_octets(reader, &mut name);
    Mailbox {
        id: u16::from_le_bytes([o[0], o[1]]),
        attributes: o[2],
        namelen: o[3],
        uidvalidity: u32::from_le_bytes([o[4], o[5], o[6], o[7]]),
        uidnext: u32::from_le_bytes([o[8], o[9], o[10], o[11]]),
        counterlow: u32::from_le_bytes([o[12], o[13], o[14], o[15]]),
        counterhigh: u32::from_le_bytes([o[16], o[17], o[18], o[19]]),
        name,
    }
}

// The next n rows, at the front of 64.
fn next_rows<R: Read>(reader: &mut R, n: usize) -> [Mailbox; 64] {
    let mut table = [table_mailboxes::vacant(); 64];
    for x in &mut table[..n.min(64)] {
        *x = next_row(reader);
    }
    table
}

// The next group.
fn next_group<R: Read>(reader: &mut R) -> LentGroup {
    let mut o = [0u8; 5];
    next_octets(reader, &mut o);
    LentGroup {
        selector: o[0],
        first: o[1],
        count: o[2],
        events: o[3],
        attributes: o[4],
    }
}

// The next eight groups.
fn next_groups<R: Read>(reader: &mut R) -> [LentGroup; 8] {
    let none = LentGroup {
        selector: 0,
        first: 0,
        count: 0,
        events: 0,
        attributes: 0,
    };
    let mut groups = [none; 8];
    for g in &mut groups {
        *g = next_group(reader);
    }
    groups
}

// The next name of a group.
fn next_name<R: Read>(reader: &mut R) -> LentName {
    let mut len = [0u8; 1];
    let mut octets = [0u8; 64];
    next_octets(reader, &mut len);
    next_octets(reader, &mut octets);
    LentName {
        len: len[0],
        octets,
    }
}

// The next sixteen names.
fn next_names<R: Read>(reader: &mut R) -> [LentName; 16] {
    let none = LentName {
        len: 0,
        octets: [0; 64],
    };
    let mut names = [none; 16];
    for x in &mut names {
        *x = next_name(reader);
    }
    names
}

// The next session.
fn next_session<R: Read>(reader: &mut R) -> Session {
    let mut o = [0u8; 8];
    next_octets(reader, &mut o);
    let groups = next_groups(reader);
    let names = next_names(reader);
    Session {
        selected: u16::from_le_bytes([o[0], o[1]]),
        notified: o[2],
        groupcount: o[3],
        told: u32::from_le_bytes([o[4], o[5], o[6], o[7]]),
        groups,
        names,
    }
}

// The next words fill the slice.
fn fill<R: Read>(reader: &mut R, words: &mut [u64]) {
    for w in words {
        *w = next_number(reader);
    }
}

// The next three counts.
fn next_counts<R: Read>(reader: &mut R) -> Counts {
    let mailboxes = next_number(reader);
    let messages = next_number(reader);
    let filled = next_number(reader);
    Counts {
        mailboxes,
        messages,
        filled,
    }
}

// ---- the answer

// Whether the memory is lawful, of whose mailbox table `lent` rows are lent and those that can be read are in `table`.
fn judge(
    table: &[Mailbox; 64],
    lent: usize,
    words: &[u64],
    counts: Counts,
    s: &Session,
    room: usize,
) -> bool
    ensures { (t : List Mailbox) (q : List ℕ) → Lent t table.now lent → length q ≡ room → result ≡ lawful (memory t (messages words.now) counts s.now q) }
{
    let mut cols = Columns::empty();
    cols.lay(table, counts.mailboxes);
    lawful::is_lawful(&cols, lent, words, counts, s, room)
}

// Writes the answer.
fn print_answer<W: Write>(writer: &mut W, yes: bool) -> io::Result<()>
    ensures { (t : List ℕ) × Appends (W.contents writer.old) (W.contents writer.new) t }
{
    if yes {
        print(writer, b": lawful\n")
    } else {
        print(writer, b": refused\n")
    }
}

// Reads the words and the session of a memory, and answers.
fn judge_rest<R: Read>(
    reader: &mut R,
    words: &mut [u64],
    table: &[Mailbox; 64],
    lent: usize,
    counts: Counts,
    room: usize,
) -> bool {
    fill(reader, words);
    let s = next_session(reader);
    judge(table, lent, words, counts, &s, room)
}

// The memory behind its name: whether it is lawful.
fn answer<R: Read, W: Write>(reader: &mut R, writer: &mut W) -> io::Result<bool>
    ensures { OnErr result ((t : List ℕ) × Appends (W.contents writer.old) (W.contents writer.new) t) }
{
    let room = next_length(reader);
    let lent = next_length(reader);
    let table = next_rows(reader, lent);
    let counts = next_counts(reader);
    let mut words = [0u64; 6240];
    let n = next_length(reader).min(6240);
    let yes = judge_rest(reader, &mut words[..n], &table, lent, counts, room);
    print_answer(writer, yes)?;
    Ok(yes)
}

// Reads and writes the octets of a name.
fn copy_name<R: Read, W: Write>(reader: &mut R, writer: &mut W, name: &mut [u8]) -> io::Result<()>
    ensures { (t : List ℕ) × Appends (W.contents writer.old) (W.contents writer.new) t }
{
    next_octets(reader, name);
    print(writer, name)
}

// Reads and writes a name of n octets, of at most 64.
fn print_name<R: Read, W: Write>(reader: &mut R, writer: &mut W, n: usize) -> io::Result<()>
    ensures { (t : List ℕ) × Appends (W.contents writer.old) (W.contents writer.new) t }
{
    let mut name = [0u8; 64];
    copy_name(reader, writer, &mut name[..n.min(64)])
}

// One memory, where there is one more: whether it is lawful.
fn step<R: Read, W: Write>(reader: &mut R, writer: &mut W) -> io::Result<Option<bool>>
    ensures { OnErr result ((t : List ℕ) × Appends (W.contents writer.old) (W.contents writer.new) t) }
{
    let n = next_length(reader);
    if n == 0 {
        return Ok(None);
    }
    print_name(reader, writer, n)?;
    let yes = answer(reader, writer)?;
    Ok(Some(yes))
}

// How many memories there were, and how many of them are lawful.
fn print_total<W: Write>(writer: &mut W, cases: u64, yes: u64) -> io::Result<()> {
    write!(writer, "{cases} memories, {yes} lawful\n")
}

// A loop that is proved has to end: it counts its turns up to a number that no input reaches.
fn main(rt: HostRuntime) -> io::Result<()> {
    let mut reader = rt.stdin();
    let mut writer = rt.stdout();
    let mut cases: u64 = 0;
    let mut yes: u64 = 0;
    while cases < 100000 {
        let Some(lawful) = step(&mut reader, &mut writer)? else {
            break;
        };
        yes += u64::from(lawful);
        cases += 1;
    }
    print_total(&mut writer, cases, yes)
}
