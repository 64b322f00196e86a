// Reads command lines from standard input, each as its length in four octets, the lowest first, and its octets; writes for each a line with
// the length of its tag, whose answer it is, how it is answered with no mailbox selected and with one, and what an accepted command asks:
// groups or sources with their names, results, keys.
#![tactic(auto)]

ghost use Rattle.std.specs.Prelude.{◌<◌, length};

use model::{LentGroup, LentName, Reply, Session};
use read_commands::Judged;
use read_notify::Notify;
use read_options::{Returns, Verb};
use read_sources::Source;
use std::io;
use std::io::{Read, Write};

// The letter of a command.
fn letter_of(verb: Verb) -> char {
    match verb {
        Verb::Notify => 'N',
        Verb::Esearch => 'S',
        Verb::Other => '-',
    }
}

// The number of a reply's line.
fn number_of(reply: Reply) -> u64 {
    match reply {
        Reply::Bad => 1,
        Reply::BadEvent => 2,
        Reply::Unsupported => 3,
        Reply::BadCharset => 4,
        Reply::TooLarge => 5,
        Reply::Accepted => 6,
    }
}

// ---- names

// A name, each octet as two digits.
fn print_name<W: Write>(writer: &mut W, name: LentName) -> io::Result<()> {
    write!(writer, " /")?;
    for octet in name.octets.iter().take(usize::from(name.len)) {
        write!(writer, "{octet:02x}")?;
    }
    Ok(())
}

// The names that are in use.
fn print_names<W: Write>(writer: &mut W, names: &[LentName], count: u64) -> io::Result<()> {
    for name in names.iter().take(count as usize) {
        print_name(writer, *name)?;
    }
    Ok(())
}

// ---- what a search asks

fn print_source<W: Write>(writer: &mut W, source: Source) -> io::Result<()> {
    let scope = read_sources::scope_number(source.scope);
    write!(writer, " {scope},{},{}", source.first, source.count)
}

// The sources as they are searched, and their names; they stand behind the space that follows the word.
fn print_sources<W: Write>(writer: &mut W, text: &[u8], at: usize) -> io::Result<()> {
    let Some((listed, _)) = read_sources::keep_sources(text, at) else {
        return Ok(());
    };
    for source in listed.sources.iter().take(listed.count as usize) {
        print_source(writer, *source)?;
    }
    print_names(writer, &listed.kept.names, listed.kept.count)
}

fn print_returns<W: Write>(writer: &mut W, r: Returns) -> io::Result<()> {
    write!(
        writer,
        " {}{}{}{}",
        u8::from(r.min),
        u8::from(r.max),
        u8::from(r.all),
        u8::from(r.count)
    )
}

// What it is to return, and its keys.
fn print_search<W: Write>(writer: &mut W, text: &[u8], at: usize) -> io::Result<()>
    requires { length text.now < 4294967296 }
{
    let mut cells = [0u64; 4096];
    let Some((asked, _)) = read_commands::search_at(text, at, &mut cells) else {
        return write!(writer, " ?");
    };
    print_returns(writer, asked.returns)?;
    for cell in cells.iter().take(asked.used) {
        write!(writer, " {cell}")?;
    }
    Ok(())
}

// ---- what a NOTIFY asks

fn print_group<W: Write>(writer: &mut W, g: LentGroup) -> io::Result<()> {
    write!(
        writer,
        " {},{},{},{},{}",
        g.selector, g.first, g.count, g.events, g.attributes
    )
}

// A session without groups.
fn silent() -> Session {
    let none = LentGroup {
        selector: 0,
        first: 0,
        count: 0,
        events: 0,
        attributes: 0,
    };
    let nobody = LentName {
        len: 0,
        octets: [0; 64],
    };
    Session {
        selected: 0,
        notified: 0,
        groupcount: 0,
        told: 0,
        groups: [none; 8],
        names: [nobody; 16],
    }
}

// Its groups as the session has them that it sets, and their names.
fn print_notify<W: Write>(writer: &mut W, text: &[u8], at: usize) -> io::Result<()> {
    match read_commands::keep_notify(text, at) {
        Some((Notify::Nothing, _)) => write!(writer, " none"),
        Some((Notify::Groups(g), _)) => {
            write!(writer, " {}", u8::from(g.status))?;
            let session = read_commands::watched(text, silent());
            for group in session.groups.iter().take(usize::from(session.groupcount)) {
                print_group(writer, *group)?;
            }
            print_names(writer, &session.names, g.tally.names)
        }
        None => write!(writer, " ?"),
    }
}

// ---- a line

// What an accepted command asks, from behind its word on: NOTIFY has six octets, ESEARCH seven.
fn print_asked<W: Write>(writer: &mut W, verb: Verb, text: &[u8], tag: usize) -> io::Result<()>
    requires { length text.now < 4294967296 }
{
    if 32 < tag {
        return Ok(());
    }
    match verb {
        Verb::Notify => print_notify(writer, text, tag + 7),
        Verb::Esearch => {
            print_sources(writer, text, tag + 9)?;
            print_search(writer, text, tag + 8)
        }
        Verb::Other => Ok(()),
    }
}

fn judged(text: &[u8], selected: bool) -> Judged
    requires { length text.now < 4294967296 }
{
    let mut cells = [0u64; 4096];
    read_commands::judge(text, selected, read_commands::limits(), &mut cells)
}

fn show<W: Write>(writer: &mut W, text: &[u8]) -> io::Result<()>
    requires { length text.now < 4294967296 }
{
    let tag = read_commands::tag_length(text);
    let without = number_of(judged(text, false).reply);
    let judged = judged(text, true);
    let with = number_of(judged.reply);
    write!(writer, "{tag} {} {without} {with}", letter_of(judged.verb))?;
    if with == 6 {
        print_asked(writer, judged.verb, text, tag)?;
    }
    writeln!(writer)
}

// ---- the input

// The octets of a line, which are read, and its answer; false where they are not all there.
fn answer<R: Read, W: Write>(reader: &mut R, writer: &mut W, text: &mut [u8]) -> io::Result<bool>
    requires { length text.old < 4294967296 }
{
    if reader.read_exact(text).is_err() {
        return Ok(false);
    }
    show(writer, text)?;
    Ok(true)
}

// A line and its answer; false where there is none.
fn step<R: Read, W: Write>(reader: &mut R, writer: &mut W) -> io::Result<bool> {
    let mut head = [0u8; 4];
    if reader.read_exact(&mut head).is_err() {
        return Ok(false);
    }
    let n = u32::from_le_bytes(head) as usize;
    if 1024 < n {
        return Ok(false);
    }
    let mut text = [0u8; 4096];
    answer(reader, writer, &mut text[..n])
}

// A loop that is proved has to end, and nothing says that the input does: it counts its turns, up to a number that no run uses up.
pub fn main(rt: HostRuntime) -> io::Result<()> {
    let mut reader = rt.stdin();
    let mut writer = rt.stdout();
    for _ in 0..u64::MAX {
        if !step(&mut reader, &mut writer)? {
            break;
        }
    }
    Ok(())
}
