// The lines of an ESEARCH: one for each mailbox that it found something in, with MIN, MAX, ALL and COUNT as they were asked for.
// UIDs come in an array of words; a single UID is a `Uid`.
#![tactic(auto, using(line_put::specs::Writes::writes_nothing))]

ghost use Rattle.std.specs.Prelude.{◌≡◌, cond, [], ◌∷◌, ◌++◌, ◌+◌, ◌*◌, ◌≤◌, ◌<◌, eqb, length, take, drop};
ghost use Rattle.model.specs.Text.{octets, decimal};
ghost use Rattle.model.specs.Lines.{run_text, set_text};
ghost use Rattle.line_put.specs.Writes.{Writes};
ghost use Rattle.line_found.specs.Line.{uids_of, tag_text, box_text, results_text, line_text};
ghost use Rattle.line_found.specs.Telling.{texts};
ghost use Rattle.search_find.specs.Runs.{Bounded};

use line_put::Writer;
use model::Uid;
use read_options::Returns;
use table_mailboxes::Columns;

// u is the number behind `upto`.
fn follows(u: Uid, upto: Uid) -> bool
    ensures { result ≡ eqb u.0 (upto.0 + 1) }
{
    u.0 != 0 && u.0 - 1 == upto.0
}

fn put_run(w: &mut Writer<'_>, from: Uid, upto: Uid)
    requires { (w.old.limit ≤ length w.old.queue.now) × (w.old.at ≤ 274877906944) }
    ensures put { Writes w.old (run_text from.0 upto.0) w.new }
    ensures upper_bound { w.new.at ≤ w.old.at + 41 }
{
    w.put_number(from.0);
    if from != upto {
        w.put_byte(b':');
        w.put_number(upto.0);
    }
}

// A run and a comma.
fn put_part(w: &mut Writer<'_>, from: Uid, upto: Uid)
    requires { (w.old.limit ≤ length w.old.queue.now) × (w.old.at ≤ 274877906944) }
    ensures put { Writes w.old (run_text from.0 upto.0 ++ (44 ∷ [])) w.new }
    ensures upper_bound { w.new.at ≤ w.old.at + 42 }
{
    put_run(w, from, upto);
    w.put_byte(b',');
}

// UIDs, those that follow each other joined.
fn put_set(w: &mut Writer<'_>, uids: &[u64])
    requires { (w.old.limit ≤ length w.old.queue.now) × (w.old.at ≤ 4294967296) × (1 ≤ length uids.now) × (length uids.now ≤ 1048576) }
    ensures put { Writes w.old (set_text (uids_of uids.now)) w.new }
    ensures upper_bound { w.new.at ≤ w.old.at + 42 * length uids.now }
{
    let mut from = Uid(uids[0]);
    let mut upto = from;
    for u in &uids[1..] {
        let u = Uid(*u);
        if !follows(u, upto) {
            put_part(w, from, upto);
            from = u;
        }
        upto = u;
    }
    put_run(w, from, upto);
}

// A number behind its label, where it was asked for.
fn put_labelled(w: &mut Writer<'_>, on: bool, label: &[u8], n: u64)
    requires { (w.old.limit ≤ length w.old.queue.now) × (w.old.at ≤ 274877906944) × (length label.now ≤ 8) }
    ensures put { Writes w.old (cond on (label.now ++ decimal n) []) w.new }
    ensures upper_bound { w.new.at ≤ w.old.at + 28 }
{
    if on {
        w.put(label);
        w.put_number(n);
    }
}

fn put_all(w: &mut Writer<'_>, on: bool, uids: &[u64])
    requires { (w.old.limit ≤ length w.old.queue.now) × (w.old.at ≤ 2147483648) × (1 ≤ length uids.now) × (length uids.now ≤ 1048576) }
    ensures put { Writes w.old (cond on (octets " ALL " ++ set_text (uids_of uids.now)) []) w.new }
    ensures upper_bound { w.new.at ≤ w.old.at + 5 + 42 * length uids.now }
{
    if on {
        w.put(b" ALL ");
        put_set(w, uids);
    }
}

fn put_results(w: &mut Writer<'_>, wanted: Returns, uids: &[u64])
    requires { (w.old.limit ≤ length w.old.queue.now) × (w.old.at ≤ 1073741824) × (1 ≤ length uids.now) × (length uids.now ≤ 1048576) }
    ensures put { Writes w.old (results_text wanted (uids_of uids.now)) w.new }
    ensures upper_bound { w.new.at ≤ w.old.at + 100 + 42 * length uids.now }
{
    let n = uids.len();
    put_labelled(w, wanted.min, b" MIN ", uids[0]);
    put_labelled(w, wanted.max, b" MAX ", uids[n - 1]);
    put_all(w, wanted.all, uids);
    put_labelled(w, wanted.count, b" COUNT ", n as u64);
}

fn put_tag(w: &mut Writer<'_>, tag: &[u8])
    requires { (w.old.limit ≤ length w.old.queue.now) × (w.old.at ≤ 16777216) × (length tag.now ≤ 1048576) }
    ensures put { Writes w.old (tag_text tag.now) w.new }
    ensures upper_bound { w.new.at ≤ w.old.at + 28 + length tag.now }
{
    w.put(b"* ESEARCH (TAG \"");
    w.put(tag);
    w.put(b"\" MAILBOX ");
}

fn put_box(w: &mut Writer<'_>, name: &[u8], validity: u64)
    requires { (w.old.limit ≤ length w.old.queue.now) × (w.old.at ≤ 33554432) × (length name.now ≤ 1048576) }
    ensures put { Writes w.old (box_text name.now validity) w.new }
    ensures upper_bound { w.new.at ≤ w.old.at + 50 + 2 * length name.now }
{
    w.put_quoted(name);
    w.put(b" UIDVALIDITY ");
    w.put_number(validity);
    w.put(b") UID");
}

// The line of the UIDs that were found.
pub fn put_found(
    w: &mut Writer<'_>,
    tag: &[u8],
    name: &[u8],
    validity: u64,
    wanted: Returns,
    uids: &[u64],
)
    requires { ((w.old.limit ≤ length w.old.queue.now) × (w.old.at ≤ 16777216)) × ((length tag.now ≤ 1048576) × (length name.now ≤ 1048576)) × ((1 ≤ length uids.now) × (length uids.now ≤ 1048576)) }
    ensures put { Writes w.old (line_text tag.now name.now validity wanted (uids_of uids.now)) w.new }
    ensures upper_bound { w.new.at ≤ w.old.at + 180 + length tag.now + 2 * length name.now + 42 * length uids.now }
{
    put_tag(w, tag);
    put_box(w, name, validity);
    put_results(w, wanted, uids);
    w.put(b"\r\n");
}

// The line of a row, of the UIDs that were found in it; none where nothing was.
fn put_row(
    w: &mut Writer<'_>,
    tag: &[u8],
    name: &[u8],
    validity: u64,
    wanted: Returns,
    uids: &[u64],
)
    requires { (w.old.limit ≤ length w.old.queue.now) × (w.old.at ≤ 8388608) × (length tag.now ≤ 32) × (length name.now ≤ 64) × (length uids.now ≤ 1024) }
    ensures put { Writes w.old (line_text tag.now name.now validity wanted (uids_of uids.now)) w.new }
    ensures upper_bound { w.new.at ≤ w.old.at + 43500 }
{
    if !uids.is_empty() {
        put_found(w, tag, name, validity, wanted, uids);
    }
}

// The lines of the places of an order of rows, the top one first, of what was found in each.
pub fn put_rows(
    w: &mut Writer<'_>,
    tag: &[u8],
    cols: &Columns,
    rows: &[usize],
    wanted: Returns,
    uids: &[u64],
    starts: &[usize],
    counts: &[usize],
)
    requires { ((w.old.limit ≤ length w.old.queue.now) × (w.old.at ≤ 65536) × (length tag.now ≤ 32)) × ((length rows.now ≤ 64) × (length rows.now ≤ length starts.now) × (length rows.now ≤ length counts.now)) × ((2048 ≤ length uids.now) × Bounded starts.now counts.now 0 (length rows.now)) }
    ensures put { Writes w.old (texts tag.now cols.now rows.now wanted uids.now starts.now counts.now (length rows.now)) w.new }
    ensures upper_bound { w.new.at ≤ w.old.at + 43500 * length rows.now }
{
    for i in (0..rows.len()).rev() {
        let k = rows[i] % 64;
        let from = starts[i];
        put_row(
            w,
            tag,
            cols.name(k),
            cols.validities[k],
            wanted,
            &uids[from..from + counts[i]],
        );
    }
}
