// The notices about mailboxes: LIST lines, STATUS lines.
#![tactic(auto)]

ghost use Rattle.std.specs.Prelude.{◌≡◌, ◌++◌, ◌+◌, ◌*◌, ◌-◌, ◌≤◌, ◌<◌, length};
ghost use Rattle.model.specs.Lists.{when};
ghost use Rattle.model.specs.Text.{decimal};
ghost use Rattle.model.specs.Lines.{list, renamed, status, mail_items, flag_items, set_items, mark_text, render, render_all};
ghost use Rattle.line_put.specs.Writes.{Writes};
ghost use Rattle.line_mailbox.specs.Texts.{mark_of, pair, listed, opening, ending};

use line_put::{Line, Writer};

// ---- LIST
// The attribute of a LIST line.
#[derive(Clone, Copy)]
pub enum Mark {
    Plain,
    Noselect,
    NonExistent,
    NoAccess,
    Subscribed,
}

// Its words.
fn words(mark: Mark) -> &'static [u8]
    ensures text { result.now ≡ mark_text (mark_of mark) }
    ensures upper_bound { length result.now ≤ 14 }
{
    match mark {
        Mark::Plain => b"()",
        Mark::Noselect => b"(\\Noselect)",
        Mark::NonExistent => b"(\\NonExistent)",
        Mark::NoAccess => b"(\\NoAccess)",
        Mark::Subscribed => b"(\\Subscribed)",
    }
}

// `* LIST (..) "/" "name"`, the part that all LIST lines begin with.
fn put_listed(w: &mut Writer<'_>, mark: Mark, name: &[u8])
    requires { (w.old.limit ≤ length w.old.queue.now) × (w.old.at ≤ 524288) × (length name.now ≤ 64) }
    ensures put { Writes w.old (listed (mark_of mark) name.now) w.new }
    ensures upper_bound { w.new.at ≤ w.old.at + 156 }
{
    w.put(b"* LIST ");
    w.put(words(mark));
    w.put(b" \"/\" ");
    w.put_quoted(name);
}

pub fn put_list(w: &mut Writer<'_>, mark: Mark, name: &[u8])
    requires { (w.old.limit ≤ length w.old.queue.now) × (w.old.at ≤ 262144) × (length name.now ≤ 64) }
    ensures put { Writes w.old (render (list (mark_of mark) name.now)) w.new }
    ensures upper_bound { w.new.at ≤ w.old.at + 158 }
{
    put_listed(w, mark, name);
    w.put(b"\r\n");
}

// A LIST line.
#[derive(Clone, Copy)]
pub struct ListLine<'a> {
    pub mark: Mark,
    pub name: &'a [u8],
    ghost short: { length name.now ≤ 64 },
}

impl Line for ListLine<'_> {
    ghost text = { λ l. render (list (mark_of l.mark) l.name.now) };

    fn put(&self, w: &mut Writer<'_>) {
        put_list(w, self.mark, self.name);
    }
}

// A LIST line, if it is wanted.
fn put_wanted(w: &mut Writer<'_>, on: bool, line: &ListLine<'_>)
    requires { (w.old.limit ≤ length w.old.queue.now) × (w.old.at ≤ 262144) }
    ensures put { Writes w.old (render_all (when on (list (mark_of line.now.mark) line.now.name.now))) w.new }
    ensures upper_bound { w.new.at ≤ w.old.at + 158 }
{
    if on {
        put_list(w, line.mark, line.name);
    }
}

// The line of a mailbox and then that of its parent, each if it is wanted.
#[derive(Clone, Copy)]
pub struct Pair<'a> {
    pub own: bool,
    pub line: ListLine<'a>,
    pub upper: bool,
    pub parent: ListLine<'a>,
}

fn put_pair(w: &mut Writer<'_>, lines: &Pair<'_>)
    requires { (w.old.limit ≤ length w.old.queue.now) × (w.old.at ≤ 131072) }
    ensures put { Writes w.old
        (render_all
        (pair lines.now.own (list (mark_of lines.now.line.mark) lines.now.line.name.now) lines.now.upper (list (mark_of lines.now.parent.mark) lines.now.parent.name.now)))
        w.new }
    ensures upper_bound { w.new.at ≤ w.old.at + 316 }
{
    put_wanted(w, lines.own, &lines.line);
    put_wanted(w, lines.upper, &lines.parent);
}

impl Line for Pair<'_> {
    ghost text = { λ p.
        render_all
        (pair p.own (list (mark_of p.line.mark) p.line.name.now) p.upper (list (mark_of p.parent.mark) p.parent.name.now)) };

    fn put(&self, w: &mut Writer<'_>) {
        put_pair(w, self);
    }
}

// The LIST line of a mailbox with the name that it had before.
pub fn put_renamed(w: &mut Writer<'_>, mark: Mark, new: &[u8], old: &[u8])
    requires { (w.old.limit ≤ length w.old.queue.now) × (w.old.at ≤ 262144) × (length new.now ≤ 64) × (length old.now ≤ 64) }
    ensures put { Writes w.old (render (renamed (mark_of mark) new.now old.now)) w.new }
    ensures upper_bound { w.new.at ≤ w.old.at + 303 }
{
    put_listed(w, mark, new);
    w.put(b" (\"OLDNAME\" (");
    w.put_quoted(old);
    w.put(b"))\r\n");
}

// That LIST line as one that is told whole.
#[derive(Clone, Copy)]
pub struct Renamed<'a> {
    pub mark: Mark,
    pub new: &'a [u8],
    pub old: &'a [u8],
    ghost short: { (length new.now ≤ 64) × (length old.now ≤ 64) },
}

impl Line for Renamed<'_> {
    ghost text = { λ r. render (renamed (mark_of r.mark) r.new.now r.old.now) };

    fn put(&self, w: &mut Writer<'_>) {
        put_renamed(w, self.mark, self.new, self.old);
    }
}

// ---- STATUS
// A word and a number.
fn put_counted(w: &mut Writer<'_>, word: &[u8], n: u64)
    requires { (w.old.limit ≤ length w.old.queue.now) × (w.old.at ≤ 1048576) × (length word.now ≤ 16) }
    ensures put { Writes w.old (word.now ++ decimal n) w.new }
    ensures upper_bound { w.new.at ≤ w.old.at + 36 }
{
    w.put(word);
    w.put_number(n);
}

// `* STATUS "name" (`, the part that all STATUS lines begin with.
fn put_opening(w: &mut Writer<'_>, name: &[u8])
    requires { (w.old.limit ≤ length w.old.queue.now) × (w.old.at ≤ 524288) × (length name.now ≤ 64) }
    ensures put { Writes w.old (opening name.now) w.new }
    ensures upper_bound { w.new.at ≤ w.old.at + 141 }
{
    w.put(b"* STATUS ");
    w.put_quoted(name);
    w.put(b" (");
}

// The mailbox's counter, with which all STATUS lines end.
fn put_highest(w: &mut Writer<'_>, highest: u64)
    requires { (w.old.limit ≤ length w.old.queue.now) × (w.old.at ≤ 1048576) }
    ensures put { Writes w.old (ending highest) w.new }
    ensures upper_bound { w.new.at ≤ w.old.at + 39 }
{
    put_counted(w, b" HIGHESTMODSEQ ", highest);
    w.put(b")\r\n");
}

// The STATUS of a mailbox that is not selected, where messages come or go.
pub fn put_status(w: &mut Writer<'_>, name: &[u8], next: u64, messages: u64, highest: u64)
    requires { (w.old.limit ≤ length w.old.queue.now) × (w.old.at ≤ 262144) × (length name.now ≤ 64) }
    ensures put { Writes w.old (render (status name.now (mail_items next messages highest))) w.new }
    ensures upper_bound { w.new.at ≤ w.old.at + 252 }
{
    put_opening(w, name);
    put_counted(w, b"UIDNEXT ", next);
    put_counted(w, b" MESSAGES ", messages);
    put_highest(w, highest);
}

// That STATUS as a line that is told whole.
#[derive(Clone, Copy)]
pub struct Status<'a> {
    pub name: &'a [u8],
    pub next: u64,
    pub messages: u64,
    pub highest: u64,
    ghost short: { length name.now ≤ 64 },
}

impl Line for Status<'_> {
    ghost text = { λ s. render (status s.name.now (mail_items s.next s.messages s.highest)) };

    fn put(&self, w: &mut Writer<'_>) {
        put_status(w, self.name, self.next, self.messages, self.highest);
    }
}

// The same, where flags change.
pub fn put_flag_status(w: &mut Writer<'_>, name: &[u8], validity: u64, highest: u64)
    requires { (w.old.limit ≤ length w.old.queue.now) × (w.old.at ≤ 262144) × (length name.now ≤ 64) }
    ensures put { Writes w.old (render (status name.now (flag_items validity highest))) w.new }
    ensures upper_bound { w.new.at ≤ w.old.at + 216 }
{
    put_opening(w, name);
    put_counted(w, b"UIDVALIDITY ", validity);
    put_highest(w, highest);
}

// That STATUS as a line that is told whole.
#[derive(Clone, Copy)]
pub struct FlagStatus<'a> {
    pub name: &'a [u8],
    pub validity: u64,
    pub highest: u64,
    ghost short: { length name.now ≤ 64 },
}

impl Line for FlagStatus<'_> {
    ghost text = { λ s. render (status s.name.now (flag_items s.validity s.highest)) };

    fn put(&self, w: &mut Writer<'_>) {
        put_flag_status(w, self.name, self.validity, self.highest);
    }
}

// The STATUS that answers NOTIFY SET STATUS.
pub fn put_status_at_set(
    w: &mut Writer<'_>,
    name: &[u8],
    messages: u64,
    next: u64,
    validity: u64,
    highest: u64,
)
    requires { (w.old.limit ≤ length w.old.queue.now) × (w.old.at ≤ 262144) × (length name.now ≤ 64) }
    ensures put { Writes w.old (render (status name.now (set_items messages next validity highest))) w.new }
    ensures upper_bound { w.new.at ≤ w.old.at + 300 }
{
    put_opening(w, name);
    put_counted(w, b"MESSAGES ", messages);
    put_counted(w, b" UIDNEXT ", next);
    put_counted(w, b" UIDVALIDITY ", validity);
    put_highest(w, highest);
}
