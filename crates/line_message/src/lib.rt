// Lines about messages: EXISTS and EXPUNGE, a line alone; and with FETCH all lines of a part along the mailbox's entries by UID.
#![tactic(auto, using(line_put::specs::Writes::writes_nothing))]

mod parts;

ghost use Rattle.std.specs.Prelude.{◌+◌, ◌≤◌, length};
ghost use Rattle.line_put.specs.Writes.{Writes};
ghost use Rattle.table_messages.specs.Words.{messages};
ghost use Rattle.order_messages.specs.Chosen.{chosen};
ghost use Rattle.line_message.specs.Counts.{count_text, expunge_word, exists_text};
ghost use Rattle.line_message.specs.Whole.{owed_text, news_text};

use line_fetch::Shows;
use line_put::{Line, Writer};
use model::{MessageNumber, Uid};
use parts::put_part;

// ---- one line
// `* n` and a word.
pub fn put_count(w: &mut Writer<'_>, n: MessageNumber, word: &[u8])
    requires { (w.old.limit ≤ length w.old.queue.now) × (w.old.at ≤ 16777216) × (length word.now ≤ 16) }
    ensures put { Writes w.old (count_text n.0 word.now) w.new }
    ensures upper_bound { w.new.at ≤ w.old.at + 38 }
{
    w.put(b"* ");
    w.put_number(n.0);
    w.put(word);
}

// `* n EXPUNGE`
pub fn put_expunge(w: &mut Writer<'_>, n: MessageNumber)
    requires { (w.old.limit ≤ length w.old.queue.now) × (w.old.at ≤ 16777216) }
    ensures put { Writes w.old (count_text n.0 expunge_word) w.new }
    ensures upper_bound { w.new.at ≤ w.old.at + 38 }
{
    put_count(w, n, b" EXPUNGE\r\n");
}

// `* n EXISTS`, where some are new to the client.
pub fn put_exists(w: &mut Writer<'_>, has: u64, new: u64)
    requires { (w.old.limit ≤ length w.old.queue.now) × (w.old.at ≤ 16777216) × (has ≤ 1024) × (new ≤ 1024) }
    ensures put { Writes w.old (exists_text has new) w.new }
    ensures upper_bound { w.new.at ≤ w.old.at + 38 }
{
    if new != 0 {
        put_count(w, MessageNumber(has + new), b" EXISTS\r\n");
    }
}

// The EXPUNGE line as one that is told whole.
#[derive(Clone, Copy)]
pub struct Expunge {
    pub n: MessageNumber,
}

impl Line for Expunge {
    ghost text = { λ l. count_text l.n.0 expunge_word };

    fn put(&self, w: &mut Writer<'_>) {
        put_expunge(w, self.n);
    }
}

// ---- all lines of a part
// Which lines: EXPUNGE of what is expunged, FETCH of what is marked, FETCH of what is new.
#[derive(Clone, Copy)]
pub enum Part {
    Expunged,
    Marked,
    New(Shows),
}

// ---- all that is owed
// What a command of class 1 owes at its end: EXPUNGE, EXISTS, FETCH of the marks.
pub fn put_owed(w: &mut Writer<'_>, words: &[u64], order: &[usize], told: Uid)
    requires { (length order.now ≤ 1024) × (w.old.limit ≤ length w.old.queue.now) × (w.old.at ≤ 65536) }
    ensures put { Writes w.old (owed_text told.0 (chosen (messages words.now) order.now (length order.now))) w.new }
    ensures upper_bound { w.new.at ≤ w.old.at + 474000 }
{
    put_part(w, words, order, Part::Expunged, told, MessageNumber(1));
    let has = order_messages::staying(words, order, told, true);
    let new = order_messages::unseen(words, order, told);
    put_exists(w, has, new);
    put_part(w, words, order, Part::Marked, told, MessageNumber(1));
}

// What announces all that is new: EXISTS, and a FETCH of each where one is asked.
pub fn put_news(w: &mut Writer<'_>, words: &[u64], order: &[usize], told: Uid, shows: Shows)
    requires { (length order.now ≤ 1024) × (w.old.limit ≤ length w.old.queue.now) × (w.old.at ≤ 65536) }
    ensures put { Writes w.old (news_text told.0 shows (chosen (messages words.now) order.now (length order.now))) w.new }
    ensures upper_bound { w.new.at ≤ w.old.at + 237000 }
{
    let has = order_messages::staying(words, order, told, false);
    let new = order_messages::unseen(words, order, told);
    put_exists(w, has, new);
    if shows.any {
        put_part(
            w,
            words,
            order,
            Part::New(shows),
            told,
            MessageNumber(has + 1),
        );
    }
}

// All that is new as lines that are told whole.
#[derive(Clone, Copy)]
pub struct News<'a> {
    pub words: &'a [u64],
    pub order: &'a [usize],
    pub told: Uid,
    pub shows: Shows,
    ghost few: { length order.now ≤ 1024 },
}

impl Line for News<'_> {
    ghost text = { λ l. news_text l.told.0 l.shows (chosen (messages l.words.now) l.order.now (length l.order.now)) };

    fn put(&self, w: &mut Writer<'_>) {
        put_news(w, self.words, self.order, self.told, self.shows);
    }
}
