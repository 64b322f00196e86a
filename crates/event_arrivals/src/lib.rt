// `ME`: a message arrives. It is stored, and announced at once, or it waits, or its mailbox's STATUS is told.
#![tactic(auto)]

ghost use Rattle.std.specs.Prelude.{◌≡◌, cond, ◌+◌, ◌*◌, ◌-◌, ◌≤◌, length};
ghost use Rattle.model.specs.Memory.{messages_of, with_next, with_view, silenced};
ghost use Rattle.table_messages.specs.Words.{messages};
ghost use Rattle.line_message.specs.Whole.{news_text};
ghost use Rattle.event_message.specs.After.{Leaves, Announces};
ghost use Rattle.event_message.specs.Shown.{shows_of};
ghost use Rattle.event_message.specs.Receiving.{receive_after};

use event_message::{Arrived, Left, showing};
use line_message::News;
use line_put::Kept;
use model::{Mailbox, Session, Uid};

// The session where all that is new was announced, or the overflow line was written.
fn announced(s: &Session, next: u32, fits: bool) -> Session
    ensures { result ≡ cond fits (with_view s.now s.now.selected next) (silenced s.now) }
{
    if fits {
        Session { told: next, ..*s }
    } else {
        line_put::silence(*s)
    }
}

// All that is new in the selected mailbox is announced, or else the overflow line is written.
fn announce(words: &[u64], queue: &mut [u8], s: &Session, filled: usize, next: u32) -> Kept
    requires { (length (messages words.now) ≤ 1024) × (64 ≤ length queue.old) × (length queue.old ≤ 65536) × (filled ≤ length queue.old - 64) }
    ensures { Announces queue.old s.now filled next (news_text s.now.told (shows_of s.now) (messages_of s.now.selected (messages words.now))) queue.new result.session result.filled }
{
    let mut order = [0; 1024];
    let n = order_messages::by_uid(words, u64::from(s.selected), &mut order);
    let line = News {
        words,
        order: &order[..n],
        told: Uid(u64::from(s.told)),
        shows: showing::shows(s),
    };
    let said = line_put::say(queue, filled, &line);
    Kept {
        session: announced(s, next, said.fits),
        filled: said.end as u64,
    }
}

// `ME` of a message of mailbox x, with a UID above all that were used there. The row has the message's counter already.
pub fn receive(
    words: &mut [u64],
    used: usize,
    queue: &mut [u8],
    s: &Session,
    filled: usize,
    x: &Mailbox,
    uid: Uid,
    flags: u64,
    size: u64,
    counter: u64,
) -> Arrived
    requires { ((used + 1) * 6 ≤ length words.old) × (used + 1 ≤ 1024) × (64 ≤ length queue.old) × (length queue.old ≤ 65536) × (filled ≤ 65536) × ((s.now.groupcount ≡ 0 → ⊥) → filled ≤ length queue.old - 64) × (uid.0 ≤ 4294967294) }
    ensures { (result.row ≡ with_next x.now (uid.0 + 1)) × Leaves (receive_after (messages words.old) used queue.old s.now filled x.now uid.0 flags size counter) words.old words.new result.left.used queue.new result.left.kept.session result.left.kept.filled }
{
    let e = table_messages::fresh(u64::from(x.id), uid, flags, size, counter);
    table_messages::put(words, used, e);
    let used = used + 1;
    let mails = &words[..6 * used];
    let next = uid.0 as u32 + 1;
    let row = Mailbox {
        uidnext: next,
        ..*x
    };
    let chosen = event_message::is_chosen(s, x);
    if event_message::is_soon(s, x, chosen, 0) {
        let kept = announce(mails, queue, s, filled, next);
        return Arrived {
            row,
            left: Left { used, kept },
        };
    }
    let on = event_message::is_told(s, x, chosen, 0);
    let kept = event_message::tell_status(mails, queue, s, filled, on, &row);
    Arrived {
        row,
        left: Left { used, kept },
    }
}
