// The records about mailboxes, `MB DL RN SB RT`: which of them are refused and why, and what the others come to. This file has what they
// share: whether another mailbox has a name, and a row that is put at its place.
#![tactic(auto)]

pub mod creating;
pub mod deleting;
pub mod renaming;
pub mod rights;
pub mod subscriptions;

ghost use Rattle.std.specs.Prelude.{◌≡◌, true, List, length};
ghost use Rattle.model.specs.Lists.{anyb};
ghost use Rattle.model.specs.Names.{valid, fold};
ghost use Rattle.model.specs.declared.Mailbox.{Mailbox};
ghost use Rattle.table_mailboxes.specs.Columns.{Column, Names};
ghost use Rattle.table_mailboxes.specs.Rows.{holds};
ghost use Rattle.record_outcome.specs.Coming.{putting};

use event_mailbox::Changed;
use model::Counts;
use record_outcome::Outcome;
use table_mailboxes::{Columns, row};

// ---- refusal 4
// Whether a mailbox with another id has the name; INBOX in any case is INBOX.
fn is_taken(cols: &Columns, id: u64, name: &[u8]) -> bool
    ensures { (l : List Mailbox) → length l ≡ cols.now.n → Column (λ (x : Mailbox). x.id) l cols.now.ids → Column (λ (x : Mailbox). x.namelen) l cols.now.lens → Names l cols.now.names → valid name.now ≡ true → result ≡ anyb (holds id (fold name.now)) l }
{
    cols.is_held(id, row::kept_name(&names::stored(name)))
}

// ---- a row that is put
// A row is put at a place, and n rows are used.
fn put(at: usize, n: u64, counts: Counts, done: Changed) -> Outcome
    ensures { result ≡ putting at done.row (record { mailboxes = n; messages = counts.messages; filled = done.filled }) done.session }
{
    Outcome::put(
        at,
        done.row,
        Counts {
            mailboxes: n,
            filled: done.filled,
            ..counts
        },
        done.session,
    )
}
