// `DL`: a mailbox is taken out. What is said of it goes by its rights and its name before.
ghost use Rattle.std.specs.Prelude.{length};
ghost use Rattle.line_put.specs.Heard.{Hears};
ghost use Rattle.laws.specs.Room.{Room};
ghost use Rattle.event_mailbox.specs.Deleting.{delete_heard};

use line_mailbox::Mark;
use line_put::Kept;
use model::{Mailbox, Session};

// What is said of row x before it goes, and of its parent, for which y stands: asked and allowed as a create is.
pub fn delete(
    queue: &mut [u8],
    s: &Session,
    filled: usize,
    x: &Mailbox,
    y: &Mailbox,
    quiet: u8,
) -> Kept
    requires { Room (length queue.old) filled s.now }
    ensures { Hears (delete_heard queue.old s.now filled y.now x.now quiet) queue.new result.session result.filled }
{
    crate::tell_change(queue, s, filled, Mark::NonExistent, x, y, quiet)
}
