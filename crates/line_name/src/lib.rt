// A mailbox name without quotes where it may stand so. Nothing uses this yet: the lines of today quote every name.
#![tactic(auto)]

ghost use Rattle.std.specs.Prelude.{◌≡◌, ◌+◌, ◌*◌, ◌≤◌, length};
ghost use Rattle.line_put.specs.Writes.{Writes};
ghost use Rattle.line_name.specs.Bare.{bare, bare_text};

use line_put::Writer;
use octets::Class;

// Whether a name may stand without quotes.
fn is_bare(name: &[u8]) -> bool
    ensures { result ≡ bare name.now }
{
    octets::run_end(name, 0, Class::Atom) >= name.len() && !names::same_word(name, b"NIL")
}

// A mailbox name: as it is where it may be, else in quotes.
pub fn put_name(w: &mut Writer<'_>, name: &[u8])
    requires { (w.old.limit ≤ length w.old.queue.now) × (w.old.at ≤ 274877906944) × (length name.now ≤ 1048576) }
    ensures put { Writes w.old (bare_text name.now) w.new }
    ensures upper_bound { w.new.at ≤ w.old.at + 2 * length name.now + 2 }
{
    if is_bare(name) {
        w.put(name);
    } else {
        w.put_quoted(name);
    }
}
