// The name of a row: valid and folded, exactly; and quickly, by its octets' neighbours.
ghost use Rattle.std.specs.Prelude.{◌≡◌, true, ◌+◌, ◌≤◌, ◌<◌, length};
ghost use Rattle.table_mailboxes.specs.Columns.{block};
ghost use Rattle.lawful_mailboxes.specs.Fields.{name_by};
ghost use Rattle.lawful_mailboxes.specs.Neighbours.{placed, misplaced, misplaced_up, Placed, Ended};

// The name of row k is valid and folded, and zeros stand behind it.
pub fn name_ok(names: &[u8; 4096], k: usize, len: u8) -> bool
    requires { (k < 64) × (len ≤ 64) }
    ensures { result ≡ name_by len (block names.now k) }
{
    names::is_kept(&names[64 * k..64 * k + 64], usize::from(len))
}

// ---- a name's octets by neighbours, without a branch: sixteen are tested at once

// a may stand before b: a zero before a zero, an octet of a name before any, but no slash before a slash.
fn is_placed(a: u8, b: u8) -> bool
    ensures { result ≡ placed a b }
{
    ((a == 0) & (b == 0)) | (!((a == b'/') & (b == b'/')) & ((0x20 <= a) & (a <= 0x7e)))
}

// One where a may not stand before b.
fn misplaced(a: u8, b: u8) -> u8
    ensures { (result ≡ misplaced a b) × (result ≤ 1) }
{
    u8::from(!is_placed(a, b))
}

// How many of the n octets from a place on are misplaced.
fn misplaced_from(octets: &[u8], at: usize, n: usize) -> u8
    requires { (n ≤ 255) × (at + n + 1 ≤ length octets.now) }
    ensures { result ≡ misplaced_up octets.now at n }
{
    let mut sum: u8 = 0;
    for i in 0..n {
        sum += misplaced(octets[at + i], octets[at + i + 1]);
    }
    sum
}

// The name of 1 to 63 octets begins and ends with an octet that is no slash, and a zero follows. It is not as long as INBOX.
fn ends_ok(octets: &[u8], from: usize, len: u8) -> bool
    requires { from + 64 ≤ length octets.now }
    ensures { result ≡ true → Ended octets.now from len }
{
    if len < 1 || 63 < len || len == 5 || octets[from] == b'/' {
        return false;
    }
    let end = from + usize::from(len);
    let last = octets[end - 1];
    last != 0 && last != b'/' && octets[end] == 0
}

// None of the row's first 48 octets is misplaced, and zeros follow: two words, instead of octet by octet.
fn short_seen(octets: &[u8], from: usize) -> bool
    requires { from + 64 ≤ length octets.now }
    ensures { result ≡ true → Placed octets.now from 63 }
{
    misplaced_from(octets, from, 48) == 0
        && (lawful_digests::word(octets, from + 48) == 0
            && lawful_digests::word(octets, from + 56) == 0)
}

// The name of row k is seen to be in order: none of the row's octets is misplaced. A no says nothing.
pub fn name_seen(names: &[u8; 4096], k: usize, len: u8) -> bool
    requires { k < 64 }
    ensures { result ≡ true → name_by len (block names.now k) ≡ true }
{
    let all = &names[..];
    let from = 64 * k;
    if !ends_ok(all, from, len) {
        return false;
    }
    if 47 < len {
        misplaced_from(all, from, 63) == 0
    } else {
        short_seen(all, from)
    }
}
