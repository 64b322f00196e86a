// Refusal 1 over the session: its groups, the ranges of their names, and the names.
#![tactic(auto)]

ghost use Rattle.std.specs.Prelude.{◌≡◌, ◌&&◌, ◌||◌, cond, not, ◌+◌, ◌≤◌, ◌<◌, eqb, length, take, drop};
ghost use Rattle.model.specs.Lists.{allb};
ghost use Rattle.model.specs.Text.{bit};
ghost use Rattle.model.specs.Groups.{group_of};
ghost use Rattle.model.specs.Lawful.{zeros, range_ok, group_ok, groups_ok, lent_name_count, lent_name_ok, blank_group, blank_name, session_ok};
ghost use Rattle.lawful_session.specs.Tests.{selector_by, events_by, attributes_by, selectings};

use model::{Group, LentGroup, LentName, NameRange, Selector, Session};

// ---- a group as its enum

pub fn selector_of(k: u8, first: u8, count: u8) -> Selector
    ensures { result ≡ selector_by k first count }
{
    match k {
        0 => Selector::Selected,
        1 => Selector::Delayed,
        2 => Selector::Inboxes,
        3 => Selector::Personal,
        4 => Selector::Subscribed,
        5 => Selector::Subtree(NameRange { first, count }),
        _ => Selector::Mailboxes(NameRange { first, count }),
    }
}

pub fn group_of(g: LentGroup) -> Group
    ensures { result ≡ group_of g }
{
    Group {
        selector: selector_of(g.selector, g.first, g.count),
        events: g.events,
        attributes: g.attributes,
    }
}

// ---- a group's tests

// No mailbox event stands in a selected group.
fn events_fit(selecting: bool, e: u8) -> bool
    ensures { result ≡ (not selecting || (not (bit 3 e) && not (bit 4 e))) }
{
    !selecting || (!table_mailboxes::has(e, 3) && !table_mailboxes::has(e, 4))
}

// MessageNew and MessageExpunge stand together, and FlagChange only beside them.
fn events_ok(selecting: bool, e: u8) -> bool
    ensures { result ≡ events_by selecting e }
{
    let new = table_mailboxes::has(e, 0);
    let flags = table_mailboxes::has(e, 2);
    e <= 31 && (new == table_mailboxes::has(e, 1) && ((!flags || new) && events_fit(selecting, e)))
}

fn attributes_ok(selecting: bool, e: u8, a: u8) -> bool
    ensures { result ≡ attributes_by selecting e a }
{
    a <= 7 && (a == 0 || (selecting && table_mailboxes::has(e, 0)))
}

fn range_ok(first: u64, g: LentGroup) -> bool
    ensures { result ≡ range_ok first g }
{
    if g.selector < 5 {
        g.first == 0 && g.count == 0
    } else {
        u64::from(g.first) == first && 1 <= g.count
    }
}

fn group_ok(first: u64, g: LentGroup) -> bool
    ensures { result ≡ group_ok first g }
{
    let selecting = g.selector <= 1;
    g.selector <= 6
        && (range_ok(first, g)
            && (events_ok(selecting, g.events) && attributes_ok(selecting, g.events, g.attributes)))
}

fn blank_group(g: LentGroup) -> bool
    ensures { result ≡ blank_group g }
{
    g.selector == 0 && g.first == 0 && g.count == 0 && g.events == 0 && g.attributes == 0
}

// ---- the groups

// The names of each group begin where those of the groups before it end.
fn groups_ok(groups: &[LentGroup]) -> bool
    requires { length groups.now ≤ 8 }
    ensures { result ≡ groups_ok 0 groups.now }
{
    let mut first: u64 = 0;
    for g in groups {
        if !group_ok(first, *g) {
            return false;
        }
        first += u64::from(g.count);
    }
    true
}

// How many names the groups have.
pub fn name_count(groups: &[LentGroup]) -> u64
    requires { length groups.now ≤ 8 }
    ensures { result ≡ lent_name_count groups.now }
{
    groups.iter().map(|g| u64::from(g.count)).sum()
}

// How many of the groups are selected ones.
fn selected_count(groups: &[LentGroup]) -> usize
    ensures { result ≡ selectings groups.now }
{
    groups.iter().filter(|g| g.selector <= 1).count()
}

fn blank_groups(groups: &[LentGroup]) -> bool
    ensures { result ≡ allb blank_group groups.now }
{
    groups.iter().all(|g| blank_group(*g))
}

// ---- the names

// Nothing, or a valid name that is folded; zeros stand behind it.
fn lent_name_ok(x: &LentName) -> bool
    ensures { result ≡ lent_name_ok x.now }
{
    if 64 < x.len {
        return false;
    }
    let n = usize::from(x.len);
    if n == 0 {
        names::all_zero(&x.octets)
    } else {
        names::is_kept(&x.octets, n)
    }
}

// How many of 64 octets are not zero, without a branch: sixteen are seen at once.
fn filled(octets: &[u8]) -> u8
    requires { length octets.now ≡ 64 }
    ensures { eqb result 0 ≡ zeros octets.now }
{
    let mut sum: u8 = 0;
    for b in octets {
        sum += u8::from(*b != 0);
    }
    sum
}

fn blank_name(x: &LentName) -> bool
    ensures { result ≡ blank_name x.now }
{
    x.len == 0 && filled(&x.octets) == 0
}

// The names in use are in order, and those behind them are zero.
fn names_fit(used: &[LentName], rest: &[LentName]) -> bool
    ensures { result ≡ (allb lent_name_ok used.now && allb blank_name rest.now) }
{
    used.iter().all(|x| lent_name_ok(x)) && rest.iter().all(|x| blank_name(x))
}

// ---- all of it

// Groups and names that an accepted NOTIFY could have made, and nothing behind them.
pub fn session_ok(s: &Session) -> bool
    ensures { result ≡ session_ok s.now }
{
    if 1 < s.notified || 8 < s.groupcount || (s.groupcount != 0 && s.notified != 1) {
        return false;
    }
    let n = usize::from(s.groupcount);
    let groups = &s.groups[..n];
    if !groups_ok(groups) || 1 < selected_count(groups) {
        return false;
    }
    let many = name_count(groups);
    if 16 < many || !blank_groups(&s.groups[n..]) {
        return false;
    }
    names_fit(&s.names[..many as usize], &s.names[many as usize..])
}
