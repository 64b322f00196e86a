// One message against the keys of an ESEARCH, as the reader laid them into cells. A key is the cells from `at` up to `stop`.
#![tactic(auto)]

ghost use Rattle.std.specs.Prelude.{◌≡◌, not, ◌+◌, ◌-◌, ◌≤◌, ◌<◌, length, take, drop, get_or};
ghost use Rattle.model.specs.Text.{bit};
ghost use Rattle.match_keys.specs.Tests.{facts_of, bound_by, part_holds, set_by, Counted, counted_width, LastNest, Behind, Answers, TestsSet, TestsKeysOn, TestsAll};

use model::{Message, MessageNumber, Uid};
use read_tests::kinds;

// A message, its number, and the last number and UID, which `*` stands for.
#[derive(Clone, Copy)]
pub struct Probe {
    pub message: Message,
    pub number: MessageNumber,
    pub lastnumber: MessageNumber,
    pub lastuid: Uid,
}

// What keys ask of it: a probe without what no key asks, so that little is handed on from key to key.
#[derive(Clone, Copy)]
pub struct Facts {
    pub flags: u64,
    pub size: u64,
    pub uid: Uid,
    pub lastuid: Uid,
    pub number: MessageNumber,
    pub lastnumber: MessageNumber,
}

// What the key at a cell comes to: whether it holds, and the cell behind it.
#[derive(Clone, Copy)]
struct Outcome {
    holds: bool,
    after: usize,
}

// A cell, 0 behind the last.
fn cell(cells: &[u64], i: usize) -> u64
    ensures { result ≡ get_or cells.now i 0 }
{
    cells.get(i).copied().unwrap_or(0)
}

// What keys ask of a probe.
fn facts_of(p: Probe) -> Facts
    ensures { result ≡ facts_of p }
{
    Facts {
        flags: p.message.flags,
        size: p.message.size,
        uid: p.message.uid,
        lastuid: p.lastuid,
        number: p.number,
        lastnumber: p.lastnumber,
    }
}

// ---- sets

fn bound(last: u64, x: u64) -> u64
    ensures { result ≡ bound_by last x }
{
    if x == 0 { last } else { x }
}

// The bounds of a part stand in either order.
// Kept: by the smaller and the greater bound a long set takes twice as long.
fn in_part(from: u64, upto: u64, last: u64, n: u64) -> bool
    ensures { result ≡ part_holds from upto last n }
{
    let a = bound(last, from);
    let b = bound(last, upto);
    if a < n {
        n <= b
    } else if n < a {
        b <= n
    } else {
        true
    }
}

// A number is of the set whose parts are the cells from `at` up to `stop`, two each.
// Kept: by places. A slice of the parts begins where the key's width lets it, and waits for that: sets take a fifth longer, by a slice pattern half as long again.
fn in_set(cells: &[u64], at: usize, stop: usize, last: u64, n: u64) -> bool
    requires { stop ≤ length cells.now }
    ensures { result ≡ set_by last n (take (stop - at) (drop at cells.now)) }
{
    for i in 0..stop.saturating_sub(at) / 2 {
        if in_part(cells[at + 2 * i], cells[at + 2 * i + 1], last, n) {
            return true;
        }
    }
    false
}

// ---- how long a key is

// How many cells a key has whose second cell counts what it holds, of those that are left: parts of a set, two cells each, or cells of keys.
fn width(kind: u64, x: u64, left: u64) -> u64
    requires { (1 ≤ left) × (left ≤ 1152921504606846976) }
    ensures { (result ≡ counted_width kind x left) × (1 ≤ result) }
{
    if left <= x {
        left
    } else if kind < kinds::UNSUPPORTED {
        2 + 2 * x
    } else {
        2 + x
    }
}

// The cell behind such a key.
fn behind(cells: &[u64], at: usize, stop: usize) -> usize
    requires { ((at < stop) × (stop ≤ 1152921504606846976)) × Counted (get_or cells.now at 0) }
    ensures { Behind cells.now at stop result }
{
    let kind = cell(cells, at);
    let x = cell(cells, at + 1);
    let left = (stop - at) as u64;
    let w = width(kind, x, left);
    if left <= w {
        return stop;
    }
    at + w as usize
}

// ---- tests

fn bit_of(k: u64, n: u64) -> bool
    ensures { result ≡ bit k n }
{
    k < 64 && (n >> k) % 2 == 1
}

// The set at `at`, for a number and what `*` stands for.
fn set_at(cells: &[u64], at: usize, stop: usize, last: u64, n: u64) -> Outcome
    requires { ((at < stop) × (stop ≤ length cells.now)) × Counted (get_or cells.now at 0) }
    ensures { (Behind cells.now at stop result.after) × (TestsSet cells.now (at + 2) result.after last n result.holds) }
{
    let after = behind(cells, at, stop);
    let holds = in_set(cells, at + 2, after, last, n);
    Outcome { holds, after }
}

// The key at `at`, if it holds no keys.
// Kept: sets are asked for first. One `match` of all kinds becomes a table of jumps, by which a few short sets take an eighth longer.
fn test_at(cells: &[u64], at: usize, stop: usize, facts: Facts) -> Outcome
    requires { ((at < stop) × (stop ≤ length cells.now)) × (get_or cells.now at 0 < 8) }
    ensures { Answers cells.now at stop facts result }
{
    let kind = cell(cells, at);
    if kind == kinds::UIDS {
        return set_at(cells, at, stop, facts.lastuid.0, facts.uid.0);
    }
    if kind == kinds::NUMBERS {
        return set_at(cells, at, stop, facts.lastnumber.0, facts.number.0);
    }
    let x = cell(cells, at + 1);
    match kind {
        kinds::FLAG => {
            let on = cell(cells, at + 2) == 1;
            Outcome {
                holds: on == bit_of(x, facts.flags),
                after: at + 3,
            }
        }
        kinds::LARGER => Outcome {
            holds: x < facts.size,
            after: at + 2,
        },
        kinds::SMALLER => Outcome {
            holds: facts.size < x,
            after: at + 2,
        },
        _ => Outcome {
            holds: kind == kinds::ALL,
            after: at + 1,
        },
    }
}

// ---- keys

// The key at `at` holds keys, and is the last. It promises only its yes.
fn last_nest(cells: &[u64], at: usize, stop: usize) -> bool
    requires { (at < stop) × (stop ≤ length cells.now) }
    ensures { LastNest cells.now at stop result }
{
    kinds::NOT <= cell(cells, at) && behind(cells, at, stop) == stop
}

// The key at `at`; `not`, `or` and lists hold keys.
#[cycle(key_at_keys_hold)]
fn key_at(cells: &[u64], at: usize, stop: usize, facts: Facts) -> Outcome
    requires { (at < stop) × (stop ≤ length cells.now) }
    ensures { Answers cells.now at stop facts result }
{
    let kind = cell(cells, at);
    if kind < kinds::NOT {
        return test_at(cells, at, stop, facts);
    }
    let after = behind(cells, at, stop);
    let r = keys_hold(cells, at + 2, after, kind == kinds::OR, facts);
    let holds = (kind != kinds::NOT) == r;
    Outcome { holds, after }
}

// Any, or all, of the keys from `at` up to `stop` hold: the first key that decides ends it. A last key that holds keys decides alone, so it
// takes no call: its keys are gone on with. Under a NOT the answer is the other one, and `on` is false.
#[cycle(key_at_keys_hold)]
fn keys_hold(cells: &[u64], at: usize, stop: usize, any: bool, facts: Facts) -> bool
    requires { stop ≤ length cells.now }
    ensures { TestsKeysOn cells.now at stop any facts result }
{
    let mut i = at;
    let mut some = any;
    let mut on = true;
    // Kept: a step is as long as a key, and a last key that holds keys goes on here without a call, for speed.
    while i < stop {
        if last_nest(cells, i, stop) {
            let kind = cell(cells, i);
            on = (kind != kinds::NOT) == on;
            some = kind == kinds::OR;
            i += 2;
        } else {
            let k = key_at(cells, i, stop, facts);
            if some == k.holds {
                return on == some;
            }
            i = k.after;
        }
    }
    on != some
}

// All the keys in these cells hold.
pub fn all_hold(cells: &[u64], p: Probe) -> bool
    ensures { TestsAll cells.now p result }
{
    keys_hold(cells, 0, cells.len(), false, facts_of(p))
}
