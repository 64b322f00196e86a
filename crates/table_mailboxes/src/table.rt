// What is read and written of the rows by columns.
ghost use Rattle.std.specs.Prelude.{◌≡◌, List, ℕ, ◌≤◌, ◌<◌, eqb, length, take, IfSome, position};
ghost use Rattle.model.specs.Lists.{anyb, same};
ghost use Rattle.model.specs.declared.Mailbox.{Mailbox};
ghost use Rattle.table_mailboxes.specs.Columns.{Column, Names, name_at};
ghost use Rattle.table_mailboxes.specs.Rows.{holds, place_in};
ghost use Rattle.table_mailboxes.specs.Whole.{LaidIn, Blank, Put};

use crate::Columns;
use model::Mailbox;

// A count of rows within the 64 that there are.
fn few(used: u64) -> usize
    ensures { (result ≤ 64) × ((l : List Mailbox) → length l ≡ 64 → take result l ≡ take used l) }
{
    used.min(64) as usize
}

impl Columns {
    // No rows: zeros.
    pub fn empty() -> Columns
        ensures { Blank result }
    {
        Columns {
            n: 0,
            ids: [0; 64],
            attributes: [0; 64],
            lens: [0; 64],
            validities: [0; 64],
            nexts: [0; 64],
            counters: [0; 64],
            names: [0; 4096],
        }
    }

    // Row k becomes x.
    pub fn put(&mut self, k: usize, x: &Mailbox)
        requires { k < 64 }
        ensures { Put k x.now self.old self.new }
    {
        self.ids[k] = u64::from(x.id);
        self.attributes[k] = x.attributes;
        self.lens[k] = x.namelen;
        self.validities[k] = u64::from(x.uidvalidity);
        self.nexts[k] = u64::from(x.uidnext);
        self.counters[k] = crate::joined(x.counterlow, x.counterhigh);
        self.names[64 * k..64 * k + 64].copy_from_slice(&x.name);
    }

    // The used rows. The UIDNEXTs behind them are zero.
    pub fn lay(&mut self, rows: &[Mailbox; 64], used: u64)
        ensures { LaidIn (take used rows.now) self.new }
    {
        let n = few(used);
        self.n = n;
        self.nexts.fill(0);
        for (k, x) in rows[..n].iter().enumerate() {
            self.put(k, x);
        }
    }

    // The first row with the id.
    pub fn find(&self, id: u64) -> Option<usize>
        ensures column { (l : List Mailbox) → length l ≡ self.now.n → Column (λ (x : Mailbox). x.id) l self.now.ids → result ≡ place_in id l }
        ensures within { IfSome result (λ k. k < self.now.n) }
        ensures first { result ≡ position (λ (y : ℕ). eqb y id) (take self.now.n self.now.ids) }
    {
        self.ids[..self.n].iter().position(|x| *x == id)
    }

    // The name of row k.
    pub fn name(&self, k: usize) -> &[u8]
        requires { k < 64 }
        ensures { result.now ≡ name_at self.now.lens self.now.names k }
    {
        let from = 64 * k;
        let end = from + crate::clip(self.lens[k]);
        &self.names[from..end]
    }

    // Whether row k has the name.
    pub fn has_name(&self, k: usize, name: &[u8]) -> bool
        requires { k < 64 }
        ensures { result ≡ same (name_at self.now.lens self.now.names k) name.now }
    {
        self.name(k) == name
    }

    // Whether a mailbox with another id has the name.
    pub fn is_held(&self, id: u64, name: &[u8]) -> bool
        ensures { (l : List Mailbox) → length l ≡ self.now.n → Column (λ (x : Mailbox). x.id) l self.now.ids → Column (λ (x : Mailbox). x.namelen) l self.now.lens → Names l self.now.names → result ≡ anyb (holds id name.now) l }
    {
        for k in 0..self.n {
            if self.has_name(k, name) && self.ids[k] != id {
                return true;
            }
        }
        false
    }
}
