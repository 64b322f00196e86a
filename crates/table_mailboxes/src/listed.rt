// The row with a name that may be listed, by which a parent is told of.
ghost use Rattle.std.specs.Prelude.{◌≡◌, List, length};
ghost use Rattle.model.specs.Events.{listed_row};
ghost use Rattle.model.specs.declared.Mailbox.{Mailbox};
ghost use Rattle.table_mailboxes.specs.Columns.{Column, Names};

use crate::Columns;

impl Columns {
    // The attributes of the first row that may be listed and has the name; 1, selectable alone, where there is none.
    pub fn listed_bits(&self, name: &[u8]) -> u8
        ensures { (l : List Mailbox) → length l ≡ self.now.n → Column (λ (x : Mailbox). x.attributes) l self.now.attributes → Column (λ (x : Mailbox). x.namelen) l self.now.lens → Names l self.now.names → result ≡ (listed_row name.now l).attributes }
    {
        for k in 0..self.n {
            // the name first, since it tells most rows apart
            if self.has_name(k, name) && crate::has(self.attributes[k], 4) {
                return self.attributes[k];
            }
        }
        1
    }
}
