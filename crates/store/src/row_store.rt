// The row store, by its meaning. An implementation says which store it stands for (`meaning`), shows that this store is always
// sound, and meets one equation for each thing a caller can see: the reply, and the store afterwards.
// No call asks anything of its arguments: what is out of place is refused, and a refusal changes nothing.
ghost use Rattle.std.specs.Prelude.{◌≡◌};
ghost use Rattle.store.specs.Meaning.{Store, table_count, cells_left, width_reply, rows_reply, cell_reply};
ghost use Rattle.store.specs.Meaning.{open_reply, open_after, add_reply, add_after, drop_reply, drop_after, settle_reply, settle_after};
ghost use Rattle.store.specs.Sound.{Sound};

use fault::Fault;
use fault::limits::COLUMNS;

pub trait RowStore {
    ghost meaning: { Self → Store };

    // How many cells the store has in all. It never changes.
    fn capacity(&self) -> u16
        ensures { result ≡ (meaning self.now).capacity };

    // How many cells no row uses.
    fn cells_left(&self) -> u16
        ensures { result ≡ cells_left (meaning self.now) };

    fn table_count(&self) -> u16
        ensures { result ≡ table_count (meaning self.now) };

    fn width(&self, table: u16) -> Result<u16, Fault>
        ensures { result ≡ width_reply (meaning self.now) table };

    fn row_count(&self, table: u16) -> Result<u16, Fault>
        ensures { result ≡ rows_reply (meaning self.now) table };

    fn cell(&self, table: u16, row: u16, column: u16) -> Result<i64, Fault>
        ensures { result ≡ cell_reply (meaning self.now) table row column };

    // Appends an empty table.
    fn open(&mut self, width: u16) -> Result<(), Fault>
        ensures reply { result ≡ open_reply (meaning self.old) width }
        ensures after { meaning self.new ≡ open_after (meaning self.old) width };

    // Rows are as wide as rows can be, in fixed memory, as the rules ask: a shorter one would need its length beside it.
    // Puts a row, the first cells of `row`, at the end of the last table. A row that stands there already is accepted and changes nothing.
    fn add(&mut self, row: &[i64; COLUMNS]) -> Result<(), Fault>
        ensures reply { result ≡ add_reply (meaning self.old) row.now }
        ensures after { meaning self.new ≡ add_after (meaning self.old) row.now };

    // Takes the last table away.
    fn drop_last(&mut self) -> Result<(), Fault>
        ensures reply { result ≡ drop_reply (meaning self.old) }
        ensures after { meaning self.new ≡ drop_after (meaning self.old) };

    // Puts the last table in the place of an earlier one, which goes.
    fn settle(&mut self, table: u16) -> Result<(), Fault>
        ensures reply { result ≡ settle_reply (meaning self.old) table }
        ensures after { meaning self.new ≡ settle_after (meaning self.old) table };

    ghost sound: { (s : Self) → Sound (meaning s) };
}
