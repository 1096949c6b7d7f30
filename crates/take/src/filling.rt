// The second passage over a text that is right: its rows into the store's last table.
ghost use Rattle.std.specs.Prelude.{◌≡◌};
ghost use Rattle.listing.specs.Seen.{rest};
ghost use Rattle.take.specs.Supplies.{text_of, FillsRows};

use crate::supply::Supply;
use fault::Fault;
use listing::Reader;
use pool::Fresh;
use store::RowStore;

impl<'a> Supply<'a> {
    // Adds the rows one by one, up to one that the store refuses.
    pub(crate) fn fill_rows<S: RowStore>(
        self,
        reader: &mut Reader<'_>,
        fresh: &Fresh,
        store: &mut S,
    ) -> Result<(), Fault>
        requires { text_of self ≡ reader.old.text.now }
        ensures { FillsRows self.entry fresh.now (rest reader.old) (S.RowStore.meaning store.old) (S.RowStore.meaning store.new) result }
    {
        while reader.at_row() {
            let cells = reader.row(self.schema)?;
            store.add(&fresh.row_of(self.source, &cells))?;
        }
        Ok(())
    }
}
