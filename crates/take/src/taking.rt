// The whole of it: a text into a table.
ghost use Rattle.std.specs.Prelude.{◌≡◌, ◌≤◌, length};
ghost use Rattle.fault.specs.Limits.{text_bytes};
ghost use Rattle.pool.specs.Learning.{nothing_learned};
ghost use Rattle.take.specs.Taking.{ready, of_supply, learned_reply, take_reply, take_after};
ghost use Rattle.take.specs.Supplies.{text_of, columns_of, width_of, known_of, TakesRows};

use crate::supply::Supply;
use fault::limits::{TABLES, TEXT_BYTES};
use fault::{Fault, Place, Rule};
use listing::Reader;
use listing::whole::too_long;
use pool::Fresh;
use store::RowStore;

// A refusal that speaks of the whole text.
fn of_supply(rule: Rule) -> Fault
    ensures { result ≡ of_supply rule }
{
    Place { line: 1, byte: 0 }.fault(rule)
}

impl<'a> Supply<'a> {
    // Whether the store has this table, as wide as the schema, which has a column at least, and a place for one table more.
    fn is_ready<S: RowStore>(self, store: &S, table: u16) -> bool
        ensures { result ≡ ready (S.RowStore.meaning store.now) table (width_of self.entry) }
    {
        match store.width(table) {
            Ok(width) => width as usize == self.schema.width()
                && self.schema.width() > 0
                && (store.table_count() as usize) < TABLES,
            Err(_) => false,
        }
    }

    // The rows of a right text: in the place of the table's old rows if there are cells for them beside the old ones, else nothing changes.
    fn take_rows<S: RowStore>(self, fresh: &Fresh, store: &mut S, table: u16) -> Result<(), Fault>
        requires { length (text_of self) ≤ text_bytes }
        ensures { TakesRows self.entry fresh.now table (S.RowStore.meaning store.old) (S.RowStore.meaning store.new) result }
    {
        store.open(self.schema.width() as u16)?;
        let mut reader = Reader::new(self.source.text);
        reader.heading(self.schema, self.script)?;
        if self.fill_rows(&mut reader, fresh, store).is_ok() {
            return store.settle(table);
        }
        store.drop_last()?;
        Err(of_supply(Rule::TooManyRows))
    }
}

// The strings that were read before a text: how many, and their bytes together. No `Room`, which is what is left.
#[derive(Clone, Copy)]
pub struct Used {
    pub strings: usize,
    pub bytes: usize,
}

// Takes a text into a table of the store: its rows, each different one once, in the place of the old ones.
// The strings that it brings are handed back, as parts of the text, to be kept; a refused text changes nothing.
// Refusals in this order: the text is too long; the store has no such table or no place for one more; the text is not right;
// it brings too many strings; its different rows need more cells than are left beside the old ones.
pub fn take_table<S: RowStore>(
    supply: Supply<'_>,
    used: Used,
    store: &mut S,
    table: u16,
) -> Result<Fresh, Fault>
    ensures reply { learned_reply (text_of supply.entry) result ≡ take_reply (columns_of supply.entry) (text_of supply.entry) (known_of supply.entry) (nothing_learned used.strings used.bytes) table (width_of supply.entry) (S.RowStore.meaning store.old) }
    ensures after { S.RowStore.meaning store.new ≡ take_after (columns_of supply.entry) (text_of supply.entry) (known_of supply.entry) (nothing_learned used.strings used.bytes) table (width_of supply.entry) (S.RowStore.meaning store.old) }
{
    if supply.source.text.len() > TEXT_BYTES {
        return Err(too_long());
    }
    if !supply.is_ready(store, table) {
        return Err(Place::NOWHERE.fault(Rule::Disorder));
    }
    let mut fresh = Fresh::new(used.strings, used.bytes);
    supply.learn_text(&mut fresh)?;
    if fresh.is_over() {
        return Err(of_supply(Rule::TooManyStrings));
    }
    supply.take_rows(&fresh, store, table)?;
    Ok(fresh)
}
