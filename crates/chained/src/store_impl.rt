// The chained store's fields, what always holds of them, and the calls.
ghost use Rattle.std.specs.Prelude.{◌≡◌, ◌-◌, ◌≤◌, min, true, [], length, IfOk};
ghost use Rattle.fault.specs.Limits.{cells as cell_limit};
ghost use Rattle.store.specs.Sound.{sound_tables};
ghost use Rattle.directory.specs.Run.{extent, decode};
ghost use Rattle.chained.specs.Chains.{nexts, values, run, chains, chained, distinct, under};
ghost use Rattle.chained.specs.ChainedSound.{chained_sound};

use crate::links::{Link, after, free_chain, join, join_last};
use crate::rows::{search, write_row};
use directory::{Directory, Entry};
use fault::limits::{CELLS, COLUMNS};
use fault::{Fault, Rule};
use std::alloc::{AllocError, Global};
use store::{RowStore, refuse};

#[derive(Drop)]
pub struct Chained {
    capacity: u16,
    used: u16,
    free: u16,
    tables: Directory<Entry>,
    links: Vec<Link>,
    // what the store stands for is sound
    ghost sound: { sound_tables (decode tables.entries.items (run tables.entries.items (values links.items) (nexts links.items))) ≡ true },
    ghost full: { used ≡ extent tables.entries.items },
    ghost within: { used ≤ capacity },
    ghost small: { capacity ≤ cell_limit },
    ghost room: { length links.items ≡ capacity },
    // the chains of the tables and the free chain share no cell
    ghost apart: { distinct (chains (nexts links.items) tables.entries.items (capacity - used) free) ≡ true },
    // and stay within the cells
    ghost inside: { under capacity (chains (nexts links.items) tables.entries.items (capacity - used) free) ≡ true },
}

impl Chained {
    // A store without tables, over `size` cells or as many as a store may have. Nothing else allocates.
    pub fn new(heap: Global, size: usize) -> Result<Chained, AllocError>
        ensures { IfOk result (λ p. chained p.capacity p.tables.entries.items (values p.links.items) (nexts p.links.items) ≡ record { capacity = min size cell_limit; tables = [] }) }
    {
        let capacity = size.min(CELLS) as u16;
        let tables = Directory::new(heap)?;
        let links = free_chain(heap, capacity)?;
        Ok(Chained {
            capacity,
            used: 0,
            free: 0,
            tables,
            links,
        })
    }
}

impl RowStore for Chained {
    ghost meaning = { λ p. chained p.capacity p.tables.entries.items (values p.links.items) (nexts p.links.items) };

    ghost sound = { λ p. chained_sound p.capacity p.used p.tables.entries.items (values p.links.items) (nexts p.links.items) p.sound p.full p.within p.small p.tables.few };

    fn capacity(&self) -> u16 {
        self.capacity
    }

    fn cells_left(&self) -> u16 {
        self.capacity - self.used
    }

    fn table_count(&self) -> u16 {
        self.tables.table_count()
    }

    fn width(&self, table: u16) -> Result<u16, Fault> {
        Ok(self.tables.entry(table)?.width)
    }

    fn row_count(&self, table: u16) -> Result<u16, Fault> {
        Ok(self.tables.entry(table)?.count)
    }

    // Follows one link for each cell of the table before the one asked for.
    fn cell(&self, table: u16, row: u16, column: u16) -> Result<i64, Fault> {
        let entry = self.tables.entry(table)?;
        if row >= entry.count || column >= entry.width {
            return Err(refuse(Rule::NoSuchPlace));
        }
        let at = after(
            &self.links,
            entry.first,
            row as usize * entry.width as usize + column as usize,
        );
        Ok(self.links[at as usize].value)
    }

    // A table without rows has no first cell yet, and its count says so.
    fn open(&mut self, width: u16) -> Result<(), Fault> {
        let entry = Entry {
            first: 0,
            width,
            count: 0,
        };
        self.tables.open(width, entry)
    }

    fn add(&mut self, row: &[i64; COLUMNS]) -> Result<(), Fault> {
        let last = self.tables.last()?;
        let width = last.width as usize;
        let new = &row[..width];
        let Some(end) = search(&self.links, last.first, last.count as usize, new) else {
            return Ok(());
        };
        if last.width > self.capacity - self.used {
            return Err(refuse(Rule::NoCellsLeft));
        }
        // the table goes on in the free cells, and those after the row are free
        let first = join_last(
            self.links.as_mut_slice(),
            last.first,
            last.cells(),
            end,
            self.free,
        );
        self.free = write_row(self.links.as_mut_slice(), self.free, new);
        self.used += last.width;
        self.tables.replace_last(Entry {
            first,
            count: last.count + 1,
            ..last
        });
        Ok(())
    }

    fn drop_last(&mut self) -> Result<(), Fault> {
        let last = self.tables.pop()?;
        let gone = last.cells();
        self.free = join(self.links.as_mut_slice(), last.first, gone, self.free);
        self.used -= gone as u16;
        Ok(())
    }

    fn settle(&mut self, table: u16) -> Result<(), Fault> {
        let old = self.tables.settle(table)?;
        let gone = old.cells();
        self.free = join(self.links.as_mut_slice(), old.first, gone, self.free);
        self.used -= gone as u16;
        Ok(())
    }
}
