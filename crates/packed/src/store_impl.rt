// The packed store's fields, what always holds of them, and the calls.
ghost use Rattle.std.specs.Prelude.{◌≡◌, ◌≤◌, min, true, [], length, IfOk, vec_capacity};
ghost use Rattle.fault.specs.Limits.{cells as cell_limit};
ghost use Rattle.store.specs.Sound.{sound_tables};
ghost use Rattle.directory.specs.Run.{laid, extent, decode};
ghost use Rattle.directory.specs.Starts.{starts};
ghost use Rattle.directory.proofs.Questions.{laid_sound};

use crate::moves::settle_cells;
use crate::searches::has_row;
use directory::{Directory, Entry};
use fault::limits::{CELLS, COLUMNS};
use fault::{Fault, Rule};
use std::alloc::{AllocError, Global};
use store::{RowStore, refuse};

#[derive(Drop)]
pub struct Packed {
    capacity: u16,
    tables: Directory<Entry>,
    cells: Vec<i64>,
    // what the store stands for is sound
    ghost sound: { sound_tables (decode tables.entries.items cells.items) ≡ true },
    // the run has the cells of the tables and no others
    ghost full: { extent tables.entries.items ≡ length cells.items },
    // each entry knows where its table begins
    ghost begun: { starts 0 tables.entries.items ≡ true },
    ghost within: { length cells.items ≤ capacity },
    ghost small: { capacity ≤ cell_limit },
    // what was reserved when the store was made suffices for ever
    ghost room: { capacity ≤ vec_capacity cells },
}

impl Packed {
    // A store without tables, over `size` cells or as many as a store may have. Nothing else allocates.
    pub fn new(heap: Global, size: usize) -> Result<Packed, AllocError>
        ensures { IfOk result (λ p. laid p.capacity p.tables.entries.items p.cells.items ≡ record { capacity = min size cell_limit; tables = [] }) }
    {
        let capacity = size.min(CELLS);
        let tables = Directory::new(heap)?;
        let cells = Vec::with_capacity(heap, capacity)?;
        Ok(Packed {
            capacity: capacity as u16,
            tables,
            cells,
        })
    }
}

impl RowStore for Packed {
    ghost meaning = { λ p. laid p.capacity p.tables.entries.items p.cells.items };

    ghost sound = { λ p. laid_sound p.capacity p.tables.entries.items p.cells.items (record { sound = p.sound; full = p.full; within = p.within; small = p.small; few = p.tables.few }) };

    fn capacity(&self) -> u16 {
        self.capacity
    }

    fn cells_left(&self) -> u16 {
        self.capacity - self.cells.len() as u16
    }

    fn table_count(&self) -> u16 {
        self.tables.table_count()
    }

    fn width(&self, table: u16) -> Result<u16, Fault> {
        Ok(self.tables.entry(table)?.width)
    }

    fn row_count(&self, table: u16) -> Result<u16, Fault> {
        Ok(self.tables.entry(table)?.count)
    }

    fn cell(&self, table: u16, row: u16, column: u16) -> Result<i64, Fault> {
        let entry = self.tables.entry(table)?;
        if row >= entry.count || column >= entry.width {
            return Err(refuse(Rule::NoSuchPlace));
        }
        Ok(self.cells[entry.first as usize + row as usize * entry.width as usize + column as usize])
    }

    fn open(&mut self, width: u16) -> Result<(), Fault> {
        let first = self.cells.len() as u16;
        let entry = Entry {
            first,
            width,
            count: 0,
        };
        self.tables.open(width, entry)
    }

    fn add(&mut self, row: &[i64; COLUMNS]) -> Result<(), Fault> {
        let last = self.tables.last()?;
        let width = last.width as usize;
        let new = &row[..width];
        if has_row(&self.cells, last.first as usize, last.count as usize, new) {
            return Ok(());
        }
        if width > self.capacity as usize - self.cells.len() {
            return Err(refuse(Rule::NoCellsLeft));
        }
        let _ = self.cells.extend_from_slice(new);
        self.tables.replace_last(Entry {
            count: last.count + 1,
            ..last
        });
        Ok(())
    }

    fn drop_last(&mut self) -> Result<(), Fault> {
        let last = self.tables.pop()?;
        self.cells.truncate(last.first as usize);
        Ok(())
    }

    fn settle(&mut self, table: u16) -> Result<(), Fault> {
        let last = self.tables.last()?;
        let old = self.tables.settle(table)?;
        let gone = old.cells();
        let kept = self.cells.len() - gone;
        // the last table's rows to where the old ones stood, the old ones to the end, and off
        settle_cells(
            self.cells.as_mut_slice(),
            old.first as usize,
            gone,
            last.cells(),
        );
        self.cells.truncate(kept);
        self.tables.restart();
        Ok(())
    }
}
