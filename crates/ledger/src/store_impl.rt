// The ledger's fields, what always holds of them, and the calls.
ghost use Rattle.std.specs.Prelude.{◌≡◌, ◌≤◌, min, true, [], length, IfOk, vec_capacity};
ghost use Rattle.fault.specs.Limits.{cells as cell_limit};
ghost use Rattle.store.specs.Meaning.{used as used_by};
ghost use Rattle.store.specs.Sound.{sound_tables};
ghost use Rattle.ledger.specs.Lines.{tables_of, written, below};
ghost use Rattle.ledger.specs.WrittenSound.{written_sound};

use crate::book::{count_rows, find_row, has_row, remove, renumber};
use crate::line::Line;
use directory::Directory;
use fault::limits::{CELLS, COLUMNS};
use fault::{Fault, Rule};
use std::alloc::{AllocError, Global};
use store::{RowStore, refuse};

#[derive(Drop)]
pub struct Ledger {
    capacity: u16,
    used: u16,
    widths: Directory<u16>,
    lines: Vec<Line>,
    // what the ledger stands for is sound
    ghost sound: { sound_tables (tables_of widths.entries.items lines.items) ≡ true },
    ghost counted: { used ≡ used_by (tables_of widths.entries.items lines.items) },
    ghost within: { used ≤ capacity },
    ghost small: { capacity ≤ cell_limit },
    // every line belongs to a table
    ghost owned: { below (length widths.entries.items) lines.items ≡ true },
    // what was reserved when the store was made suffices for ever
    ghost room: { capacity ≤ vec_capacity lines },
}

impl Ledger {
    // A store without tables, over `size` cells or as many as a store may have. Nothing else allocates.
    pub fn new(heap: Global, size: usize) -> Result<Ledger, AllocError>
        ensures { IfOk result (λ p. written p.capacity p.widths.entries.items p.lines.items ≡ record { capacity = min size cell_limit; tables = [] }) }
    {
        let capacity = size.min(CELLS);
        let widths = Directory::new(heap)?;
        let lines = Vec::with_capacity(heap, capacity)?;
        Ok(Ledger {
            capacity: capacity as u16,
            used: 0,
            widths,
            lines,
        })
    }
}

impl RowStore for Ledger {
    ghost meaning = { λ p. written p.capacity p.widths.entries.items p.lines.items };

    ghost sound = { λ p. written_sound p.capacity p.used p.widths.entries.items p.lines.items p.sound p.counted p.within p.small p.widths.few };

    fn capacity(&self) -> u16 {
        self.capacity
    }

    fn cells_left(&self) -> u16 {
        self.capacity - self.used
    }

    fn table_count(&self) -> u16 {
        self.widths.table_count()
    }

    fn width(&self, table: u16) -> Result<u16, Fault> {
        self.widths.entry(table)
    }

    fn row_count(&self, table: u16) -> Result<u16, Fault> {
        let _ = self.widths.entry(table)?;
        Ok(count_rows(&self.lines, table) as u16)
    }

    fn cell(&self, table: u16, row: u16, column: u16) -> Result<i64, Fault> {
        let width = self.widths.entry(table)?;
        let line = find_row(&self.lines, table, row as usize);
        let line = line.ok_or(refuse(Rule::NoSuchPlace))?;
        if column >= width {
            return Err(refuse(Rule::NoSuchPlace));
        }
        Ok(line.cells[column as usize])
    }

    fn open(&mut self, width: u16) -> Result<(), Fault> {
        self.widths.open(width, width)
    }

    fn add(&mut self, row: &[i64; COLUMNS]) -> Result<(), Fault> {
        let width = self.widths.last()?;
        let table = self.widths.table_count() - 1;
        if has_row(&self.lines, table, &row[..width as usize]) {
            return Ok(());
        }
        if width > self.capacity - self.used {
            return Err(refuse(Rule::NoCellsLeft));
        }
        self.lines.push_reserved(Line { table, cells: *row });
        self.used += width;
        Ok(())
    }

    fn drop_last(&mut self) -> Result<(), Fault> {
        let width = self.widths.pop()?;
        let table = self.widths.table_count();
        self.used -= count_rows(&self.lines, table) as u16 * width;
        remove(&mut self.lines, table);
        Ok(())
    }

    fn settle(&mut self, table: u16) -> Result<(), Fault> {
        let old = self.widths.settle(table)?;
        self.used -= count_rows(&self.lines, table) as u16 * old;
        remove(&mut self.lines, table);
        // the last table had the number that comes after those that are left
        let last = self.widths.table_count();
        renumber(self.lines.as_mut_slice(), last, table);
        Ok(())
    }
}
