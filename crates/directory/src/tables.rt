// The tables in order: what is kept of each. Nothing but `new` allocates.
ghost use Rattle.std.specs.Prelude.{◌≡◌, ◌-◌, ◌<◌, ◌≤◌, [], length, slice_set, IfOk, vec_capacity};
ghost use Rattle.fault.specs.Limits.{cells as cell_limit, tables as table_limit};
ghost use Rattle.directory.specs.Run.{extent};
ghost use Rattle.directory.specs.Starts.{restarted};
ghost use Rattle.directory.specs.Tables.{Found, FoundLast, Opened, Popped, Settled};

use crate::entry::Entry;
use fault::limits::{COLUMNS, TABLES};
use fault::{Fault, Rule};
use std::alloc::{AllocError, Global};
use store::refuse;

#[derive(Drop)]
pub struct Directory<T> {
    entries: Vec<T>,
    ghost few: { length entries.items ≤ table_limit },
    // what was reserved when the directory was made suffices for ever
    ghost places: { table_limit ≤ vec_capacity entries },
}

impl<T: Copy> Directory<T> {
    // A directory without tables.
    pub fn new(heap: Global) -> Result<Directory<T>, AllocError>
        ensures { IfOk result (λ d. d.entries.items ≡ []) }
    {
        let entries = Vec::with_capacity(heap, TABLES)?;
        Ok(Directory { entries })
    }

    pub fn table_count(&self) -> u16
        ensures { result ≡ length self.now.entries.items }
    {
        self.entries.len() as u16
    }

    pub fn entry(&self, table: u16) -> Result<T, Fault>
        ensures { Found self.now.entries.items table result }
    {
        let entry = self.entries.get(table as usize).copied();
        entry.ok_or(refuse(Rule::NoSuchPlace))
    }

    pub fn last(&self) -> Result<T, Fault>
        ensures { FoundLast self.now.entries.items result }
    {
        let last = self.entries.last().copied();
        last.ok_or(refuse(Rule::NoSuchPlace))
    }

    // Keeps something else of the last table.
    pub fn replace_last(&mut self, entry: T)
        requires { 0 < length self.old.entries.items }
        ensures { self.new.entries.items ≡ slice_set self.old.entries.items (length self.old.entries.items - 1) entry }
    {
        let place = self.entries.len() - 1;
        self.entries[place] = entry;
    }

    // Appends a table of this width, of which `entry` is kept.
    pub fn open(&mut self, width: u16, entry: T) -> Result<(), Fault>
        ensures { Opened self.old.entries.items width entry result self.new.entries.items }
    {
        if self.entries.len() >= TABLES {
            return Err(refuse(Rule::TooManyTables));
        }
        let wide = width as usize;
        if wide < 1 || wide > COLUMNS {
            return Err(refuse(Rule::WidthOutside));
        }
        self.entries.push_reserved(entry);
        Ok(())
    }

    // Takes the last table away, and says what was kept of it.
    pub fn pop(&mut self) -> Result<T, Fault>
        ensures { Popped self.old.entries.items result self.new.entries.items }
    {
        self.entries.pop().ok_or(refuse(Rule::NoSuchPlace))
    }

    // Puts the last table in the place of an earlier one, and says what was kept of that.
    pub fn settle(&mut self, table: u16) -> Result<T, Fault>
        ensures { Settled self.old.entries.items table result self.new.entries.items }
    {
        let place = table as usize;
        if place + 1 >= self.entries.len() {
            return Err(refuse(Rule::NoSuchPlace));
        }
        Ok(self.entries.swap_remove(place))
    }
}

impl Directory<Entry> {
    // Sets where each table begins: one after the other, from the first cell on.
    pub fn restart(&mut self)
        requires { extent self.old.entries.items ≤ cell_limit }
        ensures { self.new.entries.items ≡ restarted 0 self.old.entries.items }
    {
        let mut at = 0;
        for entry in self.entries.iter_mut() {
            entry.first = at;
            at += entry.count * entry.width;
        }
    }
}
