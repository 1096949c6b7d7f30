// How long an add takes: each store is filled with rows of one column, and then given the same rows again.
// Prints how many adds were accepted; with an argument, also the nanoseconds of one add, of a new row and of a repeat.
#![tactic(auto)]

use chained::Chained;
use fault::limits::COLUMNS;
use ledger::Ledger;
use packed::Packed;
use std::time::Instant;
use std::{env, io};
use store::RowStore;

// The row of one column that holds this number; store_tests has the same lines, since no library would be plainer for them.
fn row_of(number: u16) -> [i64; COLUMNS] {
    let mut row = [0i64; COLUMNS];
    row[0] = number as i64;
    row
}

// Adds the rows 0, 1, 2 .. to the last table, and says how many were accepted.
fn fill<S: RowStore>(store: &mut S, rows: u16) -> usize {
    (0..rows)
        .filter(|number| store.add(&row_of(*number)).is_ok())
        .count()
}

fn measure<S: RowStore>(
    rt: &HostRuntime,
    name: &str,
    store: &mut S,
    timed: bool,
) -> io::Result<()> {
    let size = store.capacity();
    if size == 0 {
        return Ok(());
    }
    let _ = store.open(1);
    let start = Instant::now(rt)?;
    let new = fill(store, size);
    let new_time = start.elapsed(rt)?.as_nanos() / size as u128;
    let start = Instant::now(rt)?;
    let repeats = fill(store, size);
    let repeat_time = start.elapsed(rt)?.as_nanos() / size as u128;
    println!(rt; "{name} {size} cells: {new} new rows, {repeats} repeats")?;
    if timed {
        println!(rt; "    {new_time} ns a new row, {repeat_time} ns a repeat")?;
    }
    Ok(())
}

fn measure_all(rt: &HostRuntime, size: usize, timed: bool) -> io::Result<()> {
    let heap = rt.alloc();
    let mut packed = Packed::new(heap, size)?;
    measure(rt, "packed", &mut packed, timed)?;
    let mut chained = Chained::new(heap, size)?;
    measure(rt, "chained", &mut chained, timed)?;
    let mut ledger = Ledger::new(heap, size)?;
    measure(rt, "ledger", &mut ledger, timed)
}

fn main(rt: HostRuntime) -> io::Result<()> {
    let mut words = env::args(&rt)?;
    let _ = words.next();
    let timed = words.next().is_some();
    measure_all(&rt, 512, timed)?;
    measure_all(&rt, 4096, timed)
}
