// Makes the store calls of the input over each of the stores in turn, and prints the replies of each. All stores reply alike.
#![tactic(auto)]

use chained::Chained;
use ledger::Ledger;
use packed::Packed;
use std::io;
use store::RowStore;
use store_calls::replies;

// The cells of each store of the example.
const SIZE: usize = 8;

fn show<S: RowStore>(rt: &HostRuntime, name: &str, store: &mut S, text: &str) -> io::Result<()> {
    let told = replies(rt.alloc(), store, text)?;
    let told = told.as_str();
    println!(rt; "{name}")?;
    print!(rt; "{told}")
}

fn main(rt: HostRuntime) -> io::Result<()> {
    let heap = rt.alloc();
    let mut text = String::new(heap);
    for line in rt.lines(heap) {
        text.push_str(line?.as_str())?;
        text.push('\n')?;
    }
    let mut packed = Packed::new(heap, SIZE)?;
    show(&rt, "packed", &mut packed, text.as_str())?;
    let mut chained = Chained::new(heap, SIZE)?;
    show(&rt, "chained", &mut chained, text.as_str())?;
    let mut ledger = Ledger::new(heap, SIZE)?;
    show(&rt, "ledger", &mut ledger, text.as_str())
}
