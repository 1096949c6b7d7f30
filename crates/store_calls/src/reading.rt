// One line read as a call: a word and its numbers, with spaces between. Anything else is no call.
use fault::limits::COLUMNS;
use std::str::SplitWhitespace;
use store::Call;

pub fn read_call(line: &str) -> Option<Call> {
    let mut words = line.split_whitespace();
    let call = match words.next()? {
        "open" => Call::Open(read_number(&mut words)?),
        "add" => Call::Add(read_row(&mut words)?),
        "drop" => Call::Drop,
        "settle" => Call::Settle(read_number(&mut words)?),
        "capacity" => Call::Capacity,
        "left" => Call::CellsLeft,
        "tables" => Call::TableCount,
        "width" => Call::Width(read_number(&mut words)?),
        "rows" => Call::RowCount(read_number(&mut words)?),
        "cell" => {
            let table = read_number(&mut words)?;
            let row = read_number(&mut words)?;
            let column = read_number(&mut words)?;
            Call::Cell(table, row, column)
        }
        _ => return None,
    };
    match words.next() {
        None => Some(call),
        Some(_) => None,
    }
}

fn read_number(words: &mut SplitWhitespace<'_>) -> Option<u16> {
    words.next()?.parse::<u16>().ok()
}

// The cells of a row; those that are not given are 0. A word more than there are cells is left.
fn read_row(words: &mut SplitWhitespace<'_>) -> Option<[i64; COLUMNS]> {
    let mut row = [0i64; COLUMNS];
    for (cell, word) in row.iter_mut().zip(words) {
        *cell = word.parse::<i64>().ok()?;
    }
    Some(row)
}
