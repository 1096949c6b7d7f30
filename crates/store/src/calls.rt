// The calls of a store as values: what a list of them comes to, over any store, and what no list of them can bring about.
ghost use Rattle.std.specs.Prelude.{◌≡◌};
ghost use Rattle.store.specs.Calls.{after, after_all, answer};
ghost use Rattle.store.specs.Laws.{RefusedRightly, Lawful, StoreLaws};

use crate::row_store::RowStore;
use fault::Fault;
use fault::limits::COLUMNS;

#[derive(Clone, Copy)]
pub enum Call {
    Open(u16),
    Add([i64; COLUMNS]),
    Drop,
    Settle(u16),
    Capacity,
    CellsLeft,
    TableCount,
    Width(u16),
    RowCount(u16),
    Cell(u16, u16, u16),
}

// What an accepted call is answered by: one that changes the store by `Accepted`, a question by what it asks for.
#[derive(Clone, Copy, Debug, PartialEq, Eq)]
pub enum Answer {
    Accepted,
    Number(u16),
    Value(i64),
}

// The one match on which call to make: a call comes as data, since a caller may have read it from a text.
fn dispatch<S: RowStore>(store: &mut S, call: &Call) -> Result<Answer, Fault>
    ensures reply { result ≡ answer (S.RowStore.meaning store.old) call.now }
    ensures after { S.RowStore.meaning store.new ≡ after (S.RowStore.meaning store.old) call.now }
{
    match call {
        Call::Open(width) => store.open(*width).map(|()| Answer::Accepted),
        Call::Add(row) => store.add(row).map(|()| Answer::Accepted),
        Call::Drop => store.drop_last().map(|()| Answer::Accepted),
        Call::Settle(table) => store.settle(*table).map(|()| Answer::Accepted),
        Call::Capacity => Ok(Answer::Number(store.capacity())),
        Call::CellsLeft => Ok(Answer::Number(store.cells_left())),
        Call::TableCount => Ok(Answer::Number(store.table_count())),
        Call::Width(table) => store.width(*table).map(Answer::Number),
        Call::RowCount(table) => store.row_count(*table).map(Answer::Number),
        Call::Cell(table, row, column) => store.cell(*table, *row, *column).map(Answer::Value),
    }
}

// Makes one call. The answer and the store afterwards are those of the meaning; a refusal has one of its reasons and changes nothing.
pub fn perform<S: RowStore>(store: &mut S, call: &Call) -> Result<Answer, Fault>
    ensures reply { result ≡ answer (S.RowStore.meaning store.old) call.now }
    ensures after { S.RowStore.meaning store.new ≡ after (S.RowStore.meaning store.old) call.now }
    ensures refused { RefusedRightly (S.RowStore.meaning store.old) call.now result (S.RowStore.meaning store.new) }
{
    dispatch(store, call)
}

// Makes one call after the other. Whatever they are, the store is as lawful afterwards as before.
pub fn perform_all<S: RowStore>(store: &mut S, calls: &[Call])
    ensures after { S.RowStore.meaning store.new ≡ after_all (S.RowStore.meaning store.old) calls.now }
    ensures lawful { Lawful (S.RowStore.meaning store.old) (S.RowStore.meaning store.new) }
{
    for call in calls {
        let _ = perform(store, call);
    }
}

// The laws of the meaning itself, for callers that reason about a store without having one.
pub fn store_laws_stand()
    ensures { StoreLaws }
{}
