// Rows along a chain: comparing one, searching for one, writing one. The search is a function of its own: another one goes in here.
ghost use Rattle.std.specs.Prelude.{◌≡◌, ◌≤◌, ◌-◌, ◌*◌, true, length};
ghost use Rattle.store.specs.Meaning.{same_row, has};
ghost use Rattle.directory.specs.Run.{chunk};
ghost use Rattle.chained.specs.Chains.{nexts, values, walk, step, gather, put, searched, Reaches};

use crate::links::{Link, after};

// Whether the cells from `from` on are `row`.
fn same_row(links: &[Link], from: u16, row: &[i64]) -> bool
    requires { Reaches links.now (length row.now) from }
    ensures { result ≡ same_row (gather (values links.now) (walk (nexts links.now) (length row.now) from)) row.now }
{
    let mut at = from;
    for cell in row {
        let link = links[at as usize];
        if link.value != *cell {
            return false;
        }
        at = link.next;
    }
    true
}

// Searches the `count` rows that begin at `from`. None if one of them is `row`; else their last cell (`from` if there are none), so that joining follows the chain no second time.
pub(crate) fn search(links: &[Link], from: u16, count: usize, row: &[i64]) -> Option<u16>
    requires wide { 1 ≤ length row.now }
    requires inside { Reaches links.now (count * length row.now) from }
    ensures { result ≡ searched (has (chunk count (length row.now) (gather (values links.now) (walk (nexts links.now) (count * length row.now) from))) row.now) (step (nexts links.now) (count * length row.now - 1) from) }
{
    let mut last = from;
    let mut at = from;
    for _ in 0..count {
        if same_row(links, at, row) {
            return None;
        }
        last = after(links, at, row.len() - 1);
        at = links[last as usize].next;
    }
    Some(last)
}

// Writes `row` into the cells from `from` on, and says where the chain goes on.
pub(crate) fn write_row(links: &mut [Link], from: u16, row: &[i64]) -> u16
    requires { Reaches links.old (length row.now) from }
    ensures rest { result ≡ step (nexts links.old) (length row.now) from }
    ensures values { values links.new ≡ put (values links.old) (walk (nexts links.old) (length row.now) from) row.now }
    ensures nexts { nexts links.new ≡ nexts links.old }
{
    let mut at = from;
    for cell in row {
        let link = &mut links[at as usize];
        link.value = *cell;
        at = link.next;
    }
    at
}
