// Chains of cells: how they are made, followed and joined. A chain has no end mark; whoever follows it knows how long it is.
ghost use Rattle.std.specs.Prelude.{◌≡◌, ◌≤◌, ◌-◌, true, map, pos, length, IfOk};
ghost use Rattle.std.specs.List.{range_with_len};
ghost use Rattle.fault.specs.Limits.{cells as cell_limit};
ghost use Rattle.chained.specs.Chains.{nexts, values, walk, step, head_of, joined, Reaches};

use std::alloc::{AllocError, Global};

// A cell: what it holds, and the cell that its chain goes on with.
#[derive(Clone, Copy)]
pub struct Link {
    pub value: i64,
    pub next: u16,
}

// So many cells in a chain, each linked to the one after it.
pub(crate) fn free_chain(heap: Global, size: u16) -> Result<Vec<Link>, AllocError>
    requires { size ≤ cell_limit }
    ensures { IfOk result (λ v. v.items ≡ map (λ n. record { value = pos 0; next = n }) (range_with_len 1 size)) }
{
    (1..size + 1)
        .map(|next| Link { value: 0, next })
        .collect(heap)
}

// Where the chain from `from` on is after `count` links.
pub(crate) fn after(links: &[Link], from: u16, count: usize) -> u16
    requires { Reaches links.now count from }
    ensures { result ≡ step (nexts links.now) count from }
{
    let mut at = from;
    for _ in 0..count {
        at = links[at as usize].next;
    }
    at
}

// The chain of `size` cells from `first` on goes on at `next`. Says where the joined chain begins.
pub(crate) fn join(links: &mut [Link], first: u16, size: usize, next: u16) -> u16
    requires { Reaches links.old size first }
    ensures head { result ≡ head_of size first next }
    ensures nexts { nexts links.new ≡ joined (nexts links.old) size first next }
    ensures values { values links.new ≡ values links.old }
{
    let last = after(links, first, size.saturating_sub(1));
    join_last(links, first, size, last, next)
}

// The same, by whoever knows that the chain's last cell is `last`.
pub(crate) fn join_last(links: &mut [Link], first: u16, size: usize, last: u16, next: u16) -> u16
    requires inside { Reaches links.old size first }
    requires last { last ≡ step (nexts links.old) (size - 1) first }
    ensures head { result ≡ head_of size first next }
    ensures nexts { nexts links.new ≡ joined (nexts links.old) size first next }
    ensures values { values links.new ≡ values links.old }
{
    if size == 0 {
        return next;
    }
    links[last as usize].next = next;
    first
}
