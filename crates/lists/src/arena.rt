// Reading nodes: one that is not there is empty, and a link leads onward within the arena or nowhere.
ghost use Rattle.std.specs.Prelude.{◌≡◌, ℕ, ◌<◌, length, Some};
ghost use Rattle.std.specs.Iterator.{YieldsFirst, item_count};
ghost use Rattle.tree.specs.Holds.{node_at};
ghost use Rattle.lists.specs.Links.{next_of};
ghost use Rattle.lists.specs.Walks.{walked, left};

use tree::Node;
use tree::nodes::EMPTY;

// The node of an entry.
pub fn node_at(nodes: &[Node], index: usize) -> Node
    ensures { result ≡ node_at nodes.now index }
{
    nodes.get(index).copied().unwrap_or(EMPTY)
}

// The element behind this one in its list.
pub fn next_of(nodes: &[Node], index: usize) -> Option<usize>
    ensures value { result ≡ next_of nodes.now index }
    ensures onward { (next : ℕ) → result ≡ Some next → (index < next) × (next < length nodes.now) }
{
    let next = usize::from(node_at(nodes, index).next?);
    if index < next && next < nodes.len() {
        Some(next)
    } else {
        None
    }
}

// The elements of a list, link by link. Arena and first entry are two parameters where a caller, who walks the tree, has them apart.
#[derive(Clone, Copy)]
pub struct Elements<'a> {
    nodes: &'a [Node],
    at: Option<usize>,
}

impl<'a> Elements<'a> {
    // Those from this entry on.
    pub fn of(nodes: &'a [Node], first: usize) -> Elements<'a>
        ensures { left result ≡ walked nodes.now (Some first) }
    {
        Elements {
            nodes,
            at: Some(first),
        }
    }
}

impl<'a> Iterator for Elements<'a> {
    type Item = Node;

    ghost next_gives = { YieldsFirst left };

    ghost remaining = { item_count left };

    fn next(&mut self) -> Option<Node> {
        let index = self.at?;
        self.at = next_of(self.nodes, index);
        Some(node_at(self.nodes, index))
    }
}
