// Node records.
ghost use Rattle.std.specs.Prelude.{◌≡◌, [], ◌∷◌, ◌+◌, ◌*◌, length};
ghost use Rattle.records.specs.Counters.{OneNode};
ghost use Rattle.records.specs.Nodes.{node_numbers};
ghost use Rattle.records.specs.Stores.{written, cleared};

use crate::counters::Counters;
use crate::spans::Span;
use crate::stores::write;

// In the place of a child that is not there (docs/FORMAT.md). A number, not an `Option`: `put_node` writes any.
pub const ABSENT: u16 = 65535;

// A node, as its ten numbers have it: the four last are the words of the value, the low word first. The kind is a number: any ten numbers may
// be given.
#[derive(Clone, Copy)]
pub struct Node {
    pub kind: u16,
    pub detail: u16,
    pub left: u16,
    pub right: u16,
    pub span: Span,
    pub value: u64,
}

// Writes the node record n, where it fits.
#[tactic(auto, unfolding(crate::specs::Nodes::words))]
pub fn put_node(nodes: &mut [u16], n: u16, x: Node)
    ensures { nodes.new ≡ written nodes.old (10 * n) (node_numbers x) }
{
    let [a, b, c, d, e, f, g, h] = x.value.to_le_bytes();
    let record = [
        x.kind,
        x.detail,
        x.left,
        x.right,
        x.span.start,
        x.span.end,
        u16::from_le_bytes([a, b]),
        u16::from_le_bytes([c, d]),
        u16::from_le_bytes([e, f]),
        u16::from_le_bytes([g, h]),
    ];
    write(nodes, 10 * usize::from(n), &record);
}

// Puts a node behind those that count, and counts it; at 65535 the count stays.
pub fn put_counted(nodes: &mut [u16], c: &mut Counters, x: Node)
    ensures put { nodes.new ≡ written nodes.old (10 * c.old.nodes) (node_numbers x) }
    ensures counted { OneNode c.old c.new }
{
    put_node(nodes, c.nodes, x);
    c.nodes = c.nodes.saturating_add(1);
}

// Gives the node record n another span.
pub fn widen(nodes: &mut [u16], n: u16, span: Span)
    ensures { nodes.new ≡ written nodes.old (10 * n + 4) (span.start ∷ span.end ∷ []) }
{
    let numbers = [span.start, span.end];
    write(nodes, 10 * usize::from(n) + 4, &numbers);
}

// Sets the numbers from a place up to another to 0, where the store has them. Not by `get_mut` of a range, of whose store the library tells
// nothing (tried); split twice it would be no plainer.
#[tactic(auto, using(crate::specs::Written::put_cleared, crate::specs::Written::cleared_stays))]
fn clear(nodes: &mut [u16], from: usize, end: usize)
    ensures { nodes.new ≡ cleared nodes.old from end }
{
    if from <= end && end <= nodes.len() {
        nodes[from..end].fill(0);
    }
}

// Sets the node records from the n-th up to the m-th to 0, where the store has them.
pub fn clear_nodes(nodes: &mut [u16], n: u16, m: u16)
    ensures { nodes.new ≡ cleared nodes.old (10 * n) (10 * m) }
{
    clear(nodes, 10 * usize::from(n), 10 * usize::from(m));
}

// Sets all that stands behind the first n node records to 0.
pub fn clear_behind(nodes: &mut [u16], n: u16)
    ensures { nodes.new ≡ cleared nodes.old (10 * n) (length nodes.old) }
{
    let end = nodes.len();
    clear(nodes, 10 * usize::from(n), end);
}
