// Node records: ten numbers within, fourteen or eighteen bytes in the lent store.
ghost use Rattle.std.specs.Prelude.{◌≡◌, ◌++◌, ◌+◌, ◌≤◌, length};
ghost use Rattle.records.specs.Stores.{written};
ghost use Rattle.operand.specs.Layouts.{node_size};
ghost use Rattle.operand.specs.Layout.{four_words, node_from};
ghost use Rattle.operand.specs.declared.layouts.Layout.TheVariants as layouts;
ghost use Rattle.layout.specs.Nodes.{head_from, last_from, nodes_encoded};

use crate::numbers::{low, two_words};
use crate::store::clear;
use operand::Layout;
use records::{NodeKind, write};

// The kind of a node that has a value.
const NUMBER: u16 = NodeKind::Number as u16;

// Four numbers of two bytes, low byte first.
#[tactic(auto, unfolding(records::specs::Nodes::low_first))]
fn four_words(a: u16, b: u16, c: u16, d: u16) -> [u8; 8]
    ensures { result ≡ four_words a b c d }
{
    let [a0, a1, b0, b1] = two_words(a, b);
    let [c0, c1, d0, d1] = two_words(c, d);
    [a0, a1, b0, b1, c0, c1, d0, d1]
}

// The last eight bytes of a record.
#[tactic(auto, unfolding(operand::specs::Layout::last_eight))]
fn last_eight(layout: Layout, numbers: &[u16; 10]) -> [u8; 8]
    ensures { result ≡ last_from layout numbers.now 0 }
{
    let &[kind, .., a, b, c, d] = numbers;
    match layout {
        Layout::Narrow if kind != NUMBER => [low(a), low(b), low(c), low(d), 0, 0, 0, 0],
        _ => four_words(a, b, c, d),
    }
}

// Writes two parts of a record, one behind the other.
#[tactic(auto, using(records::specs::Written::written_on))]
fn write_parts(nodes: &mut [u8], at: usize, head: &[u8], rest: &[u8])
    requires { at + length head.now + length rest.now ≤ length nodes.old }
    ensures { nodes.new ≡ written nodes.old at (head.now ++ rest.now) }
{
    write(nodes, at, head);
    write(nodes, at + head.len(), rest);
}

// The bytes before the last eight in the narrow layout: kind, detail, the children's numbers, the span. Each layout by itself,
// as in diagnostics.rt.
#[tactic(auto, unfolding(records::specs::Nodes::low_first, operand::specs::Layouts::number))]
fn narrow_head(numbers: &[u16; 10]) -> [u8; 6]
    ensures { result ≡ head_from layouts.Narrow numbers.now 0 }
{
    let &[kind, detail, left, right, start, end, ..] = numbers;
    [kind, detail, left, right, start, end].map(low)
}

// The same in the wide one.
#[tactic(auto, unfolding(records::specs::Nodes::low_first, operand::specs::Layouts::number))]
fn wide_head(numbers: &[u16; 10]) -> [u8; 10]
    ensures { result ≡ head_from layouts.Wide numbers.now 0 }
{
    let &[kind, detail, left, right, start, end, ..] = numbers;
    let [l0, l1, r0, r1, s0, s1, e0, e1] = four_words(left, right, start, end);
    [low(kind), low(detail), l0, l1, r0, r1, s0, s1, e0, e1]
}

// Writes a record into the store at `at`.
#[tactic(auto, using(crate::proofs::store::Encoding::node_parts))]
fn encode_node(layout: Layout, numbers: &[u16; 10], nodes: &mut [u8], at: usize)
    requires { at + node_size layout ≤ length nodes.old }
    ensures { nodes.new ≡ written nodes.old at (node_from layout numbers.now 0) }
{
    let rest = last_eight(layout, numbers);
    match layout {
        Layout::Narrow => write_parts(nodes, at, &narrow_head(numbers), &rest),
        Layout::Wide => write_parts(nodes, at, &wide_head(numbers), &rest),
    }
}

// Writes the first n records into the node store, and zeros behind them. All of it is cleared first: from its beginning on that is faster.
#[tactic(auto, using(records::specs::Written::written_nothing, crate::proofs::store::Encoding::nodes_many, crate::proofs::store::Encoding::nodes_missing, crate::proofs::store::Encoding::nodes_short), unfolding(operand::specs::Layout::records_laid, operand::specs::Layout::node_bytes))]
pub fn encode_nodes(layout: Layout, numbers: &[u16], n: usize, nodes: &mut [u8])
    ensures { nodes.new ≡ nodes_encoded layout numbers.now n nodes.old }
{
    let store = layout.node_store();
    let Some(records) = numbers.as_chunks::<10>().0.get(..n) else {
        return;
    };
    if layout.most_tokens() < n || nodes.len() < store {
        return;
    }
    clear(&mut nodes[..store]);
    // The place is computed, here and in diagnostics.rt: of a store that is lent in chunks the library says nothing afterwards.
    let size = layout.node_size();
    for (i, record) in records.iter().enumerate() {
        encode_node(layout, record, nodes, size * i);
    }
}
