// Register lists: each item is a node, and its registers are bits of the mask.
ghost use Rattle.std.specs.Prelude.{◌≡◌, ◌+◌, ◌-◌, ◌<◌};
ghost use Rattle.records.specs.Rooms.{Room};
ghost use Rattle.names.specs.Tokens.{token_at};
ghost use Rattle.records.specs.Diagnostics.{register_expected_in_register_list};
ghost use Rattle.records.specs.Problems;
ghost use Rattle.records.specs.Spans.{span_or};
ghost use Rattle.records.specs.declared.node_kinds.NodeKind.{NodeKind};
ghost use Rattle.records.specs.Stores.{PutAsks};
ghost use Rattle.expressions_code.specs.Terms.{NodeTold};
ghost use Rattle.operand.specs.Operand.{parse_register_list};
ghost use Rattle.operand.specs.Mask.{bits_from};
ghost use Rattle.operand_code.specs.Told.{RaisedBy};
ghost use Rattle.operand_code.specs.Operands.{OperandBy};
ghost use Rattle.operand_code.specs.Lookahead.{NextBy, register_at};
ghost use Rattle.operand_code.specs.Lists.{RegisterBy, RangedBy, ItemBy, item_bytes, list_record, ListAsks};

use crate::lookahead::register_at;
use crate::steps::plain_operand;
use expressions::Source;
use names::kinds;
use operand::{BaseRegister, Form, OperandRecord, Register, Sized};
use records::{
    Counters, Diagnostic, DiagnosticKind, Node, NodeKind, Problem, Progress, Span, plain,
    put_counted,
};

// A register or a range, as its node has it: the kind is `Single` or `Range`. No enum of the two, since its node and its bits, which are all that
// read it, would take it apart into these fields again.
#[derive(Clone, Copy)]
pub struct Item {
    pub kind: NodeKind,
    pub from: Register,
    pub to: Register,
    pub span: Span,
}

// Where a list ends: the counters, with the cursor and the end of its last token, and the mask of its items.
#[derive(Clone, Copy)]
pub struct ListEnd {
    pub counters: Counters,
    pub mask: u16,
}

// A register was expected behind this sign: at what stands there instead, or at the end.
fn register_expected(source: &Source, out: &mut Progress, sign: Problem)
    requires { out.old.counters.diagnostics < 65535 }
    ensures lent { out.new.diagnostics.ghost_name ≡ out.old.diagnostics.ghost_name }
    ensures told { RaisedBy out.old out.new (register_expected_in_register_list (Problems.number sign) (span_or (token_at source.now.tokens.now out.old.counters.at) out.old.counters.end)) }
{
    let kind = DiagnosticKind::RegisterExpectedInRegisterList;
    let span = source.span_at(&out.counters);
    out.raise(Diagnostic {
        problem: u16::from(sign),
        ..plain(kind, span, Span::default())
    });
}

// The register at the cursor, stepped over.
fn next_register(source: &Source, c: &mut Counters) -> Option<Register>
    requires { Room source.now.tokens.now c.old 0 1 }
    ensures { NextBy register_at source.now.line.now source.now.tokens.now c.old result c.new }
{
    let t = source.peek(c)?;
    // by `let .. else`, not by `?`: docs/DECISIONS.md, 41
    let Some(r) = register_at(source, t) else {
        return None;
    };
    c.step_over(t);
    Some(r)
}

// The register behind this sign.
fn expect_register(source: &Source, out: &mut Progress, sign: Problem) -> Option<Register>
    requires { Room source.now.tokens.now out.old.counters 0 1 }
    ensures lent { out.new.diagnostics.ghost_name ≡ out.old.diagnostics.ghost_name }
    ensures told { RegisterBy source.now out.old out.new (Problems.number sign) result }
{
    let found = next_register(source, &mut out.counters);
    if found.is_none() {
        register_expected(source, out, sign);
    }
    found
}

// A range that runs backwards is told, and kept.
fn ranged(out: &mut Progress, from: Register, to: Register) -> Item
    requires { out.old.counters.diagnostics < 65535 }
    ensures lent { out.new.diagnostics.ghost_name ≡ out.old.diagnostics.ghost_name }
    ensures told { RangedBy out.old out.new from to result }
{
    let span = Span {
        start: from.span.start,
        end: to.span.end,
    };
    let item = Item {
        kind: NodeKind::Range,
        from,
        to,
        span,
    };
    if to.index < from.index {
        let both = Span {
            start: u16::from(from.index),
            end: u16::from(to.index),
        };
        out.raise(plain(DiagnosticKind::RegisterRangeOutOfOrder, span, both));
    }
    item
}

fn single(r: Register) -> Item
    ensures { result ≡ record { kind = NodeKind.Single; from = r; to = r; span = r.span } }
{
    Item {
        kind: NodeKind::Single,
        from: r,
        to: r,
        span: r.span,
    }
}

// The item that begins with this register.
fn list_item(source: &Source, out: &mut Progress, r: Register) -> Option<Item>
    requires { Room source.now.tokens.now out.old.counters 0 1 × (r.index < 16) }
    ensures lent { out.new.diagnostics.ghost_name ≡ out.old.diagnostics.ghost_name }
    ensures told { ItemBy source.now out.old out.new r result }
{
    if source
        .next_of_kind(&mut out.counters, kinds::MINUS)
        .is_none()
    {
        return Some(single(r));
    }
    let to = expect_register(source, out, Problem::AfterMinus)?;
    Some(ranged(out, r, to))
}

// The bits of the registers from one through another.
#[tactic(auto, using(crate::proofs::lists::Ranges::bits_on, crate::proofs::lists::Ranges::bits_end))]
fn range_bits(from: u8, to: u8) -> u16
    requires { to < 16 }
    ensures { result ≡ bits_from from (to + 1 - from) }
{
    let mut bits = 0;
    for i in from..=to {
        bits |= 1 << i;
    }
    bits
}

// Puts the node of an item: its ends stand in the places of the children, and their spans in that of the value.
fn put_item(nodes: &mut [u16], c: &mut Counters, item: Item)
    requires { PutAsks nodes.old c.old.nodes }
    ensures { NodeTold nodes.old nodes.new c.old (item_bytes item) c.new }
{
    let node = Node {
        kind: u16::from(item.kind),
        detail: 0,
        left: u16::from(item.from.index),
        right: u16::from(item.to.index),
        span: item.span,
        value: item.from.span.packed() + 4294967296 * item.to.span.packed(),
    };
    put_counted(nodes, c, node);
}

// The list with the mask of its items, the first of which is node 0.
fn listed(span: Span, mask: u16) -> OperandRecord
    ensures { result ≡ list_record span.start span.end mask }
{
    let first = Some(Sized { node: 0, size: 0 });
    OperandRecord {
        mask: u32::from(mask),
        ..plain_operand(Form::RegisterList, span, first, BaseRegister::Omitted)
    }
}

// The list that begins with this register. A `loop`: each turn reads on from where the last one ended, and a slash says whether another follows.
pub(crate) fn parse_register_list(
    source: &Source,
    nodes: &mut [u16],
    out: &mut Progress,
    first: Register,
) -> Option<OperandRecord>
    requires { ListAsks source.now.tokens.now nodes.old out.old.counters first }
    ensures lent { out.new.diagnostics.ghost_name ≡ out.old.diagnostics.ghost_name }
    ensures told { OperandBy (parse_register_list source.now.setting first) source.now out.old nodes.new out.new result }
{
    let mut mask = 0;
    let mut r = first;
    let end = loop {
        let item = list_item(source, out, r)?;
        mask |= range_bits(item.from.index, item.to.index);
        put_item(nodes, &mut out.counters, item);
        if source
            .next_of_kind(&mut out.counters, kinds::SLASH)
            .is_none()
        {
            break ListEnd {
                counters: out.counters,
                mask,
            };
        }
        // Not by `?`: through it the register's number was read in two bytes where one was written, for which the processor waits.
        let Some(next) = expect_register(source, out, Problem::AfterSlash) else {
            return None;
        };
        r = next;
    };
    Some(listed(source.span_to(end.counters.end), end.mask))
}
