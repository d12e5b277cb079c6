// Memory indirect operands.
ghost use Rattle.std.specs.Prelude.{◌≡◌};
ghost use Rattle.records.specs.Rooms.{Room, NodeRoom};
ghost use Rattle.operand.specs.Operand.{parse_memory_indirect};
ghost use Rattle.operand_code.specs.Operands.{FirstRoom, OperandBy};
ghost use Rattle.operand_code.specs.Memory.{indirect_record, ClosedBy, BehindBy};

use crate::malformed::{expect_close, unclosed};
use crate::memory_inner::{InnerPart, parse_inner};
use crate::memory_outer::{OuterPart, parse_outer};
use crate::steps::indexed;
use expressions::Source;
use names::{Token, kinds};
use operand::{Form, OperandRecord};
use records::{OperandShape, Problem, Progress, Span};

// The operand, of what stands within the brackets and behind them.
fn memory_indirect(span: Span, n: InnerPart, u: OuterPart) -> OperandRecord
    ensures { result ≡ indirect_record span.start span.end n u }
{
    let base = n.registers.base;
    OperandRecord {
        indirection: u.indirection,
        outer: u.displacement,
        ..indexed(Form::FullIndex, span, n.displacement, base, u.index)
    }
}

// Behind all that stands between the parentheses.
fn close_indirect(
    source: &Source,
    out: &mut Progress,
    paren: Token,
    n: InnerPart,
    u: OuterPart,
) -> Option<OperandRecord>
    requires { Room source.now.tokens.now out.old.counters 0 1 }
    ensures lent { out.new.diagnostics.ghost_name ≡ out.old.diagnostics.ghost_name }
    ensures told { ClosedBy source.now paren out.old out.new n u result }
{
    let end = expect_close(source, out, paren, OperandShape::MemoryIndirect)?;
    Some(memory_indirect(source.span_to(end), n, u))
}

// Behind the bracket that closes the inner part.
fn after_inner(
    source: &Source,
    nodes: &mut [u16],
    out: &mut Progress,
    paren: Token,
    n: InnerPart,
) -> Option<OperandRecord>
    requires { NodeRoom source.now.tokens.now nodes.old out.old.counters 0 0 1 }
    ensures lent { out.new.diagnostics.ghost_name ≡ out.old.diagnostics.ghost_name }
    ensures told { BehindBy source.now paren nodes.old out.old nodes.new out.new n result }
{
    let u = parse_outer(source, nodes, out, n.registers.index)?;
    close_indirect(source, out, paren, n, u)
}

// The cursor is behind the bracket that opens the inner part.
pub(crate) fn parse_memory_indirect(
    source: &Source,
    nodes: &mut [u16],
    out: &mut Progress,
    paren: Token,
) -> Option<OperandRecord>
    requires { FirstRoom source.now nodes.old out.old }
    ensures lent { out.new.diagnostics.ghost_name ≡ out.old.diagnostics.ghost_name }
    ensures told { OperandBy (parse_memory_indirect source.now.setting paren) source.now out.old nodes.new out.new result }
{
    let shape = OperandShape::MemoryIndirect;
    let n = parse_inner(source, nodes, out)?;
    // As `expect_close`, but for the kind and the problem: with these a helper for both would take six parameters.
    if source
        .next_of_kind(&mut out.counters, kinds::RIGHT_BRACKET)
        .is_none()
    {
        unclosed(source, out, paren, shape, Problem::BracketMissing);
        return None;
    }
    after_inner(source, nodes, out, paren, n)
}
