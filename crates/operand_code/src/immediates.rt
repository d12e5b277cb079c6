// An immediate.
ghost use Rattle.std.specs.Prelude.{◌≡◌, ◌<◌};
ghost use Rattle.records.specs.Rooms.{Room};
ghost use Rattle.operand.specs.Operand.{parse_immediate, sized_immediate};
ghost use Rattle.operand.specs.Records.{flag};
ghost use Rattle.operand_code.specs.Operands.{FirstRoom, OperandBy};
ghost use Rattle.operand_code.specs.Absolutes.{immediate_record, TreeBy};

use crate::expressed::expression_or;
use crate::malformed::malformed;
use crate::steps::{last_tree, plain_operand};
use crate::suffixes::size_behind;
use expressions::Source;
use names::{SizeSuffix, Token};
use operand::{BaseRegister, Form, OperandRecord};
use records::{Counters, OperandShape, Problem, Progress, Span};

// The one size that an immediate may have.
const LONG: u8 = SizeSuffix::Long as u8;

// None stands there, or one that is not known.
const NO_SIZE: u8 = 0;

#[tactic(auto, unfolding(operand::specs::Records::flag))]
fn immediate(c: Counters, start: u16, end: u16, long: bool) -> OperandRecord
    requires { 0 < c.nodes }
    ensures { result ≡ immediate_record c start end (flag long) }
{
    let span = Span { start, end };
    let value = Some(last_tree(c, 0));
    OperandRecord {
        special: u8::from(long),
        ..plain_operand(Form::Immediate, span, value, BaseRegister::Omitted)
    }
}

// Behind the value. Long is the one size that an immediate may have; one that is not known has been told.
fn immediate_size(
    source: &Source,
    out: &mut Progress,
    hash: Token,
    value: Span,
) -> Option<OperandRecord>
    requires { Room source.now.tokens.now out.old.counters 1 1 }
    ensures lent { out.new.diagnostics.ghost_name ≡ out.old.diagnostics.ghost_name }
    ensures told { TreeBy (λ e. sized_immediate source.now.setting hash e) source.now out.old out.new value result }
{
    let x = size_behind(source, out, value);
    match x.size {
        LONG => Some(immediate(out.counters, hash.start, x.span.end, true)),
        NO_SIZE => Some(immediate(out.counters, hash.start, x.span.end, false)),
        _ => {
            let shape = OperandShape::Immediate;
            malformed(source, out, shape, Problem::ImmediateCarriesNoSize);
            None
        }
    }
}

// Behind the hash.
pub(crate) fn parse_immediate(
    source: &Source,
    nodes: &mut [u16],
    out: &mut Progress,
    hash: Token,
) -> Option<OperandRecord>
    requires { FirstRoom source.now nodes.old out.old }
    ensures lent { out.new.diagnostics.ghost_name ≡ out.old.diagnostics.ghost_name }
    ensures told { OperandBy (parse_immediate source.now.setting hash) source.now out.old nodes.new out.new result }
{
    let span = expression_or(source, nodes, out, hash)?;
    immediate_size(source, out, hash, span)
}
