// A displacement with its size.
ghost use Rattle.std.specs.Prelude.{◌≡◌, option_map};
ghost use Rattle.records.specs.Rooms.{Room, NodeRoom};
ghost use Rattle.operand.specs.Operand.{parse_sized_displacement};
ghost use Rattle.operand_code.specs.Memory.{SizedBy, DisplacementBy};

use crate::expressed::expression_at;
use crate::malformed::stepped_over;
use crate::steps::last_tree;
use crate::suffixes::size_behind;
use expressions::Source;
use expressions_code::TermError;
use operand::Sized;
use records::{OperandShape, Problem, Progress, Span};

// Behind the expression of a displacement: the tree that the last records hold, with its size.
fn sized(source: &Source, out: &mut Progress, value: Span) -> Sized
    requires { Room source.now.tokens.now out.old.counters 1 1 }
    ensures lent { out.new.diagnostics.ghost_name ≡ out.old.diagnostics.ghost_name }
    ensures told { SizedBy value source.now out.old out.new (Some (Some result)) }
{
    let x = size_behind(source, out, value);
    last_tree(out.counters, x.size)
}

pub(crate) fn parse_sized_displacement(
    source: &Source,
    nodes: &mut [u16],
    out: &mut Progress,
) -> Option<Sized>
    requires { NodeRoom source.now.tokens.now nodes.old out.old.counters 0 0 1 }
    ensures lent { out.new.diagnostics.ghost_name ≡ out.old.diagnostics.ghost_name }
    ensures told { DisplacementBy (parse_sized_displacement source.now.setting) source.now nodes.old out.old nodes.new out.new (option_map Some result) }
{
    match expression_at(source, nodes, out) {
        Ok(span) => Some(sized(source, out, span)),
        Err(TermError::Reported) => None,
        Err(TermError::Absent) => {
            let shape = OperandShape::MemoryIndirect;
            stepped_over(source, out, shape, Problem::ADisplacementMissing);
            None
        }
    }
}
