// What stands between the brackets of a memory indirect operand.
ghost use Rattle.std.specs.Prelude.{◌≡◌};
ghost use Rattle.records.specs.Rooms.{Room, NodeRoom};
ghost use Rattle.operand.specs.Operand.{no_registers, inner_displaced, parse_inner, with_registers, inner_displacement};
ghost use Rattle.operand_code.specs.Memory.{InnerBehindBy, InnerBy};

use crate::full::parse_base_and_index_registers;
use crate::lookahead::is_a_base_or_an_index;
use crate::memory_displacements::parse_sized_displacement;
use expressions::Source;
use names::kinds;
use operand::{BaseRegister, Registers, Sized};
use records::{OperandShape, Progress};

// What stands between the brackets.
#[derive(Clone, Copy)]
pub struct InnerPart {
    pub displacement: Option<Sized>,
    pub registers: Registers,
}

fn bare_inner(displacement: Option<Sized>) -> InnerPart
    ensures { result ≡ record { displacement = displacement; registers = no_registers } }
{
    let registers = Registers {
        base: BaseRegister::Omitted,
        index: None,
    };
    InnerPart {
        displacement,
        registers,
    }
}

// The registers that stand at the cursor, behind this displacement.
fn inner_registers(
    source: &Source,
    out: &mut Progress,
    displacement: Option<Sized>,
) -> Option<InnerPart>
    requires { Room source.now.tokens.now out.old.counters 0 1 }
    ensures lent { out.new.diagnostics.ghost_name ≡ out.old.diagnostics.ghost_name }
    ensures told { InnerBehindBy (with_registers source.now.setting) source.now out.old out.new displacement result }
{
    let registers = parse_base_and_index_registers(source, out, OperandShape::MemoryIndirect)?;
    Some(InnerPart {
        displacement,
        registers,
    })
}

// Behind the displacement between the brackets.
fn inner_displaced(source: &Source, out: &mut Progress, d: Option<Sized>) -> Option<InnerPart>
    requires { Room source.now.tokens.now out.old.counters 0 1 }
    ensures lent { out.new.diagnostics.ghost_name ≡ out.old.diagnostics.ghost_name }
    ensures told { InnerBehindBy (inner_displaced source.now.setting) source.now out.old out.new d result }
{
    if source
        .next_of_kind(&mut out.counters, kinds::COMMA)
        .is_none()
    {
        return Some(bare_inner(d));
    }
    inner_registers(source, out, d)
}

fn inner_displacement(source: &Source, nodes: &mut [u16], out: &mut Progress) -> Option<InnerPart>
    requires { NodeRoom source.now.tokens.now nodes.old out.old.counters 0 0 1 }
    ensures lent { out.new.diagnostics.ghost_name ≡ out.old.diagnostics.ghost_name }
    ensures told { InnerBy (inner_displacement source.now.setting) source.now nodes.old out.old nodes.new out.new result }
{
    let d = parse_sized_displacement(source, nodes, out)?;
    inner_displaced(source, out, Some(d))
}

// Behind the bracket.
pub(crate) fn parse_inner(
    source: &Source,
    nodes: &mut [u16],
    out: &mut Progress,
) -> Option<InnerPart>
    requires { NodeRoom source.now.tokens.now nodes.old out.old.counters 0 0 1 }
    ensures lent { out.new.diagnostics.ghost_name ≡ out.old.diagnostics.ghost_name }
    ensures told { InnerBy (parse_inner source.now.setting) source.now nodes.old out.old nodes.new out.new result }
{
    match source.peek(&out.counters) {
        Some(t) if t.kind == kinds::RIGHT_BRACKET => Some(bare_inner(None)),
        Some(t) if is_a_base_or_an_index(source, t, out.counters.at) => {
            inner_registers(source, out, None)
        }
        _ => inner_displacement(source, nodes, out),
    }
}
