// What stands behind the brackets of a memory indirect operand.
ghost use Rattle.std.specs.Prelude.{◌≡◌};
ghost use Rattle.records.specs.Rooms.{NodeRoom};
ghost use Rattle.operand.specs.Operand.{outer_indexed, outer_index, parse_outer, outer_displacement};
ghost use Rattle.operand_code.specs.Memory.{OuterBy};

use crate::indexes::parse_index_register;
use crate::lookahead::is_an_index_at;
use crate::malformed::stepped_over;
use crate::memory_displacements::parse_sized_displacement;
use expressions::Source;
use names::kinds;
use operand::{IndexRegister, Sized};
use records::{OperandShape, Problem, Progress};

// The numbers of an indirection, as the operand's record has them.
const PREINDEXED: u8 = 1;

const POSTINDEXED: u8 = 2;

// What stands behind the brackets. The indirection is a number, as the definition has it, which does not bound it, so that an enum could not be
// told of it; it goes into the record as it is.
#[derive(Clone, Copy)]
pub struct OuterPart {
    pub index: Option<IndexRegister>,
    pub indirection: u8,
    pub displacement: Option<Sized>,
}

// The outer displacement, which stands at the cursor.
fn outer_displaced(
    source: &Source,
    nodes: &mut [u16],
    out: &mut Progress,
    index: Option<IndexRegister>,
    indirection: u8,
) -> Option<OuterPart>
    requires { NodeRoom source.now.tokens.now nodes.old out.old.counters 0 0 1 }
    ensures lent { out.new.diagnostics.ghost_name ≡ out.old.diagnostics.ghost_name }
    ensures told { OuterBy (outer_displacement source.now.setting index indirection) source.now nodes.old out.old nodes.new out.new result }
{
    let d = parse_sized_displacement(source, nodes, out)?;
    Some(OuterPart {
        index,
        indirection,
        displacement: Some(d),
    })
}

// Behind the index outside the brackets.
fn outer_indexed(
    source: &Source,
    nodes: &mut [u16],
    out: &mut Progress,
    x: IndexRegister,
) -> Option<OuterPart>
    requires { NodeRoom source.now.tokens.now nodes.old out.old.counters 0 0 1 }
    ensures lent { out.new.diagnostics.ghost_name ≡ out.old.diagnostics.ghost_name }
    ensures told { OuterBy (outer_indexed source.now.setting x) source.now nodes.old out.old nodes.new out.new result }
{
    if source
        .next_of_kind(&mut out.counters, kinds::COMMA)
        .is_none()
    {
        return Some(OuterPart {
            index: Some(x),
            indirection: POSTINDEXED,
            displacement: None,
        });
    }
    outer_displaced(source, nodes, out, Some(x), POSTINDEXED)
}

// An index goes inside the brackets or behind them, not both.
fn outer_index(
    source: &Source,
    nodes: &mut [u16],
    out: &mut Progress,
    index: Option<IndexRegister>,
) -> Option<OuterPart>
    requires { NodeRoom source.now.tokens.now nodes.old out.old.counters 0 0 1 }
    ensures lent { out.new.diagnostics.ghost_name ≡ out.old.diagnostics.ghost_name }
    ensures told { OuterBy (outer_index source.now.setting index) source.now nodes.old out.old nodes.new out.new result }
{
    let shape = OperandShape::MemoryIndirect;
    if index.is_some() {
        stepped_over(source, out, shape, Problem::IndexTwice);
        return None;
    }
    let x = parse_index_register(source, out, shape)?;
    outer_indexed(source, nodes, out, x)
}

// Behind the brackets, with the index that stood between them.
pub(crate) fn parse_outer(
    source: &Source,
    nodes: &mut [u16],
    out: &mut Progress,
    index: Option<IndexRegister>,
) -> Option<OuterPart>
    requires { NodeRoom source.now.tokens.now nodes.old out.old.counters 0 0 1 }
    ensures lent { out.new.diagnostics.ghost_name ≡ out.old.diagnostics.ghost_name }
    ensures told { OuterBy (parse_outer source.now.setting index) source.now nodes.old out.old nodes.new out.new result }
{
    if source
        .next_of_kind(&mut out.counters, kinds::COMMA)
        .is_none()
    {
        return Some(OuterPart {
            index,
            indirection: PREINDEXED,
            displacement: None,
        });
    }
    if is_an_index_at(source, out.counters.at) {
        return outer_index(source, nodes, out, index);
    }
    outer_displaced(source, nodes, out, index, PREINDEXED)
}
