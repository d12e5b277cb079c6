// Operands, put together.
ghost use Rattle.std.specs.Prelude.{◌≡◌, ◌-◌, ◌<◌};
ghost use Rattle.operand.specs.FormNumbers;
ghost use Rattle.operand.specs.Forms.{form_of};

use operand::{BaseRegister, Form, IndexRegister, OperandRecord, Sized};
use records::{Counters, Span};

// An operand without an index or an outer displacement.
pub(crate) fn plain_operand(
    form: Form,
    span: Span,
    displacement: Option<Sized>,
    base: BaseRegister,
) -> OperandRecord
    ensures { result ≡ form_of (FormNumbers.number form) span displacement base None }
{
    indexed(form, span, displacement, base, None)
}

pub(crate) fn indexed(
    form: Form,
    span: Span,
    displacement: Option<Sized>,
    base: BaseRegister,
    index: Option<IndexRegister>,
) -> OperandRecord
    ensures { result ≡ form_of (FormNumbers.number form) span displacement base index }
{
    OperandRecord {
        form: u8::from(form),
        span,
        displacement,
        base,
        index,
        indirection: 0,
        outer: None,
        special: 0,
        mask: 0,
    }
}

// The tree that the last records hold, with this size.
pub(crate) fn last_tree(c: Counters, size: u8) -> Sized
    requires { 0 < c.nodes }
    ensures { result ≡ record { node = c.nodes - 1; size = size } }
{
    Sized {
        node: c.nodes - 1,
        size,
    }
}
