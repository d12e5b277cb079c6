// The operand's record as its bytes, twenty or thirty.
ghost use Rattle.std.specs.Prelude.{◌≡◌};
ghost use Rattle.records.specs.Spans.{no_span};
ghost use Rattle.records.specs.Stores.{written};
ghost use Rattle.operand.specs.declared.layouts.Layout.TheVariants as layouts;
ghost use Rattle.operand.specs.Layout.{bytes_of};
ghost use Rattle.layout.specs.Record.{SizedAs, BaseAs, IndexAs, FilledFrom};

use crate::numbers::{low, span_bytes};
use operand::{BaseRegister, IndexRegister, Layout, OperandRecord, Register, Sized};
use records::{ABSENT, Span, write};

// No register: a number, not an `Option`, as the record's bytes have it (docs/FORMAT.md).
const NONE: u8 = 255;

// The numbers that stand for a base without a span (docs/FORMAT.md): the first of the eight suppressed address registers, the program counter,
// and the suppressed one.
const FIRST_SUPPRESSED: u8 = 0x18;

const PROGRAM_COUNTER: u8 = 0x20;

const SUPPRESSED_PROGRAM_COUNTER: u8 = 0x21;

// A displacement with the same bytes, in both layouts.
#[tactic(auto, using(crate::proofs::record::Parts::sized_as))]
fn sized_part(d: Option<Sized>) -> Sized
    ensures { SizedAs result d }
{
    d.unwrap_or(Sized {
        node: ABSENT,
        size: 0,
    })
}

// A number that stands for a register, and no span.
fn spanless(n: u8) -> Register
    ensures { result ≡ record { index = n; span = no_span } }
{
    Register {
        index: n,
        span: Span::default(),
    }
}

// A register with the same bytes, in both layouts.
#[tactic(auto, unfolding(operand::specs::Layout::base_part))]
fn base_part(base: BaseRegister) -> Register
    ensures { BaseAs result base }
{
    match base {
        BaseRegister::Address(r) => r,
        BaseRegister::ProgramCounter => spanless(PROGRAM_COUNTER),
        BaseRegister::SuppressedAddress(n) => spanless(FIRST_SUPPRESSED + n % 8),
        BaseRegister::SuppressedProgramCounter => spanless(SUPPRESSED_PROGRAM_COUNTER),
        BaseRegister::Omitted => spanless(NONE),
    }
}

// An index register with the same bytes, in both layouts.
#[tactic(auto, using(crate::proofs::record::Parts::index_as, records::specs::Spans::blank))]
fn index_part(index: Option<IndexRegister>) -> IndexRegister
    ensures { IndexAs result index }
{
    index.unwrap_or(IndexRegister {
        register: spanless(NONE),
        size: 0,
        scale: 0,
        suppressed: false,
        span: Span::default(),
    })
}

// The parts of a record that may be absent, filled in with the same bytes.
#[derive(Clone, Copy)]
struct Filled {
    displacement: Sized,
    base: Register,
    index: IndexRegister,
    outer: Sized,
    suppressed: u8,
}

#[tactic(auto, unfolding(operand::specs::Records::flag))]
fn fill(x: OperandRecord) -> Filled
    ensures { FilledFrom x result }
{
    let index = index_part(x.index);
    Filled {
        displacement: sized_part(x.displacement),
        base: base_part(x.base),
        index,
        outer: sized_part(x.outer),
        suppressed: u8::from(index.suppressed),
    }
}

// The twenty bytes of the narrow layout. Each layout by itself: one form for both would write each part by itself, the numbers as
// `&number.to_le_bytes()[..width]`, and hand the place on through twenty calls, which is no plainer.
#[tactic(auto, using(crate::proofs::record::Parts::narrow_record))]
fn narrow_bytes(x: OperandRecord, p: Filled) -> [u8; 20]
    requires { FilledFrom x p }
    ensures { result ≡ bytes_of layouts.Narrow x }
{
    [
        x.form,
        low(x.span.start),
        low(x.span.end),
        low(p.displacement.node),
        p.displacement.size,
        p.base.index,
        low(p.base.span.start),
        low(p.base.span.end),
        p.index.register.index,
        low(p.index.register.span.start),
        low(p.index.register.span.end),
        p.index.size,
        p.index.scale,
        p.suppressed,
        low(p.index.span.start),
        low(p.index.span.end),
        x.indirection,
        low(p.outer.node),
        p.outer.size,
        x.special,
    ]
}

// The thirty bytes of the wide one: a register has one byte, a span four, a node's number two.
#[tactic(auto, using(crate::proofs::record::Parts::wide_record))]
fn wide_bytes(x: OperandRecord, p: Filled) -> [u8; 30]
    requires { FilledFrom x p }
    ensures { result ≡ bytes_of layouts.Wide x }
{
    let span = span_bytes(x.span);
    let displacement = p.displacement.node.to_le_bytes();
    let base = span_bytes(p.base.span);
    let register = span_bytes(p.index.register.span);
    let index = span_bytes(p.index.span);
    let outer = p.outer.node.to_le_bytes();
    [
        x.form,
        span[0],
        span[1],
        span[2],
        span[3],
        displacement[0],
        displacement[1],
        p.displacement.size,
        p.base.index,
        base[0],
        base[1],
        base[2],
        base[3],
        p.index.register.index,
        register[0],
        register[1],
        register[2],
        register[3],
        p.index.size,
        p.index.scale,
        p.suppressed,
        index[0],
        index[1],
        index[2],
        index[3],
        x.indirection,
        outer[0],
        outer[1],
        p.outer.size,
        x.special,
    ]
}

// Writes the operand's record from a place of the store on, where all of it fits.
pub fn write_operand(layout: Layout, x: OperandRecord, store: &mut [u8], at: usize)
    ensures { store.new ≡ written store.old at (bytes_of layout x) }
{
    let p = fill(x);
    match layout {
        Layout::Narrow => write(store, at, &narrow_bytes(x, p)),
        Layout::Wide => write(store, at, &wide_bytes(x, p)),
    }
}
