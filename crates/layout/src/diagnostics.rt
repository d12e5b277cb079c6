// Diagnostic records: ten numbers within, ten or sixteen bytes in the lent list.
ghost use Rattle.std.specs.Prelude.{◌≡◌, ◌*◌};
ghost use Rattle.records.specs.Stores.{written};
ghost use Rattle.operand.specs.declared.layouts.Layout.TheVariants as layouts;
ghost use Rattle.layout.specs.Diagnostics.{diagnostic_from, diagnostics_encoded};

use crate::numbers::{low, two_words};
use operand::Layout;
use records::write;

// A record in the narrow layout. Each layout has an array of its own length. One form for both would be a loop that writes number by number, each with
// a width by its place: it would carry the place on and ask for the room first, since of a record that does not fit nothing is written. No plainer.
#[tactic(auto, unfolding(records::specs::Nodes::low_first, operand::specs::Layouts::number, crate::specs::Diagnostics::diagnostic_from))]
fn narrow_record(numbers: &[u16; 10]) -> [u8; 10]
    ensures { result ≡ diagnostic_from layouts.Narrow numbers.now 0 }
{
    numbers.map(low)
}

// The same in the wide one.
#[tactic(auto, unfolding(records::specs::Nodes::low_first, operand::specs::Layouts::number, crate::specs::Diagnostics::diagnostic_from))]
fn wide_record(numbers: &[u16; 10]) -> [u8; 16]
    ensures { result ≡ diagnostic_from layouts.Wide numbers.now 0 }
{
    let span = two_words(numbers[3], numbers[4]);
    let text = two_words(numbers[5], numbers[6]);
    let related = two_words(numbers[7], numbers[8]);
    [
        low(numbers[0]),
        low(numbers[1]),
        low(numbers[2]),
        span[0],
        span[1],
        span[2],
        span[3],
        text[0],
        text[1],
        text[2],
        text[3],
        related[0],
        related[1],
        related[2],
        related[3],
        low(numbers[9]),
    ]
}

// Writes a record into the list at `at`.
fn encode_diagnostic(layout: Layout, numbers: &[u16; 10], diagnostics: &mut [u8], at: usize)
    ensures { diagnostics.new ≡ written diagnostics.old at (diagnostic_from layout numbers.now 0) }
{
    match layout {
        Layout::Narrow => write(diagnostics, at, &narrow_record(numbers)),
        Layout::Wide => write(diagnostics, at, &wide_record(numbers)),
    }
}

// Writes the first n records into the diagnostic list, behind the used ones. Most operands have none.
#[tactic(auto, using(records::specs::Written::written_nothing, crate::proofs::store::Encoding::diagnostics_none, crate::proofs::store::Encoding::diagnostics_missing, crate::proofs::store::Encoding::diagnostics_short), unfolding(operand::specs::Layout::records_laid))]
pub fn encode_diagnostics(
    layout: Layout,
    numbers: &[u16],
    n: usize,
    diagnostics: &mut [u8],
    used: usize,
)
    ensures { diagnostics.new ≡ diagnostics_encoded layout numbers.now n diagnostics.old used }
{
    if n == 0 {
        return;
    }
    let Some(records) = numbers.as_chunks::<10>().0.get(..n) else {
        return;
    };
    let count = layout.diagnostic_count(diagnostics.len());
    if count.checked_sub(n).is_none_or(|free| free < used) {
        return;
    }
    let size = layout.diagnostic_size();
    for (i, record) in records.iter().enumerate() {
        encode_diagnostic(layout, record, diagnostics, size * (used + i));
    }
}
