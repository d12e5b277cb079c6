// The refusals of a call, but for those of its tokens: what is lent and given is looked at in the table's order, and nothing is written.
ghost use Rattle.std.specs.Prelude.{◌≡◌, ◌+◌, ◌/◌, ltb};
ghost use Rattle.operand.specs.Layouts.{diagnostic_size, free_records};
ghost use Rattle.operand.specs.Entry.{foreign, line_and_list, start_stores_and_limit, first_of};
ghost use Rattle.operand.specs.RefusalNumbers;

use operand::{Layout, Refusal};

// The lowest nesting limit.
const LOWEST_LIMIT: usize = 1;

// The highest one.
const HIGHEST_LIMIT: usize = 128;

// Whether a byte of the line is not printable. All are looked at, and nothing branches, so that several are looked at in one step.
#[tactic(auto, using(crate::proofs::refusals::Checks::foreign_end, crate::proofs::refusals::Checks::foreign_on, names::specs::Laws::or_either, names::specs::Laws::either_assoc, names::specs::Laws::either_false))]
fn foreign(line: &[u8]) -> bool
    ensures { result ≡ foreign line.now }
{
    let mut found = false;
    for byte in line {
        found |= !(b' '..=b'~').contains(byte);
    }
    found
}

// The refusal of the line or the list, of number 1 to 3, if there is one.
#[tactic(auto, unfolding(operand::specs::Entry::line_and_list, operand::specs::Entry::first_of))]
pub fn refuse_line_and_list(layout: Layout, line: &[u8], tokens: &[u8]) -> Result<(), Refusal>
    ensures { RefusalNumbers.number_in result ≡ first_of (line_and_list layout line.now tokens.now) }
{
    if layout.longest_line() < line.len() {
        return Err(Refusal::LongLine);
    }
    if foreign(line) {
        return Err(Refusal::ForeignByte);
    }
    let count = layout.token_count(tokens.len());
    if !tokens.len().is_multiple_of(layout.token_size()) || layout.most_tokens() < count {
        return Err(Refusal::BadList);
    }
    Ok(())
}

// Whether too few records are free in a diagnostic list of so many bytes. `used` and the free ones may not fit together, so nothing is added.
fn crowded(layout: Layout, bytes: usize, used: usize) -> bool
    ensures { result ≡ ltb (bytes / diagnostic_size layout) (used + free_records layout) }
{
    layout
        .diagnostic_count(bytes)
        .checked_sub(layout.free_records())
        .is_none_or(|left| left < used)
}

// The refusal of the start, a store or the nesting limit, of number 5 to 7 or 18, if there is one: by the tokens' number and the stores' bytes. No
// struct: the definition takes the seven so, and it would be a type for one call.
#[tactic(auto, unfolding(operand::specs::Entry::start_stores_and_limit, operand::specs::Entry::first_of))]
pub fn refuse_start_stores_and_limit(
    layout: Layout,
    tokens: usize,
    start: usize,
    limit: usize,
    nodes: usize,
    diagnostics: usize,
    used: usize,
) -> Result<(), Refusal>
    ensures { RefusalNumbers.number_in result ≡ first_of (start_stores_and_limit layout tokens start limit nodes diagnostics used) }
{
    if tokens < start {
        return Err(Refusal::BadStart);
    }
    if nodes < layout.node_store() {
        return Err(Refusal::ShortNodes);
    }
    if crowded(layout, diagnostics, used) {
        return Err(Refusal::ShortDiagnostics);
    }
    if !(LOWEST_LIMIT..=HIGHEST_LIMIT).contains(&limit) {
        return Err(Refusal::BadLimit);
    }
    Ok(())
}
