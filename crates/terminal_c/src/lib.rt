// The library that a terminal's firmware links: what `terminal` has, with C's calling convention and a function for each layout. A slice is a pointer and a length.
#![tactic(auto)]

ghost use Rattle.std.specs.Prelude.{◌≡◌};
ghost use Rattle.operand.specs.Entry.{call};
ghost use Rattle.operand.specs.declared.layouts.Layout.TheVariants as layouts;
ghost use Rattle.terminal.specs.Exported.{exported, told};

use operand::Layout;

// Reads the operand that begins at the token `start`, with at most `limit` terms open in each other, and writes the answer into `out`.
// Returns 0, or the number of a refusal, which writes nothing.
#[unsafe(no_mangle)]
pub extern "C" fn sagdrif_parse_operand(
    line: &[u8],
    tokens: &[u8],
    start: usize,
    mark: usize,
    limit: usize,
    nodes: &mut [u8],
    diagnostics: &mut [u8],
    used: usize,
    out: &mut [u8],
) -> u8
    ensures { told result nodes.new diagnostics.new out.new ≡ exported (call layouts.Narrow line.now tokens.now start mark limit nodes.old diagnostics.old used) out.old }
{
    terminal::parse_operand(
        Layout::Narrow,
        line,
        tokens,
        start,
        mark,
        limit,
        nodes,
        diagnostics,
        used,
        out,
    )
}

// The same in the wide layout: the C interface has a function for each.
#[unsafe(no_mangle)]
pub extern "C" fn sagdrif_parse_operand_wide(
    line: &[u8],
    tokens: &[u8],
    start: usize,
    mark: usize,
    limit: usize,
    nodes: &mut [u8],
    diagnostics: &mut [u8],
    used: usize,
    out: &mut [u8],
) -> u8
    ensures { told result nodes.new diagnostics.new out.new ≡ exported (call layouts.Wide line.now tokens.now start mark limit nodes.old diagnostics.old used) out.old }
{
    terminal::parse_operand(
        Layout::Wide,
        line,
        tokens,
        start,
        mark,
        limit,
        nodes,
        diagnostics,
        used,
        out,
    )
}
