// Size suffixes.
ghost use Rattle.std.specs.Prelude.{◌≡◌, ◌<◌};
ghost use Rattle.records.specs.Rooms.{Room};
ghost use Rattle.names.specs.Sizes.{run_of};
ghost use Rattle.records.specs.Spans.{span};
ghost use Rattle.records.specs.Diagnostics.{run_start};
ghost use Rattle.expressions.specs.Expressions.{suffix_run, take_size_suffix};
ghost use Rattle.operand.specs.Forms.{suffix_read};
ghost use Rattle.expressions.specs.Told.{Same};
ghost use Rattle.operand_code.specs.Told.{SizeBy, Tells, token_text};

use expressions::Source;
use names::{SizeSuffix, Token, kinds};
use operand::Suffixed;
use records::{DiagnosticKind, Progress, Span, plain};

// Behind the token of a size suffix. A run of two letters or more is a dot inside a name, which began at `from`.
pub(crate) fn suffix_run(source: &Source, out: &mut Progress, from: u16, token: Token) -> Suffixed
    requires { out.old.counters.diagnostics < 65535 }
    ensures lent { out.new.diagnostics.ghost_name ≡ out.old.diagnostics.ghost_name }
    ensures told { Tells suffix_read (Same out.old.counters.nodes) (suffix_run from token (run_of (token_text source.now token))) source.now out.old out.new (Some result) }
{
    let run = names::suffix_run(source.text_of(token));
    let span = Span::from(token);
    if 2 <= run.len() {
        let name = Span {
            start: from,
            end: token.end,
        };
        out.raise(plain(DiagnosticKind::DotInName, span, name));
        return Suffixed { size: 0, span };
    }
    match SizeSuffix::from_run(run) {
        Some(n) => Suffixed {
            size: u8::from(n),
            span,
        },
        None => {
            let text = run_span(span);
            out.raise(plain(DiagnosticKind::UnknownSizeSuffix, span, text));
            Suffixed { size: 0, span }
        }
    }
}

// The run of a suffix: behind its first byte, if it has one.
fn run_span(suffix: Span) -> Span
    ensures { result ≡ span (run_start suffix) suffix.end }
{
    if suffix.start < suffix.end {
        return Span {
            start: suffix.start + 1,
            end: suffix.end,
        };
    }
    Span::empty(suffix.end)
}

fn take_size_suffix(source: &Source, out: &mut Progress, from: u16) -> Option<Suffixed>
    requires { Room source.now.tokens.now out.old.counters 0 1 }
    ensures lent { out.new.diagnostics.ghost_name ≡ out.old.diagnostics.ghost_name }
    ensures told { Tells suffix_read (Same out.old.counters.nodes) (take_size_suffix from) source.now out.old out.new result }
{
    let t = source.next_of_kind(&mut out.counters, kinds::SIZE_SUFFIX)?;
    Some(suffix_run(source, out, from, t))
}

// The size behind what ends there: none, at its end, where no suffix stands.
pub(crate) fn size_behind(source: &Source, out: &mut Progress, value: Span) -> Suffixed
    requires { Room source.now.tokens.now out.old.counters 0 1 }
    ensures lent { out.new.diagnostics.ghost_name ≡ out.old.diagnostics.ghost_name }
    ensures told { SizeBy source.now out.old out.new value result }
{
    let none = Suffixed {
        size: 0,
        span: Span::empty(value.end),
    };
    take_size_suffix(source, out, value.start).unwrap_or(none)
}
