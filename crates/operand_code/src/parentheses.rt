// What stands behind a parenthesis.
ghost use Rattle.std.specs.Prelude.{◌≡◌, Some};
ghost use Rattle.records.specs.Rooms.{Room, NodeRoom};
ghost use Rattle.expressions.specs.Trees.{span_e};
ghost use Rattle.operand.specs.Operand.{unexpected, after_expression, parenthesised, parse_parenthesised_operand, grouped_expression, grouped_operand, after_comma, size_and_base, unbracketed};
ghost use Rattle.operand_code.specs.Operands.{FirstRoom, BaseBy, OperandBy};
ghost use Rattle.operand_code.specs.Absolutes.{FailBy, SizeAt, TreeBy, StandBy};

use crate::absolutes::{finish_expression_operand, opening_at};
use crate::bases::{Opening, parse_base_and_index};
use crate::expressed::{expression_behind, expression_or};
use crate::full::parse_full_index;
use crate::lookahead::{starts_a_base, starts_a_full_index};
use crate::memory::parse_memory_indirect;
use crate::steps::last_tree;
use crate::suffixes::suffix_run;
use expressions::Source;
use names::{Token, kinds};
use operand::OperandRecord;
use records::{Progress, Span, unclosed_parenthesis, unexpected_token_in_operand};

// The parenthesis has closed behind an expression: a displacement, or a group that goes on.
fn grouped_operand(
    source: &Source,
    nodes: &mut [u16],
    out: &mut Progress,
    paren: Token,
) -> Option<OperandRecord>
    requires { NodeRoom source.now.tokens.now nodes.old out.old.counters 1 0 1 }
    ensures lent { out.new.diagnostics.ghost_name ≡ out.old.diagnostics.ghost_name }
    ensures told { StandBy (λ e. Unit {0}) (λ e. grouped_operand source.now.setting paren out.old.counters.end e) source.now nodes.old out.old nodes.new out.new result }
{
    let Some(opening) = opening_at(source, &mut out.counters) else {
        return Some(grouped_expression(source, nodes, out, paren));
    };
    parse_base_and_index(source, out, opening)
}

// The group is the first term of an absolute address.
fn grouped_expression(
    source: &Source,
    nodes: &mut [u16],
    out: &mut Progress,
    paren: Token,
) -> OperandRecord
    requires { NodeRoom source.now.tokens.now nodes.old out.old.counters 1 0 1 }
    ensures lent { out.new.diagnostics.ghost_name ≡ out.old.diagnostics.ghost_name }
    ensures told { StandBy (λ e. Unit {0}) (λ e. grouped_expression source.now.setting paren out.old.counters.end e) source.now nodes.old out.old nodes.new out.new (Some result) }
{
    let group = Span {
        start: paren.start,
        end: out.counters.end,
    };
    let span = expression_behind(source, nodes, out, group);
    finish_expression_operand(source, out, span)
}

// Behind an expression that nothing here may follow. An Error token has been reported by the lexer.
fn unexpected(source: &Source, out: &mut Progress, paren: Token) -> Option<OperandRecord>
    requires { Room source.now.tokens.now out.old.counters 0 1 }
    ensures lent { out.new.diagnostics.ghost_name ≡ out.old.diagnostics.ghost_name }
    ensures told { FailBy (unexpected paren) source.now out.old out.new result }
{
    match source.peek(&out.counters) {
        None => out.raise(unclosed_parenthesis(paren)),
        Some(t) if t.kind == kinds::ERROR => (),
        Some(t) => out.raise(unexpected_token_in_operand(t)),
    }
    None
}

// Behind a comma: the registers of a full index, or a base and an index.
fn after_comma(source: &Source, out: &mut Progress, opening: Opening) -> Option<OperandRecord>
    requires { Room source.now.tokens.now out.old.counters 0 1 }
    ensures lent { out.new.diagnostics.ghost_name ≡ out.old.diagnostics.ghost_name }
    ensures told { BaseBy (λ y. after_comma source.now.setting opening.paren y) source.now out.old out.new opening.displacement result }
{
    if starts_a_full_index(source, out.counters.at) {
        return parse_full_index(source, out, opening);
    }
    parse_base_and_index(source, out, opening)
}

// A size behind the expression, which has been seen, where a comma must follow.
fn sized_base(
    source: &Source,
    out: &mut Progress,
    paren: Token,
    value: Span,
    suffix: Token,
) -> Option<OperandRecord>
    requires { Room source.now.tokens.now out.old.counters 1 1 × SizeAt source.now.tokens.now out.old.counters.at suffix }
    ensures lent { out.new.diagnostics.ghost_name ≡ out.old.diagnostics.ghost_name }
    ensures told { TreeBy (λ e. size_and_base source.now.setting paren e) source.now out.old out.new value result }
{
    let at = usize::from(out.counters.at);
    let Some(t) = source.token_of_kind(at + 1, kinds::COMMA) else {
        return unexpected(source, out, paren);
    };
    out.counters.step_over(suffix);
    let x = suffix_run(source, out, value.start, suffix);
    let opening = Opening {
        paren,
        displacement: Some(last_tree(out.counters, x.size)),
    };
    out.counters.step_over(t);
    parse_full_index(source, out, opening)
}

fn after_expression(
    source: &Source,
    nodes: &mut [u16],
    out: &mut Progress,
    paren: Token,
    value: Span,
) -> Option<OperandRecord>
    requires { NodeRoom source.now.tokens.now nodes.old out.old.counters 1 0 1 }
    ensures lent { out.new.diagnostics.ghost_name ≡ out.old.diagnostics.ghost_name }
    ensures told { StandBy (λ e. value ≡ span_e e) (λ e. after_expression source.now.setting paren e) source.now nodes.old out.old nodes.new out.new result }
{
    if source
        .next_of_kind(&mut out.counters, kinds::COMMA)
        .is_some()
    {
        let opening = Opening {
            paren,
            displacement: Some(last_tree(out.counters, 0)),
        };
        return after_comma(source, out, opening);
    }
    if source
        .next_of_kind(&mut out.counters, kinds::RIGHT_PAREN)
        .is_some()
    {
        return grouped_operand(source, nodes, out, paren);
    }
    let at = usize::from(out.counters.at);
    match source.token_of_kind(at, kinds::SIZE_SUFFIX) {
        Some(t) => sized_base(source, out, paren, value, t),
        None => unexpected(source, out, paren),
    }
}

// Behind a parenthesis that no base follows.
fn parenthesised(
    source: &Source,
    nodes: &mut [u16],
    out: &mut Progress,
    paren: Token,
) -> Option<OperandRecord>
    requires { FirstRoom source.now nodes.old out.old }
    ensures lent { out.new.diagnostics.ghost_name ≡ out.old.diagnostics.ghost_name }
    ensures told { OperandBy (parenthesised source.now.setting paren) source.now out.old nodes.new out.new result }
{
    let span = expression_or(source, nodes, out, paren)?;
    after_expression(source, nodes, out, paren, span)
}

// Behind a parenthesis that no bracket follows.
fn unbracketed(
    source: &Source,
    nodes: &mut [u16],
    out: &mut Progress,
    paren: Token,
) -> Option<OperandRecord>
    requires { FirstRoom source.now nodes.old out.old }
    ensures lent { out.new.diagnostics.ghost_name ≡ out.old.diagnostics.ghost_name }
    ensures told { OperandBy (unbracketed source.now.setting paren) source.now out.old nodes.new out.new result }
{
    let opening = Opening {
        paren,
        displacement: None,
    };
    if starts_a_full_index(source, out.counters.at) {
        return parse_full_index(source, out, opening);
    }
    if starts_a_base(source, out.counters.at) {
        return parse_base_and_index(source, out, opening);
    }
    parenthesised(source, nodes, out, paren)
}

// Behind the parenthesis.
pub(crate) fn parse_parenthesised_operand(
    source: &Source,
    nodes: &mut [u16],
    out: &mut Progress,
    paren: Token,
) -> Option<OperandRecord>
    requires { FirstRoom source.now nodes.old out.old }
    ensures lent { out.new.diagnostics.ghost_name ≡ out.old.diagnostics.ghost_name }
    ensures told { OperandBy (parse_parenthesised_operand source.now.setting paren) source.now out.old nodes.new out.new result }
{
    if source
        .next_of_kind(&mut out.counters, kinds::LEFT_BRACKET)
        .is_none()
    {
        return unbracketed(source, nodes, out, paren);
    }
    parse_memory_indirect(source, nodes, out, paren)
}
