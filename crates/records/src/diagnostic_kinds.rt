// The kinds of diagnostics: those of the Rust's `DiagnosticKind` that `parse_operand` raises, in its order.
ghost use Rattle.std.specs.Prelude.{◌≡◌};
ghost use Rattle.records.specs.DiagnosticKinds;

#[derive(Clone, Copy, PartialEq, Eq, Debug)]
pub enum DiagnosticKind {
    NumberTooLarge = 1,
    UnknownSizeSuffix,
    DotInName,
    OperandExpected,
    UnclosedParenthesis,
    NestingTooDeep,
    MalformedOperand,
    UnexpectedTokenInOperand,
    RegisterExpectedInRegisterList,
    RegisterRangeOutOfOrder,
    RegisterInExpression,
    ExpressionExpected,
    PlusIsNotAUnaryOperator,
}

// The number that a record has.
impl From<DiagnosticKind> for u16 {
    ghost from_gives = { λ x n. n ≡ DiagnosticKinds.number x };

    fn from(x: DiagnosticKind) -> u16
        ensures { result ≡ DiagnosticKinds.number x }
    {
        x as u16
    }
}
