// Diagnostics.
use crate::spans::Span;

// A diagnostic, as its ten numbers have it. No `Option` for the related span: any ten numbers may be given.
#[derive(Clone, Copy)]
pub struct Diagnostic {
    pub kind: u16,
    pub shape: u16,
    pub problem: u16,
    pub span: Span,
    pub text: Span,
    pub related: Span,
    pub has_related: u16,
}
