// What the amounts and tests of a payoff are read from.
ghost use Rattle.checked.specs.Ranges.{Readable};

use tables::Span;

// A payoff's rows, and the values, labels and months of the table that it is worth something in, which keeps the rules.
#[derive(Clone, Copy)]
pub struct Lent<'a> {
    pub nodes: &'a [i64],
    pub values: &'a [i64],
    pub bounds: &'a [i64],
    pub span: Span,
    pub ghost readable: { Readable span.h span.f bounds.now values.now },
}
