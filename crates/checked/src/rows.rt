// What one row gives: its number, the value that it reads, and its division of another amount.
ghost use Rattle.std.specs.Prelude.{◌≡◌, cond, ◌<◌, ◌≤◌, ◌+ℤ◌, nat_abs, pos};
ghost use Rattle.amounts.specs.Fine.{Divides};
ghost use Rattle.language.specs.Answer.{refused};
ghost use Rattle.language.specs.Limits.{max_amount};
ghost use Rattle.language.specs.Payoff.Evaluate.{in_range};
ghost use Rattle.language.specs.Rules.Table.{readable, value_at};
ghost use Rattle.nodes.specs.Table.{RowIn, nat_of, slot_at};
ghost use Rattle.tables.specs.Lookup.{read_table};
ghost use Rattle.checked.specs.Answers.{SmallValued, divided_by, valued_answer};
ghost use Rattle.checked.specs.Ranges.{Near, Waited};

use crate::answers;
use crate::lent::Lent;
use answers::Fault;
use integers::{Month, Pence};
use tables::lookup;

// The month that stands in a row's number k.
pub fn month_at(nodes: &[i64], at: usize, k: usize) -> Month
    requires { RowIn nodes.now at × (k < 5) }
    ensures { result.0 ≡ slot_at nodes.now at k }
{
    Month(nodes::slot(nodes, at, k))
}

// The number of an `N`.
pub fn number(nodes: &[i64], at: usize) -> Result<Pence, Fault>
    requires { RowIn nodes.now at × (nat_abs (slot_at nodes.now at 1) ≤ max_amount) }
    ensures { valued_answer result ≡ in_range max_amount (slot_at nodes.now at 1) }
{
    Ok(amounts::rows::number(nodes, at))
}

// The value of an `O`, with some months waited, or 11.
pub fn reading(lent: &Lent, waited: Month, at: usize) -> Result<Pence, Fault>
    requires { RowIn lent.now.nodes.now at × Waited waited.0 × Near (slot_at lent.now.nodes.now at 2) }
    ensures { valued_answer result ≡ cond
        (readable (read_table lent.now.span.h lent.now.span.f lent.now.bounds.now lent.now.values.now) (nat_of (slot_at lent.now.nodes.now at 1)) (pos (nat_of waited.0) +ℤ slot_at lent.now.nodes.now at 2))
        (in_range max_amount (value_at (read_table lent.now.span.h lent.now.span.f lent.now.bounds.now lent.now.values.now) (nat_of (slot_at lent.now.nodes.now at 1)) (pos (nat_of waited.0) +ℤ slot_at lent.now.nodes.now at 2)))
        (refused 11) }
{
    let month = integers::later(waited, month_at(lent.nodes, at, 2));
    let found = lookup::labelled(
        lent.values,
        lent.bounds,
        lent.span,
        nodes::label(lent.nodes, at),
        month,
    );
    match found {
        Some(p) => Ok(p),
        None => Err(Fault::Unread),
    }
}

// An amount divided by the number of a `Q`: no further from zero than the amount.
pub fn over(nodes: &[i64], at: usize, x: Result<Pence, Fault>) -> Result<Pence, Fault>
    requires { RowIn nodes.now at × Divides (nat_of (slot_at nodes.now at 1)) × SmallValued x }
    ensures { valued_answer result ≡ divided_by (nat_of (slot_at nodes.now at 1)) (valued_answer x) }
{
    match x {
        Ok(p) => Ok(amounts::rows::over(nodes, at, p)),
        Err(k) => Err(k),
    }
}
