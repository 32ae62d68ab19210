// Values with their refusals, and what is made of an amount and a value or of two values: the first refusal wins.
ghost use Rattle.std.specs.Prelude.{◌≡◌, ◌+ℤ◌, ◌*ℤ◌};
ghost use Rattle.checked.specs.Answers.{SmallValued, valued_answer};
ghost use Rattle.language.specs.Answer.{on_both};
ghost use Rattle.language.specs.Limits.{max_value};
ghost use Rattle.language.specs.Payoff.Evaluate.{in_range};
ghost use Rattle.worths.specs.Answers.{SmallWorth, value_answer, worth_answer};

use checked::answers::Fault;
use integers::{Millionths, Pence};
use text::Refusal;

// A value beyond the limit is 14.
pub fn value_of(b: Option<Millionths>) -> Result<Millionths, Refusal>
    ensures { worth_answer result ≡ value_answer b }
{
    b.ok_or(Refusal::OutOfRange)
}

// The amount's refusal comes before the value's.
pub fn scaled(
    a: Result<Pence, Fault>,
    x: Result<Millionths, Refusal>,
) -> Result<Millionths, Refusal>
    requires { SmallValued a × SmallWorth x }
    ensures { worth_answer result ≡ on_both (λ y z. in_range max_value (y *ℤ z)) (valued_answer a) (worth_answer x) }
{
    let p = a?;
    let v = x?;
    value_of(integers::value_scaled(p, v))
}

pub fn added(
    x: Result<Millionths, Refusal>,
    y: Result<Millionths, Refusal>,
) -> Result<Millionths, Refusal>
    requires { SmallWorth x × SmallWorth y }
    ensures { worth_answer result ≡ on_both (λ a b. in_range max_value (a +ℤ b)) (worth_answer x) (worth_answer y) }
{
    let v = x?;
    let w = y?;
    value_of(integers::value_sum(v, w))
}
