// Amounts and tests with their refusals, and what is made of two of them: the first refusal wins.
ghost use Rattle.std.specs.Prelude.{◌≡◌, ◌&&◌, ◌||◌, ◌+ℤ◌, ◌-ℤ◌, ◌*ℤ◌};
ghost use Rattle.std.specs.Int.Signed.{lt_z};
ghost use Rattle.integers.specs.Equal.{eq_z};
ghost use Rattle.language.specs.Answer.{got, on_both};
ghost use Rattle.language.specs.Limits.{max_amount};
ghost use Rattle.language.specs.Payoff.Evaluate.{in_range};
ghost use Rattle.text.specs.Refusals.{number_of};
ghost use Rattle.checked.specs.Answers.{SmallValued, amount_answer, fault_number, not_answer, tested_answer, valued_answer};

use integers::Pence;
use text::Refusal;

// What an amount or a test can be refused for: 11 or 14.
#[derive(Clone, Copy)]
pub enum Fault {
    Unread,
    Beyond,
}

impl From<Fault> for Refusal {
    ghost from_gives = { λ k r. number_of r ≡ fault_number k };

    fn from(k: Fault) -> Refusal {
        match k {
            Fault::Unread => Refusal::Reads,
            Fault::Beyond => Refusal::OutOfRange,
        }
    }
}

// An amount beyond the limit is 14.
pub fn amount_of(b: Option<Pence>) -> Result<Pence, Fault>
    ensures { valued_answer result ≡ amount_answer b }
{
    b.ok_or(Fault::Beyond)
}

// ---- amounts

pub fn sum_of(x: Result<Pence, Fault>, y: Result<Pence, Fault>) -> Result<Pence, Fault>
    requires { SmallValued x × SmallValued y }
    ensures { valued_answer result ≡ on_both (λ a b. in_range max_amount (a +ℤ b)) (valued_answer x) (valued_answer y) }
{
    let p = x?;
    let q = y?;
    amount_of(integers::sum(p, q))
}

pub fn difference_of(x: Result<Pence, Fault>, y: Result<Pence, Fault>) -> Result<Pence, Fault>
    requires { SmallValued x × SmallValued y }
    ensures { valued_answer result ≡ on_both (λ a b. in_range max_amount (a -ℤ b)) (valued_answer x) (valued_answer y) }
{
    let p = x?;
    let q = y?;
    amount_of(integers::difference(p, q))
}

pub fn product_of(x: Result<Pence, Fault>, y: Result<Pence, Fault>) -> Result<Pence, Fault>
    requires { SmallValued x × SmallValued y }
    ensures { valued_answer result ≡ on_both (λ a b. in_range max_amount (a *ℤ b)) (valued_answer x) (valued_answer y) }
{
    let p = x?;
    let q = y?;
    amount_of(integers::product(p, q))
}

// ---- tests

pub fn less_than(x: Result<Pence, Fault>, y: Result<Pence, Fault>) -> Result<bool, Fault>
    ensures { tested_answer result ≡ on_both (λ a b. got (lt_z a b)) (valued_answer x) (valued_answer y) }
{
    let p = x?;
    let q = y?;
    Ok(integers::less(p, q))
}

pub fn equal_to(x: Result<Pence, Fault>, y: Result<Pence, Fault>) -> Result<bool, Fault>
    ensures { tested_answer result ≡ on_both (λ a b. got (eq_z a b)) (valued_answer x) (valued_answer y) }
{
    let p = x?;
    let q = y?;
    Ok(integers::equal(p, q))
}

pub fn both_hold(x: Result<bool, Fault>, y: Result<bool, Fault>) -> Result<bool, Fault>
    ensures { tested_answer result ≡ on_both (λ a b. got (a && b)) (tested_answer x) (tested_answer y) }
{
    let s = x?;
    let t = y?;
    Ok(s & t)
}

pub fn one_holds(x: Result<bool, Fault>, y: Result<bool, Fault>) -> Result<bool, Fault>
    ensures { tested_answer result ≡ on_both (λ a b. got (a || b)) (tested_answer x) (tested_answer y) }
{
    let s = x?;
    let t = y?;
    Ok(s | t)
}

pub fn opposite(x: Result<bool, Fault>) -> Result<bool, Fault>
    ensures { tested_answer result ≡ not_answer (tested_answer x) }
{
    let s = x?;
    Ok(!s)
}
