// Amounts and tests with some months waited, in four months in a row: each node is looked at once for the four. Not sure where a month
// is refused, and then each month is worked out by itself.
ghost use Rattle.std.specs.Prelude.{◌+◌};
ghost use Rattle.checked.specs.Checked.{test_in, value_found};
ghost use Rattle.checked.specs.FourMonths.{SureFour, SureTests};
ghost use Rattle.checked.specs.Ranges.{FourWaited, Near};
ghost use Rattle.language.specs.Text.Form.{fields_of_amount, fields_of_test};
ghost use Rattle.nodes.specs.Found.{amount_at, offset_of, test_at};
ghost use Rattle.nodes.specs.Stands.{AmountStands, TestStands};
ghost use Rattle.nodes.specs.Table.{nat_of};

use amounts::four::Held;
use checked::four;
use checked::four::{FourTests, FourValues};
use checked::lent::Lent;
use integers::Month;
use nodes::{AmountLetter, TestLetter};

// An `N` or an `O`; of any other letter nothing is said. Both here, so that `operands` is small.
fn leaves(lent: &Lent, waited: Month, at: usize, left: usize) -> FourValues
    requires { FourWaited waited.0 × AmountStands left lent.now.nodes.now at × fields_of_amount Near (amount_at offset_of left lent.now.nodes.now at) }
    ensures { SureFour result (λ k. value_found lent.now.span.h lent.now.span.f lent.now.bounds.now lent.now.values.now (amount_at offset_of left lent.now.nodes.now at) (nat_of waited.0 + k)) }
{
    let x = nodes::slot(lent.nodes, at, 0);
    match x {
        78 => four::number(lent.nodes, at),
        79 => four::reading(lent, waited, at),
        _ => four::unsure(),
    }
}

// The amount at a node: a number or an index without a call. Small, so that the compiler puts it in each of its places.
#[cycle(amounts_operands_tests)]
pub fn operands(lent: &Lent, waited: Month, at: usize, left: usize) -> FourValues
    requires { FourWaited waited.0 × AmountStands left lent.now.nodes.now at × fields_of_amount Near (amount_at offset_of left lent.now.nodes.now at) }
    ensures { SureFour result (λ k. value_found lent.now.span.h lent.now.span.f lent.now.bounds.now lent.now.values.now (amount_at offset_of left lent.now.nodes.now at) (nat_of waited.0 + k)) }
{
    let x = nodes::slot(lent.nodes, at, 0);
    match x {
        78 | 79 => leaves(lent, waited, at, left),
        _ => amounts(lent, waited, at, left),
    }
}

// The amount at a node of any letter; of an `I` both branches.
#[cycle(amounts_operands_tests)]
pub fn amounts(lent: &Lent, waited: Month, at: usize, left: usize) -> FourValues
    requires { FourWaited waited.0 × AmountStands left lent.now.nodes.now at × fields_of_amount Near (amount_at offset_of left lent.now.nodes.now at) }
    ensures { SureFour result (λ k. value_found lent.now.span.h lent.now.span.f lent.now.bounds.now lent.now.values.now (amount_at offset_of left lent.now.nodes.now at) (nat_of waited.0 + k)) }
{
    let letter = nodes::amount_letter(nodes::slot(lent.nodes, at, 0));
    match letter {
        AmountLetter::Number => four::number(lent.nodes, at),
        AmountLetter::Index => four::reading(lent, waited, at),
        AmountLetter::Sum => {
            let x = operands(lent, waited, at + 1, left - 1);
            let y = operands(lent, waited, nodes::link(lent.nodes, at, 3), left - 1);
            four::sum_of(x, y)
        }
        AmountLetter::Difference => {
            let x = operands(lent, waited, at + 1, left - 1);
            let y = operands(lent, waited, nodes::link(lent.nodes, at, 3), left - 1);
            four::difference_of(x, y)
        }
        AmountLetter::Product => {
            let x = operands(lent, waited, at + 1, left - 1);
            let y = operands(lent, waited, nodes::link(lent.nodes, at, 3), left - 1);
            four::product_of(x, y)
        }
        AmountLetter::Quotient => {
            let x = operands(lent, waited, at + 1, left - 1);
            four::over(lent.nodes, at, x)
        }
        AmountLetter::Choose => {
            let t = tests(lent, waited, at + 1, left - 1);
            let x = operands(lent, waited, nodes::link(lent.nodes, at, 3), left - 1);
            let y = operands(lent, waited, nodes::link(lent.nodes, at, 4), left - 1);
            four::chosen(t, x, y)
        }
        AmountLetter::NoAmount => four::unsure(),
    }
}

// Whether the test at a node holds. `Y` and `V` try both sides.
#[cycle(amounts_operands_tests)]
pub fn tests(lent: &Lent, waited: Month, at: usize, left: usize) -> FourTests
    requires { FourWaited waited.0 × TestStands left lent.now.nodes.now at × fields_of_test Near (test_at offset_of left lent.now.nodes.now at) }
    ensures { SureTests result (λ k. test_in lent.now.span.h lent.now.span.f lent.now.bounds.now lent.now.values.now (test_at offset_of left lent.now.nodes.now at) (nat_of waited.0 + k)) }
{
    let letter = nodes::test_letter(nodes::slot(lent.nodes, at, 0));
    match letter {
        TestLetter::Less => {
            let x = operands(lent, waited, at + 1, left - 1);
            let y = operands(lent, waited, nodes::link(lent.nodes, at, 3), left - 1);
            four::less_than(x, y)
        }
        TestLetter::Equal => {
            let x = operands(lent, waited, at + 1, left - 1);
            let y = operands(lent, waited, nodes::link(lent.nodes, at, 3), left - 1);
            four::equal_to(x, y)
        }
        TestLetter::Conjunction => {
            let x = tests(lent, waited, at + 1, left - 1);
            let y = tests(lent, waited, nodes::link(lent.nodes, at, 3), left - 1);
            four::both_hold(x, y)
        }
        TestLetter::Disjunction => {
            let x = tests(lent, waited, at + 1, left - 1);
            let y = tests(lent, waited, nodes::link(lent.nodes, at, 3), left - 1);
            four::one_holds(x, y)
        }
        TestLetter::Negation => {
            let x = tests(lent, waited, at + 1, left - 1);
            four::opposite(x)
        }
        TestLetter::NoTest => FourTests {
            all: false,
            held: Held {
                a: false,
                b: false,
                c: false,
                d: false,
            },
        },
    }
}
