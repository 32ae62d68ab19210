// What is left of a column from each month on: payments times factors, added up from the last month back.
ghost use Rattle.std.specs.Prelude.{◌≡◌, ◌<◌, ◌≤◌, ℕ, ℤ, pos, get_or, length};
ghost use Rattle.columns.specs.Remaining.{SumsFit, due_of, rest_from};
ghost use Rattle.integers.specs.Bounded.{SmallValue};

use integers::{Millionths, Pence};

// One month's payment times its factor.
pub fn due_in(factors: &[i64], column: &[i64], m: usize) -> Millionths
    requires { (m < length factors.now) × (m < length column.now) × SmallValue (due_of factors.now column.now m) }
    ensures { result.0 ≡ due_of factors.now column.now m }
{
    let paid = Pence(column[m]);
    let factor = Millionths(factors[m]);
    integers::value_times(paid, factor)
}

// For each of the first months, what it and those behind it are worth.
pub fn add_back(factors: &[i64], column: &[i64], rest: &mut [i64], months: usize)
    requires { (months ≤ length factors.now) × (months ≤ length column.now) × (months ≤ length rest.old) × SumsFit factors.now column.now months }
    ensures { (m : ℕ) → m < months → get_or rest.new m (pos 0) ≡ rest_from factors.now column.now months m }
{
    let mut sum = Millionths(0);
    for m in (0..months).rev() {
        let due = due_in(factors, column, m);
        sum = integers::value_plus(due, sum);
        let x = sum.0;
        rest[m] = x;
    }
}
