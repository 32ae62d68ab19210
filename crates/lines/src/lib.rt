// A sheet's lines, read into lent lists of numbers.
#![tactic(auto)]

ghost use Rattle.std.specs.Prelude.{◌≡◌, ◌&&◌, ◌≤◌, ltb, ◌+ℤ◌, nat_abs, pos, length};
ghost use Rattle.integers.specs.Bounded.{Small};
ghost use Rattle.integers.specs.Equal.{eq_z};
ghost use Rattle.lines.specs.Sheets.{SheetIs};

use indexes::Months;

pub mod ends;
pub mod figures;
pub mod indexes;
pub mod numbers;
pub mod parts;
pub mod words;

// What a sheet holds: where the plan's text stands, how many settings, factors, labels and values there are, span and pair.
#[derive(Clone, Copy)]
pub struct Sheet {
    pub from: usize,
    pub to: usize,
    pub days: usize,
    pub h: i64,
    pub f: i64,
    pub factors: usize,
    pub p: i64,
    pub q: i64,
    pub labels: usize,
    pub values: usize,
}

// How many factors a table must have.
fn factor_months(f: i64) -> Months
    requires { Small f }
    ensures { result.0 ≡ f +ℤ pos 1 }
{
    Months(f + 1)
}

// How many values each of its labels must have.
fn value_months(h: i64, f: i64) -> Months
    requires { Small h × Small f }
    ensures { result.0 ≡ (h +ℤ f) +ℤ pos 1 }
{
    Months(h + f + 1)
}

// A count that is not 0 and fits the span.
fn fits(months: Months, count: usize) -> bool
    requires { count ≤ 60_001 }
    ensures { result ≡ ltb 0 count && eq_z months.0 (pos count) }
{
    (0 < count) & (months.0 == count as i64)
}

// The lines of a sheet in their order; numbers are kept as far as the lent lists have room.
pub fn read_sheet(
    input: &[u8],
    days: &mut [i64],
    factors: &mut [i64],
    bounds: &mut [i64],
    values: &mut [i64],
) -> Option<Sheet>
    requires { length input.now ≤ 60_000 }
    ensures { SheetIs input.now days.new factors.new bounds.new values.new result }
{
    let whole = ends::ended(input);
    if !whole {
        return None;
    }
    let plan = parts::plan_line(input)?;
    let settings = parts::number_line(input, plan.next, b"days", days)?;
    let span = parts::pair_line(input, settings.next, b"span")?;
    let discounts = parts::number_line(input, span.next, b"factors", factors)?;
    if !fits(factor_months(span.second), discounts.count) {
        return None;
    }
    let pair = parts::pair_line(input, discounts.next, b"pair")?;
    let months = value_months(span.first, span.second);
    let labels = indexes::read_indexes(input, pair.next, months, bounds, values)?;
    Some(Sheet {
        from: plan.from,
        to: plan.to,
        days: settings.count,
        h: span.first,
        f: span.second,
        factors: discounts.count,
        p: pair.first,
        q: pair.second,
        labels: labels.labels,
        values: labels.values,
    })
}
