// Settings and tables: whether they keep the rules, and what they hold.
#![tactic(auto)]

ghost use Rattle.std.specs.Prelude.{◌≡◌, ℕ, ◌+◌, ◌*◌, ◌≤◌, true, ◌&&◌, length, drop, ℤ, pos, ◌==◌, nat_le};
ghost use Rattle.language.specs.Limits.{max_amount, max_back, max_labels, max_months, one_factor};
ghost use Rattle.language.specs.Rules.Table.{all_of, is_month, is_a_party, are_settings, is_table, are_bounded};
ghost use Rattle.language.specs.Text.Number.{between};
ghost use Rattle.tables.specs.Given.{table_of};
ghost use Rattle.tables.specs.Words.{Narrow, word_of};

pub mod fill;
pub mod given;
pub mod lookup;

// The whole numbers from low to high.
#[derive(Clone, Copy)]
pub struct Range {
    pub low: i64,
    pub high: i64,
}

pub fn is_between(x: i64, range: Range) -> bool
    ensures { result ≡ between range.low range.high x }
{
    (range.low <= x) & (x <= range.high)
}

// The 64 bits that hold x, as a number.
fn word(x: i64) -> u64
    ensures { result ≡ word_of x }
{
    x.cast_unsigned()
}

// The greatest word whose first bit is 0.
const LAST: u64 = 9_223_372_036_854_775_807;

// Whether all numbers of two lists of one length lie in the range. A number's word less that of the range's first wraps to a great one
// where the number lies below, and less `over` besides where it lies above; a great word has its first bit set, and so has any that it
// is joined with.
fn both_between(xs: &[i64], ys: &[i64], range: Range) -> bool
    requires { Narrow range.low range.high × (length xs.now ≡ length ys.now) }
    ensures { result ≡ all_of (between range.low range.high) xs.now && all_of (between range.low range.high) ys.now }
{
    let first = word(range.low);
    let width = word(range.high).wrapping_sub(first);
    // Less this, the range's last is the greatest word whose first bit is 0. What is added in its place the compiler would first add to
    // what `first` takes away, and then copy every number to have both sums of it.
    let over = width.wrapping_sub(LAST);
    let mut below = 0u64;
    let mut above = 0u64;
    for (x, y) in xs.iter().zip(ys) {
        let a = word(*x).wrapping_sub(first);
        below |= a;
        above |= a.wrapping_sub(over);
        let b = word(*y).wrapping_sub(first);
        below |= b;
        above |= b.wrapping_sub(over);
    }
    (below | above) <= LAST
}

// The same of the numbers from a place on, where that is the last one's or the end.
fn last_between(xs: &[i64], at: usize, range: Range) -> bool
    requires { length xs.now ≤ at + 1 }
    ensures { result ≡ all_of (between range.low range.high) (drop at xs.now) }
{
    if at < xs.len() {
        return is_between(xs[at], range);
    }
    true
}

// Whether all numbers lie in the range: both halves in one loop, which takes fewer turns, and the last of an odd number.
pub fn all_between(xs: &[i64], range: Range) -> bool
    requires { Narrow range.low range.high }
    ensures { result ≡ all_of (between range.low range.high) xs.now }
{
    let half = xs.len() / 2;
    let rest = half + half;
    let halves = both_between(&xs[0..half], &xs[half..rest], range);
    halves & last_between(xs, rest, range)
}

pub fn settings_ok(days: &[i64]) -> bool
    ensures { result ≡ are_settings days.now }
{
    if days.len() > 8 {
        return false;
    }
    all_between(days, Range { low: 0, high: 600 })
}

pub fn party_ok(p: i64) -> bool
    ensures { result ≡ is_a_party p }
{
    is_between(p, Range { low: 1, high: 9 })
}

// A month from 0 to f.
pub fn month_ok(f: i64, month: i64) -> bool
    ensures { result ≡ between (pos 0) f month }
{
    is_between(month, Range { low: 0, high: f })
}

// Each label's n values are no further from zero than its bound.
pub fn values_bounded(n: usize, bounds: &[i64], values: &[i64]) -> bool
    requires { (length values.now ≡ length bounds.now * n) × (all_of (between (pos 0) (pos max_amount)) bounds.now ≡ true) }
    ensures { result ≡ are_bounded n bounds.now values.now }
{
    for (k, bound) in bounds.iter().enumerate() {
        let at = k * n;
        let range = Range {
            low: -*bound,
            high: *bound,
        };
        if !all_between(&values[at..at + n], range) {
            return false;
        }
    }
    true
}

// The months that a table covers, and how many labels it has.
#[derive(Clone, Copy)]
pub struct Span {
    pub h: i64,
    pub f: i64,
}

pub fn span_ok(span: Span) -> bool
    ensures { result ≡ between (pos 0) (pos max_back) span.h && between (pos 0) (pos max_months) span.f }
{
    is_between(span.h, Range { low: 0, high: 60 }) & is_between(span.f, Range { low: 0, high: 600 })
}

pub fn factors_ok(months: usize, factors: &[i64]) -> bool
    ensures { result ≡ (length factors.now == months) && all_of (between (pos 0) (pos one_factor)) factors.now }
{
    (factors.len() == months)
        & all_between(
            factors,
            Range {
                low: 0,
                high: 1_000_000,
            },
        )
}

pub fn bounds_ok(bounds: &[i64]) -> bool
    ensures { result ≡ nat_le (length bounds.now) max_labels && all_of (between (pos 0) (pos max_amount)) bounds.now }
{
    (bounds.len() <= 8)
        & all_between(
            bounds,
            Range {
                low: 0,
                high: 9_000_000_000_000,
            },
        )
}

pub fn table_ok(span: Span, factors: &[i64], bounds: &[i64], values: &[i64]) -> bool
    ensures { result ≡ is_table (table_of span.h span.f factors.now bounds.now values.now) }
{
    if span_ok(span) {
        let months = span.f as usize + 1;
        let n = span.h as usize + months;
        if factors_ok(months, factors) & bounds_ok(bounds) {
            if values.len() == bounds.len() * n {
                return values_bounded(n, bounds, values);
            }
        }
    }
    false
}
