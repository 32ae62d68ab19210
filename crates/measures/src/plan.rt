// What the rules ask of a plan, in one walk: its length, its first month, whether all of it is known in time, its reads, its magnitude.
ghost use Rattle.std.specs.Prelude.{◌≡◌, true, ◌+◌, ◌≤◌, ℕ, ℤ, length};
ghost use Rattle.language.specs.Limits.{max_amount, max_months};
ghost use Rattle.language.specs.Rules.Measures.{latest_of, latest_of_test};
ghost use Rattle.language.specs.Rules.Table.{Table};
ghost use Rattle.language.specs.Rules.Tests.{amount_reads, test_reads, test_is_small};
ghost use Rattle.language.specs.Text.Trees.{Amount, Plan, Test, both, later, nothing, scale, transfer, within};
ghost use Rattle.nodes.specs.Found.{amount_at, offset_of, plan_at, test_at};
ghost use Rattle.nodes.specs.Table.{nat_of};
ghost use Rattle.measures.specs.Magnitudes.{bound_in, measured_amount};
ghost use Rattle.measures.specs.PlanMeasures.{Addable, MeasuresOf};
ghost use Rattle.measures.specs.Ready.{AmountReady, PlanReady, TestReady};
ghost use Rattle.measures.specs.Spans.{Near, Seen};
ghost use Rattle.measures.specs.Timing.{latest_month, never_month};

use crate::lent::Lent;
use crate::rows::Rows;
use crate::{first, limit, magnitude, node, reads, rows};
use integers::Month;
use nodes::PlanLetter;

// A plan's measures; known: all of it is known in time.
#[derive(Clone, Copy)]
pub struct Measures {
    pub length: u64,
    pub first: u64,
    pub magnitude: u64,
    pub known: bool,
    pub reads: bool,
}

// ---- an amount and a test, from the magnitudes of their rows summed

// The magnitude of an amount: the sum, or by a walk where that is beyond the limit.
pub fn amount_of(lent: &Lent, at: usize, rows: u64) -> u64
    requires { AmountReady 512 lent.now.nodes.now at
        × (rows ≤ max_amount → rows ≡ measured_amount (bound_in lent.now.bounds.now) (amount_at offset_of 512 lent.now.nodes.now at)) }
    ensures { result ≡ measured_amount (bound_in lent.now.bounds.now) (amount_at offset_of 512 lent.now.nodes.now at) }
{
    if limit::is_within(rows) {
        return rows;
    }
    magnitude::amount_magnitude(lent, at, 512)
}

// Whether a test is small: so it is where the sum is within the limit.
pub fn test_of(lent: &Lent, at: usize, rows: u64) -> bool
    requires { TestReady 512 lent.now.nodes.now at
        × (rows ≤ max_amount → test_is_small (bound_in lent.now.bounds.now) (test_at offset_of 512 lent.now.nodes.now at) ≡ true) }
    ensures { result ≡ test_is_small (bound_in lent.now.bounds.now) (test_at offset_of 512 lent.now.nodes.now at) }
{
    if limit::is_within(rows) {
        return true;
    }
    magnitude::test_small(lent, at, 512)
}

// ---- each letter, from its parts

// A plan that pays nothing.
fn of_nothing() -> Measures
    ensures { (t : Table) (a z : ℕ) (bound : ℕ → ℕ) → MeasuresOf t a z bound nothing result }
{
    Measures {
        length: 0,
        first: first::NEVER,
        magnitude: 0,
        known: true,
        reads: true,
    }
}

// A penny from one party to another.
fn of_transfer() -> Measures
    ensures { (t : Table) (a z : ℕ) (bound : ℕ → ℕ) (p q : ℕ) → MeasuresOf t a z bound (transfer p q) result }
{
    Measures {
        length: 0,
        first: 0,
        magnitude: 1,
        known: true,
        reads: true,
    }
}

// A plan times an amount: its rows, and its magnitude m.
fn of_scale(rows: Rows, m: u64, x: Measures) -> Measures
    requires { Addable x }
    ensures { (t : Table) (a z : ℕ) (bound : ℕ → ℕ) (n : Amount ℤ) (p : Plan ℕ)
        → rows.latest ≡ latest_month (latest_of n) → rows.reads ≡ amount_reads t a z n → m ≡ measured_amount bound n
        → MeasuresOf t a z bound p x → MeasuresOf t a z bound (scale n p) result }
{
    let length = x.length;
    let first = x.first;
    let magnitude = limit::product_of(m, x.magnitude);
    let timely = first::in_time(rows.latest, x.first);
    let known = timely & x.known;
    let reads = rows.reads & x.reads;
    Measures {
        length: length,
        first: first,
        magnitude: magnitude,
        known: known,
        reads: reads,
    }
}

// A plan d months later.
fn of_later(d: u64, x: Measures) -> Measures
    requires { (d ≤ max_months) × Addable x × (x.first ≤ never_month) }
    ensures { (t : Table) (a z : ℕ) (bound : ℕ → ℕ) (p : Plan ℕ)
        → MeasuresOf t (a + d) (z + d) bound p x → MeasuresOf t a z bound (later d p) result }
{
    let length = d + x.length;
    let first = first::after_delay(d, x.first);
    let magnitude = x.magnitude;
    let known = x.known;
    let reads = x.reads;
    Measures {
        length: length,
        first: first,
        magnitude: magnitude,
        known: known,
        reads: reads,
    }
}

// Two plans at once.
fn of_both(x: Measures, y: Measures) -> Measures
    requires { Addable x × Addable y }
    ensures { (t : Table) (a z : ℕ) (bound : ℕ → ℕ) (p q : Plan ℕ)
        → MeasuresOf t a z bound p x → MeasuresOf t a z bound q y → MeasuresOf t a z bound (both p q) result }
{
    let length = x.length.max(y.length);
    let first = x.first.min(y.first);
    let magnitude = limit::sum_of(x.magnitude, y.magnitude);
    let known = x.known & y.known;
    let reads = x.reads & y.reads;
    Measures {
        length: length,
        first: first,
        magnitude: magnitude,
        known: known,
        reads: reads,
    }
}

// The one plan or the other within d months: the test's rows, and whether it is small.
fn of_within(d: u64, rows: Rows, small: bool, x: Measures, y: Measures) -> Measures
    requires { (d ≤ max_months) × Addable x × Addable y }
    ensures { (t : Table) (a z : ℕ) (bound : ℕ → ℕ) (c : Test ℤ) (p q : Plan ℕ)
        → rows.latest ≡ latest_month (latest_of_test c) → rows.reads ≡ test_reads t a (z + d) c → small ≡ test_is_small bound c
        → MeasuresOf t a (z + d) bound p x → MeasuresOf t (a + d) (z + d) bound q y → MeasuresOf t a z bound (within d c p q) result }
{
    let after = x.length.max(y.length);
    let length = d + after;
    let paid = x.first.min(y.first);
    let magnitude = limit::greater_where(small, x.magnitude, y.magnitude);
    let timely = first::tried_in_time(rows.latest);
    let known = timely & (x.known & y.known);
    let reads = rows.reads & (x.reads & y.reads);
    Measures {
        length: length,
        first: paid,
        magnitude: magnitude,
        known: known,
        reads: reads,
    }
}

// ---- the walk

// A plan, and the offsets that can be read from every month in which its node may stand.
pub fn measure_plan(lent: &Lent, at: usize, left: usize, low: Month, high: Month) -> Measures
    requires { PlanReady left lent.now.nodes.now at × Near left low.0 high.0 }
    ensures { (t : Table) (a z : ℕ) → Seen low.0 high.0 (length lent.now.bounds.now) t a z
        → MeasuresOf t a z (bound_in lent.now.bounds.now) (plan_at nat_of left lent.now.nodes.now at) result }
{
    let letter = nodes::plan_kind(lent.nodes, at);
    match letter {
        PlanLetter::Nothing => of_nothing(),
        PlanLetter::Transfer => of_transfer(),
        PlanLetter::Scale => {
            let next = nodes::link(lent.nodes, at, 3);
            let w = reads::window_of(low, high, lent.bounds.len());
            let rows = rows::read_rows(lent, at + 1, next, w);
            let m = amount_of(lent, at + 1, rows.magnitude);
            if node::is_transfer(lent.nodes, next) {
                return of_scale(rows, m, of_transfer());
            }
            let x = measure_plan(lent, next, left - 1, low, high);
            of_scale(rows, m, x)
        }
        PlanLetter::Later => {
            let d = nodes::delay(lent.nodes, at);
            let low_then = reads::nearer(low, d);
            let high_then = reads::nearer(high, d);
            let x = measure_plan(lent, at + 1, left - 1, low_then, high_then);
            of_later(node::months(lent.nodes, at), x)
        }
        PlanLetter::Both => {
            let next = nodes::link(lent.nodes, at, 3);
            let x = measure_plan(lent, at + 1, left - 1, low, high);
            let y = measure_plan(lent, next, left - 1, low, high);
            of_both(x, y)
        }
        PlanLetter::Within => {
            let d = nodes::delay(lent.nodes, at);
            let low_then = reads::nearer(low, d);
            let high_then = reads::nearer(high, d);
            let next = nodes::link(lent.nodes, at, 3);
            let other = nodes::link(lent.nodes, at, 4);
            let w = reads::window_of(low, high_then, lent.bounds.len());
            let rows = rows::read_rows(lent, at + 1, next, w);
            let t = test_of(lent, at + 1, rows.magnitude);
            let x = measure_plan(lent, next, left - 1, low, high_then);
            let y = measure_plan(lent, other, left - 1, low_then, high_then);
            of_within(node::months(lent.nodes, at), rows, t, x, y)
        }
        PlanLetter::NoPlan => of_nothing(),
    }
}
