// Amounts and tests in four months in a row, all four of them without a refusal, or not sure.
ghost use Rattle.std.specs.Prelude.{◌≡◌, ◌&&◌, ◌||◌, true, ℕ, ◌+◌, ◌<◌, ◌≤◌, ◌*ℤ◌, ◌+ℤ◌, ◌-ℤ◌, nat_abs, pos, length, Some};
ghost use Rattle.std.specs.Int.Signed.{lt_z};
ghost use Rattle.amounts.specs.Fine.{Divides};
ghost use Rattle.amounts.specs.FourMonths.{held_in, pence_in};
ghost use Rattle.integers.specs.Bounded.{Small};
ghost use Rattle.integers.specs.Equal.{eq_z};
ghost use Rattle.language.specs.Answer.{got};
ghost use Rattle.language.specs.Limits.{max_amount};
ghost use Rattle.language.specs.Payoff.Evaluate.{in_range};
ghost use Rattle.nodes.specs.Table.{RowIn, nat_of, slot_at};
ghost use Rattle.tables.specs.Lookup.{standing};
ghost use Rattle.checked.specs.Answers.{divided_by, not_answer, valued_answer};
ghost use Rattle.checked.specs.FourMonths.{Chosen, From, FromTest, FromTests, FromTwo, SmallFour, SureFour, one_of, reading_in};
ghost use Rattle.checked.specs.Ranges.{FourWaited, Near};

use crate::answers::Fault;
use crate::lent::Lent;
use crate::{answers, rows};
use amounts::four::{Four, Held};
use amounts::{four, four_rows};
use integers::{Month, Pence};
use tables::lookup;

const LEAST: i64 = -9_000_000_000_000;

const GREATEST: i64 = 9_000_000_000_000;

// An amount in four months; it counts only where `all` is 1: all four came without a refusal. A whole word, so that answers are moved in
// whole words.
#[derive(Clone, Copy)]
pub struct FourValues {
    pub four: Four,
    pub all: u64,
}

#[derive(Clone, Copy)]
pub struct FourTests {
    pub all: bool,
    pub held: Held,
}

// Nothing is said.
pub fn unsure() -> FourValues
    ensures { result.all ≡ 1 → ⊥ }
{
    FourValues {
        four: Four {
            a: Pence(0),
            b: Pence(0),
            c: Pence(0),
            d: Pence(0),
        },
        all: 0,
    }
}

fn gathered(
    x: Result<Pence, Fault>,
    y: Result<Pence, Fault>,
    z: Result<Pence, Fault>,
    u: Result<Pence, Fault>,
) -> FourValues
    ensures { SureFour result (one_of (valued_answer x) (valued_answer y) (valued_answer z) (valued_answer u)) }
{
    let Ok(a) = x else {
        return unsure();
    };
    let Ok(b) = y else {
        return unsure();
    };
    let Ok(c) = z else {
        return unsure();
    };
    let Ok(d) = u else {
        return unsure();
    };
    FourValues {
        four: Four { a, b, c, d },
        all: 1,
    }
}

// ---- rows

pub fn number(nodes: &[i64], at: usize) -> FourValues
    requires { RowIn nodes.now at × (nat_abs (slot_at nodes.now at 1) ≤ max_amount) }
    ensures { SureFour result (λ k. in_range max_amount (slot_at nodes.now at 1)) }
{
    FourValues {
        four: four_rows::number(nodes, at),
        all: 1,
    }
}

// The values at a place and the three behind it.
fn values_at(values: &[i64], i: usize) -> FourValues
    requires { i + 3 < length values.now }
    ensures { SureFour result (λ k. standing values.now (Some (i + k))) }
{
    FourValues {
        four: Four {
            a: amounts::rows::value_at(values, i),
            b: amounts::rows::value_at(values, i + 1),
            c: amounts::rows::value_at(values, i + 2),
            d: amounts::rows::value_at(values, i + 3),
        },
        all: 1,
    }
}

// The value of an `O`: sure where all four months are in the table.
pub fn reading(lent: &Lent, waited: Month, at: usize) -> FourValues
    requires { RowIn lent.now.nodes.now at × FourWaited waited.0 × Near (slot_at lent.now.nodes.now at 2) }
    ensures { SureFour result (λ k. reading_in lent.now.span.h lent.now.span.f lent.now.bounds.now lent.now.values.now (nat_of (slot_at lent.now.nodes.now at 1)) (pos (nat_of waited.0 + k) +ℤ slot_at lent.now.nodes.now at 2)) }
{
    let first = integers::later(waited, rows::month_at(lent.nodes, at, 2));
    let place = lookup::four_places(lent.bounds, lent.span, nodes::label(lent.nodes, at), first);
    match place {
        Some(i) => values_at(lent.values, i),
        None => unsure(),
    }
}

pub fn over(nodes: &[i64], at: usize, x: FourValues) -> FourValues
    requires { RowIn nodes.now at × Divides (nat_of (slot_at nodes.now at 1)) × SmallFour x }
    ensures { From (divided_by (nat_of (slot_at nodes.now at 1))) x result }
{
    FourValues {
        four: four_rows::over(nodes, at, x.four),
        all: x.all,
    }
}

// ---- two amounts

// Two amounts within the limit; what comes of them may be beyond it, and is tested afterwards.
fn plus(x: Pence, y: Pence) -> Pence
    requires { Small x.0 × Small y.0 }
    ensures { result.0 ≡ x.0 +ℤ y.0 }
{
    Pence(x.0 + y.0)
}

fn minus(x: Pence, y: Pence) -> Pence
    requires { Small x.0 × Small y.0 }
    ensures { result.0 ≡ x.0 -ℤ y.0 }
{
    Pence(x.0 - y.0)
}

fn within(x: Pence) -> bool
    ensures { result ≡ true → Small x.0 }
{
    (LEAST <= x.0) & (x.0 <= GREATEST)
}

// The four, where none is beyond the limit: one test of all, with no jump in between.
fn sure(x: Four) -> FourValues
    ensures { SureFour result (λ k. in_range max_amount (pence_in x k)) }
{
    if (within(x.a) & within(x.b)) & (within(x.c) & within(x.d)) {
        return FourValues { four: x, all: 1 };
    }
    unsure()
}

pub fn sum_of(x: FourValues, y: FourValues) -> FourValues
    requires { SmallFour x × SmallFour y }
    ensures { FromTwo (λ a b. in_range max_amount (a +ℤ b)) x y result }
{
    if (x.all == 1) & (y.all == 1) {
        return sure(Four {
            a: plus(x.four.a, y.four.a),
            b: plus(x.four.b, y.four.b),
            c: plus(x.four.c, y.four.c),
            d: plus(x.four.d, y.four.d),
        });
    }
    unsure()
}

pub fn difference_of(x: FourValues, y: FourValues) -> FourValues
    requires { SmallFour x × SmallFour y }
    ensures { FromTwo (λ a b. in_range max_amount (a -ℤ b)) x y result }
{
    if (x.all == 1) & (y.all == 1) {
        return sure(Four {
            a: minus(x.four.a, y.four.a),
            b: minus(x.four.b, y.four.b),
            c: minus(x.four.c, y.four.c),
            d: minus(x.four.d, y.four.d),
        });
    }
    unsure()
}

pub fn product_of(x: FourValues, y: FourValues) -> FourValues
    requires { SmallFour x × SmallFour y }
    ensures { FromTwo (λ a b. in_range max_amount (a *ℤ b)) x y result }
{
    if (x.all == 1) & (y.all == 1) {
        return gathered(
            answers::amount_of(integers::product(x.four.a, y.four.a)),
            answers::amount_of(integers::product(x.four.b, y.four.b)),
            answers::amount_of(integers::product(x.four.c, y.four.c)),
            answers::amount_of(integers::product(x.four.d, y.four.d)),
        );
    }
    unsure()
}

// The first where the test holds, else the second; both are worked out.
pub fn chosen(t: FourTests, x: FourValues, y: FourValues) -> FourValues
    ensures { Chosen t x y result }
{
    if t.all & ((x.all == 1) & (y.all == 1)) {
        return FourValues {
            four: four::chosen(t.held, x.four, y.four),
            all: 1,
        };
    }
    unsure()
}

// ---- tests

pub fn less_than(x: FourValues, y: FourValues) -> FourTests
    ensures { FromTest (λ a b. got (lt_z a b)) x y result }
{
    FourTests {
        all: (x.all == 1) & (y.all == 1),
        held: four::less(x.four, y.four),
    }
}

pub fn equal_to(x: FourValues, y: FourValues) -> FourTests
    ensures { FromTest (λ a b. got (eq_z a b)) x y result }
{
    FourTests {
        all: (x.all == 1) & (y.all == 1),
        held: four::equal(x.four, y.four),
    }
}

pub fn both_hold(x: FourTests, y: FourTests) -> FourTests
    ensures { FromTests (λ a b. got (a && b)) x y result }
{
    FourTests {
        all: x.all & y.all,
        held: four::both(x.held, y.held),
    }
}

pub fn one_holds(x: FourTests, y: FourTests) -> FourTests
    ensures { FromTests (λ a b. got (a || b)) x y result }
{
    FourTests {
        all: x.all & y.all,
        held: four::either(x.held, y.held),
    }
}

pub fn opposite(x: FourTests) -> FourTests
    ensures { (result.all ≡ true) → (x.all ≡ true) × ((k : ℕ) → k < 4 → got (held_in result.held k) ≡ not_answer (got (held_in x.held k))) }
{
    FourTests {
        all: x.all,
        held: four::opposite(x.held),
    }
}
