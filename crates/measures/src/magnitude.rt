// How far from zero an amount may be: the magnitude, where it is within the limit at every node.
ghost use Rattle.std.specs.Prelude.{◌≡◌, ◌&&◌, ◌+◌, nat_abs};
ghost use Rattle.language.specs.Rules.Tests.{amount_small, test_is_small};
ghost use Rattle.nodes.specs.Found.{amount_at, offset_of, test_at};
ghost use Rattle.nodes.specs.Table.{RowIn, link_at, slot_at};
ghost use Rattle.measures.specs.Magnitudes.{bound_in, joined, measured_amount};
ghost use Rattle.measures.specs.Ready.{AmountReady, AmountsReady, TestReady, TestsReady};

use crate::lent::Lent;
use crate::{limit, node};
use nodes::{AmountLetter, TestLetter};

// ---- a node's own

// The distance from zero of an `N`.
pub fn distance(nodes: &[i64], at: usize) -> u64
    requires { RowIn nodes.now at }
    ensures { result ≡ nat_abs (slot_at nodes.now at 1) }
{
    nodes::slot(nodes, at, 1).unsigned_abs()
}

// A label's bound, 0 for an absent label.
pub fn bound_of(bounds: &[i64], l: usize) -> u64
    ensures { result ≡ bound_in bounds.now l }
{
    if l < bounds.len() {
        return bounds[l].unsigned_abs();
    }
    0
}

// ---- amounts and tests

#[cycle(amount_magnitude_operand_test_small_two_small_two_summed_two_tests)]
pub fn amount_magnitude(lent: &Lent, at: usize, left: usize) -> u64
    requires { AmountReady left lent.now.nodes.now at }
    ensures { result ≡ measured_amount (bound_in lent.now.bounds.now) (amount_at offset_of left lent.now.nodes.now at) }
{
    let letter = node::amount_kind(lent.nodes, at);
    match letter {
        AmountLetter::Number => distance(lent.nodes, at),
        AmountLetter::Index => bound_of(lent.bounds, nodes::label(lent.nodes, at)),
        AmountLetter::Sum => two_summed(lent, at, left - 1),
        AmountLetter::Difference => two_summed(lent, at, left - 1),
        AmountLetter::Product => {
            let x = operand(lent, at + 1, left - 1);
            let y = operand(lent, nodes::link(lent.nodes, at, 3), left - 1);
            limit::product_of(x, y)
        }
        AmountLetter::Quotient => amount_magnitude(lent, at + 1, left - 1),
        AmountLetter::Choose => {
            let t = test_small(lent, at + 1, left - 1);
            let x = operand(lent, nodes::link(lent.nodes, at, 3), left - 1);
            let y = operand(lent, nodes::link(lent.nodes, at, 4), left - 1);
            limit::greater_where(t, x, y)
        }
        AmountLetter::NoAmount => 0,
    }
}

// Whether every amount in the test is within the limit.
#[cycle(amount_magnitude_operand_test_small_two_small_two_summed_two_tests)]
pub fn test_small(lent: &Lent, at: usize, left: usize) -> bool
    requires { TestReady left lent.now.nodes.now at }
    ensures { result ≡ test_is_small (bound_in lent.now.bounds.now) (test_at offset_of left lent.now.nodes.now at) }
{
    let letter = node::test_kind(lent.nodes, at);
    match letter {
        TestLetter::Less => two_small(lent, at, left - 1),
        TestLetter::Equal => two_small(lent, at, left - 1),
        TestLetter::Conjunction => two_tests(lent, at, left - 1),
        TestLetter::Disjunction => two_tests(lent, at, left - 1),
        TestLetter::Negation => test_small(lent, at + 1, left - 1),
        TestLetter::NoTest => true,
    }
}

// The magnitude of an amount: a number or an index without a call.
#[cycle(amount_magnitude_operand_test_small_two_small_two_summed_two_tests)]
fn operand(lent: &Lent, at: usize, left: usize) -> u64
    requires { AmountReady left lent.now.nodes.now at }
    ensures { result ≡ measured_amount (bound_in lent.now.bounds.now) (amount_at offset_of left lent.now.nodes.now at) }
{
    let x = nodes::slot(lent.nodes, at, 0);
    match x {
        78 => distance(lent.nodes, at),
        79 => bound_of(lent.bounds, nodes::label(lent.nodes, at)),
        _ => amount_magnitude(lent, at, left),
    }
}

// The two amounts below a node, summed.
#[cycle(amount_magnitude_operand_test_small_two_small_two_summed_two_tests)]
fn two_summed(lent: &Lent, at: usize, left: usize) -> u64
    requires { AmountsReady left lent.now.nodes.now at }
    ensures { result ≡ joined ◌+◌
        (measured_amount (bound_in lent.now.bounds.now) (amount_at offset_of left lent.now.nodes.now (at + 1)))
        (measured_amount (bound_in lent.now.bounds.now) (amount_at offset_of left lent.now.nodes.now (link_at lent.now.nodes.now at 3))) }
{
    let x = operand(lent, at + 1, left);
    let y = operand(lent, nodes::link(lent.nodes, at, 3), left);
    limit::sum_of(x, y)
}

// Whether the two amounts below a node are within the limit.
#[cycle(amount_magnitude_operand_test_small_two_small_two_summed_two_tests)]
fn two_small(lent: &Lent, at: usize, left: usize) -> bool
    requires { AmountsReady left lent.now.nodes.now at }
    ensures { result ≡
        (amount_small (bound_in lent.now.bounds.now) (amount_at offset_of left lent.now.nodes.now (at + 1)) &&
        amount_small (bound_in lent.now.bounds.now) (amount_at offset_of left lent.now.nodes.now (link_at lent.now.nodes.now at 3))) }
{
    let x = operand(lent, at + 1, left);
    let y = operand(lent, nodes::link(lent.nodes, at, 3), left);
    limit::is_within(x) & limit::is_within(y)
}

// The two tests below a node.
#[cycle(amount_magnitude_operand_test_small_two_small_two_summed_two_tests)]
fn two_tests(lent: &Lent, at: usize, left: usize) -> bool
    requires { TestsReady left lent.now.nodes.now at }
    ensures { result ≡
        (test_is_small (bound_in lent.now.bounds.now) (test_at offset_of left lent.now.nodes.now (at + 1)) &&
        test_is_small (bound_in lent.now.bounds.now) (test_at offset_of left lent.now.nodes.now (link_at lent.now.nodes.now at 3))) }
{
    let x = test_small(lent, at + 1, left);
    let y = test_small(lent, nodes::link(lent.nodes, at, 3), left);
    x & y
}
