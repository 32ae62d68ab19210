// What a `T` pays a pair.
ghost use Rattle.std.specs.Prelude.{◌≡◌, cond, eqb, pos};
ghost use Rattle.amounts.specs.Fine.{MonthIn};
ghost use Rattle.language.specs.Calls.{sign_of};
ghost use Rattle.nodes.specs.Table.{RowIn, nat_of, slot_at};
ghost use Rattle.pays.specs.Parties.{PairIn};

use crate::Pair;
use integers::{Month, Pence};

// One penny from party a to party b, as the pair counts it.
pub fn penny_between(a: i64, b: i64, pair: Pair) -> Pence
    requires { PairIn pair.p pair.q }
    ensures { result.0 ≡ sign_of pair.p pair.q (nat_of a) (nat_of b) }
{
    if pair.p == pair.q {
        return Pence(0);
    }
    if (a == pair.p) & (b == pair.q) {
        return Pence(1);
    }
    if (a == pair.q) & (b == pair.p) {
        return Pence(-1);
    }
    Pence(0)
}

// One penny from the row's first party to its second.
pub fn penny(nodes: &[i64], at: usize, pair: Pair) -> Pence
    requires { RowIn nodes.now at × PairIn pair.p pair.q }
    ensures { result.0 ≡ sign_of pair.p pair.q (nat_of (slot_at nodes.now at 1)) (nat_of (slot_at nodes.now at 2)) }
{
    penny_between(nodes::slot(nodes, at, 1), nodes::slot(nodes, at, 2), pair)
}

// The penny in the month of the plan's root, else nothing.
pub fn transfer(nodes: &[i64], root: Month, month: Month, pair: Pair, at: usize) -> Pence
    requires { RowIn nodes.now at × MonthIn root.0 × MonthIn month.0 × PairIn pair.p pair.q }
    ensures { result.0 ≡ cond (eqb (nat_of root.0) (nat_of month.0)) (sign_of pair.p pair.q (nat_of (slot_at nodes.now at 1)) (nat_of (slot_at nodes.now at 2))) (pos 0) }
{
    let r = root.0;
    let m = month.0;
    if r == m {
        return penny(nodes, at, pair);
    }
    Pence(0)
}
