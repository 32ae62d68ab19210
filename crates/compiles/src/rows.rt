// One row of a compiled payoff.
ghost use Rattle.std.specs.Prelude.{◌*◌, ◌≤◌, nat_abs, pos, [], ◌∷◌, ◌≡◌};
ghost use Rattle.compiles.specs.Months.{compiled_row};
ghost use Rattle.copies.specs.Appended.{Appended};
ghost use Rattle.nodes.specs.Pass.{row_from};
ghost use Rattle.nodes.specs.Table.{RowIn, slot_at};

use crate::months;
use copies::Row;
use copies::changes::Change;
use integers::Month;

// A delay's number: below zero it is an open setting.
pub fn delay(nodes: &[i64], at: usize) -> Month
    requires { RowIn nodes.now at }
    ensures { result.0 ≡ slot_at nodes.now at 1 }
{
    Month(nodes::slot(nodes, at, 1))
}

// A payment in this month, between the parties of the `T` at a node.
pub fn put_leaf(nodes: &mut [i64], count: usize, at: usize, plain: Month, digits: Month) -> usize
    requires { RowIn nodes.old at × (count ≤ at) }
    ensures { Appended nodes.old nodes.new count result (pos 70 ∷ plain.0 ∷ digits.0 ∷ slot_at nodes.old at 1 ∷ slot_at nodes.old at 2 ∷ []) }
{
    let payer = nodes::slot(nodes, at, 1);
    let payee = nodes::slot(nodes, at, 2);
    copies::put_row(
        nodes,
        count,
        Row {
            letter: 70,
            a: plain.0,
            b: digits.0,
            c: payer,
            d: payee,
        },
    )
}

// An `O` of the label at a node, in this month.
fn put_index(nodes: &mut [i64], count: usize, at: usize, plain: Month, digits: Month) -> usize
    requires { RowIn nodes.old at × (count ≤ at) }
    ensures { Appended nodes.old nodes.new count result (pos 79 ∷ slot_at nodes.old at 1 ∷ plain.0 ∷ digits.0 ∷ pos 0 ∷ []) }
{
    let label = nodes::slot(nodes, at, 1);
    copies::put_row(
        nodes,
        count,
        Row {
            letter: 79,
            a: label,
            b: plain.0,
            c: digits.0,
            d: 0,
        },
    )
}

pub fn compile_row(nodes: &mut [i64], count: usize, at: usize, plain: Month, digits: Month) -> usize
    requires { (nat_abs plain.0 ≤ 19_200) × RowIn nodes.old at × (count ≤ at) }
    ensures { Appended nodes.old nodes.new count result (compiled_row plain.0 digits.0 (row_from (at * 5) nodes.old)) }
{
    if nodes::is_index(nodes, at) {
        let m = months::offset_month(plain, nodes::offset(nodes, at));
        return put_index(nodes, count, at, m, digits);
    }
    copies::copy_row(nodes, count, at)
}

// The rows of an amount or test, the month so far added to each `O`.
#[derive(Clone, Copy)]
pub struct Compiled {
    pub plain: Month,
    pub digits: Month,
}

impl Change for Compiled {
    ghost can_change = { λ x. nat_abs x.plain.0 ≤ 19_200 };

    ghost changed = { λ x. compiled_row x.plain.0 x.digits.0 };

    fn put(&self, nodes: &mut [i64], count: usize, at: usize) -> usize {
        compile_row(nodes, count, at, self.plain, self.digits)
    }
}
