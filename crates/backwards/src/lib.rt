// An amount of many rows, worked out in a loop from its last row to its first. A node's parts stand behind it, so their values wait
// when the loop comes to it.
#![tactic(auto)]

ghost use Rattle.std.specs.Prelude.{◌≡◌, ◌*◌, ◌≤◌, length};
ghost use Rattle.amounts.specs.Fine.{Fine, MonthIn};
ghost use Rattle.amounts.specs.Flat.{flat};
ghost use Rattle.backwards.specs.Backs.{BackIs};
ghost use Rattle.language.specs.Payments.Amounts.{value};
ghost use Rattle.nodes.specs.Blocks.{AmountBlock};
ghost use Rattle.nodes.specs.Found.{amount_at, offset_of};
ghost use Rattle.nodes.specs.Stands.{AmountStands};
ghost use Rattle.nodes.specs.Table.{nat_of};

use amounts::{Tables, rows};
use integers::{Month, Pence};

// The newest value is in `top`, those beneath it in the stack. An `I`, or more values than the stack holds, gives up. The letters are
// asked for two at a time: one jump by all of them would be foreseen wrongly too often.
// The stack is an array with its depth beside it: that a value waits is proved, where `pop` of an `ArrayVec` would ask each time.
pub fn worked_back(tables: &Tables, month: Month, from: usize, to: usize) -> Option<Pence>
    requires { MonthIn month.0 × Fine tables.now.values.now (nat_of month.0) (amount_at offset_of 512 tables.now.nodes.now from) × AmountBlock 512 tables.now.nodes.now from to × (to ≤ 512) × (5 * to ≤ length tables.now.nodes.now) }
    ensures { BackIs (value (flat tables.now.values.now) (amount_at offset_of 512 tables.now.nodes.now from) (nat_of month.0)) result }
{
    let mut stack = [0i64; 32];
    let mut depth: usize = 0;
    let mut top = 0i64;
    for at in (from..to).rev() {
        let x = nodes::slot(tables.nodes, at, 0);
        if x < 78 {
            match x {
                65 => {
                    depth -= 1;
                    let y = stack[depth];
                    top = integers::plus(Pence(top), Pence(y)).0;
                }
                75 => {
                    depth -= 1;
                    let y = stack[depth];
                    top = integers::times(Pence(top), Pence(y)).0;
                }
                _ => {
                    return None;
                }
            }
        } else if x < 80 {
            match x {
                78 => {
                    if depth == 32 {
                        return None;
                    }
                    stack[depth] = top;
                    depth += 1;
                    top = rows::number(tables.nodes, at).0;
                }
                79 => {
                    if depth == 32 {
                        return None;
                    }
                    stack[depth] = top;
                    depth += 1;
                    top = rows::reading(tables, month, at).0;
                }
                _ => {
                    return None;
                }
            }
        } else {
            match x {
                85 => {
                    depth -= 1;
                    let y = stack[depth];
                    top = integers::minus(Pence(top), Pence(y)).0;
                }
                81 => {
                    top = rows::over(tables.nodes, at, Pence(top)).0;
                }
                _ => {
                    return None;
                }
            }
        }
    }
    Some(Pence(top))
}

// By recursion where there are few rows, or where the way back gives up.
pub fn amount_in(tables: &Tables, month: Month, from: usize, to: usize) -> Pence
    requires { MonthIn month.0 × AmountStands 512 tables.now.nodes.now from × Fine tables.now.values.now (nat_of month.0) (amount_at offset_of 512 tables.now.nodes.now from) × AmountBlock 512 tables.now.nodes.now from to × (to ≤ 512) × (5 * to ≤ length tables.now.nodes.now) }
    ensures { result.0 ≡ value (flat tables.now.values.now) (amount_at offset_of 512 tables.now.nodes.now from) (nat_of month.0) }
{
    if from + 24 < to {
        if let Some(p) = worked_back(tables, month, from, to) {
            return p;
        }
    }
    tables.amount_value(month, from, 512)
}
