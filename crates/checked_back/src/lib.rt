// An amount of a payoff of many rows, worked out in a loop from its last row to its first, as `backwards` does for accepted plans.
// Here each read has to be found and each result to be within the limit.
#![tactic(auto)]

ghost use Rattle.std.specs.Prelude.{◌≡◌, ◌*◌, ◌≤◌, length};
ghost use Rattle.checked.specs.Checked.{value_found};
ghost use Rattle.checked.specs.Coded.{valued_in};
ghost use Rattle.checked.specs.Ranges.{Near, Waited};
ghost use Rattle.checked_back.specs.Backs.{BackIn};
ghost use Rattle.language.specs.Text.Form.{fields_of_amount};
ghost use Rattle.nodes.specs.Blocks.{AmountBlock};
ghost use Rattle.nodes.specs.Found.{amount_at, offset_of};
ghost use Rattle.nodes.specs.Stands.{AmountStands};
ghost use Rattle.nodes.specs.Table.{nat_of};

use checked::lent::Lent;
use checked::rows;
use integers::{Month, Pence};

// A refusal, an `I`, or more values than the stack holds, gives up.
pub fn tried_back(lent: &Lent, waited: Month, from: usize, to: usize) -> Option<Pence>
    requires { Waited waited.0 × fields_of_amount Near (amount_at offset_of 512 lent.now.nodes.now from)
        × AmountBlock 512 lent.now.nodes.now from to × (to ≤ 512) × (5 * to ≤ length lent.now.nodes.now) }
    ensures { BackIn (value_found lent.now.span.h lent.now.span.f lent.now.bounds.now lent.now.values.now (amount_at offset_of 512 lent.now.nodes.now from) (nat_of waited.0)) result }
{
    // an array with its depth beside it, as in `backwards`
    let mut stack = [0i64; 32];
    let mut depth: usize = 0;
    let mut top = 0i64;
    for at in (from..to).rev() {
        let x = nodes::slot(lent.nodes, at, 0);
        if x < 78 {
            match x {
                65 => {
                    depth -= 1;
                    let y = stack[depth];
                    let p = integers::sum(Pence(top), Pence(y))?;
                    top = p.0;
                }
                75 => {
                    depth -= 1;
                    let y = stack[depth];
                    let p = integers::product(Pence(top), Pence(y))?;
                    top = p.0;
                }
                _ => {
                    return None;
                }
            }
        } else if x < 80 {
            match x {
                78 => {
                    if depth == 32 {
                        return None;
                    }
                    stack[depth] = top;
                    depth += 1;
                    top = amounts::rows::number(lent.nodes, at).0;
                }
                79 => {
                    if depth == 32 {
                        return None;
                    }
                    stack[depth] = top;
                    depth += 1;
                    let Ok(p) = rows::reading(lent, waited, at) else {
                        return None;
                    };
                    top = p.0;
                }
                _ => {
                    return None;
                }
            }
        } else {
            match x {
                85 => {
                    depth -= 1;
                    let y = stack[depth];
                    let p = integers::difference(Pence(top), Pence(y))?;
                    top = p.0;
                }
                81 => {
                    top = amounts::rows::over(lent.nodes, at, Pence(top)).0;
                }
                _ => {
                    return None;
                }
            }
        }
    }
    Some(Pence(top))
}

// By recursion where there are few rows, or where the way back gives up: that finds the refusal.
pub fn value_in(lent: &Lent, waited: Month, from: usize, to: usize) -> i64
    requires { Waited waited.0 × AmountStands 512 lent.now.nodes.now from × fields_of_amount Near (amount_at offset_of 512 lent.now.nodes.now from)
        × AmountBlock 512 lent.now.nodes.now from to × (to ≤ 512) × (5 * to ≤ length lent.now.nodes.now) }
    ensures { valued_in result ≡ value_found lent.now.span.h lent.now.span.f lent.now.bounds.now lent.now.values.now (amount_at offset_of 512 lent.now.nodes.now from) (nat_of waited.0) }
{
    if from + 24 < to {
        if let Some(p) = tried_back(lent, waited, from, to) {
            return p.0;
        }
    }
    lent.checked_value(waited, from, 512)
}
