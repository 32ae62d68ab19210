// What a plan pays a pair in each month, filled into a column by one walk over the plan.
#![tactic(auto)]

ghost use Rattle.amounts.specs.Fine.{MonthIn};
ghost use Rattle.amounts.specs.Flat.{flat};
ghost use Rattle.columns.specs.Column.{Added, PennyFits, Weighed, penny_in};
ghost use Rattle.language.specs.Calls.{sign_of};
ghost use Rattle.language.specs.Payments.Pays.{pays};
ghost use Rattle.nodes.specs.Found.{plan_at};
ghost use Rattle.nodes.specs.Stands.{PlanStands};
ghost use Rattle.nodes.specs.Table.{RowIn, nat_of, slot_at};
ghost use Rattle.pays.specs.Parties.{PairIn};

use amounts::Tables;
use amounts::wait::Wait;
use integers::{Month, Pence};
use nodes::PlanLetter;
use pays::Pair;

pub mod remaining;

// The penny of a `T`, times the weight, added in the month of its root.
pub fn add_penny(
    nodes: &[i64],
    root: Month,
    pair: Pair,
    weight: Pence,
    column: &mut [i64],
    at: usize,
)
    requires { RowIn nodes.now at × MonthIn root.0 × PairIn pair.p pair.q × PennyFits column.old (nat_of root.0) weight.0 }
    ensures { Added column.old column.new weight.0
        (penny_in (sign_of pair.p pair.q (nat_of (slot_at nodes.now at 1)) (nat_of (slot_at nodes.now at 2))) (nat_of root.0)) }
{
    let penny = pays::transfer::penny(nodes, at, pair);
    let due = integers::times(weight, penny);
    let m = root.0 as usize;
    let before = Pence(column[m]);
    let sum = integers::plus(before, due);
    let x = sum.0;
    column[m] = x;
}

// What the plan at a node pays in each month, its root in month `root`, times the weight, added to the column.
// Below a weight that is out of range nothing is paid: acceptance bounds the weight of every payment.
pub fn plan_column(
    tables: &Tables,
    root: Month,
    pair: Pair,
    weight: Pence,
    column: &mut [i64],
    at: usize,
    left: usize,
)
    requires { MonthIn root.0 × PairIn pair.p pair.q × PlanStands left tables.now.nodes.now at
        × Weighed tables.now.values.now (plan_at nat_of left tables.now.nodes.now at) (nat_of root.0) weight.0 column.old }
    ensures { Added column.old column.new weight.0
        (pays (flat tables.now.values.now) (sign_of pair.p pair.q) (plan_at nat_of left tables.now.nodes.now at) (nat_of root.0)) }
{
    let letter = nodes::plan_kind(tables.nodes, at);
    match letter {
        PlanLetter::Nothing => {}
        PlanLetter::Transfer => {
            add_penny(tables.nodes, root, pair, weight, column, at);
        }
        PlanLetter::Scale => {
            let a = tables.amount_value(root, at + 1, 512);
            if let Some(heavier) = integers::product(weight, a) {
                let second = nodes::link(tables.nodes, at, 3);
                plan_column(tables, root, pair, heavier, column, second, left - 1);
            }
        }
        PlanLetter::Later => {
            let next = integers::later(root, nodes::delay(tables.nodes, at));
            plan_column(tables, next, pair, weight, column, at + 1, left - 1);
        }
        PlanLetter::Both => {
            plan_column(tables, root, pair, weight, column, at + 1, left - 1);
            let second = nodes::link(tables.nodes, at, 3);
            plan_column(tables, root, pair, weight, column, second, left - 1);
        }
        PlanLetter::Within => {
            let d = nodes::delay(tables.nodes, at);
            match tables.wait_for(root, d, at + 1, 512) {
                Wait::Held(k) => {
                    let second = nodes::link(tables.nodes, at, 3);
                    plan_column(tables, k, pair, weight, column, second, left - 1);
                }
                Wait::Missed(k) => {
                    let third = nodes::link(tables.nodes, at, 4);
                    plan_column(tables, k, pair, weight, column, third, left - 1);
                }
            }
        }
        PlanLetter::NoPlan => {}
    }
}
