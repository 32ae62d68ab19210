// What a plan pays a pair in a month, worked out in the node table without checks.
#![tactic(auto)]

ghost use Rattle.std.specs.Prelude.{◌≡◌};
ghost use Rattle.amounts.specs.Fine.{MonthIn};
ghost use Rattle.amounts.specs.Flat.{flat};
ghost use Rattle.language.specs.Calls.{sign_of};
ghost use Rattle.language.specs.Payments.Pays.{pays};
ghost use Rattle.nodes.specs.Found.{plan_at};
ghost use Rattle.nodes.specs.Stands.{PlanStands};
ghost use Rattle.nodes.specs.Table.{nat_of};
ghost use Rattle.pays.specs.FinePlan.{FinePlan};
ghost use Rattle.pays.specs.Parties.{PairIn};

use amounts::Tables;
use amounts::wait::Wait;
use integers::{Month, Pence};
use nodes::PlanLetter;

pub mod scale;
pub mod transfer;
pub mod until;

// Payments from p to q count, and those from q to p against them.
#[derive(Clone, Copy)]
pub struct Pair {
    pub p: i64,
    pub q: i64,
}

// What the plan at a node pays in `month`, its root in month `root`.
pub fn plan_pays(
    tables: &Tables,
    root: Month,
    month: Month,
    pair: Pair,
    at: usize,
    left: usize,
) -> Pence
    requires { MonthIn root.0 × MonthIn month.0 × PairIn pair.p pair.q × PlanStands left tables.now.nodes.now at × FinePlan tables.now.values.now (sign_of pair.p pair.q) (plan_at nat_of left tables.now.nodes.now at) (nat_of root.0) (nat_of month.0) }
    ensures { result.0 ≡ pays (flat tables.now.values.now) (sign_of pair.p pair.q) (plan_at nat_of left tables.now.nodes.now at) (nat_of root.0) (nat_of month.0) }
{
    let letter = nodes::plan_kind(tables.nodes, at);
    match letter {
        PlanLetter::Nothing => Pence(0),
        PlanLetter::Transfer => transfer::transfer(tables.nodes, root, month, pair, at),
        PlanLetter::Scale => {
            let second = nodes::link(tables.nodes, at, 3);
            let x = plan_pays(tables, root, month, pair, second, left - 1);
            scale::scaled(tables, root, at + 1, x)
        }
        PlanLetter::Later => {
            let next = integers::later(root, nodes::delay(tables.nodes, at));
            plan_pays(tables, next, month, pair, at + 1, left - 1)
        }
        PlanLetter::Both => {
            let x = plan_pays(tables, root, month, pair, at + 1, left - 1);
            let second = nodes::link(tables.nodes, at, 3);
            let y = plan_pays(tables, root, month, pair, second, left - 1);
            integers::plus(x, y)
        }
        PlanLetter::Within => {
            let d = nodes::delay(tables.nodes, at);
            match until::wait_until(tables, root, month, d, at + 1) {
                Some(Wait::Held(k)) => {
                    let second = nodes::link(tables.nodes, at, 3);
                    plan_pays(tables, k, month, pair, second, left - 1)
                }
                Some(Wait::Missed(k)) => {
                    let third = nodes::link(tables.nodes, at, 4);
                    plan_pays(tables, k, month, pair, third, left - 1)
                }
                None => Pence(0),
            }
        }
        PlanLetter::NoPlan => Pence(0),
    }
}
