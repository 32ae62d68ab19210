// A plan that keeps every rule, measured as one number. A plan of which that is not sure is left to the walk that finds its refusal,
// and one with an open setting to the pass that fills it.
//
// The number is 1024 times the plan's magnitude, and the months that the table goes on behind its end. Where a rule may be broken the
// magnitude is beyond the limit. What is needed by a month goes down the walk: `need` is the latest read of the amounts above, from here.
ghost use Rattle.std.specs.Prelude.{◌≡◌, ◌%◌, ◌+◌, ◌-◌, ◌*◌, ◌/◌, ◌≤◌, min, max, ℕ, length};
ghost use Rattle.language.specs.Limits.{max_amount, max_months};
ghost use Rattle.language.specs.Rules.Table.{Table};
ghost use Rattle.language.specs.Text.Trees.{nothing, transfer};
ghost use Rattle.nodes.specs.Found.{plan_at};
ghost use Rattle.nodes.specs.Table.{nat_of};
ghost use Rattle.measures.specs.Magnitudes.{beyond, bound_in, joined};
ghost use Rattle.measures.specs.Sure.{SureOf};
ghost use Rattle.measures.specs.Ready.{PlanReady};
ghost use Rattle.measures.specs.Closed.{ClosedAt};
ghost use Rattle.measures.specs.Spans.{Near, Seen};

use crate::lent::Lent;
use crate::{first, limit, node, plan, reads, rows};
use integers::Month;
use nodes::PlanLetter;

// 1024 times the number that stands for a magnitude beyond the limit.
const UNSURE: u64 = 9_216_000_000_001_024;

// ---- numbers joined

// A plan's, times an amount of magnitude m.
fn scaled(m: u64, x: u64) -> u64
    ensures { (result / 1024 ≡ joined ◌*◌ m (x / 1024)) × (result % 1024 ≡ x % 1024) }
{
    limit::product_of(m, x / 1024) * 1024 + x % 1024
}

// Two plans at once.
fn added(x: u64, y: u64) -> u64
    requires { (x / 1024 ≤ beyond) × (y / 1024 ≤ beyond) }
    ensures { (result / 1024 ≡ joined ◌+◌ (x / 1024) (y / 1024)) × (result % 1024 ≡ min (x % 1024) (y % 1024)) }
{
    limit::sum_of(x / 1024, y / 1024) * 1024 + (x % 1024).min(y % 1024)
}

// The one plan or the other.
fn either(x: u64, y: u64) -> u64
    requires { (x / 1024 ≤ beyond) × (y / 1024 ≤ beyond) }
    ensures { (result / 1024 ≡ max (x / 1024) (y / 1024)) × (result % 1024 ≡ min (x % 1024) (y % 1024)) }
{
    (x / 1024).max(y / 1024) * 1024 + (x % 1024).min(y % 1024)
}

// ---- plans without parts

// A plan that pays nothing, `high` months before the table's end.
fn quick_nothing(high: Month) -> u64
    requires { nat_of high.0 ≤ max_months }
    ensures { (result / 1024 ≤ beyond) × ((t : Table) (a z : ℕ) (bound : ℕ → ℕ) (need : ℕ) → SureOf t a z bound need high.0 nothing result) }
{
    if high.0 < 0 {
        return UNSURE;
    }
    high.0 as u64
}

// A penny from one party to another.
fn quick_transfer(high: Month, need: u64) -> u64
    requires { nat_of high.0 ≤ max_months }
    ensures { (result / 1024 ≤ beyond) × ((t : Table) (a z : ℕ) (bound : ℕ → ℕ) (p q : ℕ) → SureOf t a z bound need high.0 (transfer p q) result) }
{
    if high.0 < 0 {
        return UNSURE;
    }
    if 0 < need {
        return UNSURE;
    }
    1024 + high.0 as u64
}

// ---- the walk

// A plan below another: most have no parts, and then it takes no call.
#[cycle(quick_part_quick_plan)]
fn quick_part(lent: &Lent, at: usize, left: usize, low: Month, high: Month, need: u64) -> u64
    requires { PlanReady left lent.now.nodes.now at × Near left low.0 high.0 × (nat_of high.0 ≤ max_months) }
    ensures { (result / 1024 ≤ beyond) × ((t : Table) (a z : ℕ) → Seen low.0 high.0 (length lent.now.bounds.now) t a z
        → SureOf t a z (bound_in lent.now.bounds.now) need high.0 (plan_at nat_of left lent.now.nodes.now at) result)
        × (result / 1024 ≤ max_amount → ClosedAt left lent.now.nodes.now at) }
{
    let x = nodes::slot(lent.nodes, at, 0);
    match x {
        84 => quick_transfer(high, need),
        90 => quick_nothing(high),
        _ => quick_plan(lent, at, left, low, high, need),
    }
}

// A plan, the offsets that can be read from every month in which its node may stand, and what is needed by its first payment.
#[cycle(quick_part_quick_plan)]
pub fn quick_plan(lent: &Lent, at: usize, left: usize, low: Month, high: Month, need: u64) -> u64
    requires { PlanReady left lent.now.nodes.now at × Near left low.0 high.0 × (nat_of high.0 ≤ max_months) }
    ensures { (result / 1024 ≤ beyond) × ((t : Table) (a z : ℕ) → Seen low.0 high.0 (length lent.now.bounds.now) t a z
        → SureOf t a z (bound_in lent.now.bounds.now) need high.0 (plan_at nat_of left lent.now.nodes.now at) result)
        × (result / 1024 ≤ max_amount → ClosedAt left lent.now.nodes.now at) }
{
    let letter = nodes::plan_kind(lent.nodes, at);
    match letter {
        PlanLetter::Nothing => quick_nothing(high),
        PlanLetter::Transfer => quick_transfer(high, need),
        PlanLetter::Scale => {
            let next = nodes::link(lent.nodes, at, 3);
            let w = reads::window_of(low, high, lent.bounds.len());
            let rows = rows::read_rows(lent, at + 1, next, w);
            if rows.reads {
                let m = plan::amount_of(lent, at + 1, rows.magnitude);
                let wanted = need.max(rows.latest);
                let x = quick_part(lent, next, left - 1, low, high, wanted);
                return scaled(m, x);
            }
            UNSURE
        }
        PlanLetter::Later => {
            if node::is_open(lent.nodes, at) {
                return UNSURE;
            }
            let d = nodes::delay(lent.nodes, at);
            let low_then = reads::nearer(low, d);
            let high_then = reads::nearer(high, d);
            // what is needed in so many months is needed d months later in d fewer
            let wanted = need.saturating_sub(node::months(lent.nodes, at));
            quick_part(lent, at + 1, left - 1, low_then, high_then, wanted)
        }
        PlanLetter::Both => {
            let next = nodes::link(lent.nodes, at, 3);
            let x = quick_part(lent, at + 1, left - 1, low, high, need);
            let y = quick_part(lent, next, left - 1, low, high, need);
            added(x, y)
        }
        PlanLetter::Within => {
            if node::is_open(lent.nodes, at) {
                return UNSURE;
            }
            let d = nodes::delay(lent.nodes, at);
            let low_then = reads::nearer(low, d);
            let high_then = reads::nearer(high, d);
            let next = nodes::link(lent.nodes, at, 3);
            let other = nodes::link(lent.nodes, at, 4);
            let w = reads::window_of(low, high_then, lent.bounds.len());
            let rows = rows::read_rows(lent, at + 1, next, w);
            if rows.reads {
                if first::tried_in_time(rows.latest) {
                    if plan::test_of(lent, at + 1, rows.magnitude) {
                        let x = quick_part(lent, next, left - 1, low, high_then, need);
                        let y = quick_part(lent, other, left - 1, low_then, high_then, need);
                        return either(x, y);
                    }
                }
            }
            UNSURE
        }
        PlanLetter::NoPlan => UNSURE,
    }
}
