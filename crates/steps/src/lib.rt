// The month step: the plan for tomorrow, written into the table in which index readings are resolved. Up to any node it has no more
// rows than today's, so a row is written only where all that is needed has been read.
#![tactic(auto)]

ghost use Rattle.std.specs.Prelude.{◌*◌, ◌+◌, ◌<◌, ◌≤◌, pos, length, ◌≡◌};
ghost use Rattle.amounts.specs.Flat.{flat};
ghost use Rattle.copies.specs.Appended.{Appended};
ghost use Rattle.copies.specs.Plain.{plain_rows};
ghost use Rattle.language.specs.Payments.Step.{step};
ghost use Rattle.language.specs.Calls.{lookup_of, sign_of};
ghost use Rattle.language.specs.Payments.Pays.{pays};
ghost use Rattle.language.specs.Rules.Settings.{closed};
ghost use Rattle.language.specs.Text.Letters.{plan_form};
ghost use Rattle.language.specs.Text.Plans.{plan_trees};
ghost use Rattle.language.specs.Text.Reader.{end};
ghost use Rattle.nodes.specs.Found.{plan_at};
ghost use Rattle.nodes.specs.Stands.{PlanStands};
ghost use Rattle.nodes.specs.Table.{nat_of, slot_at};
ghost use Rattle.pays.specs.FinePlan.{FinePlan};
ghost use Rattle.pays.specs.Parties.{PairIn};
ghost use Rattle.places.specs.Place.{SpanIn};
ghost use Rattle.steps.specs.Ready.{Ready};
ghost use Rattle.steps.specs.Waits.{Waits};
ghost use Rattle.tables.specs.Lookup.{read_table};

use copies::changes;
use integers::Pence;
use nodes::PlanLetter;
use rows::{Restored, Stepped};
use tables::Span;

pub mod offsets;
pub mod reads;
pub mod rows;

// What the pair pays today, and how many rows of the plan for tomorrow are written.
#[derive(Clone, Copy)]
pub struct Today {
    pub pence: Pence,
    pub next: usize,
}

// A waiting node and all that stands beneath it: the delay falls by one, and nothing is paid yet.
fn keep_waiting(nodes: &mut [i64], span: Span, count: usize, at: usize, to: usize) -> Today
    requires { SpanIn span.h span.f × (at < to) × (to ≤ 512) × (5 * to ≤ length nodes.old) × (0 < nat_of (slot_at nodes.old at 1)) × (count ≤ at) }
    ensures { (result.pence.0 ≡ pos 0) × Waits span.h span.f nodes.old nodes.new at to count result.next }
{
    let nothing_yet = Pence(0);
    let d = offsets::earlier(nodes::delay(nodes, at));
    let head = rows::put_delay(nodes, count, at, d);
    Today {
        pence: nothing_yet,
        next: changes::copy_rows(nodes, &Restored { span }, head, at + 1, to),
    }
}

// The step of the plan that stands in the rows from node `at` up to node `to`, its root in month `today`, and what it pays in that
// month. Both are found in one walk, so a test is tried once; what starts later pays nothing yet.
pub fn step_plan(
    nodes: &mut [i64],
    day: &Stepped,
    count: usize,
    at: usize,
    to: usize,
    left: usize,
) -> Today
    requires { Ready day.now.span.h day.now.span.f day.now.bounds.now day.now.values.now (nat_of day.now.today.0) nodes.old at to left × (count ≤ at)
        × PlanStands left nodes.old at × FinePlan day.now.values.now (sign_of day.now.pair.p day.now.pair.q) (plan_at nat_of left nodes.old at) (nat_of day.now.today.0) (nat_of day.now.today.0)
        × PairIn day.now.pair.p day.now.pair.q }
    ensures { (result.pence.0 ≡ pays (flat day.now.values.now) (sign_of day.now.pair.p day.now.pair.q) (plan_at nat_of left nodes.old at) (nat_of day.now.today.0) (nat_of day.now.today.0))
        × (result.next + at ≤ count + to) × ((y : Ready day.now.span.h day.now.span.f day.now.bounds.now day.now.values.now (nat_of day.now.today.0) nodes.old at to left)
        → Appended nodes.old nodes.new count result.next (plain_rows plan_form (plan_trees (closed (step (lookup_of (read_table day.now.span.h day.now.span.f day.now.bounds.now day.now.values.now)) (nat_of day.now.today.0) y.plan)) end))) }
{
    let letter = nodes::plan_kind(nodes, at);
    match letter {
        PlanLetter::Nothing => {
            let next = copies::put_letter(nodes, count, 90);
            Today {
                pence: Pence(0),
                next,
            }
        }
        PlanLetter::Transfer => {
            let pence = reads::penny(nodes, at, day.pair);
            let next = copies::put_letter(nodes, count, 90);
            Today { pence, next }
        }
        PlanLetter::Scale => {
            let second = nodes::link(nodes, at, 3);
            let a = reads::amount(nodes, &day.values, day.today, at + 1, second);
            let head = copies::put_letter(nodes, count, 83);
            let below = changes::copy_rows(nodes, day, head, at + 1, second);
            let x = step_plan(nodes, day, below, second, to, left - 1);
            Today {
                pence: integers::times(a, x.pence),
                next: x.next,
            }
        }
        PlanLetter::Later => {
            let d = nodes::delay(nodes, at);
            if offsets::due(d) {
                step_plan(nodes, day, count, at + 1, to, left - 1)
            } else {
                keep_waiting(nodes, day.span, count, at, to)
            }
        }
        PlanLetter::Both => {
            let second = nodes::link(nodes, at, 3);
            let head = copies::put_letter(nodes, count, 66);
            let x = step_plan(nodes, day, head, at + 1, second, left - 1);
            let y = step_plan(nodes, day, x.next, second, to, left - 1);
            Today {
                pence: integers::plus(x.pence, y.pence),
                next: y.next,
            }
        }
        PlanLetter::Within => {
            let second = nodes::link(nodes, at, 3);
            let third = nodes::link(nodes, at, 4);
            if reads::test(nodes, &day.values, day.today, at + 1) {
                step_plan(nodes, day, count, second, third, left - 1)
            } else {
                let wait = nodes::delay(nodes, at);
                if offsets::due(wait) {
                    step_plan(nodes, day, count, third, to, left - 1)
                } else {
                    keep_waiting(nodes, day.span, count, at, to)
                }
            }
        }
        PlanLetter::NoPlan => Today {
            pence: Pence(0),
            next: count,
        },
    }
}
