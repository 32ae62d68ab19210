// A plan compiled to a payoff, settings open, in the table that the plan was read into.
// Up to each node the payoff has no more rows than the plan, so a row is written only where the plan's rows have been read.
#![tactic(auto)]

ghost use Rattle.std.specs.Prelude.{◌+◌, ◌≤◌};
ghost use Rattle.compiles.specs.Ready.{Ready};
ghost use Rattle.copies.specs.Appended.{Appended};
ghost use Rattle.copies.specs.Plain.{plain_rows};
ghost use Rattle.language.specs.Payoff.Compile.{compiled_plan};
ghost use Rattle.language.specs.Text.Letters.{payoff_form};
ghost use Rattle.language.specs.Text.Plans.{payoff_trees};
ghost use Rattle.language.specs.Text.Reader.{end};

use copies::changes;
use integers::Month;
use nodes::PlanLetter;
use rows::Compiled;

pub mod months;
pub mod rows;

// The payoff of the plan that stands in the rows from node `at` up to node `to`; `plain` and `digits` are the sum of all delays above.
pub fn compile_plan(
    nodes: &mut [i64],
    count: usize,
    at: usize,
    to: usize,
    plain: Month,
    digits: Month,
    left: usize,
) -> usize
    requires { Ready plain.0 digits.0 nodes.old at to left × (count ≤ at) }
    ensures { (result + at ≤ count + to) × ((y : Ready plain.0 digits.0 nodes.old at to left)
        → Appended nodes.old nodes.new count result (plain_rows payoff_form (payoff_trees (compiled_plan y.month y.plan) end))) }
{
    let letter = nodes::plan_kind(nodes, at);
    match letter {
        PlanLetter::Nothing => copies::put_letter(nodes, count, 90),
        PlanLetter::Transfer => rows::put_leaf(nodes, count, at, plain, digits),
        PlanLetter::Scale => {
            let second = nodes::link(nodes, at, 3);
            let a = copies::put_letter(nodes, count, 83);
            let b = changes::copy_rows(nodes, &Compiled { plain, digits }, a, at + 1, second);
            compile_plan(nodes, b, second, to, plain, digits, left - 1)
        }
        PlanLetter::Later => {
            let d = rows::delay(nodes, at);
            let p = months::later_plain(plain, d);
            let g = months::later_digits(digits, d);
            compile_plan(nodes, count, at + 1, to, p, g, left - 1)
        }
        PlanLetter::Both => {
            let second = nodes::link(nodes, at, 3);
            let a = copies::put_letter(nodes, count, 66);
            let b = compile_plan(nodes, a, at + 1, second, plain, digits, left - 1);
            compile_plan(nodes, b, second, to, plain, digits, left - 1)
        }
        PlanLetter::Within => {
            let second = nodes::link(nodes, at, 3);
            let third = nodes::link(nodes, at, 4);
            let a = copies::copy_row(nodes, count, at);
            let b = changes::copy_rows(nodes, &Compiled { plain, digits }, a, at + 1, second);
            let c = compile_plan(nodes, b, second, third, plain, digits, left - 1);
            compile_plan(nodes, c, third, to, plain, digits, left - 1)
        }
        PlanLetter::NoPlan => count,
    }
}
