// Amounts and tests of a payoff, with refusals 11 and 14 as evaluation meets them.
#![tactic(auto)]

ghost use Rattle.std.specs.Prelude.{◌≡◌};
ghost use Rattle.language.specs.Text.Form.{fields_of_amount, fields_of_test};
ghost use Rattle.nodes.specs.Found.{amount_at, offset_of, test_at};
ghost use Rattle.nodes.specs.Stands.{AmountStands, TestStands};
ghost use Rattle.nodes.specs.Table.{nat_of};
ghost use Rattle.checked.specs.Answers.{tested_answer, valued_answer};
ghost use Rattle.checked.specs.Checked.{test_in, value_found};
ghost use Rattle.checked.specs.Coded.{valued_in};
ghost use Rattle.checked.specs.Ranges.{Near, Waited};

use crate::answers::Fault;
use crate::lent::Lent;
use integers::{Month, Pence};
use nodes::{AmountLetter, TestLetter};

pub mod answers;
pub mod coded;
pub mod four;
pub mod lent;
pub mod rows;

impl Lent<'_> {
    // The amount at a node, with some months waited: a number or an index without a call.
    #[cycle(amount_here_checked_holds_checked_operand_checked_value)]
    pub fn checked_operand(&self, waited: Month, at: usize, left: usize) -> Result<Pence, Fault>
        requires { Waited waited.0 × AmountStands left self.now.nodes.now at × fields_of_amount Near (amount_at offset_of left self.now.nodes.now at) }
        ensures { valued_answer result ≡ value_found self.now.span.h self.now.span.f self.now.bounds.now self.now.values.now (amount_at offset_of left self.now.nodes.now at) (nat_of waited.0) }
    {
        let x = nodes::slot(self.nodes, at, 0);
        match x {
            78 => rows::number(self.nodes, at),
            79 => rows::reading(self, waited, at),
            _ => coded::valued(self.checked_value(waited, at, left)),
        }
    }

    // The amount at a node of any letter, as one number: what the calls of the walk hand back.
    #[cycle(amount_here_checked_holds_checked_operand_checked_value)]
    pub fn checked_value(&self, waited: Month, at: usize, left: usize) -> i64
        requires { Waited waited.0 × AmountStands left self.now.nodes.now at × fields_of_amount Near (amount_at offset_of left self.now.nodes.now at) }
        ensures { valued_in result ≡ value_found self.now.span.h self.now.span.f self.now.bounds.now self.now.values.now (amount_at offset_of left self.now.nodes.now at) (nat_of waited.0) }
    {
        coded::code(self.amount_here(waited, at, left))
    }

    // The same; of an `I` only the chosen branch.
    #[cycle(amount_here_checked_holds_checked_operand_checked_value)]
    fn amount_here(&self, waited: Month, at: usize, left: usize) -> Result<Pence, Fault>
        requires { Waited waited.0 × AmountStands left self.now.nodes.now at × fields_of_amount Near (amount_at offset_of left self.now.nodes.now at) }
        ensures { valued_answer result ≡ value_found self.now.span.h self.now.span.f self.now.bounds.now self.now.values.now (amount_at offset_of left self.now.nodes.now at) (nat_of waited.0) }
    {
        let letter = nodes::amount_letter(nodes::slot(self.nodes, at, 0));
        match letter {
            AmountLetter::Number => rows::number(self.nodes, at),
            AmountLetter::Index => rows::reading(self, waited, at),
            AmountLetter::Sum => {
                let x = self.checked_operand(waited, at + 1, left - 1);
                let y = self.checked_operand(waited, nodes::link(self.nodes, at, 3), left - 1);
                answers::sum_of(x, y)
            }
            AmountLetter::Difference => {
                let x = self.checked_operand(waited, at + 1, left - 1);
                let y = self.checked_operand(waited, nodes::link(self.nodes, at, 3), left - 1);
                answers::difference_of(x, y)
            }
            AmountLetter::Product => {
                let x = self.checked_operand(waited, at + 1, left - 1);
                let y = self.checked_operand(waited, nodes::link(self.nodes, at, 3), left - 1);
                answers::product_of(x, y)
            }
            AmountLetter::Quotient => {
                let x = self.checked_operand(waited, at + 1, left - 1);
                rows::over(self.nodes, at, x)
            }
            AmountLetter::Choose => {
                let holds = self.checked_holds(waited, at + 1, left - 1)?;
                if holds {
                    self.checked_operand(waited, nodes::link(self.nodes, at, 3), left - 1)
                } else {
                    self.checked_operand(waited, nodes::link(self.nodes, at, 4), left - 1)
                }
            }
            AmountLetter::NoAmount => Ok(Pence(0)),
        }
    }

    // Whether the test at a node holds, with some months waited. `Y` and `V` try both sides.
    #[cycle(amount_here_checked_holds_checked_operand_checked_value)]
    pub fn checked_holds(&self, waited: Month, at: usize, left: usize) -> Result<bool, Fault>
        requires { Waited waited.0 × TestStands left self.now.nodes.now at × fields_of_test Near (test_at offset_of left self.now.nodes.now at) }
        ensures { tested_answer result ≡ test_in self.now.span.h self.now.span.f self.now.bounds.now self.now.values.now (test_at offset_of left self.now.nodes.now at) (nat_of waited.0) }
    {
        let letter = nodes::test_letter(nodes::slot(self.nodes, at, 0));
        match letter {
            TestLetter::Less => {
                let x = self.checked_operand(waited, at + 1, left - 1);
                let y = self.checked_operand(waited, nodes::link(self.nodes, at, 3), left - 1);
                answers::less_than(x, y)
            }
            TestLetter::Equal => {
                let x = self.checked_operand(waited, at + 1, left - 1);
                let y = self.checked_operand(waited, nodes::link(self.nodes, at, 3), left - 1);
                answers::equal_to(x, y)
            }
            TestLetter::Conjunction => {
                let x = self.checked_holds(waited, at + 1, left - 1);
                let y = self.checked_holds(waited, nodes::link(self.nodes, at, 3), left - 1);
                answers::both_hold(x, y)
            }
            TestLetter::Disjunction => {
                let x = self.checked_holds(waited, at + 1, left - 1);
                let y = self.checked_holds(waited, nodes::link(self.nodes, at, 3), left - 1);
                answers::one_holds(x, y)
            }
            TestLetter::Negation => {
                let x = self.checked_holds(waited, at + 1, left - 1);
                answers::opposite(x)
            }
            TestLetter::NoTest => Ok(false),
        }
    }
}
