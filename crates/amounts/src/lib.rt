// Amounts and tests, worked out in the node table without checks.
#![tactic(auto)]

ghost use Rattle.std.specs.Prelude.{◌≡◌};
ghost use Rattle.language.specs.Payments.Amounts.{holds, value};
ghost use Rattle.nodes.specs.Found.{amount_at, offset_of, test_at};
ghost use Rattle.nodes.specs.Stands.{AmountStands, TestStands};
ghost use Rattle.nodes.specs.Table.{nat_of};
ghost use Rattle.amounts.specs.Fine.{Fine, FineTest, MonthIn};
ghost use Rattle.amounts.specs.Flat.{flat};

use integers::{Month, Pence};
use nodes::{AmountLetter, TestLetter};

pub mod four;
pub mod four_rows;
pub mod fours;
pub mod rows;
pub mod wait;

// What amounts and tests are read from: a node table, and the values that its `O`s read.
#[derive(Clone, Copy)]
pub struct Tables<'a> {
    pub nodes: &'a [i64],
    pub values: &'a [i64],
}

impl Tables<'_> {
    // The amount at a node, worked out for a month: a number or an index without a call.
    #[cycle(amount_value_operand_test_holds)]
    pub fn operand(&self, month: Month, at: usize, left: usize) -> Pence
        requires { MonthIn month.0 × AmountStands left self.now.nodes.now at × Fine self.now.values.now (nat_of month.0) (amount_at offset_of left self.now.nodes.now at) }
        ensures { result.0 ≡ value (flat self.now.values.now) (amount_at offset_of left self.now.nodes.now at) (nat_of month.0) }
    {
        let x = nodes::slot(self.nodes, at, 0);
        match x {
            78 => rows::number(self.nodes, at),
            79 => rows::reading(self, month, at),
            _ => self.amount_value(month, at, left),
        }
    }

    // The amount at a node of any letter.
    #[cycle(amount_value_operand_test_holds)]
    pub fn amount_value(&self, month: Month, at: usize, left: usize) -> Pence
        requires { MonthIn month.0 × AmountStands left self.now.nodes.now at × Fine self.now.values.now (nat_of month.0) (amount_at offset_of left self.now.nodes.now at) }
        ensures { result.0 ≡ value (flat self.now.values.now) (amount_at offset_of left self.now.nodes.now at) (nat_of month.0) }
    {
        let letter = nodes::amount_letter(nodes::slot(self.nodes, at, 0));
        match letter {
            AmountLetter::Number => rows::number(self.nodes, at),
            AmountLetter::Index => rows::reading(self, month, at),
            AmountLetter::Sum => {
                let x = self.operand(month, at + 1, left - 1);
                let y = self.operand(month, nodes::link(self.nodes, at, 3), left - 1);
                integers::plus(x, y)
            }
            AmountLetter::Difference => {
                let x = self.operand(month, at + 1, left - 1);
                let y = self.operand(month, nodes::link(self.nodes, at, 3), left - 1);
                integers::minus(x, y)
            }
            AmountLetter::Product => {
                let x = self.operand(month, at + 1, left - 1);
                let y = self.operand(month, nodes::link(self.nodes, at, 3), left - 1);
                integers::times(x, y)
            }
            AmountLetter::Quotient => {
                let x = self.operand(month, at + 1, left - 1);
                rows::over(self.nodes, at, x)
            }
            AmountLetter::Choose => {
                if self.test_holds(month, at + 1, left - 1) {
                    self.operand(month, nodes::link(self.nodes, at, 3), left - 1)
                } else {
                    self.operand(month, nodes::link(self.nodes, at, 4), left - 1)
                }
            }
            AmountLetter::NoAmount => Pence(0),
        }
    }

    // Whether the test at a node holds in a month. `Y` and `V` try both sides.
    #[cycle(amount_value_operand_test_holds)]
    pub fn test_holds(&self, month: Month, at: usize, left: usize) -> bool
        requires { MonthIn month.0 × TestStands left self.now.nodes.now at × FineTest self.now.values.now (nat_of month.0) (test_at offset_of left self.now.nodes.now at) }
        ensures { result ≡ holds (flat self.now.values.now) (test_at offset_of left self.now.nodes.now at) (nat_of month.0) }
    {
        let letter = nodes::test_letter(nodes::slot(self.nodes, at, 0));
        match letter {
            TestLetter::Less => {
                let x = self.operand(month, at + 1, left - 1);
                let y = self.operand(month, nodes::link(self.nodes, at, 3), left - 1);
                integers::less(x, y)
            }
            TestLetter::Equal => {
                let x = self.operand(month, at + 1, left - 1);
                let y = self.operand(month, nodes::link(self.nodes, at, 3), left - 1);
                integers::equal(x, y)
            }
            TestLetter::Conjunction => {
                let x = self.test_holds(month, at + 1, left - 1);
                let y = self.test_holds(month, nodes::link(self.nodes, at, 3), left - 1);
                x & y
            }
            TestLetter::Disjunction => {
                let x = self.test_holds(month, at + 1, left - 1);
                let y = self.test_holds(month, nodes::link(self.nodes, at, 3), left - 1);
                x | y
            }
            TestLetter::Negation => {
                let x = self.test_holds(month, at + 1, left - 1);
                !x
            }
            TestLetter::NoTest => false,
        }
    }
}
