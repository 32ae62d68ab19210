// Amounts and tests in four months in a row, worked out in the node table without checks: each node is looked at once for the four.
ghost use Rattle.nodes.specs.Found.{amount_at, offset_of, test_at};
ghost use Rattle.nodes.specs.Stands.{AmountStands, TestStands};
ghost use Rattle.nodes.specs.Table.{nat_of};
ghost use Rattle.amounts.specs.FourMonths.{FineFour, FineFourTest, FourAre, FourIn, HeldAre};

use crate::four::{Four, Held};
use crate::{Tables, four, four_rows};
use integers::{Month, Pence};
use nodes::{AmountLetter, TestLetter};

impl Tables<'_> {
    // The amount at a node: a number or an index without a call.
    #[cycle(amounts_operands_tests)]
    pub fn operands(&self, month: Month, at: usize, left: usize) -> Four
        requires { FourIn month.0 × AmountStands left self.now.nodes.now at × FineFour self.now.values.now (nat_of month.0) (amount_at offset_of left self.now.nodes.now at) }
        ensures { FourAre self.now.values.now (nat_of month.0) (amount_at offset_of left self.now.nodes.now at) result }
    {
        let x = nodes::slot(self.nodes, at, 0);
        match x {
            78 => four_rows::number(self.nodes, at),
            79 => four_rows::reading(self, month, at),
            _ => self.amounts(month, at, left),
        }
    }

    // The amount at a node of any letter.
    #[cycle(amounts_operands_tests)]
    pub fn amounts(&self, month: Month, at: usize, left: usize) -> Four
        requires { FourIn month.0 × AmountStands left self.now.nodes.now at × FineFour self.now.values.now (nat_of month.0) (amount_at offset_of left self.now.nodes.now at) }
        ensures { FourAre self.now.values.now (nat_of month.0) (amount_at offset_of left self.now.nodes.now at) result }
    {
        let letter = nodes::amount_letter(nodes::slot(self.nodes, at, 0));
        match letter {
            AmountLetter::Number => four_rows::number(self.nodes, at),
            AmountLetter::Index => four_rows::reading(self, month, at),
            AmountLetter::Sum => {
                let x = self.operands(month, at + 1, left - 1);
                let y = self.operands(month, nodes::link(self.nodes, at, 3), left - 1);
                four::plus(x, y)
            }
            AmountLetter::Difference => {
                let x = self.operands(month, at + 1, left - 1);
                let y = self.operands(month, nodes::link(self.nodes, at, 3), left - 1);
                four::minus(x, y)
            }
            AmountLetter::Product => {
                let x = self.operands(month, at + 1, left - 1);
                let y = self.operands(month, nodes::link(self.nodes, at, 3), left - 1);
                four::times(x, y)
            }
            AmountLetter::Quotient => {
                let x = self.operands(month, at + 1, left - 1);
                four_rows::over(self.nodes, at, x)
            }
            AmountLetter::Choose => {
                let t = self.tests(month, at + 1, left - 1);
                let x = self.operands(month, nodes::link(self.nodes, at, 3), left - 1);
                let y = self.operands(month, nodes::link(self.nodes, at, 4), left - 1);
                four::chosen(t, x, y)
            }
            AmountLetter::NoAmount => Four {
                a: Pence(0),
                b: Pence(0),
                c: Pence(0),
                d: Pence(0),
            },
        }
    }

    // Whether the test at a node holds. `Y` and `V` try both sides.
    #[cycle(amounts_operands_tests)]
    pub fn tests(&self, month: Month, at: usize, left: usize) -> Held
        requires { FourIn month.0 × TestStands left self.now.nodes.now at × FineFourTest self.now.values.now (nat_of month.0) (test_at offset_of left self.now.nodes.now at) }
        ensures { HeldAre self.now.values.now (nat_of month.0) (test_at offset_of left self.now.nodes.now at) result }
    {
        let letter = nodes::test_letter(nodes::slot(self.nodes, at, 0));
        match letter {
            TestLetter::Less => {
                let x = self.operands(month, at + 1, left - 1);
                let y = self.operands(month, nodes::link(self.nodes, at, 3), left - 1);
                four::less(x, y)
            }
            TestLetter::Equal => {
                let x = self.operands(month, at + 1, left - 1);
                let y = self.operands(month, nodes::link(self.nodes, at, 3), left - 1);
                four::equal(x, y)
            }
            TestLetter::Conjunction => {
                let x = self.tests(month, at + 1, left - 1);
                let y = self.tests(month, nodes::link(self.nodes, at, 3), left - 1);
                four::both(x, y)
            }
            TestLetter::Disjunction => {
                let x = self.tests(month, at + 1, left - 1);
                let y = self.tests(month, nodes::link(self.nodes, at, 3), left - 1);
                four::either(x, y)
            }
            TestLetter::Negation => {
                let x = self.tests(month, at + 1, left - 1);
                four::opposite(x)
            }
            TestLetter::NoTest => Held {
                a: false,
                b: false,
                c: false,
                d: false,
            },
        }
    }
}
