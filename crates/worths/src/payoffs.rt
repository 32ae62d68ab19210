// What a payoff is worth to a pair, worked out in the node table.
ghost use Rattle.std.specs.Prelude.{◌≡◌, ◌+ℤ◌, pos};
ghost use Rattle.checked.specs.Ranges.{Near, Waited};
ghost use Rattle.language.specs.Calls.{sign_of};
ghost use Rattle.nodes.specs.Blocks.{PayoffBlocks};
ghost use Rattle.nodes.specs.Found.{offset_of, payoff_at};
ghost use Rattle.nodes.specs.Stands.{PayoffStands};
ghost use Rattle.nodes.specs.Table.{RowIn, nat_of, slot_at};
ghost use Rattle.tables.specs.Given.{table_of};
ghost use Rattle.worths.specs.Answers.{worth_answer};
ghost use Rattle.worths.specs.Checked.{worth_in};
ghost use Rattle.worths.specs.Coded.{coded_worth};
ghost use Rattle.worths.specs.Leaf.{leaf_in};
ghost use Rattle.worths.specs.Ranges.{FieldsIn, WaitedAt};

use crate::asked::Asked;
use crate::{answers, coded, leaf, rows, wait};
use amounts::wait::Wait;
use integers::{Millionths, Month};
use nodes::PayoffLetter;
use text::Refusal;

impl Asked<'_> {
    // A leaf, which counts from month `start` on.
    fn leaf_worth(&self, waited: Month, start: Month, at: usize) -> Result<Millionths, Refusal>
        requires { RowIn self.now.lent.nodes.now at × Waited waited.0 × Near (slot_at self.now.lent.nodes.now at 1) }
        ensures { worth_answer result ≡ leaf_in self.now.lent.span.f self.now.factors.now start.0 (slot_at self.now.lent.nodes.now at 1 +ℤ pos (nat_of waited.0))
            (sign_of self.now.pair.p self.now.pair.q (nat_of (slot_at self.now.lent.nodes.now at 3)) (nat_of (slot_at self.now.lent.nodes.now at 4))) }
    {
        let f = Month(self.lent.span.f);
        leaf::leaf_worth(
            self.lent.nodes,
            self.factors,
            f,
            waited,
            start,
            self.pair,
            at,
        )
    }

    // The payoff at a node, with some months waited: its value or refusal as one number.
    // A leaf that is not cut counts from month 0 on, a cut one from month `start` on.
    pub fn payoff_code(&self, waited: Month, at: usize, left: usize) -> i64
        requires { WaitedAt left waited.0 × PayoffStands left self.now.lent.nodes.now at × FieldsIn (payoff_at nat_of offset_of left self.now.lent.nodes.now at)
            × PayoffBlocks left self.now.lent.nodes.now at }
        ensures { coded_worth result ≡ worth_in (table_of self.now.lent.span.h self.now.lent.span.f self.now.factors.now self.now.lent.bounds.now self.now.lent.values.now)
            self.now.pair.p self.now.pair.q (nat_of self.now.start.0) (payoff_at nat_of offset_of left self.now.lent.nodes.now at) (nat_of waited.0) }
    {
        let letter = rows::letter(self.lent.nodes, at);
        match letter {
            PayoffLetter::Nil => 0,
            PayoffLetter::Uncut => {
                let x = self.leaf_worth(waited, Month(0), at);
                coded::code(x)
            }
            PayoffLetter::Cut => {
                let x = self.leaf_worth(waited, self.start, at);
                coded::code(x)
            }
            PayoffLetter::Times => {
                let next = nodes::link(self.lent.nodes, at, 3);
                let a = checked::coded::valued(checked_back::value_in(
                    &self.lent,
                    waited,
                    at + 1,
                    next,
                ));
                let x = coded::worth(self.payoff_code(waited, next, left - 1));
                coded::code(answers::scaled(a, x))
            }
            PayoffLetter::Plus => {
                let x = coded::worth(self.payoff_code(waited, at + 1, left - 1));
                let second = nodes::link(self.lent.nodes, at, 3);
                let y = coded::worth(self.payoff_code(waited, second, left - 1));
                coded::code(answers::added(x, y))
            }
            PayoffLetter::Await => {
                let d = nodes::delay(self.lent.nodes, at);
                match wait::wait_for(&self.lent, waited, d, at + 1, 512) {
                    Ok(Wait::Held(k)) => {
                        let second = nodes::link(self.lent.nodes, at, 3);
                        self.payoff_code(k, second, left - 1)
                    }
                    Ok(Wait::Missed(last)) => {
                        let third = nodes::link(self.lent.nodes, at, 4);
                        self.payoff_code(last, third, left - 1)
                    }
                    Err(k) => coded::code(Err(k)),
                }
            }
            PayoffLetter::NoPayoff => 0,
        }
    }
}
