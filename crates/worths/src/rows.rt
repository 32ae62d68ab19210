// What stands in a payoff's row.
ghost use Rattle.std.specs.Prelude.{◌≡◌};
ghost use Rattle.nodes.specs.Letters.{letter_of_payoff};
ghost use Rattle.nodes.specs.Table.{RowIn, slot_at};

use nodes::PayoffLetter;

pub fn letter(nodes: &[i64], at: usize) -> PayoffLetter
    requires { RowIn nodes.now at }
    ensures { result ≡ letter_of_payoff (slot_at nodes.now at 0) }
{
    nodes::payoff_letter(nodes::slot(nodes, at, 0))
}
