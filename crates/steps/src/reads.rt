// What is read of a table that is written to: it is lent as a slice, and each reading lends it on as the one pointer that the walks below take.
ghost use Rattle.std.specs.Prelude.{◌≡◌, ◌*◌, ◌≤◌, length};
ghost use Rattle.amounts.specs.Fine.{Fine, FineTest, MonthIn};
ghost use Rattle.amounts.specs.Flat.{flat};
ghost use Rattle.language.specs.Calls.{sign_of};
ghost use Rattle.language.specs.Payments.Amounts.{holds, value};
ghost use Rattle.nodes.specs.Blocks.{AmountBlock};
ghost use Rattle.nodes.specs.Found.{amount_at, offset_of, test_at};
ghost use Rattle.nodes.specs.Stands.{AmountStands, TestStands};
ghost use Rattle.nodes.specs.Table.{RowIn, nat_of, slot_at};
ghost use Rattle.pays.specs.Parties.{PairIn};

use amounts::Tables;
use integers::{Month, Pence};
use pays::{Pair, transfer};

// What a `T` pays the pair.
pub fn penny(nodes: &[i64], at: usize, pair: Pair) -> Pence
    requires { RowIn nodes.now at × PairIn pair.p pair.q }
    ensures { result.0 ≡ sign_of pair.p pair.q (nat_of (slot_at nodes.now at 1)) (nat_of (slot_at nodes.now at 2)) }
{
    transfer::penny(&nodes, at, pair)
}

// The amount that stands in the rows from node `at` up to node `to`, in a month.
pub fn amount(nodes: &[i64], values: &&[i64], month: Month, at: usize, to: usize) -> Pence
    requires { MonthIn month.0 × AmountStands 512 nodes.now at × Fine values.now.now (nat_of month.0) (amount_at offset_of 512 nodes.now at) × AmountBlock 512 nodes.now at to × (to ≤ 512) × (5 * to ≤ length nodes.now) }
    ensures { result.0 ≡ value (flat values.now.now) (amount_at offset_of 512 nodes.now at) (nat_of month.0) }
{
    backwards::amount_in(
        &Tables {
            nodes,
            values: *values,
        },
        month,
        at,
        to,
    )
}

// Whether the test at a node holds in a month.
pub fn test(nodes: &[i64], values: &&[i64], month: Month, at: usize) -> bool
    requires { MonthIn month.0 × TestStands 512 nodes.now at × FineTest values.now.now (nat_of month.0) (test_at offset_of 512 nodes.now at) }
    ensures { result ≡ holds (flat values.now.now) (test_at offset_of 512 nodes.now at) (nat_of month.0) }
{
    let tables = Tables {
        nodes,
        values: *values,
    };
    tables.test_holds(month, at, 512)
}
