// What an amount makes of what the plan beneath it pays.
ghost use Rattle.std.specs.Prelude.{◌≡◌, ◌*ℤ◌};
ghost use Rattle.amounts.specs.Fine.{Fine, MonthIn};
ghost use Rattle.amounts.specs.Flat.{flat};
ghost use Rattle.integers.specs.Bounded.{Small};
ghost use Rattle.language.specs.Payments.Amounts.{value};
ghost use Rattle.nodes.specs.Found.{amount_at, offset_of};
ghost use Rattle.nodes.specs.Stands.{AmountStands};
ghost use Rattle.nodes.specs.Table.{nat_of};

use amounts::Tables;
use integers::{Month, Pence};

// Nothing of nothing: in most months a plan pays nothing, and its amounts need not be worked out.
pub fn scaled(tables: &Tables, root: Month, at: usize, x: Pence) -> Pence
    requires { MonthIn root.0 × AmountStands 512 tables.now.nodes.now at × Fine tables.now.values.now (nat_of root.0) (amount_at offset_of 512 tables.now.nodes.now at)
        × Small (value (flat tables.now.values.now) (amount_at offset_of 512 tables.now.nodes.now at) (nat_of root.0) *ℤ x.0) }
    ensures { result.0 ≡ value (flat tables.now.values.now) (amount_at offset_of 512 tables.now.nodes.now at) (nat_of root.0) *ℤ x.0 }
{
    let pence = x.0;
    if pence == 0 {
        return Pence(0);
    }
    let a = tables.amount_value(root, at, 512);
    integers::times(a, x)
}
