// What one row gives in four months in a row.
ghost use Rattle.std.specs.Prelude.{◌≡◌, ℕ, ◌+◌, ◌<◌, pos, nat_abs, ◌+ℤ◌, get_or};
ghost use Rattle.integers.specs.Rounding.{floor_z};
ghost use Rattle.nodes.specs.Table.{RowIn, nat_of, slot_at};
ghost use Rattle.amounts.specs.Fine.{Divides, Reading};
ghost use Rattle.amounts.specs.FourMonths.{FourIn, pence_in};

use crate::four::Four;
use crate::{Tables, rows};
use integers::Month;

pub fn number(nodes: &[i64], at: usize) -> Four
    requires { RowIn nodes.now at }
    ensures { (k : ℕ) → k < 4 → pence_in result k ≡ slot_at nodes.now at 1 }
{
    let n = rows::number(nodes, at);
    Four {
        a: n,
        b: n,
        c: n,
        d: n,
    }
}

pub fn reading(tables: &Tables, month: Month, at: usize) -> Four
    requires { RowIn tables.now.nodes.now at × FourIn month.0 × ((k : ℕ) → k < 4 → Reading tables.now.values.now (nat_of month.0 + k) (slot_at tables.now.nodes.now at 2)) }
    ensures { (k : ℕ) → k < 4 → pence_in result k ≡ get_or tables.now.values.now (nat_abs (pos (nat_of month.0 + k) +ℤ slot_at tables.now.nodes.now at 2)) (pos 0) }
{
    Four {
        a: rows::reading(tables, integers::later(month, Month(0)), at),
        b: rows::reading(tables, integers::later(month, Month(1)), at),
        c: rows::reading(tables, integers::later(month, Month(2)), at),
        d: rows::reading(tables, integers::later(month, Month(3)), at),
    }
}

pub fn over(nodes: &[i64], at: usize, x: Four) -> Four
    requires { RowIn nodes.now at × Divides (nat_of (slot_at nodes.now at 1)) }
    ensures { (k : ℕ) → k < 4 → pence_in result k ≡ floor_z (pence_in x k) (nat_of (slot_at nodes.now at 1)) }
{
    Four {
        a: rows::over(nodes, at, x.a),
        b: rows::over(nodes, at, x.b),
        c: rows::over(nodes, at, x.c),
        d: rows::over(nodes, at, x.d),
    }
}
