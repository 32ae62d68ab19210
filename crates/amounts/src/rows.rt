// What one row gives: its number, the value that it reads, and its division of another amount.
ghost use Rattle.std.specs.Prelude.{◌≡◌, ◌<◌, ℤ, pos, nat_abs, ◌+ℤ◌, get_or, length};
ghost use Rattle.integers.specs.Rounding.{floor_z};
ghost use Rattle.nodes.specs.Table.{RowIn, nat_of, slot_at};
ghost use Rattle.amounts.specs.Fine.{Divides, MonthIn, Reading};

use crate::Tables;
use integers::{Month, Pence};
use tables::lookup;

// The number of an `N`.
pub fn number(nodes: &[i64], at: usize) -> Pence
    requires { RowIn nodes.now at }
    ensures { result.0 ≡ slot_at nodes.now at 1 }
{
    Pence(nodes::slot(nodes, at, 1))
}

// The value at a place of the table.
pub fn value_at(values: &[i64], i: usize) -> Pence
    requires { i < length values.now }
    ensures { result.0 ≡ get_or values.now i (pos 0) }
{
    let found = lookup::lookup(values, Some(i));
    let Some(value) = found else {
        return Pence(0);
    };
    value
}

// The value of an `O`: its row has the place for month 0.
pub fn reading(tables: &Tables, month: Month, at: usize) -> Pence
    requires { RowIn tables.now.nodes.now at × MonthIn month.0 × Reading tables.now.values.now (nat_of month.0) (slot_at tables.now.nodes.now at 2) }
    ensures { result.0 ≡ get_or tables.now.values.now (nat_abs (pos (nat_of month.0) +ℤ slot_at tables.now.nodes.now at 2)) (pos 0) }
{
    let place = nodes::slot(tables.nodes, at, 2);
    let i = (month.0 + place) as usize;
    value_at(tables.values, i)
}

// An amount divided by the number of a `Q`.
pub fn over(nodes: &[i64], at: usize, x: Pence) -> Pence
    requires { RowIn nodes.now at × Divides (nat_of (slot_at nodes.now at 1)) }
    ensures { result.0 ≡ floor_z x.0 (nat_of (slot_at nodes.now at 1)) }
{
    let n = nodes::slot(nodes, at, 1);
    integers::quotient(x, n)
}
