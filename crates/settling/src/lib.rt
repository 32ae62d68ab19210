// A payoff's open settings filled in the node table: months summed, delays filled.
#![tactic(auto)]

ghost use Rattle.std.specs.Prelude.{◌≡◌, false, true, ◌+◌, ◌*◌, ◌≤◌, pos, get_or, length};
ghost use Rattle.language.specs.Rules.Table.{are_settings};
ghost use Rattle.nodes.specs.Pass.{all_rows, row_from};
ghost use Rattle.settling.specs.Settle.{MonthIs, RowIs, SettleIs, Settled, month_in, row_in};

use tables::fill;
use tables::fill::Unset;

pub mod sums;

// A month's number and, behind it, its digits: the sum, and no digits. Most months have no settings: nothing is written.
pub fn settle_month(nodes: &mut [i64], at: usize, days: &[i64]) -> Result<(), Unset>
    requires { (at + 2 ≤ length nodes.old) × (are_settings days.now ≡ true) × (month_in (get_or nodes.old at (pos 0)) (get_or nodes.old (at + 1) (pos 0)) ≡ true) }
    ensures { MonthIs days.now at nodes.old nodes.new result }
{
    let plain = nodes[at];
    let digits = nodes[at + 1];
    if digits == 0 {
        return Ok(());
    }
    let sum = sums::month_sum(days, digits as u64)?;
    nodes[at] = plain + sum as i64;
    nodes[at + 1] = 0;
    Ok(())
}

// The month of an `O` or a leaf, the delay of a `W`.
pub fn settle_row(nodes: &mut [i64], at: usize, days: &[i64]) -> Result<(), Unset>
    requires { (at + 5 ≤ length nodes.old) × (are_settings days.now ≡ true) × (row_in (row_from at nodes.old) ≡ true) }
    ensures { RowIs days.now at nodes.old nodes.new result }
{
    let letter = nodes[at];
    match letter {
        79 => settle_month(nodes, at + 2, days),
        70 => settle_month(nodes, at + 1, days),
        72 => settle_month(nodes, at + 1, days),
        87 => fill::fill_slot(nodes, at + 1, days),
        _ => Ok(()),
    }
}

// The first rows.
pub fn settle_rows(nodes: &mut [i64], count: usize, days: &[i64]) -> Result<(), Unset>
    requires { (5 * count ≤ length nodes.old) × (are_settings days.now ≡ true) × (all_rows row_in count nodes.old ≡ true) }
    ensures { SettleIs days.now count nodes.old nodes.new result }
{
    for i in 0..count {
        settle_row(nodes, 5 * i, days)?;
    }
    Ok(())
}

// The same where it is known whether the rows have open settings: if none, they are settled as they stand.
pub fn settle_open(nodes: &mut [i64], count: usize, days: &[i64], used: bool) -> Result<(), Unset>
    requires { (5 * count ≤ length nodes.old) × (are_settings days.now ≡ true) × (all_rows row_in count nodes.old ≡ true)
        × (used ≡ false → Settled count nodes.old) }
    ensures { SettleIs days.now count nodes.old nodes.new result }
{
    if used {
        return settle_rows(nodes, count, days);
    }
    Ok(())
}
