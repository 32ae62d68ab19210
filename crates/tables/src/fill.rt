// Open settings filled in a node table.
ghost use Rattle.std.specs.Prelude.{◌≡◌, ℕ, ◌+◌, ◌*◌, ◌<◌, ◌≤◌, true, length, ℤ};
ghost use Rattle.language.specs.Rules.Table.{are_settings};
ghost use Rattle.nodes.specs.Pass.{row_from};
ghost use Rattle.tables.specs.Fill.{FillIs, RowIs, SlotIs};
ghost use Rattle.tables.specs.Skips.{Skips, plan_step};
ghost use Rattle.text.specs.declared.Refusal.TheVariants.{Settings};

use text::Refusal;

#[derive(Clone, Copy)]
pub struct Unset;

// Document 01's 8.
impl From<Unset> for Refusal {
    ghost from_gives = { λ _ k. k ≡ Settings };

    fn from(_unset: Unset) -> Refusal {
        Refusal::Settings
    }
}

// One delay.
pub fn fill_slot(nodes: &mut [i64], at: usize, days: &[i64]) -> Result<(), Unset>
    requires { (at < length nodes.old) × (are_settings days.now ≡ true) }
    ensures { SlotIs days.now at nodes.old nodes.new result }
{
    let d = nodes[at];
    if d < 0 {
        let k = (d.unsigned_abs() - 1) as usize;
        if k < days.len() {
            nodes[at] = days[k];
            Ok(())
        } else {
            Err(Unset)
        }
    } else {
        Ok(())
    }
}

// The delay of a row that has one.
pub fn fill_row(nodes: &mut [i64], at: usize, days: &[i64]) -> Result<(), Unset>
    requires { (at + 5 ≤ length nodes.old) × (are_settings days.now ≡ true) }
    ensures { RowIs days.now at nodes.old nodes.new result }
{
    let letter = nodes[at];
    match letter {
        76 => fill_slot(nodes, at + 1, days),
        87 => fill_slot(nodes, at + 1, days),
        _ => Ok(()),
    }
}

// The row of the next plan behind row i: an amount or a test in between has no delay.
fn next_plan(nodes: &[i64], i: usize) -> usize
    requires { (0 < plan_step (row_from (5 * i) nodes.now)) × (5 * (i + plan_step (row_from (5 * i) nodes.now)) ≤ length nodes.now) }
    ensures { result ≡ i + plan_step (row_from (5 * i) nodes.now) }
{
    let letter = nodes[5 * i];
    match letter {
        83 => i + nodes[5 * i + 3] as usize,
        87 => i + nodes[5 * i + 3] as usize,
        _ => i + 1,
    }
}

// The delays of the first rows. Not a `for`: a step passes over the rows of an amount or a test.
pub fn fill_rows(nodes: &mut [i64], count: usize, days: &[i64]) -> Result<(), Unset>
    requires { (5 * count ≤ length nodes.old) × (are_settings days.now ≡ true) × Skips count nodes.old }
    ensures { FillIs days.now count nodes.old nodes.new result }
{
    let mut i = 0;
    while i < count {
        fill_row(nodes, 5 * i, days)?;
        i = next_plan(nodes, i);
    }
    Ok(())
}
