// What the rows of an amount or test give: their latest read, whether all of it lies in a window, and their magnitudes summed.
ghost use Rattle.std.specs.Prelude.{◌≡◌, ◌*◌, ◌-◌, ◌≤◌, length};
ghost use Rattle.measures.specs.Magnitudes.{bound_in};
ghost use Rattle.measures.specs.Rows.{rows_latest, rows_magnitude, rows_read};
ghost use Rattle.measures.specs.Timing.{latest_month};

use crate::lent::Lent;
use crate::reads::Window;
use crate::{first, limit, magnitude, node, reads};
use nodes::AmountLetter;

// What rows that stand together give.
#[derive(Clone, Copy)]
pub struct Rows {
    pub latest: u64,
    pub magnitude: u64,
    pub reads: bool,
}

// The rows from one on up to another.
pub fn read_rows(lent: &Lent, from: usize, to: usize, w: Window) -> Rows
    requires { (from ≤ to) × (to ≤ 512) × (5 * to ≤ length lent.now.nodes.now) }
    ensures { (result.latest ≡ latest_month (rows_latest lent.now.nodes.now (to - from) from)) ×
        (result.reads ≡ rows_read w lent.now.nodes.now (to - from) from) ×
        (result.magnitude ≡ rows_magnitude (bound_in lent.now.bounds.now) lent.now.nodes.now (to - from) from) }
{
    let mut latest = 0u64;
    let mut total = 0u64;
    let mut reads = true;
    for at in from..to {
        let letter = node::amount_kind(lent.nodes, at);
        match letter {
            AmountLetter::Number => {
                total += limit::capped(magnitude::distance(lent.nodes, at));
            }
            AmountLetter::Index => {
                latest = latest.max(node::ahead(lent.nodes, at));
                reads = reads & reads::row_reads(lent.nodes, at, w);
                total += magnitude::bound_of(lent.bounds, nodes::label(lent.nodes, at));
            }
            AmountLetter::Product | AmountLetter::Choose => {
                total += limit::BEYOND;
            }
            _ => {}
        }
    }
    Rows {
        latest,
        magnitude: total,
        reads,
    }
}
