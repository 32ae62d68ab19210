// What a leaf is worth to a pair.
ghost use Rattle.std.specs.Prelude.{◌≡◌, ◌<◌, T, ◌+ℤ◌, nat_abs, pos, get_or, length};
ghost use Rattle.std.specs.Int.Signed.{lt_z, non_neg};
ghost use Rattle.checked.specs.Ranges.{Near, Waited};
ghost use Rattle.language.specs.Calls.{sign_of};
ghost use Rattle.nodes.specs.Table.{RowIn, nat_of, slot_at};
ghost use Rattle.pays.specs.Parties.{PairIn};
ghost use Rattle.worths.specs.Answers.{worth_answer};
ghost use Rattle.worths.specs.Leaf.{leaf_in};
ghost use Rattle.worths.specs.Ranges.{Payable};

use checked::rows;
use integers::{Millionths, Month, Pence};
use pays::{Pair, transfer};
use text::Refusal;

// One penny from the leaf's first party to its second.
pub fn penny(nodes: &[i64], at: usize, pair: Pair) -> Pence
    requires { RowIn nodes.now at × PairIn pair.p pair.q }
    ensures { result.0 ≡ sign_of pair.p pair.q (nat_of (slot_at nodes.now at 3)) (nat_of (slot_at nodes.now at 4)) }
{
    transfer::penny_between(nodes::slot(nodes, at, 3), nodes::slot(nodes, at, 4), pair)
}

// The discount factor of a month.
pub fn factor(factors: &[i64], month: Month) -> Millionths
    requires { T (non_neg month.0) × (nat_abs month.0 < length factors.now) }
    ensures { result.0 ≡ get_or factors.now (nat_abs month.0) (pos 0) }
{
    let i = month.0 as usize;
    Millionths(factors[i])
}

pub fn earlier(m: Month, n: Month) -> bool
    ensures { result ≡ lt_z m.0 n.0 }
{
    m.0 < n.0
}

// A month outside 0 to f is 11, also where the leaf is worth 0; before month `start` the leaf is worth 0.
pub fn leaf_worth(
    nodes: &[i64],
    factors: &[i64],
    f: Month,
    waited: Month,
    start: Month,
    pair: Pair,
    at: usize,
) -> Result<Millionths, Refusal>
    requires { RowIn nodes.now at × Payable f.0 factors.now × Waited waited.0 × PairIn pair.p pair.q × Near (slot_at nodes.now at 1) }
    ensures { worth_answer result ≡ leaf_in f.0 factors.now start.0 (slot_at nodes.now at 1 +ℤ pos (nat_of waited.0))
        (sign_of pair.p pair.q (nat_of (slot_at nodes.now at 3)) (nat_of (slot_at nodes.now at 4))) }
{
    let month = integers::later(rows::month_at(nodes, at, 1), waited);
    if tables::month_ok(f.0, month.0) {
        if earlier(month, start) {
            return Ok(Millionths(0));
        }
        let sign = penny(nodes, at, pair);
        let value = integers::value_times(sign, factor(factors, month));
        return Ok(value);
    }
    Err(Refusal::Reads)
}
