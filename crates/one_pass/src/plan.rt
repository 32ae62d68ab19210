// A plan's text, measured as it is read: recursion over its subplans, the depth left falling.
ghost use Rattle.std.specs.Prelude.{◌≡◌, true, ◌≤◌};
ghost use Rattle.language.specs.Limits.{max_months};
ghost use Rattle.language.specs.Rules.Table.{are_settings};
ghost use Rattle.measures.specs.Spans.{Near};
ghost use Rattle.nodes.specs.Table.{nat_of};
ghost use Rattle.one_pass.specs.Packed.{Kept, behind};
ghost use Rattle.one_pass.specs.Reads.{Short};
ghost use Rattle.one_pass.specs.Seen.{PlanIs, PlanSeen};

use crate::amount::{amount_at, test_behind};
use crate::node::{delay_at, ended, last_at, stands_at, transfer_at};
use crate::packed;
use crate::packed::UNSURE;
use integers::Month;
use measures::{first, reads};

// A plan behind a part that was read before it.
#[cycle(plan_at_plan_behind)]
fn plan_behind(
    text: &&[u8],
    before: u64,
    left: usize,
    low: Month,
    high: Month,
    need: u64,
    bounds: &&[i64],
    days: &&[i64],
) -> u64
    requires { Short text.now.now × Near left low.0 high.0 × (nat_of high.0 ≤ max_months) × (are_settings days.now.now ≡ true) }
    ensures { Kept result → Kept before × PlanSeen text.now.now left (behind before) low.0 high.0 bounds.now.now need days.now.now result }
{
    if packed::is_kept(before) {
        return plan_at(
            text,
            packed::place(before),
            left,
            low,
            high,
            need,
            bounds,
            days,
        );
    }
    UNSURE
}

// A plan, the offsets that can be read from every month in which its node may stand, and what is needed by its first payment.
#[cycle(plan_at_plan_behind)]
pub fn plan_at(
    text: &&[u8],
    at: usize,
    left: usize,
    low: Month,
    high: Month,
    need: u64,
    bounds: &&[i64],
    days: &&[i64],
) -> u64
    requires { Short text.now.now × (at ≤ 1024) × Near left low.0 high.0 × (nat_of high.0 ≤ max_months) × (are_settings days.now.now ≡ true) }
    ensures { PlanIs text.now.now left at low.0 high.0 bounds.now.now need days.now.now result }
{
    if stands_at(text, at, left) {
        let letter = text[at];
        match letter {
            b'Z' => ended(0, at + 2, high),
            b'T' => transfer_at(text, at, high, need),
            b'S' => {
                let m = amount_at(text, at + 2, left - 1, low, high, bounds);
                let wanted = first::later_of(need, packed::months(m));
                let x = plan_behind(text, m, left - 1, low, high, wanted, bounds, days);
                packed::scaled(m, x)
            }
            b'L' => {
                let d = delay_at(text, at, days);
                if packed::is_kept(d) {
                    let n = packed::months(d);
                    let low_then = reads::nearer(low, Month(n as i64));
                    let high_then = reads::nearer(high, Month(n as i64));
                    // what is needed in so many months is needed n months later in n fewer
                    let wanted = first::later_of(need, n) - n;
                    return plan_behind(
                        text,
                        d,
                        left - 1,
                        low_then,
                        high_then,
                        wanted,
                        bounds,
                        days,
                    );
                }
                UNSURE
            }
            b'B' => {
                let x = plan_at(text, at + 2, left - 1, low, high, need, bounds, days);
                let y = plan_behind(text, x, left - 1, low, high, need, bounds, days);
                packed::added(x, y)
            }
            b'W' => {
                let d = delay_at(text, at, days);
                if packed::is_kept(d) {
                    let n = Month(packed::months(d) as i64);
                    let low_then = reads::nearer(low, n);
                    let high_then = reads::nearer(high, n);
                    let t = test_behind(text, d, left - 1, low, high_then, bounds);
                    if first::tried_in_time(packed::months(t)) {
                        let x = plan_behind(text, t, left - 1, low, high_then, need, bounds, days);
                        let y = plan_behind(
                            text,
                            x,
                            left - 1,
                            low_then,
                            high_then,
                            need,
                            bounds,
                            days,
                        );
                        return packed::either(x, y);
                    }
                }
                UNSURE
            }
            _ => UNSURE,
        }
    } else {
        last_at(text, at, left, high, need)
    }
}
