// Amounts and tests of a plan's text, measured as they are read.
ghost use Rattle.std.specs.Prelude.{◌≡◌, ◌≤◌};
ghost use Rattle.one_pass.specs.Packed.{Kept, behind};
ghost use Rattle.one_pass.specs.Reads.{Short};
ghost use Rattle.one_pass.specs.Seen.{AmountIs, AmountSeen, TestIs, TestSeen};

use crate::node::{divisor_at, index_at, number_at, stands_at};
use crate::packed;
use crate::packed::UNSURE;
use integers::Month;

// An amount behind a part that was read before it.
#[cycle(amount_at_amount_behind_test_at_test_behind)]
pub fn amount_behind(
    text: &&[u8],
    before: u64,
    left: usize,
    low: Month,
    high: Month,
    bounds: &&[i64],
) -> u64
    requires { Short text.now.now }
    ensures { Kept result → Kept before × AmountSeen text.now.now left (behind before) low.0 high.0 bounds.now.now result }
{
    if packed::is_kept(before) {
        return amount_at(text, packed::place(before), left, low, high, bounds);
    }
    UNSURE
}

// An amount, the offsets that can be read from its plan, and the levels left.
#[cycle(amount_at_amount_behind_test_at_test_behind)]
pub fn amount_at(
    text: &&[u8],
    at: usize,
    left: usize,
    low: Month,
    high: Month,
    bounds: &&[i64],
) -> u64
    requires { Short text.now.now × (at ≤ 1024) }
    ensures { AmountIs text.now.now left at low.0 high.0 bounds.now.now result }
{
    if stands_at(text, at, left) {
        let letter = text[at];
        match letter {
            b'N' => number_at(text, at),
            b'O' => index_at(text, at, low, high, bounds),
            b'A' | b'U' => {
                let x = amount_at(text, at + 2, left - 1, low, high, bounds);
                let y = amount_behind(text, x, left - 1, low, high, bounds);
                packed::summed(x, y)
            }
            b'K' => {
                let x = amount_at(text, at + 2, left - 1, low, high, bounds);
                let y = amount_behind(text, x, left - 1, low, high, bounds);
                packed::multiplied(x, y)
            }
            b'Q' => {
                let d = divisor_at(text, at);
                amount_behind(text, d, left - 1, low, high, bounds)
            }
            b'I' => {
                let t = test_at(text, at + 2, left - 1, low, high, bounds);
                let x = amount_behind(text, t, left - 1, low, high, bounds);
                let y = amount_behind(text, x, left - 1, low, high, bounds);
                packed::greater(packed::greater(t, x), y)
            }
            _ => UNSURE,
        }
    } else {
        UNSURE
    }
}

// A test behind a part that was read before it.
#[cycle(amount_at_amount_behind_test_at_test_behind)]
pub fn test_behind(
    text: &&[u8],
    before: u64,
    left: usize,
    low: Month,
    high: Month,
    bounds: &&[i64],
) -> u64
    requires { Short text.now.now }
    ensures { Kept result → Kept before × TestSeen text.now.now left (behind before) low.0 high.0 bounds.now.now result }
{
    if packed::is_kept(before) {
        return test_at(text, packed::place(before), left, low, high, bounds);
    }
    UNSURE
}

#[cycle(amount_at_amount_behind_test_at_test_behind)]
fn test_at(text: &&[u8], at: usize, left: usize, low: Month, high: Month, bounds: &&[i64]) -> u64
    requires { Short text.now.now × (at ≤ 1024) }
    ensures { TestIs text.now.now left at low.0 high.0 bounds.now.now result }
{
    if stands_at(text, at, left) {
        let letter = text[at];
        match letter {
            b'G' | b'E' => {
                let x = amount_at(text, at + 2, left - 1, low, high, bounds);
                let y = amount_behind(text, x, left - 1, low, high, bounds);
                packed::tested(x, y)
            }
            b'Y' | b'V' => {
                let x = test_at(text, at + 2, left - 1, low, high, bounds);
                let y = test_behind(text, x, left - 1, low, high, bounds);
                packed::tested(x, y)
            }
            b'R' => test_at(text, at + 2, left - 1, low, high, bounds),
            _ => UNSURE,
        }
    } else {
        UNSURE
    }
}
