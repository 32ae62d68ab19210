// The settings that a payoff's month adds, from their digits.
ghost use Rattle.std.specs.Prelude.{◌≡◌, true, ◌-◌, ◌<◌, replicate};
ghost use Rattle.language.specs.Rules.Table.{are_settings};
ghost use Rattle.nodes.specs.Rows.{settings_from, settings_in};
ghost use Rattle.settling.specs.Sums.{SumIs};

use tables::fill::Unset;

// The setting Pk, n times.
pub fn term(days: &[i64], k: usize, n: u64) -> Result<u64, Unset>
    requires { (n < 32) × (are_settings days.now ≡ true) }
    ensures { SumIs days.now (replicate n k) result }
{
    if n == 0 {
        return Ok(0);
    }
    if k < days.len() {
        return Ok(n * integers::magnitude(days[k]));
    }
    Err(Unset)
}

// The digits without those of the settings below Pk.
#[derive(Clone, Copy)]
pub struct Start {
    pub k: usize,
    pub rest: u64,
}

// A month may add only a high setting: zeros at the end are passed by four and by two, not one by one.
fn after_zeros(digits: u64) -> Start
    ensures { (result.k < 8) × (settings_in digits ≡ settings_from (8 - result.k) result.k result.rest) }
{
    if digits % 1_048_576 == 0 {
        let rest = digits / 1_048_576;
        if rest % 1_024 == 0 {
            return Start {
                k: 6,
                rest: rest / 1_024,
            };
        }
        return Start { k: 4, rest: rest };
    }
    if digits % 1_024 == 0 {
        return Start {
            k: 2,
            rest: digits / 1_024,
        };
    }
    Start { k: 0, rest: digits }
}

// All eight digits, that of P0 the last. Once the rest is 0, no more settings follow.
pub fn month_sum(days: &[i64], digits: u64) -> Result<u64, Unset>
    requires { are_settings days.now ≡ true }
    ensures { SumIs days.now (settings_in digits) result }
{
    let start = after_zeros(digits);
    let mut rest = start.rest;
    let mut sum = 0;
    for k in start.k..8 {
        if rest == 0 {
            return Ok(sum);
        }
        sum += term(days, k, rest % 32)?;
        rest = rest / 32;
    }
    Ok(sum)
}
