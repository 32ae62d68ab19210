// The sum of all delays above a node, and one delay or offset more.
// It is two numbers: `plain`, a number of months, and `digits`, how often each setting is added, as digits in base 32.
ghost use Rattle.std.specs.Prelude.{◌≡◌, true, ◌<◌, ◌≤◌, ◌^◌, nat_abs, pos};
ghost use Rattle.std.specs.Int.Signed.{lt_z};
ghost use Rattle.compiles.specs.Months.{digits_later, plain_later, offset_plain, setting_in};
ghost use Rattle.language.specs.Text.Form.{delay_in_form};
ghost use Rattle.nodes.specs.Rows.{delay_from};

use integers::Month;
use tables::Range;

// 32 to the setting's number.
fn weight(s: usize) -> Month
    requires { s < 8 }
    ensures { result.0 ≡ pos (32 ^ s) }
{
    match s {
        0 => Month(1),
        1 => Month(32),
        2 => Month(1024),
        3 => Month(32768),
        4 => Month(1048576),
        5 => Month(33554432),
        6 => Month(1073741824),
        _ => Month(34359738368),
    }
}

// A delay below zero is an open setting.
fn is_open(d: Month) -> bool
    ensures { result ≡ lt_z d.0 (pos 0) }
{
    d.0 < 0
}

fn setting_of(d: Month) -> usize
    requires { lt_z d.0 (pos 0) ≡ true }
    ensures { result ≡ setting_in d.0 }
{
    (0 - (d.0 + 1)) as usize
}

// The number of months, and one more delay.
pub fn later_plain(plain: Month, d: Month) -> Month
    requires { (nat_abs plain.0 ≤ 19_200) × delay_in_form (delay_from d.0) }
    ensures { result.0 ≡ plain_later plain.0 (delay_from d.0) }
{
    if is_open(d) {
        return plain;
    }
    Month(plain.0 + d.0)
}

// The settings, and one more delay.
pub fn later_digits(digits: Month, d: Month) -> Month
    requires { (nat_abs digits.0 ≤ 1_099_511_627_776) × delay_in_form (delay_from d.0) }
    ensures { result.0 ≡ digits_later digits.0 (delay_from d.0) }
{
    if is_open(d) {
        let w = weight(setting_of(d));
        return Month(digits.0 + w.0);
    }
    digits
}

// The number of months of an `O` at this offset.
pub fn offset_month(plain: Month, i: Month) -> Month
    requires { nat_abs plain.0 ≤ 19_200 }
    ensures { result.0 ≡ offset_plain plain.0 i.0 }
{
    let near = tables::is_between(
        i.0,
        Range {
            low: -600,
            high: 600,
        },
    );
    if near {
        return Month(plain.0 + i.0);
    }
    plain
}
