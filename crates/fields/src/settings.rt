// Settings: P0 to P7 as a delay, and those that are added to a payoff's month.
ghost use Rattle.std.specs.Prelude.{◌≡◌, ◌+◌, ◌-◌, ◌^◌, ◌≤◌, ◌<◌, min, length, drop, get_or};
ghost use Rattle.language.specs.Text.Letters.{delay};
ghost use Rattle.fields.specs.Fields.{TakenIs};
ghost use Rattle.fields.specs.Positions.{up_to};
ghost use Rattle.fields.specs.Settings.{SettingsAre};

use crate::field::Taking;

// P0 to P7 as a whole field: the setting k is kept as -1 - k.
pub fn read_setting(text: &[u8], at: usize) -> Option<Taking>
    requires { (at < length text.now) × (get_or text.now at 0 ≡ 80) }
    ensures { TakenIs delay text.now at result }
{
    if text.len() - at < 2 {
        return None;
    }
    let c = text[at + 1];
    if c < b'0' || b'7' < c {
        return None;
    }
    if text.len() - at != 2 && text[at + 2] != b',' {
        return None;
    }
    Some(Taking {
        value: 0 - i64::from(c - 47),
        next: at + 3,
    })
}

// 32 to the setting's number.
fn weight(c: u8) -> u64
    requires { (48 ≤ c) × (c ≤ 55) }
    ensures is { result ≡ 32 ^ (c - 48) }
    ensures small { result ≤ 34359738368 }
{
    match c {
        b'0' => 1,
        b'1' => 32,
        b'2' => 1024,
        b'3' => 32768,
        b'4' => 1048576,
        b'5' => 33554432,
        b'6' => 1073741824,
        _ => 34359738368,
    }
}

// The settings that are read start below this byte: at most 31 from byte `at` on, each of three bytes of the text.
fn starts_end(len: usize, at: usize) -> usize
    requires { at ≤ len }
    ensures { result ≡ min len (at + 93) - 2 }
{
    len.min(at.saturating_add(93)).saturating_sub(2)
}

// A month's settings, lowest first: how often each is added, as digits in base 32. Not a `for`: the byte that the loop stops at is asked for behind it.
fn read_settings(text: &[u8], at: usize) -> Option<Taking>
    requires { at ≤ length text.now }
    ensures { SettingsAre (up_to 44 (drop at text.now)) at result }
{
    let end = starts_end(text.len(), at);
    let mut acc: u64 = 0;
    let mut low: u8 = b'0';
    let mut i = at;
    while i < end {
        // `+P` as one number of two bytes
        if u64::from(text[i]) + 256 * u64::from(text[i + 1]) != 20523 {
            break;
        }
        let c = text[i + 2];
        if (c < low) | (b'7' < c) {
            return None;
        }
        acc += weight(c);
        low = c;
        i += 3;
    }
    if i < text.len() && text[i] != b',' {
        return None;
    }
    Some(Taking {
        value: acc as i64,
        next: i + 1,
    })
}

// The same: most months have no settings.
pub fn quick_settings(text: &[u8], at: usize) -> Option<Taking>
    requires { at ≤ length text.now }
    ensures { SettingsAre (up_to 44 (drop at text.now)) at result }
{
    if at < text.len() && text[at] == b',' {
        return Some(Taking {
            value: 0,
            next: at + 1,
        });
    }
    read_settings(text, at)
}
