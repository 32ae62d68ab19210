// A number of a sheet. Most have at most seven digits, and these are looked at without asking for the line's end or the limit.
ghost use Rattle.std.specs.Prelude.{true, ◌≡◌, ◌+◌, ◌≤◌, drop, get_or, length};
ghost use Rattle.fields.specs.Numbers.{NumberIs};
ghost use Rattle.fields.specs.Positions.{up_to};
ghost use Rattle.lines.specs.Figures.{ShortIs, StartIs};

use fields::numbers;
use fields::numbers::{Natural, Number};

// A row of digits that a comma ends in the eight bytes from `at` on.
fn short_digits(line: &[u8], at: usize) -> Option<Natural>
    requires { at + 8 ≤ length line.now }
    ensures { ShortIs (up_to 44 (drop at line.now)) at result }
{
    let mut v: u64 = 0;
    for k in 0..8 {
        let b = line[at + k];
        match b {
            b'0'..=b'9' => {
                v = v * 10 + (b - 48) as u64;
            }
            _ => {
                if b == b',' {
                    return Some(Natural {
                        value: v,
                        end: at + k,
                    });
                }
                return None;
            }
        }
    }
    None
}

// Where the digits of a number start: behind its minus, if it has one.
fn digits_start(line: &[u8], at: usize) -> usize
    requires { at ≤ length line.now }
    ensures { StartIs line.now at result }
{
    if at < line.len() {
        if line[at] == b'-' {
            return at + 1;
        }
    }
    at
}

// Whether eight bytes stand here, the first of them a digit above 0.
fn is_led(line: &[u8], at: usize) -> bool
    requires { at ≤ length line.now }
    ensures { result ≡ true → (at + 8 ≤ length line.now) × (49 ≤ get_or line.now at 0) × (get_or line.now at 0 ≤ 57) }
{
    if line.len() - at < 8 {
        return false;
    }
    let b = line[at];
    match b {
        b'1'..=b'9' => true,
        _ => false,
    }
}

// The number of the field at a byte.
pub fn figure(line: &[u8], at: usize) -> Option<Number>
    requires { at ≤ length line.now }
    ensures { NumberIs (up_to 44 (drop at line.now)) at result }
{
    let from = digits_start(line, at);
    if is_led(line, from) {
        match short_digits(line, from) {
            Some(n) => {
                if from == at {
                    return Some(Number {
                        value: n.value as i64,
                        end: n.end,
                    });
                }
                if 0 < n.value {
                    return Some(Number {
                        value: 0 - n.value as i64,
                        end: n.end,
                    });
                }
            }
            None => {}
        }
    }
    numbers::read_number(line, at, b',')
}
