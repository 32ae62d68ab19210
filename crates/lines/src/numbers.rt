// The numbers of a line.
ghost use Rattle.std.specs.Prelude.{◌≡◌, ◌+◌, ◌≤◌, length};
ghost use Rattle.lines.specs.Numbers.{NumbersAre, TwoAre};

use crate::figures;
use fields::numbers;

// The numbers of the fields from a byte on, as many as there is room for written from place `from` on.
// A `while`: the place goes on by the length of a field, which no range gives.
pub fn read_numbers(line: &[u8], at: usize, into: &mut [i64], from: usize) -> Option<usize>
    requires { (at ≤ length line.now + 1) × (from ≤ 60_001) × (length line.now ≤ 60_000) }
    ensures { NumbersAre line.now at into.old into.new from result }
{
    let mut place = at;
    let mut count = 0;
    while place <= line.len() {
        let number = figures::figure(line, place);
        match number {
            Some(n) => {
                let k = from + count;
                if k < into.len() {
                    into[k] = n.value;
                }
                count += 1;
                place = n.end + 1;
            }
            None => {
                return None;
            }
        }
    }
    Some(count)
}

// The first two numbers of a line, and the place behind them.
#[derive(Clone, Copy)]
pub struct Two {
    pub first: i64,
    pub second: i64,
    pub next: usize,
}

// The numbers of the first two fields from a byte on.
pub fn two_numbers(line: &[u8], at: usize) -> Option<Two>
    requires { (at ≤ length line.now + 1) × (length line.now ≤ 60_000) }
    ensures { TwoAre line.now at result }
{
    if line.len() < at {
        return None;
    }
    let first = numbers::read_number(line, at, b',')?;
    let second_at = first.end + 1;
    if line.len() < second_at {
        return None;
    }
    let second = numbers::read_number(line, second_at, b',')?;
    Some(Two {
        first: first.value,
        second: second.value,
        next: second.end + 1,
    })
}
