// The index lines of a sheet.
ghost use Rattle.std.specs.Prelude.{◌≡◌, ◌+◌, ◌≤◌, length};
ghost use Rattle.lines.specs.Indexes.{IndexIs, LabelsAre};

use crate::{ends, numbers, words};

// A label's bound, and how many values it has.
#[derive(Clone, Copy)]
pub struct Index {
    pub bound: i64,
    pub count: usize,
}

// How many values a label must have.
#[derive(Clone, Copy)]
pub struct Months(pub i64);

// One index line, its values written from place `from` on as far as there is room.
pub fn read_index(
    line: &[u8],
    label: usize,
    months: Months,
    values: &mut [i64],
    from: usize,
) -> Option<Index>
    requires { (length line.now ≤ 60_000) × (label ≤ 60_001) × (from ≤ 60_001) }
    ensures { IndexIs line.now label months.0 values.old values.new from result }
{
    let fits = words::has_word(line, b"index");
    if fits {
        let two = numbers::two_numbers(line, 6);
        match two {
            Some(two) => {
                if two.first == label as i64 {
                    let read = numbers::read_numbers(line, two.next, values, from);
                    match read {
                        Some(n) => {
                            if 0 < n {
                                if months.0 == n as i64 {
                                    return Some(Index {
                                        bound: two.second,
                                        count: n,
                                    });
                                }
                            }
                            None
                        }
                        None => None,
                    }
                } else {
                    None
                }
            }
            None => None,
        }
    } else {
        None
    }
}

// How many labels there are, and how many values in all.
#[derive(Clone, Copy)]
pub struct Labels {
    pub labels: usize,
    pub values: usize,
}

// All lines from a byte on, labels from 0 upward; bounds and values are written as far as there is room.
// A `while`: the place goes on by the length of a line, which no range gives.
pub fn read_indexes(
    input: &[u8],
    at: usize,
    months: Months,
    bounds: &mut [i64],
    values: &mut [i64],
) -> Option<Labels>
    requires { (at ≤ length input.now + 1) × (length input.now ≤ 60_000) }
    ensures { LabelsAre input.now at months.0 bounds.new values.new result }
{
    let mut place = at;
    let mut labels = 0;
    let mut stored = 0;
    while place < input.len() {
        let end = ends::line_end(input, place);
        let index = read_index(&input[place..end], labels, months, values, stored);
        match index {
            Some(index) => {
                if labels < bounds.len() {
                    bounds[labels] = index.bound;
                }
                labels += 1;
                stored += index.count;
                place = end + 1;
            }
            None => {
                return None;
            }
        }
    }
    Some(Labels {
        labels,
        values: stored,
    })
}
