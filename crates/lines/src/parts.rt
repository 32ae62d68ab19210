// Single lines of a sheet: the plan's, one of any numbers, and one of two numbers.
ghost use Rattle.std.specs.Prelude.{◌≡◌, ◌+◌, ◌≤◌, length};
ghost use Rattle.lines.specs.Parts.{ListedAre, PairIs, PlanIs};

use crate::numbers::Two;
use crate::{ends, numbers, words};

// Where the plan's text stands, and where the next line begins.
#[derive(Clone, Copy)]
pub struct Plan {
    pub from: usize,
    pub to: usize,
    pub next: usize,
}

pub fn plan_line(input: &[u8]) -> Option<Plan>
    requires { length input.now ≤ 60_000 }
    ensures { PlanIs input.now result }
{
    if input.len() == 0 {
        return None;
    }
    let end = ends::line_end(input, 0);
    let fits = words::has_word(&input[0..end], b"plan");
    if fits {
        if 5 <= end {
            Some(Plan {
                from: 5,
                to: end,
                next: end + 1,
            })
        } else {
            Some(Plan {
                from: end,
                to: end,
                next: end + 1,
            })
        }
    } else {
        None
    }
}

// How many numbers a line has, and where the next line begins.
#[derive(Clone, Copy)]
pub struct Listed {
    pub count: usize,
    pub next: usize,
}

// The numbers behind the word of the line that begins at a byte, as many as there is room for written from the first place on.
pub fn number_line(input: &[u8], at: usize, word: &[u8], into: &mut [i64]) -> Option<Listed>
    requires { (at ≤ length input.now + 1) × (length input.now ≤ 60_000) }
    ensures { ListedAre input.now at word.now into.old into.new result }
{
    if input.len() <= at {
        return None;
    }
    let end = ends::line_end(input, at);
    let line = &input[at..end];
    let fits = words::has_word(line, word);
    if fits {
        let read = numbers::read_numbers(line, word.len() + 1, into, 0);
        match read {
            Some(n) => Some(Listed {
                count: n,
                next: end + 1,
            }),
            None => None,
        }
    } else {
        None
    }
}

// The two numbers behind the word of the line that begins at a byte.
pub fn pair_line(input: &[u8], at: usize, word: &[u8]) -> Option<Two>
    requires { (at ≤ length input.now + 1) × (length input.now ≤ 60_000) }
    ensures { PairIs input.now at word.now result }
{
    if input.len() <= at {
        return None;
    }
    let end = ends::line_end(input, at);
    let line = &input[at..end];
    let fits = words::has_word(line, word);
    if fits {
        let two = numbers::two_numbers(line, word.len() + 1);
        match two {
            Some(two) => {
                if two.next <= line.len() {
                    None
                } else {
                    Some(Two {
                        first: two.first,
                        second: two.second,
                        next: end + 1,
                    })
                }
            }
            None => None,
        }
    } else {
        None
    }
}
