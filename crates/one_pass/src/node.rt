// A node's letter and fields in a text, and what a node without parts comes to.
ghost use Rattle.std.specs.Prelude.{◌≡◌, true, List, [], ℕ, ◌+◌, ◌<◌, ◌≤◌, ℤ, drop, get_or, length};
ghost use Rattle.fields.specs.Positions.{up_to};
ghost use Rattle.language.specs.Limits.{max_months};
ghost use Rattle.language.specs.Rules.Table.{are_settings};
ghost use Rattle.nodes.specs.Table.{nat_of};
ghost use Rattle.one_pass.specs.Packed.{Kept};
ghost use Rattle.one_pass.specs.Reads.{Here, Short};
ghost use Rattle.one_pass.specs.Seen.{AmountIs, DelayOf, DelaySeen, DigitsSeen, DivisorSeen, Ended, Indexed, PlanIs};

use crate::packed::{UNSURE, number_for};
use fields::field::{FROM_NODE, LABEL, PARTY, last_digit, one_digit};
use fields::numbers::{Number, read_number};
use fields::slots::quick_delay;
use integers::Month;
use measures::limit::BEYOND;

// Whether a letter, a comma and four bytes more stand here, and a level is left.
pub fn stands_at(text: &&[u8], at: usize, left: usize) -> bool
    requires { at ≤ 1024 }
    ensures { result ≡ true → (at + 6 ≤ length text.now.now) × (get_or text.now.now (at + 1) 0 ≡ 44) × (0 < left) }
{
    if text.len() < at + 6 {
        return false;
    }
    if left == 0 {
        return false;
    }
    text[at + 1] == b','
}

// ---- numbers

// A row of digits in front of a comma.
fn digits_from(text: &&[u8], at: usize) -> u64
    requires { Short text.now.now × (at ≤ 1024) }
    ensures { Kept result → DigitsSeen text.now.now at result }
{
    let mut v: u64 = 0;
    for i in at..text.len() {
        let b = text[i];
        match b {
            b'0'..=b'9' => {
                v = v * 10 + (b - 48) as u64;
                if BEYOND <= v {
                    return UNSURE;
                }
            }
            _ => {
                if b == b',' {
                    return number_for(v, 0, i as u64 + 1);
                }
                return UNSURE;
            }
        }
    }
    UNSURE
}

// An `N`: most have no sign and no zero in front.
pub fn number_at(text: &&[u8], at: usize) -> u64
    requires { Short text.now.now × Here text.now.now at 78 }
    ensures { (left : ℕ) (low high : ℤ) (bounds : List ℤ) → 0 < left → AmountIs text.now.now left at low high bounds result }
{
    let c = text[at + 2];
    match c {
        b'1'..=b'9' => digits_from(text, at + 2),
        _ => match read_number(*text, at + 2, b',') {
            Some(Number { value, end }) => number_for(
                integers::magnitude(value),
                0,
                end as u64 + 1,
            ),
            None => UNSURE,
        },
    }
}

// The divisor of a `Q`.
pub fn divisor_at(text: &&[u8], at: usize) -> u64
    requires { Short text.now.now × (at + 6 ≤ length text.now.now) }
    ensures { Kept result → DivisorSeen text.now.now (at + 2) result }
{
    let c = text[at + 2];
    match c {
        b'1'..=b'9' => digits_from(text, at + 2),
        _ => UNSURE,
    }
}

// ---- an index

// A label that the table has, and an offset that can be read.
fn index_of(l: i64, i: i64, next: usize, low: Month, high: Month, bounds: &&[i64]) -> u64
    requires { next < 1024 }
    ensures { Kept result → Indexed l i low.0 high.0 bounds.now.now next result }
{
    if (l < 0) | (7 < l) | (i < 0) | (600 < i) {
        return UNSURE;
    }
    let k = l as usize;
    if k < bounds.len() {
        if (low.0 <= i) & (i <= high.0) {
            return number_for(integers::magnitude(bounds[k]), i as u64, next as u64);
        }
    }
    UNSURE
}

// An `O` with an offset of one digit.
pub fn index_at(text: &&[u8], at: usize, low: Month, high: Month, bounds: &&[i64]) -> u64
    requires { Short text.now.now × Here text.now.now at 79 }
    ensures { (left : ℕ) → 0 < left → AmountIs text.now.now left at low.0 high.0 bounds.now.now result }
{
    match one_digit(*text, at + 2, LABEL) {
        Some(l) => match one_digit(*text, at + 4, FROM_NODE) {
            Some(i) => index_of(l.value, i.value, i.next, low, high, bounds),
            None => UNSURE,
        },
        None => UNSURE,
    }
}

// ---- a delay

// So many months, or a setting that is lent.
fn delay_of(a: i64, next: usize, days: &&[i64]) -> u64
    requires { (next < 1024) × (are_settings days.now.now ≡ true) }
    ensures { Kept result → DelayOf a next days.now.now result }
{
    if a < 0 {
        let k = (integers::magnitude(a) - 1) as usize;
        if k < days.len() {
            return number_for(0, days[k] as u64, next as u64);
        }
        return UNSURE;
    }
    if 600 < a {
        return UNSURE;
    }
    number_for(0, a as u64, next as u64)
}

// The delay of an `L` or a `W`.
pub fn delay_at(text: &&[u8], at: usize, days: &&[i64]) -> u64
    requires { Short text.now.now × (at + 6 ≤ length text.now.now) × (are_settings days.now.now ≡ true) }
    ensures { Kept result → DelaySeen text.now.now (at + 2) days.now.now result }
{
    match quick_delay(*text, at + 2) {
        Some(s) => delay_of(s.a, s.next, days),
        None => UNSURE,
    }
}

// ---- plans without parts

// Of magnitude 0 or 1, `high` months before the table's end.
pub fn ended(magnitude: u64, next: usize, high: Month) -> u64
    requires { (next < 1024) × (nat_of high.0 ≤ max_months) }
    ensures { Kept result → Ended magnitude next high.0 result }
{
    if high.0 < 0 {
        return UNSURE;
    }
    number_for(magnitude, high.0 as u64, next as u64)
}

// A `T`: what is needed later than today is not known by then.
pub fn transfer_at(text: &&[u8], at: usize, high: Month, need: u64) -> u64
    requires { Short text.now.now × Here text.now.now at 84 × (nat_of high.0 ≤ max_months) }
    ensures { (left : ℕ) (low : ℤ) (bounds days : List ℤ) → 0 < left → PlanIs text.now.now left at low high.0 bounds need days result }
{
    if 0 < need {
        return UNSURE;
    }
    match one_digit(*text, at + 2, PARTY) {
        Some(p) => match one_digit(*text, at + 4, PARTY) {
            Some(q) => ended(1, q.next, high),
            None => UNSURE,
        },
        None => UNSURE,
    }
}

// The same at the text's end.
fn last_transfer(text: &&[u8], at: usize, high: Month, need: u64) -> u64
    requires { Short text.now.now × (at ≤ 1024) × (nat_of high.0 ≤ max_months) }
    ensures { (left : ℕ) (low : ℤ) (bounds days : List ℤ) → 0 < left → PlanIs text.now.now left at low high.0 bounds need days result }
{
    if text.len() != at + 5 {
        return UNSURE;
    }
    if 0 < need {
        return UNSURE;
    }
    if (text[at] == b'T') & (text[at + 1] == b',') {
        match one_digit(*text, at + 2, PARTY) {
            Some(p) => match last_digit(*text, at + 4, PARTY) {
                Some(q) => {
                    return ended(1, q.next, high);
                }
                None => {
                    return UNSURE;
                }
            },
            None => {
                return UNSURE;
            }
        }
    }
    UNSURE
}

// Whether a letter stands alone here: at the text's end or in front of a comma.
fn alone_at(text: &&[u8], at: usize) -> bool
    requires { (at < length text.now.now) × (at ≤ 1024) }
    ensures { result ≡ true → up_to 44 (drop (at + 1) text.now.now) ≡ [] }
{
    if text.len() - at == 1 {
        return true;
    }
    text[at + 1] == b','
}

// A plan near the text's end.
pub fn last_at(text: &&[u8], at: usize, left: usize, high: Month, need: u64) -> u64
    requires { Short text.now.now × (at ≤ 1024) × (nat_of high.0 ≤ max_months) }
    ensures { (low : ℤ) (bounds days : List ℤ) → PlanIs text.now.now left at low high.0 bounds need days result }
{
    if left == 0 {
        return UNSURE;
    }
    if text.len() <= at {
        return UNSURE;
    }
    if text[at] == b'Z' {
        if alone_at(text, at) {
            return ended(0, at + 2, high);
        }
        return UNSURE;
    }
    last_transfer(text, at, high, need)
}
