// Fields by class: a number within the class's range, or a delay.
ghost use Rattle.std.specs.Prelude.{◌≡◌, true, List, [], ℕ, ◌+◌, ◌≤◌, ◌<◌, length, drop, get_or};
ghost use Rattle.fields.specs.Positions.{up_to};
ghost use Rattle.fields.specs.declared.field.Class.TheVariants.{Delay};
ghost use Rattle.fields.specs.Classes.{class_numbered, class_of, range_of, Limited, RangedIs};
ghost use Rattle.fields.specs.Fields.{DigitIs, TakenIs, TriedIs};
ghost use Rattle.fields.specs.Numbers.{NumberIs};

use crate::numbers::{Number, plain_number};
use crate::settings::read_setting;

// The classes of fields. A month is read apart: it is two numbers.
#[derive(Clone, Copy)]
pub enum Class {
    Figure,
    Delay,
    Party,
    Label,
    FromNode,
    Divisor,
    Month,
}

// Each number stands for a class: a caller with a number has a field read as one with a name has.
impl From<u8> for Class {
    ghost from_gives = { λ n c. c ≡ class_numbered n };

    #[tactic(auto, unfolding(crate::specs::Classes::class_numbered))]
    fn from(number: u8) -> Class {
        match number {
            1 => Class::Figure,
            2 => Class::Delay,
            4 => Class::Label,
            5 => Class::FromNode,
            6 => Class::Divisor,
            7 => Class::Month,
            _ => Class::Party,
        }
    }
}

pub const PARTY: Class = Class::Party;

pub const LABEL: Class = Class::Label;

pub const FROM_NODE: Class = Class::FromNode;

#[derive(Clone, Copy)]
pub struct Range {
    pub low: i64,
    pub high: i64,
}

// A field that was read, as one number, and the byte where the next one starts.
#[derive(Clone, Copy)]
pub struct Taking {
    pub value: i64,
    pub next: usize,
}

fn range_of(class: Class) -> Range
    ensures { result ≡ range_of class }
{
    match class {
        Class::Figure => Range {
            low: -9000000000000,
            high: 9000000000000,
        },
        Class::Delay => Range { low: 0, high: 600 },
        Class::Label => Range { low: 0, high: 7 },
        Class::FromNode => Range {
            low: -60,
            high: 600,
        },
        Class::Divisor => Range {
            low: 1,
            high: 9000000000000,
        },
        Class::Party | Class::Month => Range { low: 1, high: 9 },
    }
}

// A number that was read, where it lies within a range.
pub fn in_range(number: Option<Number>, range: Range) -> Option<Number>
    requires { Limited range }
    ensures { (f : List ℕ) (at : ℕ) → NumberIs f at number → RangedIs range f at result }
{
    let n = number?;
    if n.value < range.low || range.high < n.value {
        return None;
    }
    Some(n)
}

fn read_plain(text: &[u8], at: usize, class: Class) -> Option<Taking>
    requires { (at ≤ length text.now) × (class ≡ Delay → get_or (up_to 44 (drop at text.now)) 0 0 ≡ 80 → ⊥) }
    ensures { TakenIs (class_of class) text.now at result }
{
    let range = range_of(class);
    let n = in_range(plain_number(text, at), range)?;
    Some(Taking {
        value: n.value,
        next: n.end + 1,
    })
}

// Any field but a month, of any length.
fn read_longer(text: &[u8], at: usize, class: Class) -> Option<Taking>
    requires { at ≤ length text.now + 1 }
    ensures { TakenIs (class_of class) text.now at result }
{
    if text.len() < at {
        return None;
    }
    match class {
        Class::Delay if at < text.len() && text[at] == b'P' => read_setting(text, at),
        _ => read_plain(text, at, class),
    }
}

// A digit as a number within a range.
fn digit_in(range: Range, digit: u8, next: usize) -> Option<Taking>
    requires { (digit ≤ 9) × Limited range }
    ensures { DigitIs range digit next result }
{
    let value = i64::from(digit);
    if value < range.low || range.high < value {
        return None;
    }
    Some(Taking { value, next })
}

// Whether a field ends behind this byte.
fn ends_behind(text: &[u8], at: usize) -> bool
    requires { at < length text.now }
    ensures { result ≡ true → up_to 44 (drop (at + 1) text.now) ≡ [] }
{
    text.len() - at == 1 || text[at + 1] == b','
}

// A field of one digit in front of a comma; any other is tried again.
pub fn one_digit(text: &[u8], at: usize, class: Class) -> Option<Taking>
    requires { at + 2 ≤ length text.now }
    ensures { TriedIs (class_of class) text.now at result }
{
    let c = text[at];
    match c {
        b'0'..=b'9' if text[at + 1] == b',' => digit_in(range_of(class), c - 48, at + 2),
        _ => None,
    }
}

// A field of one digit at the text's end; any other is tried again.
pub fn last_digit(text: &[u8], at: usize, class: Class) -> Option<Taking>
    requires { at + 1 ≡ length text.now }
    ensures { TriedIs (class_of class) text.now at result }
{
    let c = text[at];
    match c {
        b'0'..=b'9' => digit_in(range_of(class), c - 48, at + 2),
        _ => None,
    }
}

// Any field but a month. Most have one digit, so that is tried first.
pub(crate) fn read_class(text: &[u8], at: usize, class: Class) -> Option<Taking>
    requires { at ≤ length text.now + 1 }
    ensures { TakenIs (class_of class) text.now at result }
{
    if at < text.len() {
        let c = text[at];
        match c {
            b'0'..=b'9' => {
                if ends_behind(text, at) {
                    return digit_in(range_of(class), c - 48, at + 2);
                }
            }
            _ => {}
        }
    }
    read_longer(text, at, class)
}

// The same, of a class or its number.
pub fn read_field<C: Into<Class>>(text: &[u8], at: usize, class: C) -> Option<Taking>
    requires { at ≤ length text.now + 1 }
    ensures { (k : _) × C.converts class k × TakenIs (class_of k) text.now at result }
{
    read_class(text, at, class.into())
}
