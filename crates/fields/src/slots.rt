// The fields of a node as up to four numbers: a month takes two of them.
ghost use Rattle.std.specs.Prelude.{◌≡◌, ◌∷◌, [], ◌+◌, ◌<◌, ◌≤◌, get_or, length, MatchOption, None, Some};
ghost use Rattle.language.specs.Text.Letters.{delay, divisor, figure, label, month, party};
ghost use Rattle.fields.specs.Classes.{class_of};
ghost use Rattle.fields.specs.Fields.{MonthIs, MonthTried, PairIs, SlotsAre, SlotsTried, classes_of_two, classes_of_three};

use crate::field::{Class, Range, Taking, in_range, last_digit, one_digit, read_class};
use crate::numbers::{figure_at, read_number, short_number};
use crate::settings::{quick_settings, read_setting};

#[derive(Clone, Copy)]
pub struct TakingTwo {
    pub a: i64,
    pub b: i64,
    pub next: usize,
}

// All fields of a node.
#[derive(Clone, Copy)]
pub struct Slots {
    pub a: i64,
    pub b: i64,
    pub c: i64,
    pub d: i64,
    pub next: usize,
}

fn read_month(text: &[u8], at: usize) -> Option<TakingTwo>
    requires { at ≤ length text.now + 1 }
    ensures { MonthIs text.now at result }
{
    if text.len() < at {
        return None;
    }
    let range = Range {
        low: -60,
        high: 19200,
    };
    let a = in_range(read_number(text, at, b'+'), range)?;
    let b = quick_settings(text, a.end)?;
    Some(TakingTwo {
        a: a.value,
        b: b.value,
        next: b.next,
    })
}

// A month, or up to two other fields.
fn read_pair(
    text: &[u8],
    at: usize,
    first: Option<Class>,
    second: Option<Class>,
) -> Option<TakingTwo>
    requires { at ≤ length text.now + 1 }
    ensures { PairIs (classes_of_two first second) text.now at result }
{
    let Some(class) = first else {
        return Some(TakingTwo {
            a: 0,
            b: 0,
            next: at,
        });
    };
    if let Class::Month = class {
        return read_month(text, at);
    }
    let a = read_class(text, at, class)?;
    let Some(other) = second else {
        return Some(TakingTwo {
            a: a.value,
            b: 0,
            next: a.next,
        });
    };
    let b = read_class(text, a.next, other)?;
    Some(TakingTwo {
        a: a.value,
        b: b.value,
        next: b.next,
    })
}

// A month and two more fields.
fn month_first(text: &[u8], at: usize, second: Option<Class>, third: Option<Class>) -> Option<Slots>
    requires { at ≤ length text.now + 1 }
    ensures { SlotsAre (month ∷ classes_of_two second third) text.now at result }
{
    let two = read_month(text, at)?;
    let other = read_pair(text, two.next, second, third)?;
    Some(Slots {
        a: two.a,
        b: two.b,
        c: other.a,
        d: other.b,
        next: other.next,
    })
}

// A field that is no month, and two more.
fn after_field(
    text: &[u8],
    at: usize,
    first: Class,
    second: Option<Class>,
    third: Option<Class>,
) -> Option<Slots>
    requires { at ≤ length text.now + 1 }
    ensures { SlotsAre (class_of first ∷ classes_of_two second third) text.now at result }
{
    let a = read_class(text, at, first)?;
    let two = read_pair(text, a.next, second, third)?;
    Some(Slots {
        a: a.value,
        b: two.a,
        c: two.b,
        d: 0,
        next: two.next,
    })
}

// The field of a node whose only one is a figure.
fn read_figure(text: &[u8], at: usize) -> Option<Slots>
    requires { at ≤ length text.now }
    ensures { SlotsAre (figure ∷ []) text.now at result }
{
    let a = figure_at(text, at)?;
    Some(Slots {
        a: a.value,
        b: 0,
        c: 0,
        d: 0,
        next: a.end + 1,
    })
}

// The same where most figures have up to three digits; any that is not of the form is tried again.
pub fn quick_figure(text: &[u8], at: usize) -> Option<Slots>
    requires { at + 4 ≤ length text.now }
    ensures { SlotsTried (figure ∷ []) text.now at result }
{
    match short_number(text, at) {
        Some(a) => Some(Slots {
            a: a.value,
            b: 0,
            c: 0,
            d: 0,
            next: a.end + 1,
        }),
        None => read_figure(text, at),
    }
}

// A divisor: most have up to three digits.
pub fn quick_divisor(text: &[u8], at: usize) -> Option<Slots>
    requires { at + 4 ≤ length text.now }
    ensures { SlotsTried (divisor ∷ []) text.now at result }
{
    match short_number(text, at) {
        Some(a) => {
            if a.value < 1 {
                return None;
            }
            Some(Slots {
                a: a.value,
                b: 0,
                c: 0,
                d: 0,
                next: a.end + 1,
            })
        }
        None => read_only(text, at, Class::Divisor),
    }
}

// The field of a node with one that is no month.
fn read_only(text: &[u8], at: usize, class: Class) -> Option<Slots>
    requires { at ≤ length text.now + 1 }
    ensures { SlotsAre (class_of class ∷ []) text.now at result }
{
    let a = read_class(text, at, class)?;
    Some(Slots {
        a: a.value,
        b: 0,
        c: 0,
        d: 0,
        next: a.next,
    })
}

// A setting as a delay; anything else that begins with a `P` is tried again.
fn quick_setting(text: &[u8], at: usize) -> Option<Slots>
    requires { (at < length text.now) × (get_or text.now at 0 ≡ 80) }
    ensures { SlotsTried (delay ∷ []) text.now at result }
{
    let a = read_setting(text, at)?;
    Some(Slots {
        a: a.value,
        b: 0,
        c: 0,
        d: 0,
        next: a.next,
    })
}

// A delay: most have one digit, and many others are a setting.
pub fn quick_delay(text: &[u8], at: usize) -> Option<Slots>
    requires { at + 2 ≤ length text.now }
    ensures { SlotsTried (delay ∷ []) text.now at result }
{
    match one_digit(text, at, Class::Delay) {
        Some(a) => Some(Slots {
            a: a.value,
            b: 0,
            c: 0,
            d: 0,
            next: a.next,
        }),
        None => {
            if text[at] == b'P' {
                return quick_setting(text, at);
            }
            read_only(text, at, Class::Delay)
        }
    }
}

// Two fields of one digit each, in front of commas; any others are tried again.
pub fn two_digits(text: &[u8], at: usize, first: Class, second: Class) -> Option<Slots>
    requires { at + 4 ≤ length text.now }
    ensures { SlotsTried (class_of first ∷ class_of second ∷ []) text.now at result }
{
    let a = one_digit(text, at, first)?;
    let b = one_digit(text, at + 2, second)?;
    Some(Slots {
        a: a.value,
        b: b.value,
        c: 0,
        d: 0,
        next: b.next,
    })
}

// Two parties at the text's end; any others are tried again.
pub fn last_digits(text: &[u8], at: usize) -> Option<Slots>
    requires { at + 3 ≡ length text.now }
    ensures { SlotsTried (party ∷ party ∷ []) text.now at result }
{
    let a = one_digit(text, at, Class::Party)?;
    let b = last_digit(text, at + 2, Class::Party)?;
    Some(Slots {
        a: a.value,
        b: b.value,
        c: 0,
        d: 0,
        next: b.next,
    })
}

// A month of one digit in front of a comma; any other is tried again.
fn month_digit(text: &[u8], at: usize) -> Option<Taking>
    requires { at + 2 ≤ length text.now }
    ensures { MonthTried text.now at result }
{
    let c = text[at];
    match c {
        b'0'..=b'9' if text[at + 1] == b',' => Some(Taking {
            value: i64::from(c - 48),
            next: at + 2,
        }),
        _ => None,
    }
}

// A label and a month of one digit each.
pub fn reading_digits(text: &[u8], at: usize) -> Option<Slots>
    requires { at + 4 ≤ length text.now }
    ensures { SlotsTried (label ∷ month ∷ []) text.now at result }
{
    let a = one_digit(text, at, Class::Label)?;
    let b = month_digit(text, at + 2)?;
    Some(Slots {
        a: a.value,
        b: b.value,
        c: 0,
        d: 0,
        next: b.next,
    })
}

// A month and two parties of one digit each.
pub fn transfer_digits(text: &[u8], at: usize) -> Option<Slots>
    ensures { SlotsTried (month ∷ party ∷ party ∷ []) text.now at result }
{
    if text.len() <= at || text.len() - at < 6 {
        return None;
    }
    let a = month_digit(text, at)?;
    let c = one_digit(text, at + 2, Class::Party)?;
    let d = one_digit(text, at + 4, Class::Party)?;
    Some(Slots {
        a: a.value,
        b: 0,
        c: c.value,
        d: d.value,
        next: d.next,
    })
}

// A label and a month: most have one digit each. No `or_else`: its closure would hand the text on once more.
pub fn quick_reading(text: &[u8], at: usize) -> Option<Slots>
    requires { at + 4 ≤ length text.now }
    ensures { SlotsTried (label ∷ month ∷ []) text.now at result }
{
    if let Some(s) = reading_digits(text, at) {
        return Some(s);
    }
    after_field(text, at, Class::Label, Some(Class::Month), None)
}

// A month and two parties: most have one digit each.
pub fn quick_transfer(text: &[u8], at: usize) -> Option<Slots>
    requires { at ≤ length text.now + 1 }
    ensures { SlotsTried (month ∷ party ∷ party ∷ []) text.now at result }
{
    if let Some(s) = transfer_digits(text, at) {
        return Some(s);
    }
    month_first(text, at, Some(Class::Party), Some(Class::Party))
}

// The fields of any node.
pub fn read_fields(
    text: &[u8],
    at: usize,
    first: Option<Class>,
    second: Option<Class>,
    third: Option<Class>,
) -> Option<Slots>
    requires { at ≤ length text.now + 1 }
    ensures { SlotsAre (classes_of_three first second third) text.now at result }
{
    let Some(class) = first else {
        return Some(Slots {
            a: 0,
            b: 0,
            c: 0,
            d: 0,
            next: at,
        });
    };
    if let Class::Month = class {
        return month_first(text, at, second, third);
    }
    after_field(text, at, class, second, third)
}

// The class of a field that may be there.
fn named<C: Into<Class>>(class: Option<C>) -> Option<Class>
    ensures { MatchOption class (result ≡ None) (λ c. (k : _) × C.converts c k × (result ≡ Some k)) }
{
    match class {
        Some(c) => Some(c.into()),
        None => None,
    }
}

// The field of a node with one that is no month, of a class or its number.
pub fn read_one<C: Into<Class>>(text: &[u8], at: usize, class: C) -> Option<Slots>
    requires { at ≤ length text.now + 1 }
    ensures { (k : _) × C.converts class k × SlotsAre (class_of k ∷ []) text.now at result }
{
    read_only(text, at, class.into())
}

// A month and two more fields, of classes or their numbers.
pub fn after_month<C: Into<Class>, D: Into<Class>>(
    text: &[u8],
    at: usize,
    second: Option<C>,
    third: Option<D>,
) -> Option<Slots>
    requires { at ≤ length text.now + 1 }
    ensures { (k : _) × (l : _)
        × MatchOption second (k ≡ None) (λ c. (j : _) × C.converts c j × (k ≡ Some j))
        × MatchOption third (l ≡ None) (λ d. (j : _) × D.converts d j × (l ≡ Some j))
        × SlotsAre (month ∷ classes_of_two k l) text.now at result }
{
    month_first(text, at, named(second), named(third))
}
