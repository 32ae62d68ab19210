// The letter table: which letters a text has, and what stands behind each.
ghost use Rattle.std.specs.Prelude.{◌≡◌, None};
ghost use Rattle.language.specs.Text.Letters.{plan_form, payoff_form};
ghost use Rattle.text.specs.Letters.{BareIs, form_of, ShapeIs};

use fields::field::Class;

#[derive(Clone, Copy)]
pub enum TextForm {
    Plan,
    Payoff,
}

// The kinds of places. A letter with fewer than three children has NONE for the others. Numbers, not an enum: the kinds of a node's children
// are the digits in base 4 of one number, which is handed back in a register.
pub const NONE: u8 = 0;

pub const ROOT: u8 = 1;

pub const AMOUNT: u8 = 2;

pub const TEST: u8 = 3;

// A letter's kind (NONE: no letter), the classes of its fields and the kinds of its children.
#[derive(Clone, Copy)]
pub struct Shape {
    pub kind: u8,
    pub first: Option<Class>,
    pub second: Option<Class>,
    pub third: Option<Class>,
    pub kid1: u8,
    pub kid2: u8,
    pub kid3: u8,
}

fn leaf(kind: u8, first: Option<Class>, second: Option<Class>, third: Option<Class>) -> Shape
    ensures { result ≡ record { kind = kind; first = first; second = second; third = third; kid1 = 0; kid2 = 0; kid3 = 0 } }
{
    Shape {
        kind,
        first,
        second,
        third,
        kid1: NONE,
        kid2: NONE,
        kid3: NONE,
    }
}

fn over(kind: u8, first: Option<Class>, kid1: u8, kid2: u8, kid3: u8) -> Shape
    ensures { result ≡ record { kind = kind; first = first; second = None; third = None; kid1 = kid1; kid2 = kid2; kid3 = kid3 } }
{
    Shape {
        kind,
        first,
        second: None,
        third: None,
        kid1,
        kid2,
        kid3,
    }
}

fn plan_shape(letter: u8) -> Shape
    ensures { ShapeIs plan_form letter result }
{
    match letter {
        b'Z' => leaf(ROOT, None, None, None),
        b'T' => leaf(ROOT, Some(Class::Party), Some(Class::Party), None),
        b'S' => over(ROOT, None, AMOUNT, ROOT, NONE),
        b'L' => over(ROOT, Some(Class::Delay), ROOT, NONE, NONE),
        b'B' => over(ROOT, None, ROOT, ROOT, NONE),
        b'W' => over(ROOT, Some(Class::Delay), TEST, ROOT, ROOT),
        b'N' => leaf(AMOUNT, Some(Class::Figure), None, None),
        b'O' => leaf(AMOUNT, Some(Class::Label), Some(Class::FromNode), None),
        b'A' => over(AMOUNT, None, AMOUNT, AMOUNT, NONE),
        b'U' => over(AMOUNT, None, AMOUNT, AMOUNT, NONE),
        b'K' => over(AMOUNT, None, AMOUNT, AMOUNT, NONE),
        b'Q' => over(AMOUNT, Some(Class::Divisor), AMOUNT, NONE, NONE),
        b'I' => over(AMOUNT, None, TEST, AMOUNT, AMOUNT),
        b'G' => over(TEST, None, AMOUNT, AMOUNT, NONE),
        b'E' => over(TEST, None, AMOUNT, AMOUNT, NONE),
        b'Y' => over(TEST, None, TEST, TEST, NONE),
        b'V' => over(TEST, None, TEST, TEST, NONE),
        b'R' => over(TEST, None, TEST, NONE, NONE),
        _ => leaf(NONE, None, None, None),
    }
}

fn payoff_shape(letter: u8) -> Shape
    ensures { ShapeIs payoff_form letter result }
{
    match letter {
        b'Z' => leaf(ROOT, None, None, None),
        b'F' => leaf(
            ROOT,
            Some(Class::Month),
            Some(Class::Party),
            Some(Class::Party),
        ),
        b'H' => leaf(
            ROOT,
            Some(Class::Month),
            Some(Class::Party),
            Some(Class::Party),
        ),
        b'S' => over(ROOT, None, AMOUNT, ROOT, NONE),
        b'B' => over(ROOT, None, ROOT, ROOT, NONE),
        b'W' => over(ROOT, Some(Class::Delay), TEST, ROOT, ROOT),
        b'N' => leaf(AMOUNT, Some(Class::Figure), None, None),
        b'O' => leaf(AMOUNT, Some(Class::Label), Some(Class::Month), None),
        b'A' => over(AMOUNT, None, AMOUNT, AMOUNT, NONE),
        b'U' => over(AMOUNT, None, AMOUNT, AMOUNT, NONE),
        b'K' => over(AMOUNT, None, AMOUNT, AMOUNT, NONE),
        b'Q' => over(AMOUNT, Some(Class::Divisor), AMOUNT, NONE, NONE),
        b'I' => over(AMOUNT, None, TEST, AMOUNT, AMOUNT),
        b'G' => over(TEST, None, AMOUNT, AMOUNT, NONE),
        b'E' => over(TEST, None, AMOUNT, AMOUNT, NONE),
        b'Y' => over(TEST, None, TEST, TEST, NONE),
        b'V' => over(TEST, None, TEST, TEST, NONE),
        b'R' => over(TEST, None, TEST, NONE, NONE),
        _ => leaf(NONE, None, None, None),
    }
}

pub fn shape_of(form: TextForm, letter: u8) -> Shape
    ensures { ShapeIs (form_of form) letter result }
{
    match form {
        TextForm::Plan => plan_shape(letter),
        TextForm::Payoff => payoff_shape(letter),
    }
}

// A letter without fields, of either text, in one byte: its kind, and 4, 16 and 64 times the kinds of its children. 0 for any other.
pub fn bare_letter(letter: u8) -> u8
    ensures { BareIs letter result }
{
    match letter {
        b'S' => 25,
        b'B' => 21,
        b'A' => 42,
        b'U' => 42,
        b'K' => 42,
        b'G' => 43,
        b'E' => 43,
        b'Y' => 63,
        b'V' => 63,
        b'Z' => 1,
        b'I' => 174,
        b'R' => 15,
        _ => 0,
    }
}
