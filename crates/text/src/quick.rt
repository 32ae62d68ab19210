// The commonest nodes, each opened at once and written as a row; any other is left to the letter table.
ghost use Rattle.std.specs.Prelude.{◌≡◌, true, ◌+◌, ◌*◌, ◌<◌, ◌≤◌, length, get_or};
ghost use Rattle.language.specs.Text.Letters.{payoff_form, plan_form};
ghost use Rattle.text.specs.Letters.{form_of, kind_at};
ghost use Rattle.text.specs.Rows.{FillIs, QuickIs};

use crate::letters::{AMOUNT, ROOT, TextForm, bare_letter};
use crate::trees::put_row;
use fields::field::Class;
use fields::slots::{
    Slots, quick_delay, quick_divisor, quick_figure, quick_reading, quick_transfer, two_digits,
};

// The byte behind a node that was opened and the kinds of its children in base 4, the first lowest; or another node.
#[derive(Clone, Copy)]
pub struct Opened {
    pub next: usize,
    pub kids: u8,
}

// Whether a letter, a comma and four bytes more stand here.
pub fn stands_at(text: &[u8], at: usize) -> bool
    requires { (at ≤ length text.now + 1) × (length text.now ≤ 53760) }
    ensures { result ≡ true → (at + 6 ≤ length text.now) × (get_or text.now (at + 1) 0 ≡ 44) }
{
    at + 6 <= text.len() && text[at + 1] == b','
}

// The node of these fields, as row `count`.
pub fn fill_row(
    slots: Option<Slots>,
    text: &[u8],
    at: usize,
    nodes: &mut [i64],
    count: usize,
    kids: u8,
) -> Option<Opened>
    requires { (at + 1 ≤ length text.now) × (5 * count + 5 ≤ length nodes.old) }
    ensures { FillIs slots (get_or text.now at 0) nodes.old nodes.new count kids result }
{
    let s = slots?;
    if kids == 0 {
        put_row(nodes, count, text[at], s.a, s.b, s.c, s.d);
    } else {
        put_row(nodes, count, text[at], s.a, s.b, 0, 0);
    }
    Some(Opened { next: s.next, kids })
}

// A letter that only plans have, and an index.
fn plan_row(text: &[u8], at: usize, kind: u8, nodes: &mut [i64], count: usize) -> Option<Opened>
    requires { (at + 6 ≤ length text.now) × (get_or text.now (at + 1) 0 ≡ 44) × (5 * count + 5 ≤ length nodes.old) }
    ensures { QuickIs plan_form (kind_at kind) text.now at nodes.old nodes.new count result }
{
    match text[at] {
        b'O' if kind == AMOUNT => {
            let slots = two_digits(text, at + 2, Class::Label, Class::FromNode);
            fill_row(slots, text, at, nodes, count, 0)
        }
        b'T' if kind == ROOT => {
            let slots = two_digits(text, at + 2, Class::Party, Class::Party);
            fill_row(slots, text, at, nodes, count, 0)
        }
        b'L' if kind == ROOT => fill_row(quick_delay(text, at + 2), text, at, nodes, count, 1),
        _ => None,
    }
}

// A letter that only payoffs have, and an index.
fn payoff_row(text: &[u8], at: usize, kind: u8, nodes: &mut [i64], count: usize) -> Option<Opened>
    requires { (at + 6 ≤ length text.now) × (get_or text.now (at + 1) 0 ≡ 44) × (5 * count + 5 ≤ length nodes.old) }
    ensures { QuickIs payoff_form (kind_at kind) text.now at nodes.old nodes.new count result }
{
    match text[at] {
        b'O' if kind == AMOUNT => fill_row(quick_reading(text, at + 2), text, at, nodes, count, 0),
        b'F' | b'H' if kind == ROOT => {
            fill_row(quick_transfer(text, at + 2), text, at, nodes, count, 0)
        }
        _ => None,
    }
}

// A letter with fields.
fn field_row(
    form: TextForm,
    text: &[u8],
    at: usize,
    kind: u8,
    nodes: &mut [i64],
    count: usize,
) -> Option<Opened>
    requires { (at + 6 ≤ length text.now) × (get_or text.now (at + 1) 0 ≡ 44) × (5 * count + 5 ≤ length nodes.old) }
    ensures { QuickIs (form_of form) (kind_at kind) text.now at nodes.old nodes.new count result }
{
    match text[at] {
        b'N' if kind == AMOUNT => fill_row(quick_figure(text, at + 2), text, at, nodes, count, 0),
        b'Q' if kind == AMOUNT => fill_row(quick_divisor(text, at + 2), text, at, nodes, count, 2),
        b'W' if kind == ROOT => fill_row(quick_delay(text, at + 2), text, at, nodes, count, 23),
        b'N' | b'Q' | b'W' => None,
        _ => match form {
            TextForm::Plan => plan_row(text, at, kind, nodes, count),
            TextForm::Payoff => payoff_row(text, at, kind, nodes, count),
        },
    }
}

// A node of the kind that is asked for, as row `count`.
pub fn quick_row(
    form: TextForm,
    text: &[u8],
    at: usize,
    kind: u8,
    nodes: &mut [i64],
    count: usize,
) -> Option<Opened>
    requires { (at + 6 ≤ length text.now) × (get_or text.now (at + 1) 0 ≡ 44) × (5 * count + 5 ≤ length nodes.old) × (0 < kind) }
    ensures { QuickIs (form_of form) (kind_at kind) text.now at nodes.old nodes.new count result }
{
    let bare = bare_letter(text[at]);
    if bare == 0 {
        return field_row(form, text, at, kind, nodes, count);
    }
    if bare % 4 == kind {
        put_row(nodes, count, text[at], 0, 0, 0, 0);
        return Some(Opened {
            next: at + 2,
            kids: bare / 4,
        });
    }
    None
}
