// A node by the letter table: its letter and fields, read from a text into the table, five numbers a node.
ghost use Rattle.std.specs.Prelude.{◌≡◌, ◌∷◌, [], ◌+◌, ◌*◌, ◌≤◌, ◌<◌, pos, length, drop, take, Ok};
ghost use Rattle.std.proofs.lemmas.List.Edits.{sets};
ghost use Rattle.fields.specs.Positions.{up_to};
ghost use Rattle.text.specs.Letters.{form_of, kind_at};
ghost use Rattle.text.specs.Packed.{row_of};
ghost use Rattle.text.specs.Room.{Roomy, letters_in};
ghost use Rattle.text.specs.Rows.{RowIs, kids_of, open_row};
ghost use Rattle.text.specs.Trees.{OpenedIs, SoleIs};

use crate::Refusal;
use crate::letters::{NONE, TextForm, shape_of};
use fields::slots::read_fields;

pub const MAX_NODES: usize = 512;

// A node's letter and fields, the byte behind them, and the kinds of its children.
#[derive(Clone, Copy)]
pub struct Head {
    pub letter: u8,
    pub a: i64,
    pub b: i64,
    pub c: i64,
    pub d: i64,
    pub next: usize,
    pub kid1: u8,
    pub kid2: u8,
    pub kid3: u8,
}

pub fn letter_at(text: &[u8], at: usize) -> Option<u8>
    requires { at ≤ length text.now }
    ensures { SoleIs (up_to 44 (drop at text.now)) result }
{
    if at == text.len() || text[at] == b',' {
        return None;
    }
    if text.len() - at != 1 && text[at + 1] != b',' {
        return None;
    }
    Some(text[at])
}

// In this order: unknown letter, wrong kind, too many nodes, too deep, a field not of the form.
fn open_any(
    form: TextForm,
    text: &[u8],
    at: usize,
    kind: u8,
    count: usize,
    left: usize,
) -> Result<Head, Refusal>
    requires { (at ≤ length text.now + 1) × (0 < kind) × (kind ≤ 3) }
    ensures { OpenedIs (form_of form) left (kind_at kind) text.now at count result }
{
    if text.len() < at {
        return Err(Refusal::NotOfForm);
    }
    let letter = letter_at(text, at).ok_or(Refusal::NotOfForm)?;
    let s = shape_of(form, letter);
    if s.kind == NONE {
        return Err(Refusal::NotOfForm);
    }
    if s.kind != kind {
        return Err(Refusal::WrongKind);
    }
    if MAX_NODES <= count {
        return Err(Refusal::TooManyNodes);
    }
    if left == 0 {
        return Err(Refusal::TooDeep);
    }
    let f = read_fields(text, at + 2, s.first, s.second, s.third).ok_or(Refusal::NotOfForm)?;
    Ok(Head {
        letter,
        a: f.a,
        b: f.b,
        c: f.c,
        d: f.d,
        next: f.next,
        kid1: s.kid1,
        kid2: s.kid2,
        kid3: s.kid3,
    })
}

pub fn put_row(nodes: &mut [i64], i: usize, letter: u8, a: i64, b: i64, c: i64, d: i64)
    requires { 5 * i + 5 ≤ length nodes.old }
    ensures { nodes.new ≡ sets nodes.old (5 * i) (pos letter ∷ a ∷ b ∷ c ∷ d ∷ []) }
{
    nodes::put_row(nodes, i, i64::from(letter), a, b, c, d);
}

// The row of a node that was opened: its links are put in when its second and third child begin.
fn put_opened(nodes: &mut [i64], i: usize, h: Head)
    requires { 5 * i + 5 ≤ length nodes.old }
    ensures { nodes.new ≡ sets nodes.old (5 * i) (open_row h) }
{
    if h.kid1 == NONE {
        put_row(nodes, i, h.letter, h.a, h.b, h.c, h.d);
    } else {
        put_row(nodes, i, h.letter, h.a, h.b, 0, 0);
    }
}

// What was opened as one number, which is handed back faster: 64 times the byte behind it and one, and the kinds of its children in base 4.
fn number_for(h: Head) -> usize
    requires { (h.next ≤ 53761) × (h.kid1 ≤ 3) × (h.kid2 ≤ 3) × (h.kid3 ≤ 3) }
    ensures { row_of result ≡ Ok (record { next = h.next; kids = kids_of h }) }
{
    (h.next + 1) * 64 + usize::from(h.kid1 + 4 * h.kid2 + 16 * h.kid3)
}

// Any node's letter and fields by the letter table, as row `count`; a refusal is its own number.
pub fn open_by_table(
    form: TextForm,
    text: &[u8],
    at: usize,
    kind: u8,
    nodes: &mut [i64],
    count: usize,
    left: usize,
) -> usize
    requires { (at ≤ length text.now + 1) × (length text.now ≤ 53760) × Roomy text.now nodes.old × (count ≤ letters_in (take at text.now)) × (0 < kind) × (kind ≤ 3) }
    ensures { RowIs (form_of form) left (kind_at kind) text.now at nodes.old nodes.new count (row_of result) }
{
    match open_any(form, text, at, kind, count, left) {
        Ok(h) => {
            put_opened(nodes, count, h);
            number_for(h)
        }
        Err(refusal) => usize::from(u8::from(refusal)),
    }
}
