// A text's first node and its last, which have no quick way of their own: a letter without fields, and a transfer at a plan's end, are opened
// without the letter table.
ghost use Rattle.std.specs.Prelude.{◌+◌, ◌*◌, ◌<◌, ◌≤◌, length, take};
ghost use Rattle.language.specs.Text.Letters.{plan_form};
ghost use Rattle.text.specs.Letters.{form_of, kind_at};
ghost use Rattle.text.specs.Packed.{row_of};
ghost use Rattle.text.specs.Room.{Roomy, letters_in};
ghost use Rattle.text.specs.Rows.{QuickIs, RowIs};

use crate::letters::{ROOT, TextForm, bare_letter};
use crate::quick::{Opened, fill_row};
use crate::trees::{MAX_NODES, letter_at, open_by_table, put_row};
use fields::slots::last_digits;

// A transfer that ends a plan's text.
fn last_transfer(
    text: &[u8],
    at: usize,
    kind: u8,
    nodes: &mut [i64],
    count: usize,
) -> Option<Opened>
    requires { (length text.now ≤ 53760) × (at < length text.now) × (5 * count + 5 ≤ length nodes.old) }
    ensures { QuickIs plan_form (kind_at kind) text.now at nodes.old nodes.new count result }
{
    if text.len() - at == 5 && kind == ROOT && text[at] == b'T' && text[at + 1] == b',' {
        return fill_row(last_digits(text, at + 2), text, at, nodes, count, 0);
    }
    None
}

// A node of the kind that is asked for, as row `count`.
fn edge_row(
    form: TextForm,
    text: &[u8],
    at: usize,
    kind: u8,
    nodes: &mut [i64],
    count: usize,
) -> Option<Opened>
    requires { (length text.now ≤ 53760) × (at < length text.now) × (5 * count + 5 ≤ length nodes.old) × (0 < kind) }
    ensures { QuickIs (form_of form) (kind_at kind) text.now at nodes.old nodes.new count result }
{
    let letter = letter_at(text, at)?;
    let bare = bare_letter(letter);
    if bare % 4 == kind {
        put_row(nodes, count, letter, 0, 0, 0, 0);
        return Some(Opened {
            next: at + 2,
            kids: bare / 4,
        });
    }
    match form {
        TextForm::Plan => last_transfer(text, at, kind, nodes, count),
        TextForm::Payoff => None,
    }
}

// Any node as row `count`, as one number; a refusal is its own.
pub fn open_general(
    form: TextForm,
    text: &[u8],
    at: usize,
    kind: u8,
    nodes: &mut [i64],
    count: usize,
    left: usize,
) -> usize
    requires { (at ≤ length text.now + 1) × (length text.now ≤ 53760) × Roomy text.now nodes.old × (count ≤ letters_in (take at text.now)) × (0 < kind) × (kind ≤ 3) }
    ensures { RowIs (form_of form) left (kind_at kind) text.now at nodes.old nodes.new count (row_of result) }
{
    if at < text.len() && count < MAX_NODES && 0 < left {
        if let Some(row) = edge_row(form, text, at, kind, nodes, count) {
            return (row.next + 1) * 64 + usize::from(row.kids);
        }
    }
    open_by_table(form, text, at, kind, nodes, count, left)
}
