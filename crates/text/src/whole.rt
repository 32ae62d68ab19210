// A whole text: one node after the other, outermost first, each as the next row of the table.
ghost use Rattle.std.specs.Prelude.{◌≡◌, ◌+◌, ◌-◌, ◌*◌, ◌<◌, ◌≤◌, pos, length, set, take};
ghost use Rattle.text.specs.Letters.{form_of, kind_at};
ghost use Rattle.text.specs.Packed.{refusal_for, row_of};
ghost use Rattle.text.specs.Room.{Roomy, letters_in};
ghost use Rattle.text.specs.Rows.{RowIs};
ghost use Rattle.text.specs.Whole.{ReadIs};

use crate::Refusal;
use crate::edges::open_general;
use crate::letters::{NONE, ROOT, TextForm};
use crate::quick::{Opened, quick_row, stands_at};
use crate::trees::MAX_NODES;

const MAX_DEPTH: usize = 32;

// The byte behind what was read, and the number of nodes.
#[derive(Clone, Copy)]
pub struct Read {
    pub next: usize,
    pub count: usize,
}

// The refusal of a number that stands for one. No TryFrom: the numbers come from `number_of` alone, so its error could not happen.
fn refusal_of(n: usize) -> Refusal
    ensures { result ≡ refusal_for n }
{
    match n {
        1 => Refusal::TooLong,
        2 => Refusal::NotOfForm,
        3 => Refusal::TooManyNodes,
        4 => Refusal::TooDeep,
        5 => Refusal::WrongKind,
        6 => Refusal::Magnitude,
        7 => Refusal::NotInTime,
        8 => Refusal::Settings,
        9 => Refusal::Table,
        10 => Refusal::Length,
        11 => Refusal::Reads,
        12 => Refusal::Caller,
        13 => Refusal::NoRoom,
        _ => Refusal::OutOfRange,
    }
}

// What such a number stands for.
fn row_of(r: usize) -> Result<Opened, Refusal>
    ensures { result ≡ row_of r }
{
    if r < 64 {
        return Err(refusal_of(r));
    }
    Ok(Opened {
        next: r / 64 - 1,
        kids: (r % 64) as u8,
    })
}

// A node as row `count`, the commonest ways first.
fn open_row(
    form: TextForm,
    text: &[u8],
    at: usize,
    kind: u8,
    nodes: &mut [i64],
    count: usize,
    left: usize,
) -> Result<Opened, Refusal>
    requires { (at ≤ length text.now + 1) × (length text.now ≤ 53760) × Roomy text.now nodes.old × (count ≤ letters_in (take at text.now)) × (0 < kind) × (kind ≤ 3) }
    ensures { RowIs (form_of form) left (kind_at kind) text.now at nodes.old nodes.new count result }
{
    if count < MAX_NODES && 0 < left && stands_at(text, at) {
        if let Some(row) = quick_row(form, text, at, kind, nodes, count) {
            return Ok(row);
        }
    }
    row_of(open_general(form, text, at, kind, nodes, count, left))
}

// The link of a row to its second child, or to its third.
fn put_link(nodes: &mut [i64], own: usize, third: usize, count: usize)
    requires { (5 * own + 5 ≤ length nodes.old) × (third < 2) × (own ≤ count) × (count ≤ 512) }
    ensures { nodes.new ≡ set nodes.old (5 * own + 3 + third) (pos (count - own)) }
{
    nodes[5 * own + 3 + third] = (count - own) as i64;
}

// A node with children still to come waits: its row, the levels below it, whether its next child is the third, and the kinds of those to
// come, in one number.
fn waiting_for(own: usize, left: usize, kids: u8) -> usize
    requires { (own < 512) × (left < 32) }
    ensures { result ≡ own * 2048 + left * 32 + kids }
{
    own * 2048 + left * 32 + usize::from(kids)
}

// All nodes of a text. A leaf is followed by the next child of the innermost node that waits for one.
pub fn read_rows(form: TextForm, text: &[u8], nodes: &mut [i64]) -> Result<Read, Refusal>
    requires { (length text.now ≤ 53760) × Roomy text.now nodes.old }
    ensures is { ReadIs (form_of form) text.now nodes.new result }
    ensures kept { length nodes.new ≡ length nodes.old }
{
    let mut stack = [0usize; 32];
    let mut waiting: usize = 0;
    let mut count: usize = 0;
    let mut left: usize = MAX_DEPTH;
    let mut opened = row_of(open_general(form, text, 0, ROOT, nodes, 0, MAX_DEPTH))?;
    loop {
        let mut kind = opened.kids % 4;
        // a leaf
        if kind == NONE {
            count += 1;
            if waiting == 0 {
                return Ok(Read {
                    next: opened.next,
                    count,
                });
            }
            let entry = stack[waiting - 1];
            put_link(nodes, entry / 2048, entry / 16 % 2, count);
            left = entry / 32 % 64;
            kind = (entry % 4) as u8;
            // 4 and more where a third child is still to come
            if entry % 16 < 4 {
                waiting -= 1;
            } else {
                stack[waiting - 1] = entry - entry % 16 + 16 + entry % 16 / 4;
            }
        } else {
            left -= 1;
            if opened.kids / 4 % 4 != NONE {
                stack[waiting] = waiting_for(count, left, opened.kids / 4);
                waiting += 1;
            }
            count += 1;
        }
        opened = open_row(form, text, opened.next, kind, nodes, count, left)?;
    }
}
