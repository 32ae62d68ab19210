// Rows of the node table as text.
ghost use Rattle.std.specs.Prelude.{◌≡◌, ◌+◌, ◌<◌, ◌≤◌, drop, length};
ghost use Rattle.writer.specs.Put.{Put};
ghost use Rattle.writer.specs.Shapes.{ShapeOf, index_parts, leaf_parts, row_text};
ghost use Rattle.writer.specs.Written.{byte_of_letter, slot};

use crate::{digits, parts};

// Which fields a row has.
#[derive(Clone, Copy)]
pub enum Shape {
    Bare,
    Number,
    Pair,
    Wait,
    Index,
    Leaf,
}

// The byte of the letter at k.
pub fn letter_byte(nodes: &[i64], k: usize) -> u8
    requires { k < length nodes.now }
    ensures { result ≡ byte_of_letter (slot nodes.now k) }
{
    let z = nodes[k];
    if z < 0 {
        return b'?';
    }
    if 255 < z {
        return b'?';
    }
    z as u8
}

// Which fields the row has whose letter stands at k: N and Q, T, L and W, O, F and H have some.
pub fn shape_at(nodes: &[i64], k: usize) -> Shape
    requires { k < length nodes.now }
    ensures { ShapeOf (byte_of_letter (slot nodes.now k)) result }
{
    let letter = nodes[k];
    match letter {
        78 => Shape::Number,
        81 => Shape::Number,
        84 => Shape::Pair,
        76 => Shape::Wait,
        87 => Shape::Wait,
        79 => Shape::Index,
        70 => Shape::Leaf,
        72 => Shape::Leaf,
        _ => Shape::Bare,
    }
}

// The bytes of the row at j, without a comma in front.
pub fn row_length(nodes: &[i64], j: usize) -> usize
    requires { j + 5 ≤ length nodes.now }
    ensures { (result ≡ length (row_text (drop j nodes.now))) × (result ≤ 900) }
{
    let shape = shape_at(nodes, j);
    match shape {
        Shape::Bare => 1,
        Shape::Number => 2 + digits::number_length(nodes, j + 1),
        Shape::Pair => 3
            + digits::number_length(nodes, j + 1)
            + digits::number_length(nodes, j + 2),
        Shape::Wait => 2 + parts::delay_length(nodes, j + 1),
        Shape::Index => 3 + digits::number_length(nodes, j + 1) + parts::month_length(nodes, j + 2),
        Shape::Leaf => 4
            + parts::month_length(nodes, j + 1)
            + digits::number_length(nodes, j + 3)
            + digits::number_length(nodes, j + 4),
    }
}

// Writes the label and the month of the index at j. Most months have no settings and are a number alone.
fn put_index(nodes: &[i64], j: usize, out: &mut [u8], at: usize) -> usize
    requires { (j + 5 ≤ length nodes.now) × (at + length (index_parts j nodes.now) ≤ length out.old) }
    ensures { Put out.old out.new at result (index_parts j nodes.now) }
{
    let month = j + 2;
    let next = parts::put_field(nodes, j + 1, out, at);
    if digits::magnitude(nodes, month + 1) == 0 {
        parts::put_field(nodes, month, out, next)
    } else {
        parts::put_month(nodes, month, out, next)
    }
}

// Writes the month and the parties of the leaf at j.
fn put_leaf(nodes: &[i64], j: usize, out: &mut [u8], at: usize) -> usize
    requires { (j + 5 ≤ length nodes.now) × (at + length (leaf_parts j nodes.now) ≤ length out.old) }
    ensures { Put out.old out.new at result (leaf_parts j nodes.now) }
{
    let month = j + 1;
    let settings = digits::magnitude(nodes, month + 1);
    if settings == 0 {
        let next = parts::put_field(nodes, month, out, at);
        let third = parts::put_field(nodes, j + 3, out, next);
        parts::put_field(nodes, j + 4, out, third)
    } else {
        let next = parts::put_month(nodes, month, out, at);
        let third = parts::put_field(nodes, j + 3, out, next);
        parts::put_field(nodes, j + 4, out, third)
    }
}

// Writes the row at j.
pub fn put_row(nodes: &[i64], j: usize, out: &mut [u8], at: usize) -> usize
    requires { (j + 5 ≤ length nodes.now) × (at + length (row_text (drop j nodes.now)) ≤ length out.old) }
    ensures { Put out.old out.new at result (row_text (drop j nodes.now)) }
{
    let letter = letter_byte(nodes, j);
    let shape = shape_at(nodes, j);
    out[at] = letter;
    let place = at + 1;
    match shape {
        Shape::Bare => place,
        Shape::Number => parts::put_figure(nodes, j + 1, out, place),
        Shape::Pair => {
            let next = parts::put_field(nodes, j + 1, out, place);
            parts::put_field(nodes, j + 2, out, next)
        }
        Shape::Wait => parts::put_delay(nodes, j + 1, out, place),
        Shape::Index => put_index(nodes, j, out, place),
        Shape::Leaf => put_leaf(nodes, j, out, place),
    }
}
