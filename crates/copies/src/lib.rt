// Rows appended to the first rows of a table.
#![tactic(auto)]

ghost use Rattle.std.specs.Prelude.{◌≡◌, ◌*◌, ◌+◌, ◌≤◌, pos, length, [], ◌∷◌};
ghost use Rattle.copies.specs.Appended.{Appended};
ghost use Rattle.nodes.specs.Table.{RowIn, slot_at};

pub mod changes;

#[derive(Clone, Copy)]
pub struct Row {
    pub letter: i64,
    pub a: i64,
    pub b: i64,
    pub c: i64,
    pub d: i64,
}

// Writes row number `count`, and answers the number of the next.
pub fn put_row(out: &mut [i64], count: usize, row: Row) -> usize
    requires { 5 * count + 5 ≤ length out.old }
    ensures { Appended out.old out.new count result (row.letter ∷ row.a ∷ row.b ∷ row.c ∷ row.d ∷ []) }
{
    let letter = row.letter;
    let a = row.a;
    let b = row.b;
    let c = row.c;
    let d = row.d;
    nodes::put_row(out, count, letter, a, b, c, d);
    count + 1
}

// The row of a letter without fields.
pub fn put_letter(out: &mut [i64], count: usize, letter: i64) -> usize
    requires { 5 * count + 5 ≤ length out.old }
    ensures { Appended out.old out.new count result (letter ∷ pos 0 ∷ pos 0 ∷ pos 0 ∷ pos 0 ∷ []) }
{
    put_row(
        out,
        count,
        Row {
            letter,
            a: 0,
            b: 0,
            c: 0,
            d: 0,
        },
    )
}

// ---- rows that move down: a table that is written to is lent as a slice

// A row of a plan as it stands, without its links, as row `count`.
pub fn copy_row(nodes: &mut [i64], count: usize, at: usize) -> usize
    requires { RowIn nodes.old at × (count ≤ at) }
    ensures { Appended nodes.old nodes.new count result (slot_at nodes.old at 0 ∷ slot_at nodes.old at 1 ∷ slot_at nodes.old at 2 ∷ pos 0 ∷ pos 0 ∷ []) }
{
    let letter = nodes::slot(nodes, at, 0);
    let a = nodes::slot(nodes, at, 1);
    let b = nodes::slot(nodes, at, 2);
    put_row(
        nodes,
        count,
        Row {
            letter,
            a,
            b,
            c: 0,
            d: 0,
        },
    )
}
