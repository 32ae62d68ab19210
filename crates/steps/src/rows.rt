// One row of the plan for tomorrow, as row `count` of the table in which today's stands; the row that it is made of is not before it.
ghost use Rattle.std.specs.Prelude.{◌≡◌, ◌*◌, ◌+◌, ◌≤◌, pos, length, [], ◌∷◌, ⊤};
ghost use Rattle.amounts.specs.Fine.{MonthIn};
ghost use Rattle.copies.specs.Appended.{Appended};
ghost use Rattle.integers.specs.Bounded.{Small};
ghost use Rattle.language.specs.Rules.Table.{value_at};
ghost use Rattle.nodes.specs.Pass.{row_from};
ghost use Rattle.nodes.specs.Table.{RowIn, nat_of, slot_at};
ghost use Rattle.places.specs.Place.{SpanIn};
ghost use Rattle.steps.specs.Offsets.{restored_row, stepped_row};
ghost use Rattle.tables.specs.Lookup.{Kept, read_table};

use crate::offsets;
use copies::Row;
use copies::changes::Change;
use integers::{Month, Pence};
use pays::Pair;
use tables::{Span, lookup};

// The row of an `L` or a `W`, with another delay.
pub fn put_delay(nodes: &mut [i64], count: usize, at: usize, d: Month) -> usize
    requires { RowIn nodes.old at × (count ≤ at) }
    ensures { Appended nodes.old nodes.new count result (slot_at nodes.old at 0 ∷ d.0 ∷ pos 0 ∷ pos 0 ∷ pos 0 ∷ []) }
{
    let letter = nodes::slot(nodes, at, 0);
    copies::put_row(
        nodes,
        count,
        Row {
            letter,
            a: d.0,
            b: 0,
            c: 0,
            d: 0,
        },
    )
}

fn put_number(nodes: &mut [i64], count: usize, n: Pence) -> usize
    requires { 5 * count + 5 ≤ length nodes.old }
    ensures { Appended nodes.old nodes.new count result (pos 78 ∷ n.0 ∷ pos 0 ∷ pos 0 ∷ pos 0 ∷ []) }
{
    copies::put_row(
        nodes,
        count,
        Row {
            letter: 78,
            a: n.0,
            b: 0,
            c: 0,
            d: 0,
        },
    )
}

// The row of an `O`, with another offset.
fn put_index(nodes: &mut [i64], count: usize, at: usize, i: Month) -> usize
    requires { RowIn nodes.old at × (count ≤ at) }
    ensures { Appended nodes.old nodes.new count result (pos 79 ∷ slot_at nodes.old at 1 ∷ i.0 ∷ pos 0 ∷ pos 0 ∷ []) }
{
    let label = nodes::slot(nodes, at, 1);
    copies::put_row(
        nodes,
        count,
        Row {
            letter: 79,
            a: label,
            b: i.0,
            c: 0,
            d: 0,
        },
    )
}

// A label's value in a month; 0 where the table has none, which an accepted plan never reads.
fn value_in(day: &Stepped, label: usize, month: Month) -> Pence
    requires { Small month.0 }
    ensures { result.0 ≡ value_at (read_table day.now.span.h day.now.span.f day.now.bounds.now day.now.values.now) label month.0 }
{
    let found = lookup::labelled(day.values, day.bounds, day.span, label, month);
    let Some(value) = found else {
        return Pence(0);
    };
    value
}

pub fn restore_row(nodes: &mut [i64], span: Span, count: usize, at: usize) -> usize
    requires { SpanIn span.h span.f × RowIn nodes.old at × (count ≤ at) }
    ensures { Appended nodes.old nodes.new count result (restored_row span.h span.f (row_from (at * 5) nodes.old)) }
{
    if nodes::is_index(nodes, at) {
        let i = offsets::offset_of(span, nodes::label(nodes, at), nodes::offset(nodes, at));
        return put_index(nodes, count, at, i);
    }
    copies::copy_row(nodes, count, at)
}

pub fn step_row(nodes: &mut [i64], day: &Stepped, count: usize, at: usize) -> usize
    requires { RowIn nodes.old at × (count ≤ at) }
    ensures { Appended nodes.old nodes.new count result (stepped_row (read_table day.now.span.h day.now.span.f day.now.bounds.now day.now.values.now) (nat_of day.now.today.0) (row_from (at * 5) nodes.old)) }
{
    if nodes::is_index(nodes, at) {
        let label = nodes::label(nodes, at);
        let i = offsets::offset_of(day.span, label, nodes::offset(nodes, at));
        if offsets::due(i) {
            let value = value_in(day, label, integers::later(day.today, i));
            return put_number(nodes, count, value);
        }
        return put_index(nodes, count, at, offsets::earlier(i));
    }
    copies::copy_row(nodes, count, at)
}

// Rows with the offset of each `O` again.
#[derive(Clone, Copy)]
pub struct Restored {
    pub span: Span,
}

impl Change for Restored {
    ghost can_change = { λ x. SpanIn x.span.h x.span.f };

    ghost changed = { λ x. restored_row x.span.h x.span.f };

    fn put(&self, nodes: &mut [i64], count: usize, at: usize) -> usize {
        restore_row(nodes, self.span, count, at)
    }
}

// The step of today, with what the pair pays: the rows of an amount are stepped by it.
#[derive(Clone, Copy)]
pub struct Stepped<'a> {
    pub values: &'a [i64],
    pub bounds: &'a [i64],
    pub span: Span,
    pub today: Month,
    pub pair: Pair,
    pub ghost placed: { SpanIn span.h span.f },
    pub ghost kept: { Kept span.h span.f bounds.now values.now },
    pub ghost month: { MonthIn today.0 },
}

impl<'a> Change for Stepped<'a> {
    ghost can_change = { λ x. ⊤ };

    ghost changed = { λ x. stepped_row (read_table x.span.h x.span.f x.bounds.now x.values.now) (nat_of x.today.0) };

    fn put(&self, nodes: &mut [i64], count: usize, at: usize) -> usize {
        step_row(nodes, self, count, at)
    }
}
