// Index readings resolved in the node table: each `O` gets the place of its value for month 0.
#![tactic(auto)]

ghost use Rattle.std.specs.Prelude.{◌≡◌, true, ℕ, ◌+◌, ◌*◌, ◌≤◌, ℤ, length};
ghost use Rattle.nodes.specs.Pass.{all_rows, map_rows, row_from, with_row};
ghost use Rattle.nodes.specs.Table.{nat_of};
ghost use Rattle.places.specs.Place.{SpanIn, index_placed, place_found, placed_row, row_in};

use tables::Span;

// The fields of an `O`.
#[derive(Clone, Copy)]
pub struct Index {
    pub label: i64,
    pub offset: i64,
}

#[derive(Clone, Copy)]
pub struct Place(pub i64);

pub fn place_of(span: Span, index: Index) -> Place
    requires { SpanIn span.h span.f × (index_placed index.label index.offset ≡ true) }
    ensures { result.0 ≡ place_found span.h span.f (nat_of index.label) index.offset }
{
    let label = index.label;
    let offset = index.offset;
    let h = span.h;
    let f = span.f;
    Place(label * (h + f + 1) + h + offset)
}

pub fn place_row(nodes: &mut [i64], at: usize, span: Span)
    requires { (at + 5 ≤ length nodes.old) × SpanIn span.h span.f × (row_in (row_from at nodes.old) ≡ true) }
    ensures { nodes.new ≡ with_row at (placed_row span.h span.f (row_from at nodes.old)) nodes.old }
{
    let letter = nodes[at];
    match letter {
        79 => {
            let label = nodes[at + 1];
            let offset = nodes[at + 2];
            let place = place_of(span, Index { label, offset });
            let y = place.0;
            nodes[at + 2] = y;
        }
        _ => {}
    }
}

// Every `O` among the first rows.
pub fn place_rows(nodes: &mut [i64], count: usize, span: Span)
    requires { (5 * count ≤ length nodes.old) × SpanIn span.h span.f × (all_rows row_in count nodes.old ≡ true) }
    ensures { nodes.new ≡ map_rows (placed_row span.h span.f) count nodes.old }
{
    for i in 0..count {
        place_row(nodes, 5 * i, span);
    }
}
