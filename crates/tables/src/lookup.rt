// Looking a value up.
ghost use Rattle.std.specs.Prelude.{◌≡◌, ℕ, ◌+◌, ◌<◌, ◌≤◌, length, ℤ, pos, ◌+ℤ◌, slice_index_or, unsigned_abs, Some};
ghost use Rattle.integers.specs.Bounded.{Small};
ghost use Rattle.language.specs.Limits.{max_labels};
ghost use Rattle.tables.specs.Lookup.{Inside, Kept, KeptSpan, found_answer, looked_up, place_for, read_table, standing};

use crate::Span;
use integers::{Month, Pence};

// How many months the table covers.
pub fn months(span: Span) -> usize
    requires { KeptSpan span.h span.f }
    ensures { result ≡ unsigned_abs span.h + unsigned_abs span.f + 1 }
{
    span.h as usize + span.f as usize + 1
}

pub fn find_place(bounds: &[i64], span: Span, label: usize, month: Month) -> Option<usize>
    requires { KeptSpan span.h span.f × (length bounds.now ≤ max_labels) × Small month.0 }
    ensures { result ≡ place_for span.h span.f bounds.now label month.0 }
{
    let back = Month(span.h);
    let n = months(span);
    let place = integers::later(month, back);
    if bounds.len() <= label {
        return None;
    }
    if place.0 < 0 {
        return None;
    }
    let at = place.0 as usize;
    if n <= at {
        return None;
    }
    let i = label * n + at;
    Some(i)
}

// The place in the first of four months in a row, where all four are in the table.
pub fn four_places(bounds: &[i64], span: Span, label: usize, month: Month) -> Option<usize>
    requires { KeptSpan span.h span.f × (length bounds.now ≤ max_labels) × Small month.0 }
    ensures { (i : ℕ) → result ≡ Some i → (k : ℕ) → k < 4 → Some (i + k) ≡ place_for span.h span.f bounds.now label (month.0 +ℤ pos k) }
{
    let back = Month(span.h);
    let n = months(span);
    let place = integers::later(month, back);
    if bounds.len() <= label {
        return None;
    }
    if place.0 < 0 {
        return None;
    }
    let at = place.0 as usize;
    if n <= at {
        return None;
    }
    if n - at < 4 {
        return None;
    }
    let i = label * n + at;
    Some(i)
}

fn value_at(values: &[i64], i: usize) -> Pence
    requires { i < length values.now }
    ensures { result.0 ≡ slice_index_or values.now i (pos 0) }
{
    Pence(values[i])
}

// The value of a label in a month, by its place, or outside: everything that reads an index comes here.
pub fn lookup(values: &[i64], place: Option<usize>) -> Option<Pence>
    requires { Inside (length values.now) place }
    ensures { found_answer result ≡ standing values.now place }
{
    match place {
        Some(i) => Some(value_at(values, i)),
        None => None,
    }
}

// The same by label and month, for what has no place yet.
pub fn labelled(
    values: &[i64],
    bounds: &[i64],
    span: Span,
    label: usize,
    month: Month,
) -> Option<Pence>
    requires { Kept span.h span.f bounds.now values.now × Small month.0 }
    ensures { found_answer result ≡ looked_up (read_table span.h span.f bounds.now values.now) label month.0 }
{
    lookup(values, find_place(bounds, span, label, month))
}
