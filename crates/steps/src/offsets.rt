// The offset of an `O`, from its place; and months that fall by one.
ghost use Rattle.std.specs.Prelude.{◌≡◌, ◌<◌, pos};
ghost use Rattle.std.proofs.Math.IntN.{pred_ℤ};
ghost use Rattle.std.specs.Int.Signed.{le_z};
ghost use Rattle.nodes.specs.Table.{nat_of};
ghost use Rattle.places.specs.Place.{SpanIn};
ghost use Rattle.steps.specs.Offsets.{offset_from};

use integers::Month;
use places::Index;
use tables::{Range, Span};

// How far a place lies behind that of the label's offset 0; a label or a place that no plan has gives 0.
pub fn offset_of(span: Span, label: usize, place: Month) -> Month
    requires { SpanIn span.h span.f }
    ensures { result.0 ≡ offset_from span.h span.f label place.0 }
{
    if 8 <= label {
        return Month(0);
    }
    let near = tables::is_between(
        place.0,
        Range {
            low: -10_000,
            high: 10_000,
        },
    );
    if near {
        let first = places::place_of(
            span,
            Index {
                label: label as i64,
                offset: 0,
            },
        );
        return Month(place.0 - first.0);
    }
    Month(0)
}

// No month is left to wait.
pub fn due(d: Month) -> bool
    ensures { result ≡ le_z d.0 (pos 0) }
{
    d.0 <= 0
}

pub fn earlier(d: Month) -> Month
    requires { 0 < nat_of d.0 }
    ensures { result.0 ≡ pred_ℤ d.0 }
{
    Month(d.0 - 1)
}
