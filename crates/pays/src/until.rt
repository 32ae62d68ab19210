// A wait as far as the month asked for: what starts after it pays nothing in it.
ghost use Rattle.std.specs.Prelude.{◌≡◌};
ghost use Rattle.amounts.specs.Fine.{MonthIn};
ghost use Rattle.amounts.specs.Flat.{flat};
ghost use Rattle.amounts.specs.Waits.{FineMonths, MonthsIn};
ghost use Rattle.language.specs.Payments.Amounts.{holds};
ghost use Rattle.nodes.specs.Found.{offset_of, test_at};
ghost use Rattle.nodes.specs.Stands.{TestStands};
ghost use Rattle.nodes.specs.Table.{nat_of};
ghost use Rattle.pays.specs.Until.{UntilIs, until_of_short};

use amounts::wait::Wait;
use amounts::{Tables, wait};
use integers::Month;

// Of a wait that was tried up to the month only: a miss there is none yet.
fn of_short(w: Wait) -> Option<Wait>
    ensures { result ≡ until_of_short w }
{
    match w {
        Wait::Held(k) => Some(Wait::Held(k)),
        Wait::Missed(_) => None,
    }
}

// The test at a node, tried from month `root` on for d months, but not after `month`; none where the wait ends after it.
pub fn wait_until(tables: &Tables, root: Month, month: Month, d: Month, at: usize) -> Option<Wait>
    requires { MonthsIn root.0 d.0 × MonthIn month.0 × TestStands 512 tables.now.nodes.now at × FineMonths tables.now.values.now (nat_of root.0) (nat_of d.0) (test_at offset_of 512 tables.now.nodes.now at) }
    ensures { UntilIs (holds (flat tables.now.values.now) (test_at offset_of 512 tables.now.nodes.now at)) (nat_of d.0) (nat_of root.0) (nat_of month.0) result }
{
    if month.0 < root.0 {
        return None;
    }
    let rest = wait::between(root, month);
    if rest.0 < d.0 {
        return of_short(tables.wait_for(root, rest, at, 512));
    }
    Some(tables.wait_for(root, d, at, 512))
}
