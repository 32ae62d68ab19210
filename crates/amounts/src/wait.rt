// The wait of a `W`: the first month in which its test holds, or the miss.
ghost use Rattle.std.specs.Prelude.{◌≡◌, ◌-ℤ◌, pos};
ghost use Rattle.integers.specs.Bounded.{Small};
ghost use Rattle.language.specs.Payments.Amounts.{holds};
ghost use Rattle.language.specs.Payments.Pays.{tried};
ghost use Rattle.nodes.specs.Found.{offset_of, test_at};
ghost use Rattle.nodes.specs.Stands.{TestStands};
ghost use Rattle.nodes.specs.Table.{nat_of};
ghost use Rattle.amounts.specs.Flat.{flat};
ghost use Rattle.amounts.specs.FourMonths.{first_that_holds};
ghost use Rattle.amounts.specs.Waits.{FineMonths, MonthsIn, wait_of};

use crate::Tables;
use crate::four::Held;
use integers::Month;

#[derive(Clone, Copy)]
pub enum Wait {
    Held(Month),
    Missed(Month),
}

// How many months after the first of four a test first held, or 4.
pub fn first_held(t: Held) -> Month
    ensures { result.0 ≡ pos (first_that_holds t) }
{
    if t.a {
        return Month(0);
    }
    if t.b {
        return Month(1);
    }
    if t.c {
        return Month(2);
    }
    if t.d {
        return Month(3);
    }
    Month(4)
}

// The months from one to a later one.
pub fn between(month: Month, last: Month) -> Month
    requires { Small (last.0 -ℤ month.0) }
    ensures { result.0 ≡ last.0 -ℤ month.0 }
{
    Month(last.0 - month.0)
}

impl Tables<'_> {
    // The test at a node, tried in month `first` and each of the next d, one by one.
    fn wait_singly(&self, first: Month, d: Month, at: usize, left: usize) -> Wait
        requires { MonthsIn first.0 d.0 × TestStands left self.now.nodes.now at × FineMonths self.now.values.now (nat_of first.0) (nat_of d.0) (test_at offset_of left self.now.nodes.now at) }
        ensures { result ≡ wait_of (tried (holds (flat self.now.values.now) (test_at offset_of left self.now.nodes.now at)) (nat_of d.0) (nat_of first.0)) }
    {
        let last = integers::later(first, d);
        for month in first.0..=last.0 {
            if self.test_holds(Month(month), at, left) {
                return Wait::Held(Month(month));
            }
        }
        Wait::Missed(last)
    }

    // The test at a node, tried in month `first` and each of the next d: four at a time, the last ones one by one.
    // A `loop`: `step_by` would give the first of each four, and how many are left over would be worked out beside it.
    pub fn wait_for(&self, first: Month, d: Month, at: usize, left: usize) -> Wait
        requires { MonthsIn first.0 d.0 × TestStands left self.now.nodes.now at × FineMonths self.now.values.now (nat_of first.0) (nat_of d.0) (test_at offset_of left self.now.nodes.now at) }
        ensures { result ≡ wait_of (tried (holds (flat self.now.values.now) (test_at offset_of left self.now.nodes.now at)) (nat_of d.0) (nat_of first.0)) }
    {
        let last = integers::later(first, d);
        let mut month = first;
        loop {
            let next = integers::later(month, Month(4));
            if last.0 < next.0 {
                break self.wait_singly(month, between(month, last), at, left);
            }
            let k = first_held(self.tests(month, at, left));
            if k.0 < 4 {
                break Wait::Held(integers::later(month, k));
            }
            month = next;
        }
    }
}
