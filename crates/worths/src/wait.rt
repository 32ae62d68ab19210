// The wait of a payoff's `W`: the first month in which its test holds, the miss, or the test's refusal.
ghost use Rattle.std.specs.Prelude.{◌≡◌};
ghost use Rattle.checked.specs.Checked.{test_in};
ghost use Rattle.checked.specs.Ranges.{Near};
ghost use Rattle.language.specs.Payoff.Evaluate.{checked_tried};
ghost use Rattle.language.specs.Text.Form.{fields_of_test};
ghost use Rattle.nodes.specs.Found.{offset_of, test_at};
ghost use Rattle.nodes.specs.Stands.{TestStands};
ghost use Rattle.nodes.specs.Table.{nat_of};
ghost use Rattle.worths.specs.Waits.{WaitKnown, WaitsIn, wait_answer};

use crate::fours;
use amounts::wait::Wait;
use checked::lent::Lent;
use integers::Month;
use text::Refusal;

// The test at a node, tried with `first` months waited and each of the next d, one by one.
fn wait_singly(lent: &Lent, first: Month, d: Month, at: usize, left: usize) -> Result<Wait, Refusal>
    requires { WaitsIn first.0 d.0 × TestStands left lent.now.nodes.now at × fields_of_test Near (test_at offset_of left lent.now.nodes.now at) }
    ensures is { wait_answer result ≡ checked_tried (test_in lent.now.span.h lent.now.span.f lent.now.bounds.now lent.now.values.now (test_at offset_of left lent.now.nodes.now at)) (nat_of d.0) (nat_of first.0) }
    ensures known { WaitKnown result }
{
    let last = integers::later(first, d);
    let mut month = first;
    loop {
        if lent.checked_holds(month, at, left)? {
            break Ok(Wait::Held(month));
        }
        let following = integers::later(month, Month(1));
        if last.0 < following.0 {
            break Ok(Wait::Missed(last));
        }
        month = following;
    }
}

// The same, four at a time while all four come without a refusal, the others one by one.
pub fn wait_for(
    lent: &Lent,
    first: Month,
    d: Month,
    at: usize,
    left: usize,
) -> Result<Wait, Refusal>
    requires { WaitsIn first.0 d.0 × TestStands left lent.now.nodes.now at × fields_of_test Near (test_at offset_of left lent.now.nodes.now at) }
    ensures is { wait_answer result ≡ checked_tried (test_in lent.now.span.h lent.now.span.f lent.now.bounds.now lent.now.values.now (test_at offset_of left lent.now.nodes.now at)) (nat_of d.0) (nat_of first.0) }
    ensures known { WaitKnown result }
{
    let last = integers::later(first, d);
    let mut month = first;
    loop {
        let next = integers::later(month, Month(4));
        if last.0 < next.0 {
            break wait_singly(lent, month, amounts::wait::between(month, last), at, left);
        }
        let t = fours::tests(lent, month, at, left);
        if t.all {
            let k = amounts::wait::first_held(t.held);
            if k.0 < 4 {
                break Ok(Wait::Held(integers::later(month, k)));
            }
            month = next;
        } else {
            break wait_singly(lent, month, amounts::wait::between(month, last), at, left);
        }
    }
}
