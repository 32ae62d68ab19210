// A plan whose root goes on waiting: its text for tomorrow is today's with the root's delay one less.
ghost use Rattle.std.specs.Prelude.{◌≡◌, ◌&&◌, not, ◌+◌, ◌-◌, ◌<◌, ◌^◌, ◌≤◌, drop, length};
ghost use Rattle.amounts.specs.Fine.{MonthIn};
ghost use Rattle.language.specs.Limits.{plan_bytes};
ghost use Rattle.language.specs.Text.Number.{print_nat};
ghost use Rattle.nodes.specs.Table.{RowIn, nat_of};
ghost use Rattle.payments.specs.Answers.{stepping_answer};
ghost use Rattle.payments.specs.Waits.{RootTest, waits_at_root, wait_call};
ghost use Rattle.text.specs.Opens.{opens};
ghost use Rattle.writer.specs.Put.{Put};

use crate::Stepping;
use integers::{Month, Pence};
use nodes::PlanLetter;
use steps::{offsets, reads};
use text::Refusal;
use writer::digits;

// Whether the root has months left and waits on: an `L`, or a `W` whose test does not hold today.
fn root_waits(nodes: &[i64], values: &[i64], today: Month) -> bool
    requires { MonthIn today.0 × RowIn nodes.now 0 × RootTest values.now (nat_of today.0) nodes.now }
    ensures { result ≡ waits_at_root values.now (nat_of today.0) nodes.now }
{
    let d = nodes::delay(nodes, 0);
    if offsets::due(d) {
        return false;
    }
    let letter = nodes::plan_kind(nodes, 0);
    match letter {
        PlanLetter::Nothing => false,
        PlanLetter::Transfer => false,
        PlanLetter::Scale => false,
        PlanLetter::Later => true,
        PlanLetter::Both => false,
        PlanLetter::Within => !reads::test(nodes, &values, today, 1),
        PlanLetter::NoPlan => false,
    }
}

// Whether the text for tomorrow is today's with the root's delay one less. A text with an open setting is written again, with the setting filled.
pub fn text_waits(text: &[u8], nodes: &[i64], values: &[i64], today: Month) -> bool
    requires { MonthIn today.0 × RowIn nodes.now 0 × RootTest values.now (nat_of today.0) nodes.now }
    ensures { result ≡ waits_at_root values.now (nat_of today.0) nodes.now && not (opens text.now) }
{
    if root_waits(nodes, values, today) {
        !text::opens::has_open(text)
    } else {
        false
    }
}

// Writes the text from byte `from` on.
fn put_rest(text: &[u8], from: usize, out: &mut [u8], at: usize) -> usize
    requires { (from ≤ length text.now) × (at + (length text.now - from) ≤ length out.old) }
    ensures { Put out.old out.new at result (drop from text.now) }
{
    let count = text.len() - from;
    for i in 0..count {
        out[at + i] = text[from + i];
    }
    at + count
}

// The text of a plan whose root waits d months, with one month less, into `out`; or no byte of it where it does not fit.
pub fn shorter_wait(text: &[u8], d: u64, out: &mut [u8]) -> Result<Stepping, Refusal>
    requires { (0 < d) × (d ≤ 2 ^ 63) × (2 + length (print_nat d) ≤ length text.now) × (length text.now ≤ plan_bytes) }
    ensures { (out.new ≡ (wait_call d text.now out.old).buffer)
        × (stepping_answer result ≡ (wait_call d text.now out.old).answer) }
{
    let less = d - 1;
    let from = 2 + digits::digit_count(d);
    let need = 2 + digits::digit_count(less) + (text.len() - from);
    if out.len() < need {
        return Err(Refusal::NoRoom);
    }
    let letter = text[0];
    let comma = text[1];
    out[0] = letter;
    out[1] = comma;
    let at = digits::put_digits(less, out, 2);
    let end = put_rest(text, from, out, at);
    Ok(Stepping {
        pence: Pence(0),
        bytes: end,
    })
}
