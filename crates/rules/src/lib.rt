// The rules for a plan, in document 01's order.
#![tactic(auto)]

ghost use Rattle.std.specs.Prelude.{◌≡◌, ◌≤◌, true, pos, replicate};
ghost use Rattle.language.specs.Calls.{check_call};
ghost use Rattle.language.specs.Rules.Table.{are_settings};
ghost use Rattle.language.specs.Text.Number.{between};
ghost use Rattle.measures.specs.Ready.{PlanReady};
ghost use Rattle.nodes.specs.Found.{plan_at};
ghost use Rattle.nodes.specs.Table.{nat_of};
ghost use Rattle.one_pass.specs.Reads.{Short};
ghost use Rattle.rules.specs.Accepting.{AcceptIs};
ghost use Rattle.rules.specs.Answers.{Natural, checking_answer};
ghost use Rattle.rules.specs.Measured.{InTable, measured_by, span_ok};
ghost use Rattle.rules.specs.Quick.{QuickIs, ReadIs};
ghost use Rattle.rules.specs.Standing.{Stands};
ghost use Rattle.tables.specs.Given.{given_in};
ghost use Rattle.text.specs.Room.{Roomy};

use integers::{Month, Pence};
use measures::lent::Lent;
use one_pass::packed;
use tables::Span;
use tables::given::Given;
use text::Refusal;

#[derive(Clone, Copy)]
pub struct Accepted {
    pub length: Month,
    pub magnitude: Pence,
}

// Length 10, reads 11, known in time 7, magnitude 6.
fn measure_in_order(
    nodes: &[i64],
    today: Month,
    span: Span,
    bounds: &[i64],
) -> Result<Accepted, Refusal>
    requires { PlanReady 32 nodes.now 0 × InTable today.0 span.h span.f bounds.now }
    ensures { (checking_answer result ≡ measured_by span.h span.f bounds.now (nat_of today.0) (plan_at nat_of 32 nodes.now 0)) × Natural result }
{
    // The offsets that can be read from today.
    let low = measures::reads::nearer(Month(0 - span.h), today);
    let high = measures::reads::nearer(Month(span.f), today);
    let m = measures::plan::measure_plan(&Lent { nodes, bounds }, 0, 32, low, high);
    let length = Month(m.length as i64);
    let last = integers::later(today, length);
    if span.f < last.0 {
        return Err(Refusal::Length);
    }
    let reads = m.reads;
    if !reads {
        return Err(Refusal::Reads);
    }
    let known = m.known;
    if !known {
        return Err(Refusal::NotInTime);
    }
    if !measures::limit::is_within(m.magnitude) {
        return Err(Refusal::Magnitude);
    }
    Ok(Accepted {
        length,
        magnitude: Pence(m.magnitude as i64),
    })
}

// The rules of a plan as it stands in the table, by the quick walk alone: one with an open setting is left.
fn quick_measure(nodes: &[i64], today: Month, span: Span, bounds: &[i64]) -> Option<Accepted>
    requires { PlanReady 32 nodes.now 0 × InTable today.0 span.h span.f bounds.now }
    ensures { QuickIs span.h span.f bounds.now (nat_of today.0) nodes.now result }
{
    let low = measures::reads::nearer(Month(0 - span.h), today);
    let high = measures::reads::nearer(Month(span.f), today);
    let found = measures::quick::quick_plan(&Lent { nodes, bounds }, 0, 32, low, high, 0);
    let magnitude = found / 1024;
    if measures::limit::is_within(magnitude) {
        // high less the months that are left behind the plan's end
        let length = measures::reads::nearer(high, Month((found % 1024) as i64));
        return Some(Accepted {
            length,
            magnitude: Pence(magnitude as i64),
        });
    }
    None
}

// The rules of a plan. Most plans keep them all, and that is found sooner than which is broken first.
pub fn measure(nodes: &[i64], today: Month, span: Span, bounds: &[i64]) -> Result<Accepted, Refusal>
    requires { PlanReady 32 nodes.now 0 × InTable today.0 span.h span.f bounds.now }
    ensures { (checking_answer result ≡ measured_by span.h span.f bounds.now (nat_of today.0) (plan_at nat_of 32 nodes.now 0)) × Natural result }
{
    let found = quick_measure(nodes, today, span, bounds);
    match found {
        Some(kept) => Ok(kept),
        None => measure_in_order(nodes, today, span, bounds),
    }
}

// A plan that was read: 9, 12, 8, and the rules. Its open settings are filled in the table.
pub fn accept(
    nodes: &mut [i64],
    count: usize,
    given: &Given,
    today: Month,
    caller: bool,
) -> Result<Accepted, Refusal>
    requires { Stands nodes.old count }
    ensures { AcceptIs (given_in given.now) today.0 caller count nodes.old nodes.new result }
{
    if !given.table_ok() {
        return Err(Refusal::Table);
    }
    if !(tables::month_ok(given.span.f, today.0) & caller) {
        return Err(Refusal::Caller);
    }
    if !given.settings_ok() {
        return Err(Refusal::Settings);
    }
    // Where no setting is lent, a plan that is accepted has none to fill.
    if given.days.len() == 0 {
        if let Some(plan) = quick_measure(nodes, today, given.span, given.bounds) {
            return Ok(plan);
        }
    }
    tables::fill::fill_rows(nodes, count, given.days)?;
    measure(nodes, today, given.span, given.bounds)
}

// The call check with a table lent for the text's nodes.
fn check_in(
    text: &[u8],
    nodes: &mut [i64],
    given: &Given,
    today: Month,
) -> Result<Accepted, Refusal>
    requires { Roomy text.now nodes.old }
    ensures { (checking_answer result ≡ check_call text.now (given_in given.now) today.0) × Natural result }
{
    let count = text::read_plan(text, nodes)?;
    accept(nodes, count, given, today, true)
}

// A text of few letters has few nodes, and a short table is cleared sooner: one of 24 rows, 48, 96, 192 or all 512.
fn check_with<const N: usize>(text: &[u8], given: &Given, today: Month) -> Result<Accepted, Refusal>
    requires { (N ≤ 2560) × Roomy text.now (replicate N (pos 0)) }
    ensures { (checking_answer result ≡ check_call text.now (given_in given.now) today.0) × Natural result }
{
    let mut nodes = [0i64; N];
    check_in(text, &mut nodes, given, today)
}

// A short text measured as it is read. The factors and values are looked at where its plan keeps every rule.
fn measure_read(text: &[u8], given: &Given, today: Month) -> Option<Accepted>
    requires { Short text.now × (are_settings given.now.days.now ≡ true) × (span_ok given.now.span.h given.now.span.f ≡ true) × (between (pos 0) given.now.span.f today.0 ≡ true) }
    ensures { ReadIs text.now (given_in given.now) today.0 result }
{
    let low = measures::reads::nearer(Month(0 - given.span.h), today);
    let high = measures::reads::nearer(Month(given.span.f), today);
    let found = one_pass::plan::plan_at(&text, 0, 32, low, high, 0, &given.bounds, &given.days);
    if packed::is_kept(found) & (packed::place(found) == text.len() + 1) {
        if given.table_ok() {
            // high less the months that are left behind the plan's end
            let length = measures::reads::nearer(high, Month(packed::months(found) as i64));
            return Some(Accepted {
                length,
                magnitude: Pence(packed::magnitude(found) as i64),
            });
        }
    }
    None
}

// A text without a table for its nodes: most plans are short and keep every rule.
fn check_read(text: &[u8], given: &Given, today: Month) -> Option<Accepted>
    ensures { ReadIs text.now (given_in given.now) today.0 result }
{
    if text.len() <= 1000 {
        if tables::span_ok(given.span)
            & tables::month_ok(given.span.f, today.0)
            & given.settings_ok()
        {
            return measure_read(text, given, today);
        }
    }
    None
}

// By the number of the text's letters.
fn check_sized(text: &[u8], given: &Given, today: Month) -> Result<Accepted, Refusal>
    ensures { (checking_answer result ≡ check_call text.now (given_in given.now) today.0) × Natural result }
{
    let letters = text::room::letters_at_most(text);
    if letters < 24 {
        return check_with::<120>(text, given, today);
    }
    if letters < 48 {
        return check_with::<240>(text, given, today);
    }
    if letters < 96 {
        return check_with::<480>(text, given, today);
    }
    if letters < 192 {
        return check_with::<960>(text, given, today);
    }
    check_with::<2560>(text, given, today)
}

// The text as it is read; where that is not sure, with a table.
fn check_any(text: &[u8], given: &Given, today: Month) -> Result<Accepted, Refusal>
    ensures { (checking_answer result ≡ check_call text.now (given_in given.now) today.0) × Natural result }
{
    let found = check_read(text, given, today);
    match found {
        Some(plan) => Ok(plan),
        None => check_sized(text, given, today),
    }
}

// Whether a plan is accepted with its root in month today: its length and magnitude, or the refusal.
pub fn check(text: &[u8], given: &Given, today: i64) -> Result<Accepted, Refusal>
    ensures { (checking_answer result ≡ check_call text.now (given_in given.now) today) × Natural result }
{
    check_any(text, given, Month(today))
}
