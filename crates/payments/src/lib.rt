// What a plan pays a pair in a month, and the month step.
#![tactic(auto)]

ghost use Rattle.std.specs.Prelude.{◌≡◌, ◌&&◌, ◌≤◌, pos, replicate};
ghost use Rattle.amounts.specs.Fine.{MonthIn};
ghost use Rattle.amounts.specs.Flat.{flat};
ghost use Rattle.copies.specs.Appended.{Appended};
ghost use Rattle.copies.specs.Plain.{plain_rows};
ghost use Rattle.language.specs.Calls.{into_buffer, lookup_of, pair_ok, payment_call, sign_of, step_call};
ghost use Rattle.language.specs.Payments.Pays.{pays};
ghost use Rattle.language.specs.Payments.Step.{step};
ghost use Rattle.language.specs.Rules.Settings.{closed};
ghost use Rattle.language.specs.Text.Letters.{plan_form};
ghost use Rattle.language.specs.Text.Number.{between};
ghost use Rattle.language.specs.Text.Plans.{plan_trees, print_plan};
ghost use Rattle.language.specs.Text.Reader.{end};
ghost use Rattle.language.specs.Text.Trees.{Delay, Plan};
ghost use Rattle.nodes.specs.Found.{plan_at};
ghost use Rattle.nodes.specs.Stands.{PlanStands};
ghost use Rattle.nodes.specs.Table.{nat_of};
ghost use Rattle.payments.specs.Answers.{asked_ok, paid_by, paying_answer, stepped_by, stepping_answer};
ghost use Rattle.pays.specs.FinePlan.{FinePlan};
ghost use Rattle.pays.specs.Parties.{PairIn};
ghost use Rattle.rules.specs.Standing.{Standing, Stands};
ghost use Rattle.steps.specs.Ready.{Ready};
ghost use Rattle.tables.specs.Given.{given_in};
ghost use Rattle.tables.specs.Lookup.{read_table};
ghost use Rattle.text.specs.Room.{Roomy};

use amounts::Tables;
use integers::{Month, Pence};
use pays::Pair;
use steps::Today;
use steps::rows::Stepped;
use tables::Range;
use tables::given::Given;
use text::Refusal;
use writer::digits;

mod waits;

// The walk of the plan from its root: what it reads goes with it as one pointer.
fn plan_pays(nodes: &[i64], values: &[i64], today: Month, month: Month, pair: Pair) -> Pence
    requires { MonthIn today.0 × MonthIn month.0 × PairIn pair.p pair.q × PlanStands 32 nodes.now 0 × FinePlan values.now (sign_of pair.p pair.q) (plan_at nat_of 32 nodes.now 0) (nat_of today.0) (nat_of month.0) }
    ensures { result.0 ≡ pays (flat values.now) (sign_of pair.p pair.q) (plan_at nat_of 32 nodes.now 0) (nat_of today.0) (nat_of month.0) }
{
    pays::plan_pays(&Tables { nodes, values }, today, month, pair, 0, 32)
}

// What a plan that was read pays: accepted first, its index readings then resolved in the table.
pub fn paid(
    nodes: &mut [i64],
    count: usize,
    given: &Given,
    today: Month,
    pair: Pair,
    month: Month,
    asked: bool,
) -> Result<Pence, Refusal>
    requires { Stands nodes.old count × (asked ≡ asked_ok (given_in given.now) today.0 pair.p pair.q month.0) }
    ensures { (x : Plan Delay) → Standing nodes.old count x → paying_answer result ≡ paid_by (given_in given.now) today.0 pair.p pair.q month.0 x }
{
    rules::accept(nodes, count, given, today, asked)?;
    places::place_rows(nodes, count, given.span);
    Ok(plan_pays(nodes, given.values, today, month, pair))
}

// Two parties, and a month from today to f.
fn asked_of(pair: Pair, today: i64, f: i64, month: i64) -> bool
    ensures { result ≡ pair_ok pair.p pair.q && between today f month }
{
    let parties = tables::party_ok(pair.p) & tables::party_ok(pair.q);
    parties
        & tables::is_between(
            month,
            Range {
                low: today,
                high: f,
            },
        )
}

// The call payment with a table lent for the text's nodes.
fn payment_in(
    text: &[u8],
    nodes: &mut [i64],
    given: &Given,
    today: Month,
    pair: Pair,
    month: Month,
) -> Result<Pence, Refusal>
    requires { Roomy text.now nodes.old }
    ensures { paying_answer result ≡ payment_call text.now (given_in given.now) today.0 pair.p pair.q month.0 }
{
    let asked = asked_of(pair, today.0, given.span.f, month.0);
    let count = text::read_plan(text, nodes)?;
    paid(nodes, count, given, today, pair, month, asked)
}

// A text of few letters has few nodes, and a short table is cleared sooner: one of 24 rows, 48, 96, 192 or all 512.
fn payment_with<const N: usize>(
    text: &[u8],
    given: &Given,
    today: Month,
    pair: Pair,
    month: Month,
) -> Result<Pence, Refusal>
    requires { (N ≤ 2560) × Roomy text.now (replicate N (pos 0)) }
    ensures { paying_answer result ≡ payment_call text.now (given_in given.now) today.0 pair.p pair.q month.0 }
{
    let mut nodes = [0i64; N];
    payment_in(text, &mut nodes, given, today, pair, month)
}

// By the number of the text's letters.
fn payment_sized(
    text: &[u8],
    given: &Given,
    today: Month,
    pair: Pair,
    month: Month,
) -> Result<Pence, Refusal>
    ensures { paying_answer result ≡ payment_call text.now (given_in given.now) today.0 pair.p pair.q month.0 }
{
    let letters = text::room::letters_at_most(text);
    if letters < 24 {
        return payment_with::<120>(text, given, today, pair, month);
    }
    if letters < 48 {
        return payment_with::<240>(text, given, today, pair, month);
    }
    if letters < 96 {
        return payment_with::<480>(text, given, today, pair, month);
    }
    if letters < 192 {
        return payment_with::<960>(text, given, today, pair, month);
    }
    payment_with::<2560>(text, given, today, pair, month)
}

// The pence that p pays q in a month from today to f, the plan's root in month today; or the refusal.
pub fn payment(
    text: &[u8],
    given: &Given,
    today: i64,
    p: i64,
    q: i64,
    month: i64,
) -> Result<Pence, Refusal>
    ensures { paying_answer result ≡ payment_call text.now (given_in given.now) today p q month }
{
    payment_sized(text, given, Month(today), Pair { p: p, q: q }, Month(month))
}

#[derive(Clone, Copy)]
pub struct Stepping {
    pub pence: Pence,
    pub bytes: usize,
}

// The walk of the month step from the plan's root, what it needs as one pointer.
fn step_plan(nodes: &mut [i64], given: &Given, today: Month, pair: Pair, count: usize) -> Today
    requires { MonthIn today.0 × PairIn pair.p pair.q × Ready given.now.span.h given.now.span.f given.now.bounds.now given.now.values.now (nat_of today.0) nodes.old 0 count 32
        × PlanStands 32 nodes.old 0 × FinePlan given.now.values.now (sign_of pair.p pair.q) (plan_at nat_of 32 nodes.old 0) (nat_of today.0) (nat_of today.0) }
    ensures { (result.pence.0 ≡ pays (flat given.now.values.now) (sign_of pair.p pair.q) (plan_at nat_of 32 nodes.old 0) (nat_of today.0) (nat_of today.0))
        × (result.next ≤ count) × ((y : Ready given.now.span.h given.now.span.f given.now.bounds.now given.now.values.now (nat_of today.0) nodes.old 0 count 32)
        → Appended nodes.old nodes.new 0 result.next (plain_rows plan_form (plan_trees (closed (step (lookup_of (read_table given.now.span.h given.now.span.f given.now.bounds.now given.now.values.now)) (nat_of today.0) y.plan)) end))) }
{
    let day = Stepped {
        values: given.values,
        bounds: given.bounds,
        span: given.span,
        today,
        pair,
    };
    steps::step_plan(nodes, &day, 0, 0, count, 32)
}

// The step of a plan that was read: accepted first, then what it pays today and, in the same table, the plan for tomorrow. Where only
// the root's delay falls, the text is copied.
pub fn stepped(
    text: &[u8],
    nodes: &mut [i64],
    count: usize,
    given: &Given,
    today: Month,
    pair: Pair,
    asked: bool,
    out: &mut [u8],
) -> Result<Stepping, Refusal>
    requires { Stands nodes.old count × (asked ≡ pair_ok pair.p pair.q) × ((x : Plan Delay) → Standing nodes.old count x → text.now ≡ print_plan x) }
    ensures { (x : Plan Delay) → Standing nodes.old count x
        → (out.new ≡ (into_buffer out.old (stepped_by (given_in given.now) today.0 pair.p pair.q x)).buffer)
        × (stepping_answer result ≡ (into_buffer out.old (stepped_by (given_in given.now) today.0 pair.p pair.q x)).answer) }
{
    rules::accept(nodes, count, given, today, asked)?;
    places::place_rows(nodes, count, given.span);
    if waits::text_waits(text, nodes, given.values, today) {
        let d = digits::magnitude(nodes, 1);
        return waits::shorter_wait(text, d, out);
    }
    let answer = step_plan(nodes, given, today, pair, count);
    let bytes = writer::write_text(nodes, answer.next, 8_704, out)?;
    Ok(Stepping {
        pence: answer.pence,
        bytes,
    })
}

// Two parties.
pub fn parties_ok(pair: Pair) -> bool
    ensures { result ≡ pair_ok pair.p pair.q }
{
    tables::party_ok(pair.p) & tables::party_ok(pair.q)
}

// The call step with a table lent, for the text's nodes and then for those of tomorrow.
fn step_in(
    text: &[u8],
    nodes: &mut [i64],
    given: &Given,
    today: Month,
    pair: Pair,
    out: &mut [u8],
) -> Result<Stepping, Refusal>
    requires { Roomy text.now nodes.old }
    ensures { (out.new ≡ (step_call text.now (given_in given.now) today.0 pair.p pair.q out.old).buffer)
        × (stepping_answer result ≡ (step_call text.now (given_in given.now) today.0 pair.p pair.q out.old).answer) }
{
    let asked = parties_ok(pair);
    let count = text::read_plan(text, nodes)?;
    stepped(text, nodes, count, given, today, pair, asked, out)
}

fn step_with<const N: usize>(
    text: &[u8],
    given: &Given,
    today: Month,
    pair: Pair,
    out: &mut [u8],
) -> Result<Stepping, Refusal>
    requires { (N ≤ 2560) × Roomy text.now (replicate N (pos 0)) }
    ensures { (out.new ≡ (step_call text.now (given_in given.now) today.0 pair.p pair.q out.old).buffer)
        × (stepping_answer result ≡ (step_call text.now (given_in given.now) today.0 pair.p pair.q out.old).answer) }
{
    let mut table = [0i64; N];
    step_in(text, &mut table, given, today, pair, out)
}

// By the number of the text's letters.
fn step_sized(
    text: &[u8],
    given: &Given,
    today: Month,
    pair: Pair,
    out: &mut [u8],
) -> Result<Stepping, Refusal>
    ensures { (out.new ≡ (step_call text.now (given_in given.now) today.0 pair.p pair.q out.old).buffer)
        × (stepping_answer result ≡ (step_call text.now (given_in given.now) today.0 pair.p pair.q out.old).answer) }
{
    let letters = text::room::letters_at_most(text);
    if letters < 24 {
        return step_with::<120>(text, given, today, pair, out);
    }
    if letters < 48 {
        return step_with::<240>(text, given, today, pair, out);
    }
    if letters < 96 {
        return step_with::<480>(text, given, today, pair, out);
    }
    if letters < 192 {
        return step_with::<960>(text, given, today, pair, out);
    }
    step_with::<2560>(text, given, today, pair, out)
}

// The pence that p pays q today, and the plan for tomorrow from the first byte of `out` on; a refusal leaves every byte as it was.
// Demand 3 of document 01 is this contract with the theorem `guarantee` (language, proofs/Guarantee): whatever list of calls that
// answer as `stepCall` does, schedule, value and roll-forward of the accepted plan agree.
pub fn step(
    text: &[u8],
    given: &Given,
    today: i64,
    p: i64,
    q: i64,
    out: &mut [u8],
) -> Result<Stepping, Refusal>
    ensures { (out.new ≡ (step_call text.now (given_in given.now) today p q out.old).buffer)
        × (stepping_answer result ≡ (step_call text.now (given_in given.now) today p q out.old).answer) }
{
    let parties = Pair { p: p, q: q };
    step_sized(text, given, Month(today), parties, out)
}
