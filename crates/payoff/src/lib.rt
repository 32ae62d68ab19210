// Payoffs: compiling, cutting and evaluating.
#![tactic(auto)]

ghost use Rattle.std.specs.Prelude.{◌≡◌, ◌≤◌, length, ◌&&◌, false, map, T, pos, replicate};
ghost use Rattle.std.specs.Int.Signed.{non_neg};
ghost use Rattle.checked.specs.Ranges.{Readable};
ghost use Rattle.language.specs.Calls.{compile_call, cut_call, evaluate_call, over, pair_ok};
ghost use Rattle.language.specs.Text.Number.{between};
ghost use Rattle.nodes.specs.Blocks.{PayoffBlocks};
ghost use Rattle.nodes.specs.Found.{offset_of, payoff_at};
ghost use Rattle.nodes.specs.Stands.{PayoffStands};
ghost use Rattle.nodes.specs.Table.{nat_of};
ghost use Rattle.payoff.specs.Answers.{writing_answer};
ghost use Rattle.payoff.specs.Compiling.{PlanRows};
ghost use Rattle.payoff.specs.Cut.{byte_of_cut};
ghost use Rattle.payoff.specs.Evaluating.{EvaluateIs, Stands, evaluating_answer};
ghost use Rattle.pays.specs.Parties.{PairIn};
ghost use Rattle.settling.specs.Settle.{Settled};
ghost use Rattle.tables.specs.Given.{given_in};
ghost use Rattle.text.specs.Opens.{opens};
ghost use Rattle.text.specs.Room.{Roomy};
ghost use Rattle.worths.specs.Answers.{worth_answer};
ghost use Rattle.worths.specs.Checked.{worth_in};
ghost use Rattle.worths.specs.Ranges.{FieldsIn, Payable};
ghost use Rattle.writer.specs.Answers.{written_answer};

use checked::lent::Lent;
use integers::{Millionths, Month};
use pays::Pair;
use tables::Span;
use tables::given::Given;
use text::Refusal;
use worths::asked::Asked;
use worths::coded;

// In a payoff's text only the letter of an uncut leaf is an `F`.
fn cut_byte(b: u8) -> u8
    ensures { result ≡ byte_of_cut b }
{
    if b == b'F' { b'H' } else { b }
}

// The text, cut, from the first byte of `out` on. A text that is read is the one text of its payoff, so it is cut as it stands.
fn put_cut(text: &[u8], out: &mut [u8])
    requires { length text.now ≤ length out.old }
    ensures { out.new ≡ over (map byte_of_cut text.now) out.old }
{
    for (i, b) in text.iter().enumerate() {
        out[i] = cut_byte(*b);
    }
}

// The payoff with every `F` cut, written from the first byte of `out` on; a refusal leaves every byte as it was.
pub fn cut(text: &[u8], out: &mut [u8]) -> Result<usize, Refusal>
    ensures { (out.new ≡ (cut_call text.now out.old).buffer)
        × (writing_answer result ≡ (cut_call text.now out.old).answer) }
{
    let mut nodes = [0i64; 2560];
    text::read_payoff(text, &mut nodes)?;
    if out.len() < text.len() {
        return Err(Refusal::NoRoom);
    }
    put_cut(text, out);
    Ok(text.len())
}

// The payoff of a plan that was read, compiled in the plan's table and written from there.
fn compiled(nodes: &mut [i64], count: usize, out: &mut [u8]) -> Result<usize, Refusal>
    requires { PlanRows nodes.old count }
    ensures { (y : PlanRows nodes.old count) → (out.new ≡ (compile_call y.text out.old).buffer)
        × (writing_answer result ≡ (compile_call y.text out.old).answer) }
{
    let n = compiles::compile_plan(nodes, 0, 0, count, Month(0), Month(0), 32);
    Ok(writer::write_text(nodes, n, 53_760, out)?)
}

// The call compile with a table lent, for the text's nodes and then for its payoff's.
fn compile_in(text: &[u8], nodes: &mut [i64], out: &mut [u8]) -> Result<usize, Refusal>
    requires { Roomy text.now nodes.old }
    ensures { (out.new ≡ (compile_call text.now out.old).buffer)
        × (writing_answer result ≡ (compile_call text.now out.old).answer) }
{
    let count = text::read_plan(text, nodes)?;
    compiled(nodes, count, out)
}

// A text of few letters has few nodes, and a short table is cleared sooner: one of 24 rows, 48, 96, 192 or all 512.
fn compile_with<const N: usize>(text: &[u8], out: &mut [u8]) -> Result<usize, Refusal>
    requires { (N ≤ 2560) × Roomy text.now (replicate N (pos 0)) }
    ensures { (out.new ≡ (compile_call text.now out.old).buffer)
        × (writing_answer result ≡ (compile_call text.now out.old).answer) }
{
    let mut nodes = [0i64; N];
    compile_in(text, &mut nodes, out)
}

// The plan's payoff, written from the first byte of `out` on; a refusal leaves every byte as it was.
pub fn compile(text: &[u8], out: &mut [u8]) -> Result<usize, Refusal>
    ensures { (out.new ≡ (compile_call text.now out.old).buffer)
        × (writing_answer result ≡ (compile_call text.now out.old).answer) }
{
    let letters = text::room::letters_at_most(text);
    if letters < 24 {
        return compile_with::<120>(text, out);
    }
    if letters < 48 {
        return compile_with::<240>(text, out);
    }
    if letters < 96 {
        return compile_with::<480>(text, out);
    }
    if letters < 192 {
        return compile_with::<960>(text, out);
    }
    compile_with::<2560>(text, out)
}

// ---- evaluating

// The month now and the pair.
fn caller_ok(span: Span, month: Month, pair: Pair) -> bool
    ensures { result ≡ between (pos 0) span.f month.0 && pair_ok pair.p pair.q }
{
    tables::month_ok(span.f, month.0) & (tables::party_ok(pair.p) & tables::party_ok(pair.q))
}

// What the payoff in the table's first row is worth: no month is waited there.
fn worth_of(nodes: &[i64], given: &Given, month: Month, pair: Pair) -> Result<Millionths, Refusal>
    requires { Readable given.now.span.h given.now.span.f given.now.bounds.now given.now.values.now × Payable given.now.span.f given.now.factors.now
        × T (non_neg month.0) × PairIn pair.p pair.q
        × PayoffStands 32 nodes.now 0 × FieldsIn (payoff_at nat_of offset_of 32 nodes.now 0) × PayoffBlocks 32 nodes.now 0 }
    ensures { worth_answer result ≡ worth_in (given_in given.now).table pair.p pair.q (nat_of month.0)
        (payoff_at nat_of offset_of 32 nodes.now 0) 0 }
{
    let lent = Lent {
        nodes,
        values: given.values,
        bounds: given.bounds,
        span: given.span,
    };
    let asked = Asked {
        lent,
        factors: given.factors,
        start: month,
        pair,
    };
    coded::worth(asked.payoff_code(Month(0), 0, 32))
}

// A payoff that was read: 9, 12, 8, then its value. Its open settings, where it uses any, are filled in the table.
pub fn evaluate_nodes(
    nodes: &mut [i64],
    count: usize,
    given: &Given,
    month: Month,
    pair: Pair,
    used: bool,
) -> Result<Millionths, Refusal>
    requires { Stands nodes.old count × (used ≡ false → Settled count nodes.old) }
    ensures { EvaluateIs (given_in given.now) pair.p pair.q month.0 count nodes.old result }
{
    if !given.table_ok() {
        return Err(Refusal::Table);
    }
    if !caller_ok(given.span, month, pair) {
        return Err(Refusal::Caller);
    }
    if !given.settings_ok() {
        return Err(Refusal::Settings);
    }
    settling::settle_open(nodes, count, given.days, used)?;
    worth_of(nodes, given, month, pair)
}

// Whether a payoff may use a setting: whoever lends some is taken at their word, and only without any is the text looked through.
fn may_use(text: &[u8], days: &[i64]) -> bool
    ensures { result ≡ false → opens text.now ≡ false }
{
    if 0 < days.len() {
        return true;
    }
    text::opens::has_open(text)
}

// The call evaluate with a table lent for the text's nodes.
fn evaluate_in(
    text: &[u8],
    nodes: &mut [i64],
    given: &Given,
    month: Month,
    pair: Pair,
) -> Result<Millionths, Refusal>
    requires { Roomy text.now nodes.old }
    ensures { evaluating_answer result ≡ evaluate_call text.now (given_in given.now) pair.p pair.q month.0 }
{
    let count = text::read_payoff(text, nodes)?;
    evaluate_nodes(nodes, count, given, month, pair, may_use(text, given.days))
}

fn evaluate_with<const N: usize>(
    text: &[u8],
    given: &Given,
    month: Month,
    pair: Pair,
) -> Result<Millionths, Refusal>
    requires { (N ≤ 2560) × Roomy text.now (replicate N (pos 0)) }
    ensures { evaluating_answer result ≡ evaluate_call text.now (given_in given.now) pair.p pair.q month.0 }
{
    let mut nodes = [0i64; N];
    evaluate_in(text, &mut nodes, given, month, pair)
}

// By the number of the text's letters.
fn evaluate_sized(
    text: &[u8],
    given: &Given,
    month: Month,
    pair: Pair,
) -> Result<Millionths, Refusal>
    ensures { evaluating_answer result ≡ evaluate_call text.now (given_in given.now) pair.p pair.q month.0 }
{
    let letters = text::room::letters_at_most(text);
    if letters < 24 {
        return evaluate_with::<120>(text, given, month, pair);
    }
    if letters < 48 {
        return evaluate_with::<240>(text, given, month, pair);
    }
    if letters < 96 {
        return evaluate_with::<480>(text, given, month, pair);
    }
    if letters < 192 {
        return evaluate_with::<960>(text, given, month, pair);
    }
    evaluate_with::<2560>(text, given, month, pair)
}

// What a payoff is worth to the pair (p, q) in millionths of a penny, `month` being the month now, or the refusal.
pub fn evaluate(
    text: &[u8],
    given: &Given,
    month: i64,
    p: i64,
    q: i64,
) -> Result<Millionths, Refusal>
    ensures { evaluating_answer result ≡ evaluate_call text.now (given_in given.now) p q month }
{
    evaluate_sized(text, given, Month(month), Pair { p: p, q: q })
}
