// The sheet as a call on bytes.
#![tactic(auto)]

ghost use Rattle.std.specs.Prelude.{◌≡◌, ◌&&◌, ◌||◌, List, min, suc, ℕ, ◌≤◌, leb, nat_abs, pos, length, replicate};
ghost use Rattle.amounts.specs.Flat.{flat};
ghost use Rattle.columns.specs.Column.{Added, Weighed};
ghost use Rattle.language.specs.Calls.{pair_ok, sign_of};
ghost use Rattle.language.specs.Payments.Pays.{pays};
ghost use Rattle.language.specs.Sheet.{sheet_call};
ghost use Rattle.language.specs.Text.Trees.{Delay, Plan};
ghost use Rattle.nodes.specs.Found.{plan_at};
ghost use Rattle.nodes.specs.Stands.{PlanStands};
ghost use Rattle.nodes.specs.Table.{nat_of};
ghost use Rattle.pays.specs.Parties.{PairIn};
ghost use Rattle.rules.specs.Standing.{Standing, Stands};
ghost use Rattle.sheets.specs.Answers.{answer_into, refusal_into};
ghost use Rattle.sheets.specs.Held.{Cleared, MonthRoom, SheetHeld, TriedIs, plan_text};
ghost use Rattle.tables.specs.Given.{given_in};
ghost use Rattle.tables.specs.Lookup.{KeptSpan};
ghost use Rattle.text.specs.Refusals.{number_of};
ghost use Rattle.text.specs.Room.{Roomy};
ghost use Rattle.writer.specs.Answers.{written_answer};

use amounts::Tables;
use columns::remaining;
use integers::{Month, Pence};
use lines::Sheet;
use pays::Pair;
use tables::Span;
use tables::given::Given;
use text::Refusal;
use writer::NoRoom;

// The line of a refused sheet.
pub fn refuse(refusal: Refusal, out: &mut [u8]) -> Result<usize, NoRoom>
    ensures { (out.new ≡ (refusal_into (number_of refusal) out.old).buffer)
        × (written_answer result ≡ (refusal_into (number_of refusal) out.old).answer) }
{
    let number = [text::number_of(refusal) as i64];
    printing::write_refusal(&number, out)
}

// The months from 0 to f.
fn months_of(span: Span) -> usize
    requires { KeptSpan span.h span.f }
    ensures { result ≡ suc (nat_abs span.f) }
{
    span.f as usize + 1
}

// The walk of the plan from its root: what it reads goes with it as one pointer.
fn plan_column(nodes: &[i64], values: &[i64], pair: Pair, column: &mut [i64])
    requires { PairIn pair.p pair.q × PlanStands 32 nodes.now 0 × Weighed values.now (plan_at nat_of 32 nodes.now 0) 0 (pos 1) column.old }
    ensures { Added column.old column.new (pos 1)
        (pays (flat values.now) (sign_of pair.p pair.q) (plan_at nat_of 32 nodes.now 0) 0) }
{
    columns::plan_column(
        &Tables { nodes, values },
        Month(0),
        pair,
        Pence(1),
        column,
        0,
        32,
    );
}

// The answer for a plan that was read: accepted first, then paid month by month, and what is left from each month on.
pub fn answer(
    nodes: &mut [i64],
    count: usize,
    given: &Given,
    pair: Pair,
    asked: bool,
    column: &mut [i64],
    rest: &mut [i64],
    out: &mut [u8],
) -> Result<usize, NoRoom>
    requires { Stands nodes.old count × (asked ≡ pair_ok pair.p pair.q) × (length given.now.factors.now ≤ length column.old) × Cleared column.old × (length given.now.factors.now ≤ length rest.old) }
    ensures { (x : Plan Delay) → Standing nodes.old count x
        → (out.new ≡ (answer_into (given_in given.now) pair.p pair.q x out.old).buffer)
        × (written_answer result ≡ (answer_into (given_in given.now) pair.p pair.q x out.old).answer) }
{
    let checking = rules::accept(nodes, count, given, Month(0), asked);
    match checking {
        Ok(plan) => {
            places::place_rows(nodes, count, given.span);
            plan_column(nodes, given.values, pair, column);
            let months = months_of(given.span);
            remaining::add_back(given.factors, column, rest, months);
            let a = integers::magnitude(plan.length.0) as i64;
            let b = integers::magnitude(plan.magnitude.0) as i64;
            let head = [a, b];
            printing::write_answer(&head, column, rest, months, out)
        }
        Err(refusal) => refuse(refusal, out),
    }
}

// Whether the lent lists hold all of a sheet's table; one that they do not hold breaks a rule.
fn fits(sheet: Sheet) -> bool
    ensures { result ≡ leb sheet.factors 601 && (leb sheet.labels 8 && leb sheet.values 5288) }
{
    (sheet.factors <= 601) & ((sheet.labels <= 8) & (sheet.values <= 5288))
}

// How many settings to look at: nine are as many too many as more would be.
fn settings_of(sheet: Sheet) -> usize
    ensures { result ≡ min sheet.days 9 }
{
    if sheet.days <= 9 { sheet.days } else { 9 }
}

// The lists that a sheet's settings and table are read into: each may go on behind what was read.
#[derive(Clone, Copy)]
struct Lists<'a> {
    days: &'a [i64],
    factors: &'a [i64],
    bounds: &'a [i64],
    values: &'a [i64],
}

// The answer of a sheet that was read, with a table lent for its plan and lists for what is paid and what is left in each month.
fn answer_with(
    input: &[u8],
    sheet: Sheet,
    lists: &Lists,
    nodes: &mut [i64],
    column: &mut [i64],
    rest: &mut [i64],
    out: &mut [u8],
) -> Result<usize, NoRoom>
    requires { SheetHeld input.now lists.now.days.now lists.now.factors.now lists.now.bounds.now lists.now.values.now sheet × Roomy (plan_text input.now sheet) nodes.old × MonthRoom sheet column.old × Cleared column.old × MonthRoom sheet rest.old }
    ensures { (out.new ≡ (sheet_call input.now out.old).buffer)
        × (written_answer result ≡ (sheet_call input.now out.old).answer) }
{
    let from = sheet.from;
    let to = sheet.to;
    let reading = text::read_plan(&input[from..to], nodes);
    match reading {
        Ok(count) => {
            if fits(sheet) {
                let n = settings_of(sheet);
                let months = sheet.factors;
                let labels = sheet.labels;
                let places = sheet.values;
                let h = sheet.h;
                let f = sheet.f;
                let p = sheet.p;
                let q = sheet.q;
                let pair = Pair { p, q };
                let asked = payments::parties_ok(pair);
                let given = Given {
                    days: &lists.days[0..n],
                    span: Span { h, f },
                    factors: &lists.factors[0..months],
                    bounds: &lists.bounds[0..labels],
                    values: &lists.values[0..places],
                };
                answer(nodes, count, &given, pair, asked, column, rest, out)
            } else {
                refuse(Refusal::Table, out)
            }
        }
        Err(unread) => refuse(unread, out),
    }
}

// A plan of few letters has few nodes, and a short table is cleared sooner: one of 48 rows, 96, 192 or all 512.
fn answer_sized<const N: usize, const M: usize>(
    input: &[u8],
    sheet: Sheet,
    lists: &Lists,
    out: &mut [u8],
) -> Result<usize, NoRoom>
    requires { SheetHeld input.now lists.now.days.now lists.now.factors.now lists.now.bounds.now lists.now.values.now sheet × (N ≤ 2560) × (M ≤ 601)
        × Roomy (plan_text input.now sheet) (replicate N (pos 0)) × MonthRoom sheet (replicate M (pos 0)) }
    ensures { (out.new ≡ (sheet_call input.now out.old).buffer)
        × (written_answer result ≡ (sheet_call input.now out.old).answer) }
{
    let mut nodes = [0i64; N];
    let mut column = [0i64; M];
    let mut rest = [0i64; M];
    answer_with(input, sheet, lists, &mut nodes, &mut column, &mut rest, out)
}

// The answer of a sheet that was read.
fn answer_read(input: &[u8], sheet: Sheet, lists: &Lists, out: &mut [u8]) -> Result<usize, NoRoom>
    requires { SheetHeld input.now lists.now.days.now lists.now.factors.now lists.now.bounds.now lists.now.values.now sheet }
    ensures { (out.new ≡ (sheet_call input.now out.old).buffer)
        × (written_answer result ≡ (sheet_call input.now out.old).answer) }
{
    let from = sheet.from;
    let to = sheet.to;
    let months = sheet.factors;
    let letters = text::room::letters_at_most(&input[from..to]);
    if months <= 64 {
        if letters < 48 {
            return answer_sized::<240, 64>(input, sheet, lists, out);
        }
        if letters < 96 {
            return answer_sized::<480, 64>(input, sheet, lists, out);
        }
    }
    if letters < 192 {
        return answer_sized::<960, 601>(input, sheet, lists, out);
    }
    answer_sized::<2560, 601>(input, sheet, lists, out)
}

// Whether lists of so many months and places hold a sheet's table, or all of a table that keeps the rules.
fn is_held(sheet: Sheet, months: usize, places: usize) -> bool
    ensures { result ≡ (leb sheet.factors months || leb 601 months) && (leb sheet.values places || leb 5288 places) }
{
    ((sheet.factors <= months) | (601 <= months)) & ((sheet.values <= places) | (5288 <= places))
}

// A sheet that is not too long, its table read into the lent lists.
fn answer_in(
    input: &[u8],
    factors: &mut [i64],
    values: &mut [i64],
    out: &mut [u8],
) -> Option<Result<usize, NoRoom>>
    requires { length input.now ≤ 60_000 }
    ensures { TriedIs input.now (length factors.old) (length values.old) out.old out.new result }
{
    let mut days = [0i64; 9];
    let mut bounds = [0i64; 8];
    let sheeting = lines::read_sheet(input, &mut days, factors, &mut bounds, values);
    match sheeting {
        Some(held) => {
            if is_held(held, factors.len(), values.len()) {
                let lists = Lists {
                    days: &days,
                    factors,
                    bounds: &bounds,
                    values,
                };
                Some(answer_read(input, held, &lists, out))
            } else {
                None
            }
        }
        None => Some(refuse(Refusal::NotOfForm, out)),
    }
}

// With room for every table that keeps the rules.
fn long_sheet(input: &[u8], out: &mut [u8]) -> Result<usize, NoRoom>
    requires { length input.now ≤ 60_000 }
    ensures { (out.new ≡ (sheet_call input.now out.old).buffer)
        × (written_answer result ≡ (sheet_call input.now out.old).answer) }
{
    let mut factors = [0i64; 601];
    let mut values = [0i64; 5288];
    let tried = answer_in(input, &mut factors, &mut values, out);
    match tried {
        Some(written) => written,
        // never: lists as long as these are not crowded
        None => refuse(Refusal::Table, out),
    }
}

// What was answered; a sheet that shorter lists did not hold is read again into the longest.
fn or_long(
    tried: Option<Result<usize, NoRoom>>,
    input: &[u8],
    out: &mut [u8],
) -> Result<usize, NoRoom>
    requires { length input.now ≤ 60_000 }
    ensures { (months places : ℕ) (before : List ℕ) → TriedIs input.now months places before out.old tried
        → (out.new ≡ (sheet_call input.now before).buffer)
        × (written_answer result ≡ (sheet_call input.now before).answer) }
{
    match tried {
        Some(written) => written,
        None => long_sheet(input, out),
    }
}

// With room for fewer factors and values: less to clear.
fn sheet_with<const M: usize, const P: usize>(input: &[u8], out: &mut [u8]) -> Result<usize, NoRoom>
    requires { (length input.now ≤ 60_000) × (M ≤ 601) × (P ≤ 5288) }
    ensures { (out.new ≡ (sheet_call input.now out.old).buffer)
        × (written_answer result ≡ (sheet_call input.now out.old).answer) }
{
    let mut factors = [0i64; M];
    let mut values = [0i64; P];
    let tried = answer_in(input, &mut factors, &mut values, out);
    or_long(tried, input, out)
}

// The lines of a sheet's answer, or its one line `refused,` with the number, from the first byte of `out` on.
pub fn sheet(input: &[u8], out: &mut [u8]) -> Result<usize, NoRoom>
    ensures { (out.new ≡ (sheet_call input.now out.old).buffer)
        × (written_answer result ≡ (sheet_call input.now out.old).answer) }
{
    if 60_000 < input.len() {
        return refuse(Refusal::TooLong, out);
    }
    // in so few bytes there are seldom more numbers than the smaller room holds: those of some lines, or the values of two labels
    if input.len() <= 640 {
        return sheet_with::<64, 128>(input, out);
    }
    if input.len() <= 10_240 {
        return sheet_with::<601, 1344>(input, out);
    }
    long_sheet(input, out)
}
