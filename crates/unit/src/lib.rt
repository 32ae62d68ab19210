// The engine's calls for programs in C. A slice passes as a pointer and a length. Returned is 0 or the refusal's number;
// `answer` gets the call's numbers, and is too short for them (13) only where nothing else is refused.
#![tactic(auto)]

ghost use Rattle.std.specs.Prelude.{◌≡◌, pos, leb, cond, ◌∷◌, []};
ghost use Rattle.language.specs.Calls.{check_call, compile_call, cut_call, evaluate_call, payment_call, step_call};
ghost use Rattle.language.specs.Sheet.{sheet_call};
ghost use Rattle.payments.specs.Answers.{paying_answer, stepping_answer};
ghost use Rattle.payoff.specs.Answers.{writing_answer};
ghost use Rattle.payoff.specs.Evaluating.{evaluating_answer};
ghost use Rattle.rules.specs.Answers.{Natural, checking_answer};
ghost use Rattle.tables.specs.Given.{given_of};
ghost use Rattle.text.specs.Refusals.{number_of};
ghost use Rattle.unit.specs.Returned.{bytes_only, into_answer, into_both, measures, money, money_bytes, put};
ghost use Rattle.unit.specs.Within.{Counted};
ghost use Rattle.writer.specs.Answers.{written_answer};

use integers::{Millionths, Pence};
use payments::Stepping;
use rules::Accepted;
use tables::Span;
use tables::given::Given;
use text::Refusal;
use writer::NoRoom;

const DONE: i32 = 0;

// Document 01's 13.
const NO_ROOM: i32 = 13;

// ---- numbers into `answer`

fn put_one(answer: &mut [i64], first: i64) -> i32
    ensures { (result, answer.new) ≡ put (first ∷ []) answer.old }
{
    if answer.len() < 1 {
        return NO_ROOM;
    }
    answer[0] = first;
    DONE
}

fn put_two(answer: &mut [i64], first: i64, second: i64) -> i32
    ensures { (result, answer.new) ≡ put (first ∷ second ∷ []) answer.old }
{
    if answer.len() < 2 {
        return NO_ROOM;
    }
    answer[0] = first;
    answer[1] = second;
    DONE
}

fn refused(refusal: Refusal) -> i32
    ensures { result ≡ pos (number_of refusal) }
{
    text::number_of(refusal) as i32
}

// ---- what the engine's calls answered, into `answer`

fn tell_check(checking: Result<Accepted, Refusal>, answer: &mut [i64]) -> i32
    requires { Natural checking }
    ensures { (result, answer.new) ≡ into_answer measures answer.old (checking_answer checking) }
{
    match checking {
        Ok(plan) => { put_two(answer, plan.length.0, plan.magnitude.0) }
        Err(refusal) => refused(refusal),
    }
}

fn tell_payment(paying: Result<Pence, Refusal>, answer: &mut [i64]) -> i32
    ensures { (result, answer.new) ≡ into_answer money answer.old (paying_answer paying) }
{
    match paying {
        Ok(pence) => put_one(answer, pence.0),
        Err(refusal) => refused(refusal),
    }
}

fn tell_step(stepping: Result<Stepping, Refusal>, answer: &mut [i64]) -> i32
    requires { Counted (stepping_answer stepping) }
    ensures { (result, answer.new) ≡ into_answer money_bytes answer.old (stepping_answer stepping) }
{
    match stepping {
        Ok(stepped) => put_two(answer, stepped.pence.0, stepped.bytes as i64),
        Err(refusal) => refused(refusal),
    }
}

fn tell_bytes(writing: Result<usize, Refusal>, answer: &mut [i64]) -> i32
    requires { Counted (writing_answer writing) }
    ensures { (result, answer.new) ≡ into_answer bytes_only answer.old (writing_answer writing) }
{
    match writing {
        Ok(bytes) => put_one(answer, bytes as i64),
        Err(refusal) => refused(refusal),
    }
}

fn tell_value(evaluating: Result<Millionths, Refusal>, answer: &mut [i64]) -> i32
    ensures { (result, answer.new) ≡ into_answer money answer.old (evaluating_answer evaluating) }
{
    match evaluating {
        Ok(value) => put_one(answer, value.0),
        Err(refusal) => refused(refusal),
    }
}

fn tell_sheet(written: Result<usize, NoRoom>, answer: &mut [i64]) -> i32
    requires { Counted (written_answer written) }
    ensures { (result, answer.new) ≡ into_answer bytes_only answer.old (written_answer written) }
{
    match written {
        Ok(bytes) => put_one(answer, bytes as i64),
        Err(NoRoom) => NO_ROOM,
    }
}

// How many bytes of `out` a call may write: none where `answer` is too short, so that it refuses and leaves `out` as it was.
fn usable(bytes: usize, places: usize, numbers: usize) -> usize
    ensures { result ≡ cond (leb numbers places) bytes 0 }
{
    if places < numbers {
        return 0;
    }
    bytes
}

// ---- the calls

// Length and magnitude of an accepted plan.
#[unsafe(no_mangle)]
pub extern "C" fn codhungu_check(
    plan: &[u8],
    days: &[i64],
    h: i64,
    f: i64,
    factors: &[i64],
    bounds: &[i64],
    values: &[i64],
    today: i64,
    answer: &mut [i64],
) -> i32
    ensures { (result, answer.new) ≡ into_answer measures answer.old (check_call plan.now
        (given_of days.now h f factors.now bounds.now values.now) today) }
{
    let given = Given {
        days,
        span: Span { h, f },
        factors,
        bounds,
        values,
    };
    let checking = rules::check(plan, &given, today);
    tell_check(checking, answer)
}

// The pence that p pays q in the month.
#[unsafe(no_mangle)]
pub extern "C" fn codhungu_payment(
    plan: &[u8],
    days: &[i64],
    h: i64,
    f: i64,
    factors: &[i64],
    bounds: &[i64],
    values: &[i64],
    today: i64,
    p: i64,
    q: i64,
    month: i64,
    answer: &mut [i64],
) -> i32
    ensures { (result, answer.new) ≡ into_answer money answer.old (payment_call plan.now
        (given_of days.now h f factors.now bounds.now values.now) today p q month) }
{
    let given = Given {
        days,
        span: Span { h, f },
        factors,
        bounds,
        values,
    };
    let paying = payments::payment(plan, &given, today, p, q, month);
    tell_payment(paying, answer)
}

// The pence that p pays q today, and the bytes of the plan for tomorrow in `out`.
#[unsafe(no_mangle)]
pub extern "C" fn codhungu_step(
    plan: &[u8],
    days: &[i64],
    h: i64,
    f: i64,
    factors: &[i64],
    bounds: &[i64],
    values: &[i64],
    today: i64,
    p: i64,
    q: i64,
    out: &mut [u8],
    answer: &mut [i64],
) -> i32
    ensures { ((result, answer.new), out.new) ≡ into_both money_bytes answer.old out.old
        (step_call plan.now
        (given_of days.now h f factors.now bounds.now values.now) today p q out.old) }
{
    let end = usable(out.len(), answer.len(), 2);
    let given = Given {
        days,
        span: Span { h, f },
        factors,
        bounds,
        values,
    };
    let stepping = payments::step(plan, &given, today, p, q, &mut out[..end]);
    tell_step(stepping, answer)
}

// The bytes of the plan's payoff in `out`.
#[unsafe(no_mangle)]
pub extern "C" fn codhungu_compile(plan: &[u8], out: &mut [u8], answer: &mut [i64]) -> i32
    ensures { ((result, answer.new), out.new) ≡ into_both bytes_only answer.old out.old
        (compile_call plan.now out.old) }
{
    let end = usable(out.len(), answer.len(), 1);
    let writing = payoff::compile(plan, &mut out[..end]);
    tell_bytes(writing, answer)
}

// The bytes of the cut payoff in `out`.
#[unsafe(no_mangle)]
pub extern "C" fn codhungu_cut(payoff: &[u8], out: &mut [u8], answer: &mut [i64]) -> i32
    ensures { ((result, answer.new), out.new) ≡ into_both bytes_only answer.old out.old
        (cut_call payoff.now out.old) }
{
    let end = usable(out.len(), answer.len(), 1);
    let writing = payoff::cut(payoff, &mut out[..end]);
    tell_bytes(writing, answer)
}

// The payoff's value to the pair (p, q), `month` being the month now, in millionths of a penny.
#[unsafe(no_mangle)]
pub extern "C" fn codhungu_evaluate(
    payoff: &[u8],
    days: &[i64],
    h: i64,
    f: i64,
    factors: &[i64],
    bounds: &[i64],
    values: &[i64],
    month: i64,
    p: i64,
    q: i64,
    answer: &mut [i64],
) -> i32
    ensures { (result, answer.new) ≡ into_answer money answer.old (evaluate_call payoff.now
        (given_of days.now h f factors.now bounds.now values.now) p q month) }
{
    let given = Given {
        days,
        span: Span { h, f },
        factors,
        bounds,
        values,
    };
    let evaluating = payoff::evaluate(payoff, &given, month, p, q);
    tell_value(evaluating, answer)
}

// The bytes of the sheet's lines in `out`.
#[unsafe(no_mangle)]
pub extern "C" fn codhungu_sheet(input: &[u8], out: &mut [u8], answer: &mut [i64]) -> i32
    ensures { ((result, answer.new), out.new) ≡ into_both bytes_only answer.old out.old
        (sheet_call input.now out.old) }
{
    let end = usable(out.len(), answer.len(), 1);
    let written = sheets::sheet(input, &mut out[..end]);
    tell_sheet(written, answer)
}
