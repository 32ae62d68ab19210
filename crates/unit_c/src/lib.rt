// The static library for programs in C: each export is the call of its name in `unit`.
#![tactic(auto)]

ghost use Rattle.std.specs.Prelude.{◌≡◌};
ghost use Rattle.language.specs.Calls.{check_call, compile_call, cut_call, evaluate_call, payment_call, step_call};
ghost use Rattle.language.specs.Sheet.{sheet_call};
ghost use Rattle.tables.specs.Given.{given_of};
ghost use Rattle.unit.specs.Returned.{bytes_only, into_answer, into_both, measures, money, money_bytes};

// Length and magnitude of an accepted plan.
#[unsafe(no_mangle)]
pub extern "C" fn codhungu_check(
    plan: &[u8],
    days: &[i64],
    h: i64,
    f: i64,
    factors: &[i64],
    bounds: &[i64],
    values: &[i64],
    today: i64,
    answer: &mut [i64],
) -> i32
    ensures { (result, answer.new) ≡ into_answer measures answer.old (check_call plan.now
        (given_of days.now h f factors.now bounds.now values.now) today) }
{
    unit::codhungu_check(plan, days, h, f, factors, bounds, values, today, answer)
}

// The pence that p pays q in the month.
#[unsafe(no_mangle)]
pub extern "C" fn codhungu_payment(
    plan: &[u8],
    days: &[i64],
    h: i64,
    f: i64,
    factors: &[i64],
    bounds: &[i64],
    values: &[i64],
    today: i64,
    p: i64,
    q: i64,
    month: i64,
    answer: &mut [i64],
) -> i32
    ensures { (result, answer.new) ≡ into_answer money answer.old (payment_call plan.now
        (given_of days.now h f factors.now bounds.now values.now) today p q month) }
{
    unit::codhungu_payment(
        plan, days, h, f, factors, bounds, values, today, p, q, month, answer,
    )
}

// The pence that p pays q today, and the bytes of the plan for tomorrow in `out`.
#[unsafe(no_mangle)]
pub extern "C" fn codhungu_step(
    plan: &[u8],
    days: &[i64],
    h: i64,
    f: i64,
    factors: &[i64],
    bounds: &[i64],
    values: &[i64],
    today: i64,
    p: i64,
    q: i64,
    out: &mut [u8],
    answer: &mut [i64],
) -> i32
    ensures { ((result, answer.new), out.new) ≡ into_both money_bytes answer.old out.old
        (step_call plan.now
        (given_of days.now h f factors.now bounds.now values.now) today p q out.old) }
{
    unit::codhungu_step(
        plan, days, h, f, factors, bounds, values, today, p, q, out, answer,
    )
}

// The bytes of the plan's payoff in `out`.
#[unsafe(no_mangle)]
pub extern "C" fn codhungu_compile(plan: &[u8], out: &mut [u8], answer: &mut [i64]) -> i32
    ensures { ((result, answer.new), out.new) ≡ into_both bytes_only answer.old out.old
        (compile_call plan.now out.old) }
{
    unit::codhungu_compile(plan, out, answer)
}

// The bytes of the cut payoff in `out`.
#[unsafe(no_mangle)]
pub extern "C" fn codhungu_cut(payoff: &[u8], out: &mut [u8], answer: &mut [i64]) -> i32
    ensures { ((result, answer.new), out.new) ≡ into_both bytes_only answer.old out.old
        (cut_call payoff.now out.old) }
{
    unit::codhungu_cut(payoff, out, answer)
}

// The payoff's value to the pair (p, q), `month` being the month now, in millionths of a penny.
#[unsafe(no_mangle)]
pub extern "C" fn codhungu_evaluate(
    payoff: &[u8],
    days: &[i64],
    h: i64,
    f: i64,
    factors: &[i64],
    bounds: &[i64],
    values: &[i64],
    month: i64,
    p: i64,
    q: i64,
    answer: &mut [i64],
) -> i32
    ensures { (result, answer.new) ≡ into_answer money answer.old (evaluate_call payoff.now
        (given_of days.now h f factors.now bounds.now values.now) p q month) }
{
    unit::codhungu_evaluate(
        payoff, days, h, f, factors, bounds, values, month, p, q, answer,
    )
}

// The bytes of the sheet's lines in `out`.
#[unsafe(no_mangle)]
pub extern "C" fn codhungu_sheet(input: &[u8], out: &mut [u8], answer: &mut [i64]) -> i32
    ensures { ((result, answer.new), out.new) ≡ into_both bytes_only answer.old out.old
        (sheet_call input.now out.old) }
{
    unit::codhungu_sheet(input, out, answer)
}
