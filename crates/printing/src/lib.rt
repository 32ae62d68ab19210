// The answer of a sheet as text: counted first, then written.
#![tactic(auto)]

ghost use Rattle.std.specs.Prelude.{◌≡◌, ◌*◌, ◌+◌, ◌-◌, ◌<◌, ◌≤◌, drop, length, take};
ghost use Rattle.printing.specs.Lines.{answer_call, answer_text, head_text, month_text, months_text, numbers_text, refusal_call, refusal_text};
ghost use Rattle.writer.specs.Answers.{written_answer};
ghost use Rattle.writer.specs.Digits.{all_pairs};
ghost use Rattle.writer.specs.Put.{Put};

mod again;

use writer::{NoRoom, digits, parts};

// Writes a word. No `copy_from_slice`: it calls memmove, and the C interface needs nothing from outside but memset.
fn put_word(word: &[u8], out: &mut [u8], at: usize) -> usize
    requires { at + length word.now ≤ length out.old }
    ensures { Put out.old out.new at result word.now }
{
    for i in 0..word.len() {
        out[at + i] = word[i];
    }
    at + word.len()
}

// The bytes of a month's line.
fn month_length(column: &[i64], rest: &[i64], m: usize) -> usize
    requires { (m < length column.now) × (m < length rest.now) × (m ≤ 600) }
    ensures { (result ≡ length (month_text column.now rest.now m)) × (result ≤ 70) }
{
    let a = digits::digit_count(m as u64);
    let b = digits::number_length(column, m);
    let c = digits::number_length(rest, m);
    a + b + c + 3
}

// Where a line's numbers start, behind its month, and where the next line starts.
#[derive(Clone, Copy)]
pub struct Line {
    pub mark: usize,
    pub next: usize,
}

// Writes the numbers of month m and the line's end.
fn put_numbers(
    pairs: &[u8; 200],
    column: &[i64],
    rest: &[i64],
    m: usize,
    out: &mut [u8],
    at: usize,
) -> usize
    requires { (m < length column.now) × (m < length rest.now) × (at + length (numbers_text column.now rest.now m) ≤ length out.old) × (pairs.now ≡ all_pairs) }
    ensures { Put out.old out.new at result (numbers_text column.now rest.now m) }
{
    let b = parts::put_field_by(pairs, column, m, out, at);
    let c = parts::put_field_by(pairs, rest, m, out, b);
    out[c] = b'\n';
    c + 1
}

// Writes the line of month m, which is known as hundreds and what is over; the numbers of the line before stand from `mark` on up to `at`.
fn put_month(
    pairs: &[u8; 200],
    column: &[i64],
    rest: &[i64],
    m: usize,
    hundreds: u32,
    over: u32,
    out: &mut [u8],
    at: usize,
    mark: usize,
) -> Line
    requires { (m < length column.now) × (m < length rest.now) × (m ≤ 600) × (at + length (month_text column.now rest.now m) ≤ length out.old) × (pairs.now ≡ all_pairs) × (over < 100) × (m ≡ 100 * hundreds + over)
        × (mark ≤ at) × (0 < m → take (at - mark) (drop mark out.old) ≡ numbers_text column.now rest.now (m - 1)) }
    ensures { Put out.old out.new at result.next (month_text column.now rest.now m)
        × (result.mark ≤ result.next) × (take (result.next - result.mark) (drop result.mark out.new) ≡ numbers_text column.now rest.now m) }
{
    let a = digits::put_hundreds(pairs, hundreds, over, out, at);
    if again::is_again(column, rest, m, at - mark) {
        let b = again::put_again(out, mark, a, at - mark);
        return Line { mark: a, next: b };
    }
    let c = put_numbers(pairs, column, rest, m, out, a);
    Line { mark: a, next: c }
}

// The bytes of the lines of the first months.
fn months_length(column: &[i64], rest: &[i64], months: usize) -> usize
    requires { (months ≤ length column.now) × (months ≤ length rest.now) × (months ≤ 601) }
    ensures { (result ≡ length (months_text column.now rest.now 0 months)) × (result ≤ 43_000) }
{
    let mut sum = 0;
    for m in 0..months {
        sum += month_length(column, rest, m);
    }
    sum
}

// Writes the lines of the first months.
fn put_months(
    pairs: &[u8; 200],
    column: &[i64],
    rest: &[i64],
    months: usize,
    out: &mut [u8],
    at: usize,
) -> usize
    requires { (months ≤ length column.now) × (months ≤ length rest.now) × (months ≤ 601) × (at + length (months_text column.now rest.now 0 months) ≤ length out.old) × (pairs.now ≡ all_pairs) }
    ensures { Put out.old out.new at result (months_text column.now rest.now 0 months) }
{
    let mut place = at;
    let mut mark = at;
    let mut hundreds = 0u32;
    let mut over = 0u32;
    for m in 0..months {
        let line = put_month(pairs, column, rest, m, hundreds, over, out, place, mark);
        place = line.next;
        mark = line.mark;
        over += 1;
        if over == 100 {
            over = 0;
            hundreds += 1;
        }
    }
    place
}

// Writes the first line of an accepted sheet: length and magnitude.
fn put_head(head: &[i64], out: &mut [u8]) -> usize
    requires { (2 ≤ length head.now) × (length (head_text head.now) ≤ length out.old) }
    ensures { Put out.old out.new 0 result (head_text head.now) }
{
    let a = put_word(b"accepted", out, 0);
    let b = parts::put_field(head, 0, out, a);
    let c = parts::put_field(head, 1, out, b);
    out[c] = b'\n';
    c + 1
}

// The bytes of that line.
fn head_length(head: &[i64]) -> usize
    requires { 2 ≤ length head.now }
    ensures { (result ≡ length (head_text head.now)) × (result ≤ 60) }
{
    let a = digits::number_length(head, 0);
    let b = digits::number_length(head, 1);
    a + b + 11
}

// Writes the lines of an accepted sheet.
fn put_answer(head: &[i64], column: &[i64], rest: &[i64], months: usize, out: &mut [u8]) -> usize
    requires { (2 ≤ length head.now) × (months ≤ length column.now) × (months ≤ length rest.now) × (months ≤ 601) × (length (answer_text head.now column.now rest.now months) ≤ length out.old) }
    ensures { Put out.old out.new 0 result (answer_text head.now column.now rest.now months) }
{
    let at = put_head(head, out);
    let pairs =
        b"00010203040506070809101112131415161718192021222324252627282930313233343536373839404142434445464748495051525354555657585960616263646566676869707172737475767778798081828384858687888990919293949596979899";
    put_months(pairs, column, rest, months, out, at)
}

// The lines of an accepted sheet into `out`, or no byte of them where they do not fit.
pub fn write_answer(
    head: &[i64],
    column: &[i64],
    rest: &[i64],
    months: usize,
    out: &mut [u8],
) -> Result<usize, NoRoom>
    requires { (2 ≤ length head.now) × (months ≤ length column.now) × (months ≤ length rest.now) × (months ≤ 601) }
    ensures { (out.new ≡ (answer_call head.now column.now rest.now months out.old).buffer)
        × (written_answer result ≡ (answer_call head.now column.now rest.now months out.old).answer) }
{
    // where the longest lines fit, nothing is counted
    if 60 + 70 * months <= out.len() {
        let end = put_answer(head, column, rest, months, out);
        return Ok(end);
    }
    let first = head_length(head);
    let need = first + months_length(column, rest, months);
    if out.len() < need {
        Err(NoRoom)
    } else {
        let end = put_answer(head, column, rest, months, out);
        Ok(end)
    }
}

// Writes the one line of a refused sheet.
fn put_refusal(number: &[i64], out: &mut [u8]) -> usize
    requires { (1 ≤ length number.now) × (length (refusal_text number.now) ≤ length out.old) }
    ensures { Put out.old out.new 0 result (refusal_text number.now) }
{
    let a = put_word(b"refused", out, 0);
    let b = parts::put_field(number, 0, out, a);
    out[b] = b'\n';
    b + 1
}

// The line of a refused sheet into `out`, or no byte of it where it does not fit.
pub fn write_refusal(number: &[i64], out: &mut [u8]) -> Result<usize, NoRoom>
    requires { 1 ≤ length number.now }
    ensures { (out.new ≡ (refusal_call number.now out.old).buffer)
        × (written_answer result ≡ (refusal_call number.now out.old).answer) }
{
    let need = digits::number_length(number, 0) + 9;
    if out.len() < need {
        Err(NoRoom)
    } else {
        let end = put_refusal(number, out);
        Ok(end)
    }
}
