// Whole numbers as decimal text.
ghost use Rattle.std.specs.Prelude.{◌≡◌, true, ◌*◌, ◌+◌, ◌<◌, ◌^◌, ◌≤◌, ℕ, nat_abs, pos, length};
ghost use Rattle.language.specs.Text.Number.{between, print_nat, print_number};
ghost use Rattle.writer.specs.Digits.{all_pairs, eight, four, two};
ghost use Rattle.writer.specs.Put.{Put};
ghost use Rattle.writer.specs.Written.{slot};

// How far the number at `k` is from zero.
pub fn magnitude(nodes: &[i64], k: usize) -> u64
    requires { k < length nodes.now }
    ensures { (result ≡ nat_abs (slot nodes.now k)) × (result ≤ 2 ^ 63) }
{
    nodes[k].unsigned_abs()
}

// How many digits a number below 10,000 has.
fn few_digits(n: u64) -> usize
    requires { n < 10_000 }
    ensures { result ≡ length (print_nat n) }
{
    if n < 100 {
        if n < 10 { 1 } else { 2 }
    } else {
        if n < 1000 { 3 } else { 4 }
    }
}

// How many digits n has, four at a time.
pub fn digit_count(n: u64) -> usize
    requires { n ≤ 2 ^ 63 }
    ensures { result ≡ length (print_nat n) }
{
    let mut behind: usize = 0;
    let mut left = n;
    while 10_000 <= left {
        left = left / 10_000;
        behind += 4;
    }
    behind + few_digits(left)
}

// ---- so many digits, zeros in front among them

fn put_two(n: u32, out: &mut [u8], at: usize) -> usize
    requires { (n < 100) × (at + 2 ≤ length out.old) }
    ensures { Put out.old out.new at result (two n) }
{
    out[at] = 48 + (n / 10) as u8;
    out[at + 1] = 48 + (n % 10) as u8;
    at + 2
}

// The digits of n, from the table of all pairs.
fn put_pair(pairs: &[u8; 200], n: u32, out: &mut [u8], at: usize) -> usize
    requires { (n < 100) × (at + 2 ≤ length out.old) × (pairs.now ≡ all_pairs) }
    ensures { Put out.old out.new at result (two n) }
{
    let k = 2 * n as usize;
    let tens = pairs[k];
    let ones = pairs[k + 1];
    out[at] = tens;
    out[at + 1] = ones;
    at + 2
}

fn put_four(pairs: &[u8; 200], n: u32, out: &mut [u8], at: usize) -> usize
    requires { (n < 10_000) × (at + 4 ≤ length out.old) × (pairs.now ≡ all_pairs) }
    ensures { Put out.old out.new at result (four n) }
{
    let next = put_pair(pairs, n / 100, out, at);
    put_pair(pairs, n % 100, out, next)
}

fn put_eight(pairs: &[u8; 200], n: u32, out: &mut [u8], at: usize) -> usize
    requires { (n < 100_000_000) × (at + 8 ≤ length out.old) × (pairs.now ≡ all_pairs) }
    ensures { Put out.old out.new at result (eight n) }
{
    let next = put_four(pairs, n / 10_000, out, at);
    put_four(pairs, n % 10_000, out, next)
}

// ---- the digits of n: of a number too long for one function, what stands in front, then the rest

fn put_to_two(n: u32, out: &mut [u8], at: usize) -> usize
    requires { (n < 100) × (at + length (print_nat n) ≤ length out.old) }
    ensures { Put out.old out.new at result (print_nat n) }
{
    if n < 10 {
        out[at] = 48 + n as u8;
        at + 1
    } else {
        put_two(n, out, at)
    }
}

// Writes the digits of a number below 10,000.
pub fn put_to_four(pairs: &[u8; 200], n: u32, out: &mut [u8], at: usize) -> usize
    requires { (n < 10_000) × (at + length (print_nat n) ≤ length out.old) × (pairs.now ≡ all_pairs) }
    ensures { Put out.old out.new at result (print_nat n) }
{
    if n < 100 {
        put_to_two(n, out, at)
    } else {
        let next = put_to_two(n / 100, out, at);
        put_pair(pairs, n % 100, out, next)
    }
}

// Writes the digits of a number below 1,000 that is known as hundreds and what is over: a count of lines needs no division.
pub fn put_hundreds(pairs: &[u8; 200], hundreds: u32, over: u32, out: &mut [u8], at: usize) -> usize
    requires { (hundreds < 10) × (over < 100) × (at + length (print_nat (100 * hundreds + over)) ≤ length out.old) × (pairs.now ≡ all_pairs) }
    ensures { (n : ℕ) → n ≡ 100 * hundreds + over → Put out.old out.new at result (print_nat n) }
{
    if hundreds == 0 {
        put_to_two(over, out, at)
    } else {
        out[at] = 48 + hundreds as u8;
        put_pair(pairs, over, out, at + 1)
    }
}

fn put_to_eight(pairs: &[u8; 200], n: u32, out: &mut [u8], at: usize) -> usize
    requires { (n < 100_000_000) × (at + length (print_nat n) ≤ length out.old) × (pairs.now ≡ all_pairs) }
    ensures { Put out.old out.new at result (print_nat n) }
{
    if n < 10_000 {
        put_to_four(pairs, n, out, at)
    } else {
        let next = put_to_four(pairs, n / 10_000, out, at);
        put_four(pairs, n % 10_000, out, next)
    }
}

fn put_to_sixteen(pairs: &[u8; 200], n: u64, out: &mut [u8], at: usize) -> usize
    requires { (n < 10_000_000_000_000_000) × (at + length (print_nat n) ≤ length out.old) × (pairs.now ≡ all_pairs) }
    ensures { Put out.old out.new at result (print_nat n) }
{
    if n < 100_000_000 {
        put_to_eight(pairs, n as u32, out, at)
    } else {
        let next = put_to_eight(pairs, (n / 100_000_000) as u32, out, at);
        put_eight(pairs, (n % 100_000_000) as u32, out, next)
    }
}

// Writes the digits of n, and answers the place behind them.
pub fn put_by_pairs(pairs: &[u8; 200], n: u64, out: &mut [u8], at: usize) -> usize
    requires { (n ≤ 2 ^ 63) × (at + length (print_nat n) ≤ length out.old) × (pairs.now ≡ all_pairs) }
    ensures { Put out.old out.new at result (print_nat n) }
{
    if n < 10_000_000_000_000_000 {
        put_to_sixteen(pairs, n, out, at)
    } else {
        let next = put_to_sixteen(pairs, n / 100_000_000, out, at);
        put_eight(pairs, (n % 100_000_000) as u32, out, next)
    }
}

// ---- the same where the caller holds no table

// Writes the digits of a number below 10,000. Short numbers are written sooner than a table is laid out.
pub fn put_short(n: u32, out: &mut [u8], at: usize) -> usize
    requires { (n < 10_000) × (at + length (print_nat n) ≤ length out.old) }
    ensures { Put out.old out.new at result (print_nat n) }
{
    if n < 100 {
        put_to_two(n, out, at)
    } else {
        let next = put_to_two(n / 100, out, at);
        put_two(n % 100, out, next)
    }
}

fn put_last_four(n: u32, out: &mut [u8], at: usize) -> usize
    requires { (n < 10_000) × (at + 4 ≤ length out.old) }
    ensures { Put out.old out.new at result (four n) }
{
    let next = put_two(n / 100, out, at);
    put_two(n % 100, out, next)
}

// Writes the digits of a number below 100,000,000.
fn put_medium(n: u32, out: &mut [u8], at: usize) -> usize
    requires { (n < 100_000_000) × (at + length (print_nat n) ≤ length out.old) }
    ensures { Put out.old out.new at result (print_nat n) }
{
    if n < 10_000 {
        put_short(n, out, at)
    } else {
        let next = put_short(n / 10_000, out, at);
        put_last_four(n % 10_000, out, next)
    }
}

// Writes the digits of n from a table laid out for it alone.
fn put_long(n: u64, out: &mut [u8], at: usize) -> usize
    requires { (n ≤ 2 ^ 63) × (at + length (print_nat n) ≤ length out.old) }
    ensures { Put out.old out.new at result (print_nat n) }
{
    let pairs =
        b"00010203040506070809101112131415161718192021222324252627282930313233343536373839404142434445464748495051525354555657585960616263646566676869707172737475767778798081828384858687888990919293949596979899";
    put_by_pairs(pairs, n, out, at)
}

// Writes the digits of n.
pub fn put_digits(n: u64, out: &mut [u8], at: usize) -> usize
    requires { (n ≤ 2 ^ 63) × (at + length (print_nat n) ≤ length out.old) }
    ensures { Put out.old out.new at result (print_nat n) }
{
    if n < 100_000_000 {
        put_medium(n as u32, out, at)
    } else {
        put_long(n, out, at)
    }
}

// Whether the number at k is one digit.
pub fn is_digit(nodes: &[i64], k: usize) -> bool
    requires { k < length nodes.now }
    ensures { result ≡ between (pos 0) (pos 9) (slot nodes.now k) }
{
    let z = nodes[k];
    (0 <= z) & (z <= 9)
}

// Whether the number at k is from 0 to 9,999.
pub fn is_short(nodes: &[i64], k: usize) -> bool
    requires { k < length nodes.now }
    ensures { result ≡ between (pos 0) (pos 9_999) (slot nodes.now k) }
{
    let z = nodes[k];
    (0 <= z) & (z <= 9_999)
}

// The bytes of the number at k, its digits counted.
fn counted_length(nodes: &[i64], k: usize) -> usize
    requires { k < length nodes.now }
    ensures { result ≡ length (print_number (slot nodes.now k)) }
{
    let z = nodes[k];
    let count = digit_count(magnitude(nodes, k));
    if z < 0 { 1 + count } else { count }
}

// The bytes of the number at k.
pub fn number_length(nodes: &[i64], k: usize) -> usize
    requires { k < length nodes.now }
    ensures { result ≡ length (print_number (slot nodes.now k)) }
{
    if is_digit(nodes, k) {
        1
    } else {
        counted_length(nodes, k)
    }
}

// Writes the digit at k.
pub fn put_digit(nodes: &[i64], k: usize, out: &mut [u8], at: usize) -> usize
    requires { (k < length nodes.now) × (between (pos 0) (pos 9) (slot nodes.now k) ≡ true) × (at < length out.old) }
    ensures { Put out.old out.new at result (print_number (slot nodes.now k)) }
{
    let z = nodes[k];
    out[at] = 48 + z as u8;
    at + 1
}

// Writes the number at k, from 0 to 9,999.
pub fn put_few(nodes: &[i64], k: usize, out: &mut [u8], at: usize) -> usize
    requires { (k < length nodes.now) × (between (pos 0) (pos 9_999) (slot nodes.now k) ≡ true) × (at + length (print_number (slot nodes.now k)) ≤ length out.old) }
    ensures { Put out.old out.new at result (print_number (slot nodes.now k)) }
{
    let n = magnitude(nodes, k);
    put_short(n as u32, out, at)
}

// Writes the number at k.
pub fn put_number(nodes: &[i64], k: usize, out: &mut [u8], at: usize) -> usize
    requires { (k < length nodes.now) × (at + length (print_number (slot nodes.now k)) ≤ length out.old) }
    ensures { Put out.old out.new at result (print_number (slot nodes.now k)) }
{
    let z = nodes[k];
    let n = magnitude(nodes, k);
    if z < 0 {
        out[at] = b'-';
        put_digits(n, out, at + 1)
    } else {
        put_digits(n, out, at)
    }
}

// Writes the number at k, where the caller holds the table.
pub fn put_number_by(pairs: &[u8; 200], nodes: &[i64], k: usize, out: &mut [u8], at: usize) -> usize
    requires { (k < length nodes.now) × (at + length (print_number (slot nodes.now k)) ≤ length out.old) × (pairs.now ≡ all_pairs) }
    ensures { Put out.old out.new at result (print_number (slot nodes.now k)) }
{
    let z = nodes[k];
    let n = magnitude(nodes, k);
    if z < 0 {
        out[at] = b'-';
        put_by_pairs(pairs, n, out, at + 1)
    } else {
        put_by_pairs(pairs, n, out, at)
    }
}
