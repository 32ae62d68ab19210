// Delays, months and fields behind their commas.
ghost use Rattle.std.specs.Prelude.{◌≡◌, ◌+◌, ◌*◌, ◌<◌, ◌≤◌, length, replicate};
ghost use Rattle.language.specs.Text.Classes.{setting_fields};
ghost use Rattle.language.specs.Text.Fields.{behind};
ghost use Rattle.language.specs.Text.Letters.{delay, month};
ghost use Rattle.writer.specs.Digits.{all_pairs};
ghost use Rattle.writer.specs.Put.{Put};
ghost use Rattle.writer.specs.Shapes.{delay_field, month_field, number_field, settings_text};
ghost use Rattle.writer.specs.Written.{field_text, slot};

use crate::digits;

// ---- delays

// The bytes of the delay at k.
pub fn delay_length(nodes: &[i64], k: usize) -> usize
    requires { k < length nodes.now }
    ensures { result ≡ length (field_text delay (slot nodes.now k) (slot nodes.now k)) }
{
    let z = nodes[k];
    if z < 0 {
        2
    } else {
        digits::digit_count(digits::magnitude(nodes, k))
    }
}

// Writes a comma and the delay at k.
pub fn put_delay(nodes: &[i64], k: usize, out: &mut [u8], at: usize) -> usize
    requires { (k < length nodes.now) × (at + length (delay_field (slot nodes.now k)) ≤ length out.old) }
    ensures { Put out.old out.new at result (delay_field (slot nodes.now k)) }
{
    let z = nodes[k];
    let n = digits::magnitude(nodes, k);
    out[at] = b',';
    if z < 0 {
        out[at + 1] = b'P';
        out[at + 2] = 48 + ((n - 1) % 8) as u8;
        at + 3
    } else {
        digits::put_digits(n, out, at + 1)
    }
}

// ---- months

// The bytes of the settings in these digits: three for each.
pub fn settings_length(digits: u64) -> usize
    ensures { result ≡ length (settings_text digits) }
{
    if digits == 0 {
        return 0;
    }
    let mut sum: usize = 0;
    let mut left = digits;
    for _ in 0u8..8 {
        sum += 3 * (left % 32) as usize;
        left /= 32;
    }
    sum
}

// Writes the setting `k` n times, each behind a plus.
fn put_setting(k: u8, n: usize, out: &mut [u8], at: usize) -> usize
    requires { (k < 8) × (at + 3 * n ≤ length out.old) }
    ensures { Put out.old out.new at result (behind 43 (setting_fields (replicate n k))) }
{
    let mut place = at;
    for _ in 0..n {
        out[place] = b'+';
        out[place + 1] = b'P';
        out[place + 2] = b'0' + k;
        place += 3;
    }
    place
}

// Writes the settings in these digits, lowest first.
pub fn put_settings(digits: u64, out: &mut [u8], at: usize) -> usize
    requires { at + length (settings_text digits) ≤ length out.old }
    ensures { Put out.old out.new at result (settings_text digits) }
{
    if digits == 0 {
        return at;
    }
    let mut place = at;
    let mut left = digits;
    for k in 0..8 {
        place = put_setting(k, (left % 32) as usize, out, place);
        left /= 32;
    }
    place
}

// The bytes of the month at k and k + 1.
pub fn month_length(nodes: &[i64], k: usize) -> usize
    requires { k + 1 < length nodes.now }
    ensures { result ≡ length (field_text month (slot nodes.now k) (slot nodes.now (k + 1))) }
{
    digits::number_length(nodes, k) + settings_length(digits::magnitude(nodes, k + 1))
}

// Writes a comma and the month at k and k + 1.
pub fn put_month(nodes: &[i64], k: usize, out: &mut [u8], at: usize) -> usize
    requires { (k + 1 < length nodes.now) × (at + length (month_field (slot nodes.now k) (slot nodes.now (k + 1))) ≤ length out.old) }
    ensures { Put out.old out.new at result (month_field (slot nodes.now k) (slot nodes.now (k + 1))) }
{
    out[at] = b',';
    let next = digits::put_number(nodes, k, out, at + 1);
    put_settings(digits::magnitude(nodes, k + 1), out, next)
}

// ---- numbers

// Writes a comma and the number at k, one digit at once.
pub fn put_field(nodes: &[i64], k: usize, out: &mut [u8], at: usize) -> usize
    requires { (k < length nodes.now) × (at + length (number_field (slot nodes.now k)) ≤ length out.old) }
    ensures { Put out.old out.new at result (number_field (slot nodes.now k)) }
{
    out[at] = b',';
    if digits::is_digit(nodes, k) {
        digits::put_digit(nodes, k, out, at + 1)
    } else {
        digits::put_number(nodes, k, out, at + 1)
    }
}

// The same, up to four digits at once.
pub fn put_figure(nodes: &[i64], k: usize, out: &mut [u8], at: usize) -> usize
    requires { (k < length nodes.now) × (at + length (number_field (slot nodes.now k)) ≤ length out.old) }
    ensures { Put out.old out.new at result (number_field (slot nodes.now k)) }
{
    out[at] = b',';
    if digits::is_short(nodes, k) {
        digits::put_few(nodes, k, out, at + 1)
    } else {
        digits::put_number(nodes, k, out, at + 1)
    }
}

// The same as `put_field`, where the caller holds the table of pairs.
pub fn put_field_by(pairs: &[u8; 200], nodes: &[i64], k: usize, out: &mut [u8], at: usize) -> usize
    requires { (k < length nodes.now) × (at + length (number_field (slot nodes.now k)) ≤ length out.old) × (pairs.now ≡ all_pairs) }
    ensures { Put out.old out.new at result (number_field (slot nodes.now k)) }
{
    out[at] = b',';
    if digits::is_digit(nodes, k) {
        digits::put_digit(nodes, k, out, at + 1)
    } else {
        digits::put_number_by(pairs, nodes, k, out, at + 1)
    }
}
