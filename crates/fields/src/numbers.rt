// Whole numbers, read from a byte on up to a comma, a byte `stop` or the end of the text.
ghost use Rattle.std.specs.Prelude.{◌≡◌, ◌+◌, ◌≤◌, ◌<◌, length, drop};
ghost use Rattle.fields.specs.Positions.{up_to};
ghost use Rattle.fields.specs.Numbers.{DigitsAre, FewAre, NaturalIs, NumberIs, NumberTried, SmallNatural, plus, minus};

#[derive(Clone, Copy)]
pub struct Natural {
    pub value: u64,
    pub end: usize,
}

#[derive(Clone, Copy)]
pub struct Number {
    pub value: i64,
    pub end: usize,
}

const LIMIT: u64 = 9000000000000;

// A row of digits, leading zeros among them.
fn digits(text: &[u8], at: usize, stop: u8) -> Option<Natural>
    requires { (at ≤ length text.now) × (stop < 48) }
    ensures { DigitsAre (up_to stop (drop at text.now)) at result }
{
    let mut v: u64 = 0;
    for i in at..text.len() {
        let b = text[i];
        match b {
            b'0'..=b'9' => {
                v = v * 10 + u64::from(b - 48);
                if LIMIT < v {
                    return None;
                }
            }
            _ => {
                if b == b',' || b == stop {
                    return Some(Natural { value: v, end: i });
                }
                return None;
            }
        }
    }
    Some(Natural {
        value: v,
        end: text.len(),
    })
}

// No leading zero, and at least one digit.
fn read_natural(text: &[u8], at: usize, stop: u8) -> Option<Natural>
    requires { (at ≤ length text.now) × (stop < 48) }
    ensures { NaturalIs (up_to stop (drop at text.now)) at result }
{
    let n = digits(text, at, stop)?;
    if n.end == at {
        return None;
    }
    if n.end - at != 1 && text[at] == b'0' {
        return None;
    }
    Some(n)
}

fn positive(n: Option<Natural>) -> Option<Number>
    requires { SmallNatural n }
    ensures { result ≡ plus n }
{
    let n = n?;
    Some(Number {
        value: n.value as i64,
        end: n.end,
    })
}

// Zero has no minus.
fn negative(n: Option<Natural>) -> Option<Number>
    requires { SmallNatural n }
    ensures { result ≡ minus n }
{
    let n = n?;
    if n.value == 0 {
        return None;
    }
    Some(Number {
        value: 0 - n.value as i64,
        end: n.end,
    })
}

pub fn read_number(text: &[u8], at: usize, stop: u8) -> Option<Number>
    requires { (at ≤ length text.now) × (stop < 45) }
    ensures { NumberIs (up_to stop (drop at text.now)) at result }
{
    if at < text.len() && text[at] == b'-' {
        return negative(read_natural(text, at + 1, stop));
    }
    positive(read_natural(text, at, stop))
}

// A row of at most seven digits that a comma ends, looked at without asking for the text's end or the limit; any other is tried again.
pub fn seven_digits(text: &[u8], at: usize) -> Option<Natural>
    requires { at + 8 ≤ length text.now }
    ensures { FewAre (up_to 44 (drop at text.now)) at result }
{
    let mut v: u64 = 0;
    for k in 0..8 {
        let b = text[at + k];
        match b {
            b'0'..=b'9' => {
                v = v * 10 + u64::from(b - 48);
            }
            b',' => {
                return Some(Natural {
                    value: v,
                    end: at + k,
                });
            }
            _ => return None,
        }
    }
    None
}

// A row of digits in front of a comma.
fn digits_to_comma(text: &[u8], at: usize) -> Option<Natural>
    requires { at ≤ length text.now }
    ensures { DigitsAre (up_to 44 (drop at text.now)) at result }
{
    if 8 <= text.len() - at {
        if let Some(n) = seven_digits(text, at) {
            return Some(n);
        }
    }
    digits(text, at, b',')
}

// A number in front of a comma. Most start with a digit above 0, and have no sign and no zero in front.
pub fn figure_at(text: &[u8], at: usize) -> Option<Number>
    requires { at ≤ length text.now }
    ensures { NumberIs (up_to 44 (drop at text.now)) at result }
{
    if at < text.len() && matches!(text[at], b'1'..=b'9') {
        return positive(digits_to_comma(text, at));
    }
    read_number(text, at, b',')
}

// Up to three digits in front of a comma; any others are tried again.
fn short_digits(text: &[u8], at: usize) -> Option<Natural>
    requires { at + 4 ≤ length text.now }
    ensures { FewAre (up_to 44 (drop at text.now)) at result }
{
    let mut v: u64 = 0;
    for i in at..at + 3 {
        let b = text[i];
        match b {
            b'0'..=b'9' => {
                v = v * 10 + u64::from(b - 48);
                if text[i + 1] == b',' {
                    return Some(Natural {
                        value: v,
                        end: i + 1,
                    });
                }
            }
            _ => return None,
        }
    }
    None
}

// A number of up to three digits in front of a comma, with no zero in front; any other is tried again.
pub fn short_number(text: &[u8], at: usize) -> Option<Number>
    requires { at + 4 ≤ length text.now }
    ensures { NumberTried (up_to 44 (drop at text.now)) at result }
{
    let c = text[at];
    match c {
        b'1'..=b'9' => positive(short_digits(text, at)),
        _ => None,
    }
}

// A number in front of a comma or at the text's end: most have up to three digits.
pub fn plain_number(text: &[u8], at: usize) -> Option<Number>
    requires { at ≤ length text.now }
    ensures { NumberIs (up_to 44 (drop at text.now)) at result }
{
    if 4 <= text.len() - at {
        if let Some(n) = short_number(text, at) {
            return Some(n);
        }
    }
    read_number(text, at, b',')
}
