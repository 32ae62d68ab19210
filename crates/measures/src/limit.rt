// A magnitude as one number: itself where it is within the limit, else one more than the limit. Two of them joined.
ghost use Rattle.std.specs.Prelude.{◌≡◌, cond, ◌+◌, ◌*◌, ◌≤◌, max, min, leb};
ghost use Rattle.language.specs.Limits.{max_amount};
ghost use Rattle.measures.specs.Magnitudes.{beyond, joined};

const LIMIT: u64 = 9_000_000_000_000;

// What stands for every magnitude that is beyond the limit.
pub const BEYOND: u64 = 9_000_000_000_001;

// Whether a magnitude is within the limit.
pub fn is_within(a: u64) -> bool
    ensures { result ≡ leb a max_amount }
{
    a <= LIMIT
}

// Beyond for every magnitude that is.
pub fn capped(a: u64) -> u64
    ensures { result ≡ min a beyond }
{
    a.min(BEYOND)
}

// Two magnitudes added.
pub fn sum_of(a: u64, b: u64) -> u64
    requires { (a ≤ beyond) × (b ≤ beyond) }
    ensures { result ≡ joined ◌+◌ a b }
{
    (a + b).min(BEYOND)
}

// Decided by a division: the product of two magnitudes may not fit.
pub fn product_of(a: u64, b: u64) -> u64
    ensures { result ≡ joined ◌*◌ a b }
{
    if LIMIT < a {
        return BEYOND;
    }
    if LIMIT < b {
        return BEYOND;
    }
    if b == 0 {
        return 0;
    }
    if LIMIT / b < a {
        return BEYOND;
    }
    a * b
}

// The greater of two magnitudes where a test is small, else beyond.
pub fn greater_where(small: bool, a: u64, b: u64) -> u64
    requires { (a ≤ beyond) × (b ≤ beyond) }
    ensures { result ≡ cond small (joined max a b) beyond }
{
    if small {
        return a.max(b);
    }
    BEYOND
}
