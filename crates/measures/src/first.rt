// The first month in which a plan may pay, as one number, and whether what it reads is known by then.
ghost use Rattle.std.specs.Prelude.{◌≡◌, ◌+◌, ◌≤◌, max, min};
ghost use Rattle.language.specs.Rules.Measures.{First, Latest, from};
ghost use Rattle.language.specs.Rules.Tests.{not_later};
ghost use Rattle.measures.specs.Timing.{FewMonths, first_month, latest_month, never_month};

// What stands for a plan that never pays: a month that no plan reaches.
pub const NEVER: u64 = 1_000_000;

// The greater of two months.
pub fn later_of(a: u64, b: u64) -> u64
    ensures { result ≡ max a b }
{
    a.max(b)
}

// The lesser of two months.
pub fn sooner_of(a: u64, b: u64) -> u64
    ensures { result ≡ min a b }
{
    a.min(b)
}

// Never stays never.
pub fn after_delay(d: u64, a: u64) -> u64
    requires { (d ≤ never_month) × (a ≤ never_month) }
    ensures { result ≡ min (d + a) never_month }
{
    (d + a).min(NEVER)
}

// Whether a latest read is not after the first month.
pub fn in_time(latest: u64, first: u64) -> bool
    ensures { (y : Latest) (x : First) → FewMonths x → latest ≡ latest_month y → first ≡ first_month x → result ≡ not_later y x }
{
    if first == NEVER {
        return true;
    }
    latest <= first
}

// Whether a test's latest read is not after the month in which it is tried.
pub fn tried_in_time(latest: u64) -> bool
    ensures { (y : Latest) → latest ≡ latest_month y → result ≡ not_later y (from 0) }
{
    latest == 0
}
