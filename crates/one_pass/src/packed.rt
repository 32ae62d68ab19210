// What was read, as one number: 1048576 times a magnitude, 1024 times months, and the byte behind it.
ghost use Rattle.std.specs.Prelude.{◌≡◌, ◌+◌, ◌*◌, ◌<◌, max, min, leb};
ghost use Rattle.language.specs.Limits.{max_amount};
ghost use Rattle.one_pass.specs.Packed.{JoinedIs, JoinedTo, PackedIs, behind, magnitude_in, months_in};

use measures::{first, limit};

// The number for a magnitude beyond the limit: it tells nothing.
pub const UNSURE: u64 = 9_437_184_000_001_048_576;

// Whether a number tells of something that was read and keeps the rules.
pub fn is_kept(r: u64) -> bool
    ensures { result ≡ leb (magnitude_in r) max_amount }
{
    limit::is_within(r / 1048576)
}

// The byte behind what was read.
pub fn place(r: u64) -> usize
    ensures { result ≡ behind r }
{
    (r % 1024) as usize
}

// The magnitude of what was read.
pub fn magnitude(r: u64) -> u64
    ensures { result ≡ magnitude_in r }
{
    r / 1048576
}

// Its months.
pub fn months(r: u64) -> u64
    ensures { result ≡ months_in r }
{
    r / 1024 % 1024
}

// The number for these three, where the magnitude is within the limit.
pub fn number_for(magnitude: u64, months: u64, next: u64) -> u64
    requires { (months < 1024) × (next < 1024) }
    ensures { PackedIs magnitude months next result }
{
    if limit::is_within(magnitude) {
        return magnitude * 1048576 + months * 1024 + next;
    }
    UNSURE
}

// ---- two parts, y behind x

// As one with this magnitude and these months.
fn joined(x: u64, y: u64, magnitude: u64, months: u64) -> u64
    requires { months < 1024 }
    ensures { JoinedTo magnitude months x y result }
{
    if is_kept(x) & is_kept(y) {
        return number_for(magnitude, months, y % 1024);
    }
    UNSURE
}

// Two amounts added.
pub fn summed(x: u64, y: u64) -> u64
    ensures { JoinedIs ◌+◌ max x y result }
{
    joined(
        x,
        y,
        x / 1048576 + y / 1048576,
        first::later_of(months(x), months(y)),
    )
}

// Two amounts multiplied.
pub fn multiplied(x: u64, y: u64) -> u64
    ensures { JoinedIs ◌*◌ max x y result }
{
    let m = limit::product_of(x / 1048576, y / 1048576);
    joined(x, y, m, first::later_of(months(x), months(y)))
}

// The one amount or the other.
pub fn greater(x: u64, y: u64) -> u64
    ensures { JoinedIs max max x y result }
{
    joined(
        x,
        y,
        first::later_of(x / 1048576, y / 1048576),
        first::later_of(months(x), months(y)),
    )
}

// What a test compares, or two tests.
pub fn tested(x: u64, y: u64) -> u64
    ensures { JoinedIs (λ m n. 0) max x y result }
{
    joined(x, y, 0, first::later_of(months(x), months(y)))
}

// A plan times an amount.
pub fn scaled(x: u64, y: u64) -> u64
    ensures { JoinedIs ◌*◌ (λ m n. n) x y result }
{
    let m = limit::product_of(x / 1048576, y / 1048576);
    joined(x, y, m, months(y))
}

// Two plans at once.
pub fn added(x: u64, y: u64) -> u64
    ensures { JoinedIs ◌+◌ min x y result }
{
    joined(
        x,
        y,
        x / 1048576 + y / 1048576,
        first::sooner_of(months(x), months(y)),
    )
}

// The one plan or the other.
pub fn either(x: u64, y: u64) -> u64
    ensures { JoinedIs max min x y result }
{
    joined(
        x,
        y,
        first::later_of(x / 1048576, y / 1048576),
        first::sooner_of(months(x), months(y)),
    )
}
