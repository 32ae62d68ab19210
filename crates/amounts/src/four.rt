// An amount, and whether a test holds, in four months in a row: each month by itself.
ghost use Rattle.std.specs.Prelude.{◌≡◌, ◌&&◌, ◌||◌, cond, not, ℕ, ◌<◌, ◌*ℤ◌, ◌+ℤ◌, ◌-ℤ◌};
ghost use Rattle.std.specs.Int.Signed.{lt_z};
ghost use Rattle.integers.specs.Bounded.{Small};
ghost use Rattle.integers.specs.Equal.{eq_z};
ghost use Rattle.amounts.specs.FourMonths.{held_in, pence_in};

use integers::Pence;

#[derive(Clone, Copy)]
pub struct Four {
    pub a: Pence,
    pub b: Pence,
    pub c: Pence,
    pub d: Pence,
}

#[derive(Clone, Copy)]
pub struct Held {
    pub a: bool,
    pub b: bool,
    pub c: bool,
    pub d: bool,
}

pub fn plus(x: Four, y: Four) -> Four
    requires { (k : ℕ) → k < 4 → Small (pence_in x k +ℤ pence_in y k) }
    ensures { (k : ℕ) → k < 4 → pence_in result k ≡ pence_in x k +ℤ pence_in y k }
{
    Four {
        a: integers::plus(x.a, y.a),
        b: integers::plus(x.b, y.b),
        c: integers::plus(x.c, y.c),
        d: integers::plus(x.d, y.d),
    }
}

pub fn minus(x: Four, y: Four) -> Four
    requires { (k : ℕ) → k < 4 → Small (pence_in x k -ℤ pence_in y k) }
    ensures { (k : ℕ) → k < 4 → pence_in result k ≡ pence_in x k -ℤ pence_in y k }
{
    Four {
        a: integers::minus(x.a, y.a),
        b: integers::minus(x.b, y.b),
        c: integers::minus(x.c, y.c),
        d: integers::minus(x.d, y.d),
    }
}

pub fn times(x: Four, y: Four) -> Four
    requires { (k : ℕ) → k < 4 → Small (pence_in x k *ℤ pence_in y k) }
    ensures { (k : ℕ) → k < 4 → pence_in result k ≡ pence_in x k *ℤ pence_in y k }
{
    Four {
        a: integers::times(x.a, y.a),
        b: integers::times(x.b, y.b),
        c: integers::times(x.c, y.c),
        d: integers::times(x.d, y.d),
    }
}

pub fn less(x: Four, y: Four) -> Held
    ensures { (k : ℕ) → k < 4 → held_in result k ≡ lt_z (pence_in x k) (pence_in y k) }
{
    Held {
        a: integers::less(x.a, y.a),
        b: integers::less(x.b, y.b),
        c: integers::less(x.c, y.c),
        d: integers::less(x.d, y.d),
    }
}

pub fn equal(x: Four, y: Four) -> Held
    ensures { (k : ℕ) → k < 4 → held_in result k ≡ eq_z (pence_in x k) (pence_in y k) }
{
    Held {
        a: integers::equal(x.a, y.a),
        b: integers::equal(x.b, y.b),
        c: integers::equal(x.c, y.c),
        d: integers::equal(x.d, y.d),
    }
}

pub fn both(s: Held, t: Held) -> Held
    ensures { (k : ℕ) → k < 4 → held_in result k ≡ (held_in s k && held_in t k) }
{
    Held {
        a: s.a & t.a,
        b: s.b & t.b,
        c: s.c & t.c,
        d: s.d & t.d,
    }
}

pub fn either(s: Held, t: Held) -> Held
    ensures { (k : ℕ) → k < 4 → held_in result k ≡ (held_in s k || held_in t k) }
{
    Held {
        a: s.a | t.a,
        b: s.b | t.b,
        c: s.c | t.c,
        d: s.d | t.d,
    }
}

pub fn opposite(t: Held) -> Held
    ensures { (k : ℕ) → k < 4 → held_in result k ≡ not (held_in t k) }
{
    Held {
        a: !t.a,
        b: !t.b,
        c: !t.c,
        d: !t.d,
    }
}

fn choice(t: bool, x: Pence, y: Pence) -> Pence
    ensures { result.0 ≡ cond t x.0 y.0 }
{
    if t {
        return x;
    }
    y
}

// The first where the test holds, else the second.
pub fn chosen(t: Held, x: Four, y: Four) -> Four
    ensures { (k : ℕ) → k < 4 → pence_in result k ≡ cond (held_in t k) (pence_in x k) (pence_in y k) }
{
    Four {
        a: choice(t.a, x.a, y.a),
        b: choice(t.b, x.b, y.b),
        c: choice(t.c, x.c, y.c),
        d: choice(t.d, x.d, y.d),
    }
}
