// A line's numbers copied from the line before: between two payments each month has the same.
ghost use Rattle.std.specs.Prelude.{◌≡◌, true, ◌+◌, ◌-◌, ◌<◌, ◌≤◌, drop, length, take};
ghost use Rattle.std.proofs.lemmas.List.Edits.{sets};
ghost use Rattle.integers.specs.Equal.{eq_z};
ghost use Rattle.writer.specs.Put.{Put};
ghost use Rattle.writer.specs.Written.{slot};

// Whether a list has the number of the month before again.
fn repeats(list: &[i64], m: usize) -> bool
    requires { (0 < m) × (m < length list.now) }
    ensures { result ≡ eq_z (slot list.now m) (slot list.now (m - 1)) }
{
    let a = list[m];
    let b = list[m - 1];
    a == b
}

// Whether a month has the numbers of the one before it, and they are long: copied they are written sooner.
pub fn is_again(column: &[i64], rest: &[i64], m: usize, long: usize) -> bool
    requires { (m < length column.now) × (m < length rest.now) }
    ensures { result ≡ true → (0 < m) × (8 ≤ long) × (slot column.now m ≡ slot column.now (m - 1)) × (slot rest.now m ≡ slot rest.now (m - 1)) }
{
    if 0 < m {
        if 8 <= long {
            if repeats(column, m) {
                return repeats(rest, m);
            }
        }
    }
    false
}

// Copies eight bytes to a place behind them: all are read before one is written, so that they move at once.
fn copy_eight(out: &mut [u8], from: usize, to: usize)
    requires { (from + 8 ≤ to) × (to + 8 ≤ length out.old) }
    ensures { out.new ≡ sets out.old to (take 8 (drop from out.old)) }
{
    let b0 = out[from];
    let b1 = out[from + 1];
    let b2 = out[from + 2];
    let b3 = out[from + 3];
    let b4 = out[from + 4];
    let b5 = out[from + 5];
    let b6 = out[from + 6];
    let b7 = out[from + 7];
    out[to] = b0;
    out[to + 1] = b1;
    out[to + 2] = b2;
    out[to + 3] = b3;
    out[to + 4] = b4;
    out[to + 5] = b5;
    out[to + 6] = b6;
    out[to + 7] = b7;
}

// Copies n bytes to a place behind them, one after the other.
fn copy_bytes(out: &mut [u8], from: usize, to: usize, n: usize) -> usize
    requires { (from + n ≤ to) × (to + n ≤ length out.old) }
    ensures { Put out.old out.new to result (take n (drop from out.old)) }
{
    for i in 0..n {
        out[to + i] = out[from + i];
    }
    to + n
}

// Copies n bytes to a place behind them. Up to 16 are the first eight and the last eight.
pub fn put_again(out: &mut [u8], from: usize, to: usize, n: usize) -> usize
    requires { (from + n ≤ to) × (to + n ≤ length out.old) × (8 ≤ n) }
    ensures { Put out.old out.new to result (take n (drop from out.old)) }
{
    if 16 < n {
        return copy_bytes(out, from, to, n);
    }
    let rest = n - 8;
    copy_eight(out, from, to);
    copy_eight(out, from + rest, to + rest);
    to + n
}
