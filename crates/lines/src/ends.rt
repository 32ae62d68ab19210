// Where lines end.
ghost use Rattle.std.specs.Prelude.{false, ◌≡◌, ◌+◌, ◌≤◌, drop, length};
ghost use Rattle.lines.specs.Lines.{LineFrom, NoFeed, ends_well, line_of};

// Whether nothing stands behind the last line feed.
pub fn ended(input: &[u8]) -> bool
    ensures { result ≡ ends_well input.now }
{
    if input.len() == 0 {
        return true;
    }
    input[input.len() - 1] == b'\n'
}

// Whether a line feed stands among the 32 bytes from a place on. All are looked at, so that several are at a time.
fn feed_in_32(input: &[u8], at: usize) -> bool
    requires { at + 32 ≤ length input.now }
    ensures { result ≡ false → NoFeed input.now at 32 }
{
    let mut found = false;
    for k in 0..32 {
        found = found | (input[at + k] == b'\n');
    }
    found
}

// A place from which on the line goes on as from a byte: 32 bytes at a time are passed.
// A `while`: `chunks_exact` gives the parts, and the place, which is asked for, would be counted beside them.
fn passed(input: &[u8], at: usize) -> usize
    requires { at ≤ length input.now }
    ensures { LineFrom input.now at result }
{
    let mut i = at;
    while 32 <= input.len() - i {
        if feed_in_32(input, i) {
            return i;
        }
        i += 32;
    }
    i
}

// The place behind the line that begins at a byte.
pub fn line_end(input: &[u8], at: usize) -> usize
    requires { at ≤ length input.now }
    ensures { result ≡ at + length (line_of (drop at input.now)) }
{
    for i in passed(input, at)..input.len() {
        if input[i] == b'\n' {
            return i;
        }
    }
    input.len()
}
