// How many nodes a text can have: each has a letter of its own.
ghost use Rattle.std.specs.Prelude.{◌≡◌, ◌+◌, ◌≤◌, leb, drop, length, cond};
ghost use Rattle.language.specs.Text.Number.{byte};
ghost use Rattle.text.specs.Room.{letters_in};

// 1 for a letter.
fn count_of(b: u8) -> u8
    ensures { result ≡ cond (leb (byte "A") b) 1 0 }
{
    u8::from(b'A' <= b)
}

// The letters among so few bytes that a byte counts them: the compiler then looks at sixteen at a time.
fn letters_among(part: &[u8]) -> u8
    requires { length part.now ≤ 255 }
    ensures { result ≡ letters_in part.now }
{
    let mut found = 0u8;
    for b in part {
        found += count_of(*b);
    }
    found
}

// The letters of a text.
fn letters(text: &[u8]) -> usize
    ensures { result ≡ letters_in text.now }
{
    let parts = text.chunks_exact(224);
    let rest = parts.remainder();
    let mut found: usize = 0;
    for part in parts {
        found += usize::from(letters_among(part));
    }
    found + usize::from(letters_among(rest))
}

// As many letters as a text has, at least. A long text is not looked at: it has no more than bytes.
pub fn letters_at_most(text: &[u8]) -> usize
    ensures { letters_in text.now ≤ result }
{
    if 1024 < text.len() {
        return text.len();
    }
    letters(text)
}
