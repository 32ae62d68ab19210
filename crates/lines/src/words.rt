// A line's first word.
ghost use Rattle.std.specs.Prelude.{◌≡◌, ◌==◌, position};
ghost use Rattle.fields.specs.Positions.{up_to};
ghost use Rattle.language.specs.Sheet.{same_bytes};

// Where the first comma of a line stands.
fn first_comma(line: &[u8]) -> Option<usize>
    ensures { result ≡ position (λ b. b == 44) line.now }
{
    line.iter().position(|b| *b == b',')
}

// Whether the first field of a line is this word. No more is looked at than the word and the comma behind it: a line may be long.
pub fn has_word(line: &[u8], word: &[u8]) -> bool
    ensures { result ≡ same_bytes (up_to 44 line.now) word.now }
{
    let front = &line[..line.len().min(word.len() + 1)];
    let end = first_comma(front).unwrap_or(front.len());
    &front[..end] == word
}
