// What a program may write of a buffer.
#![tactic(auto)]

ghost use Rattle.io.specs.Counts.{IsPrefixLen};

// As many bytes as the text has, at most.
pub fn within(bytes: usize, text: &[u8]) -> usize
    ensures { IsPrefixLen result text.now }
{
    if bytes < text.len() {
        bytes
    } else {
        text.len()
    }
}
