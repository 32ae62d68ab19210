// Whether a text has a `P`, with which every open setting begins.
ghost use Rattle.std.specs.Prelude.{◌≡◌};
ghost use Rattle.text.specs.Opens.{opens};

// Whether a `P` stands in a text.
pub fn has_open(text: &[u8]) -> bool
    ensures { result ≡ opens text.now }
{
    text.contains(&b'P')
}
