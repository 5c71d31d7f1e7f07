ghost use Rattle.std.specs.Prelude.{◌≡◌};
ghost use Rattle.label.specs.Tags.{deletion};

// A part that is one space alone deletes.
pub fn is_deletion(part: &[u8]) -> bool
    ensures { result ≡ deletion part.now }
{
    part == b" ".as_slice()
}
