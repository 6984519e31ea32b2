//! Dots at the end of a name.

ghost use Rattle.std.specs.Prelude.{◌≡◌, reverse};
ghost use Rattle.rd_operands.specs.FileNames.{skip_dots, without_dots as without_dots_of};

/// Bytes without the dots at their end.
pub(crate) fn without_dots(mut bytes: &[u8]) -> &[u8]
    ensures { result.now ≡ without_dots_of bytes.now }
{
    while let [rest @ .., last] = bytes
        && *last == b'.'
    {
        bytes = rest;
    }
    bytes
}
