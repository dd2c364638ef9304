//! Texts, compared.
ghost use Rattle.std.specs.Prelude.{◌≡◌, bytes_eq};

/// Whether the text is spelled so.
pub fn is(text: &[u8], spelling: &[u8]) -> bool
    ensures { result ≡ bytes_eq text.now spelling.now }
{
    text == spelling
}
