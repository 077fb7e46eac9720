//! Numbers as a journal writes them.
ghost use Rattle.std.specs.Prelude.{◌≡◌};
ghost use Rattle.gibzurg.specs.Numbers.{number_of};

/// A decimal number below 2^32, with no sign.
pub(crate) fn number(word: &str) -> Option<u32>
    ensures { result ≡ number_of word.now }
{
    if word.starts_with('+') {
        return None;
    }
    word.parse::<u32>().ok()
}
