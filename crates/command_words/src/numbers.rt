//! Numbers, as texts.
ghost use Rattle.std.specs.Prelude.{◌≡◌};
ghost use Rattle.command_words.specs.Words.{number_in};

/// The number that the text is, as Rust reads a `u64`: digits, with leading zeros and a leading `+` if need be.
pub fn number(text: &str) -> Option<u64>
    ensures { result ≡ number_in text.now }
{
    text.parse::<u64>().ok()
}
