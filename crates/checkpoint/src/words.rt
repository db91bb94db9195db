//! Words at the start and the end of a text.

ghost use Rattle.std.specs.Prelude.{◌≡◌, ◌+◌, length, option_map, IfSome};
ghost use Rattle.checkpoint.specs.Readers.{after_word, before_word};

/// What follows a word at the start of a text.
pub fn after_word<'a>(text: &'a [u8], word: &[u8]) -> Option<&'a [u8]>
    ensures value { option_map (λ x. x.now) result ≡ after_word word.now text.now }
    ensures shorter { IfSome result (λ x. length x.now + length word.now ≡ length text.now) }
{
    text.strip_prefix(word)
}

/// What stands before a word at the end of a text.
pub fn before_word<'a>(text: &'a [u8], word: &[u8]) -> Option<&'a [u8]>
    ensures { option_map (λ x. x.now) result ≡ before_word word.now text.now }
{
    text.strip_suffix(word)
}
