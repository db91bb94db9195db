//! The first look at the arguments, before `clap` reads them.
ghost use Rattle.std.specs.Prelude.{◌≡◌, map, drop, string_bytes};
ghost use Rattle.std.specs.List.{list_any};
ghost use Rattle.command_words.specs.Words.{has_empty_value, is_empty_option, is_refused_first};

/// Whether the first `=` of the text is its last byte.
#[tactic(auto, using(std::proofs::lemmas::List::drop_more))]
fn has_empty_value(text: &[u8]) -> bool
    ensures { result ≡ has_empty_value text.now }
{
    for (index, byte) in text.iter().enumerate() {
        if *byte == b'=' {
            return text[index + 1..].is_empty();
        }
    }
    false
}

/// Whether the argument begins with `--` and its first `=` is its last byte.
fn is_empty_option(word: &str) -> bool
    ensures { result ≡ is_empty_option word.now }
{
    match word.as_bytes() {
        [b'-', b'-', rest @ ..] => has_empty_value(rest),
        _ => false,
    }
}

/// Whether the argument is empty, `-`, `--`, or an option with nothing after its `=`.
fn is_refused_word(word: &str) -> bool
    ensures { result ≡ is_refused_first word.now }
{
    word.is_empty() || word == "-" || word == "--" || is_empty_option(word)
}

/// Whether an argument after the first is refused before `clap` reads.
pub(crate) fn has_refused_word(words: &[String]) -> bool
    ensures { result ≡ list_any (λ w. is_refused_first (string_bytes w)) (drop 1 words.now) }
{
    words
        .iter()
        .skip(1)
        .any(|word| is_refused_word(word.as_str()))
}
