// The words on the command line.
ghost use Rattle.std.specs.Prelude.{◌≡◌, ◌<◌, ℕ, None, Some, OnSome, IfSome, map, option_map, string_bytes};
ghost use Rattle.std.specs.Char.{is_ascii_digit};
ghost use Rattle.std.specs.List.{list_all};
ghost use Rattle.av1_program.specs.Words.{is_number, number_named, word_named, word_of, word_with};

/// What the program is asked for.
#[derive(Clone, Copy)]
pub enum Word {
    /// The unit's bytes in hex digits, and its report as text.
    Write,

    /// The unit's bytes, and its report beside them.
    Raw,

    /// A summary of the unit that this number makes, which is below 1,000,000.
    Make(u32),
}

/// The only word, if it is one that the program knows, or `make` and its number.
#[tactic(auto, using(crate::proofs::FewWords::one_word, crate::proofs::FewWords::two_words, crate::proofs::FewWords::other_words))]
pub fn word_of(words: &[String]) -> Option<Word>
    ensures value { result ≡ word_of (map string_bytes words.now) }
    ensures below { (n : ℕ) → result ≡ Some (Word.Make n) → n < 1000000 }
{
    match words {
        [word] => word_named(word.as_str()),
        [word, number] => word_with(word.as_str(), number.as_str()),
        _ => None,
    }
}

fn word_named(name: &str) -> Option<Word>
    ensures value { result ≡ word_named name.now }
    ensures below { (n : ℕ) → result ≡ Some (Word.Make n) → n < 1000000 }
{
    match name {
        "write" => Some(Word::Write),
        "raw" => Some(Word::Raw),
        _ => None,
    }
}

fn word_with(name: &str, number: &str) -> Option<Word>
    ensures value { result ≡ word_with name.now number.now }
    ensures below { (n : ℕ) → result ≡ Some (Word.Make n) → n < 1000000 }
{
    if name != "make" {
        return None;
    }
    match number_named(number) {
        Some(n) => Some(Word::Make(n)),
        None => None,
    }
}

fn are_digits(text: &[u8]) -> bool
    ensures { result ≡ list_all is_ascii_digit text.now }
{
    text.iter().all(|byte| byte.is_ascii_digit())
}

// One to six digits, of which the first is 0 only where it is the only one.
#[tactic(auto, using(crate::proofs::Numbers::one_digit, crate::proofs::Numbers::more_digits, crate::proofs::Numbers::zero_first, crate::proofs::Numbers::no_number))]
fn is_number(text: &[u8]) -> bool
    ensures { result ≡ is_number text.now }
{
    match text.len() {
        1 => are_digits(text),
        2..=6 => text[0] != b'0' && are_digits(text),
        _ => false,
    }
}

fn number_named(text: &str) -> Option<u32>
    ensures value { result ≡ number_named text.now }
    ensures below { IfSome result (λ n. n < 1000000) }
{
    if is_number(text.as_bytes()) {
        text.parse().ok()
    } else {
        None
    }
}
