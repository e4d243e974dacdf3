//! Numbers that words stand for.
#![tactic(auto)]

ghost use Rattle.std.specs.Prelude.{◌≡◌};
ghost use Rattle.std.specs.Str.{all_ascii_digits};
ghost use Rattle.command_words.specs.Numbers.{count_word, is_digits, number_word};

/// The most digits of a number. Zeros may lead.
const MOST_DIGITS: usize = 10;

/// The most lines of a generated script.
const MOST_LINES: u32 = 32_768;

/// Whether all octets are decimal digits.
fn are_digits(octets: &[u8]) -> bool
    ensures value { result ≡ all_ascii_digits octets.now }
{
    for octet in octets {
        if !octet.is_ascii_digit() {
            return false;
        }
    }
    true
}

/// Whether a word has 1 to 10 decimal digits, and nothing else.
fn is_digits(word: &[u8]) -> bool
    ensures value { result ≡ is_digits word.now }
{
    word.len() >= 1 && word.len() <= MOST_DIGITS && are_digits(word)
}

/// The number of 32 bits that a word of 1 to 10 decimal digits writes; None where the word is no such number.
pub fn number(word: &str) -> Option<u32>
    ensures value { result ≡ number_word word.now }
{
    if is_digits(word.as_bytes()) {
        word.parse::<u32>().ok()
    } else {
        None
    }
}

/// The number of lines that a word writes, 1 to 32,768.
pub fn count(word: &str) -> Option<u32>
    ensures value { result ≡ count_word word.now }
{
    match number(word) {
        Some(count) if count >= 1 && count <= MOST_LINES => Some(count),
        _ => None,
    }
}
