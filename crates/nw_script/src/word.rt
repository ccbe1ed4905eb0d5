//! The words of a line.
ghost use Rattle.std.specs.Prelude.{◌≡◌, ◌<◌, ◌^◌, ◌↔◌, ℕ, Some, IsSome, IfSome, IsTrue};
ghost use Rattle.std.specs.Fmt.{decimal};
ghost use Rattle.std.specs.List.{AllPass};
ghost use Rattle.nw_script.specs.Word.{IsName, IsPlain, IsWord, is_word_byte};

use std::fmt;

/// The largest number of bytes of a name.
const LONGEST_NAME: usize = 16;
/// The largest number of bytes of a transaction's word.
const LONGEST_TRANSACTION: usize = 64;

/// A name: 1 to 16 bytes from `a` to `z` and `0` to `9`, the first a letter.
#[derive(Clone, Copy, Debug, PartialEq, Eq, PartialOrd, Ord)]
pub struct Name<'a> {
    text: &'a str,
}

impl<'a> Name<'a> {
    /// The word as a name, or `None` if it is not a name.
    pub fn new(word: &'a str) -> Option<Name<'a>>
        ensures found { IsSome result ↔ IsName word.now }
        ensures value { IfSome result (λ name. name.text.now ≡ word.now) }
    {
        is_name(word.as_bytes()).then_some(Name { text: word })
    }

    /// The name as a string.
    pub fn as_str(&self) -> &'a str
        ensures { result.now ≡ self.now.text.now }
    {
        self.text
    }
}

impl fmt::Display for Name<'_> {
    fn fmt<W: fmt::Write>(&self, f: &mut fmt::Formatter<W>) -> fmt::Result {
        f.write_str(self.text)
    }
}

fn is_name(word: &[u8]) -> bool
    ensures { IsTrue result ↔ IsName word.now }
{
    is_word(word, LONGEST_NAME) && word[0].is_ascii_lowercase()
}

/// The word, if it is a transaction: 1 to 64 bytes from `a` to `z` and `0` to `9`. `None` if it is not.
pub fn transaction(word: &str) -> Option<&str>
    ensures found { IsSome result ↔ IsWord 64 word.now }
    ensures value { IfSome result (λ bytes. bytes.now ≡ word.now) }
{
    is_word(word.as_bytes(), LONGEST_TRANSACTION).then_some(word)
}

// Whether the word has 1 to `most` bytes, all letters or digits.
fn is_word(word: &[u8], most: usize) -> bool
    ensures { IsTrue result ↔ IsWord most word.now }
{
    !word.is_empty() && word.len() <= most && are_word_bytes(word)
}

fn are_word_bytes(bytes: &[u8]) -> bool
    ensures { IsTrue result ↔ AllPass is_word_byte bytes.now }
{
    bytes
        .iter()
        .all(|byte| byte.is_ascii_lowercase() || byte.is_ascii_digit())
}

/// The decimal number in the word, or `None` if it has leading zeros, is 2^64 or larger, or is not a number.
pub fn number(word: &str) -> Option<u64>
    ensures spelled { IfSome result (λ n. word.now ≡ decimal n) }
    ensures found { (n : ℕ) → n < 2 ^ 64 → word.now ≡ decimal n → result ≡ Some n }
{
    if is_plain(word.as_bytes()) {
        word.parse().ok()
    } else {
        None
    }
}

/// The decimal number in the word, or `None` if it has leading zeros, is 2^16 or larger, or is not a number.
pub fn number_u16(word: &str) -> Option<u16>
    ensures spelled { IfSome result (λ n. word.now ≡ decimal n) }
    ensures found { (n : ℕ) → n < 2 ^ 16 → word.now ≡ decimal n → result ≡ Some n }
{
    u16::try_from(number(word)?).ok()
}

/// The decimal number in the word, or `None` if it has leading zeros, is 2^32 or larger, or is not a number.
pub fn number_u32(word: &str) -> Option<u32>
    ensures spelled { IfSome result (λ n. word.now ≡ decimal n) }
    ensures found { (n : ℕ) → n < 2 ^ 32 → word.now ≡ decimal n → result ≡ Some n }
{
    u32::try_from(number(word)?).ok()
}

// Whether the word has neither a plus sign nor leading zeros, which `parse` would accept.
fn is_plain(word: &[u8]) -> bool
    ensures { IsTrue result ↔ IsPlain word.now }
{
    !word.is_empty() && word[0] != b'+' && (word[0] != b'0' || word.len() == 1)
}
