//! The words of a line: its name, and the numbers behind it. They are cut out first, whatever the name is.
//! Then a table says which name with how many numbers is which command. That a line is unread then follows
//! from one lemma, which says that a line determines its words. No case is needed for each pair of
//! commands.
ghost use Rattle.std.specs.Prelude.{◌≡◌, ◌≢◌, ◌↔◌, ℕ, ◌^◌, ◌<◌, ◌≤◌, List, ◌∷◌, length, slice_index, decimal, IsTrue, IfSome, IfNone};
ghost use Rattle.rom_text.specs.Phrases.{NumbersFit, IsPlain, line_words, number_within, phrase_words, words_behind};

use arrayvec::ArrayVec;
use memchr::memchr;

/// The greatest number of numbers in a line.
const MAX_NUMBERS: usize = 3;

/// The words of a line that may ask for something.
#[derive(Drop)]
pub struct Phrase<'a> {
    /// The first word.
    pub name: &'a [u8],
    /// The words behind it.
    pub numbers: ArrayVec<u64, MAX_NUMBERS>,
}

/// How many bytes stand before the first such byte, or all where there is none.
pub fn len_before(byte: u8, bytes: &[u8]) -> usize
    ensures within { result ≤ length bytes.now }
    ensures before { (k : ℕ) → k < result → slice_index bytes.now k ≢ byte }
    ensures found { result < length bytes.now → slice_index bytes.now result ≡ byte }
{
    memchr(byte, bytes).unwrap_or(bytes.len())
}

/// Whether they do not begin with a plus, nor with a zero before more bytes.
fn is_plain(digits: &[u8]) -> bool
    ensures { IsTrue result ↔ IsPlain digits.now }
{
    !matches!(digits, [b'+', ..] | [b'0', _, ..])
}

/// The number that the digits spell, without sign and without leading zero.
pub fn read_number(digits: &[u8]) -> Option<u64>
    ensures found { IfSome result (λ n. digits.now ≡ decimal n) }
    // Where it is `None`, the digits spell no number below 2^64.
    ensures none { IfNone result ((n : ℕ) → n < 2 ^ 64 → digits.now ≢ decimal n) }
{
    if digits.is_empty() || !is_plain(digits) {
        return None;
    }
    let mut number: u64 = 0;
    for digit in digits {
        let value = digit.wrapping_sub(b'0');
        if value > 9 {
            return None;
        }
        number = number.checked_mul(10)?.checked_add(u64::from(value))?;
    }
    Some(number)
}

/// The number from `least` to `most` that a word spells, without sign and without leading zero.
pub fn read_within(word: &str, least: u64, most: u64) -> Option<u64>
    ensures number { result ≡ number_within least most word.now }
    ensures within { IfSome result (λ n. (least ≤ n) × (n ≤ most)) }
{
    let number = read_number(word.as_bytes())?;
    if (least..=most).contains(&number) {
        Some(number)
    } else {
        None
    }
}

/// The first word of a line, and what stands behind it.
fn first_word(line: &[u8]) -> (&[u8], &[u8])
    ensures words { line_words line.now ≡ result.0.now ∷ words_behind result.1.now }
    ensures less { length result.1.now ≤ length line.now }
{
    let mut len = 0;
    while len < line.len() && line[len] != b' ' {
        len += 1;
    }
    line.split_at(len)
}

/// The words of a line, or `None` where one behind the first is no number or there are more than
/// three of these.
#[inline(always)]
pub fn read_phrase(line: &[u8]) -> Option<Phrase<'_>>
    // Where it is `Some`, the words of the line are the name, and then the numbers in digits.
    ensures words { IfSome result (λ p.
        line_words line.now ≡ phrase_words p.name.now p.numbers.items) }
    ensures fit { IfSome result (λ p. NumbersFit p.numbers.items) }
    // Where it is `None`, the line is not a word with at most three numbers below 2^64 behind it.
    ensures none { IfNone result ((name numbers : List ℕ) →
        length numbers ≤ MAX_NUMBERS → NumbersFit numbers
        → line_words line.now ≢ phrase_words name numbers) }
{
    let (name, mut rest) = first_word(line);
    let mut numbers = ArrayVec::new();
    while let [_, behind @ ..] = rest {
        let (word, more) = first_word(behind);
        let number = read_number(word)?;
        numbers.try_push(number).ok()?;
        rest = more;
    }
    Some(Phrase { name, numbers })
}
