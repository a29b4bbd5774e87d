//! Bytes as they are written in a line.
ghost use Rattle.std.specs.Prelude.{◌≡◌, ◌≢◌, ◌<◌, ℕ, List, [], ◌∷◌, IfSome, IfNone};
ghost use Rattle.std.specs.List.{flat_map};
ghost use Rattle.rom_blob_region.specs.Texts.{AreBytes, bytes_text, digit_of, digits_of};

use rom_blob_region::Chunk;

/// The greatest number of bytes.
const MOST: usize = 256;

/// The number below 16 that has this digit. Letters are lower-case.
fn digit_value(digit: u8) -> Option<u8>
    ensures some { IfSome result (λ d. (d < 16) × (digit ≡ digit_of d)) }
    ensures none { IfNone result ((d : ℕ) → d < 16 → digit ≢ digit_of d) }
{
    match digit {
        b'0'..=b'9' => Some(digit - b'0'),
        b'a'..=b'f' => Some(digit - b'a' + 10),
        _ => None,
    }
}

/// The byte that has these two digits, the one for the higher four bits first.
fn byte_value(high: u8, low: u8) -> Option<u8>
    ensures some { IfSome result (λ b. digits_of b ≡ high ∷ low ∷ []) }
    ensures none { IfNone result ((b : ℕ) → b < 256 → digits_of b ≢ high ∷ low ∷ []) }
{
    Some(16 * digit_value(high)? + digit_value(low)?)
}

/// The bytes that these digits write. It is `None` too where they are more than 256.
fn read_digits(digits: &[u8]) -> Option<Chunk>
    ensures some { IfSome result (λ bytes. AreBytes bytes × (digits.now ≡ flat_map digits_of bytes)) }
    ensures none { IfNone result ((bytes : List ℕ) → AreBytes bytes
        → digits.now ≢ flat_map digits_of bytes) }
{
    // A loop of our own: `hex` would take upper-case digits, too.
    let mut bytes = [0; MOST];
    let mut len = 0;
    let mut rest = digits;
    while let [high, low, more @ ..] = rest {
        if len == MOST {
            return None;
        }
        bytes[len] = byte_value(*high, *low)?;
        len += 1;
        rest = more;
    }
    if rest.is_empty() {
        Chunk::of(&bytes[..len])
    } else {
        None
    }
}

/// The bytes that are written so.
pub(crate) fn read_bytes(text: &[u8]) -> Option<Chunk>
    ensures some { IfSome result (λ bytes. AreBytes bytes × (text.now ≡ bytes_text bytes)) }
    ensures none { IfNone result ((bytes : List ℕ) → AreBytes bytes → text.now ≢ bytes_text bytes) }
{
    match text {
        [] => None,
        b"-" => Some(Chunk::new()),
        digits => read_digits(digits),
    }
}
