//! A word as text: decimal digits without a leading zero.
ghost use Rattle.std.specs.Prelude.{◌≡◌, ℕ, ◌≤◌, ◌∷◌, [], length, Some, decimal};
ghost use Rattle.text.specs.Parts.{put};
ghost use Rattle.text.specs.Words.{Spells, digits_in, word_in};

use itoa::Buffer;

// One digit more behind `word`, where the byte is a digit and the number stays a word.
fn add_digit(word: u32, byte: u8) -> Option<u32>
    ensures { result ≡ digits_in word (byte ∷ []) }
{
    match byte {
        b'0'..=b'9' => word.checked_mul(10)?.checked_add(u32::from(byte - b'0')),
        _ => None,
    }
}

fn digits_value(digits: &[u8]) -> Option<u32>
    ensures { result ≡ digits_in 0 digits.now }
{
    let mut word = 0;
    for byte in digits {
        word = add_digit(word, *byte)?;
    }
    Some(word)
}

/// The word that the text spells, if it spells one.
pub fn parse_word(text: &[u8]) -> Option<u32>
    ensures value { result ≡ word_in text.now }
    ensures exactly { (n : ℕ) → (result ≡ Some n → Spells text.now n) × (Spells text.now n → result ≡ Some n) }
{
    match text {
        [] | [b'0', _, ..] => None,
        _ => digits_value(text),
    }
}

/// How many digits the word has.
pub fn word_len(word: u32) -> usize
    ensures value { result ≡ length (decimal word) }
    ensures bound { result ≤ 10 }
{
    Buffer::new().format(word).len()
}

// Bytes written at a place, if they have room there.
fn put_bytes(bytes: &[u8], text: &mut [u8], place: usize) -> Option<usize>
    ensures { (result, text.new) ≡ put bytes.now text.old place }
{
    let end = place.checked_add(bytes.len())?;
    if end > text.len() {
        return None;
    }
    text[place..end].copy_from_slice(bytes);
    Some(end)
}

// One byte written at a place, if it has room there.
#[tactic(auto, using(crate::proofs::Overwriting::overwritten_one))]
fn put_byte(byte: u8, text: &mut [u8], place: usize) -> Option<usize>
    ensures { (result, text.new) ≡ put (byte ∷ []) text.old place }
{
    if place >= text.len() {
        return None;
    }
    text[place] = byte;
    Some(place + 1)
}

// Words of one digit or two, the commonest, are spelled by hand: to have `itoa` spell them, and to
// copy as many bytes as it answers, takes up to three times as long.
#[tactic(auto, using(crate::proofs::Decimals::one_digit, crate::proofs::Decimals::two_digits))]
fn put_word(word: u32, text: &mut [u8], place: usize) -> Option<usize>
    ensures { (result, text.new) ≡ put (decimal word) text.old place }
{
    match word {
        0..=9 => put_byte(b'0' + word as u8, text, place),
        10..=99 => {
            let digits = [b'0' + (word / 10) as u8, b'0' + (word % 10) as u8];
            put_bytes(&digits, text, place)
        }
        _ => put_bytes(Buffer::new().format(word).as_bytes(), text, place),
    }
}

/// Writes the word's digits at a place: the place after them, or nothing where they do not fit.
pub fn write_word(word: u32, text: &mut [u8], place: usize) -> Option<usize>
    ensures all { (result, text.new) ≡ put (decimal word) text.old place }
    ensures digits { Spells (decimal word) word }
{
    put_word(word, text, place)
}
