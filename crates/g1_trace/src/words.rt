//! The words of a line, and the numbers that words are.

ghost use Rattle.std.specs.Prelude.{◌≡◌, ◌≢◌, ◌∷◌, ◌≤◌, ◌<◌};
ghost use Rattle.g1_trace.specs.{List, [], length, take, drop, slice_index, true, false, Ok};
ghost use Rattle.g1_trace.specs.{IfSome, IsNone, bytes_eq, words_from, with_word, read_digits};
ghost use Rattle.g1_trace.specs.{read_number, is_remark_word};

use crate::fault::TraceFault;

/// How many digits a number has at most (docs/traces.md, Lines and words).
const DIGIT_LIMIT: usize = 10;

// How many spaces the bytes begin with.
fn spaces(bytes: &[u8]) -> usize
    ensures bound { result ≤ length bytes.now }
    ensures passed { words_from [] (drop result bytes.now) ≡ words_from [] bytes.now }
    ensures word { result < length bytes.now → slice_index bytes.now result ≢ 32 }
{
    for (i, byte) in bytes.iter().enumerate() {
        if *byte != b' ' {
            return i;
        }
    }
    bytes.len()
}

// How many bytes the bytes begin with that are no space.
fn word_len(bytes: &[u8]) -> usize
    ensures bound { result ≤ length bytes.now }
    ensures word { words_from [] bytes.now
        ≡ with_word (take result bytes.now) (words_from [] (drop result bytes.now)) }
    ensures some { 0 < length bytes.now → slice_index bytes.now 0 ≢ 32 → 0 < result }
{
    for (i, byte) in bytes.iter().enumerate() {
        if *byte == b' ' {
            return i;
        }
    }
    bytes.len()
}

/// Returns the first word of a line, a run of bytes other than space, and what comes behind it
/// (docs/traces.md, Lines and words).
///
/// Returns `None` if there is no word. It makes one pass over the word and the spaces before it.
pub fn split_word(line: &[u8]) -> Option<(&[u8], &[u8])>
    ensures some { IfSome result (λ s. words_from [] line.now ≡ s.0.now ∷ words_from [] s.1.now) }
    ensures none { IsNone result → words_from [] line.now ≡ [] }
{
    let rest = line.split_at(spaces(line)).1;
    if rest.is_empty() {
        return None;
    }
    Some(rest.split_at(word_len(rest)))
}

/// Returns whether no word is left.
pub fn is_blank(line: &[u8]) -> bool
    ensures blank { result ≡ true → words_from [] line.now ≡ [] }
    ensures some { result ≡ false → 0 < length (words_from [] line.now) }
{
    split_word(line).is_none()
}

// The value of a word of 1 to 10 decimal digits; any other word is no number (docs/traces.md, Lines
// and words).
fn number(word: &[u8]) -> Result<u64, TraceFault>
    ensures { result ≡ read_number word.now }
{
    if word.is_empty() || word.len() > DIGIT_LIMIT {
        return Err(TraceFault::NotNumber);
    }
    let mut value = 0u64;
    for byte in word {
        if !byte.is_ascii_digit() {
            return Err(TraceFault::NotNumber);
        }
        value = value * 10 + u64::from(*byte - b'0');
    }
    Ok(value)
}

/// Returns how many digits the bytes begin with, of the 10 that a number may have, and their value.
#[inline(always)]
pub fn leading_digits(bytes: &[u8]) -> (usize, u64)
    ensures bound { result.0 ≤ length bytes.now }
    ensures few { result.0 ≤ 10 }
    ensures value { read_digits 0 (take result.0 bytes.now) ≡ Ok result.1 }
    ensures word { words_from [] bytes.now
        ≡ words_from (take result.0 bytes.now) (drop result.0 bytes.now) }
{
    let mut value = 0u64;
    for (i, byte) in bytes.iter().enumerate() {
        if i >= DIGIT_LIMIT || !byte.is_ascii_digit() {
            return (i, value);
        }
        let digit = u64::from(*byte - b'0');
        value = value * 10 + digit;
    }
    (bytes.len(), value)
}

// Whether no word goes on at this place.
#[inline(always)]
fn is_end(bytes: &[u8], place: usize) -> bool
    ensures { result ≡ true → place < length bytes.now → slice_index bytes.now place ≡ 32 }
{
    place >= bytes.len() || bytes[place] == b' '
}

/// Returns the first word of a line with the number that it is, and what comes behind it.
///
/// Returns `None` if there is no word. It makes one pass over a word of digits and the spaces
/// before it.
#[inline(always)]
pub fn split_number(line: &[u8]) -> Option<((&[u8], Result<u64, TraceFault>), &[u8])>
    ensures some { IfSome result (λ s. words_from [] line.now ≡ s.0.0.now ∷ words_from [] s.1.now) }
    ensures number { IfSome result (λ s. s.0.1 ≡ read_number s.0.0.now) }
    ensures none { IsNone result → words_from [] line.now ≡ [] }
{
    let rest = line.split_at(spaces(line)).1;
    let (count, value) = leading_digits(rest);
    if 0 < count && is_end(rest, count) {
        let (word, behind) = rest.split_at(count);
        return Some(((word, Ok(value)), behind));
    }
    let (word, behind) = split_word(rest)?;
    Some(((word, number(word)), behind))
}

/// Returns the one word of a line with the number that it is, or `None` if the line has another
/// number of words.
#[inline(always)]
pub fn single_word(line: &[u8]) -> Option<(&[u8], Result<u64, TraceFault>)>
    ensures some { IfSome result (λ w. words_from [] line.now ≡ w.0.now ∷ []) }
    ensures number { IfSome result (λ w. w.1 ≡ read_number w.0.now) }
    ensures none { IsNone result → length (words_from [] line.now) ≢ 1 }
{
    let (word, rest) = split_number(line)?;
    if is_blank(rest) { Some(word) } else { None }
}

/// Returns the two words of a line with the numbers that they are, or `None` if the line has
/// another number of words.
pub fn two_words(
    line: &[u8],
) -> Option<
    (
        (&[u8], Result<u64, TraceFault>),
        (&[u8], Result<u64, TraceFault>),
    ),
>
    ensures some { IfSome result (λ w. words_from [] line.now ≡ w.0.0.now ∷ w.1.0.now ∷ []) }
    ensures first { IfSome result (λ w. w.0.1 ≡ read_number w.0.0.now) }
    ensures second { IfSome result (λ w. w.1.1 ≡ read_number w.1.0.now) }
    ensures none { IsNone result → length (words_from [] line.now) ≢ 2 }
{
    let (first, rest) = split_number(line)?;
    let second = single_word(rest)?;
    Some((first, second))
}

/// Returns the three words of a line with the numbers that they are, or `None` if the line has
/// another number of words.
#[inline(always)]
pub fn three_words(
    line: &[u8],
) -> Option<
    (
        (&[u8], Result<u64, TraceFault>),
        (&[u8], Result<u64, TraceFault>),
        (&[u8], Result<u64, TraceFault>),
    ),
>
    ensures some { IfSome result (λ w.
        words_from [] line.now ≡ w.0.0.now ∷ w.1.0.now ∷ w.2.0.now ∷ []) }
    ensures first { IfSome result (λ w. w.0.1 ≡ read_number w.0.0.now) }
    ensures second { IfSome result (λ w. w.1.1 ≡ read_number w.1.0.now) }
    ensures third { IfSome result (λ w. w.2.1 ≡ read_number w.2.0.now) }
    ensures none { IsNone result → length (words_from [] line.now) ≢ 3 }
{
    let (first, rest) = split_number(line)?;
    let (second, rest) = split_number(rest)?;
    let third = single_word(rest)?;
    Some((first, second, third))
}

/// Returns whether a word is this text.
#[inline(always)]
pub fn is(word: &[u8], text: &[u8]) -> bool
    ensures { result ≡ bytes_eq word.now text.now }
{
    if word.len() != text.len() {
        return false;
    }
    for i in 0..text.len() {
        if word[i] != text[i] {
            return false;
        }
    }
    true
}

/// Returns whether a line with this first word is a remark: the word begins with `#`
/// (docs/traces.md, Lines and words).
pub fn is_remark(word: &[u8]) -> bool
    ensures { result ≡ is_remark_word word.now }
{
    !word.is_empty() && word[0] == b'#'
}
