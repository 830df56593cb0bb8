// Bytes and words that a script gives in hex.
ghost use Rattle.std.specs.Prelude.{◌≡◌, ◌<◌, ℕ, List, true, Some, None, Option, IfSome, vec_items};
ghost use Rattle.script.specs.Digits.{digit_of};
ghost use Rattle.script.specs.Hexes.{byte_of, bytes_in, WritesWord, NamesAs, WordsIn};
ghost use Rattle.script.specs.Outcomes.{Gives};

use crate::failure::Failure;
use grammar::number;
use sheet::sheet::ROWS;
use std::alloc::Global;

// No sheet needs more words than this: the count, 64 names, and 64 rows for each of 64 roles.
pub const WORDS: usize = ROWS + 64 * 64;

// The bytes that a text gives in hex, two digits each.
pub fn bytes_of(heap: Global, hex: &str) -> Result<Vec<u8>, Failure>
    ensures { Gives vec_items result (λ r. r ≡ bytes_in hex.now) }
{
    if hex.len() % 2 != 0 {
        return Err(Failure::BadLine);
    }
    let mut bytes = Vec::new(heap);
    for pair in hex.as_bytes().chunks(2) {
        bytes.push(byte_of(pair).ok_or(Failure::BadLine)?)?;
    }
    Ok(bytes)
}

// The byte that two digits write.
fn byte_of(digits: &[u8]) -> Option<u8>
    ensures { result ≡ byte_of digits.now }
{
    let [high, low] = digits else {
        return None;
    };
    Some(16 * digit(*high)? + digit(*low)?)
}

// So many words, of which those named by a place, a colon and hex digits are not 0.
pub fn words_of(heap: Global, count: usize, named: &str) -> Result<Vec<u64>, Failure>
    ensures { Gives vec_items result (WordsIn count named.now) }
{
    let mut words = vec![in heap; 0u64; count.min(WORDS)]?;
    for item in named.split_whitespace() {
        let (place, word) = item_of(item).ok_or(Failure::BadLine)?;
        if place >= count {
            return Err(Failure::BadLine);
        }
        if let Some(named) = words.get_mut(place) {
            *named = word;
        }
    }
    Ok(words)
}

// The place and the word that an item names.
fn item_of(item: &str) -> Option<(usize, u64)>
    ensures { NamesAs item.now result }
{
    let (place, word) = item.split_once(':')?;
    Some((number(place)?, word_of(word)?))
}

// The word that 1 to 16 hex digits write.
// Stays: with the library's `from_str_radix`, and the pass that excludes the plus and the capital letters that it reads, a `sheet`
// line of many words takes half as much time again.
fn word_of(text: &str) -> Option<u64>
    ensures { WritesWord text.now result }
{
    if text.is_empty() || text.len() > 16 {
        return None;
    }
    let mut word = 0;
    for b in text.as_bytes() {
        word = 16 * word + digit(*b)? as u64;
    }
    Some(word)
}

// The number that a hex digit stands for.
// Stays: the library's `to_digit` takes capital letters too, which are no digits here.
fn digit(b: u8) -> Option<u8>
    ensures value { result ≡ digit_of b }
    ensures small { IfSome result (λ d. d < 16) }
{
    match b {
        b'0'..=b'9' => Some(b - b'0'),
        b'a'..=b'f' => Some(b - b'a' + 10),
        _ => None,
    }
}
