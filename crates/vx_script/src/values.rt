// What a word says: a name, a number, names, bytes.
ghost use Rattle.std.specs.Prelude.{◌≡◌, ◌≤◌, length, ◌<◌, ◌+◌, MatchOption, take, drop};
ghost use Rattle.std.specs.List.{position_or_len, list_all};
ghost use Rattle.vx_script.specs.Words.{is_digit, digits_after, word_name, word_number, byte_of, block_word, is_name_byte, labelled, names_of, SaysWord, is_comma};

use crate::Names;
use crate::scan::first_of;
use std::alloc::Global;
use vx_model::limits::{BLOCK, MOST_NAME_BYTES};
use vx_model::{Block, Name, OutOfMemory};

fn is_name_text(word: &[u8]) -> bool
    ensures { result ≡ list_all is_name_byte word.now }
{
    word.iter()
        .all(|b| b.is_ascii_lowercase() || b.is_ascii_digit())
}

fn is_decimal(word: &[u8]) -> bool
    ensures { result ≡ list_all is_digit word.now }
{
    word.iter().all(|b| b.is_ascii_digit())
}

/// The name that a word is.
#[tactic(auto, unfolding(crate::specs::Words::word_name))]
pub fn as_name(word: &[u8]) -> Option<Name>
    ensures { result ≡ word_name word.now }
{
    if word.is_empty() || word.len() > MOST_NAME_BYTES || !word[0].is_ascii_lowercase() {
        return None;
    }
    if is_name_text(word) {
        Some(Name::new(word))
    } else {
        None
    }
}

fn value_of(word: &[u8]) -> u128
    requires { length word.now ≤ 20 }
    ensures { result ≡ digits_after 0 word.now }
{
    let mut value: u128 = 0;
    for b in word {
        value = value * 10 + u128::from(b.saturating_sub(b'0'));
    }
    value
}

#[tactic(auto, unfolding(crate::specs::Words::word_number))]
fn as_number(word: &[u8]) -> Option<u64>
    ensures { result ≡ word_number word.now }
{
    if word.is_empty() || word.len() > 20 || !is_decimal(word) {
        return None;
    }
    let value = value_of(word);
    if value < 0x1_0000_0000_0000_0000 {
        Some(value as u64)
    } else {
        None
    }
}

/// The byte that two hexadecimal digits are.
#[tactic(auto, unfolding(crate::specs::Words::byte_of))]
pub fn as_byte(word: &[u8]) -> Option<u8>
    ensures { result ≡ byte_of word.now }
{
    let mut bytes = [0; 1];
    match hex::decode_to_slice(word, &mut bytes) {
        Ok(()) => Some(bytes[0]),
        Err(_) => None,
    }
}

/// The block that 1,024 hexadecimal digits are.
#[tactic(auto, unfolding(crate::specs::Words::block_word))]
pub fn as_block(word: &[u8]) -> Option<Block>
    ensures { result ≡ block_word word.now }
{
    let mut bytes = [0; BLOCK];
    match hex::decode_to_slice(word, &mut bytes) {
        Ok(()) => Some(Block::new(bytes)),
        Err(_) => None,
    }
}

/// The number behind a label.
#[tactic(auto, unfolding(crate::specs::Words::labelled))]
pub fn number_after(label: &[u8], word: &[u8]) -> Option<u64>
    ensures { result ≡ labelled label.now word_number word.now }
{
    match word.strip_prefix(label) {
        Some(text) => as_number(text),
        None => None,
    }
}

// The part up to the first comma, and what follows the comma.
fn split_comma(bytes: &[u8]) -> (&[u8], Option<&[u8]>)
    ensures part { result.0.now ≡ take (position_or_len is_comma bytes.now) bytes.now }
    ensures more { MatchOption result.1 (position_or_len is_comma bytes.now ≡ length bytes.now) (λ r. (position_or_len is_comma bytes.now < length bytes.now) × (r.now ≡ drop (position_or_len is_comma bytes.now + 1) bytes.now)) }
{
    let end = first_of(bytes, b',');
    let part = &bytes[..end];
    if end < bytes.len() {
        (part, Some(&bytes[end + 1..]))
    } else {
        (part, None)
    }
}

/// The names that a word is, with commas between.
pub fn as_names(alloc: Global, word: &[u8]) -> Result<Option<Names>, OutOfMemory>
    ensures { SaysWord (λ v. v) result (names_of word.now) }
{
    let mut names = Names::new(alloc);
    let mut rest = word;
    'parts: loop {
        let (part, more) = split_comma(rest);
        match as_name(part) {
            Some(name) => names.push(name)?,
            None => return Ok(None),
        }
        match more {
            Some(others) => rest = others,
            None => return Ok(Some(names)),
        }
    }
}
