// Numbers of a row, one after another. What isn't there is 0.
use std::str::SplitWhitespace;

pub fn number(words: &mut SplitWhitespace<'_>) -> i64 {
    match words.next() {
        Some(word) => word.parse::<i64>().unwrap_or(0),
        None => 0,
    }
}

pub fn flag(words: &mut SplitWhitespace<'_>) -> bool {
    number(words) != 0
}

pub fn byte(words: &mut SplitWhitespace<'_>) -> u8 {
    u8::try_from(number(words)).unwrap_or(0)
}

pub fn signed_byte(words: &mut SplitWhitespace<'_>) -> i8 {
    i8::try_from(number(words)).unwrap_or(0)
}

pub fn short(words: &mut SplitWhitespace<'_>) -> u16 {
    u16::try_from(number(words)).unwrap_or(0)
}

pub fn word(words: &mut SplitWhitespace<'_>) -> u32 {
    u32::try_from(number(words)).unwrap_or(0)
}

pub fn side(words: &mut SplitWhitespace<'_>) -> usize {
    usize::try_from(number(words)).unwrap_or(0)
}

pub fn bytes<const N: usize>(words: &mut SplitWhitespace<'_>) -> [u8; N] {
    let mut all = [0; N];
    for each in all.iter_mut() {
        *each = byte(words);
    }
    all
}

pub fn signed_bytes<const N: usize>(words: &mut SplitWhitespace<'_>) -> [i8; N] {
    let mut all = [0; N];
    for each in all.iter_mut() {
        *each = signed_byte(words);
    }
    all
}
