// The words of a row: `name=value`, where a value is a number or numbers with commas between them.

/// The value of the first word of this name.
pub fn value<'a>(row: &'a str, name: &str) -> Option<&'a str> {
    for word in row.split_whitespace() {
        if let Some((before, after)) = word.split_once('=') {
            if before == name {
                return Some(after);
            }
        }
    }
    None
}

/// The number of this name, or this one where there is none.
pub fn number(row: &str, name: &str, otherwise: i128) -> i128 {
    match value(row, name) {
        Some(text) => text.parse::<i128>().unwrap_or(otherwise),
        None => otherwise,
    }
}

/// The number at a place of a list.
pub fn at(list: &str, place: usize, otherwise: i128) -> i128 {
    match list.split(',').nth(place) {
        Some(text) => text.parse::<i128>().unwrap_or(otherwise),
        None => otherwise,
    }
}

pub fn byte(row: &str, name: &str, otherwise: u8) -> u8 {
    u8::try_from(number(row, name, i128::from(otherwise))).unwrap_or(otherwise)
}

pub fn short(row: &str, name: &str, otherwise: u16) -> u16 {
    u16::try_from(number(row, name, i128::from(otherwise))).unwrap_or(otherwise)
}

pub fn word(row: &str, name: &str, otherwise: u32) -> u32 {
    u32::try_from(number(row, name, i128::from(otherwise))).unwrap_or(otherwise)
}

pub fn long(row: &str, name: &str, otherwise: u64) -> u64 {
    u64::try_from(number(row, name, i128::from(otherwise))).unwrap_or(otherwise)
}

pub fn side(row: &str, name: &str, otherwise: usize) -> usize {
    usize::try_from(number(row, name, otherwise as i128)).unwrap_or(otherwise)
}

pub fn flag(row: &str, name: &str, otherwise: bool) -> bool {
    number(row, name, i128::from(otherwise)) != 0
}

/// The list of this name.
pub fn bytes<const N: usize>(row: &str, name: &str) -> [u8; N] {
    let list = value(row, name).unwrap_or("");
    let mut all = [0; N];
    for i in 0..N {
        all[i] = u8::try_from(at(list, i, 0)).unwrap_or(0);
    }
    all
}

/// The list of this name, with signs.
pub fn signed_bytes<const N: usize>(row: &str, name: &str) -> [i8; N] {
    let list = value(row, name).unwrap_or("");
    let mut all = [0; N];
    for i in 0..N {
        all[i] = i8::try_from(at(list, i, 0)).unwrap_or(0);
    }
    all
}
