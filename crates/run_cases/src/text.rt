// A line of a list, taken apart: fields between bars, tokens between spaces, numbers in decimal and bytes in hexadecimal.

// How many bytes a file, a name or an output may have.
pub const BYTES: usize = 256;

const SPACE: u8 = b' ';

pub const COLON: u8 = b':';

const BAR: u8 = b'|';

// What a number may be before its last digit.
const MOST: usize = 999_999_999;

// ---- parts of a text

// What stands before the first such mark.
pub fn before(text: &[u8], mark: u8) -> &[u8] {
    match text.iter().position(|b| *b == mark) {
        Some(end) => &text[..end],
        None => text,
    }
}

// What stands behind it: nothing, where there is none.
pub fn behind(text: &[u8], mark: u8) -> &[u8] {
    match text.iter().position(|b| *b == mark) {
        Some(end) => &text[end + 1..],
        None => &[],
    }
}

// What follows the spaces in front.
pub fn past_spaces(text: &[u8]) -> &[u8] {
    match text.iter().position(|b| *b != SPACE) {
        Some(start) => &text[start..],
        None => &[],
    }
}

// The token with that number: an empty one, where there are fewer.
pub fn token(text: &[u8], number: usize) -> &[u8] {
    let mut left = past_spaces(text);
    for _ in 0..number {
        left = past_spaces(behind(left, SPACE));
    }
    before(left, SPACE)
}

// The field with that number: an empty one, where there are fewer.
pub fn field(line: &[u8], number: usize) -> &[u8] {
    line.split(|b| *b == BAR).nth(number).unwrap_or(&[])
}

// What stands behind the first token.
pub fn argument(text: &[u8]) -> &[u8] {
    behind(text, SPACE)
}

// The number of a word in a list of words.
pub fn number_in(list: &[u8], word: &[u8]) -> Option<usize> {
    list.split(|b| *b == SPACE).position(|w| w == word)
}

// ---- numbers

// At most ten digits: more than any number of a case has.
pub fn count_of(text: &[u8]) -> Option<usize> {
    if text.is_empty() {
        return None;
    }
    let mut n: usize = 0;
    for digit in text {
        if !digit.is_ascii_digit() || MOST < n {
            return None;
        }
        n = n * 10 + usize::from(*digit - b'0');
    }
    Some(n)
}

// A minus stands before a negative number only, and 0 is none.
pub fn number_of(token: &[u8]) -> Option<i64> {
    match token {
        [b'-', digits @ ..] => match count_of(digits)? {
            0 => None,
            size => i64::try_from(size).ok()?.checked_neg(),
        },
        _ => i64::try_from(count_of(token)?).ok(),
    }
}

pub fn word_of(token: &[u8]) -> Option<i32> {
    i32::try_from(number_of(token)?).ok()
}

// ---- a field's numbers or bytes, into the front of a run: how many they are

pub fn words_into(run: &mut [i32], field: &[u8]) -> Option<usize> {
    let mut count = 0;
    for token in field.split(|b| *b == SPACE).filter(|t| !t.is_empty()) {
        *run.get_mut(count)? = word_of(token)?;
        count += 1;
    }
    Some(count)
}

fn digit_of(letter: u8) -> Option<u8> {
    match letter {
        b'0'..=b'9' => Some(letter - b'0'),
        b'A'..=b'F' => Some(letter - b'A' + 10),
        _ => None,
    }
}

// Two digits a byte, with spaces anywhere.
pub fn bytes_into(run: &mut [u8; BYTES], field: &[u8]) -> Option<usize> {
    let mut digits = 0;
    for letter in field.iter().filter(|b| **b != SPACE) {
        let digit = digit_of(*letter)?;
        let byte = run.get_mut(digits / 2)?;
        *byte = if digits % 2 == 0 {
            digit
        } else {
            *byte % 16 * 16 + digit % 16
        };
        digits += 1;
    }
    (digits % 2 == 0).then_some(digits / 2)
}
