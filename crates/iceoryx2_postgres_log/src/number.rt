//! Decimal numbers in a row. Any caller that reads one writes it again, and compares: so no contract
//! stands here.

/// Returns the number of these digits, if all are digits and the number is below 2^64.
pub fn number_of(digits: &[u8]) -> Option<u64> {
    let mut number: u64 = 0;
    for digit in digits {
        if !digit.is_ascii_digit() {
            return None;
        }
        let value = (*digit & 0x0f) as u64;
        number = number.checked_mul(10)?.checked_add(value)?;
    }
    Some(number)
}

/// Returns the number before the first space, and the text behind that space.
pub fn number_before(text: &[u8]) -> Option<(u64, &[u8])> {
    let end = text.iter().position(|byte| *byte == b' ')?;
    let (digits, rest) = text.split_at_checked(end)?;
    let (_space, behind) = rest.split_first()?;
    Some((number_of(digits)?, behind))
}
