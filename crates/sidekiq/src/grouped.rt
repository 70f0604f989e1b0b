// Numbers for people.
use std::alloc::{AllocError, Global};

/// The number, with a comma before each three digits but the first.
pub fn grouped(alloc: Global, number: u64) -> Result<String, AllocError> {
    let digits = format!(in alloc; "{number}")?;
    let mut left = digits.len();
    let mut text = String::new(alloc);
    for digit in digits.chars() {
        if left % 3 == 0 && !text.is_empty() {
            text.push(',')?;
        }
        text.push(digit)?;
        left = left.saturating_sub(1);
    }
    Ok(text)
}
