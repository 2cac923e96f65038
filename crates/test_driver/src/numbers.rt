//! Numbers, in hexadecimal digits.
use crate::driver_error::DriverError;
use std::alloc::{AllocError, Global};

/// The numbers that a question writes. `61*2710` is 61 as often as the number behind `*` says.
pub(crate) fn numbers(alloc: Global, written: &str) -> Result<Vec<u64>, DriverError> {
    let mut numbers = Vec::new(alloc);
    for word in written.split_whitespace() {
        push_word(&mut numbers, word)?;
    }
    Ok(numbers)
}

fn push_word(numbers: &mut Vec<u64>, word: &str) -> Result<(), DriverError> {
    let (digits, count) = word.split_once('*').unwrap_or((word, "1"));
    let number = number(digits)?;
    for _ in 0..self::number(count)? {
        numbers.push(number)?;
    }
    Ok(())
}

/// The number that these digits write.
pub(crate) fn number(digits: &str) -> Result<u64, DriverError> {
    match u64::from_str_radix(digits, 16) {
        Ok(number) => Ok(number),
        Err(_) => Err(DriverError::Unread),
    }
}

/// What an answer writes, of equal ones in a row the first alone.
pub(crate) trait Item: Copy + Drop + PartialEq {
    fn push_to(self, text: &mut String) -> Result<(), AllocError>;
}

/// What a number of a question may become.
pub(crate) trait FromNumber: Item {
    /// The number as this, where it is in range.
    fn of(number: u64) -> Option<Self>;
}

fn push_number(text: &mut String, number: u64) -> Result<(), AllocError> {
    write!(text, "{number:X}")
}

impl Item for u8 {
    fn push_to(self, text: &mut String) -> Result<(), AllocError> {
        push_number(text, u64::from(self))
    }
}

impl FromNumber for u8 {
    fn of(number: u64) -> Option<u8> {
        u8::try_from(number).ok()
    }
}

impl Item for u16 {
    fn push_to(self, text: &mut String) -> Result<(), AllocError> {
        push_number(text, u64::from(self))
    }
}

impl FromNumber for u16 {
    fn of(number: u64) -> Option<u16> {
        u16::try_from(number).ok()
    }
}

impl Item for u32 {
    fn push_to(self, text: &mut String) -> Result<(), AllocError> {
        push_number(text, u64::from(self))
    }
}

impl FromNumber for u32 {
    fn of(number: u64) -> Option<u32> {
        u32::try_from(number).ok()
    }
}

impl Item for u64 {
    fn push_to(self, text: &mut String) -> Result<(), AllocError> {
        push_number(text, self)
    }
}

impl FromNumber for u64 {
    fn of(number: u64) -> Option<u64> {
        Some(number)
    }
}

impl Item for char {
    fn push_to(self, text: &mut String) -> Result<(), AllocError> {
        push_number(text, self as u64)
    }
}

impl FromNumber for char {
    fn of(number: u64) -> Option<char> {
        char::from_u32(u32::try_from(number).ok()?)
    }
}

/// A list of these numbers.
pub(crate) fn list<T: FromNumber>(alloc: Global, numbers: &[u64]) -> Result<Vec<T>, DriverError> {
    let mut items = Vec::new(alloc);
    for number in numbers {
        items.push(T::of(*number).ok_or(DriverError::Unread)?)?;
    }
    Ok(items)
}

/// The one number among these.
pub(crate) fn only<T: FromNumber>(numbers: &[u64]) -> Result<T, DriverError> {
    match numbers {
        [number] => T::of(*number).ok_or(DriverError::Unread),
        _ => Err(DriverError::Unread),
    }
}

/// The one number that a question writes.
pub(crate) fn single<T: FromNumber>(written: &str) -> Result<T, DriverError> {
    T::of(number(written.trim())?).ok_or(DriverError::Unread)
}

/// Items as an answer writes them: of equal ones in a row the first and how many there are.
pub(crate) fn written<T: Item>(alloc: Global, items: &[T]) -> Result<String, AllocError> {
    let mut text = String::new(alloc);
    let mut run: Option<(T, u64)> = None;
    for item in items {
        run = match run {
            Some((same, count)) if same == *item => Some((same, count.saturating_add(1))),
            Some((other, count)) => {
                push_run(&mut text, other, count)?;
                Some((*item, 1))
            }
            None => Some((*item, 1)),
        };
    }
    if let Some((last, count)) = run {
        push_run(&mut text, last, count)?;
    }
    Ok(text)
}

/// Appends an item and, where it stands there more than once, how often.
fn push_run<T: Item>(text: &mut String, item: T, count: u64) -> Result<(), AllocError> {
    if !text.is_empty() {
        text.push(' ')?;
    }
    item.push_to(text)?;
    if count != 1 {
        write!(text, "*{count:X}")?;
    }
    Ok(())
}

/// The one length or index that a question writes.
pub(crate) fn size(written: &str) -> Result<usize, DriverError> {
    match usize::from_str_radix(written.trim(), 16) {
        Ok(size) => Ok(size),
        Err(_) => Err(DriverError::Unread),
    }
}
