// Settings as bytes, 48 or 49 an input, and what a comparison left of a lent setting slice.
use std::alloc::{AllocError, Global};

// The bytes of the lent slice, and what they hold before a comparison.
pub const BYTES: usize = 64;

pub const BLANK: u8 = 7;

// The digits of a setting's number.
pub fn digits(alloc: Global, setting: usize, inputs: u32) -> Result<Vec<u8>, AllocError> {
    (0..inputs)
        .rev()
        .map(|after| digit(setting, after))
        .collect(alloc)
}

fn digit(setting: usize, after: u32) -> u8 {
    if setting.wrapping_shr(after) % 2 == 0 {
        b'0'
    } else {
        b'1'
    }
}

// Whether the bytes are these digits and blanks after them.
pub fn holds(bytes: &[u8], digits: &[u8]) -> bool {
    bytes
        .strip_prefix(digits)
        .is_some_and(|rest| rest.iter().all(|byte| *byte == BLANK))
}
