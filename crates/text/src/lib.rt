// Text as bytes: a slice cut at a separator, byte strings compared, decimal numerals read and printed.
#![tactic(auto)]

mod bytes;
mod decimal;
mod numerals;
mod split;

pub use bytes::same;
pub use decimal::print;
pub use numerals::parse;
pub use split::{part, part_count, until};
