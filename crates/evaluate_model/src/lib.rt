// Evaluating one side's output on a setting: the bytes of a setting. What is evaluated is a definition, in specs/; there is no code here.
#![tactic(auto)]

// The bytes of a setting.
pub const DIGIT_ZERO: u8 = 48;

pub const DIGIT_ONE: u8 = 49;
