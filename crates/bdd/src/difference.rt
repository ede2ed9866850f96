// The first setting, in counting order, on which two functions differ.
ghost use Rattle.std.specs.Prelude.{◌≤◌, drop, length, ◌++◌, ◌≡◌};
ghost use Rattle.bdd.specs.Diagram.{denote};
ghost use Rattle.bdd.specs.Difference.{digits};
ghost use Rattle.bdd.specs.code.Walks.{Walks};
ghost use Rattle.truth.specs.Settings.{first_difference};

use crate::references::cofactor_of;

// Writes the first difference of f and g to the front of the setting slice, one byte an input, and no other byte.
// A digit is 0 where the 0 cofactors differ, else 1.
pub fn first_difference(rows: &[u32], inputs: usize, f: usize, g: usize, setting: &mut [u8])
    requires first { Walks rows.now inputs f }
    requires second { Walks rows.now inputs g }
    requires long { inputs ≤ length setting.old }
    ensures { setting.new ≡ digits (first_difference (denote rows.now inputs f) (denote rows.now inputs g)) ++ drop inputs setting.old }
{
    let mut a = f;
    let mut b = g;
    for i in 0..inputs {
        let level = inputs - i;
        let digit = cofactor_of(rows, false, level, a) == cofactor_of(rows, false, level, b);
        setting[i] = b'0' + u8::from(digit);
        a = cofactor_of(rows, digit, level, a);
        b = cofactor_of(rows, digit, level, b);
    }
}
