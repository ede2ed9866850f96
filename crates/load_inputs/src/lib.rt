// The literals of a file's first vertices, the constant and the inputs: by place, or by the names of the first file.
#![tactic(auto)]

ghost use Rattle.std.specs.Prelude.{◌*◌, ◌+◌, ◌≤◌, length, ◌≡◌};
ghost use Rattle.load_model.specs.Build.{literals_from};
ghost use Rattle.load_model.specs.code.Paired.{named_literals, second_literals};
ghost use Rattle.netlist_model.specs.code.Passing.{NamesThere, front_names};
ghost use Rattle.netlist_names.specs.code.Left.{names_left};
ghost use Rattle.table.specs.Limits.{max_inputs};
ghost use Rattle.text.specs.Decimal.{written};

use netlist_model::Edition;
use netlist_names::Names;

// Writes the literals of the first `count` vertices by place.
pub fn write_by_place(literals: &mut [u32], count: u32)
    requires { (count ≤ 1 + max_inputs) × (count ≤ length literals.old) }
    ensures { literals.new ≡ written literals.old 0 (literals_from 0 count) }
{
    for v in 0..count {
        literals[v as usize] = 2 * v;
    }
}

// Writes the literals of the second file's first vertices: those of the first file's inputs of its names, or by place where there are none.
// The edition is a number, since `Edition` would ask more of callers, and so would `Names`, or a Summary with the last three in it.
pub fn write_second(
    left: &[u8],
    right: &[u8],
    literals: &mut [u32],
    edition: u32,
    inputs: u32,
    names: u32,
)
    requires left { NamesThere left.now names }
    requires right { NamesThere right.now names }
    requires room { (names ≤ max_inputs) × (inputs ≤ max_inputs) × (1 + max_inputs ≤ length literals.old) }
    ensures { literals.new ≡ written literals.old 0 (second_literals edition inputs (front_names names left.now) (front_names names right.now)) }
{
    if edition == u32::from(Edition::ByName) {
        let left = netlist_names::front_names(left, names);
        let right = netlist_names::front_names(right, names);
        write_by_name(left, right, literals);
        return;
    }
    write_by_place(literals, 1 + inputs);
}

// Writes the literals of the constant and of inputs with the names of the second file.
fn write_by_name(left: Names<'_>, right: Names<'_>, literals: &mut [u32])
    requires { (left.left ≤ max_inputs) × (right.left ≤ max_inputs) × (1 + max_inputs ≤ length literals.old) }
    ensures { literals.new ≡ written literals.old 0 (named_literals (names_left left.entry) (names_left right.entry)) }
{
    literals[0] = 0;
    for (k, name) in right.enumerate() {
        // `named_literals` has the number of names where a name is not among them.
        let place = netlist_names::find_name(left, name).unwrap_or(left.left);
        literals[k + 1] = 2 * (1 + place);
    }
}
