// The values of a table's vertices on a setting, one byte a vertex.
ghost use Rattle.std.specs.Prelude.{◌*◌, ◌+◌, ◌<◌, ◌≤◌, get_or, length, take, false, true, ◌∷◌, map, ◌≡◌};
ghost use Rattle.aig.specs.Literal.{vertex_of};
ghost use Rattle.evaluate_model.specs.Evaluate.{Ready, all_digits?, bit, digits_of, evaluated_value};
ghost use Rattle.evaluate_model.specs.code.Values.{Bits, number_literal, number_row, number_values};
ghost use Rattle.table.specs.Accepted.{Accepted, RowBelow};
ghost use Rattle.table.specs.Table.{inputs_of, made_of, row_at, rows_of, vertices_of};

use aig::literal::Literal;
use evaluate_model::DIGIT_ZERO;
use table::Table;

// The value of a literal, given those of the vertices.
fn literal_value(values: &[u8], literal: Literal) -> u8
    requires literal_in_bounds { vertex_of literal.0 < length values.now }
    requires literal_bound { get_or values.now (vertex_of literal.0) 0 ≤ 1 }
    ensures { result ≡ number_literal values.now literal.0 }
{
    let value = values[literal.vertex() as usize];
    if literal.is_inverted() {
        1 - value
    } else {
        value
    }
}

// The value of row i, given those of the vertices below its own.
fn row_value(table: &Table<'_>, i: usize, values: &[u8], vertex: usize) -> u8
    requires row_in_bounds { i < made_of table.now.words.now }
    requires vertex_in_bounds { vertex ≤ length values.now }
    requires row_below { RowBelow (2 * vertex) (row_at table.now.words.now (3 + 2 * i)) }
    requires bits { Bits (take vertex values.now) }
    ensures { result ≡ number_row (take vertex values.now) (row_at table.now.words.now (3 + 2 * i)) }
{
    let (p, q) = table.row(i);
    literal_value(values, p) * literal_value(values, q)
}

// The values of the constant and of the inputs.
fn fill_inputs(setting: &[u8], values: &mut [u8])
    requires setting_in_bounds { length setting.now < length values.old }
    requires setting_value { all_digits? setting.now ≡ true }
    ensures { take (1 + length setting.now) values.new ≡ map bit (false ∷ digits_of setting.now) }
{
    values[0] = 0;
    for (i, byte) in setting.iter().enumerate() {
        values[i + 1] = *byte - DIGIT_ZERO;
    }
}

// The values of the made vertices, given those of the others.
fn fill_rows(table: &Table<'_>, values: &mut [u8])
    requires accepted { Accepted table.now.words.now }
    requires table_in_bounds { vertices_of table.now.words.now ≤ length values.old }
    requires bits { Bits (take (1 + inputs_of table.now.words.now) values.old) }
    ensures { take (vertices_of table.now.words.now) values.new
        ≡ number_values (take (1 + inputs_of table.now.words.now) values.old) (rows_of table.now.words.now) }
{
    let first = 1 + table.inputs() as usize;
    for i in 0..table.made() as usize {
        values[first + i] = row_value(table, i, values, first + i);
    }
}

// The value of an output.
pub fn output_value(
    table: &Table<'_>,
    side: u32,
    output: u32,
    setting: &[u8],
    values: &mut [u8],
) -> u8
    requires { Ready table.now.words.now side output setting.now (length values.old) }
    ensures { result ≡ evaluated_value table.now.words.now side output setting.now }
{
    fill_inputs(setting, values);
    fill_rows(table, values);
    literal_value(values, table.output_literal(side, output as usize))
}
