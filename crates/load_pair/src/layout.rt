// The words of the table: header, rows, the outputs of both files, the constraint.
ghost use Rattle.std.specs.Prelude.{◌≤◌, length, [], ◌∷◌, ◌≡◌};
ghost use Rattle.load_pair.specs.code.Pair.{TableRoom, words_of};
ghost use Rattle.text.specs.Decimal.{written};

use load_model::Working;

// Where the outputs of the second file stand in their working slice; those of the first stand at its front. Each file's are followed by its
// constraint; that of the second, which is always 1, is not read.
pub const RIGHT: usize = table::MAX_OUTPUTS as usize + 1;

// Writes the header, the rows of the vertices from `first` on, the outputs of both files, and the first file's constraint.
pub fn write_table(table: &mut [u32], working: &Working<'_>, first: u32, vertices: u32, count: u32)
    requires { TableRoom (length table.old) (length working.now.pairs.now) (length working.now.outputs.now) first vertices count }
    ensures { table.new ≡ written table.old 0 (words_of working.now.pairs.now working.now.outputs.now first vertices count) }
{
    write_header(table, first - 1, vertices - first, count);
    let rows = 2 * first as usize;
    let end = 2 * vertices as usize;
    let at = words::copy(&working.pairs[rows..end], table, table::HEADER);
    let left = count as usize;
    let at = words::copy(&working.outputs[..left], table, at);
    let right = RIGHT + left;
    let at = words::copy(&working.outputs[RIGHT..right], table, at);
    table[at] = working.outputs[left];
}

fn write_header(table: &mut [u32], inputs: u32, made: u32, outputs: u32)
    requires { 3 ≤ length table.old }
    ensures { table.new ≡ written table.old 0 (inputs ∷ made ∷ outputs ∷ []) }
{
    table[0] = inputs;
    table[1] = made;
    table[2] = outputs;
}
