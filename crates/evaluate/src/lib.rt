// The evaluator: the value of one side's output on a setting.
#![tactic(auto)]

mod values;

ghost use Rattle.evaluate_model.specs.Evaluate.{Kept, answer_of, evaluation};
ghost use Rattle.std.specs.Prelude.{length, ◌≡◌};

pub use refusal::Refusal;

// The value of output `output` of side 1 or 2 on a setting of one byte an input, 48 or 49. The slice `values` is used to work in.
// Any side may be given: one that is not 1 or 2 is refused. Side, output and setting are the call's own parameters: a struct of them would be made
// for one call and taken apart in it.
pub fn evaluate(
    table: &[u32],
    side: u32,
    output: u32,
    setting: &[u8],
    values: &mut [u8],
) -> Result<u8, Refusal>
    ensures result_value { answer_of result ≡ evaluation table.now side output setting.now (length values.old) }
    ensures kept { Kept (answer_of result) values.old values.new }
{
    let table = evaluate_refusal::check(table, side, output, setting, values.len())?;
    Ok(values::output_value(&table, side, output, setting, values))
}
