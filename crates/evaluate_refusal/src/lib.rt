// The refusals of the evaluator: 10, 11, 12, 14, 16 and 17.
#![tactic(auto)]

ghost use Rattle.evaluate_model.specs.Evaluate.{all_digits?, call_tests, digit?, evaluate_tests, side?, unknown?};
ghost use Rattle.refusal.specs.Number.{refusal_number};
ghost use Rattle.table.specs.Refusals.{first_refusal};
ghost use Rattle.std.specs.Prelude.{◌≡◌, IfOk};

use evaluate_model::{DIGIT_ONE, DIGIT_ZERO};
use refusal::Refusal;
use table::Table;

fn is_side(side: u32) -> bool
    ensures { result ≡ side? side }
{
    side == 1 || side == 2
}

fn is_unknown(side: u32, output: u32, outputs: u32) -> bool
    ensures { result ≡ unknown? side output outputs }
{
    !is_side(side) || outputs <= output
}

fn is_digit(byte: u8) -> bool
    ensures { result ≡ digit? byte }
{
    byte == DIGIT_ZERO || byte == DIGIT_ONE
}

fn all_digits(setting: &[u8]) -> bool
    ensures { result ≡ all_digits? setting.now }
{
    setting.iter().all(|byte| is_digit(*byte))
}

// The first of the refusals 12, 14, 16 and 17 that applies.
#[tactic(auto, unfolding(table::specs::Refusals::first_refusal))]
fn check_call(
    table: &Table<'_>,
    side: u32,
    output: u32,
    setting: &[u8],
    room: usize,
) -> Result<(), Refusal>
    ensures { refusal_number result ≡ first_refusal 0 (call_tests table.now.words.now side output setting.now room) }
{
    if is_unknown(side, output, table.outputs()) {
        return Err(Refusal::UnknownOutput);
    }
    if room < table.vertices() {
        return Err(Refusal::ShortSlice);
    }
    if setting.len() != table.inputs() as usize {
        return Err(Refusal::SettingLength);
    }
    if !all_digits(setting) {
        return Err(Refusal::SettingDigit);
    }
    Ok(())
}

// The words as a table, or the first refusal that applies. `room` is the length of the slice to work in.
pub fn check<'a>(
    words: &'a [u32],
    side: u32,
    output: u32,
    setting: &[u8],
    room: usize,
) -> Result<Table<'a>, Refusal>
    ensures refusal { refusal_number result ≡ first_refusal 0 (evaluate_tests words.now side output setting.now room) }
    ensures table { IfOk result (λ t. t.words.now ≡ words.now) }
{
    let table = table_refusal::check(words)?;
    check_call(&table, side, output, setting, room)?;
    Ok(table)
}
