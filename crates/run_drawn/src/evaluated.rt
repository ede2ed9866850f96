// The evaluator, held against the truth tables.
use crate::pair::Side;
use crate::run::Run;
use crate::settings;
use crate::tables::SETTINGS;
use std::alloc::AllocError;

// How many settings each output of a side is asked on.
const ASKED: u32 = 4;

// Holds the values of each output of a side on a few drawn settings.
pub fn hold_side(run: &mut Run, number: u32, side: &Side) -> Result<(), AllocError> {
    for (output, r) in (0..).zip(side.circuit.outputs.iter()) {
        for _ in 0..ASKED {
            let setting = run.random.draw(SETTINGS);
            let digits = settings::digits(run.alloc, setting, side.circuit.inputs)?;
            let value = side.truth.bits(*r).value(setting);
            run.tally
                .hold(run.memory.evaluate(number, output, &digits) == Ok(value));
        }
    }
    Ok(())
}
