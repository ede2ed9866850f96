// The comparisons of a table, and each reply held against what the truth tables say.
use crate::asked::{Asked, draw_all};
use crate::circuit::OUTPUTS;
use crate::memory::{Memory, SHORT};
use crate::run::Run;
use crate::settings;
use crate::tally::{Tally, count};
use comparer::{Cause, Counts, Refusal, Reply};
use std::alloc::{AllocError, Global};

// What is known of a table: its inputs, the vertices of a comparison, the place of the constraint's word, that word as loaded, and the outputs.
#[derive(Drop)]
pub struct Facts {
    pub inputs: u32,
    pub vertices: usize,
    pub constraint_at: usize,
    pub constraint: Option<u32>,
    pub outputs: Vec<Differences>,
}

// The first settings on which an output's two sides differ: among the allowed ones, and among all.
#[derive(Clone, Copy, Default)]
pub struct Differences {
    pub allowed: Option<usize>,
    pub all: Option<usize>,
}

impl Facts {
    // The first differences of an output; of one that there is not, none.
    fn differences(&self, output: u32) -> Differences {
        self.outputs
            .get(output as usize)
            .copied()
            .unwrap_or_default()
    }
}

// Makes the comparisons, turn by turn, and judges each reply.
pub fn compare_all(run: &mut Run, facts: &Facts) -> Result<(), AllocError> {
    let outputs = facts.outputs.len().clamp(1, OUTPUTS) as u32;
    let all = draw_all(run.alloc, outputs, &mut run.random)?;
    for asked in all.iter() {
        let mut setting = [settings::BLANK; settings::BYTES];
        let reply = run.memory.compare(asked.output, asked.limits, &mut setting);
        let digits = written(run.alloc, reply, facts, asked.output)?;
        run.tally.hold(settings::holds(&setting, &digits));
        judge(reply, asked, facts, &run.memory, &mut run.tally);
    }
    Ok(())
}

// The digits that a reply writes: after Different those of the first difference.
fn written(
    alloc: Global,
    reply: Result<Reply, Refusal>,
    facts: &Facts,
    output: u32,
) -> Result<Vec<u8>, AllocError> {
    match (reply, facts.differences(output).allowed) {
        (Ok(Reply::Different(_)), Some(setting)) => {
            settings::digits(alloc, setting, facts.inputs)
        }
        _ => Ok(Vec::new(alloc)),
    }
}

// The refusal that was asked for came, or none, and the constraint's word is what it was as loaded.
fn judge(
    reply: Result<Reply, Refusal>,
    asked: &Asked,
    facts: &Facts,
    memory: &Memory,
    tally: &mut Tally,
) {
    let differences = facts.differences(asked.output);
    tally.hold(reply.err() == asked.refusal);
    tally.hold(memory.word(facts.constraint_at) == facts.constraint);
    match reply {
        Ok(Reply::Equal(counts)) => {
            count(&mut tally.equal);
            if differences.all.is_some() {
                count(&mut tally.equal_by_constraint);
            }
            tally.hold(differences.allowed.is_none() && counts.added == 0);
            hold_limits(counts, asked, tally);
        }
        Ok(Reply::Different(counts)) => {
            count(&mut tally.different);
            tally.hold(differences.allowed.is_some() && counts.added == 0);
            hold_limits(counts, asked, tally);
        }
        Ok(Reply::Undecided(cause, counts)) => {
            count_cause(cause, tally);
            tally.hold(is_cause(cause, counts, asked, facts, memory));
            tally.hold(!asked.is_large());
            hold_limits(counts, asked, tally);
        }
        Err(_) => count(&mut tally.refused),
    }
}

// Rows and steps are within their limits.
fn hold_limits(counts: Counts, asked: &Asked, tally: &mut Tally) {
    tally.hold(counts.rows <= asked.limits.rows);
    tally.hold(u64::from(counts.steps) <= asked.limits.steps);
}

fn count_cause(cause: Cause, tally: &mut Tally) {
    match cause {
        Cause::Size => count(&mut tally.size),
        Cause::Rows(_) => count(&mut tally.rows),
        Cause::Steps(_) => count(&mut tally.steps),
    }
}

// Size: some vertex is marked too large, and no rows are added. Rows and Steps: the vertex named is marked short, and the limit is used up, after
// Rows by the rows added too.
fn is_cause(cause: Cause, counts: Counts, asked: &Asked, facts: &Facts, memory: &Memory) -> bool {
    match cause {
        Cause::Size => counts.added == 0 && memory.has_dropped(facts.vertices),
        Cause::Rows(vertex) => {
            let used = u64::from(counts.rows) + u64::from(counts.added);
            used == u64::from(asked.limits.rows) && memory.mark(vertex) == Some(SHORT)
        }
        Cause::Steps(vertex) => {
            u64::from(counts.steps) == asked.limits.steps && memory.mark(vertex) == Some(SHORT)
        }
    }
}
