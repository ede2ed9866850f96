// How a sweep ended, as the reply and the setting.
#![tactic(auto)]

ghost use Rattle.std.specs.Prelude.{◌+◌, ◌≤◌, ℕ, length, List, ◌≡◌};
ghost use Rattle.compare_model.specs.Compare.{max_rows, max_steps, said_by, setting_left};
ghost use Rattle.compare_model.specs.Said.{replied};
ghost use Rattle.compare_reply.specs.code.Followed.{Followed};
ghost use Rattle.sweep_state.specs.code.Ending.{verdict_of};

use bdd::difference::first_difference;
use sweep_model::{Counts, Reply};
use sweep_state::end::{End, Ended};

// The reply, with the rows used, the steps taken and the rows added.
#[tactic(auto, unfolding(compare_model::specs::Compare::said_by, sweep_state::specs::code::Ending::verdict_of))]
pub fn reply_of(ended: Ended) -> Reply
    requires { (ended.used + ended.added ≤ max_rows) × (ended.steps ≤ max_steps) }
    ensures { (rows : List ℕ) (inputs : ℕ) → replied result ≡ said_by (verdict_of rows inputs ended.end) ended.used ended.steps ended.added }
{
    let counts = Counts {
        rows: ended.used as u32,
        steps: ended.steps as u32,
        added: ended.added as u32,
    };
    match ended.end {
        End::Equal => Reply::Equal(counts),
        End::Inverse | End::Differ(_, _) => Reply::Different(counts),
        End::Undecided(cause) => Reply::Undecided(cause, counts),
    }
}

// Where the two differ, a setting on which they do is written: all inputs 0 for inverse literals, else the first difference of two
// functions. Otherwise nothing is written.
#[tactic(auto, using(crate::proofs::SettingLaws::difference_left), unfolding(compare_model::specs::Compare::setting_left, sweep_state::specs::code::Ending::verdict_of))]
pub fn write_setting(end: End, rows: &[u32], inputs: usize, setting: &mut [u8])
    requires followed { Followed rows.now inputs end }
    requires long { inputs ≤ length setting.old }
    ensures { setting.new ≡ setting_left (verdict_of rows.now inputs end) setting.old }
{
    match end {
        End::Equal | End::Undecided(_) => {}
        End::Inverse => setting[..inputs].fill(b'0'),
        End::Differ(f, g) => first_difference(rows, inputs, f, g, setting),
    }
}
