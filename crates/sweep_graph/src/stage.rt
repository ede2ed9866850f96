// The stage of a vertex, and its word: the first of its two.
ghost use Rattle.std.specs.Prelude.{◌*◌, ◌<◌, length, ◌≡◌};
ghost use Rattle.sweep_graph.specs.code.Stages.{stage_in, stage_word, staged, with_stage, word_stage};
ghost use Rattle.sweep_model.specs.Normalise.{wake};
ghost use Rattle.sweep_model.specs.State.{bare?, gone?, has?, open?, waits?};

// No diagram yet; has one and waits; open; open and waiting again; too large; merged.
#[derive(Clone, Copy, Debug, PartialEq, Eq)]
pub enum Stage {
    Bare,
    Waiting,
    Opened,
    Again,
    Dropped,
    Gone,
}

impl Stage {
    pub fn has_diagram(self) -> bool
        ensures { result ≡ has? (staged self) }
    {
        matches!(self, Stage::Waiting | Stage::Opened | Stage::Again)
    }

    pub fn waits(self) -> bool
        ensures { result ≡ waits? (staged self) }
    {
        matches!(self, Stage::Waiting | Stage::Again)
    }

    pub fn is_open(self) -> bool
        ensures { result ≡ open? (staged self) }
    {
        matches!(self, Stage::Opened | Stage::Again)
    }

    pub fn is_bare(self) -> bool
        ensures { result ≡ bare? (staged self) }
    {
        self == Stage::Bare
    }

    pub fn is_gone(self) -> bool
        ensures { result ≡ gone? (staged self) }
    {
        self == Stage::Gone
    }

    // The stage of a vertex that takes a diagram and waits again.
    pub fn woken(self) -> Stage
        ensures { staged result ≡ wake (staged self) }
    {
        if self.is_open() {
            return Stage::Again;
        }
        Stage::Waiting
    }
}

impl From<Stage> for u32 {
    ghost from_gives = { λ stage word. word ≡ stage_word (staged stage) };

    fn from(stage: Stage) -> u32 {
        match stage {
            Stage::Bare => 0,
            Stage::Waiting => 1,
            Stage::Opened => 2,
            Stage::Again => 3,
            Stage::Dropped => 4,
            Stage::Gone => 5,
        }
    }
}

// A word past 5 is read as that of a merged vertex.
impl From<u32> for Stage {
    ghost from_gives = { λ word stage. staged stage ≡ word_stage word };

    #[tactic(auto, unfolding(crate::specs::code::Stages::word_stage))]
    fn from(word: u32) -> Stage {
        match word {
            0 => Stage::Bare,
            1 => Stage::Waiting,
            2 => Stage::Opened,
            3 => Stage::Again,
            4 => Stage::Dropped,
            _ => Stage::Gone,
        }
    }
}

pub fn stage_at(stages: &[u32], v: u32) -> Stage
    requires { 2 * v < length stages.now }
    ensures { staged result ≡ stage_in stages.now v }
{
    Stage::from(stages[2 * v as usize])
}

// Whether a vertex waits. Its word is compared, with no `Stage` made of it: this is asked of every vertex for each that opens.
pub fn waits_at(stages: &[u32], v: u32) -> bool
    requires { 2 * v < length stages.now }
    ensures { result ≡ waits? (stage_in stages.now v) }
{
    let word = stages[2 * v as usize];
    word == u32::from(Stage::Waiting) || word == u32::from(Stage::Again)
}

// Whether a vertex is open, by its word as well.
pub fn is_open_at(stages: &[u32], v: u32) -> bool
    requires { 2 * v < length stages.now }
    ensures { result ≡ open? (stage_in stages.now v) }
{
    let word = stages[2 * v as usize];
    word == u32::from(Stage::Opened) || word == u32::from(Stage::Again)
}

// Any word may be written: a `Stage` would ask more of callers.
pub fn set_stage(stages: &mut [u32], v: u32, stage: u32)
    requires { 2 * v < length stages.old }
    ensures { stages.new ≡ with_stage stages.old v stage }
{
    stages[2 * v as usize] = stage;
}
