//! The word that an ingress port shows to all threads.
ghost use Rattle.std.specs.Prelude.{◌≡◌, ◌≤◌, ℕ, Some, None, true, false};
ghost use Rattle.coflow_units.specs.PortWord.{FitsWord, PortStage, code_of, flow_of, shows, slot_of, told_stage, word_of};

const STAGE: u64 = 1 << 61;

const SLOT: u64 = 1 << 20;

const SLOTS: u64 = 1 << 41;

/// What became of the last post of a port, as far as its word tells it.
#[derive(Clone, Copy, Debug, PartialEq, Eq)]
pub enum PostStage {
    /// It waits for an agent.
    Granted,
    /// An agent drew it and has not reported.
    Drawn,
    /// An agent drew it and reported.
    Reported,
}

impl PostStage {
    /// Whether a word shows a post in this stage.
    pub fn is_shown(self, word: u64) -> bool
        ensures { result ≡ shows self word }
    {
        word / STAGE == self.code()
    }

    // The number of the stage in a word.
    fn code(self) -> u64
        ensures code { result ≡ code_of self }
        ensures range { (1 ≤ result) × (result ≤ 3) }
    {
        match self {
            PostStage::Granted => 1,
            PostStage::Drawn => 2,
            PostStage::Reported => 3,
        }
    }
}

/// What the word of an ingress port tells of its last post: its stage, its slot, below 2^41, and its flow, below 2^20.
#[derive(Clone, Copy, Debug, PartialEq, Eq)]
pub struct PortWord {
    pub stage: PostStage,
    pub slot: u64,
    pub flow: u32,
}

impl PortWord {
    /// The word itself: 3 bits of stage, 41 of the slot and 20 of the flow. `of_bits` reads the same from it.
    pub fn bits(self) -> u64
        requires fits { FitsWord self.slot self.flow }
        ensures word { (x : PortStage) → told_stage x ≡ Some self.stage → result ≡ word_of x self.slot self.flow }
    {
        self.stage.code() * STAGE + (self.slot * SLOT + u64::from(self.flow))
    }

    /// What a word tells. `None` where it tells of no post, as that of a port where none was made, or where the last
    /// was taken back.
    pub fn of_bits(bits: u64) -> Option<PortWord>
        ensures stage { (w : PortWord) → result ≡ Some w → shows w.stage bits ≡ true }
        ensures post { (w : PortWord) → result ≡ Some w → (w.slot ≡ slot_of bits) × (w.flow ≡ flow_of bits) }
        ensures fits { (w : PortWord) → result ≡ Some w → FitsWord w.slot w.flow }
        ensures word { (w : PortWord) (x : PortStage) → result ≡ Some w → told_stage x ≡ Some w.stage →
            bits ≡ word_of x w.slot w.flow }
        ensures same { (w : PortWord) (x : PortStage) → FitsWord w.slot w.flow → told_stage x ≡ Some w.stage →
            bits ≡ word_of x w.slot w.flow → result ≡ Some w }
        ensures none { (stage : PostStage) → result ≡ None → shows stage bits ≡ false }
    {
        let stage = match bits / STAGE {
            1 => PostStage::Granted,
            2 => PostStage::Drawn,
            3 => PostStage::Reported,
            _ => return None,
        };
        Some(PortWord {
            stage,
            slot: bits / SLOT % SLOTS,
            flow: (bits % SLOT) as u32,
        })
    }
}
