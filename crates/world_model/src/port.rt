//! An ingress port of a world: its word, its count, and what was settled.
ghost use Rattle.std.specs.Prelude.{◌≡◌, Some};
ghost use Rattle.coflow_units.specs.PortWord.{FitsWord, PortStage, is_drawn_by, is_granted, told_stage, word_of};
ghost use Rattle.world_model.specs.Port.{answered_by, idle_port, port_of, settled_by, stage_of};

use crate::event::Happened;
use coflow_units::{PortWord, PostStage};

/// What became of the last grant that was posted at a port.
#[derive(Clone, Copy, Debug, PartialEq, Eq)]
pub enum Stage {
    /// No grant was posted yet.
    Unposted,
    /// It is posted, and nobody drew it.
    Granted,
    /// This agent drew it.
    Drawn(u32),
    /// This agent drew it and reported so many units.
    Reported { agent: u32, units: u64 },
    /// It was taken back, drawn by nobody.
    TakenBack,
}

/// An ingress port: slot and flow of its last post, with slot 0 where there was none, what became of it, its count,
/// what was settled since a run was opened last, and the units that were sent for the post. The count is the length of
/// the run once the grant is posted, and the units that were sent once they are reported.
#[derive(Clone, Copy, Debug, PartialEq, Eq)]
pub struct PortState {
    pub slot: u64,
    pub flow: u32,
    pub stage: Stage,
    pub count: u64,
    pub settled: Option<u64>,
    pub sent: u64,
}

impl PortState {
    /// A port at which nothing was posted.
    pub(crate) fn idle() -> PortState
        ensures port { port_of result ≡ idle_port }
        ensures sent { result.sent ≡ 0 }
    {
        PortState {
            slot: 0,
            flow: 0,
            stage: Stage::Unposted,
            count: 0,
            settled: None,
            sent: 0,
        }
    }

    /// Whether the last post waits for an agent.
    pub(crate) fn is_granted(&self) -> bool
        ensures { result ≡ is_granted (stage_of self.now.stage) }
    {
        match self.stage {
            Stage::Granted => true,
            Stage::Unposted | Stage::Drawn(_) | Stage::Reported { .. } | Stage::TakenBack => false,
        }
    }

    /// Whether this agent drew the last post and has not reported.
    pub(crate) fn is_drawn_by(&self, agent: u32) -> bool
        ensures { result ≡ is_drawn_by agent (stage_of self.now.stage) }
    {
        match self.stage {
            Stage::Drawn(drawer) => drawer == agent,
            Stage::Unposted | Stage::Granted | Stage::Reported { .. } | Stage::TakenBack => false,
        }
    }

    /// The word that the port shows: its stage, 0 where it is idle, and slot and flow of the last post. The slot is
    /// below 2^41, and the flow below 2^20.
    fn word(&self) -> u64
        requires { FitsWord self.now.slot self.now.flow }
        ensures { result ≡ word_of (stage_of self.now.stage) self.now.slot self.now.flow }
    {
        match self.stage {
            Stage::Unposted | Stage::TakenBack => 0,
            Stage::Granted => self.shown(PostStage::Granted),
            Stage::Drawn(_) => self.shown(PostStage::Drawn),
            Stage::Reported { .. } => self.shown(PostStage::Reported),
        }
    }

    // The word of the last post in a stage.
    fn shown(&self, stage: PostStage) -> u64
        requires fits { FitsWord self.now.slot self.now.flow }
        ensures word { (x : PortStage) → told_stage x ≡ Some stage → result ≡ word_of x self.now.slot self.now.flow }
    {
        PortWord {
            stage,
            slot: self.slot,
            flow: self.flow,
        }
        .bits()
    }

    /// Settles the last post: by the count where it was reported, and by 0 where nobody drew it, which takes it back.
    /// Where an agent has drawn it and has not reported, the answer is Busy with the word, and nothing changes. Where
    /// nothing was posted or the post was taken back, the answer is 0, and nothing changes.
    pub(crate) fn settle(&mut self) -> Happened
        requires { FitsWord self.old.slot self.old.flow }
        ensures answer { result ≡ answered_by (port_of self.old) (stage_of self.old.stage) }
        ensures port { port_of self.new ≡ settled_by (port_of self.old) (stage_of self.old.stage) }
        ensures post { self.new.slot ≡ self.old.slot }
        ensures sent { self.new.sent ≡ self.old.sent }
    {
        match self.stage {
            Stage::Reported { .. } => {
                self.settled = Some(self.count);
                Happened::Settled(self.count)
            }
            Stage::Granted => {
                self.stage = Stage::TakenBack;
                self.settled = Some(0);
                Happened::Settled(0)
            }
            Stage::Drawn(_) => Happened::Busy(self.word()),
            Stage::Unposted | Stage::TakenBack => Happened::Settled(0),
        }
    }
}
