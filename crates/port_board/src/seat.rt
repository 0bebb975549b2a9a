//! The seats at a board: that of the poster and that of an agent.
ghost use Rattle.std.specs.Prelude.{◌≡◌};
ghost use Rattle.port_board.specs.Views.{agents_out, is_unsettled};

use crate::view::Place;
use std::marker::Model;

/// The one seat that posts and settles. It makes the agents' seats.
#[derive(Drop)]
pub struct Poster {
    pub(crate) place: Place,
    pub(crate) agents: u32,
    // whether each port has an unsettled post
    pub(crate) posted: Vec<bool>,
    // for each port the number that its count word holds, where its last post was settled by the number that was sent; else 0
    pub(crate) counts: Vec<u64>,
}

impl Model for Poster {
    ghost use Rattle.std.specs.Prelude.{◌≡◌, ℕ, ◌+◌, ◌<◌, ◌≤◌, [], length, false, slice_index_or};
    ghost use Rattle.port_board.specs.declared.view.Step.TheVariants.{Rests};
    ghost use Rattle.port_board.specs.Views.{Sits, IsHeld, IsPoster, is_unsettled};

    ghost Value = { Sits };

    ghost view = { λ p. record { at = p.place.table_id; id = p.place.id; view = p.place.me.0 } };

    ghost invariant = { λ p. (p.place.me.1 ≡ []) × (p.place.me.0.step ≡ Rests) × (IsPoster p.place.me.0.kind) ×
        (length p.place.me.0.back + p.agents ≡ p.place.me.0.made) ×
        (length p.posted.items + length p.posted.items ≡ p.place.table_id.words) ×
        ((q : ℕ) → slice_index_or p.posted.items q false ≡ is_unsettled q p.place.me.0.posts p.place.me.0.settled) ×
        (length p.counts.items ≡ length p.posted.items) ×
        ((q : ℕ) → 0 < slice_index_or p.counts.items q 0 →
        IsHeld q (slice_index_or p.counts.items q 0) p.place.me.0) };
}

impl Poster {
    /// The number of agents made and not back.
    pub fn agents(&self) -> u32
        ensures { result ≡ agents_out self.now.view }
    {
        self.agents
    }

    /// Whether the port has a post that is not settled.
    pub fn posted(&self, port: u32) -> bool
        ensures { result ≡ is_unsettled port self.now.view.posts self.now.view.settled }
    {
        match self.posted.get(port as usize) {
            Some(posted) => *posted,
            None => false,
        }
    }
}

/// The seat of an agent: a thread that draws grants and reports what it sent.
#[derive(Drop)]
pub struct AgentSeat {
    pub(crate) place: Place,
    pub(crate) ports: u32,
}

impl Model for AgentSeat {
    ghost use Rattle.std.specs.Prelude.{◌≡◌, ◌+◌, ◌<◌, [], All};
    ghost use Rattle.coflow_units.specs.PortWord.{FitsWord};
    ghost use Rattle.port_board.specs.declared.view.Grant.{Grant};
    ghost use Rattle.port_board.specs.declared.view.Kind.TheVariants.{Agent};
    ghost use Rattle.port_board.specs.declared.view.Step.TheVariants.{Rests};
    ghost use Rattle.port_board.specs.Views.{Sits, number_of};

    ghost Value = { Sits };

    ghost view = { λ s. record { at = s.place.table_id; id = s.place.id; view = s.place.me.0 } };

    ghost invariant = { λ s. (s.place.me.1 ≡ []) × (s.place.me.0.step ≡ Rests) ×
        (s.place.me.0.kind ≡ Agent (number_of s.place.me.0.kind)) × (s.ports + s.ports ≡ s.place.table_id.words) ×
        All (λ (g : Grant). (g.port < s.ports) × FitsWord g.slot g.flow) s.place.me.0.out };
}
