//! The part of one agent in a run.
ghost use Rattle.crews.specs.Parts.{Fits, IsAttended};

use errands::Errand;
use outside::Wire;
use port_agent::Agent;
use port_board::PortBoard;

/// A port with its wire.
pub struct Outlet<W> {
    /// The number of the port.
    pub port: u32,
    /// The wire on which its units are sent.
    pub wire: W,
}

/// An agent, and the ports that it attends, each with its wire.
pub struct Part<W> {
    /// The agent, with what it has drawn.
    pub agent: Agent,
    /// The ports, in the order in which the agent tries them.
    pub outlets: Vec<Outlet<W>>,
}

impl<W: Wire> Errand for Part<W> {
    ghost use Rattle.crews.specs.Parts.{Fits, IsAttended};

    type About = PortBoard;

    ghost fits = { Fits };

    ghost done = { IsAttended W.faults W.runs };
}

impl<W: Wire> Part<W> {
    /// The agent tries once to draw at each of its ports, in their order.
    pub fn attend(&mut self, board: &PortBoard)
        requires fits { Fits board.now self.old }
        ensures attended { IsAttended W.faults W.runs board.now self.old self.new }
    {
        let Part { agent, outlets } = self;
        for outlet in outlets.iter_mut() {
            let _drawn = agent.serve_port(board, outlet.port, &mut outlet.wire);
        }
    }
}
