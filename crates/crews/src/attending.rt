//! The agent on the thread of the caller.
ghost use Rattle.std.specs.Prelude.{◌≡◌, ◌+◌, ◌-◌, ◌^◌, ◌<◌, ◌≤◌, All, AllPairs, length};
ghost use Rattle.port_board.specs.Agreement.{EachPosted, SharesNothing};
ghost use Rattle.port_board.specs.Views.{agents_out, one_more};
ghost use Rattle.port_agent.specs.Attended.{IsFresh};
ghost use Rattle.crews.specs.Served.{AreCrewed, HasTried};
ghost use Rattle.crews.specs.Wires.{AreThere, Distinct, StayElsewhere};

use outside::Wire;
use port_agent::Agent;
use port_board::{PortBoard, Poster};

/// A new agent, which was shown all posts of the poster.
pub fn new_agent(board: &PortBoard, poster: &mut Poster) -> Agent
    requires own { poster.old.at ≡ board.now.id }
    requires room { agents_out poster.old.view < 2 ^ 32 - 1 }
    ensures own { (poster.new.at ≡ poster.old.at) × (poster.new.id ≡ poster.old.id) }
    ensures poster { poster.new.view ≡ one_more poster.old.view }
    ensures fresh { IsFresh board.now.id poster.old.view.posts result }
{
    let mut seat = board.agent(poster);
    board.show(poster, &mut seat);
    Agent::new(seat)
}

/// The agent tries once to draw at each of these ports, in their order, and sends on the wires that stand there.
pub fn attend_ports<W: Wire>(
    board: &PortBoard,
    agent: &mut Agent,
    ports: &[u32],
    wires: &mut [Option<W>],
)
    requires own { agent.old.at ≡ board.now.id }
    requires ports { All (λ p. p < board.now.ports) ports.now }
    requires distinct { Distinct ports.now }
    requires there { AreThere ports.now wires.old }
    ensures tried { HasTried W.faults W.runs board.now.ports agent.old agent.new ports.now wires.old wires.new }
    ensures stay { StayElsewhere ports.now wires.old wires.new }
{
    for port in ports {
        let Some(wire) = &mut wires[*port as usize] else {
            unreachable!();
        };
        let _drawn = agent.serve_port(board, *port, wire);
    }
}

/// A new agent, which was shown all posts of the poster, tries the ports and comes back. Where there are no ports, none
/// is made.
pub fn attend_here<W: Wire>(
    board: &PortBoard,
    poster: &mut Poster,
    ports: &[u32],
    wires: &mut [Option<W>],
)
    requires own { poster.old.at ≡ board.now.id }
    requires room { agents_out poster.old.view + length ports.now < 2 ^ 32 }
    requires posted { EachPosted poster.old.view × AllPairs SharesNothing poster.old.view.back }
    requires ports { All (λ p. p < board.now.ports) ports.now }
    requires distinct { Distinct ports.now }
    requires there { AreThere ports.now wires.old }
    ensures own { (poster.new.at ≡ poster.old.at) × (poster.new.id ≡ poster.old.id) }
    ensures served { AreCrewed W.faults W.runs poster.old.view poster.new.view ports.now wires.old wires.new }
{
    if ports.is_empty() {
        return;
    }
    let mut agent = new_agent(board, poster);
    attend_ports(board, &mut agent, ports, wires);
    board.back(poster, agent.into_seat());
}
