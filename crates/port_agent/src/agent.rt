//! An agent and its round over the ports.
ghost use Rattle.std.specs.Prelude.{◌≡◌, ◌+◌, ◌<◌, ◌≤◌, length, ◌-◌, ◌^◌};
ghost use Rattle.port_agent.specs.Served.{IsRound, ServesPort, adds};

use outside::Wire;
use port_board::{AgentSeat, Draw, PortBoard};
use std::marker::Model;

/// An agent: a seat at the ports.
#[derive(Drop)]
pub struct Agent {
    seat: AgentSeat,
}

impl Model for Agent {
    ghost use Rattle.port_board.specs.Views.{Sits};

    ghost Value = { Sits };

    ghost view = { λ a. a.seat };
}

/// What a round came to.
#[derive(Clone, Copy, Debug, PartialEq, Eq)]
pub struct Served {
    /// The grants that were drawn.
    pub drawn: u32,
    /// The sum of their reported numbers.
    pub sent: u64,
    /// The grants that a wire did not accept whole.
    pub short: u32,
}

impl Served {
    // One more grant of this length, of which so many units were sent.
    fn add(&mut self, length: u64, sent: u64)
        requires { (self.old.drawn < 2 ^ 32 - 1) × (self.old.short < 2 ^ 32 - 1) × (self.old.sent + sent < 2 ^ 64) }
        ensures { adds length sent self.old self.new }
    {
        self.drawn += 1;
        self.sent += sent;
        if sent < length {
            self.short += 1;
        }
    }
}

impl Agent {
    /// An agent with this seat.
    pub fn new(seat: AgentSeat) -> Agent
        ensures { result ≡ seat }
    {
        Agent { seat }
    }

    /// The seat, with all that it drew.
    pub fn into_seat(self) -> AgentSeat
        ensures { result ≡ self }
    {
        let Agent { seat } = self;
        seat
    }

    /// Tries once to draw at each port from `first` on, one for each wire. What it draws it sends on the wire of the
    /// port, and reports how much the wire accepted.
    ///
    /// The seat is of this board, which has at least `first` ports and one more for each wire.
    pub fn serve<W: Wire>(&mut self, board: &PortBoard, first: u32, wires: &mut [W]) -> Served
        requires own { self.old.at ≡ board.now.id }
        requires ports { first + length wires.old ≤ board.now.ports }
        ensures own { self.new.at ≡ self.old.at }
        ensures same { self.new.id ≡ self.old.id }
        ensures out { self.new.view.out ≡ self.old.view.out }
        ensures shown { self.new.view.shown ≡ self.old.view.shown }
        ensures round { IsRound W.faults W.runs board.now.ports first self.old.view self.new.view wires.old wires.new
            result }
    {
        let _few = board.ports();
        let mut served = Served {
            drawn: 0,
            sent: 0,
            short: 0,
        };
        for offset in 0..wires.len() {
            let port = first + offset as u32;
            let Some((length, sent)) = self.serve_port(board, port, &mut wires[offset]) else {
                continue;
            };
            served.add(length, sent);
        }
        served
    }

    /// Tries once to draw at a port. What it draws it sends on the wire of the port, and reports how much the wire
    /// accepted.
    ///
    /// The seat is of this board, which has the port. The answer is the length of the grant that was drawn and the
    /// units that the wire accepted, both in units of the grants; it is none where nothing was drawn.
    pub fn serve_port<W: Wire>(
        &mut self,
        board: &PortBoard,
        port: u32,
        wire: &mut W,
    ) -> Option<(u64, u64)>
        requires own { self.old.at ≡ board.now.id }
        requires port { port < board.now.ports }
        ensures own { self.new.at ≡ self.old.at }
        ensures same { self.new.id ≡ self.old.id }
        ensures port { ServesPort W.faults W.runs board.now.ports port self.old.view self.new.view wire.old wire.new
            result }
    {
        match board.draw(&mut self.seat, port) {
            Draw::Drawn(drawn) => {
                let length = drawn.length();
                let sent = wire.send(drawn.slot(), drawn.flow(), length);
                board.report(&mut self.seat, drawn, sent);
                Some((length, sent))
            }
            Draw::Idle(_word) => None,
            Draw::Missed {
                loaded: _loaded,
                found: _found,
            } => None,
        }
    }
}
