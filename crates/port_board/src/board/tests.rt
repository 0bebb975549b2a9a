ghost use Rattle.std.specs.Prelude.{◌≡◌, ◌≤◌, [], Contains};
ghost use Rattle.port_board.specs.declared.view.Grant.{Grant};

use crate::answer::{Draw, Drawn};
use crate::board::PortBoard;
use crate::seat::{AgentSeat, Poster};
use std::test::*;

const GRANTED: u64 = 2305843009214742528;

const DRAWN: u64 = 4611686018428436480;

// Reports a drawn grant in full: its length, or 0 where none was drawn.
fn reported(board: &PortBoard, seat: &mut AgentSeat, draw: Draw) -> u64
    requires own { seat.old.at ≡ board.now.id }
    requires drawn { (g : Grant) → draw ≡ Draw.Drawn g → Contains seat.old.view.out g }
{
    match draw {
        Draw::Drawn(drawn) => {
            let length = drawn.length();
            board.report(seat, drawn, length);
            length
        }
        Draw::Idle(_) => 0,
        Draw::Missed {
            loaded: _,
            found: _,
        } => 0,
    }
}

// The poster's first post: flow 0 at port 0 in slot 1, of length 1.
fn post_first(board: &PortBoard, poster: &mut Poster)
    requires own { poster.old.at ≡ board.now.id }
    requires none { (poster.old.view.posts ≡ []) × (1 ≤ board.now.ports) }
    ensures own { poster.new.at ≡ board.entry.now.id }
{
    board.post(poster, 0, 1, 0, 1);
}

// Whether a draw missed in these words. A drawn grant of a seat that was taken apart is reported by nobody.
fn has_missed(draw: Draw, at_first: u64, then: u64) -> bool {
    match draw {
        Draw::Drawn(drawn) => {
            let Drawn {
                port: _,
                slot: _,
                flow: _,
                length: _,
            } = drawn;
            false
        }
        Draw::Idle(_) => false,
        Draw::Missed { loaded, found } => loaded == at_first && found == then,
    }
}

#[test]
fn an_agent_that_loaded_first_may_miss(rt: HostRuntime) {
    let Ok((board, mut poster)) = PortBoard::new(rt.alloc(), 2) else {
        panic!(rt; "no memory");
    };
    let mut first = board.agent(&mut poster);
    let second = board.agent(&mut poster);
    post_first(&board, &mut poster);
    let AgentSeat {
        mut place,
        ports: _,
    } = second;
    let Ok(loaded) = board.look(&mut place, 0) else {
        panic!(rt; "idle");
    };
    let one = board.draw(&mut first, 0);
    let two = board.exchange(&mut place, 0, loaded);
    assert!(rt; has_missed(two, GRANTED, DRAWN));
    assert!(rt; reported(&board, &mut first, one) == 1);
}
