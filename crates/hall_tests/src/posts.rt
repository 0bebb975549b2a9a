//! Posts at ports in an order that is known.
ghost use Rattle.std.specs.Prelude.{◌≡◌, ◌≤◌, [], Contains};
ghost use Rattle.port_board.specs.declared.view.Grant.{Grant};

use port_board::{AgentSeat, Draw, PortBoard, Poster, Settled};
use std::process::Abort;

// The word of a port whose grant of flow 0 in slot 1 is drawn.
const DRAWN: u64 = 4611686018428436480;

// What an answer was, for a comparison. A grant that is drawn is reported in full.
#[derive(Clone, Copy, PartialEq)]
enum Seen {
    Took(u64),
    Idle(u64),
    Missed(u64, u64),
    Settled(Settled),
}

fn finish(board: &PortBoard, seat: &mut AgentSeat, draw: Draw) -> Seen
    requires own { seat.old.at ≡ board.now.id }
    requires drawn { (g : Grant) → draw ≡ Draw.Drawn g → Contains seat.old.view.out g }
    ensures own { seat.new.at ≡ board.entry.now.id }
{
    match draw {
        Draw::Drawn(drawn) => {
            let length = drawn.length();
            board.report(seat, drawn, length);
            Seen::Took(length)
        }
        Draw::Idle(word) => Seen::Idle(word),
        Draw::Missed { loaded, found } => Seen::Missed(loaded, found),
    }
}

// The poster's first post: flow 0 at port 0 in slot 1, of length 1.
fn post_first(board: &PortBoard, poster: &mut Poster)
    requires own { poster.old.at ≡ board.now.id }
    requires none { (poster.old.view.posts ≡ []) × (1 ≤ board.now.ports) }
    ensures own { poster.new.at ≡ board.entry.now.id }
{
    board.post(poster, 0, 1, 0, 1);
}

// Settles the post at port 0, which is unsettled until then.
fn settled(rt: &impl Abort, board: &PortBoard, poster: &mut Poster) -> Seen
    requires own { poster.old.at ≡ board.now.id }
    requires port { 1 ≤ board.now.ports }
    ensures own { poster.new.at ≡ board.entry.now.id }
{
    assert!(rt; poster.posted(0), "the post is unsettled");
    Seen::Settled(board.settle(poster, 0))
}

// Two agents draw the poster's first post, which is settled before the one that drew it reports, and after that.
fn drawn_by_two(
    rt: &impl Abort,
    board: &PortBoard,
    poster: &mut Poster,
    first: &mut AgentSeat,
    second: &mut AgentSeat,
) -> [Seen; 5]
    requires own { (poster.old.at ≡ board.now.id) × (first.old.at ≡ board.now.id) × (second.old.at ≡ board.now.id) }
    requires none { (poster.old.view.posts ≡ []) × (1 ≤ board.now.ports) }
{
    post_first(board, poster);
    board.show(poster, first);
    let one = board.draw(first, 0);
    let two = board.draw(second, 0);
    [
        finish(board, second, two),
        settled(rt, board, poster),
        settled(rt, board, poster),
        finish(board, first, one),
        settled(rt, board, poster),
    ]
}

#[test]
fn one_of_two_agents_draws(rt: HostRuntime) {
    let Ok((board, mut poster)) = PortBoard::new(rt.alloc(), 2) else {
        panic!(&rt; "no memory");
    };
    let mut first = board.agent(&mut poster);
    let mut second = board.agent(&mut poster);
    let seen = drawn_by_two(&rt, &board, &mut poster, &mut first, &mut second);
    let want = [
        Seen::Idle(DRAWN),
        Seen::Settled(Settled::Busy(DRAWN)),
        Seen::Settled(Settled::Busy(DRAWN)),
        Seen::Took(1),
        Seen::Settled(Settled::Sent(1)),
    ];
    assert!(rt; seen == want);
    let left = (poster.posted(0), poster.posted(1), poster.agents());
    assert!(rt; left == (false, false, 2));
}

#[test]
fn a_grant_that_nobody_draws_is_taken_back(rt: HostRuntime) {
    let Ok((board, mut poster)) = PortBoard::new(rt.alloc(), 2) else {
        panic!(&rt; "no memory");
    };
    let mut seat = board.agent(&mut poster);
    post_first(&board, &mut poster);
    let back = settled(&rt, &board, &mut poster);
    let late = board.draw(&mut seat, 0);
    let seen = [back, finish(&board, &mut seat, late)];
    assert!(rt; seen == [Seen::Settled(Settled::TakenBack), Seen::Idle(0)]);
}
