//! Agents on threads of their own.
ghost use Rattle.std.specs.Prelude.{◌≡◌, ◌⊎◌, ℕ, ◌+◌, ◌-◌, ◌*◌, ◌<◌, ◌≤◌, ◌^◌, List, [], ◌++◌, All, AllPairs, Contains, length, map, vec_capacity};
ghost use denote.Param.Send.{IsSync};
ghost use Rattle.port_board.specs.declared.view.Grant.{Grant};
ghost use Rattle.port_board.specs.Agreement.{EachPosted, SharesNothing};
ghost use Rattle.port_agent.specs.Attended.{AreBack, AreServed, EachTriedOnce, IsFresh, IsServedBy, kept_of};

use crate::agent::Agent;
use outside::Wire;
use port_board::{PortBoard, Poster};
use std::sync::Wait;
use std::thread::{Threads, join_mut};

/// So many new agents, which were shown all posts of the poster, serve the ports beside each other, each on a thread of
/// its own, and come back.
///
/// There is one wire for each port that is to be served, from port 0 on, in units of the grants. The list of seats is
/// empty and has room for the agents. No memory is taken.
pub fn serve_run<R: Threads + Sync, W: Wire + Send>(
    rt: &R,
    board: &PortBoard,
    poster: &mut Poster,
    seats: Vec<Agent>,
    agents: u32,
    wires: &mut [W],
)
    requires own { poster.old.at ≡ board.now.id }
    requires none_out { length poster.old.view.back ≡ poster.old.view.made }
    requires posted { EachPosted poster.old.view × AllPairs SharesNothing poster.old.view.back }
    requires seats { (seats.items ≡ []) × (agents ≤ vec_capacity seats) }
    requires some { 1 ≤ agents }
    requires ports { length wires.old ≤ board.now.ports }
    ensures own { poster.new.at ≡ poster.old.at }
    ensures same { poster.new.id ≡ poster.old.id }
    ensures many { poster.new.view.made ≡ poster.old.view.made + agents }
    ensures served { IsServedBy W.faults W.runs poster.old.view poster.new.view wires.old wires.new }
{
    let mut seats = seats;
    make_agents(board, poster, &mut seats, agents);
    serve_all(rt, board, 0, &mut seats, wires);
    take_back(board, poster, seats);
}

// Makes so many agents, and shows them all posts.
fn make_agents(board: &PortBoard, poster: &mut Poster, seats: &mut Vec<Agent>, agents: u32)
    requires own { poster.old.at ≡ board.now.id }
    requires none_out { length poster.old.view.back ≡ poster.old.view.made }
    requires seats { (seats.old.items ≡ []) × (agents ≤ vec_capacity seats.old) }
    ensures own { poster.new.at ≡ poster.old.at }
    ensures same { poster.new.id ≡ poster.old.id }
    ensures poster { poster.new.view ≡ record poster.old.view { made = poster.old.view.made + agents } }
    ensures many { length seats.new.items ≡ agents }
    ensures fresh { All (IsFresh board.now.id poster.old.view.posts) seats.new.items }
{
    for _number in 0..agents {
        let mut seat = board.agent(poster);
        board.show(poster, &mut seat);
        seats.push_reserved(Agent::new(seat));
    }
}

// The agents serve the ports from `first` on, one for each wire, each agent at its own ports next to each other.
#[tactic(auto, using(crate::proofs::Halves::halves, crate::proofs::Halves::tried_halves))]
fn serve_all<R: Threads + Sync, W: Wire + Send>(
    rt: &R,
    board: &PortBoard,
    first: u32,
    agents: &mut [Agent],
    wires: &mut [W],
)
    requires some { 1 ≤ length agents.old }
    requires fresh { (posts : List Grant) × All (IsFresh board.now.id posts) agents.old }
    requires ports { first + length wires.old ≤ board.now.ports }
    ensures seats { map kept_of agents.new ≡ map kept_of agents.old }
    ensures served { AreServed W.faults W.runs agents.new first wires.old wires.new }
    ensures tries { EachTriedOnce board.now.ports first (length wires.old) agents.new }
{
    let _few = board.ports();
    if agents.len() == 1 {
        let _served = agents[0].serve(board, first, wires);
        return;
    }
    let half = agents.len() / 2;
    let cut = wires.len() / 2;
    let (a, b) = agents.split_at_mut(half);
    let (x, y) = wires.split_at_mut(cut);
    let second = first + cut as u32;
    join_mut(
        rt,
        &mut || -> ()
            requires { IsSync R.row × (1 ≤ length a.now) ×
                ((posts : List Grant) × All (IsFresh board.now.id posts) a.now) ×
                (first + length x.now ≤ board.now.ports) }
            ensures { (map kept_of a.exit.now ≡ map kept_of a.entry.now) ×
                AreServed W.faults W.runs a.exit.now first x.entry.now x.exit.now ×
                EachTriedOnce board.entry.now.ports first (length x.entry.now) a.exit.now }
        { serve_all(rt, board, first, a, x) },
        &mut || -> ()
            requires { IsSync R.row × (1 ≤ length b.now) ×
                ((posts : List Grant) × All (IsFresh board.now.id posts) b.now) ×
                (second + length y.now ≤ board.now.ports) }
            ensures { (map kept_of b.exit.now ≡ map kept_of b.entry.now) ×
                AreServed W.faults W.runs b.exit.now second y.entry.now y.exit.now ×
                EachTriedOnce board.entry.now.ports second (length y.entry.now) b.exit.now }
        { serve_all(rt, board, second, b, y) },
    );
}

// Takes back the seats of all agents.
fn take_back(board: &PortBoard, poster: &mut Poster, seats: Vec<Agent>)
    requires own { poster.old.at ≡ board.now.id }
    requires seats { All (λ s. (s.at ≡ board.now.id) × (s.view.out ≡ [])) seats.items }
    requires posted { EachPosted poster.old.view × AllPairs SharesNothing poster.old.view.back }
    ensures own { poster.new.at ≡ poster.old.at }
    ensures same { poster.new.id ≡ poster.old.id }
    ensures back { AreBack poster.old.view poster.new.view seats.items }
{
    for agent in seats {
        board.back(poster, agent.into_seat());
    }
}
