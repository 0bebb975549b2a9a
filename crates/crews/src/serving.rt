//! The parts of a run, served beside each other.
ghost use Rattle.std.specs.Prelude.{◌≡◌, ◌+◌, ◌-◌, ◌^◌, ◌<◌, ◌≤◌, ◌++◌, ◌∷◌, [], All, AllPairs, Some, None, ℕ, length, map, slice_index_or, vec_capacity};
ghost use Rattle.port_board.specs.Agreement.{EachPosted, SharesNothing};
ghost use Rattle.port_board.specs.Views.{agents_out, Board, looked, one_more, takes_in};
ghost use Rattle.port_agent.specs.Attended.{IsFresh};
ghost use Rattle.crews.specs.declared.part.Outlet.{Outlet};
ghost use Rattle.crews.specs.declared.serving.Station.{Station};
ghost use Rattle.crews.specs.Attached.{AreAttached};
ghost use Rattle.crews.specs.Parts.{Fits, IsAttended};
ghost use Rattle.crews.specs.Sections.{AreReady, ended, place_of};
ghost use Rattle.crews.specs.Served.{AreCrewed, IsCrewed};
ghost use Rattle.crews.specs.Wires.{AllThere, AreTaken, AreThere, Distinct, wires_of};

use crate::attending::{attend_here, new_agent};
use crate::part::{Outlet, Part};
use crate::wires::{put_back, take_out};
use errands::{Giver, Helper, Tray};
use outside::Wire;
use port_board::{PortBoard, Poster};
use std::sync::Wait;

/// Where the driver of a crew gives the parts of one helper: its end of the helper's tray, and a list for the outlets
/// of a part, which is empty between runs.
pub struct Station<W: Wire> {
    pub giver: Giver<Part<W>>,
    pub outlets: Vec<Outlet<W>>,
}

/// Serves the granted ports of a run by a crew, each port once, and leaves the other ports alone. The ports are cut
/// into stretches of even length, one for the caller and one for each station, from the last station on, as far as
/// there are ports. A new agent for each stretch, which was shown all posts of the poster, tries its ports in their
/// order, and comes back. No memory is taken.
///
/// The ports are distinct and of this board. There is a wire for each port of the board, by number, and each is in its
/// place before and after. Each station has its tray at its place among the trays.
pub fn serve_crew<R: Wait, W: Wire>(
    rt: &R,
    board: &PortBoard,
    poster: &mut Poster,
    trays: &[Tray<Part<W>>],
    stations: &mut Vec<Station<W>>,
    ports: &[u32],
    wires: &mut [Option<W>],
)
    requires own { poster.old.at ≡ board.now.id }
    requires none_out { length poster.old.view.back ≡ poster.old.view.made }
    requires posted { EachPosted poster.old.view × AllPairs SharesNothing poster.old.view.back }
    requires trays { length stations.old.items ≤ length trays.now }
    requires ready { AreReady board.now trays.now board.now.ports (map place_of stations.old.items) }
    requires ports { All (λ p. p < board.now.ports) ports.now }
    requires distinct { Distinct ports.now }
    requires wires { (board.now.ports ≤ length wires.old) × AllThere wires.old }
    ensures own { (poster.new.at ≡ poster.old.at) × (poster.new.id ≡ poster.old.id) }
    ensures same { map place_of stations.new.items ≡ map place_of stations.old.items }
    ensures wires { (length wires.new ≡ length wires.old) × AllThere wires.new }
    ensures served { IsCrewed W.faults W.runs poster.old.view poster.new.view ports.now (wires_of wires.old)
        (wires_of wires.new) }
{
    let _few = board.ports();
    serve_parts(rt, board, poster, trays, stations, ports, wires);
}

// The same, while some wires may be out with other agents, and other agents may be out. The last stretch of the ports goes to the last station, and the others are served in the meantime.
fn serve_parts<R: Wait, W: Wire>(
    rt: &R,
    board: &PortBoard,
    poster: &mut Poster,
    trays: &[Tray<Part<W>>],
    stations: &mut Vec<Station<W>>,
    ports: &[u32],
    wires: &mut [Option<W>],
)
    requires own { poster.old.at ≡ board.now.id }
    requires room { agents_out poster.old.view + length ports.now < 2 ^ 32 }
    requires posted { EachPosted poster.old.view × AllPairs SharesNothing poster.old.view.back }
    requires trays { length stations.old.items ≤ length trays.now }
    requires ready { AreReady board.now trays.now (length ports.now) (map place_of stations.old.items) }
    requires ports { All (λ p. p < board.now.ports) ports.now }
    requires distinct { Distinct ports.now }
    requires there { AreThere ports.now wires.old }
    ensures own { (poster.new.at ≡ poster.old.at) × (poster.new.id ≡ poster.old.id) }
    ensures same { map place_of stations.new.items ≡ map place_of stations.old.items }
    ensures room { vec_capacity stations.new ≡ vec_capacity stations.old }
    ensures served { AreCrewed W.faults W.runs poster.old.view poster.new.view ports.now wires.old wires.new }
{
    let parts = ports.len().min(stations.len() + 1);
    if parts < 2 {
        attend_here(board, poster, ports, wires);
        return;
    }
    let Some(station) = stations.pop() else {
        unreachable!();
    };
    let Station { mut giver, outlets } = station;
    let (kept, given) = ports.split_at(ports.len() - ports.len() / parts);
    let part = begin(board, poster, outlets, given, wires);
    let Some(tray) = trays.get(stations.len()) else {
        unreachable!();
    };
    tray.give(&mut giver, part);
    serve_parts(rt, board, poster, trays, stations, kept, wires);
    let part = collect(rt, board, tray, &mut giver);
    finish(board, poster, stations, giver, part, wires);
}

// The part of a new agent, which was shown all posts, with the wires of these ports.
fn begin<W: Wire>(
    board: &PortBoard,
    poster: &mut Poster,
    outlets: Vec<Outlet<W>>,
    ports: &[u32],
    wires: &mut [Option<W>],
) -> Part<W>
    requires own { poster.old.at ≡ board.now.id }
    requires room { agents_out poster.old.view < 2 ^ 32 - 1 }
    requires distinct { Distinct ports.now }
    requires there { AreThere ports.now wires.old }
    requires outlets { (outlets.items ≡ []) × (length ports.now ≤ vec_capacity outlets) }
    ensures own { (poster.new.at ≡ poster.old.at) × (poster.new.id ≡ poster.old.id) }
    ensures poster { poster.new.view ≡ one_more poster.old.view }
    ensures fresh { IsFresh board.now.id poster.old.view.posts result.agent }
    ensures taken { AreTaken ports.now wires.old wires.new result.outlets.items }
    ensures room { vec_capacity result.outlets ≡ vec_capacity outlets }
{
    let agent = new_agent(board, poster);
    let mut outlets = outlets;
    take_out(ports, wires, &mut outlets);
    Part { agent, outlets }
}

// The agent of a part and its wires come back, and the station is again what it was.
fn finish<W: Wire>(
    board: &PortBoard,
    poster: &mut Poster,
    stations: &mut Vec<Station<W>>,
    giver: Giver<Part<W>>,
    part: Part<W>,
    wires: &mut [Option<W>],
)
    requires own { (poster.old.at ≡ board.now.id) × (part.agent.at ≡ board.now.id) }
    requires reported { part.agent.view.out ≡ [] }
    requires room { length stations.old.items < vec_capacity stations.old }
    requires distinct { Distinct (map (λ (o : Outlet W). o.port) part.outlets.items) }
    requires within { All (λ (o : Outlet W). o.port < length wires.old) part.outlets.items }
    requires gone { All (λ (o : Outlet W). slice_index_or wires.old o.port None ≡ None) part.outlets.items }
    ensures own { (poster.new.at ≡ poster.old.at) × (poster.new.id ≡ poster.old.id) }
    ensures back { (word : ℕ) × (poster.new.view ≡ looked 0 word (takes_in poster.old.view part.agent.view)) }
    ensures posted { EachPosted poster.new.view × AllPairs SharesNothing poster.new.view.back }
    ensures put { AreTaken (map (λ (o : Outlet W). o.port) part.outlets.items) wires.new wires.old part.outlets.items }
    ensures station { (s : Station W) × (stations.new.items ≡ stations.old.items ++ s ∷ []) ×
        (place_of s ≡ (giver, 0, vec_capacity part.outlets)) }
    ensures room { vec_capacity stations.new ≡ vec_capacity stations.old }
{
    let Part { agent, mut outlets } = part;
    put_back(&mut outlets, wires);
    board.back(poster, agent.into_seat());
    stations.push_reserved(Station { giver, outlets });
}

// The part, once it is attended.
fn attended<W: Wire>(board: &PortBoard, part: Part<W>) -> Part<W>
    requires fits { Fits board.now part }
    ensures { IsAttended W.faults W.runs board.now part result }
{
    let mut part = part;
    part.attend(board);
    part
}

// The part that was given to a helper, once it is attended: here, where no helper has taken it.
fn collect<R: Wait, W: Wire>(
    rt: &R,
    board: &PortBoard,
    tray: &Tray<Part<W>>,
    giver: &mut Giver<Part<W>>,
) -> Part<W>
    requires own { giver.old.at ≡ tray.now.id }
    requires board { giver.old.about ≡ board.now }
    requires given { (p : Part W) × (giver.old.out ≡ Some p) × Fits board.now p }
    ensures free { giver.new ≡ record giver.old { out = None } }
    ensures attended { (p : Part W) → giver.old.out ≡ Some p → IsAttended W.faults W.runs board.now p result }
{
    match tray.recall(giver) {
        Some(part) => attended(board, part),
        None => tray.wait(rt, giver),
    }
}

/// Nothing is given at the trays of the stations any more.
pub fn end_all<W: Wire>(trays: &[Tray<Part<W>>], stations: &mut Vec<Station<W>>)
    requires trays { length stations.old.items ≤ length trays.now }
    requires ready { (board : Board) × AreAttached board trays.now (map place_of stations.old.items) }
    ensures over { map place_of stations.new.items ≡ map ended (map place_of stations.old.items) }
    ensures room { vec_capacity stations.new ≡ vec_capacity stations.old }
{
    let Some(station) = stations.pop() else {
        return;
    };
    let Station { mut giver, outlets } = station;
    let Some(tray) = trays.get(stations.len()) else {
        unreachable!();
    };
    tray.end(&mut giver);
    end_all(trays, stations);
    stations.push_reserved(Station { giver, outlets });
}

/// Attends each part that is given, until nothing is given any more.
pub fn help<R: Wait, W: Wire>(
    rt: &R,
    board: &PortBoard,
    tray: &Tray<Part<W>>,
    helper: &mut Helper<Part<W>>,
)
    requires own { helper.old.at ≡ tray.now.id }
    requires board { helper.old.about ≡ board.now }
    requires free { helper.old.out ≡ None }
{
    for _ in rt.forever() {
        let Some(part) = tray.next(rt, helper) else {
            return;
        };
        let part = attended(board, part);
        tray.answer(helper, part);
    }
}
