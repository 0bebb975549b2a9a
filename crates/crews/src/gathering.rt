//! A crew is gathered before its first run, and parts after its last.
ghost use Rattle.std.specs.Prelude.{◌≡◌, ℕ, ◌+◌, ◌/◌, ◌<◌, ◌≤◌, ◌++◌, [], true, IfSome, IfNone, length, map, take, drop, Some, vec_capacity};
ghost use Rattle.errands.specs.Models.{EndModel};
ghost use Rattle.port_board.specs.Views.{Board};
ghost use Rattle.crews.specs.declared.part.Part.{Part};
ghost use Rattle.crews.specs.Attached.{AreOver};
ghost use Rattle.crews.specs.Sections.{helper_at, place_of};
ghost use Rattle.crews.specs.Gathering.{AreMade, HaveNoOutlets, HaveRoom, IsGathered, IsNew};
ghost use Rattle.crews.specs.Wires.{wires_of};

use crate::part::Part;
use crate::serving::{Station, end_all};
use errands::{Helper, Tray};
use outside::Wire;
use port_board::PortBoard;
use std::alloc::Global;

/// The trays of a crew, the helpers at them, the stations, the wires of the ports, by number, and the wires that no
/// port has.
pub struct Gathered<W: Wire> {
    pub trays: Vec<Tray<Part<W>>>,
    pub helpers: Vec<Helper<Part<W>>>,
    pub stations: Vec<Station<W>>,
    pub wires: Vec<Option<W>>,
    pub far: Vec<W>,
}

/// Gathers a crew of so many agents, at most one for each port, and takes the wires: one for each port, by number, and
/// then those that no port has. The caller is one of the agents, and each other has a tray, a helper and a station.
/// None is want of memory, and leaves the wires as they were.
pub fn gather<W: Wire>(
    alloc: Global,
    board: &PortBoard,
    agents: u32,
    wires: &mut Vec<W>,
) -> Option<Gathered<W>>
    requires agents { 1 ≤ agents }
    requires wires { board.now.ports ≤ length wires.old.items }
    ensures gathered { IfSome result (λ all. IsGathered board.now agents wires.old.items all) }
    ensures taken { IfSome result (λ all. wires.new.items ≡ []) }
    ensures none { IfNone result (wires.new.items ≡ wires.old.items) }
    ensures room { vec_capacity wires.new ≡ vec_capacity wires.old }
{
    let ports = board.ports();
    let agents = agents.min(ports);
    let far = wires.len() - ports as usize;
    let mut all = with_room(alloc, agents as usize, ports as usize, far)?;
    if !make_stations(alloc, board, agents, &mut all) {
        disperse(all);
        return None;
    }
    move_back(wires, ports as usize, &mut all.far);
    move_all(wires, &mut all.wires);
    Some(all)
}

// A crew of nobody, with room for so many agents, and for so many wires of ports and others.
fn with_room<W: Wire>(alloc: Global, agents: usize, ports: usize, far: usize) -> Option<Gathered<W>>
    ensures new { IfSome result (λ all. IsNew all × HaveRoom agents ports far all) }
{
    let helpers = Vec::with_capacity(alloc, agents).ok()?;
    let Ok(trays) = Vec::with_capacity(alloc, agents) else {
        return None;
    };
    let Ok(stations) = Vec::with_capacity(alloc, agents) else {
        trays.destroy_empty();
        return None;
    };
    let Ok(wires) = Vec::with_capacity(alloc, ports) else {
        trays.destroy_empty();
        stations.destroy_empty();
        return None;
    };
    let Ok(far) = Vec::with_capacity(alloc, far) else {
        trays.destroy_empty();
        stations.destroy_empty();
        wires.destroy_empty();
        return None;
    };
    Some(Gathered {
        trays,
        helpers,
        stations,
        wires,
        far,
    })
}

// The longest sleep of a helper beside so many agents, in microseconds.
fn longest_sleep(agents: u32) -> u64 {
    if agents > 8 { 4000 } else { 1000 }
}

// The stations of so many agents but one, each with room for an even share of the ports. Whether there was memory for all.
fn make_stations<W: Wire>(
    alloc: Global,
    board: &PortBoard,
    agents: u32,
    all: &mut Gathered<W>,
) -> bool
    requires agents { 1 ≤ agents }
    requires new { IsNew all.old }
    requires room { (agents ≤ vec_capacity all.old.trays) × (agents ≤ vec_capacity all.old.helpers) ×
        (agents ≤ vec_capacity all.old.stations) }
    ensures made { AreMade board.now (board.now.ports / agents + 1) all.new.trays.items all.new.helpers.items
        all.new.stations.items }
    ensures whole { result ≡ true → length all.new.stations.items + 1 ≡ agents }
    ensures stay { (all.new.wires ≡ all.old.wires) × (all.new.far ≡ all.old.far) }
{
    let share = board.ports() / agents + 1;
    for _number in 1..agents {
        if !add_station(alloc, board, agents, share, all) {
            return false;
        }
    }
    true
}

// One more station beside so many agents, with room for a share of so many ports. Whether there was memory for it.
fn add_station<W: Wire>(
    alloc: Global,
    board: &PortBoard,
    agents: u32,
    share: u32,
    all: &mut Gathered<W>,
) -> bool
    requires made { AreMade board.now share all.old.trays.items all.old.helpers.items all.old.stations.items }
    requires trays { length all.old.trays.items < vec_capacity all.old.trays }
    requires helpers { length all.old.helpers.items < vec_capacity all.old.helpers }
    requires stations { length all.old.stations.items < vec_capacity all.old.stations }
    ensures made { AreMade board.now share all.new.trays.items all.new.helpers.items all.new.stations.items }
    ensures one { result ≡ true → length all.new.stations.items ≡ length all.old.stations.items + 1 }
    ensures room { (vec_capacity all.new.trays ≡ vec_capacity all.old.trays) ×
        (vec_capacity all.new.helpers ≡ vec_capacity all.old.helpers) ×
        (vec_capacity all.new.stations ≡ vec_capacity all.old.stations) }
    ensures stay { (all.new.wires ≡ all.old.wires) × (all.new.far ≡ all.old.far) }
{
    let Ok(outlets) = Vec::with_capacity(alloc, share as usize) else {
        return false;
    };
    let Ok((tray, mut giver)) = Tray::new(alloc, board) else {
        outlets.destroy_empty();
        return false;
    };
    let helper = tray.helper(&mut giver, longest_sleep(agents));
    all.trays.push_reserved(tray);
    all.helpers.push_reserved(helper);
    all.stations.push_reserved(Station { giver, outlets });
    true
}

// Frees a crew with no wires, for which memory was wanting.
fn disperse<W: Wire>(all: Gathered<W>)
    requires made { (board : Board) × (share : ℕ) × AreMade board share all.trays.items all.helpers.items
        all.stations.items }
    requires none { (all.wires.items ≡ []) × (all.far.items ≡ []) }
{
    let Gathered {
        trays,
        helpers: _,
        mut stations,
        wires,
        far,
    } = all;
    end_all(&trays, &mut stations);
    close_all(trays, stations);
    wires.destroy_empty();
    far.destroy_empty();
}

/// Frees the stations of a crew and their trays, at which nothing is given any more. The wires of the ports go behind
/// others.
pub fn retire<W: Wire>(
    trays: Vec<Tray<Part<W>>>,
    stations: Vec<Station<W>>,
    wires: Vec<Option<W>>,
    to: &mut Vec<W>,
)
    requires many { length stations.items ≡ length trays.items }
    requires over { AreOver trays.items (map place_of stations.items) }
    requires none { HaveNoOutlets (map place_of stations.items) }
    requires room { length to.old.items + length wires.items ≤ vec_capacity to.old }
    ensures to { to.new.items ≡ to.old.items ++ wires_of wires.items }
    ensures room { vec_capacity to.new ≡ vec_capacity to.old }
{
    close_all(trays, stations);
    move_there(wires, to);
}

// Frees the stations and their trays.
fn close_all<W: Wire>(trays: Vec<Tray<Part<W>>>, stations: Vec<Station<W>>)
    requires many { length stations.items ≡ length trays.items }
    requires over { AreOver trays.items (map place_of stations.items) }
    requires none { HaveNoOutlets (map place_of stations.items) }
{
    let mut trays = trays;
    let mut stations = stations;
    close_each(&mut trays, &mut stations);
    trays.destroy_empty();
    stations.destroy_empty();
}

// The same, and the lists of trays and stations stay.
fn close_each<W: Wire>(trays: &mut Vec<Tray<Part<W>>>, stations: &mut Vec<Station<W>>)
    requires many { length stations.old.items ≡ length trays.old.items }
    requires over { AreOver trays.old.items (map place_of stations.old.items) }
    requires none { HaveNoOutlets (map place_of stations.old.items) }
    ensures none { (trays.new.items ≡ []) × (stations.new.items ≡ []) }
{
    let Some(station) = stations.pop() else {
        return;
    };
    let Some(tray) = trays.pop() else {
        unreachable!();
    };
    let Station { giver, outlets } = station;
    tray.close(giver);
    outlets.destroy_empty();
    close_each(trays, stations);
}

/// All of one vector goes behind what the other has.
pub fn append<W>(from: Vec<W>, to: &mut Vec<W>)
    requires room { length to.old.items + length from.items ≤ vec_capacity to.old }
    ensures to { to.new.items ≡ to.old.items ++ from.items }
    ensures room { vec_capacity to.new ≡ vec_capacity to.old }
{
    let mut rest = from;
    rest.as_mut_slice().reverse();
    while let Some(wire) = rest.pop() {
        to.push_reserved(wire);
    }
    rest.destroy_empty();
}

// The wires that are in their places go behind others.
fn move_there<W>(from: Vec<Option<W>>, to: &mut Vec<W>)
    requires room { length to.old.items + length from.items ≤ vec_capacity to.old }
    ensures to { to.new.items ≡ to.old.items ++ wires_of from.items }
    ensures room { vec_capacity to.new ≡ vec_capacity to.old }
{
    let mut rest = from;
    rest.as_mut_slice().reverse();
    while let Some(place) = rest.pop() {
        match place {
            Some(wire) => to.push_reserved(wire),
            None => {}
        }
    }
    rest.destroy_empty();
}

// Moves what stands from a place on behind another vector, which is empty, in order.
fn move_back<W>(from: &mut Vec<W>, at: usize, to: &mut Vec<W>)
    requires at { at ≤ length from.old.items }
    requires to { to.old.items ≡ [] }
    requires room { length from.old.items ≤ at + vec_capacity to.old }
    ensures from { from.new.items ≡ take at from.old.items }
    ensures to { to.new.items ≡ drop at from.old.items }
    ensures room { vec_capacity from.new ≡ vec_capacity from.old }
{
    while from.len() > at {
        let Some(wire) = from.pop() else {
            unreachable!();
        };
        to.push_reserved(wire);
    }
    to.as_mut_slice().reverse();
}

// Moves all wires into their places, in order.
fn move_all<W>(from: &mut Vec<W>, to: &mut Vec<Option<W>>)
    requires to { to.old.items ≡ [] }
    requires room { length from.old.items ≤ vec_capacity to.old }
    ensures none { from.new.items ≡ [] }
    ensures to { to.new.items ≡ map (λ (w : W). Some w) from.old.items }
    ensures room { vec_capacity from.new ≡ vec_capacity from.old }
{
    from.as_mut_slice().reverse();
    while let Some(wire) = from.pop() {
        to.push_reserved(Some(wire));
    }
}
