//! The table of loads, and its totals.
ghost use Rattle.std.specs.Prelude.{◌≡◌, ◌≢◌, ℕ, ◌+◌, ◌*◌, ◌^◌, ◌<◌, ◌≤◌, true, false, All, IsTrue, List, [], ◌∷◌, IfOk, if◌then◌else◌, length, slice_index, sum, sum_by};
ghost use Rattle.coflow_units.specs.declared.limits.TheConstants.{MAX_COFLOWS, MAX_PORTS};
ghost use Rattle.coflow_units.specs.declared.fabric.Flow.{Flow};
ghost use Rattle.coflow_units.specs.declared.fabric.Port.{Port};
ghost use Rattle.coflow_units.specs.Flows.{with_units};
ghost use Rattle.coflow_units.specs.Load.{load, loads};
ghost use Rattle.coflow_units.specs.Ordering.{port_place};
ghost use Rattle.port_load.specs.LoadTable.{DropsCoflow, HasLoads, IsSameSize, IsWithin, flows_without, is_present, load_at, total_at};
ghost use Rattle.port_load.specs.CellTable.{HasSizeOf, cells_in};
ghost use Rattle.port_load.specs.Kept.{IsColumnCleared, row_total};
ghost use Rattle.port_load.specs.MarkTable.{mark_at};

use crate::cells::Cells;
use crate::marks::Marks;
use coflow_units::{Flow, NoMemory, Port, Side};
use std::alloc::Global;
use std::marker::Model;

/// The load, in units, of each coflow on each port, with the total of each port.
///
/// Contracts see a `Loads` as its number of coflows, its number of ports on each side, and its cells.
#[derive(Drop)]
pub struct Loads {
    coflows: u32,
    ports: u32,
    /// Port by port, ingress ports before egress ports, the loads of the coflows by number.
    cells: Cells,
    totals: Vec<u64>,
    /// For each port the coflows that may have load there.
    by_port: Marks,
    /// For each coflow the ports, by their rows, on which it may have load.
    by_coflow: Marks,
}

impl Model for Loads {
    ghost use Rattle.port_load.specs.LoadTable.{LoadTable};
    ghost use Rattle.port_load.specs.CellTable.{cells_in};
    ghost use Rattle.port_load.specs.Kept.{IsKeptIn};

    ghost Value = { LoadTable };

    ghost view = { λ s. record { coflows = s.coflows; ports = s.ports; cells = cells_in s.cells } };

    ghost invariant = { λ s. IsKeptIn s.coflows s.ports s.cells s.totals.items s.by_port s.by_coflow };
}

impl Loads {
    /// The loads of the flows. Coflows count from 0 to `coflows`, at most 4096 of them, and the ports of a side from 0
    /// to `ports`, from 1 to 1025 of them. The units of the flows sum to at most 2^62. The error is want of memory.
    pub fn of(alloc: Global, flows: &[Flow], coflows: u32, ports: u32) -> Result<Loads, NoMemory>
        requires coflows_limit { coflows ≤ MAX_COFLOWS }
        requires has_ports { 1 ≤ ports }
        requires ports_limit { ports ≤ MAX_PORTS + 1 }
        requires within { IsWithin flows.now coflows ports }
        requires units { sum_by (λ (x : Flow). x.units) flows.now ≤ 2 ^ 62 }
        ensures coflows_are { IfOk result (λ t. t.coflows ≡ coflows) }
        ensures ports_are { IfOk result (λ t. t.ports ≡ ports) }
        ensures loads_are { IfOk result (λ t. HasLoads flows.now t) }
        ensures totals_within { IfOk result (λ t. (port : Port) → port.number < ports →
            total_at t port ≤ sum_by (λ (x : Flow). x.units) flows.now) }
    {
        let mut loads = Loads::empty(alloc, coflows, ports)?;
        for flow in flows {
            loads.add(*flow);
        }
        Ok(loads)
    }

    /// Computes the loads anew: each flow of a present coflow counts with the units that it has left, one number in
    /// `left` for each flow and one mark in `present` for each coflow.
    pub fn fill(&mut self, flows: &[Flow], left: &[u64], present: &[bool])
        requires within { IsWithin flows.now self.old.coflows self.old.ports }
        requires left_len { length left.now ≡ length flows.now }
        requires present_len { length present.now ≡ self.old.coflows }
        requires units { sum left.now ≤ 2 ^ 62 }
        ensures size { IsSameSize self.old self.new }
        ensures present_are { (coflow : ℕ) (port : Port) → coflow < self.old.coflows → port.number < self.old.ports →
            is_present present.now coflow ≡ true →
            load_at self.new coflow port ≡ load (with_units (λ f. slice_index left.now f) flows.now) coflow port }
        ensures absent_are { (coflow : ℕ) (port : Port) → coflow < self.old.coflows → port.number < self.old.ports →
            is_present present.now coflow ≡ false →
            load_at self.new coflow port ≡ 0 }
        ensures totals_within { (port : Port) → port.number < self.old.ports → total_at self.new port ≤ sum left.now }
    {
        self.clear();
        for number in 0..flows.len() {
            let units = left[number];
            if units == 0 {
                continue;
            }
            let flow = flows[number];
            if !present[flow.coflow as usize] {
                continue;
            }
            self.add(Flow {
                coflow: flow.coflow,
                ingress: flow.ingress,
                egress: flow.egress,
                units,
            });
        }
    }

    /// The number of coflows.
    pub fn coflows(&self) -> u32
        ensures coflows_are { result ≡ self.now.coflows }
        ensures limit { self.now.coflows ≤ MAX_COFLOWS }
    {
        self.coflows
    }

    /// The number of ports on each side.
    pub fn ports(&self) -> u32
        ensures ports_are { result ≡ self.now.ports }
        ensures has_ports { 1 ≤ self.now.ports }
        ensures limit { self.now.ports ≤ MAX_PORTS + 1 }
    {
        self.ports
    }

    /// The load of a coflow on a port, in units.
    pub fn get(&self, coflow: u32, port: Port) -> u64
        requires coflow_in { coflow < self.now.coflows }
        requires port_in { port.number < self.now.ports }
        ensures { result ≡ load_at self.now coflow port }
    {
        self.cells.get(row_of(port, self.ports), coflow as usize)
    }

    /// The load of all coflows on a port, in units. It is kept, and not added up here.
    pub fn total(&self, port: Port) -> u64
        requires { port.number < self.now.ports }
        ensures { result ≡ total_at self.now port }
    {
        self.totals[row_of(port, self.ports)]
    }

    /// The load of all coflows on each port of a side, in units, by number. They are kept, and not added up here.
    pub fn totals(&self, side: Side) -> &[u64]
        ensures count { length result.now ≡ self.now.ports }
        ensures has_ports { 1 ≤ self.now.ports }
        ensures totals { (number : ℕ) → number < self.now.ports →
            slice_index result.now number ≡ total_at self.now record { side = side; number = number } }
    {
        let ports = self.ports as usize;
        match side {
            Side::Ingress => &self.totals[..ports],
            Side::Egress => &self.totals[ports..],
        }
    }

    /// The first coflow, from a number on, that has load on the port, or the number of coflows where there is none. A
    /// walk along a port costs a step for 64 coflows, and one for each that has load, or had it when it was dropped.
    pub fn next_loaded(&self, port: Port, from: u32) -> u32
        requires port_in { port.number < self.now.ports }
        requires from_in { from ≤ self.now.coflows }
        ensures after { from ≤ result }
        ensures within { result ≤ self.now.coflows }
        ensures loaded { result < self.now.coflows → 0 < load_at self.now result port }
        ensures none { (coflow : ℕ) → from ≤ coflow → coflow < result → load_at self.now coflow port ≡ 0 }
    {
        let row = row_of(port, self.ports);
        let columns = self.coflows as usize;
        let mut coflow = self.by_port.next(row, from as usize);
        'marked: while coflow < columns {
            if self.cells.get(row, coflow) > 0 {
                return coflow as u32;
            }
            coflow = self.by_port.next(row, coflow + 1);
        }
        self.coflows
    }

    /// Takes the loads of a coflow away. The others stay, and the totals are those of the others.
    pub fn drop_coflow(&mut self, coflow: u32)
        requires { coflow < self.old.coflows }
        ensures dropped { DropsCoflow self.old self.new coflow }
        // where the table had the loads of some flows, it has those of the flows of the other coflows
        ensures anew { (flows : List Flow) → HasLoads flows self.old →
            HasLoads (flows_without (coflow ∷ []) flows) self.new }
    {
        clear_column(
            &mut self.cells,
            &mut self.totals,
            &self.by_coflow,
            coflow as usize,
        );
    }

    fn empty(alloc: Global, coflows: u32, ports: u32) -> Result<Loads, NoMemory>
        requires coflows_limit { coflows ≤ MAX_COFLOWS }
        requires has_ports { 1 ≤ ports }
        requires ports_limit { ports ≤ MAX_PORTS + 1 }
        ensures coflows_are { IfOk result (λ t. t.coflows ≡ coflows) }
        ensures ports_are { IfOk result (λ t. t.ports ≡ ports) }
        ensures none { IfOk result (λ t. (coflow : ℕ) (port : Port) → load_at t coflow port ≡ 0) }
    {
        let rows = 2 * ports as usize;
        let cells = Cells::zeros(alloc, rows, coflows as usize)?;
        let totals = vec![in alloc; 0; rows]?;
        let by_port = Marks::none(alloc, rows, coflows as usize)?;
        let by_coflow = Marks::none(alloc, coflows as usize, rows)?;
        Ok(Loads {
            coflows,
            ports,
            cells,
            totals,
            by_port,
            by_coflow,
        })
    }

    /// Takes all loads away.
    pub(crate) fn clear(&mut self)
        ensures size { IsSameSize self.old self.new }
        ensures none { (coflow : ℕ) (port : Port) → coflow < self.old.coflows → port.number < self.old.ports →
            load_at self.new coflow port ≡ 0 }
    {
        if !self.is_empty() {
            self.drop_all();
        }
        self.forget_marks();
    }

    /// Whether no port has load: then no coflow has.
    fn is_empty(&self) -> bool
        ensures { IsTrue result → (coflow : ℕ) (port : Port) → coflow < self.now.coflows →
            port.number < self.now.ports → load_at self.now coflow port ≡ 0 }
    {
        are_zeros(&self.totals)
    }

    /// Takes the loads of all coflows away, coflow by coflow along its marks, so that the room that was written stays
    /// in use.
    fn drop_all(&mut self)
        ensures size { IsSameSize self.old self.new }
        ensures none { (coflow : ℕ) (port : Port) → coflow < self.old.coflows → port.number < self.old.ports →
            load_at self.new coflow port ≡ 0 }
    {
        for coflow in 0..self.coflows {
            self.drop_coflow(coflow);
        }
    }

    /// Takes the marks away, where no coflow has load.
    fn forget_marks(&mut self)
        requires none { (coflow : ℕ) (port : Port) → coflow < self.old.coflows → port.number < self.old.ports →
            load_at self.old coflow port ≡ 0 }
        ensures same { self.new ≡ self.old }
    {
        self.by_port.clear();
        self.by_coflow.clear();
    }

    /// Adds the units of a flow to the loads of its coflow on its two ports.
    pub(crate) fn add(&mut self, flow: Flow)
        requires coflow_in { flow.coflow < self.old.coflows }
        requires ingress_in { flow.ingress < self.old.ports }
        requires egress_in { flow.egress < self.old.ports }
        requires units { (port : Port) → port.number < self.old.ports → total_at self.old port + flow.units < 2 ^ 64 }
        ensures size { IsSameSize self.old self.new }
        ensures adds { (coflow : ℕ) (port : Port) → coflow < self.old.coflows → port.number < self.old.ports →
            load_at self.new coflow port ≡ load_at self.old coflow port +
            (if loads coflow port flow then flow.units else 0) }
    {
        self.add_at(
            flow.coflow,
            Port {
                side: Side::Ingress,
                number: flow.ingress,
            },
            flow.units,
        );
        self.add_at(
            flow.coflow,
            Port {
                side: Side::Egress,
                number: flow.egress,
            },
            flow.units,
        );
    }

    /// Adds units to the load of a coflow on a port.
    pub(crate) fn add_at(&mut self, coflow: u32, port: Port, units: u64)
        requires coflow_in { coflow < self.old.coflows }
        requires port_in { port.number < self.old.ports }
        requires units_fit { total_at self.old port + units < 2 ^ 64 }
        ensures size { IsSameSize self.old self.new }
        ensures added { load_at self.new coflow port ≡ load_at self.old coflow port + units }
        ensures others { (other : ℕ) → other < self.old.coflows → other ≢ coflow →
            load_at self.new other port ≡ load_at self.old other port }
        ensures elsewhere { (other : ℕ) (at : Port) → other < self.old.coflows → at.number < self.old.ports →
            port_place self.old.ports at ≢ port_place self.old.ports port →
            load_at self.new other at ≡ load_at self.old other at }
    {
        let row = row_of(port, self.ports);
        self.cells.add(row, coflow as usize, units);
        self.totals[row] += units;
        self.by_port.mark(row, coflow as usize);
        self.by_coflow.mark(coflow as usize, row);
    }
}

/// Whether each number is zero.
fn are_zeros(numbers: &[u64]) -> bool
    ensures { IsTrue result → All (λ number. number ≡ 0) numbers.now }
{
    numbers.iter().all(|number| *number == 0)
}

/// The row of a port: its place among all ports, ingress ports before egress ports.
fn row_of(port: Port, ports: u32) -> usize
    requires in_range { port.number < ports }
    requires limit { ports ≤ MAX_PORTS + 1 }
    ensures row { result ≡ port_place ports port }
    ensures within { result < ports + ports }
{
    match port.side {
        Side::Ingress => port.number as usize,
        Side::Egress => (ports + port.number) as usize,
    }
}

/// Clears a column, and takes each cell from the total of its row. The marks tell in which rows of the column a number
/// may be.
fn clear_column(cells: &mut Cells, totals: &mut [u64], rows_of: &Marks, column: usize)
    requires column_in { column < cells.old.columns }
    requires rows { cells.old.rows ≡ length totals.old }
    requires within { (row : ℕ) → row < length totals.old →
        slice_index (cells_in cells.old) (row * cells.old.columns + column) ≤ slice_index totals.old row }
    requires marked_rows { column < rows_of.now.rows }
    requires marked_columns { rows_of.now.columns ≡ length totals.old }
    requires marked { (row : ℕ) → row < length totals.old → mark_at rows_of.now column row ≡ 0 →
        slice_index (cells_in cells.old) (row * cells.old.columns + column) ≡ 0 }
    ensures size { HasSizeOf cells.old cells.new }
    ensures cleared { IsColumnCleared (cells_in cells.old) totals.old (cells_in cells.new) totals.new cells.old.columns
        column }
{
    let mut row = rows_of.next(column, 0);
    'rows: while row < totals.len() {
        totals[row] -= cells.get(row, column);
        cells.set(row, column, 0);
        row = rows_of.next(column, row + 1);
    }
}
