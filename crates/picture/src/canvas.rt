//! The bars of all ports while they are drawn.
ghost use Rattle.std.specs.Prelude.{◌≡◌, ◌<◌, ◌≤◌, List, [], All, IfOk, OnOk, length, replicate};
ghost use Rattle.std.specs.List.{slice_index_or};
ghost use Rattle.coflow_units.specs.declared.fabric.Flow.{Flow};
ghost use Rattle.coflow_units.specs.Flows.{end_at};
ghost use Rattle.coflow_units.specs.Schedule.{IsClear};
ghost use Rattle.picture.specs.declared.value.Bar.{Bar};
ghost use Rattle.picture.specs.Drawing.{Grows, IsDrawn, Keeps, row_at, with_row};

use crate::row::PortBars;
use crate::value::{Bar, MAX_BARS, Window};
use coflow_units::{Flow, NoMemory, Side};
use std::alloc::Global;

/// The bars so far, by port, and how many there are. Past the limit it keeps the last bar of each port at least.
#[derive(Drop)]
pub(crate) struct Canvas {
    pub(crate) rows: Vec<PortBars>,
    pub(crate) count: u64,
}

impl Canvas {
    /// No bars on so many ports.
    pub(crate) fn new(alloc: Global, ports: u32) -> Result<Canvas, NoMemory>
        ensures empty { IfOk result (λ canvas. canvas.rows.items ≡ replicate ports []) }
        ensures zero { IfOk result (λ canvas. canvas.count ≡ 0) }
    {
        let mut rows = Vec::new(alloc);
        for _ in 0..ports {
            let Ok(()) = rows.push(PortBars::new(alloc)) else {
                return Err(NoMemory);
            };
        }
        Ok(Canvas { rows, count: 0 })
    }

    /// Draws the slots from the window's first to its last, each of which holds the flows.
    pub(crate) fn draw(
        &mut self,
        flows: &[Flow],
        numbers: &[u32],
        window: Window,
    ) -> Result<(), NoMemory>
        requires clear { IsClear flows.now numbers.now }
        requires ports { All (λ (x : Flow). end_at window.side x < length self.old.rows.items) flows.now }
        requires counted { 1 ≤ window.first }
        ensures row_each { OnOk result (length self.new.rows.items ≡ length self.old.rows.items) }
        ensures drawn { (all : List (List Bar)) → Keeps all self.old.rows.items self.old.count →
            OnOk result ((more : List (List Bar)) × Keeps more self.new.rows.items self.new.count ×
            IsDrawn flows.now numbers.now window all more) }
    {
        for number in numbers {
            let flow = flows[*number as usize];
            let stretch = Bar {
                coflow: flow.coflow,
                first: window.first,
                last: window.last,
            };
            self.add(port_at(window.side, flow) as usize, stretch)?;
        }
        Ok(())
    }

    /// Adds a stretch to the bars of a port.
    fn add(&mut self, port: usize, stretch: Bar) -> Result<(), NoMemory>
        requires port { port < length self.old.rows.items }
        requires counted { 1 ≤ stretch.first }
        ensures row_each { OnOk result (length self.new.rows.items ≡ length self.old.rows.items) }
        ensures added { (all : List (List Bar)) → Keeps all self.old.rows.items self.old.count →
            OnOk result ((row : List Bar) × Grows (row_at all port) stretch row ×
            Keeps (with_row all port row) self.new.rows.items self.new.count) }
    {
        let keeps = self.count < MAX_BARS;
        let row = &mut self.rows[port];
        if row.join(stretch) {
            return Ok(());
        }
        row.begin(stretch, keeps)?;
        self.count = self.count.saturating_add(1);
        Ok(())
    }
}

/// The number of the port that the flow uses on the side.
fn port_at(side: Side, flow: Flow) -> u32
    ensures { result ≡ end_at side flow }
{
    match side {
        Side::Ingress => flow.ingress,
        Side::Egress => flow.egress,
    }
}
