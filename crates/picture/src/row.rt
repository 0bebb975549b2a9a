//! The bars of one port.
ghost use Rattle.std.specs.Prelude.{◌≡◌, ◌≤◌, ◌++◌, List, [], ◌∷◌, OnOk, if◌then◌else◌};
ghost use Rattle.picture.specs.Drawing.{Joins};

use crate::value::Bar;
use coflow_units::NoMemory;
use std::alloc::Global;
use std::marker::Model;

/// The bars of a port, ascending. Contracts see it as the list of its bars.
#[derive(Drop)]
pub struct PortBars {
    bars: Vec<Bar>,
}

impl Model for PortBars {
    ghost use Rattle.std.specs.Prelude.{List};
    ghost use Rattle.picture.specs.declared.value.Bar.{Bar};

    ghost Value = { List Bar };

    ghost view = { λ s. s.bars.items };
}

impl PortBars {
    /// No bars.
    pub(crate) fn new(alloc: Global) -> PortBars
        ensures { result ≡ [] }
    {
        PortBars {
            bars: Vec::new(alloc),
        }
    }

    /// The bars, lent.
    pub fn as_slice(&self) -> &[Bar]
        ensures { result.now ≡ self.now }
    {
        &self.bars
    }

    /// Makes the last bar longer by the stretch, where it is of the same coflow and ends right before it.
    pub(crate) fn join(&mut self, stretch: Bar) -> bool
        requires counted { 1 ≤ stretch.first }
        ensures { Joins self.old stretch self.new result }
    {
        let count = self.bars.len();
        if count == 0 {
            return false;
        }
        let last = self.bars[count - 1];
        if last.coflow == stretch.coflow && last.last == stretch.first - 1 {
            self.bars[count - 1] = Bar {
                coflow: last.coflow,
                first: last.first,
                last: stretch.last,
            };
            return true;
        }
        false
    }

    /// Begins a bar. The bars before it are kept or dropped.
    pub(crate) fn begin(&mut self, stretch: Bar, keeps: bool) -> Result<(), NoMemory>
        ensures { OnOk result (self.new ≡ (if keeps then self.old else []) ++ stretch ∷ []) }
    {
        if !keeps {
            self.bars.clear();
        }
        self.bars.push(stretch)?;
        Ok(())
    }
}
