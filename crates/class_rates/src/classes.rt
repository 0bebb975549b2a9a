//! The classes of coflows.
ghost use Rattle.std.specs.Prelude.{◌≡◌, ◌<◌, length};
ghost use Rattle.coflow_units.specs.Flows.{IsDistinct};
ghost use Rattle.class_rates.specs.Classes.{IsClasses, class_of};

use std::marker::Model;

/// The classes that an order may be folded into, from 1.
pub const MAX_CLASSES: u32 = 64;

/// The coflows of an order in classes, as many as a switch has priorities. Classes count from 1, and the first one is
/// served first.
///
/// Contracts see a `Classes` as the number of classes, the class of each coflow by number, and the class order.
#[derive(Drop)]
pub struct Classes {
    pub(crate) count: u32,
    pub(crate) numbers: Vec<u32>,
    pub(crate) order: Vec<u32>,
}

impl Model for Classes {
    ghost use Rattle.class_rates.specs.Classes.{ClassFacts, IsClasses};

    ghost Value = { ClassFacts };

    ghost view = { λ s. record { count = s.count; numbers = s.numbers.items; order = s.order.items } };

    ghost invariant = { λ s. IsClasses record { count = s.count; numbers = s.numbers.items; order = s.order.items } };
}

impl Classes {
    /// The number of classes, from 1 to 64. Some of them may have no coflow.
    pub fn count(&self) -> u32
        ensures count { result ≡ self.now.count }
        ensures classes { IsClasses self.now }
    {
        self.count
    }

    /// The class of a coflow, from 1 to the number of classes.
    pub fn class_of(&self, coflow: u32) -> u32
        requires { coflow < length self.now.numbers }
        ensures class { result ≡ class_of self.now coflow }
        ensures classes { IsClasses self.now }
    {
        self.numbers[coflow as usize]
    }

    /// The coflows by class, and those of a class by number.
    pub fn class_order(&self) -> &[u32]
        ensures order { result.now ≡ self.now.order }
        ensures distinct { IsDistinct result.now }
        ensures classes { IsClasses self.now }
    {
        &self.order
    }

    /// The class of each coflow, by number.
    pub(crate) fn numbers(&self) -> &[u32]
        ensures numbers { result.now ≡ self.now.numbers }
        ensures classes { IsClasses self.now }
    {
        &self.numbers
    }
}
