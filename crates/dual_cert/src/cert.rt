//! The list of a certificate.
ghost use Rattle.std.specs.Prelude.{◌≡◌, List, IfOk, map, reverse};
ghost use Rattle.coflow_units.specs.Certificate.{entry_of};
ghost use Rattle.dual_cert.specs.TableCertificate.{entry_at};

use coflow_units::{NoMemory, Place, Port};
use std::alloc::{AllocError, Global};
use std::marker::Model;

/// A place of a certificate: what each coflow up to this place pays for each unit of its load on the port.
#[derive(Clone, Copy)]
pub struct Charge {
    pub coflow: u32,
    pub port: Port,
    pub y: u128,
}

/// A certificate: coflows in order, with the port that each place charges and the price of a unit of load there, in
/// parts of 2^40 of a weight of 1.
///
/// Contracts see a `Cert` as its list of entries from place 1 on; definitions on certificates take the reverse of it.
#[derive(Drop)]
pub struct Cert {
    charges: Vec<Charge>,
}

impl Model for Cert {
    ghost use Rattle.std.specs.Prelude.{List, map};
    ghost use Rattle.coflow_units.specs.Certificate.{Entry};
    ghost use Rattle.dual_cert.specs.TableCertificate.{entry_at};

    ghost Value = { List Entry };

    ghost view = { λ s. map entry_at s.charges.items };
}

impl Cert {
    /// The certificate of these places, from place 1 on. What a place tells of rest and load is not looked at. The
    /// error is want of memory.
    pub fn of(alloc: Global, places: &[Place]) -> Result<Cert, NoMemory>
        ensures entries { IfOk result (λ cert. cert ≡ map entry_of places.now) }
        ensures from_last { IfOk result (λ cert. reverse cert ≡ map entry_of (reverse places.now)) }
    {
        let charges = charges_of(alloc, places)?;
        Ok(Cert { charges })
    }

    pub(crate) fn charges(&self) -> &[Charge]
        ensures { map entry_at result.now ≡ self.now }
    {
        &self.charges
    }
}

fn charges_of(alloc: Global, places: &[Place]) -> Result<Vec<Charge>, AllocError>
    ensures { IfOk result (λ charges. map entry_at charges.items ≡ map entry_of places.now) }
{
    let mut charges = Vec::new(alloc);
    for place in places {
        charges.push(Charge {
            coflow: place.coflow,
            port: place.port,
            y: place.y,
        })?;
    }
    Ok(charges)
}
