//! A crew with the place where it works.
ghost use Rattle.std.specs.Prelude.{◌≡◌, ◌+◌, ◌≤◌, ◌++◌, length, vec_capacity};
ghost use Rattle.crews.specs.Attached.{AreOver};
ghost use Rattle.crews.specs.Gathering.{HaveNoOutlets};

use crate::crew::{Crew, Site};
use client_session::Driver;
use crews::{Part, append, retire};
use errands::Helper;
use outside::Wire;

/// All that runs with a crew need: the crew, the site where it works, the helpers at the trays of the site, and the
/// wires that no port has.
///
/// While runs are made, each helper attends at the tray of its number, on a thread of its own (`crews::help_all`);
/// where there is no helper, no thread is needed. The fields are lent one by one: the crew to one thread, the helpers
/// to the others, and the site to all.
pub struct Camp<W: Wire> {
    /// The driver, with the wires of the ports.
    pub crew: Crew<W>,
    /// The board of the ports, and a tray for each helper.
    pub site: Site<W>,
    /// The end at each tray of the site at which its helper takes parts.
    pub helpers: Vec<Helper<Part<W>>>,
    /// The wires after those of the ports.
    pub far: Vec<W>,
}

impl<W: Wire> Camp<W> {
    /// Frees all but the driver, which is handed back, once the crew is dismissed. The wires go behind those of the
    /// vector, which has room for them: first those of the ports, by number, and then those that no port has.
    ///
    /// It takes no memory, and there is no error.
    pub fn disband(self, wires: &mut Vec<W>) -> Driver
        requires over { AreOver self.site.trays.items self.crew.places }
        requires none { HaveNoOutlets self.crew.places }
        requires many { length self.crew.places ≡ length self.site.trays.items }
        requires room { length wires.old.items + (self.crew.runner.ports + length self.far.items) ≤
            vec_capacity wires.old }
        ensures many { length self.crew.wires ≡ self.crew.runner.ports }
        ensures wires { wires.new.items ≡ wires.old.items ++ (self.crew.wires ++ self.far.items) }
        ensures room { vec_capacity wires.new ≡ vec_capacity wires.old }
        ensures driver { result ≡ self.crew.runner.driver }
    {
        let Camp {
            crew,
            site,
            helpers: _,
            far,
        } = self;
        let Crew {
            driver,
            ports: _,
            poster: _,
            posted_to: _,
            granted: _,
            sent: _,
            stations,
            wires: near,
        } = crew;
        let Site { board: _, trays } = site;
        retire(trays, stations, near, wires);
        append(far, wires);
        driver
    }
}
