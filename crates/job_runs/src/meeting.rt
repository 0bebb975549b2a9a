//! Two that wait for each other.
use std::sync::atomic::AtomicBool;
use std::sync::atomic::Ordering::SeqCst;

/// How often one of them looks whether the other one came, before it gives up.
const LOOKS: u32 = 1 << 28;

/// Two that wait for each other: whether each of them came.
#[derive(Drop)]
pub struct Pair {
    first: AtomicBool,
    second: AtomicBool,
}

impl Pair {
    /// Two of whom nobody came yet.
    pub fn new() -> Pair {
        Pair {
            first: AtomicBool::new(false),
            second: AtomicBool::new(false),
        }
    }

    /// The side of the first one.
    fn first(&self) -> Side<'_> {
        Side {
            mine: &self.first,
            other: &self.second,
        }
    }

    /// The side of the second one.
    fn second(&self) -> Side<'_> {
        Side {
            mine: &self.second,
            other: &self.first,
        }
    }
}

/// One of the two.
#[derive(Clone, Copy)]
pub struct Side<'a> {
    mine: &'a AtomicBool,
    other: &'a AtomicBool,
}

impl Side<'_> {
    /// Comes, and waits. The answer is whether the other one comes before this one gives up.
    pub(crate) fn meets(&self) -> bool {
        self.mine.store(true, SeqCst);
        for _ in 0..LOOKS {
            if self.other.load(SeqCst) {
                return true;
            }
        }
        false
    }
}

/// Who waits for one another.
#[derive(Clone, Copy)]
pub enum Waiting {
    /// Nobody.
    Nobody,
    /// The first client, at the first of these lines of the script, and the second client, at the other line.
    Clients(u32, u32),
    /// The first client alone, at this line of the script: nobody else comes.
    Client(u32),
    /// The first client, at this line of the script, and the wires of even ports.
    ClientAndWires(u32),
    /// The wires of even ports and those of odd ones.
    Wires,
}

impl Waiting {
    /// The sides of the wires of even and of odd ports.
    pub fn at_wires<'a>(&self, pair: &'a Pair) -> [Option<Side<'a>>; 2] {
        match self {
            Waiting::Nobody | Waiting::Clients(_, _) | Waiting::Client(_) => [None, None],
            Waiting::ClientAndWires(_) => [Some(pair.second()), None],
            Waiting::Wires => [Some(pair.first()), Some(pair.second())],
        }
    }

    /// The lines of the first and the second client, and their sides.
    pub fn at_gates<'a>(&self, pair: &'a Pair) -> [Option<(u32, Side<'a>)>; 2] {
        match self {
            Waiting::Nobody | Waiting::Wires => [None, None],
            Waiting::Clients(first, second) => [
                Some((*first, pair.first())),
                Some((*second, pair.second())),
            ],
            Waiting::Client(line) | Waiting::ClientAndWires(line) => {
                [Some((*line, pair.first())), None]
            }
        }
    }
}
