//! Ports and flows of the fabric, seen as one big switch without contention inside (Chowdhury, Zhong and Stoica,
//! "Efficient coflow scheduling with Varys", SIGCOMM 2014). Ingress port 3 and egress port 3 are different ports.

/// The side of the fabric on which a port lies.
#[derive(Clone, Copy, Debug, PartialEq, Eq)]
pub enum Side {
    Ingress,
    Egress,
}

/// A port of the fabric. It carries at most one unit in a slot.
#[derive(Clone, Copy, Debug, PartialEq, Eq)]
pub struct Port {
    pub side: Side,
    pub number: u32,
}

/// What one coflow sends from one ingress port to one egress port, in units.
#[derive(Clone, Copy, Debug, PartialEq, Eq)]
pub struct Flow {
    pub coflow: u32,
    pub ingress: u32,
    pub egress: u32,
    pub units: u64,
}
