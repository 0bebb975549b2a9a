//! Numbers that are drawn, the same for the same seed, and the commands that they make.
ghost use Rattle.std.specs.Prelude.{◌≡◌, ℕ, ◌+◌, ◌*◌, ◌^◌, ◌<◌, ◌≤◌};
ghost use Rattle.hall_runs.specs.Asked.{IsAskOf, IsOrderOf};

/// A generator of drawn numbers: the linear congruential one of Knuth's MMIX (The Art of Computer Programming, volume
/// 2, section 3.3.4).
#[derive(Clone, Copy, Debug)]
pub struct Draw {
    state: u64,
}

/// What a client asks: four kinds of turns, a publishing, and a pull without a turn.
#[derive(Clone, Copy, Debug)]
pub enum Ask {
    Register(u32),
    Withdraw(u32),
    Publish,
    PullTurn(u32),
    Reweigh(u32, u64),
    Pull(u32),
}

/// What the driver asks.
#[derive(Clone, Copy, Debug)]
pub enum Order {
    Open(u64),
    Short(u32, u64),
    Close,
    Skip(u64),
    Register(u32),
    Withdraw(u32),
    Publish,
}

impl Draw {
    /// The generator of a caller: the seed, and 2^32 for each number.
    pub fn of(seed: u32, caller: u32) -> Draw
        ensures state { result.state ≡ seed + caller * 2 ^ 32 }
    {
        Draw {
            state: u64::from(seed) + (u64::from(caller) << 32),
        }
    }

    /// A number below this one.
    pub fn below(&mut self, bound: u32) -> u32
        requires some { 1 ≤ bound }
        ensures below { result < bound }
    {
        self.state = self
            .state
            .wrapping_mul(6364136223846793005)
            .wrapping_add(1442695040888963407);
        (self.state >> 33) as u32 % bound
    }

    /// What a client asks of so many coflows: half are pulls without a turn, a quarter pulls by a turn.
    pub fn ask(&mut self, coflows: u32) -> Ask
        requires some { 1 ≤ coflows }
        ensures ask { IsAskOf coflows result }
    {
        let coflow = self.below(coflows);
        match self.below(200) {
            0..=99 => Ask::Pull(coflow),
            100..=159 => Ask::PullTurn(coflow),
            160..=179 => Ask::Register(coflow),
            180..=196 => Ask::Reweigh(coflow, u64::from(self.below(9)) + 1),
            197..=198 => Ask::Publish,
            _ => self.seldom(coflow),
        }
    }

    /// That the coflow leaves, one time in 16, and else a pull by a turn.
    fn seldom(&mut self, coflow: u32) -> Ask
        ensures ask { (coflows : ℕ) → coflow < coflows → IsAskOf coflows result }
    {
        match self.below(16) {
            0 => Ask::Withdraw(coflow),
            _ => Ask::PullTurn(coflow),
        }
    }

    /// What the driver asks of so many coflows and ports.
    pub fn order(&mut self, coflows: u32, ports: u32) -> Order
        requires some { (1 ≤ coflows) × (1 ≤ ports) }
        ensures order { IsOrderOf coflows ports result }
    {
        match self.below(100) {
            0..=29 => Order::Open(u64::from(self.below(8)) + 1),
            30..=54 => Order::Short(self.below(ports), u64::from(self.below(9))),
            55..=89 => Order::Close,
            90..=91 => Order::Skip(u64::from(self.below(1000))),
            92..=95 => Order::Register(self.below(coflows)),
            96 => self.leaving(coflows),
            _ => Order::Publish,
        }
    }

    /// That a coflow leaves, one time in 16, and else that it joins.
    fn leaving(&mut self, coflows: u32) -> Order
        requires some { 1 ≤ coflows }
        ensures order { (ports : ℕ) → IsOrderOf coflows ports result }
    {
        let coflow = self.below(coflows);
        match self.below(16) {
            0 => Order::Withdraw(coflow),
            _ => Order::Register(coflow),
        }
    }
}
