//! Laws of kept grants.
ghost use Rattle.std.specs.Prelude.{ℕ, ◌≡◌, ◌⊎◌, [], List, Contains};
ghost use Rattle.coflow_units.specs.declared.fabric.Flow.{Flow};
ghost use Rattle.coflow_units.specs.Grants.{IsGrants};
ghost use Rattle.matching.specs.Kept.{Graph, IsClear, IsEnded, IsKeptList, IsLined, IsPutIn, IsTold};

/// With no port waiting, kept grants are the grants of the line.
pub fn settled_is_granted()
    ensures { (flows : List Flow) (line : List ℕ) (left : ℕ → ℕ) (ports : ℕ) (number : ℕ → ℕ) (g : Graph) →
        (granted told : List ℕ) → IsLined flows line left ports number g →
        IsTold number (λ r. Contains granted r) told →
        IsKeptList g (λ r. left (number r)) granted [] → IsGrants flows line left told }
{}

/// A port at which nothing is to be had may leave.
pub fn done_port_leaves()
    ensures { (g : Graph) (left : ℕ → ℕ) (granted waits more : List ℕ) (port : ℕ) →
        ((q : ℕ) → Contains waits q → (q ≡ port) ⊎ Contains more q) →
        IsClear g left (λ r. Contains granted r) port g.count → IsKeptList g left granted waits →
        IsKeptList g left granted more }
{}

/// The least rank that is to be had at a port goes in: all waits that did but this port, and the ports that it freed.
pub fn least_goes_in()
    ensures { (g : Graph) (left : ℕ → ℕ) (granted after waits more : List ℕ) (port rank : ℕ) →
        IsPutIn g left (λ r. Contains granted r) (λ r. Contains after r) (λ p. Contains waits p) (λ p. Contains more p)
        port rank →
        IsKeptList g left granted waits → IsKeptList g left after more }
{}

/// A rank that owes nothing any more goes out, and both of its ports wait.
pub fn ended_goes_out()
    ensures { (g : Graph) (left lower : ℕ → ℕ) (granted after waits more : List ℕ) (rank : ℕ) →
        IsEnded g left lower (λ r. Contains granted r) (λ r. Contains after r) (λ p. Contains waits p)
        (λ p. Contains more p) rank →
        IsKeptList g left granted waits → IsKeptList g lower after more }
{}
