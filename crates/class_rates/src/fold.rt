//! Ways to fold an order.

/// By what an order is folded into classes.
#[derive(Clone, Copy, Debug, PartialEq, Eq)]
pub enum Fold {
    /// Each class has as many coflows as each other one, as far as whole coflows allow.
    Count,
    /// Each class has as much load as each other one, as far as whole coflows allow. A coflow counts by its greatest
    /// load on a port.
    Load,
}
