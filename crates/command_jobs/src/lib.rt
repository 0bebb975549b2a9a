//! What each command does once its words are read: it reads its files, plans, serves or judges, and has the text that
//! is written and the status that ends it.
#![tactic(auto)]

mod auditing;
mod checking;
mod classing;
mod comparing;
mod living;
mod making;
mod onlining;
mod ordering;
mod planning;
mod recording;
mod replaying;
mod serving;

pub use auditing::audit_journal;
pub use checking::check_report;
pub use classing::list_classes;
pub use comparing::compare_rankers;
pub use living::run_clients;
pub use making::make_workload;
pub use onlining::run_online;
pub use ordering::serve_order;
pub use planning::plan_trace;
pub use recording::record_policy;
pub use replaying::replay_rankers;
