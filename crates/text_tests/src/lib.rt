//! Tests of texts, read and written: traces, weights, orders, scripts, words of a command line, reports and journals. A
//! clause says of each text what its definitions say; that the definitions mean the rules of the formats is what no
//! clause says. Each row was worked out by hand from those rules, and an answer that is no value is told by the text of
//! its fault.
#![tactic(auto)]

#[cfg(test)]
mod journals;
#[cfg(test)]
mod long_texts;
#[cfg(test)]
mod made;
#[cfg(test)]
mod numbers;
#[cfg(test)]
mod online_runs;
#[cfg(test)]
mod order_rows;
#[cfg(test)]
mod reports;
#[cfg(test)]
mod rows;
#[cfg(test)]
mod run_text_rows;
#[cfg(test)]
mod scripts;
#[cfg(test)]
mod tables;
#[cfg(test)]
mod texts;
#[cfg(test)]
mod traces;
#[cfg(test)]
mod weight_lists;
#[cfg(test)]
mod word_rows;
