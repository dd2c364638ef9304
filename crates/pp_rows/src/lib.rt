//! Tests that are no session: calls of single functions, threads that are held, and figures that several reports owe one
//! another. Whole sessions are data, which `pp_sessions` runs. What the tests expect comes from profile.proto and from
//! the rules of the reports.
#![tactic(auto)]

#[cfg(test)]
mod counting;
#[cfg(test)]
mod edges;
#[cfg(test)]
mod figures;
#[cfg(test)]
mod fixtures;
#[cfg(test)]
mod labels;
#[cfg(test)]
mod lanes;
#[cfg(test)]
mod laws;
#[cfg(test)]
mod lines;
#[cfg(test)]
mod matching;
#[cfg(test)]
mod parts;
#[cfg(test)]
mod pool;
#[cfg(test)]
mod reading;
#[cfg(test)]
mod running;
#[cfg(test)]
mod saved;
#[cfg(test)]
mod units;
