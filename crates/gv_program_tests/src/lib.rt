//! Tests of the program over a runtime in memory, and of threads scripts.
#![tactic(auto)]

#[cfg(test)]
mod closed;
#[cfg(test)]
mod fake;
#[cfg(test)]
mod forms;
#[cfg(test)]
mod helps;
#[cfg(test)]
mod progress;
#[cfg(test)]
mod threads;
#[cfg(test)]
mod trial;
#[cfg(test)]
mod whole;
#[cfg(test)]
mod wrong;
