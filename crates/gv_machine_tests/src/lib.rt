//! Tests of the machine, of timelines and of running queues. They have a crate of their own, so that none of these is proved twice.
#![tactic(auto)]

#[cfg(test)]
mod counting;
#[cfg(test)]
mod ends;
#[cfg(test)]
mod gates;
#[cfg(test)]
mod hostile;
#[cfg(test)]
mod leaving;
#[cfg(test)]
mod machine;
#[cfg(test)]
mod meeting;
#[cfg(test)]
mod plan;
#[cfg(test)]
mod roll;
#[cfg(test)]
mod row;
#[cfg(test)]
mod rows;
#[cfg(test)]
mod running;
#[cfg(test)]
mod timelines;
#[cfg(test)]
mod waiting;
