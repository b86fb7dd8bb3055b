//! Tests of lines, scripts, pictures, dialogues, replies as JSON, replayed logs and lists compared: the worked rows, texts at the
//! limits, and devices that fail, from bytes to replies.
#![tactic(auto)]

#[cfg(test)]
mod chance;
#[cfg(test)]
mod comparing;
#[cfg(test)]
mod devices;
#[cfg(test)]
mod dialogues;
#[cfg(test)]
mod digest;
#[cfg(test)]
mod drawing;
#[cfg(test)]
mod drawing_digests;
#[cfg(test)]
mod failing;
#[cfg(test)]
mod fits;
#[cfg(test)]
mod limits;
#[cfg(test)]
mod lines;
#[cfg(test)]
mod lists;
#[cfg(test)]
mod logs;
#[cfg(test)]
mod reasons;
#[cfg(test)]
mod replies;
#[cfg(test)]
mod rows;
#[cfg(test)]
mod scripts;
#[cfg(test)]
mod told;
