//! Tests of replayed logs: rows for each format and for JSON, hostile logs, devices that fail, a log of 100,000 lines, and what
//! addresses reached before against entries that are undone.
mod apart;
mod counts;
mod devices;
mod forms;
mod going;
mod hostile;
mod i915_rows;
mod json;
mod json_rows;
mod long;
mod made;
mod mirror;
mod pasts;
mod play;
mod process_rows;
mod rewound;
mod rows;
mod scripts;
mod space_rows;
mod told;
mod vmas;
mod watching;
mod xe_rows;
