//! The manager for C: a static library with one function for each call. C holds a `struct vmbind_vm { void *at; }`, zero at
//! first, and passes its address. It passes on what a call left there and makes no copy of it. Otherwise each function is
//! proved for everything that C may pass. `capi/vmbind.h` says the same in C.
#![tactic(auto)]

mod binding;
mod entry;
mod events;
mod handle;
mod held;
mod jobs;
mod lists;
mod making;
mod outcome;
mod past;
mod raw_box;
mod reading;
mod request;
mod space_values;
mod status;
mod values;
