//! For tests and figures: what the program does by the definitions alone. Lists of mappings, each mapping cut by itself; a world of
//! whole lists, plain queues and entries with the list before them; events as text; and seeded numbers.
#![tactic(auto)]

mod edit;
mod event_text;
mod history;
mod lists;
mod model;
mod plain_list;
mod queues;
mod random;
mod running;
mod space_model;
mod told;

pub use edit::Edit;
pub use event_text::{event_in, number_of, request_in};
pub use history::{History, HistoryEntry, Kind};
pub use lists::{
    at, changed, count_met, count_of, edited, edited_by_all, further, given, only, push, range_of,
    unmaps_of,
};
pub use model::{Model, Setting};
pub use plain_list::PlainList;
pub use queues::{InHand, ModelQueue, Numbered, copy_of};
pub use random::Random;
pub use running::{Running, place_of};
pub use space_model::{Made, SpaceModel, TakenRequest};
pub use told::QueueOutcomes;
