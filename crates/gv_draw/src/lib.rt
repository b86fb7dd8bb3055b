//! Pictures of an address space over time: a history of rows, and the SVG that shows it.
#![tactic(auto)]

mod axis;
mod boxes;
mod choice;
mod colours;
mod fault;
mod foot;
mod head;
mod history;
mod legend;
mod lines;
mod marks;
mod names;
mod options;
mod pen;
mod picture;
mod piece;
mod pixels;
mod row;
mod rows;
mod script;
mod shapes;
mod sizes;
mod style;
mod svg;
mod texts;

pub use fault::DrawFault;
pub use history::History;
pub use options::Options;
pub use picture::write_picture;
pub use row::{RowContent, RowKind};
pub use script::draw_script;
pub use svg::write_escaped;
