// Lines of decimal numbers, measured and written into a lent slice.
#![tactic(auto)]

mod line;
mod page;

pub use line::Line;
pub use page::Page;
