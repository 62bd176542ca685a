//! A chart of a history, as an SVG of one page: a lane for each slot, and a bar for each run of a job.
#![tactic(auto)]

mod axis;
mod bars;
mod blocks;
mod charts;
mod dates;
mod drawing;
mod lanes;
mod moments;
mod numbers;
mod page;
mod pieces;
mod scales;
mod shapes;

pub use axis::STEPS;
pub use bars::{Bar, BarList, bars_of};
pub use blocks::BlockList;
pub use charts::{Chart, chart_of};
pub use lanes::{Attempt, Lane, LaneStep, Span, SpanList};
pub use page::{chart, print_chart};
pub use pieces::{LEGEND, Piece, STYLE};
pub use scales::Scale;
pub use shapes::Area;
