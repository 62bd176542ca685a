//! When the jobs that wait would start, if each child ended at the moment at which its kill is asked for, and nobody called.
#![tactic(auto)]

mod ends;
mod forecasts;
mod launches;
mod predictions;
mod printed;

pub use forecasts::forecast;
pub use predictions::{ForecastFault, Predicted, PredictedList};
pub use printed::print_forecast;
