//! The command that forecasts the starts of jobs.
ghost use Rattle.std.specs.Prelude.{◌≡◌, IfOk};

use crate::legal::LegalCommand;
use crate::running::Output;
use drmaa_machine::Machine;
use drmaa_types::Text;
use forecast::{ForecastFault, forecast, print_forecast};
use std::alloc::{AllocError, Global};

/// `forecast`: says of a legal journal when its waiting jobs would start.
#[derive(Drop)]
pub struct Forecast;

impl LegalCommand for Forecast {
    ghost use Rattle.journal_commands.specs.Commands.{Foretells};

    ghost Makes = { λ _ ledger text full. Foretells ledger text full };

    fn make(self, alloc: Global, machine: Machine) -> Result<Output, AllocError> {
        let Forecast = self;
        match forecast(alloc, machine) {
            Ok(starts) => Ok(Output {
                text: print_forecast(alloc, &starts)?,
                full: None,
            }),
            Err(ForecastFault::Journal { size }) => Ok(Output {
                text: Text::from_string(String::new(alloc)),
                full: Some(size),
            }),
            Err(ForecastFault::OutOfMemory) => Err(AllocError),
        }
    }
}
