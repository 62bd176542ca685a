//! A reservation's template that is made step by step, from how long it lasts on.
//!
//! Each step sets one attribute of GFD.231's ReservationTemplate (`slots` sets two) and keeps the others.
ghost use Rattle.std.specs.Prelude.{◌≡◌, Some, IfOk};
ghost use Rattle.job_template.specs.Blanks.{blank_reservation};

use crate::ReservationTemplate;
use crate::additions::{set_text, when_done};
use drmaa_types::{ListOf, Moment, Start};
use std::alloc::{AllocError, Global};

impl ReservationTemplate {
    /// A template of which nothing is set; it takes no memory.
    pub fn blank(alloc: Global) -> ReservationTemplate
        ensures { result ≡ blank_reservation }
    {
        ReservationTemplate {
            reservation_name: None,
            start_time: None,
            end_time: None,
            duration: None,
            min_slots: None,
            max_slots: None,
            others: ListOf::new(alloc),
        }
    }

    /// A template of a reservation that lasts so many seconds (`duration`), with every other attribute unset. So it begins
    /// now, unless a step says when it begins or ends. It takes no memory.
    pub fn lasting(alloc: Global, seconds: u64) -> ReservationTemplate
        ensures { result ≡ record blank_reservation { duration = Some seconds } }
    {
        ReservationTemplate {
            duration: Some(seconds),
            ..ReservationTemplate::blank(alloc)
        }
    }

    /// Sets its name (`reservationName`). The memory is from where the template has its own.
    ///
    /// # Errors
    /// Want of memory; the template is then let go.
    pub fn name(self, name: &str) -> Result<ReservationTemplate, AllocError>
        ensures { IfOk result (λ t. t ≡ record self { reservation_name = Some name.now }) }
    {
        let mut template = self;
        let alloc = template.others.allocator();
        let done = set_text(&mut template.reservation_name, alloc, name);
        when_done(done, template)
    }

    /// It begins at this moment (`startTime`); with an end and a duration, at this moment or later.
    pub fn from(self, moment: Moment) -> ReservationTemplate
        ensures { result ≡ record self { start_time = Some (Start.At moment) } }
    {
        let mut template = self;
        template.start_time = Some(Start::At(moment));
        template
    }

    /// It begins at the moment at which it is requested (`startTime` NOW); with an end and a duration, then or later.
    pub fn from_now(self) -> ReservationTemplate
        ensures { result ≡ record self { start_time = Some Start.Now } }
    {
        let mut template = self;
        template.start_time = Some(Start::Now);
        template
    }

    /// It ends at this moment (`endTime`); with a start and a duration, at this moment or earlier.
    pub fn until(self, moment: Moment) -> ReservationTemplate
        ensures { result ≡ record self { end_time = Some moment } }
    {
        let mut template = self;
        template.end_time = Some(moment);
        template
    }

    /// Sets the least number of slots that is of use and the greatest that is wanted (`minSlots`, `maxSlots`).
    pub fn slots(self, min: u32, max: u32) -> ReservationTemplate
        ensures { result ≡ record self { min_slots = Some min; max_slots = Some max } }
    {
        let mut template = self;
        template.min_slots = Some(min);
        template.max_slots = Some(max);
        template
    }
}
