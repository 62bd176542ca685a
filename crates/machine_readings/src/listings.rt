//! What is listed of jobs and reservations, in order of number.
ghost use Rattle.std.specs.Prelude.{◌≡◌, ◌&&◌, ℕ, map, filter, Some, IfOk};
ghost use Rattle.drmaa_types.specs.Filters.{matches};
ghost use Rattle.drmaa_model.specs.declared.reservations.Accepted.{Accepted};
ghost use Rattle.drmaa_model.specs.declared.rows.Row.{Row};
ghost use Rattle.drmaa_model.specs.Homes.{is_same_home};
ghost use Rattle.drmaa_model.specs.Infos.{info, numbers, reservation_info, reservation_numbers};
ghost use Rattle.drmaa_model.specs.Load.{is_member};
ghost use Rattle.drmaa_model.specs.Rows.{row_of};
ghost use Rattle.drmaa_model.specs.Time.{rows_at, advance_plan};
ghost use Rattle.scheduler_core.specs.Facts.{row_facts};
ghost use Rattle.machine_readings.specs.Stores.{IsStore, world_at};

use crate::rows::is_member;
use crate::sessions::is_same_home;
use crate::store::Store;
use drmaa_model::Accepted;
use drmaa_types::{
    ArrayId, IdList, InfoList, JobFilter, Moment, ReservationInfo, ReservationList, Text,
};
use scheduler_core::RowFacts;
use std::alloc::AllocError;

impl Store {
    /// The jobs of a home that a filter lets through. It goes over the jobs between the first and the last of that home.
    pub fn jobs_of(
        &self,
        at: Moment,
        home: Option<u64>,
        wanted: &JobFilter,
    ) -> Result<IdList, AllocError>
        requires { IsStore self.now }
        ensures { IfOk result (λ jobs. jobs ≡ numbers (filter (λ (row : Row). is_same_home home row.home && matches wanted.now (info (world_at at self.now) row)) (rows_at at self.now.core.plan))) }
    {
        let range = self.core.numbers_of_home(home);
        let mut jobs = Vec::new(self.alloc);
        let mut from = range.first;
        while let Some(facts) = self.next_facts_through(at, from, range.last) {
            if self.is_chosen(at, home, wanted, &facts)? {
                jobs.push(facts.job.0)?;
            }
            from = facts.job.0 + 1;
        }
        Ok(IdList::from_vec(jobs))
    }

    fn is_chosen(
        &self,
        at: Moment,
        home: Option<u64>,
        wanted: &JobFilter,
        facts: &RowFacts,
    ) -> Result<bool, AllocError>
        requires { IsStore self.now }
        ensures { IfOk result (λ b. (row : Row) → row_of facts.now.job (rows_at at self.now.core.plan) ≡ Some row → facts.now ≡ row_facts row
            → b ≡ (is_same_home home row.home && matches wanted.now (info (world_at at self.now) row))) }
    {
        if !is_same_home(home, facts.home) {
            return Ok(false);
        }
        self.is_let_through(at, wanted, facts.job)
    }

    /// The members of an array that belong to a home. It goes over the jobs between the array's first and last member.
    pub fn members_of(
        &self,
        at: Moment,
        home: Option<u64>,
        array: ArrayId,
    ) -> Result<IdList, AllocError>
        requires { IsStore self.now }
        ensures { IfOk result (λ jobs. jobs ≡ numbers (filter (λ (row : Row). is_same_home home row.home && is_member array row) (rows_at at self.now.core.plan))) }
    {
        let range = self.core.numbers_of_array(array);
        let mut jobs = Vec::new(self.alloc);
        let mut from = range.first;
        while let Some(facts) = self.next_facts_through(at, from, range.last) {
            if is_same_home(home, facts.home) && is_member(array, facts.array) {
                jobs.push(facts.job.0)?;
            }
            from = facts.job.0 + 1;
        }
        Ok(IdList::from_vec(jobs))
    }

    /// What is told of all jobs that a filter lets through.
    pub fn infos_of(&self, at: Moment, wanted: &JobFilter) -> Result<InfoList, AllocError>
        requires { IsStore self.now }
        ensures { IfOk result (λ infos. infos ≡ map (info (world_at at self.now)) (filter (λ (row : Row). matches wanted.now (info (world_at at self.now) row)) (rows_at at self.now.core.plan))) }
    {
        let mut infos = Vec::new(self.alloc);
        let mut from = 0;
        while let Some(facts) = self.next_facts(at, from) {
            if let Some(info) = self.info_of(at, facts.job)? {
                if wanted.matches(&info) {
                    infos.push(info)?;
                }
            }
            from = facts.job.0 + 1;
        }
        Ok(InfoList::from_vec(infos))
    }

    /// The accepted reservations of a home.
    pub fn reservations_of(&self, at: Moment, home: Option<u64>) -> Result<IdList, AllocError>
        requires { IsStore self.now }
        ensures { IfOk result (λ list. list ≡ reservation_numbers (filter (λ (a : Accepted). is_same_home home a.home) (advance_plan 0 at self.now.core.plan).reservations)) }
    {
        let mut list = Vec::new(self.alloc);
        let mut from = 0;
        while let Some(accepted) = self.next_accepted(at, from) {
            if is_same_home(home, accepted.home) {
                list.push(accepted.reservation.0)?;
            }
            from = accepted.reservation.0 + 1;
        }
        Ok(IdList::from_vec(list))
    }

    /// What is told of all accepted reservations.
    pub fn reservation_infos(&self, at: Moment) -> Result<ReservationList, AllocError>
        requires { IsStore self.now }
        ensures { IfOk result (λ list. list ≡ map (reservation_info (world_at at self.now)) (advance_plan 0 at self.now.core.plan).reservations) }
    {
        let mut list = Vec::new(self.alloc);
        let mut from = 0;
        while let Some(accepted) = self.next_accepted(at, from) {
            list.push(self.reservation_info(accepted)?)?;
            from = accepted.reservation.0 + 1;
        }
        Ok(ReservationList::from_vec(list))
    }

    /// What is told of an accepted reservation.
    pub fn reservation_info(&self, accepted: &Accepted) -> Result<ReservationInfo, AllocError>
        ensures { IfOk result (λ i. (at : ℕ) → i ≡ reservation_info (world_at at self.now) accepted.now) }
    {
        let session = self.home_name(accepted.home)?;
        let name = copied(&accepted.name)?;
        Ok(ReservationInfo {
            reservation: accepted.reservation,
            session,
            name,
            slots: accepted.slots,
            from: accepted.from,
            until: accepted.until,
        })
    }
}

/// A copy of an optional text.
pub fn copied(text: &Option<Text>) -> Result<Option<Text>, AllocError>
    ensures { IfOk result (λ copy. copy ≡ text.now) }
{
    match text {
        Some(text) => Ok(Some(text.clone()?)),
        None => Ok(None),
    }
}
