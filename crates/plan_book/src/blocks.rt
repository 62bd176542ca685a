//! The rows in order of number, in blocks of so many numbers each, so that a job which is forgotten moves those of its block alone.
ghost use Rattle.std.specs.Prelude.{◌≡◌, ℕ, ◌+◌, ◌<◌, ◌≤◌, ◌++◌, ◌∷◌, ◌&&◌, [], not, map, filter, take, drop, false, ◌-◌, length, slice_index_or, vec_len, vec_capacity, ◌^◌, OnOk};
ghost use Rattle.std.specs.Global.{Vec};
ghost use Rattle.std.specs.List.{AllByRecursion, flat_map};
ghost use Rattle.std.specs.Option.{option_copied};
ghost use Rattle.drmaa_model.specs.declared.calls.Target.{Target};
ghost use Rattle.drmaa_model.specs.declared.rows.Row.{Row};
ghost use Rattle.drmaa_model.specs.Controlling.{control_step, is_done};
ghost use Rattle.drmaa_model.specs.Effects.{left_by, is_forgotten};
ghost use Rattle.drmaa_model.specs.Fit.{IsRising, number_of};
ghost use Rattle.drmaa_model.specs.Rows.{is_of, row_of, with_course};
ghost use Rattle.drmaa_model.specs.Targets.{is_meant};
ghost use Rattle.drmaa_model.specs.TimeLaws.{timed};
ghost use Rattle.plan_book.specs.Blocks.{AreBlocks, IsInside, rows_in};
ghost use Rattle.plan_book.specs.Lapses.{ends, kills_then};
ghost use Rattle.plan_book.specs.Meant.{HasAllMeant};
ghost use Rattle.plan_book.specs.Places.{AreSorted};
ghost use Rattle.plan_book.specs.Quiet.{block_of, AreCovered, IsAlarmed, IsOutside};
ghost use Rattle.plan_book.specs.Sums.{AreSums};

use crate::alarm_blocks::{Alarm, block_of};
use crate::rows::Places;
use crate::sums::{Sums, no_sums, with_others};
use crate::{arrivals, homes, lapses, rows, sweeps, targets};
use drmaa_model::{Accepted, Course, Order, Row, Target};
use drmaa_types::{Change, Control, JobId, Moment};
use std::alloc::{AllocError, Global};

/// Takes the memory for the rows of all numbers from the first to the last one. Blocks that had let it go take it again.
///
/// # Errors
///
/// Want of memory.
pub fn reach(blocks: &mut Vec<Vec<Row>>, first: u64, last: u64) -> Result<(), AllocError>
    ensures are { (from : ℕ) → AreBlocks from 0 blocks.old.items → AreBlocks from 0 blocks.new.items }
    ensures seats { OnOk result ((from : ℕ) → AreBlocks from 0 blocks.old.items → AreBlocks (block_of first) 0 blocks.new.items) }
    ensures ok { OnOk result (block_of last < length blocks.new.items) }
    ensures rows { (n : ℕ) → n ≤ length blocks.old.items → rows_in (take n blocks.new.items) ≡ rows_in (take n blocks.old.items) }
    ensures all { rows_in blocks.new.items ≡ rows_in blocks.old.items }
    ensures more { length blocks.old.items ≤ length blocks.new.items }
{
    make_room(blocks, block_of(first))?;
    for _ in blocks.len()..block_of(last) + 1 {
        add_block(blocks)?;
    }
    Ok(())
}

/// Each block from this one on has room for the rows of all of its numbers.
fn make_room(blocks: &mut Vec<Vec<Row>>, first: usize) -> Result<(), AllocError>
    ensures are { (from : ℕ) → AreBlocks from 0 blocks.old.items → AreBlocks from 0 blocks.new.items }
    ensures seats { OnOk result ((from : ℕ) → AreBlocks from 0 blocks.old.items → AreBlocks first 0 blocks.new.items) }
    ensures rows { (n : ℕ) → rows_in (take n blocks.new.items) ≡ rows_in (take n blocks.old.items) }
    ensures len { length blocks.new.items ≡ length blocks.old.items }
{
    for block in first..blocks.len() {
        fill_block(&mut blocks[block])?;
    }
    Ok(())
}

fn fill_block(rows: &mut Vec<Row>) -> Result<(), AllocError>
    ensures items { rows.new.items ≡ rows.old.items }
    ensures capacity { vec_capacity rows.old ≤ vec_capacity rows.new }
    ensures room { OnOk result (64 ≤ vec_capacity rows.new) }
{
    if rows.capacity() < 64 {
        rows.reserve(64)?;
    }
    Ok(())
}

fn add_block(blocks: &mut Vec<Vec<Row>>) -> Result<(), AllocError>
    ensures are { (from : ℕ) → AreBlocks from 0 blocks.old.items → AreBlocks from 0 blocks.new.items }
    ensures rows { rows_in blocks.new.items ≡ rows_in blocks.old.items }
    ensures ok { OnOk result (length blocks.new.items ≡ length blocks.old.items + 1) }
    ensures front { (n : ℕ) → n ≤ length blocks.old.items → take n blocks.new.items ≡ take n blocks.old.items }
    ensures more { length blocks.old.items ≤ length blocks.new.items }
{
    let alloc = *blocks.allocator();
    let mut rows = Vec::new(alloc);
    rows.reserve(64)?;
    blocks.push(rows)?;
    Ok(())
}

/// Each of these blocks that has no rows gives its memory back. It takes none.
pub fn let_go(blocks: &mut Vec<Vec<Row>>, places: Places)
    ensures gone { (k : ℕ) (d : Vec Row) → IsInside places k → k < length blocks.old.items → (slice_index_or blocks.new.items k d).items ≡ [] → vec_capacity (slice_index_or blocks.new.items k d) ≡ 0 }
    ensures are { (from : ℕ) → places.until ≤ from → AreBlocks from 0 blocks.old.items → AreBlocks from 0 blocks.new.items }
    ensures rows { (n : ℕ) → rows_in (take n blocks.new.items) ≡ rows_in (take n blocks.old.items) }
    ensures len { length blocks.new.items ≡ length blocks.old.items }
{
    for block in places.from..places.until.min(blocks.len()) {
        let_block_go(&mut blocks[block]);
    }
}

fn let_block_go(rows: &mut Vec<Row>)
    ensures items { rows.new.items ≡ rows.old.items }
    ensures gone { rows.new.items ≡ [] → vec_capacity rows.new ≡ 0 }
{
    if rows.is_empty() {
        let alloc = *rows.allocator();
        *rows = Vec::new(alloc);
    }
}

/// The row of this job, if it is kept.
pub fn row_of(blocks: &Vec<Vec<Row>>, job: JobId) -> Option<&Row>
    requires { AreBlocks (length blocks.now.items) 0 blocks.now.items }
    ensures { option_copied result ≡ row_of job (rows_in blocks.now.items) }
{
    match blocks.get(block_of(job.0)) {
        Some(block) => rows::row_of(block, job),
        None => None,
    }
}

/// The row of this job alone, or none where the job isn't kept.
pub fn row_alone(blocks: &Vec<Vec<Row>>, job: JobId) -> &[Row]
    requires { AreBlocks (length blocks.now.items) 0 blocks.now.items }
    ensures { HasAllMeant (Target.Job job) (rows_in blocks.now.items) result.now }
{
    match blocks.get(block_of(job.0)) {
        Some(block) => targets::row_alone(block, job),
        None => &[],
    }
}

/// A row comes in behind the others. There is room for it.
pub fn push(blocks: &mut Vec<Vec<Row>>, row: Row)
    requires are { AreBlocks (block_of row.job.0) 0 blocks.old.items }
    requires room { block_of row.job.0 < length blocks.old.items }
    requires above { AllByRecursion (λ (other : Row). other.job.0 < row.job.0) (rows_in blocks.old.items) }
    ensures are { (from : ℕ) → AreBlocks from 0 blocks.old.items → AreBlocks from 0 blocks.new.items }
    ensures rows { rows_in blocks.new.items ≡ rows_in blocks.old.items ++ row ∷ [] }
    ensures front { (n : ℕ) → n ≤ block_of row.job.0 → take n blocks.new.items ≡ take n blocks.old.items }
    ensures len { length blocks.new.items ≡ length blocks.old.items }
{
    blocks[block_of(row.job.0)].push_reserved(row);
}

/// Rows come in behind the others, in order. There is room for them.
pub fn append(blocks: &mut Vec<Vec<Row>>, more: Vec<Row>)
    requires are { AllByRecursion (λ (row : Row). AreBlocks (block_of row.job.0) 0 blocks.old.items) more.items }
    requires room { AllByRecursion (λ (row : Row). block_of row.job.0 < length blocks.old.items) more.items }
    requires rising { IsRising number_of (rows_in blocks.old.items ++ more.items) }
    ensures are { (from : ℕ) → AreBlocks from 0 blocks.old.items → AreBlocks from 0 blocks.new.items }
    ensures rows { rows_in blocks.new.items ≡ rows_in blocks.old.items ++ more.items }
    ensures front { (n : ℕ) → AllByRecursion (λ (row : Row). n ≤ block_of row.job.0) more.items → take n blocks.new.items ≡ take n blocks.old.items }
    ensures len { length blocks.new.items ≡ length blocks.old.items }
{
    for row in more {
        push(blocks, row);
    }
}

/// Gives the row of this job another course, if the job is kept.
pub fn put_course(blocks: &mut Vec<Vec<Row>>, job: JobId, course: &Course)
    requires { AreBlocks (length blocks.old.items) 0 blocks.old.items }
    ensures are { (from : ℕ) → AreBlocks from 0 blocks.old.items → AreBlocks from 0 blocks.new.items }
    ensures rows { (n : ℕ) → rows_in (take n blocks.new.items) ≡ map (with_course job course.now) (rows_in (take n blocks.old.items)) }
    ensures len { length blocks.new.items ≡ length blocks.old.items }
{
    let block = block_of(job.0);
    if block < blocks.len() {
        put_in_block(&mut blocks[block], job, course);
    }
}

/// Forgets the row of this job, if it is kept. It moves rows of its block alone.
pub fn remove(blocks: &mut Vec<Vec<Row>>, job: JobId)
    requires { AreBlocks (length blocks.old.items) 0 blocks.old.items }
    ensures are { (from : ℕ) → AreBlocks from 0 blocks.old.items → AreBlocks from 0 blocks.new.items }
    ensures rows { (n : ℕ) → rows_in (take n blocks.new.items) ≡ filter (λ (row : Row). not (is_of job row)) (rows_in (take n blocks.old.items)) }
    ensures len { length blocks.new.items ≡ length blocks.old.items }
{
    let block = block_of(job.0);
    if block < blocks.len() {
        remove_from_block(&mut blocks[block], job);
    }
}

/// The jobs of a home are left without one.
pub fn leave_rows(blocks: &mut [Vec<Row>], home: u64)
    ensures are { (from k : ℕ) → AreBlocks from k blocks.old → AreBlocks from k blocks.new }
    ensures each { (j : ℕ) (d : Vec Row) → j < length blocks.old → (slice_index_or blocks.new j d).items ≡ map (λ (row : Row). record row { home = left_by home row.home }) (slice_index_or blocks.old j d).items }
    ensures len { length blocks.new ≡ length blocks.old }
{
    for block in 0..blocks.len() {
        homes::leave_rows(&mut blocks[block], home);
    }
}

/// Forgets the ended jobs of a home.
pub fn drop_forgotten(blocks: &mut [Vec<Row>], home: u64)
    ensures are { (from k : ℕ) → AreBlocks from k blocks.old → AreBlocks from k blocks.new }
    ensures each { (j : ℕ) (d : Vec Row) → j < length blocks.old → (slice_index_or blocks.new j d).items ≡ filter (λ (row : Row). not (is_forgotten home row)) (slice_index_or blocks.old j d).items }
    ensures len { length blocks.new ≡ length blocks.old }
{
    for block in 0..blocks.len() {
        homes::drop_forgotten(&mut blocks[block], home);
    }
}

/// Forgets the ended ones of the jobs that are meant.
pub fn drop_done(blocks: &mut [Vec<Row>], target: &Target)
    ensures are { (from k : ℕ) → AreBlocks from k blocks.old → AreBlocks from k blocks.new }
    ensures each { (j : ℕ) (d : Vec Row) → j < length blocks.old → (slice_index_or blocks.new j d).items ≡ filter (λ (row : Row). not (is_meant target.now row && is_done row)) (slice_index_or blocks.old j d).items }
    ensures len { length blocks.new ≡ length blocks.old }
{
    for block in 0..blocks.len() {
        arrivals::drop_done(&mut blocks[block], target);
    }
}

/// Those of the jobs on which the call acts go on.
pub fn control_rows(blocks: &mut [Vec<Row>], moment: Moment, target: &Target, what: Control)
    ensures are { (from k : ℕ) → AreBlocks from k blocks.old → AreBlocks from k blocks.new }
    ensures each { (j : ℕ) (d : Vec Row) → j < length blocks.old → (slice_index_or blocks.new j d).items ≡ map (control_step moment target.now what) (slice_index_or blocks.old j d).items }
    ensures len { length blocks.new ≡ length blocks.old }
{
    for block in 0..blocks.len() {
        control_block(&mut blocks[block], moment, target, what);
    }
}

/// The jobs whose time is over end or are asked to end, and what they come to then. Their blocks have ends.
pub fn sweep_rows(
    rs: &Vec<Accepted>,
    blocks: &mut [Vec<Row>],
    changes: &mut Vec<Change>,
    orders: &mut Vec<Order>,
    alarm: &mut Alarm,
    moment: Moment,
    entry: u64,
) -> Sums
    requires sorted { AreSorted rs.now.items }
    requires few { length (rows_in blocks.old) < 2 ^ 72 }
    requires covered { AreCovered alarm.old.ends.items (rows_in blocks.old) }
    requires changes { vec_len changes.old + length (flat_map (ends entry moment rs.now.items) (rows_in blocks.old)) ≤ vec_capacity changes.old }
    requires orders { vec_len orders.old + length (flat_map (kills_then moment rs.now.items) (rows_in blocks.old)) ≤ vec_capacity orders.old }
    ensures are { (from k : ℕ) → AreBlocks from k blocks.old → AreBlocks from k blocks.new }
    ensures each { (j : ℕ) (d : Vec Row) → j < length blocks.old → (slice_index_or blocks.new j d).items ≡ map (timed moment rs.now.items) (slice_index_or blocks.old j d).items }
    ensures len { length blocks.new ≡ length blocks.old }
    ensures changes { changes.new.items ≡ changes.old.items ++ flat_map (ends entry moment rs.now.items) (rows_in blocks.old) }
    ensures changes_len { vec_len changes.new ≡ vec_len changes.old + length (flat_map (ends entry moment rs.now.items) (rows_in blocks.old)) }
    ensures changes_capacity { vec_capacity changes.new ≡ vec_capacity changes.old }
    ensures orders { orders.new.items ≡ orders.old.items ++ flat_map (kills_then moment rs.now.items) (rows_in blocks.old) }
    ensures orders_len { vec_len orders.new ≡ vec_len orders.old + length (flat_map (kills_then moment rs.now.items) (rows_in blocks.old)) }
    ensures orders_capacity { vec_capacity orders.new ≡ vec_capacity orders.old }
    ensures sums { AreSums (map (timed moment rs.now.items) (rows_in blocks.old)) result }
    ensures alarmed { AllByRecursion (IsAlarmed alarm.new.ends.items rs.now.items) (map (timed moment rs.now.items) (rows_in blocks.old)) }
    ensures kept { (row : Row) → IsAlarmed alarm.old.ends.items rs.now.items row → IsAlarmed alarm.new.ends.items rs.now.items row }
    ensures blocks { length alarm.new.ends.items ≡ length alarm.old.ends.items }
{
    let mut sums = no_sums();
    for block in 0..blocks.len() {
        let next = lapses::sweep_block(
            rs,
            &mut blocks[block],
            changes,
            orders,
            alarm,
            moment,
            entry,
        );
        sums = with_others(&sums, &next);
    }
    sums
}

/// The jobs whose time is over end or are asked to end, which are of these blocks, and what those come to then.
pub fn sweep_between(
    rs: &Vec<Accepted>,
    blocks: &mut Vec<Vec<Row>>,
    places: Places,
    changes: &mut Vec<Change>,
    orders: &mut Vec<Order>,
    alarm: &mut Alarm,
    moment: Moment,
    entry: u64,
) -> Sums
    requires sorted { AreSorted rs.now.items }
    requires few { length (rows_in (take (places.until - places.from) (drop places.from blocks.old.items))) < 2 ^ 72 }
    requires are { AreBlocks (length blocks.old.items) 0 blocks.old.items }
    requires span { places.from ≤ places.until }
    requires within { places.until ≤ length blocks.old.items }
    requires outside { AllByRecursion (λ (row : Row). IsOutside places (block_of row.job.0) → timed moment rs.now.items row ≡ row) (rows_in blocks.old.items) }
    requires covered { AreCovered alarm.old.ends.items (rows_in (take (places.until - places.from) (drop places.from blocks.old.items))) }
    requires changes { vec_len changes.old + length (flat_map (ends entry moment rs.now.items) (rows_in (take (places.until - places.from) (drop places.from blocks.old.items)))) ≤ vec_capacity changes.old }
    requires orders { vec_len orders.old + length (flat_map (kills_then moment rs.now.items) (rows_in (take (places.until - places.from) (drop places.from blocks.old.items)))) ≤ vec_capacity orders.old }
    ensures are { (from : ℕ) → AreBlocks from 0 blocks.old.items → AreBlocks from 0 blocks.new.items }
    ensures rows { (n : ℕ) → rows_in (take n blocks.new.items) ≡ map (timed moment rs.now.items) (rows_in (take n blocks.old.items)) }
    ensures len { length blocks.new.items ≡ length blocks.old.items }
    ensures changes { changes.new.items ≡ changes.old.items ++ flat_map (ends entry moment rs.now.items) (rows_in (take (places.until - places.from) (drop places.from blocks.old.items))) }
    ensures changes_len { vec_len changes.new ≡ vec_len changes.old + length (flat_map (ends entry moment rs.now.items) (rows_in (take (places.until - places.from) (drop places.from blocks.old.items)))) }
    ensures changes_capacity { vec_capacity changes.new ≡ vec_capacity changes.old }
    ensures orders { orders.new.items ≡ orders.old.items ++ flat_map (kills_then moment rs.now.items) (rows_in (take (places.until - places.from) (drop places.from blocks.old.items))) }
    ensures orders_len { vec_len orders.new ≡ vec_len orders.old + length (flat_map (kills_then moment rs.now.items) (rows_in (take (places.until - places.from) (drop places.from blocks.old.items)))) }
    ensures orders_capacity { vec_capacity orders.new ≡ vec_capacity orders.old }
    ensures sums { AreSums (map (timed moment rs.now.items) (rows_in (take (places.until - places.from) (drop places.from blocks.old.items)))) result }
    ensures alarmed { AllByRecursion (IsAlarmed alarm.new.ends.items rs.now.items) (map (timed moment rs.now.items) (rows_in (take (places.until - places.from) (drop places.from blocks.old.items)))) }
    ensures kept { (row : Row) → IsAlarmed alarm.old.ends.items rs.now.items row → IsAlarmed alarm.new.ends.items rs.now.items row }
    ensures blocks { length alarm.new.ends.items ≡ length alarm.old.ends.items }
{
    sweep_rows(
        rs,
        &mut blocks[places.from..places.until],
        changes,
        orders,
        alarm,
        moment,
        entry,
    )
}

fn control_block(rows: &mut Vec<Row>, moment: Moment, target: &Target, what: Control)
    ensures items { rows.new.items ≡ map (control_step moment target.now what) rows.old.items }
    ensures capacity { vec_capacity rows.new ≡ vec_capacity rows.old }
{
    sweeps::control_rows(&mut rows[..], moment, target, what);
}

/// Those of the jobs on which the call acts go on, which are of these blocks.
pub fn control_between(
    blocks: &mut Vec<Vec<Row>>,
    places: Places,
    moment: Moment,
    target: &Target,
    what: Control,
)
    requires are { AreBlocks (length blocks.old.items) 0 blocks.old.items }
    requires span { places.from ≤ places.until }
    requires within { places.until ≤ length blocks.old.items }
    requires outside { AllByRecursion (λ (row : Row). IsOutside places (block_of row.job.0) → is_meant target.now row ≡ false) (rows_in blocks.old.items) }
    ensures are { (from : ℕ) → AreBlocks from 0 blocks.old.items → AreBlocks from 0 blocks.new.items }
    ensures rows { (n : ℕ) → rows_in (take n blocks.new.items) ≡ map (control_step moment target.now what) (rows_in (take n blocks.old.items)) }
    ensures part { rows_in (take (places.until - places.from) (drop places.from blocks.new.items)) ≡ map (control_step moment target.now what) (rows_in (take (places.until - places.from) (drop places.from blocks.old.items))) }
    ensures len { length blocks.new.items ≡ length blocks.old.items }
{
    control_rows(&mut blocks[places.from..places.until], moment, target, what);
}

/// Forgets the ended ones of the jobs that are meant, which are of these blocks.
pub fn drop_between(blocks: &mut Vec<Vec<Row>>, places: Places, target: &Target)
    requires are { AreBlocks (length blocks.old.items) 0 blocks.old.items }
    requires span { places.from ≤ places.until }
    requires within { places.until ≤ length blocks.old.items }
    requires outside { AllByRecursion (λ (row : Row). IsOutside places (block_of row.job.0) → is_meant target.now row ≡ false) (rows_in blocks.old.items) }
    ensures are { (from : ℕ) → AreBlocks from 0 blocks.old.items → AreBlocks from 0 blocks.new.items }
    ensures rows { (n : ℕ) → rows_in (take n blocks.new.items) ≡ filter (λ (row : Row). not (is_meant target.now row && is_done row)) (rows_in (take n blocks.old.items)) }
    ensures len { length blocks.new.items ≡ length blocks.old.items }
{
    drop_done(&mut blocks[places.from..places.until], target);
}

/// Gives the row of this job another course, if it is among these.
fn put_in_block(rows: &mut Vec<Row>, job: JobId, course: &Course)
    requires { IsRising number_of rows.old.items }
    ensures rows { rows.new.items ≡ map (with_course job course.now) rows.old.items }
    ensures capacity { vec_capacity rows.new ≡ vec_capacity rows.old }
{
    match rows::place_of(rows, job) {
        Ok(place) => rows[place].course = *course,
        Err(_) => {}
    }
}

/// Forgets the row of this job, if it is among these.
fn remove_from_block(rows: &mut Vec<Row>, job: JobId)
    requires { IsRising number_of rows.old.items }
    ensures rows { rows.new.items ≡ filter (λ (row : Row). not (is_of job row)) rows.old.items }
    ensures capacity { vec_capacity rows.new ≡ vec_capacity rows.old }
{
    match rows::place_of(rows, job) {
        Ok(place) => {
            rows.remove(place);
        }
        Err(_) => {}
    }
}
