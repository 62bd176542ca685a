//! Between which numbers the members of an array stand, and the jobs of a home. Members come in together, so that no others stand
//! between them; between the jobs of a home others may. Of each array and of each home the first and the last number are kept, in
//! order of its own number.
ghost use Rattle.std.specs.Prelude.{◌≡◌, ◌<◌, ◌≤◌, ℕ, true, None, IfSome, IfOk, IfErr, take, drop, length, []};
ghost use Rattle.std.specs.List.{AllByRecursion};
ghost use Rattle.drmaa_model.specs.Fit.{IsRising};
ghost use Rattle.plan_book.specs.Blocks.{rows_in};
ghost use Rattle.plan_book.specs.Places.{IsAt};
ghost use Rattle.plan_book.specs.Spans.{AreBothSorted, AreSpanned, IsInArraySpan, IsInHomeSpan, IsInSpan, IsSorted, IsSpanned, IsWithin, Keeps, span_number, span_of, widened};

use drmaa_model::Row;
use std::alloc::Global;

/// The numbers from the first to the last. There are none where the last is less.
#[derive(Clone, Copy)]
pub struct NumberRange {
    pub first: u64,
    pub last: u64,
}

/// The jobs of a group have numbers from the first to the last.
#[derive(Clone, Copy)]
pub struct Span {
    /// The number of the array, or of the home.
    pub group: u64,
    pub first: u64,
    pub last: u64,
}

/// The spans of groups, which are arrays or homes. Those of groups of which no job is left may stay.
#[derive(Drop)]
pub struct SpanList {
    /// In order of the group's number.
    pub list: Vec<Span>,
    /// Groups up to this number may have none, since there was no memory.
    pub unspanned: u64,
}

impl SpanList {
    /// Those of no jobs. It takes no memory.
    fn new(alloc: Global) -> SpanList
        ensures { IsSorted result }
    {
        SpanList {
            list: Vec::new(alloc),
            unspanned: 0,
        }
    }

    /// Between which numbers the jobs of the group stand. None where they may stand anywhere.
    pub fn numbers_of(&self, group: u64) -> Option<NumberRange>
        requires { IsSorted self.now }
        ensures { IfSome result (λ range. (job : ℕ) → IsWithin group job self.now → (range.first ≤ job) × (job ≤ range.last)) }
    {
        if group <= self.unspanned {
            return None;
        }
        match place_of(&self.list, group) {
            Ok(place) => Some(numbers_in(&self.list[place])),
            Err(_) => Some(no_numbers()),
        }
    }

    /// A job comes in. Where a new span finds no memory, groups up to its own do without.
    fn put_member(&mut self, group: u64, job: u64)
        requires { IsSorted self.old }
        ensures sorted { IsSorted self.new }
        ensures keeps { Keeps self.old self.new }
        ensures member { IsWithin group job self.new }
    {
        if !put_number(&mut self.list, group, job) {
            self.unspanned = self.unspanned.max(group);
        }
    }

    /// Those of no jobs.
    fn clear(&mut self)
        ensures { IsSorted self.new }
    {
        self.list.clear();
        self.unspanned = 0;
    }
}

/// The spans of the arrays, and those of the homes.
#[derive(Drop)]
pub struct Spans {
    pub arrays: SpanList,
    pub homes: SpanList,
}

impl Spans {
    /// Those of no jobs. It takes no memory.
    pub fn new(alloc: Global) -> Spans
        ensures { AreSpanned [] result }
    {
        Spans {
            arrays: SpanList::new(alloc),
            homes: SpanList::new(alloc),
        }
    }

    /// Jobs come in.
    pub fn put_rows(&mut self, more: &[Row])
        requires { AreBothSorted self.old }
        ensures sorted { AreBothSorted self.new }
        ensures arrays { Keeps self.old.arrays self.new.arrays }
        ensures homes { Keeps self.old.homes self.new.homes }
        ensures members { AllByRecursion (IsSpanned self.new) more.now }
    {
        for row in more {
            self.put_row(row);
        }
    }

    fn put_row(&mut self, row: &Row)
        requires { AreBothSorted self.old }
        ensures sorted { AreBothSorted self.new }
        ensures arrays { Keeps self.old.arrays self.new.arrays }
        ensures homes { Keeps self.old.homes self.new.homes }
        ensures member { IsSpanned self.new row.now }
    {
        put_in_array(&mut self.arrays, row);
        put_in_home(&mut self.homes, row);
    }

    /// The spans of the jobs of these blocks alone.
    fn count_anew(&mut self, blocks: &[Vec<Row>])
        ensures { AreSpanned (rows_in blocks.now) self.new }
    {
        self.arrays.clear();
        self.homes.clear();
        for block in blocks {
            self.put_rows(&block[..]);
        }
    }

    /// Jobs have left: once there are more than twice as many spans of arrays or of homes as these jobs, and one, they are counted anew,
    /// so that those of groups of which no job is left don't grow without bound.
    pub fn prune(&mut self, count: u128, blocks: &[Vec<Row>])
        requires { AreSpanned (rows_in blocks.now) self.old }
        ensures { AreSpanned (rows_in blocks.now) self.new }
    {
        let most = self.arrays.list.len().max(self.homes.list.len());
        if (most / 2) as u128 > count {
            self.count_anew(blocks);
        }
    }
}

/// The job comes in, which may be a member of an array.
fn put_in_array(arrays: &mut SpanList, row: &Row)
    requires { IsSorted arrays.old }
    ensures sorted { IsSorted arrays.new }
    ensures keeps { Keeps arrays.old arrays.new }
    ensures member { IsInArraySpan arrays.new row.now }
{
    match row.wants.array {
        Some(array) => arrays.put_member(array.0, row.job.0),
        None => {}
    }
}

/// The job comes in, which may belong to a home.
fn put_in_home(homes: &mut SpanList, row: &Row)
    requires { IsSorted homes.old }
    ensures sorted { IsSorted homes.new }
    ensures keeps { Keeps homes.old homes.new }
    ensures member { IsInHomeSpan homes.new row.now }
{
    match row.home {
        Some(home) => homes.put_member(home, row.job.0),
        None => {}
    }
}

fn numbers_in(span: &Span) -> NumberRange
    ensures { result ≡ record { first = span.now.first; last = span.now.last } }
{
    NumberRange {
        first: span.first,
        last: span.last,
    }
}

/// A range that has no number.
pub fn no_numbers() -> NumberRange {
    NumberRange { first: 1, last: 0 }
}

/// Where the span of the group stands, or where it would. It is found by halves.
fn place_of(spans: &Vec<Span>, group: u64) -> Result<usize, usize>
    requires sorted { IsRising span_number spans.now.items }
    ensures found { IfOk result (IsAt span_number group spans.now.items) }
    ensures absent { IfErr result (λ _. span_of group spans.now.items ≡ None) }
    ensures below { IfErr result (λ place. AllByRecursion (λ span. span.group < group) (take place spans.now.items)) }
    ensures above { IfErr result (λ place. AllByRecursion (λ span. group < span.group) (drop place spans.now.items)) }
    ensures within { IfErr result (λ place. place ≤ length spans.now.items) }
{
    spans.binary_search_by_key(&group, |span| span.group)
}

/// Whether the span of the group has the number then, where it takes memory for a new one.
fn put_number(spans: &mut Vec<Span>, group: u64, job: u64) -> bool
    requires { IsRising span_number spans.old.items }
    ensures sorted { IsRising span_number spans.new.items }
    ensures keeps { (other number : ℕ) → IsInSpan other number spans.old.items → IsInSpan other number spans.new.items }
    ensures member { result ≡ true → IsInSpan group job spans.new.items }
{
    match place_of(spans, group) {
        Ok(place) => {
            spans[place] = widened(&spans[place], job);
            true
        }
        Err(place) => spans.insert(place, span_at(group, job)).is_ok(),
    }
}

fn span_at(group: u64, job: u64) -> Span
    ensures { result ≡ record { group = group; first = job; last = job } }
{
    Span {
        group,
        first: job,
        last: job,
    }
}

/// The span with one more number.
fn widened(span: &Span, job: u64) -> Span
    ensures { result ≡ widened job span.now }
{
    Span {
        group: span.group,
        first: span.first.min(job),
        last: span.last.max(job),
    }
}
