//! Replies that are the same. Each kind of reply is named, so that a new one can't be passed over.
use crate::{Launch, Reply, Signal};
use drmaa_types::Same;

impl Same for Launch {
    fn is_same(&self, other: &Launch) -> bool {
        self.job.is_same(&other.job)
            && self.attempt.is_same(&other.attempt)
            && self.slots.is_same(&other.slots)
            && self.words.is_same(&other.words)
    }
}

impl Same for Signal {
    fn is_same(&self, other: &Signal) -> bool {
        self.job.is_same(&other.job)
            && self.attempt.is_same(&other.attempt)
            && self.kind.is_same(&other.kind)
    }
}

impl Same for Reply {
    fn is_same(&self, other: &Reply) -> bool {
        match self {
            Reply::Unit => match other {
                Reply::Unit => true,
                _ => false,
            },
            Reply::Session(one) => match other {
                Reply::Session(other) => one.is_same(other),
                _ => false,
            },
            Reply::Names(one) => match other {
                Reply::Names(other) => one.is_same(other),
                _ => false,
            },
            Reply::Job(one) => match other {
                Reply::Job(other) => one.is_same(other),
                _ => false,
            },
            Reply::Array {
                array: one_array,
                first: one_first,
                count: one_count,
            } => match other {
                Reply::Array {
                    array,
                    first,
                    count,
                } => {
                    one_array.is_same(array) && one_first.is_same(first) && one_count.is_same(count)
                }
                _ => false,
            },
            Reply::Jobs(one) => match other {
                Reply::Jobs(other) => one.is_same(other),
                _ => false,
            },
            Reply::State(one) => match other {
                Reply::State(other) => one.is_same(other),
                _ => false,
            },
            Reply::Info(one) => match other {
                Reply::Info(other) => one.get().is_same(other.get()),
                _ => false,
            },
            Reply::Reached(one) => match other {
                Reply::Reached(other) => one.is_same(other),
                _ => false,
            },
            Reply::Reserved(one) => match other {
                Reply::Reserved(other) => one.is_same(other),
                _ => false,
            },
            Reply::Reservation(one) => match other {
                Reply::Reservation(other) => one.get().is_same(other.get()),
                _ => false,
            },
            Reply::Reservations(one) => match other {
                Reply::Reservations(other) => one.is_same(other),
                _ => false,
            },
            Reply::Infos(one) => match other {
                Reply::Infos(other) => one.is_same(other),
                _ => false,
            },
            Reply::ReservationInfos(one) => match other {
                Reply::ReservationInfos(other) => one.is_same(other),
                _ => false,
            },
            Reply::Machine(one) => match other {
                Reply::Machine(other) => one.is_same(other),
                _ => false,
            },
            Reply::Callback(one) => match other {
                Reply::Callback(other) => one.is_same(other),
                _ => false,
            },
            Reply::Launch(one) => match other {
                Reply::Launch(other) => one.is_same(other),
                _ => false,
            },
            Reply::Signal(one) => match other {
                Reply::Signal(other) => one.is_same(other),
                _ => false,
            },
            Reply::Refused(one) => match other {
                Reply::Refused(other) => one.is_same(other),
                _ => false,
            },
        }
    }
}
