//! Numbers, moments, texts and words that are the same.
use crate::{
    ArrayId, Exit, JobId, JobState, Moment, Note, ReservationId, Same, SessionId, SignalKind, Text,
};

impl Same for u64 {
    fn is_same(&self, other: &u64) -> bool {
        *self == *other
    }
}

impl Same for u32 {
    fn is_same(&self, other: &u32) -> bool {
        *self == *other
    }
}

impl Same for i32 {
    fn is_same(&self, other: &i32) -> bool {
        *self == *other
    }
}

impl Same for bool {
    fn is_same(&self, other: &bool) -> bool {
        *self == *other
    }
}

impl Same for Moment {
    fn is_same(&self, other: &Moment) -> bool {
        self.number() == other.number()
    }
}

impl Same for Text {
    fn is_same(&self, other: &Text) -> bool {
        *self == *other
    }
}

impl Same for JobId {
    fn is_same(&self, other: &JobId) -> bool {
        self.0 == other.0
    }
}

impl Same for ArrayId {
    fn is_same(&self, other: &ArrayId) -> bool {
        self.0 == other.0
    }
}

impl Same for ReservationId {
    fn is_same(&self, other: &ReservationId) -> bool {
        self.0 == other.0
    }
}

impl Same for SessionId {
    fn is_same(&self, other: &SessionId) -> bool {
        self.0 == other.0
    }
}

impl Same for JobState {
    fn is_same(&self, other: &JobState) -> bool {
        *self == *other
    }
}

impl Same for SignalKind {
    fn is_same(&self, other: &SignalKind) -> bool {
        *self == *other
    }
}

impl Same for Note {
    fn is_same(&self, other: &Note) -> bool {
        *self == *other
    }
}

impl Same for Exit {
    fn is_same(&self, other: &Exit) -> bool {
        *self == *other
    }
}
