//! Refusals that are the same.
use crate::{Attribute, Limit, Refusal, Same, Which};

impl Same for Which {
    fn is_same(&self, other: &Which) -> bool {
        *self == *other
    }
}

impl Same for Limit {
    fn is_same(&self, other: &Limit) -> bool {
        *self == *other
    }
}

impl Same for Attribute {
    fn is_same(&self, other: &Attribute) -> bool {
        *self == *other
    }
}

impl Same for Refusal {
    fn is_same(&self, other: &Refusal) -> bool {
        *self == *other
    }
}
