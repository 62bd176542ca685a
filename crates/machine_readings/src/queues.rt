//! The names of the machine's queues.
ghost use Rattle.std.specs.Prelude.{◌≡◌, IfOk};
ghost use Rattle.drmaa_model.specs.Infos.{default_queue, queue_name, queue_names};

use crate::store::Store;
use drmaa_types::{Text, TextList, queue_at};
use std::alloc::{AllocError, Global};

impl Store {
    /// The name of the queue at this place, counted from 1, and `default` where there is none.
    pub fn queue_name(&self, place: Option<u32>) -> Result<Text, AllocError>
        ensures { IfOk result (λ name. name ≡ queue_name self.now.core.plan.queues place) }
    {
        let Some(place) = place else {
            return default_queue(self.alloc);
        };
        match queue_at(self.core.queues(), place) {
            Some(queue) => queue.name.clone(),
            None => default_queue(self.alloc),
        }
    }

    /// The names of the queues, in order, and `default` alone where there are none.
    pub fn queue_names(&self) -> Result<TextList, AllocError>
        ensures { IfOk result (λ names. names ≡ queue_names self.now.core.plan.queues) }
    {
        let queues = self.core.queues().as_slice();
        let mut names = Vec::new(self.alloc);
        if queues.is_empty() {
            names.push(default_queue(self.alloc)?)?;
        }
        for queue in queues {
            names.push(queue.name.clone()?)?;
        }
        Ok(TextList::from_vec(names))
    }
}

/// The name that stands for a queue where there are none.
fn default_queue(alloc: Global) -> Result<Text, AllocError>
    ensures { IfOk result (λ name. name ≡ default_queue) }
{
    Ok(Text::from_string(String::from_str(alloc, "default")?))
}
