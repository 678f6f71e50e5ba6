//! Where steps are written down.

ghost use Rattle.std.specs.Prelude.{◌≡◌, List, [], ◌∷◌, OnOk};
ghost use Rattle.replica.specs.declared.stored.StoredStep.{StoredStep as AnyStep};

use crate::stored::StoredStep;
use std::alloc::{AllocError, Global};

/// Where steps are written down as they are made, if anywhere.
pub(crate) trait StepLog {
    ghost use Rattle.std.specs.Prelude.{List};
    ghost use Rattle.replica.specs.declared.stored.StoredStep.{StoredStep as AnyStep};

    // these steps are held there, newest first
    ghost holds: { Self → List AnyStep → Type 0 };
    // it has room for one more
    ghost has_room: { Self → Type 0 };

    /// Makes room for one step more.
    fn reserve(&mut self) -> Result<(), AllocError>
        ensures room { OnOk result (has_room self.new) }
        ensures same { (steps : List AnyStep) → holds self.old steps → holds self.new steps };

    /// Writes a step down.
    fn push(&mut self, step: StoredStep)
        requires { has_room self.old }
        ensures { (steps : List AnyStep) → holds self.old steps → holds self.new (step ∷ steps) };
}

/// All steps are kept, oldest first.
#[derive(Drop)]
pub(crate) struct Steps {
    pub(crate) items: Vec<StoredStep>,
}

impl Steps {
    /// No steps. It takes no memory yet.
    pub(crate) fn new(alloc: Global) -> Steps
        ensures { result.items.items ≡ [] }
    {
        Steps {
            items: Vec::new(alloc),
        }
    }
}

impl StepLog for Steps {
    ghost use Rattle.std.specs.Prelude.{◌≡◌, ◌<◌, reverse, vec_len, vec_capacity};

    ghost holds = { λ s steps. reverse s.items.items ≡ steps };

    ghost has_room = { λ s. vec_len s.items < vec_capacity s.items };

    fn reserve(&mut self) -> Result<(), AllocError> {
        self.items.reserve(1)?;
        Ok(())
    }

    fn push(&mut self, step: StoredStep) {
        self.items.push(step).unwrap();
    }
}

/// Nothing is written down.
#[derive(Drop)]
pub(crate) struct NoLog;

impl StepLog for NoLog {
    ghost use Rattle.std.specs.Prelude.{⊤};

    ghost holds = { λ _ _. ⊤ };

    ghost has_room = { λ _. ⊤ };

    fn reserve(&mut self) -> Result<(), AllocError> {
        Ok(())
    }

    fn push(&mut self, step: StoredStep) {
        // For the proof: the step is taken, and dropped.
        let _step = step;
    }
}
