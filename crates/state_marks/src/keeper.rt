use crate::refusal::Refusal;

/// Where a party's mark is kept: its state directory, as a rule.
pub trait Keeper {
    ghost use Rattle.std.specs.Prelude.{ℕ, OnOk};

    // the keeper before, the mark, the keeper after
    ghost keeps: { Self → ℕ → Self → Type 0 };

    /// Keeps a mark in place of the one before, so that it is found whatever ends the process. Where it refuses, either
    /// of the two may be found.
    fn keep(&mut self, mark: u64) -> Result<(), Refusal>
        ensures { OnOk result (keeps self.old mark self.new) };
}
