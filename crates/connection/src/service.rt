ghost use Rattle.std.specs.Prelude.{◌≡◌, [], OnOk, OnErr};

use ids::Fault;
use mc_lines::CanonicalText;

/// What answers requests.
pub trait Service {
    ghost use Rattle.std.specs.Prelude.{ℕ, List, Option, Some, None};

    // service before, payload, the answer or a refusal, service after
    ghost answers: { Self → List ℕ → Option (List ℕ) → Self → Type 0 };

    /// Answers the request that has this text. The answer is put into `text`, which is handed in
    /// empty. Whatever the refusal at an `Err`, the connection ends, and what stands in `text` isn't
    /// written.
    fn call(&mut self, payload: &CanonicalText<'_>, text: &mut Vec<u8>) -> Result<(), Fault>
        requires { text.old.items ≡ [] }
        ensures answered { OnOk result (answers self.old payload.now (Some text.new.items) self.new) }
        ensures refused { OnErr result (answers self.old payload.now None self.new) };
}
