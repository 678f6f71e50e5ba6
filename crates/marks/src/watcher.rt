//! Who reads the marks.

ghost use Rattle.std.specs.Prelude.{◌≡◌, ◌≤◌, map, slice_index, IfNone, IfOk, IfSome};
ghost use Rattle.std.specs.List.{range_with_len};
ghost use Rattle.marks.specs.Eyes.{first_eye, first_eyes, seeing, onlooker_of};

use crate::eye::Eye;
use crate::marks::Marks;
use ids::ReplicaId;
use std::alloc::AllocError;
use std::marker::Model;

/// An eye with the marks that it is of. Contracts see the eye.
#[derive(Drop)]
pub struct Watcher<'m> {
    marks: &'m Marks,
    replicas: u8,
    eye: Eye,
}

impl<'m> Model for Watcher<'m> {
    ghost use Rattle.std.specs.Prelude.{◌≡◌};
    ghost use Rattle.marks.specs.Eyes.{EyeState};

    ghost Value = { EyeState };

    ghost view = { λ w. w.eye };

    ghost invariant = { λ w. (w.eye.marks ≡ w.marks.now) × (w.marks.now.words ≡ w.replicas) };
}

impl<'m> Watcher<'m> {
    /// Who reads the marks of so many replicas, with the last of their first eyes, which owns no word. What is left
    /// of the eyes are the words' owners.
    pub fn new(marks: &'m Marks, replicas: u8, eyes: &mut Vec<Eye>) -> Watcher<'m>
        requires words { marks.now.words ≡ replicas }
        requires eyes { eyes.old.items ≡ first_eyes marks.now }
        ensures reads { result ≡ first_eye marks.now marks.now.words }
        ensures owners { eyes.new.items ≡ map (first_eye marks.now) (range_with_len 0 marks.now.words) }
    {
        let last = eyes.pop();
        Watcher {
            marks,
            replicas,
            eye: last.unwrap(),
        }
    }

    /// How far a replica has executed: at least what was seen of it. None, where there is no such replica.
    ///
    /// It takes no memory and waits for nobody.
    pub fn executed(&mut self, replica: ReplicaId) -> Option<u64>
        ensures seen { IfSome result (λ executed.
            (slice_index self.old.sight.seen replica ≤ executed)
            × (self.new ≡ seeing self.old replica executed)) }
        ensures none { IfNone result ((self.old.marks.words ≤ replica) × (self.new ≡ self.old)) }
    {
        if replica.0 >= self.replicas {
            return None;
        }
        Some(self.marks.executed(&mut self.eye, replica))
    }

    /// One more, which has seen as much.
    ///
    /// It takes no memory today, but may come to take some.
    pub fn another(&mut self) -> Result<Watcher<'m>, AllocError>
        ensures made { IfOk result (λ watcher. watcher ≡ onlooker_of self.old) }
        ensures unchanged { self.new ≡ self.old }
    {
        let eye = self.marks.eye(&mut self.eye)?;
        Ok(Watcher {
            marks: self.marks,
            replicas: self.replicas,
            eye,
        })
    }
}
