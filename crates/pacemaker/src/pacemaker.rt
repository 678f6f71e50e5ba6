ghost use Rattle.std.specs.Prelude.{◌≡◌, ◌↔◌, ◌<◌, ◌∷◌, [], max, IsTrue, slice_index, slice_set};
ghost use Rattle.ids.specs.Sizes.{replicas, leader};
ghost use Rattle.definitions.specs.Frames.{Certificate};
ghost use Rattle.definitions.specs.Branches.{Branch};
ghost use Rattle.definitions.specs.Chronicles.{Chronicle, Step.noted, Note.got_new_view, Note.timed_out};
ghost use Rattle.definitions.specs.Chronicles.{Note.seen_view};
ghost use Rattle.pacemaker.specs.Pacing.{IsPaceOf, IsReached, passed_by};

use ids::{Config, MOST_REPLICAS, ReplicaId, View};
use std::marker::Model;

/// The view of one replica, and what others announced.
#[derive(Clone, Copy, Debug)]
pub struct Pacemaker {
    config: Config,
    view: u64,
    /// The greatest view that each replica announced, 0 where it announced none.
    announced: [u64; MOST_REPLICAS],
}

impl Model for Pacemaker {
    ghost use Rattle.pacemaker.specs.Pacing.{Pace};

    ghost Value = { Pace };

    ghost view = { λ p. record { sizes = p.config; view = p.view; announced = p.announced } };

    ghost inverse = { λ p. record { config = p.sizes; view = p.view; announced = p.announced } };
}

impl Pacemaker {
    /// In view 0, where nobody announced anything.
    pub fn new(config: Config) -> Pacemaker
        ensures sizes { result.sizes ≡ config }
        ensures begins { IsPaceOf [] result }
    {
        // For the proof: there are few replicas.
        let _n = config.n();
        Pacemaker {
            config,
            view: 0,
            announced: [0; MOST_REPLICAS],
        }
    }

    /// The view.
    pub fn view(&self) -> View
        ensures { result ≡ self.now.view }
    {
        View(self.view)
    }

    /// The replica that leads the view.
    pub fn leader(&self) -> ReplicaId
        ensures { result ≡ leader self.now.sizes self.now.view }
    {
        self.config.leader(self.view())
    }

    /// Goes on to the next view. At the greatest one, 2^64 - 1, nothing changes.
    pub fn timeout(&mut self)
        ensures sizes { self.new.sizes ≡ self.old.sizes }
        ensures paced { (c : Chronicle) → IsPaceOf c self.old → IsPaceOf (noted timed_out ∷ c) self.new }
    {
        let next = self.view.saturating_add(1);
        self.go_to(next);
    }

    /// Notes that a replica announced a view, and goes to the greatest view that at least f + 1 replicas have
    /// announced or passed, where that is above the own one. The answer is whether it moved.
    pub fn on_new_view(&mut self, sender: ReplicaId, view: View) -> bool
        requires { sender < replicas self.old.sizes }
        ensures sizes { self.new.sizes ≡ self.old.sizes }
        ensures paced { (c : Chronicle) (q : Certificate) (b : Branch) → IsPaceOf c self.old
            → IsPaceOf (noted (got_new_view view sender q b) ∷ c) self.new }
        ensures seen { (c : Chronicle) → IsPaceOf c self.old
            → IsPaceOf (noted (seen_view view sender) ∷ c) self.new }
        ensures moved { IsTrue result ↔ (self.old.view < self.new.view) }
    {
        // For the proof: there are few replicas.
        let _n = self.config.n();
        self.note(sender, view.0);
        let reached = self.reached();
        let moves = reached > self.view;
        if moves {
            self.go_to(reached);
        }
        moves
    }

    /// Goes to a view.
    fn go_to(&mut self, view: u64)
        ensures { self.new ≡ record self.old { view = view } }
    {
        self.view = view;
    }

    /// Keeps what a replica announced, where it announced nothing greater before.
    fn note(&mut self, sender: ReplicaId, view: u64)
        requires { sender < replicas self.old.sizes }
        ensures { self.new
            ≡ record self.old {
              announced =
                  slice_set self.old.announced sender (max view (slice_index self.old.announced sender));
            } }
    {
        // For the proof: there are few replicas.
        let _n = self.config.n();
        let place = usize::from(sender.0);
        self.announced[place] = view.max(self.announced[place]);
    }

    /// How many replicas have announced or passed a view.
    fn passed_by(&self, view: u64) -> usize
        ensures { result ≡ passed_by self.now view }
    {
        let n = usize::from(self.config.n());
        self.announced[..n]
            .iter()
            .filter(|announced| **announced >= view)
            .count()
    }

    /// The greatest view that more than f replicas have announced or passed, of those that were
    /// announced last.
    fn reached(&self) -> u64
        ensures { IsReached self.now result }
    {
        let mut reached = 0;
        for i in 0..self.config.n() {
            let view = self.announced[usize::from(i)];
            if view > reached && self.passed_by(view) > usize::from(self.config.faults()) {
                reached = view;
            }
        }
        reached
    }
}
