//! What is seen of all replicas of a deployment.

ghost use Rattle.std.specs.Prelude.{◌≡◌, IfOk};

use ids::{Config, Height, MOST_REPLICAS, ReplicaId, View};
use std::alloc::{AllocError, Global};
use std::marker::Model;
use std::sync::atomic::AtomicU64;
use std::sync::atomic::Ordering::SeqCst;

/// What is seen of one.
#[derive(Drop)]
struct Sight {
    height: AtomicU64,
    view: AtomicU64,
}

/// The height that each replica has executed, and the view that it is in, as it showed them last. Threads share them by
/// reference. In one process each clock shows its own; between processes replicas tell each other. Nothing wrong comes of what
/// a faulty one shows: what more than f show is believed, and how long others keep what it needs has a bound. One alone can show a
/// later view: then a view in which nothing is executed ends as soon as at its beginning; and where votes weren't right for somebody,
/// the others follow, ever more rarely.
#[derive(Drop)]
pub struct Sights {
    config: Config,
    of: Vec<Sight>,
}

impl Model for Sights {
    ghost use Rattle.ids.specs.Sizes.{Sizes};

    ghost Value = { Sizes };

    ghost view = { λ s. s.config };
}

impl Sights {
    /// Nothing was shown.
    pub fn none(alloc: Global, config: Config) -> Result<Sights, AllocError>
        ensures { IfOk result (λ sights. sights ≡ config) }
    {
        let mut of = Vec::new(alloc);
        for _ in 0..config.n() {
            of.push(Sight {
                height: AtomicU64::new(0),
                view: AtomicU64::new(0),
            })?;
        }
        Ok(Sights { config, of })
    }

    /// The sizes of the deployment.
    pub fn config(&self) -> Config
        ensures { result ≡ self.now }
    {
        self.config
    }

    /// A replica has executed up to this height.
    pub fn show_height(&self, replica: ReplicaId, height: Height) {
        if let Some(sight) = self.of.get(usize::from(replica.0)) {
            sight.height.store(height.0, SeqCst);
        }
    }

    /// A replica is in this view.
    pub fn show_view(&self, replica: ReplicaId, view: View) {
        if let Some(sight) = self.of.get(usize::from(replica.0)) {
            sight.view.store(view.0, SeqCst);
        }
    }

    /// The height that each has executed; the greatest of all for a number that no replica has.
    pub fn heights(&self) -> [Height; MOST_REPLICAS] {
        let mut heights = [Height(u64::MAX); MOST_REPLICAS];
        for (height, sight) in heights.iter_mut().zip(&self.of) {
            *height = Height(sight.height.load(SeqCst));
        }
        heights
    }

    /// The view that each is in; 0 for a number that no replica has.
    pub fn views(&self) -> [View; MOST_REPLICAS] {
        let mut views = [View(0); MOST_REPLICAS];
        for (view, sight) in views.iter_mut().zip(&self.of) {
            *view = View(sight.view.load(SeqCst));
        }
        views
    }
}
