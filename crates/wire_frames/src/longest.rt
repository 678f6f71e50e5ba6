ghost use Rattle.std.specs.Prelude.{◌≡◌, ◌≤◌};
ghost use Rattle.wire_frames.specs.Longest.{longest_frame, longest_item};

use ids::{Config, MOST_COMMANDS, MOST_FAULTS_OF_VERSION_ONE, MOST_PAYLOAD};

/// How many bytes may stand before a frame that another party passes on. A letter that carries a frame has nine: its
/// mark and a height.
const MOST_BEFORE: usize = 16;

/// How many bytes the longest frame at these sizes has: a proposal with as many commands of the longest payload, and
/// as many votes, as a frame may have. `no_frame_is_longer` says so of all kinds in both versions. With 31 replicas
/// these are 111,750.
pub fn longest_frame(config: &Config) -> usize
    ensures is { result ≡ longest_frame config.now }
    ensures bound { result ≤ 111_750 }
{
    let vector = 32 * usize::from(config.n());
    let command = 2 + 8 + 2 + MOST_PAYLOAD + vector;
    let core = 32 + 8 + 8 + 1 + MOST_COMMANDS * command;
    let (head, votes) = if config.faults() <= MOST_FAULTS_OF_VERSION_ONE {
        (1, config.n())
    } else {
        (2, config.quorum())
    };
    let certificate = 32 + 1 + usize::from(votes) * (2 + vector);
    head + 8 + core + certificate + vector
}

/// How many bytes the longest item at these sizes has: the longest frame, with as many bytes before it as a letter may
/// have that carries a frame. So a recorded frame goes over a wire, too, however long it is.
pub fn longest_item(config: &Config) -> usize
    ensures is { result ≡ longest_item config.now }
    ensures bound { result ≤ 111_766 }
{
    longest_frame(config) + MOST_BEFORE
}
