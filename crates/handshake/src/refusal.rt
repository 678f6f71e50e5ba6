use ids::PartyId;
use std::error::Error;
use std::fmt;

/// Why a handshake names nobody.
#[derive(Clone, Copy, Debug, PartialEq, Eq)]
pub enum Refusal {
    /// The greeting doesn't begin with the words of a link of this version.
    NotAGreeting,
    /// The ask is for another party.
    NotMine,
    /// No key is held with that party, or it is the other one that has to dial.
    NotAParty,
    /// The tag isn't that of what is said, under the key of the two.
    BadTag,
    /// This party asks at other sizes. It holds the key.
    OtherSizes(PartyId),
}

impl fmt::Display for Refusal {
    fn fmt<W: fmt::Write>(&self, f: &mut fmt::Formatter<W>) -> fmt::Result {
        f.write_str(match self {
            Refusal::NotAGreeting => "not a greeting",
            Refusal::NotMine => "for another party",
            Refusal::NotAParty => "no such party may dial",
            Refusal::BadTag => "bad tag",
            Refusal::OtherSizes(_) => "other sizes",
        })
    }
}

impl Error for Refusal {}
