//! Frames: how many bytes they have with four replicas, which versions of them are read, which votes are
//! passed on, and what a spelling and a vector determine.

ghost use Rattle.worked_examples.specs.Frames.{CommandSize, CoreSize, VoteSize, CertificateSize};
ghost use Rattle.worked_examples.specs.Frames.{GenesisBytes, RequestSize, ReplySize, ProposalSize};
ghost use Rattle.worked_examples.specs.Frames.{BlockSize, VoteFrameSize, NewViewSize, FetchSize};
ghost use Rattle.worked_examples.specs.Frames.{VersionsAreTold, OthersHaveNoVersion, HeadsAreShort};
ghost use Rattle.worked_examples.specs.Frames.{BothVersionsAreRead};
ghost use Rattle.worked_examples.specs.Frames.{FourthVoteIsOfVersionOne, VersionTwoAloneIsRead};
ghost use Rattle.worked_examples.specs.Frames.{FirstThreeArePassedOn, OthersArePassedOn};
ghost use Rattle.worked_examples.specs.Frames.{SpellingIsOfOneFrame, OldSpellingIsOfOneFrame};
ghost use Rattle.worked_examples.specs.Frames.{BytesAreReadAsOneThing, VectorsAreWhole};
ghost use Rattle.worked_examples.specs.Frames.{EachTagIsForItsReplica};

/// How many bytes a command, a core, a vote and a certificate have with four replicas.
pub fn sizes_of_the_parts_for_four_replicas()
    ensures command { CommandSize }
    ensures core { CoreSize }
    ensures vote { VoteSize }
    ensures certificate { CertificateSize }
{}

/// The bytes whose digest names genesis.
pub fn genesis_is_49_zero_bytes()
    ensures { GenesisBytes }
{}

/// How many bytes the frames from and to clients have with four replicas.
pub fn sizes_of_requests_and_replies_for_four_replicas()
    ensures request { RequestSize }
    ensures reply { ReplySize }
{}

/// How many bytes the frames that carry a block have with four replicas.
pub fn sizes_of_frames_with_a_block_for_four_replicas()
    ensures proposal { ProposalSize }
    ensures block { BlockSize }
{}

/// How many bytes the other frames between replicas have with four replicas.
pub fn sizes_of_votes_new_views_and_fetches_for_four_replicas()
    ensures vote { VoteFrameSize }
    ensures new_view { NewViewSize }
    ensures fetch { FetchSize }
{}

/// The first byte of a frame tells its version.
pub fn the_first_byte_tells_the_version()
    ensures told { VersionsAreTold }
    ensures others { OthersHaveNoVersion }
    ensures head { HeadsAreShort }
{}

/// With four replicas a frame is read in both versions, if a certificate in it has no votes or exactly a
/// quorum.
pub fn both_versions_are_read_with_four_replicas()
    ensures { BothVersionsAreRead }
{}

/// One vote more than a quorum is read in version 1 alone.
pub fn a_fourth_vote_is_read_in_version_one_alone()
    ensures { FourthVoteIsOfVersionOne }
{}

/// With five faulty replicas no frame is read in version 1.
pub fn version_two_alone_is_read_with_sixteen_replicas()
    ensures { VersionTwoAloneIsRead }
{}

/// A certificate is passed on with the first three votes, of four replicas, that verify.
pub fn the_first_quorum_is_passed_on()
    ensures all { FirstThreeArePassedOn }
    ensures others { OthersArePassedOn }
{}

/// No two frames of one version have the same bytes.
pub fn a_spelling_is_of_one_frame()
    ensures two { SpellingIsOfOneFrame }
    ensures one { OldSpellingIsOfOneFrame }
{}

/// Two readers of the same bytes that keep to the definitions read the same.
pub fn bytes_are_read_as_one_thing()
    ensures { BytesAreReadAsOneThing }
{}

/// A vector has a tag for each replica, and at each replica's place the tag that is made for it.
pub fn each_tag_of_a_vector_is_the_tag_for_its_replica()
    ensures whole { VectorsAreWhole }
    ensures each { EachTagIsForItsReplica }
{}
