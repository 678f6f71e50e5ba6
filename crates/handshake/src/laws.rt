//! What holds of all handshakes. Each law stands as the contract of a function with an empty body.

ghost use Rattle.handshake.specs.Laws.{AdmitsExactly, HearsExactly, TheyMeet, TextsAreOfOne, NoTextIsOfAFrame};
ghost use Rattle.handshake.specs.Laws.{NoAskIsAnAnswer};

/// An acceptor names a peer, and answers it, exactly where the bytes are that party's ask: to this party, with this
/// nonce, at these sizes, and with the tag under the key of the two.
pub fn an_ask_is_admitted_exactly()
    ensures { AdmitsExactly }
{}

/// A dialler names a peer exactly where the bytes are the answer to what it asked, with the tag under the key of the
/// two.
pub fn an_answer_is_heard_exactly()
    ensures { HearsExactly }
{}

/// Two ends with one key and the same sizes name one another.
pub fn two_ends_meet()
    ensures { TheyMeet }
{}

/// What a tag is made of determines all that is said, and both nonces.
pub fn each_text_is_of_one_handshake()
    ensures { TextsAreOfOne }
{}

/// What a tag of a handshake is made of is never what a frame's tag is made of.
pub fn no_text_is_of_a_frame()
    ensures { NoTextIsOfAFrame }
{}

/// No ask passes for an answer.
pub fn no_ask_is_an_answer()
    ensures { NoAskIsAnAnswer }
{}
