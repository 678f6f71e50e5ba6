ghost use Rattle.std.specs.Prelude.{◌≡◌};
ghost use Rattle.ids.specs.Numbers.{kind_number, kind_numbered, kind_name};

use std::fmt;

/// The kinds of frames that replicas and clients send. Displayed by its name.
#[derive(Clone, Copy, Debug, PartialEq, Eq, Hash)]
pub enum Kind {
    /// A client's command, to all replicas.
    Request = 1,
    /// A leader's block with the certificate that it rests on, to all replicas.
    Proposal = 2,
    /// A replica's vote, to the leader.
    Vote = 3,
    /// A replica's announcement of its view, to all replicas.
    NewView = 4,
    /// A replica's reply to a command, to its client.
    Reply = 5,
    /// A replica's question for a block, to another one.
    Fetch = 6,
    /// A block that was asked for.
    Block = 7,
}

impl Kind {
    /// The first byte of a frame of this kind, which is also the label of the frame's tags.
    pub fn number(self) -> u8
        ensures { result ≡ kind_number self }
    {
        self as u8
    }

    /// The kind of this number, where there is one.
    pub fn from_number(number: u8) -> Option<Kind>
        ensures { result ≡ kind_numbered number }
    {
        match number {
            1 => Some(Kind::Request),
            2 => Some(Kind::Proposal),
            3 => Some(Kind::Vote),
            4 => Some(Kind::NewView),
            5 => Some(Kind::Reply),
            6 => Some(Kind::Fetch),
            7 => Some(Kind::Block),
            _ => None,
        }
    }

    /// Its name, as it is displayed.
    pub fn name(self) -> &'static str
        ensures { result.now ≡ kind_name self }
    {
        match self {
            Kind::Request => "Request",
            Kind::Proposal => "Proposal",
            Kind::Vote => "Vote",
            Kind::NewView => "NewView",
            Kind::Reply => "Reply",
            Kind::Fetch => "Fetch",
            Kind::Block => "Block",
        }
    }
}

impl fmt::Display for Kind {
    fn fmt<W: fmt::Write>(&self, f: &mut fmt::Formatter<W>) -> fmt::Result {
        f.write_str(self.name())
    }
}
