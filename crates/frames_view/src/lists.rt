//! The lists in frames, read one element after the other.

ghost use Rattle.std.specs.Prelude.{◌≡◌, [], ◌∷◌, IfSome, IfNone};
ghost use Rattle.std.specs.Iterator.{YieldsFirstBy, item_count};
ghost use Rattle.definitions.specs.Slices.{LeftAt};
ghost use Rattle.frames_view.specs.Views.{vote_of, command_of, votes_left, commands_left};
ghost use Rattle.frames_view.specs.Places.{IsVoteAt, vote_len, IsCommandAt, command_len};

use crate::command::take_command;
use crate::views::{CommandView, Commands, VoteView, Votes};
use crate::vote::take_vote;

impl<'a> Votes<'a> {
    /// The first vote, and the others: they lie one behind the other.
    pub fn split_first(&self) -> Option<(VoteView<'a>, Votes<'a>)>
        ensures some { IfSome result (λ p. votes_left self.now ≡ vote_of p.0 ∷ votes_left p.1) }
        ensures none { IfNone result (votes_left self.now ≡ []) }
        ensures lent { IfSome result
            (λ p. IsVoteAt self.now.rest 0 p.0 × LeftAt self.now.rest (vote_len p.0) p.1.rest) }
    {
        if self.count == 0 {
            return None;
        }
        let (vote, rest) = take_vote(self.rest, self.replicas)?;
        let others = Votes {
            replicas: self.replicas,
            count: self.count - 1,
            rest,
        };
        Some((vote, others))
    }
}

impl<'a> Iterator for Votes<'a> {
    type Item = VoteView<'a>;

    ghost next_gives = { YieldsFirstBy vote_of votes_left };

    ghost remaining = { item_count votes_left };

    fn next(&mut self) -> Option<VoteView<'a>> {
        let (vote, others) = self.split_first()?;
        *self = others;
        Some(vote)
    }
}

impl<'a> Commands<'a> {
    /// The first command, and the others: they lie one behind the other.
    pub fn split_first(&self) -> Option<(CommandView<'a>, Commands<'a>)>
        ensures some { IfSome result (λ p. commands_left self.now ≡ command_of p.0 ∷ commands_left p.1) }
        ensures none { IfNone result (commands_left self.now ≡ []) }
        ensures lent { IfSome result
            (λ p. IsCommandAt self.now.rest 0 p.0 × LeftAt self.now.rest (command_len p.0) p.1.rest) }
    {
        if self.count == 0 {
            return None;
        }
        let (command, rest) = take_command(self.rest, self.replicas, self.clients)?;
        let others = Commands {
            replicas: self.replicas,
            clients: self.clients,
            count: self.count - 1,
            rest,
        };
        Some((command, others))
    }
}

impl<'a> Iterator for Commands<'a> {
    type Item = CommandView<'a>;

    ghost next_gives = { YieldsFirstBy command_of commands_left };

    ghost remaining = { item_count commands_left };

    fn next(&mut self) -> Option<CommandView<'a>> {
        let (command, others) = self.split_first()?;
        *self = others;
        Some(command)
    }
}
