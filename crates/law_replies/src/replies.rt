//! What the exchange model's server tells can be written, whatever it was asked: each part of a reply's body fits its field, and how
//! many bytes the body takes is bounded by the command.
//!
//! The law is a public function with an empty body, whose contract is the statement.

ghost use Rattle.std.specs.Prelude.{◌≤◌};
ghost use Rattle.spec_exchange.specs.Commands.{Command};
ghost use Rattle.law_replies.specs.replies.Replies.{RepliesFit};
ghost use Rattle.wire_commands.specs.reply_shapes.Room.{reply_room};

/// Of any state whose rows fit, whoever sent the message: the body of the step's reply can be written where the token of a SESSION_SETUP
/// has fewer than 2^16 bytes and the path that is told of a file is text; it takes at most `reply_room` of the command (`fit`). That
/// is at most 1,049,088 bytes, so that the reply fits a message (`room`).
pub fn replies_law()
    ensures fit { RepliesFit }
    ensures room { (c : Command) → reply_room c ≤ 1049088 }
{}
