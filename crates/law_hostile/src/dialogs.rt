//! The client's dialogs and channels in a run of a network that repeats and redirects.
//!
//! Each law is the contract of a public function that does nothing.

ghost use Rattle.law_hostile.specs.dialogs.OwnDialogs.{AwaitedWasPut, ChannelsAreCounted, DialogsComeFirst};

/// Whatever the network gives to either end: one new session is in the making at most, while none is live; a ready channel's dialog is over
/// and its end is open; an open end is at the stage that the client has for it; and ready channels have numbers of their own.
pub fn channels_are_counted_law()
    ensures counted { ChannelsAreCounted }
{}

/// Each NEGOTIATE and SESSION_SETUP that the client put up has a message id below 3, and each request of a line 3 or more (`first`). The
/// operation's request whose response an end waits for was put up on its connection for the present opening, under that id (`awaited`).
pub fn dialogs_come_first_law()
    ensures first { DialogsComeFirst }
    ensures awaited { AwaitedWasPut }
{}
