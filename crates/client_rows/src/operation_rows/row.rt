use client_values::Kind;

/// An operation, at the index that is its number. Row 0 is none. A link that is 0 leads nowhere.
#[derive(Clone, Copy)]
pub struct Row {
    pub kind: Kind,
    pub unsettled: bool,
    /// It settled as Ok or Refused.
    pub firm: bool,
    /// It went out itself.
    pub sent: bool,
    /// What is outstanding is a request to attach its open, in its place.
    pub asking: bool,
    /// A copy is unanswered: its channel was cut before its reply was taken.
    pub unanswered: bool,
    /// The credits that it pays for itself.
    pub charge: u8,
    /// The credits that it costs to send it now: to ask for its open pays 1.
    pub cost: u8,
    /// The lock slot that it took, from 1, and the number under which it stands there.
    pub slot: u8,
    pub slot_number: u8,
    /// The channel sequence of its last copy.
    pub sequence: u16,
    /// The ready channel on which it, or the request to attach, is outstanding.
    pub outstanding_on: Option<u8>,
    /// The create whose open it is on; a create is on its own.
    pub create: u32,
    /// The index of its open.
    pub open: u32,
    /// Where its holders begin, and where those end that aren't known to be settled.
    pub holders: u32,
    pub holders_end: u32,
    // Links are numbers of rows and stand in the rows, so that settling, a cut and a session's end take no memory.
    /// The next lower one of its open; the next lower change; the next lower write of a byte or more.
    pub lower: u32,
    pub change: u32,
    pub filled: u32,
    /// The next lower one of its open that pays more than one credit.
    pub dear: u32,
}
