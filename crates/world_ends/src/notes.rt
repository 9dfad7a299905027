// What each step of a run came to, where it is watched. No clause speaks of it.

/// A step: one event of a script, or one that a link or a settling makes.
#[derive(Clone, Copy, Debug, PartialEq, Eq)]
pub enum Happened {
    Submitted,
    Opened,
    Pushed,
    Served,
    Taken,
    Cut,
    Dropped,
    Restarted,
    Crashed,
    Forged,
    Flipped,
    Waited,
    Finished,
}

/// What the server made of a frame: the last reply's status, none where no reply was made; and whether a message of it acted.
#[derive(Clone, Copy, Debug, PartialEq, Eq)]
pub struct Note {
    pub status: Option<u32>,
    pub acted: bool,
}

/// What a step came to.
#[derive(Clone, Copy, Debug)]
pub struct Step {
    pub happened: Happened,
    /// The connection that it names; 0 where it names none.
    pub connection: u32,
    /// The operation whose message went out, was served or was answered; 0 where it is a dialog's, or none.
    pub operation: u32,
    /// Of a frame that the server took.
    pub note: Note,
    /// How many bytes of a message were sent, served or taken.
    pub bytes: usize,
    /// How many messages are on their way to the server, and to the client, on its connection behind it.
    pub ups: usize,
    pub downs: usize,
    /// Which ends of its connection are open behind it, and whether its channel is ready.
    pub client_open: bool,
    pub server_open: bool,
    pub ready: bool,
}

/// What is noted of a run: what the last frame that the server took came to, and each step, where the run is watched.
#[derive(Drop)]
pub struct Notes {
    pub last: Note,
    pub steps: Option<Vec<Step>>,
}

impl Note {
    /// Of no frame.
    pub fn none() -> Note {
        Note {
            status: None,
            acted: false,
        }
    }
}

impl Notes {
    /// Nothing yet, and nothing is watched.
    pub fn new() -> Notes {
        Notes {
            last: Note::none(),
            steps: None,
        }
    }
}
