/// How the command ends. Its number is the program's status.
#[derive(Clone, Copy, PartialEq, Eq, Debug, Drop)]
pub enum Ending {
    /// As many connections as were to be were served.
    Done = 0,
    /// The words are no command.
    Usage = 2,
    /// A line of the settings is refused.
    Settings = 3,
    /// The source failed.
    SourceFailed = 4,
    /// The sink failed.
    SinkFailed = 5,
    /// The disk failed.
    DiskFailed = 6,
    /// The net failed.
    NetFailed = 7,
    /// Memory ran out.
    Memory = 8,
    /// The disk holds no journal.
    NoJournal = 9,
    /// The journal has no room for one more start.
    JournalFull = 10,
}
