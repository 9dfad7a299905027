/// How the command ends. Its number is the program's status.
#[derive(Clone, Copy, PartialEq, Eq, Debug, Drop)]
pub enum Ending {
    /// Every operation settled, and its outcome is known.
    Done = 0,
    /// A line of the script is refused.
    Script = 3,
    /// The source failed.
    SourceFailed = 4,
    /// The sink failed.
    SinkFailed = 5,
    /// Memory ran out.
    Memory = 8,
    /// Every operation settled, and the outcome of one at least is unknown.
    Unknown = 11,
}
