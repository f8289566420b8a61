/// How a control's stream ended.
#[derive(Clone, Copy, Debug, PartialEq, Eq)]
pub enum ControlEnd {
    /// A line said so.
    Quit,
    /// The input ended.
    Ended,
    /// A line has over 256 bytes, its LF not counted. It is not answered.
    LongLine,
    /// 2^62 lines were answered.
    TooManyLines,
    /// The source failed.
    SourceFault,
    /// The sink failed. All answers before were sent, and nothing more was read.
    SinkFault,
    /// There was no memory to begin with. Nothing was read, written or asked.
    Memory,
}
