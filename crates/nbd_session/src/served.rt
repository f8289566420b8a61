/// How a connection ended.
#[derive(Clone, Copy, Debug, PartialEq, Eq)]
pub enum Served {
    /// The client said so, or its bytes ended between two requests or directly after the handshake.
    Done,
    /// The client gave up its handshake.
    Aborted,
    /// The client's first word has other flags.
    BadHello,
    /// An option or a request begins with another magic word.
    BadMagic,
    /// The bytes ended inside a message, or before the first request could come.
    Truncated,
    /// A WRITE of so many bytes, which are more than 33,554,432.
    Oversized(u32),
    /// The head of a 65th option was read, with its magic right.
    TooManyOptions,
    /// EXPORT_NAME named another export, or its data are over 8,192 bytes.
    UnknownExport,
    /// 2^62 requests were answered.
    TooManyRequests,
    /// The source failed.
    SourceFault,
    /// The sink failed. All that was to be sent before was sent, and nothing more was read.
    SinkFault,
    /// There was no memory to begin with. Nothing was read, written or noted.
    Memory,
}
