/// Why a reply is refused. The first reason in this order is told.
#[derive(Clone, Copy, Debug, PartialEq, Eq)]
pub enum ReplyReason {
    /// No head of at most 16,384 bytes and 64 fields was received.
    BadHead,
    /// The status is not 206.
    NotPartial,
    /// There is a field Transfer-Encoding.
    Chunked,
    /// There is not just one Content-Range of the form `bytes x-y/z`.
    NoRange,
    /// It is not the range that was asked for.
    OtherRange,
    /// There is not just one Content-Length that is a number.
    NoLength,
    /// It is not the length that was asked for.
    OtherLength,
    /// The input ended before the body did.
    ShortBody,
}

/// Why a fetch fails.
#[derive(Clone, Copy, Debug, PartialEq, Eq)]
pub enum FetchFault {
    /// The link failed.
    Failed,
    /// The reply has that status, or 0 where it has no head, and is refused for that reason.
    BadReply { status: u16, reason: ReplyReason },
}
