//! What a server that has a file answers to a request for a range of it, and that a reply has one answer.
ghost use Rattle.std.specs.Prelude.{◌≡◌, ℕ, ◌^◌, ◌<◌, ◌≤◌, ◌++◌, Bool, List, length};
ghost use Rattle.http_range.specs.declared.reason.ReplyReason.{ReplyReason};
ghost use Rattle.http_range.specs.RangeReplies.{range_in, range_reply};
ghost use Rattle.http_range.specs.Replies.{GoodReply, Refuses};

/// Its reply is a good one, with the bytes of the range, and whatever follows it there is no other
/// one: what is received of it is a good reply just where it is whole.
pub fn range_reply_law()
    ensures good { (bytes : List ℕ) (first last : ℕ) → first ≤ last → last < length bytes → length bytes < 2 ^ 63
        → GoodReply (range_reply bytes first last) first last (length bytes) (range_in bytes first last) }
    ensures only { (bytes got rest more : List ℕ) (first last total : ℕ) (body : List ℕ)
        → first ≤ last → last < length bytes → length bytes < 2 ^ 63 → GoodReply got first last total body
        → got ++ rest ≡ range_reply bytes first last ++ more
        → (total ≡ length bytes) × (body ≡ range_in bytes first last) }
{}

/// What was received decides the answer of a fetch: where a good reply stands at the front of it there is
/// no other one and no reason against it, and else there is one status and one reason.
pub fn reply_law()
    ensures one { (got left right more other : List ℕ) (first last total number : ℕ) (body part : List ℕ)
        → GoodReply left first last total body → GoodReply right first last number part
        → got ≡ left ++ more → got ≡ right ++ other → (total ≡ number) × (body ≡ part) }
    ensures apart { (got reply more : List ℕ) (ended : Bool) (first last total status : ℕ) (body : List ℕ)
        (reason : ReplyReason) → GoodReply reply first last total body → got ≡ reply ++ more
        → ¬ (Refuses got ended first last status reason) }
    ensures reason { (got : List ℕ) (one other : Bool) (first last status number : ℕ) (reason cause : ReplyReason)
        → Refuses got one first last status reason → Refuses got other first last number cause
        → (status ≡ number) × (reason ≡ cause) }
{}
