//! What a request names: a host and a path.
ghost use Rattle.std.specs.Prelude.{◌≡◌, ◌≢◌, ◌<◌, ◌↔◌, slice_index, All, IsTrue, IsNone, IfSome, MatchOption};
ghost use Rattle.http_range.specs.Requests.{IsVisible, IsPathByte, IsTarget};

use sector_extent::Bytes;
use std::marker::Model;

/// The name of a host, with its port where that is not 80.
pub type HostText = Bytes;

/// A path on a host.
pub type PathText = Bytes;

/// A file of a server, by its host and its path.
#[derive(Debug, Drop)]
pub struct Target {
    host: HostText,
    path: PathText,
}

impl Model for Target {
    ghost use Rattle.http_range.specs.Requests.{TargetTexts, IsTarget};

    ghost Value = { TargetTexts };

    ghost view = { λ t. record { host = t.host; path = t.path } };

    ghost invariant = { λ t. IsTarget (record { host = t.host; path = t.path }) };
}

impl Target {
    /// There is no target where the host has a character that is not visible ASCII, or the path has
    /// one or one of `"`, `<` and `>`, or does not begin with a slash.
    pub fn new(host: HostText, path: PathText) -> Option<Target>
        ensures { MatchOption result (¬ (IsTarget (record { host = host; path = path })))
            (λ t. (t ≡ record { host = host; path = path }) × IsTarget t) }
    {
        if is_host(host.as_slice()) && is_path(path.as_slice()) {
            Some(Target { host, path })
        } else {
            None
        }
    }

    pub fn host(&self) -> &[u8]
        ensures value { result.now ≡ self.now.host }
        ensures sound { IsTarget self.now }
    {
        self.host.as_slice()
    }

    pub fn path(&self) -> &[u8]
        ensures value { result.now ≡ self.now.path }
        ensures sound { IsTarget self.now }
    {
        self.path.as_slice()
    }
}

fn is_host(host: &[u8]) -> bool
    ensures { IsTrue result ↔ All IsVisible host.now }
{
    host.iter().all(|byte| is_visible(*byte))
}

fn is_path(path: &[u8]) -> bool
    ensures { IsTrue result ↔ ((slice_index path.now 0 ≡ 47) × All IsPathByte path.now) }
{
    path.first() == Some(&b'/') && are_path_bytes(path)
}

fn are_path_bytes(path: &[u8]) -> bool
    ensures { IsTrue result ↔ All IsPathByte path.now }
{
    path.iter().all(|byte| is_path_byte(*byte))
}

fn is_path_byte(byte: u8) -> bool
    ensures { IsTrue result ↔ IsPathByte byte }
{
    is_visible(byte) && byte != b'"' && byte != b'<' && byte != b'>'
}

fn is_visible(byte: u8) -> bool
    ensures { IsTrue result ↔ IsVisible byte }
{
    b' ' < byte && byte < 127
}
