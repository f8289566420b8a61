//! Fetches ranges over a link, one after the other.
ghost use Rattle.std.specs.Prelude.{◌≡◌, ℕ, ◌+◌, ◌-◌, ◌^◌, ◌<◌, ◌≤◌, ◌⊎◌, ◌&&◌, [], List, Some, Bool, true, false, is_ok, is_err, length, take, IfOk, IfErr, MatchResult, Ok, Err};
ghost use Rattle.std.specs.Result.{IsErrOf};
ghost use Rattle.http_range.specs.declared.reason.FetchFault.TheVariants.{Failed};
ghost use Rattle.http_range.specs.Fetching.{FetcherState, IsFresh, AsksWell, Stops, AsksOn, AsksAfter, FailsDialing, DialsWell, Fetches};
ghost use Rattle.http_range.specs.Links.{Blob};
ghost use Rattle.http_range.specs.Requests.{request_text};
ghost use Rattle.http_range.specs.Serving.{IsFileOf, IsRangeOf, IsServed, IsServedAt, Serves};

use crate::asking::ask;
use crate::heads::HEAD;
use crate::links::Link;
use crate::reason::FetchFault;
use crate::receiving::Stop;
use crate::target::Target;
use sector_extent::Memory;
use std::alloc::Global;
use std::marker::Model;

/// Asks for ranges over a link. It takes its memory when it is made, and none later.
#[derive(Drop)]
pub struct Fetcher<L: Link> {
    link: L,
    buffer: Vec<u8>,
    held: usize,
    used: bool,
    refused: bool,
}

impl<L: Link> Model for Fetcher<L> {
    ghost use Rattle.std.specs.Prelude.{◌≡◌, ◌≤◌, length, take};
    ghost use Rattle.http_range.specs.Fetching.{FetcherState};

    ghost Value = { FetcherState };

    ghost view = { λ f. record {
      link = L.state f.link;
      held = take f.held f.buffer.items;
      used = f.used;
      refused = f.refused;
    } };

    ghost invariant = { λ f. (length f.buffer.items ≡ 16384) × (f.held ≤ 16384) };
}

impl<L: Link> Fetcher<L> {
    /// Takes the memory. Where the link tells its dials, nothing was sent on the present one, and no
    /// fault has come since it began.
    pub fn new(alloc: Global, link: L) -> Result<Fetcher<L>, (L, Memory)>
        requires { IsFresh (L.state link) }
        ensures made { MatchResult result
            (λ f. f ≡ record { link = L.state link; held = []; used = false; refused = false })
            (λ e. e.0 ≡ link) }
        // where the link tells its files, nothing was received that was not asked for
        ensures serves { IfOk result (λ f. Serves f.link) }
        ensures served { (blobs : List Blob) → (L.state link).blobs ≡ Some blobs → IsServedAt blobs (L.state link) [] }
    {
        match vec![in alloc; 0; HEAD] {
            Ok(buffer) => Ok(Fetcher {
                link,
                buffer,
                held: 0,
                used: false,
                refused: false,
            }),
            Err(_) => Err((link, Memory)),
        }
    }

    // What the link's own law says.
    fn law(&self)
        ensures { Serves self.now.link }
    {
        let _ = &self.link;
    }

    // Begins a new dial, and drops what was held.
    fn dial(&mut self) -> Result<(), FetchFault>
        ensures well { IfOk result (λ _. DialsWell self.old.link self.new.link
            × (self.new.held ≡ []) × (self.new.used ≡ false) × (self.new.refused ≡ false)) }
        ensures fails { IfErr result (λ fault. (fault ≡ Failed) × FailsDialing self.old.link self.new.link
            × (self.new.used ≡ false) × (self.new.refused ≡ true)) }
    {
        self.held = 0;
        self.used = false;
        match self.link.redial() {
            Ok(()) => {
                self.refused = false;
                Ok(())
            }
            Err(_) => {
                self.refused = true;
                Err(FetchFault::Failed)
            }
        }
    }

    fn ask_once(&mut self, target: &Target, first: u64, out: &mut [u8]) -> Result<u64, Stop>
        requires some { 0 < length out.old }
        requires small { first + length out.old ≤ 2 ^ 63 }
        ensures well { let last = first + (length out.old - 1) in IfOk result (λ total.
            AsksWell (request_text target.now first last) self.old.held first last
            self.old.link self.new.link out.new self.new.held total) }
        ensures stops { let last = first + (length out.old - 1) in IfErr result (λ stop.
            Stops (request_text target.now first last) self.old.held first last
            self.old.link self.new.link stop.early stop.fault) }
        ensures after { (self.new.used ≡ is_ok result) × (self.new.refused ≡ is_err result) }
    {
        match ask(
            &mut self.link,
            self.buffer.as_mut_slice(),
            self.held,
            target,
            first,
            out,
        ) {
            Ok(answer) => {
                self.held = answer.held;
                self.used = true;
                self.refused = false;
                Ok(answer.total)
            }
            Err(stop) => {
                self.held = 0;
                self.used = false;
                self.refused = true;
                Err(stop)
            }
        }
    }

    // Asks after a redial.
    fn ask_again(&mut self, target: &Target, first: u64, out: &mut [u8]) -> Result<u64, FetchFault>
        requires some { 0 < length out.old }
        requires small { first + length out.old ≤ 2 ^ 63 }
        ensures asks { let last = first + (length out.old - 1) in
            AsksAfter (request_text target.now first last) first last
            self.old.link self.new.link out.new self.new.held result }
        ensures after { (self.new.used ≡ is_ok result) × (self.new.refused ≡ is_err result) }
    {
        match self.dial() {
            Ok(()) => match self.ask_once(target, first, out) {
                Ok(total) => Ok(total),
                Err(stop) => Err(stop.fault),
            },
            Err(fault) => Err(fault),
        }
    }

    // Asks, and asks again where a dial that gave a reply before gives no byte of this one.
    fn ask_on(&mut self, target: &Target, first: u64, out: &mut [u8]) -> Result<u64, FetchFault>
        requires some { 0 < length out.old }
        requires small { first + length out.old ≤ 2 ^ 63 }
        ensures asks { let last = first + (length out.old - 1) in
            AsksOn (request_text target.now first last) self.old.held first last
            self.old.used self.old.link self.new.link out.new self.new.held result }
        ensures after { (self.new.used ≡ is_ok result) × (self.new.refused ≡ is_err result) }
    {
        let used = self.used;
        match self.ask_once(target, first, out) {
            Ok(total) => Ok(total),
            Err(stop) => {
                if is_idle(used, stop.early) {
                    return self.ask_again(target, first, out);
                }
                Err(stop.fault)
            }
        }
    }

    // Asks on a new dial.
    fn ask_anew(&mut self, target: &Target, first: u64, out: &mut [u8]) -> Result<u64, FetchFault>
        requires some { 0 < length out.old }
        requires small { first + length out.old ≤ 2 ^ 63 }
        requires refused { self.old.refused ≡ true }
        ensures fetches { let last = first + (length out.old - 1) in
            Fetches (request_text target.now first last) first last self.old self.new out.new result }
        ensures after { (self.new.used ≡ is_ok result) × (self.new.refused ≡ is_err result) }
    {
        match self.dial() {
            Ok(()) => self.ask_on(target, first, out),
            Err(fault) => Err(fault),
        }
    }

    fn fetch_range(
        &mut self,
        target: &Target,
        first: u64,
        out: &mut [u8],
    ) -> Result<u64, FetchFault>
        requires some { 0 < length out.old }
        requires small { first + length out.old ≤ 2 ^ 63 }
        ensures fetches { let last = first + (length out.old - 1) in
            Fetches (request_text target.now first last) first last self.old self.new out.new result }
        ensures after { (self.new.used ≡ is_ok result) × (self.new.refused ≡ is_err result) }
    {
        if self.refused {
            return self.ask_anew(target, first, out);
        }
        self.ask_on(target, first, out)
    }

    /// Fills `out` with the bytes of the target from `first` on, and answers the total that they are
    /// of. After a refusal the next fetch redials first. What stands in `out` after a refusal is open.
    pub fn fetch(&mut self, target: &Target, first: u64, out: &mut [u8]) -> Result<u64, FetchFault>
        requires some { 0 < length out.old }
        requires small { first + length out.old ≤ 2 ^ 63 }
        ensures fetches { let last = first + (length out.old - 1) in
            Fetches (request_text target.now first last) first last self.old self.new out.new result }
        ensures after { (self.new.used ≡ is_ok result) × (self.new.refused ≡ is_err result) }
        ensures failed { IsErrOf result Failed → self.old.link.faults < self.new.link.faults }
        ensures later { self.old.link.faults ≤ self.new.link.faults }
        ensures calm { self.old.used ≡ false → ¬ (IsErrOf result Failed)
            → self.new.link.faults ≡ self.old.link.faults }
        ensures blobs { self.new.link.blobs ≡ self.old.link.blobs }
        ensures serves { Serves self.new.link }
        // where the link tells its files and all was answered before, this is answered from the target's file
        ensures served { let last = first + (length out.old - 1) in (blobs : List Blob) (bytes : List ℕ)
            → self.old.link.blobs ≡ Some blobs → IsFileOf blobs target.now bytes → IsServed blobs self.old
            → IfOk result (IsRangeOf bytes first last out.new) × IsServed blobs self.new }
    {
        self.law();
        let _ = target.path();
        let answer = self.fetch_range(target, first, out);
        self.law();
        answer
    }
}

// Whether a dial gave a reply before, and no byte of this one.
fn is_idle(used: bool, early: bool) -> bool
    ensures { result ≡ (used && early) }
{
    used && early
}
