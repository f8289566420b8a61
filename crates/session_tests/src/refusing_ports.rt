//! Ports for tests, which refuse every call.
ghost use Rattle.std.specs.Prelude.{◌+◌, ◌≤◌};

use flat_image::{ImagePort, PortFault};

/// A port of an image of four sectors, whose top has as many rows as it may have.
#[derive(Drop)]
pub struct FullPort;

impl ImagePort for FullPort {
    ghost use Rattle.std.specs.Prelude.{true, false, [], None};

    ghost state = { λ _. record {
      home = [];
      tells = false;
      first = 0;
      number = 0;
      seen = [];
      faults = 0;
      base = record {
        sectors = 4;
        lowers = [];
        done = [];
        frozen = None;
        top = [];
        rows = 4194304;
        filled = 0;
        faults = 0;
      };
    } };

    ghost flush_takes_memory = { true };

    fn sectors(&self) -> u64 {
        4
    }

    fn read(&mut self, _at: u64, _out: &mut [u8]) -> Result<(), PortFault> {
        Err(PortFault::Memory)
    }

    fn write(&mut self, _at: u64, bytes: &[u8]) -> Result<(), PortFault> {
        if bytes.is_empty() {
            return Err(PortFault::Memory);
        }
        Err(PortFault::Full {
            rows: 4_194_304,
            sectors: 0,
        })
    }

    fn zero(&mut self, _at: u64, count: u64) -> Result<(), PortFault> {
        if count == 0 {
            return Err(PortFault::Memory);
        }
        Err(PortFault::Full {
            rows: 4_194_304,
            sectors: 0,
        })
    }

    fn flush(&mut self) -> Result<(), PortFault> {
        Err(PortFault::Memory)
    }
}

/// A port of an image of four sectors, whose history has as many entries as it may have.
#[derive(Drop)]
pub struct WornPort;

impl ImagePort for WornPort {
    ghost use Rattle.std.specs.Prelude.{false, [], None, ◌^◌};

    ghost state = { λ _. record {
      home = [];
      tells = false;
      first = 2 ^ 62;
      number = 0;
      seen = [];
      faults = 0;
      base = record { sectors = 4; lowers = []; done = []; frozen = None; top = []; rows = 0; filled = 0; faults = 0 };
    } };

    ghost flush_takes_memory = { false };

    fn sectors(&self) -> u64 {
        4
    }

    fn read(&mut self, _at: u64, _out: &mut [u8]) -> Result<(), PortFault> {
        Err(PortFault::Worn)
    }

    fn write(&mut self, _at: u64, _bytes: &[u8]) -> Result<(), PortFault> {
        Err(PortFault::Worn)
    }

    fn zero(&mut self, _at: u64, _count: u64) -> Result<(), PortFault> {
        Err(PortFault::Worn)
    }

    fn flush(&mut self) -> Result<(), PortFault> {
        Err(PortFault::Worn)
    }
}
