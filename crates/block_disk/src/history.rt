//! The files of a disk in memory, with a record of the calls that made them.
ghost use Rattle.std.specs.Prelude.{◌≡◌, ℕ, ◌+◌, ◌^◌, ◌≤◌, ◌<◌, [], ◌∷◌, length, reverse, OnOk, OnErr, IfOk};
ghost use Rattle.block_disk.specs.FileMap.{bytes_in};
ghost use Rattle.block_disk.specs.History.{seen_after};

use crate::files::{FileMap, bytes_of, copy_of, cut_in, write_in};
use sector_extent::{Bytes, Memory};
use std::alloc::Global;

/// A call that changed or synced a file.
#[derive(Drop)]
pub enum DiskCall {
    Wrote { file: u32, at: u64, bytes: Bytes },
    CutOff { file: u32, size: u64 },
    Synced { file: u32 },
}

#[derive(Drop)]
pub(crate) struct History {
    pub(crate) start: FileMap,
    pub(crate) contents: FileMap,
    pub(crate) calls: Vec<DiskCall>,
    pub(crate) ghost agrees: { (f : ℕ) → bytes_in contents f ≡ seen_after (bytes_in start) (reverse calls.items) f },
}

impl History {
    ghost use Rattle.block_disk.specs.HistoryState.{past_of, start_of, state_of};
    ghost use Rattle.block_disk.specs.declared.history.DiskCall.TheVariants.{Wrote, CutOff, Synced};

    // These files, all of them on the disk.
    pub(crate) fn over(alloc: Global, start: FileMap) -> Result<History, Memory>
        ensures start { IfOk result (λ history. history.start ≡ start) }
        ensures past { IfOk result (λ history. past_of history ≡ []) }
    {
        let contents = copy_of(&start)?;
        Ok(History {
            start,
            contents,
            calls: Vec::new(alloc),
        })
    }

    // The bytes of a file, as a read gives them.
    pub(crate) fn bytes(&self, file: u32) -> &[u8]
        ensures { result.now ≡ seen_after (start_of self.now) (past_of self.now) file }
    {
        bytes_of(&self.contents, file)
    }

    pub(crate) fn write(
        &mut self,
        alloc: Global,
        file: u32,
        at: u64,
        bytes: &[u8],
    ) -> Result<(), Memory>
        ensures start { self.new.start ≡ self.old.start }
        ensures ok { OnOk result (past_of self.new ≡ Wrote file at bytes.now ∷ past_of self.old) }
        ensures err { OnErr result (past_of self.new ≡ past_of self.old) }
    {
        self.calls.reserve(1)?;
        let copy = Bytes::from_vec(Vec::from_slice(alloc, bytes)?);
        write_in(alloc, &mut self.contents, file, at as usize, bytes)?;
        self.calls
            .push(DiskCall::Wrote {
                file,
                at,
                bytes: copy,
            })
            .unwrap();
        Ok(())
    }

    pub(crate) fn cut(&mut self, file: u32, size: u64) -> Result<(), Memory>
        ensures start { self.new.start ≡ self.old.start }
        ensures ok { OnOk result (past_of self.new ≡ CutOff file size ∷ past_of self.old) }
        ensures err { OnErr result (past_of self.new ≡ past_of self.old) }
    {
        self.calls.push(DiskCall::CutOff { file, size })?;
        cut_in(&mut self.contents, file, size as usize);
        Ok(())
    }

    pub(crate) fn sync(&mut self, file: u32) -> Result<(), Memory>
        ensures start { self.new.start ≡ self.old.start }
        ensures ok { OnOk result (past_of self.new ≡ Synced file ∷ past_of self.old) }
        ensures err { OnErr result (past_of self.new ≡ past_of self.old) }
    {
        self.calls.push(DiskCall::Synced { file })?;
        Ok(())
    }
}
