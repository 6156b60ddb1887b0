//! Expansion of repeated blocks.

ghost use Rattle.std.specs.Prelude.{◌≡◌, ◌≤◌, ◌+◌, ◌-◌, [], length, drop, vec_len, OnOk, IfOk, IsOk};
ghost use Rattle.omf_records.specs.Inner.FieldReaders.{le_read, name_read};
ghost use Rattle.omf_frame.specs.Types.{width_bytes};
ghost use Rattle.omf_image.specs.Blocks.{repeated};
ghost use Rattle.omf_image.specs.Inner.Expanding.{expanded_length, expanded};
ghost use Rattle.omf_image.specs.Inner.Lengths.{capped};
ghost use Rattle.omf_image.specs.Inner.Copying.{IsMoved, IsRead, IsPassed, bytes_block, bytes_contents, bytes_all};

use crate::copier::{BlockBytes, Copier};
use crate::limits::Limits;
use omf_frame::{Le16, Le32, Name, Width};
use omf_records::Blocks;
use std::alloc::{AllocError, Global};

impl Copier {
    /// Reads a 16-bit number at `pos`. Returns it and the position after it.
    fn word(&mut self, source: BlockBytes<'_>, pos: usize) -> (u32, usize)
        requires { (pos ≤ length source.bytes.now) × IsOk (le_read 2 pos (drop pos source.bytes.now)) }
        ensures { IsRead source.entry.bytes.now pos (le_read 2 pos (drop pos source.entry.bytes.now)) result.0 result.1 self.old.out.items self.old.moved self.new.out.items self.new.moved }
    {
        match self.read::<Le16>(source, pos) {
            Some((Le16(value), end)) => (u32::from(value), end),
            None => unreachable!(),
        }
    }

    /// Reads a 32-bit number at `pos`. Returns it and the position after it.
    fn dword(&mut self, source: BlockBytes<'_>, pos: usize) -> (u32, usize)
        requires { (pos ≤ length source.bytes.now) × IsOk (le_read 4 pos (drop pos source.bytes.now)) }
        ensures { IsRead source.entry.bytes.now pos (le_read 4 pos (drop pos source.entry.bytes.now)) result.0 result.1 self.old.out.items self.old.moved self.new.out.items self.new.moved }
    {
        match self.read::<Le32>(source, pos) {
            Some((Le32(value), end)) => (value, end),
            None => unreachable!(),
        }
    }

    /// Reads a repeat count at `pos`. Returns it and the position after it.
    fn count(&mut self, source: BlockBytes<'_>, pos: usize) -> (u32, usize)
        requires { (pos ≤ length source.bytes.now) × IsOk (le_read (width_bytes source.width) pos (drop pos source.bytes.now)) }
        ensures { IsRead source.entry.bytes.now pos (le_read (width_bytes source.entry.width) pos (drop pos source.entry.bytes.now)) result.0 result.1 self.old.out.items self.old.moved self.new.out.items self.new.moved }
    {
        match source.width() {
            Width::Bits16 => self.word(source, pos),
            Width::Bits32 => self.dword(source, pos),
        }
    }

    /// Reads the data at `pos`: a length byte, then the bytes. Writes them if wanted. Returns the position after them.
    fn data(
        &mut self,
        source: BlockBytes<'_>,
        pos: usize,
        is_wanted: bool,
    ) -> Result<usize, AllocError>
        requires { (pos ≤ length source.bytes.now) × IsOk (name_read pos (drop pos source.bytes.now)) }
        ensures { IfOk result (IsPassed source.entry.bytes.now pos (name_read pos (drop pos source.entry.bytes.now)) is_wanted self.old.out.items self.old.moved self.new.out.items self.new.moved) }
    {
        match self.read::<Name<'_>>(source, pos) {
            Some((name, end)) => {
                if is_wanted {
                    self.write(name.0)?;
                }
                Ok(end)
            }
            None => unreachable!(),
        }
    }

    /// Repeats the output from `from` on, so that it is there `count` times. Each step copies all that is there so far, or as much
    /// as is still missing.
    fn repeat(&mut self, from: usize, count: u32) -> Result<(), AllocError>
        requires { (from ≤ vec_len self.old.out) × (1 ≤ count) }
        ensures { OnOk result (IsMoved self.old.out.items self.old.moved self.new.out.items self.new.moved 0 (repeated (count - 1) (drop from self.old.out.items))) }
    {
        let len = self.written() - from;
        if len == 0 {
            return Ok(());
        }
        let count = count as usize;
        self.reserve(len.saturating_mul(count - 1))?;
        let mut done: usize = 1;
        while done < count {
            let more = done.min(count - done);
            self.copy(from, from + more * len)?;
            done += more;
        }
        Ok(())
    }

    /// Reads the contents of a block at `start`: data if `blocks` is 0, else that many blocks. Writes their bytes if wanted. Returns
    /// the position after them.
    #[cycle(copies)]
    fn contents(
        &mut self,
        source: BlockBytes<'_>,
        levels: u32,
        blocks: u32,
        start: usize,
        is_wanted: bool,
    ) -> Result<usize, AllocError>
        requires { (start ≤ length source.bytes.now) × IsOk (bytes_contents (bytes_block (width_bytes source.width) levels) blocks start (drop start source.bytes.now)) }
        ensures { IfOk result (IsPassed source.entry.bytes.now start (bytes_contents (bytes_block (width_bytes source.entry.width) levels) blocks start (drop start source.entry.bytes.now)) is_wanted self.old.out.items self.old.moved self.new.out.items self.new.moved) }
    {
        if blocks == 0 {
            return self.data(source, start, is_wanted);
        }
        let mut end = start;
        for _ in 0..blocks {
            end = self.block(source, levels, end, is_wanted)?;
        }
        Ok(end)
    }

    /// Reads the block at `pos`, and writes its bytes if wanted. Returns the position after it. The contents of a block that is
    /// repeated 0 times are not wanted.
    #[cycle(copies)]
    fn block(
        &mut self,
        source: BlockBytes<'_>,
        levels: u32,
        pos: usize,
        is_wanted: bool,
    ) -> Result<usize, AllocError>
        requires { (pos ≤ length source.bytes.now) × IsOk (bytes_block (width_bytes source.width) levels pos (drop pos source.bytes.now)) }
        ensures { IfOk result (IsPassed source.entry.bytes.now pos (bytes_block (width_bytes source.entry.width) levels pos (drop pos source.entry.bytes.now)) is_wanted self.old.out.items self.old.moved self.new.out.items self.new.moved) }
    {
        let (count, after_count) = self.count(source, pos);
        let (blocks, start) = self.word(source, after_count);
        if !is_wanted || count == 0 {
            return self.contents(source, levels - 1, blocks, start, false);
        }
        let from = self.written();
        let end = self.contents(source, levels - 1, blocks, start, true)?;
        self.repeat(from, count)?;
        Ok(end)
    }
}

/// Expands the blocks of an LIDATA record (TIS OMF 1.1, "LIDATA"). Returns the bytes, and the number of bytes read and written
/// together, saturating at 2^64 - 1. Each block's contents are read once, written once, and then copied for the other repeats;
/// those of a block that is repeated 0 times are read but not written.
///
/// # Errors
///
/// `AllocError` if out of memory.
pub fn expand(
    alloc: Global,
    blocks: Blocks<'_>,
    limits: Limits,
) -> Result<(Vec<u8>, u64), AllocError>
    requires sized { (limits.nesting ≤ 64) × (length blocks.bytes.now ≤ 65534) }
    requires fits { IsOk (expanded_length (width_bytes blocks.width) limits blocks.bytes.now) }
    ensures bytes { IfOk result (λ r. r.0.items ≡ expanded (width_bytes blocks.entry.width) limits blocks.entry.bytes.now) }
    ensures least { IfOk result (λ r. vec_len r.0 ≤ r.1) }
    ensures most { IfOk result (λ r. r.1 ≤ length blocks.entry.bytes.now + vec_len r.0) }
    ensures all { IfOk result (λ r. capped (length blocks.entry.bytes.now + vec_len r.0) ≤ r.1) }
{
    let source = BlockBytes::new(blocks);
    let mut copier = Copier::new(alloc);
    let mut pos = 0;
    while pos < source.len() {
        pos = copier.block(source, limits.nesting, pos, true)?;
    }
    Ok(copier.finish())
}
