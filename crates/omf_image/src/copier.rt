//! Counted reading and writing for the expansion of blocks. Only this module reads the blocks' bytes and writes the output, so
//! every byte is counted.

ghost use Rattle.std.specs.Prelude.{◌≡◌, ◌≤◌, ◌<◌, ◌+◌, ◌-◌, ◌^◌, [], drop, length, vec_len, slice_range, IfNone, IfSome, OnOk};
ghost use Rattle.omf_frame.specs.Bytes.{AreBytes};
ghost use Rattle.omf_frame.specs.Fields.{IsSpelledAt, IsUnspelled};
ghost use Rattle.omf_image.specs.Inner.Copying.{IsMoved};

use omf_frame::{Field, Width};
use omf_records::Blocks;
use std::alloc::{AllocError, Global};

/// The bytes of blocks, readable only through a `Copier`.
#[derive(Clone, Copy)]
pub struct BlockBytes<'b> {
    bytes: &'b [u8],
    /// The width of repeat counts.
    width: Width,
    ghost are_bytes: { AreBytes bytes.now },
}

impl<'b> BlockBytes<'b> {
    /// The bytes of `blocks`.
    pub fn new(blocks: Blocks<'b>) -> BlockBytes<'b>
        ensures bytes { result.bytes.now ≡ blocks.entry.bytes.now }
        ensures width { result.width ≡ blocks.entry.width }
    {
        BlockBytes::of(blocks.bytes, blocks.width)
    }

    /// `bytes` as the bytes of blocks. A function of its own: each byte is known to be below 256 only in a slice parameter.
    fn of(bytes: &'b [u8], width: Width) -> BlockBytes<'b>
        ensures bytes { result.bytes.now ≡ bytes.now }
        ensures width { result.width ≡ width }
    {
        BlockBytes { bytes, width }
    }

    /// The width of repeat counts.
    pub fn width(self) -> Width
        ensures { result ≡ self.entry.width }
    {
        self.width
    }

    /// The number of bytes.
    pub fn len(self) -> usize
        ensures { result ≡ length self.entry.bytes.now }
    {
        self.bytes.len()
    }
}

/// Reads fields, writes bytes, and counts the bytes read and written. The count saturates at 2^64 - 1.
#[derive(Drop)]
pub struct Copier {
    out: Vec<u8>,
    moved: u64,
}

impl Copier {
    /// A copier with no output and a count of 0.
    pub fn new(alloc: Global) -> Copier
        ensures out { result.out.items ≡ [] }
        ensures moved { result.moved ≡ 0 }
    {
        Copier {
            out: Vec::new(alloc),
            moved: 0,
        }
    }

    /// Reads the field at `pos`. Returns it and the position after it, or None if no valid field starts there.
    pub fn read<'b, F: Field<'b>>(
        &mut self,
        source: BlockBytes<'b>,
        pos: usize,
    ) -> Option<(F, usize)>
        requires { pos ≤ length source.bytes.now }
        ensures found { IfSome result (λ p. IsSpelledAt F.spells source.entry.bytes.now pos p.0 p.1) }
        ensures none { IfNone result (IsUnspelled F.spells (drop pos source.entry.bytes.now)) }
        ensures moves { IfSome result (λ p. IsMoved self.old.out.items self.old.moved self.new.out.items self.new.moved (p.1 - pos) []) }
    {
        let (field, end) = F::read_at(source.bytes, pos)?;
        self.moved = self.moved.saturating_add((end - pos) as u64);
        Some((field, end))
    }

    /// Appends `bytes` to the output.
    pub fn write(&mut self, bytes: &[u8]) -> Result<(), AllocError>
        ensures { OnOk result (IsMoved self.old.out.items self.old.moved self.new.out.items self.new.moved 0 bytes.now) }
    {
        self.out.extend_from_slice(bytes)?;
        self.moved = self.moved.saturating_add(bytes.len() as u64);
        Ok(())
    }

    /// Appends a copy of the output's bytes from `from` up to `to`.
    pub fn copy(&mut self, from: usize, to: usize) -> Result<(), AllocError>
        requires { (from ≤ to) × (to ≤ vec_len self.old.out) }
        ensures { OnOk result (IsMoved self.old.out.items self.old.moved self.new.out.items self.new.moved 0 (slice_range self.old.out.items from to)) }
    {
        self.out.extend_from_within(from..to)?;
        self.moved = self.moved.saturating_add((to - from) as u64);
        Ok(())
    }

    /// Reserves room for `more` further bytes.
    pub fn reserve(&mut self, more: usize) -> Result<(), AllocError>
        ensures same { OnOk result (IsMoved self.old.out.items self.old.moved self.new.out.items self.new.moved 0 []) }
        ensures room { OnOk result (vec_len self.old.out + more < 2 ^ 63) }
    {
        self.out.reserve(more)?;
        Ok(())
    }

    /// The number of bytes written.
    pub fn written(&self) -> usize
        ensures { result ≡ vec_len self.now.out }
    {
        self.out.len()
    }

    /// The output, and the number of bytes read and written.
    pub fn finish(self) -> (Vec<u8>, u64)
        ensures out { result.0 ≡ self.out }
        ensures moved { result.1 ≡ self.moved }
    {
        (self.out, self.moved)
    }
}
