//! Programs as they are loaded.

ghost use Rattle.std.specs.Prelude.{◌≡◌};
ghost use Rattle.omf_finding.specs.Found.{program_byte};
ghost use Rattle.omf_finding.specs.Inner.Fixing.{little_number, number_at};
ghost use Rattle.omf_finding.specs.Inner.Shaping.{bytes_from};

use std::alloc::AllocError;

/// A program as it is loaded: real mode, where a frame's base is 16 times its selector.
///
/// The image of an MZ file is loaded at address 0, so its selectors are those of the file. A .COM file is loaded at 100H.
#[derive(Drop)]
pub struct Program {
    /// Its bytes, from `base` on.
    pub bytes: Vec<u8>,
    /// The address of the first byte.
    pub base: u32,
    /// The addresses of the words that the loader changes, in ascending order: the relocation table of an MZ file; of a .COM file none.
    /// `None` if nothing shows which words they are, as for a raw image.
    pub relocated: Option<Vec<u32>>,
    /// CS and IP at the start, if they are known.
    pub start: Option<(u16, u16)>,
    /// Other selectors that the program uses: SS of an MZ file; of a raw image those that the user names. Those of relocated words and CS
    /// need not be here.
    pub selectors: Vec<u16>,
}

impl Program {
    /// The bytes from an address on; none if it is outside.
    pub(crate) fn bytes_from(&self, address: u64) -> &[u8]
        ensures { result.now ≡ bytes_from self.now.bytes.items self.now.base address }
    {
        let base = u64::from(self.base);
        if address < base {
            return &[];
        }
        let start = usize::try_from(address - base).unwrap_or(usize::MAX);
        let bytes = self.bytes.as_slice();
        &bytes[start.min(bytes.len())..]
    }

    /// The bytes from an address on; none if it is outside.
    pub(crate) fn bytes_at(&self, address: u32) -> &[u8]
        ensures { result.now ≡ bytes_from self.now.bytes.items self.now.base address }
    {
        self.bytes_from(u64::from(address))
    }

    /// The byte at an address; `None` if it is outside.
    pub(crate) fn byte(&self, address: u64) -> Option<u8>
        ensures { result ≡ program_byte self.now.bytes.items self.now.base address }
    {
        self.bytes_from(address).first().copied()
    }

    /// The little-endian number of 16 bits at an address.
    pub(crate) fn word(&self, address: u32) -> Option<u16>
        ensures { result ≡ number_at self.now 2 address }
    {
        match self.bytes_at(address) {
            [low, high, ..] => Some(u16::from_le_bytes([*low, *high])),
            _ => None,
        }
    }

    /// The little-endian number of 8, 16 or 32 bits at an address, of this many bytes.
    pub(crate) fn number(&self, address: u32, size: u8) -> Option<u32>
        ensures { result ≡ number_at self.now size address }
    {
        little_number(self.bytes_at(address), size)
    }

    /// Whether the loader changes the word at an address, as far as that is known.
    pub(crate) fn may_change(&self, address: u32) -> bool {
        match &self.relocated {
            Some(relocated) => relocated.binary_search(&address).is_ok(),
            None => true,
        }
    }

    /// The selectors that it uses, in ascending order: of the words that the loader changes, of CS, and the others.
    pub(crate) fn frames(&self) -> Result<Vec<u16>, AllocError> {
        let mut frames = self.selectors.clone()?;
        if let Some((selector, _offset)) = self.start {
            frames.push(selector)?;
        }
        if let Some(relocated) = &self.relocated {
            for address in relocated {
                if let Some(selector) = self.word(*address) {
                    frames.push(selector)?;
                }
            }
        }
        if frames.is_empty() {
            frames.push(u16::try_from(self.base / 16).unwrap_or(0))?;
        }
        frames.sort_unstable();
        frames.dedup();
        Ok(frames)
    }
}

/// The little-endian number of 1, 2 or 4 bytes at the front; of any other size, 4.
pub(crate) fn little_number(bytes: &[u8], size: u8) -> Option<u32>
    ensures { result ≡ little_number size bytes.now }
{
    match (size, bytes) {
        (1, [a, ..]) => Some(u32::from(*a)),
        (2, [a, b, ..]) => Some(u32::from(u16::from_le_bytes([*a, *b]))),
        (4, [a, b, c, d, ..]) => Some(u32::from_le_bytes([*a, *b, *c, *d])),
        _ => None,
    }
}
