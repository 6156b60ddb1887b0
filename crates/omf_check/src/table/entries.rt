//! Lookups in the state kept.

ghost use Rattle.std.specs.Prelude.{◌≡◌, ◌≤◌, length};
ghost use Rattle.omf_check.specs.Tables.{entry};

use crate::segment::SegInfo;
use crate::table::Tables;

/// The entry of a table with index `i`, from 1; `None` outside the table.
pub fn entry_of<T: Copy>(entries: &[T], i: usize) -> Option<T>
    ensures { result ≡ entry entries.now i }
{
    entries.get(i.checked_sub(1)?).copied()
}

impl Tables {
    /// The number of names.
    pub fn name_count(&self) -> u16
        requires { length self.now.names ≤ 32767 }
        ensures { result ≡ length self.now.names }
    {
        self.names.len() as u16
    }

    /// The number of segments.
    pub fn segment_count(&self) -> u16
        requires { length self.now.segments ≤ 32767 }
        ensures { result ≡ length self.now.segments }
    {
        self.segments.len() as u16
    }

    /// The number of groups.
    pub fn group_count(&self) -> u16
        requires { length self.now.groups ≤ 32767 }
        ensures { result ≡ length self.now.groups }
    {
        self.groups.len() as u16
    }

    /// The number of external names.
    pub fn external_count(&self) -> u16
        requires { length self.now.externals ≤ 32767 }
        ensures { result ≡ length self.now.externals }
    {
        self.externals.len() as u16
    }

    /// The segment with index `i`, from 1.
    pub fn segment(&self, i: u16) -> Option<SegInfo>
        ensures { result ≡ entry self.now.segments i }
    {
        entry_of(&self.segments, usize::from(i))
    }

    /// The attribute byte of the segment with index `i`, from 1.
    pub fn attribute(&self, i: u16) -> Option<u8>
        ensures { result ≡ entry self.now.attributes i }
    {
        entry_of(&self.attributes, usize::from(i))
    }

    /// The offset in the module of the MODEND; 0 before it.
    pub fn end_place(&self) -> u64
        ensures { result ≡ self.now.end }
    {
        self.end
    }

    /// The offset in the module of the name with index `i`, from 1.
    pub fn name_place(&self, i: u16) -> Option<u64>
        ensures { result ≡ entry self.now.names i }
    {
        entry_of(&self.names, usize::from(i))
    }

    /// The offset in the module of the external name with index `i`, from 1.
    pub fn external_place(&self, i: u16) -> Option<u64>
        ensures { result ≡ entry self.now.externals i }
    {
        entry_of(&self.externals, usize::from(i))
    }

    /// Whether the external with index `i`, from 1, is local.
    pub fn is_local(&self, i: u16) -> Option<bool>
        ensures { result ≡ entry self.now.locals i }
    {
        entry_of(&self.locals, usize::from(i))
    }

    /// The offset in the module of the GRPDEF with index `i`, from 1.
    pub fn group_place(&self, i: u16) -> Option<u64>
        ensures { result ≡ entry self.now.groups i }
    {
        entry_of(&self.groups, usize::from(i))
    }
}
