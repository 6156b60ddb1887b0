//! Names that are near to one another: a person forgets what a compiler puts around a name.

ghost use Rattle.std.specs.Prelude.{◌≡◌, IfOk, bytes_eq};
ghost use Rattle.omf_lib.specs.Near.{bare, is_around};

use std::alloc::{AllocError, Global};

/// Whether a byte is one that compilers put around names: an underscore or an at sign.
fn is_around(byte: u8) -> bool
    ensures { result ≡ is_around byte }
{
    byte == b'_' || byte == b'@'
}

/// What counts of a name: its letters, in lower case.
pub fn bare(alloc: Global, name: &[u8]) -> Result<Vec<u8>, AllocError>
    ensures { IfOk result (λ v. v.items ≡ bare name.now) }
{
    let mut bare = Vec::new(alloc);
    for byte in name {
        if !is_around(*byte) {
            bare.push(byte.to_ascii_lowercase())?;
        }
    }
    Ok(bare)
}

/// Whether a name is near to one of which this counts.
pub fn is_near(alloc: Global, counted: &[u8], name: &[u8]) -> Result<bool, AllocError>
    ensures { IfOk result (λ near. near ≡ bytes_eq counted.now (bare name.now)) }
{
    let other = bare(alloc, name)?;
    Ok(counted == other.as_slice())
}
