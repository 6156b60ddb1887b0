//! What is kept of the bytes of a module while it is judged.

ghost use Rattle.std.specs.Prelude.{◌<◌, ℕ, List, Option, Some, None, length, OnOk, OnErr};
ghost use Rattle.std.specs.Io.KnownBytes.{Appends, Keeps};

use std::alloc::AllocError;

/// The number of bytes that there is room for from the first on: small modules need no more.
const FIRST_ROOM: usize = 256;

/// Keeps bytes in order, or lets them go.
pub(crate) trait Keeper {
    /// The bytes that it has kept, if it keeps any.
    ghost kept: { Self → Option (List ℕ) };

    /// Takes the next bytes.
    ///
    /// Errors: out of memory, which needs some bytes. It then takes none.
    fn keep(&mut self, bytes: &[u8]) -> Result<(), AllocError>
        ensures grown { OnOk result (Appends (kept self.old) (kept self.new) bytes.now) }
        ensures needed { OnErr result (0 < length bytes.now) }
        ensures same { OnErr result (Keeps (kept self.old) (kept self.new)) };
}

impl Keeper for Vec<u8> {
    ghost kept = { λ v. Some v.items };

    fn keep(&mut self, bytes: &[u8]) -> Result<(), AllocError> {
        if self.is_empty() && !bytes.is_empty() {
            self.reserve(FIRST_ROOM.max(bytes.len()))?;
        }
        self.extend_from_slice(bytes)
    }
}

/// Keeps nothing.
#[derive(Drop)]
pub(crate) struct Nothing;

impl Keeper for Nothing {
    ghost kept = { λ _. None };

    fn keep(&mut self, bytes: &[u8]) -> Result<(), AllocError> {
        Ok(())
    }
}
