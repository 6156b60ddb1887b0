//! Where the tools that import symbols load a program.

ghost use Rattle.std.specs.Prelude.{◌≡◌};
ghost use Rattle.omf_symbols.specs.Tools.{usual_load};

use omf_host::Tool;

/// What a program's file is.
#[derive(Clone, Copy, Debug, PartialEq, Eq)]
pub enum Kind {
    Mz,
    Com,
    Raw,
}

/// What a tool adds to the addresses of a program: Ghidra and IDA load an .EXE at 10000H, IDA a .COM file too.
pub fn usual_load(tool: Tool, kind: Kind) -> u32
    ensures { result ≡ usual_load tool kind }
{
    match tool {
        Tool::Ghidra => match kind {
            Kind::Mz => 0x10000,
            Kind::Com => 0,
            Kind::Raw => 0,
        },
        Tool::Ida => match kind {
            Kind::Mz => 0x10000,
            Kind::Com => 0x10000,
            Kind::Raw => 0,
        },
        Tool::Radare => 0,
        Tool::Nm => 0,
    }
}
