//! The tools that import symbols, as words of an option.

ghost use Rattle.std.specs.Prelude.{◌≡◌};
ghost use Rattle.omf_host.specs.Tools.{tool_name, tool_named};

/// The tools for which symbols are written.
#[derive(Clone, Copy, Debug, PartialEq, Eq)]
pub enum Tool {
    Ghidra,
    Ida,
    Radare,
    Nm,
}

/// All tools, in the order in which they are shown.
pub(crate) const TOOLS: [Tool; 4] = [Tool::Ghidra, Tool::Ida, Tool::Radare, Tool::Nm];

impl Tool {
    /// The word for the tool.
    pub(crate) fn name(self) -> &'static str
        ensures { result.now ≡ tool_name self }
    {
        match self {
            Tool::Ghidra => "ghidra",
            Tool::Ida => "ida",
            Tool::Radare => "r2",
            Tool::Nm => "nm",
        }
    }
}

/// The tool that a word names: `ghidra`, `ida`, `r2` or `nm`.
pub fn tool_named(word: &str) -> Option<Tool>
    ensures { result ≡ tool_named word.now }
{
    if word == Tool::Ghidra.name() {
        Some(Tool::Ghidra)
    } else if word == Tool::Ida.name() {
        Some(Tool::Ida)
    } else if word == Tool::Radare.name() {
        Some(Tool::Radare)
    } else if word == Tool::Nm.name() {
        Some(Tool::Nm)
    } else {
        None
    }
}
