//! Laws: what the texts mean.

ghost use Rattle.std.specs.Prelude.{List};
ghost use Rattle.omf_output.specs.declared.rom.hex.HexBase.{HexBase};
ghost use Rattle.omf_output.specs.declared.rom.srec.SAddress.{SAddress};
ghost use Rattle.omf_output.specs.declared.rom.run.Run.{Run};
ghost use Rattle.omf_output.specs.Rom.IntelHex.{hex_text, limit};
ghost use Rattle.omf_output.specs.Rom.Motorola.{limit as s_limit, s_text};
ghost use Rattle.omf_output.specs.Rom.Reading.{MeansHex, MeansS};
ghost use Rattle.omf_output.specs.Rom.Binary.{AreBytesFrom, Ascend, binary};
ghost use Rattle.omf_output.specs.Rom.Runs.{AreBelow, HaveBytes, memory};
ghost use Rattle.std.specs.Prelude.{◌≡◌, ℕ};

/// The text that `write_hex` writes of runs, read back, gives each byte of the runs at its address, and no other.
#[tactic(auto, using(crate::proofs::ReadBack::hex_said))]
pub fn hex_is_read_back()
    ensures { (base : HexBase) (runs : List Run) → AreBelow (limit base) runs → HaveBytes runs → MeansHex 0 (hex_text base runs) (memory runs) }
{}

/// The text that `write_s_records` writes of runs, read back, gives each byte of the runs at its address, and no other.
pub fn s_records_are_read_back()
    ensures { (width : SAddress) (start : ℕ) (runs : List Run) → AreBelow (s_limit width) runs → HaveBytes runs → MeansS width start (s_text width start runs) (memory runs) }
{}

/// The bytes that `write_binary` writes are those of its addresses: each is that of the run which has the address,
/// or the fill.
pub fn binaries_have_the_bytes()
    ensures { (from end fill : ℕ) (runs : List Run) → Ascend from end runs → AreBytesFrom from end fill runs (binary from end fill runs) }
{}

/// A text in Intel HEX has one meaning.
#[tactic(auto, using(crate::proofs::Decoded::hex_unique))]
pub fn hex_has_one_meaning()
    ensures { (first : ℕ) (text : List ℕ) (m k : List (ℕ × ℕ)) → MeansHex first text m → MeansHex first text k → m ≡ k }
{}

/// S-records of one width have one meaning.
#[tactic(auto, using(crate::proofs::Decoded::s_unique))]
pub fn s_records_have_one_meaning()
    ensures { (width : SAddress) (start end : ℕ) (text : List ℕ) (m k : List (ℕ × ℕ)) → MeansS width start text m → MeansS width end text k → m ≡ k }
{}
