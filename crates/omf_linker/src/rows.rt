//! Worked examples, each evaluated by the check.

ghost use Rattle.std.specs.Prelude.{◌≡◌, [], ◌∷◌, codes, None, replicate, Some};
ghost use Rattle.clap.specs.Words.{Text, fault_of, subcommand_of};
ghost use Rattle.omf_layout.specs.declared.options.Frames.TheVariants.{Real, Flat};
ghost use Rattle.omf_linker.specs.Link.Files.{module_labels};
ghost use Rattle.omf_linker.specs.Link.Rows.{bytes_at, started_text, text_of};
ghost use Rattle.omf_linker.specs.Link.Words.{IsAsked as AsksLink, link_app};
ghost use Rattle.omf_linker.specs.declared.link.words.Task.TheVariants.{Image, Map, Draft};

/// Two bytes at 7C00H are one line, as is one byte at the last address. A run of 17 bytes is two lines.
pub fn texts_of_memories()
    ensures none { text_of [] ≡ [] }
    ensures two { text_of (bytes_at 0x7C00 (0xEB ∷ 0x0A ∷ []) ∷ bytes_at 0xFFFFFFFF (0xF4 ∷ []) ∷ []) ≡ codes "00007C00: EB 0A\nFFFFFFFF: F4\n" }
    ensures long { text_of (bytes_at 0xFFF8 (replicate 17 0xCC) ∷ []) ≡ codes "0000FFF8: CC CC CC CC CC CC CC CC CC CC CC CC CC CC CC CC\n00010008: CC\n" }
{}

/// The start address comes after the bytes.
pub fn texts_with_a_start()
    ensures start { started_text (bytes_at 0x7C00 (0xF4 ∷ []) ∷ []) (Some (0x7C0, 0x1F)) ≡ codes "00007C00: F4\nSTART 07C0:0000001F\n" }
    ensures none { started_text (bytes_at 0x7C00 (0xF4 ∷ []) ∷ []) None ≡ codes "00007C00: F4\n" }
{}

/// What the modules of a file are called.
pub fn labels_of_a_file()
    ensures { module_labels (codes "a b.obj") 2 ≡ codes "file \"a b.obj\" module 1" ∷ codes "file \"a b.obj\" module 2" ∷ [] }
{}

/// What arguments of `omf-link` ask for: a subcommand after the program's own name, alone; and `draft` with options.
pub fn link_asked()
    ensures image { (program : Text) → AsksLink (program ∷ codes "image" ∷ []) Image }
    ensures map { (program : Text) → AsksLink (program ∷ codes "map" ∷ []) Map }
    ensures draft { (program : Text) → AsksLink (program ∷ codes "draft" ∷ []) (Draft (record { base = 0x10000; frames = None })) }
    ensures real { (program : Text) → AsksLink (program ∷ codes "draft" ∷ codes "--base" ∷ codes "7C00" ∷ codes "--real" ∷ []) (Draft (record { base = 0x7C00; frames = Some Real })) }
    ensures flat { (program : Text) → AsksLink (program ∷ codes "draft" ∷ codes "--flat=1b" ∷ []) (Draft (record { base = 0x10000; frames = Some (Flat 0x1B) })) }
{}

/// Arguments without a subcommand, and arguments that clap refuses: another subcommand, two of them, an option of another subcommand.
pub fn link_not_understood()
    ensures none { (program : Text) → subcommand_of link_app (program ∷ []) ≡ None }
    ensures other { (program : Text) → fault_of link_app (program ∷ codes "list" ∷ []) ≡ [] → ⊥ }
    ensures two { (program : Text) → fault_of link_app (program ∷ codes "image" ∷ codes "map" ∷ []) ≡ [] → ⊥ }
    ensures option { (program : Text) → fault_of link_app (program ∷ codes "map" ∷ codes "--real" ∷ []) ≡ [] → ⊥ }
{}
