//! Worked examples of LIDATAs with fixups, evaluated during the proof. Their bytes are made by hand.

ghost use Rattle.std.specs.Prelude.{◌≡◌, ◌++◌, codes};
ghost use Rattle.omf_check.specs.Rows.{L, M};
ghost use Rattle.omf_frame.specs.Rows.{hex};
ghost use Rattle.omf_frame.specs.declared.fault.Reason.TheVariants as reason;
ghost use Rattle.omf_lowering.specs.UnrolledRows.{Stops, before, nested, of_words, unrolls, wide, words};

/// A fixup of one block: each copy of its location is an LEDATA with the fixup at its first byte.
pub fn flat_blocks()
    ensures words { unrolls (before ++ words ++ of_words ++ M)
        ≡ before ++ words ++ hex (codes "A1 08 00 01 04 00 00 00 00 00 52") ++ hex (codes "9C 06 00 C4 00 04 01 01 94") ++ hex (codes "A1 08 00 01 06 00 00 00 00 00 50") ++ hex (codes "9C 06 00 C4 00 04 01 01 94") ++ hex (codes "A1 08 00 01 08 00 00 00 00 00 4E") ++ hex (codes "9C 06 00 C4 00 04 01 01 94") ++ M }
    ensures part { unrolls (before ++ words ++ hex (codes "9C 06 00 C0 06 04 01 01 92") ++ M)
        ≡ before ++ words ++ hex (codes "A1 07 00 01 05 00 00 00 00 52") ++ hex (codes "9C 06 00 C0 00 04 01 01 98") ++ hex (codes "A1 07 00 01 07 00 00 00 00 50") ++ hex (codes "9C 06 00 C0 00 04 01 01 98") ++ hex (codes "A1 07 00 01 09 00 00 00 00 4E") ++ hex (codes "9C 06 00 C0 00 04 01 01 98") ++ M }
    ensures wide { unrolls (before ++ wide ++ hex (codes "9D 09 00 E4 07 50 01 78 56 34 12 0A") ++ M)
        ≡ before ++ wide ++ hex (codes "A1 0A 00 01 00 00 01 00 AA BB CC DD 45") ++ hex (codes "9D 09 00 E4 00 50 01 78 56 34 12 11") ++ hex (codes "A1 0A 00 01 04 00 01 00 AA BB CC DD 41") ++ hex (codes "9D 09 00 E4 00 50 01 78 56 34 12 11") ++ M }
    ensures none { unrolls (before ++ hex (codes "A2 0B 00 01 04 00 00 00 00 00 02 00 00 4C") ++ of_words ++ M) ≡ before ++ hex (codes "A2 0B 00 01 04 00 00 00 00 00 02 00 00 4C") ++ M }
{}

/// A fixup of a block in others: a copy for each turn of each of the blocks around it.
pub fn nested_blocks()
    ensures inner { unrolls (before ++ nested ++ hex (codes "9C 06 00 C0 10 04 01 01 88") ++ M)
        ≡ before ++ nested ++ hex (codes "A1 07 00 01 02 00 00 00 33 22") ++ hex (codes "9C 06 00 C0 00 04 01 01 98") ++ hex (codes "A1 07 00 01 04 00 00 00 33 20") ++ hex (codes "9C 06 00 C0 00 04 01 01 98") ++ hex (codes "A1 07 00 01 07 00 00 00 33 1D") ++ hex (codes "9C 06 00 C0 00 04 01 01 98") ++ hex (codes "A1 07 00 01 09 00 00 00 33 1B") ++ hex (codes "9C 06 00 C0 00 04 01 01 98") ++ M }
    ensures first { unrolls (before ++ nested ++ hex (codes "9C 06 00 C0 09 04 01 01 8F") ++ M)
        ≡ before ++ nested ++ hex (codes "A1 07 00 01 00 00 00 00 11 46") ++ hex (codes "9C 06 00 C0 00 04 01 01 98") ++ hex (codes "A1 07 00 01 05 00 00 00 11 41") ++ hex (codes "9C 06 00 C0 00 04 01 01 98") ++ M }
{}

/// Fixups of two contents, in one FIXUPP or in two: one after the other.
pub fn two_contents()
    ensures one { unrolls (before ++ nested ++ hex (codes "9C 0B 00 C0 09 04 01 01 C4 0F 04 01 01 B1") ++ M)
        ≡ before ++ nested ++ hex (codes "A1 07 00 01 00 00 00 00 11 46") ++ hex (codes "9C 06 00 C0 00 04 01 01 98") ++ hex (codes "A1 07 00 01 05 00 00 00 11 41") ++ hex (codes "9C 06 00 C0 00 04 01 01 98") ++ hex (codes "A1 08 00 01 01 00 00 00 22 33 00") ++ hex (codes "9C 06 00 C4 00 04 01 01 94") ++ hex (codes "A1 08 00 01 03 00 00 00 22 33 FE") ++ hex (codes "9C 06 00 C4 00 04 01 01 94") ++ hex (codes "A1 08 00 01 06 00 00 00 22 33 FB") ++ hex (codes "9C 06 00 C4 00 04 01 01 94") ++ hex (codes "A1 08 00 01 08 00 00 00 22 33 F9") ++ hex (codes "9C 06 00 C4 00 04 01 01 94") ++ M }
    ensures two { unrolls (before ++ nested ++ hex (codes "9C 06 00 C0 09 04 01 01 8F") ++ hex (codes "9C 06 00 C4 0F 04 01 01 85") ++ M)
        ≡ before ++ nested ++ hex (codes "A1 07 00 01 00 00 00 00 11 46") ++ hex (codes "9C 06 00 C0 00 04 01 01 98") ++ hex (codes "A1 07 00 01 05 00 00 00 11 41") ++ hex (codes "9C 06 00 C0 00 04 01 01 98") ++ hex (codes "A1 08 00 01 01 00 00 00 22 33 00") ++ hex (codes "9C 06 00 C4 00 04 01 01 94") ++ hex (codes "A1 08 00 01 03 00 00 00 22 33 FE") ++ hex (codes "9C 06 00 C4 00 04 01 01 94") ++ hex (codes "A1 08 00 01 06 00 00 00 22 33 FB") ++ hex (codes "9C 06 00 C4 00 04 01 01 94") ++ hex (codes "A1 08 00 01 08 00 00 00 22 33 F9") ++ hex (codes "9C 06 00 C4 00 04 01 01 94") ++ M }
{}

/// THREADs among fixups get FIXUPPs of their own, in their order.
pub fn threads()
    ensures among { unrolls (before ++ words ++ hex (codes "9C 0A 00 40 01 00 01 C4 05 8C 41 01 81") ++ M)
        ≡ before ++ words ++ hex (codes "9C 03 00 40 01 20") ++ hex (codes "9C 03 00 00 01 60") ++ hex (codes "A1 08 00 01 04 00 00 00 00 00 52") ++ hex (codes "9C 04 00 C4 00 8C 10") ++ hex (codes "A1 08 00 01 06 00 00 00 00 00 50") ++ hex (codes "9C 04 00 C4 00 8C 10") ++ hex (codes "A1 08 00 01 08 00 00 00 00 00 4E") ++ hex (codes "9C 04 00 C4 00 8C 10") ++ hex (codes "9C 03 00 41 01 1F") ++ M }
    ensures alone { unrolls (before ++ words ++ hex (codes "9C 05 00 40 01 00 01 1D") ++ M) ≡ before ++ words ++ hex (codes "9C 05 00 40 01 00 01 1D") ++ M }
{}

/// A fixup of an LEDATA, a fixup without data, and one after an LIDATA with a fault, which `check` refuses, are kept.
pub fn kept_fixups()
    ensures ledata { unrolls (before ++ words ++ L ++ hex (codes "9C 06 00 C4 01 04 01 01 93") ++ M) ≡ before ++ words ++ L ++ hex (codes "9C 06 00 C4 01 04 01 01 93") ++ M }
    ensures no_data { unrolls (before ++ of_words ++ M) ≡ before ++ of_words ++ M }
    ensures cut { unrolls (before ++ hex (codes "A2 0A 00 01 04 00 03 00 00 00 02 00 4A") ++ of_words ++ M) ≡ before ++ hex (codes "A2 0A 00 01 04 00 03 00 00 00 02 00 4A") ++ of_words ++ M }
    ensures far { unrolls (before ++ hex (codes "A3 0F 00 01 FE FF FF FF 02 00 00 00 00 00 02 00 00 4E") ++ hex (codes "9C 06 00 C4 07 04 01 01 8D") ++ M) ≡ before ++ hex (codes "A3 0F 00 01 FE FF FF FF 02 00 00 00 00 00 02 00 00 4E") ++ hex (codes "9C 06 00 C4 07 04 01 01 8D") ++ M }
{}

/// A location in a repeat count, in a block count or on a length byte, across two contents, or past the blocks; and one that has a byte of another.
pub fn fixup_faults()
    ensures count { Stops (before ++ words ++ hex (codes "9C 06 00 C4 00 04 01 01 94")) 3 reason.OutsideRecord }
    ensures blocks { Stops (before ++ words ++ hex (codes "9C 06 00 C4 02 04 01 01 92")) 3 reason.OutsideRecord }
    ensures length { Stops (before ++ words ++ hex (codes "9C 08 00 40 01 C4 04 04 01 01 4D")) 5 reason.OutsideRecord }
    ensures across { Stops (before ++ nested ++ hex (codes "9C 06 00 C4 09 04 01 01 8B")) 3 reason.OutsideRecord }
    ensures past { Stops (before ++ words ++ hex (codes "9C 06 00 C4 06 04 01 01 8E")) 3 reason.OutsideRecord }
    ensures twice { Stops (before ++ words ++ hex (codes "9C 0B 00 C4 05 04 01 01 C0 06 04 01 01 BE")) 8 reason.FixupOnIterated }
    ensures later { Stops (before ++ words ++ of_words ++ hex (codes "9C 06 00 C0 06 04 01 01 92")) 3 reason.FixupOnIterated }
{}
