//! Worked examples, each evaluated by the check.

ghost use Rattle.std.specs.Prelude.{◌≡◌, ℕ, [], ◌∷◌, ◌++◌, None, Some, codes, drop};
ghost use Rattle.omf_frame.specs.declared.fault.Reason.TheVariants as reason;
ghost use Rattle.omf_check.specs.Module.{records_in};
ghost use Rattle.omf_check.specs.Rows.{H, first_module, place, wrong_checksum};
ghost use Rattle.omf_dump.specs.Dump.{dump_text};
ghost use Rattle.omf_frame.specs.declared.kinds.RecordType.TheVariants as types;
ghost use Rattle.omf_frame.specs.declared.kinds.Width.TheVariants as width;
ghost use Rattle.omf_records.specs.Values.{Carried};
ghost use Rattle.omf_dump.specs.Gives.{data_of, externs_of, given_by, group_of, segment_of};
ghost use Rattle.omf_dump.specs.Looks.{looks_like};
ghost use Rattle.omf_dump.specs.Refused.{refusal_text};
ghost use Rattle.omf_dump.specs.Render.{left_out};
ghost use Rattle.omf_dump.specs.Words.{type_word};
ghost use Rattle.omf_dump.specs.Csv.{csv_quoted};
ghost use Rattle.omf_dump.specs.Rows.{json, lines, named_text, short, text};
ghost use Rattle.omf_dump.specs.declared.format.Format.TheVariants as format;
ghost use Rattle.omf_dump.specs.declared.format.Shape.TheVariants as shape;
ghost use Rattle.omf_dump.specs.declared.format.Which.TheVariants as which;

/// A module as text, as JSON, and with two bytes of data for each record.
pub fn a_module()
    ensures text { dump_text text (records_in first_module) ≡ lines (codes "0 00000000 80 THEADR  checksum 3B  name \"A\"" ∷ codes "1 00000006 96 LNAMES  checksum 11" ∷ codes "    +3  name 1 \"\"" ∷ codes "    +4  name 2 \"T\"" ∷ codes "2 0000000D 98 SEGDEF  checksum 31  segment 1  name 2 \"T\"  class 1 \"\"  overlay 1 \"\"  align byte  combine public  use 16  length 0004" ∷ codes "3 00000017 A0 LEDATA  checksum 0F  segment 1 \"T\"  offset 0000  length 0004" ∷ codes "    00000000 B8 00 00 90                                      ...." ∷ codes "4 00000022 9C FIXUPP  checksum 93" ∷ codes "    +3  at 0001  bytes B8 [00 00] 90  location offset16  target segment 1 \"T\"  frame segment 1 \"T\"" ∷ codes "5 0000002B 8A MODEND  checksum 74  flags 00" ∷ []) }
    ensures json { dump_text json (records_in first_module) ≡ lines (codes "{\"number\":0,\"start\":0,\"type\":128,\"record\":\"THEADR\",\"checksum\":59,\"name\":\"A\"}" ∷ codes "{\"number\":1,\"start\":6,\"type\":150,\"record\":\"LNAMES\",\"checksum\":17,\"items\":[{\"within\":3,\"name\":{\"index\":1,\"name\":\"\"}},{\"within\":4,\"name\":{\"index\":2,\"name\":\"T\"}}]}" ∷ codes "{\"number\":2,\"start\":13,\"type\":152,\"record\":\"SEGDEF\",\"checksum\":49,\"segment\":1,\"name\":{\"index\":2,\"name\":\"T\"},\"class\":{\"index\":1,\"name\":\"\"},\"overlay\":{\"index\":1,\"name\":\"\"},\"align\":\"byte\",\"combine\":\"public\",\"use\":16,\"big\":false,\"length\":4}" ∷ codes "{\"number\":3,\"start\":23,\"type\":160,\"record\":\"LEDATA\",\"checksum\":15,\"segment\":{\"index\":1,\"name\":\"T\"},\"offset\":0,\"length\":4,\"data\":\"B8000090\"}" ∷ codes "{\"number\":4,\"start\":34,\"type\":156,\"record\":\"FIXUPP\",\"checksum\":147,\"items\":[{\"within\":3,\"at\":1,\"bytes\":\"0000\",\"before\":\"B8\",\"after\":\"90\",\"location\":\"offset16\",\"self-relative\":false,\"target\":{\"method\":\"segment\",\"index\":1,\"name\":\"T\"},\"frame\":{\"method\":\"segment\",\"index\":1,\"name\":\"T\"}}]}" ∷ codes "{\"number\":5,\"start\":43,\"type\":138,\"record\":\"MODEND\",\"checksum\":116,\"flags\":0,\"main\":false,\"has-start\":false,\"items\":[]}" ∷ []) }
{}

/// Two bytes of data for each record.
pub fn two_bytes()
    ensures { dump_text short (records_in (drop 23 first_module)) ≡ lines (codes "0 00000000 A0 LEDATA  checksum 0F  segment 1  offset 0000  length 0004" ∷ codes "    00000000 B8 00                                            .." ∷ codes "    and 2 bytes more" ∷ codes "1 0000000B 9C FIXUPP  checksum 93" ∷ codes "    +3  at 0001  bytes B8 [00 00] 90  location offset16  target segment 1  frame segment 1" ∷ codes "2 00000014 8A MODEND  checksum 74  flags 00" ∷ []) }
{}

/// Bytes that are left out: one, and more.
pub fn left_out_bytes()
    ensures one { left_out format.Text 1 ≡ codes "    and 1 byte more\n" }
    ensures more { left_out format.Text 2 ≡ codes "    and 2 bytes more\n" }
{}

/// Records at fault: a wrong checksum and the records after it, a wrong checksum of names, a CEXTDEF, no record, a file that is no module.
pub fn refusals()
    ensures checksum { refusal_text text [] (place 3 23 10) reason.Checksum (drop 23 wrong_checksum) ≡ lines (codes "3 00000017 A0 LEDATA  checksum 10  unjudged  segment 1  offset 0000  length 0004" ∷ codes "    00000000 B8 00 00 90                                      ...." ∷ codes "3 00000017 A0 LEDATA  refused 6  reason Checksum  within 10  byte 10  meaning \"the record's checksum is wrong\"" ∷ codes "    00000000 A0 08 00 01 00 00 B8 00 00 90 10                 ..........." ∷ codes "                                           ^^ +10" ∷ codes "4 00000022 9C FIXUPP  checksum 93  unjudged" ∷ codes "    +3  at 0001  bytes B8 [00 00] 90  location offset16  target segment 1  frame segment 1" ∷ codes "5 0000002B 8A MODEND  checksum 74  unjudged  flags 00" ∷ []) }
    ensures names { refusal_text text [] (place 1 6 6) reason.Checksum (0x96 ∷ 4 ∷ 0 ∷ 0 ∷ 1 ∷ 0x54 ∷ 0x12 ∷ []) ≡ lines (codes "1 00000006 96 LNAMES  checksum 12  unjudged" ∷ codes "    +3  name \"\"" ∷ codes "    +4  name \"T\"" ∷ codes "1 00000006 96 LNAMES  refused 6  reason Checksum  within 6  byte 12  meaning \"the record's checksum is wrong\"" ∷ codes "    00000000 96 04 00 00 01 54 12                             .....T." ∷ codes "                               ^^ +6" ∷ []) }
    ensures cextdef { refusal_text json [] (place 3 23 0) reason.UnsupportedType (0xBC ∷ 3 ∷ 0 ∷ 1 ∷ 0 ∷ 0 ∷ []) ≡ lines (codes "{\"number\":3,\"start\":23,\"type\":188,\"record\":\"CEXTDEF\",\"refused\":4,\"reason\":\"UnsupportedType\",\"within\":0,\"byte\":188,\"meaning\":\"the record's type is not read\",\"data\":\"BC0300010000\",\"fields\":{\"unjudged\":true,\"checksum\":0,\"items\":[{\"within\":3,\"name\":{\"index\":1},\"type\":0}]}}" ∷ []) }
    ensures end { refusal_text text [] (place 1 6 0) reason.NoEnd [] ≡ lines (codes "1 00000006  refused 1  reason NoEnd  within 0  meaning \"the input ends before a MODEND\"" ∷ []) }
    ensures empty { refusal_text json [] (place 0 0 0) reason.NoEnd [] ≡ lines (codes "{\"number\":0,\"start\":0,\"refused\":1,\"reason\":\"NoEnd\",\"within\":0,\"meaning\":\"the input ends before a MODEND\",\"looks-like\":\"an empty file\",\"data\":\"\"}" ∷ []) }
    ensures program { refusal_text text [] (place 0 0 0) reason.UnknownType (0x4D ∷ 0x5A ∷ []) ≡ lines (codes "0 00000000 4D   refused 3  reason UnknownType  within 0  byte 4D  meaning \"the record's type is unknown\"  looks-like \"a program (MZ)\"" ∷ codes "    00000000 4D 5A                                            MZ" ∷ codes "             ^^ +0" ∷ []) }
{}

/// What records give that are not read, by their bytes: SEGDEF with alignment 6, GRPDEF with an external, COMDEF with a communal of Borland's, CEXTDEF, FIXUPP
/// with an explicit frame, COMDAT.
pub fn given()
    ensures segdef { given_by [] width.Bits16 types.Segdef (0xC8 ∷ 16 ∷ 0 ∷ 2 ∷ 3 ∷ 1 ∷ []) ≡ Some (segment_of 2) }
    ensures grpdef { given_by [] width.Bits16 types.Grpdef (4 ∷ 0xFE ∷ 1 ∷ []) ≡ Some (group_of 4) }
    ensures comdef { given_by [] width.Bits16 types.Comdef (1 ∷ 0x62 ∷ 0 ∷ 1 ∷ 16 ∷ 1 ∷ 0x6E ∷ 0 ∷ 0x61 ∷ 3 ∷ 0x81 ∷ 0 ∷ 1 ∷ []) ≡ Some (externs_of (codes "b" ∷ codes "n" ∷ [])) }
    ensures cextdef { given_by ([] ∷ codes "f" ∷ []) width.Bits16 types.Cextdef (2 ∷ 0 ∷ 2 ∷ 0x81 ∷ 0 ∷ []) ≡ Some (externs_of (codes "f" ∷ codes "f" ∷ [])) }
    ensures fixupp { given_by [] width.Bits16 types.Fixupp (0xC4 ∷ 1 ∷ 0x36 ∷ 0x34 ∷ 0x12 ∷ 1 ∷ []) ≡ Some (Carried []) }
    ensures comdat { given_by [] width.Bits16 types.Comdat (0 ∷ 16 ∷ 0 ∷ 2 ∷ 0 ∷ 0 ∷ 1 ∷ 1 ∷ 5 ∷ 0xB8 ∷ []) ≡ Some (data_of 2 (0xB8 ∷ [])) }
{}

/// What they do not give: a cut field, a communal or a length of no known kind, an index of no name, a reserved frame method, a THREAD, iterated data.
pub fn not_given()
    ensures segdef { given_by [] width.Bits16 types.Segdef (0xC8 ∷ 16 ∷ 0 ∷ 2 ∷ 3 ∷ []) ≡ None }
    ensures comdef { given_by [] width.Bits16 types.Comdef (1 ∷ 0x62 ∷ 0 ∷ 0x60 ∷ 16 ∷ []) ≡ None }
    ensures length { given_by [] width.Bits16 types.Comdef (1 ∷ 0x62 ∷ 0 ∷ 0x62 ∷ 0x82 ∷ []) ≡ None }
    ensures cextdef { given_by ([] ∷ []) width.Bits16 types.Cextdef (2 ∷ 0 ∷ []) ≡ None }
    ensures reserved { given_by [] width.Bits16 types.Fixupp (0xC4 ∷ 1 ∷ 0x66 ∷ 1 ∷ []) ≡ None }
    ensures thread { given_by [] width.Bits16 types.Fixupp (0x40 ∷ 1 ∷ []) ≡ None }
    ensures iterated { given_by [] width.Bits16 types.Comdat (2 ∷ 16 ∷ 0 ∷ 2 ∷ 0 ∷ 0 ∷ 1 ∷ 1 ∷ 5 ∷ []) ≡ None }
{}

/// The names of types: a known one, obsolete ones, the end of a library, one of no name.
pub fn type_names()
    ensures known { type_word 0x9A ≡ codes "GRPDEF" }
    ensures header { type_word 0x6E ≡ codes "RHEADR" }
    ensures data { type_word 0x84 ≡ codes "PEDATA" }
    ensures symbols { type_word 0x92 ≡ codes "LOCSYM" }
    ensures end { type_word 0xF1 ≡ codes "library-end" }
    ensures none { type_word 0x4D ≡ [] }
{}

/// What files look like.
pub fn looks()
    ensures library { looks_like (0xF0 ∷ 0x0D ∷ []) ≡ codes "an OMF library" }
    ensures elf { looks_like (0x7F ∷ 0x45 ∷ 0x4C ∷ 0x46 ∷ []) ≡ codes "an ELF file" }
    ensures coff { looks_like (0x4C ∷ 0x01 ∷ 0x02 ∷ []) ≡ codes "a COFF object" }
    ensures archive { looks_like (codes "!<arch>\n") ≡ codes "an archive" }
    ensures text { looks_like (codes "org 100h\r\n") ≡ codes "text" }
    ensures zeros { looks_like (0 ∷ 0 ∷ []) ≡ codes "zeros" }
    ensures none { looks_like (0x7F ∷ 0x45 ∷ []) ≡ codes "no format known here" }
{}

/// The names of a module: all as text, those that it defines as comma-separated values, the others as JSON.
pub fn names_of_a_module()
    ensures text { named_text shape.Text which.All (codes "a: ") ≡ lines (codes "a: weak - - \"w\"" ∷ codes "a: undefined - - \"u\"" ∷ codes "a: text \"_TEXT\" 0000 \"m\"" ∷ codes "a: bss \"_DATA\" 0001 \"d\"" ∷ codes "a: absolute 0040 006C \"t\" local" ∷ codes "a: common - - \"c\"" ∷ codes "a: imported - - \"i\"" ∷ []) }
    ensures csv { named_text shape.Csv which.Defined (codes "\"a\",,") ≡ lines (codes "\"a\",,,text,false,\"_TEXT\",,0,\"m\",,,,,," ∷ codes "\"a\",,,bss,false,\"_DATA\",,1,\"d\",,,,,," ∷ codes "\"a\",,,absolute,true,,64,108,\"t\",,,,,," ∷ codes "\"a\",,,common,false,,,,\"c\",,,,,," ∷ codes "\"a\",,,imported,false,,,,\"i\",,,,,," ∷ []) }
    ensures json { named_text shape.Json which.Undefined (codes "{\"file\":\"a\"") ≡ lines (codes "{\"file\":\"a\",\"kind\":\"weak\",\"local\":false,\"symbol\":\"w\"}" ∷ codes "{\"file\":\"a\",\"kind\":\"undefined\",\"local\":false,\"symbol\":\"u\"}" ∷ []) }
{}

/// Names in comma-separated values: a comma, a quote.
pub fn csv_names()
    ensures comma { csv_quoted (codes "a,b") ≡ codes "\"a,b\"" }
    ensures quote { csv_quoted (codes "a\"b") ≡ codes "\"a\"\"b\"" }
{}
