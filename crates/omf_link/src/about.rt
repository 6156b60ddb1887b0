//! What the program shows of itself.

use omf_host::About;

/// Its name, how it is called, and what its tasks and options do. The second is that of `omf_linker::link::Link`, with one task more.
pub(crate) const ABOUT: About = About {
    name: "omf-link",
    colored_name: "\x1B[1;36momf-link\x1B[0m",
    usage: "usage: omf-link exe -o FILE [--map FILE] [--symbols TOOL=FILE] [--stack BYTES]
           [--order ORDER] [--max-alloc PARAGRAPHS] [-L DIR ..]
           [--library-path DIR ..] [--no-default-libraries]
           [--no-default-library NAME ..] [--allow group|mixed|near|twice ..]
           [--ignore-case] [--keep-debug] [--eliminate] FILE ..
       omf-link com -o FILE [--map FILE] [--symbols TOOL=FILE] [--stack BYTES]
           [--order ORDER] [-L DIR ..] [--library-path DIR ..]
           [--no-default-libraries] [--no-default-library NAME ..]
           [--allow group|mixed|near|twice ..] [--ignore-case] [--keep-debug]
           [--eliminate] FILE ..
       omf-link image [--allow overlap|align|group|frame|near|twice ..]
           [--ignore-case] [-t TEXT] [-o FILE] [FILE ..]
       omf-link map [--ignore-case] [-t TEXT] [-o FILE] [FILE ..]
       omf-link bin --base ADDRESS --size SIZE [--fill BYTE]
           [--allow overlap|align|group|frame|near|twice ..]
           [--ignore-case] [-t TEXT] [-o FILE] [FILE ..]
       omf-link hex [--addresses linear|segment]
           [--allow overlap|align|group|frame|near|twice ..]
           [--ignore-case] [-t TEXT] [-o FILE] [FILE ..]
       omf-link srec [--addresses 16|24|32]
           [--allow overlap|align|group|frame|near|twice ..]
           [--ignore-case] [-t TEXT] [-o FILE] [FILE ..]
       omf-link draft [--base ADDRESS] [--real | --flat SELECTOR]
           [--ignore-case] [-o FILE] [FILE ..]
       omf-link join -o FILE [--order ORDER] [-L DIR ..] [--library-path DIR ..]
           [--no-default-libraries] [--no-default-library NAME ..]
           [--ignore-case] [--keep-debug] FILE ..
       omf-link lower -o FILE FILE
",
    details: "
  exe     a DOS program (.EXE) of object modules (.OBJ) and libraries (.LIB)
  com     a DOS program without a header (.COM)
  image   the memory of object modules at a text's addresses, in hexadecimal
  bin     the same memory as the bytes of a chip
  hex     the same memory as Intel HEX
  srec    the same memory as Motorola S-records
  map     the addresses of segments, publics and externals, as far as a text
          gives them
  draft   a text with addresses, to begin with
  join    the modules of a program in one file, with those of libraries that
          they need, for image, bin, hex, srec, map and draft
  lower   the modules of a file as exe and com take them: COMDATs and virtual
          segments are segments, CEXTDEFs are EXTDEFs, BAKPATs and NBKPATs are
          applied, frames by number and alignments A = 6 and 7 are replaced

  -o FILE                  the output; without it, or where FILE is -, the
                           standard output
  -t TEXT                  the text with the addresses
  --map FILE               exe, com: the map of the program
  --symbols TOOL=FILE      exe, com: the publics and their addresses for a tool:
                           ghidra, ida, r2 or nm
  --stack BYTES            exe, com: a stack of BYTES bytes, decimal or as 4K;
                           one more if that is odd
  --max-alloc PARAGRAPHS   exe: the paragraphs of 16 bytes after the image that
                           DOS is asked for at most (LINK's /CPARMAXALLOC)
  --order ORDER            exe, com, join: the order of segments; dos: as DOS
                           linkers have it (LINK's /DOSSEG); input: as they
                           come; classes as CODE,DATA,BSS: these first
  -L DIR, --library-path DIR
                           exe, com, join: a folder for files, and for libraries
                           that modules ask for; the folders of the variable LIB
                           come after it
  --no-default-libraries   exe, com, join: without the libraries that modules
                           ask for
  --no-default-library NAME
                           exe, com, join: without the library of this name
  --allow KIND             a warning in place of a fault of this kind, for exe
                           and com: group (more than 64 KB), mixed (one segment
                           of 16-bit and 32-bit parts), near (a near call or
                           jump into another frame), twice (a name that two
                           modules define and none asks for); for image, bin,
                           hex and srec also overlap, align and frame, not mixed
  --ignore-case            ignore the case of publics, externals and communals,
                           and show them in lower case
  --keep-debug             exe, com, join: with the segments of debug
                           information (classes DEBSYM, DEBTYP, DWARF) in memory
  --eliminate              exe, com: without the segments of code that
                           nothing reaches from the start and from data
  --base ADDRESS           bin: the address of the first byte; draft: of the
                           first segment (default 10000)
  --size SIZE              bin: the number of bytes, hexadecimal, or as 64K
  --fill BYTE              bin: the byte where no module has one (default FF)
  --addresses linear|segment, --addresses 16|24|32
                           hex, srec: the kind of addresses in the file
  --real                   draft: addresses for real mode; the default for
                           modules without 32-bit segments
  --flat SELECTOR          draft: one frame with base 0 and this selector; the
                           default for other modules, with selector 0

Numbers are hexadecimal, but for BYTES and PARAGRAPHS: 1000, 0x1000 and 1000H
are one, and so are --base 1000 and --base=1000, or -L DIR and -LDIR. @FILE is
the words of a file, and -- ends the options.

The name of a module's file may lack .obj, and for exe, com and join it may be
in another case than the file's own. Where a file is -, omf-link reads the
standard input; without files also, but for these three and lower. omf-link(1),
docs/DOS.md and docs/ADDRESSES.md show examples, and explain the lines that are
printed.
",
};
