//! What a search finds.

use crate::indices::Indices;
use omf_reloc::Placement;

/// What is asked of a search.
#[derive(Clone, Copy)]
pub struct FindOptions {
    /// The number of closed bytes from which on a segment with one place is placed by its bytes alone; usually 16.
    pub least: usize,
    /// The number of places that are listed of a segment at most; usually 16.
    pub most: usize,
}

/// A module that is in the program.
#[derive(Drop)]
pub struct Found {
    /// Where it is. The entries of segments that are absent, and of externals that are unknown, mean nothing.
    pub placement: Placement,
    /// The segments that are not in the program or that nothing places: their bytes are not compared.
    pub absent: Indices,
    /// The externals that nothing places.
    pub unknown: Indices,
}

/// Why a place of a segment is only a possible one.
#[derive(Clone, Copy)]
pub enum Why {
    /// The segment has fewer closed bytes than are enough, and no reference points to it.
    FewBytes,
    /// Its closed bytes are at several places, or may be, and no reference points to one of them.
    SeveralPlaces,
    /// Its closed bytes are at the same place as those of a segment of this module of the list.
    SameBytes(u32),
    /// They are at one place, but this segment of the module is nowhere in the program.
    OtherMissing(u16),
    /// They are at one place, but few of them differ from the one before, as in a row of zeros.
    FewValues,
    /// They are at one place, but as many closed bytes of another module's segment are there too.
    Overlapped,
    /// A reference leads elsewhere, two references disagree, or a selector would be where the loader changes nothing.
    Disagrees,
    /// The fixups do not reach, or a byte at a location is not what they give; or only modules that are not found refer to it.
    OpenBytes,
    /// Four of its closed bytes are at more places than are tried, and at those that were, others of its bytes disagree.
    ManyPlaces,
}

/// A segment of a module that is not found, and the places where its closed bytes are, or may be.
#[derive(Drop)]
pub struct Candidate {
    /// The segment, from 1.
    pub segment: u16,
    /// The addresses, in ascending order, at most `most`. None if `why` is `ManyPlaces`.
    pub addresses: Vec<u32>,
    /// Whether there may be more: the segment is not searched for, `most` places are listed and there is another, or four of its closed bytes
    /// are at 64 places. Of a segment that is searched for, those before the last one that was tried are listed.
    pub more: bool,
    /// Why none of them is sure.
    pub why: Why,
}

/// What is known of a module.
#[derive(Drop)]
pub enum Verdict {
    /// It is in the program, but for absent segments.
    Found(Box<Found>),
    /// The closed bytes of some segments are in the program, or may be.
    Possible(Vec<Candidate>),
    /// No segment whose closed bytes were searched for is in the program.
    NotThere,
}

/// A name that modules ask for and no module that is found defines, with an address that their references give it.
#[derive(Clone, Copy)]
pub struct Asked {
    /// The address.
    pub address: u32,
    /// A module that asks for it, from 0 in the list of modules.
    pub module: u32,
    /// Its external with the name, from 1.
    pub external: u16,
}

/// What a search finds.
#[derive(Drop)]
pub struct Findings {
    /// What is known of each module, in the order of the list of modules.
    pub verdicts: Vec<Verdict>,
    /// Of each module that is not found the placement at which it was tried, if it is in the program there. No module that is found refers to it.
    pub unreferenced: Vec<Option<Box<Found>>>,
    /// The names that are asked for, in ascending order of address; each name once for each address.
    pub asked: Vec<Asked>,
}
