//! Laws about the definitions, each the contract of an empty function.

ghost use Rattle.std.specs.Prelude.{List};
ghost use Rattle.omf_records.specs.Values.{Rec};
ghost use Rattle.omf_check.specs.Sound.{ModuleHolds};
ghost use Rattle.omf_image.specs.Limits.{profile_limits};
ghost use Rattle.omf_placement.specs.Placement.{Places};
ghost use Rattle.omf_finding.specs.Candidates.{CandidatesSuffice};
ghost use Rattle.omf_finding.specs.Said.{OffsetsSayAddresses};
ghost use Rattle.omf_finding.specs.Laws.{HasPattern, FoundAgree, FoundAreListed};

/// At each placement, the image of a well-formed module has a byte exactly where its pattern has one, and at each closed byte the pattern's
/// own.
pub fn images_have_the_pattern()
    ensures { (pl : Places) (m : List Rec) → ModuleHolds profile_limits m → HasPattern pl m }
{}

/// Each interval of the pattern of a module that is found is in a list of `places`: at its segment's address and its first offset, less
/// the base.
pub fn found_are_listed()
    ensures { FoundAreListed }
{}

/// Each segment of a module that is found, but for absent ones, agrees with the program at its address.
pub fn found_agree()
    ensures { FoundAgree }
{}

/// To look at offsets that pass a weaker test is enough to have all places among them.
pub fn candidates_suffice()
    ensures { CandidatesSuffice }
{}

/// The offsets that a fixup may have in a frame, and the addresses of its target that an offset means, are each other's inverse.
pub fn offsets_say_addresses()
    ensures { OffsetsSayAddresses }
{}
