//! Worked examples, each evaluated by the check.

ghost use Rattle.std.specs.Prelude.{◌≡◌, ℕ, [], ◌∷◌, map, Some, None};
ghost use Rattle.omf_layout.specs.Several.Gathered.{distinct, gathered};
ghost use Rattle.omf_layout.specs.Several.Order.{order};
ghost use Rattle.omf_layout.specs.Several.Portions.{combination_named, name_at};
ghost use Rattle.omf_layout.specs.Several.Rows.{absolute, empty_group, group, module_places, of_records, paragraph_frame, place, places, raise, segment};
ghost use Rattle.omf_layout.specs.declared.options.Frames.TheVariants.{Real, Flat};
ghost use Rattle.omf_layout.specs.declared.several.portion.Combination.TheVariants.{Joined, Common, Alone};

/// The C fields of attribute bytes: private, public, stack, common and the reserved ones.
pub fn combinations()
    ensures { map combination_named (0x20 ∷ 0x24 ∷ 0x28 ∷ 0x2C ∷ 0x30 ∷ 0x34 ∷ 0x38 ∷ 0x3C ∷ []) ≡ Alone ∷ Alone ∷ Joined ∷ Alone ∷ Joined ∷ Joined ∷ Common ∷ Joined ∷ [] }
{}

/// Distinct names in order, and the values of each.
pub fn names()
    ensures distinct { distinct ((2 ∷ []) ∷ (1 ∷ []) ∷ (2 ∷ []) ∷ [] ∷ (1 ∷ []) ∷ []) ≡ (2 ∷ []) ∷ (1 ∷ []) ∷ [] ∷ [] }
    ensures gathered { gathered {A = ℕ} ((2 ∷ [], 10) ∷ (1 ∷ [], 20) ∷ (2 ∷ [], 30) ∷ []) ≡ (10 ∷ 30 ∷ []) ∷ (20 ∷ []) ∷ [] }
    ensures named { map (name_at (of_records [])) (0 ∷ 1 ∷ 2 ∷ 4 ∷ []) ≡ [] ∷ [] ∷ (0x41 ∷ []) ∷ (0x43 ∷ []) ∷ [] }
{}

/// Segments of two modules. Class C comes first, and in it name B; class B comes last, though its name A appears before that of class C.
pub fn classes_and_names()
    ensures { order (of_records (segment 0x28 1 3 4 ∷ segment 0x28 1 2 3 ∷ []) ∷ of_records (segment 0x28 1 2 4 ∷ segment 0x28 1 3 4 ∷ []) ∷ []) ≡ (0, 1) ∷ (1, 2) ∷ (1, 1) ∷ (0, 2) ∷ [] }
{}

/// Segments of one class and name: the joined ones come first, then the common ones, then those that are alone.
pub fn combined_ones()
    ensures { order (of_records (segment 0x20 1 2 2 ∷ segment 0x38 1 2 2 ∷ absolute 2 2 ∷ segment 0x28 1 2 2 ∷ []) ∷ of_records (segment 0x38 1 2 2 ∷ segment 0x34 1 2 2 ∷ []) ∷ []) ≡ (0, 4) ∷ (1, 2) ∷ (0, 2) ∷ (1, 1) ∷ (0, 1) ∷ (0, 3) ∷ [] }
{}

/// The places of such segments. The joined ones, of 5 and 4 bytes, the second at a paragraph, share the frame of the first. The common
/// ones, of 3 and 2 bytes, the second at a paragraph, share one paragraph with 3 bytes of room. The private one after them has its own
/// frame. The absolute one is where its SEGDEF puts it and takes no room.
pub fn places_of_combined_ones()
    ensures real { places 0x10008 Real (of_records (segment 0x20 1 2 2 ∷ segment 0x38 3 2 2 ∷ absolute 2 2 ∷ segment 0x28 5 2 2 ∷ []) ∷ of_records (segment 0x78 2 2 2 ∷ segment 0x68 4 2 2 ∷ []) ∷ []) ≡ Some (((0, 4), place 0x10008 0x1000) ∷ ((1, 2), place 0x10010 0x1000) ∷ ((0, 2), place 0x10020 0x1002) ∷ ((1, 1), place 0x10020 0x1002) ∷ ((0, 1), place 0x10023 0x1002) ∷ ((0, 3), place 0xB8000 0xB800) ∷ [], 0x10024) }
    ensures flat { places 0x401001 (Flat 0) (of_records (segment 0xA8 5 2 2 ∷ []) ∷ of_records (segment 0x48 1 3 2 ∷ segment 0x28 4 2 2 ∷ []) ∷ []) ≡ Some (((0, 1), place 0x401004 0) ∷ ((1, 2), place 0x401009 0) ∷ ((1, 1), place 0x40100E 0) ∷ [], 0x40100F) }
{}

/// The second of two joined segments is raised: it is at a multiple of 4,096, in the frame of the first.
pub fn places_of_a_raised_one()
    ensures { places 0x10008 Real (of_records (segment 0x28 5 2 2 ∷ []) ∷ of_records (segment 0x88 3 2 2 ∷ raise 1 ∷ []) ∷ []) ≡ Some (((0, 1), place 0x10008 0x1000) ∷ ((1, 1), place 0x11000 0x1000) ∷ [], 0x11003) }
{}

/// Segments that do not fit: the second of two joined ones, and common ones of which the first is the shorter.
pub fn places_without_room()
    ensures joined { places 0xFFFF0 Real (of_records (segment 0x28 12 2 2 ∷ []) ∷ of_records (segment 0x28 5 2 2 ∷ []) ∷ []) ≡ None }
    ensures joined_last { places 0xFFFF0 Real (of_records (segment 0x28 12 2 2 ∷ []) ∷ of_records (segment 0x28 4 2 2 ∷ []) ∷ []) ≡ Some (((0, 1), place 0xFFFF0 0xFFFF) ∷ ((1, 1), place 0xFFFFC 0xFFFF) ∷ [], 0x100000) }
    ensures common { places 0xFFFF0 Real (of_records (segment 0x38 12 2 2 ∷ []) ∷ of_records (segment 0x38 17 2 2 ∷ []) ∷ []) ≡ None }
{}

/// The groups of one name in two modules share one frame, that of the lowest member: it is in the second module, in the frame of the
/// first one's segment. A group without members has the frame at address 0. In flat mode all have the one frame. Where an empty part of A
/// ends at the address at which B begins, the group that has both has the frame of A, which is the lower, although it names B first.
pub fn frames_of_groups()
    ensures real { module_places 0x10008 Real (of_records (segment 0x68 1 2 2 ∷ segment 0x68 1 3 3 ∷ group 4 2 ∷ []) ∷ of_records (segment 0x68 1 2 2 ∷ group 4 1 ∷ empty_group 3 ∷ []) ∷ []) ≡ Some ((place 0x10010 0x1001 ∷ place 0x10030 0x1003 ∷ [], paragraph_frame 0x1001 ∷ []) ∷ (place 0x10020 0x1001 ∷ [], paragraph_frame 0x1001 ∷ record { base = 0; selector = 0 } ∷ []) ∷ [], 0x10031) }
    ensures tie { module_places 0x10008 Real (of_records (segment 0x28 20 2 2 ∷ []) ∷ of_records (segment 0x28 0 2 2 ∷ segment 0x28 4 3 3 ∷ group 4 2 ∷ group 4 1 ∷ []) ∷ []) ≡ Some ((place 0x10008 0x1000 ∷ [], []) ∷ (place 0x1001C 0x1000 ∷ place 0x1001C 0x1001 ∷ [], paragraph_frame 0x1000 ∷ paragraph_frame 0x1000 ∷ []) ∷ [], 0x10020) }
    ensures flat { module_places 0x10 (Flat 8) (of_records (segment 0x28 1 2 2 ∷ group 4 1 ∷ empty_group 3 ∷ []) ∷ []) ≡ Some ((record { address = 0x10; frame = record { base = 0; selector = 8 } } ∷ [], record { base = 0; selector = 8 } ∷ record { base = 0; selector = 8 } ∷ []) ∷ [], 0x11) }
{}
