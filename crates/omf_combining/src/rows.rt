//! Worked examples, each evaluated by the check.

ghost use Rattle.std.specs.Prelude.{◌≡◌, [], ◌∷◌, codes, map, None, Some, false, true};
ghost use Rattle.omf_layout.specs.Own.Stack.{stack_records};
ghost use Rattle.omf_layout.specs.Own.Written.{end_record, header, name_record, segment_record, written};
ghost use Rattle.omf_layout.specs.Several.Order.{place_of};
ghost use Rattle.omf_layout.specs.Several.Rows.{absolute, of_records, place, places, segment};
ghost use Rattle.omf_layout.specs.declared.options.Frames.TheVariants.{Real};
ghost use Rattle.omf_combining.specs.Classes.{class_order, class_order_records};
ghost use Rattle.omf_combining.specs.Mixed.{first_mixed};
ghost use Rattle.omf_combining.specs.Stack.{even, part_records, stack_bytes, stack_length, stack_parts};

/// Parts of the stack (C = 5): 5 bytes aligned to bytes (34H), and 4 aligned to paragraphs (74H) of another name, after a public segment of the first
/// name (28H). An absolute segment is none.
pub fn stacks()
    ensures parts { map place_of (stack_parts (of_records (segment 0x28 3 2 1 ∷ segment 0x34 5 2 1 ∷ segment 0x74 4 3 1 ∷ absolute 2 1 ∷ []) ∷ [])) ≡ (0, 2) ∷ (0, 3) ∷ [] }
    ensures length { stack_length (stack_parts (of_records (segment 0x34 5 2 1 ∷ segment 0x74 4 3 1 ∷ []) ∷ [])) ≡ 20 }
    ensures none { stack_length (stack_parts (of_records (segment 0x28 3 2 1 ∷ []) ∷ [])) ≡ 0 }
{}

/// A stack of 31 bytes is one of 32. The modules have 20 bytes: 12 more follow the last part, of the name B, and none if 19, 2 or none are asked for.
/// Without a stack it is a segment STACK. Of modules with 5 bytes one more follows, if none or 3 are asked for.
pub fn stacks_of_a_length()
    ensures even { even 31 ≡ 32 }
    ensures more { stack_bytes (of_records (segment 0x34 5 2 1 ∷ segment 0x74 4 3 1 ∷ []) ∷ []) 31 ≡ Some (written (header (codes "stack") ∷ name_record [] ∷ name_record (codes "B") ∷ segment_record 0x34 12 2 1 ∷ end_record ∷ [])) }
    ensures large { stack_bytes (of_records (segment 0x35 8 2 1 ∷ []) ∷ []) 10 ≡ Some (written (header (codes "stack") ∷ name_record [] ∷ name_record (codes "A") ∷ segment_record 0x35 2 2 1 ∷ end_record ∷ [])) }
    ensures odd { stack_bytes (of_records (segment 0x34 5 2 1 ∷ segment 0x74 4 3 1 ∷ []) ∷ []) 19 ≡ None }
    ensures less { stack_bytes (of_records (segment 0x34 5 2 1 ∷ segment 0x74 4 3 1 ∷ []) ∷ []) 2 ≡ None }
    ensures new { stack_bytes (of_records (segment 0x28 3 2 1 ∷ []) ∷ []) 1000 ≡ Some (written (stack_records 1000)) }
    ensures no_stack { stack_bytes (of_records (segment 0x28 3 2 1 ∷ []) ∷ []) 0 ≡ None }
    ensures own_even { stack_bytes (of_records (segment 0x34 5 2 1 ∷ segment 0x74 4 3 1 ∷ []) ∷ []) 0 ≡ None }
    ensures own_odd { stack_bytes (of_records (segment 0x34 5 2 1 ∷ []) ∷ []) 0 ≡ Some (written (header (codes "stack") ∷ name_record [] ∷ name_record (codes "A") ∷ segment_record 0x34 1 2 1 ∷ end_record ∷ [])) }
    ensures longer_odd { stack_bytes (of_records (segment 0x34 5 2 1 ∷ []) ∷ []) 3 ≡ Some (written (header (codes "stack") ∷ name_record [] ∷ name_record (codes "A") ∷ segment_record 0x34 1 2 1 ∷ end_record ∷ [])) }
{}

/// A stack of 15 bytes from a paragraph on, and one byte after it.
pub fn places_of_a_stack()
    ensures { places 0x10000 Real (of_records (segment 0x74 15 2 1 ∷ []) ∷ part_records (record { class = []; name = codes "A"; attribute = 0x34; size = 1 }) ∷ []) ≡ Some (((0, 1), place 0x10000 0x1000) ∷ ((1, 1), place 0x1000F 0x1000) ∷ [], 0x10010) }
{}

/// A module has segments A of class A, B of class B, and C of class B. The order of B, X and A leads B by an empty segment B, and A by A; there is no class X.
pub fn orders_of_classes()
    ensures records { class_order_records (codes "B" ∷ codes "X" ∷ codes "A" ∷ []) (of_records (segment 0x28 4 2 2 ∷ segment 0x48 1 3 3 ∷ segment 0x28 2 4 3 ∷ []) ∷ []) ≡ header (codes "order") ∷ name_record (codes "B") ∷ name_record (codes "B") ∷ segment_record 0x48 0 2 1 ∷ name_record (codes "A") ∷ name_record (codes "A") ∷ segment_record 0x28 0 4 3 ∷ end_record ∷ [] }
    ensures first { class_order (class_order_records (codes "B" ∷ []) (of_records (segment 0x28 4 2 2 ∷ segment 0x48 1 3 3 ∷ []) ∷ []) ∷ of_records (segment 0x28 4 2 2 ∷ segment 0x48 1 3 3 ∷ []) ∷ []) ≡ codes "B" ∷ codes "A" ∷ [] }
    ensures places { places 0x10001 Real (class_order_records (codes "B" ∷ []) (of_records (segment 0x28 4 2 2 ∷ segment 0x48 1 3 3 ∷ []) ∷ []) ∷ of_records (segment 0x28 4 2 2 ∷ segment 0x48 1 3 3 ∷ []) ∷ []) ≡ Some (((0, 1), place 0x10002 0x1000) ∷ ((1, 2), place 0x10002 0x1000) ∷ ((1, 1), place 0x10003 0x1000) ∷ [], 0x10007) }
{}

/// A 16-bit (28H) and a 32-bit (29H) public part of one segment; a 32-bit part without a byte; common (38H) with public; private ones (20H, 21H);
/// of two names.
pub fn mixed_parts()
    ensures mixed { first_mixed (of_records (segment 0x28 5 2 1 ∷ []) ∷ of_records (segment 0x28 5 2 1 ∷ segment 0x29 5 2 1 ∷ []) ∷ []) ≡ Some (record { «module» = 0; segment = 1; is_use32 = false }, record { «module» = 1; segment = 2; is_use32 = true }) }
    ensures empty { first_mixed (of_records (segment 0x28 5 2 1 ∷ []) ∷ of_records (segment 0x29 0 2 1 ∷ []) ∷ []) ≡ None }
    ensures common { first_mixed (of_records (segment 0x38 5 2 1 ∷ []) ∷ of_records (segment 0x29 5 2 1 ∷ []) ∷ []) ≡ None }
    ensures alone { first_mixed (of_records (segment 0x20 5 2 1 ∷ []) ∷ of_records (segment 0x21 5 2 1 ∷ []) ∷ []) ≡ None }
    ensures named { first_mixed (of_records (segment 0x28 5 2 1 ∷ []) ∷ of_records (segment 0x29 5 3 1 ∷ []) ∷ []) ≡ None }
{}
