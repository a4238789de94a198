//! Laws over the definitions, under each profile.

ghost use Rattle.std.specs.Prelude.{◌≡◌, ◌≢◌, ◌↔◌, ℕ, ◌+◌, ◌<◌, ◌≤◌, List, ◌++◌, Some, None, length, take, map, slice_get, All};
ghost use Rattle.grib_base.specs.declared.fault.Fault.{Fault};
ghost use Rattle.grib_base.specs.declared.fault.Reason.TheVariants.{Truncated};
ghost use Rattle.grib_base.specs.declared.profile.Profile.{Profile};
ghost use Rattle.grib_base.specs.declared.profile.Profile.TheVariants.{Stated, Open};
ghost use Rattle.grib2_sections.specs.Head.{indicator, edition, total_length};
ghost use Rattle.grib2_sections.specs.Verdict.{Accepted, Refused};
ghost use Rattle.grib2_message.specs.Acceptance.{verdict_under};
ghost use Rattle.grib2_message.specs.Grammar.{GrammarUnder, HaveStatedTemplates};
ghost use Rattle.grib2_message.specs.Fields.{sections_of, field_count, field_mask, part_octets, column_of};
ghost use Rattle.grib2_message.specs.Message.{IsMessageUnder, FieldPassesUnder, FieldReadsUnder, HasValues, IsReadable, first_opaque};
ghost use Rattle.grib2_message.specs.Assembled.{assembled, assembled_with, MayBeAssembledUnder, MayBeAssembledWithUnder};
ghost use Rattle.grib2_grids.specs.Grid.{grid_points};
ghost use Rattle.grib_bitmap.specs.Mask.{mask_of};
ghost use Rattle.grib_packing.specs.Entries.{column_from};
ghost use Rattle.grib_packing.specs.declared.written.Packed.{Packed};

/// What is accepted is exactly what is in the grammar, with its total length, whatever comes after it.
/// A message in the grammar has one list of sections, and it is the one that is found in it.
pub fn accepted_is_in_the_grammar()
    ensures accepted { (profile : Profile) (rest : List ℕ) (total : ℕ) → All (λ octet. octet < 256) (take total rest)
        → take 4 rest ≡ indicator → edition rest ≢ 1 → verdict_under profile rest ≡ Accepted total
        → (sections : List (List ℕ)) × (total ≤ length rest) × GrammarUnder profile (take total rest) sections }
    ensures in_grammar { (profile : Profile) (message after : List ℕ) (sections : List (List ℕ))
        → GrammarUnder profile message sections → verdict_under profile (message ++ after) ≡ Accepted (length message) }
    ensures its_sections { (profile : Profile) (message : List ℕ) (sections : List (List ℕ)) → GrammarUnder profile message sections
        → map (λ s. s.octets) (sections_of message) ≡ sections }
    ensures the_same_sections { (profile : Profile) (message after : List ℕ) (sections : List (List ℕ))
        → GrammarUnder profile message sections → sections_of (message ++ after) ≡ sections_of message }
{}

/// What the profile of the stated templates accepts, the open one accepts, with the same length. Where the stated one
/// has the template of each grid, product and packing, the two accept the same.
pub fn profiles_differ_in_opaque_templates_alone()
    ensures opened { (rest : List ℕ) (total : ℕ) → verdict_under Stated rest ≡ Accepted total
        → verdict_under Open rest ≡ Accepted total }
    ensures message { (message : List ℕ) → IsMessageUnder Stated message → IsMessageUnder Open message }
    ensures alike { (rest : List ℕ) (total : ℕ) → HaveStatedTemplates (sections_of rest)
        → verdict_under Open rest ≡ Accepted total → verdict_under Stated rest ≡ Accepted total }
{}

/// What is said of octets stays said whatever follows them: an acceptance, and each refusal but that of
/// octets that end too early.
pub fn verdict_stays()
    ensures accepted { (profile : Profile) (octets more : List ℕ) (total : ℕ) → edition octets ≢ 1
        → verdict_under profile octets ≡ Accepted total → verdict_under profile (octets ++ more) ≡ Accepted total }
    ensures refused { (profile : Profile) (octets more : List ℕ) (fault : Fault) → edition octets ≢ 1
        → verdict_under profile octets ≡ Refused fault → fault.reason ≢ Truncated
        → verdict_under profile (octets ++ more) ≡ Refused fault }
{}

/// An accepted length is the stated one, at least 20, and its octets are there. The acceptance rests on
/// them alone.
pub fn accepted_length()
    ensures stated { (profile : Profile) (octets : List ℕ) (total : ℕ) → edition octets ≢ 1
        → verdict_under profile octets ≡ Accepted total → total_length octets ≡ total }
    ensures least { (profile : Profile) (octets : List ℕ) (total : ℕ) → edition octets ≢ 1
        → verdict_under profile octets ≡ Accepted total → 20 ≤ total }
    ensures there { (profile : Profile) (octets : List ℕ) (total : ℕ) → edition octets ≢ 1
        → verdict_under profile octets ≡ Accepted total → total ≤ length octets }
    ensures alone { (profile : Profile) (octets : List ℕ) (total : ℕ) → edition octets ≢ 1
        → verdict_under profile octets ≡ Accepted total → verdict_under profile (take total octets) ≡ Accepted total }
{}

/// The sections in force for each field of an accepted message pass their rules, and the mask of the field has
/// one bit for each grid point. The values of each message that the profile of the stated templates accepts can be
/// read.
pub fn field_holds()
    ensures passes { (profile : Profile) (message : List ℕ) (i : ℕ) → IsMessageUnder profile message
        → 1 ≤ i → i ≤ field_count message → FieldPassesUnder profile message i }
    ensures reads { (profile : Profile) (message : List ℕ) (i : ℕ) → IsMessageUnder profile message → HasValues message i
        → 1 ≤ i → i ≤ field_count message → FieldReadsUnder profile message i }
    ensures stated { (message : List ℕ) → IsMessageUnder Stated message → IsReadable message }
    ensures opaque { (message : List ℕ) → (first_opaque message ≡ None) ↔ IsReadable message }
    ensures mask { (profile : Profile) (message : List ℕ) (i : ℕ) → IsMessageUnder profile message
        → All (λ octet. octet < 256) message → 1 ≤ i → i ≤ field_count message
        → length (field_mask message i) ≡ grid_points (part_octets message i 3) }
{}

/// An accepted message with other Sections 5, 6 and 7 that pass their rules is accepted, where it is not too
/// long. It has as many fields. Each field has the Sections 5, 6 and 7 of its part, hence their column, and
/// its Sections 1 to 4 as they were.
pub fn what_is_assembled_is_accepted()
    ensures accepted { (profile : Profile) (message : List ℕ) (parts : List Packed) → MayBeAssembledUnder profile message parts
        → IsMessageUnder profile (assembled message parts) }
    ensures fields { (profile : Profile) (message : List ℕ) (parts : List Packed) → MayBeAssembledUnder profile message parts
        → field_count (assembled message parts) ≡ field_count message }
    ensures columns { (profile : Profile) (message : List ℕ) (parts : List Packed) → MayBeAssembledUnder profile message parts
        → (i : ℕ) (part : Packed) → slice_get parts i ≡ Some part
        → column_of (assembled message parts) (i + 1)
        ≡ column_from part.section5
        (mask_of part.section6 (grid_points (part_octets message (i + 1) 3)) None)
        part.section7 }
    ensures parts { (profile : Profile) (message : List ℕ) (parts : List Packed) → MayBeAssembledUnder profile message parts
        → (i : ℕ) (part : Packed) → slice_get parts i ≡ Some part
        → (part_octets (assembled message parts) (i + 1) 5 ≡ part.section5)
        × (part_octets (assembled message parts) (i + 1) 6 ≡ part.section6)
        × (part_octets (assembled message parts) (i + 1) 7 ≡ part.section7) }
    ensures kept { (profile : Profile) (message : List ℕ) (parts : List Packed) → MayBeAssembledUnder profile message parts
        → (i k : ℕ) → k ≤ 4 → part_octets (assembled message parts) i k ≡ part_octets message i k }
{}

/// An accepted message of which each Section 3 becomes another that passes its rules, with other Sections 5, 6
/// and 7 that pass theirs for its number of points, is accepted, where it is not too long. It has as many
/// fields. Each field has the new Section 3, the Sections 5, 6 and 7 of its part, hence their column, and its
/// Sections 1, 2 and 4 as they were.
pub fn what_is_assembled_with_other_grids_is_accepted()
    ensures accepted { (profile : Profile) (grid : List ℕ → List ℕ) (message : List ℕ) (parts : List Packed)
        → MayBeAssembledWithUnder profile grid message parts → IsMessageUnder profile (assembled_with grid message parts) }
    ensures fields { (profile : Profile) (grid : List ℕ → List ℕ) (message : List ℕ) (parts : List Packed)
        → MayBeAssembledWithUnder profile grid message parts
        → field_count (assembled_with grid message parts) ≡ field_count message }
    ensures columns { (profile : Profile) (grid : List ℕ → List ℕ) (message : List ℕ) (parts : List Packed)
        → MayBeAssembledWithUnder profile grid message parts
        → (i : ℕ) (part : Packed) → slice_get parts i ≡ Some part
        → column_of (assembled_with grid message parts) (i + 1)
        ≡ column_from part.section5
        (mask_of part.section6 (grid_points (grid (part_octets message (i + 1) 3))) None)
        part.section7 }
    ensures parts { (profile : Profile) (grid : List ℕ → List ℕ) (message : List ℕ) (parts : List Packed)
        → MayBeAssembledWithUnder profile grid message parts
        → (i : ℕ) (part : Packed) → slice_get parts i ≡ Some part
        → (part_octets (assembled_with grid message parts) (i + 1) 5 ≡ part.section5)
        × (part_octets (assembled_with grid message parts) (i + 1) 6 ≡ part.section6)
        × (part_octets (assembled_with grid message parts) (i + 1) 7 ≡ part.section7) }
    ensures grids { (profile : Profile) (grid : List ℕ → List ℕ) (message : List ℕ) (parts : List Packed)
        → MayBeAssembledWithUnder profile grid message parts
        → (i : ℕ) → 1 ≤ i → i ≤ field_count message
        → part_octets (assembled_with grid message parts) i 3 ≡ grid (part_octets message i 3) }
    ensures kept { (profile : Profile) (grid : List ℕ → List ℕ) (message : List ℕ) (parts : List Packed)
        → MayBeAssembledWithUnder profile grid message parts
        → (i k : ℕ) → k ≤ 4 → k ≢ 3
        → part_octets (assembled_with grid message parts) i k ≡ part_octets message i k }
{}
