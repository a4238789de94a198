//! The worked messages in the grammar: sections one after another.

ghost use Rattle.std.specs.Prelude.{◌≡◌, [], ◌∷◌, map};
ghost use Rattle.grib2_message.specs.Grammar.{Grammar2};
ghost use Rattle.grib2_message.specs.Fields.{sections_of};
ghost use Rattle.grib2_sections.specs.Frame.{placed_at};
ghost use Rattle.grib_examples.specs.Messages.{m1, m2, m3, c1, t2, identification, grid, product, representation, no_bitmap, values};

/// The plain message is its six sections, and each begins where the manual's octets say.
pub fn plain_sections()
    ensures in_grammar { Grammar2 m1 (identification ∷ grid ∷ product ∷ representation ∷ no_bitmap ∷ values ∷ []) }
    ensures places { sections_of m1 ≡ placed_at 17 identification ∷ placed_at 38 grid ∷ placed_at 110 product ∷ placed_at 144 representation
        ∷ placed_at 165 no_bitmap ∷ placed_at 171 values ∷ [] }
{}

/// Two fields, complex packing, spatial differencing, an interval.
pub fn other_messages()
    ensures two_fields { Grammar2 m2 (map (λ s. s.octets) (sections_of m2)) }
    ensures grouped { Grammar2 c1 (map (λ s. s.octets) (sections_of c1)) }
    ensures differenced { Grammar2 m3 (map (λ s. s.octets) (sections_of m3)) }
    ensures interval { Grammar2 t2 (map (λ s. s.octets) (sections_of t2)) }
{}
