//! Laws over the definitions.

ghost use Rattle.std.specs.Prelude.{◌≡◌, ℕ, List, false, None};
ghost use Rattle.grib_base.specs.declared.profile.Profile.TheVariants.{Stated, Open};
ghost use Rattle.grib_base.specs.Rules.{first_fault};
ghost use Rattle.grib2_products.specs.Opaque.{is_opaque_product, product_rules_under};
ghost use Rattle.grib2_products.specs.Spelled.{Spelled, IsSectionOf};
ghost use Rattle.grib2_products.specs.Writable.{IsWritable};
ghost use Rattle.grib2_products.specs.declared.product.ProductSection.{ProductSection};

/// The octets of a section tell its value: what is written from a value and read again is that value.
pub fn a_section_has_one_value()
    ensures { (value other : ProductSection) (s : List ℕ)
        → Spelled value s → Spelled other s → value ≡ other }
{}

/// A value that a section has which is accepted, as `read_product` answers it, can be written.
pub fn what_is_read_can_be_written()
    ensures { (value : ProductSection) (s : List ℕ) → IsSectionOf value s → IsWritable value }
{}

/// What the stated profile accepts, the open one accepts.
pub fn the_open_profile_accepts_what_is_stated()
    ensures { (s : List ℕ) (n : ℕ) → first_fault (product_rules_under Stated s n) ≡ None
        → first_fault (product_rules_under Open s n) ≡ None }
{}

/// Where the product is not opaque, both profiles have the same rules.
pub fn profiles_differ_in_opaque_products_alone()
    ensures { (s : List ℕ) (n : ℕ) → is_opaque_product s ≡ false
        → product_rules_under Open s n ≡ product_rules_under Stated s n }
{}
