//! Laws over the definitions.

ghost use Rattle.std.specs.Prelude.{◌≡◌, ℕ, ◌≤◌, None, [], ◌∷◌, length};
ghost use Rattle.grib_bits.specs.Octets.{octets};
ghost use Rattle.grib_packing.specs.Misfits.{Target, ToSimple, first_misfit};
ghost use Rattle.grib_packing.specs.Written.{IsTarget, MayBePacked};
ghost use Rattle.grib_packed.specs.Written.{packed};
ghost use Rattle.grib2_message.specs.Assembled.{assembled};
ghost use Rattle.grib2_message.specs.Message.{IsMessage};
ghost use Rattle.grib2_message.specs.Fields.{field_count, column_of, part_octets};
ghost use Rattle.grib_synthetic.specs.Points.{made_points, made_column};
ghost use Rattle.grib_synthetic.specs.Made.{made, MayBeMade};

use grib_base::MOST_OCTETS;
use grib_packed::laws::few_octets_are_written;
use grib_simple::laws::what_is_packed_simply_reads_back;

/// What is made is accepted, as a message of one field, whose column is the one that was made. Octet 21 of
/// its Section 5, the type of the original values, is 0.
pub fn what_is_made_is_accepted()
    ensures accepted { (seed ni nj : ℕ) → MayBeMade seed ni nj → IsMessage (made seed ni nj) }
    ensures one_field { (seed ni nj : ℕ) → MayBeMade seed ni nj → field_count (made seed ni nj) ≡ 1 }
    ensures its_column { (seed ni nj : ℕ) → MayBeMade seed ni nj
        → column_of (made seed ni nj) 1 ≡ made_column seed ni nj }
    ensures its_kind { (seed ni nj : ℕ) → MayBeMade seed ni nj
        → octets (part_octets (made seed ni nj) 1 5) 21 21 ≡ 0 }
{
    what_is_packed_simply_reads_back();
}

/// The column that is made may be packed, and nothing of it fails to fit a packing.
pub fn what_is_made_fits()
    ensures may_be_packed { (seed ni nj : ℕ) → MayBeMade seed ni nj → MayBePacked (made_column seed ni nj) }
    ensures fits { (target : Target) (seed ni nj : ℕ) → first_misfit target (made_points seed ni nj) ≡ None }
{}

/// Packed anew in simple packing, it stays as it is.
pub fn what_is_made_is_packed_simply()
    ensures { (seed ni nj : ℕ) → MayBeMade seed ni nj
        → assembled (made seed ni nj) (packed ToSimple (made_column seed ni nj) 0 ∷ []) ≡ made seed ni nj }
{
    what_is_packed_simply_reads_back();
}

/// No packing makes it too long: a message is put together again with what any packing of its column writes.
pub fn what_is_made_stays_short()
    ensures { (target : Target) (seed ni nj : ℕ) → IsTarget target → MayBeMade seed ni nj
        → length (assembled (made seed ni nj) (packed target (made_column seed ni nj) 0 ∷ [])) ≤ MOST_OCTETS }
{
    few_octets_are_written();
    what_is_packed_simply_reads_back();
}
