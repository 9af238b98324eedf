//! Laws of the definitions. Each is the contract of a function that does nothing.

ghost use Rattle.std.specs.Prelude.{◌≡◌, ◌↔◌, ℕ, List, Ok, Err};
ghost use Rattle.pdb_image.specs.declared.error.ImageError.{ImageError};
ghost use Rattle.pdb_image.specs.Images.{Said, image_of};
ghost use Rattle.pdb_image.specs.ImagePlaces.{IsImage};
ghost use Rattle.pdb_image.specs.ImageRefusals.{IsRefused};

/// An image says what its bytes say by the offsets of its parts. Its error is that of the first part that isn't there, or
/// is another.
pub fn images_are_what_the_bytes_say()
    ensures says { (b : List ℕ) (x : Said) → (image_of b ≡ Ok x) ↔ IsImage b x }
    ensures refused { (b : List ℕ) (e : ImageError) → image_of b ≡ Err e → IsRefused b e }
{}
