//! Laws of what is told.
ghost use Rattle.std.specs.Prelude.{◌≡◌, ℕ, ◌≤◌, ◌⊎◌};
ghost use Rattle.disks.specs.Parts.{Image, IsPartImage, MayLeave, Part, Parts, as_read, image_of, other_part};
ghost use Rattle.disks.specs.Parts.{part_of, with_part};
ghost use Rattle.disks.specs.Moments.{Told, GoesOn, LeftSince, after, moment};

/// The laws by which a caller adds up the moments of several calls. It does nothing.
///
/// Proofs above cite them, and what follows for a property of each image, from `specs/MomentLaws`.
pub fn moments_add_up()
    // Since this moment there is this one alone.
    ensures now { (told : Told) (image : Image) →
        LeftSince (moment told) told image → MayLeave told.now image }
    ensures counts { (told : Told) (t : ℕ) (image : Image) →
        t ≤ moment told → MayLeave told.now image → LeftSince t told image }

    // Calls go on one from another, and each moment from itself and from the one before it.
    ensures goes_on { (old mid new : Told) → GoesOn old mid → GoesOn mid new → GoesOn old new }
    ensures here { (told : Told) → GoesOn told told }
    ensures next { (told : Told) (number : ℕ) (part : Part) → GoesOn told (after told number part) }

    // What may have been left up to the next moment is left at it, or was left before.
    ensures at_next { (told : Told) (number : ℕ) (part : Part) (t : ℕ) (image : Image) →
        LeftSince t (after told number part) image →
        MayLeave (with_part told.now number part) image ⊎ LeftSince t told image }

    // What may have been left since the first of two calls began was left in the first or in the
    // second,
    ensures in_one { (old mid new : Told) → GoesOn old mid → GoesOn mid new → (image : Image) →
        LeftSince (moment old) new image →
        LeftSince (moment old) mid image ⊎ LeftSince (moment mid) new image }

    // and no later call takes it back.
    ensures not_lost { (old new : Told) → GoesOn old new → (t : ℕ) (image : Image) →
        LeftSince t old image → LeftSince t new image }
{}

/// The laws by which a caller tells the part that it changes from the other one. It does nothing.
///
/// Proofs above cite them from `specs/PartLaws`.
pub fn parts_are_two()
    // The part that is put in a place is there, and the other part stays.
    ensures changed { (parts : Parts) (number : ℕ) (part : Part) →
        part_of (with_part parts number part) number ≡ part }
    ensures other { (parts : Parts) (number : ℕ) (part : Part) →
        part_of (with_part parts number part) (other_part number)
        ≡ part_of parts (other_part number) }

    // What an image has of a part is one of the images of that part,
    ensures image { (parts : Parts) (number : ℕ) (image : Image) →
        MayLeave parts image → IsPartImage (part_of parts number) (image_of image number) }

    // and of a disk as it reads, what a read gives of that part.
    ensures as_read { (parts : Parts) (number : ℕ) →
        image_of (as_read parts) number ≡ (part_of parts number).bytes }
{}
