//! Laws of what desk says about an image. No code calls them. They hold for every list of bytes,
//! whatever its length.

ghost use Rattle.std.specs.Prelude.{◌≡◌, ◌+◌, ◌<◌, ◌≤◌, ◌↔◌, ℕ, List, All, length, map};
ghost use Rattle.rd_geometry.specs.Kinds.{size_of};
ghost use Rattle.rd_geometry.specs.declared.kind.Kind.{Kind};
ghost use Rattle.rd_volume.specs.Founds.{Fits, IsSoundFile};
ghost use Rattle.rd_volume.specs.Needed.{AgreesOnNeeded, TellTheSame};
ghost use Rattle.rd_volume.specs.Parts.{bytes_of_range, ranges_of};
ghost use Rattle.rd_volume.specs.Reports.{IsReport, IsSoundSlot};
ghost use Rattle.rd_volume.specs.Volumes.{AreBytesOf, AreFounds, IsFound, IsSlotOfFile, pieces_of};
ghost use Rattle.rd_volume.specs.declared.found.Found.{Found};
ghost use Rattle.rd_volume.specs.declared.reports.Report.{Report};

/// A law: a file that `survey` may give has the slot of a file, and it is sound exactly if the
/// file there is.
pub fn each_file_told_is_at_its_slot()
    ensures slot { (kind : Kind) (image : List ℕ) (found : Found) → IsFound kind image found
        → IsSlotOfFile kind image found.slot }
    ensures sound { (kind : Kind) (image : List ℕ) (found : Found) → IsFound kind image found
        → IsSoundFile found ↔ IsSoundSlot kind image found.slot }
{}

/// A law: there is one way to describe the file at a slot, and no image has two surveys.
pub fn each_image_has_one_survey()
    ensures file { (kind : Kind) (image : List ℕ) (one other : Found) → IsFound kind image one → IsFound kind image other
        → one.slot ≡ other.slot → one ≡ other }
    ensures files { (kind : Kind) (image : List ℕ) (one other : List Found) → AreFounds kind image one
        → AreFounds kind image other → one ≡ other }
{}

/// A law: each list of bytes has a survey, and each list of numbers a report, so that `survey` and
/// `report` have something to say of every image, whatever it holds.
pub fn each_image_has_a_survey_and_a_report()
    ensures survey { (kind : Kind) (image : List ℕ) → All (λ byte. byte < 256) image
        → (founds : List Found) × AreFounds kind image founds }
    ensures report { (kind : Kind) (image : List ℕ) → (counted : Report) × IsReport kind image counted }
{}

/// A law: no sound file has two lists of bytes.
pub fn each_sound_file_has_one_content()
    ensures { (kind : Kind) (image : List ℕ) (slot : ℕ) (one other : List ℕ) → IsSoundSlot kind image slot
        → AreBytesOf kind image slot one → AreBytesOf kind image slot other → one ≡ other }
{}

/// A law: the pieces of a file that lies in its image are slices of the image, one for each unit
/// of the file. On a CP/M disk a slice begins where its unit does, on a 1541 disk two bytes later,
/// after the link. It has all bytes that follow in the unit; the last slice has only as many as
/// the last unit holds of the file. In an image of the right size no slice reaches past the end.
pub fn each_piece_is_a_slice_of_its_image()
    ensures slices { (kind : Kind) (image : List ℕ) (found : Found) → Fits kind found
        → pieces_of kind image found.units found.last_len
        ≡ map (bytes_of_range image) (ranges_of kind found.units found.last_len) }
    ensures inside { (kind : Kind) (image : List ℕ) (found : Found) → length image ≡ size_of kind → Fits kind found
        → All (λ part. part.start + part.count ≤ length image) (ranges_of kind found.units found.last_len) }
{}

/// A law: the needed bytes of an image decide what desk says about its files, whichever of them it
/// serves. If another image of the same kind and length has these bytes too, then the same bytes
/// of both are needed, both have the same files with the same fields, the same files are sound,
/// and the served files have the same bytes. So no other byte of an image shows in what desk says
/// about its files, or in the bytes of the served files. What `report` gives depends on the whole
/// image.
pub fn needed_bytes_decide_what_is_told()
    ensures { (kind : Kind) (image other served : List ℕ)
        → AgreesOnNeeded kind image other served → TellTheSame kind image other served }
{}
