//! What follows from the definitions. The functions do nothing: their contracts are the laws.

ghost use Rattle.std.specs.Prelude.{◌≡◌, All, IsTrue, List, None, Ok, Option, length, ℕ};
ghost use Rattle.loop_record.specs.Geometry.{frame_bytes, is_good};
ghost use Rattle.loop_record.specs.Reading.{Holds};
ghost use Rattle.loop_record.specs.Recording.{Recording};
ghost use Rattle.loop_y4m.specs.Export.{frames_between};
ghost use Rattle.loop_y4m.specs.Reader.{Gives};
ghost use Rattle.loop_y4m.specs.Stream.{Frames, ends, ends_after, frames_by, frames_within_input, next_frame, parse, parse_deep};
ghost use Rattle.loop_y4m.specs.declared.fault.Y4mFault.{Y4mFault};
ghost use Rattle.loop_y4m.specs.Text.{deep_text, header_for, may_have, text};

use crate::Depth;
use loop_record::Geometry;

/// The text of a geometry's frames is read as its format, size and rate, then these frames' bytes, then the end.
pub fn written_text_is_read(geometry: &Geometry)
    ensures { (frames : List (List ℕ)) → IsTrue (is_good geometry.now)
        → All (λ frame. length frame ≡ frame_bytes geometry.now) frames
        → parse (text geometry.now frames)
        ≡ Ok (header_for geometry.now, ends_after frames None) }
{}

/// The text of a geometry's frames of 8 to 16 bits a sample is read as its format and size, its rows of as many bytes,
/// its rate and these bits, then these frames' bytes, then the end. The frames may have such samples.
pub fn written_deep_text_is_read(geometry: &Geometry, depth: Depth)
    ensures { (frames : List (List ℕ)) → IsTrue (is_good geometry.now) → IsTrue (may_have geometry.now depth)
        → All (λ frame. length frame ≡ frame_bytes geometry.now) frames
        → parse_deep (deep_text geometry.now depth frames)
        ≡ Ok ((header_for geometry.now, depth), ends_after frames None) }
{}

/// The text of the frames that are exported of a recording is read as the format, size and rate of the store,
/// then these frames' bytes, then the end.
pub fn exported_text_is_read(geometry: &Geometry)
    ensures { (r : Recording) (image : List ℕ) (from to : ℕ) → IsTrue (is_good geometry.now)
        → Holds geometry.now r image
        → parse (text geometry.now (frames_between from to r.frames))
        ≡ Ok (header_for geometry.now, ends_after (frames_between from to r.frames) None) }
{}

/// The frames of an input are the next one and those after it, up to the end or a fault: the count that bounds the
/// definition's recursion leaves none out.
pub fn frames_follow_one_another()
    ensures { (size : ℕ) (bytes : List ℕ)
        → frames_within_input size bytes ≡ frames_by (frames_within_input size) (next_frame size bytes) }
{}

/// Calls in turn that gave frames until only the end, or a fault, was left gave all frames that were to be read, in
/// their order.
pub fn a_run_gives_all_frames()
    ensures { (frames : Frames) (given : List (List ℕ)) (fault : Option Y4mFault)
        → Gives frames given (ends fault) → frames ≡ ends_after given fault }
{}
