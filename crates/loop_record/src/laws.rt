//! What follows from the definitions. Each function does nothing: its contract is the law.

ghost use Rattle.loop_record.specs.Laws.{VictimsAreLeast, LegalStepsKeepForm, AppendsAreLegal, ReadingsAreWellFormed, FreshImagesAreEmpty, KeptClipsReadTheSame, WrittenIsRead};
ghost use Rattle.loop_record.specs.Counts.{NewestIsLast, OneIsOlder, OrderIsTrue, PlacesAreCounts};

/// In a recording whose numbers rise, the victim is the least block of a held frame that no clip meets and that isn't
/// among the newest that are kept: as many held blocks as are kept are above it. Where there is no victim, there is no
/// such block.
pub fn victims_are_least()
    ensures { VictimsAreLeast }
{}

/// A legal step keeps a recording well formed: its numbers rise, the next number is above them all, and every number of
/// a clip is held.
pub fn legal_steps_keep_form()
    ensures { LegalStepsKeepForm }
{}

/// Each step of an append is legal after those before it.
pub fn appends_are_legal()
    ensures { AppendsAreLegal }
{}

/// An image that reads as a recording reads as a well-formed one.
pub fn readings_are_well_formed()
    ensures { ReadingsAreWellFormed }
{}

/// A freshly formatted image reads as the empty recording, in its version, whatever its slots hold.
pub fn fresh_images_are_empty()
    ensures { FreshImagesAreEmpty }
{}

/// Where the version's gate and the clip table have changed, but each id has the clip that it had, an image reads the
/// same.
pub fn kept_clips_read_the_same()
    ensures { KeptClipsReadTheSame }
{}

/// Reading gives back what was written of a slot, a superblock, a header or a clip entry.
pub fn written_is_read()
    ensures { WrittenIsRead }
{}

/// Of any two sequences one is older, or they are the same.
pub fn one_is_older()
    ensures { OneIsOlder }
{}

/// The newest comes last.
pub fn the_newest_is_last()
    ensures { NewestIsLast }
{}

/// Frames within 2^32 of the end are in the order in which they were counted.
pub fn order_is_true()
    ensures places { PlacesAreCounts }
    ensures order { OrderIsTrue }
{}
