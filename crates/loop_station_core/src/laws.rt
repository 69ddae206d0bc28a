//! What holds over any list of events. Each function does nothing: its contract is the law.

ghost use Rattle.loop_station_core.specs.Laws.{BrokenFilmingsEnd, DisksAreToldOnce, FilmingsGoOn, FoundGapsAreSo, FramesAddUp, GapsAddUp, GapsAreLookedFor, KeepsAreRight, LeavesAreForUnreadClips, LinesAreSo, LockedLinesAlternate, LockedLinesTellAll, LostAreCounted, LostAreFound, LostAreToldOnce, MovedStoresAreLeft, NothingIsToldTwice, OrdersAreAnsweredOnce, OrdersAreHandedOut, OrdersReleaseUnreadClips, OrdersSpareReadClips, ReleasesAreEarned, ReleasesAreFree, SavedClipsAreReleased, SavedTextsAreThere, SavesWaitOnce, SearchesLookAtAll, SilentSourcesWait, StopsAreForGood, TextsAreSaved, UnreadSavedClipsAreReleased, WithdrawnSavesLeaveNothing};
ghost use Rattle.loop_station_core.specs.Cameras.{CamerasEndWithTheProgram, EndedFilmingsGoOn, LockedBlocksAreKnown, LockedFilmingsWait, OffersAreAnswered, SilenceIsSeen, SourcesAreSeen, StoresAreOpenedAgain};
ghost use Rattle.loop_station_core.specs.Gaps.{LongGapsAreLong, LostAreInGaps, TimesAddUp};
ghost use Rattle.loop_station_core.specs.Losses.{EstimatesAreRight};
ghost use Rattle.loop_station_core.specs.Keeps.{KeepsCoverBothEnds, KeepsCoverTheirSeconds, KeepsEnd, KeepsHaveAll, KeepsLockEachBlock, KeepsLockOnce, KeepsTakeTheCamerasSeconds, ProgressIsSeen, StuckKeepsEnd};
ghost use Rattle.loop_station_core.specs.Marks.{MarksAreRead};
ghost use Rattle.loop_station_core.specs.Releases.{CancelsFindTheirSave, EarnedClipsAreReleased, SavesAddUp, SavesAreTakenIn, SavesWaitForPlaces};
ghost use Rattle.loop_station_core.specs.Retries.{CancelsMeanTheirClip, DueRetriesAreTaken, RetriesAreDue};
ghost use Rattle.loop_station_core.specs.Timing.{FrameTimesRise, GapsAreToldApart, LongGapsAreTold, OddTimesAreToldOnce, TimesAreTheSources};
ghost use Rattle.loop_station_core.specs.Clocks.{ClocksAreRead, MediansLieAmong, MovedClocksAreTold, RightTimesStay, StepsAreHeard, WrongTimesAreNone};
ghost use Rattle.loop_station_core.specs.Newest.{NewestIsAhead, OrderedAreCounted, OthersAreTimed};
ghost use Rattle.loop_station_core.specs.Sets.{ClipsHaveTheirOwnIds, IdsAreThoseOfTheFile, StoresHoldWhatCame};
ghost use Rattle.loop_station_core.specs.Clips.{CoveredPartsAreWithin, KeepsHaveRoom, RefusedReleasesAreSo};
ghost use Rattle.loop_station_core.specs.Full.{AllowedClipsGo, OldestClipsGo};
ghost use Rattle.loop_station_core.specs.Reloads.{RefusedReloadsChangeNothing, ReloadsAreFollowed};
ghost use Rattle.loop_station_core.specs.Orders.{IdleCamerasAreDone, OrdersAreTakenIn};
ghost use Rattle.loop_station_core.specs.Saving.{BegunSavesAreTold, CancelledSavesAreTheirs, ClipsAreSavedOnce, PlacesTellAll, ReadersAreSo, SavesEarnTheirClip, StopsEndSaves};
ghost use Rattle.loop_station_core.specs.Frames.{LostFramesWereGivenUp, TalliesAddUp};
ghost use Rattle.loop_station_core.specs.SaveEnds.{EndsAreTold, RetriesAreTold};
ghost use Rattle.loop_station_core.specs.Answers.{EarlyAnswersCount};
ghost use Rattle.loop_station_core.specs.Tellings.{LinesAreInOrder, LinesAreTakenIn};
ghost use Rattle.loop_station_core.specs.Telling.{FirstLooksTellAll, LinesTellAll, LongWaitsAreTold, LostFramesAreToldSoon, SlowDisksAreTold};

/// Each frame that came is stored, lost, at the desk, or on its way to it.
pub fn frames_add_up()
    ensures { FramesAddUp }
{}

/// The time of each frame is later than that of the frame before, whatever its source says.
pub fn frame_times_rise()
    ensures { FrameTimesRise }
{}

/// Between two gaps that are told lies a second, or more.
pub fn gaps_are_told_apart()
    ensures { GapsAreToldApart }
{}

/// Bits and lateness are read back from a mark.
pub fn marks_are_read()
    ensures { MarksAreRead }
{}

/// At looks that come one after the other, a keep locks what its line asks for, and only once each frame that had come
/// before its line is at the desk or lost, or each block is locked, or no frame has made progress for a minute. It is
/// done only once its end has passed, or nothing further comes.
pub fn keeps_are_right()
    ensures { KeepsAreRight }
{}

/// What is held of a time, and its gaps, are all of it.
pub fn gaps_add_up()
    ensures { GapsAddUp }
{}

/// A gap that a search of a clip finds lies between two frames with consecutive numbers, and frames are lost there, or
/// it is long.
pub fn found_gaps_are_so()
    ensures { FoundGapsAreSo }
{}

/// A stretch in which none came for a while is looked into, where frames come no faster than at their rate.
pub fn gaps_are_looked_for()
    ensures { GapsAreLookedFor }
{}

/// Between two stored frames as many are lost as were counted there and aren't stored.
pub fn lost_are_counted()
    ensures { LostAreCounted }
{}

/// A search of a clip finds each lost frame, once, and no other, whatever the times of its frames are.
pub fn lost_are_found()
    ensures { LostAreFound }
{}

/// A text is told to be saved only once its bytes, its name and its folder are on the disk, in this order.
pub fn saved_texts_are_there()
    ensures { SavedTextsAreThere }
{}

/// A clip is released by the end of a save only where no other save is of it.
pub fn releases_are_free()
    ensures { ReleasesAreFree }
{}

/// Whoever gives it, leave to unlock a clip is for a clip that was shown, and that no save reads.
pub fn leaves_are_for_unread_clips()
    ensures { LeavesAreForUnreadClips }
{}

/// An order releases a clip only once each save that was taken in and reads it, as its clip or as one of an event, has
/// ended, and only the clip of its id that it means.
pub fn orders_spare_read_clips()
    ensures { OrdersSpareReadClips }
{}

/// Saves release a clip only where the text of one that began by itself is there, and clips of its camera are released
/// then.
pub fn releases_are_earned()
    ensures { ReleasesAreEarned }
{}

/// What is released since it is saved is the very clip that was saved, and not one of another store, with the same id
/// and the same number. Each save that reads its id or its tag has ended then.
pub fn saved_clips_are_released()
    ensures { SavedClipsAreReleased }
{}

/// A save that is withdrawn once it was told to wait takes no place.
pub fn withdrawn_saves_leave_nothing()
    ensures { WithdrawnSavesLeaveNothing }
{}

/// A save that is tried again is told as such once, however often it fails.
pub fn saves_wait_once()
    ensures { SavesWaitOnce }
{}

/// A save that failed is tried again only once its time has come.
pub fn retries_are_due()
    ensures { RetriesAreDue }
{}

/// At most 256 orders of a camera wait, and each one that was taken in waits or was handed out.
pub fn orders_are_handed_out()
    ensures { OrdersAreHandedOut }
{}

/// Each line says what was so when it was seen.
pub fn lines_are_so()
    ensures { LinesAreSo }
{}

/// Each lost frame is told once: by the end all are, and none twice.
pub fn lost_are_told_once()
    ensures { LostAreToldOnce }
{}

/// How fast a disk is, is told once: at the first look at which it is measured.
pub fn disks_are_told_once()
    ensures { DisksAreToldOnce }
{}

/// After 'all locked' comes 'room again', and the other way round.
pub fn locked_lines_alternate()
    ensures { LockedLinesAlternate }
{}

/// Once the program ends, it ends for each camera, whatever happens.
pub fn stops_are_for_good()
    ensures { StopsAreForGood }
{}

/// A filming isn't over before something breaks, or its store is moved away.
pub fn filmings_go_on()
    ensures { FilmingsGoOn }
{}

/// A filming whose store was moved away ends, even where each block is locked.
pub fn moved_stores_are_left()
    ensures { MovedStoresAreLeft }
{}

/// A source that is told as silent waits for a byte.
pub fn silent_sources_wait()
    ensures { SilentSourcesWait }
{}

/// An order is answered once: when the last of the cameras that it means answers.
pub fn orders_are_answered_once()
    ensures { OrdersAreAnsweredOnce }
{}

/// An answer of a camera that is told before those of the others counts as one further on, and no other is changed.
pub fn early_answers_count()
    ensures { EarlyAnswersCount }
{}

/// The lines of a camera are told in the order of what was done, each once, however long its file of events takes.
pub fn lines_are_in_order()
    ensures { LinesAreInOrder }
{}

/// A line is told at once exactly where nothing waits and it needs no file of events. It has room where orders are done.
pub fn lines_are_taken_in()
    ensures { LinesAreTakenIn }
{}

/// A keep whose end has passed is done at the first look at which each frame that had come by then is at the desk or
/// lost.
pub fn keeps_end()
    ensures { KeepsEnd }
{}

/// A keep isn't done before each frame that had come by its end is at the desk or lost, unless each block is locked, or
/// no frame has made progress for a minute.
pub fn keeps_have_all()
    ensures { KeepsHaveAll }
{}

/// A part of an event is released exactly where no save reads it, and each of its frames is in the longer clip.
pub fn covered_parts_are_within()
    ensures { CoveredPartsAreWithin }
{}

/// No save waits while a place is free, unless the program ends.
pub fn saves_wait_for_places()
    ensures { SavesWaitForPlaces }
{}

/// `keep CAMERA N +M` asks for exactly the times from N seconds before its line was read to M seconds after.
pub fn keeps_cover_their_seconds()
    ensures { KeepsCoverTheirSeconds }
{}

/// What a keep doesn't say is as its camera has it.
pub fn keeps_take_the_cameras_seconds()
    ensures { KeepsTakeTheCamerasSeconds }
{}

/// `keep CAMERA from T to T` asks for exactly the times from the one to the other, both included.
pub fn keeps_cover_both_ends()
    ensures { KeepsCoverBothEnds }
{}

/// No two clips of a camera have one id.
pub fn clips_have_their_own_ids()
    ensures { ClipsHaveTheirOwnIds }
{}

/// The clips of a first store have the ids of their file.
pub fn ids_are_those_of_the_file()
    ensures { IdsAreThoseOfTheFile }
{}

/// As many keeps of a length as are told to fit into a store do, wherever in a block each begins.
pub fn keeps_have_room()
    ensures { KeepsHaveRoom }
{}

/// A store holds no more frames than came and than have room, and all of them while they fit into all segments but one.
pub fn stores_hold_what_came()
    ensures { StoresHoldWhatCame }
{}

/// A camera has nothing to do exactly once each order that it took in was handed out, and none is being done.
pub fn idle_cameras_are_done()
    ensures { IdleCamerasAreDone }
{}

/// A cancel takes a save of the clip that it means out of those to be tried again, and none else.
pub fn cancels_mean_their_clip()
    ensures { CancelsMeanTheirClip }
{}

/// A clip is saved by itself a second time only once the first such save has ended, or was cancelled.
pub fn clips_are_saved_once()
    ensures { ClipsAreSavedOnce }
{}

/// A camera ends once the program does, whatever happened before, and never while it goes on.
pub fn cameras_end_with_the_program()
    ensures { CamerasEndWithTheProgram }
{}

/// While the program goes on, a filming that ends is followed by one: in a store made anew where its own was moved
/// away.
pub fn ended_filmings_go_on()
    ensures { EndedFilmingsGoOn }
{}

/// Where each block is locked a flush is tried again, exactly as long as the filming and the program go on.
pub fn locked_filmings_wait()
    ensures { LockedFilmingsWait }
{}

/// Frames that the store can have are taken; others are refused, and told as such once.
pub fn offers_are_answered()
    ensures { OffersAreAnswered }
{}

/// A source is seen as silent exactly from two seconds and three of its frames on, and no longer once a byte comes.
pub fn silence_is_seen()
    ensures { SilenceIsSeen }
{}

/// The frames that a tally counts are all that came, wherever they are.
pub fn tallies_add_up()
    ensures { TalliesAddUp }
{}

/// No frame is lost but one that is given up; what is stored, lost or brought stays so.
pub fn lost_frames_were_given_up()
    ensures { LostFramesWereGivenUp }
{}

/// A keep waits only for frames that had come before its line, or for a block after the one that it has locked.
pub fn keeps_lock_each_block()
    ensures { KeepsLockEachBlock }
{}

/// Where each gap counts, what is held of a time and what is missing are all of it.
pub fn times_add_up()
    ensures { TimesAddUp }
{}

/// Once the time of a save that failed has come, it is tried again, or another one is, and each no more than once.
pub fn due_retries_are_taken()
    ensures { DueRetriesAreTaken }
{}

/// The end of a save is told as what it is, or it is tried again a minute later.
pub fn ends_are_told()
    ensures { EndsAreTold }
{}

/// A save that is tried again is told as such.
pub fn retries_are_told()
    ensures { RetriesAreTold }
{}

/// What saves are known by leaves nothing of them out.
pub fn places_tell_all()
    ensures { PlacesTellAll }
{}

/// Each save that was taken in runs, waits or has ended.
pub fn saves_add_up()
    ensures { SavesAddUp }
{}

/// An order releases the clip that it means, once each save that was taken in and reads it has ended.
pub fn orders_release_unread_clips()
    ensures { OrdersReleaseUnreadClips }
{}

/// A frame has the time that its source says, or else that at which it came, wherever this is later than the last one.
pub fn times_are_the_sources()
    ensures { TimesAreTheSources }
{}

/// A gap is told only where it is long; and a long one is told, unless one was within a second.
pub fn long_gaps_are_told()
    ensures { LongGapsAreTold }
{}

/// Whoever reads the lines about a camera knows whether its store is there, and how far its disk is behind.
pub fn lines_tell_all()
    ensures { LinesTellAll }
{}

/// At the first look all that is so is told, but for what may still come.
pub fn first_looks_tell_all()
    ensures { FirstLooksTellAll }
{}

/// Whoever reads the lines about locked blocks knows whether each was locked at the last look.
pub fn locked_lines_tell_all()
    ensures { LockedLinesTellAll }
{}

/// A clip is released once the text of a save that began by itself is there, where clips of its camera are released
/// then: as soon as no other save of it runs or waits, unless the program ends.
pub fn earned_clips_are_released()
    ensures { EarnedClipsAreReleased }
{}

/// While the program goes on, a store that isn't there is opened again, or made anew once where it was moved away.
pub fn stores_are_opened_again()
    ensures { StoresAreOpenedAgain }
{}

/// Each block is known to be locked from a refused flush on until a frame is stored, or another filming begins.
pub fn locked_blocks_are_known()
    ensures { LockedBlocksAreKnown }
{}

/// A source is seen as what it was found to be, and as missing once it has ended.
pub fn sources_are_seen()
    ensures { SourcesAreSeen }
{}

/// Once something breaks, or its store is moved away, a filming is over, whatever happens, until another one begins.
pub fn broken_filmings_end()
    ensures { BrokenFilmingsEnd }
{}

/// The very clip that was saved is released where each save that reads it has ended.
pub fn unread_saved_clips_are_released()
    ensures { UnreadSavedClipsAreReleased }
{}

/// Where a camera is looked at again, and nothing has changed, nothing is told.
pub fn nothing_is_told_twice()
    ensures { NothingIsToldTwice }
{}

/// A search passes no stretch in which it sees a gap, and is over only at its end.
pub fn searches_look_at_all()
    ensures { SearchesLookAtAll }
{}

/// A text whose bytes, name and folder came to the disk is told to be saved; a new name that fails is taken away.
pub fn texts_are_saved()
    ensures { TextsAreSaved }
{}

/// A disk that takes fewer frames than come is told as too slow, and no other one.
pub fn slow_disks_are_told()
    ensures { SlowDisksAreTold }
{}

/// A wait for memory is told once it has lasted for a second, or is over after a tenth of one.
pub fn long_waits_are_told()
    ensures { LongWaitsAreTold }
{}

/// An order is taken in exactly where somebody does orders, or is still to come, and fewer than 256 wait.
pub fn orders_are_taken_in()
    ensures { OrdersAreTakenIn }
{}

/// A save that begins by itself is taken in, and each one where a place is free, as long as the program goes on.
pub fn saves_are_taken_in()
    ensures { SavesAreTakenIn }
{}

/// A cancel takes a save of the clip of its id, if one runs or waits.
pub fn cancels_find_their_save()
    ensures { CancelsFindTheirSave }
{}

/// That a time goes back, or is missing, is told the first time, and not again.
pub fn odd_times_are_told_once()
    ensures { OddTimesAreToldOnce }
{}

/// A keep whose end has passed, or at a stop, is done once its frames are there, each block is locked, or nothing
/// moves.
pub fn stuck_keeps_end()
    ensures { StuckKeepsEnd }
{}

/// A keep sees when a frame makes progress, and takes nothing else for that.
pub fn progress_is_seen()
    ensures { ProgressIsSeen }
{}

/// A keep locks a part only once for each block.
pub fn keeps_lock_once()
    ensures { KeepsLockOnce }
{}

/// A gap is where frames are lost, or where more than one and a half of a frame's time passes, and nowhere else.
pub fn long_gaps_are_long()
    ensures { LongGapsAreLong }
{}

/// As many frames are estimated to be lost as the time has too many periods for, and none elsewhere.
pub fn estimates_are_right()
    ensures { EstimatesAreRight }
{}

/// Each frame that is lost between two runs is in one of the gaps that are told.
pub fn lost_are_in_gaps()
    ensures { LostAreInGaps }
{}

/// A clip is read exactly by the saves of its camera that are of its id, or that read each clip with its tag.
pub fn readers_are_so()
    ensures { ReadersAreSo }
{}

/// A save releases its clip exactly where it began by itself, its text is there, and its camera releases clips then.
pub fn saves_earn_their_clip()
    ensures { SavesEarnTheirClip }
{}

/// A cancel is of the clip of its camera and id, and finds each save once.
pub fn cancelled_saves_are_theirs()
    ensures { CancelledSavesAreTheirs }
{}

/// Once the program ends each save ends, one after the other, and none is left when none is told.
pub fn stops_end_saves()
    ensures { StopsEndSaves }
{}

/// The save that begins in a free place is told, and runs there.
pub fn begun_saves_are_told()
    ensures { BegunSavesAreTold }
{}

/// An order that may not release a clip is told why: a save reads it, or another one has its id.
pub fn refused_releases_are_so()
    ensures { RefusedReleasesAreSo }
{}

/// Lost frames are told as soon as they are seen, but no more than once a second, unless the program ends.
pub fn lost_frames_are_told_soon()
    ensures { LostFramesAreToldSoon }
{}

/// What a clock shows at the moment by which it was measured is what it said.
pub fn clocks_are_read()
    ensures { ClocksAreRead }
{}

/// A time within a minute of what a source's clock shows, as measured, is the frame's time.
pub fn right_times_stay()
    ensures { RightTimesStay }
{}

/// One that is further off is none, and is told once, unless another clock was heard.
pub fn wrong_times_are_none()
    ensures { WrongTimesAreNone }
{}

/// A clock steps once eight frames in a row over two seconds show it, and not before.
pub fn steps_are_heard()
    ensures { StepsAreHeard }
{}

/// That a clock's measure has moved is told, a minute after the one before or later.
pub fn moved_clocks_are_told()
    ensures { MovedClocksAreTold }
{}

/// A clock's measure lies among what it is measured by.
pub fn medians_lie_among()
    ensures { MediansLieAmong }
{}

/// Of stores whose newest frames are in order, the one that is chosen is ahead of each.
pub fn newest_is_ahead()
    ensures { NewestIsAhead }
{}

/// The newest frames of stores are in order wherever one is less than half of all sequences ahead of each.
pub fn ordered_are_counted()
    ensures { OrderedAreCounted }
{}

/// Of others the one that came last is chosen.
pub fn others_are_timed()
    ensures { OthersAreTimed }
{}

/// Where every block is locked, of the clips that the configuration lets go the oldest one goes.
pub fn oldest_clips_go()
    ensures { OldestClipsGo }
{}

/// No other clip goes: none that a save reads, none that wasn't saved whole where that is asked for, and none with
/// another tag.
pub fn allowed_clips_go()
    ensures { AllowedClipsGo }
{}

/// A configuration that is refused ends no camera, and begins none.
pub fn refused_reloads_change_nothing()
    ensures { RefusedReloadsChangeNothing }
{}

/// After any other, cameras record by its words, and those whose words are the same weren't touched.
pub fn reloads_are_followed()
    ensures { ReloadsAreFollowed }
{}
