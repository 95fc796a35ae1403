//! Laws of the register: functions with nothing to do, whose contracts say what holds of any register. A new register
//! is sound and stays so, one frame is sent in a cell, a release freezes, an import acts once, each supplier is answered
//! as if alone, and the same requests come to one end.
ghost use Rattle.fr_base.specs.Laws.{BadVariantIsBadName, DifferencesDiffer, DifferencesTurn, EqualViews, FirstTakenIsOwn, HolderSends, ImportActsOnce, ImportIsKept, ImportIsTold, KeyIsChanged, KnownStaysKnown, LabelStaysUsed, LoadAddsUp, NothingDiffersFromItself, OneDependence, OneFrameInACell, OpenedDiffersNowhere, OpeningIsAlone, OpeningIsSound, OtherStepLeavesRows, OwnStepIsAlone, RefusedChangesNothing, ReleaseFreezes, ReleasedAnswersStay, ReleasedDifferencesStay, ReplacementIsTold, RestIsAlike, RoomFits, RoomIsAlone, RoomIsPlace, RoomIsRefused, RunIsAlone, RunIsSoundThroughout, RunKeepsSound, ScheduleIsOwn, SignalsLieApart, StepKeepsSound, StepsAreARun, TrialChangesNothing};
ghost use Rattle.fr_base.specs.DifferenceLaws.{NothingIsGoneAndNew, ToldIsWhatDiffers};
ghost use Rattle.fr_base.specs.ExportParts.{AllRecordsAreTold, ExportHasParts, ExportIsTold, FewRecordsAreTold};
ghost use Rattle.fr_base.specs.ReplacingLaws.{ReplacedLeavesTheRest};
ghost use Rattle.fr_base.specs.RoomLaws.{RefusedRoomRefuses, RoomIsTold, ToldRoomFits, ToldRoomIsInOrder, ToldRoomIsPlace};
ghost use Rattle.fr_base.specs.ReplacedLaws.{ReplacedIsFiled, SameFileChangesNothing};
ghost use Rattle.fr_base.specs.WholeLaws.{TakenIsSent, WholeExportChangesNothing, WholeIsFiled};
ghost use Rattle.fr_base.specs.ExportedLaws.{ExportIsImported, OwnExportChangesNothing};

mod edits;
mod fates;
mod keys;
mod loads;
mod openings;
mod proposals;
mod queries;
mod rooms;
mod runs;

pub use edits::{differences_are_in_order, new_is_old_edited, seen_rows_are_in_order};
pub use fates::{
    each_fate_is_its_rows, lines_are_in_turn, one_too_many_is_limit, refused_rows_leave_nothing,
    trial_is_told,
};
pub use keys::{key_stays, set_key_changes_one_key, set_key_is_done};
pub use loads::{load_counts_the_schedule, load_shows_each_lane, load_shows_own_lanes};
pub use openings::{flat_is_first, opened_is_alike};
pub use proposals::{
    all_are_given_where_all_fit, no_room_is_certain, nothing_moves_that_need_not,
    proposal_is_imported, proposal_is_told, rows_are_their_wishes,
};
pub use queries::{
    difference_is_of_rows, difference_is_told, inventory_is_told, load_is_told,
    query_changes_nothing, rows_are_told,
};
pub use rooms::{no_room_where_released, refused_room_refuses_each};
pub use runs::{available_run_is_steps, runs_are_one};

/// The book of a new register is sound.
pub fn opening_is_sound()
    ensures { OpeningIsSound }
{}

/// A request leaves a sound book sound, whoever asks it and whatever the answer is.
pub fn step_keeps_sound()
    ensures { StepKeepsSound }
{}

/// Any requests, one after another, leave a sound book sound.
pub fn run_keeps_sound()
    ensures { RunKeepsSound }
{}

/// Each front of requests leaves a sound book sound: it is sound at every point.
pub fn run_is_sound_throughout()
    ensures { RunIsSoundThroughout }
{}

/// In a sound book at most one frame is sent in a cycle, slot and channel of a variant.
pub fn one_frame_in_a_cell()
    ensures { OneFrameInACell }
{}

/// In a sound book a frame is sent by the supplier's node that holds the grant of slot and channel.
pub fn holder_sends()
    ensures { HolderSends }
{}

/// In a sound book all bits of a frame's signals lie in its payload, and no two of them share a bit or a
/// name.
pub fn signals_lie_apart()
    ensures { SignalsLieApart }
{}

/// Who is known stays known, whatever is asked.
pub fn known_stays_known()
    ensures { KnownStaysKnown }
{}

/// Once a supplier of a sound register has another key, the new key is the supplier's and the old
/// one is nobody's. Every other key stays whose it was.
pub fn key_is_changed()
    ensures { KeyIsChanged }
{}

/// A released variant stays as it is, whatever is asked.
pub fn release_freezes()
    ensures { ReleaseFreezes }
{}

/// Once an actor is known, each query of a released variant that `check` accepts from this actor has the same answer ever
/// after, unless that answer is `Unavailable`.
pub fn released_answers_stay()
    ensures { ReleasedAnswersStay }
{}

/// An import that a sound register carried out has its answer again and changes nothing, ever
/// after, where it comes again with the same label, variant and file.
pub fn import_acts_once()
    ensures { ImportActsOnce }
{}

/// An import that was carried out is kept, as it was sent.
pub fn import_is_kept()
    ensures { ImportIsKept }
{}

/// An import under a kept label with another file, or the name of another variant, is `LabelUsed`.
pub fn label_stays_used()
    ensures { LabelStaysUsed }
{}

/// An import under a kept label with what is no variant's name is `BadName`.
pub fn bad_variant_is_bad_name()
    ensures { BadVariantIsBadName }
{}

/// A replacement that was carried out changes no more than the frames that its file names: all else is as before. A whole
/// one clears the supplier's other frames.
pub fn replaced_leaves_the_rest()
    ensures { ReplacedLeavesTheRest }
{}

/// After a replacement each frame that its file names has exactly what the file's rows say of it.
pub fn replaced_is_filed()
    ensures { ReplacedIsFiled }
{}

/// The file of a replacement, sent again, is answered the same and changes nothing.
pub fn same_file_changes_nothing()
    ensures { SameFileChangesNothing }
{}

/// After a whole replacement the supplier's frames are exactly what its file says, below each header.
pub fn whole_is_filed()
    ensures { WholeIsFiled }
{}

/// After a whole replacement in a sound book, what is taken is what was sent: the export of its kind has the rows of its file
/// and no others, each once.
pub fn taken_is_sent()
    ensures { TakenIsSent }
{}

/// In a sound book part 0 of an open variant's own export, where it has all records, sent there as a whole replacement,
/// changes nothing.
pub fn whole_export_changes_nothing()
    ensures { WholeExportChangesNothing }
{}

/// In a sound book a part of an open variant's own export, sent there as a replacement, changes nothing.
pub fn own_export_changes_nothing()
    ensures { OwnExportChangesNothing }
{}

/// A supplier exports its frames of a variant of a sound book, and imports all parts into an open variant of another sound
/// book. The two books have the same parameters. In the second variant the supplier has the same nodes and grants, and no
/// frames. The parts of frames come first, then those of placements, then those of signals, each under a label that is
/// free. Then each import is done, and the supplier has the same frames in both variants.
pub fn export_is_imported()
    ensures { ExportIsImported }
{}

/// A refusal changes nothing, that of an import's row too.
pub fn refused_changes_nothing()
    ensures { RefusedChangesNothing }
{}

/// A trial changes nothing.
pub fn trial_changes_nothing()
    ensures { TrialChangesNothing }
{}

/// An import under a label that is not kept, where one more may be kept, is answered as its trial
/// tells. It is answered with so many rows exactly where each row is done, and else with the first
/// row that is not.
pub fn import_is_told()
    ensures { ImportIsTold }
{}

/// A replacement is answered as its trial tells.
pub fn replacement_is_told()
    ensures { ReplacementIsTold }
{}

/// In a sound book, where one of a supplier's nodes holds a placement's slot on each of its channels,
/// the first of its cells that is filled is filled by the supplier's own frame.
pub fn first_taken_is_own()
    ensures { FirstTakenIsOwn }
{}

/// In a sound book a supplier's schedule has in each cell what the schedule of all suppliers has
/// there of this supplier.
pub fn schedule_is_own()
    ensures { ScheduleIsOwn }
{}

/// In a sound book a request that is the supplier's is answered as by the register that holds this
/// supplier alone. It does the same to the supplier's rows.
pub fn own_step_is_alone()
    ensures { OwnStepIsAlone }
{}

/// A request that is not a supplier's leaves the supplier's rows as they were.
pub fn other_step_leaves_rows()
    ensures { OtherStepLeavesRows }
{}

/// A new register's rows of one supplier are a new register of that supplier alone.
pub fn opening_is_alone()
    ensures { OpeningIsAlone }
{}

/// One step after another is a run.
pub fn steps_are_a_run()
    ensures { StepsAreARun }
{}

/// Whatever is asked of a sound register, each supplier has the answers and the rows that it would
/// have in a register of its own, which is asked only what is the supplier's.
pub fn run_is_alone()
    ensures { RunIsAlone }
{}

/// Two sound registers under one cluster file give a supplier the same answers, and stay alike in
/// its rows, if they are alike in its rows and are asked alike what is the supplier's.
pub fn equal_views()
    ensures { EqualViews }
{}

/// An integrator's command that is common or names a supplier is answered as alone, with three
/// exceptions. A Grant that is done alone is `Taken` exactly where another supplier holds slot and
/// channel. An AddSupplier that is done alone is `KeyTaken` exactly where another supplier has the
/// key, else `Limit` exactly where 64 suppliers are there. A SetKey that is done alone is
/// `KeyTaken` exactly where another supplier has the key.
pub fn one_dependence()
    ensures { OneDependence }
{}

/// In a sound book the room for a supplier's frame is the same as in the register that holds this
/// supplier alone.
pub fn room_is_alone()
    ensures { RoomIsAlone }
{}

/// A Place that `check` accepts, from a supplier that is known, is answered Done exactly where
/// there is room for the placement.
pub fn room_is_place()
    ensures { RoomIsPlace }
{}

/// Where the room for a frame is refused, and not by `Limit`, each Place of the frame is refused
/// the same.
pub fn room_is_refused()
    ensures { RoomIsRefused }
{}

/// In a sound book, where the repetition divides the count of cycles, the room for a frame has
/// placements of the cluster with that repetition alone.
pub fn room_fits()
    ensures { RoomFits }
{}

/// In a sound book a supplier that is known is told the room that is there among the rows of all.
pub fn room_is_told()
    ensures { RoomIsTold }
{}

/// In a sound book, for each placement of the cluster, a supplier's Place is answered Done exactly
/// where the room that it is told has the placement.
pub fn told_room_is_place()
    ensures { ToldRoomIsPlace }
{}

/// In a sound book each placement that a supplier is told there is room for is one of the cluster, with the repetition that
/// the supplier asked for.
pub fn told_room_fits()
    ensures { ToldRoomFits }
{}

/// In a sound book the placements that a supplier is told there is room for are in order, by slot, channels and base, and
/// none of them stands twice.
pub fn told_room_is_in_order()
    ensures { ToldRoomIsInOrder }
{}

/// In a sound book, where a supplier asks for the room for a frame and is refused, each Place of this frame is refused too,
/// whichever placement of the cluster with this repetition it names. The refusal is the same, unless it was `Limit`.
pub fn refused_room_refuses()
    ensures { RefusedRoomRefuses }
{}

/// In a sound book the used cycles of a load add up to the rows of the schedule that the same actor sees.
pub fn load_adds_up()
    ensures { LoadAddsUp }
{}

/// The rows that are told to be gone are those that the older variant alone has. The rows that are
/// told to be new are those that the newer variant alone has.
pub fn differences_differ()
    ensures { DifferencesDiffer }
{}

/// A row is told to be gone exactly where the actor sees it of the older variant alone. A row is
/// told to be new exactly where the actor sees it of the newer variant alone.
pub fn told_is_what_differs()
    ensures { ToldIsWhatDiffers }
{}

/// No row is told to be gone and to be new.
pub fn nothing_is_gone_and_new()
    ensures { NothingIsGoneAndNew }
{}

/// Without the gone and the new rows the two variants have the same rows, in the same order.
pub fn rest_is_alike()
    ensures { RestIsAlike }
{}

/// Where the two variants change places, the gone rows are new and the new rows are gone.
pub fn differences_turn()
    ensures { DifferencesTurn }
{}

/// A variant does not differ from itself.
pub fn nothing_differs_from_itself()
    ensures { NothingDiffersFromItself }
{}

/// A variant that was just opened does not differ from its parent.
pub fn opened_differs_nowhere()
    ensures { OpenedDiffersNowhere }
{}

/// The difference of two released variants stays the same for an actor, once the actor is known.
pub fn released_differences_stay()
    ensures { ReleasedDifferencesStay }
{}

/// In a sound book each part of an export takes whole frames from where the part before ended, as
/// many as give at most 512 records. Together the parts have each record once. Behind the last part
/// there is nothing.
pub fn export_has_parts()
    ensures { ExportHasParts }
{}

/// An actor that is known is told the part that it asks for, of the frames that it sees.
pub fn export_is_told()
    ensures { ExportIsTold }
{}

/// A part tells at most 512 records, whoever asks.
pub fn few_records_are_told()
    ensures { FewRecordsAreTold }
{}

/// In a sound book an actor that is known is told, part by part, each record of the frames that it
/// sees, once.
pub fn all_records_are_told()
    ensures { AllRecordsAreTold }
{}
