//! Laws that follow from the definitions of edit lists. The bodies are empty, since the contracts are only about the
//! definitions.

ghost use Rattle.mp4_samples.specs.EditLaws.{EditsDoNotOverlap, EditsLeaveNoGap, MediaTimeIsUnique, PresentedIsShown};
ghost use Rattle.mp4_samples.specs.EditLaws.{ShownIsPresented, NoEditListIsIdentity, EditFaultRefutes};

/// Proves that edits follow one another on the timeline of the presentation: no two overlap, and there is no gap.
#[tactic(auto, using(crate::proofs::EditTimes::one_edit, crate::proofs::EditOrder::no_gap))]
pub fn edits_follow()
    ensures apart { EditsDoNotOverlap }
    ensures close { EditsLeaveNoGap }
{}

/// Proves that at most one time of the media is shown at a time of the presentation.
#[tactic(auto, using(crate::proofs::EditOrder::one_time))]
pub fn media_time_is_unique()
    ensures { MediaTimeIsUnique }
{}

/// Proves that a time of the media is shown when it is presented, and presented when it is shown. The second holds
/// except in a dwell, which shows one time for as long as it lasts.
#[tactic(auto, using(crate::proofs::EditOrder::presented_is_shown, crate::proofs::EditOrder::shown_is_presented))]
pub fn presentation_and_reverse_agree()
    ensures shown { PresentedIsShown }
    ensures presented { ShownIsPresented }
{}

/// Proves that without an edit list each time of the media is presented at the same time.
pub fn no_edit_list_is_the_identity()
    ensures { NoEditListIsIdentity }
{}

/// Proves that an edit list with a fault cannot be used.
#[tactic(auto, using(crate::proofs::EditOrder::fault_refutes))]
pub fn edit_fault_refutes()
    ensures { EditFaultRefutes }
{}
