//! The meaning of a status that isn't `OK`.

ghost use Rattle.mp4_frame.specs.Reading.{Reading, Refuses};
ghost use Rattle.mp4_frame.specs.declared.error.Error.{Error};
ghost use Rattle.mp4_c_boxes.specs.Status.{status_of};
ghost use Rattle.mp4_c_boxes.specs.ShowsFault.{ShowsFault};

/// Proves that the status of an error that a reading permits identifies the first fault, or shows that the reading asks
/// for memory before it. The status is that of one of four errors, and so neither `OK` nor `NO_ROOM`.
#[tactic(auto, using(crate::proofs::Statuses::shows_fault))]
pub fn status_shows_fault<T>()
    ensures { (r : Reading T) (e : Error) → Refuses e r → ShowsFault (status_of e) r }
{}
