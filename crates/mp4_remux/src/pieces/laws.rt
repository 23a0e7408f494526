//! What follows from the definitions. The bodies are empty, since the contracts are only about the definitions.

ghost use Rattle.mp4_remux.specs.PieceLaws.{CarriedBytesAreKept, CarriedBytesAreOld};

/// Bytes of a new file that come from a position of the old one are the same bytes, and are in the old file.
pub fn carried_bytes_are_kept()
    ensures same { CarriedBytesAreKept }
    ensures within { CarriedBytesAreOld }
{}
