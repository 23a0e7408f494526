//! Shapes whose values come back, and entries of lists.

ghost use Rattle.mp4_read_back.specs.ComesBack.{ComesBack as PartComesBack, EntryComesBack as EntryPartComesBack};
ghost use Rattle.mp4_read_back.specs.ComesBack.{EntryPart, Part};

/// A shape whose values come back: what is shown of a value under some names is printed, and the value is taken out of
/// the members again.
pub trait ComesBack {
    /// The type of the names, as a clause sees them in a constant.
    ghost Names: { Type 0 };

    /// The type of the values.
    ghost Value: { Type 0 };

    /// The events of a value, what is taken of it, and the members between them.
    ghost part: { Part Names Value };

    /// A value that fits comes back.
    ghost comes: { PartComesBack part };
}

/// An entry of a list that comes back.
pub trait EntryComesBack {
    /// The events of an entry, what is taken of it, and the value between them.
    ghost part: { EntryPart (Unit {0}) Self };

    /// An entry that fits comes back.
    ghost comes: { EntryPartComesBack part };
}
