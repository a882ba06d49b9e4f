//! Laws of the definitions.

ghost use Rattle.ix_path.specs.Entered.{EntersAlong, EntersThePath, EntersAllBelow, EntersItsEnd, KeepsWhatEnters};
ghost use Rattle.ix_path.specs.Segments.{EntersOneOf};

/// States which places the selector along a path enters, link or no link between: each place on
/// the path before its end, and from the end on what the selector there enters, and no other. So
/// with a matcher at the end these are the places on the path, and with everything there also each
/// place below the end. A key of a map isn't an index of a list, whatever its text.
///
/// The end of the path is always entered: the matcher is there in place of a selector that enters
/// no place at all, and any other is there as it was given.
pub fn along_a_path()
    ensures along { EntersAlong }
    ensures alone { EntersThePath }
    ensures below { EntersAllBelow }
    ensures end { EntersItsEnd }
    ensures kept { KeepsWhatEnters }
{}

/// States which places the selector along segments enters that aren't resolved: exactly those that the
/// selector along one of the paths enters that the segments may be, in which each is a key, or where it is a
/// number an index.
pub fn along_segments()
    ensures { EntersOneOf }
{}
