//! Laws on the sources of patterns and on when a pattern fits: functions that do nothing, each with
//! a law as its contract.
ghost use Rattle.lq_value_pattern.specs.Laws.{FaultsAreFound, FitsAreSplits, SourcesAreRead, SourcesAreWalked};

/// A text is the source of exactly the elements that it writes, so of at most one list of elements.
pub fn sources_are_read()
    ensures { SourcesAreRead }
{}

/// A text has a fault exactly where the elements before it end and no element is written.
///
/// So it has at most one fault, and a source has none.
pub fn faults_are_found()
    ensures { FaultsAreFound }
{}

/// The elements of a source are its first element and then the elements of the source after it.
///
/// The items of a set are its first item and then the items after it. The rest is shorter than the
/// whole.
pub fn sources_are_walked()
    ensures { SourcesAreWalked }
{}

/// A pattern fits a text exactly where some split of the text has each part fit its element.
pub fn fits_are_splits()
    ensures { FitsAreSplits }
{}
