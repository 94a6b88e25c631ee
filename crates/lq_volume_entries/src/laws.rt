//! Laws of records and of attributes: each is the contract of a function with no body.
ghost use Rattle.lq_volume_entries.specs.AttributeLaws.{NamesStayApart, ValuesAreFound};
ghost use Rattle.lq_volume_entries.specs.Laws.{RecordsAreKept};

/// What edits of the records keep: nodes that rise, and what is found under a node and at a place.
pub fn records_are_kept()
    ensures { RecordsAreKept }
{}

/// Where no two attributes have the same name, none have after one is set or removed.
pub fn names_stay_apart()
    ensures { NamesStayApart }
{}

/// An attribute has the value that was set last, none after it is removed, and each other one the
/// value that it had.
pub fn values_are_found()
    ensures { ValuesAreFound }
{}
