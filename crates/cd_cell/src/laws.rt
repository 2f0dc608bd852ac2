//! Laws of closed cells, each on the contract of a function that does nothing.
ghost use Rattle.cd_cell.specs.Closed.{Saturation};
ghost use Rattle.cd_cell.specs.ClosedCells.{CellExactness};
ghost use Rattle.cd_cell.specs.Counts.{CellCounts};
ghost use Rattle.cd_cell.specs.TrueAnswers.{SameReadings};

/// Where the contexts of some keys are closed and each note that one of them owes is had, every conclusion of every rule from their live
/// clauses is redundant in its context, and the key of each eligible existential has a context.
pub fn closed_is_saturated()
    ensures { Saturation }
{}

/// In whole cells where each note that one of them owes is had, the context of each atom is exact: it has the empty clause exactly where
/// the atom has no element in any finite model of the normal axioms, and else each element of it is in the atoms whose own clause is live, and
/// in chosen ones alone. The context of an atom and of negated ones tells whether each element of the one is in some of the others.
pub fn cells_are_exact()
    ensures { CellExactness }
{}

/// No readings against each other, for every order of delivery and every number of cells: of any two lists of whole cells where each note
/// that is owed is had, the contexts of a class agree.
pub fn same_readings()
    ensures { SameReadings }
{}

/// The counts of whole cells are no more than they have contexts of distinct keys, and facts in these.
pub fn counts_are_had()
    ensures { CellCounts }
{}
