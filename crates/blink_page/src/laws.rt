//! Laws of the definitions. Each stands on a function that does nothing.
ghost use Rattle.blink_page.specs.Laws.{PostingsCommute};

/// States that postings leave the same entries in whatever order they reach a page, also in another order than that of their
/// splits.
pub fn postings_commute()
    ensures { PostingsCommute }
{}
