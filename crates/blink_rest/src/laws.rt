//! Laws of the definitions. Each stands on a function that does nothing.
ghost use Rattle.blink_rest.specs.Laws.{EntriesAscend, EntriesAreOneList, EntriesExistAtRest, SearchEndsAtLeaf, EachKeyIsReached, EachPageRefersBelow, EachRightLinkLeads, LevelsAreFew, ExampleIsAtRest};

/// States that the keys of a tree stand in its leaves in ascending order, none twice.
pub fn entries_ascend()
    ensures { EntriesAscend }
{}

/// States that the pages of a tree determine its entries, whatever operations are under way.
pub fn entries_are_one_list()
    ensures { EntriesAreOneList }
{}

/// States that a tree at rest has entries, since its leaves are one chain.
pub fn entries_exist_at_rest()
    ensures { EntriesExistAtRest }
{}

/// States that a search in a tree at rest ends at the leaf that its key belongs to, and at no other.
pub fn search_ends_at_leaf()
    ensures { SearchEndsAtLeaf }
{}

/// States that a search in a tree at rest finds the entries of the tree.
pub fn each_key_is_reached()
    ensures { EachKeyIsReached }
{}

/// States that a child's number leads to a page of the level just below, with the floor that the page above gives.
pub fn each_page_refers_below()
    ensures { EachPageRefersBelow }
{}

/// States that a right link leads to a page of the same level, which begins where this one ends.
pub fn each_right_link_leads()
    ensures { EachRightLinkLeads }
{}

/// States that a prime block has room for one more level. Each level has at least twice as many pages as the one above, so a
/// store has too few page numbers for more levels.
pub fn levels_are_few()
    ensures { LevelsAreFew }
{}

/// States that a tree of three pages is at rest, so the definition can be met by a tree of more than one leaf.
pub fn the_example_is_at_rest()
    ensures { ExampleIsAtRest }
{}
