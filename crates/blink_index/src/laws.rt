//! Laws of the definitions. Each stands on a function that does nothing.
ghost use Rattle.blink_entries.specs.{MapIsKept, NoOtherMapIsKept, TextIsOfLevels};

/// States that the plain map which contracts see of an index is that of its tree.
pub fn the_map_is_kept()
    ensures { MapIsKept }
{}

/// States that the tree has no other map.
pub fn no_other_map_is_kept()
    ensures { NoOtherMapIsKept }
{}

/// States that the text of an index is that of the levels of its tree, which are one list.
pub fn the_text_is_of_the_levels()
    ensures { TextIsOfLevels }
{}
