// Which range of keys begins with a prefix.
ghost use Rattle.corwaphi.specs.Prefix.{PrefixLaw};

/// A key begins with a prefix just where it is in the range from the prefix to the end of its keys.
pub fn prefixes_are_ranges()
    ensures { PrefixLaw }
{}
