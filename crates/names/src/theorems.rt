// What the definitions of names and lists come to.
ghost use Rattle.names.specs.Lists.{ListsExact, NumbersAre};

// A text is a name list exactly if it is the text of the names that a list may hold, and names and numbers go both ways.
pub fn names_stand()
    ensures exact { ListsExact }
    ensures numbers { NumbersAre }
{}
