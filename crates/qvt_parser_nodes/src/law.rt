ghost use Rattle.qvt_parser_nodes.specs.Law.{AtMostTwoEach, NamesAreTokens, NoneIsLonger, PlacesOfTree};

/// Its clause is the law that a tree has at most two nodes for each of its tokens. It does nothing.
pub fn sizes()
    ensures { AtMostTwoEach }
{}

/// Its clauses say that each path of a tree has a name, that each name is that of a token of the class
/// of names and each text in quotes that of a token of the class of texts, and that none is longer
/// than the longest of a token. It does nothing.
pub fn names()
    ensures tokens { NamesAreTokens }
    ensures longest { NoneIsLonger }
{}

/// Its clause is the law that each node of a tree stands at one of its tokens, and that the places of
/// the nodes, in the order of the text, do not fall. It does nothing.
pub fn places()
    ensures { PlacesOfTree }
{}
