//! Laws of the definitions. The functions do nothing: what each of them ensures is the law.
ghost use Rattle.inclusion_graph.specs.Laws.{FreshAreNew, NewAreOneList};

/// The targets that a plan gets are those that the node hasn't yet, each once, in the order of
/// their first places.
pub fn fresh_are_new()
    ensures { FreshAreNew }
{}

/// One list has them.
pub fn new_are_one_list()
    ensures { NewAreOneList }
{}
