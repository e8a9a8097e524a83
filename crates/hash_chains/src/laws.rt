//! Laws of what is found in chains. They do nothing.
ghost use Rattle.hash_chains.specs.Laws.{WalkMeetsEach};

/// A walk from the latest place by the earlier ones meets every place with the hash.
pub fn walk_meets_each()
    ensures { WalkMeetsEach }
{}
