//! Laws of the definitions that the contracts cite. These functions do nothing: what each of them
//! ensures is the law.
ghost use Rattle.names_realms.specs.Laws.{ArtifactNameHasNoFault, IdHasNoFault, InvocationNameHasNoFault};
ghost use Rattle.names_realms.specs.Laws.{OneArtifactNamed, OneInvocationNamed, OneParentNamed, OneResultNamed};
ghost use Rattle.names_realms.specs.Laws.{PairHasNoFault, ParentNameHasNoFault, RealmBreaksFirst, RealmHasNoFault};
ghost use Rattle.names_realms.specs.Laws.{ResultNameHasNoFault};

/// One text names at most one invocation.
pub fn one_invocation_named()
    ensures { OneInvocationNamed }
{}

/// One text names at most one result.
pub fn one_result_named()
    ensures { OneResultNamed }
{}

/// One text names at most one parent of artifacts.
pub fn one_parent_named()
    ensures { OneParentNamed }
{}

/// One text names at most one artifact.
pub fn one_artifact_named()
    ensures { OneArtifactNamed }
{}

/// An id has no fault, and so is read.
pub fn id_has_no_fault()
    ensures { IdHasNoFault }
{}

/// The name of an invocation has no fault, and so is read.
pub fn invocation_name_has_no_fault()
    ensures { InvocationNameHasNoFault }
{}

/// The name of a result has no fault, and so is read.
pub fn result_name_has_no_fault()
    ensures { ResultNameHasNoFault }
{}

/// The name of a parent has no fault, and so is read.
pub fn parent_name_has_no_fault()
    ensures { ParentNameHasNoFault }
{}

/// The name of an artifact has no fault, and so is read.
pub fn artifact_name_has_no_fault()
    ensures { ArtifactNameHasNoFault }
{}

/// A realm has no fault, and so is read.
pub fn realm_has_no_fault()
    ensures { RealmHasNoFault }
{}

/// A key and a value have no fault, and so are read.
pub fn pair_has_no_fault()
    ensures { PairHasNoFault }
{}

/// The bad place of a realm is the first that breaks the grammar: some realm begins as the text
/// does up to there, and none with the byte there too.
pub fn realm_breaks_first()
    ensures { RealmBreaksFirst }
{}
