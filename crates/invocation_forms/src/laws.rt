//! A law of the definitions that the contracts cite. The function does nothing: what it ensures is
//! the law.
ghost use Rattle.invocation_forms.specs.Laws.{RowIsShowable};

/// What a row shows is UTF-8: a creator of the form of a user's name, and tags of the grammar of
/// pairs.
pub fn row_is_showable()
    ensures { RowIsShowable }
{}
