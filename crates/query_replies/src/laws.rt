//! Laws of the definitions that the contracts cite. These functions do nothing: what each of them
//! ensures is the law.
ghost use Rattle.query_replies.specs.Laws.{ShowsPlain, WholeIsShownAsRecorded};

/// A row that is seen whole is shown as the reply to the batch that recorded it shows it.
pub fn whole_is_shown_as_recorded()
    ensures { WholeIsShownAsRecorded }
{}

/// What replies show has no float and nests at most 70 levels, whatever its texts are.
pub fn pages_are_plain()
    ensures { ShowsPlain }
{}
