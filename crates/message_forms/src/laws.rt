//! Laws of the definitions that the contracts cite. These functions do nothing: what each of them
//! ensures is the law.
ghost use Rattle.message_forms.specs.Laws.{OneRequestAsked, OneFault, NeverBoth, AsksOrHasFault, FaultIsRefused};
ghost use Rattle.message_forms.specs.Laws.{AskedIsOfForm, AskedCanBeWritten, UpdateChangesSomething};

/// One body asks for one request.
pub fn one_request_asked()
    ensures { OneRequestAsked }
{}

/// One body has one fault.
pub fn one_fault()
    ensures { OneFault }
{}

/// No body asks for a request and has a fault.
pub fn never_both()
    ensures { NeverBoth }
{}

/// Each service, method and body asks for a request or has a fault.
pub fn asks_or_has_fault()
    ensures { AsksOrHasFault }
{}

/// Each fault is refused by one of the rules 1 and 3 to 6.
pub fn fault_is_refused()
    ensures { FaultIsRefused }
{}

/// What a body asks for is of its form: each id, realm and tag is of its grammar, and a deadline is
/// in the years 1 to 9999.
pub fn asked_is_of_form()
    ensures { AskedIsOfForm }
{}

/// Each request that a body asks for is one of those that are written so that they are read again.
pub fn asked_can_be_written()
    ensures { AskedCanBeWritten }
{}

/// No body asks for an update that changes nothing.
pub fn update_changes_something()
    ensures { UpdateChangesSomething }
{}
