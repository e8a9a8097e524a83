//! Laws of the definitions that the contracts cite. These functions do nothing: what each of them
//! ensures is the law.
ghost use Rattle.junit_reader.specs.Laws.{CasesOrAFault, CasesOrFault, OneFault, OneListOfCases};

/// A report has at most one list of cases.
pub fn one_list_of_cases()
    ensures { OneListOfCases }
{}

/// A report has at most one fault.
pub fn one_fault()
    ensures { OneFault }
{}

/// No report has cases and a fault.
pub fn cases_or_fault()
    ensures { CasesOrFault }
{}

/// Every report has cases or a fault.
pub fn cases_or_a_fault()
    ensures { CasesOrAFault }
{}
