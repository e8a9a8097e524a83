//! Laws of histories whose moments a clock made. These functions do nothing: what each of them
//! ensures is the law.
ghost use Rattle.service_core.specs.Laws.{TimedGoesOn, TimedIsLegal};

/// A history of calls whose moments a clock made is legal.
pub fn timed_is_legal()
    ensures { TimedIsLegal }
{}

/// A history goes on by one call, at the moment that one more answer of the clock makes.
pub fn timed_goes_on()
    ensures { TimedGoesOn }
{}
