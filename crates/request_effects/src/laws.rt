//! Laws of what is kept. These functions do nothing: what each of them ensures is the law.
ghost use Rattle.request_effects.specs.Laws.{KeptIsFirst};

/// Of what is kept of an effect the answer is made again that showed what it made.
pub fn kept_is_first()
    ensures { KeptIsFirst }
{}
