//! Laws of commands. These functions do nothing: what each of them ensures is the law.
ghost use Rattle.recorded_calls.specs.Laws.{LengthsAreSaid, OneCommand, WrittenIsRead};

/// The same bytes say one thing.
pub fn one_command()
    ensures { OneCommand }
{}

/// What is written is read again, and as nothing else.
pub fn written_is_read()
    ensures { WrittenIsRead }
{}

/// The record of a command takes five bytes more than the command.
pub fn lengths_are_said()
    ensures { LengthsAreSaid }
{}
