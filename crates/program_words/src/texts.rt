//! The texts that tell of the program, for standard output.
ghost use Rattle.std.specs.Prelude.{◌≡◌};
ghost use Rattle.program_words.specs.Texts as specs;

/// The commands with their words, one line each.
pub fn help_text() -> &'static str
    ensures { result.now ≡ specs.help_text }
{
    "answer --config PATH --journal PATH\ncheck --journal PATH\nserve --config PATH --journal PATH --listen ADDR --workers K [--connections N]\nsink --config PATH --server ADDR --invocation ID --format tap|junit [--prefix TEXT]\nworkload --journal PATH --number N --count M\n--help\n--version\n"
}

/// The program's name and version, in one line.
pub fn version_text() -> &'static str
    ensures { result.now ≡ specs.version_text }
{
    "rdb 0.1.0\n"
}
