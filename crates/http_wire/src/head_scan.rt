//! Where a head ends, byte by byte.
ghost use Rattle.std.specs.Prelude.{◌≡◌, ◌≤◌, [], length, take};
ghost use Rattle.http_wire.specs.Scan.{step_of, Passed, IsSearch};

/// Where the next byte stands.
#[derive(Clone, Copy)]
pub enum Place {
    /// At the start of a line before the first one.
    Before,
    /// Behind a CR that began such a line.
    BeforeCr,
    /// In the first line.
    FirstLine,
    /// At the start of a header line.
    LineStart,
    /// Behind a CR that began a header line.
    LineCr,
    /// In a header line.
    HeaderLine,
}

/// What a byte does.
#[derive(Clone, Copy)]
pub enum Step {
    To(Place),
    EndsLine,
    EndsHead,
}

/// How far a search has come.
#[derive(Clone, Copy)]
pub struct Progress {
    /// How many bytes it has passed.
    pub scanned: usize,
    pub place: Place,
    /// How many header lines have ended.
    pub lines: usize,
}

/// Where a head ends.
#[derive(Clone, Copy)]
pub struct HeadEnd {
    /// How many bytes the head has.
    pub len: usize,
    /// How many header lines it has.
    pub lines: usize,
}

/// What a search says of the bytes that are there.
#[derive(Clone, Copy)]
pub enum Search {
    Found(HeadEnd),
    Goes(Progress),
}

fn next_step(place: Place, byte: u8) -> Step
    ensures { result ≡ step_of place byte }
{
    match place {
        Place::Before => match byte {
            b'\n' => Step::To(Place::Before),
            b'\r' => Step::To(Place::BeforeCr),
            _ => Step::To(Place::FirstLine),
        },
        Place::BeforeCr => match byte {
            b'\n' => Step::To(Place::Before),
            _ => Step::To(Place::FirstLine),
        },
        Place::FirstLine => match byte {
            b'\n' => Step::To(Place::LineStart),
            _ => Step::To(Place::FirstLine),
        },
        Place::LineStart => match byte {
            b'\n' => Step::EndsHead,
            b'\r' => Step::To(Place::LineCr),
            _ => Step::To(Place::HeaderLine),
        },
        Place::LineCr => match byte {
            b'\n' => Step::EndsHead,
            _ => Step::To(Place::HeaderLine),
        },
        Place::HeaderLine => match byte {
            b'\n' => Step::EndsLine,
            _ => Step::To(Place::HeaderLine),
        },
    }
}

/// A search that has passed nothing.
pub fn begin() -> Progress
    ensures { Passed [] result }
{
    Progress {
        scanned: 0,
        place: Place::Before,
        lines: 0,
    }
}

/// Goes on with a search to the end of the bytes.
pub fn search_on(bytes: &[u8], from: Progress) -> Search
    requires within { from.scanned ≤ length bytes.now }
    requires passed { Passed (take from.scanned bytes.now) from }
    ensures { IsSearch bytes.now result }
{
    let mut place = from.place;
    let mut lines = from.lines;
    for i in from.scanned..bytes.len() {
        match next_step(place, bytes[i]) {
            Step::To(next) => place = next,
            Step::EndsLine => {
                place = Place::LineStart;
                lines += 1;
            }
            Step::EndsHead => return Search::Found(HeadEnd { len: i + 1, lines }),
        }
    }
    Search::Goes(Progress {
        scanned: bytes.len(),
        place,
        lines,
    })
}
