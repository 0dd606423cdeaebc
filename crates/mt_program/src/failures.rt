ghost use Rattle.std.specs.Prelude.{◌≡◌, ◌≤◌, ◌+◌, ◌++◌, [], length};
ghost use Rattle.mt_image.specs.Texts.{error_text};
ghost use Rattle.mt_program.specs.Ending.{TellsText, failure_text, faulty_line, refusal_text};

use crate::streams::{ReadError, write_output};
use arrayvec::ArrayString;
use itoa::Buffer;
use mt_base::NoMemory;
use mt_image::{ImageError, law_text};
use mt_io::Sink;
use mt_log::{LogError, Why};
use mt_told::ListingError;

/// Room for the longest line that reports a failure.
const TEXT_ROOM: usize = 192;

/// Why nothing, or only a part, was printed.
#[derive(Clone, Copy, Debug, PartialEq, Eq)]
pub enum Failure {
    /// The input is no log: its first bad line, and why.
    BadLog { line: u64, why: Why },
    /// No line of the input is `---`. The number is that of the line after all that are ended.
    NoTranscript { line: u64 },
    /// The log declares no tree. The number is that of the line after all that are ended.
    NoTree { line: u64 },
    /// No tree is built of the input: the line at which that shows.
    NotBuilt { line: u64, why: Unbuilt },
    /// The words are no command.
    Usage,
    /// The source failed.
    ReadFault,
    /// The sink failed.
    WriteFault,
    /// Memory ran out.
    NoMemory,
    /// The input is longer than an input may be.
    TooLong,
    /// The text after the log is that of no transcript of a run of it.
    Refused,
    /// The input is no image.
    BadImage { error: ImageError },
}

/// Why no tree is built of an input.
#[derive(Clone, Copy, Debug, PartialEq, Eq)]
pub enum Unbuilt {
    /// It is no listing.
    Listing,
    /// A range is no range of a tree of the listing's kind, or does not begin above the end of the one before it.
    Order,
    /// The tree would have more nodes than can be named.
    Rows,
}

impl Unbuilt {
    ghost use Rattle.mt_program.specs.Ending.{unbuilt_text};

    /// The reason in words, of at most 23 bytes.
    fn text(&self) -> &'static str
        ensures text { result.now ≡ unbuilt_text self.now }
        ensures short { length result.now ≤ 23 }
    {
        match self {
            Unbuilt::Listing => "bad listing",
            Unbuilt::Order => "bad order",
            Unbuilt::Rows => "too many rows",
        }
    }
}

impl Failure {
    ghost use Rattle.std.specs.Prelude.{◌≡◌};
    ghost use Rattle.mt_program.specs.Ending.{status_of, failure_text};

    /// The status that the program ends with.
    pub fn status(&self) -> u8
        ensures { result ≡ status_of self.now }
    {
        match self {
            Failure::BadLog { .. }
            | Failure::NoTranscript { .. }
            | Failure::NoTree { .. }
            | Failure::NotBuilt { .. } => 1,
            Failure::Usage => 2,
            Failure::ReadFault => 3,
            Failure::WriteFault => 4,
            Failure::NoMemory => 5,
            Failure::TooLong => 6,
            Failure::Refused => 7,
            Failure::BadImage { .. } => 8,
        }
    }

    /// The line that reports it. It takes no memory, so that a lack of memory can be reported.
    fn text(&self) -> ArrayString<TEXT_ROOM>
        ensures { result.bytes ≡ failure_text self.now }
    {
        let mut text = ArrayString::new();
        match *self {
            Failure::BadLog { line, why } => push_line(&mut text, line, why.text()),
            Failure::NoTranscript { line } => push_line(&mut text, line, "no transcript"),
            Failure::NoTree { line } => push_line(&mut text, line, "no tree"),
            Failure::NotBuilt { line, why } => push_line(&mut text, line, why.text()),
            Failure::Usage => text.push_str(
                "mtreplay: usage: replay [--rows N], make NUMBER STEPS LANES, trial NUMBER STEPS, verify [--rows N], \
                 image [--rows N], show, bulk WORKERS, ids LO HI STEPS DROP\n",
            ),
            Failure::ReadFault => text.push_str("mtreplay: read fault\n"),
            Failure::WriteFault => text.push_str("mtreplay: write fault\n"),
            Failure::NoMemory => text.push_str("mtreplay: out of memory\n"),
            Failure::TooLong => text.push_str("mtreplay: input too long\n"),
            Failure::Refused => text.push_str("mtreplay: transcript refused\n"),
            Failure::BadImage { error } => push_refusal(&mut text, error),
        }
        text
    }
}

/// What is wrong with a line of the input, in at most 23 bytes.
fn push_line(text: &mut ArrayString<TEXT_ROOM>, line: u64, why: &str)
    requires empty { text.old.bytes ≡ [] }
    requires short { length why.now ≤ 23 }
    ensures { text.new.bytes ≡ faulty_line line why.now }
{
    text.push_str("mtreplay: line ");
    text.push_str(Buffer::new().format(line));
    text.push_str(": ");
    text.push_str(why);
    text.push_str("\n");
}

/// Why the input is no image.
fn push_refusal(text: &mut ArrayString<TEXT_ROOM>, error: ImageError)
    requires empty { text.old.bytes ≡ [] }
    ensures { text.new.bytes ≡ refusal_text error }
{
    text.push_str("mtreplay: image refused: ");
    push_error(text, error);
    text.push_str("\n");
}

/// Appends the text of an image's fault, in at most 48 bytes.
fn push_error(text: &mut ArrayString<TEXT_ROOM>, error: ImageError)
    requires short { length text.old.bytes ≤ 64 }
    ensures text { text.new.bytes ≡ text.old.bytes ++ error_text error }
    ensures short { length text.new.bytes ≤ length text.old.bytes + 48 }
{
    match error {
        ImageError::Length { want, got } => {
            text.push_str("length ");
            text.push_str(Buffer::new().format(want));
            text.push_str(" ");
            text.push_str(Buffer::new().format(got));
        }
        ImageError::Head { at } => {
            text.push_str("head ");
            text.push_str(Buffer::new().format(at));
        }
        ImageError::Broken { row, law } => {
            text.push_str("row ");
            text.push_str(Buffer::new().format(row));
            text.push_str(" ");
            text.push_str(law_text(law));
        }
        ImageError::Stray { row } => {
            text.push_str("stray row ");
            text.push_str(Buffer::new().format(row));
        }
        ImageError::NoMemory => text.push_str("out of memory"),
    }
}

/// Writes the line that reports a failure. If `err` fails, there is no report.
pub fn report<E: Sink>(err: &mut E, failure: &Failure)
    ensures told { TellsText (E.written err.old) (E.written err.new) (E.faults err.old) (E.faults err.new) (failure_text failure.now) }
    ensures in_time { E.faults err.old ≡ 0 → E.late err.old ≡ 0 → E.late err.new ≡ 0 }
{
    let _ = write_output(err, failure.text().as_str().as_bytes());
}

impl From<ReadError> for Failure {
    ghost use Rattle.std.specs.Prelude.{◌≡◌};
    ghost use Rattle.mt_program.specs.Causes.{failure_of_read};

    ghost from_gives = { λ r e. e ≡ failure_of_read r };

    fn from(error: ReadError) -> Self {
        match error {
            ReadError::Fault => Failure::ReadFault,
            ReadError::TooLong => Failure::TooLong,
            ReadError::NoMemory => Failure::NoMemory,
        }
    }
}

impl From<LogError> for Failure {
    ghost use Rattle.std.specs.Prelude.{◌≡◌};
    ghost use Rattle.mt_program.specs.Causes.{failure_of_log};

    ghost from_gives = { λ r e. e ≡ failure_of_log r };

    fn from(error: LogError) -> Self {
        match error {
            LogError::Bad { line, why } => Failure::BadLog { line, why },
            LogError::NoMemory => Failure::NoMemory,
        }
    }
}

impl From<ListingError> for Failure {
    ghost use Rattle.std.specs.Prelude.{◌≡◌};
    ghost use Rattle.mt_program.specs.Causes.{failure_of_listing};

    ghost from_gives = { λ r e. e ≡ failure_of_listing r };

    fn from(error: ListingError) -> Self {
        match error {
            ListingError::Bad { line } => Failure::NotBuilt {
                line,
                why: Unbuilt::Listing,
            },
            ListingError::NoMemory => Failure::NoMemory,
        }
    }
}

impl From<ImageError> for Failure {
    ghost use Rattle.std.specs.Prelude.{◌≡◌};
    ghost use Rattle.mt_program.specs.Causes.{failure_of_image};

    ghost from_gives = { λ r e. e ≡ failure_of_image r };

    fn from(error: ImageError) -> Self {
        match error {
            ImageError::NoMemory => Failure::NoMemory,
            ImageError::Length { .. }
            | ImageError::Head { .. }
            | ImageError::Broken { .. }
            | ImageError::Stray { .. } => Failure::BadImage { error },
        }
    }
}

impl From<NoMemory> for Failure {
    ghost use Rattle.std.specs.Prelude.{◌≡◌};
    ghost use Rattle.mt_program.specs.declared.failures.Failure.TheVariants.{NoMemory};

    ghost from_gives = { λ _ e. e ≡ NoMemory };

    fn from(_: NoMemory) -> Self {
        Failure::NoMemory
    }
}
