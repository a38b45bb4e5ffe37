//! The refusals of what is read.

ghost use Rattle.std.specs.Prelude.{◌≡◌, IsTrue};
ghost use Rattle.file_steps.specs.Plans.{is_own};
ghost use Rattle.file_steps.specs.Status.{refusal_of};
ghost use Rattle.command_inputs.specs.Reading.{client_refusal, disk_refusal, image_refusal, line_refusal, not_built};

use file_steps::Refusal;

/// An image, by the number of the loader's case.
pub fn image_refusal(number: u64) -> Refusal
    ensures line { refusal_of result ≡ image_refusal number }
    ensures own { IsTrue (is_own result.status) }
{
    Refusal {
        status: 2,
        head: "image:",
        first: Some(number),
        second: None,
    }
}

/// A disk, by its length.
pub fn disk_refusal(size: u64) -> Refusal
    ensures line { refusal_of result ≡ disk_refusal size }
    ensures own { IsTrue (is_own result.status) }
{
    Refusal {
        status: 3,
        head: "disk:",
        first: Some(size),
        second: None,
    }
}

/// A text of lines, by the number of a line.
pub fn line_refusal(line: u64) -> Refusal
    ensures line { refusal_of result ≡ line_refusal line }
    ensures own { IsTrue (is_own result.status) }
{
    Refusal {
        status: 4,
        head: "line",
        first: Some(line),
        second: None,
    }
}

/// A client stream, by where the record begins that is too long or isn't whole.
pub fn client_refusal(place: u64) -> Refusal
    ensures line { refusal_of result ≡ client_refusal place }
    ensures own { IsTrue (is_own result.status) }
{
    Refusal {
        status: 5,
        head: "client:",
        first: Some(place),
        second: None,
    }
}

/// A line that is good, and isn't run yet.
pub fn not_built() -> Refusal
    ensures line { refusal_of result ≡ not_built }
    ensures own { IsTrue (is_own result.status) }
{
    Refusal {
        status: 9,
        head: "not built",
        first: None,
        second: None,
    }
}
