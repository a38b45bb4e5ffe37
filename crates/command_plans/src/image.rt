//! `image`: writes a demo image.

ghost use Rattle.std.specs.Prelude.{◌≡◌, [], IfOk, IfErr, IsSome, string_bytes, unwrap_or};
ghost use Rattle.colo_guests.specs.Images.{image};
ghost use Rattle.file_steps.specs.Ending.{Completes, TaskFails};
ghost use Rattle.command_plans.specs.Image.{bytes_line, image_task};

use crate::one_file::write_file;
use colo_base::{NoMemory, Shelf};
use colo_guests::image;
use file_steps::Fault;
use std::alloc::{AllocError, Global};

/// The line of so many bytes.
fn bytes_line(alloc: Global, bytes: &[u8]) -> Result<String, AllocError>
    ensures { IfOk result (λ text. string_bytes text ≡ bytes_line bytes.now) }
{
    let count = bytes.len();
    format!(in alloc; "bytes {count}\n")
}

/// The bytes of a demo image by its name.
fn image_bytes(alloc: Global, name: &str) -> Result<Vec<u8>, NoMemory>
    requires { IsSome (image name.now) }
    ensures { IfOk result (λ bytes. bytes.items ≡ unwrap_or (image name.now) []) }
{
    match image(alloc, name)? {
        Some(bytes) => Ok(bytes),
        None => unreachable!(),
    }
}

/// Carries `image` out: writes the demo image of that name to the file `out`. Gives the line to
/// print.
pub fn write_image<S: Shelf>(
    alloc: Global,
    shelf: &mut S,
    name: &str,
    out: &str,
) -> Result<String, Fault>
    requires { IsSome (image name.now) }
    ensures done { IfOk result (λ line. Completes (image_task name.now out.now)
        (S.state shelf.old) (S.state shelf.new) (string_bytes line)) }
    ensures fails { IfErr result (TaskFails (image_task name.now out.now)
        (S.state shelf.old) (S.state shelf.new)) }
{
    let bytes = image_bytes(alloc, name)?;
    let line = bytes_line(alloc, &bytes)?;
    write_file(alloc, shelf, out, &bytes)?;
    Ok(line)
}
