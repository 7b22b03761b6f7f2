// Images from bytes, and from standard input.
ghost use Rattle.std.specs.Prelude.{◌≡◌, OnOk, IfSome, None};
ghost use Rattle.std.specs.Io.KnownBytes.{Appends};
ghost use Rattle.image.specs.FirstRefusal.{refusal_of};
ghost use Rattle.image.specs.Images.{bytes_words};
ghost use Rattle.console.specs.Shown.{ShownBy, refusal_line};

use image::{Image, OpenError, Refusal};
use std::alloc::Global;
use std::io::{BufWriter, Read, Stdout, Write};

// One byte more than the longest image, so that a longer input is seen to be too long and is not read to its end.
const MOST_BYTES: u64 = 32_769;

/// Shows the image that the bytes are, or writes why they are refused. An `Err` is a failed write, want of memory or
/// what `show` answers.
pub fn show_image<W: Write, F: FnOnce(&mut W, &Image) -> anyhow::Result<()>>(
    heap: Global,
    bytes: &[u8],
    out: &mut W,
    show: F,
) -> anyhow::Result<()>
    requires { F.IsAlwaysCallable show }
    ensures shown { refusal_of bytes.now ≡ None → OnOk result (ShownBy F.FnOnce show (bytes_words bytes.now) out.old result out.new) }
    ensures refused { OnOk result (IfSome (refusal_of bytes.now) (λ refusal. Appends (W.contents out.old) (W.contents out.new) (refusal_line refusal))) }
{
    let mut image = Image::new(heap);
    match image.open(heap, bytes) {
        Ok(()) => show(out, &image),
        Err(OpenError::Refused(refusal)) => Ok(writeln!(out, "{refusal}")?),
        Err(error) => Err(error.into()),
    }
}

// The bytes on standard input.
fn read_input(rt: &HostRuntime) -> anyhow::Result<Vec<u8>> {
    let mut bytes = Vec::new(rt.alloc());
    rt.stdin().take(MOST_BYTES).read_to_end(&mut bytes)?;
    Ok(bytes)
}

// A buffer before standard output or, where there is no memory for one, none: then each piece goes out as it comes.
fn buffered_output(rt: &HostRuntime) -> anyhow::Result<BufWriter<Stdout>> {
    match BufWriter::new(rt.alloc(), rt.stdout()) {
        Ok(out) => Ok(out),
        Err(_) => Ok(BufWriter::with_capacity(rt.alloc(), 0, rt.stdout())?),
    }
}

/// The image on standard input, or why it is refused. An `Err` is a failed read or want of memory.
pub fn read_image(rt: &HostRuntime) -> anyhow::Result<Result<Image, Refusal>> {
    let bytes = read_input(rt)?;
    let mut image = Image::new(rt.alloc());
    match image.open(rt.alloc(), bytes.as_slice()) {
        Ok(()) => Ok(Ok(image)),
        Err(OpenError::Refused(refusal)) => Ok(Err(refusal)),
        Err(error) => Err(error.into()),
    }
}

/// Shows the image on standard input on standard output, as `show_image` does. No contract can say which bytes are read.
pub fn show_input<F: FnOnce(&mut BufWriter<Stdout>, &Image) -> anyhow::Result<()>>(
    rt: &HostRuntime,
    show: F,
) -> anyhow::Result<()>
    requires { F.IsAlwaysCallable show }
{
    let bytes = read_input(rt)?;
    let mut out = buffered_output(rt)?;
    show_image(rt.alloc(), bytes.as_slice(), &mut out, show)?;
    Ok(out.flush()?)
}
