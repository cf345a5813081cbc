//! The sum of the bytes of files.

ghost use Rattle.std.specs.Prelude.{◌≡◌, ◌≤◌, ◌<◌, ◌^◌, length, sum};
ghost use Rattle.gen_summary.specs.Summary.{sum_of};

use hist_plain::Plain;

/// The sum of some bytes.
fn sum_in(bytes: &[u8]) -> u128
    ensures value { result ≡ sum bytes.now }
    ensures few { result < 2 ^ 72 }
{
    let mut total = 0;
    for byte in bytes {
        total += u128::from(*byte);
    }
    total
}

/// The sum of the bytes of a file.
fn sum_file(file: &Plain) -> u128
    ensures value { result ≡ sum file.now.file.bytes }
    ensures few { result < 2 ^ 72 }
{
    sum_in(file.bytes())
}

/// The sum of all bytes of all files.
pub(crate) fn sum_of(files: &[Plain]) -> u128
    requires { length files.now < 2 ^ 32 }
    ensures { result ≡ sum_of files.now }
{
    let mut total = 0;
    for file in files {
        total += sum_file(file);
    }
    total
}
