//! Where a sealed file has its chunks, by its length.

ghost use Rattle.std.specs.Prelude.{◌≡◌, ◌<◌, ◌≤◌, ◌*◌, ◌+◌, ◌^◌, ℕ, List, length};
ghost use Rattle.sealed_file.specs.Sealed.{last_of, text_of, sealed};
ghost use Rattle.sealed_file.specs.Ranges.{place};

/// How many bytes of text a sealed file of `file` bytes has. Also where no sealed file has this length, the result is
/// at most `file`.
pub fn text_len(file: u64) -> u64
    ensures exact { (key salt text : List ℕ) → length salt ≡ 19
        → length (sealed key salt text) ≡ file → result ≡ length text }
    ensures value { result ≡ text_of file }
    ensures less { result ≤ file }
{
    let body = file.saturating_sub(32);
    body.saturating_sub(16 * body.div_ceil(65552))
}

/// The number of the last chunk of a file of so many bytes.
pub(crate) fn last_chunk(file: u64) -> u64
    ensures value { result ≡ last_of file }
    ensures fits { place result < 2 ^ 64 }
{
    file.saturating_sub(33) / 65552
}
