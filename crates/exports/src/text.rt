//! How much of a name's text its words hold.
ghost use Rattle.std.specs.Prelude.{◌≡◌, ◌^◌, ◌<◌, length, take};
ghost use Rattle.find_path_spec.specs.Line.{unpacked};

use snapshot::kind::text_words;

/// How many of so many bytes the words hold.
pub(crate) fn held(text: &[u32], bytes: usize) -> usize
    requires { bytes < 2 ^ 32 }
    ensures { result ≡ length (take bytes (unpacked text.now)) }
{
    if text_words(bytes) <= text.len() {
        return bytes;
    }
    3 * text.len()
}
