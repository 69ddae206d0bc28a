//! A test pattern: a frame's bytes show which frame it is.

ghost use Rattle.std.specs.Prelude.{◌≡◌, length};
ghost use Rattle.loop_record.specs.Pattern.{pattern_bytes};

/// Fills a row of bytes with those of frame `n`: byte i is `n + i`, modulo 256.
pub fn fill_pattern(bytes: &mut [u8], n: u64)
    ensures { bytes.new ≡ pattern_bytes n (length bytes.old) }
{
    let mut value = (n % 256) as u8;
    for byte in bytes {
        *byte = value;
        value = value.wrapping_add(1);
    }
}
