//! What stands before the image.
ghost use Rattle.std.specs.Prelude.{◌≡◌};
ghost use Rattle.map_file_model.specs.Body.{body_head};

use byte_fields::{put_u32, put_u64};

/// How many bytes stand before the image.
pub(crate) const HEAD_BYTES: usize = 24;

/// The head of a body of so many pairs, whose image has so many bytes.
pub(crate) fn head(pairs: u32, image_bytes: u64) -> [u8; 24]
    ensures { result ≡ body_head pairs image_bytes }
{
    let mut head = [0; HEAD_BYTES];
    head[0] = b'S';
    head[1] = b'U';
    head[2] = b'R';
    head[3] = b'M';
    head[4] = 1;
    put_u32(&mut head, 8, pairs);
    put_u64(&mut head, 16, image_bytes);
    head
}
