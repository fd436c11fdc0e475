// This module holds the buffers that a script's run works with.
ghost use Rattle.std.specs.Prelude.{◌≡◌, length};
ghost use Rattle.detector.specs.Refusals.{buffer_bytes};
ghost use Rattle.text.specs.Lines.{carry_bytes};
ghost use Rattle.runner.specs.Code.{out_bytes};

use detector::Detector;
use text::CARRY_BYTES;

// The out buffer has room for an answer with all tables after it, and for the totals.
const OUT_BYTES: usize = 131072;

// Holds the bytes carried of a line, what is to be written, and the reports of a reply.
#[derive(Drop)]
pub(crate) struct Buffers {
    pub(crate) carry: [u8; CARRY_BYTES],
    pub(crate) out: [u8; OUT_BYTES],
    pub(crate) reports: [u8; Detector::BUFFER_BYTES],
    ghost lengths: { (length carry ≡ carry_bytes) × (length out ≡ out_bytes) × (length reports ≡ buffer_bytes) },
}

impl Buffers {
    // Returns buffers of zeros.
    pub(crate) fn new() -> Buffers {
        Buffers {
            carry: [0; CARRY_BYTES],
            out: [0; OUT_BYTES],
            reports: [0; Detector::BUFFER_BYTES],
        }
    }
}
