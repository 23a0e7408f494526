//! Theorems about the boxes of a file. The bodies do nothing, since the contracts are only about the definitions.

ghost use Rattle.std.specs.Prelude.{◌≡◌, All};
ghost use Rattle.mp4_walk.specs.Places.{IsPlaced};
ghost use Rattle.mp4_walk.specs.Tops.{top_boxes, top_frames};
ghost use Rattle.mp4_walk.specs.FileBoxes.{boxes_of};

/// Proves that the whole boxes of the top level of a file are its frames, in order, up to the first frame with a fault.
pub fn tops_are_frames(bytes: &[u8])
    ensures { top_boxes (boxes_of bytes.now) ≡ top_frames bytes.now }
{
    // For the prover: the length of a slice fits its type.
    let _length = bytes.len();
}

/// Proves that each whole box of a file is a frame of the file or of the content of its parent. The parent is one of
/// the boxes, at a depth of one less.
pub fn boxes_are_placed(bytes: &[u8])
    ensures { All (IsPlaced bytes.now (boxes_of bytes.now)) (boxes_of bytes.now) }
{
    // For the prover: the length of a slice fits its type.
    let _length = bytes.len();
}
