//! The laws of lists of boxes that were read, where the reading of a box is stable. Nothing here reads or writes: the
//! contract of each function is a law, and its body is empty.

ghost use Rattle.std.specs.Prelude.{◌≡◌, ℕ, ◌^◌, ◌<◌, Ok, List, All, length, map, drop};
ghost use Rattle.mp4_frame.specs.BoxType.{code_of};
ghost use Rattle.mp4_frame.specs.Laws.{AreBytes};
ghost use Rattle.mp4_frame.specs.Streams.{stream, boxes};
ghost use Rattle.mp4_frame.specs.declared.box_type.BoxType.{BoxType};
ghost use Rattle.mp4_compose.specs.Lossless.{short_box, format_lossless};
ghost use Rattle.mp4_compose.specs.LosslessLaws.{reading_lossless};

use crate::stable_box::StableBox;
use mp4_frame::StreamBox;

/// Proves that boxes that were read are their own normal forms, and can be written unless one is too large.
pub fn read_list_is_stable<B: StableBox>()
    ensures normal { (bytes : List ℕ) (o : ℕ) (vs : List _) → AreBytes bytes
        → (boxes B.known B.named_reading bytes o).outcome ≡ Ok vs → map B.format.normal vs ≡ vs }
    ensures writable { (bytes : List ℕ) (o : ℕ) (vs : List _) → AreBytes bytes
        → (boxes B.known B.named_reading bytes o).outcome ≡ Ok vs → All (λ v. B.format.size v < 2 ^ 32) vs
        → All B.format.Writable vs }
{}

/// Proves that boxes that were read are written in bytes that are read as the same boxes. So writing them again gives
/// the same bytes.
pub fn normal_stream_is_kept<B: StableBox>()
    ensures { (bytes : List ℕ) (o : ℕ) (vs : List _) → AreBytes bytes
        → (boxes B.known B.named_reading bytes o).outcome ≡ Ok vs → All B.format.Writable vs
        → length (stream B.format.bytes vs) < 2 ^ 64
        → (boxes B.known B.named_reading (stream B.format.bytes vs) 0).outcome ≡ Ok vs }
{}

/// Proves that a stream of boxes that can be written is kept: the boxes read from it can be written, and have the same
/// bytes.
pub fn written_stream_is_kept<B: StreamBox>()
    ensures writable { (vs ws : List _) → All B.format.Writable vs → length (stream B.format.bytes vs) < 2 ^ 64
        → (boxes B.known B.named_reading (stream B.format.bytes vs) 0).outcome ≡ Ok ws → All B.format.Writable ws }
    ensures bytes { (vs ws : List _) → All B.format.Writable vs → length (stream B.format.bytes vs) < 2 ^ 64
        → (boxes B.known B.named_reading (stream B.format.bytes vs) 0).outcome ≡ Ok ws
        → stream B.format.bytes ws ≡ stream B.format.bytes vs }
{}

/// Proves that a box read as a `Lossless` is written in the bytes that were read, with its header in 8 bytes.
pub fn exact_box_is_kept<B: StableBox>()
    ensures { (name : BoxType) (bytes : List ℕ) (start size : ℕ) (v : _)
        → (reading_lossless B.known B.named_reading B.format name bytes start size).outcome ≡ Ok v
        → (format_lossless B.known B.named_reading B.format).bytes v
        ≡ short_box (code_of name) (drop start bytes) size }
{}
