//! Stable reading of `AnyBox` and `KeptBox`, and `KeptBox` as a child of other boxes.

ghost use Rattle.mp4_stream.specs.KeptBox.{format_kept, known_kept, reading_kept};
ghost use Rattle.mp4_stream.specs.KeptBoxLaws.{written_kept, own_name_kept, read_back_kept};
ghost use Rattle.mp4_stream.specs.StableLaws.{stable_any, code_any, stable_kept, code_kept};

use crate::any_box::AnyBox;
use crate::kept_box::KeptBox;
use mp4_compose::{ChildBox, StableBox, all_writable, read_children_as, total_size};
use mp4_frame::{Result, put_boxes};
use std::alloc::Global;

impl StableBox for AnyBox {
    ghost stable = { stable_any };

    ghost own_code = { code_any };
}

impl StableBox for KeptBox {
    ghost stable = { stable_kept };

    ghost own_code = { code_kept };
}

impl ChildBox for KeptBox {
    ghost child_format = { format_kept };

    ghost child_known = { known_kept };

    ghost child_reading = { reading_kept };

    fn read_children(alloc: Global, content: &[u8], at: u64) -> Result<Vec<Self>> {
        read_children_as(alloc, content, at)
    }

    fn size_of_children(boxes: &[Self]) -> u64 {
        total_size(boxes)
    }

    fn can_write_children(boxes: &[Self]) -> bool {
        all_writable(boxes)
    }

    fn put_children(boxes: &[Self], out: &mut [u8]) {
        put_boxes(boxes, out)
    }

    ghost child_laws = { record {
      written = written_kept;
      own_name = own_name_kept;
      read_back = read_back_kept;
      stable = stable_kept;
    } };
}
