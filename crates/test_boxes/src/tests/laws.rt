//! Calls of the laws at concrete types. The calls do nothing. Their proofs show that these types keep the traits.

use example_boxes::mark::MarkBox;
use example_boxes::{SegmentBox, SsixBox};
use mp4_stream::laws::{
    begins_with_header, boxes_follow_frames, cut_at_a_border, cut_inside_a_box, equal_boxes,
    equal_streams, has_normal_form, has_own_name, have_same_bytes, is_read_back,
    is_read_back_at_the_end, is_read_by_name, is_read_by_name_at_the_end, is_read_without_memory,
    is_stable, spans_follow_frames, spans_of_a_written_list, spans_of_what_is_read,
    written_is_read,
};
use mp4_stream::list_laws::{normal_stream_is_kept, read_list_is_stable, written_stream_is_kept};
use mp4_stream::{
    AnyBox, Avc1Box, AvcCBox, BoxLaws, BoxType, Co64Box, CttsBox, DataBox, DinfBox, DrefBox,
    ElstBox, EmsgBox, EsdsBox, FtypBox, HdlrBox, Hev1Box, HvcCBox, KeptBox, MdhdBox, MehdBox,
    MfhdBox, Mp4aBox, MvhdBox, SmhdBox, StableBox, StcoBox, StreamBox, StscBox, StsdBox, StssBox,
    StszBox, SttsBox, TfdtBox, TfhdBox, TkhdBox, TrackFlag, TrexBox, TrunBox, Tx3gBox, UrlBox,
    VmhdBox, Vp09Box, VpccBox, any_laws, code_is_kept, entry_laws, flat_laws, header_is_read_back,
    laws, name_is_kept, sound_laws, table_laws, text_laws,
};

fn call_laws_of_box<B: BoxLaws>() {
    begins_with_header::<B>();
    has_normal_form::<B>();
    is_read_back::<B>();
    is_read_back_at_the_end::<B>();
    is_stable::<B>();
    have_same_bytes::<B>();
}

fn call_laws_of_lists<B: StreamBox>() {
    begins_with_header::<B>();
    has_normal_form::<B>();
    has_own_name::<B>();
    is_read_by_name::<B>();
    is_read_by_name_at_the_end::<B>();
    equal_boxes::<B>();
    written_is_read::<B>();
    cut_at_a_border::<B>();
    cut_inside_a_box::<B>();
    equal_streams::<B>();
    boxes_follow_frames::<B>();
    spans_of_a_written_list::<B>();
    spans_of_what_is_read::<B>();
    written_stream_is_kept::<B>();
}

fn call_laws_of_read_lists<B: StableBox>() {
    read_list_is_stable::<B>();
    normal_stream_is_kept::<B>();
}

#[test]
fn laws_hold_of_boxes_of_fixed_fields() {
    call_laws_of_box::<MvhdBox>();
    call_laws_of_box::<TkhdBox>();
    call_laws_of_box::<MdhdBox>();
    call_laws_of_box::<MehdBox>();
    call_laws_of_box::<MfhdBox>();
    call_laws_of_box::<TfdtBox>();
    call_laws_of_box::<TrexBox>();
    call_laws_of_box::<SmhdBox>();
    call_laws_of_box::<VmhdBox>();
}

#[test]
fn laws_hold_of_tables() {
    call_laws_of_box::<StcoBox>();
    call_laws_of_box::<Co64Box>();
    call_laws_of_box::<StscBox>();
    call_laws_of_box::<SttsBox>();
    call_laws_of_box::<CttsBox>();
    call_laws_of_box::<StssBox>();
    call_laws_of_box::<StszBox>();
    call_laws_of_box::<ElstBox>();
    call_laws_of_box::<TfhdBox>();
    call_laws_of_box::<TrunBox>();
}

#[test]
fn laws_hold_of_texts_and_references() {
    call_laws_of_box::<FtypBox>();
    call_laws_of_box::<HdlrBox>();
    call_laws_of_box::<DataBox>();
    call_laws_of_box::<EmsgBox>();
    call_laws_of_box::<UrlBox>();
    call_laws_of_box::<DrefBox>();
    call_laws_of_box::<DinfBox>();
}

#[test]
fn laws_hold_of_sample_entries() {
    call_laws_of_box::<AvcCBox>();
    call_laws_of_box::<Avc1Box>();
    call_laws_of_box::<HvcCBox>();
    call_laws_of_box::<Hev1Box>();
    call_laws_of_box::<VpccBox>();
    call_laws_of_box::<Vp09Box>();
    call_laws_of_box::<Tx3gBox>();
    call_laws_of_box::<EsdsBox>();
    call_laws_of_box::<Mp4aBox>();
    call_laws_of_box::<StsdBox>();
    sound_laws::descriptors_are_read_to_their_end();
}

#[test]
fn boxes_and_entries_are_read_without_memory() {
    is_read_without_memory::<MvhdBox>();
    is_read_without_memory::<TkhdBox>();
    is_read_without_memory::<MehdBox>();
    is_read_without_memory::<MfhdBox>();
    is_read_without_memory::<SmhdBox>();
    is_read_without_memory::<VmhdBox>();
    is_read_without_memory::<TrexBox>();
    is_read_without_memory::<TfdtBox>();
    is_read_without_memory::<TfhdBox>();
    is_read_without_memory::<HvcCBox>();
    is_read_without_memory::<Hev1Box>();
    is_read_without_memory::<VpccBox>();
    is_read_without_memory::<Vp09Box>();
    is_read_without_memory::<Tx3gBox>();
    is_read_without_memory::<EsdsBox>();
    is_read_without_memory::<Mp4aBox>();
}

#[test]
fn codes_and_flags_have_their_numbers(rt: HostRuntime) {
    assert_eq!(rt; laws::codes_of_names(BoxType::FtypBox), 0x6674_7970);
    code_is_kept(0x6674_7970);
    name_is_kept();
    header_is_read_back();
    laws::sizes_of_headers();
    assert_eq!(rt;
        flat_laws::discriminant_of_track_flag(TrackFlag::TrackEnabled),
        1
    );
    table_laws::flags_of_tfhd();
    table_laws::flags_of_trun();
}

#[test]
fn equality_is_of_all_fields() {
    laws::equality_is_of_all_fields();
    laws::equality_of_lists_is_of_entries::<u32>();
    flat_laws::equality_is_of_all_fields();
    table_laws::equality_of_entries_is_of_all_fields();
    table_laws::equality_is_of_all_fields();
    text_laws::equality_is_of_all_fields();
    entry_laws::equality_is_of_all_fields();
    sound_laws::equality_is_of_all_fields();
    any_laws::equality_is_of_all_fields();
}

#[test]
fn laws_hold_of_lists_and_of_a_type_from_outside() {
    call_laws_of_box::<MarkBox>();
    call_laws_of_lists::<AnyBox>();
    call_laws_of_lists::<MarkBox>();
    call_laws_of_lists::<KeptBox>();
    spans_follow_frames();
}

#[test]
fn laws_hold_of_the_box_and_of_lists() {
    call_laws_of_box::<SsixBox>();
    call_laws_of_lists::<SegmentBox>();
    call_laws_of_read_lists::<SegmentBox>();
}

#[test]
fn laws_hold_of_lists_that_were_read() {
    call_laws_of_read_lists::<AnyBox>();
    call_laws_of_read_lists::<KeptBox>();
    call_laws_of_read_lists::<MarkBox>();
}
