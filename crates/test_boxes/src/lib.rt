//! For maintainers: tests of what no contract states. They cover single boxes and plain media types (codes, defaults,
//! constructors, clones, `==`, unwritable values, texts), the boxes of `mp4_extra` and `example_boxes`, and calls on
//! lists and buffers (the iterator, the laws at every type, cuts of a stream, memory, the example callers). The boxes
//! and checks come from `test_shared`.
#![tactic(auto)]

#[cfg(test)]
mod tests;
