//! Declared boxes with shapes that no box of `mp4_extra` has, mostly boxes that no standard defines. `test_probe` reads
//! them too.

mod checked;
mod children;
mod nested;
mod numbers;
mod options;
mod parents;
mod runs;
mod strings;

pub use checked::{RANG, Range, RangeBox};
pub use children::{INNR, Inner, OUTR, Outer, OuterBox};
pub use nested::{Group, LINS, Line, Lines, LinesBox, Moment, NEST, Nested, NestedBox};
pub use numbers::{NUMB, Numbers, NumbersBox, Packed};
pub use options::{OPTS, Options, OptionsBox};
pub use parents::{TREP, Trep, TrepBox};
pub use runs::{RUNS, Runs, RunsBox};
pub use strings::{STRS, Strings, StringsBox};
