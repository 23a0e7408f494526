//! Values of fields as the boxes of the codec have them.

ghost use Rattle.std.specs.Prelude.{◌≡◌};

use mp4_shown::Matrix;

/// Returns the transformation `m` as a value has it.
pub(crate) fn matrix_of(m: &mp4_stream::Matrix) -> Matrix
    ensures { result ≡ record {
      a = m.now.a;
      b = m.now.b;
      u = m.now.u;
      c = m.now.c;
      d = m.now.d;
      v = m.now.v;
      x = m.now.x;
      y = m.now.y;
      w = m.now.w;
    } }
{
    Matrix {
        a: m.a,
        b: m.b,
        u: m.u,
        c: m.c,
        d: m.d,
        v: m.v,
        x: m.x,
        y: m.y,
        w: m.w,
    }
}
